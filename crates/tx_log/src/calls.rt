//! The calls of a log before the commit.
ghost use Rattle.std.specs.Prelude.{◌≡◌, ℕ, ◌+◌, ◌-◌, ◌^◌, ◌<◌, ◌≤◌, ◌⊎◌, false, [], ◌∷◌, ◌++◌, length, Some, IfOk, OnOk, OnErr};
ghost use Rattle.std.specs.List.{slice_get};
ghost use Rattle.cell_table.specs.Pass.{IsHeld};
ghost use Rattle.attempt_lists.specs.Parts.{ChangesOnly};
ghost use Rattle.tx_core.specs.Additions.{more_spare};
ghost use Rattle.tx_core.specs.Seen.{LooksOnly};
ghost use Rattle.tx_core.specs.Calls.{MayCall, LooksAt, HoldsAt, TouchesOnly, stop_in, memory_in, stopped_from, known, waiting};
ghost use Rattle.tx_core.specs.Sequences.{Appends, HasLength};
ghost use Rattle.tx_log.specs.Log.{MakesOf, AppendsAt, HasAt, IsReadOf};

use crate::part::LogPart;
use cell_table::Meaning;
use std::alloc::AllocError;
use tx_core::{Stop, Tx};

impl LogPart {
    /// Adds a value below 2^64 - 1 to the end of the log when the attempt commits. It looks at nothing, observes nothing
    /// and holds nothing.
    ///
    /// After want of memory the attempt is stopped, and nothing is added.
    pub fn append<M: Meaning>(&self, tx: &mut Tx<'_, M>, value: u64) -> Result<(), AllocError>
        requires callable { MayCall tx.old }
        requires value { value < 2 ^ 64 - 1 }
        ensures appended { OnOk result (MakesOf self.now tx.old tx.new (Appends value)) }
        ensures added { OnOk result (ChangesOnly tx.old.additions tx.new.additions self.now.part (waiting self.now.part tx.old ++ value ∷ [])) }
        ensures ok { OnOk result (tx.new ≡ record tx.old { pass = tx.new.pass; additions = tx.new.additions; spare = more_spare 2 tx.old.spare }) }
        ensures stopped { OnErr result (tx.new ≡ record tx.old { pass = tx.new.pass; state = stopped_from tx.old.state }) }
        ensures pass { tx.new.pass ≡ record tx.old.pass { places = tx.new.pass.places } }
        ensures looks { LooksAt (λ c. ⊥) 0 tx.old tx.new (memory_in result) }
    {
        tx.later(self.part, value)
    }

    /// How many values the log has, those included that the attempt adds.
    ///
    /// It observes the log's end. After a stop the attempt is stopped.
    pub fn len<M: Meaning>(&self, tx: &mut Tx<'_, M>) -> Result<u64, Stop>
        requires callable { MayCall tx.old }
        requires part { self.now.end + self.now.capacity < length tx.old.table.opening }
        ensures length { IfOk result (λ n. MakesOf self.now tx.old tx.new (HasLength n)) }
        ensures looks { LooksAt (λ c. c ≡ self.now.end) 3 tx.old tx.new (stop_in result) }
        ensures same { tx.new ≡ record tx.old { pass = tx.new.pass; state = tx.new.state; observations = tx.new.observations; versions = tx.new.versions } }
        ensures pass { LooksOnly tx.old.pass tx.new.pass }
    {
        match tx.read(self.end) {
            Ok(shared) => {
                tx.laid_over_law();
                Ok(self.with_waiting(tx, shared))
            }
            Err(stop) => Err(stop),
        }
    }

    // The length with the additions that wait.
    fn with_waiting<M: Meaning>(&self, tx: &Tx<'_, M>, shared: u64) -> u64
        requires before_commit { tx.now.committing ≡ false }
        requires part { self.now.end + self.now.capacity < length tx.now.table.opening }
        ensures { shared ≤ self.now.capacity → result ≡ shared + length (waiting self.now.part tx.now) }
    {
        tx.limits_law();
        tx.provided_law();
        shared.saturating_add(tx.pending(self.part))
    }

    /// Adds a value below 2^64 - 1 to the end of the log when the attempt commits, and answers the place that it will
    /// have. For that the log's end is held from now on.
    ///
    /// The place is the length, the additions that wait included. After a stop the attempt is stopped, and nothing is
    /// added.
    pub fn append_placed<M: Meaning>(&self, tx: &mut Tx<'_, M>, value: u64) -> Result<u64, Stop>
        requires callable { MayCall tx.old }
        requires part { self.now.end + self.now.capacity < length tx.old.table.opening }
        requires value { value < 2 ^ 64 - 1 }
        ensures placed { IfOk result (λ n. MakesOf self.now tx.old tx.new (AppendsAt value n)) }
        ensures added { OnOk result (ChangesOnly tx.old.additions tx.new.additions self.now.part (waiting self.now.part tx.old ++ value ∷ []) × (tx.new.spare ≡ more_spare 2 tx.old.spare)) }
        ensures held { OnOk result (IsHeld tx.new.pass self.now.end) }
        ensures holds { HoldsAt (λ c. c ≡ self.now.end) 3 tx.old tx.new (stop_in result) }
        ensures refused { OnErr result ((tx.new.additions ≡ tx.old.additions) × (tx.new.spare ≡ tx.old.spare)) }
        ensures same { tx.new ≡ record tx.old { pass = tx.new.pass; state = tx.new.state; observations = tx.new.observations; versions = tx.new.versions; additions = tx.new.additions; spare = tx.new.spare } }
    {
        let shared = match tx.hold(self.end) {
            Ok(shared) => shared,
            Err(stop) => return Err(stop),
        };
        tx.laid_over_law();
        let place = self.with_waiting(tx, shared);
        match tx.later(self.part, value) {
            Ok(()) => Ok(place),
            Err(AllocError) => Err(Stop::Memory),
        }
    }

    /// The value at place `i`, or `None` where the log isn't that long. The values that the attempt adds stand behind those
    /// that are there.
    ///
    /// It observes the entry where `i` is below the capacity, and the log's end where the entry isn't there. After a stop
    /// the attempt is stopped.
    pub fn read<M: Meaning>(&self, tx: &mut Tx<'_, M>, i: u64) -> Result<Option<u64>, Stop>
        requires callable { MayCall tx.old }
        requires part { self.now.end + self.now.capacity < length tx.old.table.opening }
        ensures value { IfOk result (λ x. MakesOf self.now tx.old tx.new (HasAt i x)) }
        ensures looks { LooksAt (IsReadOf self.now i) 6 tx.old tx.new (stop_in result) }
        ensures entry_alone { (word : ℕ) → i < self.now.capacity → known tx.new (self.now.end + 1 + i) ≡ Some word → 0 < word → TouchesOnly (λ c. c ≡ self.now.end + 1 + i) tx.old tx.new }
        ensures same { tx.new ≡ record tx.old { pass = tx.new.pass; state = tx.new.state; observations = tx.new.observations; versions = tx.new.versions } }
        ensures pass { LooksOnly tx.old.pass tx.new.pass }
    {
        let word = match self.entry_word(tx, i) {
            Ok(word) => word,
            Err(stop) => return Err(stop),
        };
        if word > 0 {
            tx.laid_over_law();
            return Ok(Some(word - 1));
        }
        let shared = match tx.read(self.end) {
            Ok(shared) => shared,
            Err(stop) => return Err(stop),
        };
        tx.laid_over_law();
        Ok(self.waiting_at(tx, i, shared))
    }

    // The word of the entry at place `i`, and 0 from the capacity on, without a look.
    fn entry_word<M: Meaning>(&self, tx: &mut Tx<'_, M>, i: u64) -> Result<u64, Stop>
        requires callable { MayCall tx.old }
        requires part { self.now.end + self.now.capacity < length tx.old.table.opening }
        ensures word { IfOk result (λ w. (i < self.now.capacity → known tx.new (self.now.end + 1 + i) ≡ Some w) × (self.now.capacity ≤ i → w ≡ 0)) }
        ensures looks { LooksAt (λ c. (i < self.now.capacity) × (c ≡ self.now.end + 1 + i)) 3 tx.old tx.new (stop_in result) }
        ensures same { tx.new ≡ record tx.old { pass = tx.new.pass; state = tx.new.state; observations = tx.new.observations; versions = tx.new.versions } }
        ensures pass { LooksOnly tx.old.pass tx.new.pass }
    {
        tx.limits_law();
        if i >= u64::from(self.capacity) {
            return Ok(0);
        }
        match tx.read(self.end + 1 + i as u32) {
            Ok(word) => Ok(word),
            Err(stop) => Err(stop),
        }
    }

    // The addition at place `i` of the log, which has so many entries.
    fn waiting_at<M: Meaning>(&self, tx: &Tx<'_, M>, i: u64, shared: u64) -> Option<u64>
        ensures { shared ≤ i → result ≡ slice_get (waiting self.now.part tx.now) (i - shared) }
    {
        let later = i.checked_sub(shared)?;
        if later < tx.pending(self.part) {
            return Some(tx.pending_at(self.part, later));
        }
        None
    }
}
