//! The calls of a queue before the commit.
ghost use Rattle.std.specs.Prelude.{◌≡◌, ◌+◌, ◌<◌, ◌⊎◌, false, [], ◌∷◌, ◌++◌, length, Some, IfOk, OnOk, OnErr};
ghost use Rattle.cell_table.specs.Pass.{IsHeld};
ghost use Rattle.attempt_lists.specs.Cells.{put};
ghost use Rattle.attempt_lists.specs.Parts.{ChangesOnly};
ghost use Rattle.store_layout.specs.States.{length_in};
ghost use Rattle.tx_core.specs.Additions.{more_spare};
ghost use Rattle.tx_core.specs.Seen.{LooksOnly};
ghost use Rattle.tx_core.specs.Calls.{MayCall, LooksAt, HoldsAt, KeepsOthers, stop_in, memory_in, stopped_from, known, waiting};
ghost use Rattle.tx_core.specs.Sequences.{Appends, HasLength};
ghost use Rattle.tx_queue.specs.Queue.{MakesOf, Dequeues, IsFront, IsEndAlone, LeavesRest, front_of, end_after};

use crate::part::{QueuePart, head_and_length};
use cell_table::{Meaning, pack_head_len};
use std::alloc::AllocError;
use tx_core::{Stop, Tx};

impl QueuePart {
    /// Adds a value to the end of the queue when the attempt commits. It looks at nothing, observes nothing and holds
    /// nothing.
    ///
    /// After want of memory the attempt is stopped, and nothing is added.
    pub fn enqueue<M: Meaning>(&self, tx: &mut Tx<'_, M>, value: u64) -> Result<(), AllocError>
        requires callable { MayCall tx.old }
        ensures appended { OnOk result (MakesOf self.now tx.old tx.new (Appends value)) }
        ensures added { OnOk result (ChangesOnly tx.old.additions tx.new.additions self.now.part (waiting self.now.part tx.old ++ value ∷ [])) }
        ensures ok { OnOk result (tx.new ≡ record tx.old { pass = tx.new.pass; additions = tx.new.additions; spare = more_spare 2 tx.old.spare }) }
        ensures stopped { OnErr result (tx.new ≡ record tx.old { pass = tx.new.pass; state = stopped_from tx.old.state }) }
        ensures pass { tx.new.pass ≡ record tx.old.pass { places = tx.new.pass.places } }
        ensures looks { LooksAt (λ c. ⊥) 0 tx.old tx.new (memory_in result) }
    {
        tx.later(self.part, value)
    }

    /// How many values the queue has: those that the attempt has taken are gone, and those that it adds are there.
    ///
    /// It observes the queue's end. After a stop the attempt is stopped.
    pub fn len<M: Meaning>(&self, tx: &mut Tx<'_, M>) -> Result<u64, Stop>
        requires callable { MayCall tx.old }
        requires part { self.now.end + self.now.capacity < length tx.old.table.opening }
        ensures length { IfOk result (λ n. MakesOf self.now tx.old tx.new (HasLength n)) }
        ensures looks { LooksAt (λ c. c ≡ self.now.end) 3 tx.old tx.new (stop_in result) }
        ensures same { tx.new ≡ record tx.old { pass = tx.new.pass; state = tx.new.state; observations = tx.new.observations; versions = tx.new.versions } }
        ensures pass { LooksOnly tx.old.pass tx.new.pass }
    {
        match tx.read(self.end) {
            Ok(end) => {
                tx.laid_over_law();
                Ok(self.with_waiting(tx, end))
            }
            Err(stop) => Err(stop),
        }
    }

    // The length by the word of the end, with the additions that wait.
    fn with_waiting<M: Meaning>(&self, tx: &Tx<'_, M>, end: u64) -> u64
        requires before_commit { tx.now.committing ≡ false }
        ensures { result ≡ length_in end + length (waiting self.now.part tx.now) }
    {
        tx.provided_law();
        let (_, shared) = head_and_length(end);
        u64::from(shared) + tx.pending(self.part)
    }

    /// Takes the first value out of the queue, or answers `None` exactly where there is none. The values that the attempt
    /// adds come behind those that are in the cells.
    ///
    /// The queue's end is held from now on. Where an item stands in the cells, its cell is observed, and the end is written.
    /// After a stop the attempt is stopped, and nothing is taken.
    pub fn dequeue<M: Meaning>(&self, tx: &mut Tx<'_, M>) -> Result<Option<u64>, Stop>
        requires callable { MayCall tx.old }
        requires part { self.now.end + self.now.capacity < length tx.old.table.opening }
        ensures taken { IfOk result (λ x. MakesOf self.now tx.old tx.new (Dequeues x)) }
        ensures held { OnOk result (IsHeld tx.new.pass self.now.end) }
        ensures holds { HoldsAt (IsFront self.now tx.old tx.new) 6 tx.old tx.new (stop_in result) }
        ensures end_alone { IsEndAlone self.now tx.old tx.new }
        ensures others { KeepsOthers self.now.part tx.old.additions tx.new.additions }
        ensures rest { LeavesRest self.now tx.old tx.new }
        ensures refused { OnErr result ((tx.new.writes ≡ tx.old.writes) × (tx.new.additions ≡ tx.old.additions)) }
        ensures same { tx.new ≡ record tx.old { pass = tx.new.pass; state = tx.new.state; observations = tx.new.observations; versions = tx.new.versions; writes = tx.new.writes; additions = tx.new.additions } }
    {
        let end = match tx.hold(self.end) {
            Ok(end) => end,
            Err(stop) => return Err(stop),
        };
        tx.laid_over_law();
        let (_, length) = head_and_length(end);
        if length == 0 || self.capacity == 0 {
            return Ok(tx.take_later(self.part));
        }
        match self.take_first(tx, end) {
            Ok(value) => {
                tx.laid_over_law();
                Ok(Some(value))
            }
            Err(stop) => Err(stop),
        }
    }

    // Takes the first of the items in the cells. The end is held and has this word, by which there are some.
    fn take_first<M: Meaning>(&self, tx: &mut Tx<'_, M>, end: u64) -> Result<u64, Stop>
        requires callable { MayCall tx.old }
        requires part { self.now.end + self.now.capacity < length tx.old.table.opening }
        requires room { 0 < self.now.capacity }
        requires some { 0 < length_in end }
        ensures value { IfOk result (λ x. known tx.new (front_of self.now end) ≡ Some x) }
        ensures taken { OnOk result (tx.new.writes ≡ put tx.old.writes self.now.end (end_after self.now end)) }
        ensures holds { HoldsAt (λ c. (c ≡ self.now.end) ⊎ (c ≡ front_of self.now end)) 3 tx.old tx.new (stop_in result) }
        ensures unheld { tx.new.pass.view.held ≡ tx.old.pass.view.held }
        ensures refused { OnErr result (tx.new.writes ≡ tx.old.writes) }
        ensures same { tx.new ≡ record tx.old { pass = tx.new.pass; state = tx.new.state; observations = tx.new.observations; versions = tx.new.versions; writes = tx.new.writes } }
    {
        tx.limits_law();
        let (head, length) = head_and_length(end);
        let place = head % self.capacity;
        let value = match tx.read(self.end + 1 + place) {
            Ok(value) => value,
            Err(stop) => return Err(stop),
        };
        let rest = pack_head_len((place + 1) % self.capacity, length - 1);
        match tx.write(self.end, rest) {
            Ok(()) => Ok(value),
            Err(AllocError) => Err(Stop::Memory),
        }
    }
}
