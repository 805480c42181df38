//! The placing of a log's additions at the commit.
ghost use Rattle.std.specs.Prelude.{◌≡◌, ℕ, ◌+◌, ◌-◌, ◌*◌, ◌^◌, ◌<◌, ◌≤◌, [], length, All, Some, IsOk, IfErr, OnOk};
ghost use Rattle.cell_table.specs.declared.view.Stage.TheVariants.{Open};
ghost use Rattle.cell_table.specs.Pass.{IsSole, IsHeld};
ghost use Rattle.tx_core.specs.declared.stop.TxState.TheVariants.{Running};
ghost use Rattle.tx_core.specs.Additions.{HasSpare};
ghost use Rattle.tx_core.specs.Calls.{StepsAt, UsesAtMost, KeepsOthers, known, waiting};
ghost use Rattle.tx_core.specs.Sequences.{IsAddition, IsEndOrAddition, IsPlaced, IsSettled, IsSettledBy, IsStoppedAt, IsRefused, IsFullEnd, Placing, Settles, Exceeds, next_of};
ghost use Rattle.tx_log.specs.Log.{MakesOf, sequence_of};

use crate::part::LogPart;
use cell_table::Meaning;
use tx_core::{ResolveEnd, Stop, Tx};

impl LogPart {
    /// Places the additions that wait behind the entries, at the commit. Takes no memory.
    ///
    /// It holds the log's end. Where the length with what waits is above the capacity, all that was observed is validated
    /// at the clock; the answer is then `Full`, and nothing is placed. Else the cell of each new entry is held and written,
    /// and the end once. Where nothing waits it does nothing.
    ///
    /// After a stop the state is `Stopped`; after `Full` it's as before.
    pub fn resolve<M: Meaning>(&self, tx: &mut Tx<'_, M>) -> Result<(), ResolveEnd>
        requires running { tx.old.state ≡ Running }
        requires undrawn { tx.old.pass.view.stage ≡ Open }
        requires part { self.now.end + self.now.capacity < length tx.old.table.opening }
        requires small { All (λ v. v < 2 ^ 64 - 1) (waiting self.now.part tx.old) }
        requires spare { HasSpare tx.old.spare (2 * length (waiting self.now.part tx.old)) }
        ensures nothing { waiting self.now.part tx.old ≡ [] → IsOk result × (tx.new ≡ tx.old) }
        ensures placed { OnOk result (MakesOf self.now tx.old tx.new (Settles self.now.capacity)) }
        ensures settled { OnOk result (IsSettled (sequence_of self.now) tx.old tx.new) }
        ensures refused { IfErr result (IsRefused (sequence_of self.now) (λ n. MakesOf self.now tx.old tx.new (Exceeds n)) tx.old tx.new) }
        ensures leaves { Placing (sequence_of self.now) tx.old tx.new }
        ensures sole { IsSole tx.old.pass → IfErr result IsFullEnd }
    {
        let adding = tx.pending(self.part);
        if adding == 0 {
            return Ok(());
        }
        let shared = match tx.late_hold(self.end) {
            Ok(shared) => shared,
            Err(stop) => return Err(ResolveEnd::Stop(stop)),
        };
        tx.laid_over_law();
        if shared.saturating_add(adding) > u64::from(self.capacity) {
            return match tx.check_now() {
                Ok(_) => Err(ResolveEnd::Full {
                    part: self.part,
                    length: shared,
                    adding,
                }),
                Err(stop) => Err(ResolveEnd::Stop(stop)),
            };
        }
        match self.place_all(tx, shared) {
            Ok(()) => {
                tx.laid_over_law();
                Ok(())
            }
            Err(stop) => Err(ResolveEnd::Stop(stop)),
        }
    }

    // Holds the cell of the entry at a place, and writes the value there.
    fn place_one<M: Meaning>(&self, tx: &mut Tx<'_, M>, value: u64, place: u64) -> Result<(), Stop>
        requires running { tx.old.state ≡ Running }
        requires undrawn { tx.old.pass.view.stage ≡ Open }
        requires part { self.now.end + self.now.capacity < length tx.old.table.opening }
        requires place { place < self.now.capacity }
        requires small { value < 2 ^ 64 - 1 }
        requires spare { HasSpare tx.old.spare 1 }
        ensures placed { OnOk result (IsPlaced (sequence_of self.now) (next_of (sequence_of self.now) place) value tx.old tx.new) }
        ensures stopped { IfErr result (IsStoppedAt (λ c. c ≡ next_of (sequence_of self.now) place) tx.old tx.new) }
        ensures same { tx.new ≡ record tx.old { pass = tx.new.pass; state = tx.new.state; observations = tx.new.observations; versions = tx.new.versions; writes = tx.new.writes; spare = tx.new.spare; committing = tx.new.committing } }
        ensures does { StepsAt (λ c. c ≡ next_of (sequence_of self.now) place) 3 tx.old tx.new }
        ensures used { UsesAtMost 1 1 tx.old.spare tx.new.spare }
        ensures sole { IsSole tx.old.pass → IsOk result }
    {
        tx.limits_law();
        let cell = self.end + 1 + place as u32;
        match tx.late_hold(cell) {
            Ok(_) => {
                tx.write_reserved(cell, value + 1);
                Ok(())
            }
            Err(stop) => Err(stop),
        }
    }

    // Places all additions that wait behind the entries, of which there are so many, and then writes the length. The end is
    // held.
    fn place_all<M: Meaning>(&self, tx: &mut Tx<'_, M>, shared: u64) -> Result<(), Stop>
        requires running { tx.old.state ≡ Running }
        requires undrawn { tx.old.pass.view.stage ≡ Open }
        requires part { self.now.end + self.now.capacity < length tx.old.table.opening }
        requires held { IsHeld tx.old.pass self.now.end }
        requires found { known tx.old self.now.end ≡ Some shared }
        requires fits { shared + length (waiting self.now.part tx.old) ≤ self.now.capacity }
        requires small { All (λ v. v < 2 ^ 64 - 1) (waiting self.now.part tx.old) }
        requires spare { HasSpare tx.old.spare (length (waiting self.now.part tx.old)) }
        requires spare_write { length (waiting self.now.part tx.old) < tx.old.spare.writes }
        ensures settled { OnOk result (IsSettledBy (sequence_of self.now) (length (waiting self.now.part tx.old)) tx.old tx.new) }
        ensures stopped { IfErr result (IsStoppedAt (IsAddition (sequence_of self.now) shared (length (waiting self.now.part tx.old))) tx.old tx.new) }
        ensures same { tx.new ≡ record tx.old { pass = tx.new.pass; state = tx.new.state; observations = tx.new.observations; versions = tx.new.versions; writes = tx.new.writes; additions = tx.new.additions; spare = tx.new.spare; committing = tx.new.committing } }
        ensures does { StepsAt (IsEndOrAddition (sequence_of self.now) shared (length (waiting self.now.part tx.old))) (3 * length (waiting self.now.part tx.old)) tx.old tx.new }
        ensures others { KeepsOthers self.now.part tx.old.additions tx.new.additions }
        ensures used { UsesAtMost (length (waiting self.now.part tx.old)) (length (waiting self.now.part tx.old) + 1) tx.old.spare tx.new.spare }
        ensures sole { IsSole tx.old.pass → IsOk result }
    {
        let mut place = shared;
        while let Some(value) = tx.take_later(self.part) {
            match self.place_one(tx, value, place) {
                Ok(()) => place += 1,
                Err(stop) => return Err(stop),
            }
        }
        tx.write_reserved(self.end, place);
        Ok(())
    }
}
