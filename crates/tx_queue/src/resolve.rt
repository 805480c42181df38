//! The placing of a queue's additions at the commit.
ghost use Rattle.std.specs.Prelude.{◌≡◌, ◌+◌, ◌*◌, ◌^◌, ◌<◌, ◌≤◌, [], length, Some, IsOk, IfErr, OnOk};
ghost use Rattle.cell_table.specs.declared.view.Stage.TheVariants.{Open};
ghost use Rattle.cell_table.specs.Pass.{IsSole, IsHeld};
ghost use Rattle.store_layout.specs.States.{length_in};
ghost use Rattle.tx_core.specs.declared.stop.TxState.TheVariants.{Running};
ghost use Rattle.tx_core.specs.Additions.{HasSpare};
ghost use Rattle.tx_core.specs.Calls.{StepsAt, UsesAtMost, KeepsOthers, known, waiting};
ghost use Rattle.tx_core.specs.Sequences.{IsAddition, IsEndOrAddition, IsPlaced, IsSettled, IsSettledBy, IsStoppedAt, IsRefused, IsFullEnd, Placing, Settles, Exceeds, next_of};
ghost use Rattle.tx_queue.specs.Queue.{MakesOf, sequence_of};

use crate::part::{QueuePart, head_and_length};
use cell_table::Meaning;
use tx_core::{ResolveEnd, Stop, Tx};

impl QueuePart {
    /// Places the additions that wait behind the items, at the commit. Takes no memory.
    ///
    /// It holds the queue's end. Where the length with what waits is above the capacity, all that was observed is validated
    /// at the clock; the answer is then `Full`, and nothing is placed. Else the cell of each new item is held and written,
    /// and the end once. Where nothing waits it does nothing.
    ///
    /// After a stop the state is `Stopped`; after `Full` it's as before.
    pub fn resolve<M: Meaning>(&self, tx: &mut Tx<'_, M>) -> Result<(), ResolveEnd>
        requires running { tx.old.state ≡ Running }
        requires undrawn { tx.old.pass.view.stage ≡ Open }
        requires part { self.now.end + self.now.capacity < length tx.old.table.opening }
        requires spare { HasSpare tx.old.spare (2 * length (waiting self.now.part tx.old)) }
        ensures nothing { waiting self.now.part tx.old ≡ [] → IsOk result × (tx.new ≡ tx.old) }
        ensures placed { OnOk result (MakesOf self.now tx.old tx.new (Settles self.now.capacity)) }
        ensures settled { OnOk result (IsSettled (sequence_of self.now) tx.old tx.new) }
        ensures refused { IfErr result (IsRefused (sequence_of self.now) (λ n. MakesOf self.now tx.old tx.new (Exceeds n)) tx.old tx.new) }
        ensures leaves { Placing (sequence_of self.now) tx.old tx.new }
        ensures sole { IsSole tx.old.pass → IfErr result IsFullEnd }
    {
        let adding = tx.pending(self.part);
        if adding == 0 {
            return Ok(());
        }
        let end = match tx.late_hold(self.end) {
            Ok(end) => end,
            Err(stop) => return Err(ResolveEnd::Stop(stop)),
        };
        tx.laid_over_law();
        tx.limits_law();
        let (_, length) = head_and_length(end);
        let length = u64::from(length);
        if length.saturating_add(adding) > u64::from(self.capacity) {
            return match tx.check_now() {
                Ok(_) => Err(ResolveEnd::Full {
                    part: self.part,
                    length,
                    adding,
                }),
                Err(stop) => Err(ResolveEnd::Stop(stop)),
            };
        }
        match self.place_all(tx, end) {
            Ok(()) => {
                tx.laid_over_law();
                Ok(())
            }
            Err(stop) => Err(ResolveEnd::Stop(stop)),
        }
    }

    // Holds the cell of the next item by this word of the end, and writes the value there.
    fn place_one<M: Meaning>(&self, tx: &mut Tx<'_, M>, value: u64, end: u64) -> Result<(), Stop>
        requires running { tx.old.state ≡ Running }
        requires undrawn { tx.old.pass.view.stage ≡ Open }
        requires part { self.now.end + self.now.capacity < length tx.old.table.opening }
        requires room { 0 < self.now.capacity }
        requires spare { HasSpare tx.old.spare 1 }
        ensures placed { OnOk result (IsPlaced (sequence_of self.now) (next_of (sequence_of self.now) end) value tx.old tx.new) }
        ensures stopped { IfErr result (IsStoppedAt (λ c. c ≡ next_of (sequence_of self.now) end) tx.old tx.new) }
        ensures same { tx.new ≡ record tx.old { pass = tx.new.pass; state = tx.new.state; observations = tx.new.observations; versions = tx.new.versions; writes = tx.new.writes; spare = tx.new.spare; committing = tx.new.committing } }
        ensures does { StepsAt (λ c. c ≡ next_of (sequence_of self.now) end) 3 tx.old tx.new }
        ensures used { UsesAtMost 1 1 tx.old.spare tx.new.spare }
        ensures sole { IsSole tx.old.pass → IsOk result }
    {
        tx.limits_law();
        let cell = self.next_cell(end);
        match tx.late_hold(cell) {
            Ok(_) => {
                tx.write_reserved(cell, value);
                Ok(())
            }
            Err(stop) => Err(stop),
        }
    }

    // The cell in which the next item stands, by this word of the end.
    fn next_cell(&self, end: u64) -> u32
        requires room { 0 < self.now.capacity }
        requires in_range { self.now.end + self.now.capacity < 2 ^ 32 }
        ensures next { result ≡ next_of (sequence_of self.now) end }
        ensures within { result ≤ self.now.end + self.now.capacity }
    {
        let (head, length) = head_and_length(end);
        let place = (u64::from(head) + u64::from(length)) % u64::from(self.capacity);
        self.end + 1 + place as u32
    }

    // Places all additions that wait behind the items, and then writes the end, which is held and has this word.
    fn place_all<M: Meaning>(&self, tx: &mut Tx<'_, M>, end: u64) -> Result<(), Stop>
        requires running { tx.old.state ≡ Running }
        requires undrawn { tx.old.pass.view.stage ≡ Open }
        requires part { self.now.end + self.now.capacity < length tx.old.table.opening }
        requires held { IsHeld tx.old.pass self.now.end }
        requires found { known tx.old self.now.end ≡ Some end }
        requires fits { length_in end + length (waiting self.now.part tx.old) ≤ self.now.capacity }
        requires spare { HasSpare tx.old.spare (length (waiting self.now.part tx.old)) }
        requires spare_write { length (waiting self.now.part tx.old) < tx.old.spare.writes }
        ensures settled { OnOk result (IsSettledBy (sequence_of self.now) (length (waiting self.now.part tx.old)) tx.old tx.new) }
        ensures stopped { IfErr result (IsStoppedAt (IsAddition (sequence_of self.now) end (length (waiting self.now.part tx.old))) tx.old tx.new) }
        ensures same { tx.new ≡ record tx.old { pass = tx.new.pass; state = tx.new.state; observations = tx.new.observations; versions = tx.new.versions; writes = tx.new.writes; additions = tx.new.additions; spare = tx.new.spare; committing = tx.new.committing } }
        ensures does { StepsAt (IsEndOrAddition (sequence_of self.now) end (length (waiting self.now.part tx.old))) (3 * length (waiting self.now.part tx.old)) tx.old tx.new }
        ensures others { KeepsOthers self.now.part tx.old.additions tx.new.additions }
        ensures used { UsesAtMost (length (waiting self.now.part tx.old)) (length (waiting self.now.part tx.old) + 1) tx.old.spare tx.new.spare }
        ensures sole { IsSole tx.old.pass → IsOk result }
    {
        tx.limits_law();
        let mut next = end;
        while let Some(value) = tx.take_later(self.part) {
            match self.place_one(tx, value, next) {
                Ok(()) => next += 1,
                Err(stop) => return Err(stop),
            }
        }
        tx.write_reserved(self.end, next);
        Ok(())
    }
}
