//! The commit of an attempt that writes.
ghost use Rattle.std.specs.Prelude.{◌≡◌, ℕ, ◌+◌, ◌*◌, ◌-◌, ◌<◌, ◌≤◌, false, true, length, Some, None, IsSome, IsOk, IfErr, OnOk, OnErr};

use crate::gives::give_back_all;
use crate::locks::lock_all;
use crate::stop::Stop;
use crate::stores::store_all;
use crate::tx::Tx;
use cell_table::{Meaning, Pass};

impl<'a, M: Meaning> Tx<'a, M> {
    ghost use Rattle.cell_table.specs.Steps.{IsIdle, Grows};
    ghost use Rattle.cell_table.specs.Pass.{IsHeld, IsPassOf, IsSole, note, trail_of, version_drawn};
    ghost use Rattle.attempt_lists.specs.Cells.{word_at};
    ghost use Rattle.tx_core.specs.Calls.{IsOpen, MayCommit, NothingWaits, HoldsWrites, IsDrawn, stopped_from, stop_in, newly_held, HoldsAt};
    ghost use Rattle.tx_core.specs.Causes.{FoundTwice, IsFoundAt, IsOfOne, GrewBy};

    /// Takes the locks of the written cells that aren't held yet, in ascending order. Takes no memory.
    ///
    /// A cell that was only written may have any version. An observed one is taken from the version that was observed. After
    /// a stop the attempt is stopped, and the locks that were taken stay until `abort`.
    pub fn lock_writes(&mut self) -> Result<(), Stop>
        requires callable { MayCommit self.old }
        ensures all_held { OnOk result (HoldsWrites self.new) }
        ensures same { OnOk result (self.new ≡ record self.old { pass = self.new.pass; committing = true }) }
        ensures stopped { IfErr result (λ stop. IsOfOne self.old.writes stop × (self.new ≡ record self.old { pass = self.new.pass; state = stopped_from self.old.state; committing = true })) }

        // Of a cell that wasn't observed, two versions were found in this call.
        ensures twice { IfErr result (λ stop. (c : ℕ) → IsFoundAt c stop → word_at self.old.observations c ≡ None → FoundTwice (length (trail_of self.old.pass)) (trail_of self.new.pass) stop) }
        ensures leaves { HoldsAt (λ c. IsSome (word_at self.old.writes c)) (2 * length self.old.writes) self.old self.new (stop_in result) }
        ensures sole { IsSole self.old.pass → IsOk result }

        // Two steps for each cell that came to be held, and two more for a stop.
        ensures steps { OnOk result (GrewBy (2 * newly_held self.old.pass self.new.pass) (trail_of self.old.pass) (trail_of self.new.pass)) }
        ensures steps_to_stop { OnErr result (GrewBy (2 * newly_held self.old.pass self.new.pass + 2) (trail_of self.old.pass) (trail_of self.new.pass)) }
    {
        self.committing = true;
        self.writes.sort();
        let table = self.table;
        match lock_all(
            table,
            &mut self.pass,
            &self.reads,
            &self.writes,
            &mut self.held,
            self.version,
        ) {
            Ok(()) => Ok(()),
            Err(stop) => {
                self.state = self.state.stopped();
                Err(stop)
            }
        }
    }

    /// Ends the attempt with its record in the acting caller's book, at the place that was drawn. Takes no memory.
    ///
    /// It stores all written values, the first of which decides the record, and then gives each held cell back: a written one
    /// at that place, any other one with the version that it had. `lock_writes` and, as the last call, `draw_and_check` have
    /// answered Ok, and no addition waits any more.
    pub fn publish(self) -> Pass<M>
        requires open_now { IsOpen self.state }
        requires checked { (d : ℕ) × IsDrawn self d }
        requires all_held { HoldsWrites self }
        requires resolved { NothingWaits self }
        requires some_write { 0 < length self.writes }
        requires explained { (m : M) → self.pass.view.meaning ≡ Some m → M.explains m self.observations self.writes self.notes }
        ensures of { IsPassOf self.entry.table result }
        ensures idle { IsIdle result.view }
        ensures seen { result.seen ≡ version_drawn self.entry.pass.view.stage }
        ensures record { result.books ≡ note (version_drawn self.entry.pass.view.stage) true (record { observations = self.entry.observations; writes = self.entry.writes; dones = self.entry.notes }) self.entry.pass.books }
        ensures pass { (result.room ≡ self.entry.pass.room) × (result.view.draws ≡ self.entry.pass.view.draws) }
        ensures grows { Grows self.entry.pass.view result.view }
        ensures steps { GrewBy (length self.entry.writes + length self.entry.pass.view.held) (trail_of self.entry.pass) (trail_of result) }
    {
        let Tx {
            table,
            mut pass,
            version: _,
            reads,
            writes,
            held,
            notes,
            additions: _,
            spare: _,
            state: _,
            committing: _,
            mark: _,
        } = self;
        store_all(
            table,
            &mut pass,
            reads.into_observations(),
            writes.into_parent(),
            notes,
        );
        give_back_all(table, &mut pass, held);
        pass
    }
}
