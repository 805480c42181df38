//! Calls of the commit that place additions.
ghost use Rattle.std.specs.Prelude.{◌≡◌, ℕ, ◌+◌, ◌-◌, ◌<◌, ◌≤◌, ◌∷◌, ◌++◌, true, false, length, is_some, Some, None, IsSome, IsNone, IsOk, IfOk, IfErr, OnOk, OnErr, ◌⊎◌, if◌then◌else◌};
ghost use Rattle.std.specs.Option.{option_or};

use crate::check::check;
use crate::locks::{lock_late, lock_newest};
use crate::stop::Stop;
use crate::tx::Tx;
use attempt_lists::Observation;
use cell_table::Meaning;

impl<'a, M: Meaning> Tx<'a, M> {
    ghost use Rattle.std.specs.Prelude.{List};
    ghost use Rattle.cell_table.specs.Cells.{has};
    ghost use Rattle.cell_table.specs.Rule.{cells_of};
    ghost use Rattle.cell_table.specs.declared.view.Event.{Event};
    ghost use Rattle.cell_table.specs.declared.view.Event.TheVariants.{ClockLoaded};
    ghost use Rattle.cell_table.specs.declared.view.Stage.TheVariants.{Open};
    ghost use Rattle.cell_table.specs.Steps.{Observes};
    ghost use Rattle.cell_table.specs.Pass.{IsSole, IsHeld, trail_of};
    ghost use Rattle.attempt_lists.specs.Cells.{word_at, word_of, cell_at, put};
    ghost use Rattle.tx_core.specs.Calls.{stopped_from, stop_in, CausedIn, Locks, TouchesOnly, StepsAt, HoldsAt};
    ghost use Rattle.tx_core.specs.declared.stop.TxState.TheVariants.{Running};
    ghost use Rattle.tx_core.specs.Causes.{FoundTwice, IsFoundAt, IsFound, GrewBy};
    ghost use Rattle.tx_core.specs.Seen.{LooksOnly, HoldsOnly, KnowsMore, IsFirstChanged};
    ghost use Rattle.tx_core.specs.Tx.{ObservedLate};

    /// Takes the lock of a cell in the commit, whatever its version is, unless the cell was observed and has changed. It
    /// answers the attempt's own write, else the value, which is then observed. A cell that is held already takes no step.
    /// Takes no memory.
    ///
    /// What is observed here stands at no place before it is validated. After a stop the attempt is stopped, and no cell
    /// is held that wasn't.
    pub fn late_hold(&mut self, cell: u32) -> Result<u64, Stop>
        requires running { self.old.state ≡ Running }
        requires undrawn { self.old.pass.view.stage ≡ Open }
        requires cell { cell < length self.old.table.opening }
        requires spare { IsHeld self.old.pass cell ⊎ ((0 < self.old.spare.locks) × (0 < self.old.spare.observations)) }
        ensures held { OnOk result (IsHeld self.new.pass cell) }
        ensures value { IfOk result (λ x. option_or (word_at self.old.writes cell) (word_at self.new.observations cell) ≡ Some x) }
        ensures already { IsHeld self.old.pass cell → IsOk result × (self.new ≡ record self.old { committing = true }) }
        ensures takes { has cell (cells_of self.old.pass.view.held) ≡ false → OnOk result ((u : ℕ) × Locks self.old self.new cell u) }
        ensures known { has cell (cells_of self.old.pass.view.held) ≡ false → IsSome (option_or (word_at self.old.writes cell) (word_at self.old.observations cell)) → OnOk result (self.new ≡ record self.old { pass = self.new.pass; spare = record self.old.spare { locks = self.old.spare.locks - 1 }; committing = true }) }
        ensures observes { has cell (cells_of self.old.pass.view.held) ≡ false → word_at self.old.writes cell ≡ None → word_at self.old.observations cell ≡ None → IfOk result (λ x. ObservedLate self.old self.new cell x) }
        ensures stopped { IfErr result (λ stop. IsFoundAt cell stop × (self.new ≡ record self.old { pass = self.new.pass; state = stopped_from self.old.state; committing = true }) × LooksOnly self.old.pass self.new.pass) }
        ensures twice { word_at self.old.observations cell ≡ None → IfErr result (FoundTwice (length (trail_of self.old.pass)) (trail_of self.new.pass)) }
        ensures leaves { HoldsAt (λ c. c ≡ cell) 3 self.old self.new (stop_in result) }
        ensures steps { OnErr result (GrewBy 2 (trail_of self.old.pass) (trail_of self.new.pass)) }
        ensures sole { IsSole self.old.pass → IsOk result }
    {
        self.committing = true;
        match self.take_late(cell) {
            Ok(value) => Ok(value),
            Err(stop) => {
                self.halt();
                Err(stop)
            }
        }
    }

    // Takes the lock of a cell in the commit, and answers its value. The state stays.
    fn take_late(&mut self, cell: u32) -> Result<u64, Stop>
        requires committing { self.old.committing ≡ true }
        requires undrawn { self.old.pass.view.stage ≡ Open }
        requires cell { cell < length self.old.table.opening }
        requires spare { IsHeld self.old.pass cell ⊎ ((0 < self.old.spare.locks) × (0 < self.old.spare.observations)) }
        ensures held { OnOk result (IsHeld self.new.pass cell) }
        ensures state { self.new.state ≡ self.old.state }
        ensures value { IfOk result (λ x. option_or (word_at self.old.writes cell) (word_at self.new.observations cell) ≡ Some x) }
        ensures already { IsHeld self.old.pass cell → IsOk result × (self.new ≡ self.old) }
        ensures takes { has cell (cells_of self.old.pass.view.held) ≡ false → OnOk result ((u : ℕ) × Locks self.old self.new cell u) }
        ensures known { has cell (cells_of self.old.pass.view.held) ≡ false → IsSome (option_or (word_at self.old.writes cell) (word_at self.old.observations cell)) → OnOk result (self.new ≡ record self.old { pass = self.new.pass; spare = record self.old.spare { locks = self.old.spare.locks - 1 } }) }
        ensures observes { has cell (cells_of self.old.pass.view.held) ≡ false → word_at self.old.writes cell ≡ None → word_at self.old.observations cell ≡ None → IfOk result (λ x. ObservedLate self.old self.new cell x) }
        ensures stopped { IfErr result (λ stop. IsFoundAt cell stop × (self.new ≡ record self.old { pass = self.new.pass }) × LooksOnly self.old.pass self.new.pass) }
        ensures cause { IfErr result (CausedIn self.old self.new) }
        ensures twice { word_at self.old.observations cell ≡ None → IfErr result (FoundTwice (length (trail_of self.old.pass)) (trail_of self.new.pass)) }
        ensures pass { HoldsOnly self.old.pass self.new.pass }
        ensures does { StepsAt (λ c. c ≡ cell) 3 self.old self.new }
        ensures steps { OnErr result (GrewBy 2 (trail_of self.old.pass) (trail_of self.new.pass)) }
        ensures sole { IsSole self.old.pass → IsOk result }
    {
        if self.held.place(cell).is_some() {
            return Ok(self.own(cell));
        }
        if self.reads.get(cell).is_some() || self.writes.get(cell).is_some() {
            self.late_known(cell)?;
            return Ok(self.own(cell));
        }
        let value = self.late_new(cell)?;
        Ok(value)
    }

    // Takes the lock of a cell that was observed or written. The state stays where it can't.
    fn late_known(&mut self, cell: u32) -> Result<(), Stop>
        requires committing { self.old.committing ≡ true }
        requires undrawn { self.old.pass.view.stage ≡ Open }
        requires cell { cell < length self.old.table.opening }
        requires unheld { has cell (cells_of self.old.pass.view.held) ≡ false }
        requires known { IsSome (option_or (word_at self.old.writes cell) (word_at self.old.observations cell)) }
        requires spare { 0 < self.old.spare.locks }
        ensures takes { OnOk result ((u : ℕ) × Locks self.old self.new cell u) }
        ensures ok { OnOk result (self.new ≡ record self.old { pass = self.new.pass; spare = record self.old.spare { locks = self.old.spare.locks - 1 } }) }
        ensures stopped { IfErr result (λ stop. IsFoundAt cell stop × (self.new ≡ record self.old { pass = self.new.pass }) × LooksOnly self.old.pass self.new.pass) }
        ensures cause { IfErr result (CausedIn self.old self.new) }
        ensures sole { IsSole self.old.pass → IsOk result }
        ensures twice { word_at self.old.observations cell ≡ None → IfErr result (FoundTwice (length (trail_of self.old.pass)) (trail_of self.new.pass)) }
        ensures pass { HoldsOnly self.old.pass self.new.pass }
        ensures steps { GrewBy 2 (trail_of self.old.pass) (trail_of self.new.pass) }
    {
        let table = self.table;
        match lock_late(table, &mut self.pass, &self.reads, cell, self.version) {
            Ok(version) => {
                self.held.push_reserved(cell, version);
                self.spare.locks -= 1;
                Ok(())
            }
            Err(stop) => Err(stop),
        }
    }

    // Takes the lock of a cell that was neither observed nor written, and observes its value. The state stays where
    // it can't.
    fn late_new(&mut self, cell: u32) -> Result<u64, Stop>
        requires committing { self.old.committing ≡ true }
        requires undrawn { self.old.pass.view.stage ≡ Open }
        requires cell { cell < length self.old.table.opening }
        requires unheld { has cell (cells_of self.old.pass.view.held) ≡ false }
        requires unwritten { word_at self.old.writes cell ≡ None }
        requires unobserved { word_at self.old.observations cell ≡ None }
        requires spare { (0 < self.old.spare.locks) × (0 < self.old.spare.observations) }
        ensures takes { OnOk result ((u : ℕ) × Locks self.old self.new cell u) }
        ensures value { IfOk result (λ x. word_at self.new.observations cell ≡ Some x) }
        ensures observes { IfOk result (λ x. ObservedLate self.old self.new cell x) }
        ensures stopped { IfErr result (λ stop. IsFoundAt cell stop × (self.new ≡ record self.old { pass = self.new.pass }) × LooksOnly self.old.pass self.new.pass) }
        ensures cause { IfErr result (CausedIn self.old self.new) }
        ensures sole { IsSole self.old.pass → IsOk result }
        ensures twice { IfErr result (FoundTwice (length (trail_of self.old.pass)) (trail_of self.new.pass)) }
        ensures pass { HoldsOnly self.old.pass self.new.pass }
        ensures steps { GrewBy 3 (trail_of self.old.pass) (trail_of self.new.pass) }
        ensures short { OnErr result (GrewBy 2 (trail_of self.old.pass) (trail_of self.new.pass)) }
    {
        let table = self.table;
        match lock_newest(table, &mut self.pass, cell, self.version) {
            Ok(version) => {
                let value = table.look_value(&mut self.pass, cell);
                self.spare.locks -= 1;
                self.spare.observations -= 1;
                self.held.push_reserved(cell, version);
                self.reads.push_reserved(Observation {
                    cell,
                    value,
                    version,
                });
                Ok(value)
            }
            Err(stop) => Err(stop),
        }
    }

    /// Writes a cell that is held, in the commit. Takes no memory.
    pub fn write_reserved(&mut self, cell: u32, value: u64)
        requires running { self.old.state ≡ Running }
        requires held { IsHeld self.old.pass cell }
        requires spare { IsNone (word_at self.old.writes cell) → 0 < self.old.spare.writes }
        ensures written { self.new ≡ record self.old { writes = put self.old.writes cell value; spare = record self.old.spare { writes = self.old.spare.writes - (if is_some (word_at self.old.writes cell) then 0 else 1) }; committing = true } }
        ensures does { StepsAt (λ c. c ≡ cell) 0 self.old self.new }
    {
        self.laid_over_law();
        self.committing = true;
        let written = self.writes.get(cell).is_some();
        self.writes.put_reserved(cell, value);
        self.spare.writes = left_after(self.spare.writes, written);
    }

    /// Validates every observation, in the order in which they were made, after one load of the clock. Takes no memory.
    ///
    /// Ok gives the word of that load: all that was observed stands at this place. After a stop the attempt is stopped.
    pub fn check_now(&mut self) -> Result<u64, Stop>
        requires running { self.old.state ≡ Running }
        requires undrawn { self.old.pass.view.stage ≡ Open }
        ensures place { IfOk result (λ t. (self.old.version ≤ t) × (t ≡ self.new.pass.view.known) × (more : List Event) × (trail_of self.new.pass ≡ trail_of self.old.pass ++ ClockLoaded t ∷ more)) }
        ensures check { IfOk result (λ t. (i : ℕ) → i < length self.old.observations → Observes self.new.pass.view (cell_at self.old.observations i) (word_of self.old.observations i) t) }
        ensures same { OnOk result (self.new ≡ record self.old { pass = self.new.pass; committing = true }) }
        ensures stopped { IfErr result (λ stop. IsFound stop × (self.new ≡ record self.old { pass = self.new.pass; state = stopped_from self.old.state; committing = true })) }
        ensures cause { IfErr result (CausedIn self.old self.new) }
        ensures first { IfErr result (IsFirstChanged self.new.pass.view self.old.observations self.old.versions) }
        ensures knows { KnowsMore self.old.pass self.new.pass }
        ensures does { StepsAt (λ c. ⊥) (1 + length self.old.observations) self.old self.new }
        ensures sole { IsSole self.old.pass → IsOk result }
    {
        self.committing = true;
        let table = self.table;
        let place = table.clock(&mut self.pass);
        match check(table, &mut self.pass, &self.reads, &self.held, self.version) {
            Ok(()) => Ok(place),
            Err(stop) => {
                self.state = self.state.stopped();
                Err(stop)
            }
        }
    }
}

// How many of the places for writes are left after one write, of a cell that was written before or not.
fn left_after(writes: u32, written: bool) -> u32
    requires { written ≡ false → 0 < writes }
    ensures { result ≡ writes - (if written then 0 else 1) }
{
    if written { writes } else { writes - 1 }
}
