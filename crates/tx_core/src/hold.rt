//! Locks that an attempt takes before its commit.
ghost use Rattle.std.specs.Prelude.{◌≡◌, ℕ, ◌+◌, ◌<◌, ◌≤◌, false, length, is_some, Some, None, IsSome, IsOk, IfOk, IfErr, OnOk, OnErr, ◌⊎◌};
ghost use Rattle.std.specs.Option.{option_or};

use crate::gives::reserve_lock;
use crate::steps::{lock_cell, lock_seen};
use crate::stop::Stop;
use crate::tx::Tx;
use attempt_lists::Observation;
use cell_table::Meaning;

impl<'a, M: Meaning> Tx<'a, M> {
    ghost use Rattle.cell_table.specs.Cells.{has};
    ghost use Rattle.cell_table.specs.Rule.{cells_of};
    ghost use Rattle.cell_table.specs.Pass.{IsSole, IsHeld, trail_of};
    ghost use Rattle.attempt_lists.specs.Cells.{word_at};
    ghost use Rattle.tx_core.specs.declared.stop.Stop.TheVariants.{Memory};
    ghost use Rattle.tx_core.specs.Calls.{MayCall, stopped_from, spared_from, stop_in, CausedIn, Locks, StepsAt, HoldsAt};
    ghost use Rattle.tx_core.specs.Causes.{IsOfCell, GrewBy};
    ghost use Rattle.tx_core.specs.Seen.{LooksOnly, HoldsOnly};
    ghost use Rattle.tx_core.specs.Tx.{Observed};

    /// Takes the lock of a cell, and then answers as `read`. A cell that is held already takes no step.
    ///
    /// One compare-exchange decides: from the version that was observed, or after one look from a version that isn't above
    /// the attempt's. After a stop the attempt is stopped, and no cell is held that wasn't.
    pub fn hold(&mut self, cell: u32) -> Result<u64, Stop>
        requires callable { MayCall self.old }
        requires cell { cell < length self.old.table.opening }
        ensures held { OnOk result (IsHeld self.new.pass cell) }
        ensures value { IfOk result (λ x. option_or (word_at self.old.writes cell) (word_at self.new.observations cell) ≡ Some x) }
        ensures already { IsHeld self.old.pass cell → IsOk result × (self.new ≡ self.old) }
        ensures adds { OnOk result ((self.new ≡ record self.old { pass = self.new.pass }) ⊎ ((word_at self.old.writes cell ≡ None) × (word_at self.old.observations cell ≡ None) × (x : ℕ) × Observed self.old self.new cell x)) }
        ensures takes { has cell (cells_of self.old.pass.view.held) ≡ false → OnOk result ((u : ℕ) × (u ≤ self.old.version) × Locks self.old self.new cell u) }
        ensures stopped { OnErr result ((self.new ≡ record self.old { pass = self.new.pass; state = stopped_from self.old.state }) × LooksOnly self.old.pass (record self.new.pass { places = self.old.pass.places })) }
        ensures leaves { HoldsAt (λ c. c ≡ cell) 3 self.old self.new (stop_in result) }
    {
        match self.take_hold(cell) {
            Ok(value) => Ok(value),
            Err(stop) => {
                self.halt();
                Err(stop)
            }
        }
    }

    /// As `hold`, but a cell that is held by others or newer leaves the attempt as it was. After want of memory the attempt
    /// is stopped.
    pub fn try_hold(&mut self, cell: u32) -> Result<u64, Stop>
        requires callable { MayCall self.old }
        requires cell { cell < length self.old.table.opening }
        ensures held { OnOk result (IsHeld self.new.pass cell) }
        ensures value { IfOk result (λ x. option_or (word_at self.old.writes cell) (word_at self.new.observations cell) ≡ Some x) }
        ensures already { IsHeld self.old.pass cell → IsOk result × (self.new ≡ self.old) }
        ensures adds { OnOk result ((self.new ≡ record self.old { pass = self.new.pass }) ⊎ ((word_at self.old.writes cell ≡ None) × (word_at self.old.observations cell ≡ None) × (x : ℕ) × Observed self.old self.new cell x)) }
        ensures takes { has cell (cells_of self.old.pass.view.held) ≡ false → OnOk result ((u : ℕ) × (u ≤ self.old.version) × Locks self.old self.new cell u) }
        ensures spared { IfErr result (λ stop. IsOfCell cell stop × (self.new ≡ record self.old { pass = self.new.pass; state = spared_from self.old.state stop }) × LooksOnly self.old.pass (record self.new.pass { places = self.old.pass.places })) }
        ensures cause { IfErr result (CausedIn self.old self.new) }
        ensures pass { HoldsOnly self.old.pass self.new.pass }
        ensures does { StepsAt (λ c. c ≡ cell) 3 self.old self.new }
        ensures sole { IsSole self.old.pass → IfErr result (λ stop. stop ≡ Memory) }
    {
        match self.take_hold(cell) {
            Ok(value) => Ok(value),
            Err(stop) => {
                self.state = self.state.spared(stop);
                Err(stop)
            }
        }
    }

    // Takes the lock of a cell, and answers its value. The state stays.
    fn take_hold(&mut self, cell: u32) -> Result<u64, Stop>
        requires before_commit { self.old.committing ≡ false }
        requires cell { cell < length self.old.table.opening }
        ensures held { OnOk result (IsHeld self.new.pass cell) }
        ensures value { IfOk result (λ x. option_or (word_at self.old.writes cell) (word_at self.new.observations cell) ≡ Some x) }
        ensures already { IsHeld self.old.pass cell → IsOk result × (self.new ≡ self.old) }
        ensures adds { OnOk result ((self.new ≡ record self.old { pass = self.new.pass }) ⊎ ((word_at self.old.writes cell ≡ None) × (word_at self.old.observations cell ≡ None) × (x : ℕ) × Observed self.old self.new cell x)) }
        ensures takes { has cell (cells_of self.old.pass.view.held) ≡ false → OnOk result ((u : ℕ) × (u ≤ self.old.version) × Locks self.old self.new cell u) }
        ensures stopped { IfErr result (λ stop. IsOfCell cell stop × (self.new ≡ record self.old { pass = self.new.pass }) × LooksOnly self.old.pass (record self.new.pass { places = self.old.pass.places })) }
        ensures cause { IfErr result (CausedIn self.old self.new) }
        ensures pass { HoldsOnly self.old.pass self.new.pass }
        ensures does { StepsAt (λ c. c ≡ cell) 3 self.old self.new }
        ensures sole { IsSole self.old.pass → IfErr result (λ stop. stop ≡ Memory) }
    {
        if self.held.place(cell).is_some() {
            return Ok(self.own(cell));
        }
        if self.reads.get(cell).is_some() || self.writes.get(cell).is_some() {
            self.lock_known(cell)?;
            return Ok(self.own(cell));
        }
        let value = self.lock_new(cell)?;
        Ok(value)
    }

    // The attempt's own write of a cell, else what it observed of it.
    pub(crate) fn own(&self, cell: u32) -> u64
        requires { IsSome (option_or (word_at self.now.writes cell) (word_at self.now.observations cell)) }
        ensures { option_or (word_at self.now.writes cell) (word_at self.now.observations cell) ≡ Some result }
    {
        match self.writes.get(cell) {
            Some(value) => value,
            None => match self.reads.get(cell) {
                Some(seen) => seen.value,
                None => unreachable!(),
            },
        }
    }

    // Takes the lock of a cell that was observed or written.
    fn lock_known(&mut self, cell: u32) -> Result<(), Stop>
        requires before_commit { self.old.committing ≡ false }
        requires cell { cell < length self.old.table.opening }
        requires unheld { has cell (cells_of self.old.pass.view.held) ≡ false }
        requires known { IsSome (option_or (word_at self.old.writes cell) (word_at self.old.observations cell)) }
        ensures takes { OnOk result ((u : ℕ) × (u ≤ self.old.version) × Locks self.old self.new cell u) }
        ensures same { self.new ≡ record self.old { pass = self.new.pass } }
        ensures stopped { IfErr result (λ stop. IsOfCell cell stop × LooksOnly self.old.pass (record self.new.pass { places = self.old.pass.places })) }
        ensures cause { IfErr result (CausedIn self.old self.new) }
        ensures pass { HoldsOnly self.old.pass self.new.pass }
        ensures steps { GrewBy 2 (trail_of self.old.pass) (trail_of self.new.pass) }
        ensures sole { IsSole self.old.pass → IfErr result (λ stop. stop ≡ Memory) }
    {
        let Ok(()) = reserve_lock(
            &mut self.pass,
            &mut self.held,
            &self.writes,
            self.spare.locks,
        ) else {
            return Err(Stop::Memory);
        };
        let table = self.table;
        match lock_seen(table, &mut self.pass, &self.reads, cell, self.version) {
            Ok(version) => {
                self.held.push_reserved(cell, version);
                Ok(())
            }
            Err(stop) => Err(stop),
        }
    }

    // Takes the lock of a cell that was neither observed nor written, and observes its value.
    fn lock_new(&mut self, cell: u32) -> Result<u64, Stop>
        requires before_commit { self.old.committing ≡ false }
        requires cell { cell < length self.old.table.opening }
        requires unwritten { word_at self.old.writes cell ≡ None }
        requires unobserved { word_at self.old.observations cell ≡ None }
        ensures takes { OnOk result ((u : ℕ) × (u ≤ self.old.version) × Locks self.old self.new cell u) }
        ensures value { IfOk result (λ x. option_or (word_at self.old.writes cell) (word_at self.new.observations cell) ≡ Some x) }
        ensures observes { IfOk result (λ x. Observed self.old self.new cell x) }
        ensures stopped { IfErr result (λ stop. IsOfCell cell stop × (self.new ≡ record self.old { pass = self.new.pass }) × LooksOnly self.old.pass (record self.new.pass { places = self.old.pass.places })) }
        ensures cause { IfErr result (CausedIn self.old self.new) }
        ensures pass { HoldsOnly self.old.pass self.new.pass }
        ensures steps { GrewBy 3 (trail_of self.old.pass) (trail_of self.new.pass) }
        ensures sole { IsSole self.old.pass → IfErr result (λ stop. stop ≡ Memory) }
    {
        let Ok(()) = reserve_lock(
            &mut self.pass,
            &mut self.held,
            &self.writes,
            self.spare.locks,
        ) else {
            return Err(Stop::Memory);
        };
        let Ok(()) = self.reads.reserve(1) else {
            return Err(Stop::Memory);
        };
        let table = self.table;
        match lock_cell(table, &mut self.pass, cell, self.version) {
            Ok(version) => {
                let value = table.look_value(&mut self.pass, cell);
                self.held.push_reserved(cell, version);
                self.reads.push_reserved(Observation {
                    cell,
                    value,
                    version,
                });
                Ok(value)
            }
            Err(stop) => Err(stop),
        }
    }
}
