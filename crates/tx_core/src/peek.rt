//! Looks that leave the attempt as it was, and the stop that such a look may end in.
ghost use Rattle.std.specs.Prelude.{◌≡◌, ℕ, ◌*◌, ◌<◌, false, length, Some, None, IsOk, IfOk, IfErr, OnOk};

use crate::steps::read_cell;
use crate::stop::Stop;
use crate::tx::Tx;
use cell_table::Meaning;

impl<'a, M: Meaning> Tx<'a, M> {
    ghost use Rattle.cell_table.specs.Steps.{Observes};
    ghost use Rattle.cell_table.specs.Pass.{IsSole, trail_of};
    ghost use Rattle.attempt_lists.specs.Cells.{word_at};
    ghost use Rattle.tx_core.specs.Calls.{MayCall, IsCausedInAttempt, CausedIn, StepsAt, stopped_from};
    ghost use Rattle.tx_core.specs.Causes.{IsFoundAt, FoundSince};
    ghost use Rattle.tx_core.specs.Seen.{LooksOnly};

    /// The value of a cell as `read` answers it, but nothing is observed. Takes no memory.
    ///
    /// A cell that is held by others or newer is told of, and leaves the attempt as it was.
    pub fn peek(&mut self, cell: u32) -> Result<u64, Stop>
        requires callable { MayCall self.old }
        requires cell { cell < length self.old.table.opening }
        ensures own { (x : ℕ) → word_at self.old.writes cell ≡ Some x → (result ≡ Ok x) × (self.new ≡ self.old) }
        ensures seen_before { (x : ℕ) → word_at self.old.writes cell ≡ None → word_at self.old.observations cell ≡ Some x → (result ≡ Ok x) × (self.new ≡ self.old) }
        ensures stands { word_at self.old.writes cell ≡ None → IfOk result (λ x. Observes self.new.pass.view cell x self.old.version) }
        ensures looked { word_at self.old.writes cell ≡ None → word_at self.old.observations cell ≡ None → OnOk result ((u : ℕ) × FoundSince (length (trail_of self.old.pass)) (trail_of self.new.pass) cell (2 * u)) }
        ensures same { self.new ≡ record self.old { pass = self.new.pass } }
        ensures found { IfErr result (IsFoundAt cell) }
        ensures cause { IfErr result (CausedIn self.old self.new) }
        ensures pass { LooksOnly self.old.pass self.new.pass }
        ensures does { StepsAt (λ c. ⊥) 3 self.old self.new }
        ensures sole { IsSole self.old.pass → IsOk result }
    {
        if let Some(value) = self.writes.get(cell) {
            return Ok(value);
        }
        if let Some(seen) = self.reads.get(cell) {
            return Ok(seen.value);
        }
        let table = self.table;
        match read_cell(table, &mut self.pass, cell, self.version) {
            Ok((value, _)) => Ok(value),
            Err(stop) => Err(stop),
        }
    }

    /// Stops the attempt by a stop that one of its looks told of. Takes no memory.
    pub fn stop_with(&mut self, stop: Stop)
        requires callable { MayCall self.old }
        requires answered { IsCausedInAttempt self.old stop }
        ensures stopped { self.new ≡ record self.old { state = stopped_from self.old.state } }
    {
        match stop {
            Stop::Held { .. } | Stop::Newer { .. } => self.halt(),
            Stop::Memory => unreachable!(),
        }
    }
}
