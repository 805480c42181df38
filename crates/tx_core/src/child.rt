//! The calls for a child, which is merged or dropped as a whole. They take no memory.
ghost use Rattle.std.specs.Prelude.{◌≡◌, ℕ, ◌+◌, ◌<◌, ◌≤◌, true, false, List, ◌∷◌, ◌++◌, length, Some, None, IsOk, IfErr, OnOk, MatchOption};

use crate::check::check;
use crate::gives::give_back_to;
use crate::stop::{Stop, TxState};
use crate::tx::Tx;
use cell_table::Meaning;

/// How many observations, notes and held cells an open child goes back to.
#[derive(Clone, Copy)]
pub(crate) struct Mark {
    pub(crate) observations: usize,
    pub(crate) notes: usize,
    pub(crate) held: usize,
}

impl<'a, M: Meaning> Tx<'a, M> {
    ghost use Rattle.cell_table.specs.declared.view.Event.{Event};
    ghost use Rattle.cell_table.specs.declared.view.Event.TheVariants.{ClockLoaded};
    ghost use Rattle.cell_table.specs.Steps.{Observes};
    ghost use Rattle.cell_table.specs.Pass.{IsSole, trail_of};
    ghost use Rattle.attempt_lists.specs.Cells.{word_of, cell_at};
    ghost use Rattle.tx_core.specs.declared.stop.TxState.TheVariants.{Running, Child, Stopped};
    ghost use Rattle.tx_core.specs.Children.{is_child};
    ghost use Rattle.tx_core.specs.Calls.{CausedIn, mark_of, MarksWaiting, GoesBack};
    ghost use Rattle.tx_core.specs.Causes.{IsFound, GrewBy};
    ghost use Rattle.tx_core.specs.Seen.{KnowsMore, IsFirstChanged};

    /// Opens a child: what the attempt has now is marked, and what follows is the child's until `unmark` or `back_to_mark`.
    pub fn mark(&mut self)
        requires running { self.old.state ≡ Running }
        requires before_commit { self.old.committing ≡ false }
        ensures marks { self.new ≡ record self.old { state = Child; additions = self.new.additions; mark = Some (mark_of self.old) } }
        ensures waiting { MarksWaiting self.old self.new }
    {
        self.additions.mark();
        self.mark = Some(Mark {
            observations: self.reads.len(),
            notes: self.notes.len(),
            held: self.held.len(),
        });
        self.state = TxState::Child;
    }

    /// Lets all that the open child did belong to the attempt.
    pub fn unmark(&mut self)
        requires child { self.old.state ≡ Child }
        ensures { self.new ≡ record self.old { state = Running; mark = None } }
    {
        self.writes.ascending_law();
        self.writes.merge_child();
        self.mark = None;
        self.state = TxState::Running;
    }

    /// Drops all that the open child did, whether it was stopped or not: the attempt has the observations, writes, notes,
    /// additions and held cells of the mark, those additions that the child consumed among them. The cells that the child
    /// locked are given back, each with the version that it had. What the pass knows it keeps.
    pub fn back_to_mark(&mut self)
        requires child { is_child self.old.state ≡ true }
        ensures { MatchOption self.old.mark ⊥ (λ m. GoesBack self.old self.new m) }
    {
        let Some(mark) = self.mark else {
            unreachable!()
        };
        let table = self.table;
        give_back_to(table, &mut self.pass, &mut self.held, mark.held);
        self.reads.truncate(mark.observations);
        self.notes.truncate(mark.notes);
        self.writes.drop_child();
        self.additions.back_to_mark();
        self.mark = None;
        self.state = TxState::Running;
    }

    /// Raises the version to the word of one load of the clock, after which every observation is validated, in the order in
    /// which they were made.
    ///
    /// Ok: all that was observed stands at the new version. After a stop the attempt is stopped, and its version is as before.
    pub fn raise(&mut self) -> Result<(), Stop>
        requires running { self.old.state ≡ Running }
        requires before_commit { self.old.committing ≡ false }
        ensures raised { OnOk result (self.new ≡ record self.old { pass = self.new.pass; version = self.new.version }) }
        ensures version { OnOk result ((self.old.version ≤ self.new.version) × (self.new.version ≡ self.new.pass.view.known)) }
        ensures loads { (t : ℕ) × (more : List Event) × (trail_of self.new.pass ≡ trail_of self.old.pass ++ ClockLoaded t ∷ more) × (t ≡ self.new.pass.view.known) × (length more ≤ length self.old.observations) }
        ensures stands { OnOk result ((i : ℕ) → i < length self.old.observations → Observes self.new.pass.view (cell_at self.old.observations i) (word_of self.old.observations i) self.new.version) }
        ensures stopped { IfErr result (λ stop. IsFound stop × (self.new ≡ record self.old { pass = self.new.pass; state = Stopped })) }
        ensures cause { IfErr result (λ stop. CausedIn self.old self.new stop × IsFirstChanged self.new.pass.view self.old.observations self.old.versions stop) }
        ensures knows { KnowsMore self.old.pass self.new.pass }
        ensures sole { IsSole self.old.pass → IsOk result }
    {
        let table = self.table;
        let place = table.clock(&mut self.pass);
        match check(table, &mut self.pass, &self.reads, &self.held, self.version) {
            Ok(()) => {
                self.version = place;
                Ok(())
            }
            Err(stop) => {
                self.state = TxState::Stopped;
                Err(stop)
            }
        }
    }
}
