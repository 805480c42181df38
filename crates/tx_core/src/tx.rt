//! One attempt.
ghost use Rattle.std.specs.Prelude.{◌≡◌, ℕ, ◌+◌, ◌-◌, ◌^◌, ◌<◌, ◌≤◌, ◌≢◌, ◌↔◌, List, [], ◌∷◌, ◌++◌, true, false, length, slice_index, slice_set, Some, None, IsTrue, IsOk, IfOk, IfErr, OnOk, OnErr};
ghost use Rattle.std.specs.Option.{option_or};
ghost use Rattle.attempt_lists.specs.Cells.{put};
ghost use Rattle.attempt_lists.specs.Levels.{merged};

use crate::check::check_drawn;
use crate::child::Mark;
use crate::gives::{give_back_all, reserve_lock};
use crate::spare::Spare;
use crate::steps::read_cell;
use crate::stop::{Stop, TxState};
use attempt_lists::{Additions, CellList, Observation, ReadSet, WriteSet};
use cell_table::{CellTable, Meaning, Pass};
use std::alloc::{AllocError, Global};
use std::marker::Model;

/// An attempt: what it read, will write and did, over one pass of a table. It must be spent by a commit or by `abort`.
///
/// Each value that it read is the cell's value at its version.
pub struct Tx<'a, M: Meaning> {
    pub(crate) table: &'a CellTable<M>,
    pub(crate) pass: Pass<M>,
    pub(crate) version: u64,
    pub(crate) reads: ReadSet,
    pub(crate) writes: WriteSet,
    pub(crate) held: CellList,
    pub(crate) notes: Vec<M::Done, Global>,
    pub(crate) additions: Additions,
    pub(crate) spare: Spare,
    pub(crate) state: TxState,
    pub(crate) committing: bool,
    pub(crate) mark: Option<Mark>,
}

impl<'a, M: Meaning> Model for Tx<'a, M> {
    ghost use Rattle.std.specs.Prelude.{◌≡◌, length};
    ghost use Rattle.attempt_lists.specs.Levels.{merged};
    ghost use Rattle.tx_core.specs.Tx.{Attempt, IsAttempt};
    ghost use Rattle.tx_core.specs.Additions.{IsProvided};
    ghost use Rattle.tx_core.specs.Children.{IsNested, marked};

    ghost Value = { Attempt M M.Done };

    ghost view = { λ a. record { table = a.table.now; pass = a.pass; state = a.state; version = a.version; observations = a.reads.observations; versions = a.reads.versions; writes = merged a.writes; notes = a.notes.items; additions = a.additions; spare = a.spare; committing = a.committing; mark = marked a.mark a.writes.parent a.held.entries } };

    ghost invariant = { λ a. IsAttempt a.table.now a.pass a.version a.reads (merged a.writes) a.held a.committing × IsProvided a.pass a.reads a.writes a.held a.additions a.spare a.committing × IsNested (length a.table.now.opening) a.state a.mark a.committing a.reads.observations a.writes a.held.entries a.notes.items };
}

impl<'a, M: Meaning> Tx<'a, M> {
    ghost use Rattle.cell_table.specs.Cells.{has, after, AllHold};
    ghost use Rattle.cell_table.specs.Rule.{callers_of};
    ghost use Rattle.cell_table.specs.declared.view.Event.TheVariants.{ClockLoaded, VersionDrawn};
    ghost use Rattle.cell_table.specs.declared.view.Stage.TheVariants.{Open, Drawn};
    ghost use Rattle.cell_table.specs.Steps.{IsIdle, Grows, clocked, Observes};
    ghost use Rattle.cell_table.specs.Pass.{IsPassOf, IsSole, acting, trail_of, note, with_view};
    ghost use Rattle.attempt_lists.specs.Cells.{Entries, word_at, word_of, cell_at, put, IsAscending};
    ghost use Rattle.attempt_lists.specs.Parts.{waiting_of};
    ghost use Rattle.tx_core.specs.declared.stop.Stop.TheVariants.{Memory};
    ghost use Rattle.tx_core.specs.declared.stop.TxState.TheVariants.{Running};
    ghost use Rattle.tx_core.specs.Calls.{IsOpen, MayCall, NothingWaits, stopped_from, stop_in, memory_in, begun, known, IsDrawn, CausedIn, LooksAt};
    ghost use Rattle.tx_core.specs.Causes.{IsOfCell, IsFound, GrewBy};
    ghost use Rattle.tx_core.specs.Seen.{LooksOnly, IsFirstChanged};
    ghost use Rattle.tx_core.specs.Tx.{Observed};
    ghost use Rattle.tx_core.specs.Parts.{Shows};

    /// Begins an attempt. Its version is the word of one load of the clock, the only step of the call, after the room for its record is reserved.
    ///
    /// After want of memory the pass comes back unchanged.
    pub fn begin(
        alloc: Global,
        table: &'a CellTable<M>,
        mut pass: Pass<M>,
    ) -> Result<Tx<'a, M>, (Pass<M>, AllocError)>
        requires of { IsPassOf table.now pass }
        requires idle { IsIdle pass.view }
        requires draw { 0 < pass.view.draws }
        ensures table { IfOk result (λ tx. tx.table ≡ table.now) }
        ensures fresh { IfOk result (λ tx. (tx.state ≡ Running) × (tx.observations ≡ []) × (tx.writes ≡ []) × (tx.notes ≡ []) × NothingWaits tx × (tx.committing ≡ false) × (tx.mark ≡ None)) }
        ensures pass { IfOk result (λ tx. tx.pass ≡ record pass { view = clocked pass.view tx.version; reserved = tx.pass.reserved }) }
        ensures version { IfOk result (λ tx. (trail_of tx.pass ≡ trail_of pass ++ ClockLoaded tx.version ∷ []) × (pass.seen ≤ tx.version)) }
        ensures begun { IfOk result (λ tx. begun tx ≡ length (trail_of pass)) }
        ensures grows { IfOk result (λ tx. Grows pass.view tx.pass.view) }
        ensures refused { IfErr result (λ back. back.0 ≡ pass) }
    {
        table.limits_law();
        if let Err(memory) = pass.reserve() {
            return Err((pass, memory));
        }
        let version = table.clock(&mut pass);
        Ok(Tx {
            table,
            pass,
            version,
            reads: ReadSet::new(alloc),
            writes: WriteSet::new(alloc),
            held: CellList::new(alloc),
            notes: Vec::new(alloc),
            additions: Additions::new(alloc),
            spare: Spare {
                locks: 0,
                observations: 0,
                writes: 0,
            },
            state: TxState::Running,
            committing: false,
            mark: None,
        })
    }

    /// How the attempt stands.
    pub fn state(&self) -> TxState
        ensures { result ≡ self.now.state }
    {
        self.state
    }

    /// The place at which all that it read stands.
    pub fn version(&self) -> u64
        ensures { result ≡ self.now.version }
    {
        self.version
    }

    /// The caller under which the attempt is made: the least one that its pass holds.
    pub fn caller(&self) -> u32
        ensures { result ≡ acting self.now.pass }
    {
        self.pass.caller()
    }

    /// Whether a cell is written.
    pub fn is_writing(&self) -> bool
        ensures { IsTrue result ↔ (0 < length self.now.writes) }
    {
        self.writes.ascending_law();
        self.writes.empty_law();
        if self.writes.is_empty() {
            return false;
        }
        true
    }

    /// Whether an addition waits. It looks at each part to which something was added once.
    pub fn is_adding(&self) -> bool
        ensures { (result ≡ false) ↔ NothingWaits self.now }
    {
        if self.additions.is_empty() {
            return false;
        }
        true
    }

    /// The value of a cell: the attempt's own write, else what it observed of the cell, both without a step. Else the
    /// value of the cell at the attempt's version, which is then observed.
    ///
    /// After a stop the attempt is stopped, and nothing else has changed but that the pass knows more.
    pub fn read(&mut self, cell: u32) -> Result<u64, Stop>
        requires callable { MayCall self.old }
        requires cell { cell < length self.old.table.opening }
        ensures own { (x : ℕ) → word_at self.old.writes cell ≡ Some x → (result ≡ Ok x) × (self.new ≡ self.old) }
        ensures seen_before { (x : ℕ) → word_at self.old.writes cell ≡ None → word_at self.old.observations cell ≡ Some x → (result ≡ Ok x) × (self.new ≡ self.old) }
        ensures observes { word_at self.old.writes cell ≡ None → word_at self.old.observations cell ≡ None → IfOk result (λ x. Observed self.old self.new cell x) }
        ensures value { IfOk result (λ x. option_or (word_at self.new.writes cell) (word_at self.new.observations cell) ≡ Some x) }
        ensures stopped { OnErr result (self.new ≡ record self.old { pass = self.new.pass; state = stopped_from self.old.state }) }
        ensures looks { LooksAt (λ c. c ≡ cell) 3 self.old self.new (stop_in result) }
        ensures pass { LooksOnly self.old.pass self.new.pass }
    {
        if let Some(value) = self.writes.get(cell) {
            return Ok(value);
        }
        if let Some(seen) = self.reads.get(cell) {
            return Ok(seen.value);
        }
        match self.observe(cell) {
            Ok(value) => Ok(value),
            Err(stop) => {
                self.halt();
                Err(stop)
            }
        }
    }

    // The value of a cell that was neither written nor observed. The state stays.
    fn observe(&mut self, cell: u32) -> Result<u64, Stop>
        requires cell { cell < length self.old.table.opening }
        requires unwritten { word_at self.old.writes cell ≡ None }
        requires unobserved { word_at self.old.observations cell ≡ None }
        ensures observes { IfOk result (λ x. Observed self.old self.new cell x) }
        ensures value { IfOk result (λ x. option_or (word_at self.new.writes cell) (word_at self.new.observations cell) ≡ Some x) }
        ensures same { OnErr result (self.new ≡ record self.old { pass = self.new.pass }) }
        ensures cause { IfErr result (λ stop. IsOfCell cell stop × CausedIn self.old self.new stop) }
        ensures looks { LooksOnly self.old.pass self.new.pass }
        ensures steps { GrewBy 3 (trail_of self.old.pass) (trail_of self.new.pass) }
        ensures sole { IsSole self.old.pass → IfErr result (λ stop. stop ≡ Memory) }
    {
        let Ok(()) = self.reads.reserve(1) else {
            return Err(Stop::Memory);
        };
        let table = self.table;
        match read_cell(table, &mut self.pass, cell, self.version) {
            Ok((value, version)) => {
                self.reads.push_reserved(Observation {
                    cell,
                    value,
                    version,
                });
                Ok(value)
            }
            Err(stop) => Err(stop),
        }
    }

    // Stops the attempt.
    pub(crate) fn halt(&mut self)
        ensures { self.new ≡ record self.old { state = stopped_from self.old.state } }
    {
        self.state = self.state.stopped();
    }

    /// Writes a cell, for the commit. It stores nothing that others see and looks at nothing.
    ///
    /// After want of memory the attempt is stopped, and nothing is written.
    pub fn write(&mut self, cell: u32, value: u64) -> Result<(), AllocError>
        requires callable { MayCall self.old }
        requires cell { cell < length self.old.table.opening }
        ensures ok { OnOk result (self.new ≡ record self.old { pass = self.new.pass; writes = put self.old.writes cell value }) }
        ensures stopped { OnErr result (self.new ≡ record self.old { pass = self.new.pass; state = stopped_from self.old.state }) }
        ensures pass { self.new.pass ≡ record self.old.pass { places = self.new.pass.places } }
        ensures looks { LooksAt (λ c. c ≡ cell) 0 self.old self.new (memory_in result) }
    {
        self.laid_over_law();
        match self.put_write(cell, value) {
            Ok(()) => Ok(()),
            Err(memory) => {
                self.halt();
                Err(memory)
            }
        }
    }

    // Writes a cell, once there is room for its lock. The state stays.
    fn put_write(&mut self, cell: u32, value: u64) -> Result<(), AllocError>
        requires before_commit { self.old.committing ≡ false }
        requires cell { cell < length self.old.table.opening }
        ensures ok { OnOk result (self.new ≡ record self.old { pass = self.new.pass; writes = put self.old.writes cell value }) }
        ensures same { OnErr result (self.new ≡ record self.old { pass = self.new.pass }) }
        ensures pass { self.new.pass ≡ record self.old.pass { places = self.new.pass.places } }
    {
        let Ok(()) = reserve_lock(
            &mut self.pass,
            &mut self.held,
            &self.writes,
            self.spare.locks,
        ) else {
            return Err(AllocError);
        };
        let in_child = self.mark.is_some();
        let Ok(()) = put_above(&mut self.writes, in_child, cell, value) else {
            return Err(AllocError);
        };
        Ok(())
    }

    /// Notes a call with its reply, for the record of the commit.
    ///
    /// After want of memory the attempt is stopped, and nothing is noted.
    pub fn note(&mut self, done: M::Done) -> Result<(), AllocError>
        requires callable { MayCall self.old }
        ensures ok { OnOk result (self.new ≡ record self.old { notes = self.old.notes ++ done ∷ [] }) }
        ensures stopped { OnErr result (self.new ≡ record self.old { state = stopped_from self.old.state }) }
    {
        if self.notes.push(done).is_err() {
            self.state = self.state.stopped();
            return Err(AllocError);
        }
        Ok(())
    }

    /// Draws the version of the commit, and validates every observation in the order in which they were made.
    ///
    /// Ok gives the version that was drawn: all that was observed stands just before it. Where that version directly follows
    /// the attempt's, nothing observed can have changed, and the draw is the only step. After a stop the attempt is
    /// stopped. One draw is used up in both cases.
    pub fn draw_and_check(&mut self) -> Result<u64, Stop>
        requires running { self.old.state ≡ Running }
        requires undrawn { self.old.pass.view.stage ≡ Open }
        requires holds { self.old.pass.view.held ≢ [] }
        requires left { 0 < self.old.pass.view.draws }
        ensures drawn { IfOk result (λ d. IsDrawn self.new d × (self.old.version < d)) }
        ensures same { OnOk result (self.new ≡ record self.old { pass = self.new.pass; committing = true }) }
        ensures stopped { IfErr result (λ stop. IsFound stop × (self.new ≡ record self.old { pass = self.new.pass; state = stopped_from self.old.state; committing = true })) }
        ensures cause { IfErr result (CausedIn self.old self.new) }
        ensures first { IfErr result (IsFirstChanged self.new.pass.view self.old.observations self.old.versions) }
        ensures sole { IsSole self.old.pass → IsOk result }
        ensures direct { IfOk result (λ d. d ≡ self.old.version + 1 → trail_of self.new.pass ≡ trail_of self.old.pass ++ VersionDrawn d ∷ []) }
        ensures draws { self.new.pass.view.draws ≡ self.old.pass.view.draws - 1 }
        ensures held { self.new.pass.view.held ≡ self.old.pass.view.held }
        ensures pass { self.new.pass ≡ with_view self.old.pass self.new.pass.view }
        ensures grows { Grows self.old.pass.view self.new.pass.view }
        ensures steps { GrewBy (1 + length self.old.observations) (trail_of self.old.pass) (trail_of self.new.pass) }
    {
        self.committing = true;
        let table = self.table;
        let drawn = table.draw(&mut self.pass);
        match check_drawn(
            table,
            &mut self.pass,
            &self.reads,
            &self.held,
            self.version,
            drawn,
        ) {
            Ok(()) => Ok(drawn),
            Err(stop) => {
                self.state = self.state.stopped();
                Err(stop)
            }
        }
    }

    /// Ends the attempt without a record. Each held cell is given back with the version that it had.
    ///
    /// The pass has seen the attempt's version. What the attempt observed stands in the pass's view at that place.
    pub fn abort(self) -> Pass<M>
        ensures of { IsPassOf self.entry.table result }
        ensures idle { IsIdle result.view }
        ensures seen { result.seen ≡ self.entry.version }
        ensures books { result.books ≡ self.entry.pass.books }
        ensures steps { GrewBy (length self.entry.pass.view.held) (trail_of self.entry.pass) (trail_of result) }
        ensures pass { (result.room ≡ self.entry.pass.room) × (result.view.draws ≡ self.entry.pass.view.draws) }
        ensures vouched { (i : ℕ) → i < length self.entry.observations → (cell_at self.entry.observations i < length self.entry.table.opening) × (slice_index self.entry.versions i ≤ self.entry.version → Observes result.view (cell_at self.entry.observations i) (word_of self.entry.observations i) self.entry.version) }
        ensures grows { Grows self.entry.pass.view result.view }
    {
        let (pass, _) = self.abort_noted();
        pass
    }

    /// As `abort`, but it hands the notes back with the pass.
    pub fn abort_noted(self) -> (Pass<M>, Vec<M::Done, Global>)
        ensures of { IsPassOf self.entry.table result.0 }
        ensures idle { IsIdle result.0.view }
        ensures seen { result.0.seen ≡ self.entry.version }
        ensures books { result.0.books ≡ self.entry.pass.books }
        ensures steps { GrewBy (length self.entry.pass.view.held) (trail_of self.entry.pass) (trail_of result.0) }
        ensures pass { (result.0.room ≡ self.entry.pass.room) × (result.0.view.draws ≡ self.entry.pass.view.draws) }
        ensures vouched { (i : ℕ) → i < length self.entry.observations → (cell_at self.entry.observations i < length self.entry.table.opening) × (slice_index self.entry.versions i ≤ self.entry.version → Observes result.0.view (cell_at self.entry.observations i) (word_of self.entry.observations i) self.entry.version) }
        ensures grows { Grows self.entry.pass.view result.0.view }
        ensures notes { result.1.items ≡ self.entry.notes }
    {
        let Tx {
            table,
            mut pass,
            version,
            reads: _,
            writes: _,
            held,
            notes,
            additions: _,
            spare: _,
            state: _,
            committing: _,
            mark: _,
        } = self;
        give_back_all(table, &mut pass, held);
        pass.saw(version);
        (pass, notes)
    }

    /// Commits an attempt that writes nothing. Each held cell is given back with the version that it had, and the record
    /// stands in the acting caller's book at the attempt's version.
    pub fn commit_reads(self) -> Pass<M>
        requires callable { MayCall self }
        requires no_write { self.writes ≡ [] }
        requires resolved { NothingWaits self }
        requires explained { (m : M) → self.pass.view.meaning ≡ Some m → M.explains m self.observations [] self.notes }
        ensures of { IsPassOf self.entry.table result }
        ensures idle { IsIdle result.view }
        ensures seen { result.seen ≡ self.entry.version }
        ensures record { result.books ≡ note self.entry.version false (record { observations = self.entry.observations; writes = []; dones = self.entry.notes }) self.entry.pass.books }
        ensures steps { GrewBy (length self.entry.pass.view.held) (trail_of self.entry.pass) (trail_of result) }
        ensures pass { (result.room ≡ self.entry.pass.room) × (result.view.draws ≡ self.entry.pass.view.draws) }
        ensures grows { Grows self.entry.pass.view result.view }
    {
        let Tx {
            table,
            mut pass,
            version,
            reads,
            writes: _,
            held,
            notes,
            additions: _,
            spare: _,
            state: _,
            committing: _,
            mark: _,
        } = self;
        give_back_all(table, &mut pass, held);
        pass.add_reads(version, reads.into_observations(), notes);
        pass
    }
}

// Writes a cell at the level of the open child, or else at that of the attempt.
fn put_above(writes: &mut WriteSet, in_child: bool, cell: u32, value: u64) -> Result<(), AllocError>
    requires level { in_child ≡ false → writes.old.child ≡ [] }
    ensures merged { OnOk result (merged writes.new ≡ put (merged writes.old) cell value) }
    ensures parent { in_child ≡ true → writes.new.parent ≡ writes.old.parent }
    ensures child { in_child ≡ false → writes.new.child ≡ [] }
    ensures err { OnErr result (writes.new ≡ writes.old) }
    ensures len { length writes.new.parent + length writes.new.child ≤ length writes.old.parent + length writes.old.child + 1 }
    ensures reserved { writes.new.reserved ≡ writes.old.reserved }
{
    // Each level is in ascending order.
    writes.ascending_law();
    if in_child {
        writes.put_in_child(cell, value)?;
        return Ok(());
    }
    writes.put(cell, value)?;
    Ok(())
}
