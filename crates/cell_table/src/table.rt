//! The table and its atomic steps.
ghost use Rattle.std.specs.Prelude.{◌≡◌, ◌≢◌, ℕ, ◌+◌, ◌-◌, ◌*◌, ◌/◌, ◌%◌, ◌^◌, ◌<◌, ◌≤◌, ◌++◌, [], ◌∷◌, true, false, length, None, MatchResult, OnOk, OnErr, IfErr};

use crate::books::add_entry;
use crate::entry::{Plan, drop_plan, due_version, entry_of};
use crate::held::{add_held, mark_stored, take_held};
use crate::meaning::Meaning;
use crate::pass::Pass;
use crate::plays::{
    ClockAdd, ClockLoad, FirstValueStore, LockExchange, LockLoad, LockStore, NextValueStore,
    PlannedRecord, ValueLoad,
};
use crate::rule::{About, Ruled};
use crate::view::View;
use crate::words::{lock_place, value_place};
use atomic_table::{Seat, Table};
use std::alloc::Global;
use std::marker::{Brand, Model};

/// A version clock and, for each cell, a lock word and a value word.
///
/// A free lock word is twice the version of the cell, a held one twice the caller number of its owner plus 1. Contracts see the table as a `TableState`.
#[derive(Drop)]
pub struct CellTable<M: Meaning> {
    pub(crate) words: Table<(), View<M, M::Done>, About<M>, Ruled<M>, Global>,
    pub(crate) meaning: M,
    pub(crate) callers: u32,
}

impl<M: Meaning> Model for CellTable<M> {
    ghost use Rattle.std.specs.Prelude.{◌≡◌, ◌^◌, ◌<◌, ◌≤◌, length};
    ghost use Rattle.cell_table.specs.Rule.{values_in, words_for};
    ghost use Rattle.cell_table.specs.Pass.{TableState};

    ghost Value = { TableState M };

    ghost view = { λ t. record { id = t.words.shared.table_id; meaning = t.meaning; opening = values_in t.words.shared.key.words.value.items; callers = t.callers } };

    ghost invariant = { λ t. (t.words.shared.table_id.words ≡ words_for (length (values_in t.words.shared.key.words.value.items))) × (t.words.shared.table_id.slots ≡ 0) × (t.words.shared.key.meaning.value ≡ t.meaning) × (t.words.shared.key.callers ≡ t.callers) × (0 < t.callers) × (t.callers ≤ 4096) × (0 < length (values_in t.words.shared.key.words.value.items)) × (length (values_in t.words.shared.key.words.value.items) ≤ 2 ^ 24) };
}

impl<M: Meaning> CellTable<M> {
    ghost use Rattle.cell_table.specs.Sorted.{Each, Among};
    ghost use Rattle.cell_table.specs.Cells.{has, Leaves};
    ghost use Rattle.cell_table.specs.declared.view.Event.TheVariants.{ClockLoaded, LockLoaded, ValueLoaded, LockExchanged, VersionDrawn, ValueStored, LockStored};
    ghost use Rattle.cell_table.specs.declared.view.Stage.TheVariants.{Open, Drawn};
    ghost use Rattle.cell_table.specs.declared.view.OpenRead.TheVariants.{LockRead, ValueRead};
    ghost use Rattle.cell_table.specs.Rule.{cells_of};
    ghost use Rattle.cell_table.specs.Steps.{clocked, looked, valued, taken, missed, drawn, due, first_put, next_put, word_found, IsUndecided, MayStore, MayDecide, FoundFree, Grows, IsWord, HeldStand, Reads, Validated, Observes, IsStoredOrUndecided};
    ghost use Rattle.cell_table.specs.Steps.{AllHeld};
    ghost use Rattle.cell_table.specs.Legal.{LegalNow};
    ghost use Rattle.cell_table.specs.Seats.{record_of};
    ghost use Rattle.cell_table.specs.Writers.{writers_in, newest_in};
    ghost use Rattle.cell_table.specs.Pass.{IsPassOf, IsHeld, IsSole, MayPut, with_view, after_put, after_give, trail_of};

    /// What the cells mean.
    pub fn meaning(&self) -> &M
        ensures { result.now ≡ self.now.meaning }
    {
        &self.meaning
    }

    /// A load of the clock. The word is at least every place that the pass knows.
    pub fn clock(&self, pass: &mut Pass<M>) -> u64
        requires of { IsPassOf self.now pass.old }
        ensures of { IsPassOf self.now pass.new }
        ensures view { pass.new ≡ with_view pass.old (clocked pass.old.view result) }
        ensures step { trail_of pass.new ≡ trail_of pass.old ++ ClockLoaded result ∷ [] }
        ensures grows { Grows pass.old.view pass.new.view }
        ensures later { (pass.old.seen ≤ result) × (pass.old.view.known ≤ result) }
        ensures held_stand { pass.old.view.stage ≡ Open → HeldStand pass.old.view pass.new.view result }

        // A pass with every caller number finds the number of the draws that it has made.
        ensures sole { IsSole pass.old → result + pass.old.view.draws ≡ self.now.callers * 2 ^ 48 }
    {
        self.words.shared.load::<ClockLoad>(&mut pass.seat, 0)
    }

    /// A load of the cell's lock word: the first or last look of a read, a look before a lock, or a validation.
    pub fn look_lock(&self, pass: &mut Pass<M>, cell: u32) -> u64
        requires of { IsPassOf self.now pass.old }
        requires cell { cell < length self.now.opening }
        ensures of { IsPassOf self.now pass.new }
        ensures view { pass.new ≡ with_view pass.old (looked pass.old.view cell result) }
        ensures step { trail_of pass.new ≡ trail_of pass.old ++ LockLoaded cell result ∷ [] }
        ensures grows { Grows pass.old.view pass.new.view }
        ensures word { IsWord pass.old.view cell result }

        // The first look of a read, and the last one where it finds the version of the first: then the value is known.
        ensures first { (u : ℕ) → result ≡ 2 * u → pass.new.view.reading ≡ LockRead cell u }
        ensures read { (u x : ℕ) → result ≡ 2 * u → pass.old.view.reading ≡ ValueRead cell u x → Reads pass.new.view cell u x }

        // The version is the newest one up to every place that the pass knows.
        ensures still { (u : ℕ) → result ≡ 2 * u → u ≤ pass.old.view.known → Validated pass.new.view cell u pass.old.view.known }
        // No version that the trail has for this cell is above the one that is found now.
        ensures never_falls { (u w : ℕ) → result ≡ 2 * u → FoundFree (trail_of pass.old) cell w → w ≤ u }

        // A pass with every caller number finds the version of the last writer in its own books.
        ensures sole { IsSole pass.old → has cell (cells_of pass.old.view.held) ≡ false → (result % 2 ≡ 0) × (result ≤ 2 * pass.old.seen) × (result ≡ 2 * newest_in (writers_in pass.old.books) cell) }
    {
        self.words
            .shared
            .load::<LockLoad>(&mut pass.seat, lock_place!(cell))
    }

    /// A load of the cell's value word: the middle of a read, or the value of a held cell.
    pub fn look_value(&self, pass: &mut Pass<M>, cell: u32) -> u64
        requires of { IsPassOf self.now pass.old }
        requires cell { cell < length self.now.opening }
        ensures of { IsPassOf self.now pass.new }
        ensures view { pass.new ≡ with_view pass.old (valued pass.old.view cell result) }
        ensures step { trail_of pass.new ≡ trail_of pass.old ++ ValueLoaded cell result ∷ [] }
        ensures grows { Grows pass.old.view pass.new.view }
        ensures second { (u : ℕ) → pass.old.view.reading ≡ LockRead cell u → pass.new.view.reading ≡ ValueRead cell u result }
        ensures held_value { (u : ℕ) → Among (cell, u) pass.old.view.held → IsUndecided pass.old.view.stage → Reads pass.new.view cell u result }
    {
        self.words
            .shared
            .load::<ValueLoad>(&mut pass.seat, value_place!(cell))
    }

    /// A compare-exchange of the cell's lock word, from a free word. The cell is then held at the version of that word.
    ///
    /// Err gives the word that was found. It comes exactly where that isn't `from`.
    pub fn take_lock(&self, pass: &mut Pass<M>, cell: u32, from: u64) -> Result<(), u64>
        requires of { IsPassOf self.now pass.old }
        requires cell { cell < length self.now.opening }
        requires free { from % 2 ≡ 0 }
        requires undrawn { pass.old.view.stage ≡ Open }
        requires place { 0 < pass.old.places }
        ensures of { IsPassOf self.now pass.new }
        ensures taken { OnOk result ((pass.new ≡ record pass.old { view = taken pass.old.view cell (from / 2); places = pass.old.places - 1 }) × (has cell (cells_of pass.old.view.held) ≡ false)) }
        ensures found { IfErr result (λ found. (found ≢ from) × (pass.new ≡ with_view pass.old (missed pass.old.view cell found)) × IsWord pass.old.view cell found) }
        ensures step { trail_of pass.new ≡ trail_of pass.old ++ LockExchanged cell (word_found from result) ∷ [] }
        ensures grows { Grows pass.old.view pass.new.view }
        ensures still { (u : ℕ) → word_found from result ≡ 2 * u → u ≤ pass.old.view.known → Validated pass.new.view cell u pass.old.view.known }
        ensures never_falls { (u w : ℕ) → word_found from result ≡ 2 * u → FoundFree (trail_of pass.old) cell w → w ≤ u }

        // So a pass with every caller number never fails where `from` is the word of the last writer in its own books.
        ensures sole { IsSole pass.old → has cell (cells_of pass.old.view.held) ≡ false → (word_found from result ≤ 2 * pass.old.seen) × (word_found from result ≡ 2 * newest_in (writers_in pass.old.books) cell) }
    {
        let mine = 2 * pass.caller() as u64 + 1;
        let found = self
            .words
            .shared
            .compare_exchange::<LockExchange>(&mut pass.seat, lock_place!(cell), from, mine);
        if found != from {
            return Err(found);
        }
        add_held(&mut pass.held, cell, from / 2);
        Ok(())
    }

    /// A fetch_add of the clock, which draws the attempt's version: the clock before, plus 1.
    pub fn draw(&self, pass: &mut Pass<M>) -> u64
        requires of { IsPassOf self.now pass.old }
        requires undrawn { pass.old.view.stage ≡ Open }
        requires holds { pass.old.view.held ≢ [] }
        requires left { 0 < pass.old.view.draws }
        ensures of { IsPassOf self.now pass.new }
        ensures view { pass.new ≡ with_view pass.old (drawn pass.old.view result) }
        ensures step { trail_of pass.new ≡ trail_of pass.old ++ VersionDrawn result ∷ [] }
        ensures grows { Grows pass.old.view pass.new.view }
        ensures later { (pass.old.seen < result) × (pass.old.view.known < result) }
        ensures above { Each (λ t. t.1 < result) pass.old.view.held }
        ensures held_stand { HeldStand pass.old.view pass.new.view (result - 1) }
    {
        pass.draws -= 1;
        let version = self
            .words
            .shared
            .fetch_add::<ClockAdd>(&mut pass.seat, 0, 1)
            + 1;
        pass.drawn = version;
        version
    }

    /// A store of the cell's value word. The first one of an attempt decides the writer: its record is then in the acting caller's book.
    pub fn put_value(&self, pass: &mut Pass<M>, cell: u32, value: u64)
        requires of { IsPassOf self.now pass.old }
        requires cell { cell < length self.now.opening }
        requires held { IsHeld pass.old cell }
        requires planned { MayPut pass.old cell value pass.old.plan }
        ensures of { IsPassOf self.now pass.new }
        ensures view { pass.new ≡ after_put pass.old cell value pass.old.plan }
        ensures step { trail_of pass.new ≡ trail_of pass.old ++ ValueStored cell value ∷ [] }
        ensures grows { Grows pass.old.view pass.new.view }
    {
        mark_stored(&mut pass.held, cell);
        if pass.plan.is_none() {
            self.put_next(&mut pass.seat, cell, value);
            return;
        }
        let Some(plan) = pass.plan.take() else {
            unreachable!()
        };
        let version = pass.drawn;
        self.put_first::<Brand>(&mut pass.seat, cell, value, &plan, version);
        add_entry(&mut pass.ledgers, entry_of(plan, version));
        pass.seen = version;
    }

    // The store that decides the plan.
    fn put_first<N: PlannedRecord<M::Done>>(
        &self,
        seat: &mut Seat<(), View<M, M::Done>>,
        cell: u32,
        value: u64,
        plan: &Plan<M::Done>,
        version: u64,
    )
        requires table { seat.old.table_id ≡ self.now.id }
        requires cell { cell < length self.now.opening }
        requires acting { 0 < length seat.old.me.0.books }
        requires plan { record_of plan.now ≡ N.plan }
        requires drawn { (seat.old.me.0.stage ≡ Drawn version) × MayDecide M.explains seat.old.me.0 version (record_of plan.now) }
        requires held { AllHeld plan.now.writes.items seat.old.me.0.held }
        requires value { Leaves plan.now.writes.items cell value }
        ensures seat { (seat.new.table_id ≡ seat.old.table_id) × (seat.new.me.1 ≡ seat.old.me.1) }
        ensures view { seat.new.me.0 ≡ first_put seat.old.me.0 version (record_of plan.now) cell value }
        ensures legal { LegalNow M.lawful M.explains seat.new.me.0 }
    {
        let _ = plan;
        let _ = version;
        self.words
            .shared
            .store::<FirstValueStore<N>>(seat, value_place!(cell), value);
    }

    // A store after the first one.
    fn put_next(&self, seat: &mut Seat<(), View<M, M::Done>>, cell: u32, value: u64)
        requires table { seat.old.table_id ≡ self.now.id }
        requires cell { cell < length self.now.opening }
        requires acting { 0 < length seat.old.me.0.books }
        requires may { MayStore cell value seat.old.me.0.held seat.old.me.0.stage }
        ensures seat { (seat.new.table_id ≡ seat.old.table_id) × (seat.new.me.1 ≡ seat.old.me.1) }
        ensures view { seat.new.me.0 ≡ next_put seat.old.me.0 cell value }
        ensures legal { LegalNow M.lawful M.explains seat.new.me.0 }
    {
        self.words
            .shared
            .store::<NextValueStore>(seat, value_place!(cell), value);
    }

    /// A store of the cell's lock word, which gives the cell back: with the drawn version where a decided writer wrote it, else with the version that it had.
    pub fn give_back(&self, pass: &mut Pass<M>, cell: u32)
        requires of { IsPassOf self.now pass.old }
        requires cell { cell < length self.now.opening }
        requires held { IsHeld pass.old cell }
        requires stored { IsStoredOrUndecided pass.old.view.stage }
        ensures of { IsPassOf self.now pass.new }
        ensures view { pass.new ≡ after_give pass.old cell }
        ensures step { trail_of pass.new ≡ trail_of pass.old ++ LockStored cell (2 * due cell pass.old.view.held pass.old.view.stage) ∷ [] }
        ensures grows { Grows pass.old.view pass.new.view }
    {
        let entry = take_held(&mut pass.held, cell);
        let version = due_version(entry, pass.drawn);
        self.words
            .shared
            .store::<LockStore>(&mut pass.seat, lock_place!(cell), 2 * version);
        drop_plan(&mut pass.plan, pass.held.as_slice());
    }
}
