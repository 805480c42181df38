//! How passes are split and joined.
ghost use Rattle.std.specs.Prelude.{◌≡◌, ℕ, ◌+◌, ◌-◌, ◌*◌, ◌/◌, ◌^◌, ◌<◌, ◌≤◌, ◌++◌, [], ◌∷◌, length, IfOk, OnOk, OnErr};

use crate::books::merge_ledgers;
use crate::meaning::Meaning;
use crate::pass::Pass;
use crate::plays::{ClockLoad, SeatJoin, SeatSplit, Share};
use crate::table::CellTable;
use crate::view::View;
use atomic_table::Seat;
use std::alloc::{AllocError, Global};
use std::marker::Brand;

impl<M: Meaning> CellTable<M> {
    ghost use Rattle.cell_table.specs.Steps.{IsIdle, kept_part, new_part, both_parts, clocked};
    ghost use Rattle.cell_table.specs.Legal.{LegalNow};

    // The seat keeps the first `kept` callers, and a new one gets the others and the draws.
    fn cut<N: Share>(
        &self,
        seat: &mut Seat<(), View<M, M::Done>>,
        kept: usize,
        draws: u64,
    ) -> Seat<(), View<M, M::Done>>
        requires table { seat.old.table_id ≡ self.now.id }
        requires share { (N.callers ≡ kept) × (N.draws ≡ draws) }
        requires idle { IsIdle seat.old.me.0 }
        requires callers { (0 < kept) × (kept < length seat.old.me.0.books) }
        requires draws { draws ≤ seat.old.me.0.draws }
        ensures old { (seat.new.table_id ≡ seat.old.table_id) × (seat.new.me.0 ≡ kept_part kept draws seat.old.me.0) × (seat.new.me.1 ≡ seat.old.me.1) }
        ensures new { (result.table_id ≡ seat.old.table_id) × (result.me.0 ≡ new_part kept draws seat.old.me.0) × (result.me.1 ≡ []) }
    {
        let _ = (kept, draws);
        self.words.shared.split_seat::<SeatSplit<N>>(seat)
    }

    // The join of two seats, which tells nothing of the table, and a load of the clock.
    fn rejoin(
        &self,
        seat: &mut Seat<(), View<M, M::Done>>,
        other: Seat<(), View<M, M::Done>>,
    ) -> u64
        requires table { (seat.old.table_id ≡ self.now.id) × (other.table_id ≡ self.now.id) }
        requires empty { (seat.old.me.1 ≡ []) × (other.me.1 ≡ []) }
        requires idle { IsIdle seat.old.me.0 × IsIdle other.me.0 }
        requires acting { 0 < length seat.old.me.0.books }
        ensures seat { (seat.new.table_id ≡ seat.old.table_id) × (seat.new.me.1 ≡ []) }
        ensures view { seat.new.me.0 ≡ clocked (both_parts seat.old.me.0 other.me.0) result }
        ensures later { (seat.old.me.0.known ≤ result) × (other.me.0.known ≤ result) }
        ensures legal { LegalNow M.lawful M.explains seat.new.me.0 }
    {
        self.words.shared.join_seat::<SeatJoin>(seat, other);
        self.words.shared.load::<ClockLoad>(seat, 0)
    }
}

impl<M: Meaning> Pass<M> {
    ghost use Rattle.cell_table.specs.declared.view.Event.TheVariants.{ClockLoaded, SeatMoved};
    ghost use Rattle.cell_table.specs.Steps.{IsIdle, Grows};
    ghost use Rattle.cell_table.specs.Pass.{IsPassOf, split_kept, split_new, joined, trail_of};

    /// A new pass with the n greatest of the numbers held, and their share of the draws. It has seen the same place, and knows what this one knows.
    ///
    /// It has room for n callers and for 8 locks. After Memory the pass is unchanged.
    pub fn split(
        &mut self,
        alloc: Global,
        table: &CellTable<M>,
        n: u32,
    ) -> Result<Pass<M>, AllocError>
        requires of { IsPassOf table.now self.old }
        requires n { (0 < n) × (n < length self.old.books) }
        requires idle { IsIdle self.old.view }
        ensures of { IsPassOf table.now self.new }
        ensures kept { OnOk result (self.new ≡ split_kept self.old n) }
        ensures new { IfOk result (λ other. IsPassOf table.now other × (other ≡ split_new self.old n other.reserved)) }
        ensures grows { IfOk result (λ other. Grows self.old.view self.new.view × Grows self.old.view other.view) }
        ensures unchanged { OnErr result (self.new ≡ self.old) }
    {
        let kept = self.ledgers.len() - n as usize;
        let share = n as u64 * (self.draws / self.ledgers.len() as u64);
        let held = Vec::with_capacity(alloc, 8)?;
        let ledgers = self.ledgers.split_off(kept)?;
        let seat = table.cut::<Brand>(&mut self.seat, kept, share);
        self.draws -= share;
        Ok(Pass {
            seat,
            ledgers,
            held,
            drawn: 0,
            plan: None,
            seen: self.seen,
            draws: share,
            room: n,
        })
    }

    /// Takes in the numbers, books and draws of another pass, and what it knows.
    ///
    /// It makes two steps: the join itself, which tells nothing of the table, and a load of the clock.
    pub fn join(&mut self, table: &CellTable<M>, other: Pass<M>)
        requires of { IsPassOf table.now self.old × IsPassOf table.now other }
        requires idle { IsIdle self.old.view × IsIdle other.view }
        requires room { length self.old.books + length other.books ≤ self.old.room }
        ensures of { IsPassOf table.now self.new }
        ensures view { (place : ℕ) × (self.new ≡ joined self.old other place self.new.reserved) × (self.old.view.known ≤ place) × (other.view.known ≤ place) × (trail_of self.new ≡ trail_of self.old ++ trail_of other ++ SeatMoved ∷ ClockLoaded place ∷ []) }
        ensures books { length self.new.books ≡ length self.old.books + length other.books }
        ensures grows { Grows self.old.view self.new.view × Grows other.view self.new.view }
    {
        let Pass {
            seat,
            ledgers,
            held,
            drawn: _,
            plan: _,
            seen,
            draws,
            room: _,
        } = other;
        let _ = table.rejoin(&mut self.seat, seat);
        merge_ledgers(&mut self.ledgers, ledgers);
        self.draws += draws;
        self.seen = self.seen.max(seen);
        let _ = held;
    }
}
