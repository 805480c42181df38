//! A pass: the caller numbers under which its owner steps on a table, with their books.
ghost use Rattle.std.specs.Prelude.{◌≡◌, ℕ, ◌+◌, ◌-◌, ◌*◌, ◌/◌, ◌%◌, ◌^◌, ◌<◌, ◌≤◌, ◌↔◌, ◌∷◌, true, false, [], length, slice_index_or, Some, None, OnOk, OnErr, IsTrue};

use crate::books::{add_entry, reserve_entry};
use crate::entry::{Entry, HeldCell, Ledger, Plan};
use crate::meaning::Meaning;
use crate::table::CellTable;
use crate::view::View;
use atomic_table::Seat;
use std::alloc::{AllocError, Global};
use std::marker::Model;

/// The caller numbers that its owner steps under, with their books. It acts under the least of them.
///
/// Contracts see it as a `PassState`.
#[derive(Drop)]
pub struct Pass<M: Meaning> {
    pub(crate) seat: Seat<(), View<M, M::Done>>,
    /// Its caller numbers with their books, the least first.
    pub(crate) ledgers: Vec<Ledger<M::Done>, Global>,
    /// In ascending order of the cells.
    pub(crate) held: Vec<HeldCell, Global>,
    /// The version of the attempt, once it is drawn.
    pub(crate) drawn: u64,
    pub(crate) plan: Option<Plan<M::Done>>,
    pub(crate) seen: u64,
    pub(crate) draws: u64,
    pub(crate) room: u32,
}

impl<M: Meaning> Model for Pass<M> {
    ghost use Rattle.std.specs.Prelude.{◌≡◌, [], ◌-◌, ◌≤◌, vec_len, vec_capacity};
    ghost use Rattle.cell_table.specs.Pass.{PassState};
    ghost use Rattle.cell_table.specs.IsPass.{IsPass};
    ghost use Rattle.cell_table.specs.Seats.{Tied, noted_books, reserved_in, plan_of};

    ghost Value = { PassState M M.Done };

    ghost view = { λ s. record { view = s.seat.me.0; table = s.seat.table_id; books = noted_books s.ledgers.items; seen = s.seen; room = s.room; reserved = reserved_in s.ledgers.items; places = vec_capacity s.held - vec_len s.held; plan = plan_of s.plan } };

    ghost invariant = { λ s. IsPass M.lawful M.explains record { view = s.seat.me.0; table = s.seat.table_id; books = noted_books s.ledgers.items; seen = s.seen; room = s.room; reserved = reserved_in s.ledgers.items; places = vec_capacity s.held - vec_len s.held; plan = plan_of s.plan } × Tied s.seat.me.0 s.held.items s.drawn s.draws × (s.room ≤ vec_capacity s.ledgers) × (vec_len s.held ≤ vec_capacity s.held) × (s.seat.me.1 ≡ []) };
}

impl<M: Meaning> Pass<M> {
    ghost use Rattle.cell_table.specs.Sorted.{Each};
    ghost use Rattle.cell_table.specs.Cells.{IsWrittenOnce, writes_to};
    ghost use Rattle.cell_table.specs.declared.view.Stage.TheVariants.{Drawn};
    ghost use Rattle.cell_table.specs.Steps.{IsIdle, AllHeld, MayDecide, Observes};
    ghost use Rattle.cell_table.specs.Pass.{IsPassOf, IsSole, acting, after_entry};
    ghost use Rattle.cell_table.specs.IsPass.{IsPass};
    ghost use Rattle.cell_table.specs.Seats.{noted_all};

    /// The number of caller numbers that it holds.
    pub fn callers_held(&self) -> u32
        ensures count { result ≡ length self.now.books }
        ensures some { 0 < result }
    {
        self.ledgers.len() as u32
    }

    /// The least number held, under which the pass acts.
    pub fn caller(&self) -> u32
        ensures { result ≡ acting self.now }
    {
        self.ledgers[0].caller
    }

    /// The greatest place that it has seen: no record of its books is above it.
    pub fn seen(&self) -> u64
        ensures { result ≡ self.now.seen }
    {
        self.seen
    }

    /// How many versions it may still draw.
    pub fn draws_left(&self) -> u64
        ensures { result ≡ self.now.view.draws }
    {
        self.draws
    }

    /// How many callers it can hold.
    pub fn room(&self) -> u32
        ensures { result ≡ self.now.room }
    {
        self.room
    }

    /// Whether it holds every caller number of the table.
    pub fn is_sole(&self, table: &CellTable<M>) -> bool
        requires { IsPassOf table.now self.now }
        ensures { IsTrue result ↔ IsSole self.now }
    {
        self.ledgers.len() == table.callers as usize
    }

    /// The book of the held-th of its numbers, in ascending order, the oldest entry first.
    pub fn entries(&self, held: u32) -> &[Entry<M::Done>]
        requires { held < length self.now.books }
        ensures { noted_all result.now ≡ (slice_index_or self.now.books held (record { caller = 0; entries = [] })).entries }
    {
        let ledger = &self.ledgers[held as usize];
        ledger.entries.as_slice()
    }

    /// What is true of every pass at any moment: among others that there is one legal history which it fits.
    pub fn legal_law(&self)
        ensures { IsPass M.lawful M.explains self.now }
    {
        let _ = &self.seat;
    }

    /// Room for one more entry in the acting caller's book.
    pub fn reserve(&mut self) -> Result<(), AllocError>
        ensures same { self.new ≡ record self.old { reserved = self.new.reserved } }
        ensures ok { OnOk result (0 < self.new.reserved) }
        ensures unchanged { OnErr result (self.new ≡ self.old) }
    {
        reserve_entry(&mut self.ledgers)
    }

    /// Room for `more` further locks. It may be called in any state of the attempt.
    pub fn reserve_locks(&mut self, more: u32) -> Result<(), AllocError>
        ensures same { self.new ≡ record self.old { places = self.new.places } }
        ensures ok { OnOk result (more ≤ self.new.places) }
        ensures unchanged { OnErr result (self.new ≡ self.old) }
    {
        self.held.reserve(more as usize)
    }

    /// Settles what the attempt decides by its first `put_value`.
    ///
    /// All that was observed stands just before the drawn version, and the record is explained.
    pub fn plan(
        &mut self,
        observations: Vec<(u32, u64), Global>,
        writes: Vec<(u32, u64), Global>,
        dones: Vec<M::Done, Global>,
    )
        requires reserved { 0 < self.old.reserved }
        requires drawn { (u : ℕ) × (self.old.view.stage ≡ Drawn u) × MayDecide M.explains self.old.view u (record { observations = observations.items; writes = writes.items; dones = dones.items }) }
        requires some { 0 < length writes.items }
        requires once { IsWrittenOnce writes.items }
        requires held { AllHeld writes.items self.old.view.held }
        ensures { self.new ≡ record self.old { plan = Some (record { observations = observations.items; writes = writes.items; dones = dones.items }) } }
    {
        self.plan = Some(Plan {
            observations,
            writes,
            dones,
        });
    }

    /// Adds the record of a reader at a place that the pass knows.
    pub fn add_reads(
        &mut self,
        place: u64,
        observations: Vec<(u32, u64), Global>,
        dones: Vec<M::Done, Global>,
    )
        requires reserved { 0 < self.old.reserved }
        requires idle { IsIdle self.old.view }
        requires place { (self.old.seen ≤ place) × (place ≤ self.old.view.known) }
        requires stands { Each (λ o. (o.0 < length self.old.view.opening) × Observes self.old.view o.0 o.1 place) observations.items }
        requires explained { (m : M) → self.old.view.meaning ≡ Some m → M.explains m observations.items [] dones.items }
        ensures { self.new ≡ after_entry self.old place (record { observations = observations.items; writes = []; dones = dones.items }) }
    {
        let writes = Vec::new(*observations.allocator());
        let entry = Entry {
            place,
            writer: false,
            observations,
            writes,
            dones,
        };
        add_entry(&mut self.ledgers, entry);
        self.seen = place;
    }

    /// The pass has seen this place, by an attempt that leaves no record.
    pub fn saw(&mut self, place: u64)
        requires idle { IsIdle self.old.view }
        requires place { (self.old.seen ≤ place) × (place ≤ self.old.view.known) }
        ensures { self.new ≡ record self.old { seen = place } }
    {
        self.seen = place;
    }
}
