//! How a table ends.
ghost use Rattle.std.specs.Prelude.{◌≡◌, ℕ, ◌<◌, length, slice_index};

use crate::meaning::Meaning;
use crate::pass::Pass;
use crate::table::CellTable;
use crate::words::{lock_place, value_place};
use atomic_table::Closed;
use std::alloc::Global;
use std::marker::Model;

/// The cells of a table that no pass steps on any more. Contracts see the values and the versions as two lists.
pub struct Contents {
    closed: Closed<(), Global>,
}

impl Model for Contents {
    ghost use Rattle.std.specs.Prelude.{◌≡◌, length};
    ghost use Rattle.std.specs.Mem.Slots.{slots_items, slots_len, IsFull};
    ghost use Rattle.cell_table.specs.Rule.{values_in, versions_in, words_for};
    ghost use Rattle.cell_table.specs.Settled.{Words};

    ghost Value = { Words };

    ghost view = { λ c. record { values = values_in (slots_items c.closed.words); versions = versions_in (slots_items c.closed.words) } };

    ghost invariant = { λ c. IsFull c.closed.words × (slots_len c.closed.slots ≡ 0) × (slots_len c.closed.words ≡ words_for (length (values_in (slots_items c.closed.words)))) × (length (slots_items c.closed.words) ≡ words_for (length (values_in (slots_items c.closed.words)))) };
}

impl Drop for Contents {
    fn drop(self) {
        let Self { closed } = self;
        closed.free();
    }
}

impl Contents {
    /// The value of the cell.
    pub fn value(&self, cell: u32) -> u64
        requires { cell < length self.now.values }
        ensures { result ≡ slice_index self.now.values cell }
    {
        self.closed.word(value_place!(cell))
    }

    /// The version of the cell: the place of the last writer that wrote it, or 0.
    pub fn version(&self, cell: u32) -> u64
        requires { cell < length self.now.values }
        ensures { result ≡ slice_index self.now.versions cell }
    {
        self.closed.word(lock_place!(cell)) / 2
    }
}

impl<M: Meaning> CellTable<M> {
    ghost use Rattle.cell_table.specs.Steps.{IsIdle};
    ghost use Rattle.cell_table.specs.Pass.{IsPassOf, IsSole};
    ghost use Rattle.cell_table.specs.Settled.{Settled};

    /// The end of the table, by the pass that has every caller number.
    pub fn close(self, pass: Pass<M>) -> Contents
        requires of { IsPassOf self pass }
        requires sole { IsSole pass }
        requires idle { IsIdle pass.view }
        ensures settled { Settled M.lawful M.explains pass result }
    {
        let CellTable {
            words,
            meaning: _,
            callers: _,
        } = self;
        let Pass {
            seat,
            ledgers: _,
            held: _,
            drawn: _,
            plan: _,
            seen: _,
            draws: _,
            room: _,
        } = pass;
        let closed = words.close_with(seat);
        Contents { closed }
    }
}
