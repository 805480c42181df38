//! Cells in the order in which they came, with an index by cell.
ghost use Rattle.std.specs.Prelude.{◌≡◌, ℕ, ◌+◌, ◌<◌, ◌≤◌, [], ◌∷◌, ◌++◌, length, take, slice_set, Some, OnOk, OnErr, IfSome, MatchOption};
ghost use Rattle.attempt_lists.specs.Cells.{word_at, word_of, cell_at, in_order, IsAscending, NoCellTwice, Listed};

use crate::cell_index::CellIndex;
use crate::filter::{passes, with_cell};
use std::alloc::{AllocError, Global};
use std::marker::Model;

/// Cells in the order in which they came, none twice, each with a word.
///
/// A cell is found in constant time. Places are reserved by number, and a call that fills one takes no memory.
#[derive(Drop)]
pub struct CellList {
    entries: Vec<(u32, u64)>,
    filter: u64,
    index: CellIndex,
    reserved: usize,
    room: usize,
}

impl Model for CellList {
    ghost use Rattle.std.specs.Prelude.{◌+◌, ◌≤◌};
    ghost use Rattle.std.specs.Vec.{vec_len, vec_capacity};
    ghost use Rattle.attempt_lists.specs.Cells.{Listed, NoCellTwice};
    ghost use Rattle.attempt_lists.specs.Index.{AllPass, Indexes, HasRoom};

    ghost Value = { Listed };

    ghost view = { λ a. record { entries = a.entries.items; reserved = a.reserved } };

    // There is room for at least as many more cells as are promised.
    ghost invariant = { λ a. NoCellTwice a.entries.items × AllPass a.filter a.entries.items × Indexes a.index a.entries.items × (vec_len a.entries + a.room ≤ vec_capacity a.entries) × HasRoom a.index (vec_len a.entries) a.room × (a.reserved ≤ a.room) };
}

impl CellList {
    /// An empty list with no place reserved. Takes no memory.
    pub fn new(alloc: Global) -> Self
        ensures empty { result.entries ≡ [] }
        ensures reserved { result.reserved ≡ 0 }
    {
        Self {
            entries: Vec::new(alloc),
            filter: 0,
            index: CellIndex::new(alloc),
            reserved: 0,
            room: 0,
        }
    }

    /// How many cells are in the list.
    pub fn len(&self) -> usize
        ensures { result ≡ length self.now.entries }
    {
        self.entries.len()
    }

    /// The word of a cell, or `None` where the cell is not in the list.
    pub fn get(&self, cell: u32) -> Option<u64>
        ensures { result ≡ word_at self.now.entries cell }
    {
        match self.place(cell) {
            Some(place) => Some(self.entries[place].1),
            None => None,
        }
    }

    /// Where in the list the cell is.
    pub fn place(&self, cell: u32) -> Option<usize>
        ensures { MatchOption result (word_at self.now.entries cell ≡ None) (λ i. (i < length self.now.entries) × (cell_at self.now.entries i ≡ cell) × (word_at self.now.entries cell ≡ Some (word_of self.now.entries i))) }
    {
        if passes(self.filter, cell) {
            self.index.place(&self.entries, cell)
        } else {
            None
        }
    }

    /// The cells with their words, in the order in which they came.
    pub fn as_slice(&self) -> &[(u32, u64)]
        ensures entries { result.now ≡ self.now.entries }
        ensures once { NoCellTwice self.now.entries }
    {
        &self.entries
    }

    /// No cell is ever in the list twice.
    pub fn once_law(&self)
        ensures { NoCellTwice self.now.entries }
    {
        self.as_slice();
    }

    /// How many places are reserved.
    pub fn reserved(&self) -> usize
        ensures { result ≡ self.now.reserved }
    {
        self.reserved
    }

    /// Reserves places for `more` cells beside those reserved already.
    pub fn reserve(&mut self, more: usize) -> Result<(), AllocError>
        ensures entries { self.new.entries ≡ self.old.entries }
        ensures ok { OnOk result (self.new.reserved ≡ self.old.reserved + more) }
        ensures err { OnErr result (self.new.reserved ≡ self.old.reserved) }
    {
        let Some(reserved) = self.reserved.checked_add(more) else {
            return Err(AllocError);
        };
        if reserved <= self.room {
            self.reserved = reserved;
            return Ok(());
        }
        // A list that grows doubles at least.
        let room = reserved.max(self.entries.len());
        self.entries.reserve(room)?;
        self.index.reserve(&self.entries, room)?;
        self.room = room;
        self.reserved = reserved;
        Ok(())
    }

    /// Appends a cell that is not in the list. The reserved places stay reserved.
    pub fn push(&mut self, cell: u32, word: u64) -> Result<(), AllocError>
        requires absent { word_at self.old.entries cell ≡ None }
        ensures ok { OnOk result (self.new ≡ record self.old { entries = self.old.entries ++ (cell, word) ∷ [] }) }
        ensures err { OnErr result (self.new ≡ self.old) }
    {
        self.reserve(1)?;
        self.push_reserved(cell, word);
        Ok(())
    }

    /// Appends a cell that is not in the list at a reserved place. Takes no memory.
    pub fn push_reserved(&mut self, cell: u32, word: u64)
        requires absent { word_at self.old.entries cell ≡ None }
        requires room { 0 < self.old.reserved }
        ensures entries { self.new.entries ≡ self.old.entries ++ (cell, word) ∷ [] }
        ensures reserved { self.new.reserved + 1 ≡ self.old.reserved }
    {
        self.index.push(&self.entries, cell);
        self.filter = with_cell(self.filter, cell);
        self.entries.push_reserved((cell, word));
        self.room -= 1;
        self.reserved -= 1;
    }

    /// Gives the cell at a place another word. Takes no memory.
    pub(crate) fn set_word(&mut self, place: usize, word: u64)
        requires { place < length self.old.entries }
        ensures entries { self.new.entries ≡ slice_set self.old.entries place (cell_at self.old.entries place, word) }
        ensures reserved { self.new.reserved ≡ self.old.reserved }
    {
        let (cell, _) = self.entries[place];
        self.entries[place] = (cell, word);
    }

    /// Puts the cells in ascending order. Takes no memory.
    pub fn sort(&mut self)
        ensures entries { self.new.entries ≡ in_order self.old.entries }
        ensures ascending { IsAscending self.new.entries }
        ensures reserved { self.new.reserved ≡ self.old.reserved }
    {
        self.index.order();
        self.entries.sort_unstable_by_key(|&(cell, _)| cell);
    }

    /// Takes the last cell out. Takes no memory.
    pub fn pop(&mut self) -> Option<(u32, u64)>
        ensures entries { MatchOption result ((self.old.entries ≡ []) × (self.new.entries ≡ [])) (λ e. self.old.entries ≡ self.new.entries ++ e ∷ []) }
        ensures gone { IfSome result (λ e. word_at self.new.entries e.0 ≡ None) }
        ensures reserved { self.new.reserved ≡ self.old.reserved }
    {
        let len = self.entries.len();
        self.index.truncate(&self.entries, len.saturating_sub(1));
        let last = self.entries.pop()?;
        Some(last)
    }

    /// Drops all cells but the first `len`. Takes no memory.
    pub fn truncate(&mut self, len: usize)
        ensures entries { self.new.entries ≡ take len self.old.entries }
        ensures reserved { self.new.reserved ≡ self.old.reserved }
    {
        self.index.truncate(&self.entries, len);
        self.entries.truncate(len);
    }

    /// Drops all cells and takes back what was reserved, and keeps the room for the next ones. Takes no memory.
    pub fn clear(&mut self)
        ensures entries { self.new.entries ≡ [] }
        ensures reserved { self.new.reserved ≡ 0 }
    {
        self.entries.clear();
        self.filter = 0;
        self.index.clear();
        self.reserved = 0;
    }

    /// The cells with their words, in the order in which they came.
    pub fn into_entries(self) -> Vec<(u32, u64)>
        ensures entries { result.items ≡ self.entries }
        ensures once { NoCellTwice self.entries }
    {
        self.entries
    }
}
