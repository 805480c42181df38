//! Cells in ascending order, each with a word.
ghost use Rattle.std.specs.Prelude.{◌≡◌, ℕ, ◌+◌, ◌<◌, ◌≤◌, true, [], ◌∷◌, ◌++◌, length, nat_eq, Some, None, IsSome, IsNone, is_some, IsOk, if◌then◌else◌, OnOk, OnErr, MatchOption};
ghost use Rattle.attempt_lists.specs.Cells.{word_at, cell_at, put, in_order, IsAscending, NoCellTwice};

use crate::cell_list::CellList;
use std::alloc::{AllocError, Global};
use std::marker::Model;

/// Cells in ascending order, none twice, each with a word.
///
/// They are kept in the order in which they came, and sorted where they are asked for in theirs. A cell is found in constant
/// time, or in logarithmic time where they are sorted. Places are reserved by number, and a call that fills one takes no memory.
#[derive(Drop)]
pub struct CellMap {
    list: CellList,
    sorted: bool,
}

impl Model for CellMap {
    ghost use Rattle.std.specs.Prelude.{◌≡◌, true};
    ghost use Rattle.attempt_lists.specs.Cells.{Mapped, in_order, IsAscending};

    ghost Value = { Mapped };

    ghost view = { λ a. record { entries = in_order a.list.entries; reserved = a.list.reserved; sorted = a.sorted } };

    ghost invariant = { λ a. a.sorted ≡ true → IsAscending a.list.entries };
}

impl CellMap {
    /// An empty map with no place reserved. Takes no memory.
    pub fn new(alloc: Global) -> Self
        ensures empty { result.entries ≡ [] }
        ensures reserved { result.reserved ≡ 0 }
        ensures sorted { result.sorted ≡ true }
    {
        Self {
            list: CellList::new(alloc),
            sorted: true,
        }
    }

    /// How many cells have a word.
    pub fn len(&self) -> usize
        ensures { result ≡ length self.now.entries }
    {
        self.list.once_law();
        self.list.len()
    }

    /// The word of a cell, or `None` where it has none.
    pub fn get(&self, cell: u32) -> Option<u64>
        ensures { result ≡ word_at self.now.entries cell }
    {
        self.list.once_law();
        self.list.get(cell)
    }

    /// The cells are always in ascending order.
    pub fn ascending_law(&self)
        ensures { IsAscending self.now.entries }
    {
        self.list.once_law();
    }

    /// Sorts the cells where they aren't sorted. Takes no memory.
    pub fn sort(&mut self)
        ensures entries { self.new.entries ≡ self.old.entries }
        ensures reserved { self.new.reserved ≡ self.old.reserved }
        ensures sorted { self.new.sorted ≡ true }
    {
        if !self.sorted {
            self.list.sort();
            self.sorted = true;
        }
    }

    /// The cells with their words, in ascending order of cells.
    pub fn as_slice(&self) -> &[(u32, u64)]
        requires sorted { self.now.sorted ≡ true }
        ensures entries { result.now ≡ self.now.entries }
        ensures ascending { IsAscending self.now.entries }
    {
        self.list.as_slice()
    }

    /// The cells with their words, in any order.
    pub(crate) fn unsorted(&self) -> &[(u32, u64)]
        ensures entries { in_order result.now ≡ self.now.entries }
        ensures once { NoCellTwice result.now }
        ensures len { length result.now ≡ length self.now.entries }
    {
        self.list.as_slice()
    }

    /// Reserves places for `more` cells beside those reserved already.
    pub fn reserve(&mut self, more: usize) -> Result<(), AllocError>
        ensures entries { self.new.entries ≡ self.old.entries }
        ensures sorted { self.new.sorted ≡ self.old.sorted }
        ensures ok { OnOk result (self.new.reserved ≡ self.old.reserved + more) }
        ensures err { OnErr result (self.new.reserved ≡ self.old.reserved) }
    {
        self.list.reserve(more)
    }

    /// Gives a cell its word. The reserved places stay reserved. Takes no memory where the cell has a word.
    pub fn put(&mut self, cell: u32, word: u64) -> Result<(), AllocError>
        ensures ok { OnOk result (self.new ≡ record self.old { entries = put self.old.entries cell word; sorted = self.new.sorted }) }
        ensures words { OnOk result ((q : ℕ) → word_at self.new.entries q ≡ (if nat_eq cell q then Some word else word_at self.old.entries q)) }
        ensures len { length self.new.entries ≤ length self.old.entries + 1 }
        ensures err { OnErr result (self.new ≡ self.old) }
        ensures overwrite_succeeds { IsSome (word_at self.old.entries cell) → IsOk result }
    {
        self.list.once_law();
        let place = self.list.place(cell);
        make_room(&mut self.list, place)?;
        self.sorted = put_at(&mut self.list, self.sorted, place, cell, word);
        Ok(())
    }

    /// Gives a cell its word, at a reserved place where it has none yet. Takes no memory.
    pub fn put_reserved(&mut self, cell: u32, word: u64)
        requires room { IsNone (word_at self.old.entries cell) → 0 < self.old.reserved }
        ensures entries { self.new.entries ≡ put self.old.entries cell word }
        ensures words { (q : ℕ) → word_at self.new.entries q ≡ (if nat_eq cell q then Some word else word_at self.old.entries q) }
        ensures len { length self.new.entries ≡ length self.old.entries + (if is_some (word_at self.old.entries cell) then 0 else 1) }
        ensures reserved { self.new.reserved + (if is_some (word_at self.old.entries cell) then 0 else 1) ≡ self.old.reserved }
    {
        self.list.once_law();
        let place = self.list.place(cell);
        self.sorted = put_at(&mut self.list, self.sorted, place, cell, word);
    }

    /// Takes all cells out and takes back what was reserved, and keeps the room for the next ones. Takes no memory.
    pub fn clear(&mut self)
        ensures entries { self.new.entries ≡ [] }
        ensures reserved { self.new.reserved ≡ 0 }
        ensures sorted { self.new.sorted ≡ true }
    {
        self.list.clear();
        self.sorted = true;
    }

    /// The cells with their words, in ascending order of cells. Takes no memory.
    pub fn into_entries(mut self) -> Vec<(u32, u64)>
        ensures entries { result.items ≡ self.entries }
        ensures ascending { IsAscending self.entries }
    {
        self.sort();
        self.list.into_entries()
    }
}

// Room for the word of a cell that has the place, or none yet.
fn make_room(list: &mut CellList, place: Option<usize>) -> Result<(), AllocError>
    ensures entries { list.new.entries ≡ list.old.entries }
    ensures ok { OnOk result (list.new.reserved ≡ list.old.reserved + (if is_some place then 0 else 1)) }
    ensures err { OnErr result (list.new.reserved ≡ list.old.reserved) }
    ensures succeeds { IsSome place → IsOk result }
{
    match place {
        Some(_) => Ok(()),
        None => list.reserve(1),
    }
}

// Gives the cell its word, where a look for it ended. It answers whether the cells are sorted, if they were before.
fn put_at(list: &mut CellList, sorted: bool, place: Option<usize>, cell: u32, word: u64) -> bool
    requires once { NoCellTwice list.old.entries }
    requires place { MatchOption place (word_at list.old.entries cell ≡ None) (λ i. (i < length list.old.entries) × (cell_at list.old.entries i ≡ cell)) }
    requires room { place ≡ None → 0 < list.old.reserved }
    ensures entries { in_order list.new.entries ≡ put (in_order list.old.entries) cell word }
    ensures sorted { (sorted ≡ true → IsAscending list.old.entries) → result ≡ true → IsAscending list.new.entries }
    ensures reserved { list.new.reserved + (if is_some place then 0 else 1) ≡ list.old.reserved }
{
    match place {
        Some(place) => {
            list.set_word(place, word);
            sorted
        }
        None => {
            let sorted = stays_sorted(list, sorted, cell);
            list.push_reserved(cell, word);
            sorted
        }
    }
}

// Whether the cells are sorted and the cell is above the last one.
fn stays_sorted(list: &CellList, sorted: bool, cell: u32) -> bool
    ensures { (sorted ≡ true → IsAscending list.now.entries) → result ≡ true → (word : ℕ) → IsAscending (list.now.entries ++ (cell, word) ∷ []) }
{
    if !sorted {
        return false;
    }
    match list.as_slice().last() {
        Some(last) => last.0 < cell,
        None => true,
    }
}
