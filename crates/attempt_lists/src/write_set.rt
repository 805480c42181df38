//! What an attempt will write.
ghost use Rattle.std.specs.Prelude.{◌≡◌, ℕ, ◌+◌, ◌<◌, ◌≤◌, true, [], length, nat_eq, Some, IsSome, IsNone, is_some, IsOk, if◌then◌else◌, IsTrue, ◌↔◌, OnOk, OnErr};
ghost use Rattle.attempt_lists.specs.Cells.{word_at, put, laid_over, IsAscending, Listed};
ghost use Rattle.attempt_lists.specs.Levels.{Levels, written, merged};

use crate::cell_map::CellMap;
use std::alloc::{AllocError, Global};
use std::marker::Model;

/// What an attempt will write to cells, at two levels: its own writes, and over them those of its open child.
///
/// A child's writes are merged into the parent's, or dropped, without memory. A write of the child never changes one
/// of the parent before it is merged. The parent's writes are sorted once, by `sort`, before they are asked for in order.
#[derive(Drop)]
pub struct WriteSet {
    parent: CellMap,
    child: CellMap,
    reserved: usize,
}

impl Model for WriteSet {
    ghost use Rattle.std.specs.Prelude.{◌+◌, ◌≤◌, length};
    ghost use Rattle.attempt_lists.specs.Levels.{Levels};

    ghost Value = { Levels };

    ghost view = { λ a. record { parent = a.parent.entries; child = a.child.entries; reserved = a.reserved; sorted = a.parent.sorted } };

    // Each write of the child has a place among the parent's.
    ghost invariant = { λ a. a.reserved + length a.child.entries ≤ a.parent.reserved };
}

impl WriteSet {
    /// Nothing written, and no place reserved. Takes no memory.
    pub fn new(alloc: Global) -> Self
        ensures parent { result.parent ≡ [] }
        ensures child { result.child ≡ [] }
        ensures reserved { result.reserved ≡ 0 }
        ensures sorted { result.sorted ≡ true }
    {
        Self {
            parent: CellMap::new(alloc),
            child: CellMap::new(alloc),
            reserved: 0,
        }
    }

    /// The word written to a cell: that of the child where it wrote the cell, else that of the parent.
    pub fn get(&self, cell: u32) -> Option<u64>
        ensures levels { result ≡ written self.now cell }
        ensures merged { result ≡ word_at (merged self.now) cell }
    {
        self.ascending_law();
        match self.child.get(cell) {
            Some(word) => Some(word),
            None => self.parent.get(cell),
        }
    }

    /// Whether no cell is written at either level.
    pub fn is_empty(&self) -> bool
        ensures { IsTrue result ↔ (length self.now.parent + length self.now.child ≡ 0) }
    {
        self.parent.len() == 0 && self.child.len() == 0
    }

    /// Sorts the parent's writes where they aren't sorted. Takes no memory.
    pub fn sort(&mut self)
        ensures parent { self.new.parent ≡ self.old.parent }
        ensures child { self.new.child ≡ self.old.child }
        ensures reserved { self.new.reserved ≡ self.old.reserved }
        ensures sorted { self.new.sorted ≡ true }
    {
        self.parent.sort();
    }

    /// The parent's writes, in ascending order of cells, once they are sorted.
    pub fn parent(&self) -> &[(u32, u64)]
        requires sorted { self.now.sorted ≡ true }
        ensures entries { result.now ≡ self.now.parent }
        ensures ascending { IsAscending self.now.parent }
    {
        self.parent.as_slice()
    }

    /// The writes of each level are always in ascending order of cells.
    pub fn ascending_law(&self)
        ensures parent { IsAscending self.now.parent }
        ensures child { IsAscending self.now.child }
    {
        self.parent.ascending_law();
        self.child.ascending_law();
    }

    /// How many cells the open child writes.
    pub fn child_len(&self) -> usize
        ensures { result ≡ length self.now.child }
    {
        self.child.len()
    }

    /// Nothing is written where nothing is at either level.
    pub fn empty_law(&self)
        ensures { length (merged self.now) ≡ 0 → length self.now.parent + length self.now.child ≡ 0 }
    {
        self.ascending_law();
    }

    /// How many cells the parent writes.
    pub fn parent_len(&self) -> usize
        ensures { result ≡ length self.now.parent }
    {
        self.parent.len()
    }

    /// Reserves places for `more` writes of the parent beside those reserved already.
    pub fn reserve(&mut self, more: usize) -> Result<(), AllocError>
        ensures parent { self.new.parent ≡ self.old.parent }
        ensures child { self.new.child ≡ self.old.child }
        ensures ok { OnOk result (self.new.reserved ≡ self.old.reserved + more) }
        ensures err { OnErr result (self.new.reserved ≡ self.old.reserved) }
    {
        let Some(reserved) = self.reserved.checked_add(more) else {
            return Err(AllocError);
        };
        self.parent.reserve(more)?;
        self.reserved = reserved;
        Ok(())
    }

    /// Writes a cell at the parent's level. The reserved places stay reserved.
    pub fn put(&mut self, cell: u32, word: u64) -> Result<(), AllocError>
        requires no_child { self.old.child ≡ [] }
        ensures ok { OnOk result (self.new ≡ record self.old { parent = put self.old.parent cell word; sorted = self.new.sorted }) }
        ensures words { OnOk result ((q : ℕ) → word_at self.new.parent q ≡ (if nat_eq cell q then Some word else word_at self.old.parent q)) }
        ensures len { length self.new.parent ≤ length self.old.parent + 1 }
        ensures err { OnErr result (self.new ≡ self.old) }
        ensures overwrite_succeeds { IsSome (word_at self.old.parent cell) → IsOk result }
    {
        self.parent.put(cell, word)
    }

    /// Writes a cell at the parent's level, at a reserved place where it isn't written yet. Takes no memory.
    pub fn put_reserved(&mut self, cell: u32, word: u64)
        requires no_child { self.old.child ≡ [] }
        requires room { IsNone (word_at self.old.parent cell) → 0 < self.old.reserved }
        ensures parent { self.new.parent ≡ put self.old.parent cell word }
        ensures words { (q : ℕ) → word_at self.new.parent q ≡ (if nat_eq cell q then Some word else word_at self.old.parent q) }
        ensures child { self.new.child ≡ [] }
        ensures reserved { self.new.reserved + (if is_some (word_at self.old.parent cell) then 0 else 1) ≡ self.old.reserved }
    {
        if self.parent.get(cell).is_none() {
            self.reserved -= 1;
        }
        self.parent.put_reserved(cell, word);
    }

    /// Writes a cell at the child's level, and reserves the place that a merge needs. The other reserved places stay.
    pub fn put_in_child(&mut self, cell: u32, word: u64) -> Result<(), AllocError>
        ensures ok { OnOk result (self.new ≡ record self.old { child = put self.old.child cell word }) }
        ensures words { OnOk result ((q : ℕ) → word_at self.new.child q ≡ (if nat_eq cell q then Some word else word_at self.old.child q)) }
        ensures err { OnErr result (self.new ≡ self.old) }
        ensures overwrite_succeeds { IsSome (word_at self.old.child cell) → IsOk result }
    {
        if self.child.get(cell).is_none() {
            self.child.reserve(1)?;
            self.parent.reserve(1)?;
        }
        self.child.put_reserved(cell, word);
        Ok(())
    }

    /// Merges the child's writes into the parent's. Takes no memory.
    pub fn merge_child(&mut self)
        ensures parent { self.new.parent ≡ laid_over self.old.parent self.old.child }
        ensures child { self.new.child ≡ [] }
        ensures reserved { self.new.reserved ≡ self.old.reserved }
        ensures written { (cell : ℕ) → written self.new cell ≡ written self.old cell }
    {
        put_all(&mut self.parent, self.child.unsorted());
        self.child.clear();
    }

    /// Drops the child's writes. Takes no memory.
    pub fn drop_child(&mut self)
        ensures parent { self.new.parent ≡ self.old.parent }
        ensures child { self.new.child ≡ [] }
        ensures reserved { self.new.reserved ≡ self.old.reserved }
    {
        self.child.clear();
    }

    /// Drops all writes and takes back what was reserved, and keeps the room for the next ones. Takes no memory.
    pub fn clear(&mut self)
        ensures parent { self.new.parent ≡ [] }
        ensures child { self.new.child ≡ [] }
        ensures reserved { self.new.reserved ≡ 0 }
        ensures sorted { self.new.sorted ≡ true }
    {
        self.parent.clear();
        self.child.clear();
        self.reserved = 0;
    }

    /// The parent's writes, in ascending order of cells. Takes no memory.
    pub fn into_parent(self) -> Vec<(u32, u64)>
        ensures entries { result.items ≡ self.parent }
        ensures ascending { IsAscending self.parent }
    {
        self.parent.into_entries()
    }
}

// Puts the upper entries over the lower ones.
fn put_all(lower: &mut CellMap, upper: &[(u32, u64)])
    requires room { length upper.now ≤ lower.old.reserved }
    ensures entries { lower.new.entries ≡ laid_over lower.old.entries upper.now }
    ensures reserved { lower.old.reserved ≤ lower.new.reserved + length upper.now }
{
    for &(cell, word) in upper {
        lower.put_reserved(cell, word);
    }
}
