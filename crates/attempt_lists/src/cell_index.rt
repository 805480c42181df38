//! Where the cells of a list stand: found by a scan while they are few, above that by chains, or by their order once they ascend.
ghost use Rattle.std.specs.Prelude.{◌≡◌, ℕ, ◌+◌, ◌-◌, ◌^◌, ◌<◌, ◌≤◌, true, false, [], ◌∷◌, ◌++◌, length, take, nat_eq, None, MatchOption, OnOk, IfOk, IfErr};
ghost use Rattle.std.specs.List.{position};
ghost use Rattle.attempt_lists.specs.Cells.{word_at, NoCellTwice, IsAscending, IsPlaceOf, IsGapFor};
ghost use Rattle.attempt_lists.specs.Index.{Indexes, HasRoom};

use crate::chains::Chains;
use std::alloc::{AllocError, Global};

/// The greatest number of cells that are looked through one by one.
const SCANNED: usize = 16;

/// An index of the cells of a list. It is empty while these are few or ascend, and has them all else.
#[derive(Drop)]
pub(crate) struct CellIndex {
    chains: Chains,
    active: bool,
    ordered: bool,
}

impl CellIndex {
    pub(crate) fn new(alloc: Global) -> Self
        ensures active { result.active ≡ false }
        ensures ordered { result.ordered ≡ false }
    {
        Self {
            chains: Chains::new(alloc),
            active: false,
            ordered: false,
        }
    }

    /// Where in the list the cell is.
    pub(crate) fn place(&self, entries: &[(u32, u64)], cell: u32) -> Option<usize>
        requires indexes { Indexes self.now entries.now }
        ensures { MatchOption result (word_at entries.now cell ≡ None) (IsPlaceOf entries.now cell) }
    {
        if self.active {
            self.chains.find(entries, cell)
        } else if self.ordered {
            search(entries, cell)
        } else {
            scan(entries, cell)
        }
    }

    /// Room for so many cells more than the list has.
    pub(crate) fn reserve(&mut self, entries: &[(u32, u64)], more: usize) -> Result<(), AllocError>
        requires fits { length entries.now + more < 2 ^ 64 }
        requires indexes { Indexes self.old entries.now }
        ensures indexes { Indexes self.new entries.now }
        ensures room { OnOk result (HasRoom self.new (length entries.now) more) }
        ensures kept { (len room : ℕ) → HasRoom self.old len room → HasRoom self.new len room }
    {
        let len = entries.len() + more;
        if !self.active && len <= SCANNED {
            return Ok(());
        }
        let grows = self.chains.reserve(len)?;
        if grows && self.active {
            self.chains.fill(entries);
        }
        Ok(())
    }

    /// Adds the cell that goes to the end of these entries, for which there is room.
    pub(crate) fn push(&mut self, entries: &[(u32, u64)], cell: u32)
        requires indexes { Indexes self.old entries.now }
        requires room { HasRoom self.old (length entries.now) 1 }
        ensures indexes { (word : ℕ) → Indexes self.new (entries.now ++ (cell, word) ∷ []) }
        ensures room { (more : ℕ) → HasRoom self.old (length entries.now) (more + 1) → HasRoom self.new (length entries.now + 1) more }
    {
        self.ordered = false;
        if self.active {
            self.chains.push(cell);
        } else if entries.len() >= SCANNED {
            self.chains.fill(entries);
            self.active = true;
            self.chains.push(cell);
        }
    }

    /// Takes all cells out but those of the first `len` entries.
    pub(crate) fn truncate(&mut self, entries: &[(u32, u64)], len: usize)
        requires indexes { Indexes self.old entries.now }
        ensures indexes { Indexes self.new (take len entries.now) }
        ensures room { (len more : ℕ) → HasRoom self.old len more → HasRoom self.new len more }
    {
        if self.active {
            self.truncate_chains(entries, len);
        }
    }

    // The same, where the chains have the cells.
    fn truncate_chains(&mut self, entries: &[(u32, u64)], len: usize)
        requires active { self.old.active ≡ true }
        requires indexes { Indexes self.old entries.now }
        ensures indexes { Indexes self.new (take len entries.now) }
        ensures room { (len more : ℕ) → HasRoom self.old len more → HasRoom self.new len more }
    {
        let kept = len.min(entries.len());
        let mut end = entries.len();
        while end > kept {
            end -= 1;
            self.chains.pop(entries[end].0);
        }
    }

    /// The list is put in ascending order next, and its cells are found by that until one is added.
    pub(crate) fn order(&mut self)
        ensures active { self.new.active ≡ false }
        ensures ordered { self.new.ordered ≡ true }
        ensures chains { self.new.chains ≡ self.old.chains }
    {
        self.active = false;
        self.ordered = true;
    }

    /// No cell has a place.
    pub(crate) fn clear(&mut self)
        ensures active { self.new.active ≡ false }
        ensures ordered { self.new.ordered ≡ false }
        ensures chains { self.new.chains ≡ self.old.chains }
    {
        self.active = false;
        self.ordered = false;
    }
}

// The place by a look at each entry.
fn scan(entries: &[(u32, u64)], cell: u32) -> Option<usize>
    ensures { result ≡ position (λ e. nat_eq e.0 cell) entries.now }
{
    entries.iter().position(|e| e.0 == cell)
}

// The place by binary search among ascending cells.
fn search(entries: &[(u32, u64)], cell: u32) -> Option<usize>
    requires ascending { IsAscending entries.now }
    ensures { MatchOption result (word_at entries.now cell ≡ None) (IsPlaceOf entries.now cell) }
{
    match find(entries, cell) {
        Ok(place) => Some(place),
        Err(_) => None,
    }
}

// Where the cell is among ascending ones, or where it would go.
fn find(entries: &[(u32, u64)], cell: u32) -> Result<usize, usize>
    requires ascending { IsAscending entries.now }
    ensures found { IfOk result (IsPlaceOf entries.now cell) }
    ensures absent { IfErr result (IsGapFor entries.now cell) }
{
    entries.binary_search_by_key(&cell, |&(c, _)| c)
}
