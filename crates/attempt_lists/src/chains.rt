//! Where the cells of a long list stand: chains of its entries, one for each bucket.
ghost use Rattle.std.specs.Prelude.{◌≡◌, ℕ, ◌+◌, ◌^◌, ◌<◌, ◌≤◌, [], false, length, MatchOption, OnOk, OnErr, IfOk};
ghost use Rattle.std.specs.Vec.{vec_len, vec_capacity};
ghost use Rattle.attempt_lists.specs.Cells.{Entries, word_at, cell_at, NoCellTwice, IsPlaceOf};
ghost use Rattle.attempt_lists.specs.Buckets.{bucket_of, AreChains};
ghost use Rattle.attempt_lists.specs.Index.{Holds};

use std::alloc::{AllocError, Global};

/// 2^32 over the golden ratio: its multiples modulo 2^32 are spread evenly.
const SPREAD: u32 = 2_654_435_769;

/// The entries of a list in chains. A bucket's head is the link to its last entry, an entry's link that to the one before it in
/// its bucket. A link is a place plus one, or 0 at the end of a chain.
#[derive(Drop)]
pub(crate) struct Chains {
    heads: Vec<usize>,
    links: Vec<usize>,
}

impl Chains {
    pub(crate) fn new(alloc: Global) -> Self {
        Self {
            heads: Vec::new(alloc),
            links: Vec::new(alloc),
        }
    }

    /// Where in the list the cell is.
    pub(crate) fn find(&self, entries: &[(u32, u64)], cell: u32) -> Option<usize>
        requires chains { AreChains self.now.heads.items self.now.links.items entries.now (length entries.now) }
        ensures { MatchOption result (word_at entries.now cell ≡ None) (IsPlaceOf entries.now cell) }
    {
        let mut link = self.heads[bucket(cell, self.heads.len())];
        while link > 0 {
            let place = link - 1;
            if entries[place].0 == cell {
                return Some(place);
            }
            link = self.links[place];
        }
        None
    }

    /// Adds a cell behind the last entry.
    pub(crate) fn push(&mut self, cell: u32)
        requires room { vec_len self.old.links < vec_capacity self.old.links }
        requires some { 0 < length self.old.heads.items }
        ensures chains { (entries : Entries) (n : ℕ) → cell_at entries n ≡ cell → AreChains self.old.heads.items self.old.links.items entries n → AreChains self.new.heads.items self.new.links.items entries (n + 1) }
        ensures len { length self.new.links.items ≡ length self.old.links.items + 1 }
        ensures heads { length self.new.heads.items ≡ length self.old.heads.items }
        ensures capacity { vec_capacity self.new.links ≡ vec_capacity self.old.links }
    {
        let bucket = bucket(cell, self.heads.len());
        self.links.push_reserved(self.heads[bucket]);
        self.heads[bucket] = self.links.len();
    }

    /// Takes the last entry out, whose cell this is.
    pub(crate) fn pop(&mut self, cell: u32)
        requires some { 0 < length self.old.heads.items }
        ensures chains { (entries : Entries) (n : ℕ) → cell_at entries n ≡ cell → AreChains self.old.heads.items self.old.links.items entries (n + 1) → AreChains self.new.heads.items self.new.links.items entries n }
        ensures heads { length self.new.heads.items ≡ length self.old.heads.items }
        ensures capacity { vec_capacity self.new.links ≡ vec_capacity self.old.links }
    {
        let bucket = bucket(cell, self.heads.len());
        if let Some(link) = self.links.pop() {
            self.heads[bucket] = link;
        }
    }

    /// The cells of a list, whatever was in the chains before.
    pub(crate) fn fill(&mut self, entries: &[(u32, u64)])
        requires room { Holds self.old (length entries.now) }
        ensures chains { AreChains self.new.heads.items self.new.links.items entries.now (length entries.now) }
        ensures capacity { vec_capacity self.new.links ≡ vec_capacity self.old.links }
    {
        self.heads.fill(0);
        self.links.clear();
        for &(cell, _) in entries {
            self.push(cell);
        }
    }

    /// Room for so many entries, with as many buckets at least, and one in any case. It answers whether it has more buckets now: then the chains have
    /// to be filled again.
    pub(crate) fn reserve(&mut self, len: usize) -> Result<bool, AllocError>
        ensures holds { OnOk result (Holds self.new len) }
        ensures kept { (n : ℕ) → Holds self.old n → Holds self.new n }
        ensures links { self.new.links.items ≡ self.old.links.items }
        ensures same { IfOk result (λ grows. grows ≡ false → self.new.heads.items ≡ self.old.heads.items) }
        ensures refused { OnErr result (self.new.heads.items ≡ self.old.heads.items) }
    {
        let more = len.saturating_sub(self.links.len());
        self.links.reserve(more)?;
        let buckets = len.max(1);
        let grows = self.heads.len() < buckets;
        if grows {
            self.heads.resize(buckets, 0)?;
        }
        Ok(grows)
    }
}

// The bucket of a cell.
fn bucket(cell: u32, buckets: usize) -> usize
    requires some { 0 < buckets }
    ensures bucket { result ≡ bucket_of buckets cell }
    ensures in_range { result < buckets }
{
    let spread = u64::from(cell.wrapping_mul(SPREAD));
    (spread.wrapping_mul(buckets as u64) >> 32) as usize
}
