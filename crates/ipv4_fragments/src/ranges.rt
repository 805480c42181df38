ghost use Rattle.std.specs.Prelude.{◌≡◌, ℕ, ◌+◌, ◌<◌, ◌≤◌, List, [], ◌∷◌, ◌++◌, false, None, Some, MatchOption, IsSome, OnOk, nat_lt, min, max, ◌^◌};
ghost use Rattle.std.specs.List.{list_any};
ghost use Rattle.std.specs.BTreeMap.{get};
ghost use Rattle.std.specs.Ordering.{nat_cmp};
ghost use Rattle.capture_terms.specs.declared.datagram.Piece.{Piece};
ghost use Rattle.capture_terms.specs.Kept.{cannot_both_stand, end_of};
ghost use Rattle.ipv4_fragments.specs.Ranges.{Agrees};

use capture_terms::Piece;
use std::alloc::{AllocError, Global};
use std::collections::BTreeMap;

/// The ranges of the kept fragments of one datagram, as far as a further fragment may clash.
#[derive(Drop)]
pub struct Ranges {
    /// The end of each range, by its start.
    ends: BTreeMap<u32, u32>,
    /// The greatest end, or 0.
    greatest: u32,
    /// The end of the last fragment, where it is there.
    last: Option<u32>,
}

impl Ranges {
    /// No ranges.
    pub fn new(alloc: Global) -> Ranges
        ensures { Agrees result [] }
    {
        Ranges {
            ends: BTreeMap::new(alloc),
            greatest: 0,
            last: None,
        }
    }

    // The range with the greatest start before an end.
    fn before(&self, end: u32) -> Option<(u32, u32)>
        ensures { MatchOption result ((q : ℕ) → q < end → get nat_cmp self.now.ends q ≡ None) (λ found. (found.0 < end) × (get nat_cmp self.now.ends found.0 ≡ Some found.1) × ((q : ℕ) → q < end → IsSome (get nat_cmp self.now.ends q) → q ≤ found.0)) }
    {
        match self.ends.range(..end).next_back() {
            None => None,
            Some((start, end)) => Some((*start, *end)),
        }
    }

    // Whether the places from a start to an end meet a range.
    fn overlaps(&self, start: u32, end: u32) -> bool
        requires { start < end }
        ensures { (kept : List Piece) → Agrees self.now kept → result ≡ list_any (λ p. nat_lt (max start p.start) (min end (end_of p))) kept }
    {
        match self.before(end) {
            None => false,
            Some((_, reached)) => start < reached,
        }
    }

    /// Whether a further fragment clashes with one of those that are kept.
    pub fn clashes(&self, piece: &Piece) -> bool
        requires some { 0 < piece.now.length }
        requires short { end_of piece.now < 2 ^ 32 }
        ensures { (kept : List Piece) → Agrees self.now kept → result ≡ list_any (cannot_both_stand piece.now) kept }
    {
        let end = piece.start + piece.length;
        if self.overlaps(piece.start, end) {
            return true;
        }
        match self.last {
            None => piece.last && end < self.greatest,
            Some(last) => piece.last || last < end,
        }
    }

    /// Keeps a further fragment, which clashes with none.
    pub fn keep(&mut self, piece: &Piece) -> Result<(), AllocError>
        requires some { 0 < piece.now.length }
        requires short { end_of piece.now < 2 ^ 32 }
        ensures { OnOk result ((kept : List Piece) → Agrees self.old kept → list_any (cannot_both_stand piece.now) kept ≡ false → Agrees self.new (kept ++ piece.now ∷ [])) }
    {
        let end = piece.start + piece.length;
        self.ends.insert(piece.start, end)?;
        self.greatest = self.greatest.max(end);
        if piece.last {
            self.last = Some(end);
        }
        Ok(())
    }
}
