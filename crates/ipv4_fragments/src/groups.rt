ghost use Rattle.std.specs.Prelude.{◌≡◌, ℕ, ◌^◌, ◌<◌, List, [], ◌∷◌, ◌++◌, length, true, not, Some, IfOk, OnOk, vec_len, if◌then◌else◌};
ghost use Rattle.std.specs.List.{list_any};
ghost use Rattle.capture_terms.specs.declared.datagram.Piece.{Piece};
ghost use Rattle.capture_terms.specs.declared.plan.Group.{Group};
ghost use Rattle.capture_terms.specs.Kept.{clash, end_of};
ghost use Rattle.capture_terms.specs.Plan.{group_number, with_group_of};
ghost use Rattle.ipv4_fragments.specs.GroupNumbers.{HasPlace};
ghost use Rattle.ipv4_fragments.specs.Groups.{Follows};

use crate::group_list::GroupList;
use crate::ranges::Ranges;
use capture_terms::{Group, Piece};
use std::alloc::{AllocError, Global};

/// The groups of the fragments that are kept so far.
#[derive(Drop)]
pub struct Groups {
    pub known: GroupList,
    pub ranges: Vec<Ranges>,
}

impl Groups {
    /// No groups.
    pub fn new(alloc: Global) -> Groups
        ensures { Follows result [] }
    {
        Groups {
            known: GroupList::new(alloc),
            ranges: Vec::new(alloc),
        }
    }

    /// Keeps a further fragment, unless it clashes with one that is kept, and tells whether it did. The
    /// number is that of its group, which is the next one where there is none of it yet.
    pub fn keep(&mut self, alloc: Global, piece: &Piece, number: u32) -> Result<bool, AllocError>
        requires some { 0 < piece.now.length }
        requires short { end_of piece.now < 2 ^ 32 }
        requires place { HasPlace self.old.known piece.now number }
        requires long { vec_len self.old.ranges ≡ length self.old.known }
        ensures long { OnOk result (vec_len self.new.ranges ≡ length self.new.known) }
        ensures groups { OnOk result (self.new.known ≡ with_group_of self.old.known piece.now) }
        ensures kept { IfOk result (λ is_kept. (kept : List Piece) → Follows self.old kept → (is_kept ≡ not (list_any (clash piece.now) kept)) × Follows self.new (if is_kept then kept ++ piece.now ∷ [] else kept)) }
        ensures number { IfOk result (λ is_kept. is_kept ≡ true → (more : List Group) → group_number (self.new.known ++ more) piece.now ≡ Some number) }
    {
        let group = Group {
            header: piece.header,
            id: piece.id,
            generation: piece.generation,
        };
        let is_new = self.known.insert(group, number)?;
        if is_new {
            let mut ranges = Ranges::new(alloc);
            ranges.keep(piece)?;
            self.ranges.push(ranges)?;
            return Ok(true);
        }
        if self.ranges[number as usize].clashes(piece) {
            return Ok(false);
        }
        self.ranges[number as usize].keep(piece)?;
        Ok(true)
    }

    /// The groups in the order of their numbers.
    pub fn into_groups(self) -> Vec<Group>
        ensures { result.items ≡ self.known }
    {
        self.known.into_groups()
    }
}
