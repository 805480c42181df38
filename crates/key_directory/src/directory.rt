//! The directory, and how it opens, answers a claim and closes.
ghost use Rattle.std.specs.Prelude.{◌≡◌, ℕ, ◌+◌, ◌-◌, ◌%◌, ◌^◌, ◌<◌, ◌≤◌, ◌↔◌, [], ◌∷◌, ◌++◌, length, sum, IfOk, IfErr, IsErr, OnErr, Some};
ghost use Rattle.key_directory.specs.Words.{OnlyBelow, capacity_of, IsPosition};
ghost use Rattle.key_directory.specs.declared.view.Step.TheVariants.{Load};
ghost use Rattle.key_directory.specs.Directory.{claim_of, Claimed, steps_since, IsReached, AreAllOthers, Walks, key_held, HoldsEachOnce};

use crate::key_list::KeyList;
use crate::key_test::KeyTest;
use crate::layout::{Layout, lay_out};
use crate::pass::KeyPass;
use crate::rule::Ruled;
use crate::view::View;
use crate::walk::find_place;
use atomic_table::Table;
use std::alloc::{AllocError, Global};
use std::marker::Model;

/// Each position of the region holds another key.
#[derive(Clone, Copy, Debug, PartialEq)]
pub struct KeysFull {
    /// The number of positions of the region.
    pub capacity: u32,
}

/// Regions of positions, each of which is free or holds a key for good. Threads may share it.
#[derive(Drop)]
pub struct Directory<K: KeyTest> {
    pub(crate) table: Table<(), View, Layout, Ruled<K>, Global>,
    layout: Layout,
}

impl<K: KeyTest> Model for Directory<K> {
    ghost use Rattle.std.specs.Prelude.{◌≡◌};
    ghost use Rattle.key_directory.specs.Directory.{DirectoryView};
    ghost use Rattle.key_directory.specs.Words.{capacities_of};
    ghost use Rattle.key_directory.specs.Layouts.{IsLaidOut};

    ghost Value = { DirectoryView };

    ghost view = { λ d. record { table = d.table.shared.table_id; capacities = capacities_of d.layout.regions.items; callers = d.layout.callers } };

    ghost invariant = { λ d. IsLaidOut d.table.shared.table_id.words d.table.shared.table_id.slots d.table.shared.key d.layout };
}

impl<K: KeyTest> Directory<K> {
    /// A directory whose regions have these numbers of positions, all free, and a pass for all callers.
    /// There are 1 to 4,096 callers and at most 2^24 positions together. On want of memory nothing stands.
    pub fn open(
        alloc: Global,
        regions: &[u32],
        callers: u32,
    ) -> Result<(Directory<K>, KeyPass<K>), AllocError>
        requires callers { (0 < callers) × (callers ≤ 4096) }
        requires sum { sum regions.now ≤ 2 ^ 24 }
        ensures directory { IfOk result (λ t. (t.0.capacities ≡ regions.now) × (t.0.callers ≡ callers)) }
        ensures pass { IfOk result (λ t. t.1 ≡ record { directory = t.0; callers = callers; room = callers; claims = []; trail = [] }) }
    {
        let layout = lay_out(alloc, regions, callers)?;
        let words = vec![in alloc; 0; layout.words as usize]?;
        let (table, seat) = Table::of_words(alloc, words.as_slice(), &layout)?;
        let pass = KeyPass::new(seat, callers, callers);
        Ok((Directory { table, layout }, pass))
    }

    /// The number of callers of the whole directory.
    pub(crate) fn callers(&self) -> u32
        ensures { result ≡ self.now.callers }
    {
        self.layout.callers
    }

    /// The position of the key in the region, which it has for good from now on. It tries the positions from `key mod capacity`
    /// onwards, round the region once, and takes the first one that no other key holds.
    /// An error comes exactly where each position was found to hold another key; a region without positions has none to try.
    pub fn claim(&self, pass: &mut KeyPass<K>, region: u32, key: u64) -> Result<u32, KeysFull>
        requires directory { pass.old.directory ≡ self.now }
        requires region { region < length self.now.capacities }
        requires key { key < 2 ^ 64 - 1 }
        requires passes { K.passes (capacity_of self.now.capacities region) key }

        ensures same_pass { (pass.new.directory ≡ pass.old.directory) × (pass.new.callers ≡ pass.old.callers) × (pass.new.room ≡ pass.old.room) }
        ensures trail { pass.new.trail ≡ pass.old.trail ++ steps_since pass.old pass.new }

        // The position is the key's from now on, and no other key's.
        ensures position { IfOk result (λ position. position < capacity_of self.now.capacities region) }
        ensures claimed { IfOk result (λ position. pass.new.claims ≡ pass.old.claims ++ claim_of region key position ∷ []) }
        ensures same { IfOk result (λ position. (other : ℕ) → Claimed pass.old.claims region key other → other ≡ position) }
        ensures other { IfOk result (λ position. (other : ℕ) → Claimed pass.old.claims region other position → other ≡ key) }
        ensures first { IfOk result (λ position. IsReached self.now.capacities (steps_since pass.old pass.new) (claim_of region key position)) }
        ensures own_number { OnlyBelow K.passes (capacity_of self.now.capacities region) → result ≡ Ok key }

        // A refusal changes no claim.
        ensures full { IsErr result ↔ AreAllOthers self.now.capacities (steps_since pass.old pass.new) region key }
        ensures capacity { IfErr result (λ full. full.capacity ≡ capacity_of self.now.capacities region) }
        ensures err { OnErr result (pass.new.claims ≡ pass.old.claims) }

        // One load a position looked at and at most one compare-exchange. Where the pass claimed the key at its first position, one load.
        ensures steps { Walks self.now.capacities region key (steps_since pass.old pass.new) result }
        ensures quick { let first = key % capacity_of self.now.capacities region in Claimed pass.old.claims region key first
            → steps_since pass.old pass.new ≡ Load region first (key + 1) ∷ [] }
    {
        let place = self.layout.regions[region as usize];
        find_place(&self.table.shared, &mut pass.seat, region, place, key).ok_or(KeysFull {
            capacity: place.capacity,
        })
    }

    /// Ends the directory. The pass has to stand for every caller.
    pub fn close(self, pass: KeyPass<K>) -> KeyList
        requires directory { pass.directory ≡ self }
        requires sole { pass.callers ≡ self.callers }
        ensures capacities { result.capacities ≡ self.capacities }
        ensures held { (region key position : ℕ) → Claimed pass.claims region key position → key_held result region position ≡ Some key }
        ensures no_other { (region key position : ℕ) → IsPosition self.capacities region position → key_held result region position ≡ Some key
            → Claimed pass.claims region key position }
        ensures each_once { HoldsEachOnce K.passes result }
    {
        let Directory { table, layout } = self;
        let closed = table.close_with(pass.into_seat());
        KeyList { closed, layout }
    }
}
