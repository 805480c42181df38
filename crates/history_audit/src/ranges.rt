// Which calls a run of some sizes makes.
ghost use Rattle.std.specs.Prelude.{◌≡◌, ◌↔◌, ◌<◌, IsTrue, get_or, max};
ghost use Rattle.serial_terms.specs.Ranges.{AreCallsOf, BelowCapacity, IsCallOf, IsKept, IsKeyOf};
ghost use Rattle.serial_terms.specs.RunLayout.{layout_by};

use crate::lines::Sizes;
use serial_terms::{Call, Done};

fn at_least_one(number: u64) -> u64
    ensures { result ≡ max number 1 }
{
    if number == 0 { 1 } else { number }
}

// A cell keeps a value plus 1.
fn is_kept(value: u64) -> bool
    ensures { IsTrue result ↔ IsKept value }
{
    value < u64::MAX
}

#[tactic(auto, using(crate::proofs::Sized::no_third), unfolding(serial_terms::specs::RunLayout::layout_by))]
impl Sizes {
    // How many keys the map may hold: the first one one for each group, the second one one for each task, and each of them one at least.
    fn keys(&self, map: u32) -> u64
        ensures { result ≡ get_or (layout_by self.now.tasks self.now.groups self.now.findings).maps map 0 }
    {
        if map == 0 {
            at_least_one(self.groups)
        } else if map == 1 {
            at_least_one(self.tasks)
        } else {
            0
        }
    }

    fn has_key(&self, map: u32, key: u64) -> bool
        ensures { IsTrue result ↔ IsKeyOf BelowCapacity (layout_by self.now.tasks self.now.groups self.now.findings) map key }
    {
        let there = map < 2;
        let passing = key < self.keys(map);
        there && passing && is_kept(key)
    }

    fn has_call(&self, call: Call) -> bool
        ensures { IsTrue result ↔ IsCallOf BelowCapacity (layout_by self.now.tasks self.now.groups self.now.findings) call }
    {
        match call {
            Call::MapGet { map, key } => self.has_key(map, key),
            Call::MapPut { map, key, value } => self.has_key(map, key) && is_kept(value),
            Call::MapRemove { map, key } => self.has_key(map, key),
            Call::MapPutIfAbsent { map, key, value } => self.has_key(map, key) && is_kept(value),
            Call::Enqueue { queue, value } => queue == 0 && is_kept(value),
            Call::Dequeue { queue } => queue == 0,
            Call::QueueLen { queue } => queue == 0,
            Call::Take { pool } => pool == 0,
            Call::Give { pool, value } => pool == 0 && is_kept(value),
            Call::Append { log, value } => log == 0 && is_kept(value),
            Call::AppendPlaced { log, value } => log == 0 && is_kept(value),
            Call::LogRead { log, .. } => log == 0,
            Call::LogLen { log } => log == 0,
            Call::CellGet { cell } => cell == 0,
            Call::CellPut { cell, .. } => cell == 0,
        }
    }

    /// Whether a run of these sizes makes such calls: their structures are there, map keys are below their map's capacity, and the values
    /// are in their ranges.
    pub(crate) fn has_calls(&self, dones: &[Done]) -> bool
        ensures { IsTrue result ↔ AreCallsOf BelowCapacity (layout_by self.now.tasks self.now.groups self.now.findings) dones.now }
    {
        for done in dones {
            if !self.has_call(done.call) {
                return false;
            }
        }
        true
    }
}
