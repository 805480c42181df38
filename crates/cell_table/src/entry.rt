//! Records at run time.
ghost use Rattle.std.specs.Prelude.{◌≡◌, true, cond};
ghost use Rattle.cell_table.specs.Pass.{plan_after};
ghost use Rattle.cell_table.specs.Seats.{pairs_of, plan_of};

use std::alloc::Global;

/// One record of a book.
#[derive(Drop)]
pub struct Entry<D: Drop> {
    /// A writer's drawn version, or the version at which a reader read.
    pub place: u64,
    pub writer: bool,
    /// What was read: cells and values.
    pub observations: Vec<(u32, u64), Global>,
    pub writes: Vec<(u32, u64), Global>,
    pub dones: Vec<D, Global>,
}

/// The record that an attempt is about to decide.
#[derive(Drop)]
pub(crate) struct Plan<D: Drop> {
    pub observations: Vec<(u32, u64), Global>,
    pub writes: Vec<(u32, u64), Global>,
    pub dones: Vec<D, Global>,
}

/// A caller number with its entries, oldest first.
#[derive(Drop)]
pub(crate) struct Ledger<D: Drop> {
    pub caller: u32,
    pub entries: Vec<Entry<D>, Global>,
}

/// A held cell, the version that its lock word had, and whether this attempt stored its value.
#[derive(Clone, Copy, Drop)]
pub(crate) struct HeldCell {
    pub cell: u32,
    pub version: u64,
    pub stored: bool,
}

/// The writer's entry that a plan becomes.
pub(crate) fn entry_of<D: Copy>(plan: Plan<D>, place: u64) -> Entry<D>
    ensures { result ≡ record { place = place; writer = true; observations = plan.observations; writes = plan.writes; dones = plan.dones } }
{
    let Plan {
        observations,
        writes,
        dones,
    } = plan;
    Entry {
        place,
        writer: true,
        observations,
        writes,
        dones,
    }
}

/// The version that a held cell is given back with, where `drawn` is the one that the attempt drew.
pub(crate) fn due_version(entry: HeldCell, drawn: u64) -> u64
    ensures { result ≡ cond entry.stored drawn entry.version }
{
    if entry.stored { drawn } else { entry.version }
}

/// An undecided plan is dropped with the last held cell.
pub(crate) fn drop_plan<D: Copy>(plan: &mut Option<Plan<D>>, held: &[HeldCell])
    ensures { plan_of plan.new ≡ plan_after (pairs_of held.now) (plan_of plan.old) }
{
    if !held.is_empty() {
        return;
    }
    *plan = None;
}
