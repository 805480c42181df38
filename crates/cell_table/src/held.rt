//! The held cells of a pass, in ascending order. The last one is found by one look, each other in logarithmic time.
ghost use Rattle.std.specs.Prelude.{◌≡◌, ℕ, ◌+◌, ◌-◌, ◌<◌, ◌≤◌, true, false, length, IsTrue, vec_len, vec_capacity};
ghost use Rattle.cell_table.specs.Sorted.{insert_by, IsAscendingBy};
ghost use Rattle.cell_table.specs.Cells.{has};
ghost use Rattle.cell_table.specs.Rule.{cells_of};
ghost use Rattle.cell_table.specs.Steps.{kept_in};
ghost use Rattle.cell_table.specs.Seats.{pairs_of, held_key, flag_in, mark, without_held, IsPoint};

use crate::entry::HeldCell;
use std::alloc::Global;

/// The number of held cells below this one.
pub(crate) fn find(held: &[HeldCell], cell: u32) -> usize
    requires { IsAscendingBy held_key held.now }
    ensures { IsPoint cell held.now result }
{
    if ends_below(held, cell) {
        return held.len();
    }
    if ends_with(held, cell) {
        return held.len() - 1;
    }
    search(held, cell)
}

// Whether every held cell is below this one.
fn ends_below(held: &[HeldCell], cell: u32) -> bool
    requires { IsAscendingBy held_key held.now }
    ensures { IsTrue result → IsPoint cell held.now (length held.now) }
{
    if held.is_empty() {
        return true;
    }
    held[held.len() - 1].cell < cell
}

// Whether the cell is the last one held.
fn ends_with(held: &[HeldCell], cell: u32) -> bool
    requires { IsAscendingBy held_key held.now }
    ensures { IsTrue result → (0 < length held.now) × IsPoint cell held.now (length held.now - 1) }
{
    if held.is_empty() {
        return false;
    }
    held[held.len() - 1].cell == cell
}

// The same by halving.
fn search(held: &[HeldCell], cell: u32) -> usize
    requires { IsAscendingBy held_key held.now }
    ensures { IsPoint cell held.now result }
{
    held.partition_point(|h| h.cell < cell)
}

/// The cell goes to its place.
pub(crate) fn add_held(held: &mut Vec<HeldCell, Global>, cell: u32, version: u64)
    requires sorted { IsAscendingBy held_key held.old.items }
    requires room { vec_len held.old < vec_capacity held.old }
    requires other { has cell (cells_of (pairs_of held.old.items)) ≡ false }
    ensures items { held.new.items ≡ insert_by held_key (record { cell = cell; version = version; stored = false }) held.old.items }
    ensures len { vec_len held.new ≡ vec_len held.old + 1 }
    ensures capacity { vec_capacity held.new ≡ vec_capacity held.old }
{
    let at = find(held.as_slice(), cell);
    let entry = HeldCell {
        cell,
        version,
        stored: false,
    };
    let Ok(()) = held.insert(at, entry) else {
        unreachable!()
    };
}

/// The cell leaves, and its entry comes back.
pub(crate) fn take_held(held: &mut Vec<HeldCell, Global>, cell: u32) -> HeldCell
    requires sorted { IsAscendingBy held_key held.old.items }
    requires held { has cell (cells_of (pairs_of held.old.items)) ≡ true }
    ensures items { held.new.items ≡ without_held cell held.old.items }
    ensures len { vec_len held.new + 1 ≡ vec_len held.old }
    ensures capacity { vec_capacity held.new ≡ vec_capacity held.old }
    ensures version { result.version ≡ kept_in cell (pairs_of held.old.items) }
    ensures stored { result.stored ≡ flag_in cell held.old.items }
{
    let at = find(held.as_slice(), cell);
    held.remove(at)
}

/// The value of the cell is stored.
pub(crate) fn mark_stored(held: &mut Vec<HeldCell, Global>, cell: u32)
    requires sorted { IsAscendingBy held_key held.old.items }
    requires held { has cell (cells_of (pairs_of held.old.items)) ≡ true }
    ensures items { held.new.items ≡ mark cell held.old.items }
    ensures len { vec_len held.new ≡ vec_len held.old }
    ensures capacity { vec_capacity held.new ≡ vec_capacity held.old }
{
    let at = find(held.as_slice(), cell);
    let entry = &mut held[at];
    entry.stored = true;
}
