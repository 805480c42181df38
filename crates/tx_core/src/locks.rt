//! The locks of a commit. A cell that was only written may have any version.
ghost use Rattle.std.specs.Prelude.{◌≡◌, ℕ, ◌+◌, ◌*◌, ◌/◌, ◌^◌, ◌<◌, ◌≤◌, true, false, length, slice_index, IsOk, IsSome, None, IfOk, IfErr, OnOk, OnErr};
ghost use Rattle.cell_table.specs.Cells.{has};
ghost use Rattle.cell_table.specs.Sorted.{Among};
ghost use Rattle.cell_table.specs.Rule.{cells_of, callers_of};
ghost use Rattle.cell_table.specs.declared.view.Stage.TheVariants.{Open};
ghost use Rattle.cell_table.specs.Steps.{Validated};
ghost use Rattle.cell_table.specs.Pass.{IsPassOf, IsSole, IsHeld, trail_of};
ghost use Rattle.attempt_lists.specs.Cells.{word_at, cell_at, word_of};
ghost use Rattle.tx_core.specs.Calls.{newly_held};
ghost use Rattle.tx_core.specs.Causes.{IsCausedAt, CausedSince, IsFoundAt, IsOfOne, FoundTwice, GrewBy};
ghost use Rattle.tx_core.specs.Seen.{LooksOnly, IsSeen, Takes, HoldsOnly, SameOthers};
ghost use Rattle.tx_core.specs.Tx.{IsAttempt};

use crate::steps::{stop_at, take_from};
use crate::stop::Stop;
use attempt_lists::{CellList, ReadSet, WriteSet};
use cell_table::{CellTable, Meaning, Pass, free_version};

/// Takes the lock of a cell that isn't held, whatever its version: by a look and one compare-exchange. It answers the version.
pub(crate) fn lock_newest<M: Meaning>(
    table: &CellTable<M>,
    pass: &mut Pass<M>,
    cell: u32,
    version: u64,
) -> Result<u64, Stop>
    requires of { IsPassOf table.now pass.old }
    requires cell { cell < length table.now.opening }
    requires free { has cell (cells_of pass.old.view.held) ≡ false }
    requires undrawn { pass.old.view.stage ≡ Open }
    requires place { 0 < pass.old.places }
    ensures of { IsPassOf table.now pass.new }
    ensures takes { IfOk result (λ u. Takes pass.old pass.new cell u × (2 * u < 2 ^ 64)) }
    ensures newest { IfOk result (λ u. u ≤ pass.old.view.known → Validated pass.new.view cell u pass.old.view.known) }
    ensures looks { OnErr result (LooksOnly pass.old pass.new) }
    ensures steps { GrewBy 2 (trail_of pass.old) (trail_of pass.new) }
    ensures cause { IfErr result (IsCausedAt cell (callers_of pass.old.view.books) version (length (trail_of pass.old)) (trail_of pass.new)) }
    ensures twice { IfErr result (FoundTwice (length (trail_of pass.old)) (trail_of pass.new)) }
    ensures sole { IsSole pass.old → IsOk result }
{
    table.limits_law();
    let word = table.look_lock(pass, cell);
    let Some(found) = free_version(word) else {
        return Err(stop_at(cell, word));
    };
    match table.take_lock(pass, cell, word) {
        Ok(()) => Ok(found),
        Err(other) => Err(stop_at(cell, other)),
    }
}

/// Takes the lock of a cell that isn't held: from the version that was observed of it, else whatever its version is.
pub(crate) fn lock_late<M: Meaning>(
    table: &CellTable<M>,
    pass: &mut Pass<M>,
    reads: &ReadSet,
    cell: u32,
    version: u64,
) -> Result<u64, Stop>
    requires of { IsPassOf table.now pass.old }
    requires cell { cell < length table.now.opening }
    requires free { has cell (cells_of pass.old.view.held) ≡ false }
    requires undrawn { pass.old.view.stage ≡ Open }
    requires place { 0 < pass.old.places }
    requires observed { (i : ℕ) → i < length reads.now.observations → IsSeen pass.old.view version (cell_at reads.now.observations i) (word_of reads.now.observations i) (slice_index reads.now.versions i) }
    ensures of { IsPassOf table.now pass.new }
    ensures takes { IfOk result (λ u. Takes pass.old pass.new cell u × (2 * u < 2 ^ 64)) }
    ensures seen { IfOk result (λ u. (i : ℕ) → i < length reads.now.observations → cell_at reads.now.observations i ≡ cell → slice_index reads.now.versions i ≡ u) }
    ensures looks { OnErr result (LooksOnly pass.old pass.new) }
    ensures steps { GrewBy 2 (trail_of pass.old) (trail_of pass.new) }
    ensures cause { IfErr result (IsCausedAt cell (callers_of pass.old.view.books) version (length (trail_of pass.old)) (trail_of pass.new)) }
    ensures twice { word_at reads.now.observations cell ≡ None → IfErr result (FoundTwice (length (trail_of pass.old)) (trail_of pass.new)) }
    ensures sole { IsSole pass.old → pass.old.seen ≤ version → IsOk result }
{
    // No cell was observed twice.
    reads.once_law();
    match reads.get(cell) {
        Some(seen) => match take_from(table, pass, cell, version, seen.version) {
            Ok(()) => Ok(seen.version),
            Err(stop) => Err(stop),
        },
        None => match lock_newest(table, pass, cell, version) {
            Ok(found) => Ok(found),
            Err(stop) => Err(stop),
        },
    }
}

/// Takes the lock of the written cell at this index, where it isn't held.
fn lock_at<M: Meaning>(
    table: &CellTable<M>,
    pass: &mut Pass<M>,
    reads: &ReadSet,
    writes: &WriteSet,
    held: &mut CellList,
    index: usize,
    version: u64,
) -> Result<(), Stop>
    requires attempt { IsAttempt table.now pass.old version reads.now writes.now.parent held.old true }
    requires undrawn { pass.old.view.stage ≡ Open }
    requires sorted { writes.now.sorted ≡ true }
    requires index { index < length writes.now.parent }
    requires locks { held.old.reserved ≤ pass.old.places }
    requires room { 0 < held.old.reserved }
    ensures attempt { IsAttempt table.now pass.new version reads.now writes.now.parent held.new true }
    ensures held { OnOk result (IsHeld pass.new (cell_at writes.now.parent index)) }
    ensures pass { HoldsOnly pass.old pass.new }
    ensures others { SameOthers pass.old pass.new (cell_at writes.now.parent index) }
    ensures kept { (t : ℕ × ℕ) → Among t pass.old.view.held → Among t pass.new.view.held }
    ensures counted { OnOk result ((length pass.old.view.held ≤ length pass.new.view.held) × GrewBy (2 * newly_held pass.old pass.new) (trail_of pass.old) (trail_of pass.new)) }
    ensures looks { OnErr result (LooksOnly pass.old pass.new) }
    ensures locks { held.new.reserved ≤ pass.new.places }
    ensures room { held.old.reserved ≤ held.new.reserved + 1 }
    ensures steps { GrewBy 2 (trail_of pass.old) (trail_of pass.new) }
    ensures cause { IfErr result (IsCausedAt (cell_at writes.now.parent index) (callers_of pass.old.view.books) version (length (trail_of pass.old)) (trail_of pass.new)) }
    ensures twice { word_at reads.now.observations (cell_at writes.now.parent index) ≡ None → IfErr result (FoundTwice (length (trail_of pass.old)) (trail_of pass.new)) }
    ensures sole { IsSole pass.old → IsOk result }
{
    let (cell, _) = writes.parent()[index];
    if held.get(cell).is_some() {
        return Ok(());
    }
    match lock_late(table, pass, reads, cell, version) {
        Ok(found) => {
            held.push_reserved(cell, found);
            Ok(())
        }
        Err(stop) => Err(stop),
    }
}

/// Takes the locks of the written cells that aren't held, in ascending order, at the places that are reserved.
pub(crate) fn lock_all<M: Meaning>(
    table: &CellTable<M>,
    pass: &mut Pass<M>,
    reads: &ReadSet,
    writes: &WriteSet,
    held: &mut CellList,
    version: u64,
) -> Result<(), Stop>
    requires attempt { IsAttempt table.now pass.old version reads.now writes.now.parent held.old true }
    requires sorted { writes.now.sorted ≡ true }
    requires undrawn { pass.old.view.stage ≡ Open }
    requires locks { held.old.reserved ≤ pass.old.places }
    requires room { length writes.now.parent ≤ held.old.reserved }
    ensures attempt { IsAttempt table.now pass.new version reads.now writes.now.parent held.new true }
    ensures all_held { OnOk result ((c : ℕ) → IsSome (word_at writes.now.parent c) → IsHeld pass.new c) }
    ensures pass { HoldsOnly pass.old pass.new }
    ensures others { (c : ℕ) → word_at writes.now.parent c ≡ None → has c (cells_of pass.new.view.held) ≡ has c (cells_of pass.old.view.held) }
    ensures kept { (t : ℕ × ℕ) → Among t pass.old.view.held → Among t pass.new.view.held }
    ensures counted { OnOk result (GrewBy (2 * newly_held pass.old pass.new) (trail_of pass.old) (trail_of pass.new)) }
    ensures counted_to_stop { OnErr result (GrewBy (2 * newly_held pass.old pass.new + 2) (trail_of pass.old) (trail_of pass.new)) }
    ensures locks { held.new.reserved ≤ pass.new.places }
    ensures room { held.old.reserved ≤ held.new.reserved + length writes.now.parent }
    ensures steps { GrewBy (2 * length writes.now.parent) (trail_of pass.old) (trail_of pass.new) }
    ensures cause { IfErr result (λ stop. IsOfOne writes.now.parent stop × CausedSince (callers_of pass.old.view.books) version (length (trail_of pass.old)) (trail_of pass.new) stop) }
    ensures twice { IfErr result (λ stop. (c : ℕ) → IsFoundAt c stop → word_at reads.now.observations c ≡ None → FoundTwice (length (trail_of pass.old)) (trail_of pass.new) stop) }
    ensures sole { IsSole pass.old → IsOk result }
{
    for index in 0..writes.parent().len() {
        if let Err(stop) = lock_at(table, pass, reads, writes, held, index, version) {
            return Err(stop);
        }
    }
    Ok(())
}
