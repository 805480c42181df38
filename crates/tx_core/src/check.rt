//! Validation: whether what was observed is still so.
ghost use Rattle.std.specs.Prelude.{◌≡◌, ℕ, ◌+◌, ◌-◌, ◌<◌, ◌≤◌, false, length, slice_index, is_some, IsOk, IfErr, OnOk, OnErr};
ghost use Rattle.cell_table.specs.Cells.{has};
ghost use Rattle.cell_table.specs.Rule.{cells_of, callers_of};
ghost use Rattle.cell_table.specs.Steps.{Validated, Observes};
ghost use Rattle.cell_table.specs.Pass.{IsPassOf, IsSole, trail_of};
ghost use Rattle.attempt_lists.specs.Cells.{word_at, cell_at, word_of};
ghost use Rattle.tx_core.specs.Causes.{IsCaused, IsCausedAt, GrewBy};
ghost use Rattle.tx_core.specs.Seen.{LooksOnly, IsSeen, IsFirstChanged};

use crate::steps::still;
use crate::stop::Stop;
use attempt_lists::{CellList, Observation, ReadSet};
use cell_table::{CellTable, Meaning, Pass};

// One observation. A cell that is held needs no look.
fn check_one<M: Meaning>(
    table: &CellTable<M>,
    pass: &mut Pass<M>,
    seen: Observation,
    held: &CellList,
    version: u64,
) -> Result<(), Stop>
    requires of { IsPassOf table.now pass.old }
    requires holds { (c : ℕ) → has c (cells_of pass.old.view.held) ≡ is_some (word_at held.now.entries c) }
    requires observed { IsSeen pass.old.view version seen.cell seen.value seen.version }
    ensures of { IsPassOf table.now pass.new }
    ensures looks { LooksOnly pass.old pass.new }
    ensures ok { OnOk result (has seen.cell (cells_of pass.old.view.held) ≡ false → Validated pass.new.view seen.cell seen.version pass.old.view.known) }
    ensures sole { IsSole pass.old → pass.old.seen ≤ version → IsOk result }
    ensures steps { GrewBy 1 (trail_of pass.old) (trail_of pass.new) }
    ensures free { OnErr result (has seen.cell (cells_of pass.old.view.held) ≡ false) }
    ensures cause { IfErr result (IsCausedAt seen.cell (callers_of pass.old.view.books) version (length (trail_of pass.old)) (trail_of pass.new)) }
{
    if held.get(seen.cell).is_some() {
        return Ok(());
    }
    still(table, pass, seen, version)?;
    Ok(())
}

/// Whether each observation is still the newest one up to the greatest place known, in the order in which they were made. The cells that are held need no look.
pub(crate) fn check<M: Meaning>(
    table: &CellTable<M>,
    pass: &mut Pass<M>,
    reads: &ReadSet,
    held: &CellList,
    version: u64,
) -> Result<(), Stop>
    requires of { IsPassOf table.now pass.old }
    requires holds { (c : ℕ) → has c (cells_of pass.old.view.held) ≡ is_some (word_at held.now.entries c) }
    requires observed { (i : ℕ) → i < length reads.now.observations → IsSeen pass.old.view version (cell_at reads.now.observations i) (word_of reads.now.observations i) (slice_index reads.now.versions i) }
    ensures of { IsPassOf table.now pass.new }
    ensures looks { LooksOnly pass.old pass.new }
    ensures ok { OnOk result ((i : ℕ) → i < length reads.now.observations → has (cell_at reads.now.observations i) (cells_of pass.old.view.held) ≡ false → Validated pass.new.view (cell_at reads.now.observations i) (slice_index reads.now.versions i) pass.old.view.known) }
    ensures sole { IsSole pass.old → pass.old.seen ≤ version → IsOk result }
    ensures steps { GrewBy (length reads.now.observations) (trail_of pass.old) (trail_of pass.new) }
    ensures first { IfErr result (IsFirstChanged pass.new.view reads.now.observations reads.now.versions) }
    ensures cause { IfErr result (IsCaused (callers_of pass.old.view.books) version (length (trail_of pass.old)) (trail_of pass.new)) }
{
    for i in 0..reads.len() {
        if let Err(stop) = check_one(table, pass, reads.at(i), held, version) {
            return Err(stop);
        }
    }
    Ok(())
}

/// The same behind the draw of a version, the greatest place known: each observation of a cell that isn't held stands just before it.
///
/// Where that version directly follows the attempt's, nobody drew between and nothing that was observed can have changed: no look is made.
pub(crate) fn check_drawn<M: Meaning>(
    table: &CellTable<M>,
    pass: &mut Pass<M>,
    reads: &ReadSet,
    held: &CellList,
    version: u64,
    drawn: u64,
) -> Result<(), Stop>
    requires of { IsPassOf table.now pass.old }
    requires holds { (c : ℕ) → has c (cells_of pass.old.view.held) ≡ is_some (word_at held.now.entries c) }
    requires observed { (i : ℕ) → i < length reads.now.observations → IsSeen pass.old.view version (cell_at reads.now.observations i) (word_of reads.now.observations i) (slice_index reads.now.versions i) }
    requires later { version < drawn }
    requires known { pass.old.view.known ≡ drawn }
    ensures of { IsPassOf table.now pass.new }
    ensures looks { LooksOnly pass.old pass.new }
    ensures ok { OnOk result ((i : ℕ) → i < length reads.now.observations → has (cell_at reads.now.observations i) (cells_of pass.old.view.held) ≡ false → Observes pass.new.view (cell_at reads.now.observations i) (word_of reads.now.observations i) (drawn - 1)) }
    ensures sole { IsSole pass.old → pass.old.seen ≤ version → IsOk result }
    ensures direct { drawn ≡ version + 1 → IsOk result × (pass.new ≡ pass.old) }
    ensures steps { GrewBy (length reads.now.observations) (trail_of pass.old) (trail_of pass.new) }
    ensures first { IfErr result (IsFirstChanged pass.new.view reads.now.observations reads.now.versions) }
    ensures cause { IfErr result (IsCaused (callers_of pass.old.view.books) version (length (trail_of pass.old)) (trail_of pass.new)) }
{
    if drawn - version == 1 {
        return Ok(());
    }
    match check(table, pass, reads, held, version) {
        Ok(()) => Ok(()),
        Err(stop) => Err(stop),
    }
}
