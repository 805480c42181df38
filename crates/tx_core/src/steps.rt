//! The reads and locks of single cells.
ghost use Rattle.std.specs.Prelude.{◌≡◌, ℕ, ◌+◌, ◌*◌, ◌/◌, ◌%◌, ◌^◌, ◌<◌, ◌≤◌, false, length, slice_index, IsOk, IfOk, IfErr, OnOk, OnErr};
ghost use Rattle.cell_table.specs.Cells.{has};
ghost use Rattle.cell_table.specs.Rule.{cells_of, callers_of};
ghost use Rattle.cell_table.specs.declared.view.Stage.TheVariants.{Open};
ghost use Rattle.cell_table.specs.Steps.{Validated};
ghost use Rattle.cell_table.specs.Pass.{IsPassOf, IsSole, trail_of};
ghost use Rattle.attempt_lists.specs.Cells.{cell_at, word_of};
ghost use Rattle.tx_core.specs.Causes.{IsCausedAt, FoundSince, GrewBy};
ghost use Rattle.tx_core.specs.Seen.{LooksOnly, StandsAt, IsSeen, Takes};
ghost use Rattle.tx_core.specs.declared.stop.Stop.TheVariants.{Held, Newer};

use crate::stop::Stop;
use attempt_lists::{Observation, ReadSet};
use cell_table::{CellTable, Meaning, Pass, free_version, owner};

/// The stop that a lock word tells of.
pub(crate) fn stop_at(cell: u32, word: u64) -> Stop
    requires { word % 2 ≡ 1 → word < 2 ^ 33 }
    ensures held { (k : ℕ) → word ≡ 2 * k + 1 → result ≡ Held cell k }
    ensures newer { (u : ℕ) → word ≡ 2 * u → result ≡ Newer cell u }
{
    match owner(word) {
        Some(owner) => Stop::Held { cell, owner },
        None => Stop::Newer {
            cell,
            found: word / 2,
        },
    }
}

/// The value of a cell that isn't held, and its version: by a load of its lock word, of its value, and of its lock word again.
pub(crate) fn read_cell<M: Meaning>(
    table: &CellTable<M>,
    pass: &mut Pass<M>,
    cell: u32,
    version: u64,
) -> Result<(u64, u64), Stop>
    requires of { IsPassOf table.now pass.old }
    requires cell { cell < length table.now.opening }
    requires free { has cell (cells_of pass.old.view.held) ≡ false }
    requires known { version ≤ pass.old.view.known }
    ensures of { IsPassOf table.now pass.new }
    ensures looks { LooksOnly pass.old pass.new }
    ensures steps { GrewBy 3 (trail_of pass.old) (trail_of pass.new) }
    ensures sole { IsSole pass.old → pass.old.seen ≤ version → IsOk result }
    ensures ok { IfOk result (λ r. StandsAt pass.new.view version cell r.0 r.1) }
    ensures looked { IfOk result (λ r. FoundSince (length (trail_of pass.old)) (trail_of pass.new) cell (2 * r.1)) }
    ensures cause { IfErr result (IsCausedAt cell (callers_of pass.old.view.books) version (length (trail_of pass.old)) (trail_of pass.new)) }
{
    table.limits_law();
    let first = table.look_lock(pass, cell);
    let Some(found) = free_version(first) else {
        return Err(stop_at(cell, first));
    };
    if version < found {
        return Err(stop_at(cell, first));
    }
    let value = table.look_value(pass, cell);
    let last = table.look_lock(pass, cell);
    if last != first {
        pass.legal_law();
        return Err(stop_at(cell, last));
    }
    Ok((value, found))
}

/// Takes the lock of a cell that isn't held, from a version that was the newest one up to the attempt's version: by one compare-exchange.
pub(crate) fn take_from<M: Meaning>(
    table: &CellTable<M>,
    pass: &mut Pass<M>,
    cell: u32,
    version: u64,
    from: u64,
) -> Result<(), Stop>
    requires of { IsPassOf table.now pass.old }
    requires cell { cell < length table.now.opening }
    requires free { has cell (cells_of pass.old.view.held) ≡ false }
    requires undrawn { pass.old.view.stage ≡ Open }
    requires place { 0 < pass.old.places }
    requires small { 2 * from < 2 ^ 64 }
    requires newest { (q : ℕ) × (version ≤ q) × (q ≤ pass.old.view.known) × Validated pass.old.view cell from q }
    ensures of { IsPassOf table.now pass.new }
    ensures takes { OnOk result (Takes pass.old pass.new cell from) }
    ensures looks { OnErr result (LooksOnly pass.old pass.new) }
    ensures steps { GrewBy 1 (trail_of pass.old) (trail_of pass.new) }
    ensures cause { IfErr result (IsCausedAt cell (callers_of pass.old.view.books) version (length (trail_of pass.old)) (trail_of pass.new)) }
    ensures sole { IsSole pass.old → pass.old.seen ≤ version → IsOk result }
{
    table.limits_law();
    // A pass with every caller number knows the newest version.
    pass.alone_law();
    match table.take_lock(pass, cell, 2 * from) {
        Ok(()) => Ok(()),
        Err(word) => {
            pass.legal_law();
            Err(stop_at(cell, word))
        }
    }
}

/// Takes the lock of a cell that isn't held, where its version isn't above the attempt's: by a look and one compare-exchange. It answers the version.
pub(crate) fn lock_cell<M: Meaning>(
    table: &CellTable<M>,
    pass: &mut Pass<M>,
    cell: u32,
    version: u64,
) -> Result<u64, Stop>
    requires of { IsPassOf table.now pass.old }
    requires cell { cell < length table.now.opening }
    requires free { has cell (cells_of pass.old.view.held) ≡ false }
    requires undrawn { pass.old.view.stage ≡ Open }
    requires place { 0 < pass.old.places }
    requires known { version ≤ pass.old.view.known }
    ensures of { IsPassOf table.now pass.new }
    ensures takes { IfOk result (λ u. Takes pass.old pass.new cell u) }
    ensures version { IfOk result (λ u. (u ≤ version) × (2 * u < 2 ^ 64) × Validated pass.new.view cell u pass.new.view.known) }
    ensures looks { OnErr result (LooksOnly pass.old pass.new) }
    ensures steps { GrewBy 2 (trail_of pass.old) (trail_of pass.new) }
    ensures cause { IfErr result (IsCausedAt cell (callers_of pass.old.view.books) version (length (trail_of pass.old)) (trail_of pass.new)) }
    ensures sole { IsSole pass.old → pass.old.seen ≤ version → IsOk result }
{
    table.limits_law();
    let word = table.look_lock(pass, cell);
    let Some(found) = free_version(word) else {
        return Err(stop_at(cell, word));
    };
    if found > version {
        return Err(stop_at(cell, word));
    }
    match take_from(table, pass, cell, version, found) {
        Ok(()) => Ok(found),
        Err(stop) => Err(stop),
    }
}

/// Takes the lock of a cell that isn't held: from the version that was observed of it, else after one look.
pub(crate) fn lock_seen<M: Meaning>(
    table: &CellTable<M>,
    pass: &mut Pass<M>,
    reads: &ReadSet,
    cell: u32,
    version: u64,
) -> Result<u64, Stop>
    requires of { IsPassOf table.now pass.old }
    requires cell { cell < length table.now.opening }
    requires free { has cell (cells_of pass.old.view.held) ≡ false }
    requires undrawn { pass.old.view.stage ≡ Open }
    requires place { 0 < pass.old.places }
    requires known { version ≤ pass.old.view.known }
    requires observed { (i : ℕ) → i < length reads.now.observations → IsSeen pass.old.view version (cell_at reads.now.observations i) (word_of reads.now.observations i) (slice_index reads.now.versions i) }
    requires early { (i : ℕ) → i < length reads.now.observations → slice_index reads.now.versions i ≤ version }
    ensures of { IsPassOf table.now pass.new }
    ensures takes { IfOk result (λ u. Takes pass.old pass.new cell u) }
    ensures seen { IfOk result (λ u. (i : ℕ) → i < length reads.now.observations → cell_at reads.now.observations i ≡ cell → slice_index reads.now.versions i ≡ u) }
    ensures low { IfOk result (λ u. u ≤ version) }
    ensures looks { OnErr result (LooksOnly pass.old pass.new) }
    ensures steps { GrewBy 2 (trail_of pass.old) (trail_of pass.new) }
    ensures cause { IfErr result (IsCausedAt cell (callers_of pass.old.view.books) version (length (trail_of pass.old)) (trail_of pass.new)) }
    ensures sole { IsSole pass.old → pass.old.seen ≤ version → IsOk result }
{
    // No cell was observed twice.
    reads.once_law();
    match reads.get(cell) {
        Some(seen) => match take_from(table, pass, cell, version, seen.version) {
            Ok(()) => Ok(seen.version),
            Err(stop) => Err(stop),
        },
        None => match lock_cell(table, pass, cell, version) {
            Ok(found) => Ok(found),
            Err(stop) => Err(stop),
        },
    }
}

/// Whether the version of an observation is still the newest one, by one look at a cell that isn't held.
pub(crate) fn still<M: Meaning>(
    table: &CellTable<M>,
    pass: &mut Pass<M>,
    seen: Observation,
    version: u64,
) -> Result<(), Stop>
    requires of { IsPassOf table.now pass.old }
    requires free { has seen.cell (cells_of pass.old.view.held) ≡ false }
    requires observed { StandsAt pass.old.view version seen.cell seen.value seen.version }
    ensures of { IsPassOf table.now pass.new }
    ensures looks { LooksOnly pass.old pass.new }
    ensures ok { OnOk result (Validated pass.new.view seen.cell seen.version pass.old.view.known) }
    ensures sole { IsSole pass.old → pass.old.seen ≤ version → IsOk result }
    ensures steps { GrewBy 1 (trail_of pass.old) (trail_of pass.new) }
    ensures cause { IfErr result (IsCausedAt seen.cell (callers_of pass.old.view.books) version (length (trail_of pass.old)) (trail_of pass.new)) }
{
    table.limits_law();
    let word = table.look_lock(pass, seen.cell);
    if word != 2 * seen.version {
        pass.legal_law();
        return Err(stop_at(seen.cell, word));
    }
    Ok(())
}
