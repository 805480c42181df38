//! A caller of attempts: it adds one to a cell, twice, and knows the sum by contracts alone.
ghost use Rattle.std.specs.Prelude.{◌≡◌, ℕ, ◌+◌, ◌-◌, ◌^◌, ◌<◌, true, false, [], ◌∷◌, length, slice_index, slice_set, IfOk, OnOk};
ghost use Rattle.cell_table.specs.Steps.{IsIdle, Grows};
ghost use Rattle.cell_table.specs.Pass.{IsPassOf, IsSole, note};
ghost use Rattle.tx_core.specs.Stored.{cells_left};
ghost use Rattle.tx_core.specs.Calls.{MayCommit, NothingWaits};

use crate::tx::Tx;
use crate::untold::Untold;
use cell_table::{CellTable, Pass};
use std::alloc::{AllocError, Global};
use std::test::Fail;

/// Commits an attempt of a pass with every caller number: nothing can stop it.
fn commit_alone(mut tx: Tx<'_, Untold>) -> Pass<Untold>
    requires callable { MayCommit tx }
    requires resolved { NothingWaits tx }
    requires some_write { 0 < length tx.writes }
    requires sole { IsSole tx.pass }
    requires left { 0 < tx.pass.view.draws }
    ensures of { IsPassOf tx.entry.table result }
    ensures idle { IsIdle result.view }
    ensures books { (d : ℕ) × (tx.entry.version < d) × (result.books ≡ note d true (record { observations = tx.entry.observations; writes = tx.entry.writes; dones = tx.entry.notes }) tx.entry.pass.books) }
    ensures draws { result.view.draws ≡ tx.entry.pass.view.draws - 1 }
    ensures grows { Grows tx.entry.pass.view result.view }
{
    let Ok(()) = tx.lock_writes() else {
        unreachable!()
    };
    let Ok(_) = tx.draw_and_check() else {
        unreachable!()
    };
    tx.publish()
}

/// Writes one more than the value of the cell.
fn add_one(tx: &mut Tx<'_, Untold>, cell: u32) -> Result<(), AllocError>
    requires callable { MayCommit tx.old }
    requires fresh { (tx.old.observations ≡ []) × (tx.old.writes ≡ []) × NothingWaits tx.old }
    requires sole { IsSole tx.old.pass }
    requires cell { cell < length tx.old.table.opening }
    requires small { slice_index (cells_left tx.old.pass) cell + 1 < 2 ^ 64 }
    ensures callable { OnOk result (MayCommit tx.new × NothingWaits tx.new) }
    ensures wrote { OnOk result (tx.new.writes ≡ (cell, slice_index (cells_left tx.old.pass) cell + 1) ∷ []) }
    ensures same { (tx.new.table ≡ tx.old.table) × (tx.new.version ≡ tx.old.version) × (tx.new.pass.books ≡ tx.old.pass.books) × (tx.new.pass.view.draws ≡ tx.old.pass.view.draws) }
    ensures grows { Grows tx.old.pass.view tx.new.pass.view }
{
    let Ok(value) = tx.read(cell) else {
        return Err(AllocError);
    };
    tx.alone_law();
    tx.write(cell, value + 1)?;
    Ok(())
}

/// Adds one to the cell, by one attempt of a pass with every caller number.
fn increment(
    alloc: Global,
    table: &CellTable<Untold>,
    pass: Pass<Untold>,
    cell: u32,
) -> Result<Pass<Untold>, AllocError>
    requires of { IsPassOf table.now pass }
    requires idle { IsIdle pass.view }
    requires sole { IsSole pass }
    requires left { 0 < pass.view.draws }
    requires cell { cell < length table.now.opening }
    requires small { slice_index (cells_left pass) cell + 1 < 2 ^ 64 }
    ensures of { IfOk result (λ p. IsPassOf table.now p × IsIdle p.view × IsSole p) }
    ensures draws { IfOk result (λ p. p.view.draws ≡ pass.view.draws - 1) }
    ensures sum { IfOk result (λ p. cells_left p ≡ slice_set (cells_left pass) cell (slice_index (cells_left pass) cell + 1)) }
{
    pass.legal_law();
    let Ok(mut tx) = Tx::begin(alloc, table, pass) else {
        return Err(AllocError);
    };
    match add_one(&mut tx, cell) {
        Ok(()) => Ok(commit_alone(tx)),
        Err(memory) => {
            tx.abort();
            Err(memory)
        }
    }
}

/// Two committed increments of a cell that was 0 give 2.
fn count_to_two(alloc: Global) -> Result<u64, AllocError>
    ensures { IfOk result (λ n. n ≡ 2) }
{
    let (table, pass) = CellTable::open(alloc, Untold, &[0], 1)?;
    let pass = increment(alloc, &table, pass, 0)?;
    let pass = increment(alloc, &table, pass, 0)?;
    Ok(table.close(pass).value(0))
}

#[test]
fn two_committed_increments_give_two(rt: HostRuntime) -> Result<(), Fail> {
    assert_eq!(rt; count_to_two(rt.alloc())?, 2);
    Ok(())
}
