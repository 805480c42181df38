//! One attempt over all cells of a table.
ghost use Rattle.std.specs.Prelude.{◌≡◌, ◌<◌, ◌≤◌, ◌^◌, length, IsOk, IfOk, IfErr, OnOk};
ghost use Rattle.cell_table.specs.Pass.{IsPassOf, IsSole};
ghost use Rattle.cell_table.specs.declared.view.Stage.TheVariants.{Open};
ghost use Rattle.cell_table.specs.Steps.{IsIdle};
ghost use Rattle.tx_core.specs.declared.stop.TxState.TheVariants.{Running};
ghost use Rattle.tx_core.specs.Calls.{MayCommit, NothingWaits, HoldsWrites};
ghost use Rattle.attempt_benchmark.specs.Refused.{WantsMemory};
ghost use Rattle.attempt_benchmark.specs.Attempt.{GoesOn};

use cell_table::{CellTable, Pass};
use std::alloc::{AllocError, Global};
use tx_core::{Stop, Tx, Untold};

/// Why there was no commit.
#[derive(Drop)]
pub enum Refused {
    /// The attempt was stopped.
    Stopped(Stop),
    /// Want of memory.
    Memory,
}

impl From<AllocError> for Refused {
    ghost use Rattle.attempt_benchmark.specs.declared.attempt.Refused.TheVariants as refused;

    ghost from_gives = { λ _ end. end ≡ refused.Memory };

    fn from(_: AllocError) -> Refused {
        Refused::Memory
    }
}

impl From<Stop> for Refused {
    ghost use Rattle.attempt_benchmark.specs.declared.attempt.Refused.TheVariants as refused;

    ghost from_gives = { λ stop end. end ≡ refused.Stopped stop };

    fn from(stop: Stop) -> Refused {
        Refused::Stopped(stop)
    }
}

// Cells are visited in leaps of a prime, so that they come in no order that a sorted list could gain from.
const LEAP: u64 = 7_919;

fn zeros(alloc: Global, cells: u32) -> Result<Vec<u64>, AllocError>
    ensures { IfOk result (λ v. length v.items ≡ cells) }
{
    let mut values = Vec::new(alloc);
    values.resize(cells as usize, 0)?;
    Ok(values)
}

// Reads a cell, and where it is to be written writes 1 more than it has.
fn visit(tx: &mut Tx<'_, Untold>, cell: u32, written: bool) -> Result<(), Refused>
    requires callable { MayCommit tx.old }
    requires cell { cell < length tx.old.table.opening }
    ensures callable { OnOk result (MayCommit tx.new) }
    ensures goes_on { GoesOn tx.old tx.new }
    ensures refused { IsSole tx.old.pass → IfErr result WantsMemory }
{
    let value = tx.read(cell)?;
    if !written {
        return Ok(());
    }
    tx.write(cell, value.saturating_add(1))?;
    Ok(())
}

// Visits cells of the table, the first of which are written.
fn visit_all(tx: &mut Tx<'_, Untold>, size: Size) -> Result<(), Refused>
    requires callable { MayCommit tx.old }
    requires cells { (0 < size.cells) × (size.cells ≤ length tx.old.table.opening) }
    ensures callable { OnOk result (MayCommit tx.new) }
    ensures goes_on { GoesOn tx.old tx.new }
    ensures refused { IsSole tx.old.pass → IfErr result WantsMemory }
{
    for i in 0..size.reads {
        let cell = (i as u64 * LEAP % size.cells as u64) as u32;
        visit(tx, cell, i < size.writes)?;
    }
    Ok(())
}

// Commits what the attempt wrote.
fn commit(mut tx: Tx<'_, Untold>) -> Result<Pass<Untold>, Refused>
    requires callable { MayCommit tx }
    requires resolved { NothingWaits tx }
    requires draw { 0 < tx.pass.view.draws }
    ensures sole { IsSole tx.entry.pass → IsOk result }
    ensures of { IfOk result (λ pass. IsPassOf tx.entry.table pass × IsIdle pass.view × (length pass.books ≡ length tx.entry.pass.books)) }
{
    if !tx.is_writing() {
        return Ok(tx.abort());
    }
    match tx.lock_writes() {
        Ok(()) => publish(tx),
        Err(stop) => {
            tx.abort();
            Err(Refused::Stopped(stop))
        }
    }
}

// Draws the version of the commit, and publishes what was locked.
fn publish(mut tx: Tx<'_, Untold>) -> Result<Pass<Untold>, Refused>
    requires running { tx.state ≡ Running }
    requires undrawn { tx.pass.view.stage ≡ Open }
    requires draw { 0 < tx.pass.view.draws }
    requires some_write { 0 < length tx.writes }
    requires all_held { HoldsWrites tx }
    requires resolved { NothingWaits tx }
    ensures sole { IsSole tx.entry.pass → IsOk result }
    ensures of { IfOk result (λ pass. IsPassOf tx.entry.table pass × IsIdle pass.view × (length pass.books ≡ length tx.entry.pass.books)) }
{
    match tx.draw_and_check() {
        Ok(_) => Ok(tx.publish()),
        Err(stop) => {
            tx.abort();
            Err(Refused::Stopped(stop))
        }
    }
}

/// How large the table and the attempt are.
#[derive(Clone, Copy)]
pub struct Size {
    /// The cells of the table.
    pub cells: u32,
    /// How many of them are read.
    pub reads: u32,
    /// How many of those that are read are written.
    pub writes: u32,
}

/// What came of a committed attempt.
#[derive(Clone, Copy)]
pub struct Committed {
    /// The place at which it read.
    pub version: u64,
    /// What the last cell has at the end.
    pub last: u64,
}

/// Reads cells of a new table, writes 1 more than it has to the first of them, and commits all in one attempt. Nothing but want
/// of memory refuses it.
pub fn commit_all(alloc: Global, size: Size) -> Result<Committed, Refused>
    requires cells { (0 < size.cells) × (size.cells ≤ 2 ^ 24) }
    ensures refused { IfErr result WantsMemory }
{
    let values = zeros(alloc, size.cells)?;
    let (table, pass) = CellTable::open(alloc, Untold, values.as_slice(), 1)?;
    let mut tx = match Tx::begin(alloc, &table, pass) {
        Ok(tx) => tx,
        Err((_, memory)) => return Err(memory.into()),
    };
    if let Err(refused) = visit_all(&mut tx, size) {
        tx.abort();
        return Err(refused);
    }
    let version = tx.version();
    let pass = commit(tx)?;
    let contents = table.close(pass);
    let last = contents.value(size.cells - 1);
    Ok(Committed { version, last })
}
