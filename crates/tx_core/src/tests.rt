ghost use Rattle.std.specs.Prelude.{◌≡◌, ℕ, ◌+◌, ◌<◌, ◌≤◌, false, length, [], OnOk, IfOk, IfErr};
ghost use Rattle.cell_table.specs.Steps.{IsIdle};
ghost use Rattle.cell_table.specs.Pass.{IsPassOf, IsSole};
ghost use Rattle.tx_core.specs.Calls.{MayCommit, NothingWaits};

use crate::{Stop, Tx, TxState, Untold};
use cell_table::{CellTable, Contents, Pass};
use std::alloc::Global;
use std::process::Abort;
use std::test::Fail;

// Commits an attempt that writes, unless others stop it.
pub(crate) fn commit(mut tx: Tx<'_, Untold>) -> Result<(u64, Pass<Untold>), (Stop, Pass<Untold>)>
    requires callable { MayCommit tx }
    requires resolved { NothingWaits tx }
    requires some_write { 0 < length tx.writes }
    requires left { 0 < tx.pass.view.draws }
    ensures committed { IfOk result (λ r. IsPassOf tx.entry.table r.1 × IsIdle r.1.view) }
    ensures sole { IsSole tx.entry.pass → IfOk result (λ r. IsSole r.1) }
    ensures refused { IfErr result (λ r. IsPassOf tx.entry.table r.1 × IsIdle r.1.view × (tx.entry.pass.view.draws ≤ r.1.view.draws + 1)) }
{
    match tx.lock_writes() {
        Ok(()) => {}
        Err(stop) => return Err((stop, tx.abort())),
    }
    match tx.draw_and_check() {
        Ok(version) => Ok((version, tx.publish())),
        Err(stop) => Err((stop, tx.abort())),
    }
}

// Writes a cell, and commits the attempt, unless others stop it.
fn write_and_commit(
    mut tx: Tx<'_, Untold>,
    cell: u32,
    value: u64,
) -> Result<(u64, Pass<Untold>), (Stop, Pass<Untold>)>
    requires callable { MayCommit tx }
    requires resolved { NothingWaits tx }
    requires cell { cell < length tx.table.opening }
    requires left { 0 < tx.pass.view.draws }
    ensures of { IfOk result (λ r. IsPassOf tx.entry.table r.1) }
    ensures refused { IfErr result (λ r. IsPassOf tx.entry.table r.1 × IsIdle r.1.view × (tx.entry.pass.view.draws ≤ r.1.view.draws + 1)) }
{
    match tx.write(cell, value) {
        Ok(()) => commit(tx),
        Err(_) => Err((Stop::Memory, tx.abort())),
    }
}

// Commits an attempt that reads one cell, unless others stop it. It answers the value, the place of its record, and the
// place that the pass has seen then.
fn commit_one_read(
    alloc: Global,
    table: &CellTable<Untold>,
    pass: Pass<Untold>,
    cell: u32,
) -> Option<(u64, u64, u64)>
    requires of { IsPassOf table.now pass }
    requires idle { IsIdle pass.view }
    requires left { 0 < pass.view.draws }
    requires cell { cell < length table.now.opening }
{
    let Ok(mut tx) = Tx::begin(alloc, table, pass) else {
        return None;
    };
    let Ok(value) = tx.read(cell) else {
        tx.abort();
        return None;
    };
    let pass = tx.commit_reads();
    pass.callers_held();
    let record = pass.entries(0).last()?;
    Some((value, record.place, pass.seen()))
}

// The value of a cell, as the first thing that an attempt reads.
fn read_first(tx: &mut Tx<'_, Untold>, cell: u32) -> Result<u64, Stop>
    requires callable { MayCommit tx.old }
    requires fresh { (tx.old.observations ≡ []) × (tx.old.writes ≡ []) × NothingWaits tx.old }
    requires cell { cell < length tx.old.table.opening }
    ensures callable { OnOk result (MayCommit tx.new) }
    ensures resolved { NothingWaits tx.new }
    ensures same { (tx.new.table ≡ tx.old.table) × (tx.new.writes ≡ []) × (tx.new.pass.view.draws ≡ tx.old.pass.view.draws) }
{
    match tx.read(cell) {
        Ok(value) => Ok(value),
        Err(stop) => Err(stop),
    }
}

// The caller of another pass writes a value to a cell, and commits it at this place.
pub(crate) fn commit_beside(
    rt: &(impl Abort + AllocGlobal),
    table: &CellTable<Untold>,
    pass: Pass<Untold>,
    cell: u32,
    value: u64,
    place: u64,
)
    requires of { IsPassOf table.now pass }
    requires idle { IsIdle pass.view }
    requires cell { cell < length table.now.opening }
{
    assert!(rt; pass.draws_left() > 0, "a draw is left");
    let Ok(tx) = Tx::begin(rt.alloc(), table, pass) else {
        panic!(rt; "the other attempt begins");
    };
    let Ok((drawn, _)) = write_and_commit(tx, cell, value) else {
        panic!(rt; "the other caller commits");
    };
    assert_eq!(rt; drawn, place);
}

// The second caller commits 5 to cell 0 between the first one's read and its commit, whose draw is spent.
#[test]
fn an_observed_cell_that_changed_refuses_the_commit(rt: HostRuntime) -> Result<(), Fail> {
    let (table, mut first) = CellTable::open(rt.alloc(), Untold, &[0, 0], 2)?;
    let second = first.split(rt.alloc(), &table, 1)?;
    let Ok(mut a) = Tx::begin(rt.alloc(), &table, first) else {
        panic!(rt; "the first attempt begins");
    };
    assert_eq!(rt; read_first(&mut a, 0).expect(&rt, "cell 0 is read"), 0);
    commit_beside(&rt, &table, second, 0, 5, 1);
    let Err((stop, first)) = write_and_commit(a, 1, 7) else {
        panic!(rt; "the first is refused");
    };
    assert_eq!(rt; stop, Stop::Newer { cell: 0, found: 1 });
    assert_eq!(rt;
        commit_one_read(rt.alloc(), &table, first, 0),
        Some((5, 2, 2))
    );
    Ok(())
}

// The second caller holds cell 0 before the first one reads it.
#[test]
fn a_held_cell_stops_the_reader_and_comes_back_free(rt: HostRuntime) -> Result<(), Fail> {
    let (table, mut first) = CellTable::open(rt.alloc(), Untold, &[0, 0], 2)?;
    let second = first.split(rt.alloc(), &table, 1)?;
    let Ok(mut a) = Tx::begin(rt.alloc(), &table, first) else {
        panic!(rt; "the first attempt begins");
    };
    let Ok(mut b) = Tx::begin(rt.alloc(), &table, second) else {
        panic!(rt; "the second attempt begins");
    };
    assert_eq!(rt; b.hold(0), Ok(0));
    let Err(stop) = a.read(0) else {
        panic!(rt; "cell 0 is held");
    };
    assert_eq!(rt; stop, Stop::Held { cell: 0, owner: 1 });
    assert_eq!(rt; a.state(), TxState::Stopped);
    let mut first = a.abort();
    b.abort();
    assert_eq!(rt; table.look_lock(&mut first, 0), 0);
    assert_eq!(rt; table.look_lock(&mut first, 1), 0);
    Ok(())
}

// The first caller only writes the cell, so it is no matter that it has a version above the attempt's.
#[test]
fn a_cell_only_written_may_have_become_newer(rt: HostRuntime) -> Result<(), Fail> {
    let (table, mut first) = CellTable::open(rt.alloc(), Untold, &[0, 0], 2)?;
    let second = first.split(rt.alloc(), &table, 1)?;
    let Ok(mut a) = Tx::begin(rt.alloc(), &table, first) else {
        panic!(rt; "the first attempt begins");
    };
    commit_beside(&rt, &table, second, 0, 5, 1);
    let Ok((place, mut first)) = write_and_commit(a, 0, 7) else {
        panic!(rt; "the first commits");
    };
    assert_eq!(rt; place, 2);
    assert_eq!(rt; table.look_lock(&mut first, 0), 4);
    assert_eq!(rt; table.look_value(&mut first, 0), 7);
    Ok(())
}

// The second caller holds cell 1. The first one writes cells 2, 1 and 0, and is stopped at cell 1 with cell 0 locked and
// cell 2 free.
#[test]
fn written_cells_are_locked_in_ascending_order(rt: HostRuntime) -> Result<(), Fail> {
    let (table, mut first) = CellTable::open(rt.alloc(), Untold, &[0, 0, 0], 3)?;
    let mut third = first.split(rt.alloc(), &table, 1)?;
    let second = first.split(rt.alloc(), &table, 1)?;
    let Ok(mut a) = Tx::begin(rt.alloc(), &table, first) else {
        panic!(rt; "the first attempt begins");
    };
    let Ok(mut b) = Tx::begin(rt.alloc(), &table, second) else {
        panic!(rt; "the second attempt begins");
    };
    a.write(2, 7).expect(&rt, "cell 2 is written");
    a.write(1, 7).expect(&rt, "cell 1 is written");
    a.write(0, 7).expect(&rt, "cell 0 is written");
    assert_eq!(rt; b.hold(1), Ok(0));
    assert_eq!(rt; a.lock_writes(), Err(Stop::Held { cell: 1, owner: 1 }));
    assert_eq!(rt; table.look_lock(&mut third, 0), 1);
    assert_eq!(rt; table.look_lock(&mut third, 2), 0);
    a.abort();
    b.abort();
    Ok(())
}

// The values and versions of the first three cells.
pub(crate) fn three_cells(contents: &Contents) -> ((u64, u64), (u64, u64), (u64, u64))
    requires { 3 ≤ length contents.now.values }
{
    (
        (contents.value(0), contents.version(0)),
        (contents.value(1), contents.version(1)),
        (contents.value(2), contents.version(2)),
    )
}

// One caller writes a cell and holds another one.
#[test]
fn a_commit_leaves_what_was_written_and_no_more(rt: HostRuntime) -> Result<(), Fail> {
    let (table, pass) = CellTable::open(rt.alloc(), Untold, &[10, 20, 30], 1)?;
    let Ok(mut tx) = Tx::begin(rt.alloc(), &table, pass) else {
        panic!(rt; "the attempt begins");
    };
    assert_eq!(rt; tx.read(0).expect(&rt, "cell 0 is read"), 10);
    tx.write(0, 11).expect(&rt, "cell 0 is written");
    assert_eq!(rt; tx.read(0).expect(&rt, "the own write is read"), 11);
    assert_eq!(rt; tx.hold(1).expect(&rt, "cell 1 is held"), 20);
    let Ok((place, pass)) = commit(tx) else {
        panic!(rt; "the attempt commits");
    };
    assert_eq!(rt; place, 1);
    let contents = table.close(pass);
    assert_eq!(rt; three_cells(&contents), ((11, 1), (20, 0), (30, 0)));
    Ok(())
}

// A commit that locks one cell late, as far as its draw. It answers the cell's value, the place at which all that was
// observed stands, and the version that was drawn.
fn lock_late(tx: &mut Tx<'_, Untold>, cell: u32) -> Result<(u64, u64, u64), Stop>
    requires callable { MayCommit tx.old }
    requires cell { cell < length tx.old.table.opening }
    requires spare { (0 < tx.old.spare.locks) × (0 < tx.old.spare.observations) }
    requires left { 0 < tx.old.pass.view.draws }
    ensures table { tx.new.table ≡ tx.old.table }
{
    tx.vouched_law();
    tx.lock_writes()?;
    let value = tx.late_hold(cell)?;
    let place = tx.check_now()?;
    let drawn = tx.draw_and_check()?;
    Ok((value, place, drawn))
}

// The second caller commits 5 to cell 0 after the first one's attempt began.
#[test]
fn a_late_lock_takes_a_newer_value_and_validates_it(rt: HostRuntime) -> Result<(), Fail> {
    let (table, mut first) = CellTable::open(rt.alloc(), Untold, &[3, 4], 2)?;
    let second = first.split(rt.alloc(), &table, 1)?;
    let Ok(mut a) = Tx::begin(rt.alloc(), &table, first) else {
        panic!(rt; "the first attempt begins");
    };
    a.later(0, 9).expect(&rt, "the first adds a value");
    commit_beside(&rt, &table, second, 0, 5, 1);
    assert_eq!(rt; lock_late(&mut a, 0), Ok((5, 1, 2)));
    let mut first = a.abort();
    assert_eq!(rt; table.look_lock(&mut first, 0), 2);
    assert_eq!(rt; table.look_value(&mut first, 0), 5);
    Ok(())
}

#[test]
fn a_commit_of_reads_leaves_the_cells_as_they_were(rt: HostRuntime) -> Result<(), Fail> {
    let (table, pass) = CellTable::open(rt.alloc(), Untold, &[10, 20, 30], 1)?;
    let Ok(mut tx) = Tx::begin(rt.alloc(), &table, pass) else {
        panic!(rt; "the attempt begins");
    };
    assert_eq!(rt; tx.read(2).expect(&rt, "cell 2 is read"), 30);
    tx.note(1).expect(&rt, "a call is noted");
    let pass = tx.commit_reads();
    let contents = table.close(pass);
    assert_eq!(rt; three_cells(&contents), ((10, 0), (20, 0), (30, 0)));
    Ok(())
}
