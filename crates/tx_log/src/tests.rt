ghost use Rattle.std.specs.Prelude.{◌≡◌, ◌≢◌, ℕ, ◌+◌, ◌-◌, ◌^◌, ◌<◌, [], length, All};
ghost use Rattle.cell_table.specs.Steps.{IsIdle};
ghost use Rattle.cell_table.specs.Pass.{IsPassOf};
ghost use Rattle.tx_core.specs.Calls.{MayCommit, waiting};

use crate::LogPart;
use cell_table::{CellTable, Pass};
use std::alloc::Global;
use std::process::Abort;
use std::test::Fail;
use tx_core::{ResolveEnd, Tx, TxState, Untold};

const TWO: LogPart = LogPart {
    part: 0,
    end: 0,
    capacity: 2,
};

// Commits an attempt that adds to this log alone, which has room for it.
fn commit(rt: &impl Abort, mut tx: Tx<'_, Untold>) -> Pass<Untold>
    requires callable { MayCommit tx }
    requires part { 2 < length tx.table.opening }
    requires small { All (λ v. v < 2 ^ 64 - 1) (waiting 0 tx) }
    requires some { waiting 0 tx ≢ [] }
    requires alone { (part : ℕ) → part ≢ 0 → waiting part tx ≡ [] }
    requires left { 0 < tx.pass.view.draws }
    ensures of { IsPassOf tx.entry.table result }
    ensures idle { IsIdle result.view }
    ensures draws { result.view.draws ≡ tx.entry.pass.view.draws - 1 }
{
    tx.provided_law();
    tx.vouched_law();
    let Ok(()) = tx.lock_writes() else {
        panic!(rt; "nothing is to be locked");
    };
    let Ok(()) = TWO.resolve(&mut tx) else {
        panic!(rt; "the additions are placed");
    };
    let Ok(_) = tx.draw_and_check() else {
        panic!(rt; "nothing has changed");
    };
    tx.publish()
}

// Begins an attempt that adds a value to this log, and nothing else.
fn begin_adding<'a>(
    rt: &impl Abort,
    alloc: Global,
    table: &'a CellTable<Untold>,
    pass: Pass<Untold>,
    value: u64,
) -> Tx<'a, Untold>
    requires of { IsPassOf table.now pass }
    requires idle { IsIdle pass.view }
    requires draw { 0 < pass.view.draws }
    requires value { value < 2 ^ 64 - 1 }
    ensures table { result.table ≡ table.now }
    ensures callable { MayCommit result }
    ensures small { All (λ v. v < 2 ^ 64 - 1) (waiting 0 result) }
    ensures some { waiting 0 result ≢ [] }
    ensures alone { (part : ℕ) → part ≢ 0 → waiting part result ≡ [] }
    ensures draws { result.pass.view.draws ≡ pass.view.draws }
{
    let Ok(mut tx) = Tx::begin(alloc, table, pass) else {
        panic!(rt; "the attempt begins");
    };
    TWO.append(&mut tx, value).expect(rt, "the value is added");
    tx
}

// Expects that the additions that wait make the log too long, and that the attempt goes on.
fn expect_full(rt: &impl Abort, tx: &mut Tx<'_, Untold>, there: u64, adding: u64)
    requires callable { MayCommit tx.old }
    requires part { 2 < length tx.old.table.opening }
    requires small { All (λ v. v < 2 ^ 64 - 1) (waiting 0 tx.old) }
    ensures table { tx.new.table ≡ tx.old.table }
    ensures draws { tx.new.pass.view.draws ≡ tx.old.pass.view.draws }
{
    tx.provided_law();
    tx.vouched_law();
    let full = ResolveEnd::Full {
        part: 0,
        length: there,
        adding,
    };
    assert_eq!(rt; TWO.resolve(tx), Err(full));
    assert_eq!(rt; tx.state(), TxState::Running);
}

// Expects this value at the place, or none.
fn expect_value(rt: &impl Abort, tx: &mut Tx<'_, Untold>, place: u64, value: Option<u64>)
    requires callable { MayCommit tx.old }
    requires part { 2 < length tx.old.table.opening }
    ensures table { tx.new.table ≡ tx.old.table }
    ensures callable { MayCommit tx.new }
    ensures draws { tx.new.pass.view.draws ≡ tx.old.pass.view.draws }
    ensures waits { (part : ℕ) → waiting part tx.new ≡ waiting part tx.old }
{
    assert_eq!(rt; TWO.read(tx, place), Ok(value));
}

// Expects that the log has so many values.
fn expect_len(rt: &impl Abort, tx: &mut Tx<'_, Untold>, count: u64)
    requires callable { MayCommit tx.old }
    requires part { 2 < length tx.old.table.opening }
    ensures table { tx.new.table ≡ tx.old.table }
    ensures callable { MayCommit tx.new }
    ensures draws { tx.new.pass.view.draws ≡ tx.old.pass.view.draws }
    ensures waits { (part : ℕ) → waiting part tx.new ≡ waiting part tx.old }
{
    assert_eq!(rt; TWO.len(tx), Ok(count));
}

#[test]
fn an_attempt_sees_what_it_adds(rt: HostRuntime) -> Result<(), Fail> {
    let (table, pass) = CellTable::open(rt.alloc(), Untold, &[0, 0, 0], 1)?;
    let mut tx = begin_adding(&rt, rt.alloc(), &table, pass, 3);
    expect_len(&rt, &mut tx, 1);
    expect_value(&rt, &mut tx, 0, Some(3));
    expect_value(&rt, &mut tx, 1, None);
    let pass = commit(&rt, tx);
    assert_eq!(rt; pass.seen(), 1);
    let Ok(mut tx) = Tx::begin(rt.alloc(), &table, pass) else {
        panic!(rt; "the next attempt begins");
    };
    assert_eq!(rt; TWO.len(&mut tx), Ok(1));
    tx.abort();
    Ok(())
}

// The log has the value 3.
#[test]
fn additions_above_the_capacity_are_refused_at_the_commit(rt: HostRuntime) -> Result<(), Fail> {
    let (table, pass) = CellTable::open(rt.alloc(), Untold, &[1, 4, 0], 1)?;
    let Ok(mut tx) = Tx::begin(rt.alloc(), &table, pass) else {
        panic!(rt; "the attempt begins");
    };
    let place = TWO
        .append_placed(&mut tx, 4)
        .expect(&rt, "the value is added");
    assert_eq!(rt; place, 1);
    TWO.append(&mut tx, 5).expect(&rt, "the value is added");
    expect_full(&rt, &mut tx, 1, 2);
    let pass = tx.abort();
    let Ok(mut tx) = Tx::begin(rt.alloc(), &table, pass) else {
        panic!(rt; "the next attempt begins");
    };
    assert_eq!(rt; TWO.len(&mut tx), Ok(1));
    tx.abort();
    Ok(())
}

#[test]
fn a_log_may_be_filled_to_its_capacity(rt: HostRuntime) -> Result<(), Fail> {
    let (table, pass) = CellTable::open(rt.alloc(), Untold, &[0, 0, 0], 1)?;
    let Ok(mut tx) = Tx::begin(rt.alloc(), &table, pass) else {
        panic!(rt; "the attempt begins");
    };
    TWO.append(&mut tx, 3).expect(&rt, "the first is added");
    TWO.append(&mut tx, 4).expect(&rt, "the second is added");
    let mut pass = commit(&rt, tx);
    assert_eq!(rt; pass.seen(), 1);
    assert_eq!(rt; table.look_value(&mut pass, 0), 2);
    assert_eq!(rt; table.look_value(&mut pass, 1), 4);
    assert_eq!(rt; table.look_value(&mut pass, 2), 5);
    Ok(())
}

// Both callers add a value; the second one commits first.
#[test]
fn two_callers_add_without_stopping_one_another(rt: HostRuntime) -> Result<(), Fail> {
    let (table, mut pass) = CellTable::open(rt.alloc(), Untold, &[0, 0, 0], 2)?;
    let other = pass.split(rt.alloc(), &table, 1)?;
    let first = begin_adding(&rt, rt.alloc(), &table, pass, 10);
    let second = begin_adding(&rt, rt.alloc(), &table, other, 20);
    let other = commit(&rt, second);
    let mut pass = commit(&rt, first);
    assert_eq!(rt; (other.seen(), pass.seen()), (1, 2));
    assert_eq!(rt; table.look_value(&mut pass, 0), 2);
    assert_eq!(rt; table.look_value(&mut pass, 1), 21);
    assert_eq!(rt; table.look_value(&mut pass, 2), 11);
    Ok(())
}
