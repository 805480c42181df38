ghost use Rattle.std.specs.Prelude.{◌≡◌, ◌≢◌, ℕ, ◌-◌, ◌<◌, [], length};
ghost use Rattle.cell_table.specs.Steps.{IsIdle};
ghost use Rattle.cell_table.specs.Pass.{IsPassOf};
ghost use Rattle.tx_core.specs.Calls.{MayCommit, waiting};

use crate::QueuePart;
use cell_table::{CellTable, Pass};
use std::process::Abort;
use std::test::Fail;
use tx_core::{ResolveEnd, Tx, TxState, Untold};

const TWO: QueuePart = QueuePart {
    part: 0,
    end: 0,
    capacity: 2,
};

// The word of an end with the head 1.
const FROM_ONE: u64 = 1 << 32;

// Commits an attempt that adds to this queue alone, which has room for it.
fn commit(rt: &impl Abort, mut tx: Tx<'_, Untold>) -> Pass<Untold>
    requires callable { MayCommit tx }
    requires part { 2 < length tx.table.opening }
    requires some { waiting 0 tx ≢ [] }
    requires alone { (part : ℕ) → part ≢ 0 → waiting part tx ≡ [] }
    requires left { 0 < tx.pass.view.draws }
    ensures of { IsPassOf tx.entry.table result }
    ensures idle { IsIdle result.view }
    ensures draws { result.view.draws ≡ tx.entry.pass.view.draws - 1 }
{
    tx.provided_law();
    tx.vouched_law();
    let Ok(()) = tx.lock_writes() else {
        panic!(rt; "the written cells are locked");
    };
    let Ok(()) = TWO.resolve(&mut tx) else {
        panic!(rt; "the additions are placed");
    };
    let Ok(_) = tx.draw_and_check() else {
        panic!(rt; "nothing has changed");
    };
    tx.publish()
}

// Expects that the additions that wait make the queue too long, and that the attempt goes on.
fn expect_full(rt: &impl Abort, tx: &mut Tx<'_, Untold>, there: u64, adding: u64)
    requires callable { MayCommit tx.old }
    requires part { 2 < length tx.old.table.opening }
{
    tx.provided_law();
    tx.vouched_law();
    let full = ResolveEnd::Full {
        part: 0,
        length: there,
        adding,
    };
    assert_eq!(rt; TWO.resolve(tx), Err(full));
    assert_eq!(rt; tx.state(), TxState::Running);
}

// Adds a value.
fn add(rt: &impl Abort, tx: &mut Tx<'_, Untold>, value: u64)
    requires callable { MayCommit tx.old }
    requires alone { (part : ℕ) → part ≢ 0 → waiting part tx.old ≡ [] }
    ensures table { tx.new.table ≡ tx.old.table }
    ensures callable { MayCommit tx.new }
    ensures draws { tx.new.pass.view.draws ≡ tx.old.pass.view.draws }
    ensures some { waiting 0 tx.new ≢ [] }
    ensures alone { (part : ℕ) → part ≢ 0 → waiting part tx.new ≡ [] }
{
    TWO.enqueue(tx, value).expect(rt, "the value is added");
}

// Expects that the queue has so many values.
fn expect_len(rt: &impl Abort, tx: &mut Tx<'_, Untold>, count: u64)
    requires callable { MayCommit tx.old }
    requires part { 2 < length tx.old.table.opening }
    requires alone { (part : ℕ) → part ≢ 0 → waiting part tx.old ≡ [] }
    ensures table { tx.new.table ≡ tx.old.table }
    ensures callable { MayCommit tx.new }
    ensures draws { tx.new.pass.view.draws ≡ tx.old.pass.view.draws }
    ensures alone { (part : ℕ) → part ≢ 0 → waiting part tx.new ≡ [] }
{
    assert_eq!(rt; TWO.len(tx), Ok(count));
}

// Takes this value, the first one, out of the queue.
fn take(rt: &impl Abort, tx: &mut Tx<'_, Untold>, value: u64)
    requires callable { MayCommit tx.old }
    requires part { 2 < length tx.old.table.opening }
    requires alone { (part : ℕ) → part ≢ 0 → waiting part tx.old ≡ [] }
    ensures table { tx.new.table ≡ tx.old.table }
    ensures callable { MayCommit tx.new }
    ensures draws { tx.new.pass.view.draws ≡ tx.old.pass.view.draws }
    ensures alone { (part : ℕ) → part ≢ 0 → waiting part tx.new ≡ [] }
{
    assert_eq!(rt; TWO.dequeue(tx), Ok(Some(value)));
}

// The head is 1, and the one item stands in the last place. Two are taken, the second of them the attempt's own, and what is
// added then comes into the first place.
#[test]
fn items_go_round_the_ring(rt: HostRuntime) -> Result<(), Fail> {
    let (table, pass) = CellTable::open(rt.alloc(), Untold, &[FROM_ONE + 1, 0, 7], 1)?;
    let Ok(mut tx) = Tx::begin(rt.alloc(), &table, pass) else {
        panic!(rt; "the attempt begins");
    };
    add(&rt, &mut tx, 8);
    expect_len(&rt, &mut tx, 2);
    take(&rt, &mut tx, 7);
    take(&rt, &mut tx, 8);
    add(&rt, &mut tx, 9);
    let mut pass = commit(&rt, tx);
    assert_eq!(rt; pass.seen(), 1);
    assert_eq!(rt; table.look_value(&mut pass, 0), 1);
    assert_eq!(rt; table.look_value(&mut pass, 1), 9);
    assert_eq!(rt; table.look_value(&mut pass, 2), 7);
    Ok(())
}

#[test]
fn an_item_is_added_behind_the_last_place(rt: HostRuntime) -> Result<(), Fail> {
    let (table, pass) = CellTable::open(rt.alloc(), Untold, &[FROM_ONE + 1, 0, 7], 1)?;
    let Ok(mut tx) = Tx::begin(rt.alloc(), &table, pass) else {
        panic!(rt; "the attempt begins");
    };
    TWO.enqueue(&mut tx, 8).expect(&rt, "a value is added");
    let mut pass = commit(&rt, tx);
    assert_eq!(rt; table.look_value(&mut pass, 0), FROM_ONE + 2);
    assert_eq!(rt; table.look_value(&mut pass, 1), 8);
    assert_eq!(rt; table.look_value(&mut pass, 2), 7);
    Ok(())
}

#[test]
fn an_attempt_takes_what_it_adds_and_then_none(rt: HostRuntime) -> Result<(), Fail> {
    let (table, pass) = CellTable::open(rt.alloc(), Untold, &[0, 0, 0], 1)?;
    let Ok(mut tx) = Tx::begin(rt.alloc(), &table, pass) else {
        panic!(rt; "the attempt begins");
    };
    TWO.enqueue(&mut tx, 5).expect(&rt, "a value is added");
    assert_eq!(rt; TWO.dequeue(&mut tx), Ok(Some(5)));
    assert_eq!(rt; TWO.dequeue(&mut tx), Ok(None));
    assert_eq!(rt; TWO.len(&mut tx), Ok(0));
    tx.abort();
    Ok(())
}

// The queue has one item of two.
#[test]
fn additions_above_the_capacity_are_refused_at_the_commit(rt: HostRuntime) -> Result<(), Fail> {
    let (table, pass) = CellTable::open(rt.alloc(), Untold, &[1, 4, 0], 1)?;
    let Ok(mut tx) = Tx::begin(rt.alloc(), &table, pass) else {
        panic!(rt; "the attempt begins");
    };
    TWO.enqueue(&mut tx, 5).expect(&rt, "a value is added");
    TWO.enqueue(&mut tx, 6).expect(&rt, "another is added");
    expect_full(&rt, &mut tx, 1, 2);
    tx.abort();
    Ok(())
}

// The value 7 is added in place of the one that was taken.
#[test]
fn a_queue_may_be_filled_to_its_capacity(rt: HostRuntime) -> Result<(), Fail> {
    let (table, pass) = CellTable::open(rt.alloc(), Untold, &[2, 5, 6], 1)?;
    let Ok(mut tx) = Tx::begin(rt.alloc(), &table, pass) else {
        panic!(rt; "the attempt begins");
    };
    take(&rt, &mut tx, 5);
    add(&rt, &mut tx, 7);
    let mut pass = commit(&rt, tx);
    assert_eq!(rt; table.look_value(&mut pass, 0), FROM_ONE + 2);
    assert_eq!(rt; table.look_value(&mut pass, 1), 7);
    assert_eq!(rt; table.look_value(&mut pass, 2), 6);
    Ok(())
}
