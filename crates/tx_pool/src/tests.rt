ghost use Rattle.std.specs.Prelude.{◌≡◌, ◌-◌, ◌^◌, ◌<◌, length};
ghost use Rattle.cell_table.specs.Steps.{IsIdle};
ghost use Rattle.cell_table.specs.Pass.{IsPassOf};
ghost use Rattle.tx_core.specs.Calls.{MayCommit, NothingWaits, Stays};
ghost use Rattle.tx_pool.specs.Pool.{IsPoolOf};

use crate::PoolPart;
use cell_table::{CellTable, Pass};
use std::process::Abort;
use std::test::Fail;
use tx_core::{Stop, Tx, Untold};

// Expects that this item is taken, or none.
fn expect_take(
    rt: &impl Abort,
    part: &PoolPart,
    tx: &mut Tx<'_, Untold>,
    from: u32,
    item: Option<u64>,
)
    requires callable { MayCommit tx.old }
    requires part { IsPoolOf part.now tx.old.table.opening }
    ensures callable { MayCommit tx.new }
    ensures stays { Stays tx.old tx.new }
    ensures draws { tx.new.pass.view.draws ≡ tx.old.pass.view.draws }
{
    let taken = part.take(tx, from).expect(rt, "no slot stops the attempt");
    assert_eq!(rt; taken, item, "the item that is taken from {from} on");
}

// Expects that the item is put in, or that there is no room.
fn expect_put(rt: &impl Abort, part: &PoolPart, tx: &mut Tx<'_, Untold>, value: u64, room: bool)
    requires callable { MayCommit tx.old }
    requires part { IsPoolOf part.now tx.old.table.opening }
    requires value { value < 2 ^ 64 - 1 }
    ensures callable { MayCommit tx.new }
    ensures stays { Stays tx.old tx.new }
{
    let done = part
        .put(tx, value, 0)
        .expect(rt, "no slot stops the attempt");
    assert_eq!(rt; done, room, "room for {value}");
}

// Expects that this caller holds the pool's first slot, and ends the attempt.
fn expect_held(rt: &impl Abort, part: &PoolPart, mut tx: Tx<'_, Untold>, owner: u32) -> Pass<Untold>
    requires callable { MayCommit tx }
    requires part { IsPoolOf part.now tx.table.opening }
    requires draws { 0 < tx.pass.view.draws }
    ensures of { IsPassOf tx.entry.table result }
    ensures idle { IsIdle result.view }
    ensures draws { 0 < result.view.draws }
{
    let Err(stop) = part.take(&mut tx, 0) else {
        panic!(rt; "the slot is held");
    };
    assert_eq!(rt; stop, Stop::Held { cell: 0, owner });
    tx.abort()
}

// Commits an attempt that writes, and expects this place.
fn expect_commit(rt: &impl Abort, mut tx: Tx<'_, Untold>, place: u64) -> Pass<Untold>
    requires callable { MayCommit tx }
    requires nothing { NothingWaits tx }
    requires draws { 0 < tx.pass.view.draws }
    requires writes { 0 < length tx.writes }
{
    tx.vouched_law();
    let Ok(()) = tx.lock_writes() else {
        panic!(rt; "the written cells are locked");
    };
    let Ok(drawn) = tx.draw_and_check() else {
        panic!(rt; "what was observed still is so");
    };
    assert_eq!(rt; drawn, place, "the place of the commit");
    tx.publish()
}

#[test]
fn an_attempt_fills_the_slot_that_it_emptied(rt: HostRuntime) -> Result<(), Fail> {
    let part = PoolPart { base: 0, slots: 3 };
    let (table, mut pass) = CellTable::open(rt.alloc(), Untold, &[10, 0, 0], 2)?;
    let other = pass.split(rt.alloc(), &table, 1)?;
    let Ok(mut tx) = Tx::begin(rt.alloc(), &table, pass) else {
        panic!(rt; "the attempt begins");
    };
    let Ok(mut watch) = Tx::begin(rt.alloc(), &table, other) else {
        panic!(rt; "the other attempt begins");
    };
    expect_take(&rt, &part, &mut tx, 2, Some(9));
    assert_eq!(rt; watch.peek(0), Err(Stop::Held { cell: 0, owner: 0 }));
    assert_eq!(rt; watch.peek(1), Ok(0));
    assert_eq!(rt; watch.peek(2), Ok(0));
    watch.abort();
    expect_put(&rt, &part, &mut tx, 8, true);
    expect_put(&rt, &part, &mut tx, 7, true);
    expect_put(&rt, &part, &mut tx, 6, true);
    expect_put(&rt, &part, &mut tx, 5, false);
    expect_take(&rt, &part, &mut tx, 1, Some(7));
    tx.abort();
    Ok(())
}

#[test]
fn a_held_slot_stops_a_take_until_it_is_given_back(rt: HostRuntime) -> Result<(), Fail> {
    let part = PoolPart { base: 0, slots: 1 };
    let (table, mut pass) = CellTable::open(rt.alloc(), Untold, &[10], 2)?;
    let other = pass.split(rt.alloc(), &table, 1)?;
    let Ok(mut first) = Tx::begin(rt.alloc(), &table, pass) else {
        panic!(rt; "the first attempt begins");
    };
    let Ok(mut second) = Tx::begin(rt.alloc(), &table, other) else {
        panic!(rt; "the second attempt begins");
    };
    expect_take(&rt, &part, &mut first, 0, Some(9));
    let back = expect_held(&rt, &part, second, 0);
    first.abort();
    let Ok(mut again) = Tx::begin(rt.alloc(), &table, back) else {
        panic!(rt; "the second attempt begins again");
    };
    expect_take(&rt, &part, &mut again, 0, Some(9));
    assert!(rt; again.is_writing(), "the slot is emptied");
    expect_commit(&rt, again, 1);
    Ok(())
}
