ghost use Rattle.std.specs.Prelude.{◌≡◌, ◌-◌, ◌^◌, ◌<◌, []};
ghost use Rattle.cell_table.specs.Steps.{IsIdle};
ghost use Rattle.cell_table.specs.Pass.{IsPassOf};
ghost use Rattle.tx_core.specs.Calls.{MayCommit, NothingWaits};
ghost use Rattle.tx_map.specs.Calls.{MayAsk};

use crate::{MapPart, MapStop};
use cell_table::{CellTable, Pass};
use key_directory::{BelowCapacity, Directory, EveryKey, KeyPass, KeyTest};
use std::process::Abort;
use std::test::Fail;
use tx_core::{Stop, Tx, Untold};

// Expects that the map has this value for the key, or none.
fn expect_get<K: KeyTest>(
    rt: &impl Abort,
    part: &MapPart,
    tx: &mut Tx<'_, Untold>,
    directory: &Directory<K>,
    keys: &mut KeyPass<K>,
    key: u64,
    value: Option<u64>,
)
    requires callable { MayAsk part.now tx.old directory.now keys.old }
    requires key { (key < 2 ^ 64 - 1) × K.passes part.now.capacity key }
    requires waits { NothingWaits tx.old × (0 < tx.old.pass.view.draws) }
    ensures callable { MayAsk part.now tx.new directory.now keys.new }
    ensures waits { NothingWaits tx.new × (0 < tx.new.pass.view.draws) }
    ensures going { tx.new.state ≡ tx.old.state }
    ensures same { (tx.new.table ≡ tx.old.table) × (tx.new.writes ≡ tx.old.writes) }
{
    match part.get(tx, directory, keys, key) {
        Ok(found) => assert_eq!(rt; found, value, "the value of {key}"),
        Err(_) => panic!(rt; "the key is looked up"),
    }
}

fn put<K: KeyTest>(
    rt: &impl Abort,
    part: &MapPart,
    tx: &mut Tx<'_, Untold>,
    directory: &Directory<K>,
    keys: &mut KeyPass<K>,
    key: u64,
    value: u64,
)
    requires callable { MayAsk part.now tx.old directory.now keys.old }
    requires key { (key < 2 ^ 64 - 1) × K.passes part.now.capacity key }
    requires value { value < 2 ^ 64 - 1 }
    requires waits { NothingWaits tx.old × (0 < tx.old.pass.view.draws) }
    ensures callable { MayAsk part.now tx.new directory.now keys.new }
    ensures waits { NothingWaits tx.new × (0 < tx.new.pass.view.draws) }
    ensures going { tx.new.state ≡ tx.old.state }
    ensures table { tx.new.table ≡ tx.old.table }
{
    match part.put(tx, directory, keys, key, value) {
        Ok(()) => {}
        Err(_) => panic!(rt; "the value is put"),
    }
}

fn remove<K: KeyTest>(
    rt: &impl Abort,
    part: &MapPart,
    tx: &mut Tx<'_, Untold>,
    directory: &Directory<K>,
    keys: &mut KeyPass<K>,
    key: u64,
)
    requires callable { MayAsk part.now tx.old directory.now keys.old }
    requires key { (key < 2 ^ 64 - 1) × K.passes part.now.capacity key }
    requires waits { NothingWaits tx.old × (0 < tx.old.pass.view.draws) }
    ensures callable { MayAsk part.now tx.new directory.now keys.new }
    ensures waits { NothingWaits tx.new × (0 < tx.new.pass.view.draws) }
    ensures going { tx.new.state ≡ tx.old.state }
{
    match part.remove(tx, directory, keys, key) {
        Ok(()) => {}
        Err(_) => panic!(rt; "the key is removed"),
    }
}

// Expects that the map had this value for the key, or none.
fn expect_put_if_absent<K: KeyTest>(
    rt: &impl Abort,
    part: &MapPart,
    tx: &mut Tx<'_, Untold>,
    directory: &Directory<K>,
    keys: &mut KeyPass<K>,
    key: u64,
    value: u64,
    there: Option<u64>,
)
    requires callable { MayAsk part.now tx.old directory.now keys.old }
    requires key { (key < 2 ^ 64 - 1) × K.passes part.now.capacity key }
    requires value { value < 2 ^ 64 - 1 }
    requires waits { NothingWaits tx.old × (0 < tx.old.pass.view.draws) }
    ensures callable { MayAsk part.now tx.new directory.now keys.new }
    ensures waits { NothingWaits tx.new × (0 < tx.new.pass.view.draws) }
    ensures going { tx.new.state ≡ tx.old.state }
{
    match part.put_if_absent(tx, directory, keys, key, value) {
        Ok(found) => assert_eq!(rt; found, there, "the value of {key} before"),
        Err(_) => panic!(rt; "the value is put or there"),
    }
}

// An attempt of this pass.
fn begin<'a>(
    rt: &(impl Abort + AllocGlobal),
    table: &'a CellTable<Untold>,
    pass: Pass<Untold>,
) -> Tx<'a, Untold>
    requires of { IsPassOf table.now pass }
    requires idle { IsIdle pass.view }
    ensures table { result.table ≡ table.now }
    ensures callable { MayCommit result }
    ensures fresh { result.writes ≡ [] }
    ensures waits { NothingWaits result × (0 < result.pass.view.draws) }
{
    assert!(rt; pass.draws_left() > 0, "a draw is left");
    match Tx::begin(rt.alloc(), table, pass) {
        Ok(tx) => tx,
        Err(_) => panic!(rt; "the attempt begins"),
    }
}

// Commits an attempt that writes, and expects this place.
fn commit(rt: &impl Abort, mut tx: Tx<'_, Untold>, place: u64) -> Pass<Untold>
    requires callable { MayCommit tx }
    requires waits { NothingWaits tx × (0 < tx.pass.view.draws) }
    ensures of { IsPassOf tx.entry.table result }
    ensures idle { IsIdle result.view }
{
    assert!(rt; tx.is_writing(), "a cell is written");
    tx.vouched_law();
    let Ok(()) = tx.lock_writes() else {
        panic!(rt; "the cells are locked");
    };
    let Ok(drawn) = tx.draw_and_check() else {
        panic!(rt; "the observations stand");
    };
    assert_eq!(rt; drawn, place, "the place of the commit");
    tx.publish()
}

// Expects that the commit of an attempt is refused so, after its locks were taken.
fn expect_refusal(rt: &impl Abort, mut tx: Tx<'_, Untold>, stop: Stop) -> Pass<Untold>
    requires callable { MayCommit tx }
    requires draw { 0 < tx.pass.view.draws }
    ensures of { IsPassOf tx.entry.table result }
    ensures idle { IsIdle result.view }
{
    assert!(rt; tx.is_writing(), "a cell is written");
    tx.vouched_law();
    let Ok(()) = tx.lock_writes() else {
        panic!(rt; "the cells are locked");
    };
    let checked = tx.draw_and_check();
    assert_eq!(rt; checked, Err(stop), "the refusal");
    tx.abort()
}

// Commits an attempt that writes nothing, and expects this place.
fn commit_reads(rt: &impl Abort, tx: Tx<'_, Untold>, place: u64) -> Pass<Untold>
    requires callable { MayCommit tx }
    requires waits { NothingWaits tx }
    requires no_write { tx.writes ≡ [] }
    ensures of { IsPassOf tx.entry.table result }
    ensures idle { IsIdle result.view }
{
    let pass = tx.commit_reads();
    assert_eq!(rt; pass.seen(), place, "the place of the record");
    pass
}

#[test]
fn a_key_that_was_absent_and_is_put_since_refuses_the_commit(rt: HostRuntime) -> Result<(), Fail> {
    let part = MapPart {
        base: 0,
        region: 0,
        capacity: 16,
    };
    let (table, mut first) = CellTable::open(rt.alloc(), Untold, &[0; 16], 2)?;
    let (directory, mut keys) = Directory::<EveryKey>::open(rt.alloc(), &[16], 2)?;
    let second = first.split(rt.alloc(), &table, 1)?;
    let mut second_keys = keys.split(rt.alloc(), &directory, 1)?;
    let mut tx = begin(&rt, &table, first);
    expect_get(&rt, &part, &mut tx, &directory, &mut keys, 7, None);
    let mut other = begin(&rt, &table, second);
    put(&rt, &part, &mut other, &directory, &mut second_keys, 7, 70);
    commit(&rt, other, 1);
    put(&rt, &part, &mut tx, &directory, &mut keys, 8, 80);
    let first = expect_refusal(&rt, tx, Stop::Newer { cell: 7, found: 1 });
    let mut tx = begin(&rt, &table, first);
    expect_get(&rt, &part, &mut tx, &directory, &mut keys, 7, Some(70));
    put(&rt, &part, &mut tx, &directory, &mut keys, 8, 80);
    commit(&rt, tx, 3);
    Ok(())
}

#[test]
fn two_callers_put_two_keys_and_see_both(rt: HostRuntime) -> Result<(), Fail> {
    let part = MapPart {
        base: 0,
        region: 0,
        capacity: 16,
    };
    let (table, mut first) = CellTable::open(rt.alloc(), Untold, &[0; 16], 2)?;
    let (directory, mut keys) = Directory::<EveryKey>::open(rt.alloc(), &[16], 2)?;
    let second = first.split(rt.alloc(), &table, 1)?;
    let mut second_keys = keys.split(rt.alloc(), &directory, 1)?;
    let mut tx = begin(&rt, &table, first);
    put(&rt, &part, &mut tx, &directory, &mut keys, 7, 70);
    let mut other = begin(&rt, &table, second);
    put(&rt, &part, &mut other, &directory, &mut second_keys, 8, 80);
    let first = commit(&rt, tx, 1);
    let second = commit(&rt, other, 2);
    let mut tx = begin(&rt, &table, first);
    expect_get(&rt, &part, &mut tx, &directory, &mut keys, 8, Some(80));
    let mut other = begin(&rt, &table, second);
    expect_get(
        &rt,
        &part,
        &mut other,
        &directory,
        &mut second_keys,
        7,
        Some(70),
    );
    commit_reads(&rt, tx, 2);
    commit_reads(&rt, other, 2);
    Ok(())
}

#[test]
fn an_attempt_sees_its_own_calls(rt: HostRuntime) -> Result<(), Fail> {
    let part = MapPart {
        base: 1,
        region: 0,
        capacity: 2,
    };
    let (table, pass) = CellTable::open(rt.alloc(), Untold, &[7, 0, 0, 7], 1)?;
    let (directory, mut keys) = Directory::<EveryKey>::open(rt.alloc(), &[2], 1)?;
    let mut tx = begin(&rt, &table, pass);
    expect_get(&rt, &part, &mut tx, &directory, &mut keys, 5, None);
    expect_put_if_absent(&rt, &part, &mut tx, &directory, &mut keys, 3, 30, None);
    expect_put_if_absent(&rt, &part, &mut tx, &directory, &mut keys, 3, 31, Some(30));
    put(&rt, &part, &mut tx, &directory, &mut keys, 5, 0);
    expect_get(&rt, &part, &mut tx, &directory, &mut keys, 5, Some(0));
    remove(&rt, &part, &mut tx, &directory, &mut keys, 3);
    expect_get(&rt, &part, &mut tx, &directory, &mut keys, 3, None);
    let full = part.put(&mut tx, &directory, &mut keys, 4, 40);
    assert_eq!(rt; full, Err(MapStop::KeysFull { capacity: 2 }));
    tx.abort();
    Ok(())
}

#[test]
fn a_map_without_cells_has_no_keys(rt: HostRuntime) -> Result<(), Fail> {
    let part = MapPart {
        base: 1,
        region: 1,
        capacity: 0,
    };
    let (table, pass) = CellTable::open(rt.alloc(), Untold, &[0], 1)?;
    let (directory, mut keys) = Directory::<EveryKey>::open(rt.alloc(), &[4, 0], 1)?;
    let mut tx = begin(&rt, &table, pass);
    let full = part.get(&mut tx, &directory, &mut keys, 7);
    assert_eq!(rt; full, Err(MapStop::KeysFull { capacity: 0 }));
    tx.abort();
    Ok(())
}

#[test]
fn keys_below_the_capacity_have_their_own_cells(rt: HostRuntime) -> Result<(), Fail> {
    let part = MapPart {
        base: 1,
        region: 0,
        capacity: 3,
    };
    let (table, pass) = CellTable::open(rt.alloc(), Untold, &[0, 0, 0, 9], 1)?;
    let (directory, mut keys) = Directory::<BelowCapacity>::open(rt.alloc(), &[3], 1)?;
    let mut tx = begin(&rt, &table, pass);
    expect_get(&rt, &part, &mut tx, &directory, &mut keys, 2, Some(8));
    expect_get(&rt, &part, &mut tx, &directory, &mut keys, 0, None);
    tx.abort();
    Ok(())
}
