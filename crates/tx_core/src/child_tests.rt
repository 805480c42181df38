ghost use Rattle.std.specs.Prelude.{◌≡◌, ◌<◌, true, false, length, is_some, OnOk};
ghost use Rattle.tx_core.specs.Calls.{MayCall};
ghost use Rattle.tx_core.specs.Children.{is_child};
ghost use Rattle.tx_core.specs.declared.stop.TxState.TheVariants.{Child};

use crate::tests::{commit, commit_beside, three_cells};
use crate::{Stop, Tx, TxState, Untold};
use cell_table::CellTable;
use std::process::Abort;
use std::test::Fail;

// What a child does: it writes over its parent's write, holds cell 2, takes its parent's addition and adds another.
fn act_as_child(rt: &impl Abort, tx: &mut Tx<'_, Untold>)
    requires child { tx.old.state ≡ Child }
    requires before_commit { tx.old.committing ≡ false }
    requires cells { 2 < length tx.old.table.opening }
    ensures child { is_child tx.new.state ≡ true }
    ensures same { (tx.new.table ≡ tx.old.table) × (tx.new.committing ≡ false) × (tx.new.mark ≡ tx.old.mark) }
{
    assert_eq!(rt; tx.read(1), Ok(21));
    tx.write(1, 22).expect(rt, "the child writes over it");
    assert_eq!(rt; tx.read(1), Ok(22));
    assert_eq!(rt; tx.hold(2), Ok(30));
    assert_eq!(rt; tx.take_later(0), Some(5));
    tx.later(0, 6).expect(rt, "the child adds a value");
}

// Cell 0 stops the open child.
fn is_stopped_at_0(rt: &impl Abort, tx: &mut Tx<'_, Untold>, stop: Stop)
    requires callable { MayCall tx.old }
    requires cell { 0 < length tx.old.table.opening }
    ensures child { is_child tx.new.state ≡ true }
    ensures same { (tx.new.table ≡ tx.old.table) × (tx.new.committing ≡ false) × (tx.new.mark ≡ tx.old.mark) }
{
    assert_eq!(rt; tx.read(0), Err(stop));
    assert_eq!(rt; tx.state(), TxState::ChildStopped);
}

// Drops the open child, and raises the version of its parent.
fn drop_and_raise(tx: &mut Tx<'_, Untold>) -> Result<(), Stop>
    requires child { is_child tx.old.state ≡ true }
    requires marked { is_some tx.old.mark ≡ true }
    requires before_commit { tx.old.committing ≡ false }
    ensures callable { OnOk result (MayCall tx.new) }
    ensures table { tx.new.table ≡ tx.old.table }
{
    tx.back_to_mark();
    tx.raise()
}

// The second caller sees that cell 2 is held while the child is open, and free when it was dropped. The addition that the
// child consumed waits again.
#[test]
fn a_dropped_child_leaves_its_parent_as_it_was(rt: HostRuntime) -> Result<(), Fail> {
    let (table, mut pass) = CellTable::open(rt.alloc(), Untold, &[10, 20, 30], 2)?;
    let mut other = pass.split(rt.alloc(), &table, 1)?;
    let Ok(mut tx) = Tx::begin(rt.alloc(), &table, pass) else {
        panic!(rt; "the attempt begins");
    };
    tx.write(1, 21).expect(&rt, "cell 1 is written");
    tx.later(0, 5).expect(&rt, "a value is added");
    tx.mark();
    assert_eq!(rt; tx.state(), TxState::Child);
    act_as_child(&rt, &mut tx);
    assert_eq!(rt; table.look_lock(&mut other, 2), 1);
    tx.back_to_mark();
    assert_eq!(rt; tx.state(), TxState::Running);
    assert_eq!(rt; table.look_lock(&mut other, 2), 0);
    assert_eq!(rt; tx.read(1), Ok(21));
    assert_eq!(rt; tx.pending(0), 1);
    assert_eq!(rt; tx.take_later(0), Some(5));
    tx.abort();
    Ok(())
}

#[test]
fn a_merged_child_commits_with_its_parent(rt: HostRuntime) -> Result<(), Fail> {
    let (table, pass) = CellTable::open(rt.alloc(), Untold, &[10, 20, 30], 1)?;
    let Ok(mut tx) = Tx::begin(rt.alloc(), &table, pass) else {
        panic!(rt; "the attempt begins");
    };
    tx.write(0, 11).expect(&rt, "cell 0 is written");
    tx.mark();
    tx.write(0, 12).expect(&rt, "the child writes over it");
    tx.write(1, 21).expect(&rt, "the child writes cell 1");
    tx.unmark();
    let Ok((place, pass)) = commit(tx) else {
        panic!(rt; "the attempt commits");
    };
    assert_eq!(rt; place, 1);
    assert_eq!(rt;
        three_cells(&table.close(pass)),
        ((12, 1), (21, 1), (30, 0))
    );
    Ok(())
}

// The second caller commits 5 to cell 0 while the child is open, which meets it there. The parent has read cell 1 alone.
#[test]
fn a_child_is_tried_again_at_a_raised_version(rt: HostRuntime) -> Result<(), Fail> {
    let (table, mut first) = CellTable::open(rt.alloc(), Untold, &[3, 4], 2)?;
    let second = first.split(rt.alloc(), &table, 1)?;
    let Ok(mut a) = Tx::begin(rt.alloc(), &table, first) else {
        panic!(rt; "the first attempt begins");
    };
    assert_eq!(rt; a.read(1), Ok(4));
    a.mark();
    commit_beside(&rt, &table, second, 0, 5, 1);
    is_stopped_at_0(&rt, &mut a, Stop::Newer { cell: 0, found: 1 });
    let Ok(()) = drop_and_raise(&mut a) else {
        panic!(rt; "what the parent read still stands");
    };
    assert_eq!(rt; a.version(), 1);
    assert_eq!(rt; a.read(0), Ok(5));
    a.abort();
    Ok(())
}

// The second caller commits 5 to cell 1, which the parent has read, while the child is open.
#[test]
fn a_changed_observation_refuses_the_raised_version(rt: HostRuntime) -> Result<(), Fail> {
    let (table, mut first) = CellTable::open(rt.alloc(), Untold, &[0, 0], 2)?;
    let second = first.split(rt.alloc(), &table, 1)?;
    let Ok(mut a) = Tx::begin(rt.alloc(), &table, first) else {
        panic!(rt; "the first attempt begins");
    };
    assert_eq!(rt; a.read(1), Ok(0));
    a.mark();
    a.write(0, 20).expect(&rt, "the child writes");
    commit_beside(&rt, &table, second, 1, 5, 1);
    a.back_to_mark();
    assert_eq!(rt; a.raise(), Err(Stop::Newer { cell: 1, found: 1 }));
    assert_eq!(rt; a.state(), TxState::Stopped);
    assert_eq!(rt; a.version(), 0);
    a.abort();
    Ok(())
}
