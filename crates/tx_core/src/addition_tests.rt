ghost use Rattle.std.specs.Prelude.{◌<◌, length};
ghost use Rattle.tx_core.specs.Calls.{MayCall};

use crate::{Stop, Tx, TxState, Untold};
use cell_table::CellTable;
use std::test::Fail;

// Tries to hold a cell. Where another caller holds it, the try leaves the attempt running, and the attempt is then stopped
// by what the try told of.
#[tactic(auto, using(crate::specs::Facts::caused_in_attempt))]
fn try_to_hold(tx: &mut Tx<'_, Untold>, cell: u32) -> Option<Stop>
    requires callable { MayCall tx.old }
    requires cell { cell < length tx.old.table.opening }
{
    match tx.try_hold(cell) {
        Err(Stop::Held { cell, owner }) => {
            if tx.state() != TxState::Running {
                return None;
            }
            let stop = Stop::Held { cell, owner };
            tx.stop_with(stop);
            Some(stop)
        }
        _ => None,
    }
}

#[test]
fn additions_are_taken_in_the_order_in_which_they_came(rt: HostRuntime) -> Result<(), Fail> {
    let (table, pass) = CellTable::open(rt.alloc(), Untold, &[0], 1)?;
    let Ok(mut tx) = Tx::begin(rt.alloc(), &table, pass) else {
        panic!(rt; "the attempt begins");
    };
    tx.later(0, 5).expect(&rt, "the first is added");
    tx.later(0, 6).expect(&rt, "the second is added");
    assert_eq!(rt; (tx.pending(0), tx.pending(1)), (2, 0));
    assert!(rt; tx.pending(0) > 1);
    assert_eq!(rt; tx.pending_at(0, 1), 6);
    assert_eq!(rt; tx.take_later(0), Some(5));
    assert_eq!(rt; tx.take_later(0), Some(6));
    assert_eq!(rt; tx.take_later(0), None);
    tx.abort();
    Ok(())
}

// Cell 0 is held by the second caller.
#[test]
fn a_look_at_a_held_cell_leaves_the_attempt_running(rt: HostRuntime) -> Result<(), Fail> {
    let (table, mut pass) = CellTable::open(rt.alloc(), Untold, &[3, 4], 2)?;
    let other = pass.split(rt.alloc(), &table, 1)?;
    let Ok(mut second) = Tx::begin(rt.alloc(), &table, other) else {
        panic!(rt; "the second attempt begins");
    };
    assert_eq!(rt; second.hold(0), Ok(3));
    let Ok(mut first) = Tx::begin(rt.alloc(), &table, pass) else {
        panic!(rt; "the first attempt begins");
    };
    let held = Stop::Held { cell: 0, owner: 1 };
    assert_eq!(rt; first.peek(1), Ok(4));
    assert_eq!(rt; first.peek(0), Err(held));
    assert_eq!(rt; try_to_hold(&mut first, 0), Some(held));
    assert_eq!(rt; first.state(), TxState::Stopped);
    first.abort();
    second.abort();
    Ok(())
}

#[test]
fn an_addition_is_placed_in_the_commit(rt: HostRuntime) -> Result<(), Fail> {
    let (table, pass) = CellTable::open(rt.alloc(), Untold, &[7], 1)?;
    let Ok(mut tx) = Tx::begin(rt.alloc(), &table, pass) else {
        panic!(rt; "the attempt begins");
    };
    tx.later(0, 9).expect(&rt, "the value is added");
    tx.lock_writes().expect(&rt, "nothing is to be locked");
    assert_eq!(rt; tx.late_hold(0), Ok(7));
    tx.write_reserved(0, 9);
    assert_eq!(rt; tx.check_now(), Ok(0));
    assert_eq!(rt; tx.draw_and_check(), Ok(1));
    tx.abort();
    Ok(())
}
