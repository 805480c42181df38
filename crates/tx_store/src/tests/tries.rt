//! How whole transactions end that are tried again, or not.
ghost use Rattle.std.specs.Prelude.{◌<◌, length, IsTrue, IfOk};
ghost use Rattle.cell_table.specs.Steps.{IsIdle};
ghost use Rattle.tx_store.specs.Stores.{IsPassOfStore};

use super::bodies::{AddFive, Place, PutThird, RunOut};
use super::script::Answer::Done;
use super::script::Ask::*;
use super::seats::alone;
use super::stores::{NONE, Parts, closed, joined, only, opened};
use super::wrote;
use crate::{Anything, Body, RunEnd, Store, StorePass, StoreTx, atomically};
use serial_terms::StoreState;
use std::alloc::{AllocError, Global};
use std::test::Fail;
use tx_core::Stop;

const MAP_AND_LOG: Parts = Parts {
    map: 16,
    log: 4,
    ..NONE
};

/// A pass after a whole transaction, and what that answered.
type Ended<A> = (StorePass<Anything>, Result<A, RunEnd>);

/// How two transactions of the first caller ended, one beside an attempt of the second and one after it.
#[derive(Drop)]
struct Beside {
    /// The place that the second's attempt had in the log.
    held: Result<u64, Stop>,
    refused: Result<u64, RunEnd>,
    placed: Result<u64, RunEnd>,
    runs: u32,
    state: StoreState,
}

#[test]
fn a_transaction_is_spent_by_its_tries_while_another_holds_the_log(
    rt: HostRuntime,
) -> Result<(), Fail> {
    let beside = beside_another(rt.alloc())?;
    assert_eq!(rt; beside.held, Ok(0));
    assert_eq!(rt;
        beside.refused,
        Err(RunEnd::Spent {
            tries: 2,
            last: Stop::Held { cell: 16, owner: 1 },
        })
    );
    assert_eq!(rt; beside.placed, Ok(0));
    assert_eq!(rt; beside.runs, 3);
    assert_eq!(rt; only(&beside.state.logs), [1].as_slice());
    Ok(())
}

#[test]
fn a_log_without_room_ends_a_transaction_at_its_first_attempt(rt: HostRuntime) -> Result<(), Fail> {
    let alloc = rt.alloc();
    let (store, pass) = opened(alloc, MAP_AND_LOG, 1)?;
    if !has_log(&store) {
        return Err(AllocError.into());
    }
    let mut body = AddFive { runs: 0 };
    let (pass, end) = ended(alloc, &store, pass, &mut body, 3)?;
    let full = RunEnd::Full {
        part: 0,
        length: 0,
        adding: 5,
    };
    assert_eq!(rt; end, Err(full));
    assert_eq!(rt; body.runs, 1);
    let state = closed(alloc, store, pass)?;
    assert_eq!(rt; only(&state.logs), [].as_slice());
    Ok(())
}

#[test]
fn a_map_without_a_position_left_ends_a_transaction_at_its_first_attempt(
    rt: HostRuntime,
) -> Result<(), Fail> {
    let lines = [
        (Begin, Done),
        (MapPut { key: 1, value: 10 }, Done),
        (MapPut { key: 2, value: 20 }, Done),
        (Commit, wrote(1)),
    ];
    let alloc = rt.alloc();
    let (store, pass) = opened(alloc, Parts { map: 2, ..NONE }, 1)?;
    if !has_map(&store) {
        return Err(AllocError.into());
    }
    let (pass, wrong) = alone(alloc, &store, pass, &lines);
    assert_eq!(rt; wrong, None);
    let mut body = PutThird { runs: 0 };
    let (_, end) = ended(alloc, &store, pass, &mut body, 3)?;
    let full = RunEnd::KeysFull {
        map: 0,
        capacity: 2,
    };
    assert_eq!(rt; end, Err(full));
    assert_eq!(rt; body.runs, 1);
    Ok(())
}

#[test]
fn want_of_memory_of_a_body_ends_a_transaction_at_its_first_attempt(
    rt: HostRuntime,
) -> Result<(), Fail> {
    let alloc = rt.alloc();
    let (store, pass) = opened(alloc, MAP_AND_LOG, 1)?;
    let mut body = RunOut { runs: 0 };
    let (_, end) = ended(alloc, &store, pass, &mut body, 3)?;
    assert_eq!(rt; end, Err(RunEnd::Memory));
    assert_eq!(rt; body.runs, 1);
    Ok(())
}

// The first caller's transactions beside an attempt of the second that holds the end of the log, and after its abort.
fn beside_another(alloc: Global) -> Result<Beside, AllocError> {
    let (store, mut first) = opened(alloc, MAP_AND_LOG, 2)?;
    if !has_log(&store) || first.callers_held() < 2 {
        return Err(AllocError);
    }
    let second = first.split(alloc, &store, 1)?;
    if second.draws_left() == 0 {
        return Err(AllocError);
    }
    let mut body = Place { runs: 0 };
    let Ok(mut holder) = StoreTx::begin(alloc, &store, second) else {
        return Err(AllocError);
    };
    let held = holder.log_append_placed(0, 90);
    let beside = ended(alloc, &store, first, &mut body, 2);
    let second = holder.abort();
    let (first, refused) = beside?;
    let (first, placed) = ended(alloc, &store, first, &mut body, 2)?;
    let pass = joined(&store, first, second)?;
    let state = closed(alloc, store, pass)?;
    Ok(Beside {
        held,
        refused,
        placed,
        runs: body.runs,
        state,
    })
}

// A whole transaction of so many tries.
fn ended<B: Body<Anything>>(
    alloc: Global,
    store: &Store<Anything>,
    pass: StorePass<Anything>,
    body: &mut B,
    tries: u32,
) -> Result<Ended<B::Out>, AllocError>
    requires pass { IsPassOfStore store.now pass × IsIdle pass.pass.view }
    requires tries { 0 < tries }
    requires can_run { B.can_run body.old store.now }
    ensures pass { IfOk result (λ e. IsPassOfStore store.now e.0 × IsIdle e.0.pass.view) }
    ensures again { B.can_run body.new store.now }
{
    if pass.draws_left() < u64::from(tries) {
        return Err(AllocError);
    }
    match atomically(alloc, store, pass, body, tries) {
        Ok((pass, out)) => Ok((pass, Ok(out))),
        Err((pass, end)) => Ok((pass, Err(end))),
    }
}

fn has_log(store: &Store<Anything>) -> bool
    ensures { IsTrue result → 0 < length store.now.table.meaning.plan.logs }
{
    !store.plan().log_places().is_empty()
}

fn has_map(store: &Store<Anything>) -> bool
    ensures { IsTrue result → 0 < length store.now.table.meaning.plan.maps }
{
    !store.plan().map_places().is_empty()
}
