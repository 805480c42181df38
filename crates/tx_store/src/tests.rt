//! What callers of small stores do in turn, and what they are answered.
mod bodies;
mod calls;
mod script;
mod seats;
mod stores;
mod tries;

use crate::{CommitEnd, OpenEnd, Receipt};
use script::Answer::{self, Committed, Done, Flag, Found, KeysFull, Number, Refused, Stopped};
use script::Ask::*;
use script::Who::{First, Second};
use std::test::Fail;
use stores::{NONE, Parts, alone_on, in_turn_on, only, open_end};
use tx_core::Stop;

// A record that wrote.
const fn wrote(place: u64) -> Answer {
    Committed(Receipt {
        place,
        writer: true,
    })
}

// A record that only read.
const fn read(place: u64) -> Answer {
    Committed(Receipt {
        place,
        writer: false,
    })
}

#[test]
fn a_writer_that_read_too_early_is_refused_and_the_version_it_drew_stays_unused(
    rt: HostRuntime,
) -> Result<(), Fail> {
    let lines = [
        (First, Begin, Done),
        (First, MapGet { key: 7 }, Found(None)),
        (Second, Begin, Done),
        (Second, MapPut { key: 7, value: 70 }, Done),
        (Second, Commit, wrote(1)),
        (First, MapPut { key: 8, value: 80 }, Done),
        (
            First,
            Commit,
            Refused(CommitEnd::Newer { cell: 7, found: 1 }),
        ),
        (First, Begin, Done),
        (First, MapGet { key: 7 }, Found(Some(70))),
        (First, MapPut { key: 8, value: 80 }, Done),
        (First, Commit, wrote(3)),
    ];
    let played = in_turn_on(rt.alloc(), Parts { map: 16, ..NONE }, &lines)?;
    assert_eq!(rt; played.wrong, None);
    Ok(())
}

#[test]
fn callers_that_put_apart_both_commit_and_readers_share_a_place(
    rt: HostRuntime,
) -> Result<(), Fail> {
    let lines = [
        (First, Begin, Done),
        (Second, Begin, Done),
        (First, MapPut { key: 7, value: 70 }, Done),
        (Second, MapPut { key: 8, value: 80 }, Done),
        (First, Commit, wrote(1)),
        (Second, Commit, wrote(2)),
        (First, Begin, Done),
        (Second, Begin, Done),
        (First, MapGet { key: 8 }, Found(Some(80))),
        (Second, MapGet { key: 7 }, Found(Some(70))),
        (First, Commit, read(2)),
        (Second, Commit, read(2)),
    ];
    let played = in_turn_on(rt.alloc(), Parts { map: 16, ..NONE }, &lines)?;
    assert_eq!(rt; played.wrong, None);
    Ok(())
}

#[test]
fn an_item_that_one_caller_holds_is_refused_to_another_until_it_is_given_back(
    rt: HostRuntime,
) -> Result<(), Fail> {
    let lines = [
        (First, Begin, Done),
        (Second, Begin, Done),
        (First, Take { from: 0 }, Found(Some(9))),
        (
            Second,
            Take { from: 0 },
            Stopped(Stop::Held { cell: 0, owner: 0 }),
        ),
        (Second, Abort, Done),
        (First, Abort, Done),
        (Second, Begin, Done),
        (Second, Take { from: 0 }, Found(Some(9))),
        (Second, Commit, wrote(1)),
    ];
    let played = in_turn_on(rt.alloc(), Parts { pool: 1, ..NONE }, &lines)?;
    assert_eq!(rt; played.wrong, None);
    assert_eq!(rt; only(&played.state.pools), [].as_slice());
    Ok(())
}

#[test]
fn a_read_of_an_entry_that_another_caller_appends_is_too_old_for_a_writer(
    rt: HostRuntime,
) -> Result<(), Fail> {
    let lines = [
        (First, Begin, Done),
        (First, LogRead { at: 0 }, Found(None)),
        (Second, Begin, Done),
        (Second, Append { value: 5 }, Done),
        (Second, Commit, wrote(1)),
        (First, MapPut { key: 1, value: 1 }, Done),
        // The entry was looked at before the end of the log, which is cell 16.
        (
            First,
            Commit,
            Refused(CommitEnd::Newer { cell: 17, found: 1 }),
        ),
    ];
    let played = in_turn_on(
        rt.alloc(),
        Parts {
            map: 16,
            log: 4,
            ..NONE
        },
        &lines,
    )?;
    assert_eq!(rt; played.wrong, None);
    assert_eq!(rt; only(&played.state.logs), [5].as_slice());
    Ok(())
}

#[test]
fn values_appended_by_two_callers_stand_in_the_order_of_the_commits(
    rt: HostRuntime,
) -> Result<(), Fail> {
    let lines = [
        (First, Begin, Done),
        (Second, Begin, Done),
        (First, Append { value: 10 }, Done),
        (Second, Append { value: 20 }, Done),
        (Second, Commit, wrote(1)),
        (First, Commit, wrote(2)),
    ];
    let played = in_turn_on(
        rt.alloc(),
        Parts {
            map: 16,
            log: 4,
            ..NONE
        },
        &lines,
    )?;
    assert_eq!(rt; played.wrong, None);
    assert_eq!(rt; only(&played.state.logs), [20, 10].as_slice());
    Ok(())
}

#[test]
fn a_queue_takes_as_many_values_as_it_has_room_for(rt: HostRuntime) -> Result<(), Fail> {
    let lines = [
        (Begin, Done),
        (Enqueue { value: 5 }, Done),
        (Dequeue, Found(Some(5))),
        // What it added it took out again, so that it wrote nothing.
        (Commit, read(0)),
        (Begin, Done),
        (Enqueue { value: 1 }, Done),
        (Enqueue { value: 2 }, Done),
        (Enqueue { value: 3 }, Done),
        (
            Commit,
            Refused(CommitEnd::Full {
                part: 0,
                length: 0,
                adding: 3,
            }),
        ),
        (Begin, Done),
        (Enqueue { value: 1 }, Done),
        (Enqueue { value: 2 }, Done),
        (Commit, wrote(1)),
        (Begin, Done),
        (Enqueue { value: 3 }, Done),
        (
            Commit,
            Refused(CommitEnd::Full {
                part: 0,
                length: 2,
                adding: 1,
            }),
        ),
    ];
    let played = alone_on(rt.alloc(), Parts { queue: 2, ..NONE }, &lines)?;
    assert_eq!(rt; played.wrong, None);
    assert_eq!(rt; only(&played.state.queues), [1, 2].as_slice());
    Ok(())
}

#[test]
fn a_queue_goes_on_in_the_cells_that_were_taken_out(rt: HostRuntime) -> Result<(), Fail> {
    let lines = [
        (Begin, Done),
        (Enqueue { value: 1 }, Done),
        (Enqueue { value: 2 }, Done),
        (Commit, wrote(1)),
        (Begin, Done),
        (Dequeue, Found(Some(1))),
        (Enqueue { value: 3 }, Done),
        (QueueLen, Number(2)),
        (Commit, wrote(2)),
        (Begin, Done),
        (Dequeue, Found(Some(2))),
        (Dequeue, Found(Some(3))),
        (Dequeue, Found(None)),
        (Enqueue { value: 4 }, Done),
        (Enqueue { value: 5 }, Done),
        (Commit, wrote(3)),
        (Begin, Done),
        (Dequeue, Found(Some(4))),
        (Enqueue { value: 6 }, Done),
        (Commit, wrote(4)),
    ];
    let played = alone_on(rt.alloc(), Parts { queue: 2, ..NONE }, &lines)?;
    assert_eq!(rt; played.wrong, None);
    assert_eq!(rt; only(&played.state.queues), [5, 6].as_slice());
    Ok(())
}

#[test]
fn a_key_without_a_position_left_is_refused_and_the_attempt_goes_on(
    rt: HostRuntime,
) -> Result<(), Fail> {
    let lines = [
        (Begin, Done),
        (MapPut { key: 1, value: 10 }, Done),
        (MapPut { key: 2, value: 20 }, Done),
        (MapPut { key: 3, value: 30 }, KeysFull { capacity: 2 }),
        (Commit, wrote(1)),
    ];
    let played = alone_on(rt.alloc(), Parts { map: 2, ..NONE }, &lines)?;
    assert_eq!(rt; played.wrong, None);
    assert_eq!(rt; played.keys(), [(1, 10), (2, 20)].as_slice());
    Ok(())
}

#[test]
fn one_attempt_on_every_kind_of_structure_sees_its_own_calls(rt: HostRuntime) -> Result<(), Fail> {
    let parts = Parts {
        map: 4,
        queue: 2,
        pool: 2,
        log: 3,
        cells: 1,
    };
    let lines = [
        (Begin, Done),
        (MapPutIfAbsent { key: 5, value: 50 }, Found(None)),
        (MapPutIfAbsent { key: 5, value: 51 }, Found(Some(50))),
        (MapRemove { key: 5 }, Done),
        (MapGet { key: 5 }, Found(None)),
        (Enqueue { value: 7 }, Done),
        (QueueLen, Number(1)),
        (Take { from: 0 }, Found(Some(9))),
        (Give { value: 8, from: 1 }, Flag(true)),
        (Give { value: 6, from: 0 }, Flag(true)),
        (Give { value: 4, from: 0 }, Flag(false)),
        (Append { value: 3 }, Done),
        (AppendPlaced { value: 4 }, Number(1)),
        (LogLen, Number(2)),
        (LogRead { at: 0 }, Found(Some(3))),
        (LogRead { at: 2 }, Found(None)),
        (CellPut { value: 77 }, Done),
        (CellGet, Number(77)),
        (Commit, wrote(1)),
    ];
    let played = alone_on(rt.alloc(), parts, &lines)?;
    assert_eq!(rt; played.wrong, None);
    let state = &played.state;
    assert_eq!(rt; played.keys(), [].as_slice());
    assert_eq!(rt; only(&state.queues), [7].as_slice());
    assert_eq!(rt; only(&state.pools), [6, 8].as_slice());
    assert_eq!(rt; only(&state.logs), [3, 4].as_slice());
    assert_eq!(rt; state.cells.as_slice(), [77].as_slice());
    Ok(())
}

#[test]
fn a_store_of_more_cells_than_there_may_be_is_refused(rt: HostRuntime) -> Result<(), Fail> {
    let end = open_end(
        rt.alloc(),
        Parts {
            cells: 16_777_217,
            ..NONE
        },
    )?;
    assert_eq!(rt; end, Some(OpenEnd::TooLarge { cells: 16_777_217 }));
    Ok(())
}
