use super::*;
use std::alloc::{AllocError, Global};
use std::test::Fail;

const CELLS: u32 = 10_000;

// Each cell below `CELLS` once, in an order that jumps.
fn scattered(i: u32) -> u32 {
    (i % CELLS) * 7_919 % CELLS
}

fn observe_all(alloc: Global) -> Result<ReadSet, AllocError> {
    let mut reads = ReadSet::new(alloc);
    for i in 0..CELLS {
        let cell = scattered(i);
        if reads.get(cell).is_none() {
            reads.push(Observation {
                cell,
                value: u64::from(cell) + 5,
                version: u64::from(i),
            })?;
        }
    }
    Ok(reads)
}

#[test]
fn observations_stay_in_order_and_are_found(rt: HostRuntime) -> Result<(), Fail> {
    let mut reads = observe_all(rt.alloc())?;
    assert_eq!(rt; reads.len(), 10_000);
    assert_eq!(rt; reads.as_slice().first(), Some(&(0, 5)));
    assert_eq!(rt;
        reads.get(7_919).map(|o| (o.value, o.version)),
        Some((7_924, 1))
    );
    reads.truncate(4_000);
    assert_eq!(rt; reads.len(), 4_000);
    assert_eq!(rt; reads.get(scattered(3_999)).map(|o| o.version), Some(3_999));
    assert_eq!(rt; reads.get(scattered(4_000)), None);
    let observations = reads.into_observations();
    assert_eq!(rt; observations.len(), 4_000);
    Ok(())
}

#[test]
fn reserved_places_are_filled_without_memory(rt: HostRuntime) -> Result<(), Fail> {
    let alloc = rt.alloc();
    let mut reads = ReadSet::new(alloc);
    reads.reserve(2)?;
    let observation = Observation {
        cell: 3,
        value: 30,
        version: 1,
    };
    reads.push(observation)?;
    reads.push_reserved(Observation {
        cell: 9,
        ..observation
    });
    assert_eq!(rt; reads.as_slice(), [(3, 30), (9, 30)].as_slice());
    let mut writes = WriteSet::new(alloc);
    writes.reserve(2)?;
    writes.put(6, 1)?;
    writes.put_reserved(2, 7);
    writes.put_reserved(6, 8);
    writes.sort();
    assert_eq!(rt; writes.parent(), [(2, 7), (6, 8)].as_slice());
    Ok(())
}

#[test]
fn cleared_lists_are_as_new(rt: HostRuntime) -> Result<(), Fail> {
    let alloc = rt.alloc();
    let mut reads = observe_all(alloc)?;
    reads.clear();
    assert_eq!(rt; (reads.len(), reads.get(7_919)), (0, None));
    reads.push(Observation {
        cell: 7_919,
        value: 1,
        version: 2,
    })?;
    assert_eq!(rt;
        reads.get(7_919).map(|o| (o.value, o.version)),
        Some((1, 2))
    );
    let mut writes = write_all(alloc)?;
    writes.clear();
    assert!(rt; writes.is_empty());
    writes.put(5, 50)?;
    assert_eq!(rt; (writes.get(5), writes.get(4)), (Some(50), None));
    let mut additions = Additions::new(alloc);
    additions.later(alloc, 1, 10)?;
    additions.mark();
    additions.clear();
    additions.later(alloc, 1, 11)?;
    assert_eq!(rt; additions.take_later(1), Some(11));
    additions.back_to_mark();
    assert!(rt; additions.is_empty());
    Ok(())
}

#[test]
fn lists_are_kept_for_the_next_attempt(rt: HostRuntime) -> Result<(), Fail> {
    let alloc = rt.alloc();
    let mut lists = KeptLists::new(alloc);
    lists.writes.put(4, 1)?;
    lists.held.push(4, 0)?;
    lists.additions.later(alloc, 2, 9)?;
    lists.clear();
    assert!(rt; lists.writes.is_empty() && lists.additions.is_empty());
    assert_eq!(rt; (lists.reads.len(), lists.held.len()), (0, 0));
    lists.writes.put(3, 2)?;
    assert_eq!(rt; (lists.writes.get(3), lists.writes.get(4)), (Some(2), None));
    Ok(())
}

// A cell that left a long list has its place no more, though others came since.
#[test]
fn cells_that_left_are_not_found(rt: HostRuntime) -> Result<(), Fail> {
    let mut held = CellList::new(rt.alloc());
    held.reserve(40)?;
    for cell in 0..30 {
        if held.get(cell).is_none() {
            held.push(cell, 1)?;
        }
    }
    held.truncate(20);
    assert_eq!(rt; (held.get(19), held.get(20)), (Some(1), None));
    if held.get(29).is_none() {
        held.push(29, 2)?;
    }
    assert_eq!(rt; (held.place(29), held.get(20)), (Some(20), None));
    held.clear();
    assert_eq!(rt; (held.get(29), held.reserved()), (None, 0));
    Ok(())
}

#[test]
fn cells_come_off_the_end(rt: HostRuntime) -> Result<(), Fail> {
    let mut held = CellList::new(rt.alloc());
    held.push(8, 1)?;
    held.push(2, 0)?;
    assert_eq!(rt; held.place(2), Some(1));
    assert_eq!(rt; held.pop(), Some((2, 0)));
    assert_eq!(rt; held.get(2), None);
    assert_eq!(rt; held.get(8), Some(1));
    assert_eq!(rt; held.pop(), Some((8, 1)));
    assert_eq!(rt; held.pop(), None);
    Ok(())
}

fn write_all(alloc: Global) -> Result<WriteSet, AllocError> {
    let mut writes = WriteSet::new(alloc);
    for i in 0..CELLS {
        writes.put(scattered(i), 1)?;
    }
    for i in 0..CELLS / 2 {
        writes.put_in_child(2 * i, 2)?;
    }
    Ok(writes)
}

#[test]
fn a_child_is_merged_or_dropped(rt: HostRuntime) -> Result<(), Fail> {
    let mut writes = write_all(rt.alloc())?;
    assert_eq!(rt;
        (writes.get(4), writes.get(5), writes.get(10_000)),
        (Some(2), Some(1), None)
    );
    writes.drop_child();
    assert_eq!(rt; (writes.get(4), writes.get(5)), (Some(1), Some(1)));
    writes.put_in_child(4, 3)?;
    writes.put_in_child(10_000, 4)?;
    assert_eq!(rt; (writes.parent_len(), writes.child_len()), (10_000, 2));
    writes.merge_child();
    assert_eq!(rt; (writes.get(4), writes.get(10_000)), (Some(3), Some(4)));
    assert!(rt; !writes.is_empty());
    let written = writes.into_parent();
    assert_eq!(rt; written.len(), 10_001);
    assert!(rt; written.iter().enumerate().all(|(i, e)| e.0 as usize == i));
    Ok(())
}

// Sorted writes are found, and those that come after are sorted with them.
#[test]
fn writes_are_sorted_when_asked_for(rt: HostRuntime) -> Result<(), Fail> {
    let mut writes = write_all(rt.alloc())?;
    writes.drop_child();
    writes.sort();
    writes.put(20_000, 1)?;
    writes.put(10_500, 2)?;
    writes.put(7, 3)?;
    assert_eq!(rt;
        (
            writes.get(7),
            writes.get(10_500),
            writes.get(20_000),
            writes.get(10_001)
        ),
        (Some(3), Some(2), Some(1), None)
    );
    writes.sort();
    assert_eq!(rt; writes.get(7), Some(3));
    let written = writes.parent();
    assert_eq!(rt; written.len(), 10_002);
    assert_eq!(rt; written.get(7), Some(&(7, 3)));
    assert_eq!(rt; written.get(10_000), Some(&(10_500, 2)));
    assert_eq!(rt; written.last(), Some(&(20_000, 1)));
    Ok(())
}

#[test]
fn additions_wait_by_part(rt: HostRuntime) -> Result<(), Fail> {
    let alloc = rt.alloc();
    let mut additions = Additions::new(alloc);
    assert!(rt; additions.is_empty());
    additions.later(alloc, 1, 10)?;
    additions.later(alloc, 0, 20)?;
    additions.later(alloc, 1, 11)?;
    assert_eq!(rt;
        (
            additions.pending(0),
            additions.pending(1),
            additions.pending(2)
        ),
        (1, 2, 0)
    );
    assert!(rt; !additions.is_empty());
    additions.mark();
    assert_eq!(rt; additions.take_later(1), Some(10));
    additions.later(alloc, 1, 12)?;
    additions.later(alloc, 2, 30)?;
    assert_eq!(rt; additions.pending(1), 2);
    assert_eq!(rt;
        (
            additions.take_later(1),
            additions.take_later(1),
            additions.take_later(1)
        ),
        (Some(11), Some(12), None)
    );
    additions.back_to_mark();
    assert_eq!(rt;
        (
            additions.pending(0),
            additions.pending(1),
            additions.pending(2)
        ),
        (1, 2, 0)
    );
    if additions.pending(1) == 2 {
        assert_eq!(rt;
            (additions.pending_at(1, 0), additions.pending_at(1, 1)),
            (10, 11)
        );
    }
    Ok(())
}
