use crate::{Format, Sizes, journal_text};
use serial_terms::{Call, Done, PlainList, Record, Reply, Sight, SightEnd};
use std::alloc::{AllocError, Global};
use std::test::Fail;

const LONE_TASK: Sizes = Sizes {
    tasks: 1,
    groups: 0,
    findings: 65_536,
};

const NO_TASK: Sizes = Sizes {
    tasks: 0,
    groups: 0,
    findings: 1,
};

fn outside(call: Call, reply: Reply) -> Done {
    Done {
        call,
        reply,
        child: false,
    }
}

fn in_child(call: Call, reply: Reply) -> Done {
    Done {
        call,
        reply,
        child: true,
    }
}

// A record of this caller and index, with the place and whether it is a writer's.
fn committed(
    alloc: Global,
    by: (u32, u64),
    at: (u64, bool),
    dones: &[Done],
) -> Result<Record, AllocError> {
    Ok(Record {
        caller: by.0,
        index: by.1,
        place: at.0,
        writer: at.1,
        dones: PlainList::from_vec(dones.to_vec(alloc)?),
    })
}

fn sight(
    alloc: Global,
    by: (u32, u64),
    end: SightEnd,
    dones: &[Done],
) -> Result<Sight, AllocError> {
    Ok(Sight {
        caller: by.0,
        after: by.1,
        place: 4,
        end,
        dones: PlainList::from_vec(dones.to_vec(alloc)?),
    })
}

#[test]
fn the_journal_of_one_whole_frame_is_as_worked_by_hand(rt: HostRuntime) -> Result<(), Fail> {
    let alloc = rt.alloc();
    let idle = outside(Call::Dequeue { queue: 0 }, Reply::Absent);
    let empty = outside(Call::Take { pool: 0 }, Reply::Absent);
    let taken = outside(Call::Take { pool: 0 }, Reply::Value(0));
    let queued = in_child(Call::Enqueue { queue: 0, value: 0 }, Reply::Nothing);
    let found = outside(Call::Dequeue { queue: 0 }, Reply::Value(0));
    let logged = in_child(Call::AppendPlaced { log: 0, value: 8 }, Reply::Value(0));
    let mut records = Vec::new(alloc);
    records.push(committed(alloc, (0, 0), (0, false), &[idle])?)?;
    records.push(committed(alloc, (0, 1), (1, true), &[taken, queued])?)?;
    records.push(committed(alloc, (0, 2), (2, true), &[found, logged])?)?;
    records.push(committed(alloc, (0, 3), (2, false), &[idle])?)?;
    records.push(committed(alloc, (0, 4), (2, false), &[empty])?)?;
    records.push(committed(alloc, (0, 5), (2, false), &[idle])?)?;
    records.push(committed(alloc, (0, 6), (2, false), &[empty])?)?;
    let text = journal_text(alloc, LONE_TASK, &records, &[], Format::Records)?;
    let want = b"journal 1
open 1 0 65536
t 0 r 0 0: deq 0 -
t 1 w 0 1: take 0 0; +enq 0 0
t 2 w 0 2: deq 0 0; +appat 0 8 0
t 2 r 0 3: deq 0 -
t 2 r 0 4: take 0 -
t 2 r 0 5: deq 0 -
t 2 r 0 6: take 0 -
end
";
    assert_eq!(rt; text.as_slice(), want.as_slice());
    Ok(())
}

// A call of each kind with each of its replies.
fn each_call(alloc: Global) -> Result<Vec<Done>, AllocError> {
    let (map, queue, pool, log, cell) = (1, 2, 3, 4, 5);
    let (key, value, i) = (6, 7, 8);
    [
        outside(Call::MapGet { map, key }, Reply::Value(70)),
        outside(Call::MapGet { map, key }, Reply::Absent),
        outside(Call::MapPut { map, key, value }, Reply::Nothing),
        outside(Call::MapRemove { map, key }, Reply::Nothing),
        outside(Call::MapPutIfAbsent { map, key, value }, Reply::Value(70)),
        outside(Call::MapPutIfAbsent { map, key, value }, Reply::Absent),
        outside(Call::Enqueue { queue, value }, Reply::Nothing),
        outside(
            Call::Dequeue { queue },
            Reply::Value(18_446_744_073_709_551_614),
        ),
        outside(Call::Dequeue { queue }, Reply::Absent),
        outside(Call::QueueLen { queue }, Reply::Value(10)),
        outside(Call::Take { pool }, Reply::Value(9)),
        outside(Call::Take { pool }, Reply::Absent),
        outside(Call::Give { pool, value }, Reply::Flag(true)),
        outside(Call::Give { pool, value }, Reply::Flag(false)),
        in_child(Call::Append { log, value }, Reply::Nothing),
        in_child(Call::AppendPlaced { log, value }, Reply::Value(0)),
        outside(Call::LogRead { log, i }, Reply::Value(100)),
        outside(Call::LogRead { log, i }, Reply::Absent),
        outside(Call::LogLen { log }, Reply::Value(8)),
        outside(
            Call::CellGet { cell },
            Reply::Value(18_446_744_073_709_551_615),
        ),
        outside(
            Call::CellPut {
                cell: 4_294_967_295,
                value,
            },
            Reply::Nothing,
        ),
    ]
    .to_vec(alloc)
}

#[test]
fn each_call_is_written_with_each_of_its_replies(rt: HostRuntime) -> Result<(), Fail> {
    let alloc = rt.alloc();
    let calls = each_call(alloc)?;
    let mut records = Vec::new(alloc);
    records.push(committed(alloc, (15, 0), (0, false), &[])?)?;
    records.push(committed(alloc, (0, 12), (7, true), &calls)?)?;
    let text = journal_text(alloc, NO_TASK, &records, &[], Format::Records)?;
    let want = b"journal 1
open 0 0 1
t 0 r 15 0:
t 7 w 0 12: get 1 6 70; get 1 6 -; put 1 6 7; remove 1 6; putnew 1 6 7 70; putnew 1 6 7 -; enq 2 7; deq 2 18446744073709551614; deq 2 -; qlen 2 10; take 3 9; take 3 -; give 3 7 yes; give 3 7 no; +app 4 7; +appat 4 7 0; read 4 8 100; read 4 8 -; llen 4 8; cget 5 18446744073709551615; cput 4294967295 7
end
";
    assert_eq!(rt; text.as_slice(), want.as_slice());
    Ok(())
}

#[test]
fn each_sight_is_written_in_version_2_alone(rt: HostRuntime) -> Result<(), Fail> {
    let alloc = rt.alloc();
    let added = outside(Call::Append { log: 0, value: 2 }, Reply::Nothing);
    let looked = in_child(Call::Take { pool: 0 }, Reply::Absent);
    let full = SightEnd::Full {
        part: 5,
        length: 6,
        adding: 7,
    };
    let mut sights = Vec::new(alloc);
    sights.push(sight(alloc, (2, 3), SightEnd::Aborted, &[])?)?;
    sights.push(sight(alloc, (2, 3), SightEnd::Refused, &[])?)?;
    sights.push(sight(alloc, (2, 3), full, &[added])?)?;
    sights.push(sight(alloc, (15, 0), SightEnd::Child, &[looked])?)?;
    let first = journal_text(alloc, NO_TASK, &[], &sights, Format::Records)?;
    assert_eq!(rt;
        first.as_slice(),
        b"journal 1\nopen 0 0 1\nend\n".as_slice()
    );
    let second = journal_text(alloc, NO_TASK, &[], &sights, Format::Sights)?;
    let want = b"journal 2
open 0 0 1
s 4 a 2 3:
s 4 c 2 3:
s 4 f 5 6 7 2 3: app 0 2
s 4 k 15 0: +take 0 -
end
";
    assert_eq!(rt; second.as_slice(), want.as_slice());
    Ok(())
}
