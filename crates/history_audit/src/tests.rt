//! Lines, as they are read.

use crate::{Sizes, opening, record, sight};
use serial_terms::{Call, Done, Reply, SightEnd};
use std::test::Fail;

fn outside(call: Call, reply: Reply) -> Done {
    Done {
        call,
        reply,
        child: false,
    }
}

#[test]
fn an_opening_names_its_sizes(rt: HostRuntime) -> Result<(), Fail> {
    let sizes = Sizes {
        tasks: 2,
        groups: 1,
        findings: 65_536,
    };
    assert_eq!(rt; opening(b"open 2 1 65536".as_slice()), Some(sizes));
    let others: [&[u8]; 7] = [
        b"",
        b"open 2 1",
        b"open 2 1 65536 0",
        b"open 02 1 65536",
        b"open 2  1 65536",
        b"opened 2 1 65536",
        b"open 2 1 18446744073709551616",
    ];
    for line in others {
        assert!(rt; opening(line).is_none());
    }
    Ok(())
}

#[test]
fn a_record_has_its_calls_in_order(rt: HostRuntime) -> Result<(), Fail> {
    let line =
        b"t 7 w 15 12: get 1 2 3; +put 0 2 18446744073709551615; putnew 1 2 3 -; deq 0 -; give 0 9 no; cget 0 5".as_slice();
    let dones = [
        outside(Call::MapGet { map: 1, key: 2 }, Reply::Value(3)),
        Done {
            call: Call::MapPut {
                map: 0,
                key: 2,
                value: 18_446_744_073_709_551_615,
            },
            reply: Reply::Nothing,
            child: true,
        },
        outside(
            Call::MapPutIfAbsent {
                map: 1,
                key: 2,
                value: 3,
            },
            Reply::Absent,
        ),
        outside(Call::Dequeue { queue: 0 }, Reply::Absent),
        outside(Call::Give { pool: 0, value: 9 }, Reply::Flag(false)),
        outside(Call::CellGet { cell: 0 }, Reply::Value(5)),
    ];
    let Some(read) = record(rt.alloc(), line)? else {
        assert!(rt; false, "a record");
        return Ok(());
    };
    assert_eq!(rt; read.place, 7);
    assert!(rt; read.writer);
    assert_eq!(rt; read.caller, 15);
    assert_eq!(rt; read.index, 12);
    assert_eq!(rt; read.dones.as_slice(), dones.as_slice());
    Ok(())
}

#[test]
fn each_form_of_a_call_is_read(rt: HostRuntime) -> Result<(), Fail> {
    let lines: [&[u8]; 26] = [
        b"t 0 r 0 0:",
        b"t 0 r 0 0: get 1 2 3",
        b"t 0 r 0 0: get 1 2 -",
        b"t 0 r 0 0: put 1 2 3",
        b"t 0 r 0 0: remove 1 2",
        b"t 0 r 0 0: putnew 1 2 3 4",
        b"t 0 r 0 0: putnew 1 2 3 -",
        b"t 0 r 0 0: enq 1 2",
        b"t 0 r 0 0: deq 1 2",
        b"t 0 r 0 0: deq 1 -",
        b"t 0 r 0 0: qlen 1 2",
        b"t 0 r 0 0: take 1 2",
        b"t 0 r 0 0: take 1 -",
        b"t 0 r 0 0: give 1 2 yes",
        b"t 0 r 0 0: give 1 2 no",
        b"t 0 r 0 0: app 1 2",
        b"t 0 r 0 0: appat 1 2 3",
        b"t 0 r 0 0: read 1 2 3",
        b"t 0 r 0 0: read 1 2 -",
        b"t 0 r 0 0: llen 1 2",
        b"t 0 r 0 0: cget 1 2",
        b"t 0 r 0 0: cput 1 2",
        b"t 0 r 0 0: +enq 1 2; deq 1 2",
        b"t 18446744073709551615 r 0 0:",
        b"t 0 r 4294967295 0:",
        b"t 0 w 0 18446744073709551615: take 0 18446744073709551615",
    ];
    for line in lines {
        assert!(rt; record(rt.alloc(), line)?.is_some());
    }
    Ok(())
}

#[test]
fn a_line_that_is_wrong_in_one_word_is_no_record(rt: HostRuntime) -> Result<(), Fail> {
    let lines: [&[u8]; 34] = [
        b"",
        b"t 0 r 0 0",
        b"s 0 r 0 0:",
        b"t 00 r 0 0:",
        b"t -1 r 0 0:",
        b"t 0 x 0 0:",
        b"t 0 r 0:",
        b"t 0 r 0 0 0:",
        b"t 0 r  0 0:",
        b" t 0 r 0 0:",
        b"t 0 r 0 0: ",
        b"t 0 r 0 0 :",
        b"t 0 r 0 0::",
        b"t 18446744073709551616 r 0 0:",
        b"t 0 r 4294967296 0:",
        b"t 0 r 0 99999999999999999999:",
        b"t 0 r 0 0:deq 0 -",
        b"t 0 r 0 0: deq 0 -;",
        b"t 0 r 0 0: deq 0 -;deq 0 -",
        b"t 0 r 0 0: deq 0 - ; deq 0 -",
        b"t 0 r 0 0: deq 0",
        b"t 0 r 0 0: deq 0 - -",
        b"t 0 r 0 0: deque 0 -",
        b"t 0 r 0 0: ++deq 0 -",
        b"t 0 r 0 0: + deq 0 -",
        b"t 0 r 0 0: deq 4294967296 -",
        b"t 0 r 0 0: deq 0 -1",
        b"t 0 r 0 0: qlen 0 -",
        b"t 0 r 0 0: give 0 1 maybe",
        b"t 0 r 0 0: give 0 1",
        b"t 0 r 0 0: app 0 1 yes",
        b"t 0 r 0 0: putnew 0 1 2",
        b"t 0 r 0 0: get 0 1 2 3 4",
        b"t 0 r 0 0: cput 0 0x1",
    ];
    for line in lines {
        assert!(rt; record(rt.alloc(), line)?.is_none());
    }
    Ok(())
}

#[test]
fn each_end_of_a_sight_is_read(rt: HostRuntime) -> Result<(), Fail> {
    let lines: [(&[u8], SightEnd); 4] = [
        (b"s 4 a 2 3: take 0 0", SightEnd::Aborted),
        (b"s 4 c 2 3: take 0 0", SightEnd::Refused),
        (b"s 4 k 2 3: take 0 0", SightEnd::Child),
        (
            b"s 4 f 0 5 6 2 3: take 0 0",
            SightEnd::Full {
                part: 0,
                length: 5,
                adding: 6,
            },
        ),
    ];
    for (line, end) in lines {
        let Some(read) = sight(rt.alloc(), line)? else {
            assert!(rt; false, "a sight");
            return Ok(());
        };
        assert_eq!(rt; read.end, end);
        assert_eq!(rt; read.place, 4);
        assert_eq!(rt; read.caller, 2);
        assert_eq!(rt; read.after, 3);
        assert_eq!(rt;
            read.dones.as_slice(),
            [outside(Call::Take { pool: 0 }, Reply::Value(0))].as_slice()
        );
    }
    Ok(())
}

#[test]
fn a_line_that_is_wrong_in_one_word_is_no_sight(rt: HostRuntime) -> Result<(), Fail> {
    let lines: [&[u8]; 14] = [
        b"",
        b"s 4 a 2 3",
        b"t 4 a 2 3:",
        b"s 4 b 2 3:",
        b"s 4 a 2:",
        b"s 4 a 2 3 4:",
        b"s 04 a 2 3:",
        b"s 4 f 2 3:",
        b"s 4 f 0 5 2 3:",
        b"s 4 f 0 5 6 7 2 3:",
        b"s 4 a 0 5 6 2 3:",
        b"s 4 f 4294967296 5 6 2 3:",
        b"s 4 f 0 5 06 2 3:",
        b"s 4 a 2 3: take 0",
    ];
    for line in lines {
        assert!(rt; sight(rt.alloc(), line)?.is_none());
    }
    Ok(())
}
