//! Verdicts on journals.

use crate::{Verdict, audit};
use std::test::Fail;

#[test]
fn the_run_of_one_worker_is_legal(rt: HostRuntime) -> Result<(), Fail> {
    let yes = Verdict::Yes {
        records: 7,
        sights: 0,
    };
    let whole =
        b"journal 1\nopen 1 0 65536\nt 0 r 0 0: deq 0 -\nt 1 w 0 1: take 0 0; +enq 0 0\nt 2 w 0 2: deq 0 0; +appat 0 8 0\nt 2 r 0 3: deq 0 -\nt 2 r 0 4: take 0 -\nt 2 r 0 5: deq 0 -\nt 2 r 0 6: take 0 -\nend\n".as_slice();
    assert_eq!(rt; audit(rt.alloc(), whole)?, yes);
    let second =
        b"journal 2\nopen 1 0 65536\nt 0 r 0 0: deq 0 -\nt 1 w 0 1: take 0 0; +enq 0 0\nt 2 w 0 2: deq 0 0; +appat 0 8 0\nt 2 r 0 3: deq 0 -\nt 2 r 0 4: take 0 -\nt 2 r 0 5: deq 0 -\nt 2 r 0 6: take 0 -\nend\n".as_slice();
    assert_eq!(rt; audit(rt.alloc(), second)?, yes);
    let other =
        b"journal 1\nopen 1 0 65536\nt 0 r 0 0: deq 0 -\nt 1 w 0 1: take 0 1; +enq 0 0\nend\n".as_slice();
    assert_eq!(rt; audit(rt.alloc(), other)?, Verdict::No { line: 4 });
    let short =
        b"journal 1\nopen 1 0 65536\nt 0 r 0 0: deq 0 -\nt 1 w 0 1: take 0 0; +enq 0 0\nt 2 w 0 2: deq 0 0; +appat 0 8 0\nt 2 r 0 3: deq 0 -\nt 2 r 0 4: take 0 -\nt 2 r 0 5: deq 0 -\nt 2 r 0 6: take 0 -\n".as_slice();
    assert_eq!(rt; audit(rt.alloc(), short)?, Verdict::No { line: 10 });
    Ok(())
}

#[test]
fn the_first_bad_line_is_named(rt: HostRuntime) -> Result<(), Fail> {
    let texts: [(&[u8], u64); 12] = [
        (b"", 1),
        (b"journal 1", 1),
        (b"journal 3\n", 1),
        (b"journal 1\nopen 1 2 1\nend\n", 2),
        (b"journal 1\nopen 0 0 1\nend\nend\n", 4),
        (b"journal 1\nopen 0 0 1\nend", 3),
        (b"journal 1\nopen 1 0 1\ns 0 a 0 0:\nend\n", 3),
        (
            b"journal 2\nopen 0 0 1\nt 1 w 1 0: put 0 7 70\nt 3 w 0 0: get 0 7 70; put 0 8 80\ns 0 c 0 0: get 0 7 -; put 0 8 80\nend\n",
            3,
        ),
        (
            b"journal 2\nopen 1 0 1\nt 1 w 0 0: take 0 0\ns 0 a 1 0: take 0 0\ns 1 a 1 0: take 0 0\nend\n",
            5,
        ),
        (
            b"journal 2\nopen 1 0 1\nt 1 w 0 0: take 0 0\ns 1 a 1 0: take 0 -\ns 0 a 1 0: take 0 0\nend\n",
            5,
        ),
        (
            b"journal 2\nopen 1 0 1\nt 1 w 0 0: take 0 0\ns 0 a 0 1: take 0 0\nend\n",
            4,
        ),
        (b"journal 1\nopen 1 0 1\nt 0 r 0 0: enq 0 5\nend\n", 3),
    ];
    for (text, line) in texts {
        assert_eq!(rt; audit(rt.alloc(), text)?, Verdict::No { line });
    }
    Ok(())
}

#[test]
fn sights_are_judged_beside_the_records(rt: HostRuntime) -> Result<(), Fail> {
    let text =
        b"journal 2\nopen 1 0 1\nt 1 w 0 0: take 0 0; give 0 0 yes; take 0 0\ns 0 a 1 0: take 0 0\ns 0 k 1 0: take 0 0; enq 0 3\ns 1 c 0 1: take 0 -\ns 1 f 1 0 2 0 1: app 0 1; app 0 2\nend\n".as_slice();
    let yes = Verdict::Yes {
        records: 1,
        sights: 4,
    };
    assert_eq!(rt; audit(rt.alloc(), text)?, yes);
    let same =
        b"journal 1\nopen 1 0 1\nt 0 r 0 0: enq 0 5; deq 0 5; put 0 0 1; remove 0 0; take 0 0; give 0 0 yes\nend\n".as_slice();
    let one = Verdict::Yes {
        records: 1,
        sights: 0,
    };
    assert_eq!(rt; audit(rt.alloc(), same)?, one);
    Ok(())
}
