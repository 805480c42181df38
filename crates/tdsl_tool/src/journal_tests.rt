// Journals of inspections, through the top call.
use crate::audit_tests::{JOURNAL, audited};
use crate::tests::{GREET, HEADER, HELLO, Run, SEAM, add_fragment, inspected, piece, repeated};
use std::alloc::{AllocError, Global};
use std::str;
use std::test::Fail;
use std::thread::Threads;

// The run of one worker over two fragments, of which the last comes first.
const FRAGMENTS: &str =
    "journal 1\nopen 2 1 65536\nt 0 r 0 0: deq 0 -\nt 1 w 0 1: take 0 0; +get 0 0 -; +put 0 0 262156\nt 1 r 0 2: deq 0 -\nt 2 w 0 3: take 0 1; +get 0 0 262156; +put 0 0 4295753740; +put 1 1 0; +enq 0 1\nt 3 w 0 4: deq 0 1; get 0 0 4295753740; remove 0 0; get 1 1 0; remove 1 1; get 1 0 -; +appat 0 6 0\nt 3 r 0 5: deq 0 -\nt 3 r 0 6: take 0 -\nt 3 r 0 7: deq 0 -\nt 3 r 0 8: take 0 -\nend\n";

// A datagram in two fragments, of which the last comes first.
fn seam(alloc: Global) -> Result<Vec<u8>, AllocError> {
    let mut capture = HEADER.to_vec(alloc)?;
    add_fragment(&mut capture, 0, 0, piece(1, 8, false, b"ijkl"))?;
    add_fragment(&mut capture, 1, 0, piece(1, 0, true, b"abcdefgh"))?;
    Ok(capture)
}

#[test]
fn one_worker_leaves_one_journal(rt: HostRuntime) -> Result<(), Fail> {
    let alloc = rt.alloc();
    let words = ["journal", "--workers", "1", "r", "c"];
    let whole = inspected(&rt, alloc, &words, GREET, &repeated(alloc, &HELLO, 1)?, 0)?;
    assert_eq!(rt; whole.status, 0);
    assert_eq!(rt; whole.out.as_slice(), JOURNAL.as_bytes());
    assert_eq!(rt; whole.faults.as_slice(), b"".as_slice());
    let parts = inspected(&rt, alloc, &words, SEAM, &seam(alloc)?, 0)?;
    assert_eq!(rt; parts.status, 0);
    assert_eq!(rt; parts.out.as_slice(), FRAGMENTS.as_bytes());
    assert_eq!(rt; parts.faults.as_slice(), b"".as_slice());
    Ok(())
}

// What an audit says of the journal of an inspection by so many workers.
fn judged<R: Threads + Sync>(rt: &R, alloc: Global, workers: &str) -> Result<Run, AllocError> {
    let words = ["journal", "--workers", workers, "r", "c"];
    let run = inspected(rt, alloc, &words, GREET, &repeated(alloc, &HELLO, 3)?, 0)?;
    audited(rt, alloc, &["audit", "j"], &run.out, 0)
}

#[test]
fn an_audit_finds_the_journal_of_each_run_legal(rt: HostRuntime) -> Result<(), Fail> {
    for workers in ["1", "2", "4", "16"] {
        let run = judged(&rt, rt.alloc(), workers)?;
        assert_eq!(rt; run.status, 0);
        assert!(rt; run.out.as_slice().starts_with(b"yes "));
        assert!(rt; run.out.as_slice().ends_with(b" 0\n"));
    }
    Ok(())
}

#[test]
fn a_journal_ends_as_the_inspection_does(rt: HostRuntime) -> Result<(), Fail> {
    let alloc = rt.alloc();
    let two = repeated(alloc, &HELLO, 2)?;
    let hello = two.as_slice();
    let few: &[&str] = &["journal", "--findings", "1", "r", "c"];
    let cases: [(&[&str], &[u8], &[u8], u64, u8, &str); 7] = [
        (
            &["journal", "r"],
            GREET,
            hello,
            0,
            1,
            "usage: inspect|journal",
        ),
        (
            &["journal", "r", "d"],
            GREET,
            hello,
            0,
            2,
            "read fault: d\n",
        ),
        (&["journal", "r", "c"], GREET, hello, 1, 3, "write fault\n"),
        (
            &["journal", "r", "c"],
            b"rule",
            hello,
            0,
            4,
            "bad rules: line 1\n",
        ),
        (
            &["journal", "r", "c"],
            GREET,
            b"",
            0,
            5,
            "bad capture: header at 0\n",
        ),
        (few, GREET, hello, 0, 6, "limit: findings\n"),
        (
            &["journal", "d", "c"],
            GREET,
            hello,
            0,
            2,
            "read fault: d\n",
        ),
    ];
    for (words, rules, capture, failing, status, line) in cases {
        let run = inspected(&rt, alloc, words, rules, capture, failing)?;
        assert_eq!(rt; run.status, status);
        assert_eq!(rt; run.out.as_slice(), b"".as_slice());
        assert!(rt; run.faults.as_slice().starts_with(line.as_bytes()));
    }
    Ok(())
}
