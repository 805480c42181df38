// Generated captures and trials of them, through the top call.
use crate::tests::{HEADER, report, run_quietly};
use byte_ends::{MemoryFiles, MemorySink};
use std::alloc::{AllocError, Global};
use std::test::Fail;
use std::thread::Threads;

#[derive(Drop)]
struct Outcome {
    status: u8,
    out: MemorySink,
    faults: MemorySink,
}

fn made<R: Threads + Sync>(
    rt: &R,
    alloc: Global,
    words: &[&str],
    room: usize,
) -> Result<Outcome, AllocError> {
    let mut list = Vec::new(alloc);
    for word in words {
        list.push(String::from_str(alloc, *word)?)?;
    }
    let mut files = MemoryFiles::new(Vec::new(alloc), Vec::new(alloc));
    let mut out = MemorySink::new(alloc, room, Vec::new(alloc))?;
    let mut faults = MemorySink::new(alloc, 1000, Vec::new(alloc))?;
    let ended = run_quietly(rt, alloc, &list, &mut files, &mut out, &mut faults)?;
    Ok(Outcome {
        status: ended.status,
        out,
        faults,
    })
}

#[test]
fn a_capture_is_made_from_a_seed(rt: HostRuntime) -> Result<(), Fail> {
    let alloc = rt.alloc();
    let none = made(&rt, alloc, &["make", "9", "0"], 1000)?;
    assert_eq!(rt; none.status, 0);
    assert_eq!(rt; none.out.written(), HEADER.as_slice());
    let mut want = HEADER.to_vec(alloc)?;
    want.extend_from_slice(b"\0\0\0\0\0\0\0\0\x3c\0\0\0\x3c\0\0\0")?;
    want.extend_from_slice(b"\x02\0\0\0\0\x02\x02\0\0\0\0\x01\x08\x06")?;
    want.extend_from_slice(&[0; 46])?;
    let one = made(&rt, alloc, &["make", "2", "1"], 1000)?;
    assert_eq!(rt; one.status, 0);
    assert_eq!(rt; one.out.written(), want.as_slice());
    assert_eq!(rt; one.faults.written(), b"".as_slice());
    Ok(())
}

#[test]
fn a_trial_is_summed_up(rt: HostRuntime) -> Result<(), Fail> {
    let alloc = rt.alloc();
    // The last was worked out by another program, from the description of the capture and of its rules.
    let cases: [(&str, &str, [u32; 11], &str); 3] = [
        ("5", "0", [0; 11], "sum 0\n"),
        ("2", "1", [1, 1, 0, 0, 0, 0, 0, 0, 0, 0, 0], "sum 0\n"),
        (
            "42",
            "60",
            [60, 1, 0, 0, 13, 41, 5, 0, 26, 1, 4],
            "sum 618475552864\n",
        ),
    ];
    for (seed, frames, counts, sum) in cases {
        let mut want = format!(in alloc; "trial {seed} {frames}\n")?
            .as_bytes()
            .to_vec(alloc)?;
        want.extend_from_slice(&report(alloc, counts, sum)?)?;
        for workers in ["1", "4", "16"] {
            let words = ["trial", "--workers", workers, seed, frames];
            let tried = made(&rt, alloc, &words, 1000)?;
            assert_eq!(rt; tried.status, 0);
            assert_eq!(rt; tried.out.written(), want.as_slice());
            assert_eq!(rt; tried.faults.written(), b"".as_slice());
        }
    }
    Ok(())
}

#[test]
fn a_prefix_is_left_where_writing_fails(rt: HostRuntime) -> Result<(), Fail> {
    for (command, prefix) in [("make", b"\xd4\xc3\xb2\xa1"), ("trial", b"tria")] {
        let cut = made(&rt, rt.alloc(), &[command, "9", "0"], 4)?;
        assert_eq!(rt; cut.status, 3);
        assert_eq!(rt; cut.out.written(), prefix.as_slice());
        assert_eq!(rt; cut.faults.written(), b"write fault\n".as_slice());
    }
    Ok(())
}
