// Files and sinks whose calls fail one after the other, or that give and take one byte a call.
ghost use Rattle.byte_ends.specs.InMemory.{bytes_of};
ghost use Rattle.std.specs.Prelude.{◌≤◌, ◌^◌, Some};

use crate::tests::{COMMAND, GREET, HEADER, HELLO, USAGE, report, run_quietly};
use byte_ends::{Failed, Files, MemoryFiles, MemorySink, ReadFault, Sink};
use std::alloc::{AllocError, Global};
use std::test::Fail;

// Files that give one byte a call.
#[derive(Drop)]
struct SlowFiles {
    files: MemoryFiles,
}

impl Files for SlowFiles {
    ghost content = { λ s name. bytes_of s.files.entries name };

    ghost faults = { λ s _. s.files.faults };

    fn read(&mut self, name: &str, at: u64, into: &mut [u8]) -> Result<usize, ReadFault> {
        let most = into.len().min(1);
        self.files.read(name, at, &mut into[..most])
    }
}

// A sink that takes one byte a call.
#[derive(Drop)]
struct SlowSink {
    sink: MemorySink,
}

impl Sink for SlowSink {
    ghost written = { λ s. Some s.sink.bytes };

    ghost faults = { λ s. s.sink.faults };

    fn write(&mut self, piece: &[u8]) -> Result<usize, Failed> {
        self.sink.write(&piece[..piece.len().min(1)])
    }
}

// The files of the usual inspection, of which one call fails.
fn files(alloc: Global, failing: u64) -> Result<MemoryFiles, AllocError> {
    let mut capture = HEADER.to_vec(alloc)?;
    capture.extend_from_slice(&HELLO)?;
    let mut entries = Vec::new(alloc);
    entries.push((String::from_str(alloc, "r")?, GREET.to_vec(alloc)?))?;
    entries.push((String::from_str(alloc, "c")?, capture))?;
    Ok(MemoryFiles::new(entries, [failing].to_vec(alloc)?))
}

fn sink(alloc: Global, failing: u64) -> Result<MemorySink, AllocError> {
    MemorySink::new(alloc, 1000, [failing].to_vec(alloc)?)
}

fn list(alloc: Global, words: &[&str]) -> Result<Vec<String>, AllocError> {
    let mut list = Vec::new(alloc);
    for word in words {
        list.push(String::from_str(alloc, *word)?)?;
    }
    Ok(list)
}

// The report of the usual inspection.
fn usual(alloc: Global) -> Result<Vec<u8>, AllocError> {
    report(
        alloc,
        [1, 0, 0, 0, 1, 0, 0, 0, 1, 0, 1],
        "finding 0 greet 8\n",
    )
}

#[test]
fn each_failed_read_names_its_file(rt: HostRuntime) -> Result<(), Fail> {
    let alloc = rt.alloc();
    let words = list(alloc, &COMMAND)?;
    let lines: [(u64, u8, &str); 5] = [
        (1, 2, "read fault: r\n"),
        (2, 2, "read fault: r\n"),
        (3, 2, "read fault: c\n"),
        (4, 2, "read fault: c\n"),
        (5, 0, ""),
    ];
    for (failing, wanted, line) in lines {
        let mut files = files(alloc, failing)?;
        let mut out = sink(alloc, 0)?;
        let mut faults = sink(alloc, 0)?;
        let ended = run_quietly(&rt, alloc, &words, &mut files, &mut out, &mut faults)?;
        assert_eq!(rt; ended.status, wanted);
        assert_eq!(rt; faults.written(), line.as_bytes());
        assert!(rt; ended.status == 0 || out.written().is_empty());
        assert_eq!(rt; ended.history.is_some(), ended.status == 0);
    }
    Ok(())
}

#[test]
fn each_failed_write_leaves_a_beginning(rt: HostRuntime) -> Result<(), Fail> {
    let alloc = rt.alloc();
    // A short log, since each of many runs opens a store of its own.
    let words = list(alloc, &["inspect", "--findings", "1", "r", "c"])?;
    let whole = usual(alloc)?;
    for failing in 1..=whole.len() as u64 + 1 {
        let mut files = files(alloc, 0)?;
        let mut out = SlowSink {
            sink: sink(alloc, failing)?,
        };
        let mut faults = sink(alloc, 0)?;
        let ended = run_quietly(&rt, alloc, &words, &mut files, &mut out, &mut faults)?;
        let before = (failing - 1) as usize;
        assert_eq!(rt; out.sink.written(), &whole[..before.min(whole.len())]);
        assert!(rt; ended.history.is_some());
        if before < whole.len() {
            assert_eq!(rt; ended.status, 3);
            assert_eq!(rt; faults.written(), b"write fault\n".as_slice());
        } else {
            assert_eq!(rt; ended.status, 0);
            assert_eq!(rt; faults.written(), b"".as_slice());
        }
    }
    Ok(())
}

#[test]
fn a_line_that_can_not_be_written_changes_no_status(rt: HostRuntime) -> Result<(), Fail> {
    let alloc = rt.alloc();
    let lists: [&[&str]; 6] = [
        &["inspect", "--workers", "17", "r", "c"],
        &["inspect", "r"],
        &["inspect", "--workers", "4", "--workers", "4", "r", "c"],
        &["inspect", "--findings", "010", "r", "c"],
        &["inspect", "--workers=4", "r", "c"],
        &[],
    ];
    for words in lists {
        let words = list(alloc, words)?;
        for failing in 1..=USAGE.len() + 1 {
            let mut files = files(alloc, 0)?;
            let mut out = sink(alloc, 0)?;
            let mut faults = SlowSink {
                sink: sink(alloc, failing as u64)?,
            };
            let ended = run_quietly(&rt, alloc, &words, &mut files, &mut out, &mut faults)?;
            assert_eq!(rt; ended.status, 1);
            assert!(rt; out.written().is_empty());
            assert_eq!(rt; faults.sink.written(), &USAGE.as_bytes()[..failing - 1]);
        }
    }
    Ok(())
}

#[test]
fn files_and_sinks_may_take_one_byte_a_call(rt: HostRuntime) -> Result<(), Fail> {
    let alloc = rt.alloc();
    let words = list(alloc, &COMMAND)?;
    let mut files = SlowFiles {
        files: files(alloc, 0)?,
    };
    let mut out = SlowSink {
        sink: sink(alloc, 0)?,
    };
    let mut faults = sink(alloc, 0)?;
    let ended = run_quietly(&rt, alloc, &words, &mut files, &mut out, &mut faults)?;
    assert_eq!(rt; ended.status, 0);
    assert_eq!(rt; out.sink.written(), usual(alloc)?.as_slice());
    assert_eq!(rt; faults.written(), b"".as_slice());
    Ok(())
}
