// Audits of journals, through the top call.
use crate::tests::{Run, run_quietly};
use byte_ends::{MemoryFiles, MemorySink};
use std::alloc::{AllocError, Global};
use std::test::Fail;
use std::thread::Threads;

// The run of one task.
pub(crate) const JOURNAL: &str =
    "journal 1\nopen 1 0 65536\nt 0 r 0 0: deq 0 -\nt 1 w 0 1: take 0 0; +enq 0 0\nt 2 w 0 2: deq 0 0; +appat 0 8 0\nt 2 r 0 3: deq 0 -\nt 2 r 0 4: take 0 -\nt 2 r 0 5: deq 0 -\nt 2 r 0 6: take 0 -\nend\n";

// The same with an item that is none in its fourth line, and without its last line.
const OTHER_ITEM: &str =
    "journal 1\nopen 1 0 65536\nt 0 r 0 0: deq 0 -\nt 1 w 0 1: take 0 1; +enq 0 0\nt 2 w 0 2: deq 0 0; +appat 0 8 0\nt 2 r 0 3: deq 0 -\nt 2 r 0 4: take 0 -\nt 2 r 0 5: deq 0 -\nt 2 r 0 6: take 0 -\nend\n";

const UNENDED: &str =
    "journal 1\nopen 1 0 65536\nt 0 r 0 0: deq 0 -\nt 1 w 0 1: take 0 0; +enq 0 0\nt 2 w 0 2: deq 0 0; +appat 0 8 0\nt 2 r 0 3: deq 0 -\nt 2 r 0 4: take 0 -\nt 2 r 0 5: deq 0 -\nt 2 r 0 6: take 0 -\n";

// A key that isn't below its map's capacity.
const HIGH_KEY: &str =
    "journal 2\nopen 0 0 1\nt 1 w 1 0: put 0 7 70\nt 3 w 0 0: get 0 7 70; put 0 8 80\ns 0 c 0 0: get 0 7 -; put 0 8 80\nend\n";

// A sight of an item that was taken before.
const TAKEN_TWICE: &str =
    "journal 2\nopen 1 0 1\nt 1 w 0 0: take 0 0\ns 0 a 1 0: take 0 0\ns 1 a 1 0: take 0 0\nend\n";

pub(crate) fn audited<R: Threads + Sync>(
    rt: &R,
    alloc: Global,
    words: &[&str],
    journal: &[u8],
    failing: u64,
) -> Result<Run, AllocError> {
    let mut list = Vec::new(alloc);
    for word in words {
        list.push(String::from_str(alloc, *word)?)?;
    }
    let mut entries = Vec::new(alloc);
    entries.push((String::from_str(alloc, "j")?, journal.to_vec(alloc)?))?;
    let mut files = MemoryFiles::new(entries, Vec::new(alloc));
    let mut failing_calls = Vec::new(alloc);
    failing_calls.push(failing)?;
    let mut out = MemorySink::new(alloc, 1000, failing_calls)?;
    let mut faults = MemorySink::new(alloc, 1000, Vec::new(alloc))?;
    let ended = run_quietly(rt, alloc, &list, &mut files, &mut out, &mut faults)?;
    Ok(Run {
        status: ended.status,
        out: out.written().to_vec(alloc)?,
        faults: faults.written().to_vec(alloc)?,
    })
}

#[test]
fn a_journal_is_judged(rt: HostRuntime) -> Result<(), Fail> {
    let cases: [(&[&str], &str, u64, u8, &str, &str); 8] = [
        (&["audit", "j"], JOURNAL, 0, 0, "yes 7 0\n", ""),
        (&["audit", "j"], OTHER_ITEM, 0, 9, "", "not legal: line 4\n"),
        (&["audit", "j"], UNENDED, 0, 9, "", "not legal: line 10\n"),
        (&["audit", "j"], HIGH_KEY, 0, 9, "", "not legal: line 3\n"),
        (
            &["audit", "j"],
            TAKEN_TWICE,
            0,
            9,
            "",
            "not legal: line 5\n",
        ),
        (&["audit", "j"], "", 0, 9, "", "not legal: line 1\n"),
        (&["audit", "k"], JOURNAL, 0, 2, "", "read fault: k\n"),
        (&["audit", "j"], JOURNAL, 1, 3, "", "write fault\n"),
    ];
    for (words, journal, failing, status, out, faults) in cases {
        let got = audited(&rt, rt.alloc(), words, journal.as_bytes(), failing)?;
        assert_eq!(rt; got.status, status);
        assert_eq!(rt; got.out.as_slice(), out.as_bytes());
        assert_eq!(rt; got.faults.as_slice(), faults.as_bytes());
    }
    Ok(())
}
