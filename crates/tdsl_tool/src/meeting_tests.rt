// Two workers that wait for each other at their gates, which the work of one thread alone never comes through.
use crate::audit_tests::audited;
use crate::run::{Ended, run_with};
use crate::tests::{GREET, HELLO, repeated, report};
use byte_ends::{MemoryFiles, MemorySink};
use inspect_workers::{Gate, Kind, Point};
use serial_terms::{Call, Record, Reply};
use std::alloc::{AllocError, Global};
use std::process::Abort;
use std::sync::Arc;
use std::sync::atomic::{AtomicU64, Ordering};
use std::test::Fail;
use std::thread::Threads;

// How often a gate looks before it gives up.
const LOOKS: u64 = 50_000_000;

// What the gates tell each other.
#[derive(Drop)]
struct Signals {
    // How many commits worker 0 will have made with the next one behind its first task; 0 before that task.
    taken: AtomicU64,
    commits_first: AtomicU64,
    commits_second: AtomicU64,
    // How often a gate gave up, or saw something enqueued or appended outside of a child.
    failures: AtomicU64,
}

fn waits_for(count: &AtomicU64, least: u64) -> bool {
    for _ in 0..LOOKS {
        if count.load(Ordering::SeqCst) >= least {
            return true;
        }
    }
    false
}

impl Signals {
    fn wait(&self, count: &AtomicU64, least: u64) {
        if !waits_for(count, least) {
            self.failures.fetch_add(1, Ordering::SeqCst);
        }
    }
}

// The gate of the worker of this number.
#[derive(Drop)]
struct Meeting {
    worker: u32,
    in_child: bool,
    signals: Arc<Signals, Global>,
}

impl Meeting {
    // Worker 1 begins once worker 0 has a task.
    fn begin(&mut self) {
        self.in_child = false;
        if self.worker == 1 {
            self.signals.wait(&self.signals.taken, 1);
        }
    }

    // With its first task, worker 0 waits until worker 1 has committed twice.
    fn take(&self) {
        let signals = &self.signals;
        if self.worker == 0 && signals.taken.load(Ordering::SeqCst) == 0 {
            let next = signals.commits_first.load(Ordering::SeqCst).wrapping_add(1);
            signals.taken.store(next, Ordering::SeqCst);
            signals.wait(&signals.commits_second, 2);
        }
    }

    // At its second commit, worker 1 waits for the next one of worker 0.
    fn commit(&self) {
        let signals = &self.signals;
        if self.worker == 0 {
            signals.commits_first.fetch_add(1, Ordering::SeqCst);
        } else if signals.commits_second.fetch_add(1, Ordering::SeqCst) == 1 {
            signals.wait(&signals.commits_first, signals.taken.load(Ordering::SeqCst));
        }
    }
}

impl Gate for Meeting {
    fn at(&mut self, point: Point) {
        match point {
            Point::Begun => self.begin(),
            Point::ChildBegun => self.in_child = true,
            Point::Called(Kind::Take(true)) => self.take(),
            Point::Called(Kind::Enqueue | Kind::AppendPlaced) => {
                if !self.in_child {
                    self.signals.failures.fetch_add(1, Ordering::SeqCst);
                }
            }
            Point::Committed => self.commit(),
            _ => {}
        }
    }
}

fn new_signals(alloc: Global) -> Result<Arc<Signals, Global>, AllocError> {
    let signals = Arc::new(
        alloc,
        Signals {
            taken: AtomicU64::new(0),
            commits_first: AtomicU64::new(0),
            commits_second: AtomicU64::new(0),
            failures: AtomicU64::new(0),
        },
    )?;
    Ok(signals)
}

// The place of the first of these records in which a caller took a task.
fn first_taken(records: &[Record], caller: u32) -> Option<usize> {
    records.iter().position(|record| {
        record.caller == caller
            && record.dones.as_slice().iter().any(|done| {
                matches!(done.call, Call::Take { .. }) && matches!(done.reply, Reply::Value(_))
            })
    })
}

// What a run of two workers that meet left.
#[derive(Drop)]
struct Met {
    signals: Arc<Signals, Global>,
    ended: Ended,
    out: MemorySink,
}

// A run for this command over two frames that each have a finding, by two workers that meet.
fn run_by_two<R: Abort + Threads + Sync>(
    rt: &R,
    alloc: Global,
    command: &str,
) -> Result<Met, Fail> {
    let signals = new_signals(alloc)?;
    let mut gates = Vec::new(alloc);
    for worker in 0..16u32 {
        gates.push(Meeting {
            worker,
            in_child: false,
            signals: Arc::try_clone(&signals)?,
        })?;
    }
    let mut words = Vec::new(alloc);
    for word in [command, "--workers", "2", "r", "c"] {
        words.push(String::from_str(alloc, word)?)?;
    }
    let mut entries = Vec::new(alloc);
    entries.push((String::from_str(alloc, "r")?, GREET.to_vec(alloc)?))?;
    entries.push((String::from_str(alloc, "c")?, repeated(alloc, &HELLO, 2)?))?;
    let mut files = MemoryFiles::new(entries, Vec::new(alloc));
    let mut out = MemorySink::new(alloc, 1000, Vec::new(alloc))?;
    let mut faults = MemorySink::new(alloc, 1000, Vec::new(alloc))?;
    assert!(*rt; gates.len() >= 16);
    let ended = run_with(rt, alloc, &words, &mut files, &mut out, &mut faults, gates);
    Ok(Met {
        signals,
        ended,
        out,
    })
}

// Each worker took a task, worker 1 the first.
fn both_took(rt: &impl Abort, met: &Met) {
    assert_eq!(*rt; met.ended.status, 0);
    assert_eq!(*rt; met.signals.failures.load(Ordering::SeqCst), 0);
    assert!(*rt; met.signals.taken.load(Ordering::SeqCst) > 0);
    let Some(history) = &met.ended.history else {
        assert!(*rt; false, "a history");
        return;
    };
    let first = first_taken(history.records(), 0);
    let second = first_taken(history.records(), 1);
    assert!(*rt; first.is_some() && second.is_some() && second < first);
}

#[test]
fn each_of_two_workers_takes_a_task_while_the_other_is_held_up(
    rt: HostRuntime,
) -> Result<(), Fail> {
    let met = run_by_two(&rt, rt.alloc(), "inspect")?;
    both_took(&rt, &met);
    let want = report(
        rt.alloc(),
        [2, 0, 0, 0, 2, 0, 0, 0, 2, 0, 2],
        "finding 0 greet 8\nfinding 1 greet 8\n",
    )?;
    assert_eq!(rt; met.out.written(), want.as_slice());
    Ok(())
}

#[test]
fn the_journal_of_two_workers_that_meet_is_legal(rt: HostRuntime) -> Result<(), Fail> {
    let met = run_by_two(&rt, rt.alloc(), "journal")?;
    both_took(&rt, &met);
    let run = audited(&rt, rt.alloc(), &["audit", "j"], met.out.written(), 0)?;
    assert_eq!(rt; run.status, 0);
    assert!(rt; run.out.as_slice().ends_with(b" 0\n"));
    Ok(())
}
