//! Threads that work on one store, and what came of it.
ghost use Rattle.std.specs.Prelude.{All, IfOk};
ghost use Rattle.store_benchmark.specs.Opened.{IsOpened};
ghost use Rattle.store_benchmark.specs.Passes.{IsAtWork, HasAdded};

use crate::load::Load;
use crate::work::{Worked, work};
use crate::workload::Workload;
use std::alloc::{AllocError, Global};
use std::thread::{self, Threads};
use tx_store::{Anything, RunEnd, Store, StorePass};

/// How much is to be done.
#[derive(Clone, Copy)]
pub(crate) struct Extent {
    /// 1 to 16.
    pub threads: u32,
    /// The transactions of each thread.
    pub transactions: u32,
    pub seed: u64,
}

/// What came of it.
#[derive(Clone, Copy)]
pub(crate) struct Report {
    /// The transactions that were committed.
    pub committed: u64,
    /// The attempts that were in vain.
    pub vain: u64,
    /// Why a transaction wasn't committed, if one wasn't.
    pub end: Option<RunEnd>,
}

// The pass of a thread, and its transactions.
#[derive(Drop)]
struct Job {
    pass: StorePass<Anything>,
    load: Load,
}

/// Lets so many threads work on the store, each with its own caller number. The one error is want of memory.
pub(crate) fn measure<R: Threads + Sync>(
    rt: &R,
    alloc: Global,
    store: &Store<Anything>,
    pass: StorePass<Anything>,
    workload: Workload,
    extent: Extent,
) -> Result<Report, AllocError>
    requires opened { IsOpened store.now }
    requires work { IsAtWork store.now pass }
{
    let jobs = jobs(alloc, store, pass, workload, extent)?;
    let transactions = extent.transactions;
    let worked = thread::map_vec(
        rt,
        jobs,
        &|job: Job| -> Worked<Anything>
            requires { IsOpened store.now × IsAtWork store.now job.pass }
            ensures { HasAdded store.entry.now result.committed job.pass result.pass }
        { work(alloc, store, job.pass, job.load, transactions) },
    )?;
    Ok(sum_up(&worked))
}

// A pass for each thread.
fn jobs(
    alloc: Global,
    store: &Store<Anything>,
    pass: StorePass<Anything>,
    workload: Workload,
    extent: Extent,
) -> Result<Vec<Job>, AllocError>
    requires work { IsAtWork store.now pass }
    ensures { IfOk result (λ jobs. All (λ j. IsAtWork store.now j.pass) jobs.items) }
{
    let mut jobs = Vec::new(alloc);
    let mut first = pass;
    for thread in 1..extent.threads {
        if first.callers_held() < 2 {
            break;
        }
        let pass = first.split(alloc, store, 1)?;
        jobs.push(Job {
            pass,
            load: Load::of(workload, extent.seed, thread),
        })?;
    }
    jobs.push(Job {
        pass: first,
        load: Load::of(workload, extent.seed, 0),
    })?;
    Ok(jobs)
}

// What the threads did together.
fn sum_up(worked: &[Worked<Anything>]) -> Report {
    let mut report = Report {
        committed: 0,
        vain: 0,
        end: None,
    };
    for one in worked {
        report.committed = report.committed.saturating_add(u64::from(one.committed));
        report.vain = report.vain.saturating_add(one.vain);
        report.end = report.end.or(one.end);
    }
    report
}
