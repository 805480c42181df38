//! The workloads.
use crate::measure::{Extent, Report, measure};
use crate::open::layout;
use std::alloc::Global;
use std::thread::Threads;
use tx_store::{Anything, OpenEnd, Store};

/// What the transactions do.
#[derive(Clone, Copy)]
pub(crate) enum Workload {
    /// Four gets and two puts for keys of the thread's own.
    OwnKeys,
    /// The same for keys at random.
    RandomKeys,
    /// Ten gets for keys at random, and in each tenth transaction a put.
    ManyGets,
    /// A slot is handed on in one transaction, and taken over in the next.
    Pipeline,
    /// The calls of cells that a push on a stack and a pop make.
    CellsByHand,
}

impl Workload {
    /// All of them, in the order of their numbers.
    pub(crate) const ALL: [Workload; 5] = [
        Workload::OwnKeys,
        Workload::RandomKeys,
        Workload::ManyGets,
        Workload::Pipeline,
        Workload::CellsByHand,
    ];

    /// Its number.
    pub(crate) fn number(self) -> u32 {
        match self {
            Workload::OwnKeys => 1,
            Workload::RandomKeys => 2,
            Workload::ManyGets => 3,
            Workload::Pipeline => 4,
            Workload::CellsByHand => 6,
        }
    }

    /// Its name.
    pub(crate) fn name(self) -> &'static str {
        match self {
            Workload::OwnKeys => "own keys",
            Workload::RandomKeys => "random keys",
            Workload::ManyGets => "many gets",
            Workload::Pipeline => "pipeline",
            Workload::CellsByHand => "cells by hand",
        }
    }
}

/// Runs a workload on a store of its own. The one error is want of memory.
pub(crate) fn run<R: Threads + Sync>(
    rt: &R,
    alloc: Global,
    workload: Workload,
    extent: Extent,
) -> Result<Report, OpenEnd> {
    let Ok(layout) = layout(alloc) else {
        return Err(OpenEnd::Memory);
    };
    let callers = extent.threads.clamp(1, 16);
    let (store, pass) = Store::open(alloc, Anything, &layout, callers)?;
    match measure(rt, alloc, &store, pass, workload, extent) {
        Ok(report) => Ok(report),
        Err(_) => Err(OpenEnd::Memory),
    }
}
