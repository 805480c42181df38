//! The batches of a run: all workers take and match the tasks that were given, and then the next ones are given.
ghost use Rattle.std.specs.Prelude.{◌+◌, ◌*◌, ◌^◌, ◌<◌, ◌≤◌, length, IfOk, IfErr};
ghost use Rattle.capture_terms.specs.Plan.{IsPlanned};
ghost use Rattle.run_bodies.specs.Records.{AreAhead};
ghost use Rattle.inspect_workers.specs.Batches.{HasBatchEnded, MayGoOn, HasGivenAll};
ghost use Rattle.inspect_workers.specs.Inspected.{IsInspectEnd};
ghost use Rattle.inspect_workers.specs.Opened.{IsOpenedFor};
ghost use Rattle.inspect_workers.specs.Seats.{AreFree, IsWholeAtRest};
ghost use Rattle.inspect_workers.specs.Works.{most_draws};

use crate::fills::{RefillEnd, refill};
use crate::inspection::InspectEnd;
use crate::seats::{Seat, batch};
use crate::works::{WorkEnd, work_ahead};
use capture_terms::task_law;
use run_bodies::{Gate, Quiet};
use run_findings::{Slot, find_ahead};
use run_purpose::{RunPurpose, run_opens_lawful_law};
use run_stages::from_capture::{datagrams_are_listed_law, tasks_have_facts_law};
use std::alloc::{AllocError, Global};
use std::thread::Threads;
use tx_store::{Store, StorePass};

/// Runs one batch after another until every task was given, and all that was given is done. The log may have so many findings.
pub(crate) fn all_batches<'b, R: Threads + Sync, G: Gate + Send + Drop>(
    rt: &R,
    alloc: Global,
    store: &Store<RunPurpose<'b>>,
    pass: StorePass<RunPurpose<'b>>,
    run: &RunPurpose<'b>,
    findings: u32,
    seats: &mut Vec<Seat<'b, G>>,
) -> Result<StorePass<RunPurpose<'b>>, InspectEnd>
    requires store { IsOpenedFor run.now findings store.now }
    requires callers { (0 < store.now.table.callers) × (store.now.table.callers ≤ 16) }
    requires pass { MayGoOn store.now 0 pass }
    requires seats { AreFree store.now.table.callers seats.old.items }
    ensures given { IfOk result (HasGivenAll store.now (length run.now.plan.now.tasks.items)) }
    ensures refused { IfErr result (IsInspectEnd run.now.rules.now run.now.bytes.now run.now.plan.now findings) }
{
    run_opens_lawful_law();
    tasks_have_facts_law();
    let mut pass = pass;
    for fills in 0..64u32 {
        let back = one_batch(rt, alloc, store, pass, run, fills, findings, seats)?;
        let (back, end) = refill(alloc, store, back, run.plan, run.bytes, run.rules, fills);
        match end {
            RefillEnd::NoMore => return Ok(back),
            RefillEnd::Filled => pass = back,
            RefillEnd::Memory => return Err(InspectEnd::Memory),
        }
    }
    unreachable!()
}

// All workers run, and then the pass of all callers does what they left.
fn one_batch<'b, R: Threads + Sync, G: Gate + Send + Drop>(
    rt: &R,
    alloc: Global,
    store: &Store<RunPurpose<'b>>,
    pass: StorePass<RunPurpose<'b>>,
    run: &RunPurpose<'b>,
    fills: u32,
    findings: u32,
    seats: &mut Vec<Seat<'b, G>>,
) -> Result<StorePass<RunPurpose<'b>>, InspectEnd>
    requires store { IsOpenedFor run.now findings store.now }
    requires callers { (0 < store.now.table.callers) × (store.now.table.callers ≤ 16) }
    requires pass { IsWholeAtRest store.now pass }
    requires draws { store.now.table.callers * 2 ^ 33 ≤ pass.pass.view.draws }
    requires fills { fills < 64 }
    requires seats { AreFree store.now.table.callers seats.old.items }
    ensures ended { IfOk result (HasBatchEnded store.now (store.now.table.callers * 2 ^ 32) pass.entry) }
    ensures refused { IfErr result (IsInspectEnd run.now.rules.now run.now.bytes.now run.now.plan.now findings) }
    ensures seats { AreFree store.now.table.callers seats.new.items }
{
    let ahead = found_ahead(rt, alloc, run, fills, seats.len());
    let pass = batch(rt, alloc, store, pass, run, &ahead, seats);
    alone(alloc, store, pass, run, &ahead, findings)
}

// The findings of the whole tasks of the batch after so many fills, found by so many threads. There are none where memory is wanting.
fn found_ahead<'b, R: Threads + Sync>(
    rt: &R,
    alloc: Global,
    run: &RunPurpose<'b>,
    fills: u32,
    threads: usize,
) -> Vec<Slot>
    requires planned { IsPlanned run.now.bytes.now run.now.plan.now }
    requires fills { fills < 64 }
    requires threads { 0 < threads }
    ensures { AreAhead run.now result.items }
{
    run_opens_lawful_law();
    let tasks = run.plan.tasks.len() as u32;
    let first = tasks.min(4096 * fills);
    let count = (tasks - first).min(4096);
    match find_ahead(
        rt, alloc, run.plan, run.bytes, run.rules, first, count, threads,
    ) {
        Ok(slots) => slots,
        Err(AllocError) => Vec::new(alloc),
    }
}

// The pass of all callers works until nothing is left to be done.
fn alone<'b>(
    alloc: Global,
    store: &Store<RunPurpose<'b>>,
    pass: StorePass<RunPurpose<'b>>,
    run: &RunPurpose<'b>,
    ahead: &[Slot],
    findings: u32,
) -> Result<StorePass<RunPurpose<'b>>, InspectEnd>
    requires store { IsOpenedFor run.now findings store.now }
    requires ahead { AreAhead run.now ahead.now }
    requires pass { IsWholeAtRest store.now pass }
    requires draws { 2 ^ 32 ≤ pass.pass.view.draws }
    ensures ended { IfOk result (HasBatchEnded store.now most_draws pass.entry) }
    ensures refused { IfErr result (IsInspectEnd run.now.rules.now run.now.bytes.now run.now.plan.now findings) }
{
    task_law();
    datagrams_are_listed_law();
    let (pass, end) = work_ahead(alloc, store, pass, run, ahead, &mut Quiet, 1);
    match end {
        WorkEnd::Done => Ok(pass),
        WorkEnd::Full { .. } => Err(InspectEnd::LogFull { capacity: findings }),
        WorkEnd::Memory => Err(InspectEnd::Memory),
        WorkEnd::Spent { .. } => unreachable!(),
    }
}
