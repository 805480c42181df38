//! The transaction that gives the next tasks.
ghost use Rattle.std.specs.Prelude.{◌≡◌, true, ◌+◌, ◌*◌, ◌≤◌, ◌^◌, ◌<◌, [], ◌∷◌, length};
ghost use Rattle.serial_terms.specs.declared.call.Call.TheVariants.{QueueLen, Give, CellGet, CellPut};
ghost use Rattle.serial_terms.specs.declared.call.Reply.TheVariants.{Nothing, Value, Flag};
ghost use Rattle.serial_terms.specs.Counts.{numbers_from};
ghost use Rattle.serial_terms.specs.Serial.{outside};
ghost use Rattle.run_stages.specs.Allowed.{gives, next_batch};
ghost use Rattle.run_stages.specs.Ends.{is_fill};
ghost use Rattle.tx_core.specs.Calls.{MayCommit};
ghost use Rattle.tx_store.specs.Bodies.{NoMap, Acts};
ghost use Rattle.run_bodies.specs.Fills.{GoesOnWhere};
ghost use Rattle.run_bodies.specs.RunStores.{IsRunStore, work_of_run};

use crate::told::told_law;
use run_purpose::RunPurpose;
use run_stages::from_capture::tasks_have_facts_law;
use std::alloc::{AllocError, Global};
use tx_core::Stop;
use tx_store::{Body, BodyStop, StoreTx};

/// The greatest number of tasks that are given at once.
const BATCH: u64 = 4096;

/// Gives the next tasks to the pool, 4,096 at most, and counts one fill more. It may run where tasks are left that were never given.
///
/// The queue is to be empty, the fills so far are to be as many as told, and each task is to find a free slot. Where one of these
/// isn't so, the attempt is given up as if memory were wanting.
#[derive(Drop)]
pub struct Filling<'r, 'b> {
    pub run: &'r RunPurpose<'b>,
    /// How many fills there were.
    pub fills: u64,
}

impl<'r, 'b> Body<RunPurpose<'b>> for Filling<'r, 'b> {
    type Out = ();

    ghost can_run = { λ f store. IsRunStore f.run.now store × (4096 * (f.fills + 1) < length f.run.now.plan.now.tasks.items) };

    ghost runs = { λ f calls out. is_fill calls ≡ 1 };

    ghost keys_full = { λ _. NoMap };

    fn body(
        &mut self,
        _alloc: Global,
        tx: &mut StoreTx<'_, RunPurpose<'b>>,
    ) -> Result<(), BodyStop> {
        told_law(self.run, tx);
        tasks_have_facts_law();
        match count_fill(tx, self.fills) {
            Ok(()) => {}
            Err(stop) => return Err(stop),
        }
        give_batch(self.run, tx, self.fills)
    }
}

// Counts one fill more, where the queue is empty and there were so many fills.
fn count_fill(tx: &mut StoreTx<'_, RunPurpose<'_>>, fills: u64) -> Result<(), BodyStop>
    requires callable { MayCommit tx.old.attempt }
    requires queue { 0 < length tx.old.store.table.meaning.plan.queues }
    requires cell { 0 < tx.old.store.table.meaning.plan.cells }
    requires fills { fills < 2 ^ 32 }
    ensures { Acts NoMap tx.old tx.new (λ _. outside (QueueLen 0) (Value 0) ∷ outside (CellGet 0) (Value fills) ∷ outside (CellPut 0 (fills + 1)) Nothing ∷ []) result }
{
    match is_empty(tx) {
        Ok(()) => {}
        Err(stop) => return Err(stop),
    }
    match has_count(tx, fills) {
        Ok(()) => {}
        Err(stop) => return Err(stop),
    }
    put_count(tx, fills + 1)
}

// The queue is empty, or the attempt is given up.
fn is_empty(tx: &mut StoreTx<'_, RunPurpose<'_>>) -> Result<(), BodyStop>
    requires callable { MayCommit tx.old.attempt }
    requires queue { 0 < length tx.old.store.table.meaning.plan.queues }
    ensures { Acts NoMap tx.old tx.new (λ _. outside (QueueLen 0) (Value 0) ∷ []) result }
{
    match tx.queue_len(0) {
        Ok(length) => only_where(length == 0),
        Err(stop) => Err(BodyStop::Stop(stop)),
    }
}

// Plain cell 0 has this number, or the attempt is given up.
fn has_count(tx: &mut StoreTx<'_, RunPurpose<'_>>, fills: u64) -> Result<(), BodyStop>
    requires callable { MayCommit tx.old.attempt }
    requires cell { 0 < tx.old.store.table.meaning.plan.cells }
    ensures { Acts NoMap tx.old tx.new (λ _. outside (CellGet 0) (Value fills) ∷ []) result }
{
    match tx.cell_get(0) {
        Ok(there) => only_where(there == fills),
        Err(stop) => Err(BodyStop::Stop(stop)),
    }
}

// Gives plain cell 0 this number.
fn put_count(tx: &mut StoreTx<'_, RunPurpose<'_>>, fills: u64) -> Result<(), BodyStop>
    requires callable { MayCommit tx.old.attempt }
    requires cell { 0 < tx.old.store.table.meaning.plan.cells }
    ensures { Acts NoMap tx.old tx.new (λ _. outside (CellPut 0 fills) Nothing ∷ []) result }
{
    match tx.cell_put(0, fills) {
        Ok(()) => Ok(()),
        Err(AllocError) => Err(BodyStop::Stop(Stop::Memory)),
    }
}

// Puts a task into the pool, by a walk from this slot on; where no slot is free the attempt is given up.
fn give(tx: &mut StoreTx<'_, RunPurpose<'_>>, task: u32, from: u32) -> Result<(), BodyStop>
    requires callable { MayCommit tx.old.attempt }
    requires pool { 0 < length tx.old.store.table.meaning.plan.pools }
    ensures { Acts NoMap tx.old tx.new (λ _. outside (Give 0 task) (Flag true) ∷ []) result }
{
    match tx.pool_put(0, u64::from(task), from) {
        Ok(given) => only_where(given),
        Err(stop) => Err(BodyStop::Stop(stop)),
    }
}

// Goes on only where it is so.
fn only_where(is: bool) -> Result<(), BodyStop>
    ensures { GoesOnWhere is result }
{
    if is {
        Ok(())
    } else {
        Err(BodyStop::Stop(Stop::Memory))
    }
}

// Gives the tasks behind those of so many fills.
fn give_batch<'b>(
    run: &RunPurpose<'b>,
    tx: &mut StoreTx<'_, RunPurpose<'b>>,
    fills: u64,
) -> Result<(), BodyStop>
    requires callable { MayCommit tx.old.attempt }
    requires store { IsRunStore run.now tx.old.store }
    requires left { 4096 * (fills + 1) < length run.now.plan.now.tasks.items }
    ensures { Acts NoMap tx.old tx.new (λ _. gives (work_of_run run.now) (next_batch (work_of_run run.now) fills)) result }
{
    told_law(run, tx);
    tasks_have_facts_law();
    let first = BATCH * (fills + 1);
    let end = (run.plan.tasks.len() as u64).min(first + BATCH);
    give_all(run, tx, first as u32, (end - first) as u32)
}

// Gives so many tasks from a first one on, each by a walk that begins at the slot of its place among them.
fn give_all<'b>(
    _run: &RunPurpose<'b>,
    tx: &mut StoreTx<'_, RunPurpose<'b>>,
    first: u32,
    count: u32,
) -> Result<(), BodyStop>
    requires callable { MayCommit tx.old.attempt }
    requires pool { 0 < length tx.old.store.table.meaning.plan.pools }
    requires small { first + count < 2 ^ 32 }
    ensures { Acts NoMap tx.old tx.new (λ _. gives (work_of_run _run.now) (numbers_from first count)) result }
{
    for place in 0..count {
        match give(tx, first + place, place) {
            Ok(()) => {}
            Err(stop) => return Err(stop),
        }
    }
    Ok(())
}
