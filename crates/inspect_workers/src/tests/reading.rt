//! What a store of a run holds, as an attempt reads it that is then aborted.
ghost use Rattle.std.specs.Prelude.{◌≡◌, ◌<◌, false, length};
ghost use Rattle.cell_table.specs.Steps.{IsIdle};
ghost use Rattle.tx_store.specs.Stores.{IsPassOfStore};
ghost use Rattle.inspect_workers.specs.Opened.{IsOpened};

use run_purpose::RunPurpose;
use std::alloc::Global;
use tx_core::{Stop, TxState};
use tx_store::{Store, StorePass, StoreTx};

/// The values of the log, how many items are in the queue, and one of the pool, if there are any.
#[derive(Debug, Drop)]
pub(super) struct Held {
    pub(super) log: Vec<u64>,
    pub(super) queued: u64,
    pub(super) pooled: Option<u64>,
}

/// What the store holds now.
pub(super) fn held_in<'b>(
    alloc: Global,
    store: &Store<RunPurpose<'b>>,
    pass: StorePass<RunPurpose<'b>>,
    run: &RunPurpose<'b>,
) -> Result<Held, Stop>
    requires store { IsOpened run.now store.now }
    requires pass { IsPassOfStore store.now pass × IsIdle pass.pass.view }
{
    if pass.draws_left() == 0 {
        return Err(Stop::Memory);
    }
    tell_parts(store, run);
    let mut tx = match StoreTx::begin(alloc, store, pass) {
        Ok(tx) => tx,
        Err(_) => return Err(Stop::Memory),
    };
    let held = read_all(alloc, &mut tx);
    let _ = tx.abort();
    held
}

// The store of a run has a log, a queue and a pool.
fn tell_parts<'b>(store: &Store<RunPurpose<'b>>, run: &RunPurpose<'b>)
    requires { IsOpened run.now store.now }
    ensures { (0 < length store.now.table.meaning.plan.logs) × (0 < length store.now.table.meaning.plan.queues) × (0 < length store.now.table.meaning.plan.pools) }
{}

fn read_all(alloc: Global, tx: &mut StoreTx<'_, RunPurpose<'_>>) -> Result<Held, Stop>
    requires before { tx.old.attempt.committing ≡ false }
    requires log { 0 < length tx.old.store.table.meaning.plan.logs }
    requires queue { 0 < length tx.old.store.table.meaning.plan.queues }
    requires pool { 0 < length tx.old.store.table.meaning.plan.pools }
{
    let log = values_of_log(alloc, tx)?;
    let queued = items_of_queue(tx)?;
    let pooled = item_of_pool(tx)?;
    Ok(Held {
        log,
        queued,
        pooled,
    })
}

fn values_of_log(alloc: Global, tx: &mut StoreTx<'_, RunPurpose<'_>>) -> Result<Vec<u64>, Stop>
    requires before { tx.old.attempt.committing ≡ false }
    requires log { 0 < length tx.old.store.table.meaning.plan.logs }
    ensures { (tx.new.store ≡ tx.old.store) × (tx.new.attempt.committing ≡ false) }
{
    let mut log = Vec::new(alloc);
    for at in 0..100 {
        let Some(value) = value_at(tx, at)? else {
            break;
        };
        if log.push(value).is_err() {
            return Err(Stop::Memory);
        }
    }
    Ok(log)
}

// The value at a place of the log, if it is that long.
fn value_at(tx: &mut StoreTx<'_, RunPurpose<'_>>, at: u64) -> Result<Option<u64>, Stop>
    requires before { tx.old.attempt.committing ≡ false }
    requires log { 0 < length tx.old.store.table.meaning.plan.logs }
    ensures { (tx.new.store ≡ tx.old.store) × (tx.new.attempt.committing ≡ false) }
{
    if tx.state() != TxState::Running {
        return Err(Stop::Memory);
    }
    tx.log_read(0, at)
}

fn items_of_queue(tx: &mut StoreTx<'_, RunPurpose<'_>>) -> Result<u64, Stop>
    requires before { tx.old.attempt.committing ≡ false }
    requires queue { 0 < length tx.old.store.table.meaning.plan.queues }
    ensures { (tx.new.store ≡ tx.old.store) × (tx.new.attempt.committing ≡ false) }
{
    if tx.state() != TxState::Running {
        return Err(Stop::Memory);
    }
    tx.queue_len(0)
}

fn item_of_pool(tx: &mut StoreTx<'_, RunPurpose<'_>>) -> Result<Option<u64>, Stop>
    requires before { tx.old.attempt.committing ≡ false }
    requires pool { 0 < length tx.old.store.table.meaning.plan.pools }
{
    if tx.state() != TxState::Running {
        return Err(Stop::Memory);
    }
    tx.pool_take(0, 0)
}
