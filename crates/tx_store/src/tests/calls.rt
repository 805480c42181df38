//! The calls of an open attempt.
ghost use Rattle.std.specs.Prelude.{◌≡◌, ◌<◌, IsTrue, length};
ghost use Rattle.tx_core.specs.Calls.{MayCall};

use super::script::{Answer, Ask};
use crate::{Anything, StoreTx};

type Attempt<'a> = StoreTx<'a, Anything>;

/// The answer to one call of a running attempt.
pub(super) fn answer(tx: &mut Attempt<'_>, ask: Ask) -> Answer
    requires callable { MayCall tx.old.attempt }
    ensures { tx.new.store ≡ tx.old.store }
{
    match ask {
        Ask::MapGet { key } => map_get(tx, key),
        Ask::MapPut { key, value } => map_put(tx, key, value),
        Ask::MapPutIfAbsent { key, value } => map_put_if_absent(tx, key, value),
        Ask::MapRemove { key } => map_remove(tx, key),
        Ask::Enqueue { value } => enqueue(tx, value),
        Ask::Dequeue => dequeue(tx),
        Ask::QueueLen => queue_len(tx),
        Ask::Take { from } => take(tx, from),
        Ask::Give { value, from } => give(tx, value, from),
        Ask::Append { value } => append(tx, value),
        Ask::AppendPlaced { value } => append_placed(tx, value),
        Ask::LogRead { at } => log_read(tx, at),
        Ask::LogLen => log_len(tx),
        Ask::CellGet => cell_get(tx),
        Ask::CellPut { value } => cell_put(tx, value),
        Ask::Begin | Ask::Commit | Ask::Abort => Answer::Unfit,
    }
}

fn has_map(tx: &Attempt<'_>) -> bool
    ensures { IsTrue result → 0 < length tx.now.store.table.meaning.plan.maps }
{
    !tx.store.plan().map_places().is_empty()
}

fn has_queue(tx: &Attempt<'_>) -> bool
    ensures { IsTrue result → 0 < length tx.now.store.table.meaning.plan.queues }
{
    0 < tx.store.plan().queues()
}

fn has_pool(tx: &Attempt<'_>) -> bool
    ensures { IsTrue result → 0 < length tx.now.store.table.meaning.plan.pools }
{
    !tx.store.plan().pool_places().is_empty()
}

fn has_log(tx: &Attempt<'_>) -> bool
    ensures { IsTrue result → 0 < length tx.now.store.table.meaning.plan.logs }
{
    !tx.store.plan().log_places().is_empty()
}

fn has_cell(tx: &Attempt<'_>) -> bool
    ensures { IsTrue result → 0 < tx.now.store.table.meaning.plan.cells }
{
    0 < tx.store.plan().plain_place().capacity
}

fn map_get(tx: &mut Attempt<'_>, key: u64) -> Answer
    requires callable { MayCall tx.old.attempt }
    ensures { tx.new.store ≡ tx.old.store }
{
    if !has_map(tx) || key == u64::MAX {
        return Answer::Unfit;
    }
    Answer::of_lookup(tx.map_get(0, key))
}

fn map_put(tx: &mut Attempt<'_>, key: u64, value: u64) -> Answer
    requires callable { MayCall tx.old.attempt }
    ensures { tx.new.store ≡ tx.old.store }
{
    if !has_map(tx) || key == u64::MAX || value == u64::MAX {
        return Answer::Unfit;
    }
    Answer::of_change(tx.map_put(0, key, value))
}

fn map_put_if_absent(tx: &mut Attempt<'_>, key: u64, value: u64) -> Answer
    requires callable { MayCall tx.old.attempt }
    ensures { tx.new.store ≡ tx.old.store }
{
    if !has_map(tx) || key == u64::MAX || value == u64::MAX {
        return Answer::Unfit;
    }
    Answer::of_lookup(tx.map_put_if_absent(0, key, value))
}

fn map_remove(tx: &mut Attempt<'_>, key: u64) -> Answer
    requires callable { MayCall tx.old.attempt }
    ensures { tx.new.store ≡ tx.old.store }
{
    if !has_map(tx) || key == u64::MAX {
        return Answer::Unfit;
    }
    Answer::of_change(tx.map_remove(0, key))
}

fn enqueue(tx: &mut Attempt<'_>, value: u64) -> Answer
    requires callable { MayCall tx.old.attempt }
    ensures { tx.new.store ≡ tx.old.store }
{
    if !has_queue(tx) || value == u64::MAX {
        return Answer::Unfit;
    }
    Answer::of_write(tx.queue_enqueue(0, value))
}

fn dequeue(tx: &mut Attempt<'_>) -> Answer
    requires callable { MayCall tx.old.attempt }
    ensures { tx.new.store ≡ tx.old.store }
{
    if !has_queue(tx) {
        return Answer::Unfit;
    }
    Answer::of_found(tx.queue_dequeue(0))
}

fn queue_len(tx: &mut Attempt<'_>) -> Answer
    requires callable { MayCall tx.old.attempt }
    ensures { tx.new.store ≡ tx.old.store }
{
    if !has_queue(tx) {
        return Answer::Unfit;
    }
    Answer::of_number(tx.queue_len(0))
}

fn take(tx: &mut Attempt<'_>, from: u32) -> Answer
    requires callable { MayCall tx.old.attempt }
    ensures { tx.new.store ≡ tx.old.store }
{
    if !has_pool(tx) {
        return Answer::Unfit;
    }
    Answer::of_found(tx.pool_take(0, from))
}

fn give(tx: &mut Attempt<'_>, value: u64, from: u32) -> Answer
    requires callable { MayCall tx.old.attempt }
    ensures { tx.new.store ≡ tx.old.store }
{
    if !has_pool(tx) || value == u64::MAX {
        return Answer::Unfit;
    }
    Answer::of_flag(tx.pool_put(0, value, from))
}

fn append(tx: &mut Attempt<'_>, value: u64) -> Answer
    requires callable { MayCall tx.old.attempt }
    ensures { tx.new.store ≡ tx.old.store }
{
    if !has_log(tx) || value == u64::MAX {
        return Answer::Unfit;
    }
    Answer::of_write(tx.log_append(0, value))
}

fn append_placed(tx: &mut Attempt<'_>, value: u64) -> Answer
    requires callable { MayCall tx.old.attempt }
    ensures { tx.new.store ≡ tx.old.store }
{
    if !has_log(tx) || value == u64::MAX {
        return Answer::Unfit;
    }
    Answer::of_number(tx.log_append_placed(0, value))
}

fn log_read(tx: &mut Attempt<'_>, at: u64) -> Answer
    requires callable { MayCall tx.old.attempt }
    ensures { tx.new.store ≡ tx.old.store }
{
    if !has_log(tx) {
        return Answer::Unfit;
    }
    Answer::of_found(tx.log_read(0, at))
}

fn log_len(tx: &mut Attempt<'_>) -> Answer
    requires callable { MayCall tx.old.attempt }
    ensures { tx.new.store ≡ tx.old.store }
{
    if !has_log(tx) {
        return Answer::Unfit;
    }
    Answer::of_number(tx.log_len(0))
}

fn cell_get(tx: &mut Attempt<'_>) -> Answer
    requires callable { MayCall tx.old.attempt }
    ensures { tx.new.store ≡ tx.old.store }
{
    if !has_cell(tx) {
        return Answer::Unfit;
    }
    Answer::of_number(tx.cell_get(0))
}

fn cell_put(tx: &mut Attempt<'_>, value: u64) -> Answer
    requires callable { MayCall tx.old.attempt }
    ensures { tx.new.store ≡ tx.old.store }
{
    if !has_cell(tx) {
        return Answer::Unfit;
    }
    Answer::of_write(tx.cell_put(0, value))
}
