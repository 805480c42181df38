// The calls of the workloads, as a body hands on what they answer.
ghost use Rattle.std.specs.Prelude.{◌-◌, ◌^◌, ◌<◌, [], ◌∷◌};
ghost use Rattle.serial_terms.specs.declared.call.Call.TheVariants.{MapGet, MapPut, MapRemove, Enqueue, Dequeue, Take, Give, Append, CellGet, CellPut};
ghost use Rattle.store_benchmark.specs.Asked.{Asks};
ghost use Rattle.store_benchmark.specs.Opened.{IsReady};

use std::alloc::AllocError;
use tx_core::Stop;
use tx_store::{Anything, BodyStop, StoreTx};

pub(crate) fn get(tx: &mut StoreTx<'_, Anything>, key: u64) -> Result<Option<u64>, BodyStop>
    requires ready { IsReady tx.old }
    requires key { key < 2 ^ 64 - 1 }
    ensures { Asks tx.old tx.new (λ _. MapGet 0 key ∷ []) result }
{
    match tx.map_get(0, key) {
        Ok(there) => Ok(there),
        Err(stop) => Err(BodyStop::of_map(0, stop)),
    }
}

pub(crate) fn put(tx: &mut StoreTx<'_, Anything>, key: u64, value: u64) -> Result<(), BodyStop>
    requires ready { IsReady tx.old }
    requires key { key < 2 ^ 64 - 1 }
    requires value { value < 2 ^ 64 - 1 }
    ensures { Asks tx.old tx.new (λ _. MapPut 0 key value ∷ []) result }
{
    match tx.map_put(0, key, value) {
        Ok(()) => Ok(()),
        Err(stop) => Err(BodyStop::of_map(0, stop)),
    }
}

pub(crate) fn remove(tx: &mut StoreTx<'_, Anything>, key: u64) -> Result<(), BodyStop>
    requires ready { IsReady tx.old }
    requires key { key < 2 ^ 64 - 1 }
    ensures { Asks tx.old tx.new (λ _. MapRemove 0 key ∷ []) result }
{
    match tx.map_remove(0, key) {
        Ok(()) => Ok(()),
        Err(stop) => Err(BodyStop::of_map(0, stop)),
    }
}

pub(crate) fn take(tx: &mut StoreTx<'_, Anything>, from: u32) -> Result<Option<u64>, BodyStop>
    requires ready { IsReady tx.old }
    ensures { Asks tx.old tx.new (λ _. Take 0 ∷ []) result }
{
    match tx.pool_take(0, from) {
        Ok(item) => Ok(item),
        Err(stop) => Err(BodyStop::from(stop)),
    }
}

pub(crate) fn give(tx: &mut StoreTx<'_, Anything>, item: u64, from: u32) -> Result<bool, BodyStop>
    requires ready { IsReady tx.old }
    requires item { item < 2 ^ 64 - 1 }
    ensures { Asks tx.old tx.new (λ _. Give 0 item ∷ []) result }
{
    match tx.pool_put(0, item, from) {
        Ok(done) => Ok(done),
        Err(stop) => Err(BodyStop::from(stop)),
    }
}

pub(crate) fn enqueue(tx: &mut StoreTx<'_, Anything>, value: u64) -> Result<(), BodyStop>
    requires ready { IsReady tx.old }
    requires value { value < 2 ^ 64 - 1 }
    ensures { Asks tx.old tx.new (λ _. Enqueue 0 value ∷ []) result }
{
    match tx.queue_enqueue(0, value) {
        Ok(()) => Ok(()),
        Err(AllocError) => Err(BodyStop::Stop(Stop::Memory)),
    }
}

pub(crate) fn dequeue(tx: &mut StoreTx<'_, Anything>) -> Result<Option<u64>, BodyStop>
    requires ready { IsReady tx.old }
    ensures { Asks tx.old tx.new (λ _. Dequeue 0 ∷ []) result }
{
    match tx.queue_dequeue(0) {
        Ok(value) => Ok(value),
        Err(stop) => Err(BodyStop::from(stop)),
    }
}

pub(crate) fn append(tx: &mut StoreTx<'_, Anything>, value: u64) -> Result<(), BodyStop>
    requires ready { IsReady tx.old }
    requires value { value < 2 ^ 64 - 1 }
    ensures { Asks tx.old tx.new (λ _. Append 0 value ∷ []) result }
{
    match tx.log_append(0, value) {
        Ok(()) => Ok(()),
        Err(AllocError) => Err(BodyStop::Stop(Stop::Memory)),
    }
}

pub(crate) fn read_cell(tx: &mut StoreTx<'_, Anything>, cell: u32) -> Result<u64, BodyStop>
    requires ready { IsReady tx.old }
    requires cell { cell < 2 }
    ensures { Asks tx.old tx.new (λ _. CellGet cell ∷ []) result }
{
    match tx.cell_get(cell) {
        Ok(value) => Ok(value),
        Err(stop) => Err(BodyStop::from(stop)),
    }
}

pub(crate) fn write_cell(
    tx: &mut StoreTx<'_, Anything>,
    cell: u32,
    value: u64,
) -> Result<(), BodyStop>
    requires ready { IsReady tx.old }
    requires cell { cell < 2 }
    ensures { Asks tx.old tx.new (λ _. CellPut cell value ∷ []) result }
{
    match tx.cell_put(cell, value) {
        Ok(()) => Ok(()),
        Err(AllocError) => Err(BodyStop::Stop(Stop::Memory)),
    }
}
