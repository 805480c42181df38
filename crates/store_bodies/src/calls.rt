// The calls on a bank's store, as a body hands on what they answer.
ghost use Rattle.std.specs.Prelude.{◌≡◌, ◌-◌, ◌^◌, ◌<◌, [], ◌∷◌};
ghost use Rattle.serial_terms.specs.declared.call.Call.TheVariants.{MapGet, MapPut, Enqueue, Dequeue, Append};
ghost use Rattle.serial_terms.specs.declared.call.Reply.TheVariants.{Nothing};
ghost use Rattle.serial_terms.specs.Renaming.{by_key};
ghost use Rattle.serial_terms.specs.Serial.{outside, found};
ghost use Rattle.tx_store.specs.Bodies.{NoMap, Acts};
ghost use Rattle.store_bodies.specs.Attempts.{IsReady, RunsFromBank};

use crate::bank::{Bank, ORDERS, RECEIPTS};
use std::alloc::AllocError;
use tx_core::Stop;
use tx_store::{BodyStop, StoreTx};

/// The first order, if there is one, which is taken out of the queue.
pub(crate) fn take_order(tx: &mut StoreTx<'_, Bank>) -> Result<Option<u64>, BodyStop>
    requires ready { IsReady tx.old }
    ensures { Acts NoMap tx.old tx.new (λ order. outside (Dequeue 0) (found order) ∷ []) result }
{
    match tx.queue_dequeue(ORDERS) {
        Ok(order) => Ok(order),
        Err(stop) => Err(BodyStop::from(stop)),
    }
}

/// An order comes last into the queue.
pub(crate) fn add_order(tx: &mut StoreTx<'_, Bank>, order: u64) -> Result<(), BodyStop>
    requires ready { IsReady tx.old }
    requires order { order < 2 ^ 64 - 1 }
    ensures { Acts NoMap tx.old tx.new (λ _. outside (Enqueue 0 order) Nothing ∷ []) result }
{
    match tx.queue_enqueue(ORDERS, order) {
        Ok(()) => Ok(()),
        Err(AllocError) => Err(BodyStop::Stop(Stop::Memory)),
    }
}

/// What an account has, if it was ever set.
pub(crate) fn look(
    tx: &mut StoreTx<'_, Bank>,
    map: u32,
    account: u64,
) -> Result<Option<u64>, BodyStop>
    requires ready { IsReady tx.old }
    requires account { (map < 2) × (account < 4) }
    ensures { Acts NoMap tx.old tx.new (λ there. outside (MapGet map account) (found there) ∷ []) result }
{
    match tx.map_get(map, account) {
        Ok(there) => Ok(there),
        Err(stop) => Err(BodyStop::of_map(map, stop)),
    }
}

/// Sets an account.
pub(crate) fn set(
    tx: &mut StoreTx<'_, Bank>,
    map: u32,
    account: u64,
    amount: u64,
) -> Result<(), BodyStop>
    requires ready { IsReady tx.old }
    requires account { (map < 2) × (account < 4) }
    requires amount { amount < 2 ^ 64 - 1 }
    ensures { Acts NoMap tx.old tx.new (λ _. outside (MapPut map account amount) Nothing ∷ []) result }
{
    match tx.map_put(map, account, amount) {
        Ok(()) => Ok(()),
        Err(stop) => Err(BodyStop::of_map(map, stop)),
    }
}

/// A receipt comes last into the log.
pub(crate) fn add_receipt(tx: &mut StoreTx<'_, Bank>, amount: u64) -> Result<(), BodyStop>
    requires ready { IsReady tx.old }
    requires amount { amount < 2 ^ 64 - 1 }
    ensures { Acts NoMap tx.old tx.new (λ _. outside (Append 0 amount) Nothing ∷ []) result }
{
    match tx.log_append(RECEIPTS, amount) {
        Ok(()) => Ok(()),
        Err(AllocError) => Err(BodyStop::Stop(Stop::Memory)),
    }
}

/// All that the attempt was answered so far it was answered by one bank, also where it will fail.
pub(crate) fn bank_law(tx: &StoreTx<'_, Bank>)
    ensures { RunsFromBank (by_key tx.now.attempt.notes) }
{
    tx.seen_law();
    tx.tells_law();
}
