//! A pipeline of two transactions: the first hands a slot on, the second takes it over and puts it back.
ghost use Rattle.std.specs.Prelude.{◌≡◌, ◌-◌, ◌^◌, ◌<◌, [], ◌∷◌};
ghost use Rattle.serial_terms.specs.declared.call.Call.TheVariants.{MapRemove, Append, Give};
ghost use Rattle.tx_store.specs.Bodies.{AnyMap};
ghost use Rattle.store_benchmark.specs.Asked.{asked, Asks, starts, finishes};
ghost use Rattle.store_benchmark.specs.Opened.{IsOpened, IsReady};

use crate::calls::{append, dequeue, enqueue, give, put, remove, take};
use crate::open::SLOTS;
use std::alloc::Global;
use tx_store::{Anything, Body, BodyStop, StoreTx};

/// Takes a slot of the pool, puts a value for it into the map, and puts it last into the queue.
#[derive(Drop)]
pub(crate) struct Start {
    /// Where the walk of the pool begins.
    pub from: u32,
    pub value: u64,
    /// How often it ran.
    pub runs: u32,
}

impl Body<Anything> for Start {
    type Out = Option<u64>;

    ghost can_run = { λ body store. IsOpened store × (body.value < 2 ^ 64 - 1) };

    ghost runs = { λ body calls slot. asked calls ≡ starts body.value slot };

    ghost keys_full = { λ _. AnyMap };

    fn body(&mut self, _: Global, tx: &mut StoreTx<'_, Anything>) -> Result<Option<u64>, BodyStop> {
        self.runs = self.runs.saturating_add(1);
        hand_on(tx, self.from, self.value)
    }
}

fn hand_on(tx: &mut StoreTx<'_, Anything>, from: u32, value: u64) -> Result<Option<u64>, BodyStop>
    requires ready { IsReady tx.old }
    requires value { value < 2 ^ 64 - 1 }
    ensures { Asks tx.old tx.new (λ slot. starts value slot) result }
{
    let Some(item) = take(tx, from)? else {
        return Ok(None);
    };
    let slot = item % SLOTS;
    put(tx, slot, value)?;
    enqueue(tx, slot)?;
    Ok(Some(slot))
}

/// Takes the first slot out of the queue, removes its value, adds it to the log, and puts it back into the pool.
#[derive(Drop)]
pub(crate) struct Finish {
    /// How often it ran.
    pub runs: u32,
}

impl Body<Anything> for Finish {
    type Out = Option<u64>;

    ghost can_run = { λ _ store. IsOpened store };

    ghost runs = { λ _ calls slot. asked calls ≡ finishes slot };

    ghost keys_full = { λ _. AnyMap };

    fn body(&mut self, _: Global, tx: &mut StoreTx<'_, Anything>) -> Result<Option<u64>, BodyStop> {
        self.runs = self.runs.saturating_add(1);
        take_over(tx)
    }
}

fn take_over(tx: &mut StoreTx<'_, Anything>) -> Result<Option<u64>, BodyStop>
    requires ready { IsReady tx.old }
    ensures { Asks tx.old tx.new (λ slot. finishes slot) result }
{
    let Some(item) = dequeue(tx)? else {
        return Ok(None);
    };
    let slot = item % SLOTS;
    put_back(tx, slot)?;
    Ok(Some(slot))
}

fn put_back(tx: &mut StoreTx<'_, Anything>, slot: u64) -> Result<(), BodyStop>
    requires ready { IsReady tx.old }
    requires slot { slot < 1024 }
    ensures { Asks tx.old tx.new (λ _. MapRemove 0 slot ∷ Append 0 slot ∷ Give 0 slot ∷ []) result }
{
    remove(tx, slot)?;
    append(tx, slot)?;
    give(tx, slot, slot as u32)?;
    Ok(())
}
