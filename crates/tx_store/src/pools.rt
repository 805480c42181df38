//! The calls of pools.
ghost use Rattle.std.specs.Prelude.{◌≡◌, ◌*◌, ◌-◌, ◌^◌, ◌<◌, length, get_or, All};
ghost use Rattle.serial_terms.specs.declared.call.Call.TheVariants.{Take, Give};
ghost use Rattle.serial_terms.specs.declared.call.Reply.TheVariants.{Flag};
ghost use Rattle.serial_terms.specs.Serial.{found};
ghost use Rattle.store_layout.specs.Shapes.{the_pool, cells_of};
ghost use Rattle.store_parts.specs.Parts.{noted};
ghost use Rattle.tx_core.specs.Calls.{MayCall, stop_in};
ghost use Rattle.tx_store.specs.Calls.{in_child, done_in, Makes};

use crate::notes::note_call;
use crate::parts::pool_of;
use serial_terms::{Call, Reply};
use std::alloc::AllocError;
use store_layout::CellPlan;
use store_meaning::laws::attempts_follow_law;
use store_meaning::{Purpose, StoreMeaning};
use store_parts::laws::pool_calls_law;
use tx_core::{Stop, Tx};

/// Takes an item of a pool.
pub(crate) fn take_item<P: Purpose>(
    tx: &mut Tx<'_, StoreMeaning<P>>,
    plan: &CellPlan,
    pool: u32,
    from: u32,
) -> Result<Option<u64>, Stop>
    requires callable { MayCall tx.old }
    requires sized { length tx.old.table.opening ≡ cells_of plan.now }
    requires pool { pool < length plan.now.pools }
    requires slots { All (λ n. 0 < n) plan.now.pools }
    ensures { Makes P.Keys.passes plan.now (the_pool pool) (6 * get_or plan.now.pools pool 0) tx.old tx.new (done_in (λ item. noted (Take pool) (found item) (in_child tx.old.state) 0) result) (stop_in result) }
{
    attempts_follow_law();
    let part = pool_of(plan, pool);
    pool_calls_law(&part);
    let item = match part.take(tx, from) {
        Ok(item) => item,
        Err(stop) => return Err(stop),
    };
    match note_call(tx, Call::Take { pool }, reply_of(item), 0) {
        Ok(()) => Ok(item),
        Err(AllocError) => Err(Stop::Memory),
    }
}

/// Puts an item into a pool.
pub(crate) fn give_item<P: Purpose>(
    tx: &mut Tx<'_, StoreMeaning<P>>,
    plan: &CellPlan,
    pool: u32,
    value: u64,
    from: u32,
) -> Result<bool, Stop>
    requires callable { MayCall tx.old }
    requires sized { length tx.old.table.opening ≡ cells_of plan.now }
    requires pool { pool < length plan.now.pools }
    requires slots { All (λ n. 0 < n) plan.now.pools }
    requires value { value < 2 ^ 64 - 1 }
    ensures { Makes P.Keys.passes plan.now (the_pool pool) (6 * get_or plan.now.pools pool 0) tx.old tx.new (done_in (λ done. noted (Give pool value) (Flag done) (in_child tx.old.state) 0) result) (stop_in result) }
{
    attempts_follow_law();
    let part = pool_of(plan, pool);
    pool_calls_law(&part);
    let done = match part.put(tx, value, from) {
        Ok(done) => done,
        Err(stop) => return Err(stop),
    };
    match note_call(tx, Call::Give { pool, value }, Reply::Flag(done), 0) {
        Ok(()) => Ok(done),
        Err(AllocError) => Err(Stop::Memory),
    }
}

/// The reply of a call that may find nothing.
pub(crate) fn reply_of(there: Option<u64>) -> Reply
    ensures { result ≡ found there }
{
    match there {
        Some(value) => Reply::Value(value),
        None => Reply::Absent,
    }
}
