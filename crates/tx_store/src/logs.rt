//! The calls of logs.
ghost use Rattle.std.specs.Prelude.{◌≡◌, ◌-◌, ◌^◌, ◌<◌, length};
ghost use Rattle.serial_terms.specs.declared.call.Call.TheVariants.{Append, AppendPlaced, LogRead, LogLen};
ghost use Rattle.serial_terms.specs.declared.call.Reply.TheVariants.{Nothing, Value};
ghost use Rattle.serial_terms.specs.Serial.{found};
ghost use Rattle.store_layout.specs.Shapes.{the_log, cells_of};
ghost use Rattle.store_parts.specs.Parts.{noted};
ghost use Rattle.tx_core.specs.Calls.{MayCall, stop_in, memory_in};
ghost use Rattle.tx_store.specs.Calls.{in_child, done_in, Makes};

use crate::notes::note_call;
use crate::parts::log_of;
use crate::pools::reply_of;
use serial_terms::{Call, Reply};
use std::alloc::AllocError;
use store_layout::CellPlan;
use store_meaning::laws::attempts_follow_law;
use store_meaning::{Purpose, StoreMeaning};
use store_parts::laws::log_calls_law;
use tx_core::{Stop, Tx};

/// Adds a value to the end of a log when the attempt commits.
pub(crate) fn append_value<P: Purpose>(
    tx: &mut Tx<'_, StoreMeaning<P>>,
    plan: &CellPlan,
    log: u32,
    value: u64,
) -> Result<(), AllocError>
    requires callable { MayCall tx.old }
    requires log { log < length plan.now.logs }
    requires value { value < 2 ^ 64 - 1 }
    ensures { Makes P.Keys.passes plan.now (the_log log) 0 tx.old tx.new (done_in (λ _. noted (Append log value) Nothing (in_child tx.old.state) 0) result) (memory_in result) }
{
    attempts_follow_law();
    let part = log_of(plan, log);
    log_calls_law(&part);
    match part.append(tx, value) {
        Ok(()) => {}
        Err(memory) => return Err(memory),
    }
    match note_call(tx, Call::Append { log, value }, Reply::Nothing, 0) {
        Ok(()) => Ok(()),
        Err(memory) => Err(memory),
    }
}

/// How many values a log has.
pub(crate) fn length_of<P: Purpose>(
    tx: &mut Tx<'_, StoreMeaning<P>>,
    plan: &CellPlan,
    log: u32,
) -> Result<u64, Stop>
    requires callable { MayCall tx.old }
    requires sized { length tx.old.table.opening ≡ cells_of plan.now }
    requires log { log < length plan.now.logs }
    ensures { Makes P.Keys.passes plan.now (the_log log) 3 tx.old tx.new (done_in (λ n. noted (LogLen log) (Value n) (in_child tx.old.state) 0) result) (stop_in result) }
{
    attempts_follow_law();
    let part = log_of(plan, log);
    log_calls_law(&part);
    let length = match part.len(tx) {
        Ok(length) => length,
        Err(stop) => return Err(stop),
    };
    match note_call(tx, Call::LogLen { log }, Reply::Value(length), 0) {
        Ok(()) => Ok(length),
        Err(AllocError) => Err(Stop::Memory),
    }
}

/// The value at a place of a log.
pub(crate) fn value_at<P: Purpose>(
    tx: &mut Tx<'_, StoreMeaning<P>>,
    plan: &CellPlan,
    log: u32,
    i: u64,
) -> Result<Option<u64>, Stop>
    requires callable { MayCall tx.old }
    requires sized { length tx.old.table.opening ≡ cells_of plan.now }
    requires log { log < length plan.now.logs }
    ensures { Makes P.Keys.passes plan.now (the_log log) 6 tx.old tx.new (done_in (λ x. noted (LogRead log i) (found x) (in_child tx.old.state) 0) result) (stop_in result) }
{
    attempts_follow_law();
    let part = log_of(plan, log);
    log_calls_law(&part);
    let value = match part.read(tx, i) {
        Ok(value) => value,
        Err(stop) => return Err(stop),
    };
    match note_call(tx, Call::LogRead { log, i }, reply_of(value), 0) {
        Ok(()) => Ok(value),
        Err(AllocError) => Err(Stop::Memory),
    }
}

/// Adds a value to the end of a log when the attempt commits, and answers its place.
pub(crate) fn append_placed<P: Purpose>(
    tx: &mut Tx<'_, StoreMeaning<P>>,
    plan: &CellPlan,
    log: u32,
    value: u64,
) -> Result<u64, Stop>
    requires callable { MayCall tx.old }
    requires sized { length tx.old.table.opening ≡ cells_of plan.now }
    requires log { log < length plan.now.logs }
    requires value { value < 2 ^ 64 - 1 }
    ensures { Makes P.Keys.passes plan.now (the_log log) 3 tx.old tx.new (done_in (λ n. noted (AppendPlaced log value) (Value n) (in_child tx.old.state) 0) result) (stop_in result) }
{
    attempts_follow_law();
    let part = log_of(plan, log);
    log_calls_law(&part);
    let place = match part.append_placed(tx, value) {
        Ok(place) => place,
        Err(stop) => return Err(stop),
    };
    match note_call(
        tx,
        Call::AppendPlaced { log, value },
        Reply::Value(place),
        0,
    ) {
        Ok(()) => Ok(place),
        Err(AllocError) => Err(Stop::Memory),
    }
}
