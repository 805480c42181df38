//! The calls of queues.
ghost use Rattle.std.specs.Prelude.{◌≡◌, ◌-◌, ◌^◌, ◌<◌, length};
ghost use Rattle.serial_terms.specs.declared.call.Call.TheVariants.{Enqueue, Dequeue, QueueLen};
ghost use Rattle.serial_terms.specs.declared.call.Reply.TheVariants.{Nothing, Value};
ghost use Rattle.serial_terms.specs.Serial.{found};
ghost use Rattle.store_layout.specs.Shapes.{the_queue, cells_of};
ghost use Rattle.store_parts.specs.Parts.{noted};
ghost use Rattle.tx_core.specs.Calls.{MayCall, stop_in, memory_in};
ghost use Rattle.tx_store.specs.Calls.{in_child, done_in, Makes, IsCalled};

use crate::notes::note_call;
use crate::parts::queue_of;
use crate::pools::reply_of;
use crate::tx::StoreTx;
use serial_terms::{Call, Reply};
use std::alloc::AllocError;
use store_layout::CellPlan;
use store_meaning::laws::attempts_follow_law;
use store_meaning::{Purpose, StoreMeaning};
use store_parts::laws::queue_calls_law;
use tx_core::{Stop, Tx};

impl<P: Purpose> StoreTx<'_, P> {
    /// Adds a value below 2^64 - 1 to the end of a queue when the attempt commits. It looks at nothing, and is noted. After want of
    /// memory nothing is noted, and the attempt is stopped.
    pub fn queue_enqueue(&mut self, queue: u32, value: u64) -> Result<(), AllocError>
        requires callable { MayCall self.old.attempt }
        requires queue { queue < length self.old.store.table.meaning.plan.queues }
        requires value { value < 2 ^ 64 - 1 }
        ensures { IsCalled self.old.store.table.meaning.plan (the_queue queue) 0 self.old self.new (done_in (λ _. noted (Enqueue queue value) Nothing (in_child self.old.attempt.state) 0) result) (memory_in result) }
    {
        let plan = self.store.plan();
        enqueue_value(&mut self.tx, plan, queue, value)
    }

    /// Takes the first value out of a queue, for which the queue's end is held from now on. `None` comes exactly where there is
    /// none, the attempt's own calls counted. It is noted. After a stop nothing is noted, and the attempt is stopped.
    pub fn queue_dequeue(&mut self, queue: u32) -> Result<Option<u64>, Stop>
        requires callable { MayCall self.old.attempt }
        requires queue { queue < length self.old.store.table.meaning.plan.queues }
        ensures { IsCalled self.old.store.table.meaning.plan (the_queue queue) 6 self.old self.new (done_in (λ x. noted (Dequeue queue) (found x) (in_child self.old.attempt.state) 0) result) (stop_in result) }
    {
        let plan = self.store.plan();
        dequeue_value(&mut self.tx, plan, queue)
    }

    /// How many values a queue has, the attempt's own calls counted. It is noted. After a stop nothing is noted, and the attempt
    /// is stopped.
    pub fn queue_len(&mut self, queue: u32) -> Result<u64, Stop>
        requires callable { MayCall self.old.attempt }
        requires queue { queue < length self.old.store.table.meaning.plan.queues }
        ensures { IsCalled self.old.store.table.meaning.plan (the_queue queue) 3 self.old self.new (done_in (λ n. noted (QueueLen queue) (Value n) (in_child self.old.attempt.state) 0) result) (stop_in result) }
    {
        let plan = self.store.plan();
        queue_length(&mut self.tx, plan, queue)
    }
}

fn enqueue_value<P: Purpose>(
    tx: &mut Tx<'_, StoreMeaning<P>>,
    plan: &CellPlan,
    queue: u32,
    value: u64,
) -> Result<(), AllocError>
    requires callable { MayCall tx.old }
    requires queue { queue < length plan.now.queues }
    requires value { value < 2 ^ 64 - 1 }
    ensures { Makes P.Keys.passes plan.now (the_queue queue) 0 tx.old tx.new (done_in (λ _. noted (Enqueue queue value) Nothing (in_child tx.old.state) 0) result) (memory_in result) }
{
    attempts_follow_law();
    let part = queue_of(plan, queue);
    queue_calls_law(&part);
    match part.enqueue(tx, value) {
        Ok(()) => {}
        Err(memory) => return Err(memory),
    }
    match note_call(tx, Call::Enqueue { queue, value }, Reply::Nothing, 0) {
        Ok(()) => Ok(()),
        Err(memory) => Err(memory),
    }
}

fn dequeue_value<P: Purpose>(
    tx: &mut Tx<'_, StoreMeaning<P>>,
    plan: &CellPlan,
    queue: u32,
) -> Result<Option<u64>, Stop>
    requires callable { MayCall tx.old }
    requires sized { length tx.old.table.opening ≡ cells_of plan.now }
    requires queue { queue < length plan.now.queues }
    ensures { Makes P.Keys.passes plan.now (the_queue queue) 6 tx.old tx.new (done_in (λ x. noted (Dequeue queue) (found x) (in_child tx.old.state) 0) result) (stop_in result) }
{
    attempts_follow_law();
    let part = queue_of(plan, queue);
    queue_calls_law(&part);
    tx.laid_over_law();
    let value = match part.dequeue(tx) {
        Ok(value) => value,
        Err(stop) => return Err(stop),
    };
    tx.laid_over_law();
    match note_call(tx, Call::Dequeue { queue }, reply_of(value), 0) {
        Ok(()) => Ok(value),
        Err(AllocError) => Err(Stop::Memory),
    }
}

fn queue_length<P: Purpose>(
    tx: &mut Tx<'_, StoreMeaning<P>>,
    plan: &CellPlan,
    queue: u32,
) -> Result<u64, Stop>
    requires callable { MayCall tx.old }
    requires sized { length tx.old.table.opening ≡ cells_of plan.now }
    requires queue { queue < length plan.now.queues }
    ensures { Makes P.Keys.passes plan.now (the_queue queue) 3 tx.old tx.new (done_in (λ n. noted (QueueLen queue) (Value n) (in_child tx.old.state) 0) result) (stop_in result) }
{
    attempts_follow_law();
    let part = queue_of(plan, queue);
    queue_calls_law(&part);
    let length = match part.len(tx) {
        Ok(length) => length,
        Err(stop) => return Err(stop),
    };
    match note_call(tx, Call::QueueLen { queue }, Reply::Value(length), 0) {
        Ok(()) => Ok(length),
        Err(AllocError) => Err(Stop::Memory),
    }
}
