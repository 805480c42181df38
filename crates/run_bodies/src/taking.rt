//! The transaction that takes a task.
ghost use Rattle.std.specs.Prelude.{◌≡◌, ℕ, ◌-◌, ◌^◌, ◌<◌, true, [], ◌∷◌, ◌++◌, length, get_or, Some, IfOk, IfSome};
ghost use Rattle.serial_terms.specs.declared.call.Call.TheVariants.{MapGet, MapPut, Take};
ghost use Rattle.serial_terms.specs.declared.call.Reply.TheVariants.{Nothing, Value};
ghost use Rattle.serial_terms.specs.Renaming.{by_key};
ghost use Rattle.serial_terms.specs.Serial.{outside, in_child, found};
ghost use Rattle.run_stages.specs.Allowed.{added};
ghost use Rattle.run_stages.specs.Work.{IsMember, task, head_of};
ghost use Rattle.run_purpose.specs.Words.{FitsWord};
ghost use Rattle.tx_nest.specs.Attempts.{IsInChild};
ghost use Rattle.tx_store.specs.Bodies.{NoMap, Acts};
ghost use Rattle.tx_store.specs.Children.{view_of, HasMark};
ghost use Rattle.tx_store.specs.Runs.{IsFresh};
ghost use Rattle.run_bodies.specs.InChild.{ActsInChild, ActsInChildBy};
ghost use Rattle.run_bodies.specs.RunStores.{IsRunStore, MayAdd, work_of_run};
ghost use Rattle.run_bodies.specs.Records.{TookTask, HandsOn, link_of, ready_of};

use crate::child::{enqueue, get, put};
use crate::gate::{Gate, Kind, Point};
use crate::told::told_law;
use run_purpose::{Adding, Item, RunPurpose};
use run_stages::from_capture::tasks_have_facts_law;
use std::alloc::Global;
use tx_core::Stop;
use tx_nest::{ChildBody, nested};
use tx_store::{Body, BodyStop, StoreTx};

/// How many children are tried.
const TRIES: u32 = 8;

/// The greatest number of slots of the pool. A task stands in the slot of its number, counted round these.
const SLOTS: u32 = 4096;

/// Takes a task from the pool, by a walk round its slots from `from` on. In a child a whole frame is put into the queue; a
/// fragment is added to its group, which is put into the queue where it is whole by that.
///
/// It answers whether there was a task. `from` is then the slot behind that of the task.
#[derive(Drop)]
pub struct Taking<'r, 'b, 'g, G> {
    pub run: &'r RunPurpose<'b>,
    pub gate: &'g mut G,
    /// The slot at which the next walk begins, counted round the pool.
    pub from: u32,
    /// The task that was taken last.
    pub task: u32,
    /// Whether its last child ran out of memory.
    pub ran_out: bool,
}

impl<'r, 'b, 'g, G: Gate> Taking<'r, 'b, 'g, G> {
    /// One that begins its walk at the slot `from`.
    pub fn new(run: &'r RunPurpose<'b>, gate: &'g mut G, from: u32) -> Taking<'r, 'b, 'g, G>
        ensures run { result.run.now ≡ run.now }
    {
        Taking {
            run,
            gate,
            from,
            task: 0,
            ran_out: false,
        }
    }
}

impl<'a, 'r, 'b, 'g, G: Gate> ChildBody<StoreTx<'a, RunPurpose<'b>>> for Taking<'r, 'b, 'g, G> {
    type Out = ();

    ghost can_run = { λ t store calls waits. IsRunStore t.run.now store × (t.task < length t.run.now.plan.now.tasks.items) × (by_key calls ≡ outside (Take 0) (Value t.task) ∷ []) };

    ghost runs = { λ t added out. HandsOn (work_of_run t.run.now) t.task (by_key added) };

    ghost ran_out = { λ t. t.ran_out ≡ true };

    fn body(&mut self, tx: &mut StoreTx<'a, RunPurpose<'b>>) -> Result<(), Stop> {
        self.gate.at(Point::ChildBegun);
        match hand_on(self.run, self.gate, tx, self.task) {
            Ok(()) => Ok(()),
            Err(stop) => {
                self.ran_out = stop == Stop::Memory;
                Err(stop)
            }
        }
    }
}

impl<'r, 'b, 'g, G: Gate> Body<RunPurpose<'b>> for Taking<'r, 'b, 'g, G> {
    type Out = bool;

    ghost can_run = { λ t store. IsRunStore t.run.now store };

    ghost runs = { λ t calls taken. TookTask calls taken };

    ghost keys_full = { λ _. NoMap };

    fn body(
        &mut self,
        _alloc: Global,
        tx: &mut StoreTx<'_, RunPurpose<'b>>,
    ) -> Result<bool, BodyStop> {
        self.gate.at(Point::Begun);
        let taken = match take(self.run, self.gate, tx, self.from) {
            Ok(taken) => taken,
            Err(stop) => return Err(stop),
        };
        let Some(task) = taken else {
            self.gate.at(Point::Committing);
            return Ok(false);
        };
        self.task = task;
        match nested(tx, self, TRIES) {
            Ok(()) => {}
            Err(end) => return Err(BodyStop::from(end)),
        }
        self.from = task % SLOTS + 1;
        self.gate.at(Point::Committing);
        Ok(true)
    }
}

// Takes a task from the pool, if there is one.
fn take<'b, G: Gate>(
    run: &RunPurpose<'b>,
    gate: &mut G,
    tx: &mut StoreTx<'_, RunPurpose<'b>>,
    from: u32,
) -> Result<Option<u32>, BodyStop>
    requires fresh { IsFresh tx.old.attempt }
    requires store { IsRunStore run.now tx.old.store }
    ensures acts { Acts NoMap tx.old tx.new (λ taken. outside (Take 0) (found taken) ∷ []) result }
    ensures there { IfOk result (λ taken. (i : ℕ) → taken ≡ Some i → i < length run.now.plan.now.tasks.items) }
{
    told_law(run, tx);
    let item = match tx.pool_take(0, from) {
        Ok(item) => item,
        Err(stop) => return Err(BodyStop::Stop(stop)),
    };
    gate.at(Point::Called(Kind::Take(item.is_some())));
    told_law(run, tx);
    tasks_have_facts_law();
    Ok(task_of(item))
}

// The task that an item of the pool stands for.
fn task_of(item: Option<u64>) -> Option<u32>
    requires { (i : ℕ) → item ≡ Some i → i < 2 ^ 32 }
    ensures { result ≡ item }
{
    match item {
        Some(number) => Some(number as u32),
        None => None,
    }
}

// Hands a taken task on: a whole frame to the queue, a fragment to its group.
fn hand_on<'b, G: Gate>(
    run: &RunPurpose<'b>,
    gate: &mut G,
    tx: &mut StoreTx<'_, RunPurpose<'b>>,
    task: u32,
) -> Result<(), Stop>
    requires child { IsInChild (view_of tx.old) }
    requires marked { HasMark tx.old }
    requires store { IsRunStore run.now tx.old.store }
    requires task { task < length run.now.plan.now.tasks.items }
    requires taken { by_key tx.old.attempt.notes ≡ outside (Take 0) (Value task) ∷ [] }
    ensures { ActsInChildBy tx.old tx.new (λ _. HandsOn (work_of_run run.now) task) result }
{
    told_law(run, tx);
    tasks_have_facts_law();
    match group_of(run, task) {
        None => enqueue(gate, tx, Item::Whole(task).value()),
        Some(group) => match add_to_group(run, gate, tx, group, task) {
            Ok(_) => Ok(()),
            Err(stop) => Err(stop),
        },
    }
}

// The group of a task, if it is a fragment.
fn group_of(run: &RunPurpose<'_>, number: u32) -> Option<u32>
    requires { number < length run.now.plan.now.tasks.items }
    ensures { (task (work_of_run run.now) number).group ≡ result }
{
    tasks_have_facts_law();
    run.plan.tasks[number as usize].group
}

// Adds a taken fragment to its group, and answers the word that the group had.
fn add_to_group<'b, G: Gate>(
    run: &RunPurpose<'b>,
    gate: &mut G,
    tx: &mut StoreTx<'_, RunPurpose<'b>>,
    group: u32,
    task: u32,
) -> Result<Option<u64>, Stop>
    requires child { IsInChild (view_of tx.old) }
    requires marked { HasMark tx.old }
    requires store { IsRunStore run.now tx.old.store }
    requires taken { by_key tx.old.attempt.notes ≡ outside (Take 0) (Value task) ∷ [] }
    requires member { IsMember (work_of_run run.now) group task }
    ensures { ActsInChild tx.old tx.new (added (work_of_run run.now) group task) result }
{
    told_law(run, tx);
    tasks_have_facts_law();
    let old = match word_of(run, gate, tx, group, task) {
        Ok(old) => old,
        Err(stop) => return Err(stop),
    };
    let adding = run.adding(task, old);
    match put_added(gate, tx, group, task, adding) {
        Ok(()) => Ok(old),
        Err(stop) => Err(stop),
    }
}

// The word of the group of a taken fragment, if it has one.
fn word_of<'b, G: Gate>(
    run: &RunPurpose<'b>,
    gate: &mut G,
    tx: &mut StoreTx<'_, RunPurpose<'b>>,
    group: u32,
    task: u32,
) -> Result<Option<u64>, Stop>
    requires child { IsInChild (view_of tx.old) }
    requires marked { HasMark tx.old }
    requires store { IsRunStore run.now tx.old.store }
    requires taken { by_key tx.old.attempt.notes ≡ outside (Take 0) (Value task) ∷ [] }
    requires member { IsMember (work_of_run run.now) group task }
    ensures acts { ActsInChild tx.old tx.new (λ old. in_child (MapGet 0 group) (found old) ∷ []) result }
    ensures fits { IfOk result (λ old. FitsWord (work_of_run run.now) task old × ((x : ℕ) → old ≡ Some x → IsMember (work_of_run run.now) group (head_of x))) }
{
    told_law(run, tx);
    tasks_have_facts_law();
    match get(gate, tx, 0, group) {
        Ok(old) => {
            told_law(run, tx);
            Ok(old)
        }
        Err(stop) => Err(stop),
    }
}

// Gives the group its new word, links the task, and puts the group into the queue where it is ready.
fn put_added<'b, G: Gate>(
    gate: &mut G,
    tx: &mut StoreTx<'_, RunPurpose<'b>>,
    group: u32,
    task: u32,
    adding: Adding,
) -> Result<(), Stop>
    requires child { IsInChild (view_of tx.old) }
    requires marked { HasMark tx.old }
    requires parts { MayAdd tx.old.store.table.meaning.plan group task }
    requires word { adding.word < 2 ^ 64 - 1 }
    requires link { IfSome adding.link (λ x. x < 2 ^ 64 - 1) }
    ensures { ActsInChild tx.old tx.new (λ _. in_child (MapPut 0 group adding.word) Nothing ∷ (link_of task adding.link ++ ready_of group adding.ready)) result }
{
    match put(gate, tx, 0, group, adding.word) {
        Ok(()) => {}
        Err(stop) => return Err(stop),
    }
    match put_link(gate, tx, task, adding.link) {
        Ok(()) => {}
        Err(stop) => return Err(stop),
    }
    put_ready(gate, tx, group, adding.ready)
}

// Links the task to the one that was head before it, if there was one.
fn put_link<'b, G: Gate>(
    gate: &mut G,
    tx: &mut StoreTx<'_, RunPurpose<'b>>,
    task: u32,
    link: Option<u64>,
) -> Result<(), Stop>
    requires child { IsInChild (view_of tx.old) }
    requires marked { HasMark tx.old }
    requires maps { 1 < length tx.old.store.table.meaning.plan.maps }
    requires task { task < get_or tx.old.store.table.meaning.plan.maps 1 0 }
    requires link { IfSome link (λ x. x < 2 ^ 64 - 1) }
    ensures { ActsInChild tx.old tx.new (λ _. link_of task link) result }
{
    match link {
        Some(head) => put(gate, tx, 1, task, head),
        None => Ok(()),
    }
}

// Puts the group into the queue, if it is ready.
fn put_ready<'b, G: Gate>(
    gate: &mut G,
    tx: &mut StoreTx<'_, RunPurpose<'b>>,
    group: u32,
    ready: bool,
) -> Result<(), Stop>
    requires child { IsInChild (view_of tx.old) }
    requires marked { HasMark tx.old }
    requires queue { 0 < length tx.old.store.table.meaning.plan.queues }
    ensures { ActsInChild tx.old tx.new (λ _. ready_of group ready) result }
{
    if ready {
        enqueue(gate, tx, Item::Group(group).value())
    } else {
        Ok(())
    }
}
