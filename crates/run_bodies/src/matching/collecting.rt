//! A datagram is taken out of the queue and the maps.
ghost use Rattle.std.specs.Prelude.{◌≡◌, ◌<◌, length, get_or, [], ◌∷◌, Some, IfOk, IfSome, IfErr, OnOk};
ghost use Rattle.serial_terms.specs.declared.call.Call.TheVariants.{MapGet, MapRemove, Dequeue};
ghost use Rattle.serial_terms.specs.declared.call.Reply.TheVariants.{Nothing};
ghost use Rattle.serial_terms.specs.Renaming.{by_key};
ghost use Rattle.serial_terms.specs.Serial.{outside, found};
ghost use Rattle.run_stages.specs.Work.{IsComplete};
ghost use Rattle.run_purpose.specs.declared.item.Item.TheVariants.{Group};
ghost use Rattle.run_bodies.specs.Matching.{IsDatagram, HasWalked, IsTakenOut, dequeued, word_taken, walking, linked_from};
ghost use Rattle.run_bodies.specs.RunStores.{IsRunStore, work_of_run};
ghost use Rattle.tx_core.specs.Calls.{MayCommit};
ghost use Rattle.tx_store.specs.Bodies.{NoMap, Acts, StopsWith};
ghost use Rattle.tx_store.specs.Runs.{IsFresh};

use crate::gate::{Gate, Kind, Point};
use crate::matching::telling::{walk_ends_law, walk_tells_law};
use crate::told::told_law;
use run_purpose::{GroupWord, Item, RunPurpose};
use run_stages::from_capture::tasks_have_facts_law;
use tx_core::Stop;
use tx_store::{BodyStop, StoreTx};

// The first value of the queue, which is taken out.
fn dequeue(tx: &mut StoreTx<'_, RunPurpose<'_>>) -> Result<Option<u64>, BodyStop>
    requires running { MayCommit tx.old.attempt }
    requires queue { 0 < length tx.old.store.table.meaning.plan.queues }
    ensures { Acts NoMap tx.old tx.new (λ value. outside (Dequeue 0) (found value) ∷ []) result }
{
    match tx.queue_dequeue(0) {
        Ok(value) => Ok(value),
        Err(stop) => Err(BodyStop::Stop(stop)),
    }
}

// The value of a key of a map.
fn get(tx: &mut StoreTx<'_, RunPurpose<'_>>, map: u32, key: u32) -> Result<Option<u64>, BodyStop>
    requires running { MayCommit tx.old.attempt }
    requires map { map < length tx.old.store.table.meaning.plan.maps }
    requires key { key < get_or tx.old.store.table.meaning.plan.maps map 0 }
    ensures { Acts NoMap tx.old tx.new (λ value. outside (MapGet map key) (found value) ∷ []) result }
{
    match tx.map_get(map, u64::from(key)) {
        Ok(value) => Ok(value),
        Err(stop) => Err(BodyStop::of_map(map, stop)),
    }
}

// Makes a key of a map absent.
fn remove(tx: &mut StoreTx<'_, RunPurpose<'_>>, map: u32, key: u32) -> Result<(), BodyStop>
    requires running { MayCommit tx.old.attempt }
    requires map { map < length tx.old.store.table.meaning.plan.maps }
    requires key { key < get_or tx.old.store.table.meaning.plan.maps map 0 }
    ensures { Acts NoMap tx.old tx.new (λ _. outside (MapRemove map key) Nothing ∷ []) result }
{
    match tx.map_remove(map, u64::from(key)) {
        Ok(()) => Ok(()),
        Err(stop) => Err(BodyStop::of_map(map, stop)),
    }
}

/// The next item of the queue, which is that of a datagram, or `None` where there is none.
pub(crate) fn next_item<'b, G: Gate>(
    run: &RunPurpose<'b>,
    gate: &mut G,
    tx: &mut StoreTx<'_, RunPurpose<'b>>,
) -> Result<Option<Item>, BodyStop>
    requires fresh { IsFresh tx.old.attempt }
    requires store { IsRunStore run.now tx.old.store }
    ensures acts { Acts NoMap tx.old tx.new (λ item. dequeued item ∷ []) result }
    ensures datagram { IfOk result (λ item. IfSome item (IsDatagram (work_of_run run.now))) }
{
    told_law(run, tx);
    tasks_have_facts_law();
    let value = match dequeue(tx) {
        Ok(value) => value,
        Err(stop) => return Err(stop),
    };
    gate.at(Point::Called(Kind::Dequeue(value.is_some())));
    told_law(run, tx);
    match value {
        None => Ok(None),
        Some(value) => Ok(Some(Item::of(value))),
    }
}

// The word of a complete group, which is removed.
fn take_word<'b, G: Gate>(
    run: &RunPurpose<'b>,
    gate: &mut G,
    tx: &mut StoreTx<'_, RunPurpose<'b>>,
    group: u32,
) -> Result<u64, BodyStop>
    requires running { MayCommit tx.old.attempt }
    requires store { IsRunStore run.now tx.old.store }
    requires complete { IsComplete (work_of_run run.now) group }
    requires taken { by_key tx.old.attempt.notes ≡ dequeued (Some (Group group)) ∷ [] }
    ensures { Acts NoMap tx.old tx.new (word_taken group) result }
{
    told_law(run, tx);
    tasks_have_facts_law();
    let value = match get(tx, 0, group) {
        Ok(value) => value,
        Err(stop) => return Err(stop),
    };
    gate.at(Point::Called(Kind::MapGet));
    told_law(run, tx);
    let word = match value {
        Some(word) => word,
        None => unreachable!(),
    };
    match remove(tx, 0, group) {
        Ok(()) => {}
        Err(stop) => return Err(stop),
    }
    gate.at(Point::Called(Kind::MapRemove));
    Ok(word)
}

// The task that was added to its group before this one, with the link to it removed, or `None` where there is none.
fn follow_link<G: Gate>(
    gate: &mut G,
    tx: &mut StoreTx<'_, RunPurpose<'_>>,
    task: u32,
) -> Result<Option<u64>, BodyStop>
    requires running { MayCommit tx.old.attempt }
    requires map { 1 < length tx.old.store.table.meaning.plan.maps }
    requires key { task < get_or tx.old.store.table.meaning.plan.maps 1 0 }
    ensures { Acts NoMap tx.old tx.new (linked_from task) result }
{
    let next = match get(tx, 1, task) {
        Ok(next) => next,
        Err(stop) => return Err(stop),
    };
    gate.at(Point::Called(Kind::MapGet));
    match next {
        None => Ok(None),
        Some(before) => match remove(tx, 1, task) {
            Ok(()) => {
                gate.at(Point::Called(Kind::MapRemove));
                Ok(Some(before))
            }
            Err(stop) => Err(stop),
        },
    }
}

// Goes from the head of a group on through its tasks, and leaves their numbers in `chain`.
fn walk<'b, G: Gate>(
    run: &RunPurpose<'b>,
    gate: &mut G,
    tx: &mut StoreTx<'_, RunPurpose<'b>>,
    group: u32,
    word: u64,
    chain: &mut Vec<u32>,
) -> Result<(), BodyStop>
    requires running { MayCommit tx.old.attempt }
    requires store { IsRunStore run.now tx.old.store }
    requires taken { by_key tx.old.attempt.notes ≡ walking group word [] }
    requires empty { chain.old.items ≡ [] }
    ensures walked { OnOk result (HasWalked (work_of_run run.now) group word tx.old tx.new chain.new.items) }
    ensures stopped { IfErr result (StopsWith NoMap tx.old tx.new) }
{
    told_law(run, tx);
    tasks_have_facts_law();
    let mut last = GroupWord::of(word).head;
    'links: loop {
        match chain.push(last) {
            Ok(()) => {}
            Err(_) => return Err(BodyStop::Stop(Stop::Memory)),
        }
        walk_tells_law(run, tx, group, word);
        match follow_link(gate, tx, last) {
            Ok(Some(before)) => {
                walk_tells_law(run, tx, group, word);
                last = before as u32;
            }
            Ok(None) => {
                walk_ends_law(run, tx, group, word);
                return Ok(());
            }
            Err(stop) => return Err(stop),
        }
    }
}

/// Takes a datagram's word and links out of the maps, if it is a group's, and leaves the numbers of the group's tasks in `chain`.
pub(crate) fn take_out<'b, G: Gate>(
    run: &RunPurpose<'b>,
    gate: &mut G,
    tx: &mut StoreTx<'_, RunPurpose<'b>>,
    item: Item,
    chain: &mut Vec<u32>,
) -> Result<(), BodyStop>
    requires running { MayCommit tx.old.attempt }
    requires store { IsRunStore run.now tx.old.store }
    requires datagram { IsDatagram (work_of_run run.now) item }
    requires taken { by_key tx.old.attempt.notes ≡ dequeued (Some item) ∷ [] }
    ensures out { OnOk result (IsTakenOut (work_of_run run.now) item tx.old tx.new chain.new.items) }
    ensures stopped { IfErr result (StopsWith NoMap tx.old tx.new) }
{
    match item {
        Item::Whole(_) => Ok(()),
        Item::Group(group) => take_group(run, gate, tx, group, chain),
    }
}

// Takes a complete group's word and links out of the maps, and leaves the numbers of its tasks in `chain`.
fn take_group<'b, G: Gate>(
    run: &RunPurpose<'b>,
    gate: &mut G,
    tx: &mut StoreTx<'_, RunPurpose<'b>>,
    group: u32,
    chain: &mut Vec<u32>,
) -> Result<(), BodyStop>
    requires running { MayCommit tx.old.attempt }
    requires store { IsRunStore run.now tx.old.store }
    requires complete { IsComplete (work_of_run run.now) group }
    requires taken { by_key tx.old.attempt.notes ≡ dequeued (Some (Group group)) ∷ [] }
    ensures out { OnOk result (IsTakenOut (work_of_run run.now) (Group group) tx.old tx.new chain.new.items) }
    ensures stopped { IfErr result (StopsWith NoMap tx.old tx.new) }
{
    let word = match take_word(run, gate, tx, group) {
        Ok(word) => word,
        Err(stop) => return Err(stop),
    };
    chain.clear();
    match walk(run, gate, tx, group, word, chain) {
        Ok(()) => Ok(()),
        Err(stop) => Err(stop),
    }
}
