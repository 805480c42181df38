//! What whole transactions do in a test. Each body counts how often it ran.
ghost use Rattle.std.specs.Prelude.{◌≡◌, ◌-◌, ◌^◌, ◌<◌, length, IfOk, IfErr};
ghost use Rattle.tx_core.specs.Calls.{MayCommit};
ghost use Rattle.tx_core.specs.declared.stop.TxState.TheVariants.{Running};
ghost use Rattle.tx_store.specs.Bodies.{NoMap};
ghost use Rattle.tx_store.specs.Runs.{IsSameAttempt, IsBodyStop, IfStopKeysFull};

use crate::{Anything, Body, BodyStop, StoreTx};
use std::alloc::{AllocError, Global};
use tx_core::Stop;

type Attempt<'a> = StoreTx<'a, Anything>;

/// Adds the value 1 to the log, and answers its place.
#[derive(Drop)]
pub(super) struct Place {
    pub runs: u32,
}

impl Body<Anything> for Place {
    type Out = u64;

    ghost can_run = { λ _ store. 0 < length store.table.meaning.plan.logs };

    ghost runs = { λ _ _ _. Unit {0} };

    ghost keys_full = { λ _. NoMap };

    fn body(&mut self, _: Global, tx: &mut StoreTx<'_, Anything>) -> Result<u64, BodyStop> {
        self.runs = self.runs.saturating_add(1);
        append_placed(tx, 1)
    }
}

/// Adds five values to the log.
#[derive(Drop)]
pub(super) struct AddFive {
    pub runs: u32,
}

impl Body<Anything> for AddFive {
    type Out = ();

    ghost can_run = { λ _ store. 0 < length store.table.meaning.plan.logs };

    ghost runs = { λ _ _ _. Unit {0} };

    ghost keys_full = { λ _. NoMap };

    fn body(&mut self, _: Global, tx: &mut StoreTx<'_, Anything>) -> Result<(), BodyStop> {
        self.runs = self.runs.saturating_add(1);
        append_five(tx)
    }
}

/// Gives the key 3 a value in the map.
#[derive(Drop)]
pub(super) struct PutThird {
    pub runs: u32,
}

impl Body<Anything> for PutThird {
    type Out = ();

    ghost can_run = { λ _ store. 0 < length store.table.meaning.plan.maps };

    ghost runs = { λ _ _ _. Unit {0} };

    ghost keys_full = { λ _ map _. map ≡ 0 };

    fn body(&mut self, _: Global, tx: &mut StoreTx<'_, Anything>) -> Result<(), BodyStop> {
        self.runs = self.runs.saturating_add(1);
        put_third(tx)
    }
}

/// Finds no memory for what it wants to remember.
#[derive(Drop)]
pub(super) struct RunOut {
    pub runs: u32,
}

impl Body<Anything> for RunOut {
    type Out = ();

    ghost can_run = { λ _ _. Unit {0} };

    ghost runs = { λ _ _ _. Unit {0} };

    ghost keys_full = { λ _. NoMap };

    fn body(&mut self, _: Global, _: &mut StoreTx<'_, Anything>) -> Result<(), BodyStop> {
        self.runs = self.runs.saturating_add(1);
        Err(BodyStop::Stop(Stop::Memory))
    }
}

fn append_placed(tx: &mut Attempt<'_>, value: u64) -> Result<u64, BodyStop>
    requires may { MayCommit tx.old.attempt }
    requires log { 0 < length tx.old.store.table.meaning.plan.logs }
    requires value { value < 2 ^ 64 - 1 }
    ensures same { IsSameAttempt tx.old tx.new }
    ensures ok { IfOk result (λ _. tx.new.attempt.state ≡ Running) }
    ensures stopped { IfErr result (IsBodyStop tx.old tx.new) }
    ensures no_map { IfErr result (IfStopKeysFull NoMap) }
{
    match tx.log_append_placed(0, value) {
        Ok(place) => Ok(place),
        Err(stop) => Err(BodyStop::Stop(stop)),
    }
}

fn append_five(tx: &mut Attempt<'_>) -> Result<(), BodyStop>
    requires may { MayCommit tx.old.attempt }
    requires log { 0 < length tx.old.store.table.meaning.plan.logs }
    ensures same { IsSameAttempt tx.old tx.new }
    ensures ok { IfOk result (λ _. tx.new.attempt.state ≡ Running) }
    ensures stopped { IfErr result (IsBodyStop tx.old tx.new) }
    ensures no_map { IfErr result (IfStopKeysFull NoMap) }
{
    for value in 0..5 {
        append(tx, value)?;
    }
    Ok(())
}

fn append(tx: &mut Attempt<'_>, value: u64) -> Result<(), BodyStop>
    requires may { MayCommit tx.old.attempt }
    requires log { 0 < length tx.old.store.table.meaning.plan.logs }
    requires value { value < 2 ^ 64 - 1 }
    ensures same { IsSameAttempt tx.old tx.new }
    ensures ok { IfOk result (λ _. tx.new.attempt.state ≡ Running) }
    ensures stopped { IfErr result (IsBodyStop tx.old tx.new) }
    ensures no_map { IfErr result (IfStopKeysFull NoMap) }
{
    match tx.log_append(0, value) {
        Ok(()) => Ok(()),
        Err(AllocError) => Err(BodyStop::Stop(Stop::Memory)),
    }
}

fn put_third(tx: &mut Attempt<'_>) -> Result<(), BodyStop>
    requires may { MayCommit tx.old.attempt }
    requires map { 0 < length tx.old.store.table.meaning.plan.maps }
    ensures same { IsSameAttempt tx.old tx.new }
    ensures ok { IfOk result (λ _. tx.new.attempt.state ≡ Running) }
    ensures stopped { IfErr result (IsBodyStop tx.old tx.new) }
    ensures map { IfErr result (IfStopKeysFull (λ map _. map ≡ 0)) }
{
    match tx.map_put(0, 3, 30) {
        Ok(()) => Ok(()),
        Err(stop) => Err(BodyStop::of_map(0, stop)),
    }
}
