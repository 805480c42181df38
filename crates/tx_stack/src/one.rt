//! Transactions of one call on a stack.
ghost use Rattle.std.specs.Prelude.{◌≡◌, ◌<◌, ◌≤◌, IfOk, IfErr};
ghost use Rattle.cell_table.specs.Pass.{IsSole};
ghost use Rattle.cell_table.specs.Steps.{IsIdle};
ghost use Rattle.tx_store.specs.Bodies.{NoMap};
ghost use Rattle.tx_store.specs.Known.{Vouches};
ghost use Rattle.tx_store.specs.Resolves.{parts_of};
ghost use Rattle.tx_store.specs.Runs.{IsLeft, AfterFewer, IsAnswered, IsCommittedRun, IsRefusedRun, IsNotSpent};
ghost use Rattle.tx_store.specs.Stores.{IsPassOfStore};
ghost use Rattle.tx_stack.specs.Calls.{lawful_stacks, allowed_stacks, IsStackOf, IsCallAlone, IsSpentOrMemory};
ghost use Rattle.tx_stack.specs.Stacks.{pushes, pops, IsPutOn, IsItemOf};

use crate::part::StackPart;
use crate::purpose::Stacks;
use std::alloc::Global;
use tx_store::{Body, BodyStop, RunEnd, Store, StorePass, StoreTx, atomically};

// Puts an item on top.
#[derive(Drop)]
struct Pushes {
    part: StackPart,
    value: u64,
}

impl Body<Stacks> for Pushes {
    type Out = bool;

    ghost can_run = { λ b store. IsStackOf store b.part };

    ghost runs = { λ b calls added. IsCallAlone b.part (pushes b.value) (IsPutOn b.part.capacity) calls added };

    ghost keys_full = { λ _. NoMap };

    fn body(&mut self, _: Global, tx: &mut StoreTx<'_, Stacks>) -> Result<bool, BodyStop> {
        Ok(self.part.push(tx, self.value)?)
    }
}

// Takes the item off the top.
#[derive(Drop)]
struct Pops {
    part: StackPart,
}

impl Body<Stacks> for Pops {
    type Out = Option<u64>;

    ghost can_run = { λ b store. IsStackOf store b.part };

    ghost runs = { λ b calls item. IsCallAlone b.part pops (IsItemOf b.part.capacity) calls item };

    ghost keys_full = { λ _. NoMap };

    fn body(&mut self, _: Global, tx: &mut StoreTx<'_, Stacks>) -> Result<Option<u64>, BodyStop> {
        Ok(self.part.pop(tx)?)
    }
}

impl StackPart {
    /// A transaction of one [`push`](StackPart::push), tried so many times: it ends as `atomically` says, and no full map, queue
    /// or log refuses it.
    pub fn push_one(
        &self,
        alloc: Global,
        store: &Store<Stacks>,
        pass: StorePass<Stacks>,
        value: u64,
        tries: u32,
    ) -> Result<(StorePass<Stacks>, bool), (StorePass<Stacks>, RunEnd)>
        requires of { IsPassOfStore store.now pass }
        requires idle { IsIdle pass.pass.view }
        requires tries { (0 < tries) × (tries ≤ pass.pass.view.draws) }
        requires stack { IsStackOf store.now self.now }
        ensures committed { IfOk result (λ r. AfterFewer (Vouches lawful_stacks store.now.table.meaning) tries pass (λ before. IsCommittedRun (allowed_stacks store.now.table.meaning.purpose) (IsCallAlone self.now (pushes value) (IsPutOn self.now.capacity)) before r.0 r.1)) }
        ensures refused { IfErr result (λ r. (r.0.pass.books ≡ pass.pass.books) × IsRefusedRun (Vouches lawful_stacks store.now.table.meaning) (parts_of store.now.table.meaning.plan) (IsAnswered (allowed_stacks store.now.table.meaning.purpose) (IsCallAlone self.now (pushes value) (IsPutOn self.now.capacity))) tries pass r.0 r.1) }
        ensures left { IfOk result (λ r. IsLeft store.now tries pass r.0) }
        ensures left_refused { IfErr result (λ r. IsLeft store.now tries pass r.0) }
        ensures sole { IsSole pass.pass → IfErr result (λ r. IsNotSpent r.1) }
        ensures only { IfErr result (λ r. IsSpentOrMemory r.1) }
    {
        let mut pushes = Pushes { part: *self, value };
        match atomically(alloc, store, pass, &mut pushes, tries) {
            Ok(done) => Ok(done),
            Err(refused) => {
                let (back, end) = refused;
                back.sights_law(store);
                Err((back, end))
            }
        }
    }

    /// A transaction of one [`pop`](StackPart::pop), tried so many times: it ends as `atomically` says, and no full map, queue
    /// or log refuses it.
    pub fn pop_one(
        &self,
        alloc: Global,
        store: &Store<Stacks>,
        pass: StorePass<Stacks>,
        tries: u32,
    ) -> Result<(StorePass<Stacks>, Option<u64>), (StorePass<Stacks>, RunEnd)>
        requires of { IsPassOfStore store.now pass }
        requires idle { IsIdle pass.pass.view }
        requires tries { (0 < tries) × (tries ≤ pass.pass.view.draws) }
        requires stack { IsStackOf store.now self.now }
        ensures committed { IfOk result (λ r. AfterFewer (Vouches lawful_stacks store.now.table.meaning) tries pass (λ before. IsCommittedRun (allowed_stacks store.now.table.meaning.purpose) (IsCallAlone self.now pops (IsItemOf self.now.capacity)) before r.0 r.1)) }
        ensures refused { IfErr result (λ r. (r.0.pass.books ≡ pass.pass.books) × IsRefusedRun (Vouches lawful_stacks store.now.table.meaning) (parts_of store.now.table.meaning.plan) (IsAnswered (allowed_stacks store.now.table.meaning.purpose) (IsCallAlone self.now pops (IsItemOf self.now.capacity))) tries pass r.0 r.1) }
        ensures left { IfOk result (λ r. IsLeft store.now tries pass r.0) }
        ensures left_refused { IfErr result (λ r. IsLeft store.now tries pass r.0) }
        ensures sole { IsSole pass.pass → IfErr result (λ r. IsNotSpent r.1) }
        ensures only { IfErr result (λ r. IsSpentOrMemory r.1) }
    {
        let mut pops = Pops { part: *self };
        match atomically(alloc, store, pass, &mut pops, tries) {
            Ok(done) => Ok(done),
            Err(refused) => {
                let (back, end) = refused;
                back.sights_law(store);
                Err((back, end))
            }
        }
    }
}
