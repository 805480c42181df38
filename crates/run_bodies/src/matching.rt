//! The transaction that matches a datagram.
ghost use Rattle.std.specs.Prelude.{◌≡◌, ◌++◌, List, true, false, [], ◌∷◌, Some, None, All, IfOk, IfErr, OnOk};
ghost use Rattle.capture_terms.specs.Plan.{IsPlanned};
ghost use Rattle.serial_terms.specs.declared.call.Done.{Done};
ghost use Rattle.serial_terms.specs.Ranges.{IsKept};
ghost use Rattle.serial_terms.specs.Renaming.{by_key};
ghost use Rattle.run_stages.specs.Allowed.{Appends};
ghost use Rattle.run_bodies.specs.Matching.{MayMatch, IsDatagram, AreTasksOf, IsTakenOut, IsMatched, HasAppended, HasTried, dequeued};
ghost use Rattle.run_bodies.specs.RunStores.{IsRunStore, work_of_run};
ghost use Rattle.run_bodies.specs.Records.{TookItem, AreFoundFor, AreAhead};
ghost use Rattle.tx_core.specs.Calls.{MayCommit};
ghost use Rattle.tx_store.specs.Bodies.{NoMap, StopsWith};
ghost use Rattle.tx_store.specs.Runs.{IsFresh};

mod appending;
mod collecting;
mod finding;
mod telling;

use crate::gate::{Gate, Point};
use crate::matching::appending::append_all;
use crate::matching::collecting::{next_item, take_out};
use crate::matching::finding::{is_for, values_of};
use crate::told::told_law;
use run_findings::Slot;
use run_purpose::{Item, RunPurpose};
use std::alloc::{AllocError, Global};
use tx_core::Stop;
use tx_nest::{ChildBody, nested};
use tx_store::{Body, BodyStop, StoreTx};

/// How often the child that appends is tried before the whole attempt is.
const TRIES: u32 = 8;

/// Takes a datagram from the queue: for a group, its word and its links as well. In a child its findings are appended to the log.
///
/// It answers whether there was a datagram. Its findings are looked up among those that were found ahead; where they aren't there
/// they are found once, also where the attempt is tried again.
#[derive(Drop)]
pub struct Matching<'r, 'b, 'g, G> {
    pub run: &'r RunPurpose<'b>,
    pub gate: &'g mut G,
    /// Findings of whole frames that were found ahead.
    pub ahead: &'r [Slot],
    /// The datagram whose findings are kept.
    pub found_for: Option<Item>,
    /// The values of its findings.
    pub values: Vec<u64>,
    /// The tasks through which the last walk went.
    pub chain: Vec<u32>,
    /// Whether its last child ran out of memory.
    pub ran_out: bool,
}

impl<'r, 'b, 'g, G: Gate> Matching<'r, 'b, 'g, G> {
    /// One that has found nothing itself so far.
    pub fn new(
        alloc: Global,
        run: &'r RunPurpose<'b>,
        gate: &'g mut G,
        ahead: &'r [Slot],
    ) -> Matching<'r, 'b, 'g, G>
        ensures run { result.run.now ≡ run.now }
        ensures ahead { result.ahead.now ≡ ahead.now }
        ensures nothing { result.found_for ≡ None }
    {
        Matching {
            run,
            gate,
            ahead,
            found_for: None,
            values: Vec::new(alloc),
            chain: Vec::new(alloc),
            ran_out: false,
        }
    }

    // Matches the next datagram of the queue, if there is one.
    fn match_next(
        &mut self,
        alloc: Global,
        tx: &mut StoreTx<'_, RunPurpose<'b>>,
    ) -> Result<bool, BodyStop>
        requires fresh { IsFresh tx.old.attempt }
        requires may { MayMatch self.old.run.now self.old.ahead.now self.old.found_for self.old.values.items tx.old.store }
        ensures tried { IfOk result (HasTried (work_of_run self.old.run.now) tx.old tx.new) }
        ensures stopped { IfErr result (StopsWith NoMap tx.old tx.new) }
        ensures again { MayMatch self.new.run.now self.new.ahead.now self.new.found_for self.new.values.items tx.old.store }
    {
        match next_item(self.run, self.gate, tx) {
            Ok(None) => Ok(false),
            Ok(Some(item)) => match self.match_item(alloc, tx, item) {
                Ok(()) => Ok(true),
                Err(stop) => Err(stop),
            },
            Err(stop) => Err(stop),
        }
    }

    // Matches the datagram that the queue gave.
    fn match_item(
        &mut self,
        alloc: Global,
        tx: &mut StoreTx<'_, RunPurpose<'b>>,
        item: Item,
    ) -> Result<(), BodyStop>
        requires running { MayCommit tx.old.attempt }
        requires may { MayMatch self.old.run.now self.old.ahead.now self.old.found_for self.old.values.items tx.old.store }
        requires datagram { IsDatagram (work_of_run self.old.run.now) item }
        requires taken { by_key tx.old.attempt.notes ≡ dequeued (Some item) ∷ [] }
        ensures matched { OnOk result (IsMatched (work_of_run self.old.run.now) item tx.old tx.new) }
        ensures stopped { IfErr result (StopsWith NoMap tx.old tx.new) }
        ensures again { MayMatch self.new.run.now self.new.ahead.now self.new.found_for self.new.values.items tx.old.store }
    {
        told_law(self.run, tx);
        match take_out(self.run, self.gate, tx, item, &mut self.chain) {
            Ok(()) => {}
            Err(stop) => return Err(stop),
        }
        match self.find(alloc, item) {
            Ok(()) => {}
            Err(AllocError) => return Err(BodyStop::Stop(Stop::Memory)),
        }
        match self.append(tx) {
            Ok(()) => Ok(()),
            Err(stop) => Err(stop),
        }
    }

    // Finds what the rules match in a datagram, unless it is kept from an earlier try.
    fn find(&mut self, alloc: Global, item: Item) -> Result<(), AllocError>
        requires planned { IsPlanned self.old.run.now.bytes.now self.old.run.now.plan.now }
        requires tasks { AreTasksOf (work_of_run self.old.run.now) item self.old.chain.items }
        requires ahead { AreAhead self.old.run.now self.old.ahead.now }
        requires found { AreFoundFor (work_of_run self.old.run.now) self.old.found_for self.old.values.items }
        ensures run { (self.new.run.now ≡ self.old.run.now) × (self.new.ahead.now ≡ self.old.ahead.now) }
        ensures now { OnOk result (self.new.found_for ≡ Some item) }
        ensures found { AreFoundFor (work_of_run self.old.run.now) self.new.found_for self.new.values.items }
    {
        if is_for(self.found_for, item) {
            return Ok(());
        }
        match values_of(alloc, self.run, self.ahead, item, &self.chain) {
            Ok(values) => {
                self.values = values;
                self.found_for = Some(item);
                Ok(())
            }
            Err(AllocError) => Err(AllocError),
        }
    }

    // Appends the values that are kept, in a child, if there are any.
    fn append(&mut self, tx: &mut StoreTx<'_, RunPurpose<'b>>) -> Result<(), BodyStop>
        requires running { MayCommit tx.old.attempt }
        requires may { MayMatch self.old.run.now self.old.ahead.now self.old.found_for self.old.values.items tx.old.store }
        requires kept { All IsKept self.old.values.items }
        ensures appended { OnOk result (HasAppended (work_of_run self.old.run.now) self.old.values.items tx.old tx.new) }
        ensures stopped { IfErr result (StopsWith NoMap tx.old tx.new) }
        ensures again { MayMatch self.new.run.now self.new.ahead.now self.new.found_for self.new.values.items tx.old.store }
    {
        if self.values.as_slice().is_empty() {
            return Ok(());
        }
        match nested(tx, self, TRIES) {
            Ok(()) => Ok(()),
            Err(end) => Err(end.into()),
        }
    }
}

impl<'a, 'r, 'b, 'g, G: Gate> ChildBody<StoreTx<'a, RunPurpose<'b>>> for Matching<'r, 'b, 'g, G> {
    type Out = ();

    ghost can_run = { λ m store calls waits. MayMatch m.run.now m.ahead.now m.found_for m.values.items store × All IsKept m.values.items };

    ghost runs = { λ m added out. Appends (work_of_run m.run.now) m.values.items (by_key added) };

    ghost ran_out = { λ m. m.ran_out ≡ true };

    fn body(&mut self, tx: &mut StoreTx<'a, RunPurpose<'b>>) -> Result<(), Stop> {
        self.gate.at(Point::ChildBegun);
        match append_all(self.gate, tx, &self.values) {
            Ok(()) => Ok(()),
            Err(stop) => {
                self.ran_out = stop == Stop::Memory;
                Err(stop)
            }
        }
    }
}

impl<'r, 'b, 'g, G: Gate> Body<RunPurpose<'b>> for Matching<'r, 'b, 'g, G> {
    type Out = bool;

    ghost can_run = { λ m store. IsRunStore m.run.now store × AreAhead m.run.now m.ahead.now × AreFoundFor (work_of_run m.run.now) m.found_for m.values.items };

    ghost runs = { λ m calls taken. TookItem calls taken };

    ghost keys_full = { λ _. NoMap };

    fn body(
        &mut self,
        alloc: Global,
        tx: &mut StoreTx<'_, RunPurpose<'b>>,
    ) -> Result<bool, BodyStop> {
        self.gate.at(Point::Begun);
        match self.match_next(alloc, tx) {
            Ok(taken) => {
                self.gate.at(Point::Committing);
                Ok(taken)
            }
            Err(stop) => Err(stop),
        }
    }
}
