//! Whole transactions, tried again.
ghost use Rattle.std.specs.Prelude.{◌≡◌, ℕ, ◌<◌, ◌≤◌, List, IfOk, IfErr};
ghost use Rattle.cell_table.specs.Pass.{IsSole};
ghost use Rattle.cell_table.specs.Steps.{IsIdle};
ghost use Rattle.serial_terms.specs.declared.call.Done.{Done};
ghost use Rattle.serial_terms.specs.Renaming.{by_key};
ghost use Rattle.store_meaning.specs.declared.meaning.StoreMeaning.{StoreMeaning as Means};
ghost use Rattle.tx_core.specs.declared.stop.TxState.TheVariants.{Running};
ghost use Rattle.tx_store.specs.Known.{Vouches};
ghost use Rattle.tx_store.specs.Resolves.{parts_of};
ghost use Rattle.tx_store.specs.Runs.{IsFresh, IsSameAttempt, IsBodyStop, IsLeft, AfterFewer, IsCommittedRun, IsRefusedRun, IsNotSpent, IsTryEnd, IsNotAgain, IsAnswered, IfStopKeysFull, IfTryKeysFull, IfEndKeysFull, after_stop, after_refusal};
ghost use Rattle.tx_store.specs.Stores.{StoreView, IsPassOfStore};

use crate::commit::CommitEnd;
use crate::pass::StorePass;
use crate::store::Store;
use crate::tx::StoreTx;
use std::alloc::{AllocError, Global};
use std::thread;
use store_meaning::Purpose;
use tx_core::Stop;
use tx_map::MapStop;
use tx_nest::NestEnd;

/// Why a body could not go on.
#[derive(Clone, Copy, Debug, PartialEq, Eq)]
pub enum BodyStop {
    /// What a call of the attempt answered, or want of memory of the body's own.
    Stop(Stop),
    /// A call found every position of the map, of this capacity, with another key.
    KeysFull { map: u32, capacity: u32 },
}

impl BodyStop {
    ghost use Rattle.tx_store.specs.Bodies.{of_map};

    /// What a call on this map answered.
    pub fn of_map(map: u32, stop: MapStop) -> BodyStop
        ensures { result ≡ of_map map stop }
    {
        match stop {
            MapStop::Stop(stop) => BodyStop::Stop(stop),
            MapStop::KeysFull { capacity } => BodyStop::KeysFull { map, capacity },
        }
    }
}

impl From<Stop> for BodyStop {
    ghost use Rattle.tx_store.specs.declared.run.BodyStop.TheVariants.{Stop};

    ghost from_gives = { λ stop e. e ≡ Stop stop };

    fn from(stop: Stop) -> BodyStop {
        BodyStop::Stop(stop)
    }
}

impl From<AllocError> for BodyStop {
    ghost use Rattle.tx_core.specs.declared.stop.Stop.TheVariants.{Memory};
    ghost use Rattle.tx_store.specs.declared.run.BodyStop.TheVariants.{Stop};

    ghost from_gives = { λ _ e. e ≡ Stop Memory };

    fn from(_: AllocError) -> BodyStop {
        BodyStop::Stop(Stop::Memory)
    }
}

/// A body whose children were all in vain stops with the cause of the last.
impl From<NestEnd> for BodyStop {
    ghost use Rattle.tx_store.specs.Bodies.{of_nest};

    ghost from_gives = { λ end e. e ≡ of_nest end };

    fn from(end: NestEnd) -> BodyStop {
        match end {
            NestEnd::Parent(stop) => BodyStop::Stop(stop),
            NestEnd::Spent { tries: _, last } => BodyStop::Stop(last),
            NestEnd::Memory => BodyStop::Stop(Stop::Memory),
        }
    }
}

/// Why no attempt was committed.
#[derive(Clone, Copy, Debug, PartialEq, Eq)]
pub enum RunEnd {
    /// Each of so many attempts was ended by Held or Newer.
    Spent { tries: u32, last: Stop },
    /// The last attempt's commit found no room in a queue or a log of `length` values for `adding` more. The queues are the
    /// first parts, in the order of their numbers, and then the logs.
    Full { part: u32, length: u64, adding: u64 },
    /// The last attempt's body found no room for a key.
    KeysFull { map: u32, capacity: u32 },
    /// Want of memory.
    Memory,
}

/// What a transaction does. It may be run many times; one run of it is committed.
pub trait Body<P: Purpose> {
    type Out: Drop;

    /// The stores over which it may run.
    ghost can_run: { Self → StoreView (Means P P.Keys) → Type 0 };

    /// The calls of a run, by their keys, and what it answers.
    ghost runs: { Self → List Done → Self.Out → Type 0 };

    /// With which map and capacity a run may stop for want of room for a key.
    ghost keys_full: { Self → ℕ → ℕ → Type 0 };

    /// Runs in an attempt, which it doesn't end. What it did is to be allowed by the purpose once it answers Ok. A Held or Newer
    /// that it answers was found by a call of this attempt, and so was a full map; its Memory is free.
    fn body(&mut self, alloc: Global, tx: &mut StoreTx<'_, P>) -> Result<Self::Out, BodyStop>
        requires fresh { IsFresh tx.old.attempt }
        requires can_run { can_run self.old tx.old.store }
        ensures same { IsSameAttempt tx.old tx.new }
        ensures ok { IfOk result (λ out. (tx.new.attempt.state ≡ Running) × P.allowed tx.old.store.table.meaning.purpose (by_key tx.new.attempt.notes) × runs self.old (by_key tx.new.attempt.notes) out) }
        ensures stopped { IfErr result (IsBodyStop tx.old tx.new) }
        ensures full { IfErr result (IfStopKeysFull (keys_full self.old)) }
        ensures again { can_run self.new tx.old.store }
        ensures same_relation { (calls : List Done) (out : Self.Out) → runs self.new calls out → runs self.old calls out }
        ensures same_maps { (map capacity : ℕ) → keys_full self.new map capacity → keys_full self.old map capacity };
}

/// Runs the body in attempts until one is committed, `tries` attempts at most.
///
/// An attempt that ended by Held or Newer, in the body or in its commit, is tried again, after a wait of bounded length that grows with the
/// tries. Want of memory, a full map and a full queue or log end the call at once.
pub fn atomically<P: Purpose, B: Body<P>>(
    alloc: Global,
    store: &Store<P>,
    pass: StorePass<P>,
    body: &mut B,
    tries: u32,
) -> Result<(StorePass<P>, B::Out), (StorePass<P>, RunEnd)>
    requires of { IsPassOfStore store.now pass }
    requires idle { IsIdle pass.pass.view }
    requires tries { (0 < tries) × (tries ≤ pass.pass.view.draws) }
    requires can_run { B.can_run body.old store.now }
    ensures committed { IfOk result (λ r. AfterFewer (Vouches P.lawful_state store.now.table.meaning) tries pass (λ before. IsCommittedRun (P.allowed store.now.table.meaning.purpose) (B.runs body.old) before r.0 r.1)) }
    ensures refused { IfErr result (λ r. (r.0.pass.books ≡ pass.pass.books) × IsRefusedRun (Vouches P.lawful_state store.now.table.meaning) (parts_of store.now.table.meaning.plan) (IsAnswered (P.allowed store.now.table.meaning.purpose) (B.runs body.old)) tries pass r.0 r.1) }
    ensures left { IfOk result (λ r. IsLeft store.now tries pass r.0) }
    ensures left_refused { IfErr result (λ r. IsLeft store.now tries pass r.0) }
    ensures sole { IsSole pass.pass → IfErr result (λ r. IsNotSpent r.1) }
    ensures full { IfErr result (λ r. IfEndKeysFull (B.keys_full body.old) r.1) }
    ensures again { B.can_run body.new store.now }
    ensures same_relation { (calls : List Done) (out : B.Out) → B.runs body.new calls out → B.runs body.old calls out }
    ensures same_maps { (map capacity : ℕ) → B.keys_full body.new map capacity → B.keys_full body.old map capacity }
{
    let mut pass = pass;
    let mut last = Stop::Memory;
    for tried in 0..tries {
        match once(alloc, store, pass, body) {
            Ok(done) => return Ok(done),
            Err(refused) => {
                let (back, end) = refused;
                match end {
                    TryEnd::Again(stop) => {
                        back_off(tried, back.caller());
                        pass = back;
                        last = stop;
                    }
                    TryEnd::Ends(end) => return Err((back, end)),
                }
            }
        }
    }
    Err((pass, RunEnd::Spent { tries, last }))
}

/// How an attempt ended that wasn't committed.
enum TryEnd {
    /// By Held or Newer: it may be tried again.
    Again(Stop),
    /// So the call ends.
    Ends(RunEnd),
}

fn after_stop(stop: BodyStop) -> TryEnd
    ensures { result ≡ after_stop stop }
{
    match stop {
        BodyStop::Stop(Stop::Memory) => TryEnd::Ends(RunEnd::Memory),
        BodyStop::Stop(stop) => TryEnd::Again(stop),
        BodyStop::KeysFull { map, capacity } => TryEnd::Ends(RunEnd::KeysFull { map, capacity }),
    }
}

fn after_refusal(end: CommitEnd) -> TryEnd
    ensures { result ≡ after_refusal end }
{
    match end {
        CommitEnd::Held { cell, owner } => TryEnd::Again(Stop::Held { cell, owner }),
        CommitEnd::Newer { cell, found } => TryEnd::Again(Stop::Newer { cell, found }),
        CommitEnd::Full {
            part,
            length,
            adding,
        } => TryEnd::Ends(RunEnd::Full {
            part,
            length,
            adding,
        }),
    }
}

// One attempt of the body.
fn once<P: Purpose, B: Body<P>>(
    alloc: Global,
    store: &Store<P>,
    pass: StorePass<P>,
    body: &mut B,
) -> Result<(StorePass<P>, B::Out), (StorePass<P>, TryEnd)>
    requires of { IsPassOfStore store.now pass }
    requires idle { IsIdle pass.pass.view }
    requires draw { 0 < pass.pass.view.draws }
    requires can_run { B.can_run body.old store.now }
    ensures committed { IfOk result (λ r. IsCommittedRun (P.allowed store.now.table.meaning.purpose) (B.runs body.old) pass r.0 r.1) }
    ensures refused { IfErr result (λ r. (r.0.pass.books ≡ pass.pass.books) × IsTryEnd (Vouches P.lawful_state store.now.table.meaning) (parts_of store.now.table.meaning.plan) (IsAnswered (P.allowed store.now.table.meaning.purpose) (B.runs body.old)) pass r.0 r.1) }
    ensures left { IfOk result (λ r. IsLeft store.now 1 pass r.0) }
    ensures left_refused { IfErr result (λ r. IsLeft store.now 1 pass r.0) }
    ensures sole { IsSole pass.pass → IfErr result (λ r. IsNotAgain r.1) }
    ensures full { IfErr result (λ r. IfTryKeysFull (B.keys_full body.old) r.1) }
    ensures again { B.can_run body.new store.now }
    ensures same_relation { (calls : List Done) (out : B.Out) → B.runs body.new calls out → B.runs body.old calls out }
    ensures same_maps { (map capacity : ℕ) → B.keys_full body.new map capacity → B.keys_full body.old map capacity }
{
    let mut tx = match StoreTx::begin(alloc, store, pass) {
        Ok(tx) => tx,
        Err(refused) => {
            let (back, _) = refused;
            return Err((back, TryEnd::Ends(RunEnd::Memory)));
        }
    };
    match body.body(alloc, &mut tx) {
        Ok(out) => {
            tx.tells_law();
            match tx.commit() {
                Ok(done) => {
                    let (back, _) = done;
                    Ok((back, out))
                }
                Err(refused) => {
                    let (back, end) = refused;
                    Err((back, after_refusal(end)))
                }
            }
        }
        Err(stop) => Err((tx.abort(), after_stop(stop))),
    }
}

// Lets other threads go on: the longer, the more attempts were in vain, and not the same time for each caller.
fn back_off(tried: u32, caller: u32) {
    let tried = tried.min(6);
    let turns = (1 << tried) + (caller % 8) * tried;
    for _ in 0..turns {
        thread::yield_now();
    }
}
