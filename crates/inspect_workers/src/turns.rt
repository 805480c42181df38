//! One turn of a worker.
ghost use Rattle.std.specs.Prelude.{◌≡◌, ◌*◌, ◌<◌, ◌≤◌};
ghost use Rattle.cell_table.specs.Pass.{IsSole};
ghost use Rattle.cell_table.specs.Steps.{IsIdle};
ghost use Rattle.run_bodies.specs.Records.{AreAhead};
ghost use Rattle.tx_store.specs.Runs.{IsLeft};
ghost use Rattle.tx_store.specs.Stores.{IsPassOfStore};
ghost use Rattle.inspect_workers.specs.Opened.{IsOpened};
ghost use Rattle.inspect_workers.specs.Noted.{HasNoneAfter};
ghost use Rattle.inspect_workers.specs.Turns.{IsTurnEnd, IsTakeEnd, IsNotSpent, refused_turn};

use crate::transactions::{match_one, take_one};
use capture_terms::Plan;
use rule_matcher::Rules;
use run_bodies::Gate;
use run_findings::Slot;
use run_purpose::RunPurpose;
use std::alloc::Global;
use tx_core::Stop;
use tx_store::{RunEnd, Store, StorePass};

/// How a turn ended.
#[derive(Clone, Copy, Debug, PartialEq, Eq)]
pub enum TurnEnd {
    /// A datagram was matched, or a task was taken.
    Worked,
    /// Nothing was to be matched, and next nothing to be taken.
    Empty,
    /// Each of so many attempts of one transaction was ended by Held or Newer.
    Spent { tries: u32, last: Stop },
    /// The log had `length` findings and no room for `adding` more.
    Full { part: u32, length: u64, adding: u64 },
    /// Want of memory.
    Memory,
}

/// One turn: a transaction that matches a datagram; where there was none, one that takes a task, whose walk of the pool begins at the slot of
/// the caller's number. Each has 1 to 1,024 tries.
///
/// The turn adds one record for a datagram that it matched. Else it adds the record that there was none, and one that a task was taken, or
/// that there was none. Where it ends by Spent, Full or Memory, the transaction that ended so added nothing. Full is said of the log alone, and
/// then the capture has more findings than the log may have. A pass with every caller number never ends by Spent.
pub fn turn<'b, G: Gate>(
    alloc: Global,
    store: &Store<RunPurpose<'b>>,
    pass: StorePass<RunPurpose<'b>>,
    plan: &'b Plan,
    bytes: &'b [u8],
    rules: &'b Rules,
    gate: &mut G,
    tries: u32,
) -> (StorePass<RunPurpose<'b>>, TurnEnd)
    requires store { IsOpened (record { plan = plan; rules = rules; bytes = bytes }) store.now }
    requires of { IsPassOfStore store.now pass }
    requires idle { IsIdle pass.pass.view }
    requires tries { (0 < tries) × (tries ≤ 1024) × (2 * tries ≤ pass.pass.view.draws) }
    ensures ends { IsTurnEnd (record { plan = plan.entry; rules = rules.entry; bytes = bytes.entry }) store.now tries pass.entry result.0 result.1 }
    ensures left { IsLeft store.now (2 * tries) pass.entry result.0 }
    ensures sole { IsSole pass.entry.pass → IsNotSpent result.1 }
{
    let run = RunPurpose { plan, rules, bytes };
    let mut from = pass.caller();
    turn_ahead(alloc, store, pass, &run, &[], gate, &mut from, tries)
}

/// The same, where findings of whole frames were found ahead, and the walk of the pool begins at the slot `from`. That is then where the
/// walk ended.
pub(crate) fn turn_ahead<'b, G: Gate>(
    alloc: Global,
    store: &Store<RunPurpose<'b>>,
    pass: StorePass<RunPurpose<'b>>,
    run: &RunPurpose<'b>,
    ahead: &[Slot],
    gate: &mut G,
    from: &mut u32,
    tries: u32,
) -> (StorePass<RunPurpose<'b>>, TurnEnd)
    requires store { IsOpened run.now store.now }
    requires ahead { AreAhead run.now ahead.now }
    requires of { IsPassOfStore store.now pass }
    requires idle { IsIdle pass.pass.view }
    requires tries { (0 < tries) × (tries ≤ 1024) × (2 * tries ≤ pass.pass.view.draws) }
    ensures ends { IsTurnEnd run.now store.now tries pass.entry result.0 result.1 }
    ensures left { IsLeft store.now (2 * tries) pass.entry result.0 }
    ensures sole { IsSole pass.entry.pass → IsNotSpent result.1 }
{
    tell_places(store, &pass);
    match match_one(alloc, store, pass, run, ahead, gate, tries) {
        Ok(done) => {
            let (back, matched) = done;
            if matched {
                (back, TurnEnd::Worked)
            } else {
                take_turn(alloc, store, back, run, gate, from, tries)
            }
        }
        Err(refused) => {
            let (back, end) = refused;
            (back, turn_end(end))
        }
    }
}

// The second transaction of a turn.
fn take_turn<'b, G: Gate>(
    alloc: Global,
    store: &Store<RunPurpose<'b>>,
    pass: StorePass<RunPurpose<'b>>,
    run: &RunPurpose<'b>,
    gate: &mut G,
    from: &mut u32,
    tries: u32,
) -> (StorePass<RunPurpose<'b>>, TurnEnd)
    requires store { IsOpened run.now store.now }
    requires of { IsPassOfStore store.now pass }
    requires idle { IsIdle pass.pass.view }
    requires tries { (0 < tries) × (tries ≤ pass.pass.view.draws) }
    ensures ends { IsTakeEnd run.now store.now tries pass.entry result.0 result.1 }
    ensures left { IsLeft store.now tries pass.entry result.0 }
    ensures sole { IsSole pass.entry.pass → IsNotSpent result.1 }
{
    match take_one(alloc, store, pass, run, gate, from, tries) {
        Ok(done) => {
            let (back, taken) = done;
            if taken {
                (back, TurnEnd::Worked)
            } else {
                (back, TurnEnd::Empty)
            }
        }
        Err(refused) => {
            let (back, end) = refused;
            (back, turn_end(end))
        }
    }
}

// How a turn ends one transaction of which was refused.
fn turn_end(end: RunEnd) -> TurnEnd
    ensures { result ≡ refused_turn end }
{
    match end {
        RunEnd::Spent { tries, last } => TurnEnd::Spent { tries, last },
        RunEnd::Full {
            part,
            length,
            adding,
        } => TurnEnd::Full {
            part,
            length,
            adding,
        },
        RunEnd::KeysFull { .. } | RunEnd::Memory => TurnEnd::Memory,
    }
}

// Of a pass with every caller number, no record of its books has a later place than it has seen.
fn tell_places<'b>(store: &Store<RunPurpose<'b>>, pass: &StorePass<RunPurpose<'b>>)
    requires of { IsPassOfStore store.now pass.now }
    ensures { IsSole pass.now.pass → HasNoneAfter pass.now.pass.seen pass.now.pass.books }
{
    if pass.is_sole(store) {
        pass.whole_history_law(store);
    }
}
