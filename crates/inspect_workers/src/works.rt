//! The run of one worker.
ghost use Rattle.std.specs.Prelude.{◌≡◌, ℕ, ◌+◌, ◌*◌, ◌^◌, ◌<◌, ◌≤◌, length};
ghost use Rattle.cell_table.specs.Pass.{IsSole};
ghost use Rattle.cell_table.specs.Steps.{IsIdle};
ghost use Rattle.run_bodies.specs.RunStores.{work_of_run};
ghost use Rattle.run_bodies.specs.Records.{AreAhead};
ghost use Rattle.tx_store.specs.Runs.{IsLeft};
ghost use Rattle.tx_store.specs.Stores.{IsPassOfStore};
ghost use Rattle.inspect_workers.specs.Noted.{Books, AddsUpTo, IsOfWorker};
ghost use Rattle.inspect_workers.specs.Opened.{IsOpened};
ghost use Rattle.inspect_workers.specs.Works.{IsWorkEnd, IsNotSpent, HasTurned, most_draws, last_end};

use crate::turns::{TurnEnd, turn_ahead};
use capture_terms::Plan;
use rule_matcher::Rules;
use run_bodies::Gate;
use run_findings::Slot;
use run_purpose::{RunPurpose, run_opens_lawful_law};
use run_stages::from_capture::tasks_have_facts_law;
use run_stages::laws::{one_caller_takes_less_law, runs_are_bounded_law};
use std::alloc::Global;
use tx_core::Stop;
use tx_store::{Store, StorePass};

/// How a worker's run ended.
#[derive(Clone, Copy, Debug, PartialEq, Eq)]
pub enum WorkEnd {
    /// Nothing was to be matched, and next nothing to be taken.
    Done,
    /// Each of so many attempts of one transaction was ended by Held or Newer.
    Spent { tries: u32, last: Stop },
    /// The log had `length` findings and no room for `adding` more.
    Full { part: u32, length: u64, adding: u64 },
    /// Want of memory.
    Memory,
}

/// Turns until one neither matches a datagram nor takes a task. Each transaction has 1 to 1,024 tries. The first walk of the pool begins
/// at the slot of the caller's number, each later one where the one before it ended.
///
/// It ends as its last turn did, after at most two turns for each task of the plan, and draws fewer than 2^31 versions. The records that it
/// added stand in every case.
pub fn work<'b, G: Gate>(
    alloc: Global,
    store: &Store<RunPurpose<'b>>,
    pass: StorePass<RunPurpose<'b>>,
    plan: &'b Plan,
    bytes: &'b [u8],
    rules: &'b Rules,
    gate: &mut G,
    tries: u32,
) -> (StorePass<RunPurpose<'b>>, WorkEnd)
    requires store { IsOpened (record { plan = plan; rules = rules; bytes = bytes }) store.now }
    requires of { IsPassOfStore store.now pass }
    requires idle { IsIdle pass.pass.view }
    requires tries { (0 < tries) × (tries ≤ 1024) × (2 ^ 32 ≤ pass.pass.view.draws) }
    ensures ends { IsWorkEnd (record { plan = plan.entry; rules = rules.entry; bytes = bytes.entry }) store.now tries pass.entry result.0 result.1 }
    ensures records { AddsUpTo (4 * length plan.now.tasks.items + 2) (IsOfWorker (work_of_run (record { plan = plan.entry; rules = rules.entry; bytes = bytes.entry }))) pass.entry.pass.books result.0.pass.books }
    ensures left { IsLeft store.now most_draws pass.entry result.0 }
    ensures sole { IsSole pass.entry.pass → IsNotSpent result.1 }
{
    let run = RunPurpose { plan, rules, bytes };
    work_ahead(alloc, store, pass, &run, &[], gate, tries)
}

/// The same, where findings of whole frames were found ahead.
pub(crate) fn work_ahead<'b, G: Gate>(
    alloc: Global,
    store: &Store<RunPurpose<'b>>,
    pass: StorePass<RunPurpose<'b>>,
    run: &RunPurpose<'b>,
    ahead: &[Slot],
    gate: &mut G,
    tries: u32,
) -> (StorePass<RunPurpose<'b>>, WorkEnd)
    requires store { IsOpened run.now store.now }
    requires ahead { AreAhead run.now ahead.now }
    requires of { IsPassOfStore store.now pass }
    requires idle { IsIdle pass.pass.view }
    requires tries { (0 < tries) × (tries ≤ 1024) × (2 ^ 32 ≤ pass.pass.view.draws) }
    ensures ends { IsWorkEnd run.now store.now tries pass.entry result.0 result.1 }
    ensures records { AddsUpTo (4 * length run.now.plan.now.tasks.items + 2) (IsOfWorker (work_of_run run.now)) pass.entry.pass.books result.0.pass.books }
    ensures left { IsLeft store.now most_draws pass.entry result.0 }
    ensures sole { IsSole pass.entry.pass → IsNotSpent result.1 }
{
    run_opens_lawful_law();
    let mut pass = pass;
    let mut from = pass.caller();
    let most = 2 * run.plan.tasks.len() + 1;
    for turns in 0..most {
        let (back, end) = turn_ahead(alloc, store, pass, run, ahead, gate, &mut from, tries);
        pass = back;
        match last_end(end) {
            Some(end) => return (pass, end),
            None => {}
        }
    }
    tell_bound(store, &pass, run);
    unreachable!()
}

// How a worker's run ends with such a turn, if it ends with it.
fn last_end(end: TurnEnd) -> Option<WorkEnd>
    ensures { result ≡ last_end end }
{
    match end {
        TurnEnd::Worked => None,
        TurnEnd::Empty => Some(WorkEnd::Done),
        TurnEnd::Spent { tries, last } => Some(WorkEnd::Spent { tries, last }),
        TurnEnd::Full {
            part,
            length,
            adding,
        } => Some(WorkEnd::Full {
            part,
            length,
            adding,
        }),
        TurnEnd::Memory => Some(WorkEnd::Memory),
    }
}

// No run of a worker has more than two turns for each task before its last one.
fn tell_bound<'b>(
    store: &Store<RunPurpose<'b>>,
    pass: &StorePass<RunPurpose<'b>>,
    run: &RunPurpose<'b>,
)
    requires store { IsOpened run.now store.now }
    requires of { IsPassOfStore store.now pass.now }
    ensures { (turns : ℕ) (old : Books) → HasTurned (work_of_run run.now) turns old pass.now.pass.books → turns ≤ 2 * length run.now.plan.now.tasks.items }
{
    let _ = pass.callers_held();
    pass.history_law(store);
    tasks_have_facts_law();
    runs_are_bounded_law();
    one_caller_takes_less_law();
}
