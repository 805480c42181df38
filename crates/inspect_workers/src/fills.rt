//! The next tasks are given.
ghost use Rattle.std.specs.Prelude.{◌≡◌, ◌<◌};
ghost use Rattle.cell_table.specs.Pass.{IsSole};
ghost use Rattle.cell_table.specs.Steps.{IsIdle};
ghost use Rattle.run_bodies.specs.RunStores.{work_of_run};
ghost use Rattle.tx_store.specs.Runs.{IsLeft};
ghost use Rattle.tx_store.specs.Stores.{IsPassOfStore};
ghost use Rattle.inspect_workers.specs.Fills.{HasFoundNothing, IsRefillEnd};
ghost use Rattle.inspect_workers.specs.Noted.{fills_in};
ghost use Rattle.inspect_workers.specs.Opened.{IsOpened};

use crate::transactions::fill_once;
use capture_terms::Plan;
use rule_matcher::Rules;
use run_purpose::RunPurpose;
use run_stages::from_capture::tasks_have_facts_law;
use std::alloc::Global;
use tx_store::{Store, StorePass};

/// Whether the next tasks were given.
#[derive(Clone, Copy, Debug, PartialEq, Eq)]
pub enum RefillEnd {
    /// They were.
    Filled,
    /// Every task was given before.
    NoMore,
    /// Want of memory.
    Memory,
}

/// Gives the next tasks to the pool, 4,096 at most, in one transaction of the pass with every caller number, after so many fills, once
/// queue and pool are empty.
///
/// `NoMore` comes exactly where every task was given, and then no attempt is begun. After want of memory the books are as they were.
pub fn refill<'b>(
    alloc: Global,
    store: &Store<RunPurpose<'b>>,
    pass: StorePass<RunPurpose<'b>>,
    plan: &'b Plan,
    bytes: &'b [u8],
    rules: &'b Rules,
    fills: u32,
) -> (StorePass<RunPurpose<'b>>, RefillEnd)
    requires store { IsOpened (record { plan = plan; rules = rules; bytes = bytes }) store.now }
    requires of { IsPassOfStore store.now pass × IsSole pass.pass }
    requires idle { IsIdle pass.pass.view × (0 < pass.pass.view.draws) }
    requires empty { HasFoundNothing pass.pass }
    requires fills { fills ≡ fills_in pass.pass.books }
    ensures ends { IsRefillEnd (work_of_run (record { plan = plan.entry; rules = rules.entry; bytes = bytes.entry })) fills pass.entry result.0 result.1 }
    ensures left { IsLeft store.now 1 pass.entry result.0 }
{
    tasks_have_facts_law();
    let fills = u64::from(fills);
    if plan.tasks.len() as u64 <= 4096 * (fills + 1) {
        return (pass, RefillEnd::NoMore);
    }
    let run = RunPurpose { plan, rules, bytes };
    match fill_once(alloc, store, pass, &run, fills) {
        Ok(done) => {
            let (back, _) = done;
            (back, RefillEnd::Filled)
        }
        Err(refused) => {
            let (back, _) = refused;
            (back, RefillEnd::Memory)
        }
    }
}
