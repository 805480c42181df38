//! The transactions of a run, each tried a number of times.
ghost use Rattle.std.specs.Prelude.{◌≡◌, ◌+◌, ◌*◌, ◌<◌, ◌≤◌, length, IfOk, IfErr};
ghost use Rattle.cell_table.specs.Pass.{IsSole};
ghost use Rattle.cell_table.specs.Steps.{IsIdle};
ghost use Rattle.run_bodies.specs.Records.{AreAhead, TookItem, TookTask};
ghost use Rattle.run_bodies.specs.RunStores.{work_of_run};
ghost use Rattle.run_stages.specs.Allowed.{IsAllowed};
ghost use Rattle.tx_store.specs.Runs.{IsLeft, IsNotSpent};
ghost use Rattle.tx_store.specs.Stores.{IsPassOfStore};
ghost use Rattle.inspect_workers.specs.Noted.{Adds, AddsOne, IsFill};
ghost use Rattle.inspect_workers.specs.Opened.{IsOpened};
ghost use Rattle.inspect_workers.specs.Turns.{IsRefusedWith, TellsOfFull, IsForMemory};

use run_bodies::{Filling, Gate, Matching, Point, Taking};
use run_findings::Slot;
use run_purpose::RunPurpose;
use run_stages::laws::full_is_the_log_law;
use serial_terms::laws::{capacities_stay_law, records_keep_sizes_law, sizes_stay_law};
use std::alloc::Global;
use tx_store::{RunEnd, Store, StorePass, atomically};

/// How a transaction ended: with the pass and what its body answered, or else with the pass and the cause.
pub(crate) type Ended<'b, O> = Result<
    (StorePass<RunPurpose<'b>>, O),
    (StorePass<RunPurpose<'b>>, RunEnd),
>;

// Matches a datagram, if one is ready.
pub(crate) fn match_one<'r, 'b, G: Gate>(
    alloc: Global,
    store: &Store<RunPurpose<'b>>,
    pass: StorePass<RunPurpose<'b>>,
    run: &'r RunPurpose<'b>,
    ahead: &'r [Slot],
    gate: &mut G,
    tries: u32,
) -> Ended<'b, bool>
    requires store { IsOpened run.now store.now }
    requires ahead { AreAhead run.now ahead.now }
    requires of { IsPassOfStore store.now pass }
    requires idle { IsIdle pass.pass.view }
    requires tries { (0 < tries) × (tries ≤ pass.pass.view.draws) }
    ensures committed { IfOk result (λ r. AddsOne (λ calls. IsAllowed (work_of_run run.now) calls × TookItem calls r.1) pass.entry.pass r.0.pass) }
    ensures refused { IfErr result (λ r. IsRefusedWith run.now store.now tries pass.entry r.0 r.1) }
    ensures left { IfOk result (λ r. IsLeft store.now tries pass.entry r.0) }
    ensures left_refused { IfErr result (λ r. IsLeft store.now tries pass.entry r.0) }
    ensures sole { IsSole pass.entry.pass → IfErr result (λ r. IsNotSpent r.1) }
{
    let mut matching = Matching::new(alloc, run, gate, ahead);
    let ended = atomically(alloc, store, pass, &mut matching, tries);
    match ended {
        Ok(done) => {
            matching.gate.at(Point::Committed);
            Ok(done)
        }
        Err(refused) => {
            let (back, end) = refused;
            tell_full(store, &back, run);
            Err((back, end))
        }
    }
}

// Takes a task, if there is one. The walk of the pool begins at the slot `from`, which is then where it ended.
pub(crate) fn take_one<'b, G: Gate>(
    alloc: Global,
    store: &Store<RunPurpose<'b>>,
    pass: StorePass<RunPurpose<'b>>,
    run: &RunPurpose<'b>,
    gate: &mut G,
    from: &mut u32,
    tries: u32,
) -> Ended<'b, bool>
    requires store { IsOpened run.now store.now }
    requires of { IsPassOfStore store.now pass }
    requires idle { IsIdle pass.pass.view }
    requires tries { (0 < tries) × (tries ≤ pass.pass.view.draws) }
    ensures committed { IfOk result (λ r. AddsOne (λ calls. IsAllowed (work_of_run run.now) calls × TookTask calls r.1) pass.entry.pass r.0.pass) }
    ensures refused { IfErr result (λ r. IsRefusedWith run.now store.now tries pass.entry r.0 r.1) }
    ensures left { IfOk result (λ r. IsLeft store.now tries pass.entry r.0) }
    ensures left_refused { IfErr result (λ r. IsLeft store.now tries pass.entry r.0) }
    ensures sole { IsSole pass.entry.pass → IfErr result (λ r. IsNotSpent r.1) }
{
    let mut taking = Taking::new(run, gate, *from);
    let ended = atomically(alloc, store, pass, &mut taking, tries);
    *from = taking.from;
    match ended {
        Ok(done) => {
            taking.gate.at(Point::Committed);
            Ok(done)
        }
        Err(refused) => {
            let (back, end) = refused;
            tell_full(store, &back, run);
            Err((back, end))
        }
    }
}

// Gives the next tasks, after so many fills, in one try of a pass with every caller number. Memory alone may be wanting.
pub(crate) fn fill_once<'b>(
    alloc: Global,
    store: &Store<RunPurpose<'b>>,
    pass: StorePass<RunPurpose<'b>>,
    run: &RunPurpose<'b>,
    fills: u64,
) -> Ended<'b, ()>
    requires store { IsOpened run.now store.now }
    requires of { IsPassOfStore store.now pass × IsSole pass.pass }
    requires idle { IsIdle pass.pass.view × (0 < pass.pass.view.draws) }
    requires more { 4096 * (fills + 1) < length run.now.plan.now.tasks.items }
    ensures filled { IfOk result (λ r. Adds (IsFill (work_of_run run.now)) pass.entry.pass.books r.0.pass.books) }
    ensures refused { IfErr result (λ r. (r.0.pass.books ≡ pass.entry.pass.books) × IsForMemory r.1) }
    ensures left { IfOk result (λ r. IsLeft store.now 1 pass.entry r.0) }
    ensures left_refused { IfErr result (λ r. IsLeft store.now 1 pass.entry r.0) }
{
    let mut filling = Filling { run, fills };
    match atomically(alloc, store, pass, &mut filling, 1) {
        Ok(done) => Ok(done),
        Err(refused) => {
            let (back, end) = refused;
            tell_full(store, &back, run);
            Err((back, end))
        }
    }
}

// What a pass knows where it saw that a part is full: that is the log.
fn tell_full<'b>(
    store: &Store<RunPurpose<'b>>,
    pass: &StorePass<RunPurpose<'b>>,
    run: &RunPurpose<'b>,
)
    requires store { IsOpened run.now store.now }
    requires of { IsPassOfStore store.now pass.now }
    ensures { TellsOfFull run.now store.now pass.now }
{
    pass.history_law(store);
    full_is_the_log_law();
    records_keep_sizes_law();
    sizes_stay_law();
    capacities_stay_law();
}
