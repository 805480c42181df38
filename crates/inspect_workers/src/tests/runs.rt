//! Stores of the runs of small captures, and what their passes do. What is handed on is a pass of the store that holds no cell.
ghost use Rattle.std.specs.Prelude.{◌<◌, ◌≤◌, IfOk};
ghost use Rattle.capture_terms.specs.Plan.{IsClassifiable, IsPlanned};
ghost use Rattle.cell_table.specs.Steps.{IsIdle};
ghost use Rattle.tx_store.specs.Stores.{IsPassOfStore};
ghost use Rattle.inspect_workers.specs.Opened.{IsOpened};

use crate::{Gate, Quiet, TurnEnd, open_run, turn};
use capture_terms::{Capture, Plan};
use ipv4_fragments::classify;
use pcap_frames::frames;
use rule_matcher::{Rules, rules};
use run_purpose::RunPurpose;
use serial_terms::StoreState;
use std::alloc::{AllocError, Global};
use std::process::Abort;
use tx_store::{Store, StorePass};

fn capture_of(rt: &impl Abort, alloc: Global, bytes: &[u8]) -> Capture
    ensures { IsClassifiable bytes.now result }
{
    frames(alloc, bytes).expect(rt, "it is a capture")
}

pub(super) fn plan_of(rt: &impl Abort, alloc: Global, bytes: &[u8]) -> Result<Plan, AllocError>
    ensures { IfOk result (IsPlanned bytes.now) }
{
    let capture = capture_of(rt, alloc, bytes);
    classify(alloc, &capture, bytes, 30)
}

pub(super) fn rules_of(rt: &impl Abort, alloc: Global, text: &[u8]) -> Rules {
    assert!(rt; text.len() < 4_294_967_296);
    rules(alloc, text).expect(rt, "these are rules")
}

// The store of a run, and the pass of all its callers.
pub(super) fn opened<'b>(
    alloc: Global,
    run: &RunPurpose<'b>,
    workers: u32,
    findings: u32,
) -> Result<(Store<RunPurpose<'b>>, StorePass<RunPurpose<'b>>), AllocError>
    requires plan { IsPlanned run.now.bytes.now run.now.plan.now }
    requires workers { (0 < workers) × (workers ≤ 16) }
    requires findings { (0 < findings) × (findings ≤ 1048576) }
    ensures store { IfOk result (λ t. IsOpened run.now t.0) }
    ensures pass { IfOk result (λ t. IsPassOfStore t.0 t.1 × IsIdle t.1.pass.view) }
{
    open_run(alloc, run.plan, run.rules, run.bytes, workers, findings)
}

// The pass after one turn, and how that ended. There is none where too few draws are left.
pub(super) fn one_turn<'b, G: Gate>(
    alloc: Global,
    store: &Store<RunPurpose<'b>>,
    pass: StorePass<RunPurpose<'b>>,
    run: &RunPurpose<'b>,
    gate: &mut G,
    tries: u32,
) -> (StorePass<RunPurpose<'b>>, Option<TurnEnd>)
    requires store { IsOpened run.now store.now }
    requires pass { IsPassOfStore store.now pass × IsIdle pass.pass.view }
    ensures { IsPassOfStore store.now result.0 × IsIdle result.0.pass.view }
{
    if tries == 0 || tries > 1024 || pass.draws_left() < 2048 {
        return (pass, None);
    }
    let (back, end) = turn(
        alloc, store, pass, run.plan, run.bytes, run.rules, gate, tries,
    );
    (back, Some(end))
}

/// What a store of a run holds at its end: the values of its log, and how many items are in its queue and its pool.
#[derive(Debug, Drop)]
pub(super) struct Found {
    pub(super) log: Vec<u64>,
    pub(super) left: usize,
}

// What the state of a store holds.
fn found_in(alloc: Global, state: &StoreState) -> Result<Found, AllocError> {
    let mut log = Vec::new(alloc);
    for values in state.logs.as_slice() {
        log.extend_from_slice(values.as_slice())?;
    }
    let mut left = 0usize;
    for items in state.queues.as_slice() {
        left = left.saturating_add(items.as_slice().len());
    }
    for items in state.pools.as_slice() {
        left = left.saturating_add(items.as_slice().len());
    }
    Ok(Found { log, left })
}

// What the store holds at its end.
pub(super) fn closed<'b>(
    alloc: Global,
    store: Store<RunPurpose<'b>>,
    pass: StorePass<RunPurpose<'b>>,
) -> Result<Found, AllocError>
    requires { IsPassOfStore store pass × IsIdle pass.pass.view }
{
    if !pass.is_sole(&store) {
        return Err(AllocError);
    }
    match store.close(alloc, pass) {
        Ok((_, state)) => found_in(alloc, &state),
        Err(_) => Err(AllocError),
    }
}

// The pass after turns until one doesn't work, 100 at most, and how the last one ended.
pub(super) fn until_nothing<'b>(
    alloc: Global,
    store: &Store<RunPurpose<'b>>,
    pass: StorePass<RunPurpose<'b>>,
    run: &RunPurpose<'b>,
) -> (StorePass<RunPurpose<'b>>, Option<TurnEnd>)
    requires store { IsOpened run.now store.now }
    requires pass { IsPassOfStore store.now pass × IsIdle pass.pass.view }
    ensures { IsPassOfStore store.now result.0 × IsIdle result.0.pass.view }
{
    let mut pass = pass;
    for _ in 0..100 {
        let (back, end) = one_turn(alloc, store, pass, run, &mut Quiet, 1);
        pass = back;
        if end != Some(TurnEnd::Worked) {
            return (pass, end);
        }
    }
    (pass, None)
}

// How the last turn of a worker alone ends, and what the store of its run then holds.
pub(super) fn by_turns<'b>(
    alloc: Global,
    run: &RunPurpose<'b>,
    findings: u32,
) -> Result<(Option<TurnEnd>, Found), AllocError>
    requires plan { IsPlanned run.now.bytes.now run.now.plan.now }
    requires findings { (0 < findings) × (findings ≤ 1048576) }
{
    let (store, pass) = opened(alloc, run, 1, findings)?;
    let (pass, last) = until_nothing(alloc, &store, pass, run);
    let found = closed(alloc, store, pass)?;
    Ok((last, found))
}
