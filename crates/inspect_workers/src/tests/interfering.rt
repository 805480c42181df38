//! Two workers, one of which takes a turn while the other is at one of its points.
ghost use Rattle.capture_terms.specs.Plan.{IsPlanned};
ghost use Rattle.cell_table.specs.Steps.{IsIdle};
ghost use Rattle.tx_store.specs.Stores.{IsPassOfStore};
ghost use Rattle.inspect_workers.specs.Opened.{IsOpened};

use super::reading::{Held, held_in};
use super::runs::{one_turn, opened, plan_of, rules_of, until_nothing};
use super::{GIVEN, Given};
use crate::{Gate, Point, Quiet, TurnEnd};
use run_purpose::RunPurpose;
use std::alloc::Global;
use std::marker::Model;
use std::process::Abort;
use std::sync::Arc;
use std::test::Fail;
use tx_core::Stop;
use tx_store::{Store, StorePass};

/// The gate of a worker that lets another worker take one turn, in one try, at its call of the number `at`.
///
/// As far as contracts say, a worker may put another such gate in its place. So nothing ties the pass in it to the first worker's store, and
/// the two passes can't be joined again.
#[derive(Drop)]
struct Interfering<'b> {
    alloc: Global,
    store: Arc<Store<RunPurpose<'b>>, Global>,
    run: RunPurpose<'b>,
    other: Option<StorePass<RunPurpose<'b>>>,
    at: u32,
    calls: u32,
    /// How the turn of the other worker ended, once it took one.
    end: Option<TurnEnd>,
}

impl<'b> Model for Interfering<'b> {
    ghost use Rattle.std.specs.Arc.{arc_value};
    ghost use Rattle.std.specs.Prelude.{ℕ, IfSome};
    ghost use Rattle.cell_table.specs.Steps.{IsIdle};
    ghost use Rattle.tx_store.specs.Stores.{IsPassOfStore};
    ghost use Rattle.inspect_workers.specs.Opened.{IsOpened};

    ghost Value = { ℕ };

    ghost view = { λ g. g.calls };

    ghost invariant = { λ g. IsOpened g.run (arc_value g.store) × IfSome g.other (λ p. IsPassOfStore (arc_value g.store) p × IsIdle p.pass.view) };
}

impl<'b> Gate for Interfering<'b> {
    fn at(&mut self, _point: Point) {
        self.calls = self.calls.saturating_add(1);
        if self.calls == self.at {
            self.interfere();
        }
    }
}

impl<'b> Interfering<'b> {
    // The other worker takes its turn.
    fn interfere(&mut self) {
        if let Some(pass) = self.other.take() {
            let (back, end) = one_turn(self.alloc, &self.store, pass, &self.run, &mut Quiet, 1);
            self.other = Some(back);
            self.end = end;
        }
    }
}

/// What came of a run in which another worker took one turn.
#[derive(Drop)]
struct Interfered {
    /// To how many points the first worker came.
    points: u32,
    /// The end of the last turn of the first worker that was spent.
    spent: Option<TurnEnd>,
    /// How the turn of the other worker ended, if it took one.
    other: Option<TurnEnd>,
    /// How the last turn of the first worker ended.
    last: Option<TurnEnd>,
    held: Held,
}

// The pass after turns until one finds nothing, 100 at most, and the end of the last one that was spent.
fn until_empty<'b, G: Gate>(
    alloc: Global,
    store: &Store<RunPurpose<'b>>,
    pass: StorePass<RunPurpose<'b>>,
    run: &RunPurpose<'b>,
    gate: &mut G,
    tries: u32,
) -> (StorePass<RunPurpose<'b>>, Option<TurnEnd>)
    requires store { IsOpened run.now store.now }
    requires pass { IsPassOfStore store.now pass × IsIdle pass.pass.view }
    ensures { IsPassOfStore store.now result.0 × IsIdle result.0.pass.view }
{
    let mut pass = pass;
    let mut spent = None;
    for _ in 0..100 {
        let (back, end) = one_turn(alloc, store, pass, run, gate, tries);
        pass = back;
        match end {
            Some(TurnEnd::Worked) => {}
            Some(TurnEnd::Spent { .. }) => spent = end,
            _ => return (pass, spent),
        }
    }
    (pass, spent)
}

// Runs a worker to its end, while another takes a turn at the point of this number.
fn interfere_at<'b>(
    alloc: Global,
    run: &RunPurpose<'b>,
    tries: u32,
    at: u32,
) -> Result<Interfered, Stop>
    requires { IsPlanned run.now.bytes.now run.now.plan.now }
{
    let (store, pass) = opened(alloc, run, 2, 4)?;
    let mut pass = pass;
    if pass.callers_held() < 2 {
        return Err(Stop::Memory);
    }
    let other = pass.split(alloc, &store, 1)?;
    let Ok(store) = Arc::new(alloc, store) else {
        return Err(Stop::Memory);
    };
    let mut gate = Interfering {
        alloc,
        store: Arc::try_clone(&store)?,
        run: RunPurpose {
            plan: run.plan,
            rules: run.rules,
            bytes: run.bytes,
        },
        other: Some(other),
        at,
        calls: 0,
        end: None,
    };
    let (pass, spent) = until_empty(alloc, &store, pass, run, &mut gate, tries);
    let points = gate.calls;
    let other = gate.end;
    let (pass, last) = until_nothing(alloc, &store, pass, run);
    let held = held_in(alloc, &store, pass, run)?;
    Ok(Interfered {
        points,
        spent,
        other,
        last,
        held,
    })
}

/// What was met in many runs.
#[derive(Clone, Copy, Drop)]
struct Met {
    /// A turn of the first worker was spent, by a newer version.
    newer: bool,
    /// The turn of the other worker was spent, by a cell that the first one held.
    held: bool,
}

fn is_newer(end: TurnEnd) -> bool {
    matches!(
        end,
        TurnEnd::Spent {
            tries: 1,
            last: Stop::Newer { .. }
        }
    )
}

fn is_held(end: TurnEnd) -> bool {
    matches!(
        end,
        TurnEnd::Spent {
            tries: 1,
            last: Stop::Held { .. }
        }
    )
}

// All is found that is to be found, with a turn of another worker at the point of this number. It answers whether there was no such point.
fn finds_all(
    rt: &impl Abort,
    alloc: Global,
    run: &RunPurpose<'_>,
    values: &[u64],
    tries: u32,
    at: u32,
    met: &mut Met,
) -> Result<bool, Fail>
    requires { IsPlanned run.now.bytes.now run.now.plan.now }
{
    let ran = interfere_at(alloc, run, tries, at)?;
    assert_eq!(*rt; ran.last, Some(TurnEnd::Empty));
    assert_eq!(*rt; ran.held.log.as_slice(), values);
    assert_eq!(*rt; ran.held.queued, 0);
    assert_eq!(*rt; ran.held.pooled, None);
    assert_eq!(*rt; ran.other.is_none(), ran.points < at);
    if let Some(end) = ran.spent {
        assert!(*rt; is_newer(end), "{end:?}");
        met.newer = true;
    }
    if let Some(end) = ran.other {
        met.held |= is_held(end);
    }
    Ok(ran.points < at)
}

// The same at every point of a run on this capture.
fn finds_all_at_every_point(
    rt: &impl Abort,
    alloc: Global,
    given: Given,
    tries: u32,
) -> Result<Met, Fail> {
    let (bytes, text, values) = given;
    let plan = plan_of(rt, alloc, bytes)?;
    let rules = rules_of(rt, alloc, text);
    let run = RunPurpose {
        plan: &plan,
        rules: &rules,
        bytes,
    };
    let mut met = Met {
        newer: false,
        held: false,
    };
    let mut all = false;
    for at in 1..200 {
        if finds_all(rt, alloc, &run, values, tries, at, &mut met)? {
            all = true;
            break;
        }
    }
    assert!(*rt; all, "a run has fewer than 200 points");
    Ok(met)
}

#[test]
fn a_turn_of_another_worker_at_any_point_spoils_nothing(rt: HostRuntime) -> Result<(), Fail> {
    let alloc = rt.alloc();
    for given in GIVEN {
        let met = finds_all_at_every_point(&rt, alloc, given, 64)?;
        assert!(rt; !met.newer);
    }
    Ok(())
}

#[test]
fn an_only_try_that_meets_another_worker_is_spent(rt: HostRuntime) -> Result<(), Fail> {
    let alloc = rt.alloc();
    for given in GIVEN {
        let met = finds_all_at_every_point(&rt, alloc, given, 1)?;
        assert_eq!(rt; met.newer, !given.2.is_empty());
        assert!(rt; met.held);
    }
    Ok(())
}
