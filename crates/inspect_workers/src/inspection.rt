//! The whole run: any number of workers over the tasks of a plan.
ghost use Rattle.std.specs.Prelude.{◌≡◌, ℕ, ◌/◌, ◌%◌, ◌^◌, ◌<◌, ◌≤◌, [], length, vec_len, get_or, All, IfOk, IfErr, IsPermutation};
ghost use Rattle.std.specs.List.Sorted.{IsNonDecreasing};
ghost use Rattle.capture_terms.specs.Plan.{IsPlanned};
ghost use Rattle.inspection_terms.specs.Findings.{all_findings};
ghost use Rattle.run_purpose.specs.Finished.{IsFinishedRun};
ghost use Rattle.serial_terms.specs.Histories.{entries_of};
ghost use Rattle.store_contents.specs.Contents.{AreByKey};
ghost use Rattle.inspect_workers.specs.Batches.{HasGivenAll};
ghost use Rattle.inspect_workers.specs.Inspected.{IsRunTo, AreFindings, CountsIncomplete, IsInspectEnd, FinishedRunsTell};
ghost use Rattle.inspect_workers.specs.Opened.{IsOpenedFor};

use crate::batches::all_batches;
use crate::open::open_run;
use crate::seats::{Seat, seated};
use capture_terms::{Plan, group_law};
use inspection_terms::sorted_are_findings;
use rule_matcher::Rules;
use rule_terms::findings_are_there;
use run_bodies::Gate;
use run_purpose::{RunPurpose, finished_runs_find_all_law, run_opens_lawful_law};
use serial_terms::StoreState;
use serial_terms::laws::books_sum_to_history_law;
use std::alloc::{AllocError, Global};
use std::thread::Threads;
use tx_store::{History, Store, StorePass};

/// What a whole run leaves.
#[derive(Drop)]
pub struct Outcome {
    /// The findings of the plan's datagrams as numbers, in ascending order: the values of the log of `state`.
    pub findings: Vec<u64>,
    /// How many groups are no whole datagram: the number of keys of map 0 in `state`.
    pub incomplete: u32,
    /// All records that the workers committed, in their serial order.
    pub history: History,
    /// What the store had in the end.
    pub state: StoreState,
}

/// Why a run left nothing.
#[derive(Clone, Copy, Debug, PartialEq, Eq)]
pub enum InspectEnd {
    /// There are more findings than the log may have, which is so many.
    LogFull { capacity: u32 },
    /// Want of memory.
    Memory,
}

/// The whole run over the tasks of a plan, by 1 to 16 workers, each in a thread of its own, with 1 to 1,048,576 findings at most.
///
/// Worker k acts under the caller number k, and the k-th gate is called at each point of its run. The gates are dropped at the end. In every
/// interleaving the outcome has the findings of the plan's datagrams and the number of the incomplete groups, and the records of all workers
/// are one legal history, from the opening of the store to a state that has nothing left to do.
///
/// `LogFull` comes exactly where there are more findings than the log may have, but for want of memory.
pub fn inspect<'b, R: Threads + Sync, G: Gate + Send + Drop>(
    rt: &R,
    alloc: Global,
    plan: &'b Plan,
    bytes: &'b [u8],
    rules: &'b Rules,
    workers: u32,
    findings: u32,
    gates: Vec<G>,
) -> Result<Outcome, InspectEnd>
    requires plan { IsPlanned bytes.now plan.now }
    requires workers { (0 < workers) × (workers ≤ 16) }
    requires findings { (0 < findings) × (findings ≤ 1048576) }
    requires gates { workers ≤ vec_len gates }
    ensures history { IfOk result (λ o. IsRunTo rules.now bytes.now plan.now findings (entries_of o.history.records) o.state) }
    ensures findings { IfOk result (λ o. AreFindings rules.now bytes.now plan.now findings o.state o.findings.items) }
    ensures incomplete { IfOk result (λ o. CountsIncomplete plan.now o.state o.incomplete) }
    ensures refused { IfErr result (IsInspectEnd rules.now bytes.now plan.now findings) }
{
    let run = RunPurpose { plan, rules, bytes };
    let mut seats: Vec<Seat<'b, G>> = match seated(alloc, gates, workers) {
        Ok(seats) => seats,
        Err(AllocError) => return Err(InspectEnd::Memory),
    };
    let Ok((store, pass)) = open_run(alloc, plan, rules, bytes, workers, findings) else {
        return Err(InspectEnd::Memory);
    };
    let pass = all_batches(rt, alloc, &store, pass, &run, findings, &mut seats)?;
    let Ok((history, state)) = closed(alloc, store, pass, &run, findings) else {
        return Err(InspectEnd::Memory);
    };
    match outcome_of(alloc, &run, findings, history, state) {
        Ok(outcome) => Ok(outcome),
        Err(AllocError) => Err(InspectEnd::Memory),
    }
}

// Closes the store of a run that left nothing.
fn closed<'b>(
    alloc: Global,
    store: Store<RunPurpose<'b>>,
    pass: StorePass<RunPurpose<'b>>,
    run: &RunPurpose<'b>,
    findings: u32,
) -> Result<(History, StoreState), AllocError>
    requires store { IsOpenedFor run.now findings store }
    requires pass { HasGivenAll store (length run.now.plan.now.tasks.items) pass }
    ensures finished { IfOk result (λ t. IsFinishedRun run.now.rules.now run.now.bytes.now run.now.plan.now findings (entries_of t.0.records) t.1) }
    ensures keys { IfOk result (λ t. AreByKey (get_or t.1.maps 0 [])) }
{
    books_sum_to_history_law();
    let _ = pass.callers_held();
    pass.books_law();
    match store.close(alloc, pass) {
        Ok(ended) => Ok(ended),
        Err(_) => Err(AllocError),
    }
}

// What the history and the contents of a finished run tell.
fn outcome_of(
    alloc: Global,
    run: &RunPurpose<'_>,
    findings: u32,
    history: History,
    state: StoreState,
) -> Result<Outcome, AllocError>
    requires planned { IsPlanned run.now.bytes.now run.now.plan.now }
    requires finished { IsFinishedRun run.now.rules.now run.now.bytes.now run.now.plan.now findings (entries_of history.records) state }
    requires keys { AreByKey (get_or state.maps 0 []) }
    ensures history { IfOk result (λ o. IsRunTo run.now.rules.now run.now.bytes.now run.now.plan.now findings (entries_of o.history.records) o.state) }
    ensures findings { IfOk result (λ o. AreFindings run.now.rules.now run.now.bytes.now run.now.plan.now findings o.state o.findings.items) }
    ensures incomplete { IfOk result (λ o. CountsIncomplete run.now.plan.now o.state o.incomplete) }
{
    run_opens_lawful_law();
    tell_end(run, findings);
    let found = sorted(alloc, log_of(&state))?;
    let incomplete = keys_of(&state).len() as u32;
    Ok(Outcome {
        findings: found,
        incomplete,
        history,
        state,
    })
}

// The values in ascending order.
fn sorted(alloc: Global, values: &[u64]) -> Result<Vec<u64>, AllocError>
    ensures { IfOk result (λ v. IsPermutation values.now v.items × IsNonDecreasing v.items) }
{
    let mut sorted = Vec::from_slice(alloc, values)?;
    sorted.sort_unstable();
    Ok(sorted)
}

fn log_of(state: &StoreState) -> &[u64]
    ensures { result.now ≡ get_or state.now.logs 0 [] }
{
    match state.logs.as_slice().first() {
        Some(log) => log.as_slice(),
        None => &[],
    }
}

fn keys_of(state: &StoreState) -> &[(u64, u64)]
    ensures { result.now ≡ get_or state.now.maps 0 [] }
{
    match state.maps.as_slice().first() {
        Some(map) => map.as_slice(),
        None => &[],
    }
}

// What the ends of runs tell that left nothing, for so many findings.
fn tell_end(run: &RunPurpose<'_>, findings: u32)
    requires { IsPlanned run.now.bytes.now run.now.plan.now }
    ensures { FinishedRunsTell run.now.rules.now run.now.bytes.now run.now.plan.now findings }
{
    let _ = (run.rules.len(), findings);
    finished_runs_find_all_law();
    sorted_are_findings();
    tell_rules(run);
}

// Each finding in the datagrams of a plan is of a rule that is there.
fn tell_rules(run: &RunPurpose<'_>)
    requires { IsPlanned run.now.bytes.now run.now.plan.now }
    ensures { All (λ (f : ℕ). f / 2 ^ 16 % 2 ^ 16 < length run.now.rules.now) (all_findings run.now.rules.now run.now.bytes.now run.now.plan.now.tasks.items) }
{
    let _ = run.rules.len();
    findings_are_there();
    group_law();
}
