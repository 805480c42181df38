//! The store of a run.
ghost use Rattle.std.specs.Prelude.{◌<◌, ◌≤◌, IfOk};
ghost use Rattle.capture_terms.specs.Plan.{IsPlanned};
ghost use Rattle.inspect_workers.specs.Opened.{IsOpenedFor, IsOpeningPass};

use capture_terms::Plan;
use rule_matcher::Rules;
use run_purpose::{RunPurpose, run_layout, run_opens_lawful_law};
use std::alloc::{AllocError, Global};
use tx_store::{OpenEnd, Store, StorePass};

/// Opens the store of a run for 1 to 16 workers, whose log may have 1 to 1,048,576 findings, with the pass of all its callers, one
/// for each worker. The first 4,096 tasks of the plan are given. The one error is want of memory.
pub fn open_run<'b>(
    alloc: Global,
    plan: &'b Plan,
    rules: &'b Rules,
    bytes: &'b [u8],
    workers: u32,
    findings: u32,
) -> Result<(Store<RunPurpose<'b>>, StorePass<RunPurpose<'b>>), AllocError>
    requires plan { IsPlanned bytes.now plan.now }
    requires workers { (0 < workers) × (workers ≤ 16) }
    requires findings { (0 < findings) × (findings ≤ 1048576) }
    ensures store { IfOk result (λ r. IsOpenedFor (record { plan = plan.entry; rules = rules.entry; bytes = bytes.entry }) findings r.0) }
    ensures pass { IfOk result (λ r. IsOpeningPass workers r.0 r.1) }
{
    run_opens_lawful_law();
    let layout = run_layout(alloc, plan, findings)?;
    let purpose = RunPurpose { plan, rules, bytes };
    match Store::open(alloc, purpose, &layout, workers) {
        Ok(opened) => Ok(opened),
        Err(OpenEnd::Memory) => Err(AllocError),
        Err(OpenEnd::TooLarge { .. }) => unreachable!(),
    }
}
