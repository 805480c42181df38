//! How the store of a run is laid out.
ghost use Rattle.std.specs.Prelude.{◌≡◌, ◌<◌, ◌≤◌, [], ◌∷◌, IfOk};
ghost use Rattle.serial_terms.specs.Counts.{numbers_from};
ghost use Rattle.serial_terms.specs.RunLayout.{given_of, layout_by};
ghost use Rattle.run_purpose.specs.Lawful.{IsSmall, Fits, layout_for};

use capture_terms::Plan;
use serial_terms::{Layout, PlainList, PoolLayout};
use std::alloc::{AllocError, Global};

/// The greatest number of tasks that are given at once.
const BATCH: u32 = 4096;

/// The layout of the store of a run over a plan of at most 262,144 tasks and groups, whose log may have so many findings, at
/// most 1,048,576. It has fewer than 2^24 cells. The one error is want of memory.
#[tactic(auto, using(crate::proofs::Rows::layout_fits))]
pub fn run_layout(alloc: Global, plan: &Plan, findings: u32) -> Result<Layout, AllocError>
    requires small { IsSmall plan.now }
    requires findings { (0 < findings) × (findings ≤ 1048576) }
    ensures layout { IfOk result (λ layout. layout ≡ layout_for plan.now findings) }
    ensures fits { IfOk result Fits }
{
    layout(
        alloc,
        plan.tasks.len() as u32,
        plan.groups.len() as u32,
        findings,
    )
}

// The layout for so many tasks, groups and findings.
#[tactic(auto, unfolding(serial_terms::specs::RunLayout::layout_by))]
fn layout(alloc: Global, tasks: u32, groups: u32, findings: u32) -> Result<Layout, AllocError>
    ensures { IfOk result (λ layout. layout ≡ layout_by tasks groups findings) }
{
    let room = BATCH.min(tasks.max(1));
    let items = first_batch(alloc, tasks)?;
    let pool = PoolLayout { slots: room, items };
    Ok(Layout {
        maps: PlainList::from_vec(vec![in alloc; groups.max(1), tasks.max(1)]?),
        queues: PlainList::from_vec(vec![in alloc; room]?),
        pools: one_pool(alloc, pool)?,
        logs: PlainList::from_vec(vec![in alloc; findings]?),
        cells: 1,
    })
}

// The list of one pool.
fn one_pool(alloc: Global, pool: PoolLayout) -> Result<PlainList<PoolLayout>, AllocError>
    ensures { IfOk result (λ pools. pools ≡ pool ∷ []) }
{
    let mut pools = Vec::new(alloc);
    pools.push(pool)?;
    Ok(PlainList::from_vec(pools))
}

// The numbers of the tasks with which the pool opens.
fn first_batch(alloc: Global, tasks: u32) -> Result<PlainList<u64>, AllocError>
    ensures { IfOk result (λ items. items ≡ numbers_from 0 (given_of tasks 0)) }
{
    let mut items = Vec::new(alloc);
    for task in 0..tasks.min(BATCH) {
        items.push(u64::from(task))?;
    }
    Ok(PlainList::from_vec(items))
}
