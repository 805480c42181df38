//! The findings of a datagram.
ghost use Rattle.std.specs.Prelude.{◌≡◌, true, Some, IfOk, IfSome};
ghost use Rattle.capture_terms.specs.Plan.{IsPlanned};
ghost use Rattle.run_bodies.specs.Matching.{AreTasksOf, AreFoundIn};
ghost use Rattle.run_bodies.specs.Records.{AreAhead};
ghost use Rattle.run_findings.specs.Slots.{IsFilled};
ghost use Rattle.run_bodies.specs.RunStores.{work_of_run};
ghost use Rattle.run_purpose.specs.declared.item.Item.TheVariants.{Whole};

use run_findings::{Slot, group_values, whole_values};
use run_purpose::{Item, RunPurpose};
use std::alloc::{AllocError, Global};

/// Whether what is kept was found for this datagram.
pub(crate) fn is_for(found: Option<Item>, item: Item) -> bool
    ensures { result ≡ true → found ≡ Some item }
{
    match found {
        None => false,
        Some(other) => other == item,
    }
}

// The values that were found ahead for a whole task, in the slot of its number.
fn found_ahead<'s>(run: &RunPurpose<'_>, ahead: &'s [Slot], task: u32) -> Option<&'s [u64]>
    requires { AreAhead run.now ahead.now }
    ensures { IfSome result (λ values. AreFoundIn (work_of_run run.now) (Whole task) values.now) }
{
    let first = match ahead.first() {
        None => return None,
        Some(slot) => slot.number,
    };
    if task < first {
        return None;
    }
    match ahead.get((task - first) as usize) {
        None => None,
        Some(slot) => values_in(run, slot, task),
    }
}

// The values in a slot, where it is that of the task.
fn values_in<'s>(run: &RunPurpose<'_>, slot: &'s Slot, task: u32) -> Option<&'s [u64]>
    requires { IfSome slot.now.values (IsFilled run.now.rules.now run.now.bytes.now run.now.plan.now slot.now.number) }
    ensures { IfSome result (λ values. AreFoundIn (work_of_run run.now) (Whole task) values.now) }
{
    if slot.number != task {
        return None;
    }
    match &slot.values {
        None => None,
        Some(values) => Some(values.as_slice()),
    }
}

/// The values of what the rules find in a datagram, in order of rule. The one error is want of memory.
pub(crate) fn values_of(
    alloc: Global,
    run: &RunPurpose<'_>,
    ahead: &[Slot],
    item: Item,
    chain: &[u32],
) -> Result<Vec<u64>, AllocError>
    requires planned { IsPlanned run.now.bytes.now run.now.plan.now }
    requires ahead { AreAhead run.now ahead.now }
    requires tasks { AreTasksOf (work_of_run run.now) item chain.now }
    ensures { IfOk result (λ values. AreFoundIn (work_of_run run.now) item values.items) }
{
    match item {
        Item::Group(group) => { group_values(alloc, run.plan, run.bytes, run.rules, group, chain) }
        Item::Whole(task) => match found_ahead(run, ahead, task) {
            Some(values) => values.to_vec(alloc),
            None => whole_values(alloc, run.plan, run.bytes, run.rules, task),
        },
    }
}
