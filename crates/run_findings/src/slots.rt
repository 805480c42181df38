//! The findings of many whole tasks, found by several threads before they are asked for.
ghost use Rattle.std.specs.Prelude.{◌≡◌, ℕ, ◌+◌, ◌<◌, ◌≤◌, ◌^◌, length, All, IfOk, IfSome, slice_index_or};
ghost use Rattle.capture_terms.specs.Plan.{IsPlanned};
ghost use Rattle.run_findings.specs.Slots.{IsFilled, AreEmpty, IsSlotOf};

use crate::datagrams::whole_values;
use capture_terms::Plan;
use rule_matcher::Rules;
use run_stages::from_capture::tasks_have_facts_law;
use std::alloc::{AllocError, Global};
use std::thread;
use std::thread::Threads;

/// The number of a task, and the values of the findings in its datagram where these were found already.
#[derive(Debug, Drop)]
pub struct Slot {
    pub number: u32,
    pub values: Option<Vec<u64>>,
}

/// A slot for each of `count` tasks from the task `first` on, with the values of the whole ones, found by at most so many
/// threads.
///
/// A slot stays without values where its task is a fragment, or where memory was wanted for it. The one error is want of memory
/// for the slots.
pub fn find_ahead<R: Threads + Sync>(
    rt: &R,
    alloc: Global,
    plan: &Plan,
    bytes: &[u8],
    rules: &Rules,
    first: u32,
    count: u32,
    threads: usize,
) -> Result<Vec<Slot>, AllocError>
    requires planned { IsPlanned bytes.now plan.now }
    requires there { first + count ≤ length plan.now.tasks.items }
    requires small { first + count < 2 ^ 32 }
    requires threads { 0 < threads }
    ensures count { IfOk result (λ slots. length slots.items ≡ count) }
    ensures slots { IfOk result (λ slots. (i : ℕ) (d : _) → i < count → IsSlotOf rules.now bytes.now plan.now (first + i) (slice_index_or slots.items i d)) }
{
    let mut slots = empty_slots(alloc, plan, first, count)?;
    fill_slots(rt, alloc, plan, bytes, rules, &mut slots, threads);
    Ok(slots)
}

// Slots without values, for tasks that are there.
#[tactic(auto, using(crate::proofs::Ahead::one_more))]
fn empty_slots(alloc: Global, plan: &Plan, first: u32, count: u32) -> Result<Vec<Slot>, AllocError>
    requires there { first + count ≤ length plan.now.tasks.items }
    requires small { first + count < 2 ^ 32 }
    ensures count { IfOk result (λ slots. length slots.items ≡ count) }
    ensures there { IfOk result (λ slots. All (λ s. s.number < length plan.now.tasks.items) slots.items) }
    ensures empty { IfOk result (λ slots. AreEmpty first slots.items) }
{
    let mut slots = Vec::with_capacity(alloc, count as usize)?;
    for place in 0..count {
        slots.push(Slot {
            number: first + place,
            values: None,
        })?;
    }
    Ok(slots)
}

// Fills the slots, each by one of the threads.
fn fill_all<R: Threads + Sync>(
    rt: &R,
    alloc: Global,
    plan: &Plan,
    bytes: &[u8],
    rules: &Rules,
    slots: &mut [Slot],
    threads: usize,
)
    requires planned { IsPlanned bytes.now plan.now }
    requires there { All (λ s. s.number < length plan.now.tasks.items) slots.old }
    requires threads { 0 < threads }
    ensures length { length slots.new ≡ length slots.old }
    ensures filled { (i : ℕ) (d : _) → i < length slots.old → IsSlotOf rules.now bytes.now plan.now (slice_index_or slots.old i d).number (slice_index_or slots.new i d) }
{
    thread::for_each_mut(
        rt,
        slots,
        threads,
        &|_, slot| fill(alloc, plan, bytes, rules, slot),
    );
}

// The same for a list that owns its slots.
fn fill_slots<R: Threads + Sync>(
    rt: &R,
    alloc: Global,
    plan: &Plan,
    bytes: &[u8],
    rules: &Rules,
    slots: &mut Vec<Slot>,
    threads: usize,
)
    requires planned { IsPlanned bytes.now plan.now }
    requires there { All (λ s. s.number < length plan.now.tasks.items) slots.old.items }
    requires threads { 0 < threads }
    ensures length { length slots.new.items ≡ length slots.old.items }
    ensures filled { (i : ℕ) (d : _) → i < length slots.old.items → IsSlotOf rules.now bytes.now plan.now (slice_index_or slots.old.items i d).number (slice_index_or slots.new.items i d) }
{
    fill_all(rt, alloc, plan, bytes, rules, slots.as_mut_slice(), threads);
}

// Finds the values of the slot's task, where it is whole and memory suffices.
fn fill(alloc: Global, plan: &Plan, bytes: &[u8], rules: &Rules, slot: &mut Slot)
    requires planned { IsPlanned bytes.now plan.now }
    requires there { slot.old.number < length plan.now.tasks.items }
    ensures { IsSlotOf rules.now bytes.now plan.now slot.old.number slot.new }
{
    slot.values = values_ahead(alloc, plan, bytes, rules, slot.number);
}

// The values of a task's datagram, where it is whole and memory suffices.
fn values_ahead(
    alloc: Global,
    plan: &Plan,
    bytes: &[u8],
    rules: &Rules,
    number: u32,
) -> Option<Vec<u64>>
    requires planned { IsPlanned bytes.now plan.now }
    requires there { number < length plan.now.tasks.items }
    ensures { IfSome result (IsFilled rules.now bytes.now plan.now number) }
{
    tasks_have_facts_law();
    match plan.tasks[number as usize].group {
        Some(_) => None,
        None => match whole_values(alloc, plan, bytes, rules, number) {
            Ok(values) => Some(values),
            Err(AllocError) => None,
        },
    }
}
