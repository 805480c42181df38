//! The findings in one datagram.
ghost use Rattle.std.specs.Prelude.{◌≡◌, ℕ, ◌<◌, ◌≤◌, List, [], ◌∷◌, None, length, All, IfOk, Contains};
ghost use Rattle.capture_terms.specs.Datagram.{IsDatagramAt};
ghost use Rattle.capture_terms.specs.Plan.{IsPlanned};
ghost use Rattle.capture_terms.specs.declared.plan.Task.{Task as Piece};
ghost use Rattle.inspection_terms.specs.Findings.{findings_in};
ghost use Rattle.run_findings.specs.Datagrams.{AreAllTasks};
ghost use Rattle.run_stages.specs.FromCapture.{work_of_plan};
ghost use Rattle.run_stages.specs.Work.{IsWhole};
ghost use Rattle.serial_terms.specs.Ranges.{IsKept};

use crate::values::values_in;
use capture_terms::{Plan, Task, first_law, task_law};
use ipv4_fragments::payload;
use rule_matcher::{Rules, any_asks_for};
use run_stages::from_capture::{group_is_datagram_law, tasks_have_facts_law};
use std::alloc::{AllocError, Global};

/// The values of the findings in the datagram of a whole task, in order of rule. It is matched in place. The one error is want
/// of memory.
pub fn whole_values(
    alloc: Global,
    plan: &Plan,
    bytes: &[u8],
    rules: &Rules,
    number: u32,
) -> Result<Vec<u64>, AllocError>
    requires planned { IsPlanned bytes.now plan.now }
    requires whole { IsWhole (work_of_plan rules.now bytes.now plan.now) number }
    ensures values { IfOk result (λ values. values.items ≡ (work_of_plan rules.now bytes.now plan.now).task_values number) }
    ensures kept { IfOk result (λ values. All IsKept values.items) }
{
    tasks_have_facts_law();
    task_values(alloc, plan, bytes, rules, &plan.tasks[number as usize])
}

// The values of the findings in the datagram that a task is alone.
fn task_values(
    alloc: Global,
    plan: &Plan,
    bytes: &[u8],
    rules: &Rules,
    task: &Task,
) -> Result<Vec<u64>, AllocError>
    requires planned { IsPlanned bytes.now plan.now }
    requires member { Contains plan.now.tasks.items task.now }
    requires alone { task.now.group ≡ None }
    ensures values { IfOk result (λ values. values.items ≡ findings_in rules.now bytes.now (task.now ∷ [])) }
    ensures kept { IfOk result (λ values. All IsKept values.items) }
{
    task_law();
    let from = task.from as usize;
    values_in(
        alloc,
        rules,
        task,
        &bytes[from..from + task.length as usize],
    )
}

/// The values of the findings in the datagram of a complete group, in order of rule. The numbers are those of its tasks, in any
/// order. Its data is put together only where some rule asks for its protocol. The one error is want of memory.
pub fn group_values(
    alloc: Global,
    plan: &Plan,
    bytes: &[u8],
    rules: &Rules,
    group: u32,
    numbers: &[u32],
) -> Result<Vec<u64>, AllocError>
    requires planned { IsPlanned bytes.now plan.now }
    requires tasks { AreAllTasks (work_of_plan rules.now bytes.now plan.now) group numbers.now }
    ensures values { IfOk result (λ values. values.items ≡ (work_of_plan rules.now bytes.now plan.now).group_values group) }
    ensures kept { IfOk result (λ values. All IsKept values.items) }
{
    tasks_have_facts_law();
    group_is_datagram_law();
    datagram_values(alloc, plan, bytes, rules, numbers)
}

// The values of the findings in the datagram whose tasks have these numbers.
fn datagram_values(
    alloc: Global,
    plan: &Plan,
    bytes: &[u8],
    rules: &Rules,
    numbers: &[u32],
) -> Result<Vec<u64>, AllocError>
    requires planned { IsPlanned bytes.now plan.now }
    requires some { 0 < length numbers.now }
    requires there { All (λ number. number < length plan.now.tasks.items) numbers.now }
    requires datagram { (datagram : List Piece) × IsDatagramAt plan.now.tasks.items numbers.now datagram }
    ensures values { IfOk result (λ values. (datagram : List Piece) → IsDatagramAt plan.now.tasks.items numbers.now datagram → values.items ≡ findings_in rules.now bytes.now datagram) }
    ensures kept { IfOk result (λ values. All IsKept values.items) }
{
    first_law();
    let first = &plan.tasks[least_of(numbers) as usize];
    if !any_asks_for(rules, &first.header) {
        return Ok(Vec::new(alloc));
    }
    let data = payload(alloc, plan, bytes, numbers)?;
    values_in(alloc, rules, first, &data)
}

// The least of the numbers, of which there is one at least.
fn least_of(numbers: &[u32]) -> u32
    requires { 0 < length numbers.now }
    ensures among { Contains numbers.now result }
    ensures least { All (λ number. result ≤ number) numbers.now }
{
    let mut least = numbers[0];
    for number in numbers {
        least = lesser(least, *number);
    }
    least
}

// The lesser of two numbers.
fn lesser(first: u32, second: u32) -> u32
    ensures one { (numbers : List ℕ) → Contains numbers first → Contains numbers second → Contains numbers result }
    ensures most { (result ≤ first) × (result ≤ second) }
{
    if second < first { second } else { first }
}
