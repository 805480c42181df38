ghost use Rattle.std.specs.Prelude.{◌≡◌, ℕ, ◌+◌, ◌-◌, ◌≤◌, ◌<◌, ◌^◌, List, length, true, false, slice_index, slice_get, Some, IfOk, All, IsSomeAnd};
ghost use Rattle.capture_terms.specs.declared.plan.Task.{Task};
ghost use Rattle.capture_terms.specs.Datagram.{holds, end_of_task, payload_of, IsDatagramAt};
ghost use Rattle.capture_terms.specs.Plan.{IsPlanned};
ghost use Rattle.ipv4_fragments.specs.Payload.{byte_of, end_at, IsThere, AreThere, Agree, Stands};

use capture_terms::{Plan, Task, datagram_law, numbers_law, packing_law};
use std::alloc::{AllocError, Global};

// Copies the data of a task to its place.
fn copy_task(whole: &mut [u8], task: &Task, bytes: &[u8])
    requires there { IsThere bytes.now task.now }
    requires within { end_of_task task.now ≤ length whole.old }
    ensures here { Stands bytes.now whole.new task.now }
    ensures others { (place : ℕ) → holds place task.now ≡ false → slice_index whole.new place ≡ slice_index whole.old place }
{
    let start = task.start as usize;
    let from = task.from as usize;
    let length = task.length as usize;
    whole[start..start + length].copy_from_slice(&bytes[from..from + length]);
}

fn copy_tasks(whole: &mut [u8], tasks: &[Task], numbers: &[u32], bytes: &[u8])
    requires there { AreThere (length whole.old) bytes.now tasks.now numbers.now }
    requires agree { Agree bytes.now tasks.now numbers.now }
    ensures { All (λ number. IsSomeAnd (slice_get tasks.now number) (Stands bytes.now whole.new)) numbers.now }
{
    for number in numbers {
        copy_task(whole, &tasks[*number as usize], bytes);
    }
}

// The greatest end of these tasks, or 0.
fn greatest_end(tasks: &[Task], numbers: &[u32]) -> u32
    requires { All (λ number. IsSomeAnd (slice_get tasks.now number) (λ task. end_of_task task ≤ 65535)) numbers.now }
    ensures most { All (λ number. end_at tasks.now number ≤ result) numbers.now }
    ensures least { (end : ℕ) → All (λ number. end_at tasks.now number ≤ end) numbers.now → result ≤ end }
{
    let mut greatest = 0;
    for number in numbers {
        let task = &tasks[*number as usize];
        let end = task.start + task.length;
        if greatest < end {
            greatest = end;
        }
    }
    greatest
}

// Copies the data of tasks into as many bytes as they reach.
fn assembled(
    alloc: Global,
    tasks: &[Task],
    numbers: &[u32],
    bytes: &[u8],
) -> Result<Vec<u8>, AllocError>
    requires there { AreThere 65535 bytes.now tasks.now numbers.now }
    requires agree { Agree bytes.now tasks.now numbers.now }
    ensures stands { IfOk result (λ whole. All (λ number. IsSomeAnd (slice_get tasks.now number) (Stands bytes.now whole.items)) numbers.now) }
    ensures most { IfOk result (λ whole. All (λ number. end_at tasks.now number ≤ length whole.items) numbers.now) }
    ensures least { IfOk result (λ whole. (end : ℕ) → All (λ number. end_at tasks.now number ≤ end) numbers.now → length whole.items ≤ end) }
{
    let end = greatest_end(tasks, numbers) as usize;
    let mut whole = vec![in alloc; 0u8; end]?;
    copy_tasks(&mut whole, tasks, numbers, bytes);
    Ok(whole)
}

/// The data of a datagram of a plan, of which the numbers of its tasks are given in any order: of a
/// whole datagram, or of all tasks of a complete group.
///
/// The byte at each place is that of the one task whose range holds it. There are at most 65,535.
/// The one error is want of memory.
pub fn payload(
    alloc: Global,
    plan: &Plan,
    bytes: &[u8],
    tasks: &[u32],
) -> Result<Vec<u8>, AllocError>
    requires plan { IsPlanned bytes.now plan.now }
    requires tasks { (datagram : List Task) × IsDatagramAt plan.now.tasks.items tasks.now datagram }
    ensures bytes { IfOk result (λ payload. (datagram : List Task) → IsDatagramAt plan.now.tasks.items tasks.now datagram → payload.items ≡ payload_of bytes.now datagram) }
    ensures short { IfOk result (λ payload. length payload.items ≤ 65535) }
{
    packing_law();
    numbers_law();
    datagram_law();
    let whole = assembled(alloc, &plan.tasks, tasks, bytes)?;
    Ok(whole)
}
