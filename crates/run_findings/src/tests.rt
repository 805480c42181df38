//! The findings of single datagrams.
ghost use Rattle.std.specs.Prelude.{◌≡◌, ℕ, ◌<◌, List, [], ◌∷◌, length, IsTrue, IsSomeAnd, IfOk};
ghost use Rattle.capture_terms.specs.Plan.{IsClassifiable, IsPlanned};
ghost use Rattle.capture_terms.specs.declared.plan.Group.{Group};
ghost use Rattle.rule_terms.specs.Rule.{Rule};
ghost use Rattle.run_findings.specs.Datagrams.{AreAllTasks};
ghost use Rattle.run_stages.specs.FromCapture.{work_of};

use crate::{find_ahead, group_values, whole_values};
use capture_terms::{Capture, Plan, Task};
use ipv4_fragments::classify;
use pcap_frames::frames;
use rule_matcher::{Rules, rules};
use run_stages::from_capture::tasks_have_facts_law;
use std::alloc::{AllocError, Global};
use std::process::Abort;
use std::test::Fail;

/// A capture of one datagram with the data "abcdef".
const WHOLE: &[u8] =
    b"\xd4\xc3\xb2\xa1\x02\0\x04\0\0\0\0\0\0\0\0\0\0\0\x04\0\x65\0\0\0\0\0\0\0\0\0\0\0\x1a\0\0\0\x1a\0\0\0\x45\0\0\x1a\0\x01\0\0\x40\x01\0\0\x0a\0\0\x01\xc0\0\x02\x01abcdef";

/// A capture of a datagram with the data "ghijklmnopqr", of which the last fragment comes first.
const FRAGMENTS: &[u8] =
    b"\xd4\xc3\xb2\xa1\x02\0\x04\0\0\0\0\0\0\0\0\0\0\0\x04\0\x65\0\0\0\0\0\0\0\0\0\0\0\x18\0\0\0\x18\0\0\0\x45\0\0\x18\0\x07\0\x01\x40\x01\0\0\x0a\0\0\x01\xc0\0\x02\x01opqr\0\0\0\0\0\0\0\0\x1c\0\0\0\x1c\0\0\0\x45\0\0\x1c\0\x07\x20\0\x40\x01\0\0\x0a\0\0\x01\xc0\0\x02\x01ghijklmn";

/// What rule one looks for stands in the first datagram, and what rule two looks for across the seam of the second.
const RULES: &[u8] = b"rule one proto icmp has \"cd\"\nrule two proto icmp has \"no\"\n";

fn capture_of(rt: &impl Abort, alloc: Global, bytes: &[u8]) -> Capture
    ensures { IsClassifiable bytes.now result }
{
    frames(alloc, bytes).expect(rt, "it is a capture")
}

fn plan_of(rt: &impl Abort, alloc: Global, bytes: &[u8]) -> Result<Plan, AllocError>
    ensures { IfOk result (IsPlanned bytes.now) }
{
    let capture = capture_of(rt, alloc, bytes);
    classify(alloc, &capture, bytes, 30)
}

fn two_rules(rt: &impl Abort, alloc: Global) -> Rules {
    rules(alloc, RULES).expect(rt, "these are rules")
}

// The values of the first task, where it is whole.
fn values_of_first(
    alloc: Global,
    plan: &Plan,
    bytes: &[u8],
    rules: &Rules,
) -> Result<Vec<u64>, AllocError>
    requires planned { IsPlanned bytes.now plan.now }
    requires some { 0 < length plan.now.tasks.items }
{
    tasks_have_facts_law();
    match plan.tasks[0].group {
        Some(_) => Ok(Vec::new(alloc)),
        None => whole_values(alloc, plan, bytes, rules, 0),
    }
}

#[test]
fn a_whole_datagram_has_the_place_of_its_finding(rt: HostRuntime) -> Result<(), Fail> {
    let alloc = rt.alloc();
    let plan = plan_of(&rt, alloc, WHOLE)?;
    let two = two_rules(&rt, alloc);
    assert_eq!(rt; plan.tasks.len(), 1);
    let values = values_of_first(alloc, &plan, WHOLE, &two)?;
    assert_eq!(rt; values.as_slice(), [2].as_slice());
    Ok(())
}

#[test]
fn what_is_found_ahead_by_two_threads_is_what_is_found_alone(rt: HostRuntime) -> Result<(), Fail> {
    let alloc = rt.alloc();
    let plan = plan_of(&rt, alloc, WHOLE)?;
    let two = two_rules(&rt, alloc);
    assert_eq!(rt; plan.tasks.len(), 1);
    let slots = find_ahead(&rt, alloc, &plan, WHOLE, &two, 0, 1, 2)?;
    let slot = slots.first().expect(&rt, "there is one slot");
    assert_eq!(rt; slot.number, 0);
    let values = slot.values.as_ref().expect(&rt, "memory suffices");
    assert_eq!(rt; values.as_slice(), [2].as_slice());
    Ok(())
}

fn is_in_first_group(task: &Task) -> bool
    ensures { IsTrue result → IsSomeAnd task.now.group (λ group. group ≡ 0) }
{
    match task.group {
        Some(group) => group == 0,
        None => false,
    }
}

fn reaches(end: &Task, front: &Task) -> bool
    ensures { IsTrue result → end.now.start ≡ front.now.length }
{
    end.start == front.length
}

// Whether two tasks of one group make up a datagram, and the first ends it behind the other.
fn make_up(end: &Task, front: &Task) -> bool
    ensures { IsTrue result → (rules : List Rule) (bytes : List ℕ) (groups : List Group) → AreAllTasks (work_of rules bytes (end.now ∷ front.now ∷ []) groups) 0 (1 ∷ 0 ∷ []) }
{
    if !end.last {
        return false;
    }
    if !reaches(end, front) {
        return false;
    }
    if !is_in_first_group(end) {
        return false;
    }
    is_in_first_group(front)
}

fn are_two(tasks: &[Task]) -> bool
    ensures { IsTrue result → length tasks.now ≡ 2 }
{
    tasks.len() == 2
}

fn are_end_and_front(tasks: &[Task]) -> bool
    ensures { IsTrue result → (rules : List Rule) (bytes : List ℕ) (groups : List Group) → AreAllTasks (work_of rules bytes tasks.now groups) 0 (1 ∷ 0 ∷ []) }
{
    if !are_two(tasks) {
        return false;
    }
    make_up(&tasks[0], &tasks[1])
}

#[test]
fn a_group_is_told_by_its_first_frame_and_matched_across_its_seam(
    rt: HostRuntime,
) -> Result<(), Fail> {
    let alloc = rt.alloc();
    let plan = plan_of(&rt, alloc, FRAGMENTS)?;
    let two = two_rules(&rt, alloc);
    let are_both = are_end_and_front(&plan.tasks);
    assert!(rt; are_both);
    let values = group_values(alloc, &plan, FRAGMENTS, &two, 0, [1, 0].as_slice())?;
    assert_eq!(rt; values.as_slice(), [0x1_0007].as_slice());
    Ok(())
}
