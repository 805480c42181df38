//! How turns of one worker end, and the points that they come to.
ghost use Rattle.std.specs.Prelude.{◌<◌, ◌≤◌};
ghost use Rattle.capture_terms.specs.Plan.{IsPlanned};

use super::runs::{one_turn, opened, plan_of, rules_of};
use super::{EMPTY, SEAM, SEAM_RULES, WHOLE, WHOLE_RULES};
use crate::{Gate, Kind, Point, Quiet, TurnEnd};
use run_purpose::RunPurpose;
use std::alloc::{AllocError, Global};
use std::process::Abort;
use std::test::Fail;

/// How three turns ended. There is none where too few draws were left.
type Ends = [Option<TurnEnd>; 3];

const WORKED: Option<TurnEnd> = Some(TurnEnd::Worked);

const NOTHING: Option<TurnEnd> = Some(TurnEnd::Empty);

/// A gate that keeps the points to which its worker comes.
#[derive(Drop)]
struct Recording {
    points: Vec<Point>,
    /// Whether there was no memory for one of them.
    lost: bool,
}

impl Gate for Recording {
    fn at(&mut self, point: Point) {
        if self.points.push(point).is_err() {
            self.lost = true;
        }
    }
}

fn three_turns<'b, G: Gate>(
    alloc: Global,
    run: &RunPurpose<'b>,
    findings: u32,
    gate: &mut G,
) -> Result<Ends, AllocError>
    requires plan { IsPlanned run.now.bytes.now run.now.plan.now }
    requires findings { (0 < findings) × (findings ≤ 1048576) }
{
    let (store, pass) = opened(alloc, run, 1, findings)?;
    let (pass, first) = one_turn(alloc, &store, pass, run, gate, 1);
    let (pass, second) = one_turn(alloc, &store, pass, run, gate, 1);
    let (_, third) = one_turn(alloc, &store, pass, run, gate, 1);
    Ok([first, second, third])
}

// Three turns of a worker alone on a capture, whose log has room for so many findings.
fn turns_on<G: Gate>(
    rt: &impl Abort,
    alloc: Global,
    bytes: &[u8],
    text: &[u8],
    findings: u32,
    gate: &mut G,
) -> Result<Ends, AllocError>
    requires { (0 < findings) × (findings ≤ 1048576) }
{
    let plan = plan_of(rt, alloc, bytes)?;
    let rules = rules_of(rt, alloc, text);
    let run = RunPurpose {
        plan: &plan,
        rules: &rules,
        bytes,
    };
    three_turns(alloc, &run, findings, gate)
}

#[test]
fn a_turn_that_finds_nothing_to_do_ends_by_empty(rt: HostRuntime) -> Result<(), Fail> {
    let ends = turns_on(&rt, rt.alloc(), EMPTY, SEAM_RULES, 1, &mut Quiet)?;
    assert_eq!(rt; ends, [NOTHING, NOTHING, NOTHING]);
    Ok(())
}

#[test]
fn a_whole_datagram_is_taken_by_one_turn_and_matched_by_the_next(
    rt: HostRuntime,
) -> Result<(), Fail> {
    let ends = turns_on(&rt, rt.alloc(), WHOLE, WHOLE_RULES, 2, &mut Quiet)?;
    assert_eq!(rt; ends, [WORKED, WORKED, NOTHING]);
    Ok(())
}

#[test]
fn each_turn_that_finds_too_much_for_the_log_ends_by_full(rt: HostRuntime) -> Result<(), Fail> {
    let ends = turns_on(&rt, rt.alloc(), WHOLE, WHOLE_RULES, 1, &mut Quiet)?;
    let full = Some(TurnEnd::Full {
        part: 1,
        length: 0,
        adding: 2,
    });
    assert_eq!(rt; ends, [WORKED, full, full]);
    Ok(())
}

/// The points of three turns on a whole datagram in which two rules find something: one takes it, one matches it, one finds nothing.
const WHOLE_POINTS: &[Point] = &[
    Point::Begun,
    Point::Called(Kind::Dequeue(false)),
    Point::Committing,
    Point::Committed,
    Point::Begun,
    Point::Called(Kind::Take(true)),
    Point::ChildBegun,
    Point::Called(Kind::Enqueue),
    Point::Committing,
    Point::Committed,
    Point::Begun,
    Point::Called(Kind::Dequeue(true)),
    Point::ChildBegun,
    Point::Called(Kind::AppendPlaced),
    Point::Called(Kind::AppendPlaced),
    Point::Committing,
    Point::Committed,
    Point::Begun,
    Point::Called(Kind::Dequeue(false)),
    Point::Committing,
    Point::Committed,
    Point::Begun,
    Point::Called(Kind::Take(false)),
    Point::Committing,
    Point::Committed,
];

/// The points of three turns on a datagram in two fragments: one takes the first, one the other, and one matches the group.
const SEAM_POINTS: &[Point] = &[
    Point::Begun,
    Point::Called(Kind::Dequeue(false)),
    Point::Committing,
    Point::Committed,
    Point::Begun,
    Point::Called(Kind::Take(true)),
    Point::ChildBegun,
    Point::Called(Kind::MapGet),
    Point::Called(Kind::MapPut),
    Point::Committing,
    Point::Committed,
    Point::Begun,
    Point::Called(Kind::Dequeue(false)),
    Point::Committing,
    Point::Committed,
    Point::Begun,
    Point::Called(Kind::Take(true)),
    Point::ChildBegun,
    Point::Called(Kind::MapGet),
    Point::Called(Kind::MapPut),
    Point::Called(Kind::MapPut),
    Point::Called(Kind::Enqueue),
    Point::Committing,
    Point::Committed,
    Point::Begun,
    Point::Called(Kind::Dequeue(true)),
    Point::Called(Kind::MapGet),
    Point::Called(Kind::MapRemove),
    Point::Called(Kind::MapGet),
    Point::Called(Kind::MapRemove),
    Point::Called(Kind::MapGet),
    Point::ChildBegun,
    Point::Called(Kind::AppendPlaced),
    Point::Committing,
    Point::Committed,
];

// The points of three turns of a worker alone on a capture are these.
fn comes_to(
    rt: &impl Abort,
    alloc: Global,
    bytes: &[u8],
    text: &[u8],
    points: &[Point],
) -> Result<(), Fail> {
    let mut gate = Recording {
        points: Vec::new(alloc),
        lost: false,
    };
    let ends = turns_on(rt, alloc, bytes, text, 2, &mut gate)?;
    assert_eq!(*rt; ends[0], WORKED);
    assert_eq!(*rt; gate.points.as_slice(), points);
    assert!(*rt; !gate.lost);
    Ok(())
}

#[test]
fn the_gate_is_called_at_each_point_of_a_turn(rt: HostRuntime) -> Result<(), Fail> {
    let alloc = rt.alloc();
    comes_to(&rt, alloc, WHOLE, WHOLE_RULES, WHOLE_POINTS)?;
    comes_to(&rt, alloc, SEAM, SEAM_RULES, SEAM_POINTS)
}
