ghost use Rattle.std.specs.Prelude.{ℕ, ◌+◌, ◌<◌, ◌≤◌, ◌^◌, [], ◌∷◌, length, List, IsTrue, IsSomeAnd, IfOk, OnOk, ◌≡◌};
ghost use Rattle.capture_terms.specs.declared.plan.Task.{Task};
ghost use Rattle.capture_terms.specs.Datagram.{IsDatagramAt};
ghost use Rattle.capture_terms.specs.Plan.{IsClassifiable, IsPlan};
ghost use Rattle.capture_terms.specs.declared.capture.Capture.{Capture};

use crate::{classify, payload};
use capture_terms::{Capture, Class, Frame, Link, Plan, Task};
use std::alloc::{AllocError, Global};
use std::process::Abort;
use std::test::Fail;

/// The numbers of the link types.
const ETHERNET: u16 = 1;

const RAW_IP: u16 = 101;

const COOKED_V1: u16 = 113;

const COOKED_V2: u16 = 276;

/// An Ethernet header with the type of IPv4.
const IPV4: &[u8] = b"\x02\0\0\0\0\x02\x02\0\0\0\0\x01\x08\x00";

const IPV6: &[u8] = b"\x02\0\0\0\0\x02\x02\0\0\0\0\x01\x86\xdd";

/// The same with tags before the type.
const TWO_TAGS: &[u8] = b"\x02\0\0\0\0\x02\x02\0\0\0\0\x01\x81\x00\x00\x01\x88\xa8\x00\x02\x08\x00";

const THREE_TAGS: &[u8] =
    b"\x02\0\0\0\0\x02\x02\0\0\0\0\x01\x81\x00\x00\x01\x88\xa8\x00\x02\x81\x00\x00\x03\x08\x00";

/// A cooked header with the type of IPv4, and the same of version 2.
const COOKED: &[u8] = b"\0\0\0\x01\0\x06\x02\0\0\0\0\x01\0\0\x08\x00";

const COOKED_TYPE_FIRST: &[u8] = b"\x08\x00\0\0\0\0\0\x01\0\x01\0\x06\x02\0\0\0\0\x01\0\0";

/// 19 bytes of the second.
const COOKED_CUT: &[u8] = b"\x08\x00\0\0\0\0\0\x01\0\x01\0\x06\x02\0\0\0\0\x01\0";

const NO_HEAD: &[u8] = b"";

/// A whole datagram of UDP with the text "hello".
const HELLO: &[u8] =
    b"\x45\x00\x00\x21\x00\x01\x00\x00\x40\x11\x00\x00\x0a\x00\x00\x01\xc0\x00\x02\x01\x0f\xa0\x00\x35\x00\x0d\x00\x00hello";

/// 50 bytes of a datagram of 100.
const CUT: &[u8] =
    b"\x45\x00\x00\x64\x00\x01\x00\x00\x40\x11\x00\x00\x0a\x00\x00\x01\xc0\x00\x02\x01abcdefghijklmnopqrstuvwxyzabcd";

/// An identification, a place in the datagram, whether more fragments follow, and data.
type Given<'a> = (u16, u16, bool, &'a [u8]);

/// What a task is to have: its frame, group, place in the datagram, length, and whether it is last.
type Wanted = (u32, Option<u32>, u32, u32, bool);

/// A capture, and the bytes of its frames one behind the other.
#[derive(Drop)]
struct Made {
    capture: Capture,
    bytes: Vec<u8>,
}

fn no_frames(alloc: Global, link: u16) -> Made {
    Made {
        capture: Capture {
            nanos: false,
            link,
            frames: Vec::new(alloc),
            torn: 0,
        },
        bytes: Vec::new(alloc),
    }
}

// Adds a frame in two parts.
fn add_frame(made: &mut Made, head: &[u8], tail: &[u8]) -> Result<(), AllocError>
    requires { length head.now + length tail.now < 2 ^ 32 }
{
    let length = (head.len() + tail.len()) as u32;
    made.capture.frames.push(Frame {
        seconds: 0,
        fraction: 0,
        at: made.bytes.len() as u64,
        length,
        original: length,
    })?;
    made.bytes.extend_from_slice(head)?;
    made.bytes.extend_from_slice(tail)
}

fn is_within(frame: &Frame, end: u64) -> bool
    ensures { IsTrue result → frame.now.at + frame.now.length ≤ end }
{
    frame.at <= end && u64::from(frame.length) <= end - frame.at
}

fn is_classifiable(made: &Made) -> bool
    ensures { IsTrue result → IsClassifiable made.now.bytes.items made.now.capture }
{
    let end = made.bytes.len() as u64;
    if made.capture.frames.len() > 262144 || Link::numbered(made.capture.link).is_none() {
        return false;
    }
    made.capture
        .frames
        .iter()
        .all(|frame| is_within(frame, end))
}

// Adds an Ethernet frame that carries an ICMP fragment from 10.0.0.1 to 192.0.2.1.
fn add_fragment(made: &mut Made, given: &Given) -> Result<(), AllocError> {
    let (id, start, more, data) = *given;
    let total = (20 + data.len() % 1024) as u16;
    let flags = start / 8 % 8192 + if more { 8192 } else { 0 };
    let [total_high, total_low] = total.to_be_bytes();
    let [id_high, id_low] = id.to_be_bytes();
    let [flags_high, flags_low] = flags.to_be_bytes();
    let head = [
        2, 0, 0, 0, 0, 2, 2, 0, 0, 0, 0, 1, 8, 0, 0x45, 0, total_high, total_low, id_high, id_low,
        flags_high, flags_low, 64, 1, 0, 0, 10, 0, 0, 1, 192, 0, 2, 1,
    ];
    add_frame(made, &head, &data[..data.len() % 1024])
}

fn plan_of(alloc: Global, made: &Made, window: u32) -> Result<Plan, Fail>
    ensures fine { OnOk result (IsClassifiable made.now.bytes.items made.now.capture) }
    ensures plan { IfOk result (IsPlan made.now.bytes.items made.now.capture window) }
{
    if !is_classifiable(made) {
        return Err(Fail::from("frames that lie in the bytes"));
    }
    Ok(classify(alloc, &made.capture, &made.bytes, window)?)
}

fn check(
    rt: &impl Abort,
    alloc: Global,
    made: &Made,
    classes: &[Class],
    wanted: &[Wanted],
) -> Result<(), Fail> {
    let plan = plan_of(alloc, made, 30)?;
    assert_eq!(rt; plan.classes.as_slice(), classes);
    let mut tasks: Vec<Wanted> = Vec::new(alloc);
    for task in &plan.tasks {
        tasks.push((task.frame, task.group, task.start, task.length, task.last))?;
    }
    assert_eq!(rt; tasks.as_slice(), wanted);
    Ok(())
}

fn check_fragments(
    rt: &impl Abort,
    alloc: Global,
    given: &[Given],
    classes: &[Class],
    wanted: &[Wanted],
) -> Result<(), Fail> {
    let mut made = no_frames(alloc, ETHERNET);
    for one in given {
        add_fragment(&mut made, one)?;
    }
    check(rt, alloc, &made, classes, wanted)
}

#[test]
fn keeps_the_earlier_of_fragments_that_clash(rt: HostRuntime) -> Result<(), Fail> {
    let alloc = rt.alloc();
    let eight = b"abcdefgh".as_slice();
    let sixteen = b"abcdefghijklmnop".as_slice();
    let other = b"XXXXXXXXYYYYYYYY".as_slice();
    let four = b"ijkl".as_slice();
    let kept = Class::Kept;
    check_fragments(
        &rt,
        alloc,
        &[(1, 8, false, four), (1, 0, true, eight)],
        &[kept, kept],
        &[(0, Some(0), 8, 4, true), (1, Some(0), 0, 8, false)],
    )?;
    check_fragments(
        &rt,
        alloc,
        &[
            (1, 0, true, sixteen),
            (1, 8, true, other),
            (1, 16, false, b"qrst".as_slice()),
        ],
        &[kept, Class::Aside, kept],
        &[(0, Some(0), 0, 16, false), (2, Some(0), 16, 4, true)],
    )?;
    check_fragments(
        &rt,
        alloc,
        &[
            (1, 0, true, eight),
            (1, 0, true, eight),
            (1, 8, false, four),
        ],
        &[kept, Class::Aside, kept],
        &[(0, Some(0), 0, 8, false), (2, Some(0), 8, 4, true)],
    )?;
    check_fragments(
        &rt,
        alloc,
        &[(1, 0, true, eight)],
        &[kept],
        &[(0, Some(0), 0, 8, false)],
    )?;
    check_fragments(
        &rt,
        alloc,
        &[
            (2, 65512, false, b"abc".as_slice()),
            (3, 65512, false, b"abcd".as_slice()),
        ],
        &[kept, Class::Bad],
        &[(0, Some(0), 65512, 3, true)],
    )?;
    check_fragments(
        &rt,
        alloc,
        &[
            (1, 8, false, four),
            (1, 16, true, eight),
            (1, 24, false, b"x".as_slice()),
        ],
        &[kept, Class::Aside, Class::Aside],
        &[(0, Some(0), 8, 4, true)],
    )?;
    check_fragments(
        &rt,
        alloc,
        &[(1, 0, true, b"abcdefghijkl".as_slice())],
        &[Class::Bad],
        &[],
    )?;
    check_fragments(
        &rt,
        alloc,
        &[
            (1, 8, false, four),
            (2, 8, false, four),
            (1, 0, true, eight),
        ],
        &[kept, kept, kept],
        &[
            (0, Some(0), 8, 4, true),
            (1, Some(1), 8, 4, true),
            (2, Some(0), 0, 8, false),
        ],
    )?;
    Ok(())
}

/// The seconds and fraction of a fragment, the place of its data, and whether more follow.
type At = (u32, u32, u16, bool);

// Adds a fragment of identification 1 with 8 bytes of data, captured at a time.
fn add_at(made: &mut Made, at: &At) -> Result<(), AllocError> {
    let (seconds, fraction, start, more) = *at;
    add_fragment(made, &(1, start, more, b"abcdefgh".as_slice()))?;
    if let Some(frame) = made.capture.frames.last_mut() {
        frame.seconds = seconds;
        frame.fraction = fraction;
    }
    Ok(())
}

// Checks the classes of fragments, and the generation of each kept one.
fn check_times(
    rt: &impl Abort,
    alloc: Global,
    nanos: bool,
    window: u32,
    times: &[At],
    classes: &[Class],
    generations: &[u32],
) -> Result<(), Fail> {
    let mut made = no_frames(alloc, ETHERNET);
    made.capture.nanos = nanos;
    for at in times {
        add_at(&mut made, at)?;
    }
    let plan = plan_of(alloc, &made, window)?;
    assert_eq!(rt; plan.classes.as_slice(), classes);
    let mut told = Vec::new(alloc);
    for task in &plan.tasks {
        let group = task.group.and_then(|group| plan.groups.get(group as usize));
        told.push(group.map_or(u32::MAX, |group| group.generation))?;
    }
    assert_eq!(rt; told.as_slice(), generations);
    Ok(())
}

#[test]
fn cuts_the_fragments_of_a_key_into_generations(rt: HostRuntime) -> Result<(), Fail> {
    let alloc = rt.alloc();
    let (kept, aside) = (Class::Kept, Class::Aside);
    let first = (0, 0, 0, true);
    let in_time = (30, 0, 8, false);
    let late = (30, 1, 8, false);
    check_times(
        &rt,
        alloc,
        false,
        30,
        &[first, in_time],
        &[kept, kept],
        &[0, 0],
    )?;
    check_times(
        &rt,
        alloc,
        false,
        30,
        &[first, late],
        &[kept, kept],
        &[0, 1],
    )?;
    check_times(&rt, alloc, true, 30, &[first, late], &[kept, kept], &[0, 1])?;
    check_times(
        &rt,
        alloc,
        false,
        31,
        &[first, late],
        &[kept, kept],
        &[0, 0],
    )?;
    check_times(
        &rt,
        alloc,
        true,
        30,
        &[
            first,
            (29, 999_999_999, 0, true),
            (29, 1_000_000_001, 0, true),
        ],
        &[kept, aside, kept],
        &[0, 1],
    )?;
    check_times(
        &rt,
        alloc,
        false,
        30,
        &[first, (40, 0, 0, true), (41, 0, 8, false)],
        &[kept, kept, kept],
        &[0, 1, 1],
    )?;
    check_times(
        &rt,
        alloc,
        false,
        30,
        &[
            first,
            (30, 0, 0, true),
            (31, 0, 0, true),
            (61, 0, 0, true),
            (62, 0, 0, true),
        ],
        &[kept, aside, kept, aside, kept],
        &[0, 1, 2],
    )?;
    check_times(
        &rt,
        alloc,
        false,
        30,
        &[
            (40, 0, 0, true),
            (0, 0, 0, true),
            (41, 0, 0, true),
            (0, 0, 8, true),
        ],
        &[kept, aside, aside, kept],
        &[0, 0],
    )?;
    Ok(())
}

#[test]
fn finds_datagrams_behind_cooked_headers(rt: HostRuntime) -> Result<(), Fail> {
    let alloc = rt.alloc();
    let whole = (Class::Whole, Some((0, None, 0, 13, true)));
    let cases = [
        (COOKED_V1, COOKED, HELLO, whole),
        (COOKED_V2, COOKED_TYPE_FIRST, HELLO, whole),
        (COOKED_V1, IPV4, HELLO, (Class::Other, None)),
        (COOKED_V2, COOKED_CUT, NO_HEAD, (Class::Other, None)),
        (COOKED_V2, COOKED_TYPE_FIRST, NO_HEAD, (Class::Bad, None)),
    ];
    for (link, head, datagram, (class, task)) in cases {
        let mut made = no_frames(alloc, link);
        if head.len() < 1024 && datagram.len() < 1024 {
            add_frame(&mut made, head, datagram)?;
        }
        match task {
            None => check(&rt, alloc, &made, &[class], &[])?,
            Some(task) => check(&rt, alloc, &made, &[class], &[task])?,
        }
    }
    Ok(())
}

#[test]
fn tells_the_other_classes(rt: HostRuntime) -> Result<(), Fail> {
    let alloc = rt.alloc();
    let whole = (Class::Whole, Some((0, None, 0, 13, true)));
    let cases = [
        (ETHERNET, IPV4, HELLO, whole),
        (RAW_IP, NO_HEAD, HELLO, whole),
        (ETHERNET, TWO_TAGS, HELLO, whole),
        (ETHERNET, THREE_TAGS, HELLO, (Class::Other, None)),
        (ETHERNET, IPV6, HELLO, (Class::Other, None)),
        (ETHERNET, IPV4, CUT, (Class::Cut, None)),
        (ETHERNET, IPV4, NO_HEAD, (Class::Bad, None)),
        (RAW_IP, NO_HEAD, NO_HEAD, (Class::Other, None)),
    ];
    for (link, head, datagram, (class, task)) in cases {
        let mut made = no_frames(alloc, link);
        if head.len() < 1024 && datagram.len() < 1024 {
            add_frame(&mut made, head, datagram)?;
        }
        match task {
            None => check(&rt, alloc, &made, &[class], &[])?,
            Some(task) => check(&rt, alloc, &made, &[class], &[task])?,
        }
    }
    Ok(())
}

fn data_of(alloc: Global, made: &Made, plan: &Plan, tasks: &[u32]) -> Result<Vec<u8>, AllocError>
    requires fine { IsClassifiable made.now.bytes.items made.now.capture }
    requires plan { IsPlan made.now.bytes.items made.now.capture 30 plan.now }
    requires tasks { (datagram : List Task) × IsDatagramAt plan.now.tasks.items tasks.now datagram }
{
    payload(alloc, plan, &made.bytes, tasks)
}

#[test]
fn gives_the_data_of_a_whole_datagram(rt: HostRuntime) -> Result<(), Fail> {
    let alloc = rt.alloc();
    let mut made = no_frames(alloc, ETHERNET);
    add_frame(&mut made, IPV4, HELLO)?;
    let plan = plan_of(alloc, &made, 30)?;
    assert_eq!(rt; plan.tasks.len(), 1);
    assert!(rt; plan.tasks[0].group.is_none());
    let data = data_of(alloc, &made, &plan, &[0])?;
    assert_eq!(rt;
        data.as_slice(),
        b"\x0f\xa0\x00\x35\x00\x0d\x00\x00hello".as_slice()
    );
    Ok(())
}

fn is_in_first_group(task: &Task) -> bool
    ensures { IsTrue result → IsSomeAnd task.now.group (λ group. group ≡ 0) }
{
    match task.group {
        Some(group) => group == 0,
        None => false,
    }
}

// Whether two tasks of one group make up a datagram, and the first ends it behind the other.
#[tactic(auto, using(crate::proofs::Pairs::pair_is_datagram))]
fn make_up(end: &Task, front: &Task) -> bool
    ensures { IsTrue result → IsDatagramAt (end.now ∷ front.now ∷ []) (1 ∷ 0 ∷ []) (end.now ∷ front.now ∷ []) }
{
    if !end.last {
        return false;
    }
    if end.start != front.length {
        return false;
    }
    if !is_in_first_group(end) {
        return false;
    }
    is_in_first_group(front)
}

#[tactic(auto, using(crate::proofs::Pairs::pair_is_all))]
fn are_end_and_front(tasks: &[Task]) -> bool
    ensures { IsTrue result → IsDatagramAt tasks.now (1 ∷ 0 ∷ []) tasks.now }
{
    if tasks.len() != 2 {
        return false;
    }
    make_up(&tasks[0], &tasks[1])
}

#[test]
fn gives_the_data_of_a_group_in_any_order_of_its_tasks(rt: HostRuntime) -> Result<(), Fail> {
    let alloc = rt.alloc();
    let mut made = no_frames(alloc, ETHERNET);
    add_fragment(&mut made, &(1, 8, false, b"ijkl".as_slice()))?;
    add_fragment(&mut made, &(1, 0, true, b"abcdefgh".as_slice()))?;
    let plan = plan_of(alloc, &made, 30)?;
    let are_both = are_end_and_front(&plan.tasks);
    assert!(rt; are_both);
    let data = data_of(alloc, &made, &plan, &[1, 0])?;
    assert_eq!(rt; data.as_slice(), b"abcdefghijkl".as_slice());
    Ok(())
}
