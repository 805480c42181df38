//! Workers on small captures.

mod interfering;
mod reading;
mod runs;
mod turn_ends;

use crate::TurnEnd;
use run_purpose::RunPurpose;
use runs::{by_turns, plan_of, rules_of};
use std::alloc::Global;
use std::process::Abort;
use std::test::Fail;

/// A capture of no frames.
const EMPTY: &[u8] = b"\xd4\xc3\xb2\xa1\x02\0\x04\0\0\0\0\0\0\0\0\0\0\0\x04\0\x01\0\0\0";

/// A capture of one whole datagram with the data "abcdef".
const WHOLE: &[u8] =
    b"\xd4\xc3\xb2\xa1\x02\0\x04\0\0\0\0\0\0\0\0\0\0\0\x04\0\x01\0\0\0\0\0\0\0\0\0\0\0\x28\0\0\0\x28\0\0\0\x02\0\0\0\0\x02\x02\0\0\0\0\x01\x08\0\x45\0\0\x1a\0\x01\0\0\x40\x01\0\0\x0a\0\0\x01\xc0\0\x02\x01abcdef";

/// A capture of a datagram with the data "abcdefghijkl", of which the last fragment comes first.
const SEAM: &[u8] =
    b"\xd4\xc3\xb2\xa1\x02\0\x04\0\0\0\0\0\0\0\0\0\0\0\x04\0\x01\0\0\0\0\0\0\0\0\0\0\0\x26\0\0\0\x26\0\0\0\x02\0\0\0\0\x02\x02\0\0\0\0\x01\x08\0\x45\0\0\x18\0\x01\0\x01\x40\x01\0\0\x0a\0\0\x01\xc0\0\x02\x01ijkl\x01\0\0\0\0\0\0\0\x2a\0\0\0\x2a\0\0\0\x02\0\0\0\0\x02\x02\0\0\0\0\x01\x08\0\x45\0\0\x1c\0\x01\x20\0\x40\x01\0\0\x0a\0\0\x01\xc0\0\x02\x01abcdefgh";

/// A capture of a datagram with the data "abcdefghijklmnopqrst", in two fragments. Between them comes one that has bytes of the first, and is put aside.
const OVERLAP: &[u8] =
    b"\xd4\xc3\xb2\xa1\x02\0\x04\0\0\0\0\0\0\0\0\0\0\0\x04\0\x01\0\0\0\0\0\0\0\0\0\0\0\x32\0\0\0\x32\0\0\0\x02\0\0\0\0\x02\x02\0\0\0\0\x01\x08\0\x45\0\0\x24\0\x01\x20\0\x40\x01\0\0\x0a\0\0\x01\xc0\0\x02\x01abcdefghijklmnop\x01\0\0\0\0\0\0\0\x32\0\0\0\x32\0\0\0\x02\0\0\0\0\x02\x02\0\0\0\0\x01\x08\0\x45\0\0\x24\0\x01\x20\x01\x40\x01\0\0\x0a\0\0\x01\xc0\0\x02\x01XXXXXXXXYYYYYYYY\x02\0\0\0\0\0\0\0\x26\0\0\0\x26\0\0\0\x02\0\0\0\0\x02\x02\0\0\0\0\x01\x08\0\x45\0\0\x18\0\x01\0\x02\x40\x01\0\0\x0a\0\0\x01\xc0\0\x02\x01qrst";

const SEAM_RULES: &[u8] = b"rule seam proto icmp has \"ghij\"\n";

const OVERLAP_RULES: &[u8] =
    b"rule one proto icmp has \"ijkl\"\nrule two proto icmp has \"XXXX\"\n";

/// Each finds something in the whole datagram.
const WHOLE_RULES: &[u8] = b"rule one proto icmp has \"cd\"\nrule two proto icmp has \"ef\"\n";

/// A capture, the text of rules, and the values of their findings in it.
type Given = (&'static [u8], &'static [u8], &'static [u64]);

const GIVEN: [Given; 4] = [
    (EMPTY, SEAM_RULES, &[]),
    (WHOLE, WHOLE_RULES, &[2, 0x1_0004]),
    (SEAM, SEAM_RULES, &[6]),
    (OVERLAP, OVERLAP_RULES, &[8]),
];

// One worker goes by turns until one finds nothing.
fn finds_by_turns(rt: &impl Abort, alloc: Global, given: Given) -> Result<(), Fail> {
    let (bytes, text, values) = given;
    let plan = plan_of(rt, alloc, bytes)?;
    let rules = rules_of(rt, alloc, text);
    let run = RunPurpose {
        plan: &plan,
        rules: &rules,
        bytes,
    };
    let (last, found) = by_turns(alloc, &run, 4)?;
    assert_eq!(*rt; last, Some(TurnEnd::Empty));
    assert_eq!(*rt; found.log.as_slice(), values);
    assert_eq!(*rt; found.left, 0);
    Ok(())
}

#[test]
fn one_worker_finds_by_turns_what_is_to_be_found(rt: HostRuntime) -> Result<(), Fail> {
    let alloc = rt.alloc();
    for given in GIVEN {
        finds_by_turns(&rt, alloc, given)?;
    }
    Ok(())
}
