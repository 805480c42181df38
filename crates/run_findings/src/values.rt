//! Findings as the numbers that a log has of them.
ghost use Rattle.std.specs.Prelude.{◌≡◌, ◌<◌, ◌≤◌, length, map, All, IfOk};
ghost use Rattle.inspection_terms.specs.Findings.{finding_number};
ghost use Rattle.rule_terms.specs.Match as matches;
ghost use Rattle.serial_terms.specs.Ranges.{IsKept};

use capture_terms::Task;
use rule_matcher::{Rules, findings_of};
use rule_terms::findings_are_there;
use std::alloc::{AllocError, Global};

/// The values of what the rules find in the data of the datagram that begins with a task, in order of rule.
pub(crate) fn values_in(
    alloc: Global,
    rules: &Rules,
    first: &Task,
    payload: &[u8],
) -> Result<Vec<u64>, AllocError>
    requires { length payload.now ≤ 65535 }
    ensures values { IfOk result (λ values. values.items ≡ map (finding_number first.now.frame) (matches.findings_of rules.now first.now.header payload.now)) }
    ensures kept { IfOk result (λ values. All IsKept values.items) }
{
    findings_are_there();
    let _few = rules.len();
    let found = findings_of(alloc, rules, &first.header, payload)?;
    numbers(alloc, first.frame, &found)
}

// The values of findings in the datagram that begins with this frame, each a rule's number and a place.
fn numbers(alloc: Global, frame: u32, found: &[(u16, u16)]) -> Result<Vec<u64>, AllocError>
    requires { All (λ f. f.0 < 1024) found.now }
    ensures values { IfOk result (λ values. values.items ≡ map (finding_number frame) found.now) }
    ensures kept { IfOk result (λ values. All IsKept values.items) }
{
    let mut values = Vec::with_capacity(alloc, found.len())?;
    for (rule, place) in found {
        values.push(number(frame, *rule, *place))?;
    }
    Ok(values)
}

// The value of one finding.
fn number(frame: u32, rule: u16, place: u16) -> u64
    ensures value { result ≡ finding_number frame (rule, place) }
    ensures kept { rule < 1024 → IsKept result }
{
    u64::from(frame) * 0x1_0000_0000 + u64::from(rule) * 0x1_0000 + u64::from(place)
}
