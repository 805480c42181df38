// The text of a report.
ghost use Rattle.std.specs.Prelude.{◌≡◌, ℕ, ◌<◌, ◌≤◌, ◌++◌, length, map, IfOk, OnOk, All, vec_len};
ghost use Rattle.std.specs.Fmt.{decimal};
ghost use Rattle.std.specs.List.{flat_map};
ghost use Rattle.capture_terms.specs.Capture.{contents_of};
ghost use Rattle.report.specs.Report.{text_of, ended, frames_of, counts_of, count_line, finding_line, report_lines};
ghost use Rattle.report.specs.Report as spec;

use crate::finding::Finding;
use capture_terms::{Capture, Class, Plan};
use itoa::Buffer;
use rule_matcher::Rules;
use std::alloc::{AllocError, Global};

/// The report of a capture's inspection: a line for each count, and then one for each finding, in the
/// order in which they are given.
///
/// `incomplete` is the number of groups that are no whole datagram, at most that of all groups. A
/// finding is its `Finding::number`, and its rule is one of `rules`.
pub fn report_text(
    alloc: Global,
    capture: &Capture,
    plan: &Plan,
    rules: &Rules,
    incomplete: u32,
    findings: &[u64],
) -> Result<Vec<u8>, AllocError>
    requires incomplete { incomplete ≤ vec_len plan.now.groups }
    requires rules_there { All (λ (f : ℕ). spec.rule_of f < length rules.now) findings.now }
    ensures text { IfOk result (λ text. text.items ≡ text_of (report_lines (contents_of capture.now) plan.now.classes.items plan.now.groups.items rules.now incomplete findings.now)) }
{
    let mut text = Vec::new(alloc);
    let counts = counts(capture, plan, incomplete, findings.len() as u64);
    push_counts(&mut text, &counts)?;
    push_findings(&mut text, rules, findings)?;
    Ok(text)
}

// What the report counts, each with its word.
#[tactic(auto, unfolding(crate::specs::Report::counts_of))]
pub(crate) fn counts(
    capture: &Capture,
    plan: &Plan,
    incomplete: u32,
    findings: u64,
) -> [(&'static [u8], u64); 11]
    requires { incomplete ≤ vec_len plan.now.groups }
    ensures { map (λ count. (count.0.now, count.1)) result ≡ counts_of (contents_of capture.now) plan.now.classes.items plan.now.groups.items incomplete findings }
{
    let whole = count(plan, Class::Whole);
    let complete = plan.groups.len() as u64 - u64::from(incomplete);
    [
        (b"frames", capture.frames.len() as u64),
        (b"other", count(plan, Class::Other)),
        (b"bad", count(plan, Class::Bad)),
        (b"cut", count(plan, Class::Cut)),
        (b"whole", whole),
        (b"kept", count(plan, Class::Kept)),
        (b"aside", count(plan, Class::Aside)),
        (b"torn", capture.torn),
        (b"datagrams", whole + complete),
        (b"incomplete", u64::from(incomplete)),
        (b"findings", findings),
    ]
}

fn count(plan: &Plan, wanted: Class) -> u64
    ensures count { result ≡ frames_of wanted plan.now.classes.items }
    ensures few { result ≤ vec_len plan.now.classes }
{
    plan.classes
        .iter()
        .filter(|class| is_class(wanted, **class))
        .count() as u64
}

fn is_class(wanted: Class, class: Class) -> bool
    ensures { result ≡ spec.is_class wanted class }
{
    wanted == class
}

pub(crate) fn push_counts(
    text: &mut Vec<u8>,
    counts: &[(&'static [u8], u64)],
) -> Result<(), AllocError>
    ensures { OnOk result (text.new.items ≡ text.old.items ++ flat_map (λ count. ended (count_line (count.0.now, count.1))) counts.now) }
{
    for (word, number) in counts {
        push_count(text, word, *number)?;
    }
    Ok(())
}

pub(crate) fn push_count(text: &mut Vec<u8>, word: &[u8], number: u64) -> Result<(), AllocError>
    ensures { OnOk result (text.new.items ≡ text.old.items ++ ended (count_line (word.now, number))) }
{
    text.extend_from_slice(word)?;
    text.push(b' ')?;
    push_number(text, number)?;
    text.push(b'\n')?;
    Ok(())
}

fn push_findings(text: &mut Vec<u8>, rules: &Rules, findings: &[u64]) -> Result<(), AllocError>
    requires { All (λ (f : ℕ). spec.rule_of f < length rules.now) findings.now }
    ensures { OnOk result (text.new.items ≡ text.old.items ++ flat_map (λ finding. ended (finding_line rules.now finding)) findings.now) }
{
    for finding in findings {
        push_finding(text, rules, *finding)?;
    }
    Ok(())
}

fn push_finding(text: &mut Vec<u8>, rules: &Rules, finding: u64) -> Result<(), AllocError>
    requires { spec.rule_of finding < length rules.now }
    ensures { OnOk result (text.new.items ≡ text.old.items ++ ended (finding_line rules.now finding)) }
{
    let Finding { frame, rule, place } = Finding::of(finding);
    text.extend_from_slice(b"finding ")?;
    push_number(text, u64::from(frame))?;
    text.push(b' ')?;
    text.extend_from_slice(rules.name(rule))?;
    text.push(b' ')?;
    push_number(text, u64::from(place))?;
    text.push(b'\n')?;
    Ok(())
}

pub(crate) fn push_number(text: &mut Vec<u8>, number: u64) -> Result<(), AllocError>
    ensures { OnOk result (text.new.items ≡ text.old.items ++ decimal number) }
{
    let mut buffer = Buffer::new();
    text.extend_from_slice(buffer.format(number).as_bytes())
}
