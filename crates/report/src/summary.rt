// The summary of a trial.
ghost use Rattle.std.specs.Prelude.{◌≡◌, ◌≤◌, ◌++◌, ◌%◌, ◌^◌, IfOk, OnOk, sum, vec_len};
ghost use Rattle.capture_terms.specs.Capture.{contents_of};
ghost use Rattle.report.specs.Report.{ended, text_of};
ghost use Rattle.report.specs.Summary.{summary_lines, trial_line};

use crate::report_lines::{counts, push_count, push_counts, push_number};
use capture_terms::{Capture, Plan};
use std::alloc::{AllocError, Global};

// The sum of the findings, modulo 2^64.
fn sum_of(findings: &[u64]) -> u64
    ensures { result ≡ sum findings.now % 2 ^ 64 }
{
    let mut total: u64 = 0;
    for finding in findings {
        total = total.wrapping_add(*finding);
    }
    total
}

fn push_trial(text: &mut Vec<u8>, seed: u64, frames: u32) -> Result<(), AllocError>
    ensures { OnOk result (text.new.items ≡ text.old.items ++ ended (trial_line seed frames)) }
{
    text.extend_from_slice(b"trial ")?;
    push_number(text, seed)?;
    text.push(b' ')?;
    push_number(text, u64::from(frames))?;
    text.push(b'\n')?;
    Ok(())
}

/// The summary of a trial: which seed and how many frames its capture was made of, a line for each
/// count of its report, and the sum of its findings as `Finding::number`s, modulo 2^64.
///
/// `incomplete` is the number of groups that are no whole datagram, at most that of all groups.
pub fn summary_text(
    alloc: Global,
    seed: u64,
    frames: u32,
    capture: &Capture,
    plan: &Plan,
    incomplete: u32,
    findings: &[u64],
) -> Result<Vec<u8>, AllocError>
    requires { incomplete ≤ vec_len plan.now.groups }
    ensures { IfOk result (λ text. text.items ≡ text_of (summary_lines seed frames (contents_of capture.now) plan.now.classes.items plan.now.groups.items incomplete findings.now)) }
{
    let mut text = Vec::new(alloc);
    push_trial(&mut text, seed, frames)?;
    let counts = counts(capture, plan, incomplete, findings.len() as u64);
    push_counts(&mut text, &counts)?;
    push_count(&mut text, b"sum", sum_of(findings))?;
    Ok(text)
}
