// What rules find in a capture.
ghost use Rattle.std.specs.Prelude.{◌≡◌, ℕ, ◌≤◌, List, length, vec_len, Some, IfOk, IfErr, IfSome, IsSomeAnd};
ghost use Rattle.capture_terms.specs.Capture.{captured, contents_of};
ghost use Rattle.capture_terms.specs.Plan.{IsClassifiable};
ghost use Rattle.pcap_frames.specs.Answer.{refusal_of};
ghost use Rattle.pcapng_blocks.specs.Answer as pcapng;
ghost use Rattle.rule_terms.specs.Rule.{Rule};
ghost use Rattle.command_words.specs.Limits.{IsWithinLimits};
ghost use Rattle.command_words.specs.declared.command.Settings as declared;
ghost use Rattle.report.specs.Fault.{cause_of};
ghost use Rattle.run_purpose.specs.Lawful.{IsSmall};
ghost use Rattle.tdsl_tool.specs.Found.{IsInspection};
ghost use Rattle.tdsl_tool.specs.Handed.{IsHistoryOf, records_of};
ghost use Rattle.tdsl_tool.specs.Journals.{IsJournalOf};
ghost use Rattle.tdsl_tool.specs.Run.{StopsUnder};
ghost use Rattle.tdsl_tool.specs.Verdict.{IsAnswerOf, IsVerdictUnder, reports, max_file};

use crate::made::Made;
use command_words::Settings;
use inspect_workers::{Gate, InspectEnd, Outcome, inspect};
use ipv4_fragments::{Plan, classify};
use journal_writer::{Format, Sizes, journal_text};
use pcap_frames::{Capture, CaptureEnd, frames};
use pcapng_blocks::{BlocksEnd, blocks, is_pcapng};
use report::{CaptureFault, Fault, report_text};
use rule_matcher::Rules;
use run_purpose::run_opens_lawful_law;
use std::alloc::Global;
use std::thread::Threads;

// Why a file that is no capture gives no report.
fn refused<'a>(end: CaptureEnd) -> Fault<'a>
    ensures { (settings : declared.Settings) (rules : List Rule) (name bytes : List ℕ) → length bytes ≤ max_file → IfSome (refusal_of end) (IsAnswerOf bytes) → StopsUnder settings rules name bytes (cause_of result) }
{
    match end {
        CaptureEnd::Header { at } => Fault::Capture(CaptureFault::Header { at }),
        CaptureEnd::Version => Fault::Capture(CaptureFault::Version),
        CaptureEnd::Link { number } => Fault::Capture(CaptureFault::Link { number }),
        CaptureEnd::Record { at } => Fault::Capture(CaptureFault::Record { at }),
        CaptureEnd::TooMany => Fault::LimitFrames,
        CaptureEnd::Memory => Fault::Memory,
    }
}

// Why a pcapng file that is no capture gives none.
fn blocks_refused<'a>(end: BlocksEnd) -> Fault<'a>
    ensures { (settings : declared.Settings) (rules : List Rule) (name bytes : List ℕ) → length bytes ≤ max_file → IfSome (pcapng.refusal_of end) (IsAnswerOf bytes) → StopsUnder settings rules name bytes (cause_of result) }
{
    match end {
        BlocksEnd::Block { at } => Fault::Capture(CaptureFault::Block { at }),
        BlocksEnd::Version { at } => Fault::Capture(CaptureFault::BlockVersion { at }),
        BlocksEnd::Link { number, at } => Fault::Capture(CaptureFault::BlockLink { number, at }),
        BlocksEnd::Mixed { at } => Fault::Capture(CaptureFault::MixedLink { at }),
        BlocksEnd::TooMany => Fault::LimitFrames,
        BlocksEnd::Memory => Fault::Memory,
    }
}

// The capture that a file is, in the format that it begins as.
fn capture_in<'a>(alloc: Global, bytes: &[u8]) -> Result<Capture, Fault<'a>>
    requires { length bytes.now ≤ max_file }
    ensures capture { IfOk result (λ capture. IsAnswerOf bytes.now (captured (contents_of capture))) }
    ensures fine { IfOk result (IsClassifiable bytes.now) }
    ensures stops { IfErr result (λ fault. (settings : declared.Settings) (rules : List Rule) (name : List ℕ) → StopsUnder settings rules name bytes.now (cause_of fault)) }
{
    if is_pcapng(bytes) {
        match blocks(alloc, bytes) {
            Ok(capture) => Ok(capture),
            Err(end) => Err(blocks_refused(end)),
        }
    } else {
        match frames(alloc, bytes) {
            Ok(capture) => Ok(capture),
            Err(end) => Err(refused(end)),
        }
    }
}

/// What an inspection finds.
#[derive(Drop)]
pub struct Inspection {
    pub capture: Capture,
    pub plan: Plan,
    pub outcome: Outcome,
}

impl Inspection {
    /// A text that tells of it, with the records of its workers.
    pub fn told_by(self, text: Vec<u8>) -> Made
        ensures text { result.text ≡ text }
        ensures history { result.history ≡ Some self.outcome.history }
    {
        let outcome = self.outcome;
        Made {
            text,
            history: Some(outcome.history),
        }
    }
}

/// Inspects a capture file under rules, with these settings, by workers that have these gates.
pub fn inspection_of<'a, Rt: Threads + Sync, G: Gate + Send + Drop>(
    rt: &Rt,
    alloc: Global,
    rules: &Rules,
    bytes: &[u8],
    settings: Settings,
    gates: Vec<G>,
) -> Result<Inspection, Fault<'a>>
    requires short { length bytes.now ≤ max_file }
    requires limits { IsWithinLimits settings }
    requires gates { settings.workers ≤ vec_len gates }
    ensures found { IfOk result (IsInspection settings rules.now bytes.now) }
    ensures stops { IfErr result (λ fault. (name : List ℕ) → StopsUnder settings rules.now name bytes.now (cause_of fault)) }
{
    let capture = match capture_in(alloc, bytes) {
        Ok(capture) => capture,
        Err(fault) => return Err(fault),
    };
    let Ok(plan) = classify(alloc, &capture, bytes, settings.window) else {
        return Err(Fault::Memory);
    };
    match inspect(
        rt,
        alloc,
        &plan,
        bytes,
        rules,
        settings.workers,
        settings.findings,
        gates,
    ) {
        Ok(outcome) => Ok(Inspection {
            capture,
            plan,
            outcome,
        }),
        Err(InspectEnd::LogFull { .. }) => Err(Fault::LimitFindings),
        Err(InspectEnd::Memory) => Err(Fault::Memory),
    }
}

/// The report of a capture file under rules, with these settings, by workers that have these gates.
pub fn report_under<'a, Rt: Threads + Sync, G: Gate + Send + Drop>(
    rt: &Rt,
    alloc: Global,
    rules: &Rules,
    bytes: &[u8],
    settings: Settings,
    gates: Vec<G>,
) -> Result<Made, Fault<'a>>
    requires short { length bytes.now ≤ max_file }
    requires limits { IsWithinLimits settings }
    requires gates { settings.workers ≤ vec_len gates }
    ensures report { IfOk result (λ made. (name : List ℕ) → IsVerdictUnder settings rules.now name bytes.now (reports made.text.items)) }
    ensures history { IfOk result (λ made. IsSomeAnd (records_of made) (IsHistoryOf settings rules.now bytes.now)) }
    ensures stops { IfErr result (λ fault. (name : List ℕ) → StopsUnder settings rules.now name bytes.now (cause_of fault)) }
{
    let it = match inspection_of(rt, alloc, rules, bytes, settings, gates) {
        Ok(it) => it,
        Err(fault) => return Err(fault),
    };
    match report_text(
        alloc,
        &it.capture,
        &it.plan,
        rules,
        it.outcome.incomplete,
        &it.outcome.findings,
    ) {
        Ok(text) => Ok(it.told_by(text)),
        Err(_) => Err(Fault::Memory),
    }
}

// What the store of a run over a plan is opened with.
fn sizes_of(plan: &Plan, findings: u32) -> Sizes
    requires { IsSmall plan.now }
    ensures { result ≡ record { tasks = length plan.now.tasks.items; groups = length plan.now.groups.items; findings = findings } }
{
    Sizes {
        tasks: plan.tasks.len() as u32,
        groups: plan.groups.len() as u32,
        findings,
    }
}

/// The journal of the workers that inspect a capture file under rules, with these settings and these gates,
/// where the file has a report.
pub fn journal_under<'a, Rt: Threads + Sync, G: Gate + Send + Drop>(
    rt: &Rt,
    alloc: Global,
    rules: &Rules,
    bytes: &[u8],
    settings: Settings,
    gates: Vec<G>,
) -> Result<Made, Fault<'a>>
    requires short { length bytes.now ≤ max_file }
    requires limits { IsWithinLimits settings }
    requires gates { settings.workers ≤ vec_len gates }
    ensures report { IfOk result (λ made. (name : List ℕ) → (report : List ℕ) × IsVerdictUnder settings rules.now name bytes.now (reports report)) }
    ensures journal { IfOk result (λ made. IsSomeAnd (records_of made) (λ records. IsJournalOf settings rules.now bytes.now records made.text.items)) }
    ensures stops { IfErr result (λ fault. (name : List ℕ) → StopsUnder settings rules.now name bytes.now (cause_of fault)) }
{
    run_opens_lawful_law();
    let it = match inspection_of(rt, alloc, rules, bytes, settings, gates) {
        Ok(it) => it,
        Err(fault) => return Err(fault),
    };
    let sizes = sizes_of(&it.plan, settings.findings);
    let records = it.outcome.history.records();
    match journal_text(alloc, sizes, records, &[], Format::Records) {
        Ok(text) => Ok(it.told_by(text)),
        Err(_) => Err(Fault::Memory),
    }
}
