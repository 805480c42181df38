// What each command makes, before any of it is written.
ghost use Rattle.std.specs.Prelude.{◌≡◌, ℕ, ◌≤◌, List, length, vec_len, IfOk, IfErr, IsSomeAnd, None};
ghost use Rattle.byte_ends.specs.Told.{IfTold};
ghost use Rattle.capture_generator.specs.Packets.{generated_capture};
ghost use Rattle.command_words.specs.declared.command.Settings as declared;
ghost use Rattle.command_words.specs.Limits.{AreWorkers, IsWithinLimits, IsWithin};
ghost use Rattle.command_words.specs.Words.{names_of, inspect, journal, asked_of};
ghost use Rattle.report.specs.Fault.{cause_of, no_memory};
ghost use Rattle.tdsl_tool.specs.Verdict.{reports, max_file, AreRules};
ghost use Rattle.tdsl_tool.specs.Run.{folder, source, reading, ComesTo, StopsReading, StopsInRules, StopsAtRules, StopsAt};
ghost use Rattle.tdsl_tool.specs.Audit.{IsAuditOf, StopsAtJournal};
ghost use Rattle.tdsl_tool.specs.Journals.{IsJournalFor};
ghost use Rattle.tdsl_tool.specs.Making.{IsSummary};
ghost use Rattle.tdsl_tool.specs.Commands.{IsOutput, IsStop, IsAlone, HandsOut};
ghost use Rattle.tdsl_tool.specs.Handed.{IsHistoryOfTrial, records_of, without_workers};

use crate::inspection::{inspection_of, journal_under, report_under};
use crate::laws::one_verdict;
use crate::made::Made;
use byte_ends::{Files, ReadEnd, read_all};
use capture_generator::{generated, generated_is_read_law, trial_rules, trial_rules_law};
use command_words::{Command, FileNames, Making, Settings};
use history_audit::{Verdict, audit};
use inspect_workers::Gate;
use report::{Fault, audit_text, summary_text};
use rule_matcher::{Rules, RulesEnd, rules};
use std::alloc::Global;
use std::thread::Threads;

/// The most bytes that a file may have: 64 MiB.
const MAX_FILE: u64 = 67_108_864;

/// The most findings of a trial, which has fewer whatever its capture is.
const TRIAL_FINDINGS: u32 = 1_048_576;

/// The window of a trial, in seconds.
const TRIAL_WINDOW: u32 = 30;

// The bytes of a file.
fn bytes_of<'a, F: Files>(alloc: Global, files: &mut F, name: &'a str) -> Result<Vec<u8>, Fault<'a>>
    ensures whole { IfOk result (λ bytes. IfTold (F.content files.old name.now) (λ file. bytes.items ≡ file)) }
    ensures short { IfOk result (λ bytes. length bytes.items ≤ max_file) }
    ensures stops { IfErr result (λ fault. StopsReading (source (folder (F.content files.old) (F.faults files.old) (F.faults files.new)) name.now) (cause_of fault)) }
    ensures content { (file : List ℕ) → F.content files.new file ≡ F.content files.old file }
    ensures counts { (file : List ℕ) → F.faults files.old file ≤ F.faults files.new file }
{
    match read_all(alloc, files, name, MAX_FILE) {
        Ok(bytes) => Ok(bytes),
        Err(ReadEnd::Read) => Err(Fault::Read(name)),
        Err(ReadEnd::TooLong) => Err(Fault::LimitFile(name)),
        Err(ReadEnd::Memory) => Err(Fault::Memory),
    }
}

// The rules of a text.
fn rules_in<'a>(alloc: Global, text: &[u8]) -> Result<Rules, Fault<'a>>
    requires { length text.now ≤ max_file }
    ensures rules { IfOk result (AreRules text.now) }
    ensures stops { IfErr result (λ fault. StopsInRules text.now (cause_of fault)) }
{
    match rules(alloc, text) {
        Ok(rules) => Ok(rules),
        Err(RulesEnd::Line { number }) => Err(Fault::Rules { line: number }),
        Err(RulesEnd::TooMany) => Err(Fault::LimitRules),
        Err(RulesEnd::Memory) => Err(Fault::Memory),
    }
}

// The rules of a file.
fn rules_from<'a, F: Files>(alloc: Global, files: &mut F, name: &'a str) -> Result<Rules, Fault<'a>>
    ensures rules { IfOk result (λ rules. IfTold (F.content files.old name.now) (λ text. AreRules text rules)) }
    ensures stops { IfErr result (λ fault. StopsAtRules (source (folder (F.content files.old) (F.faults files.old) (F.faults files.new)) name.now) (cause_of fault)) }
    ensures content { (file : List ℕ) → F.content files.new file ≡ F.content files.old file }
    ensures counts { (file : List ℕ) → F.faults files.old file ≤ F.faults files.new file }
{
    let text = match bytes_of(alloc, files, name) {
        Ok(text) => text,
        Err(fault) => return Err(fault),
    };
    rules_in(alloc, &text)
}

/// What the two files of an inspection give.
#[derive(Drop)]
struct Given {
    rules: Rules,
    bytes: Vec<u8>,
}

// What the files of these names give: rules that stand, and the bytes of the capture file behind them.
fn given_by<'a, F: Files>(
    alloc: Global,
    files: &mut F,
    names: FileNames<'a>,
) -> Result<Given, Fault<'a>>
    ensures rules { IfOk result (λ given. IfTold (F.content files.old names.entry.rules.now) (λ text. AreRules text given.rules)) }
    ensures whole { IfOk result (λ given. IfTold (F.content files.old names.entry.capture.now) (λ file. given.bytes.items ≡ file)) }
    ensures short { IfOk result (λ given. length given.bytes.items ≤ max_file) }
    ensures stops { IfErr result (λ fault. (settings : declared.Settings) → StopsAt (reading (folder (F.content files.old) (F.faults files.old) (F.faults files.new)) (names_of names.entry) settings) (cause_of fault)) }
    ensures content { (file : List ℕ) → F.content files.new file ≡ F.content files.old file }
    ensures counts { (file : List ℕ) → F.faults files.old file ≤ F.faults files.new file }
{
    let rules = match rules_from(alloc, files, names.rules) {
        Ok(rules) => rules,
        Err(fault) => return Err(fault),
    };
    let bytes = match bytes_of(alloc, files, names.capture) {
        Ok(bytes) => bytes,
        Err(fault) => return Err(fault),
    };
    Ok(Given { rules, bytes })
}

// The report of an inspection.
fn report_for<'a, Rt: Threads + Sync, F: Files, G: Gate + Send + Drop>(
    rt: &Rt,
    alloc: Global,
    files: &mut F,
    names: FileNames<'a>,
    settings: Settings,
    gates: Vec<G>,
) -> Result<Made, Fault<'a>>
    requires limits { IsWithinLimits settings }
    requires gates { 16 ≤ vec_len gates }
    ensures report { IfOk result (λ made. ComesTo (reading (folder (F.content files.old) (F.faults files.old) (F.faults files.new)) (names_of names.entry) settings) (reports made.text.items)) }
    ensures history { IfOk result (λ made. HandsOut (inspect (names_of names.entry) settings) (folder (F.content files.old) (F.faults files.old) (F.faults files.new)) (records_of made)) }
    ensures stops { IfErr result (λ fault. StopsAt (reading (folder (F.content files.old) (F.faults files.old) (F.faults files.new)) (names_of names.entry) settings) (cause_of fault)) }
    ensures content { (file : List ℕ) → F.content files.new file ≡ F.content files.old file }
    ensures counts { (file : List ℕ) → F.faults files.old file ≤ F.faults files.new file }
{
    let given = match given_by(alloc, files, names) {
        Ok(given) => given,
        Err(fault) => return Err(fault),
    };
    report_under(rt, alloc, &given.rules, &given.bytes, settings, gates)
}

// The journal of an inspection.
fn journal_for<'a, Rt: Threads + Sync, F: Files, G: Gate + Send + Drop>(
    rt: &Rt,
    alloc: Global,
    files: &mut F,
    names: FileNames<'a>,
    settings: Settings,
    gates: Vec<G>,
) -> Result<Made, Fault<'a>>
    requires limits { IsWithinLimits settings }
    requires gates { 16 ≤ vec_len gates }
    ensures journal { IfOk result (λ made. IsSomeAnd (records_of made) (λ records. IsJournalFor (reading (folder (F.content files.old) (F.faults files.old) (F.faults files.new)) (names_of names.entry) settings) records made.text.items)) }
    ensures history { IfOk result (λ made. HandsOut (journal (names_of names.entry) settings) (folder (F.content files.old) (F.faults files.old) (F.faults files.new)) (records_of made)) }
    ensures stops { IfErr result (λ fault. StopsAt (reading (folder (F.content files.old) (F.faults files.old) (F.faults files.new)) (names_of names.entry) settings) (cause_of fault)) }
    ensures content { (file : List ℕ) → F.content files.new file ≡ F.content files.old file }
    ensures counts { (file : List ℕ) → F.faults files.old file ≤ F.faults files.new file }
{
    let given = match given_by(alloc, files, names) {
        Ok(given) => given,
        Err(fault) => return Err(fault),
    };
    journal_under(rt, alloc, &given.rules, &given.bytes, settings, gates)
}

// What is told of a journal.
fn answer_for<'a, F: Files>(
    alloc: Global,
    files: &mut F,
    name: &'a str,
) -> Result<Vec<u8>, Fault<'a>>
    ensures told { IfOk result (λ text. IsAuditOf (source (folder (F.content files.old) (F.faults files.old) (F.faults files.new)) name.now) (reports text.items)) }
    ensures stops { IfErr result (λ fault. StopsAtJournal (source (folder (F.content files.old) (F.faults files.old) (F.faults files.new)) name.now) (cause_of fault)) }
    ensures content { (file : List ℕ) → F.content files.new file ≡ F.content files.old file }
    ensures counts { (file : List ℕ) → F.faults files.old file ≤ F.faults files.new file }
{
    let text = match bytes_of(alloc, files, name) {
        Ok(text) => text,
        Err(fault) => return Err(fault),
    };
    match audit(alloc, &text) {
        Ok(Verdict::Yes { records, sights }) => match audit_text(alloc, records, sights) {
            Ok(text) => Ok(text),
            Err(_) => Err(Fault::Memory),
        },
        Ok(Verdict::No { line }) => Err(Fault::NotLegal { line }),
        Err(_) => Err(Fault::Memory),
    }
}

// A generated capture.
fn capture_for<'a>(alloc: Global, making: Making) -> Result<Vec<u8>, Fault<'a>>
    ensures bytes { IfOk result (λ bytes. bytes.items ≡ generated_capture making.seed making.frames) }
    ensures short { IfOk result (λ bytes. length bytes.items ≤ max_file) }
    ensures stops { IfErr result (λ fault. cause_of fault ≡ no_memory) }
{
    match generated(alloc, making.seed, making.frames) {
        Ok(bytes) => Ok(bytes),
        Err(_) => Err(Fault::Memory),
    }
}

// The summary of a trial, whose rules and capture are its own.
fn summary_for<'a, Rt: Threads + Sync, G: Gate + Send + Drop>(
    rt: &Rt,
    alloc: Global,
    making: Making,
    workers: u32,
    gates: Vec<G>,
) -> Result<Made, Fault<'a>>
    requires workers { AreWorkers workers }
    requires gates { 16 ≤ vec_len gates }
    ensures summary { IfOk result (λ made. IsSummary making.seed making.frames made.text.items) }
    ensures history { IfOk result (λ made. IsSomeAnd (records_of made) (IsHistoryOfTrial workers making.seed making.frames)) }
    ensures stops { IfErr result (λ fault. cause_of fault ≡ no_memory) }
{
    one_verdict();
    trial_rules_law();
    generated_is_read_law();
    let rules = match rules_in(alloc, trial_rules()) {
        Ok(rules) => rules,
        Err(fault) => return Err(fault),
    };
    let bytes = match capture_for(alloc, making) {
        Ok(bytes) => bytes,
        Err(fault) => return Err(fault),
    };
    let settings = Settings {
        findings: TRIAL_FINDINGS,
        window: TRIAL_WINDOW,
        workers,
    };
    let it = match inspection_of(rt, alloc, &rules, &bytes, settings, gates) {
        Ok(it) => it,
        Err(fault) => return Err(fault),
    };
    match summary_text(
        alloc,
        making.seed,
        making.frames,
        &it.capture,
        &it.plan,
        it.outcome.incomplete,
        &it.outcome.findings,
    ) {
        Ok(text) => Ok(it.told_by(text)),
        Err(_) => Err(Fault::Memory),
    }
}

// What a command without workers made.
fn alone<'a>(made: Result<Vec<u8>, Fault<'a>>) -> Result<Made, Fault<'a>>
    ensures { result ≡ without_workers made.entry }
{
    match made {
        Ok(text) => Ok(Made {
            text,
            history: None,
        }),
        Err(fault) => Err(fault),
    }
}

/// What a command makes: the text that it is to write, with the records of its workers, which have these
/// gates, or why there is none.
pub fn output_of<'a, Rt: Threads + Sync, F: Files, G: Gate + Send + Drop>(
    rt: &Rt,
    alloc: Global,
    files: &mut F,
    command: Command<'a>,
    gates: Vec<G>,
) -> Result<Made, Fault<'a>>
    requires limits { IsWithin (asked_of command) }
    requires gates { 16 ≤ vec_len gates }
    ensures output { IfOk result (λ made. IsOutput (asked_of command.entry) (folder (F.content files.old) (F.faults files.old) (F.faults files.new)) (records_of made) made.text.items) }
    ensures history { IfOk result (λ made. HandsOut (asked_of command.entry) (folder (F.content files.old) (F.faults files.old) (F.faults files.new)) (records_of made)) }
    ensures stops { IfErr result (λ fault. IsStop (asked_of command.entry) (folder (F.content files.old) (F.faults files.old) (F.faults files.new)) (cause_of fault)) }
    ensures alone { IsAlone (asked_of command.entry) → (file : List ℕ) → F.faults files.new file ≡ F.faults files.old file }
    ensures content { (file : List ℕ) → F.content files.new file ≡ F.content files.old file }
    ensures counts { (file : List ℕ) → F.faults files.old file ≤ F.faults files.new file }
{
    match command {
        Command::Unknown => Err(Fault::Usage),
        Command::Inspect { names, settings } => {
            report_for(rt, alloc, files, names, settings, gates)
        }
        Command::Journal { names, settings } => {
            journal_for(rt, alloc, files, names, settings, gates)
        }
        Command::Audit { journal } => alone(answer_for(alloc, files, journal)),
        Command::Make(making) => alone(capture_for(alloc, making)),
        Command::Trial { making, workers } => summary_for(rt, alloc, making, workers, gates),
    }
}
