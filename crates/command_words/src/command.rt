// The commands, and the words that they are written by.
ghost use Rattle.std.specs.Prelude.{◌≡◌, [], ◌∷◌, map, string_bytes};
ghost use Rattle.std.specs.Option.{option_map};
ghost use Rattle.command_words.specs.Words.{is_name, inspection_of, inspection_by, settings_by, journal_by, audit_by, make, trial, making_by, making_of, trial_by, asked_by, asked_of};
ghost use Rattle.command_words.specs.Limits.{AreWorkers, IsWithinLimits, IsOptionsWithin, IsWithin};

use crate::making::Making;
use crate::options::{MAX_WORKERS, NO_OPTIONS, Options, number_in};

/// The most findings that an inspection has where the words don't say it.
const USUAL_FINDINGS: u32 = 65_536;

/// The window in seconds where the words don't say it.
const USUAL_WINDOW: u32 = 30;

/// How many workers inspect where the words don't say it.
const USUAL_WORKERS: u32 = 4;

/// The most frames that a generated capture has.
const MAX_FRAMES: u64 = 262_144;

/// The names of the files that an inspection reads.
#[derive(Clone, Copy, Debug)]
pub struct FileNames<'a> {
    pub rules: &'a str,
    pub capture: &'a str,
}

/// What an inspection is told beside its files.
#[derive(Clone, Copy, Debug)]
pub struct Settings {
    /// The most findings that it may have, from 1 to 1,048,576.
    pub findings: u32,
    /// The window that parts the generations of a key, in seconds, from 1 to 86,400.
    pub window: u32,
    /// How many workers inspect, from 1 to 16. What they find doesn't depend on it.
    pub workers: u32,
}

/// What the program is asked to do.
#[derive(Clone, Copy, Debug)]
pub enum Command<'a> {
    /// Nothing that it knows.
    Unknown,
    /// Inspect a capture under rules, and write the report.
    Inspect {
        names: FileNames<'a>,
        settings: Settings,
    },
    /// Inspect a capture under rules, and write the journal of the workers' run.
    Journal {
        names: FileNames<'a>,
        settings: Settings,
    },
    /// Judge the journal of this name, and write the verdict.
    Audit {
        journal: &'a str,
    },
    /// Generate a capture, and write it.
    Make(Making),
    /// Generate a capture, inspect it by so many workers, from 1 to 16, and write the summary.
    Trial {
        making: Making,
        workers: u32,
    },
}

#[tactic(auto, unfolding(crate::specs::Words::is_name))]
fn can_name(word: &str) -> bool
    ensures { result ≡ is_name word.now }
{
    !word.is_empty() && !word.as_bytes().starts_with(b"--")
}

fn settings_by(options: Options) -> Settings
    requires { IsOptionsWithin options }
    ensures settings { result ≡ settings_by options }
    ensures within { IsWithinLimits result }
{
    Settings {
        findings: options.findings.unwrap_or(USUAL_FINDINGS),
        window: options.window.unwrap_or(USUAL_WINDOW),
        workers: options.workers.unwrap_or(USUAL_WORKERS),
    }
}

// An inspection of the files of these names, if names they are.
#[tactic(auto, unfolding(crate::specs::Words::inspection_of))]
fn inspection_of<'a>(options: Options, rules: &'a str, capture: &'a str) -> Command<'a>
    requires { IsOptionsWithin options }
    ensures asked { asked_of result ≡ inspection_of options rules.now capture.now }
    ensures within { IsWithin (asked_of result) }
{
    if can_name(rules) && can_name(capture) {
        Command::Inspect {
            names: FileNames { rules, capture },
            settings: settings_by(options),
        }
    } else {
        Command::Unknown
    }
}

// What these words behind `inspect` and behind options ask for.
#[tactic(auto, unfolding(crate::specs::Words::inspection_by))]
fn inspection_by(options: Options, words: &[String]) -> Command<'_>
    requires { IsOptionsWithin options }
    ensures asked { asked_of result ≡ inspection_by options (map (λ w. string_bytes w) words.now) }
    ensures within { IsWithin (asked_of result) }
{
    match words {
        [word, value, rest @ ..] if !rest.is_empty() => {
            match options.with(word.as_str(), value.as_str()) {
                Some(more) => inspection_by(more, rest),
                None => Command::Unknown,
            }
        }
        [rules, capture] => inspection_of(options, rules.as_str(), capture.as_str()),
        _ => Command::Unknown,
    }
}

// The journal of an inspection, where one is asked for.
fn journal_by(asked: Command<'_>) -> Command<'_>
    requires { IsWithin (asked_of asked) }
    ensures asked { asked_of result ≡ journal_by (asked_of asked.entry) }
    ensures within { IsWithin (asked_of result) }
{
    match asked {
        Command::Inspect { names, settings } => Command::Journal { names, settings },
        _ => Command::Unknown,
    }
}

// What these words behind `audit` ask for: one name.
#[tactic(auto, unfolding(crate::specs::Words::audit_by))]
fn audit_by(words: &[String]) -> Command<'_>
    ensures asked { asked_of result ≡ audit_by (map (λ w. string_bytes w) words.now) }
    ensures within { IsWithin (asked_of result) }
{
    match words {
        [journal] if can_name(journal.as_str()) => Command::Audit {
            journal: journal.as_str(),
        },
        _ => Command::Unknown,
    }
}

// The capture of a seed and a number of frames that two words write, if numbers they are.
#[tactic(auto, unfolding(crate::specs::Words::making_of))]
fn making_of(seed: &str, frames: &str) -> Option<Making>
    ensures { option_map (λ making. (making.seed, making.frames)) result ≡ making_of seed.now frames.now }
{
    let seed = number_in(seed, 0, u64::MAX)?;
    let frames = number_in(frames, 0, MAX_FRAMES)?;
    Some(Making {
        seed,
        frames: frames as u32,
    })
}

// What these words behind `make` ask for: a seed, and a number of frames.
#[tactic(auto, unfolding(crate::specs::Words::making_by))]
fn make_by(words: &[String]) -> Command<'_>
    ensures asked { asked_of result ≡ making_by make (map (λ w. string_bytes w) words.now) }
    ensures within { IsWithin (asked_of result) }
{
    match words {
        [seed, frames] => match making_of(seed.as_str(), frames.as_str()) {
            Some(making) => Command::Make(making),
            None => Command::Unknown,
        },
        _ => Command::Unknown,
    }
}

// What is tried by so many workers on the capture that these two words tell.
#[tactic(auto, unfolding(crate::specs::Words::making_by))]
fn tried_by<'a>(workers: u32, seed: &'a str, frames: &'a str) -> Command<'a>
    requires { AreWorkers workers }
    ensures asked { asked_of result ≡ making_by (trial workers) (seed.now ∷ frames.now ∷ []) }
    ensures within { IsWithin (asked_of result) }
{
    match making_of(seed, frames) {
        Some(making) => Command::Trial { making, workers },
        None => Command::Unknown,
    }
}

// What these words behind `trial` ask for: the number of workers, where it is given, and the capture.
#[tactic(auto, unfolding(crate::specs::Words::trial_by))]
fn trial_by(words: &[String]) -> Command<'_>
    ensures asked { asked_of result ≡ trial_by (map (λ w. string_bytes w) words.now) }
    ensures within { IsWithin (asked_of result) }
{
    match words {
        [seed, frames] => tried_by(USUAL_WORKERS, seed.as_str(), frames.as_str()),
        [option, value, seed, frames] if option.as_str() == "--workers" => {
            match number_in(value.as_str(), 1, MAX_WORKERS) {
                Some(workers) => tried_by(workers as u32, seed.as_str(), frames.as_str()),
                None => Command::Unknown,
            }
        }
        _ => Command::Unknown,
    }
}

/// What the words behind the program's own name ask for: `inspect [--workers N] [--findings N] [--window N]
/// RULES CAPTURE`, `journal` with the same words behind it, `audit JOURNAL`, `make SEED FRAMES`, or
/// `trial [--workers N] SEED FRAMES`, with names that aren't empty and don't begin with two dashes, and
/// options in any order, each at most once. All other words are `Unknown`.
#[tactic(auto, unfolding(crate::specs::Words::asked_by))]
pub fn command_of(words: &[String]) -> Command<'_>
    ensures asked { asked_of result ≡ asked_by (map (λ w. string_bytes w) words.now) }
    ensures within { IsWithin (asked_of result) }
{
    match words {
        [command, rest @ ..] if command.as_str() == "inspect" => { inspection_by(NO_OPTIONS, rest) }
        [command, rest @ ..] if command.as_str() == "journal" => {
            journal_by(inspection_by(NO_OPTIONS, rest))
        }
        [command, rest @ ..] if command.as_str() == "audit" => audit_by(rest),
        [command, rest @ ..] if command.as_str() == "make" => make_by(rest),
        [command, rest @ ..] if command.as_str() == "trial" => trial_by(rest),
        _ => Command::Unknown,
    }
}
