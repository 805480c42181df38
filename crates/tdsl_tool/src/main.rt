//! Inspects captures of packets: `inspect [--workers N] [--findings N] [--window N] RULES CAPTURE` writes a
//! report of what the rules find, and `journal` with the same words every transaction of the workers. Judges
//! journals: `audit JOURNAL` tells whether a legal run may have written it. Makes captures: `make SEED FRAMES`
//! writes one that is generated from a seed, and `trial [--workers N] SEED FRAMES` inspects one and writes the
//! summary.
#![tactic(auto)]

#[cfg(test)]
mod audit_tests;
#[cfg(test)]
mod batch_tests;
#[cfg(test)]
mod blocks_tests;
#[cfg(test)]
mod failing_tests;
#[cfg(test)]
mod hostile_tests;
mod inspection;
#[cfg(test)]
mod journal_tests;
mod laws;
mod made;
#[cfg(test)]
mod making_tests;
#[cfg(test)]
mod meeting_tests;
mod outputs;
mod run;
#[cfg(test)]
mod tests;

use byte_ends::{RealFiles, RealSink};
use report::Fault;
use run::{quiet_gates, run_with, tell};
use std::alloc::Global;
use std::io::ErrorKind;
use std::process::ExitCode;
use std::rt::Env;
use std::{env, io};

// The words behind the program's own name.
fn words_of<R: Env + AllocGlobal>(rt: &R, alloc: Global) -> io::Result<Vec<String>> {
    let mut words = Vec::new(alloc);
    for word in env::args(rt)?.skip(1) {
        words.push(word)?;
    }
    Ok(words)
}

fn main(rt: HostRuntime) -> ExitCode {
    let alloc = rt.alloc();
    let mut out = RealSink::new(rt.stdout());
    let mut faults = RealSink::new(rt.stderr());
    let words = match words_of(&rt, alloc) {
        Ok(words) => words,
        Err(error) => match error.kind() {
            ErrorKind::OutOfMemory => {
                return ExitCode::from(tell(&mut faults, &Fault::Memory));
            }
            // Words that can't be had, as those that are no text, are none that the program knows.
            _ => Vec::new(alloc),
        },
    };
    let Ok(gates) = quiet_gates(alloc) else {
        return ExitCode::from(tell(&mut faults, &Fault::Memory));
    };
    let mut files = RealFiles::new(alloc, &rt);
    let ended = run_with(&rt, alloc, &words, &mut files, &mut out, &mut faults, gates);
    ExitCode::from(ended.status)
}
