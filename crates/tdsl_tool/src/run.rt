// The top call.
ghost use Rattle.std.specs.Prelude.{◌≡◌, ℕ, ◌≤◌, List, map, vec_len, string_bytes, IfOk};
ghost use Rattle.report.specs.Fault.{cause_of, status_of};
ghost use Rattle.tdsl_tool.specs.Run.{folder, writing, ending_of, ending_status, Tells, TellsLine, outcome_of, IsPut};
ghost use Rattle.tdsl_tool.specs.Commands.{Ran};
ghost use Rattle.tdsl_tool.specs.Handed.{records_in, records_made};

use crate::laws::{one_verdict, some_answer_of};
use crate::made::Made;
use crate::outputs::output_of;
use byte_ends::{Files, Sink, write_all};
use command_words::command_of;
use inspect_workers::{Gate, History, Quiet};
use journal_terms::first_bad_lines_law;
use report::{Fault, write_fault};
use std::alloc::{AllocError, Global};
use std::thread::Threads;

/// How a run of the program ended.
#[derive(Drop)]
pub struct Ended {
    /// The status that the program ends with.
    pub status: u8,
    /// The records of the workers in their serial order, where an inspection or a trial ended with 0 or 3.
    pub history: Option<History>,
}

/// Gates for as many workers as there may be, which hold none up.
pub fn quiet_gates(alloc: Global) -> Result<Vec<Quiet>, AllocError>
    ensures { IfOk result (λ gates. vec_len gates ≡ 16) }
{
    match Vec::from_array(alloc, [Quiet; 16]) {
        Ok(gates) => Ok(gates),
        Err(_) => Err(AllocError),
    }
}

// Writes what a command made. The records of its workers are kept, whether all of it is written or not.
fn put<'a, O: Sink>(
    out: &mut O,
    made: Result<Made, Fault<'a>>,
) -> (Result<(), Fault<'a>>, Option<History>)
    ensures put { IsPut (outcome_of made.entry) (writing (O.written out.old) (O.written out.new) (O.faults out.old) (O.faults out.new)) (ending_of result.0) }
    ensures history { records_in result.1 ≡ records_made made.entry }
    ensures counts { O.faults out.old ≤ O.faults out.new }
{
    let made = match made {
        Ok(made) => made,
        Err(fault) => return (Err(fault), None),
    };
    match write_all(out, &made.text) {
        Ok(()) => (Ok(()), made.history),
        Err(_) => (Err(Fault::Write), made.history),
    }
}

/// Writes the line of a fault, and answers its status. Whether the line is written whole changes no
/// status.
pub fn tell<E: Sink>(faults: &mut E, fault: &Fault<'_>) -> u8
    ensures status { result ≡ status_of (cause_of fault.now) }
    ensures tells { TellsLine (writing (E.written faults.old) (E.written faults.new) (E.faults faults.old) (E.faults faults.new)) (cause_of fault.now) }
    ensures counts { E.faults faults.old ≤ E.faults faults.new }
{
    let _ = write_fault(faults, fault);
    fault.status()
}

// Tells how a command ended, and answers the status.
fn finish<E: Sink>(faults: &mut E, ended: Result<(), Fault<'_>>) -> u8
    ensures status { result ≡ ending_status (ending_of ended.entry) }
    ensures tells { Tells (writing (E.written faults.old) (E.written faults.new) (E.faults faults.old) (E.faults faults.new)) (ending_of ended.entry) }
    ensures counts { E.faults faults.old ≤ E.faults faults.new }
{
    match ended {
        Ok(()) => 0,
        Err(fault) => tell(faults, &fault),
    }
}

/// Does all that the program does, for the words behind the program's own name, and answers the
/// status that it ends with, and the history of its workers.
///
/// `inspect [--workers N] [--findings N] [--window N] RULES CAPTURE` reads the two files and writes the
/// report to `out`; `journal` with the same words writes the journal of its workers in its place, where there
/// is a report. The steps are taken in order: the words, the rule file, its text, the capture file, its
/// format, the findings, writing. `audit JOURNAL` reads the journal and writes how many records and sights
/// it has, where it is legal; its steps are the words, the journal, its judgement, writing. `make SEED
/// FRAMES` writes a capture that is generated from the seed, and `trial [--workers N] SEED FRAMES` the
/// summary of inspecting it; they read no file, and end with 0, 3 or 7. Every other list of words is a
/// fault of usage. The first step that fails decides the status, and a line about it goes to `faults`.
///
/// The findings of an inspection and of a trial are found by workers in threads of their own, in
/// transactions of one store. The k-th gate is called at each point of the k-th worker's run; the program's
/// own gates do nothing. The history is the one serial order of all that the workers committed.
pub fn run_with<Rt: Threads + Sync, F: Files, O: Sink, E: Sink, G: Gate + Send + Drop>(
    rt: &Rt,
    alloc: Global,
    words: &[String],
    files: &mut F,
    out: &mut O,
    faults: &mut E,
    gates: Vec<G>,
) -> Ended
    requires gates { 16 ≤ vec_len gates }
    ensures ran { Ran (map (λ w. string_bytes w) words.now) (record {
      files = folder (F.content files.old) (F.faults files.old) (F.faults files.new);
      out = writing (O.written out.old) (O.written out.new) (O.faults out.old) (O.faults out.new);
      faults = writing (E.written faults.old) (E.written faults.new) (E.faults faults.old) (E.faults faults.new);
      status = result.status;
      history = records_in result.history;
    }) }

    // The contents stay, and no count falls.
    ensures content { (file : List ℕ) → F.content files.new file ≡ F.content files.old file }
    ensures counts { (file : List ℕ) → F.faults files.old file ≤ F.faults files.new file }
    ensures counts_out { O.faults out.old ≤ O.faults out.new }
    ensures counts_faults { E.faults faults.old ≤ E.faults faults.new }
{
    one_verdict();
    some_answer_of();
    first_bad_lines_law();
    let made = output_of(rt, alloc, files, command_of(words), gates);
    let (ended, history) = put(out, made);
    Ended {
        status: finish(faults, ended),
        history,
    }
}
