// The verdict on a journal.
ghost use Rattle.std.specs.Prelude.{◌≡◌, ◌↔◌, ◌∷◌, ◌++◌, ◌<◌, ◌+◌, ◌^◌, ℕ, List, length, IfOk, IfSome, MatchOption, Some, None};
ghost use Rattle.std.specs.Option.{option_map};
ghost use Rattle.journal_terms.specs.Growing.{without_sights};
ghost use Rattle.journal_terms.specs.Legal.{AreSizes, IsFirstBadLine, IsLegalJournal, lines_of};
ghost use Rattle.journal_terms.specs.Reading.{cut_at};
ghost use Rattle.journal_terms.specs.Text.{Journal, begun_lines, journal_lines, sights_in, sizes_text, title};
ghost use Rattle.history_audit.specs.Begun.{records_in};
ghost use Rattle.history_audit.specs.Heads.{sizes_of};
ghost use Rattle.history_audit.specs.Verdicts.{IsLegalWith, IsNoRecord, IsOutcome, IsVerdict, with_records};
ghost use Rattle.std.specs.Prelude.{Bool, IsTrue, true};

use crate::ledger::Ledger;
use crate::lines::{Sizes, opening, record};
use crate::replay::Replay;
use crate::sights::sight;
use crate::words::cut;
use journal_terms::{
    beginnings_are_legal_law, first_bad_lines_law, histories_grow_law, journals_grow_law,
    lines_are_named_law, lines_are_read_law, one_text_one_journal_law, sights_follow_law,
    what_suits_law,
};
use std::alloc::{AllocError, Global};

/// What an audit says of a text.
#[derive(Clone, Copy, Debug, PartialEq, Eq)]
pub enum Verdict {
    /// Some legal run may have written it. It has so many records and sights.
    Yes { records: u64, sights: u64 },
    /// No legal run wrote it, and this is the first line, counted from 1, up to which it begins no legal journal. Where the text ends too
    /// early, it is the line that isn't ended, be it missing.
    No { line: u64 },
}

// What the lines behind an opening come to, as far as they are records.
#[derive(Debug, Drop)]
enum Outcome<'t> {
    // The text is judged.
    Judged(Verdict),
    // The records are legal, and `rest` begins with a line of this number that is no record's, in a journal that may have sights.
    Sights { rest: &'t [u8], line: u64 },
}

// The verdict behind the line `end`, whose number is given.
pub(crate) fn ended(behind: &[u8], number: u64, records: u64, sights: u64) -> Verdict
    requires { number < 2 ^ 63 + 8 }
    ensures { (text : List ℕ) (j : Journal) → IsLegalJournal j → lines_of text ≡ journal_lines j ++ cut_at 10 behind.now → number ≡ length (journal_lines j) → records ≡ length j.records → sights ≡ length (sights_in j.sights) → IsVerdict text result }
{
    journals_grow_law();
    lines_are_named_law();
    if behind.is_empty() {
        Verdict::Yes { records, sights }
    } else {
        Verdict::No { line: number + 1 }
    }
}

// Judges the lines behind the title and the opening of a text, of which the first has the number 3, as far as they are records.
fn judge_records(
    alloc: Global,
    second: bool,
    sizes: Sizes,
    lines: &[u8],
) -> Result<Outcome<'_>, AllocError>
    requires sizes { AreSizes sizes.tasks sizes.groups sizes.findings }
    requires short { length lines.now < 2 ^ 63 }
    ensures { IfOk result (λ o. (text : List ℕ) → lines_of text ≡ title (without_sights second) ∷ sizes_text sizes.tasks sizes.groups sizes.findings ∷ cut_at 10 lines.now → IsOutcome text second sizes lines.now o) }
{
    beginnings_are_legal_law();
    histories_grow_law();
    journals_grow_law();
    lines_are_named_law();
    lines_are_read_law();
    what_suits_law();
    let mut ledger = Ledger::opened(alloc, sizes)?;
    let mut rest = lines;
    let mut number = 3;
    'lines: loop {
        let (line, behind) = cut(b'\n', rest);
        let behind = match behind {
            None => return Ok(Outcome::Judged(Verdict::No { line: number })),
            Some(behind) => behind,
        };
        if line == b"end".as_slice() {
            return Ok(Outcome::Judged(ended(behind, number, ledger.records(), 0)));
        }
        let record = match record(alloc, line)? {
            None if second => {
                return Ok(Outcome::Sights { rest, line: number });
            }
            None => return Ok(Outcome::Judged(Verdict::No { line: number })),
            Some(record) => record,
        };
        let admitted = ledger.admit(alloc, &record)?;
        if !admitted {
            return Ok(Outcome::Judged(Verdict::No { line: number }));
        }
        rest = behind;
        number += 1;
    }
}

// Judges the lines behind the records of a journal that may have sights. The lines of the records are read once more beside them.
fn judge_sights(
    alloc: Global,
    sizes: Sizes,
    records: &[u8],
    lines: &[u8],
    first: u64,
) -> Result<Verdict, AllocError>
    requires legal { IsLegalJournal (with_records true sizes (records_in records.now)) }
    requires behind { IsNoRecord lines.now }
    requires number { first ≡ 3 + length (records_in records.now) }
    requires short { first + length lines.now < 2 ^ 63 + 3 }
    ensures { IfOk result (λ v. (text : List ℕ) → lines_of text ≡ begun_lines (with_records true sizes (records_in records.now)) ++ cut_at 10 lines.now → IsVerdict text v) }
{
    journals_grow_law();
    lines_are_named_law();
    sights_follow_law();
    what_suits_law();
    let mut replay = Replay::opened(alloc, sizes, records)?;
    let mut rest = lines;
    let mut number = first;
    let mut sights = 0;
    'lines: loop {
        let (line, behind) = cut(b'\n', rest);
        let behind = match behind {
            None => return Ok(Verdict::No { line: number }),
            Some(behind) => behind,
        };
        if line == b"end".as_slice() {
            return Ok(ended(behind, number, first - 3, sights));
        }
        let sight = match sight(alloc, line)? {
            None => return Ok(Verdict::No { line: number }),
            Some(sight) => sight,
        };
        let admitted = replay.admit(alloc, &sight)?;
        if !admitted {
            return Ok(Verdict::No { line: number });
        }
        rest = behind;
        number += 1;
        sights += 1;
    }
}

// The version that the title names: the second one, or the first.
fn version(line: &[u8]) -> Option<bool>
    ensures { (second : Bool) → (result ≡ Some second) ↔ (title (without_sights second) ≡ line.now) }
{
    if line == b"journal 2".as_slice() {
        Some(true)
    } else if line == b"journal 1".as_slice() {
        Some(false)
    } else {
        None
    }
}

// Whether a run may have these sizes.
fn are_sizes(sizes: Sizes) -> bool
    ensures { IsTrue result ↔ AreSizes sizes.tasks sizes.groups sizes.findings }
{
    let tasks = sizes.tasks <= 262_144;
    let groups = sizes.groups <= sizes.tasks;
    tasks && groups && sizes.findings >= 1 && sizes.findings <= 1_048_576
}

// The verdict on the text.
fn judge(alloc: Global, text: &[u8]) -> Result<Verdict, AllocError>
    requires { length text.now < 2 ^ 63 }
    ensures { IfOk result (λ v. IsVerdict text.now v) }
{
    beginnings_are_legal_law();
    lines_are_named_law();
    let (line, behind) = cut(b'\n', text);
    let behind = match behind {
        None => return Ok(Verdict::No { line: 1 }),
        Some(behind) => behind,
    };
    let second = match version(line) {
        None => return Ok(Verdict::No { line: 1 }),
        Some(second) => second,
    };
    let (sizes_line, rest) = cut(b'\n', behind);
    let rest = match rest {
        None => return Ok(Verdict::No { line: 2 }),
        Some(rest) => rest,
    };
    let sizes = match opening(sizes_line) {
        None => return Ok(Verdict::No { line: 2 }),
        Some(sizes) => sizes,
    };
    let fit = are_sizes(sizes);
    if !fit {
        return Ok(Verdict::No { line: 2 });
    }
    match judge_records(alloc, second, sizes, rest)? {
        Outcome::Judged(verdict) => Ok(verdict),
        Outcome::Sights { rest: behind, line } => {
            let verdict = judge_sights(alloc, sizes, rest, behind, line)?;
            Ok(verdict)
        }
    }
}

/// Whether some legal run may have written the text as its journal, of either version: `Yes` exactly for the texts of legal journals, with
/// the numbers of their records and sights, and else `No` with the first line, counted from 1, up to which the text begins no legal
/// journal. Where the text ends too early, that is the last line if it isn't ended, and else the missing one behind it. An `Err` is want of
/// memory.
pub fn audit(alloc: Global, text: &[u8]) -> Result<Verdict, AllocError>
    ensures yes { IfOk result (λ v. (r s : ℕ) → (v ≡ Verdict.Yes r s) ↔ IsLegalWith text.now r s) }
    ensures no { IfOk result (λ v. (n : ℕ) → (v ≡ Verdict.No n) ↔ IsFirstBadLine text.now n) }
{
    first_bad_lines_law();
    one_text_one_journal_law();
    let verdict = judge(alloc, text)?;
    Ok(verdict)
}
