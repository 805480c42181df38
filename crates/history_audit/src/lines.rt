// The lines of a journal.
ghost use Rattle.std.specs.Prelude.{◌≡◌, ◌↔◌, ◌∷◌, ℕ, [], false, IfOk, MatchOption};
ghost use Rattle.std.specs.Option.{option_map};
ghost use Rattle.serial_terms.specs.declared.call.Done.{Done};
ghost use Rattle.serial_terms.specs.Entries.{Entry};
ghost use Rattle.serial_terms.specs.Histories.{entry_of};
ghost use Rattle.journal_terms.specs.Laws.{IsShort};
ghost use Rattle.journal_terms.specs.Reading.{cut_at};
ghost use Rattle.journal_terms.specs.Strict as read;
ghost use Rattle.journal_terms.specs.Strict.{IsReadableRecord};
ghost use Rattle.journal_terms.specs.Text.{record_text, sizes_text};
ghost use Rattle.history_audit.specs.Heads.{record_head_of, sizes_of, are_two};

use crate::calls::dones;
use crate::words::{cut, number, small};
use journal_terms::lines_are_read_law;
use serial_terms::{PlainList, Record};
use std::alloc::{AllocError, Global};

/// The numbers of a run's tasks, of its groups and of the findings that it may have.
#[derive(Clone, Copy, Debug, PartialEq, Eq)]
pub struct Sizes {
    pub tasks: u64,
    pub groups: u64,
    pub findings: u64,
}

// A record without its calls.
#[derive(Clone, Copy, Debug)]
pub(crate) struct RecordHead {
    pub(crate) place: u64,
    pub(crate) writer: bool,
    pub(crate) caller: u32,
    pub(crate) index: u64,
}

// The sizes that an opening line names.
#[tactic(auto, using(crate::proofs::Cuts::five_sizes), unfolding(journal_terms::specs::Strict::read_open))]
fn read_opening(line: &[u8]) -> Option<Sizes>
    ensures { option_map sizes_of result ≡ read.read_open line.now }
{
    let (open, behind) = cut(b' ', line);
    let (tasks, behind) = cut(b' ', behind?);
    let (groups, behind) = cut(b' ', behind?);
    let (findings, behind) = cut(b' ', behind?);
    match behind {
        Some(_) => None,
        None => {
            if open == b"open".as_slice() {
                Some(Sizes {
                    tasks: number(tasks)?,
                    groups: number(groups)?,
                    findings: number(findings)?,
                })
            } else {
                None
            }
        }
    }
}

fn letter(word: &[u8]) -> Option<bool>
    ensures { result ≡ read.letter word.now }
{
    if word == b"w".as_slice() {
        Some(true)
    } else if word == b"r".as_slice() {
        Some(false)
    } else {
        None
    }
}

#[tactic(auto, using(crate::proofs::Cuts::six_words), unfolding(journal_terms::specs::Strict::read_record_head))]
fn record_head(head: &[u8]) -> Option<RecordHead>
    ensures { option_map record_head_of result ≡ read.read_record_head (cut_at 32 head.now) }
{
    let (title, behind) = cut(b' ', head);
    let (place, behind) = cut(b' ', behind?);
    let (writer, behind) = cut(b' ', behind?);
    let (caller, behind) = cut(b' ', behind?);
    let (index, behind) = cut(b' ', behind?);
    match behind {
        Some(_) => None,
        None => {
            if title == b"t".as_slice() {
                Some(RecordHead {
                    place: number(place)?,
                    writer: letter(writer)?,
                    caller: small(caller)?,
                    index: number(index)?,
                })
            } else {
                None
            }
        }
    }
}

// A line's head, and what stands behind its one colon.
#[tactic(auto, using(crate::proofs::Cuts::three_pieces))]
pub(crate) fn parts(line: &[u8]) -> Option<(&[u8], &[u8])>
    ensures { MatchOption result (are_two (cut_at 58 line.now) ≡ false) (λ p. cut_at 58 line.now ≡ p.0.now ∷ p.1.now ∷ []) }
{
    let (head, behind) = cut(b':', line);
    let (calls, behind) = cut(b':', behind?);
    match behind {
        None => Some((head, calls)),
        Some(_) => None,
    }
}

#[tactic(auto, unfolding(journal_terms::specs::Strict::read_record))]
pub(crate) fn read_record(alloc: Global, line: &[u8]) -> Result<Option<Record>, AllocError>
    ensures { IfOk result (λ found. option_map entry_of found ≡ read.read_record line.now) }
{
    let Some((head, calls)) = parts(line) else {
        return Ok(None);
    };
    let Some(head) = record_head(head) else {
        return Ok(None);
    };
    let Some(dones) = dones(alloc, calls)? else {
        return Ok(None);
    };
    Ok(Some(Record {
        caller: head.caller,
        index: head.index,
        place: head.place,
        writer: head.writer,
        dones: PlainList::from_vec(dones),
    }))
}

/// The sizes that the line names as the opening of a run, where it is such a line.
pub fn opening(line: &[u8]) -> Option<Sizes>
    ensures { (n g f : ℕ) → (option_map sizes_of result ≡ Some (n, g, f)) ↔ (IsShort n × IsShort g × IsShort f × (sizes_text n g f ≡ line.now)) }
{
    lines_are_read_law();
    read_opening(line)
}

/// The record that the line is the text of. A caller's number and those of structures are below 2^32, all others below 2^64, and each
/// reply is of its call's kind; a line of any other record gives none.
pub fn record(alloc: Global, line: &[u8]) -> Result<Option<Record>, AllocError>
    ensures { IfOk result (λ found. (e : Entry Done) → (option_map entry_of found ≡ Some e) ↔ (IsReadableRecord e × (record_text e ≡ line.now))) }
{
    lines_are_read_law();
    read_record(alloc, line)
}
