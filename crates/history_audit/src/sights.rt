// The sights of a journal.
ghost use Rattle.std.specs.Prelude.{◌≡◌, ◌↔◌, ◌∷◌, true, false, IfOk, codes};
ghost use Rattle.std.specs.Option.{option_map};
ghost use Rattle.std.specs.Str.{bytes_eq};
ghost use Rattle.serial_terms.specs.declared.call.Done.{Done};
ghost use Rattle.serial_terms.specs.Sights.{Seen, seen_of};
ghost use Rattle.journal_terms.specs.Reading.{cut_at};
ghost use Rattle.journal_terms.specs.Strict as read;
ghost use Rattle.journal_terms.specs.Strict.{IsReadableSight};
ghost use Rattle.journal_terms.specs.Text.{sight_text};
ghost use Rattle.history_audit.specs.SightHeads.{sight_head_of};

use crate::calls::dones;
use crate::lines::parts;
use crate::words::{cut, number, small};
use journal_terms::lines_are_read_law;
use serial_terms::{PlainList, Sight, SightEnd};
use std::alloc::{AllocError, Global};

// A sight without its calls.
#[derive(Clone, Copy, Debug)]
struct SightHead {
    place: u64,
    end: SightEnd,
    caller: u32,
    after: u64,
}

fn end_of(word: &[u8]) -> Option<SightEnd>
    ensures { result ≡ read.read_end word.now }
{
    if word == b"a".as_slice() {
        Some(SightEnd::Aborted)
    } else if word == b"c".as_slice() {
        Some(SightEnd::Refused)
    } else if word == b"k".as_slice() {
        Some(SightEnd::Child)
    } else {
        None
    }
}

// The head whose end is one word.
#[tactic(auto, using(crate::proofs::Cuts::no_full_head), unfolding(journal_terms::specs::Strict::read_sight_head))]
fn head_by_letter(title: &[u8], place: &[u8], end: &[u8], words: &[u8]) -> Option<SightHead>
    requires { bytes_eq end.now (codes "f") ≡ false }
    ensures { option_map sight_head_of result ≡ read.read_sight_head (title.now ∷ place.now ∷ end.now ∷ cut_at 32 words.now) }
{
    let (caller, behind) = cut(b' ', words);
    let (after, behind) = cut(b' ', behind?);
    match behind {
        Some(_) => None,
        None => {
            if title == b"s".as_slice() {
                Some(SightHead {
                    place: number(place)?,
                    end: end_of(end)?,
                    caller: small(caller)?,
                    after: number(after)?,
                })
            } else {
                None
            }
        }
    }
}

// The head of a commit refused for want of capacity, whose end is four words.
#[tactic(auto, using(crate::proofs::Cuts::no_letter_head, crate::proofs::Cuts::nine_words), unfolding(journal_terms::specs::Strict::read_sight_head))]
fn head_of_full(title: &[u8], place: &[u8], end: &[u8], words: &[u8]) -> Option<SightHead>
    requires { bytes_eq end.now (codes "f") ≡ true }
    ensures { option_map sight_head_of result ≡ read.read_sight_head (title.now ∷ place.now ∷ end.now ∷ cut_at 32 words.now) }
{
    let (part, behind) = cut(b' ', words);
    let (values, behind) = cut(b' ', behind?);
    let (adding, behind) = cut(b' ', behind?);
    let (caller, behind) = cut(b' ', behind?);
    let (after, behind) = cut(b' ', behind?);
    match behind {
        Some(_) => None,
        None => {
            if title == b"s".as_slice() {
                Some(SightHead {
                    place: number(place)?,
                    end: SightEnd::Full {
                        part: small(part)?,
                        length: number(values)?,
                        adding: number(adding)?,
                    },
                    caller: small(caller)?,
                    after: number(after)?,
                })
            } else {
                None
            }
        }
    }
}

#[tactic(auto, unfolding(journal_terms::specs::Strict::read_sight_head))]
fn sight_head(head: &[u8]) -> Option<SightHead>
    ensures { option_map sight_head_of result ≡ read.read_sight_head (cut_at 32 head.now) }
{
    let (title, behind) = cut(b' ', head);
    let (place, behind) = cut(b' ', behind?);
    let (end, behind) = cut(b' ', behind?);
    let words = behind?;
    if end == b"f".as_slice() {
        head_of_full(title, place, end, words)
    } else {
        head_by_letter(title, place, end, words)
    }
}

#[tactic(auto, unfolding(journal_terms::specs::Strict::read_sight))]
fn read_sight(alloc: Global, line: &[u8]) -> Result<Option<Sight>, AllocError>
    ensures { IfOk result (λ found. option_map seen_of found ≡ read.read_sight line.now) }
{
    let Some((head, calls)) = parts(line) else {
        return Ok(None);
    };
    let Some(head) = sight_head(head) else {
        return Ok(None);
    };
    let Some(dones) = dones(alloc, calls)? else {
        return Ok(None);
    };
    Ok(Some(Sight {
        caller: head.caller,
        after: head.after,
        place: head.place,
        end: head.end,
        dones: PlainList::from_vec(dones),
    }))
}

/// The sight that the line is the text of. A caller's number and those of structures and parts are below 2^32, all others below 2^64,
/// and each reply is of its call's kind; a line of any other sight gives none.
pub fn sight(alloc: Global, line: &[u8]) -> Result<Option<Sight>, AllocError>
    ensures { IfOk result (λ found. (v : Seen Done) → (option_map seen_of found ≡ Some v) ↔ (IsReadableSight v × (sight_text v ≡ line.now))) }
{
    lines_are_read_law();
    read_sight(alloc, line)
}
