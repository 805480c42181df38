// The calls of a line, each with its reply.
ghost use Rattle.std.specs.Prelude.{◌≡◌, IfOk};
ghost use Rattle.std.specs.Option.{option_map};
ghost use Rattle.journal_terms.specs.Reading.{cut_at};
ghost use Rattle.journal_terms.specs.Strict as read;

use crate::words::{cut, flag, number, small, value, value_or_absent};
use serial_terms::{Call, Done, Reply};
use std::alloc::{AllocError, Global};

// A call with two words behind its name.
#[tactic(auto, unfolding(journal_terms::specs::Strict::read_two))]
fn two(name: &[u8], first: &[u8], second: &[u8]) -> Option<(Call, Reply)>
    ensures { result ≡ read.read_two name.now first.now second.now }
{
    if name == b"deq".as_slice() {
        Some((
            Call::Dequeue {
                queue: small(first)?,
            },
            value_or_absent(second)?,
        ))
    } else if name == b"take".as_slice() {
        Some((
            Call::Take {
                pool: small(first)?,
            },
            value_or_absent(second)?,
        ))
    } else if name == b"enq".as_slice() {
        Some((
            Call::Enqueue {
                queue: small(first)?,
                value: number(second)?,
            },
            Reply::Nothing,
        ))
    } else if name == b"remove".as_slice() {
        Some((
            Call::MapRemove {
                map: small(first)?,
                key: number(second)?,
            },
            Reply::Nothing,
        ))
    } else if name == b"app".as_slice() {
        Some((
            Call::Append {
                log: small(first)?,
                value: number(second)?,
            },
            Reply::Nothing,
        ))
    } else if name == b"qlen".as_slice() {
        Some((
            Call::QueueLen {
                queue: small(first)?,
            },
            value(second)?,
        ))
    } else if name == b"llen".as_slice() {
        Some((Call::LogLen { log: small(first)? }, value(second)?))
    } else if name == b"cget".as_slice() {
        Some((
            Call::CellGet {
                cell: small(first)?,
            },
            value(second)?,
        ))
    } else if name == b"cput".as_slice() {
        Some((
            Call::CellPut {
                cell: small(first)?,
                value: number(second)?,
            },
            Reply::Nothing,
        ))
    } else {
        None
    }
}

// A call with three words behind its name.
#[tactic(auto, unfolding(journal_terms::specs::Strict::read_three))]
fn three(name: &[u8], first: &[u8], second: &[u8], third: &[u8]) -> Option<(Call, Reply)>
    ensures { result ≡ read.read_three name.now first.now second.now third.now }
{
    if name == b"get".as_slice() {
        Some((
            Call::MapGet {
                map: small(first)?,
                key: number(second)?,
            },
            value_or_absent(third)?,
        ))
    } else if name == b"put".as_slice() {
        Some((
            Call::MapPut {
                map: small(first)?,
                key: number(second)?,
                value: number(third)?,
            },
            Reply::Nothing,
        ))
    } else if name == b"appat".as_slice() {
        Some((
            Call::AppendPlaced {
                log: small(first)?,
                value: number(second)?,
            },
            value(third)?,
        ))
    } else if name == b"give".as_slice() {
        Some((
            Call::Give {
                pool: small(first)?,
                value: number(second)?,
            },
            flag(third)?,
        ))
    } else if name == b"read".as_slice() {
        Some((
            Call::LogRead {
                log: small(first)?,
                i: number(second)?,
            },
            value_or_absent(third)?,
        ))
    } else {
        None
    }
}

// A call with four words behind its name.
#[tactic(auto, unfolding(journal_terms::specs::Strict::read_four))]
fn four(
    name: &[u8],
    first: &[u8],
    second: &[u8],
    third: &[u8],
    fourth: &[u8],
) -> Option<(Call, Reply)>
    ensures { result ≡ read.read_four name.now first.now second.now third.now fourth.now }
{
    if name == b"putnew".as_slice() {
        let call = Call::MapPutIfAbsent {
            map: small(first)?,
            key: number(second)?,
            value: number(third)?,
        };
        Some((call, value_or_absent(fourth)?))
    } else {
        None
    }
}

// The call that a name and the words behind it are.
#[tactic(auto, using(crate::proofs::Cuts::five_words))]
fn call(name: &[u8], words: &[u8]) -> Option<(Call, Reply)>
    ensures { result ≡ read.read_call name.now (cut_at 32 words.now) }
{
    let (first, behind) = cut(b' ', words);
    let (second, behind) = cut(b' ', behind?);
    let Some(behind) = behind else {
        return two(name, first, second);
    };
    let (third, behind) = cut(b' ', behind);
    let Some(behind) = behind else {
        return three(name, first, second, third);
    };
    let (fourth, behind) = cut(b' ', behind);
    match behind {
        None => four(name, first, second, third, fourth),
        Some(_) => None,
    }
}

fn unmarked(words: &[u8]) -> Option<(Call, Reply)>
    ensures { result ≡ read.read_words (cut_at 32 words.now) }
{
    let (name, behind) = cut(b' ', words);
    call(name, behind?)
}

// A call, before which a plus stands where it was made in a child.
fn marked(words: &[u8]) -> Option<Done>
    ensures { result ≡ read.read_marked words.now }
{
    match words {
        [b'+', words @ ..] => {
            let (call, reply) = unmarked(words)?;
            Some(Done {
                call,
                reply,
                child: true,
            })
        }
        [] => None,
        _ => {
            let (call, reply) = unmarked(words)?;
            Some(Done {
                call,
                reply,
                child: false,
            })
        }
    }
}

#[tactic(auto, unfolding(journal_terms::specs::Strict::read_piece))]
fn done(piece: &[u8]) -> Option<Done>
    ensures { result ≡ read.read_piece piece.now }
{
    match piece {
        [b' ', words @ ..] => marked(words),
        _ => None,
    }
}

/// The calls behind the colon of a line.
pub(crate) fn dones(alloc: Global, calls: &[u8]) -> Result<Option<Vec<Done>>, AllocError>
    ensures { IfOk result (λ found. option_map (λ v. v.items) found ≡ read.read_calls calls.now) }
{
    let mut dones = Vec::new(alloc);
    if calls.is_empty() {
        return Ok(Some(dones));
    }
    let mut rest = calls;
    loop {
        let (piece, behind) = cut(b';', rest);
        let Some(done) = done(piece) else {
            return Ok(None);
        };
        dones.push(done)?;
        match behind {
            None => return Ok(Some(dones)),
            Some(behind) => rest = behind,
        }
    }
}
