// Calls with their replies.
ghost use Rattle.std.specs.Prelude.{◌≡◌, ◌++◌, OnOk};
ghost use Rattle.std.specs.List.{flat_map};
ghost use Rattle.journal_terms.specs.Text.{call_name, call_words, calls_text, done_text, mark, space};
ghost use Rattle.journal_writer.specs.Texts.{answered, separated, spaced};

use crate::words::{push_numbers, push_reply};
use serial_terms::{Call, Done, Reply};
use std::alloc::AllocError;

fn name_of(call: Call) -> &'static [u8]
    ensures { result.now ≡ call_name call }
{
    match call {
        Call::MapGet { .. } => b"get",
        Call::MapPut { .. } => b"put",
        Call::MapRemove { .. } => b"remove",
        Call::MapPutIfAbsent { .. } => b"putnew",
        Call::Enqueue { .. } => b"enq",
        Call::Dequeue { .. } => b"deq",
        Call::QueueLen { .. } => b"qlen",
        Call::Take { .. } => b"take",
        Call::Give { .. } => b"give",
        Call::Append { .. } => b"app",
        Call::AppendPlaced { .. } => b"appat",
        Call::LogRead { .. } => b"read",
        Call::LogLen { .. } => b"llen",
        Call::CellGet { .. } => b"cget",
        Call::CellPut { .. } => b"cput",
    }
}

// The structure's number, the keys and values, and the reply where the call has one.
fn push_words(text: &mut Vec<u8>, call: Call, reply: Reply) -> Result<(), AllocError>
    ensures { OnOk result (text.new.items ≡ text.old.items ++ flat_map spaced (call_words call reply)) }
{
    match call {
        Call::MapPut { map, key, value } => push_numbers(text, &[u64::from(map), key, value]),
        Call::MapRemove { map, key } => push_numbers(text, &[u64::from(map), key]),
        Call::Enqueue { queue, value } => push_numbers(text, &[u64::from(queue), value]),
        Call::Append { log, value } => push_numbers(text, &[u64::from(log), value]),
        Call::CellPut { cell, value } => push_numbers(text, &[u64::from(cell), value]),
        Call::MapGet { map, key } => push_answered(text, &[u64::from(map), key], reply),
        Call::MapPutIfAbsent { map, key, value } => {
            push_answered(text, &[u64::from(map), key, value], reply)
        }
        Call::Dequeue { queue } => push_answered(text, &[u64::from(queue)], reply),
        Call::QueueLen { queue } => push_answered(text, &[u64::from(queue)], reply),
        Call::Take { pool } => push_answered(text, &[u64::from(pool)], reply),
        Call::Give { pool, value } => push_answered(text, &[u64::from(pool), value], reply),
        Call::AppendPlaced { log, value } => push_answered(text, &[u64::from(log), value], reply),
        Call::LogRead { log, i } => push_answered(text, &[u64::from(log), i], reply),
        Call::LogLen { log } => push_answered(text, &[u64::from(log)], reply),
        Call::CellGet { cell } => push_answered(text, &[u64::from(cell)], reply),
    }
}

fn push_answered(text: &mut Vec<u8>, numbers: &[u64], reply: Reply) -> Result<(), AllocError>
    ensures { OnOk result (text.new.items ≡ text.old.items ++ answered numbers.now reply) }
{
    push_numbers(text, numbers)?;
    push_reply(text, reply)
}

// A plus before a call that was made while a child was open.
fn push_mark(text: &mut Vec<u8>, child: bool) -> Result<(), AllocError>
    ensures { OnOk result (text.new.items ≡ text.old.items ++ mark child) }
{
    if child {
        text.push(b'+')?;
    }
    Ok(())
}

fn push_done(text: &mut Vec<u8>, done: &Done) -> Result<(), AllocError>
    ensures { OnOk result (text.new.items ≡ text.old.items ++ done_text done.now) }
{
    push_mark(text, done.child)?;
    text.extend_from_slice(name_of(done.call))?;
    push_words(text, done.call, done.reply)
}

fn push_further(text: &mut Vec<u8>, dones: &[Done]) -> Result<(), AllocError>
    ensures { OnOk result (text.new.items ≡ text.old.items ++ flat_map (λ d. separated (done_text d)) dones.now) }
{
    for done in dones {
        text.extend_from_slice(b"; ")?;
        push_done(text, done)?;
    }
    Ok(())
}

/// Appends calls with their replies, a space before each and a semicolon between two.
pub(crate) fn push_calls(text: &mut Vec<u8>, dones: &[Done]) -> Result<(), AllocError>
    ensures { OnOk result (text.new.items ≡ text.old.items ++ calls_text dones.now) }
{
    match dones {
        [] => Ok(()),
        [first, further @ ..] => {
            text.push(b' ')?;
            push_done(text, first)?;
            push_further(text, further)
        }
    }
}
