// The words of a line. Each is written with the space before it.
ghost use Rattle.std.specs.Prelude.{◌≡◌, ◌++◌, OnOk};
ghost use Rattle.std.specs.Fmt.{decimal};
ghost use Rattle.std.specs.List.{flat_map};
ghost use Rattle.journal_terms.specs.Text.{reply_word};
ghost use Rattle.journal_writer.specs.Texts.{spaced};

use itoa::Buffer;
use serial_terms::Reply;
use std::alloc::AllocError;

pub(crate) fn push_number(text: &mut Vec<u8>, number: u64) -> Result<(), AllocError>
    ensures { OnOk result (text.new.items ≡ text.old.items ++ spaced (decimal number)) }
{
    text.push(b' ')?;
    let mut buffer = Buffer::new();
    text.extend_from_slice(buffer.format(number).as_bytes())
}

pub(crate) fn push_numbers(text: &mut Vec<u8>, numbers: &[u64]) -> Result<(), AllocError>
    ensures { OnOk result (text.new.items ≡ text.old.items ++ flat_map (λ n. spaced (decimal n)) numbers.now) }
{
    for number in numbers {
        push_number(text, *number)?;
    }
    Ok(())
}

// What a call was answered. A call that has no answer has no word for it.
pub(crate) fn push_reply(text: &mut Vec<u8>, reply: Reply) -> Result<(), AllocError>
    ensures { OnOk result (text.new.items ≡ text.old.items ++ spaced (reply_word reply)) }
{
    match reply {
        Reply::Nothing => text.extend_from_slice(b" "),
        Reply::Absent => text.extend_from_slice(b" -"),
        Reply::Value(value) => push_number(text, value),
        Reply::Flag(true) => text.extend_from_slice(b" yes"),
        Reply::Flag(false) => text.extend_from_slice(b" no"),
    }
}
