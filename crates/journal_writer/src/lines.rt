// The lines of a journal. Each is written with its line feed.
ghost use Rattle.std.specs.Prelude.{◌≡◌, ◌++◌, OnOk};
ghost use Rattle.std.specs.List.{flat_map};
ghost use Rattle.serial_terms.specs.Histories.{entry_of};
ghost use Rattle.serial_terms.specs.Sights.{seen_of};
ghost use Rattle.journal_terms.specs.Text.{end_words, record_text, sight_text, writer_word};
ghost use Rattle.journal_writer.specs.Texts.{ended, spaced};

use crate::calls::push_calls;
use crate::words::{push_number, push_numbers};
use serial_terms::{Record, Sight, SightEnd};
use std::alloc::AllocError;

fn push_writer(text: &mut Vec<u8>, writer: bool) -> Result<(), AllocError>
    ensures { OnOk result (text.new.items ≡ text.old.items ++ spaced (writer_word writer)) }
{
    text.extend_from_slice(if writer { b" w" } else { b" r" })
}

fn push_record(text: &mut Vec<u8>, committed: &Record) -> Result<(), AllocError>
    ensures { OnOk result (text.new.items ≡ text.old.items ++ ended (record_text (entry_of committed.now))) }
{
    text.push(b't')?;
    push_number(text, committed.place)?;
    push_writer(text, committed.writer)?;
    push_number(text, u64::from(committed.caller))?;
    push_number(text, committed.index)?;
    text.push(b':')?;
    push_calls(text, committed.dones.as_slice())?;
    text.push(b'\n')?;
    Ok(())
}

/// Appends a line for each record.
pub(crate) fn push_records(text: &mut Vec<u8>, records: &[Record]) -> Result<(), AllocError>
    ensures { OnOk result (text.new.items ≡ text.old.items ++ flat_map (λ r. ended (record_text (entry_of r))) records.now) }
{
    for committed in records {
        push_record(text, committed)?;
    }
    Ok(())
}

fn push_end(text: &mut Vec<u8>, end: SightEnd) -> Result<(), AllocError>
    ensures { OnOk result (text.new.items ≡ text.old.items ++ flat_map spaced (end_words end)) }
{
    match end {
        SightEnd::Aborted => text.extend_from_slice(b" a"),
        SightEnd::Refused => text.extend_from_slice(b" c"),
        SightEnd::Full {
            part,
            length,
            adding,
        } => {
            text.extend_from_slice(b" f")?;
            push_numbers(text, &[u64::from(part), length, adding])
        }
        SightEnd::Child => text.extend_from_slice(b" k"),
    }
}

fn push_sight(text: &mut Vec<u8>, sight: &Sight) -> Result<(), AllocError>
    ensures { OnOk result (text.new.items ≡ text.old.items ++ ended (sight_text (seen_of sight.now))) }
{
    text.push(b's')?;
    push_number(text, sight.place)?;
    push_end(text, sight.end)?;
    push_number(text, u64::from(sight.caller))?;
    push_number(text, sight.after)?;
    text.push(b':')?;
    push_calls(text, sight.dones.as_slice())?;
    text.push(b'\n')?;
    Ok(())
}

/// Appends a line for each sight.
pub(crate) fn push_sights(text: &mut Vec<u8>, sights: &[Sight]) -> Result<(), AllocError>
    ensures { OnOk result (text.new.items ≡ text.old.items ++ flat_map (λ v. ended (sight_text (seen_of v))) sights.now) }
{
    for sight in sights {
        push_sight(text, sight)?;
    }
    Ok(())
}
