// A whole journal.
ghost use Rattle.std.specs.Prelude.{◌≡◌, ◌++◌, List, IfOk, OnOk, map};
ghost use Rattle.serial_terms.specs.Histories.{entries_of};
ghost use Rattle.journal_terms.specs.Text.{lines_text, record_text, sight_text, sights_in, sizes_text, title};
ghost use Rattle.journal_terms.specs.Text as spec;
ghost use Rattle.journal_writer.specs.Journals.{journal_of, sights_by};
ghost use Rattle.journal_writer.specs.Texts.{ended};
ghost use Rattle.serial_terms.specs.declared.sight.Sight as declared;

use crate::lines::{push_records, push_sights};
use crate::words::push_numbers;
use serial_terms::{Record, Sight};
use std::alloc::{AllocError, Global};

/// What a run was opened with.
#[derive(Clone, Copy, Debug, PartialEq, Eq)]
pub struct Sizes {
    /// The number of tasks.
    pub tasks: u32,
    /// The number of groups.
    pub groups: u32,
    /// How many findings the log has room for.
    pub findings: u32,
}

/// The version in which a journal is written.
#[derive(Clone, Copy, Debug, PartialEq, Eq)]
pub enum Format {
    /// Version 1: the committed records alone.
    Records,
    /// Version 2: the records, and behind them the sights.
    Sights,
}

// The title of the journal.
fn push_title(text: &mut Vec<u8>, format: Format) -> Result<(), AllocError>
    ensures { OnOk result ((sights : List declared.Sight) → text.new.items ≡ text.old.items ++ ended (title (sights_by format sights))) }
{
    match format {
        Format::Records => text.extend_from_slice(b"journal 1\n"),
        Format::Sights => text.extend_from_slice(b"journal 2\n"),
    }
}

fn push_sizes(text: &mut Vec<u8>, sizes: Sizes) -> Result<(), AllocError>
    ensures { OnOk result (text.new.items ≡ text.old.items ++ ended (sizes_text sizes.tasks sizes.groups sizes.findings)) }
{
    text.extend_from_slice(b"open")?;
    let numbers = [
        u64::from(sizes.tasks),
        u64::from(sizes.groups),
        u64::from(sizes.findings),
    ];
    push_numbers(text, &numbers)?;
    text.push(b'\n')?;
    Ok(())
}

// The lines of the records.
fn push_history(text: &mut Vec<u8>, records: &[Record]) -> Result<(), AllocError>
    ensures { OnOk result (text.new.items ≡ text.old.items ++ lines_text (map record_text (entries_of records.now))) }
{
    push_records(text, records)
}

// The lines of the sights, in version 2 alone.
fn push_seen(text: &mut Vec<u8>, sights: &[Sight], format: Format) -> Result<(), AllocError>
    ensures { OnOk result (text.new.items ≡ text.old.items ++ lines_text (map sight_text (sights_in (sights_by format sights.now)))) }
{
    match format {
        Format::Records => Ok(()),
        Format::Sights => push_sights(text, sights),
    }
}

/// The journal of a run: the sizes that it was opened with, its committed records in the order of its
/// history, and in version 2 the sights in their order. Version 1 passes over the sights.
pub fn journal_text(
    alloc: Global,
    sizes: Sizes,
    records: &[Record],
    sights: &[Sight],
    format: Format,
) -> Result<Vec<u8>, AllocError>
    ensures { IfOk result (λ text. text.items ≡ spec.journal_text (journal_of sizes records.now sights.now format)) }
{
    let mut text = Vec::new(alloc);
    push_title(&mut text, format)?;
    push_sizes(&mut text, sizes)?;
    push_history(&mut text, records)?;
    push_seen(&mut text, sights, format)?;
    text.extend_from_slice(b"end\n")?;
    Ok(text)
}
