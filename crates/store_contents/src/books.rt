//! The books of a pass as records of calls with their keys.
ghost use Rattle.std.specs.Prelude.{◌≡◌, IfOk};
ghost use Rattle.cell_table.specs.Pass.{IsSole};
ghost use Rattle.cell_table.specs.Seats.{noted_all};
ghost use Rattle.serial_terms.specs.Histories.{entries_of};
ghost use Rattle.serial_terms.specs.Renaming.{by_key, entries_with};
ghost use Rattle.store_contents.specs.Closed.{books_by_key};
ghost use Rattle.store_history.specs.Books.{records_from};
ghost use Rattle.store_history.specs.Records.{books_in};

use cell_table::{Entry, Pass};
use serial_terms::{Done, PlainList, Record};
use std::alloc::{AllocError, Global};
use store_history::RecordBook;
use store_meaning::{Noted, Purpose, StoreMeaning};

/// The calls with their keys.
fn dones_of(alloc: Global, notes: &[Noted]) -> Result<PlainList<Done>, AllocError>
    ensures { IfOk result (λ dones. dones ≡ by_key notes.now) }
{
    let mut dones = Vec::with_capacity(alloc, notes.len())?;
    for note in notes {
        dones.push(note.done)?;
    }
    Ok(PlainList::from_vec(dones))
}

/// The record of an entry.
fn record_of(
    alloc: Global,
    caller: u32,
    index: u64,
    entry: &Entry<Noted>,
) -> Result<Record, AllocError>
    ensures { IfOk result (λ r. r ≡ record { caller = caller; index = index; place = entry.now.place; writer = entry.now.writer; dones = by_key entry.now.dones.items }) }
{
    let dones = dones_of(alloc, entry.dones.as_slice())?;
    Ok(Record {
        caller,
        index,
        place: entry.place,
        writer: entry.writer,
        dones,
    })
}

/// The records of a caller's entries, with the indices 0, 1 and so on.
#[tactic(auto, using(crate::proofs::Booking::record_more))]
fn records_of(
    alloc: Global,
    caller: u32,
    entries: &[Entry<Noted>],
) -> Result<Vec<Record>, AllocError>
    ensures { IfOk result (λ records. entries_of records.items ≡ entries_with by_key (records_from (λ notes. notes) caller 0 (noted_all entries.now))) }
{
    let mut records = Vec::with_capacity(alloc, entries.len())?;
    for (index, entry) in entries.iter().enumerate() {
        records.push(record_of(alloc, caller, index as u64, entry)?)?;
    }
    Ok(records)
}

/// The records of each caller. A pass that has every caller number has the numbers 0, 1 and so on.
pub(crate) fn record_books<P: Purpose>(
    alloc: Global,
    pass: &Pass<StoreMeaning<P>>,
) -> Result<Vec<RecordBook>, AllocError>
    requires { IsSole pass.now }
    ensures { IfOk result (λ books. books_in books.items ≡ books_by_key pass.now) }
{
    pass.legal_law();
    let callers = pass.callers_held();
    let mut books = Vec::with_capacity(alloc, callers as usize)?;
    for caller in 0..callers {
        let records = records_of(alloc, caller, pass.entries(caller))?;
        books.push(RecordBook { caller, records })?;
    }
    Ok(books)
}
