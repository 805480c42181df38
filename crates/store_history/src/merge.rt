//! The records of all books as one list, in the order of a history.

ghost use Rattle.std.specs.Prelude.{◌≡◌, ◌≤◌, ◌^◌, [], vec_capacity, IfOk, MatchOption};
ghost use Rattle.std.specs.List.Sorted.{IsPermutation};
ghost use Rattle.serial_terms.specs.Entries.{AreBooks, IsHistoryOf};
ghost use Rattle.serial_terms.specs.Histories.{entries_of};
ghost use Rattle.store_history.specs.Records.{books_in, records_in, record_count, AreInOrder};

use serial_terms::Record;
use std::alloc::{AllocError, Global};

/// The records of one caller, the oldest first.
#[derive(Drop)]
pub struct RecordBook {
    pub caller: u32,
    pub records: Vec<Record>,
}

/// Room for all records of these books.
pub fn room_for(alloc: Global, books: &[RecordBook]) -> Result<Vec<Record>, AllocError>
    ensures { IfOk result (λ room. (room.items ≡ []) × (record_count books.now ≤ vec_capacity room)) }
{
    let Some(count) = count_of(books) else {
        return Err(AllocError);
    };
    Vec::with_capacity(alloc, count)
}

/// The number of their records, where a `usize` has it.
fn count_of(books: &[RecordBook]) -> Option<usize>
    ensures { MatchOption result (2 ^ 64 ≤ record_count books.now) (λ count. count ≡ record_count books.now) }
{
    let mut count: usize = 0;
    for book in books {
        count = count.checked_add(book.records.len())?;
    }
    Some(count)
}

/// The records of the books in the order of a history: by place, at one place the writer first, then by caller, then by
/// index. The room for them is there before, so it takes no memory.
pub fn merge_books(books: Vec<RecordBook>, room: Vec<Record>) -> Vec<Record>
    requires room { (room.items ≡ []) × (record_count books.items ≤ vec_capacity room) }
    requires books { AreBooks (books_in books.items) }
    ensures { IsHistoryOf (books_in books.items) (entries_of result.items) }
{
    let mut history = gather(books, room);
    put_in_order(&mut history);
    history
}

/// Moves the records of the books into the room.
fn gather(mut books: Vec<RecordBook>, room: Vec<Record>) -> Vec<Record>
    requires { (room.items ≡ []) × (record_count books.items ≤ vec_capacity room) }
    ensures { IsPermutation (records_in books.items) result.items }
{
    let mut history = room;
    while let Some(book) = books.pop() {
        let RecordBook {
            caller: _,
            mut records,
        } = book;
        let Ok(()) = history.append(&mut records) else {
            unreachable!()
        };
    }
    history
}

/// Puts the records in order.
fn put_in_order(records: &mut Vec<Record>)
    ensures permutation { IsPermutation records.old.items records.new.items }
    ensures order { AreInOrder records.new.items }
{
    records.sort_unstable_by_key(|record: &Record| (
        record.place,
        !record.writer,
        record.caller,
        record.index,
    ));
}
