//! How a store ends: the history of its records, and what it held.
ghost use Rattle.std.specs.Prelude.{◌≡◌, IfOk};
ghost use Rattle.cell_table.specs.Pass.{IsPassOf, IsSole};
ghost use Rattle.cell_table.specs.Steps.{IsIdle};
ghost use Rattle.serial_terms.specs.Histories.{entries_of};
ghost use Rattle.store_meaning.specs.Claims.{BooksAreClaimed};
ghost use Rattle.store_contents.specs.Closed.{books_by_key, IsClosed};

use crate::books::record_books;
use crate::read::read_contents;
use crate::room::ContentsRoom;
use cell_table::{CellTable, Pass};
use key_directory::{Directory, KeyPass};
use serial_terms::laws::{records_keep_sizes_law, renaming_keeps_histories_law};
use serial_terms::{Record, StoreState};
use std::alloc::{AllocError, Global};
use std::marker::Model;
use store_history::{RecordBook, books_by_key_law, close_with_history, merge_books, room_for};
use store_layout::laws::opening_stands_law;
use store_meaning::{Purpose, StoreMeaning};

/// The records of a pass, room for the list of them, and room for the contents.
#[derive(Drop)]
pub struct ClosingRoom {
    books: Vec<RecordBook>,
    records: Vec<Record>,
    contents: ContentsRoom,
}

impl Model for ClosingRoom {
    ghost use Rattle.std.specs.Prelude.{◌≡◌, ◌≤◌, [], vec_capacity};
    ghost use Rattle.store_contents.specs.Closed.{RoomView};
    ghost use Rattle.store_history.specs.Records.{books_in, record_count};

    ghost Value = { RoomView };

    ghost view = { λ r. record { shape = r.contents; books = books_in r.books.items } };

    ghost invariant = { λ r. (r.records.items ≡ []) × (record_count r.books.items ≤ vec_capacity r.records) };
}

impl ClosingRoom {
    /// All the memory that the end of a store takes.
    pub fn of<P: Purpose>(
        alloc: Global,
        table: &CellTable<StoreMeaning<P>>,
        pass: &Pass<StoreMeaning<P>>,
    ) -> Result<ClosingRoom, AllocError>
        requires { IsSole pass.now }
        ensures { IfOk result (λ room. room ≡ record { shape = table.now.meaning.plan; books = books_by_key pass.now }) }
    {
        let books = record_books(alloc, pass)?;
        let records = room_for(alloc, books.as_slice())?;
        let contents = ContentsRoom::of(alloc, &table.meaning().plan)?;
        Ok(ClosingRoom {
            books,
            records,
            contents,
        })
    }
}

/// The end of a store's table and directory, by the passes that have every caller number: its records in the order of a history, and what
/// it held. The room is there before, so it takes no memory.
pub fn close_store<P: Purpose>(
    table: CellTable<StoreMeaning<P>>,
    pass: Pass<StoreMeaning<P>>,
    directory: Directory<P::Keys>,
    keys: KeyPass<P::Keys>,
    room: ClosingRoom,
) -> (Vec<Record>, StoreState)
    requires of { IsPassOf table pass × (keys.directory ≡ directory) }
    requires sole { IsSole pass × (keys.callers ≡ directory.callers) }
    requires idle { IsIdle pass.view }
    requires regions { directory.capacities ≡ table.meaning.plan.maps }
    requires claimed { BooksAreClaimed keys.claims pass.books }
    requires room { room ≡ record { shape = table.meaning.plan; books = books_by_key pass } }
    ensures { IsClosed P.lawful_state P.allowed table.meaning pass keys.claims (entries_of result.0.items) result.1 }
{
    books_by_key_law(&pass);
    keys.claims_stand_law();
    opening_stands_law();
    records_keep_sizes_law();
    renaming_keeps_histories_law();
    let ClosingRoom {
        books,
        records,
        contents,
    } = room;
    let list = directory.close(keys);
    let cells = close_with_history(table, pass);
    let state = read_contents(contents, &cells, &list);
    let history = merge_books(books, records);
    (history, state)
}
