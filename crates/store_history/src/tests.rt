//! A store of plain cells alone, of which the first has a limit, and books that are merged.

ghost use Rattle.std.specs.Prelude.{◌≡◌, ◌≤◌, ◌<◌, [], ◌∷◌, length, IfOk};
ghost use Rattle.cell_table.specs.declared.view.Stage.TheVariants.{Open};
ghost use Rattle.cell_table.specs.Pass.{IsPassOf, IsSole};
ghost use Rattle.cell_table.specs.Steps.{IsIdle};
ghost use Rattle.serial_terms.specs.declared.call.Call.TheVariants.{CellPut};
ghost use Rattle.serial_terms.specs.declared.call.Reply.TheVariants.{Nothing};
ghost use Rattle.serial_terms.specs.Entries.{AreBooks};
ghost use Rattle.serial_terms.specs.Serial.{outside};
ghost use Rattle.store_history.specs.Records.{books_in};

use crate::close::close_with_history;
use crate::laws::{books_by_key_law, one_history_law, whole_history_law};
use crate::meaning::StateMeaning;
use crate::merge::{RecordBook, merge_books, room_for};
use cell_table::{CellTable, Meaning, Pass};
use serial_terms::purpose::Lawful;
use serial_terms::{Call, Done, PlainList, Record, Reply};
use std::alloc::{AllocError, Global};
use std::test::Fail;

/// The first cell is within the limit. A record puts one value into it.
#[derive(Drop)]
struct LimitedCell {
    limit: u64,
}

impl Meaning for LimitedCell {
    type Done = Done;

    ghost use Rattle.store_history.specs.Plain.{IsPlainLawful, IsPlainRecord, keeps_limit};

    ghost lawful = { λ m cells. IsPlainLawful m.limit cells };

    ghost explains = { λ m observations writes dones. IsPlainRecord m.limit observations writes dones };

    ghost keeps_lawful = { λ m cells observations writes dones l h e. keeps_limit m.limit cells observations writes dones l h e };
}

impl Lawful for LimitedCell {
    ghost use Rattle.store_history.specs.Plain.{IsLimited, IsPut};

    ghost lawful_state = { λ m s. IsLimited m.limit s };

    ghost allowed = { λ m dones. IsPut m.limit dones };
}

impl StateMeaning for LimitedCell {
    ghost use Rattle.store_history.specs.Plain.{unkeyed, IsThere, plain_state, plain_within, put_by_name};

    ghost named = { unkeyed };

    ghost formed = { λ m. IsThere };

    ghost state_of = { λ m. plain_state };

    ghost within = { λ m cells f. plain_within cells f };

    ghost lawful_means = { λ m cells l. l };

    ghost explains_means = { λ m observations writes dones e. ((e.0, put_by_name m.limit dones e.0), e.1) };
}

// Puts the value into the first cell, where its lock can be taken.
fn put(
    table: &CellTable<LimitedCell>,
    pass: &mut Pass<LimitedCell>,
    observations: Vec<(u32, u64), Global>,
    writes: Vec<(u32, u64), Global>,
    dones: Vec<Done, Global>,
    value: u64,
)
    requires of { IsPassOf table.now pass.old }
    requires limit { value ≤ table.now.meaning.limit }
    requires cells { table.now.opening ≡ 0 ∷ [] }
    requires idle { IsIdle pass.old.view }
    requires room { (0 < pass.old.places) × (0 < pass.old.view.draws) × (0 < pass.old.reserved) }
    requires plan { (observations.items ≡ []) × (writes.items ≡ (0, value) ∷ []) × (dones.items ≡ outside (CellPut 0 value) Nothing ∷ []) }
    ensures of { IsPassOf table.now pass.new }
    ensures idle { IsIdle pass.new.view }
    ensures callers { (length pass.new.books ≡ length pass.old.books) × (pass.new.view.total ≡ pass.old.view.total) }
{
    if let Ok(()) = table.take_lock(pass, 0, 0) {
        table.draw(pass);
        pass.plan(observations, writes, dones);
        table.put_value(pass, 0, value);
        table.give_back(pass, 0);
    }
}

/// What the first cell is left with. That it is within the limit follows from the history alone.
fn left_after(alloc: Global, value: u64) -> Result<u64, AllocError>
    requires { value ≤ 9 }
    ensures { IfOk result (λ left. left ≤ 9) }
{
    let (table, mut pass) = CellTable::open(alloc, LimitedCell { limit: 9 }, &[0], 1)?;
    pass.reserve()?;
    let put_value = Done {
        call: Call::CellPut { cell: 0, value },
        reply: Reply::Nothing,
        child: false,
    };
    let writes = vec![in alloc; (0, value)]?;
    let dones = vec![in alloc; put_value]?;
    put(&table, &mut pass, Vec::new(alloc), writes, dones, value);
    let meaning = table.meaning();
    one_history_law(&pass, meaning);
    whole_history_law(&pass, meaning);
    books_by_key_law(&pass);
    let contents = close_with_history(table, pass);
    Ok(contents.value(0))
}

#[test]
fn a_value_within_the_limit_is_left_in_its_cell(rt: HostRuntime) -> Result<(), Fail> {
    assert_eq!(rt; left_after(rt.alloc(), 5)?, 5);
    Ok(())
}

// A record without calls.
fn record_at(alloc: Global, caller: u32, index: u64, place: u64, writer: bool) -> Record
    ensures { result ≡ record { caller = caller; index = index; place = place; writer = writer; dones = [] } }
{
    Record {
        caller,
        index,
        place,
        writer,
        dones: PlainList::from_vec(Vec::new(alloc)),
    }
}

// The books of two callers that meet at place 3.
fn two_books(alloc: Global) -> Result<Vec<RecordBook>, AllocError>
    ensures { IfOk result (λ books. AreBooks (books_in books.items)) }
{
    let first = vec![in alloc;
        record_at(alloc, 0, 0, 1, true),
        record_at(alloc, 0, 1, 3, false),
        record_at(alloc, 0, 2, 3, false),
    ]?;
    let second = vec![in alloc;
        record_at(alloc, 1, 0, 0, false),
        record_at(alloc, 1, 1, 3, true),
        record_at(alloc, 1, 2, 3, false),
    ]?;
    let first = RecordBook {
        caller: 0,
        records: first,
    };
    let second = RecordBook {
        caller: 1,
        records: second,
    };
    let books = vec![in alloc; first, second]?;
    Ok(books)
}

#[test]
fn merged_records_stand_by_place_then_the_writer_then_by_caller_and_index(
    rt: HostRuntime,
) -> Result<(), Fail> {
    let alloc = rt.alloc();
    let books = two_books(alloc)?;
    let room = room_for(alloc, books.as_slice())?;
    let history = merge_books(books, room);
    let mut order = Vec::new(alloc);
    for entry in &history {
        order.push((entry.caller, entry.index))?;
    }
    let expected = vec![in alloc; (1, 0), (0, 0), (1, 1), (0, 1), (0, 2), (1, 2)]?;
    assert_eq!(rt; order, expected);
    Ok(())
}
