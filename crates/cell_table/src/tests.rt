ghost use Rattle.std.specs.Prelude.{◌≡◌, ◌<◌, [], ◌∷◌, length, IfOk, OnOk, OnErr};
ghost use Rattle.cell_table.specs.declared.view.Stage.TheVariants.{Open};
ghost use Rattle.cell_table.specs.Steps.{IsIdle};
ghost use Rattle.cell_table.specs.Pass.{IsPassOf};

use crate::close::Contents;
use crate::meaning::Meaning;
use crate::pass::Pass;
use crate::table::CellTable;
use std::alloc::{AllocError, Global};
use std::test::Fail;

/// Every list of cells is lawful, and every record is explained.
#[derive(Drop)]
struct AnyCells;

impl Meaning for AnyCells {
    type Done = u64;

    ghost lawful = { λ m cells. Unit {0} };

    ghost explains = { λ m observations writes dones. Unit {0} };

    ghost keeps_lawful = { λ m cells observations writes dones a b c. tt };
}

// The greatest number goes with its share of the draws, and comes back with it.
#[test]
fn split_and_join_move_callers_and_draws(rt: HostRuntime) -> Result<(), Fail> {
    let (table, mut first) = CellTable::open(rt.alloc(), AnyCells, &[0], 4)?;
    let second = first.split(rt.alloc(), &table, 1)?;
    assert_eq!(rt; second.caller(), 3);
    assert_eq!(rt; second.callers_held(), 1);
    assert_eq!(rt; second.room(), 1);
    assert_eq!(rt; second.draws_left(), 1 << 48);
    assert_eq!(rt; first.caller(), 0);
    assert_eq!(rt; first.callers_held(), 3);
    assert_eq!(rt; first.room(), 4);
    assert_eq!(rt; first.draws_left(), 3 << 48);
    assert!(rt; !first.is_sole(&table));
    first.join(&table, second);
    assert!(rt; first.is_sole(&table));
    assert_eq!(rt; first.draws_left(), 4 << 48);
    Ok(())
}

// A lock that another caller holds shows its owner's number, and isn't taken.
#[test]
fn a_held_lock_shows_its_owner(rt: HostRuntime) -> Result<(), Fail> {
    let (table, mut first) = CellTable::open(rt.alloc(), AnyCells, &[5, 6], 2)?;
    let mut second = first.split(rt.alloc(), &table, 1)?;
    assert_eq!(rt; table.take_lock(&mut second, 0, 0), Ok(()));
    assert_eq!(rt; table.take_lock(&mut first, 0, 0), Err(3));
    assert_eq!(rt; table.look_lock(&mut first, 0), 3);
    assert_eq!(rt; table.look_value(&mut first, 0), 5);
    Ok(())
}

// An attempt that was never decided gives its cell back as it was.
#[test]
fn an_undecided_attempt_leaves_no_version(rt: HostRuntime) -> Result<(), Fail> {
    let (table, mut pass) = CellTable::open(rt.alloc(), AnyCells, &[5, 6], 2)?;
    pass.reserve()?;
    assert_eq!(rt; table.take_lock(&mut pass, 0, 0), Ok(()));
    assert_eq!(rt; table.draw(&mut pass), 1);
    table.give_back(&mut pass, 0);
    assert_eq!(rt; table.look_lock(&mut pass, 0), 0);
    let contents = table.close(pass);
    assert_eq!(rt; (contents.value(0), contents.value(1)), (5, 6));
    assert_eq!(rt; (contents.version(0), contents.version(1)), (0, 0));
    Ok(())
}

// A table of the cells 5 and 6, and its two callers apart.
fn parted(
    alloc: Global,
) -> Result<(CellTable<AnyCells>, Pass<AnyCells>, Pass<AnyCells>), AllocError>
    ensures of { IfOk result (λ t. IsPassOf t.0 t.1 × IsPassOf t.0 t.2) }
    ensures table { IfOk result (λ t. t.0.opening ≡ 5 ∷ 6 ∷ []) }
    ensures idle { IfOk result (λ t. IsIdle t.1.view × IsIdle t.2.view) }
    ensures first { IfOk result (λ t. (length t.1.books ≡ 1) × (t.1.room ≡ 2) × (t.1.view.total ≡ 2) × (0 < t.1.view.draws) × (0 < t.1.places)) }
    ensures second { IfOk result (λ t. (length t.2.books ≡ 1) × (0 < t.2.places)) }
{
    let (table, mut first) = CellTable::open(alloc, AnyCells, &[5, 6], 2)?;
    let second = first.split(alloc, &table, 1)?;
    Ok((table, first, second))
}

// Draws a version and writes 9 to cell 0, the one that the pass holds.
fn write_nine(
    table: &CellTable<AnyCells>,
    pass: &mut Pass<AnyCells>,
    writes: Vec<(u32, u64), Global>,
    observations: Vec<(u32, u64), Global>,
    dones: Vec<u64, Global>,
) -> u64
    requires of { IsPassOf table.now pass.old }
    requires cells { table.now.opening ≡ 5 ∷ 6 ∷ [] }
    requires held { (pass.old.view.stage ≡ Open) × (pass.old.view.held ≡ (0, 0) ∷ []) }
    requires room { (0 < pass.old.view.draws) × (0 < pass.old.reserved) }
    requires plan { (observations.items ≡ []) × (writes.items ≡ (0, 9) ∷ []) }
    ensures of { IsPassOf table.now pass.new }
    ensures idle { IsIdle pass.new.view }
    ensures same { (length pass.new.books ≡ length pass.old.books) × (pass.new.room ≡ pass.old.room) × (pass.new.view.total ≡ pass.old.view.total) }
{
    let version = table.draw(pass);
    pass.plan(observations, writes, dones);
    table.put_value(pass, 0, 9);
    table.give_back(pass, 0);
    version
}

// Tries to take cell 0.
fn take(table: &CellTable<AnyCells>, pass: &mut Pass<AnyCells>) -> Result<(), u64>
    requires of { IsPassOf table.now pass.old }
    requires cells { table.now.opening ≡ 5 ∷ 6 ∷ [] }
    requires idle { IsIdle pass.old.view × (0 < pass.old.places) }
    ensures of { IsPassOf table.now pass.new }
    ensures taken { OnOk result ((pass.new.view.stage ≡ Open) × (pass.new.view.held ≡ (0, 0) ∷ [])) }
    ensures refused { OnErr result (IsIdle pass.new.view × (pass.new.places ≡ pass.old.places)) }
    ensures same { (pass.new.books ≡ pass.old.books) × (pass.new.room ≡ pass.old.room) × (pass.new.view.total ≡ pass.old.view.total) × (pass.new.view.draws ≡ pass.old.view.draws) × (pass.new.reserved ≡ pass.old.reserved) }
{
    table.take_lock(pass, 0, 0)
}

// Gives back cell 0, the one that the pass holds, with nothing drawn.
fn release(table: &CellTable<AnyCells>, pass: &mut Pass<AnyCells>)
    requires of { IsPassOf table.now pass.old }
    requires cells { table.now.opening ≡ 5 ∷ 6 ∷ [] }
    requires held { (pass.old.view.stage ≡ Open) × (pass.old.view.held ≡ (0, 0) ∷ []) }
    ensures of { IsPassOf table.now pass.new }
    ensures idle { IsIdle pass.new.view }
    ensures books { pass.new.books ≡ pass.old.books }
{
    table.give_back(pass, 0);
}

// The words of cell 0.
fn words(table: &CellTable<AnyCells>, pass: &mut Pass<AnyCells>) -> (u64, u64)
    requires of { IsPassOf table.now pass.old }
    requires cells { table.now.opening ≡ 5 ∷ 6 ∷ [] }
    requires idle { IsIdle pass.old.view }
    ensures of { IsPassOf table.now pass.new }
    ensures idle { IsIdle pass.new.view }
    ensures same { (pass.new.books ≡ pass.old.books) × (pass.new.room ≡ pass.old.room) × (pass.new.view.total ≡ pass.old.view.total) × (pass.new.view.draws ≡ pass.old.view.draws) × (pass.new.places ≡ pass.old.places) }
{
    let lock = table.look_lock(pass, 0);
    (lock, table.look_value(pass, 0))
}

// The callers meet, and the table is closed.
fn meet(table: CellTable<AnyCells>, mut first: Pass<AnyCells>, second: Pass<AnyCells>) -> Contents
    requires of { IsPassOf table first × IsPassOf table second }
    requires cells { table.opening ≡ 5 ∷ 6 ∷ [] }
    requires idle { IsIdle first.view × IsIdle second.view }
    requires callers { (length first.books ≡ 1) × (length second.books ≡ 1) × (first.room ≡ 2) × (first.view.total ≡ 2) }
    ensures { length result.values ≡ 2 }
{
    first.join(&table, second);
    table.close(first)
}

// The writer of one cell: what it finds, what it stores, and what it leaves.
#[test]
fn a_writer_leaves_its_version_and_its_entry(rt: HostRuntime) -> Result<(), Fail> {
    let (table, mut first, mut second) = parted(rt.alloc())?;
    assert_eq!(rt; take(&table, &mut second), Ok(()));
    assert_eq!(rt; take(&table, &mut first), Err(3));
    release(&table, &mut second);
    assert_eq!(rt; words(&table, &mut first), (0, 5));
    first.reserve()?;
    assert_eq!(rt; take(&table, &mut first), Ok(()));
    let writes = vec![in rt.alloc(); (0, 9)]?;
    let observations = Vec::new(rt.alloc());
    let dones = Vec::new(rt.alloc());
    assert_eq!(rt;
        write_nine(&table, &mut first, writes, observations, dones),
        1
    );
    assert_eq!(rt; words(&table, &mut first), (2, 9));
    let entries = first.entries(0);
    assert_eq!(rt; entries.len(), 1);
    assert_eq!(rt; (entries[0].place, entries[0].writer), (1, true));
    assert_eq!(rt; entries[0].writes.len(), 1);
    assert_eq!(rt; entries[0].writes[0], (0, 9));
    let contents = meet(table, first, second);
    assert_eq!(rt; (contents.value(0), contents.value(1)), (9, 6));
    assert_eq!(rt; (contents.version(0), contents.version(1)), (1, 0));
    Ok(())
}
