//! A transfer between two cells by the public calls alone, at a meaning that not all cells have.
ghost use Rattle.std.specs.Prelude.{◌≡◌, ℕ, ◌+◌, ◌<◌, ◌≤◌, [], ◌∷◌, true, false, length, slice_index, IfOk};
ghost use Rattle.cell_table.specs.Sorted.{insert_by};
ghost use Rattle.cell_table.specs.Cells.{has};
ghost use Rattle.cell_table.specs.Rule.{cells_of};
ghost use Rattle.cell_table.specs.declared.view.Stage.TheVariants.{Open};
ghost use Rattle.cell_table.specs.Steps.{IsIdle, Reads, Grows, cell_key};
ghost use Rattle.cell_table.specs.Pass.{IsPassOf, IsSole, new_noted, note};

use crate::meaning::Meaning;
use crate::pass::Pass;
use crate::table::CellTable;
use std::alloc::{AllocError, Global};
use std::test::Fail;

/// The cells keep their sum.
#[derive(Drop)]
struct FixedSum {
    sum: u64,
}

impl Meaning for FixedSum {
    type Done = u64;

    ghost use Rattle.std.specs.Prelude.{◌≡◌, sum};
    ghost use Rattle.cell_table.specs.Transfer.{IsTransfer, keeps_sum};

    ghost lawful = { λ m cells. sum cells ≡ m.sum };

    ghost explains = { λ m observations writes dones. IsTransfer observations writes };

    ghost keeps_lawful = { λ m cells observations writes dones f h e. keeps_sum m.sum cells observations writes f h e };
}

// Takes cell 0 where it is free, and gives it back as it was.
fn give_up(table: &CellTable<FixedSum>, pass: &mut Pass<FixedSum>)
    requires of { IsPassOf table.now pass.old }
    requires cell { 0 < length table.now.opening }
    requires idle { IsIdle pass.old.view }
    requires place { 0 < pass.old.places }
    ensures of { IsPassOf table.now pass.new }
    ensures idle { IsIdle pass.new.view }
    ensures books { (pass.new.books ≡ pass.old.books) × (pass.new.view.books ≡ pass.old.view.books) }
{
    if let Ok(()) = table.take_lock(pass, 0, 0) {
        table.give_back(pass, 0);
    }
}

// A table of the cells 5 and 6 whose two callers parted and met again, and the pass of both.
fn met_again(alloc: Global) -> Result<(CellTable<FixedSum>, Pass<FixedSum>), AllocError>
    ensures table { IfOk result (λ t. (t.0.opening ≡ 5 ∷ 6 ∷ []) × IsPassOf t.0 t.1) }
    ensures pass { IfOk result (λ t. IsSole t.1 × IsIdle t.1.view × (0 < t.1.view.draws) × (8 ≤ t.1.places)) }
    ensures books { IfOk result (λ t. t.1.books ≡ new_noted 0 2) }
{
    let meaning = FixedSum { sum: 11 };
    let (table, mut first) = CellTable::open(alloc, meaning, &[5, 6], 2)?;
    let mut second = first.split(alloc, &table, 1)?;
    give_up(&table, &mut second);
    first.join(&table, second);
    Ok((table, first))
}

// Takes a cell that nobody wrote, and looks at its value.
fn hold(table: &CellTable<FixedSum>, pass: &mut Pass<FixedSum>, cell: u32) -> u64
    requires of { IsPassOf table.now pass.old }
    requires cell { cell < length table.now.opening }
    requires sole { IsSole pass.old × (pass.old.books ≡ new_noted 0 2) }
    requires free { (pass.old.view.stage ≡ Open) × (has cell (cells_of pass.old.view.held) ≡ false) }
    requires place { 0 < pass.old.places }
    ensures of { IsPassOf table.now pass.new }
    ensures held { (pass.new.view.stage ≡ Open) × (pass.new.view.held ≡ insert_by cell_key (cell, 0) pass.old.view.held) }
    ensures value { (result ≡ slice_index table.now.opening cell) × Reads pass.new.view cell 0 result }
    ensures grows { Grows pass.old.view pass.new.view }
    ensures same { (pass.new.books ≡ pass.old.books) × (pass.new.view.draws ≡ pass.old.view.draws) × (pass.new.reserved ≡ pass.old.reserved) × (pass.new.view.total ≡ pass.old.view.total) × (pass.new.places + 1 ≡ pass.old.places) }
{
    let Ok(()) = table.take_lock(pass, cell, 0) else {
        unreachable!()
    };
    let value = table.look_value(pass, cell);
    pass.alone_law();
    value
}

// Draws, plans, stores and gives back: one unit goes from cell 0 to cell 1.
fn decide(
    table: &CellTable<FixedSum>,
    pass: &mut Pass<FixedSum>,
    observations: Vec<(u32, u64), Global>,
    writes: Vec<(u32, u64), Global>,
    dones: Vec<u64, Global>,
)
    requires of { IsPassOf table.now pass.old }
    requires cells { table.now.opening ≡ 5 ∷ 6 ∷ [] }
    requires books { pass.old.books ≡ new_noted 0 2 }
    requires held { (pass.old.view.stage ≡ Open) × (pass.old.view.held ≡ (0, 0) ∷ (1, 0) ∷ []) }
    requires seen { Reads pass.old.view 0 0 5 × Reads pass.old.view 1 0 6 }
    requires room { (0 < pass.old.view.draws) × (0 < pass.old.reserved) }
    requires plan { (observations.items ≡ (0, 5) ∷ (1, 6) ∷ []) × (writes.items ≡ (0, 4) ∷ (1, 7) ∷ []) }
    ensures of { IsPassOf table.now pass.new }
    ensures idle { IsIdle pass.new.view }
    ensures total { pass.new.view.total ≡ pass.old.view.total }
    ensures books { (place : ℕ) × (pass.new.books ≡ note place true (record { observations = observations.items; writes = writes.items; dones = dones.items }) (new_noted 0 2)) }
{
    table.draw(pass);
    pass.plan(observations, writes, dones);
    table.put_value(pass, 0, 4);
    table.put_value(pass, 1, 7);
    table.give_back(pass, 0);
    table.give_back(pass, 1);
}

/// What the cells hold after the transfer.
fn transfer(alloc: Global) -> Result<(u64, u64), AllocError>
    ensures { IfOk result (λ cells. (cells.0 ≡ 4) × (cells.1 ≡ 7)) }
{
    let (table, mut pass) = met_again(alloc)?;
    pass.reserve()?;
    let from = hold(&table, &mut pass, 0);
    let to = hold(&table, &mut pass, 1);
    let observations = vec![in alloc; (0, from), (1, to)]?;
    let writes = vec![in alloc; (0, from - 1), (1, to + 1)]?;
    decide(&table, &mut pass, observations, writes, Vec::new(alloc));
    let contents = table.close(pass);
    Ok((contents.value(0), contents.value(1)))
}

// The library's own promises say what a transfer leaves, and the run agrees.
#[test]
fn a_transfer_leaves_the_sum_as_it_was(rt: HostRuntime) -> Result<(), Fail> {
    assert_eq!(rt; transfer(rt.alloc())?, (4, 7));
    Ok(())
}

#[test]
fn a_table_tells_what_its_cells_mean(rt: HostRuntime) -> Result<(), Fail> {
    let (table, _pass) = met_again(rt.alloc())?;
    assert_eq!(rt; table.meaning().sum, 11);
    Ok(())
}
