//! Children of attempts over cells.
ghost use Rattle.std.specs.Prelude.{◌≡◌, ◌<◌, true, [], length, MatchOption};
ghost use Rattle.cell_table.specs.Steps.{IsIdle};
ghost use Rattle.cell_table.specs.Pass.{IsPassOf};
ghost use Rattle.tx_core.specs.Calls.{MayCommit, NothingWaits};

use crate::{ChildBody, NestEnd, nested};
use cell_table::{CellTable, Pass};
use std::alloc::Global;
use std::test::Fail;
use tx_core::{Stop, Tx, Untold};

// Writes 22 to cell 1, and runs out of memory then.
#[derive(Drop)]
struct Overwrites {
    wrote: bool,
    ran_out: bool,
}

impl<'a> ChildBody<Tx<'a, Untold>> for Overwrites {
    type Out = ();

    ghost can_run = { λ b table calls pending. 1 < length table.opening };

    ghost runs = { λ b added out. added ≡ [] };

    ghost ran_out = { λ b. b.ran_out ≡ true };

    fn body(&mut self, tx: &mut Tx<'a, Untold>) -> Result<(), Stop> {
        self.wrote = tx.write(1, 22).is_ok();
        self.ran_out = true;
        Err(Stop::Memory)
    }
}

// Reads cell 0. Before its first run another caller writes 6 to the cell, and commits.
#[derive(Drop)]
struct ReadsBehindAnother<'a> {
    alloc: Global,
    table: &'a CellTable<Untold>,
    other: Option<Pass<Untold>>,
    ran_out: bool,
}

impl<'a> ChildBody<Tx<'a, Untold>> for ReadsBehindAnother<'a> {
    type Out = u64;

    ghost can_run = { λ b table calls pending. (0 < length table.opening) × (0 < length b.table.now.opening) × MatchOption b.other (Unit {0}) (λ p. IsPassOf b.table.now p × IsIdle p.view × (0 < p.view.draws)) };

    ghost runs = { λ b added out. added ≡ [] };

    ghost ran_out = { λ b. b.ran_out ≡ true };

    fn body(&mut self, tx: &mut Tx<'a, Untold>) -> Result<u64, Stop> {
        if let Some(pass) = self.other.take() {
            overwrite(self.alloc, self.table, pass);
        }
        match tx.read(0) {
            Ok(value) => Ok(value),
            Err(stop) => {
                self.ran_out = stop == Stop::Memory;
                Err(stop)
            }
        }
    }
}

// Another caller writes 6 to cell 0, and commits, unless it is stopped.
fn overwrite(alloc: Global, table: &CellTable<Untold>, pass: Pass<Untold>)
    requires of { IsPassOf table.now pass }
    requires idle { IsIdle pass.view }
    requires draw { 0 < pass.view.draws }
    requires cell { 0 < length table.now.opening }
{
    let Ok(mut tx) = Tx::begin(alloc, table, pass) else {
        return;
    };
    match tx.write(0, 6) {
        Ok(()) => commit(tx),
        Err(_) => {
            tx.abort();
        }
    }
}

// Commits an attempt that writes, unless it is stopped.
fn commit(mut tx: Tx<'_, Untold>)
    requires callable { MayCommit tx }
    requires resolved { NothingWaits tx }
    requires some_write { 0 < length tx.writes }
    requires left { 0 < tx.pass.view.draws }
{
    match tx.lock_writes() {
        Ok(()) => {}
        Err(_) => {
            tx.abort();
            return;
        }
    }
    match tx.draw_and_check() {
        Ok(_) => {
            tx.publish();
        }
        Err(_) => {
            tx.abort();
        }
    }
}

#[test]
fn a_dropped_child_leaves_the_write_of_its_parent(rt: HostRuntime) -> Result<(), Fail> {
    let (table, pass) = CellTable::open(rt.alloc(), Untold, &[10, 20], 1)?;
    let Ok(mut tx) = Tx::begin(rt.alloc(), &table, pass) else {
        panic!(rt; "the attempt begins");
    };
    tx.write(1, 21).expect(&rt, "cell 1 is written");
    let mut child = Overwrites {
        wrote: false,
        ran_out: false,
    };
    let Err(NestEnd::Memory) = nested(&mut tx, &mut child, 3) else {
        panic!(rt; "the child runs out of memory");
    };
    assert!(rt; child.wrote);
    assert_eq!(rt; tx.read(1), Ok(21));
    tx.abort();
    Ok(())
}

// The second caller holds cell 0 while two children try to read it.
#[test]
fn a_child_is_tried_as_often_as_asked(rt: HostRuntime) -> Result<(), Fail> {
    let (table, mut first) = CellTable::open(rt.alloc(), Untold, &[5, 4], 2)?;
    let second = first.split(rt.alloc(), &table, 1)?;
    let Ok(mut other) = Tx::begin(rt.alloc(), &table, second) else {
        panic!(rt; "the other attempt begins");
    };
    assert_eq!(rt; other.hold(0), Ok(5));
    let Ok(mut tx) = Tx::begin(rt.alloc(), &table, first) else {
        panic!(rt; "the attempt begins");
    };
    let mut child = ReadsBehindAnother {
        alloc: rt.alloc(),
        table: &table,
        other: None,
        ran_out: false,
    };
    let Err(NestEnd::Spent { tries, last }) = nested(&mut tx, &mut child, 2) else {
        panic!(rt; "the children meet the held cell");
    };
    assert_eq!(rt; tries, 2);
    assert_eq!(rt; last, Stop::Held { cell: 0, owner: 1 });
    other.abort();
    tx.abort();
    Ok(())
}

// The first try meets the version 1 of cell 0. The second one reads it, since the version is raised by then.
#[test]
fn a_child_is_tried_again_at_a_raised_version(rt: HostRuntime) -> Result<(), Fail> {
    let (table, mut first) = CellTable::open(rt.alloc(), Untold, &[5], 2)?;
    let second = first.split(rt.alloc(), &table, 1)?;
    assert!(rt; second.draws_left() > 0);
    let Ok(mut tx) = Tx::begin(rt.alloc(), &table, first) else {
        panic!(rt; "the attempt begins");
    };
    let mut child = ReadsBehindAnother {
        alloc: rt.alloc(),
        table: &table,
        other: Some(second),
        ran_out: false,
    };
    assert_eq!(rt; nested(&mut tx, &mut child, 2), Ok(6));
    assert_eq!(rt; tx.version(), 1);
    tx.abort();
    Ok(())
}
