//! Callers of a store who do their lines in turn.
ghost use Rattle.std.specs.Prelude.{◌≡◌, IfOk, IfErr};
ghost use Rattle.cell_table.specs.Steps.{IsIdle};
ghost use Rattle.tx_core.specs.declared.stop.TxState.TheVariants.{Running};
ghost use Rattle.tx_store.specs.Stores.{IsPassOfStore};

use super::calls::answer;
use super::script::{Answer, Ask, Who};
use crate::{Anything, Store, StorePass, StoreTx};
use std::alloc::{AllocError, Global};
use tx_core::TxState;

/// The open attempt of a caller, or else its pass.
type Seat<'a> = Result<StoreTx<'a, Anything>, StorePass<Anything>>;

/// The first line of which the answer was another one, and which one.
pub(super) type Wrong = Option<(usize, Answer)>;

/// The pass after the lines of one caller.
pub(super) fn alone(
    alloc: Global,
    store: &Store<Anything>,
    pass: StorePass<Anything>,
    lines: &[(Ask, Answer)],
) -> (StorePass<Anything>, Wrong)
    requires pass { IsPassOfStore store.now pass × IsIdle pass.pass.view }
    ensures pass { IsPassOfStore store.now result.0 × IsIdle result.0.pass.view }
{
    let mut seat: Seat = Err(pass);
    let mut wrong = None;
    for (at, line) in lines.iter().enumerate() {
        let (after, got) = step(alloc, store, seat, line.0);
        seat = after;
        wrong = first_wrong(wrong, at, got, line.1);
    }
    (rested(seat), wrong)
}

/// The passes after the lines of two callers.
pub(super) fn in_turn(
    alloc: Global,
    store: &Store<Anything>,
    first: StorePass<Anything>,
    second: StorePass<Anything>,
    lines: &[(Who, Ask, Answer)],
) -> (StorePass<Anything>, StorePass<Anything>, Wrong)
    requires first { IsPassOfStore store.now first × IsIdle first.pass.view }
    requires second { IsPassOfStore store.now second × IsIdle second.pass.view }
    ensures first { IsPassOfStore store.now result.0 × IsIdle result.0.pass.view }
    ensures second { IsPassOfStore store.now result.1 × IsIdle result.1.pass.view }
{
    let mut one: Seat = Err(first);
    let mut other: Seat = Err(second);
    let mut wrong = None;
    for (at, line) in lines.iter().enumerate() {
        let got = match line.0 {
            Who::First => {
                let (after, got) = step(alloc, store, one, line.1);
                one = after;
                got
            }
            Who::Second => {
                let (after, got) = step(alloc, store, other, line.1);
                other = after;
                got
            }
        };
        wrong = first_wrong(wrong, at, got, line.2);
    }
    (rested(one), rested(other), wrong)
}

fn first_wrong(wrong: Wrong, at: usize, got: Answer, wanted: Answer) -> Wrong {
    if wrong.is_none() && got != wanted {
        return Some((at, got));
    }
    wrong
}

// What a caller does, and what it is answered.
fn step<'a>(
    alloc: Global,
    store: &'a Store<Anything>,
    seat: Seat<'a>,
    ask: Ask,
) -> (Seat<'a>, Answer)
    requires begun { IfOk seat (λ t. t.store ≡ store.now) }
    requires idle { IfErr seat (λ p. IsPassOfStore store.now p × IsIdle p.pass.view) }
    ensures begun { IfOk result.0 (λ t. t.store ≡ store.now) }
    ensures idle { IfErr result.0 (λ p. IsPassOfStore store.now p × IsIdle p.pass.view) }
{
    match seat {
        Ok(tx) => go_on(tx, ask),
        Err(pass) => begin(alloc, store, pass, ask),
    }
}

fn begin<'a>(
    alloc: Global,
    store: &'a Store<Anything>,
    pass: StorePass<Anything>,
    ask: Ask,
) -> (Seat<'a>, Answer)
    requires pass { IsPassOfStore store.now pass × IsIdle pass.pass.view }
    ensures begun { IfOk result.0 (λ t. t.store ≡ store.now) }
    ensures idle { IfErr result.0 (λ p. IsPassOfStore store.now p × IsIdle p.pass.view) }
{
    if ask != Ask::Begin || pass.draws_left() == 0 {
        return (Err(pass), Answer::Unfit);
    }
    match StoreTx::begin(alloc, store, pass) {
        Ok(tx) => (Ok(tx), Answer::Done),
        Err((pass, AllocError)) => (Err(pass), Answer::Unfit),
    }
}

fn go_on<'a>(tx: StoreTx<'a, Anything>, ask: Ask) -> (Seat<'a>, Answer)
    ensures begun { IfOk result.0 (λ t. t.store ≡ tx.entry.store) }
    ensures idle { IfErr result.0 (λ p. IsPassOfStore tx.entry.store p × IsIdle p.pass.view) }
{
    if ask == Ask::Abort {
        return (Err(tx.abort()), Answer::Done);
    }
    if tx.state() != TxState::Running {
        return (Ok(tx), Answer::Unfit);
    }
    if ask == Ask::Commit {
        let (pass, got) = committed(tx);
        return (Err(pass), got);
    }
    let mut tx = tx;
    tx.tells_law();
    let got = answer(&mut tx, ask);
    (Ok(tx), got)
}

fn committed(tx: StoreTx<'_, Anything>) -> (StorePass<Anything>, Answer)
    requires running { tx.attempt.state ≡ Running }
    ensures { IsPassOfStore tx.entry.store result.0 × IsIdle result.0.pass.view }
{
    match tx.commit() {
        Ok((pass, receipt)) => (pass, Answer::Committed(receipt)),
        Err((pass, end)) => (pass, Answer::Refused(end)),
    }
}

// The pass of a caller who goes home.
fn rested(seat: Seat<'_>) -> StorePass<Anything>
    requires idle { IfErr seat (λ p. IsIdle p.pass.view) }
    ensures begun { IfOk seat.entry (λ t. IsPassOfStore t.store result × IsIdle result.pass.view) }
    ensures idle { IfErr seat.entry (λ p. result ≡ p) }
{
    match seat {
        Ok(tx) => tx.abort(),
        Err(pass) => pass,
    }
}
