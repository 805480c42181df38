//! What a thread does: it places orders, or carries them out.
ghost use Rattle.std.specs.Prelude.{◌<◌};
ghost use Rattle.store_example.specs.Passes.{IsAtWork, Worked};

use std::alloc::Global;
use store_bodies::{Bank, CarryOut, PlaceOrder, Progress};
use tx_store::{RunEnd, Store, StorePass, atomically};

/// How many attempts one call of `atomically` makes.
const TRIES: u32 = 1_000;

/// Carries out orders until there is none, at most 64.
pub fn work(alloc: Global, store: &Store<Bank>, pass: StorePass<Bank>) -> StorePass<Bank>
    requires { IsAtWork store.now pass }
    ensures { Worked store.now pass result }
{
    let mut pass = pass;
    for _ in 0..64u32 {
        let (next, more) = turn(alloc, store, pass);
        pass = next;
        if !more {
            return pass;
        }
    }
    pass
}

// One order, and whether there may be more.
fn turn(alloc: Global, store: &Store<Bank>, pass: StorePass<Bank>) -> (StorePass<Bank>, bool)
    requires { IsAtWork store.now pass }
    ensures { Worked store.now pass result.0 }
{
    if pass.draws_left() < u64::from(TRIES) {
        return (pass, false);
    }
    match atomically(alloc, store, pass, &mut CarryOut, TRIES) {
        Ok((pass, progress)) => (pass, progress != Progress::NoOrder),
        Err((pass, RunEnd::Spent { .. })) => (pass, true),
        Err((pass, _)) => (pass, false),
    }
}

/// Places 20 orders, from each sender in turn.
pub fn place_orders(alloc: Global, store: &Store<Bank>, pass: StorePass<Bank>) -> StorePass<Bank>
    requires { IsAtWork store.now pass }
    ensures { Worked store.now pass result }
{
    let mut pass = pass;
    for i in 0..20u64 {
        pass = place(alloc, store, pass, i % 4 + 4 * (3 * i % 4) + 16 * (1 + i));
    }
    pass
}

// Places an order, unless there is no memory or no room for it.
fn place(alloc: Global, store: &Store<Bank>, pass: StorePass<Bank>, order: u64) -> StorePass<Bank>
    requires work { IsAtWork store.now pass }
    requires order { order < 1000 }
    ensures { Worked store.now pass result }
{
    if pass.draws_left() < u64::from(TRIES) {
        return pass;
    }
    match atomically(alloc, store, pass, &mut PlaceOrder { order }, TRIES) {
        Ok((pass, ())) => pass,
        Err((pass, _)) => pass,
    }
}
