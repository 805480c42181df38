//! The whole run: the store is opened, two threads carry out orders, and the store is closed.
ghost use Rattle.std.specs.Prelude.{◌≡◌, ◌+◌, IfOk};
ghost use Rattle.store_example.specs.Passes.{IsAtWork, Worked};

use crate::sums::{receipts_total, total_of};
use crate::work::{place_orders, work};
use std::alloc::Global;
use std::thread::{Threads, join};
use store_bodies::{Bank, RECEIPTS, RECEIVERS, SENDERS, bank_layout, bank_opens_law};
use tx_store::{OpenEnd, Store, StorePass};

/// What the accounts have at the end, and what the receipts say.
#[derive(Clone, Copy)]
pub struct AtEnd {
    pub senders: u64,
    pub receivers: u64,
    /// The sum of the receipts.
    pub received: u64,
}

/// Opens a bank, places orders, lets two threads carry them out, and closes it. The one error is want of memory.
///
/// In every interleaving the accounts still have 800 together, and the receipts sum to what the receivers gained.
pub fn run<R: Threads + Sync>(rt: &R, alloc: Global) -> Result<AtEnd, OpenEnd>
    ensures total { IfOk result (λ end. end.senders + end.receivers ≡ 800) }
    ensures receipts { IfOk result (λ end. end.received + 400 ≡ end.receivers) }
{
    bank_opens_law();
    let Ok(layout) = bank_layout(alloc) else {
        return Err(OpenEnd::Memory);
    };
    let (store, pass) = Store::open(alloc, Bank, &layout, 2)?;
    let mut pass = place_orders(alloc, &store, pass);
    let Ok(other) = pass.split(alloc, &store, 1) else {
        return Err(OpenEnd::Memory);
    };
    let seen = &store;
    let (mut pass, other) = join(
        rt,
        || -> StorePass<Bank>
            requires { IsAtWork seen.now pass }
            ensures { Worked seen.entry.now pass result }
        { work(alloc, seen, pass) },
        || -> StorePass<Bank>
            requires { IsAtWork seen.now other }
            ensures { Worked seen.entry.now other result }
        { work(alloc, seen, other) },
    );
    pass.join(&store, other);
    let Ok((_, contents)) = store.close(alloc, pass) else {
        return Err(OpenEnd::Memory);
    };
    Ok(AtEnd {
        senders: total_of(&contents, SENDERS),
        receivers: total_of(&contents, RECEIVERS),
        received: receipts_total(&contents, RECEIPTS),
    })
}
