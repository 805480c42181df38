//! What a thread does, and what came of it.
ghost use Rattle.store_benchmark.specs.Opened.{IsOpened};
ghost use Rattle.store_benchmark.specs.Passes.{IsAtWork, HasAdded};

use crate::load::Load;
use crate::transact::TRIES;
use std::alloc::Global;
use tx_store::{Anything, Purpose, RunEnd, Store, StorePass};

/// What came of a thread's transactions.
#[derive(Drop)]
pub(crate) struct Worked<P: Purpose> {
    pub pass: StorePass<P>,
    /// How many were committed.
    pub committed: u32,
    /// How many attempts were in vain.
    pub vain: u64,
    /// Why the last one wasn't committed.
    pub end: Option<RunEnd>,
}

/// So many transactions, or fewer where one isn't committed. Each one that is counted as committed added a record.
pub(crate) fn work(
    alloc: Global,
    store: &Store<Anything>,
    pass: StorePass<Anything>,
    load: Load,
    transactions: u32,
) -> Worked<Anything>
    requires opened { IsOpened store.now }
    requires work { IsAtWork store.now pass }
    ensures { HasAdded store.now result.committed pass result.pass }
{
    let mut load = load;
    let mut pass = pass;
    let mut vain = 0u64;
    let _ = pass.callers_held();
    for committed in 0..transactions {
        if pass.draws_left() < u64::from(TRIES) {
            return Worked {
                pass,
                committed,
                vain,
                end: None,
            };
        }
        match load.turn(alloc, store, pass) {
            Ok((back, runs)) => {
                pass = back;
                vain = vain.saturating_add(u64::from(runs.saturating_sub(1)));
            }
            Err((back, end)) => {
                return Worked {
                    pass: back,
                    committed,
                    vain,
                    end: Some(end),
                };
            }
        }
    }
    Worked {
        pass,
        committed: transactions,
        vain,
        end: None,
    }
}
