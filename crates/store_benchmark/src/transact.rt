//! One transaction.
ghost use Rattle.store_benchmark.specs.Passes.{MayTransact, Transacts};

use std::alloc::Global;
use tx_store::{Body, Purpose, RunEnd, Store, StorePass, atomically};

/// How many attempts a transaction has.
pub(crate) const TRIES: u32 = 1 << 20;

/// How a transaction ended: with the pass and an answer, or else with the pass and the cause.
pub(crate) type Ended<P, A> = Result<(StorePass<P>, A), (StorePass<P>, RunEnd)>;

/// Runs the body until an attempt is committed.
pub(crate) fn transact<P: Purpose, B: Body<P>>(
    alloc: Global,
    store: &Store<P>,
    pass: StorePass<P>,
    body: &mut B,
) -> Ended<P, B::Out>
    requires can_run { B.can_run body.old store.now }
    requires may { MayTransact store.now pass }
    ensures { Transacts store.now pass result }
{
    match atomically(alloc, store, pass, body, TRIES) {
        Ok(done) => Ok(done),
        Err(refused) => Err(refused),
    }
}
