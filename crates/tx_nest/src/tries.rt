//! A child that is tried again.
ghost use Rattle.std.specs.Prelude.{◌≡◌, ℕ, ◌<◌, ◌⊎◌, List, IfOk, IfErr, OnErr};
ghost use Rattle.tx_core.specs.declared.stop.TxState.TheVariants.{Running};
ghost use Rattle.tx_nest.specs.declared.tries.NestEnd.TheVariants.{Memory};
ghost use Rattle.tx_nest.specs.Attempts.{MayOpen, HasAdded, GoesOn, EndsAs};

use crate::attempt::{Attempt, ChildBody};
use std::thread;
use tx_core::Stop;

/// Why no child was committed.
#[derive(Clone, Copy, Debug, PartialEq, Eq)]
pub enum NestEnd {
    /// The parent's observations no longer stand: the attempt is stopped.
    Parent(Stop),
    /// Each of so many children was ended by Held or Newer. The parent goes on.
    Spent { tries: u32, last: Stop },
    /// Want of memory. The parent goes on.
    Memory,
}

/// Runs the body in a child, and commits it. A child that was ended by Held or Newer is dropped and tried again, `tries` times
/// in all, each time after a longer wait for other threads.
pub fn nested<A: Attempt, B: ChildBody<A>>(
    tx: &mut A,
    body: &mut B,
    tries: u32,
) -> Result<B::Out, NestEnd>
    requires running { MayOpen (A.view tx.old) }
    requires tries { 0 < tries }
    requires can_run { B.can_run body.old (A.view tx.old).over (A.view tx.old).calls (A.view tx.old).pending }
    ensures goes_on { GoesOn (A.view tx.old) (A.view tx.new) }
    ensures grows { A.grows tx.old tx.new }
    ensures ok { IfOk result (λ out. ((A.view tx.new).state ≡ Running) × HasAdded (λ added. B.runs body.old added out) (A.view tx.old) (A.view tx.new)) }
    ensures err { IfErr result (EndsAs tries (A.refused tx.new ⊎ B.ran_out body.new) (A.view tx.old) (A.view tx.new)) }
    ensures content { OnErr result ((A.view tx.new).content ≡ (A.view tx.old).content) }
    ensures sole { A.sole tx.old → IfErr result (λ end. end ≡ Memory) }
    ensures again { B.can_run body.new (A.view tx.old).over (A.view tx.old).calls (A.view tx.old).pending }
    ensures same_relation { (added : List A.Call) (out : B.Out) → B.runs body.new added out → B.runs body.old added out }
{
    let mut last = Stop::Memory;
    for tried in 0..tries {
        let Ok(()) = tx.child_begin() else {
            return Err(NestEnd::Memory);
        };
        match body.body(tx) {
            Ok(out) => {
                tx.child_commit();
                return Ok(out);
            }
            Err(stop) => {
                if let Err(parent) = tx.child_abort() {
                    return Err(NestEnd::Parent(parent));
                }
                if let Stop::Memory = stop {
                    return Err(NestEnd::Memory);
                }
                last = stop;
                wait_for_others(tried, tx.caller_number());
            }
        }
    }
    Err(NestEnd::Spent { tries, last })
}

// Lets other threads run before the next try: longer after each one up to a limit, and not equally long for each caller.
fn wait_for_others(tried: u32, caller: u32) {
    let least = tried.min(63) + 1;
    for _ in 0..least + caller % least {
        thread::yield_now();
    }
}
