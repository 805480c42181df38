//! What the records of a store of stacks are as calls on lists. Each function does nothing; what it ensures is the law.
ghost use Rattle.tx_stack.specs.Calls.{IsAllowedSoFar};
ghost use Rattle.tx_stack.specs.Closed.{SeesStacks, ClosedStacks};

use crate::laws::{records_run_on_lists_law, stacks_open_empty_law};
use crate::purpose::Stacks;
use tx_store::StoreTx;

/// What an attempt sees before its commit, whatever becomes of it: lists, for which the cells stand at its version, and on which its
/// calls so far run with the answers that they got.
pub fn seen_stacks_law(tx: &StoreTx<'_, Stacks>)
    requires { IsAllowedSoFar tx.now }
    ensures { SeesStacks tx.now }
{
    tx.seen_law();
    tx.tells_law();
}

/// The history of a store that is closed, read as calls on stacks, is a legal run of the lists: from empty stacks to those for which
/// the plain cells of its contents stand.
pub fn closed_stacks_law()
    ensures { ClosedStacks }
{
    records_run_on_lists_law();
    stacks_open_empty_law();
}
