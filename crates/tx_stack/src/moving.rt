//! An item goes from one stack to another.
ghost use Rattle.std.specs.Prelude.{◌≡◌, ◌<◌, true, ◌≢◌, List, IfOk, IfErr, OnErr};
ghost use Rattle.cell_table.specs.Pass.{IsSole};
ghost use Rattle.serial_terms.specs.Renaming.{by_key};
ghost use Rattle.tx_core.specs.declared.stop.TxState.TheVariants.{Running};
ghost use Rattle.tx_nest.specs.declared.tries.NestEnd.TheVariants.{Memory};
ghost use Rattle.tx_nest.specs.Attempts.{EndsAs};
ghost use Rattle.tx_store.specs.Bodies.{Does};
ghost use Rattle.tx_store.specs.Children.{view_of};
ghost use Rattle.tx_store.specs.Runs.{IsSameAttempt};
ghost use Rattle.tx_stack.specs.Calls.{IsStackOf, MayCallStack};
ghost use Rattle.tx_stack.specs.Moves.{IsMoveOf, IsMoveAdded, MovesBetween};
ghost use Rattle.tx_stack.specs.Stacks.{StackCall, all_cell_calls, IsAllowed};

use crate::part::StackPart;
use crate::purpose::Stacks;
use tx_core::Stop;
use tx_nest::{ChildBody, NestEnd, nested};
use tx_store::StoreTx;

/// What came of a move.
#[derive(Clone, Copy, Debug, PartialEq, Eq)]
pub enum Moved {
    /// This item was on top of the one stack, and is on top of the other now.
    Yes(u64),
    /// There was no item.
    Empty,
    /// There is an item, and no room for it.
    Full,
}

/// Takes the item off the top of one stack and puts it on another, in a child of the attempt that is tried so many times.
///
/// `Empty` comes exactly where there is no item, and `Full` exactly where there is one and the other stack is full. Then nothing is
/// written, nor where no child was committed.
pub fn move_top(
    tx: &mut StoreTx<'_, Stacks>,
    from: &StackPart,
    to: &StackPart,
    tries: u32,
) -> Result<Moved, NestEnd>
    requires running { tx.old.attempt.state ≡ Running }
    requires ready { MayCallStack tx.old }
    requires stacks { IsStackOf tx.old.store from.now × IsStackOf tx.old.store to.now }
    requires two { from.now.base ≢ to.now.base }
    requires tries { 0 < tries }
    ensures same { IsSameAttempt tx.old tx.new }
    ensures moved { IfOk result (λ moved. (calls : List StackCall) × IsMoveOf from.now to.now true moved calls × Does tx.old tx.new (all_cell_calls calls)) }
    ensures ready { IfOk result (λ moved. MayCallStack tx.new × (tx.new.store ≡ tx.old.store)) }
    ensures refused { IfErr result (EndsAs tries (Unit {0}) (view_of tx.old) (view_of tx.new)) }
    ensures content { OnErr result ((view_of tx.new).content ≡ (view_of tx.old).content) }
    ensures sole { IsSole tx.old.attempt.pass → IfErr result (λ end. end ≡ Memory) }
{
    let mut moves = MovesTop {
        from,
        to,
        nothing: (),
    };
    nested(tx, &mut moves, tries)
}

// The calls of a move. The type parameter stands for nothing: without one the toolchain can't state that this is a body of attempts on
// a store of stacks.
#[derive(Drop)]
struct MovesTop<'m, N: Drop> {
    from: &'m StackPart,
    to: &'m StackPart,
    nothing: N,
}

impl<'a, 'm, N: Drop> ChildBody<StoreTx<'a, Stacks>> for MovesTop<'m, N> {
    type Out = Moved;

    ghost can_run = { λ b store calls pending. IsStackOf store b.from.now × IsStackOf store b.to.now × IsAllowed store.table.meaning.purpose.parts.items (by_key calls) };

    ghost runs = { λ b added out. IsMoveAdded b.from.now b.to.now added out };

    ghost ran_out = { λ b. Unit {0} };

    fn body(&mut self, tx: &mut StoreTx<'a, Stacks>) -> Result<Moved, Stop> {
        move_item(tx, self.from, self.to)
    }
}

// Reads the item on top, puts it on the other stack, and takes it off.
fn move_item(tx: &mut StoreTx<'_, Stacks>, from: &StackPart, to: &StackPart) -> Result<Moved, Stop>
    requires ready { MayCallStack tx.old }
    requires stacks { IsStackOf tx.old.store from.now × IsStackOf tx.old.store to.now }
    ensures { MovesBetween from.now to.now tx.old tx.new result }
{
    let Some(value) = from.top(tx)? else {
        return Ok(Moved::Empty);
    };
    let added = to.push(tx, value)?;
    if added {
        from.pop(tx)?;
        return Ok(Moved::Yes(value));
    }
    Ok(Moved::Full)
}
