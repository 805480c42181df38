//! The calls of cells that a push and a pop make, without a stack.
ghost use Rattle.std.specs.Prelude.{◌≡◌, ◌-◌, ◌^◌, ◌<◌, [], ◌∷◌};
ghost use Rattle.serial_terms.specs.declared.call.Call.TheVariants.{CellGet, CellPut};
ghost use Rattle.tx_store.specs.Bodies.{AnyMap};
ghost use Rattle.store_benchmark.specs.Asked.{asked, Asks, push_and_pop};
ghost use Rattle.store_benchmark.specs.Opened.{IsOpened, IsReady};

use crate::calls::{read_cell, write_cell};
use std::alloc::Global;
use tx_store::{Anything, Body, BodyStop, StoreTx};

/// Makes the calls of a push on an empty stack, and those of the pop after it.
#[derive(Drop)]
pub(crate) struct ByHand {
    pub value: u64,
    /// How often it ran.
    pub runs: u32,
}

impl Body<Anything> for ByHand {
    type Out = ();

    ghost can_run = { λ body store. IsOpened store × (body.value < 2 ^ 64 - 1) };

    ghost runs = { λ body calls _. asked calls ≡ push_and_pop body.value };

    ghost keys_full = { λ _. AnyMap };

    fn body(&mut self, _: Global, tx: &mut StoreTx<'_, Anything>) -> Result<(), BodyStop> {
        self.runs = self.runs.saturating_add(1);
        push_then_pop(tx, self.value)
    }
}

fn push_then_pop(tx: &mut StoreTx<'_, Anything>, value: u64) -> Result<(), BodyStop>
    requires ready { IsReady tx.old }
    requires value { value < 2 ^ 64 - 1 }
    ensures { Asks tx.old tx.new (λ _. push_and_pop value) result }
{
    push_cells(tx, value)?;
    pop_cells(tx)
}

fn push_cells(tx: &mut StoreTx<'_, Anything>, value: u64) -> Result<(), BodyStop>
    requires ready { IsReady tx.old }
    requires value { value < 2 ^ 64 - 1 }
    ensures { Asks tx.old tx.new (λ _. CellGet 0 ∷ CellPut 1 value ∷ CellPut 0 1 ∷ []) result }
{
    read_cell(tx, 0)?;
    write_cell(tx, 1, value)?;
    write_cell(tx, 0, 1)
}

fn pop_cells(tx: &mut StoreTx<'_, Anything>) -> Result<(), BodyStop>
    requires ready { IsReady tx.old }
    ensures { Asks tx.old tx.new (λ _. CellGet 0 ∷ CellGet 1 ∷ CellPut 0 0 ∷ []) result }
{
    read_cell(tx, 0)?;
    read_cell(tx, 1)?;
    write_cell(tx, 0, 0)
}
