//! The calls of plain cells.
ghost use Rattle.std.specs.Prelude.{◌≡◌, ◌<◌, length};
ghost use Rattle.serial_terms.specs.declared.call.Call.TheVariants.{CellGet, CellPut};
ghost use Rattle.serial_terms.specs.declared.call.Reply.TheVariants.{Nothing, Value};
ghost use Rattle.store_layout.specs.Shapes.{the_cell, cells_of};
ghost use Rattle.store_parts.specs.Parts.{noted};
ghost use Rattle.tx_core.specs.Calls.{MayCall, stop_in, memory_in};
ghost use Rattle.tx_store.specs.Calls.{in_child, done_in, Makes};

use crate::notes::note_call;
use serial_terms::{Call, Reply};
use std::alloc::AllocError;
use store_layout::CellPlan;
use store_meaning::laws::attempts_follow_law;
use store_meaning::{Purpose, StoreMeaning};
use store_parts::laws::cell_calls_law;
use tx_core::{Stop, Tx};

/// The value of a plain cell.
pub(crate) fn get_cell<P: Purpose>(
    tx: &mut Tx<'_, StoreMeaning<P>>,
    plan: &CellPlan,
    cell: u32,
) -> Result<u64, Stop>
    requires callable { MayCall tx.old }
    requires sized { length tx.old.table.opening ≡ cells_of plan.now }
    requires cell { cell < plan.now.cells }
    ensures { Makes P.Keys.passes plan.now (the_cell cell) 3 tx.old tx.new (done_in (λ x. noted (CellGet cell) (Value x) (in_child tx.old.state) 0) result) (stop_in result) }
{
    attempts_follow_law();
    cell_calls_law();
    let value = match tx.read(plan.plain(cell)) {
        Ok(value) => value,
        Err(stop) => return Err(stop),
    };
    tx.laid_over_law();
    match note_call(tx, Call::CellGet { cell }, Reply::Value(value), 0) {
        Ok(()) => Ok(value),
        Err(AllocError) => Err(Stop::Memory),
    }
}

/// Gives a plain cell a value.
pub(crate) fn put_cell<P: Purpose>(
    tx: &mut Tx<'_, StoreMeaning<P>>,
    plan: &CellPlan,
    cell: u32,
    value: u64,
) -> Result<(), AllocError>
    requires callable { MayCall tx.old }
    requires sized { length tx.old.table.opening ≡ cells_of plan.now }
    requires cell { cell < plan.now.cells }
    ensures { Makes P.Keys.passes plan.now (the_cell cell) 0 tx.old tx.new (done_in (λ _. noted (CellPut cell value) Nothing (in_child tx.old.state) 0) result) (memory_in result) }
{
    attempts_follow_law();
    cell_calls_law();
    tx.laid_over_law();
    match tx.write(plan.plain(cell), value) {
        Ok(()) => {}
        Err(memory) => return Err(memory),
    }
    match note_call(tx, Call::CellPut { cell, value }, Reply::Nothing, 0) {
        Ok(()) => Ok(()),
        Err(memory) => Err(memory),
    }
}
