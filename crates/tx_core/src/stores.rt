//! The stores of a commit. They take no memory: the values are found in the record that the first store has put into the book.
ghost use Rattle.std.specs.Prelude.{◌≡◌, ℕ, ◌<◌, length, slice_index_or, All};
ghost use Rattle.std.specs.Map.{keys_of};
ghost use Rattle.cell_table.specs.declared.view.Stage.TheVariants.{Drawn};
ghost use Rattle.cell_table.specs.Steps.{AllHeld, MayDecide};
ghost use Rattle.cell_table.specs.Pass.{IsPassOf, trail_of};
ghost use Rattle.attempt_lists.specs.Cells.{IsAscending};
ghost use Rattle.tx_core.specs.Causes.{GrewBy};
ghost use Rattle.tx_core.specs.Stored.{Stores, last_writes};

use cell_table::{CellTable, Meaning, Pass};
use std::alloc::Global;

/// The write at this index of the newest record of the acting caller.
fn last_write<M: Meaning>(pass: &Pass<M>, index: usize) -> (u32, u64)
    requires { index < length (last_writes pass.now.books) }
    ensures { result ≡ slice_index_or (last_writes pass.now.books) index (0, 0) }
{
    let Some(entry) = pass.entries(0).last() else {
        unreachable!()
    };
    entry.writes.as_slice()[index]
}

/// Stores all values of the record, of which the first one decides it.
pub(crate) fn store_all<M: Meaning>(
    table: &CellTable<M>,
    pass: &mut Pass<M>,
    observations: Vec<(u32, u64), Global>,
    writes: Vec<(u32, u64), Global>,
    dones: Vec<M::Done, Global>,
)
    requires of { IsPassOf table.now pass.old }
    requires reserved { 0 < pass.old.reserved }
    requires drawn { (u : ℕ) × (pass.old.view.stage ≡ Drawn u) × MayDecide M.explains pass.old.view u (record { observations = observations.items; writes = writes.items; dones = dones.items }) }
    requires some { 0 < length writes.items }
    requires ascending { IsAscending writes.items }
    requires in_table { All (λ c. c < length table.now.opening) (keys_of writes.items) }
    requires held { AllHeld writes.items pass.old.view.held }
    ensures of { IsPassOf table.now pass.new }
    ensures stores { Stores pass.old pass.new (record { observations = observations.items; writes = writes.items; dones = dones.items }) }
    ensures steps { GrewBy (length writes.items) (trail_of pass.old) (trail_of pass.new) }
{
    pass.legal_law();
    let planned = writes.as_slice();
    let count = planned.len();
    let (cell, value) = planned[0];
    pass.plan(observations, writes, dones);
    table.put_value(pass, cell, value);
    for index in 1..count {
        let (cell, value) = last_write(pass, index);
        table.put_value(pass, cell, value);
    }
}
