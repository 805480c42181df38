//! The locks of an attempt: room for them, and how they are given back.
ghost use Rattle.std.specs.Prelude.{◌≡◌, ℕ, ◌+◌, ◌-◌, ◌<◌, ◌≤◌, [], length, take, All, OnOk, OnErr};
ghost use Rattle.std.specs.Map.{keys_of};
ghost use Rattle.cell_table.specs.declared.view.Stage.TheVariants.{Open};
ghost use Rattle.cell_table.specs.Steps.{IsStoredOrUndecided, IsIdle};
ghost use Rattle.cell_table.specs.Pass.{IsPassOf, trail_of};
ghost use Rattle.tx_core.specs.Additions.{promised};
ghost use Rattle.tx_core.specs.Causes.{GrewBy};
ghost use Rattle.tx_core.specs.Children.{held_of};
ghost use Rattle.tx_core.specs.Seen.{GivesBack, Releases};

use attempt_lists::{CellList, WriteSet};
use cell_table::{CellTable, Meaning, Pass};
use std::alloc::AllocError;

/// Sees that there is room for one more lock in the list of held cells and in the pass, beside those promised: one for each write
/// of both levels, and those that are kept for additions.
pub(crate) fn reserve_lock<M: Meaning>(
    pass: &mut Pass<M>,
    held: &mut CellList,
    writes: &WriteSet,
    kept: u32,
) -> Result<(), AllocError>
    requires locks { held.old.reserved ≤ pass.old.places }
    requires promised { promised writes.now kept ≤ held.old.reserved }
    ensures pass { pass.new ≡ record pass.old { places = pass.new.places } }
    ensures entries { held.new.entries ≡ held.old.entries }
    ensures locks { held.new.reserved ≤ pass.new.places }
    ensures kept { held.old.reserved ≤ held.new.reserved }
    ensures ok { OnOk result (promised writes.now kept < held.new.reserved) }
{
    let room = held.reserved();
    let promised = writes.parent_len() + writes.child_len() + kept as usize;
    if promised < room {
        return Ok(());
    }
    reserve_more_locks(pass, held, 1)
}

/// Reserves room for more locks beside those reserved already.
pub(crate) fn reserve_more_locks<M: Meaning>(
    pass: &mut Pass<M>,
    held: &mut CellList,
    more: u32,
) -> Result<(), AllocError>
    requires locks { held.old.reserved ≤ pass.old.places }
    ensures pass { pass.new ≡ record pass.old { places = pass.new.places } }
    ensures entries { held.new.entries ≡ held.old.entries }
    ensures locks { held.new.reserved ≤ pass.new.places }
    ensures ok { OnOk result (held.new.reserved ≡ held.old.reserved + more) }
    ensures err { OnErr result (held.new.reserved ≡ held.old.reserved) }
{
    let Ok(reserved) = u32::try_from(held.reserved()) else {
        return Err(AllocError);
    };
    let Some(locks) = reserved.checked_add(more) else {
        return Err(AllocError);
    };
    pass.reserve_locks(locks)?;
    held.reserve(more as usize)
}

/// Gives back the cells that were locked after the first `len` ones, the last one first, while nothing is decided or once all
/// values are stored.
pub(crate) fn give_back_to<M: Meaning>(
    table: &CellTable<M>,
    pass: &mut Pass<M>,
    held: &mut CellList,
    len: usize,
)
    requires of { IsPassOf table.now pass.old }
    requires listed { pass.old.view.held ≡ held_of held.old.entries }
    requires in_table { All (λ c. c < length table.now.opening) (keys_of held.old.entries) }
    requires len { len ≤ length held.old.entries }
    requires stored { IsStoredOrUndecided pass.old.view.stage }
    requires undrawn { pass.old.view.held ≡ [] → pass.old.view.stage ≡ Open }
    ensures of { IsPassOf table.now pass.new }
    ensures entries { held.new.entries ≡ take len held.old.entries }
    ensures reserved { held.new.reserved ≡ held.old.reserved }
    ensures held { pass.new.view.held ≡ held_of held.new.entries }
    ensures undrawn { pass.new.view.held ≡ [] → pass.new.view.stage ≡ Open }
    ensures releases { Releases pass.old pass.new }
    ensures steps { GrewBy (length held.old.entries - len) (trail_of pass.old) (trail_of pass.new) }
{
    while held.len() > len {
        let Some((cell, _)) = held.pop() else {
            unreachable!()
        };
        table.give_back(pass, cell);
    }
}

/// Gives all held cells back.
pub(crate) fn give_back_all<M: Meaning>(
    table: &CellTable<M>,
    pass: &mut Pass<M>,
    mut held: CellList,
)
    requires of { IsPassOf table.now pass.old }
    requires listed { pass.old.view.held ≡ held_of held.entries }
    requires in_table { All (λ c. c < length table.now.opening) (keys_of held.entries) }
    requires stored { IsStoredOrUndecided pass.old.view.stage }
    requires undrawn { pass.old.view.held ≡ [] → pass.old.view.stage ≡ Open }
    ensures of { IsPassOf table.now pass.new }
    ensures idle { IsIdle pass.new.view }
    ensures gives { GivesBack pass.old pass.new }
    ensures steps { GrewBy (length pass.old.view.held) (trail_of pass.old) (trail_of pass.new) }
{
    give_back_to(table, pass, &mut held, 0);
}
