//! A slot's word replaced by another, in the first slot of a walk that can be had.
ghost use Rattle.std.specs.Prelude.{◌≡◌, ℕ, ◌+◌, ◌*◌, ◌^◌, ◌<◌, ◌≤◌, IfOk, IfErr, OnOk, OnErr, MatchOption};
ghost use Rattle.tx_core.specs.Causes.{IsFound};
ghost use Rattle.tx_core.specs.Calls.{MayCall, HoldsAt, Stays, stop_in};
ghost use Rattle.tx_core.specs.Parts.{Explains};
ghost use Rattle.tx_pool.specs.Pool.{IsPoolOf, IsFormed, IsSlot, slot_at};
ghost use Rattle.tx_pool.specs.Walk.{IsFit, FirstStop, FillsSlot, SeesSlots, SeesOn, AllKnown, Replaces, HasNone};
ghost use Rattle.tx_pool.specs.Steps.{IsKnown, SeesStop};

use crate::part::PoolPart;
use crate::walk::{Walked, walk};
use crate::wanted::Wanted;
use cell_table::Meaning;
use tx_core::{Stop, Tx};

// Observes each slot, in the order of the walk.
fn observe_all<M: Meaning>(part: &PoolPart, tx: &mut Tx<'_, M>, from: u32) -> Result<(), Stop>
    requires callable { MayCall tx.old }
    requires part { IsPoolOf part.now tx.old.table.opening }
    requires small { part.now.base + part.now.slots ≤ 2 ^ 32 }
    ensures sees { SeesOn part.now from tx.old tx.new }
    ensures known { OnOk result ((j : ℕ) → j < part.now.slots → IsKnown tx.new (slot_at part.now from j)) }
    ensures stopped { IfErr result (SeesStop part.now from tx.old tx.new) }
    ensures holds { HoldsAt (IsSlot part.now) (3 * part.now.slots) tx.old tx.new (stop_in result) }
{
    let start = from % part.slots;
    for i in 0..part.slots {
        let cell = part.slot(start, i);
        match tx.read(cell) {
            Ok(_) => {}
            Err(stop) => return Err(stop),
        }
    }
    Ok(())
}

/// Replaces the word of a slot by this one: of the first slot of the walk that has a wanted word and can be held. Its old
/// word is the answer. `None`: no slot has a wanted word, and each was observed.
pub(crate) fn fill<M: Meaning>(
    part: &PoolPart,
    tx: &mut Tx<'_, M>,
    from: u32,
    wanted: Wanted,
    word: u64,
) -> Result<Option<u64>, Stop>
    requires callable { MayCall tx.old }
    requires part { IsPoolOf part.now tx.old.table.opening }
    requires small { part.now.base + part.now.slots ≤ 2 ^ 32 }
    ensures leaves { IfOk result (λ old. MatchOption old (SeesOn part.now from tx.old tx.new × AllKnown part.now tx.new) (λ w. FillsSlot part.now from wanted tx.old tx.new w word × IsFit wanted w)) }
    ensures explains { IfOk result (λ old. Explains (IsFormed part.now) tx.old tx.new (λ cells then. MatchOption old (HasNone part.now wanted cells then) (λ w. (i : ℕ) × (i < part.now.slots) × Replaces (part.now.base + i) w word cells then))) }
    ensures holds { HoldsAt (IsSlot part.now) (6 * part.now.slots) tx.old tx.new (stop_in result) }
    ensures stays { Stays tx.old tx.new }
    ensures stopped { OnErr result (SeesSlots part.now from tx.old tx.new) }
    ensures walk_found { IfErr result (λ stop. IsFound stop → FirstStop part.now from wanted tx.old tx.new.pass stop × (tx.new.pass.view.held ≡ tx.old.pass.view.held)) }
{
    match walk(part, tx, from, wanted) {
        Walked::Holds(cell, old) => {
            tx.laid_over_law();
            match tx.write(cell, word) {
                Ok(()) => Ok(Some(old)),
                Err(_) => Err(Stop::Memory),
            }
        }
        Walked::NoneFit => match observe_all(part, tx, from) {
            Ok(()) => {
                tx.laid_over_law();
                tx.agreed_law();
                Ok(None)
            }
            Err(stop) => Err(stop),
        },
        Walked::Stopped(stop) => {
            tx.stop_with(stop);
            Err(stop)
        }
        Walked::Memory => Err(Stop::Memory),
    }
}
