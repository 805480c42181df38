//! The walk once round the slots of a pool.
ghost use Rattle.std.specs.Prelude.{◌≡◌, ℕ, ◌+◌, ◌*◌, ◌^◌, ◌<◌, ◌≤◌, length, None, MatchOption};
ghost use Rattle.cell_table.specs.Pass.{trail_of};
ghost use Rattle.attempt_lists.specs.Cells.{word_at};
ghost use Rattle.tx_core.specs.Causes.{FoundSince};
ghost use Rattle.tx_core.specs.Calls.{MayCall, StepsAt};
ghost use Rattle.tx_pool.specs.Pool.{IsPoolOf, IsSlot};
ghost use Rattle.tx_pool.specs.Steps.{Tells, WalkTells, UnfitBy};
ghost use Rattle.tx_pool.specs.declared.walk.Walked.TheVariants.{NoneFit, Stopped};

use crate::part::PoolPart;
use crate::wanted::Wanted;
use cell_table::Meaning;
use tx_core::{Stop, Tx};

/// What a try at one slot comes to.
pub enum Tried {
    /// The slot is held, and has this word, which is a wanted one.
    Holds(u64),
    /// The slot's word isn't a wanted one.
    Unfit,
    /// The slot was found held or newer.
    Stopped(Stop),
    /// Want of memory.
    Memory,
}

/// What a walk comes to.
pub enum Walked {
    /// This slot is held, and has this word, which is a wanted one.
    Holds(u32, u64),
    /// No slot has a wanted word.
    NoneFit,
    /// No slot could be had, and this stop was the first one found.
    Stopped(Stop),
    /// Want of memory.
    Memory,
}

/// Tries the slots once round from `from mod slots`, until one is held.
pub(crate) fn walk<M: Meaning>(
    part: &PoolPart,
    tx: &mut Tx<'_, M>,
    from: u32,
    wanted: Wanted,
) -> Walked
    requires callable { MayCall tx.old }
    requires part { IsPoolOf part.now tx.old.table.opening }
    requires small { part.now.base + part.now.slots ≤ 2 ^ 32 }
    ensures tells { WalkTells part.now from wanted tx.old tx.new result }
    ensures does { StepsAt (IsSlot part.now) (6 * part.now.slots) tx.old tx.new }
{
    let start = from % part.slots;
    let mut first = None;
    for i in 0..part.slots {
        let cell = part.slot(start, i);
        match try_slot(tx, cell, wanted) {
            Tried::Holds(word) => return Walked::Holds(cell, word),
            Tried::Unfit => {}
            Tried::Stopped(stop) => first = first.or(Some(stop)),
            Tried::Memory => return Walked::Memory,
        }
    }
    ended(first)
}

// What a walk that held no slot comes to, by the first stop that it found.
fn ended(first: Option<Stop>) -> Walked
    ensures { MatchOption first (result ≡ NoneFit) (λ stop. result ≡ Stopped stop) }
{
    match first {
        Some(stop) => Walked::Stopped(stop),
        None => Walked::NoneFit,
    }
}

/// Looks at a slot, and holds it where its word is a wanted one.
pub(crate) fn try_slot<M: Meaning>(tx: &mut Tx<'_, M>, cell: u32, wanted: Wanted) -> Tried
    requires callable { MayCall tx.old }
    requires cell { cell < length tx.old.table.opening }
    ensures tells { Tells wanted tx.old tx.new cell result }
    ensures looked { word_at tx.old.writes cell ≡ None → word_at tx.old.observations cell ≡ None → (w : ℕ) × FoundSince (length (trail_of tx.old.pass)) (trail_of tx.new.pass) cell w }
    ensures does { StepsAt (λ c. c ≡ cell) 6 tx.old tx.new }
    ensures looks { UnfitBy 3 (trail_of tx.old.pass) (trail_of tx.new.pass) result }
{
    let word = match tx.peek(cell) {
        Ok(word) => word,
        Err(stop) => return Tried::Stopped(stop),
    };
    if !wanted.fits(word) {
        return Tried::Unfit;
    }
    match tx.try_hold(cell) {
        Ok(found) => {
            tx.agreed_law();
            Tried::Holds(found)
        }
        Err(Stop::Memory) => Tried::Memory,
        Err(stop) => Tried::Stopped(stop),
    }
}
