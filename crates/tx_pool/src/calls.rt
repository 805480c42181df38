//! The calls of a pool.
ghost use Rattle.std.specs.Prelude.{◌≡◌, ℕ, ◌+◌, ◌-◌, ◌*◌, ◌^◌, ◌<◌, true, false, Some, None, IfSome, IfOk, IfErr, OnErr, MatchOption};
ghost use Rattle.tx_core.specs.Causes.{IsFound};
ghost use Rattle.tx_core.specs.Calls.{MayCall, HoldsAt, Stays, stop_in};
ghost use Rattle.tx_core.specs.Parts.{Explains};
ghost use Rattle.tx_pool.specs.declared.wanted.Wanted.TheVariants.{Item, Room};
ghost use Rattle.tx_pool.specs.Pool.{pool_in, IsPoolOf, IsFormed, IsSlot, TakesFrom, PutsInto};
ghost use Rattle.tx_pool.specs.Walk.{FirstStop, FillsSlot, SeesSlots, SeesOn, AllKnown};

use crate::fill::fill;
use crate::part::PoolPart;
use crate::wanted::Wanted;
use cell_table::Meaning;
use serial_terms::laws::pools_are_counts;
use tx_core::{Stop, Tx};

impl PoolPart {
    /// Takes an item out: that of the first slot, once round from the slot `from mod slots`, that has one and could be
    /// held. The slot is then held, and empty for this attempt. `None`: every slot is empty, and each was observed.
    ///
    /// Slots that others hold, or whose word is newer than the attempt, are passed over. They end the call only where no
    /// item could be had: the first of them in the order of the walk is then the answer. After a stop the attempt is
    /// stopped.
    pub fn take<M: Meaning>(&self, tx: &mut Tx<'_, M>, from: u32) -> Result<Option<u64>, Stop>
        requires callable { MayCall tx.old }
        requires part { IsPoolOf self.now tx.old.table.opening }
        ensures explains { IfOk result (λ item. Explains (IsFormed self.now) tx.old tx.new (λ cells then. IsFormed self.now then × TakesFrom (pool_in self.now cells) (pool_in self.now then) item)) }
        ensures leaves { IfOk result (λ item. MatchOption item (SeesOn self.now from tx.old tx.new × AllKnown self.now tx.new) (λ x. FillsSlot self.now from Item tx.old tx.new (x + 1) 0)) }
        ensures holds { HoldsAt (IsSlot self.now) (6 * self.now.slots) tx.old tx.new (stop_in result) }
        ensures stays { Stays tx.old tx.new }
        ensures stopped { OnErr result (SeesSlots self.now from tx.old tx.new) }
        ensures walk_found { IfErr result (λ stop. IsFound stop → FirstStop self.now from Item tx.old tx.new.pass stop × (tx.new.pass.view.held ≡ tx.old.pass.view.held)) }
    {
        tx.limits_law();
        pools_are_counts();
        match fill(self, tx, from, Wanted::Item, 0) {
            Ok(word) => Ok(item_of(word)),
            Err(stop) => Err(stop),
        }
    }

    /// Puts an item in, below 2^64 - 1: into the first slot, once round from the slot `from mod slots`, that is empty and
    /// could be held. `false`: every slot has an item, those that this attempt put counted, and each was observed.
    ///
    /// Slots that others hold, or whose word is newer than the attempt, are passed over, and after a stop the attempt
    /// is stopped, both as with `take`.
    pub fn put<M: Meaning>(&self, tx: &mut Tx<'_, M>, value: u64, from: u32) -> Result<bool, Stop>
        requires callable { MayCall tx.old }
        requires part { IsPoolOf self.now tx.old.table.opening }
        requires value { value < 2 ^ 64 - 1 }
        ensures explains { IfOk result (λ done. Explains (IsFormed self.now) tx.old tx.new (λ cells then. IsFormed self.now then × PutsInto value (pool_in self.now cells) (pool_in self.now then) done)) }
        ensures put { IfOk result (λ done. done ≡ true → FillsSlot self.now from Room tx.old tx.new 0 (value + 1)) }
        ensures full { IfOk result (λ done. done ≡ false → SeesOn self.now from tx.old tx.new × AllKnown self.now tx.new) }
        ensures holds { HoldsAt (IsSlot self.now) (6 * self.now.slots) tx.old tx.new (stop_in result) }
        ensures stays { Stays tx.old tx.new }
        ensures stopped { OnErr result (SeesSlots self.now from tx.old tx.new) }
        ensures walk_found { IfErr result (λ stop. IsFound stop → FirstStop self.now from Room tx.old tx.new.pass stop × (tx.new.pass.view.held ≡ tx.old.pass.view.held)) }
    {
        tx.limits_law();
        pools_are_counts();
        match fill(self, tx, from, Wanted::Room, value + 1) {
            Ok(word) => Ok(word.is_some()),
            Err(stop) => Err(stop),
        }
    }
}

// The item of an occupied slot's word.
fn item_of(word: Option<u64>) -> Option<u64>
    requires { IfSome word (λ w. 0 < w) }
    ensures { MatchOption word (result ≡ None) (λ w. result ≡ Some (w - 1)) }
{
    match word {
        Some(word) => Some(word - 1),
        None => None,
    }
}
