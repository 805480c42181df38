//! What is true of every pool in cells. Each function does nothing; what it ensures is the law.
ghost use Rattle.std.specs.Prelude.{◌≡◌, ℕ, suc, ◌-◌, ◌^◌, ◌<◌, ◌≤◌, ◌+◌, ◌++◌, Bool, List, length, map, replicate, slice_index, All, Option};
ghost use Rattle.attempt_lists.specs.Cells.{Entries};
ghost use Rattle.cell_table.specs.Sorted.{Each};
ghost use Rattle.cell_table.specs.Cells.{after};
ghost use Rattle.serial_terms.specs.Serial.{State, Pool, pool_of, put_pool, found, Allows};
ghost use Rattle.serial_terms.specs.Serial as serial;
ghost use Rattle.serial_terms.specs.declared.call.Call.TheVariants.{Take, Give};
ghost use Rattle.serial_terms.specs.declared.call.Reply.TheVariants.{Flag};
ghost use Rattle.tx_pool.specs.Pool.{IsFormed, IsSlot, words_in, pool_in, TakesFrom, PutsInto};

use crate::part::PoolPart;

impl PoolPart {
    /// Cells whose first slots have these items, and whose other slots have 0, stand for the pool of these items.
    pub fn opens_with_items_law(&self)
        ensures { (cells items : List ℕ) (n : ℕ) → self.now.base + self.now.slots ≤ length cells → All (λ x. x < 2 ^ 64 - 1) items → words_in self.now cells ≡ map suc items ++ replicate n 0 → IsFormed self.now cells × (pool_in self.now cells ≡ pool_of self.now.slots items) }
    {}

    /// Cells that are the same in the slots stand for the same pool.
    pub fn same_cells_law(&self)
        ensures { (cells others : List ℕ) → length others ≡ length cells → ((c : ℕ) → IsSlot self.now c → slice_index others c ≡ slice_index cells c) → IsFormed self.now cells → IsFormed self.now others × (pool_in self.now others ≡ pool_in self.now cells) }
    {}

    /// Writes to other cells change nothing of the pool.
    pub fn keeps_apart_law(&self)
        ensures formed { (cells : List ℕ) (writes : Entries) → Each (λ w. IsSlot self.now w.0 → ⊥) writes → IsFormed self.now cells → IsFormed self.now (after cells writes) }
        ensures same { (cells : List ℕ) (writes : Entries) → Each (λ w. IsSlot self.now w.0 → ⊥) writes → pool_in self.now (after cells writes) ≡ pool_in self.now cells }
    {}
}

/// What a take and a put make of the pool that cells stand for is what the serial pool replies and becomes.
pub fn serial_law()
    ensures take { (s : State) (p : ℕ) (then : Pool) (item : Option ℕ) → TakesFrom (s.pools p) then item → Allows s (Take p) (found item) × (serial.after s (Take p) (found item) ≡ put_pool s p then) }
    ensures put { (s : State) (p value : ℕ) (then : Pool) (done : Bool) → PutsInto value (s.pools p) then done → Allows s (Give p value) (Flag done) × (serial.after s (Give p value) (Flag done) ≡ put_pool s p then) }
{}
