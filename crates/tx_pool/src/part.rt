//! Which cells a pool has.
ghost use Rattle.std.specs.Prelude.{◌≡◌, ℕ, ◌+◌, ◌%◌, ◌^◌, ◌<◌, ◌≤◌};
ghost use Rattle.tx_pool.specs.Pool.{slot_at};

/// A pool in the `slots` cells from `base` on, one slot a cell.
///
/// The cell has 0 where its slot is empty, else the slot's item plus 1.
#[derive(Clone, Copy, Debug, PartialEq, Eq)]
pub struct PoolPart {
    /// The cell of the first slot.
    pub base: u32,
    /// How many slots the pool has.
    pub slots: u32,
}

impl PoolPart {
    /// The cell of the i-th slot of a walk that begins at the slot `start`.
    pub(crate) fn slot(&self, start: u32, i: u32) -> u32
        requires start { start < self.now.slots }
        requires on_walk { i < self.now.slots }
        requires small { self.now.base + self.now.slots ≤ 2 ^ 32 }
        ensures { (from : ℕ) → from % self.now.slots ≡ start → result ≡ slot_at self.now from i }
    {
        let behind = self.slots - start;
        if i < behind {
            self.base + (start + i)
        } else {
            self.base + (i - behind)
        }
    }
}
