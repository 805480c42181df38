//! How many cells a layout has.
ghost use Rattle.std.specs.Prelude.{◌≡◌, ◌-◌, ◌^◌, min, sum, sum_by};
ghost use Rattle.serial_terms.specs.Stores.{slots_of};
ghost use Rattle.store_layout.specs.Shapes.{shape_of, with_end, cells_of};

use serial_terms::{Layout, PoolLayout};

/// The number of cells that a store of the layout has, or 2^64 - 1 where they are more. Takes no memory.
pub fn cells_of(layout: &Layout) -> u64
    ensures { result ≡ min (cells_of (shape_of layout.now)) (2 ^ 64 - 1) }
{
    sum_of(layout.maps.as_slice())
        .saturating_add(sum_with_ends(layout.queues.as_slice()))
        .saturating_add(slots_in(layout.pools.as_slice()))
        .saturating_add(sum_with_ends(layout.logs.as_slice()))
        .saturating_add(u64::from(layout.cells))
}

/// The cells of queues or logs with these capacities, or 2^64 - 1 where they are more.
pub fn sum_with_ends(capacities: &[u32]) -> u64
    ensures { result ≡ min (sum_by with_end capacities.now) (2 ^ 64 - 1) }
{
    sum_of(capacities).saturating_add(capacities.len() as u64)
}

/// The sum of the numbers, or 2^64 - 1 where it is more.
pub fn sum_of(numbers: &[u32]) -> u64
    ensures { result ≡ min (sum numbers.now) (2 ^ 64 - 1) }
{
    let mut total: u64 = 0;
    for number in numbers {
        total = total.saturating_add(u64::from(*number));
    }
    total
}

/// The slots of all pools, or 2^64 - 1 where they are more.
fn slots_in(pools: &[PoolLayout]) -> u64
    ensures { result ≡ min (sum (slots_of pools.now)) (2 ^ 64 - 1) }
{
    let mut total: u64 = 0;
    for pool in pools {
        total = total.saturating_add(u64::from(pool.slots));
    }
    total
}
