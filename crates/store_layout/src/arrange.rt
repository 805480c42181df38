//! Lays structures out one behind the other.
ghost use Rattle.std.specs.Prelude.{◌≡◌, ◌+◌, ◌^◌, ◌<◌, ◌≤◌, sum_by, IfOk};
ghost use Rattle.serial_terms.specs.Stores.{slots_of};
ghost use Rattle.store_layout.specs.Plans.{StandFrom};

use crate::place::Place;
use serial_terms::PoolLayout;
use std::alloc::{AllocError, Global};

/// The number of slots of each pool.
pub fn slots(alloc: Global, pools: &[PoolLayout]) -> Result<Vec<u32>, AllocError>
    ensures { IfOk result (λ slots. slots.items ≡ slots_of pools.now) }
{
    let mut slots = Vec::with_capacity(alloc, pools.len())?;
    for pool in pools {
        slots.push(pool.slots)?;
    }
    Ok(slots)
}

/// The places of structures with these capacities, each of which has so many cells more than values. The
/// first one begins at the cell `from`.
pub fn places(alloc: Global, sizes: &[u32], more: u32, from: u32) -> Result<Vec<Place>, AllocError>
    requires more { more ≤ 1 }
    requires fits { from + sum_by (λ c. c + more) sizes.now < 2 ^ 32 }
    ensures { IfOk result (λ places. StandFrom (λ c. c + more) from sizes.now places.items) }
{
    let mut places = Vec::with_capacity(alloc, sizes.len())?;
    let mut first = from;
    for size in sizes {
        places.push(Place {
            first,
            capacity: *size,
        })?;
        first += *size + more;
    }
    Ok(places)
}
