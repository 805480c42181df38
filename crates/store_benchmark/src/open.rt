//! How the store of the workloads is laid out.
ghost use Rattle.std.specs.Prelude.{◌≡◌, ◌<◌, length, All, IfOk};
ghost use Rattle.serial_terms.specs.Ranges.{IsKept};
ghost use Rattle.store_layout.specs.Shapes.{IsLayout, shape_of, cells_of};
ghost use Rattle.store_benchmark.specs.Opened.{HasEach};

use serial_terms::{Layout, PlainList, PoolLayout};
use std::alloc::{AllocError, Global};

/// The slots of the pool, and the values that the queue may have.
pub(crate) const SLOTS: u64 = 1_024;

// How many keys the map may have: twice as many as are drawn from.
const KEYS: u32 = 1 << 17;

// How many values the log may have.
const VALUES: u32 = 1 << 20;

/// A map, a queue, a pool full of items, a log and two plain cells. The one error is want of memory.
pub(crate) fn layout(alloc: Global) -> Result<Layout, AllocError>
    ensures layout { IfOk result IsLayout }
    ensures each { IfOk result (λ l. HasEach (shape_of l)) }
    ensures some { IfOk result (λ l. 0 < cells_of (shape_of l)) }
{
    let pool = PoolLayout {
        slots: SLOTS as u32,
        items: items(alloc)?,
    };
    let mut pools = Vec::new(alloc);
    pools.push(pool)?;
    Ok(Layout {
        maps: PlainList::from_vec([KEYS].to_vec(alloc)?),
        queues: PlainList::from_vec([SLOTS as u32].to_vec(alloc)?),
        pools: PlainList::from_vec(pools),
        logs: PlainList::from_vec([VALUES].to_vec(alloc)?),
        cells: 2,
    })
}

// An item for each slot.
fn items(alloc: Global) -> Result<PlainList<u64>, AllocError>
    ensures count { IfOk result (λ items. length items ≡ 1024) }
    ensures kept { IfOk result (All IsKept) }
{
    let mut items = Vec::new(alloc);
    for item in 0..SLOTS {
        items.push(item)?;
    }
    Ok(PlainList::from_vec(items))
}
