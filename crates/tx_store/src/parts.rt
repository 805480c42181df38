//! The parts of a store's structures.
ghost use Rattle.std.specs.Prelude.{◌≡◌, ◌+◌, ◌<◌, ◌≤◌, length};
ghost use Rattle.store_parts.specs.Parts.{map_part, queue_part, pool_part, log_part};
ghost use Rattle.store_layout.specs.Shapes.{cells_of, most_cells};

use store_layout::CellPlan;
use store_layout::laws::parts_are_apart_law;
use tx_log::LogPart;
use tx_map::MapPart;
use tx_pool::PoolPart;
use tx_queue::QueuePart;

/// The cells of a map. Its region of the directory has the map's number.
pub(crate) fn map_of(plan: &CellPlan, map: u32) -> MapPart
    requires { map < length plan.now.maps }
    ensures part { result ≡ map_part plan.now map }
    ensures inside { 0 < result.capacity → result.base + result.capacity ≤ cells_of plan.now }
{
    parts_are_apart_law();
    let place = plan.map(map);
    MapPart {
        base: place.first,
        region: map,
        capacity: place.capacity,
    }
}

/// The cells of a queue. Values wait for it under its own number.
pub(crate) fn queue_of(plan: &CellPlan, queue: u32) -> QueuePart
    requires { queue < length plan.now.queues }
    ensures part { result ≡ queue_part plan.now queue }
    ensures small { cells_of plan.now ≤ most_cells }
    ensures inside { result.end + result.capacity < cells_of plan.now }
{
    parts_are_apart_law();
    let _ = plan.cells();
    let place = plan.queue(queue);
    QueuePart {
        part: queue,
        end: place.first,
        capacity: place.capacity,
    }
}

/// The slots of a pool.
pub(crate) fn pool_of(plan: &CellPlan, pool: u32) -> PoolPart
    requires { pool < length plan.now.pools }
    ensures { result ≡ pool_part plan.now pool }
{
    let place = plan.pool(pool);
    PoolPart {
        base: place.first,
        slots: place.capacity,
    }
}

/// The cells of a log. Values wait for it under the number of the queues and its own together.
pub(crate) fn log_of(plan: &CellPlan, log: u32) -> LogPart
    requires { log < length plan.now.logs }
    ensures part { result ≡ log_part plan.now log }
    ensures small { cells_of plan.now ≤ most_cells }
    ensures inside { result.end + result.capacity < cells_of plan.now }
{
    parts_are_apart_law();
    let _ = plan.cells();
    let place = plan.log(log);
    LogPart {
        part: plan.queues() + log,
        end: place.first,
        capacity: place.capacity,
    }
}
