//! The places of all structures of a store.
ghost use Rattle.std.specs.Prelude.{◌≡◌, ◌-◌, ◌^◌, ◌<◌, ◌≤◌, ◌↔◌, length, get_or, min, IfOk};
ghost use Rattle.store_layout.specs.Shapes.{the_map, the_queue, the_pool, the_log, the_cell, shape_of, cells_of, first_of, with_end, queues_from, pools_from, logs_from, plain_from, IsLayout, most_cells};
ghost use Rattle.store_layout.specs.Spots.{IsSpotOf, cell_of};
ghost use Rattle.store_layout.specs.Plans.{StandFrom, IsTooLarge, IfTooLarge};

use crate::arrange::{places, slots};
use crate::find::{find_place, log_spot, queue_spot};
use crate::place::{LayoutEnd, Place};
use crate::size::{cells_of, sum_of, sum_with_ends};
use crate::spot::Spot;
use serial_terms::Layout;
use std::alloc::{AllocError, Global};
use std::marker::Model;

/// The most cells that a store may have.
const MOST_CELLS: u64 = 1 << 24;

/// Which cells each structure of a store has: the maps' cells come first, then each queue's end and its
/// items, the pools' slots, each log's end and its entries, and the plain cells.
#[derive(Drop)]
pub struct CellPlan {
    maps: Vec<Place>,
    queues: Vec<Place>,
    pools: Vec<Place>,
    logs: Vec<Place>,
    plain: Place,
}

impl Model for CellPlan {
    ghost use Rattle.store_layout.specs.Shapes.{Shape};
    ghost use Rattle.store_layout.specs.Plans.{shape_by, IsPlan};

    ghost Value = { Shape };

    ghost view = { λ p. shape_by p.maps.items p.queues.items p.pools.items p.logs.items p.plain };

    ghost invariant = { λ p. IsPlan p.maps.items p.queues.items p.pools.items p.logs.items p.plain };
}

impl CellPlan {
    /// The plan of a layout. `TooLarge` comes exactly where it has more than 2^24 cells, before any memory is
    /// taken.
    pub fn of(alloc: Global, layout: &Layout) -> Result<CellPlan, LayoutEnd>
        requires { IsLayout layout.now }
        ensures ok { IfOk result (λ plan. plan ≡ shape_of layout.now) }
        ensures too_large { IsTooLarge result ↔ (most_cells < cells_of (shape_of layout.now)) }
        ensures told { IfTooLarge result (λ n. n ≡ min (cells_of (shape_of layout.now)) (2 ^ 64 - 1)) }
    {
        let cells = cells_of(layout);
        if cells > MOST_CELLS {
            return Err(LayoutEnd::TooLarge { cells });
        }
        match arrange(alloc, layout) {
            Ok(plan) => Ok(plan),
            Err(_) => Err(LayoutEnd::Memory),
        }
    }

    /// The number of all cells, at most 2^24.
    pub fn cells(&self) -> u32
        ensures cells { result ≡ cells_of self.now }
        ensures within { result ≤ most_cells }
    {
        self.plain.first + self.plain.capacity
    }

    /// How many queues there are.
    pub fn queues(&self) -> u32
        ensures { result ≡ length self.now.queues }
    {
        self.queues.len() as u32
    }

    /// The place of a map.
    pub fn map(&self, map: u32) -> Place
        requires { map < length self.now.maps }
        ensures first { result.first ≡ first_of self.now (the_map map) }
        ensures capacity { result.capacity ≡ get_or self.now.maps map 0 }
    {
        self.maps[map as usize]
    }

    /// The place of a queue. Its first cell is its end.
    pub fn queue(&self, queue: u32) -> Place
        requires { queue < length self.now.queues }
        ensures first { result.first ≡ first_of self.now (the_queue queue) }
        ensures capacity { result.capacity ≡ get_or self.now.queues queue 0 }
    {
        self.queues[queue as usize]
    }

    /// The place of a pool.
    pub fn pool(&self, pool: u32) -> Place
        requires { pool < length self.now.pools }
        ensures first { result.first ≡ first_of self.now (the_pool pool) }
        ensures capacity { result.capacity ≡ get_or self.now.pools pool 0 }
    {
        self.pools[pool as usize]
    }

    /// The place of a log. Its first cell is its end.
    pub fn log(&self, log: u32) -> Place
        requires { log < length self.now.logs }
        ensures first { result.first ≡ first_of self.now (the_log log) }
        ensures capacity { result.capacity ≡ get_or self.now.logs log 0 }
    {
        self.logs[log as usize]
    }

    /// The places of all maps, in the order of their numbers.
    pub fn map_places(&self) -> &[Place]
        ensures stand { StandFrom (λ c. c) 0 self.now.maps result.now }
        ensures few { length result.now < 2 ^ 32 }
    {
        self.maps.as_slice()
    }

    /// The places of all queues.
    pub fn queue_places(&self) -> &[Place]
        ensures stand { StandFrom with_end (queues_from self.now) self.now.queues result.now }
        ensures few { length result.now < 2 ^ 32 }
    {
        self.queues.as_slice()
    }

    /// The places of all pools.
    pub fn pool_places(&self) -> &[Place]
        ensures stand { StandFrom (λ c. c) (pools_from self.now) self.now.pools result.now }
        ensures few { length result.now < 2 ^ 32 }
    {
        self.pools.as_slice()
    }

    /// The places of all logs.
    pub fn log_places(&self) -> &[Place]
        ensures stand { StandFrom with_end (logs_from self.now) self.now.logs result.now }
        ensures few { length result.now < 2 ^ 32 }
    {
        self.logs.as_slice()
    }

    /// The place of the plain cells.
    pub fn plain_place(&self) -> Place
        ensures first { result.first ≡ plain_from self.now }
        ensures capacity { result.capacity ≡ self.now.cells }
        ensures small { cells_of self.now ≤ most_cells }
    {
        self.plain
    }

    /// The cell of a plain cell.
    pub fn plain(&self, cell: u32) -> u32
        requires { cell < self.now.cells }
        ensures { result ≡ first_of self.now (the_cell cell) }
    {
        self.plain.first + cell
    }

    /// What the cell is for.
    pub fn spot_of(&self, cell: u32) -> Spot
        requires { cell < cells_of self.now }
        ensures there { IsSpotOf self.now result }
        ensures cell { cell_of self.now result ≡ cell }
    {
        if let Some((map, at)) = find_place(&self.maps, 0, cell) {
            return Spot::MapKey(map, at);
        }
        if let Some((queue, at)) = find_place(&self.queues, 1, cell) {
            return queue_spot(queue, at);
        }
        if let Some((pool, at)) = find_place(&self.pools, 0, cell) {
            return Spot::PoolSlot(pool, at);
        }
        if let Some((log, at)) = find_place(&self.logs, 1, cell) {
            return log_spot(log, at);
        }
        Spot::Plain(cell - self.plain.first)
    }

    /// The cell at a spot.
    pub fn cell_of(&self, spot: Spot) -> u32
        requires { IsSpotOf self.now spot }
        ensures { result ≡ cell_of self.now spot }
    {
        let plain = self.plain.first;
        match spot {
            Spot::MapKey(map, at) => self.map(map).first + at,
            Spot::QueueEnd(queue) => self.queue(queue).first,
            Spot::QueueItem(queue, at) => self.queue(queue).first + 1 + at,
            Spot::PoolSlot(pool, at) => self.pool(pool).first + at,
            Spot::LogEnd(log) => self.log(log).first,
            Spot::LogEntry(log, at) => self.log(log).first + 1 + at,
            Spot::Plain(cell) => plain + cell,
        }
    }
}

/// The plan of a layout that isn't too large.
fn arrange(alloc: Global, layout: &Layout) -> Result<CellPlan, AllocError>
    requires layout { IsLayout layout.now }
    requires small { cells_of (shape_of layout.now) ≤ most_cells }
    ensures { IfOk result (λ plan. plan ≡ shape_of layout.now) }
{
    let maps = layout.maps.as_slice();
    let queues = layout.queues.as_slice();
    let slots = slots(alloc, layout.pools.as_slice())?;
    let logs = layout.logs.as_slice();
    let queues_from = sum_of(maps) as u32;
    let pools_from = queues_from + sum_with_ends(queues) as u32;
    let logs_from = pools_from + sum_of(&slots) as u32;
    let plain_from = logs_from + sum_with_ends(logs) as u32;
    Ok(CellPlan {
        maps: places(alloc, maps, 0, 0)?,
        queues: places(alloc, queues, 1, queues_from)?,
        pools: places(alloc, &slots, 0, pools_from)?,
        logs: places(alloc, logs, 1, logs_from)?,
        plain: Place {
            first: plain_from,
            capacity: layout.cells,
        },
    })
}
