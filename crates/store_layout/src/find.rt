//! Finds the structure that a cell belongs to.
ghost use Rattle.std.specs.Prelude.{◌≡◌, ◌+◌, ◌^◌, ◌<◌, ◌≤◌, ◌↔◌, length, IsTrue, MatchOption};
ghost use Rattle.store_layout.specs.Shapes.{the_queue, the_log};
ghost use Rattle.store_layout.specs.Spots.{object_of, place_of};
ghost use Rattle.store_layout.specs.Plans.{IsAtNone, IsFound};

use crate::place::Place;
use crate::spot::Spot;

/// The number of the place that has the cell, and which of its cells it is. Each place has so many cells more
/// than values.
pub fn find_place(places: &[Place], more: u32, cell: u32) -> Option<(u32, u32)>
    requires more { more ≤ 1 }
    requires few { length places.now < 2 ^ 32 }
    ensures { MatchOption result (IsAtNone places.now more cell) (IsFound places.now more cell) }
{
    for (i, place) in places.iter().enumerate() {
        if has_cell(place, more, cell) {
            return Some((i as u32, cell - place.first));
        }
    }
    None
}

/// Whether the cell is one of the place's.
fn has_cell(place: &Place, more: u32, cell: u32) -> bool
    requires { more ≤ 1 }
    ensures { IsTrue result ↔ ((place.now.first ≤ cell) × (cell < place.now.first + (place.now.capacity + more))) }
{
    place.first <= cell
        && u64::from(cell) < u64::from(place.first) + u64::from(place.capacity) + u64::from(more)
}

/// The spot of a queue's cell.
pub fn queue_spot(queue: u32, at: u32) -> Spot
    ensures object { object_of result ≡ the_queue queue }
    ensures place { place_of result ≡ at }
{
    match at {
        0 => Spot::QueueEnd(queue),
        _ => Spot::QueueItem(queue, at - 1),
    }
}

/// The spot of a log's cell.
pub fn log_spot(log: u32, at: u32) -> Spot
    ensures object { object_of result ≡ the_log log }
    ensures place { place_of result ≡ at }
{
    match at {
        0 => Spot::LogEnd(log),
        _ => Spot::LogEntry(log, at - 1),
    }
}
