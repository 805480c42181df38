//! The values of queues and logs.
ghost use Rattle.std.specs.Prelude.{◌≡◌, ◌+◌, ◌-◌, ◌<◌, ◌≤◌, ◌++◌, [], ◌∷◌, map, All, length, slice_index, vec_len, vec_capacity};
ghost use Rattle.store_contents.specs.Places.{words_at, AreThere, queue_at, log_at, IsQueueAt, IsLogAt};
ghost use Rattle.store_layout.specs.States.{round_from};

use crate::room::{Room, Rooms};
use cell_table::{Contents, head_len};
use serial_terms::PlainList;
use store_layout::Place;

/// Where the first value of a queue stands among its items, and how many there are.
fn ring_of(cells: &Contents, place: Place) -> (u32, u32)
    requires { IsQueueAt cells.now.values place }
    ensures within { (result.0 < place.capacity) × (result.1 ≤ place.capacity) }
    ensures queue { queue_at cells.now.values place ≡ round_from (words_at (place.first + 1) place.capacity cells.now.values) result.0 result.1 }
{
    head_len(cells.value(place.first))
}

/// The values of a queue, the first one first.
#[tactic(auto, using(crate::proofs::Words::value_more))]
fn read_queue(cells: &Contents, room: Room<u64>) -> PlainList<u64>
    requires { IsQueueAt cells.now.values room }
    ensures { result ≡ queue_at cells.now.values room }
{
    let (place, mut values) = room.open();
    let (head, length) = ring_of(cells, place);
    for i in 0..length {
        let item = (head + i) % place.capacity;
        values.push_reserved(cells.value(place.first + 1 + item));
    }
    PlainList::from_vec(values)
}

/// The values of each queue.
pub(crate) fn read_queues(cells: &Contents, rooms: Rooms<u64>) -> PlainList<PlainList<u64>>
    requires { All (λ p. IsQueueAt cells.now.values p) rooms }
    ensures { result ≡ map (λ p. queue_at cells.now.values p) rooms }
{
    let (mut rooms, mut queues) = rooms.open();
    while let Some(room) = rooms.pop() {
        queues.push_reserved(read_queue(cells, room));
    }
    PlainList::from_vec(queues)
}

/// How many values a log has.
fn length_of(cells: &Contents, place: Place) -> u32
    requires { IsLogAt cells.now.values place }
    ensures within { result ≤ place.capacity }
    ensures log { log_at cells.now.values place ≡ map (λ w. w - 1) (words_at (place.first + 1) result cells.now.values) }
{
    cells.value(place.first) as u32
}

/// The values of a log in order.
#[tactic(auto, using(crate::proofs::Words::entry_more))]
fn read_log(cells: &Contents, room: Room<u64>) -> PlainList<u64>
    requires { IsLogAt cells.now.values room }
    ensures { result ≡ log_at cells.now.values room }
{
    let (place, mut values) = room.open();
    let length = length_of(cells, place);
    for i in 0..length {
        let word = cells.value(place.first + 1 + i);
        values.push_reserved(word.saturating_sub(1));
    }
    PlainList::from_vec(values)
}

/// The values of each log.
pub(crate) fn read_logs(cells: &Contents, rooms: Rooms<u64>) -> PlainList<PlainList<u64>>
    requires { All (λ p. IsLogAt cells.now.values p) rooms }
    ensures { result ≡ map (λ p. log_at cells.now.values p) rooms }
{
    let (mut rooms, mut logs) = rooms.open();
    while let Some(room) = rooms.pop() {
        logs.push_reserved(read_log(cells, room));
    }
    PlainList::from_vec(logs)
}
