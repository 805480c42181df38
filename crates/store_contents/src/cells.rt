//! The values of pools and of plain cells.
ghost use Rattle.std.specs.Prelude.{◌≡◌, ◌+◌, ◌<◌, ◌≤◌, ◌++◌, [], ◌∷◌, map, All, length, vec_len, vec_capacity};
ghost use Rattle.store_contents.specs.Places.{words_at, pool_at, IsPoolAt};
ghost use Rattle.store_layout.specs.States.{items_in};

use crate::room::{Room, Rooms};
use cell_table::Contents;
use serial_terms::PlainList;

/// The values of the plain cells.
#[tactic(auto, using(crate::proofs::Words::cell_more))]
pub(crate) fn read_cells(cells: &Contents, room: Room<u64>) -> PlainList<u64>
    requires { IsPoolAt cells.now.values room }
    ensures { result ≡ words_at room.first room.capacity cells.now.values }
{
    let (place, mut values) = room.open();
    for i in 0..place.capacity {
        values.push_reserved(cells.value(place.first + i));
    }
    PlainList::from_vec(values)
}

/// Adds the item of a slot's word, if the slot has one.
fn push_item(items: &mut Vec<u64>, word: u64)
    requires { vec_len items.old < vec_capacity items.old }
    ensures items { items.new.items ≡ items.old.items ++ items_in (word ∷ []) }
    ensures len { vec_len items.new ≤ vec_len items.old + 1 }
    ensures capacity { vec_capacity items.new ≡ vec_capacity items.old }
{
    if let Some(item) = word.checked_sub(1) {
        items.push_reserved(item);
    }
}

/// The items of a pool in the order of their slots.
#[tactic(auto, using(crate::proofs::Words::item_more))]
fn read_pool(cells: &Contents, room: Room<u64>) -> PlainList<u64>
    requires { IsPoolAt cells.now.values room }
    ensures { result ≡ pool_at cells.now.values room }
{
    let (place, mut items) = room.open();
    for slot in 0..place.capacity {
        push_item(&mut items, cells.value(place.first + slot));
    }
    PlainList::from_vec(items)
}

/// The items of each pool.
pub(crate) fn read_pools(cells: &Contents, rooms: Rooms<u64>) -> PlainList<PlainList<u64>>
    requires { All (λ p. IsPoolAt cells.now.values p) rooms }
    ensures { result ≡ map (λ p. pool_at cells.now.values p) rooms }
{
    let (mut rooms, mut pools) = rooms.open();
    while let Some(room) = rooms.pop() {
        pools.push_reserved(read_pool(cells, room));
    }
    PlainList::from_vec(pools)
}
