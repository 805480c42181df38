//! The keys of maps with their values.
ghost use Rattle.std.specs.Prelude.{◌≡◌, ℕ, ◌+◌, ◌^◌, ◌<◌, ◌≤◌, ◌++◌, [], ◌∷◌, map, All, length, get_or, slice_index, slice_index_or, option_to_list, vec_len, vec_capacity};
ghost use Rattle.key_directory.specs.Directory.{key_held};
ghost use Rattle.key_directory.specs.Words.{capacity_of, IsPosition};
ghost use Rattle.store_contents.specs.Contents.{KeysAreApart, AreByKey};
ghost use Rattle.store_contents.specs.Places.{IsPoolAt, AreOfMap, AreGathered, pair_in};
ghost use Rattle.store_layout.specs.States.{value_in};
ghost use Rattle.store_layout.specs.declared.place.Place.{Place};

use crate::room::{Room, Rooms};
use cell_table::Contents;
use key_directory::KeyList;
use serial_terms::PlainList;

/// Adds the pair of a position, where a key stands at it and has a value.
fn push_pair(pairs: &mut Vec<(u64, u64)>, key: Option<u64>, word: u64)
    requires { vec_len pairs.old < vec_capacity pairs.old }
    ensures pairs { pairs.new.items ≡ pairs.old.items ++ option_to_list (pair_in key (value_in word)) }
    ensures len { vec_len pairs.new ≤ vec_len pairs.old + 1 }
    ensures capacity { vec_capacity pairs.new ≡ vec_capacity pairs.old }
{
    let Some(key) = key else {
        return;
    };
    if let Some(value) = word.checked_sub(1) {
        pairs.push_reserved((key, value));
    }
}

/// The keys of a map that have values, in the order of their positions.
#[tactic(auto, using(crate::proofs::Pairs::gathered_none, crate::proofs::Pairs::gathered_more))]
fn gather(cells: &Contents, keys: &KeyList, map: u32, room: Room<(u64, u64)>) -> Vec<(u64, u64)>
    requires map { map < length keys.now.capacities }
    requires capacity { room.capacity ≡ capacity_of keys.now.capacities map }
    requires there { IsPoolAt cells.now.values room }
    requires apart { KeysAreApart keys.now }
    ensures { AreGathered keys.now map room.first cells.now.values room.capacity result.items }
{
    let (place, mut pairs) = room.open();
    for position in 0..place.capacity {
        let key = keys.key_at(map, position);
        push_pair(&mut pairs, key, cells.value(place.first + position));
    }
    pairs
}

/// The keys of a map that have values, in key order.
fn read_map(
    cells: &Contents,
    keys: &KeyList,
    map: u32,
    room: Room<(u64, u64)>,
) -> PlainList<(u64, u64)>
    requires map { map < length keys.now.capacities }
    requires capacity { room.capacity ≡ capacity_of keys.now.capacities map }
    requires there { IsPoolAt cells.now.values room }
    requires apart { KeysAreApart keys.now }
    ensures { AreOfMap cells.now.values keys.now map room result }
{
    let mut pairs = gather(cells, keys, map, room);
    pairs.sort_unstable_by_key(|pair: &(u64, u64)| pair.0);
    PlainList::from_vec(pairs)
}

/// The keys of each map with their values.
pub(crate) fn read_maps(
    cells: &Contents,
    keys: &KeyList,
    rooms: Rooms<(u64, u64)>,
) -> PlainList<PlainList<(u64, u64)>>
    requires few { length rooms < 2 ^ 32 }
    requires there { All (λ p. IsPoolAt cells.now.values p) rooms }
    requires capacities { map (λ p. p.capacity) rooms ≡ keys.now.capacities }
    requires apart { KeysAreApart keys.now }
    ensures count { length result ≡ length rooms }
    ensures maps { (m : ℕ) (d : Place) → m < length rooms → AreOfMap cells.now.values keys.now m (slice_index_or rooms m d) (get_or result m []) }
{
    let (mut rooms, mut maps) = rooms.open();
    let mut map: u32 = 0;
    while let Some(room) = rooms.pop() {
        maps.push_reserved(read_map(cells, keys, map, room));
        map += 1;
    }
    PlainList::from_vec(maps)
}
