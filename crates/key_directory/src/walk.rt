//! The steps of a claim.
ghost use Rattle.std.specs.Prelude.{◌≡◌, ◌+◌, ◌-◌, ◌*◌, ◌%◌, ◌^◌, ◌<◌, ◌≤◌, length, sum};
ghost use Rattle.key_directory.specs.Words.{capacities_of, capacity_of, word_number, start_from, IsPosition};
ghost use Rattle.key_directory.specs.Moves.{Knows};
ghost use Rattle.key_directory.specs.Directory.{IsReached};
ghost use Rattle.key_directory.specs.Visits.{Visited, Walked};

use crate::key_test::KeyTest;
use crate::layout::Region;
use crate::plays::{Sought, TellExchange, TellLoad};
use crate::rule::{Place, Words};
use crate::view::Claim;
use std::marker::Brand;

/// Whether the key holds the position after this: it held it, or the position was free and the key took it.
fn visit<K: KeyTest, N: Sought>(
    words: &Words<K>,
    place: &mut Place,
    word: usize,
    claim: Claim,
) -> bool
    requires pick { N.claim ≡ claim }
    requires place { (place.old.table_id ≡ words.now.table_id) × (0 < place.old.me.0.callers) }
    requires word { let cs = capacities_of words.now.key.regions.items in IsPosition cs claim.region claim.position × (word ≡ word_number cs claim.region claim.position) × (words.now.table_id.words ≡ 1 + sum cs) }
    requires key { claim.key < 2 ^ 64 - 1 }
    requires allowed { K.passes (capacity_of (capacities_of words.now.key.regions.items) claim.region) claim.key }
    requires reached { IsReached (capacities_of words.now.key.regions.items) place.old.me.0.trail claim }
    ensures place { (place.new.table_id ≡ place.old.table_id) × (place.new.id ≡ place.old.id) × (place.new.me.1 ≡ place.old.me.1) }
    ensures knows { Knows K.passes place.new.me.0 }
    ensures visited { Visited claim result place.old.me.0 place.new.me.0 }
{
    let key_word = claim.key + 1;
    let found = words.load::<TellLoad<K, N>>(place, word);
    if found != 0 {
        return found == key_word;
    }
    let found = words.compare_exchange::<TellExchange<K, N>>(place, word, 0, key_word);
    found == 0 || found == key_word
}

/// Where the key's walk begins. Most keys are below the capacity, and a comparison costs a tenth of a remainder.
fn first_position(key: u64, capacity: u32) -> u32
    requires { 0 < capacity }
    ensures { result ≡ key % capacity }
{
    if key < capacity as u64 {
        key as u32
    } else {
        (key % capacity as u64) as u32
    }
}

/// A position counted on past the region's end.
fn wrapped(position: u32, capacity: u32) -> u32
    requires { position < 2 * capacity }
    ensures { result ≡ position % capacity }
{
    if position < capacity {
        position
    } else {
        position - capacity
    }
}

/// The position of the key, if one of the region's is the key's or free. The number is the region's own.
pub fn find_place<K: KeyTest>(
    words: &Words<K>,
    place: &mut Place,
    number: u32,
    region: Region,
    key: u64,
) -> Option<u32>
    requires place { (place.old.table_id ≡ words.now.table_id) × (0 < place.old.me.0.callers) }
    requires region { let cs = capacities_of words.now.key.regions.items in (number < length cs) × (region.start ≡ start_from 1 cs number) × (region.capacity ≡ capacity_of cs number) × (words.now.table_id.words ≡ 1 + sum cs) × (sum cs ≤ 2 ^ 24) }
    requires key { key < 2 ^ 64 - 1 }
    requires allowed { K.passes region.capacity key }
    requires knows { Knows K.passes place.old.me.0 }
    ensures place { (place.new.table_id ≡ place.old.table_id) × (place.new.id ≡ place.old.id) × (place.new.me.1 ≡ place.old.me.1) }
    ensures knows { Knows K.passes place.new.me.0 }
    ensures walked { Walked number region.capacity key result place.old.me.0 place.new.me.0 }
{
    let Region { start, capacity } = region;
    if capacity == 0 {
        return None;
    }
    let first = first_position(key, capacity);
    for tries in 0..capacity {
        let position = wrapped(first + tries, capacity);
        let claim = Claim {
            region: number,
            key,
            position,
        };
        if visit::<K, Brand>(words, place, (start + position) as usize, claim) {
            return Some(position);
        }
    }
    None
}
