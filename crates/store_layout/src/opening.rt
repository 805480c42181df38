//! The words that a store opens with.
ghost use Rattle.std.specs.Prelude.{◌≡◌, suc, ◌≤◌, ◌++◌, map, All, IfOk, OnOk};
ghost use Rattle.std.specs.List.{flat_map};
ghost use Rattle.serial_terms.specs.Ranges.{IsKept};
ghost use Rattle.store_layout.specs.Shapes.{shape_of, cells_of, IsLayout, IsPool, most_cells};
ghost use Rattle.store_layout.specs.Opening.{opening_slots, opening_words};

use crate::size::{cells_of, sum_of, sum_with_ends};
use serial_terms::{Layout, PoolLayout};
use std::alloc::{AllocError, Global};

/// The word of each cell of a store of the layout at its opening: a pool's items, each plus 1, are in its
/// first slots, and every other word is 0.
pub fn opening_words(alloc: Global, layout: &Layout) -> Result<Vec<u64>, AllocError>
    requires layout { IsLayout layout.now }
    requires small { cells_of (shape_of layout.now) ≤ most_cells }
    ensures { IfOk result (λ words. words.items ≡ opening_words layout.now) }
{
    let cells = cells_of(layout) as usize;
    let before = sum_of(layout.maps.as_slice()) + sum_with_ends(layout.queues.as_slice());
    let mut words = Vec::with_capacity(alloc, cells)?;
    words.resize(before as usize, 0)?;
    push_pools(&mut words, layout.pools.as_slice())?;
    words.resize(cells, 0)?;
    Ok(words)
}

/// Adds the words of all pools.
fn push_pools(words: &mut Vec<u64>, pools: &[PoolLayout]) -> Result<(), AllocError>
    requires { All IsPool pools.now }
    ensures { OnOk result (words.new.items ≡ words.old.items ++ flat_map opening_slots pools.now) }
{
    for pool in pools {
        push_slots(words, pool)?;
    }
    Ok(())
}

/// Adds the words of a pool.
fn push_slots(words: &mut Vec<u64>, pool: &PoolLayout) -> Result<(), AllocError>
    requires { IsPool pool.now }
    ensures { OnOk result (words.new.items ≡ words.old.items ++ opening_slots pool.now) }
{
    let items = pool.items.as_slice();
    let from = words.len();
    push_items(words, items)?;
    words.resize(from + pool.slots as usize, 0)
}

/// Adds the word of each item.
fn push_items(words: &mut Vec<u64>, items: &[u64]) -> Result<(), AllocError>
    requires { All IsKept items.now }
    ensures { OnOk result (words.new.items ≡ words.old.items ++ map (λ v. suc v) items.now) }
{
    for item in items {
        words.push(*item + 1)?;
    }
    Ok(())
}
