//! Where the regions lie in the table.
ghost use Rattle.std.specs.Prelude.{◌≡◌, ◌+◌, ◌^◌, ◌≤◌, sum, IfOk};
ghost use Rattle.key_directory.specs.Words.{laid_out};

use std::alloc::{AllocError, Global};

/// A region begins at the word `start` and has a word for each of its positions.
#[derive(Clone, Copy)]
pub struct Region {
    pub start: u32,
    pub capacity: u32,
}

#[derive(Drop)]
pub struct Layout {
    pub regions: Vec<Region, Global>,
    /// The number of words.
    pub words: u32,
    /// The number of callers.
    pub callers: u32,
}

/// The regions side by side, behind word 0, which belongs to none.
pub fn lay_out(alloc: Global, capacities: &[u32], callers: u32) -> Result<Layout, AllocError>
    requires { sum capacities.now ≤ 2 ^ 24 }
    ensures { IfOk result (λ layout. (layout.regions.items ≡ laid_out 1 capacities.now) × (layout.words ≡ 1 + sum capacities.now) × (layout.callers ≡ callers)) }
{
    let mut regions = Vec::with_capacity(alloc, capacities.len())?;
    let mut words = 1;
    for &capacity in capacities {
        regions.push(Region {
            start: words,
            capacity,
        })?;
        words += capacity;
    }
    Ok(Layout {
        regions,
        words,
        callers,
    })
}
