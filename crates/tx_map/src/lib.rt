//! A map in cells: a cell for each position of a region of a key directory, as attempts look at it and write it.
//!
//! The cell of a key is known by the position that the directory gives it. A call touches that cell alone, so attempts on
//! different keys never stop one another. `put` and `remove` look at nothing.
#![tactic(auto)]

mod calls;
mod laws;
mod part;
#[cfg(test)]
mod tests;

pub use part::{MapPart, MapStop};
