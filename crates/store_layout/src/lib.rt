//! Which cells each structure of a store has, what a cell is for, and what cells stand for.
#![tactic(auto)]

mod arrange;
mod find;
pub mod laws;
mod opening;
mod place;
mod plan;
mod size;
mod spot;
#[cfg(test)]
mod tests;

pub use opening::opening_words;
pub use place::{LayoutEnd, Place};
pub use plan::CellPlan;
pub use size::cells_of;
pub use spot::Spot;
