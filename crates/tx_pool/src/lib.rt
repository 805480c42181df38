//! Pools of items in the cells of a table, one slot a cell.
#![tactic(auto)]

mod calls;
mod fill;
mod laws;
mod part;
#[cfg(test)]
mod tests;
mod walk;
mod wanted;

pub use laws::serial_law;
pub use part::PoolPart;
