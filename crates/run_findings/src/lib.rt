//! What rules find in the datagrams of a plan, one datagram at a time.
//!
//! A datagram is told by its task where it is whole, and else by its group and the numbers of the group's tasks in any order.
#![tactic(auto)]

mod datagrams;
mod slots;
#[cfg(test)]
mod tests;
mod values;

pub use datagrams::{group_values, whole_values};
pub use slots::{Slot, find_ahead};
