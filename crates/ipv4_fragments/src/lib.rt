//! Which frames of a capture carry internet datagrams, and how fragments make up datagrams.
#![tactic(auto)]

mod assembly;
mod generations;
mod group_list;
mod groups;
mod header;
mod ranges;
mod sorting;
#[cfg(test)]
mod tests;

pub use assembly::payload;
pub use capture_terms::{Capture, Class, Frame, Group, Header, Plan, Task};
pub use sorting::classify;
