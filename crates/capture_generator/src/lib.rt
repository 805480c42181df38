//! The capture that is generated from a seed, and the rules of a trial over it.
#![tactic(auto)]

mod capture;
mod draws;
mod headers;
mod packets;
#[cfg(test)]
mod tests;
mod trial;
mod written;

pub use capture::{generated, generated_is_read_law, packets_law};
pub use draws::Draws;
pub use trial::{trial_rules, trial_rules_law};
