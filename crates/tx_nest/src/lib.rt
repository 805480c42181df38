//! Children of attempts: a part of a transaction that is merged into it, or dropped and tried again alone.
#![tactic(auto)]

mod attempt;
#[cfg(test)]
mod nest_tests;
mod over_tx;
mod tries;

pub use attempt::{Attempt, ChildBody};
pub use tries::{NestEnd, nested};
