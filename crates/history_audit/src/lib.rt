//! The audit of a journal: whether some legal run wrote it, and else the first line that none could have.
#![tactic(auto)]

#[cfg(test)]
mod broken_tests;
mod calls;
mod counts;
mod ledger;
mod lines;
mod ranges;
mod replay;
mod sights;
mod structures;
#[cfg(test)]
mod tests;
mod verdict;
#[cfg(test)]
mod verdict_tests;
mod words;

pub use lines::{Sizes, opening, record};
pub use sights::sight;
pub use verdict::{Verdict, audit};
