//! The text of a run's journal: its committed records, and in version 2 the sights behind them.
#![tactic(auto)]

mod calls;
mod journal;
mod laws;
mod lines;
#[cfg(test)]
mod tests;
mod words;

pub use journal::{Format, Sizes, journal_text};
pub use laws::{legal_journals_law, texts_tell_law};
