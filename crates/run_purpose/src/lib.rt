//! What the store of a run is for: which records its workers may commit, which of its states are lawful, and how it is laid
//! out for the tasks of a capture.
#![tactic(auto)]

mod item;
mod laws;
mod layout;
mod purpose;
#[cfg(test)]
mod tests;
mod word;

pub use item::Item;
pub use laws::{finished_runs_find_all_law, replies_tell_law, run_opens_lawful_law};
pub use layout::run_layout;
pub use purpose::RunPurpose;
pub use word::{Adding, GroupWord};
