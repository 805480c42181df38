//! What the cells of a store mean: its purpose, the state that its cells stand for, and what an attempt's calls make of
//! that state before they are committed.
#![tactic(auto)]

pub mod laws;
mod meaning;
mod noted;
mod purpose;

pub use meaning::StoreMeaning;
pub use noted::Noted;
pub use purpose::{Anything, Purpose};
