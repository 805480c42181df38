//! The one serial history of a store, as laws over what a pass knows of its cells.
#![tactic(auto)]

mod close;
mod laws;
mod meaning;
mod merge;
#[cfg(test)]
mod tests;

pub use close::close_with_history;
pub use laws::{
    books_by_key_law, fitting_history_law, fitting_whole_law, one_history_law, whole_history_law,
};
pub use meaning::StateMeaning;
pub use merge::{RecordBook, merge_books, room_for};
