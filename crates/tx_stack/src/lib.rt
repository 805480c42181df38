//! A stack on plain cells of a store, and a pattern for other structures of one's own: its calls are calls of cells, and what is
//! proved of it rests on the store's contracts alone.
#![tactic(auto)]

mod calls;
mod closed;
pub mod laws;
mod moving;
mod one;
mod part;
mod purpose;
#[cfg(test)]
mod tests;

pub use closed::{closed_stacks_law, seen_stacks_law};
pub use moving::{Moved, move_top};
pub use part::StackPart;
pub use purpose::Stacks;
