//! The serial structures that a store's transactions are explained by: their calls and replies,
//! committed records, what attempts saw that were not committed, what a store is laid out as and what it
//! holds at the end.
#![tactic(auto)]

mod call;
mod committed;
pub mod laws;
mod list;
pub mod purpose;
mod sight;
mod store;
#[cfg(test)]
mod tests;

pub use call::{Call, Done, Reply};
pub use committed::Record;
pub use list::PlainList;
pub use sight::{Sight, SightEnd};
pub use store::{Layout, PoolLayout, StoreState, cross_threads};
