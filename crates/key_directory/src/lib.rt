//! A directory that gives each key one position of a region, for good.
//!
//! A directory has regions, each with a number of positions. [`Directory::claim`] answers the position of a key in a region:
//! where the key has none yet, it takes the first free one of the key's walk, which begins at `key mod capacity` and goes
//! round the region once. No position is ever given back, so a key keeps its position, and two keys never share one, whatever
//! the threads that share the directory do at the same time.
//!
//! A thread claims with a [`KeyPass`]. The opening hands out one pass for all callers; it's split for the threads and joined
//! again at the end. No call waits.
#![tactic(auto)]

mod directory;
mod key_list;
mod key_test;
mod layout;
mod pass;
mod plays;
mod rule;
mod seats;
mod sent;
#[cfg(test)]
mod tests;
mod view;
mod walk;

pub use directory::{Directory, KeysFull};
pub use key_list::KeyList;
pub use key_test::{BelowCapacity, EveryKey, KeyTest};
pub use pass::KeyPass;
pub use sent::threads_may_share;
