//! A store of maps, queues, pools, logs and plain cells over one table, whose calls become one transaction.
//!
//! [`Store::open`] lays the structures out and hands out the pass of all callers. [`StoreTx::begin`] begins an attempt; its
//! calls on several structures are answered at one version, and nothing of them is seen by others before its commit.
#![tactic(auto)]

mod cells;
mod child;
mod close;
mod commit;
mod history;
mod logs;
mod maps;
mod notes;
mod open;
mod parts;
mod pass;
mod pools;
mod queues;
mod resolve;
mod run;
mod spot;
mod store;
#[cfg(test)]
mod tests;
mod tx;

pub use cell_table::Entry;
pub use close::History;
pub use commit::{CommitEnd, Receipt};
pub use pass::StorePass;
pub use run::{Body, BodyStop, RunEnd, atomically};
pub use store::Store;
pub use store_layout::{LayoutEnd as OpenEnd, Spot};
pub use store_meaning::{Anything, Noted, Purpose};
pub use tx::StoreTx;
pub use tx_map::MapStop;
