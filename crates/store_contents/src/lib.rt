//! The end of a store: the history of its records, and what its structures held, from its closed table and the keys of its maps.
//!
//! The memory is taken before, by [`ClosingRoom::of`], so that [`close_store`] takes none.
#![tactic(auto)]

mod books;
mod cells;
mod close;
mod maps;
mod queues;
mod read;
mod room;

pub use close::{ClosingRoom, close_store};
pub use read::read_contents;
pub use room::ContentsRoom;
