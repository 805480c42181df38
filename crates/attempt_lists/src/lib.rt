//! The lists of one transaction attempt: what it has read, what it will write, and what it adds later.
//!
//! Contracts see plain lists of (cell, word) and the number of places that are reserved in each. How a cell is
//! found in a list is no part of them.
#![tactic(auto)]

mod additions;
mod cell_index;
mod cell_list;
mod cell_map;
mod chains;
mod filter;
mod kept_lists;
mod laws;
mod part;
mod read_set;
mod write_set;

pub use additions::Additions;
pub use cell_list::CellList;
pub use cell_map::CellMap;
pub use kept_lists::KeptLists;
pub use laws::put_law;
pub use read_set::{Observation, ReadSet};
pub use write_set::WriteSet;

#[cfg(test)]
mod tests;
