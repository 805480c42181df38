//! The transactions of the workers of a run, and the gate that may hold a worker up at its points.
//!
//! [`Taking`] takes a task from the pool, and hands it on: a whole frame to the queue, a fragment to its group. [`Matching`]
//! takes a datagram from the queue, and appends its findings to the log. [`Filling`] gives the next tasks to the pool.
#![tactic(auto)]

mod child;
mod filling;
mod gate;
mod matching;
mod taking;
mod told;

pub use filling::Filling;
pub use gate::{Gate, Kind, Point, Quiet};
pub use matching::Matching;
pub use taking::Taking;
