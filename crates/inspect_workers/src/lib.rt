//! The run of workers over the tasks of a capture, in transactions of one store.
//!
//! A worker goes by turns. In each it matches a datagram that is ready, or else takes a task; where there is neither, its run is
//! done. [`work`] is all turns of one worker, and [`refill`] gives the next tasks once all that were given are done.
#![tactic(auto)]

mod batches;
mod fills;
mod inspection;
mod open;
mod seats;
#[cfg(test)]
mod tests;
mod transactions;
mod turns;
mod works;

pub use fills::{RefillEnd, refill};
pub use inspection::{InspectEnd, Outcome, inspect};
pub use open::open_run;
pub use run_bodies::{Gate, Kind, Point, Quiet};
pub use run_purpose::RunPurpose;
pub use serial_terms::StoreState;
pub use turns::{TurnEnd, turn};
pub use tx_store::History;
pub use works::{WorkEnd, work};
