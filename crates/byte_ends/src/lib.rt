//! Files that are read and sinks that are written, as traits over handed-in objects.
//!
//! Each object keeps a count of its faults that never falls, so that a caller can tell a fault of
//! reading or writing from every other ending. Objects in memory tell their bytes to contracts; the
//! machine's files and streams tell none.
#![tactic(auto)]

mod ends;
mod memory;
mod real;
#[cfg(test)]
mod tests;
mod whole;

pub use ends::{Failed, Files, ReadFault, Sink};
pub use memory::{MemoryFiles, MemorySink};
pub use real::{RealFiles, RealSink};
pub use whole::{ReadEnd, read_all, write_all};
