//! Committed transactions.

use crate::{Done, PlainList};

/// One committed transaction.
#[derive(Debug, Drop)]
pub struct Record {
    /// Who committed it.
    pub caller: u32,
    /// How many records its caller committed before it.
    pub index: u64,
    /// The version it was committed at. A writer's is its own; readers may share one.
    pub place: u64,
    /// Whether it wrote a cell or placed an addition.
    pub writer: bool,
    /// Its calls in order, those of its committed children at their places. Those of dropped children
    /// aren't there.
    pub dones: PlainList<Done>,
}
