//! What is kept for the additions of an attempt.

/// How many places are kept for the additions of an attempt, beside those that its own reads, locks and writes take.
#[derive(Clone, Copy, Debug, PartialEq, Eq)]
pub struct Spare {
    /// Places for held cells.
    pub locks: u32,
    /// Places for observations.
    pub observations: u32,
    /// Places for writes.
    pub writes: u32,
}
