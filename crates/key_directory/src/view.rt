//! What a seat at the directory's table knows. No value of `Step` or `View` is ever made.
use std::collections::LinkedList;

/// A key that has this position of this region for good.
#[derive(Clone, Copy)]
pub struct Claim {
    pub region: u32,
    pub key: u64,
    pub position: u32,
}

/// One atomic step of a pass.
pub enum Step {
    /// Region, position and the word found: 0 where the position was free, else the key plus 1.
    Load(u32, u32, u64),
    /// The same, of a compare-exchange that puts a key where it finds the position free.
    Exchange(u32, u32, u64),
    /// A load of word 0, as a split or a join of passes makes.
    Meeting,
}

pub struct View {
    /// The number of positions of each region.
    pub capacities: LinkedList<u32>,
    /// The caller numbers of the whole directory.
    pub total: u32,
    /// How many of them this seat has; 0 where it was joined to another.
    pub callers: u32,
    pub claims: LinkedList<Claim>,
    /// In the order in which they were made.
    pub trail: LinkedList<Step>,
}
