//! What attempts and children saw that were not committed.

use crate::{Done, PlainList};

/// How an attempt or a child ended that was not committed.
#[derive(Clone, Copy, Debug, PartialEq, Eq)]
pub enum SightEnd {
    /// The attempt was given up.
    Aborted,
    /// Its commit was refused, since a cell was held or newer.
    Refused,
    /// Its commit was refused for want of capacity: the part had `length` values, and `adding` were to be
    /// added. The queues are the parts 0, 1 and so on, and behind them come the logs.
    Full { part: u32, length: u64, adding: u64 },
    /// The child was dropped. Its parent's calls before it stand in the sight, too.
    Child,
}

/// The calls of an attempt or a child that was not committed, with what they were answered.
#[derive(Debug, Drop)]
pub struct Sight {
    /// Who made the attempt.
    pub caller: u32,
    /// How many records its caller had committed before it.
    pub after: u64,
    /// The version at which the calls were answered.
    pub place: u64,
    pub end: SightEnd,
    /// The calls in order.
    pub dones: PlainList<Done>,
}
