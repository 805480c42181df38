//! What a cell of a store is for.

/// The structure that a cell belongs to, by its kind and number, and the cell's place in it. Structures and
/// places are counted from 0.
#[derive(Clone, Copy, Debug, PartialEq, Eq)]
pub enum Spot {
    /// The cell of one position of a map.
    MapKey(u32, u32),
    /// Where a queue begins and how long it is.
    QueueEnd(u32),
    /// The cell of one item of a queue.
    QueueItem(u32, u32),
    /// One slot of a pool.
    PoolSlot(u32, u32),
    /// How long a log is.
    LogEnd(u32),
    /// The cell of one entry of a log.
    LogEntry(u32, u32),
    /// A plain cell.
    Plain(u32),
}
