//! What a store is laid out as, and what it holds at the end.

use crate::{PlainList, Record, Sight};

/// The slots of a pool, and the items that it opens with in its first slots.
#[derive(Debug, Drop)]
pub struct PoolLayout {
    pub slots: u32,
    pub items: PlainList<u64>,
}

/// The structures of a store by kind, in the order of their numbers: the capacity of each map, queue and
/// log, the layout of each pool, and the number of plain cells. Pools open with their stated items; all
/// else opens empty or 0.
#[derive(Debug, Drop)]
pub struct Layout {
    pub maps: PlainList<u32>,
    pub queues: PlainList<u32>,
    pub pools: PlainList<PoolLayout>,
    pub logs: PlainList<u32>,
    pub cells: u32,
}

/// What the structures of a store hold, by kind, in the order of their numbers.
#[derive(Debug, Drop)]
pub struct StoreState {
    /// The keys that are there with their values, in key order.
    pub maps: PlainList<PlainList<(u64, u64)>>,
    /// Each queue's values, the first one first.
    pub queues: PlainList<PlainList<u64>>,
    /// Each pool's items in slot order, without the empty slots.
    pub pools: PlainList<PlainList<u64>>,
    /// Each log's values in order.
    pub logs: PlainList<PlainList<u64>>,
    /// Each plain cell's value.
    pub cells: PlainList<u64>,
}

fn may_be_shared<T: Send + Sync>(_value: &T) {}

/// Layouts, contents, records and sights may be handed to other threads and shared with them. This
/// compiles only while that is so.
pub fn cross_threads(layout: &Layout, contents: &StoreState, record: &Record, sight: &Sight) {
    may_be_shared(layout);
    may_be_shared(contents);
    may_be_shared(record);
    may_be_shared(sight);
}
