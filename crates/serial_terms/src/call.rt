//! Calls of a transaction, and what they were answered.

/// One call of a transaction on a store. Structures are named by their numbers, counted from 0 within
/// their kind. Keys and values are below 2^64 - 1, except a plain cell's value, which is any `u64`.
#[derive(Clone, Copy, Debug, PartialEq, Eq)]
pub enum Call {
    /// Looks up a key. Answers its value, or `Absent`.
    MapGet { map: u32, key: u64 },
    /// Gives a key a value, whether it had one or not. Answers `Nothing`.
    MapPut { map: u32, key: u64, value: u64 },
    /// Makes a key absent, whether it was there or not. Answers `Nothing`.
    MapRemove { map: u32, key: u64 },
    /// Answers the key's value and changes nothing, or answers `Absent` and gives the key this value.
    MapPutIfAbsent { map: u32, key: u64, value: u64 },
    /// Puts a value last in a queue. Answers `Nothing`.
    Enqueue { queue: u32, value: u64 },
    /// Removes a queue's first value and answers it, or answers `Absent` where the queue is empty.
    Dequeue { queue: u32 },
    /// Answers a queue's length.
    QueueLen { queue: u32 },
    /// Removes some item of a pool and answers it, or answers `Absent` where the pool is empty.
    Take { pool: u32 },
    /// Adds an item to a pool and answers true, or answers false where every slot is taken.
    Give { pool: u32, value: u64 },
    /// Puts a value last in a log. Answers `Nothing`.
    Append { log: u32, value: u64 },
    /// Puts a value last in a log. Answers the place where it stands, the length before.
    AppendPlaced { log: u32, value: u64 },
    /// Answers the log's value at place `i`, or `Absent` where the log is no longer than `i`.
    LogRead { log: u32, i: u64 },
    /// Answers a log's length.
    LogLen { log: u32 },
    /// Answers a plain cell's value.
    CellGet { cell: u32 },
    /// Gives a plain cell a value. Answers `Nothing`.
    CellPut { cell: u32, value: u64 },
}

/// What a call was answered.
#[derive(Clone, Copy, Debug, PartialEq, Eq)]
pub enum Reply {
    /// The call has no answer.
    Nothing,
    /// The key, item or entry isn't there.
    Absent,
    /// A value, a length or a place.
    Value(u64),
    /// Whether the item was added.
    Flag(bool),
}

/// A call with its reply. Where a pool call began its walk isn't kept, and a refused call leaves none.
#[derive(Clone, Copy, Debug, PartialEq, Eq)]
pub struct Done {
    pub call: Call,
    pub reply: Reply,
    /// Whether the call was made while a child was open. It stays so after the child was committed.
    pub child: bool,
}
