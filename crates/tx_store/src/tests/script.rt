//! What callers do in a test of a store, line by line, and what they are answered.

use crate::{CommitEnd, MapStop, Receipt};
use std::alloc::AllocError;
use tx_core::Stop;

/// Who does it: the callers 0 and 1.
#[derive(Clone, Copy, Debug, PartialEq, Eq)]
pub(super) enum Who {
    First,
    Second,
}

/// What a caller does next. A call is on the first structure of its kind.
#[derive(Clone, Copy, Debug, PartialEq, Eq)]
pub(super) enum Ask {
    Begin,
    Commit,
    Abort,
    MapGet { key: u64 },
    MapPut { key: u64, value: u64 },
    MapPutIfAbsent { key: u64, value: u64 },
    MapRemove { key: u64 },
    Enqueue { value: u64 },
    Dequeue,
    QueueLen,
    Take { from: u32 },
    Give { value: u64, from: u32 },
    Append { value: u64 },
    AppendPlaced { value: u64 },
    LogRead { at: u64 },
    LogLen,
    CellGet,
    CellPut { value: u64 },
}

/// What it is answered.
#[derive(Clone, Copy, Debug, PartialEq, Eq)]
pub(super) enum Answer {
    Done,
    Found(Option<u64>),
    Number(u64),
    Flag(bool),
    Stopped(Stop),
    KeysFull { capacity: u32 },
    Committed(Receipt),
    Refused(CommitEnd),
    /// No attempt is open, or one is, or it is stopped, or the store has no such structure.
    Unfit,
}

impl Answer {
    pub(super) fn of_found(answer: Result<Option<u64>, Stop>) -> Answer {
        match answer {
            Ok(value) => Answer::Found(value),
            Err(stop) => Answer::Stopped(stop),
        }
    }

    pub(super) fn of_number(answer: Result<u64, Stop>) -> Answer {
        match answer {
            Ok(number) => Answer::Number(number),
            Err(stop) => Answer::Stopped(stop),
        }
    }

    pub(super) fn of_flag(answer: Result<bool, Stop>) -> Answer {
        match answer {
            Ok(flag) => Answer::Flag(flag),
            Err(stop) => Answer::Stopped(stop),
        }
    }

    pub(super) fn of_write(answer: Result<(), AllocError>) -> Answer {
        match answer {
            Ok(()) => Answer::Done,
            Err(AllocError) => Answer::Stopped(Stop::Memory),
        }
    }

    pub(super) fn of_lookup(answer: Result<Option<u64>, MapStop>) -> Answer {
        match answer {
            Ok(value) => Answer::Found(value),
            Err(stop) => Answer::of_stop(stop),
        }
    }

    pub(super) fn of_change(answer: Result<(), MapStop>) -> Answer {
        match answer {
            Ok(()) => Answer::Done,
            Err(stop) => Answer::of_stop(stop),
        }
    }

    fn of_stop(stop: MapStop) -> Answer {
        match stop {
            MapStop::Stop(stop) => Answer::Stopped(stop),
            MapStop::KeysFull { capacity } => Answer::KeysFull { capacity },
        }
    }
}
