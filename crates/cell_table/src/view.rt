//! What a seat at the table knows, as proofs see it. No value of these types is ever made.
use std::collections::LinkedList;

/// What a transaction read, wrote and answered. Each pair is a cell and a value.
pub struct Record<D> {
    pub observations: LinkedList<(u64, u64)>,
    pub writes: LinkedList<(u64, u64)>,
    pub dones: LinkedList<D>,
}

/// A caller number with the versions and records of its decided writers, newest first.
pub struct Book<D> {
    pub caller: u64,
    pub records: LinkedList<(u64, Record<D>)>,
}

/// One entry of a book as a contract sees it.
pub struct Noted<D> {
    pub place: u64,
    pub writer: bool,
    pub content: Record<D>,
}

/// A caller number with its entries, oldest first.
pub struct NotedBook<D> {
    pub caller: u64,
    pub entries: LinkedList<Noted<D>>,
}

/// One atomic step: its kind, its cell where it has one, and the word that was found or stored.
pub enum Event {
    ClockLoaded(u64),
    LockLoaded(u64, u64),
    ValueLoaded(u64, u64),
    LockExchanged(u64, u64),
    /// The version that was drawn: one more than the clock word that was found.
    VersionDrawn(u64),
    ValueStored(u64, u64),
    LockStored(u64, u64),
    SeatMoved,
}

/// The loads of a read that is under way: the cell, the version found, and the value.
pub enum OpenRead {
    NoRead,
    LockRead(u64, u64),
    ValueRead(u64, u64, u64),
}

/// How far the attempt of a seat has come.
pub enum Stage<D> {
    Open,
    /// A version is drawn.
    Drawn(u64),
    /// The version, the record, and the cells whose value is stored.
    Decided(u64, Record<D>, LinkedList<u64>),
}

pub struct View<M, D> {
    /// None of a spent view alone.
    pub meaning: Option<M>,
    pub opening: LinkedList<u64>,
    /// The number of callers of the table.
    pub total: u64,
    pub books: LinkedList<Book<D>>,
    pub draws: u64,
    /// The greatest clock word that this seat loaded or drew.
    pub known: u64,
    /// A cell, a version and the value of that version.
    pub values: LinkedList<(u64, u64, u64)>,
    /// A cell, a version and a place up to which that version stays the newest one.
    pub validations: LinkedList<(u64, u64, u64)>,
    /// Newest first.
    pub trail: LinkedList<Event>,
    /// Held cells with the versions that they had, in ascending order of the cells.
    pub held: LinkedList<(u64, u64)>,
    pub stage: Stage<D>,
    pub reading: OpenRead,
}
