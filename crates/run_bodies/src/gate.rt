//! Where a worker may be held up.

/// A call on a structure that was answered, and for the two that may find nothing, whether something was there.
#[derive(Clone, Copy, Debug, PartialEq, Eq)]
pub enum Kind {
    MapGet,
    MapPut,
    MapRemove,
    Enqueue,
    Dequeue(bool),
    Take(bool),
    AppendPlaced,
}

/// A point of a worker's run.
#[derive(Clone, Copy, Debug, PartialEq, Eq)]
pub enum Point {
    /// An attempt began.
    Begun,
    /// A call on a structure was answered. A call that was stopped comes to no point.
    Called(Kind),
    /// A child began.
    ChildBegun,
    /// The calls of an attempt were made, and its commit follows.
    Committing,
    /// An attempt was committed.
    Committed,
}

/// What is called at each point of a worker's run, in the worker's thread.
pub trait Gate {
    fn at(&mut self, point: Point);
}

/// The gate that does nothing.
#[derive(Clone, Copy, Debug, Drop)]
pub struct Quiet;

impl Gate for Quiet {
    fn at(&mut self, _point: Point) {}
}
