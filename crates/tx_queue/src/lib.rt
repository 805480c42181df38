//! A queue of values in a part of the cells of a table.
//!
//! The cell of its end has the place of its first item and its length, and the cells behind that are a ring of places. A
//! value is added when the attempt commits: [`QueuePart::enqueue`] looks at nothing, and [`QueuePart::resolve`] places what
//! waits under the lock of the end. [`QueuePart::dequeue`] holds the end from the call on, and gives an attempt its own
//! additions once the items in the cells are used up.
#![tactic(auto)]

mod calls;
mod laws;
mod part;
mod resolve;
#[cfg(test)]
mod tests;

pub use laws::serial_law;
pub use part::QueuePart;
