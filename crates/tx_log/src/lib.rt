//! A log of values in a part of the cells of a table.
//!
//! The cell of its end has its length, and the cells behind that its entries. A value is added when the attempt commits:
//! [`LogPart::append`] looks at nothing, so that two attempts that only add don't stop one another, and
//! [`LogPart::resolve`] places what waits under the lock of the end. An attempt sees its own additions behind the entries.
#![tactic(auto)]

mod calls;
mod laws;
mod part;
mod resolve;
#[cfg(test)]
mod tests;

pub use laws::serial_law;
pub use part::LogPart;
