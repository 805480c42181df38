//! The guided example of a store: a bank whose purpose is kept by every transaction, and the transactions over it.
//!
//! [`Bank`] says what is always true of the accounts and the receipts. [`PlaceOrder`] puts an order into a queue, and
//! [`CarryOut`] takes one out and moves its amount from one account to another, whole or not at all.
#![tactic(auto)]

mod bank;
mod calls;
mod carry_out;
mod place_order;

pub use bank::{Bank, ORDERS, RECEIPTS, RECEIVERS, SENDERS, bank_layout, bank_opens_law};
pub use carry_out::{Asked, CarryOut, Progress};
pub use place_order::PlaceOrder;
