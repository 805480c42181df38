//! What the calls of the structures of a store make of the state that an attempt has, as laws: each is a call of the serial
//! structures.
#![tactic(auto)]

pub mod laws;
