//! The run of the workers: how its store opens, which records a worker may commit, and the states that
//! stand between records.
#![tactic(auto)]

pub mod from_capture;
pub mod laws;
