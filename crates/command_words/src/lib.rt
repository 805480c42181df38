//! The words of the command line, read into the command that they are.
#![tactic(auto)]

mod command;
mod making;
mod options;
#[cfg(test)]
mod tests;

pub use command::{Command, FileNames, Settings, command_of};
pub use making::Making;
