//! Reads captures in the pcap file format, version 2.4.
#![tactic(auto)]

mod capture;
mod record_reader;
#[cfg(test)]
mod tests;

pub use capture::{CaptureEnd, frames};
pub use capture_terms::{Capture, Frame};
pub use record_reader::{u16_at, u32_at};
