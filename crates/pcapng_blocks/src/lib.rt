//! Reads captures in the pcapng file format: files of blocks, as the draft "PCAP Next Generation (pcapng)
//! Capture File Format" lays them out.
#![tactic(auto)]

mod block_reader;
mod capture;
mod laws;
mod options;
mod terms;
#[cfg(test)]
mod tests;
mod times;

pub use capture::{BlocksEnd, blocks, is_pcapng};
pub use laws::{one_answer_law, some_answer_law, sound_law};
