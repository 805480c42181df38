//! The terms in which the inspection of captures is specified: plain types of captures, frames and
//! datagrams, and in `specs/` what each of them means.
//!
//! Each function here but `Link::numbered` and `Frame::time` does nothing when it runs: its contract is
//! a law about the definitions, for the proofs of a caller.
#![tactic(auto)]

mod capture;
mod capture_laws;
mod datagram;
mod datagram_laws;
mod generation_laws;
mod group_laws;
mod plan;

pub use capture::{Capture, CaptureFault, Endianness, Frame, Link};
pub use capture_laws::{frames_lie_within, one_answer, some_answer};
pub use datagram::{Class, Header, Kind, Piece};
pub use datagram_laws::{datagram_law, numbers_law, packing_law, task_law};
pub use generation_laws::{clash_law, generation_law, worked_law};
pub use group_laws::{first_law, group_law, member_law};
pub use plan::{Group, Plan, Task};
