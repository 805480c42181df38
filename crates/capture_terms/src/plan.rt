use crate::datagram::{Class, Header};

/// A piece of data that a worker adds to its datagram.
#[derive(Clone, Copy, Debug, PartialEq, Eq)]
pub struct Task {
    /// The number of its frame, counted from 0.
    pub frame: u32,
    /// The number of the group of a kept fragment, counted from 0. A whole datagram has none.
    pub group: Option<u32>,
    pub header: Header,
    /// The place of the piece in the datagram's data.
    pub start: u32,
    /// The place in the file of the first of its bytes.
    pub from: u64,
    /// The number of its bytes.
    pub length: u32,
    /// Whether the datagram's data ends with it.
    pub last: bool,
}

/// The fragments that share a source, a destination, a protocol and an identification, and of these
/// one generation.
#[derive(Clone, Copy, Debug, PartialEq, Eq, PartialOrd, Ord)]
pub struct Group {
    pub header: Header,
    pub id: u16,
    /// The number of the generation, counted from 0: how often the identification was used before.
    pub generation: u32,
}

/// The work that a capture gives.
#[derive(Drop)]
pub struct Plan {
    /// The class of each frame, in capture order.
    pub classes: Vec<Class>,
    /// The whole datagrams and kept fragments, in capture order.
    pub tasks: Vec<Task>,
    /// The groups, in the order of their first kept fragment.
    pub groups: Vec<Group>,
}
