/// What rules ask of a datagram's header.
#[derive(Clone, Copy, Debug, PartialEq, Eq, PartialOrd, Ord)]
pub struct Header {
    pub source: u32,
    pub destination: u32,
    pub protocol: u8,
}

/// Data of an internet datagram that one frame carries: all of it, or the range of a fragment.
#[derive(Clone, Copy, Debug, PartialEq, Eq)]
pub struct Piece {
    pub header: Header,
    /// The identification, which the fragments of one datagram share.
    pub id: u16,
    /// Which datagram of this header and identification a fragment belongs to, counted from 0 by the
    /// times of the capture. It is 0 for a whole datagram, and before fragments are compared.
    pub generation: u32,
    /// The place of the piece in the datagram's data. It is 0 for a whole datagram.
    pub start: u32,
    /// The number of its bytes.
    pub length: u32,
    /// Whether the datagram's data ends with it. A whole datagram's does.
    pub last: bool,
    /// The place in the file of the first of its bytes.
    pub from: u64,
}

/// What a frame is by itself, before fragments are compared with each other.
#[derive(Clone, Copy, Debug, PartialEq, Eq)]
pub enum Kind {
    /// It carries no IPv4 datagram.
    Other,
    /// Its IPv4 header breaks a rule.
    Bad,
    /// It ends before its datagram does.
    Cut,
    /// It carries a whole datagram.
    Whole(Piece),
    /// It carries a fragment.
    Fragment(Piece),
}

/// The class of a frame.
#[derive(Clone, Copy, Debug, PartialEq, Eq)]
pub enum Class {
    /// It carries no IPv4 datagram.
    Other,
    /// Its IPv4 header breaks a rule.
    Bad,
    /// It ends before its datagram does.
    Cut,
    /// It carries a whole datagram.
    Whole,
    /// It carries a fragment that counts.
    Kept,
    /// It carries a fragment that clashes with an earlier one that counts.
    Aside,
}
