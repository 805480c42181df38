use capture_terms::{Endianness, Frame};

/// An interface on which packets of a section were captured, as its block describes it.
#[derive(Clone, Copy)]
pub struct Interface {
    /// The number of the link type of its packets.
    pub link: u16,
    /// The place in the file of that number.
    pub link_at: u64,
    /// How many bytes of a packet are captured at most, or 0 for all.
    pub snapshot: u32,
    /// What tells the units of its times.
    pub resolution: u8,
}

/// A packet: its frame, and the link type of its interface with that number's place in the file.
#[derive(Clone, Copy)]
pub struct Packet {
    pub link: u16,
    pub link_at: u64,
    pub frame: Frame,
}

/// What the block of a packet says of it.
#[derive(Clone, Copy)]
pub struct PacketFields {
    /// When it was captured, in units of its interface.
    pub time: u64,
    /// The place in the file of the first of its bytes.
    pub at: u64,
    /// How many of its bytes were captured.
    pub length: u32,
    /// How many bytes it had on the wire.
    pub original: u32,
    /// How many bytes have room in the block, with the packet's padding and the block's options.
    pub room: u32,
}

/// What a whole block says.
#[derive(Clone, Copy)]
pub enum Body {
    /// A section begins, in this byte order.
    Section(Endianness),
    /// The next interface of the section.
    Interface(Interface),
    Packet(Packet),
    /// The block is passed over.
    Passed,
}

/// A whole block, with its total length in bytes.
#[derive(Clone, Copy)]
pub struct Block {
    pub body: Body,
    pub size: u32,
}

/// What stands at a place where a block may begin.
#[derive(Clone, Copy)]
pub enum Next {
    Block(Block),
    /// So many bytes, which are no whole block, and the end of the file.
    Tail(u64),
    /// No block that may stand there.
    Broken,
    /// A section header whose major version isn't 1.
    OtherVersion,
}
