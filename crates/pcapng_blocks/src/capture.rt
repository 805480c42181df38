ghost use Rattle.std.specs.Prelude.{◌≡◌, ◌≤◌, true, length, OnOk, IfOk, IfErr, IfSome, IsTrue, All};
ghost use Rattle.capture_terms.specs.Capture.{Answer, IsAcceptedLink, IsWithin, contents_of};
ghost use Rattle.pcapng_blocks.specs.Answer as answer;
ghost use Rattle.pcapng_blocks.specs.Answer.{IsBlocksAnswer, answer_of, refusal_of, contents_behind};
ghost use Rattle.pcapng_blocks.specs.Times.{IsTimed};
ghost use Rattle.pcapng_blocks.specs.Reader.{before_of, Refuses, Takes};
ghost use Rattle.pcapng_blocks.specs.declared.capture.BlocksEnd.TheVariants.{Memory};
ghost use Rattle.pcapng_blocks.specs.declared.terms.Body.TheVariants as body;

use crate::block_reader::{SECTION, next_at};
use crate::laws::{one_answer_law, sound_law};
use crate::terms::{Body, Interface, Next, Packet};
use capture_terms::{Capture, Endianness, Frame, Link};
use pcap_frames::u32_at;
use std::alloc::{AllocFailed, Global};

const MAX_FRAMES: usize = 262144;

// The least total length of a block with a packet.
const LEAST_PACKET: usize = 16;

const ETHERNET: u16 = 1;

/// Why bytes are not read as a pcapng capture.
#[derive(Clone, Copy, Debug, PartialEq, Eq)]
pub enum BlocksEnd {
    /// What stands at this place is no block that may stand there: a section header without a byte order,
    /// a total length that isn't a multiple of four, is too small, or isn't said again at the end, or a
    /// packet that its block has no room for, that has more than 262,144 bytes, or whose interface the
    /// section lacks. A file of fewer than twelve bytes is one of these at place 0.
    Block { at: u64 },
    /// The major version at this place is another than 1.
    Version { at: u64 },
    /// A packet's link type, the number at this place, is none of those that are read.
    Link { number: u16, at: u64 },
    /// The packet of the block at this place has another link type than those before it.
    Mixed { at: u64 },
    /// Another packet stands behind 262,144 of them.
    TooMany,
    /// There was no memory for the frames or the interfaces. This says nothing of the file.
    Memory,
}

impl<T: Drop> From<AllocFailed<T>> for BlocksEnd {
    ghost from_gives = { λ _ e. e ≡ Memory };

    fn from(_e: AllocFailed<T>) -> BlocksEnd {
        BlocksEnd::Memory
    }
}

/// What the blocks so far say.
#[derive(Drop)]
struct Reading {
    order: Endianness,
    interfaces: Vec<Interface>,
    link: Option<u16>,
    frames: Vec<Frame>,
}

impl Reading {
    // Takes a packet whose block stands at this place, or says why it is refused.
    #[tactic(auto, unfolding(crate::specs::Answer::packet_refusal))]
    fn take_packet(&mut self, at: usize, packet: Packet) -> Result<(), BlocksEnd>
        ensures taken { OnOk result (Takes self.old at (body.Packet packet) self.new) }
        ensures refused { IfErr result (λ end. IfSome (refusal_of end) (Refuses self.old at (body.Packet packet))) }
    {
        if Link::numbered(packet.link).is_none() {
            return Err(BlocksEnd::Link {
                number: packet.link,
                at: packet.link_at,
            });
        }
        if self.link.is_some_and(|other| other != packet.link) {
            return Err(BlocksEnd::Mixed { at: at as u64 });
        }
        if self.frames.len() >= MAX_FRAMES {
            return Err(BlocksEnd::TooMany);
        }
        self.frames.push(packet.frame)?;
        self.link = Some(packet.link);
        Ok(())
    }

    // Takes what a block at this place says, or says why it is refused.
    fn take(&mut self, at: usize, body: Body) -> Result<(), BlocksEnd>
        ensures taken { OnOk result (Takes self.old at body self.new) }
        ensures refused { IfErr result (λ end. IfSome (refusal_of end) (Refuses self.old at body)) }
    {
        match body {
            Body::Section(order) => {
                self.order = order;
                self.interfaces.clear();
            }
            Body::Interface(interface) => self.interfaces.push(interface)?,
            Body::Packet(packet) => self.take_packet(at, packet)?,
            Body::Passed => (),
        }
        Ok(())
    }

    // The capture of these packets, behind which so many bytes are left.
    fn into_capture(self, torn: u64) -> Capture
        ensures { contents_of result ≡ contents_behind (before_of self) torn }
    {
        Capture {
            nanos: true,
            link: self.link.unwrap_or(ETHERNET),
            frames: self.frames,
            torn,
        }
    }
}

/// Goes from block to block.
fn walk(alloc: Global, bytes: &[u8]) -> Result<Capture, BlocksEnd>
    ensures { IfSome (answer_of result) (IsBlocksAnswer bytes.now) }
{
    let most = (bytes.len() / LEAST_PACKET).min(MAX_FRAMES);
    let Ok(frames) = Vec::with_capacity(alloc, most) else {
        return Err(BlocksEnd::Memory);
    };
    let mut reading = Reading {
        order: Endianness::Little,
        interfaces: Vec::new(alloc),
        link: None,
        frames,
    };
    let mut at = 0;
    loop {
        match next_at(reading.order, &reading.interfaces, bytes, at) {
            Next::Block(block) => {
                reading.take(at, block.body)?;
                at += block.size as usize;
            }
            Next::Tail(torn) => return Ok(reading.into_capture(torn)),
            Next::Broken => return Err(BlocksEnd::Block { at: at as u64 }),
            Next::OtherVersion => return Err(BlocksEnd::Version { at: at as u64 + 12 }),
        }
    }
}

/// Whether the bytes begin as a pcapng file does, with the type of a section header.
pub fn is_pcapng(bytes: &[u8]) -> bool
    ensures { result ≡ answer.is_pcapng bytes.now }
{
    if bytes.len() < 4 {
        return false;
    }
    u32_at(Endianness::Little, bytes, 0) == SECTION
}

/// The capture that a file in the pcapng format holds, as the draft "PCAP Next Generation (pcapng) Capture
/// File Format" lays it out: the frames of its enhanced and simple packets in their order, their link type,
/// and the number of bytes at its end that are no whole block.
///
/// A file may have several sections, each in its own byte order and with its own interfaces. The times of
/// an enhanced packet are counted in the units of its interface, a power of ten or of two in a second, and
/// come as whole seconds since 1970, of which the low 32 bits are kept, and nanoseconds; a simple packet has
/// the time 0. All packets have one link type, and a capture without any has 1. Blocks of other types, the
/// minor version, the length of a section and all options but the first resolution are passed over. The
/// frames keep the places of their bytes, and no byte is copied.
///
/// A file that is no capture is refused for the first reason that holds, by `Block`, `Version`, `Link`,
/// `Mixed` or `TooMany`, at the first place where one does. `Memory` may come for any file.
pub fn blocks(alloc: Global, bytes: &[u8]) -> Result<Capture, BlocksEnd>
    requires { IsTrue (answer.is_pcapng bytes.now) }
    // The capture is the one that the file is; a refusal has its reason.
    ensures found { IfSome (answer_of result) (IsBlocksAnswer bytes.now) }

    // A file that is a capture gives it, and one to be refused is refused, unless memory runs out.
    ensures only { (answer : Answer) → IsBlocksAnswer bytes.now answer → IfSome (answer_of result) (λ given. given ≡ answer) }
    ensures nanos { IfOk result (λ capture. capture.nanos ≡ true) }
    ensures times { IfOk result (λ capture. All IsTimed capture.frames.items) }
    ensures within { IfOk result (λ capture. All (IsWithin bytes.now) capture.frames.items) }
    ensures few { IfOk result (λ capture. length capture.frames.items ≤ 262144) }
    ensures link { IfOk result (λ capture. IsAcceptedLink capture.link) }
{
    one_answer_law();
    sound_law();
    walk(alloc, bytes)
}
