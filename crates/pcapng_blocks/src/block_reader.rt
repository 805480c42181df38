ghost use Rattle.std.specs.Prelude.{◌≡◌, ◌+◌, ◌≤◌, ◌<◌, length, slice_get};
ghost use Rattle.pcapng_blocks.specs.Blocks as terms;

use crate::options::resolution;
use crate::terms::{Block, Body, Interface, Next, Packet, PacketFields};
use crate::times::seconds_and_nanoseconds;
use capture_terms::{Endianness, Frame};
use pcap_frames::{u16_at, u32_at};

/// The type of a section header. It reads the same in either byte order.
pub const SECTION: u32 = 0x0a0d0d0a;

const INTERFACE: u32 = 1;

const SIMPLE: u32 = 3;

const ENHANCED: u32 = 6;

const BYTE_ORDER: u32 = 0x1a2b3c4d;

const MAX_LENGTH: u32 = 262144;

// The byte order that a section header tells.
#[tactic(auto, unfolding(crate::specs::Blocks::section_order))]
fn section_order(bytes: &[u8], at: usize) -> Option<Endianness>
    requires { at + 12 ≤ length bytes.now }
    ensures { result ≡ terms.section_order bytes.now at }
{
    if u32_at(Endianness::Little, bytes, at + 8) == BYTE_ORDER {
        Some(Endianness::Little)
    } else if u32_at(Endianness::Big, bytes, at + 8) == BYTE_ORDER {
        Some(Endianness::Big)
    } else {
        None
    }
}

// The byte order of the block at a place.
#[tactic(auto, unfolding(crate::specs::Blocks::order_at))]
fn order_at(order: Endianness, bytes: &[u8], at: usize) -> Option<Endianness>
    requires { at + 12 ≤ length bytes.now }
    ensures { result ≡ terms.order_at order bytes.now at }
{
    if u32_at(Endianness::Little, bytes, at) == SECTION {
        section_order(bytes, at)
    } else {
        Some(order)
    }
}

#[tactic(auto, unfolding(crate::specs::Blocks::least_size))]
fn least_size(kind: u32) -> u32
    ensures size { result ≡ terms.least_size kind }
    ensures least { 12 ≤ result }
{
    match kind {
        SECTION => 28,
        INTERFACE => 20,
        ENHANCED => 32,
        SIMPLE => 16,
        _ => 12,
    }
}

// The section that a whole header begins.
#[tactic(auto, unfolding(crate::specs::Blocks::section_at))]
fn section_at(order: Endianness, bytes: &[u8], at: usize, size: u32) -> Next
    requires { at + 28 ≤ length bytes.now }
    ensures { result ≡ terms.section_at order bytes.now at size }
{
    if u16_at(order, bytes, at + 12) == 1 {
        Next::Block(Block {
            body: Body::Section(order),
            size,
        })
    } else {
        Next::OtherVersion
    }
}

// The interface that a whole block describes.
#[tactic(auto, unfolding(crate::specs::Blocks::interface_at))]
fn interface_at(order: Endianness, bytes: &[u8], at: usize, size: u32) -> Interface
    requires least { 20 ≤ size }
    requires whole { at + size ≤ length bytes.now }
    ensures { result ≡ terms.interface_at order bytes.now at size }
{
    let end = at + size as usize - 4;
    Interface {
        link: u16_at(order, bytes, at + 8),
        link_at: at as u64 + 8,
        snapshot: u32_at(order, bytes, at + 12),
        resolution: resolution(order, bytes, end, at + 16),
    }
}

// The packet of these fields, if its block has room for it.
#[tactic(auto, unfolding(crate::specs::Blocks::packet_at))]
fn packet_at(interface: &Interface, fields: PacketFields, size: u32) -> Next
    ensures { result ≡ terms.packet_at interface.now fields size }
{
    if fields.length > fields.room || fields.length > MAX_LENGTH {
        return Next::Broken;
    }
    let (seconds, fraction) = seconds_and_nanoseconds(interface.resolution, fields.time);
    let frame = Frame {
        seconds,
        fraction,
        at: fields.at,
        length: fields.length,
        original: fields.original,
    };
    let packet = Packet {
        link: interface.link,
        link_at: interface.link_at,
        frame,
    };
    Next::Block(Block {
        body: Body::Packet(packet),
        size,
    })
}

#[tactic(auto, unfolding(crate::specs::Blocks::enhanced_fields))]
fn enhanced_fields(order: Endianness, bytes: &[u8], at: usize, size: u32) -> PacketFields
    requires least { 32 ≤ size }
    requires whole { at + size ≤ length bytes.now }
    ensures { result ≡ terms.enhanced_fields order bytes.now at size }
{
    let high = u64::from(u32_at(order, bytes, at + 12));
    let low = u64::from(u32_at(order, bytes, at + 16));
    PacketFields {
        time: high * 4_294_967_296 + low,
        at: at as u64 + 28,
        length: u32_at(order, bytes, at + 20),
        original: u32_at(order, bytes, at + 24),
        room: size - 32,
    }
}

// The packet of a whole enhanced block.
#[tactic(auto, unfolding(crate::specs::Blocks::enhanced_at))]
fn enhanced_at(
    order: Endianness,
    interfaces: &[Interface],
    bytes: &[u8],
    at: usize,
    size: u32,
) -> Next
    requires least { 32 ≤ size }
    requires whole { at + size ≤ length bytes.now }
    ensures { result ≡ terms.enhanced_at order interfaces.now bytes.now at size }
{
    let number = u32_at(order, bytes, at + 8) as usize;
    match interfaces.get(number) {
        Some(interface) => packet_at(interface, enhanced_fields(order, bytes, at, size), size),
        None => Next::Broken,
    }
}

// How many of so many bytes were captured on an interface of this snapshot length.
fn captured_of(snapshot: u32, original: u32) -> u32
    ensures { result ≡ terms.captured_of snapshot original }
{
    if snapshot == 0 {
        original
    } else {
        original.min(snapshot)
    }
}

#[tactic(auto, unfolding(crate::specs::Blocks::simple_fields))]
fn simple_fields(
    interface: &Interface,
    order: Endianness,
    bytes: &[u8],
    at: usize,
    size: u32,
) -> PacketFields
    requires least { 16 ≤ size }
    requires whole { at + size ≤ length bytes.now }
    ensures { result ≡ terms.simple_fields interface.now order bytes.now at size }
{
    let original = u32_at(order, bytes, at + 8);
    PacketFields {
        time: 0,
        at: at as u64 + 12,
        length: captured_of(interface.snapshot, original),
        original,
        room: size - 16,
    }
}

// The packet of a whole simple block.
#[tactic(auto, unfolding(crate::specs::Blocks::simple_at))]
fn simple_at(
    order: Endianness,
    interfaces: &[Interface],
    bytes: &[u8],
    at: usize,
    size: u32,
) -> Next
    requires least { 16 ≤ size }
    requires whole { at + size ≤ length bytes.now }
    ensures { result ≡ terms.simple_at order interfaces.now bytes.now at size }
{
    match interfaces.first() {
        Some(interface) => packet_at(
            interface,
            simple_fields(interface, order, bytes, at, size),
            size,
        ),
        None => Next::Broken,
    }
}

// What a whole block of this type says.
#[tactic(auto, unfolding(crate::specs::Blocks::whole_at, crate::specs::Blocks::least_size))]
fn whole_at(
    order: Endianness,
    interfaces: &[Interface],
    bytes: &[u8],
    at: usize,
    kind: u32,
    size: u32,
) -> Next
    requires least { terms.least_size kind ≤ size }
    requires whole { at + size ≤ length bytes.now }
    ensures { result ≡ terms.whole_at order interfaces.now bytes.now at kind size }
{
    match kind {
        SECTION => section_at(order, bytes, at, size),
        INTERFACE => Next::Block(Block {
            body: Body::Interface(interface_at(order, bytes, at, size)),
            size,
        }),
        ENHANCED => enhanced_at(order, interfaces, bytes, at, size),
        SIMPLE => simple_at(order, interfaces, bytes, at, size),
        _ => Next::Block(Block {
            body: Body::Passed,
            size,
        }),
    }
}

// What stands at a place, where the block has this type and this total length.
#[tactic(auto, unfolding(crate::specs::Blocks::sized_at))]
fn sized_at(
    order: Endianness,
    interfaces: &[Interface],
    bytes: &[u8],
    at: usize,
    kind: u32,
    size: u32,
) -> Next
    requires { at + 12 ≤ length bytes.now }
    ensures { result ≡ terms.sized_at order interfaces.now bytes.now at kind size }
{
    if size % 4 != 0 || size < least_size(kind) {
        return Next::Broken;
    }
    let left = bytes.len() - at;
    if left < size as usize {
        return Next::Tail(left as u64);
    }
    if u32_at(order, bytes, at + size as usize - 4) != size {
        return Next::Broken;
    }
    whole_at(order, interfaces, bytes, at, kind, size)
}

/// What stands at a place of the file, in a section of this byte order and with these interfaces.
#[tactic(auto, unfolding(crate::specs::Blocks::next_at))]
pub fn next_at(order: Endianness, interfaces: &[Interface], bytes: &[u8], at: usize) -> Next
    requires { at ≤ length bytes.now }
    ensures { result ≡ terms.next_at order interfaces.now bytes.now at }
{
    let left = bytes.len() - at;
    if left < 12 {
        return if at == 0 {
            Next::Broken
        } else {
            Next::Tail(left as u64)
        };
    }
    match order_at(order, bytes, at) {
        Some(own) => {
            let kind = u32_at(own, bytes, at);
            let size = u32_at(own, bytes, at + 4);
            sized_at(own, interfaces, bytes, at, kind, size)
        }
        None => Next::Broken,
    }
}
