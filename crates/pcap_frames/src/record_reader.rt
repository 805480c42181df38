ghost use Rattle.std.specs.Prelude.{◌≡◌, ◌+◌, ◌≤◌, length, None, IfOk, IfErr, IfSome, MatchOption};
ghost use Rattle.capture_terms.specs.Capture.{HasMagic, has_nanos, IsAnswer};
ghost use Rattle.capture_terms.specs.declared.capture.Endianness.TheVariants.{Little, Big};
ghost use Rattle.capture_terms.specs.Numbers.{number16, number32};
ghost use Rattle.pcap_frames.specs.Answer.{refusal_of};
ghost use Rattle.pcap_frames.specs.Reader.{IsAccepted, IsNext};

use crate::capture::CaptureEnd;
use byteorder::{BigEndian, ByteOrder, LittleEndian};
use capture_terms::{Endianness, Frame, Link};

const MICROSECONDS: u32 = 0xa1b2c3d4;

const NANOSECONDS: u32 = 0xa1b23c4d;

const FILE_HEADER: usize = 24;

/// The length of a record's header, and so the least length of a record.
pub const RECORD_HEADER: usize = 16;

const MAX_LENGTH: u32 = 262144;

/// What a file header says: the byte order of the file's numbers, whether the fractions of its times are
/// nanoseconds, and the link type.
#[derive(Clone, Copy, Debug, PartialEq, Eq)]
pub struct FileHeader {
    pub order: Endianness,
    pub nanos: bool,
    pub link: u16,
}

/// What stands at a place where a record may begin.
#[derive(Clone, Copy, Debug, PartialEq, Eq)]
pub enum Next {
    Record(Frame),
    TooLong,
    Tail(u64),
}

/// The number in the two bytes at a place.
#[tactic(auto, unfolding(capture_terms::specs::Numbers::number16))]
pub fn u16_at(order: Endianness, bytes: &[u8], at: usize) -> u16
    requires { at + 2 ≤ length bytes.now }
    ensures { result ≡ number16 order bytes.now at }
{
    match order {
        Endianness::Little => LittleEndian::read_u16(&bytes[at..]),
        Endianness::Big => BigEndian::read_u16(&bytes[at..]),
    }
}

/// The number in the four bytes at a place.
#[tactic(auto, unfolding(capture_terms::specs::Numbers::number32))]
pub fn u32_at(order: Endianness, bytes: &[u8], at: usize) -> u32
    requires { at + 4 ≤ length bytes.now }
    ensures { result ≡ number32 order bytes.now at }
{
    match order {
        Endianness::Little => LittleEndian::read_u32(&bytes[at..]),
        Endianness::Big => BigEndian::read_u32(&bytes[at..]),
    }
}

// Whether the fractions of times are nanoseconds, as a magic number in this byte order tells.
fn unit_in(order: Endianness, bytes: &[u8]) -> Option<bool>
    requires { 4 ≤ length bytes.now }
    ensures { MatchOption result (¬ HasMagic order bytes.now) (λ nanos. HasMagic order bytes.now × (nanos ≡ has_nanos order bytes.now)) }
{
    match u32_at(order, bytes, 0) {
        MICROSECONDS => Some(false),
        NANOSECONDS => Some(true),
        _ => None,
    }
}

// The byte order in which the file begins with a magic number, and what that number says of times.
fn magic(bytes: &[u8]) -> Option<(Endianness, bool)>
    requires { 4 ≤ length bytes.now }
    ensures known { IfSome result (λ found. HasMagic found.0 bytes.now × (found.1 ≡ has_nanos found.0 bytes.now)) }
    ensures unknown { result ≡ None → (¬ HasMagic Little bytes.now) × (¬ HasMagic Big bytes.now) }
{
    if let Some(nanos) = unit_in(Endianness::Little, bytes) {
        return Some((Endianness::Little, nanos));
    }
    if let Some(nanos) = unit_in(Endianness::Big, bytes) {
        return Some((Endianness::Big, nanos));
    }
    None
}

/// The header at the head of a file, or why it is refused.
pub fn file_header(bytes: &[u8]) -> Result<FileHeader, CaptureEnd>
    ensures accepted { IfOk result (IsAccepted bytes.now) }
    ensures refused { IfErr result (λ end. IfSome (refusal_of end) (IsAnswer bytes.now)) }
{
    if bytes.len() < FILE_HEADER {
        return Err(CaptureEnd::Header {
            at: bytes.len() as u64,
        });
    }
    let Some((order, nanos)) = magic(bytes) else {
        return Err(CaptureEnd::Header { at: 0 });
    };
    if u16_at(order, bytes, 4) != 2 || u16_at(order, bytes, 6) != 4 {
        return Err(CaptureEnd::Version);
    }
    let link = (u32_at(order, bytes, 20) % 65536) as u16;
    if Link::numbered(link).is_none() {
        return Err(CaptureEnd::Link { number: link });
    }
    Ok(FileHeader { order, nanos, link })
}

/// What stands at a place of the file.
pub fn next_at(order: Endianness, bytes: &[u8], at: usize) -> Next
    requires { at ≤ length bytes.now }
    ensures { IsNext order bytes.now at result }
{
    let left = bytes.len() - at;
    if left < RECORD_HEADER {
        return Next::Tail(left as u64);
    }
    let frame = Frame {
        seconds: u32_at(order, bytes, at),
        fraction: u32_at(order, bytes, at + 4),
        at: at as u64 + 16,
        length: u32_at(order, bytes, at + 8),
        original: u32_at(order, bytes, at + 12),
    };
    if frame.length > MAX_LENGTH {
        Next::TooLong
    } else if left - RECORD_HEADER < frame.length as usize {
        Next::Tail(left as u64)
    } else {
        Next::Record(frame)
    }
}
