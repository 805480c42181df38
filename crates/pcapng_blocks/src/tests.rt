use crate::{BlocksEnd, blocks, is_pcapng};
use capture_terms::Frame;
use std::alloc::{AllocError, Global};
use std::test::Fail;

/// A section header, with its numbers low byte first.
const SECTION: &[u8] =
    b"\x0a\x0d\x0d\x0a\x1c\0\0\0\x4d\x3c\x2b\x1a\x01\0\0\0\xff\xff\xff\xff\xff\xff\xff\xff\x1c\0\0\0";

/// The same with its numbers high byte first.
const SECTION_BIG: &[u8] =
    b"\x0a\x0d\x0d\x0a\0\0\0\x1c\x1a\x2b\x3c\x4d\0\x01\0\0\xff\xff\xff\xff\xff\xff\xff\xff\0\0\0\x1c";

/// The same as the first, of version 2.0, of another magic number, and of a total length of 24.
const SECTION_TWO: &[u8] =
    b"\x0a\x0d\x0d\x0a\x1c\0\0\0\x4d\x3c\x2b\x1a\x02\0\0\0\xff\xff\xff\xff\xff\xff\xff\xff\x1c\0\0\0";

const SECTION_OTHER: &[u8] =
    b"\x0a\x0d\x0d\x0a\x1c\0\0\0\x4d\x3c\x2b\x1b\x01\0\0\0\xff\xff\xff\xff\xff\xff\xff\xff\x1c\0\0\0";

const SECTION_SHORT: &[u8] =
    b"\x0a\x0d\x0d\x0a\x18\0\0\0\x4d\x3c\x2b\x1a\x01\0\0\0\xff\xff\xff\xff\x18\0\0\0";

/// Its first 16 bytes, and its first 11.
const SECTION_CUT: &[u8] = b"\x0a\x0d\x0d\x0a\x1c\0\0\0\x4d\x3c\x2b\x1a\x01\0\0\0";

const ELEVEN: &[u8] = b"\x0a\x0d\x0d\x0a\x1c\0\0\0\x4d\x3c\x2b";

/// An interface of Ethernet, without options and without a snapshot length.
const ETHERNET: &[u8] = b"\x01\0\0\0\x14\0\0\0\x01\0\0\0\0\0\0\0\x14\0\0\0";

const ETHERNET_BIG: &[u8] = b"\0\0\0\x01\0\0\0\x14\0\x01\0\0\0\0\0\0\0\0\0\x14";

/// The same as the first, for raw IP, of link type 147, and with a snapshot length of 8.
const RAW_IP: &[u8] = b"\x01\0\0\0\x14\0\0\0\x65\0\0\0\0\0\0\0\x14\0\0\0";

const OTHER_LINK: &[u8] = b"\x01\0\0\0\x14\0\0\0\x93\0\0\0\0\0\0\0\x14\0\0\0";

const SNAPSHOT: &[u8] = b"\x01\0\0\0\x14\0\0\0\x01\0\0\0\x08\0\0\0\x14\0\0\0";

/// The heads of an enhanced and of a simple packet of 47 bytes, and what stands behind their bytes; and the
/// same of an enhanced packet with another total length there.
const ENHANCED: &[u8] = b"\x06\0\0\0\x50\0\0\0\0\0\0\0\0\0\0\0\0\0\0\0\x2f\0\0\0\x2f\0\0\0";

const ENHANCED_END: &[u8] = b"\0\x50\0\0\0";

const ENHANCED_OTHER_END: &[u8] = b"\0\x50\0\0\x01";

const ENHANCED_BIG: &[u8] = b"\0\0\0\x06\0\0\0\x50\0\0\0\0\0\0\0\0\0\0\0\0\0\0\0\x2f\0\0\0\x2f";

const ENHANCED_BIG_END: &[u8] = b"\0\0\0\0\x50";

const SIMPLE: &[u8] = b"\x03\0\0\0\x40\0\0\0\x2f\0\0\0";

const SIMPLE_END: &[u8] = b"\0\x40\0\0\0";

/// The frame of 47 bytes, an UDP datagram to port 53 that carries "hello".
const FRAME: &[u8] =
    b"\x02\0\0\0\0\x02\x02\0\0\0\0\x01\x08\0\x45\0\0\x21\0\x01\0\0\x40\x11\0\0\x0a\0\0\x01\xc0\0\x02\x01\x0f\xa0\0\x35\0\x0d\0\0hello";

/// Enhanced packets of no bytes, of the first and of the second interface.
const FIRST: &[u8] = b"\x06\0\0\0\x20\0\0\0\0\0\0\0\0\0\0\0\0\0\0\0\0\0\0\0\0\0\0\0\x20\0\0\0";

const SECOND: &[u8] = b"\x06\0\0\0\x20\0\0\0\x01\0\0\0\0\0\0\0\0\0\0\0\0\0\0\0\0\0\0\0\x20\0\0\0";

/// One of one byte, for which its block has no room.
const NO_ROOM: &[u8] =
    b"\x06\0\0\0\x20\0\0\0\0\0\0\0\0\0\0\0\0\0\0\0\x01\0\0\0\x01\0\0\0\x20\0\0\0";

/// Simple packets of no bytes, and of 100 bytes of which 8 stand there.
const NOTHING: &[u8] = b"\x03\0\0\0\x10\0\0\0\0\0\0\0\x10\0\0\0";

const EIGHT: &[u8] = b"\x03\0\0\0\x18\0\0\0\x64\0\0\0abcdefgh\x18\0\0\0";

/// A block of another type, and one whose second total length is another.
const PASSED: &[u8] = b"\x05\0\0\0\x0c\0\0\0\x0c\0\0\0";

const OTHER_END: &[u8] = b"\x05\0\0\0\x0c\0\0\0\x10\0\0\0";

/// Total lengths of 14 and of 8.
const UNEVEN: &[u8] = b"\x05\0\0\0\x0e\0\0\0\0\0\x0e\0\0\0";

const SMALL: &[u8] = b"\x05\0\0\0\x08\0\0\0\x08\0\0\0";

const NONE: &[u8] = b"";

fn joined(alloc: Global, parts: &[&[u8]]) -> Result<Vec<u8>, AllocError> {
    let mut bytes = Vec::new(alloc);
    for part in parts {
        bytes.extend_from_slice(part)?;
    }
    Ok(bytes)
}

/// A file of five parts.
fn file(alloc: Global, parts: [&[u8]; 5]) -> Result<Vec<u8>, AllocError> {
    joined(alloc, &parts)
}

/// The link type, the number of frames and that of torn bytes.
fn shape(alloc: Global, bytes: &[u8]) -> Result<(u16, usize, u64), BlocksEnd> {
    if !is_pcapng(bytes) {
        return Err(BlocksEnd::Memory);
    }
    let capture = blocks(alloc, bytes)?;
    Ok((capture.link, capture.frames.len(), capture.torn))
}

#[test]
fn reads_files_of_blocks(rt: HostRuntime) -> Result<(), Fail> {
    let alloc = rt.alloc();
    for (parts, wanted) in [
        // without packets, with a block that is passed over, and with packets of both kinds
        ([SECTION, NONE, NONE, NONE, NONE], (1, 0, 0)),
        ([SECTION, PASSED, RAW_IP, NONE, NONE], (1, 0, 0)),
        ([SECTION, RAW_IP, FIRST, PASSED, NOTHING], (101, 2, 0)),
        // both byte orders in one file, a second interface, and one that isn't accepted and has no packet
        (
            [SECTION_BIG, ETHERNET_BIG, SECTION, ETHERNET, FIRST],
            (1, 1, 0),
        ),
        ([SECTION, ETHERNET, ETHERNET, FIRST, SECOND], (1, 2, 0)),
        ([SECTION, ETHERNET, OTHER_LINK, FIRST, NONE], (1, 1, 0)),
        // a simple packet that is longer than the snapshot length
        ([SECTION, SNAPSHOT, EIGHT, NONE, NONE], (1, 1, 0)),
        // a packet whole and without its last five bytes; tails within a head and behind one
        (
            [SECTION, ETHERNET, ENHANCED, FRAME, ENHANCED_END],
            (1, 1, 0),
        ),
        ([SECTION, ETHERNET, ENHANCED, FRAME, NONE], (1, 0, 75)),
        ([SECTION, ETHERNET, ENHANCED_END, NONE, NONE], (1, 0, 5)),
        ([SECTION, ETHERNET, ENHANCED, NONE, NONE], (1, 0, 28)),
        ([SECTION_CUT, NONE, NONE, NONE, NONE], (1, 0, 16)),
    ] {
        assert_eq!(rt; shape(alloc, &file(alloc, parts)?), Ok(wanted));
    }
    Ok(())
}

#[test]
fn refuses_blocks(rt: HostRuntime) -> Result<(), Fail> {
    let alloc = rt.alloc();
    for (parts, at) in [
        // the second total length is another
        ([SECTION, ETHERNET, ENHANCED, FRAME, ENHANCED_OTHER_END], 48),
        // an interface of the section before, and ones that no section has
        ([SECTION, ETHERNET, FIRST, SECTION, FIRST], 108),
        ([SECTION, ETHERNET, SECOND, NONE, NONE], 48),
        ([SECTION, NOTHING, NONE, NONE, NONE], 28),
        // packets for which their blocks have no room
        ([SECTION, ETHERNET, NO_ROOM, NONE, NONE], 48),
        ([SECTION, ETHERNET, EIGHT, NONE, NONE], 48),
        // total lengths
        ([SECTION, OTHER_END, NONE, NONE, NONE], 28),
        ([SECTION, UNEVEN, NONE, NONE, NONE], 28),
        ([SECTION, SMALL, NONE, NONE, NONE], 28),
        // section headers: too few bytes, no byte order, a small total length
        ([ELEVEN, NONE, NONE, NONE, NONE], 0),
        ([SECTION_OTHER, NONE, NONE, NONE, NONE], 0),
        ([SECTION_SHORT, NONE, NONE, NONE, NONE], 0),
        ([SECTION, SECTION_OTHER, NONE, NONE, NONE], 28),
    ] {
        assert_eq!(rt;
            shape(alloc, &file(alloc, parts)?),
            Err(BlocksEnd::Block { at })
        );
    }
    Ok(())
}

#[test]
fn refuses_versions_and_links(rt: HostRuntime) -> Result<(), Fail> {
    let alloc = rt.alloc();
    for (parts, wanted) in [
        (
            [SECTION_TWO, NONE, NONE, NONE, NONE],
            BlocksEnd::Version { at: 12 },
        ),
        (
            [SECTION, SECTION_TWO, NONE, NONE, NONE],
            BlocksEnd::Version { at: 40 },
        ),
        (
            [SECTION, ETHERNET, OTHER_LINK, FIRST, SECOND],
            BlocksEnd::Link {
                number: 147,
                at: 56,
            },
        ),
        (
            [SECTION, RAW_IP, ETHERNET, FIRST, SECOND],
            BlocksEnd::Mixed { at: 100 },
        ),
    ] {
        assert_eq!(rt; shape(alloc, &file(alloc, parts)?), Err(wanted));
    }
    Ok(())
}

/// The only frame of a file.
fn only_frame(alloc: Global, parts: &[&[u8]]) -> Result<Frame, Fail> {
    let bytes = joined(alloc, parts)?;
    if !is_pcapng(&bytes) {
        return Err("not pcapng".into());
    }
    let capture = blocks(alloc, &bytes).map_err(|_| "refused")?;
    match capture.frames.as_slice() {
        [frame] => Ok(*frame),
        _ => Err("other frames".into()),
    }
}

#[test]
fn tells_a_frame(rt: HostRuntime) -> Result<(), Fail> {
    let alloc = rt.alloc();
    let frame = |at, length, original| Frame {
        seconds: 0,
        fraction: 0,
        at,
        length,
        original,
    };
    for (parts, wanted) in [
        (
            [SECTION, ETHERNET, ENHANCED, FRAME, ENHANCED_END],
            frame(76, 47, 47),
        ),
        (
            [
                SECTION_BIG,
                ETHERNET_BIG,
                ENHANCED_BIG,
                FRAME,
                ENHANCED_BIG_END,
            ],
            frame(76, 47, 47),
        ),
        (
            [SECTION, ETHERNET, SIMPLE, FRAME, SIMPLE_END],
            frame(60, 47, 47),
        ),
        ([SECTION, SNAPSHOT, EIGHT, NONE, NONE], frame(60, 8, 100)),
    ] {
        assert_eq!(rt; only_frame(alloc, &parts)?, wanted);
    }
    Ok(())
}

/// The first part of an enhanced packet of no bytes, in front of its time, and the part behind that.
const TIMED: &[u8] = b"\x06\0\0\0\x20\0\0\0\0\0\0\0";

const TIMED_END: &[u8] = b"\0\0\0\0\0\0\0\0\x20\0\0\0";

/// Interfaces with a resolution: of nanoseconds, seconds, 2^10, 2^40 and 10^30 units in a second.
const NANOS: &[u8] = b"\x01\0\0\0\x1c\0\0\0\x01\0\0\0\0\0\0\0\x09\0\x01\0\x09\0\0\0\x1c\0\0\0";

const SECONDS: &[u8] = b"\x01\0\0\0\x1c\0\0\0\x01\0\0\0\0\0\0\0\x09\0\x01\0\0\0\0\0\x1c\0\0\0";

const BINARY: &[u8] = b"\x01\0\0\0\x1c\0\0\0\x01\0\0\0\0\0\0\0\x09\0\x01\0\x8a\0\0\0\x1c\0\0\0";

const FINE_BINARY: &[u8] =
    b"\x01\0\0\0\x1c\0\0\0\x01\0\0\0\0\0\0\0\x09\0\x01\0\xa8\0\0\0\x1c\0\0\0";

const FINEST: &[u8] = b"\x01\0\0\0\x1c\0\0\0\x01\0\0\0\0\0\0\0\x09\0\x01\0\x1e\0\0\0\x1c\0\0\0";

/// The same as the third, behind a name of five bytes.
const NAMED: &[u8] =
    b"\x01\0\0\0\x28\0\0\0\x01\0\0\0\0\0\0\0\x02\0\x05\0eth01\0\0\0\x09\0\x01\0\x8a\0\0\0\x28\0\0\0";

/// Options that tell no resolution: one behind the end of the options, one of two bytes, and one that
/// doesn't fit.
const ENDED: &[u8] =
    b"\x01\0\0\0\x20\0\0\0\x01\0\0\0\0\0\0\0\0\0\0\0\x09\0\x01\0\x8a\0\0\0\x20\0\0\0";

const TWO_BYTES: &[u8] = b"\x01\0\0\0\x1c\0\0\0\x01\0\0\0\0\0\0\0\x09\0\x02\0\x8a\0\0\0\x1c\0\0\0";

const CUT: &[u8] = b"\x01\0\0\0\x18\0\0\0\x01\0\0\0\0\0\0\0\x09\0\x01\0\x18\0\0\0";

#[test]
fn tells_times(rt: HostRuntime) -> Result<(), Fail> {
    let alloc = rt.alloc();
    // 1,500,000 and 1,500,000,000 units, 1,536 and 1,536 * 2^30 units, 2^33 + 1 units, the most of all
    let micros = b"\0\0\0\0\x60\xe3\x16\0";
    let nanos = b"\0\0\0\0\0\x2f\x68\x59";
    let binary = b"\0\0\0\0\0\x06\0\0";
    let fine = b"\x80\x01\0\0\0\0\0\0";
    let late = b"\x02\0\0\0\x01\0\0\0";
    let last = b"\xff\xff\xff\xff\xff\xff\xff\xff";
    for (interface, time, wanted) in [
        (ETHERNET, micros, (1, 500_000_000)),
        (NANOS, nanos, (1, 500_000_000)),
        (BINARY, binary, (1, 500_000_000)),
        (NAMED, binary, (1, 500_000_000)),
        (FINE_BINARY, fine, (1, 500_000_000)),
        // behind 32 bits the seconds are cut
        (SECONDS, late, (1, 0)),
        // a time below a nanosecond
        (FINEST, last, (0, 0)),
        // microseconds, for want of a resolution
        (ENDED, binary, (0, 1_536_000)),
        (TWO_BYTES, binary, (0, 1_536_000)),
        (CUT, binary, (0, 1_536_000)),
    ] {
        let frame = only_frame(alloc, &[SECTION, interface, TIMED, time, TIMED_END])?;
        assert_eq!(rt; (frame.seconds, frame.fraction), wanted);
    }
    Ok(())
}

#[test]
fn counts_frames(rt: HostRuntime) -> Result<(), Fail> {
    let alloc = rt.alloc();
    let mut bytes = joined(alloc, &[SECTION, ETHERNET])?;
    for _ in 0..262144 {
        bytes.extend_from_slice(NOTHING)?;
    }
    assert_eq!(rt; shape(alloc, &bytes), Ok((1, 262144, 0)));
    assert_eq!(rt;
        shape(alloc, &joined(alloc, &[&bytes, PASSED])?),
        Ok((1, 262144, 0))
    );
    assert_eq!(rt;
        shape(alloc, &joined(alloc, &[&bytes, NOTHING])?),
        Err(BlocksEnd::TooMany)
    );
    let mixed = joined(alloc, &[&bytes, RAW_IP, SECOND])?;
    assert_eq!(rt; shape(alloc, &mixed), Err(BlocksEnd::Mixed { at: 4194372 }));
    Ok(())
}

/// The heads and ends of enhanced packets of 262,144 and of 262,145 bytes, the second with the last byte
/// of the packet.
const LONGEST: &[u8] = b"\x06\0\0\0\x20\0\x04\0\0\0\0\0\0\0\0\0\0\0\0\0\0\0\x04\0\0\0\x04\0";

const LONGEST_END: &[u8] = b"\x20\0\x04\0";

const LONGER: &[u8] = b"\x06\0\0\0\x24\0\x04\0\0\0\0\0\0\0\0\0\0\0\0\0\x01\0\x04\0\x01\0\x04\0";

const LONGER_END: &[u8] = b"\0\0\0\0\x24\0\x04\0";

/// A file with a packet of this head and this end.
fn long_file(alloc: Global, head: &[u8], end: &[u8]) -> Result<Vec<u8>, AllocError> {
    let mut bytes = joined(alloc, &[SECTION, ETHERNET, head])?;
    for _ in 0..262144 {
        bytes.push(0)?;
    }
    bytes.extend_from_slice(end)?;
    Ok(bytes)
}

#[test]
fn packets_have_a_greatest_length(rt: HostRuntime) -> Result<(), Fail> {
    let alloc = rt.alloc();
    for (head, end, wanted) in [
        (LONGEST, LONGEST_END, Ok((1, 1, 0))),
        (LONGER, LONGER_END, Err(BlocksEnd::Block { at: 48 })),
    ] {
        assert_eq!(rt; shape(alloc, &long_file(alloc, head, end)?), wanted);
    }
    Ok(())
}
