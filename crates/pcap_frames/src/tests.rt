use crate::{CaptureEnd, frames};
use capture_terms::Frame;
use std::alloc::{AllocError, Global};
use std::test::Fail;

/// A file header of Ethernet, with its numbers low byte first.
const LITTLE: &[u8] =
    b"\xd4\xc3\xb2\xa1\x02\x00\x04\x00\0\0\0\0\0\0\0\0\x00\x00\x04\x00\x01\x00\x00\x00";

/// The same with its numbers high byte first.
const BIG: &[u8] =
    b"\xa1\xb2\xc3\xd4\x00\x02\x00\x04\0\0\0\0\0\0\0\0\x00\x04\x00\x00\x00\x00\x00\x01";

/// The same as the first, for raw IP.
const RAW_IP: &[u8] =
    b"\xd4\xc3\xb2\xa1\x02\x00\x04\x00\0\0\0\0\0\0\0\0\x00\x00\x04\x00\x65\x00\x00\x00";

/// The same as the first, of times in nanoseconds.
const NANOS: &[u8] =
    b"\x4d\x3c\xb2\xa1\x02\x00\x04\x00\0\0\0\0\0\0\0\0\x00\x00\x04\x00\x01\x00\x00\x00";

const NANOS_BIG: &[u8] =
    b"\xa1\xb2\x3c\x4d\x00\x02\x00\x04\0\0\0\0\0\0\0\0\x00\x04\x00\x00\x00\x00\x00\x01";

/// The same as the first, of cooked packets, and of those of version 2.
const COOKED_V1: &[u8] =
    b"\xd4\xc3\xb2\xa1\x02\x00\x04\x00\0\0\0\0\0\0\0\0\x00\x00\x04\x00\x71\x00\x00\x00";

const COOKED_V2: &[u8] =
    b"\xd4\xc3\xb2\xa1\x02\x00\x04\x00\0\0\0\0\0\0\0\0\x00\x00\x04\x00\x14\x01\x00\x00";

/// The same as the first, with more in the high half of the network field.
const HIGH_NETWORK: &[u8] =
    b"\xd4\xc3\xb2\xa1\x02\x00\x04\x00\0\0\0\0\0\0\0\0\x00\x00\x04\x00\x01\x00\x07\x00";

/// The same as the first, of version 2.3.
const OLDER: &[u8] =
    b"\xd4\xc3\xb2\xa1\x02\x00\x03\x00\0\0\0\0\0\0\0\0\x00\x00\x04\x00\x01\x00\x00\x00";

/// The same as the first, of link type 147.
const OTHER_LINK: &[u8] =
    b"\xd4\xc3\xb2\xa1\x02\x00\x04\x00\0\0\0\0\0\0\0\0\x00\x00\x04\x00\x93\x00\x00\x00";

/// The header of a record of 47 bytes at one second past 1970.
const RECORD_LITTLE: &[u8] = b"\x01\0\0\0\0\0\0\0\x2f\0\0\0\x2f\0\0\0";

const RECORD_BIG: &[u8] = b"\0\0\0\x01\0\0\0\0\0\0\0\x2f\0\0\0\x2f";

const FRAME: &[u8] = &[0; 47];

const NO_BYTES: &[u8] = &[0; 16];

const NONE: &[u8] = b"";

const FOUR: &[u8] = &[0; 4];

/// Too few bytes for a record header.
const TEN: &[u8] = &[0; 10];

/// Too few bytes for a file header.
const SHORT: &[u8] = &[0; 23];

/// The header of a record of 262,145 bytes.
const LONG: &[u8] = b"\0\0\0\0\0\0\0\0\x01\0\x04\0\x01\0\x04\0";

/// The header of a record of 5 bytes, of which a file may hold fewer.
const FIVE: &[u8] = b"\0\0\0\0\0\0\0\0\x05\0\0\0\x05\0\0\0";

fn joined(alloc: Global, parts: &[&[u8]]) -> Result<Vec<u8>, AllocError> {
    let mut bytes = Vec::new(alloc);
    for part in parts {
        bytes.extend_from_slice(part)?;
    }
    Ok(bytes)
}

/// So many records of no bytes, and then other bytes.
fn many(alloc: Global, count: usize, rest: &[u8]) -> Result<Vec<u8>, AllocError> {
    let mut bytes = joined(alloc, &[LITTLE])?;
    for _ in 0..count {
        bytes.extend_from_slice(NO_BYTES)?;
    }
    bytes.extend_from_slice(rest)?;
    Ok(bytes)
}

/// Whether times are in nanoseconds, the link type, the number of frames and that of torn bytes.
fn shape(alloc: Global, bytes: &[u8]) -> Result<(bool, u16, usize, u64), CaptureEnd> {
    let capture = frames(alloc, bytes)?;
    Ok((
        capture.nanos,
        capture.link,
        capture.frames.len(),
        capture.torn,
    ))
}

#[test]
fn reads_and_refuses_captures(rt: HostRuntime) -> Result<(), Fail> {
    let alloc = rt.alloc();
    for (parts, wanted) in [
        // a file header alone, one frame in either byte order, raw IP, and high bits of the network
        ([LITTLE, NONE, NONE, NONE], Ok((false, 1, 0, 0))),
        ([LITTLE, RECORD_LITTLE, FRAME, NONE], Ok((false, 1, 1, 0))),
        ([BIG, RECORD_BIG, FRAME, NONE], Ok((false, 1, 1, 0))),
        ([RAW_IP, RECORD_LITTLE, FRAME, NONE], Ok((false, 101, 1, 0))),
        ([HIGH_NETWORK, NONE, NONE, NONE], Ok((false, 1, 0, 0))),
        // a tail of 10 bytes of a record header, and one of a record header and 4 bytes of 5
        ([LITTLE, RECORD_LITTLE, FRAME, TEN], Ok((false, 1, 1, 10))),
        ([LITTLE, FIVE, FOUR, NONE], Ok((false, 1, 0, 20))),
        // 23 bytes, another magic number, version 2.3, link type 147
        (
            [SHORT, NONE, NONE, NONE],
            Err(CaptureEnd::Header { at: 23 }),
        ),
        ([FRAME, NONE, NONE, NONE], Err(CaptureEnd::Header { at: 0 })),
        ([OLDER, NONE, NONE, NONE], Err(CaptureEnd::Version)),
        (
            [OTHER_LINK, RECORD_LITTLE, FRAME, NONE],
            Err(CaptureEnd::Link { number: 147 }),
        ),
        // a record that is too long, at the head of the file and behind a frame
        (
            [LITTLE, LONG, NONE, NONE],
            Err(CaptureEnd::Record { at: 24 }),
        ),
        (
            [LITTLE, RECORD_LITTLE, FRAME, LONG],
            Err(CaptureEnd::Record { at: 87 }),
        ),
    ] {
        assert_eq!(rt; shape(alloc, &joined(alloc, &parts)?), wanted);
    }
    Ok(())
}

#[test]
fn reads_nanoseconds_and_cooked_links(rt: HostRuntime) -> Result<(), Fail> {
    let alloc = rt.alloc();
    for (parts, wanted) in [
        ([NANOS, RECORD_LITTLE, FRAME], (true, 1, 1, 0)),
        ([NANOS_BIG, RECORD_BIG, FRAME], (true, 1, 1, 0)),
        ([COOKED_V1, RECORD_LITTLE, FRAME], (false, 113, 1, 0)),
        ([COOKED_V2, RECORD_LITTLE, FRAME], (false, 276, 1, 0)),
    ] {
        assert_eq!(rt; shape(alloc, &joined(alloc, &parts)?), Ok(wanted));
    }
    Ok(())
}

#[test]
fn counts_frames(rt: HostRuntime) -> Result<(), Fail> {
    let alloc = rt.alloc();
    assert_eq!(rt;
        shape(alloc, &many(alloc, 262144, b"")?),
        Ok((false, 1, 262144, 0))
    );
    assert_eq!(rt;
        shape(alloc, &many(alloc, 262144, FIVE)?),
        Ok((false, 1, 262144, 16))
    );
    assert_eq!(rt;
        shape(alloc, &many(alloc, 262144, LONG)?),
        Err(CaptureEnd::Record { at: 4194328 })
    );
    assert_eq!(rt;
        shape(alloc, &many(alloc, 262145, b"")?),
        Err(CaptureEnd::TooMany)
    );
    Ok(())
}

#[test]
fn tells_a_frame(rt: HostRuntime) -> Result<(), Fail> {
    let alloc = rt.alloc();
    for parts in [[LITTLE, RECORD_LITTLE, FRAME], [BIG, RECORD_BIG, FRAME]] {
        let capture = frames(alloc, &joined(alloc, &parts)?).map_err(|_| "refused")?;
        let wanted = Frame {
            seconds: 1,
            fraction: 0,
            at: 40,
            length: 47,
            original: 47,
        };
        assert_eq!(rt; capture.frames.as_slice(), [wanted].as_slice());
    }
    Ok(())
}
