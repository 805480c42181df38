// Captures in the pcapng format, through the top call.
use crate::tests::{COMMAND, GREET, HELLO, inspected, report};
use std::alloc::{AllocError, Global};
use std::test::Fail;

const SECTION: &[u8] =
    b"\x0a\x0d\x0d\x0a\x1c\0\0\0\x4d\x3c\x2b\x1a\x01\0\0\0\xff\xff\xff\xff\xff\xff\xff\xff\x1c\0\0\0";

const SECTION_BIG: &[u8] =
    b"\x0a\x0d\x0d\x0a\0\0\0\x1c\x1a\x2b\x3c\x4d\0\x01\0\0\xff\xff\xff\xff\xff\xff\xff\xff\0\0\0\x1c";

const SECTION_TWO: &[u8] =
    b"\x0a\x0d\x0d\x0a\x1c\0\0\0\x4d\x3c\x2b\x1a\x02\0\0\0\xff\xff\xff\xff\xff\xff\xff\xff\x1c\0\0\0";

const SECTION_OTHER: &[u8] =
    b"\x0a\x0d\x0d\x0a\x1c\0\0\0\x4d\x3c\x2b\x1b\x01\0\0\0\xff\xff\xff\xff\xff\xff\xff\xff\x1c\0\0\0";

const ETHERNET: &[u8] = b"\x01\0\0\0\x14\0\0\0\x01\0\0\0\0\0\0\0\x14\0\0\0";

const ETHERNET_BIG: &[u8] = b"\0\0\0\x01\0\0\0\x14\0\x01\0\0\0\0\0\0\0\0\0\x14";

const RAW_IP: &[u8] = b"\x01\0\0\0\x14\0\0\0\x65\0\0\0\0\0\0\0\x14\0\0\0";

const OTHER_LINK: &[u8] = b"\x01\0\0\0\x14\0\0\0\x93\0\0\0\0\0\0\0\x14\0\0\0";

// What stands before and behind the 47 bytes of a frame in an enhanced packet, and in a simple one.
const ENHANCED: &[u8] = b"\x06\0\0\0\x50\0\0\0\0\0\0\0\0\0\0\0\0\0\0\0\x2f\0\0\0\x2f\0\0\0";

const ENHANCED_END: &[u8] = b"\0\x50\0\0\0";

const ENHANCED_BIG: &[u8] = b"\0\0\0\x06\0\0\0\x50\0\0\0\0\0\0\0\0\0\0\0\0\0\0\0\x2f\0\0\0\x2f";

const ENHANCED_BIG_END: &[u8] = b"\0\0\0\0\x50";

const SIMPLE: &[u8] = b"\x03\0\0\0\x40\0\0\0\x2f\0\0\0";

const SIMPLE_END: &[u8] = b"\0\x40\0\0\0";

// Enhanced packets of no bytes, of the first and of the second interface.
const FIRST: &[u8] = b"\x06\0\0\0\x20\0\0\0\0\0\0\0\0\0\0\0\0\0\0\0\0\0\0\0\0\0\0\0\x20\0\0\0";

const SECOND: &[u8] = b"\x06\0\0\0\x20\0\0\0\x01\0\0\0\0\0\0\0\0\0\0\0\0\0\0\0\0\0\0\0\x20\0\0\0";

fn file_of(alloc: Global, parts: &[&[u8]]) -> Result<Vec<u8>, AllocError> {
    let mut file = Vec::new(alloc);
    for part in parts {
        file.extend_from_slice(part)?;
    }
    Ok(file)
}

#[test]
fn reports_are_those_of_the_packets(rt: HostRuntime) -> Result<(), Fail> {
    let alloc = rt.alloc();
    let frame = &HELLO[16..];
    let enhanced = [SECTION, ETHERNET, ENHANCED, frame, ENHANCED_END];
    let big = [
        SECTION_BIG,
        ETHERNET_BIG,
        ENHANCED_BIG,
        frame,
        ENHANCED_BIG_END,
    ];
    let simple = [SECTION, ETHERNET, SIMPLE, frame, SIMPLE_END];
    for parts in [enhanced, big, simple] {
        let capture = file_of(alloc, &parts)?;
        let got = inspected(&rt, alloc, &COMMAND, GREET, &capture, 0)?;
        assert_eq!(rt; got.status, 0);
        assert_eq!(rt;
            got.out.as_slice(),
            report(
                alloc,
                [1, 0, 0, 0, 1, 0, 0, 0, 1, 0, 1],
                "finding 0 greet 8\n"
            )?
            .as_slice()
        );
        assert_eq!(rt; got.faults.as_slice(), b"".as_slice());
    }
    let whole = file_of(alloc, &enhanced)?;
    assert_eq!(rt; whole.len(), 128);
    let torn = &whole[..whole.len().saturating_sub(5)];
    let got = inspected(&rt, alloc, &COMMAND, GREET, torn, 0)?;
    assert_eq!(rt; got.status, 0);
    assert_eq!(rt;
        got.out.as_slice(),
        report(alloc, [0, 0, 0, 0, 0, 0, 0, 75, 0, 0, 0], "")?.as_slice()
    );
    Ok(())
}

#[test]
fn refusals_are_told_at_their_places(rt: HostRuntime) -> Result<(), Fail> {
    let alloc = rt.alloc();
    let frame = &HELLO[16..];
    let cases: [(&[&[u8]], &str); 6] = [
        (&[SECTION_OTHER], "bad capture: block at 0\n"),
        (&[SECTION_TWO], "bad capture: version at 12\n"),
        (
            &[SECTION, ETHERNET, ENHANCED, frame, b"\0\x50\0\0\x01"],
            "bad capture: block at 48\n",
        ),
        (
            &[SECTION, OTHER_LINK, FIRST],
            "bad capture: link 147 at 36\n",
        ),
        (
            &[SECTION, ETHERNET, RAW_IP, FIRST, SECOND],
            "bad capture: mixed link at 100\n",
        ),
        (
            &[SECTION, ETHERNET, FIRST, SECTION, FIRST],
            "bad capture: block at 108\n",
        ),
    ];
    for (parts, line) in cases {
        let capture = file_of(alloc, parts)?;
        let got = inspected(&rt, alloc, &COMMAND, GREET, &capture, 0)?;
        assert_eq!(rt; got.status, 5);
        assert_eq!(rt; got.out.as_slice(), b"".as_slice());
        assert_eq!(rt; got.faults.as_slice(), line.as_bytes());
    }
    Ok(())
}

#[test]
fn a_further_packet_behind_262144_is_a_limit(rt: HostRuntime) -> Result<(), Fail> {
    let alloc = rt.alloc();
    let mut capture = file_of(alloc, &[SECTION, ETHERNET])?;
    for _ in 0..262_145 {
        capture.extend_from_slice(FIRST)?;
    }
    let got = inspected(&rt, alloc, &COMMAND, GREET, &capture, 0)?;
    assert_eq!(rt; got.status, 6);
    assert_eq!(rt; got.faults.as_slice(), b"limit: frames\n".as_slice());
    Ok(())
}
