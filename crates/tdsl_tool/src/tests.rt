// What the program writes for whole inputs.
use crate::run::{Ended, quiet_gates, run_with};
use byte_ends::{Files, MemoryFiles, MemorySink, Sink};
use std::alloc::{AllocError, Global};
use std::test::Fail;
use std::thread::Threads;

pub(crate) const GREET: &[u8] = b"rule greet proto udp dport 53 has \"hello\"";

pub(crate) const SEAM: &[u8] = b"rule seam proto icmp has \"ghij\"";

// Two rules that each find something in `HELLO`.
const TWO: &[u8] = b"rule a proto any has \"h\"\nrule b proto any has \"l\"";

pub(crate) const HEADER: [u8; 24] = [
    0xd4, 0xc3, 0xb2, 0xa1, 2, 0, 4, 0, 0, 0, 0, 0, 0, 0, 0, 0, 0, 0, 4, 0, 1, 0, 0, 0,
];

// A record with an UDP datagram to port 53 that carries "hello".
pub(crate) const HELLO: [u8; 63] = [
    1, 0, 0, 0, 0, 0, 0, 0, 47, 0, 0, 0, 47, 0, 0, 0, 2, 0, 0, 0, 0, 2, 2, 0, 0, 0, 0, 1, 8, 0,
    0x45, 0, 0, 33, 0, 1, 0, 0, 0x40, 17, 0, 0, 10, 0, 0, 1, 192, 0, 2, 1, 0x0f, 0xa0, 0, 53, 0,
    13, 0, 0, 104, 101, 108, 108, 111,
];

// A fragment of an ICMP datagram.
#[derive(Clone, Copy)]
pub(crate) struct Fragment {
    pub(crate) id: u8,
    pub(crate) at: u16,
    pub(crate) more: bool,
    pub(crate) data: &'static [u8],
}

pub(crate) fn piece(id: u8, at: u16, more: bool, data: &'static [u8]) -> Fragment {
    Fragment { id, at, more, data }
}

#[derive(Drop)]
pub(crate) struct Run {
    pub(crate) status: u8,
    pub(crate) out: Vec<u8>,
    pub(crate) faults: Vec<u8>,
}

// Runs the program by workers that nothing holds up.
pub(crate) fn run_quietly<R: Threads + Sync, F: Files, O: Sink, E: Sink>(
    rt: &R,
    alloc: Global,
    words: &[String],
    files: &mut F,
    out: &mut O,
    faults: &mut E,
) -> Result<Ended, AllocError> {
    let gates = quiet_gates(alloc)?;
    Ok(run_with(rt, alloc, words, files, out, faults, gates))
}

pub(crate) fn inspected<R: Threads + Sync>(
    rt: &R,
    alloc: Global,
    words: &[&str],
    rules: &[u8],
    capture: &[u8],
    failing: u64,
) -> Result<Run, AllocError> {
    let mut list = Vec::new(alloc);
    for word in words {
        list.push(String::from_str(alloc, *word)?)?;
    }
    let mut entries = Vec::new(alloc);
    entries.push((String::from_str(alloc, "r")?, rules.to_vec(alloc)?))?;
    entries.push((String::from_str(alloc, "c")?, capture.to_vec(alloc)?))?;
    let mut files = MemoryFiles::new(entries, Vec::new(alloc));
    let mut failing_calls = Vec::new(alloc);
    failing_calls.push(failing)?;
    let mut out = MemorySink::new(alloc, 1000, failing_calls)?;
    let mut faults = MemorySink::new(alloc, 1000, Vec::new(alloc))?;
    let ended = run_quietly(rt, alloc, &list, &mut files, &mut out, &mut faults)?;
    Ok(Run {
        status: ended.status,
        out: out.written().to_vec(alloc)?,
        faults: faults.written().to_vec(alloc)?,
    })
}

// Adds the record of a fragment of at most 200 bytes that was captured at this time.
pub(crate) fn add_fragment(
    capture: &mut Vec<u8>,
    seconds: u32,
    fraction: u32,
    fragment: Fragment,
) -> Result<(), AllocError> {
    let length = (34 + fragment.data.len().min(200)) as u8;
    let flags = fragment.at / 8 % 8192;
    let more = if fragment.more { 0x20 } else { 0 };
    capture.extend_from_slice(&seconds.to_le_bytes())?;
    capture.extend_from_slice(&fraction.to_le_bytes())?;
    capture.extend_from_slice(&[length, 0, 0, 0, length, 0, 0, 0])?;
    capture.extend_from_slice(&[2, 0, 0, 0, 0, 2, 2, 0, 0, 0, 0, 1, 8, 0])?;
    capture.extend_from_slice(&[0x45, 0, 0, length - 14, 0, fragment.id])?;
    capture.extend_from_slice(&[(flags / 256) as u8 + more, (flags % 256) as u8, 64, 1, 0, 0])?;
    capture.extend_from_slice(&[10, 0, 0, 1, 192, 0, 2, 1])?;
    capture.extend_from_slice(fragment.data)
}

// A capture of fragments, one a second.
fn fragments(alloc: Global, list: &[Fragment]) -> Result<Vec<u8>, AllocError> {
    let mut capture = HEADER.to_vec(alloc)?;
    let mut seconds = 0u32;
    for fragment in list {
        add_fragment(&mut capture, seconds, 0, *fragment)?;
        seconds = seconds.wrapping_add(1);
    }
    Ok(capture)
}

// The report with these counts and finding lines.
pub(crate) fn report(
    alloc: Global,
    counts: [u32; 11],
    findings: &str,
) -> Result<Vec<u8>, AllocError> {
    let words = [
        "frames",
        "other",
        "bad",
        "cut",
        "whole",
        "kept",
        "aside",
        "torn",
        "datagrams",
        "incomplete",
        "findings",
    ];
    let mut text = String::new(alloc);
    for (word, count) in words.iter().zip(counts) {
        text.push_str(format!(in alloc; "{word} {count}\n")?.as_str())?;
    }
    text.push_str(findings)?;
    Ok(text.as_bytes().to_vec(alloc)?)
}

// The line of a fault of usage.
pub(crate) const USAGE: &str =
    "usage: inspect|journal [--workers N] [--findings N] [--window N] RULES CAPTURE | make SEED FRAMES | trial [--workers N] SEED FRAMES | audit JOURNAL\n";

pub(crate) const COMMAND: [&str; 3] = ["inspect", "r", "c"];

// The same by one worker, by four, and by sixteen.
const BY_WORKERS: [[&str; 5]; 3] = [
    ["inspect", "--workers", "1", "r", "c"],
    ["inspect", "--workers", "4", "r", "c"],
    ["inspect", "--workers", "16", "r", "c"],
];

// The header and the record header of `HELLO` with the highest byte of each number first.
const HIGH_FIRST: [u8; 40] = [
    0xa1, 0xb2, 0xc3, 0xd4, 0, 2, 0, 4, 0, 0, 0, 0, 0, 0, 0, 0, 0, 4, 0, 0, 0, 0, 0, 1, 0, 0, 0, 1,
    0, 0, 0, 0, 0, 0, 0, 47, 0, 0, 0, 47,
];

// Link headers with two tags and with three.
const TWO_TAGGED: &[u8] = &[
    2, 0, 0, 0, 0, 2, 2, 0, 0, 0, 0, 1, 0x81, 0, 0, 1, 0x88, 0xa8, 0, 2, 8, 0,
];

const THREE_TAGGED: &[u8] = &[
    2, 0, 0, 0, 0, 2, 2, 0, 0, 0, 0, 1, 0x81, 0, 0, 1, 0x88, 0xa8, 0, 2, 0x81, 0, 0, 3, 8, 0,
];

// A link header and the first bytes of a datagram with a total length of 100, and what is behind them.
const LONG_DATAGRAM: &[u8] = &[
    2, 0, 0, 0, 0, 2, 2, 0, 0, 0, 0, 1, 8, 0, 0x45, 0, 0, 100, 0, 1, 0, 0, 0x40, 17, 0, 0,
];

const ZEROS: &[u8] = &[0; 38];

const DATAGRAM: &[u8] = &[
    0x45, 0, 0, 33, 0, 1, 0, 0, 0x40, 17, 0, 0, 10, 0, 0, 1, 192, 0, 2, 1, 0x0f, 0xa0, 0, 53, 0,
    13, 0, 0, 104, 101, 108, 108, 111,
];

// A capture of one frame, whose bytes are in two pieces. Its link type, the length that was captured
// and the frame's own are given.
pub(crate) fn one_frame(
    alloc: Global,
    link: u16,
    length: u8,
    original: u8,
    before: &[u8],
    behind: &[u8],
) -> Result<Vec<u8>, AllocError> {
    let mut capture = HEADER[..20].to_vec(alloc)?;
    capture.extend_from_slice(&link.to_le_bytes())?;
    capture.extend_from_slice(&[0, 0])?;
    capture.extend_from_slice(&[1, 0, 0, 0, 0, 0, 0, 0, length, 0, 0, 0, original, 0, 0, 0])?;
    capture.extend_from_slice(before)?;
    capture.extend_from_slice(behind)?;
    Ok(capture)
}

#[test]
fn reports_are_those_of_the_captures(rt: HostRuntime) -> Result<(), Fail> {
    let alloc = rt.alloc();
    let mut hello = HEADER.to_vec(alloc)?;
    hello.extend_from_slice(&HELLO)?;
    let mut torn = hello.as_slice().to_vec(alloc)?;
    torn.extend_from_slice(&[0; 10])?;
    for (words, rules, capture, counts, findings) in [
        (COMMAND.as_slice(), GREET, HEADER.as_slice(), [0; 11], ""),
        (
            COMMAND.as_slice(),
            GREET,
            hello.as_slice(),
            [1, 0, 0, 0, 1, 0, 0, 0, 1, 0, 1],
            "finding 0 greet 8\n",
        ),
        (
            COMMAND.as_slice(),
            GREET,
            torn.as_slice(),
            [1, 0, 0, 0, 1, 0, 0, 10, 1, 0, 1],
            "finding 0 greet 8\n",
        ),
        (
            ["inspect", "--findings", "2", "r", "c"].as_slice(),
            TWO,
            hello.as_slice(),
            [1, 0, 0, 0, 1, 0, 0, 0, 1, 0, 2],
            "finding 0 a 8\nfinding 0 b 10\n",
        ),
    ] {
        let got = inspected(&rt, alloc, words, rules, capture, 0)?;
        assert_eq!(rt; got.status, 0);
        assert_eq!(rt;
            got.out.as_slice(),
            report(alloc, counts, findings)?.as_slice()
        );
        assert_eq!(rt; got.faults.as_slice(), b"".as_slice());
    }
    Ok(())
}

// Whether the capture of these fragments gives the report with these counts and finding lines, whatever the number of workers.
fn gives<R: Threads + Sync>(
    rt: &R,
    alloc: Global,
    rules: &[u8],
    list: &[Fragment],
    counts: [u32; 11],
    findings: &str,
) -> Result<bool, AllocError> {
    let capture = fragments(alloc, list)?;
    let want = report(alloc, counts, findings)?;
    for words in BY_WORKERS {
        let got = inspected(rt, alloc, &words, rules, &capture, 0)?;
        if got.status != 0 || got.out.as_slice() != want.as_slice() {
            return Ok(false);
        }
    }
    Ok(true)
}

#[test]
fn fragments_make_datagrams(rt: HostRuntime) -> Result<(), Fail> {
    let alloc = rt.alloc();
    let first = piece(1, 0, true, b"abcdefgh");
    let last = piece(1, 8, false, b"ijkl");
    let found = "finding 0 seam 6\n";
    let both = gives(
        &rt,
        alloc,
        SEAM,
        &[last, first],
        [2, 0, 0, 0, 0, 2, 0, 0, 1, 0, 1],
        found,
    )?;
    assert!(rt; both, "the last fragment first");
    let rules = b"rule one proto icmp has \"ijkl\"\nrule two proto icmp has \"XXXX\"";
    let list = [
        piece(1, 0, true, b"abcdefghijklmnop"),
        piece(1, 8, true, b"XXXXXXXXYYYYYYYY"),
        piece(1, 16, false, b"qrst"),
    ];
    let overlap = gives(
        &rt,
        alloc,
        rules,
        &list,
        [3, 0, 0, 0, 0, 2, 1, 0, 1, 0, 1],
        "finding 0 one 8\n",
    )?;
    assert!(rt; overlap, "the second fragment overlaps the first");
    let twice = gives(
        &rt,
        alloc,
        SEAM,
        &[first, first, last],
        [3, 0, 0, 0, 0, 2, 1, 0, 1, 0, 1],
        found,
    )?;
    assert!(rt; twice, "one fragment twice");
    let head = b"rule head proto any has \"abcd\"";
    let open = gives(
        &rt,
        alloc,
        head,
        &[first],
        [1, 0, 0, 0, 0, 1, 0, 0, 0, 1, 0],
        "",
    )?;
    assert!(rt; open, "the last fragment is missing");
    let list = [
        piece(2, 65512, false, b"abc"),
        piece(3, 65512, false, b"abcd"),
    ];
    let far = gives(
        &rt,
        alloc,
        SEAM,
        &list,
        [2, 0, 1, 0, 0, 1, 0, 0, 0, 1, 0],
        "",
    )?;
    assert!(rt; far, "the greatest end, and one beyond it");
    let list = [
        last,
        piece(1, 16, true, b"abcdefgh"),
        piece(1, 24, false, b"x"),
    ];
    let behind = gives(
        &rt,
        alloc,
        SEAM,
        &list,
        [3, 0, 0, 0, 0, 1, 2, 0, 0, 1, 0],
        "",
    )?;
    assert!(rt; behind, "fragments behind the last one");
    let list = [piece(1, 0, true, b"abcdefghijkl")];
    let ragged = gives(
        &rt,
        alloc,
        SEAM,
        &list,
        [1, 0, 1, 0, 0, 0, 0, 0, 0, 0, 0],
        "",
    )?;
    assert!(rt; ragged, "a length that is no multiple of 8");
    Ok(())
}

#[test]
fn other_words_are_a_fault_of_usage(rt: HostRuntime) -> Result<(), Fail> {
    let alloc = rt.alloc();
    let lists: [&[&str]; 8] = [
        &["inspect", "--window", "0", "r", "c"],
        &["inspect", "--workers", "17", "r", "c"],
        &["inspect", "r"],
        &["inspect", "--workers", "4", "--workers", "4", "r", "c"],
        &["inspect", "--findings", "010", "r", "c"],
        &["inspect", "--workers=4", "r", "c"],
        &["inspect", "--workers", "c"],
        &[],
    ];
    for words in lists {
        let got = inspected(&rt, alloc, words, GREET, &HEADER, 0)?;
        assert_eq!(rt; got.status, 1);
        assert_eq!(rt; got.out.as_slice(), b"".as_slice());
        assert_eq!(rt; got.faults.as_slice(), USAGE.as_bytes());
    }
    Ok(())
}

#[test]
fn faults_are_told_with_their_status(rt: HostRuntime) -> Result<(), Fail> {
    let alloc = rt.alloc();
    let mut hello = HEADER.to_vec(alloc)?;
    hello.extend_from_slice(&HELLO)?;
    let mut other_link = hello.as_slice().to_vec(alloc)?;
    if other_link.len() > 20 {
        other_link[20] = 147;
    }
    for (words, rules, capture, failing, status, line) in [
        (
            ["inspect", "q", "c"].as_slice(),
            GREET,
            hello.as_slice(),
            0,
            2,
            "read fault: q\n",
        ),
        (
            ["inspect", "r", "q"].as_slice(),
            GREET,
            hello.as_slice(),
            0,
            2,
            "read fault: q\n",
        ),
        (
            COMMAND.as_slice(),
            GREET,
            hello.as_slice(),
            1,
            3,
            "write fault\n",
        ),
        (
            COMMAND.as_slice(),
            GREET,
            &HEADER[..23],
            0,
            5,
            "bad capture: header at 23\n",
        ),
        (
            COMMAND.as_slice(),
            GREET,
            other_link.as_slice(),
            0,
            5,
            "bad capture: link 147 at 20\n",
        ),
        (
            COMMAND.as_slice(),
            b"# c\n\nrule x proto udp".as_slice(),
            hello.as_slice(),
            0,
            4,
            "bad rules: line 3\n",
        ),
        (
            COMMAND.as_slice(),
            b"rule a proto any has \"|6|\"".as_slice(),
            hello.as_slice(),
            0,
            4,
            "bad rules: line 1\n",
        ),
        (
            ["inspect", "--findings", "1", "r", "c"].as_slice(),
            TWO,
            hello.as_slice(),
            0,
            6,
            "limit: findings\n",
        ),
    ] {
        let got = inspected(&rt, alloc, words, rules, capture, failing)?;
        assert_eq!(rt; got.status, status, "{line}");
        assert_eq!(rt; got.out.as_slice(), b"".as_slice(), "{line}");
        assert_eq!(rt; got.faults.as_slice(), line.as_bytes(), "{line}");
    }
    Ok(())
}

#[test]
fn a_further_rule_behind_1024_is_a_limit(rt: HostRuntime) -> Result<(), Fail> {
    let alloc = rt.alloc();
    let mut rules = Vec::new(alloc);
    for number in 0u32..1025 {
        rules.extend_from_slice(b"rule r")?;
        let digits = number.to_string(alloc)?;
        rules.extend_from_slice(digits.as_bytes())?;
        rules.extend_from_slice(b" proto any has \"x\"\n")?;
    }
    let got = inspected(&rt, alloc, COMMAND.as_slice(), &rules, &HEADER, 0)?;
    assert_eq!(rt; got.status, 6);
    assert_eq!(rt; got.faults.as_slice(), b"limit: rules\n".as_slice());
    Ok(())
}

#[test]
fn link_headers_and_byte_orders_are_read(rt: HostRuntime) -> Result<(), Fail> {
    let alloc = rt.alloc();
    let found = [1, 0, 0, 0, 1, 0, 0, 0, 1, 0, 1];
    let mut high_first = HIGH_FIRST.to_vec(alloc)?;
    high_first.extend_from_slice(&HELLO[16..])?;
    let raw = one_frame(alloc, 101, 33, 33, b"", DATAGRAM)?;
    let two_tags = one_frame(alloc, 1, 55, 55, TWO_TAGGED, DATAGRAM)?;
    let three_tags = one_frame(alloc, 1, 59, 59, THREE_TAGGED, DATAGRAM)?;
    // A total length of 100 in a frame of 114 bytes, of which 64 were captured.
    let cut = one_frame(alloc, 1, 64, 114, LONG_DATAGRAM, ZEROS)?;
    for (capture, counts, findings) in [
        (high_first.as_slice(), found, "finding 0 greet 8\n"),
        (raw.as_slice(), found, "finding 0 greet 8\n"),
        (two_tags.as_slice(), found, "finding 0 greet 8\n"),
        (three_tags.as_slice(), [1, 1, 0, 0, 0, 0, 0, 0, 0, 0, 0], ""),
        (cut.as_slice(), [1, 0, 0, 1, 0, 0, 0, 0, 0, 0, 0], ""),
    ] {
        let got = inspected(&rt, alloc, &COMMAND, GREET, capture, 0)?;
        assert_eq!(rt; got.status, 0);
        assert_eq!(rt;
            got.out.as_slice(),
            report(alloc, counts, findings)?.as_slice()
        );
        assert_eq!(rt; got.faults.as_slice(), b"".as_slice());
    }
    Ok(())
}

// The header and the record header of `HELLO` in a capture of nanoseconds.
const NANOSECONDS: [u8; 40] = [
    0x4d, 0x3c, 0xb2, 0xa1, 2, 0, 4, 0, 0, 0, 0, 0, 0, 0, 0, 0, 0, 0, 4, 0, 1, 0, 0, 0, 1, 0, 0, 0,
    0, 0, 0, 0, 47, 0, 0, 0, 47, 0, 0, 0,
];

// Cooked headers of both versions.
const COOKED_V1: &[u8] = &[0, 0, 0, 1, 0, 6, 2, 0, 0, 0, 0, 1, 0, 0, 8, 0];

const COOKED_V2: &[u8] = &[8, 0, 0, 0, 0, 0, 0, 1, 0, 1, 0, 6, 2, 0, 0, 0, 0, 1, 0, 0];

#[test]
fn nanoseconds_and_cooked_headers_are_read(rt: HostRuntime) -> Result<(), Fail> {
    let alloc = rt.alloc();
    let want = report(
        alloc,
        [1, 0, 0, 0, 1, 0, 0, 0, 1, 0, 1],
        "finding 0 greet 8\n",
    )?;
    let mut nanoseconds = NANOSECONDS.to_vec(alloc)?;
    nanoseconds.extend_from_slice(&HELLO[16..])?;
    let cooked_v1 = one_frame(alloc, 113, 49, 49, COOKED_V1, DATAGRAM)?;
    let cooked_v2 = one_frame(alloc, 276, 53, 53, COOKED_V2, DATAGRAM)?;
    for capture in [&nanoseconds, &cooked_v1, &cooked_v2] {
        let got = inspected(&rt, alloc, &COMMAND, GREET, capture, 0)?;
        assert_eq!(rt; got.status, 0);
        assert_eq!(rt; got.out.as_slice(), want.as_slice());
        assert_eq!(rt; got.faults.as_slice(), b"".as_slice());
    }
    Ok(())
}

// A capture that repeats a record.
pub(crate) fn repeated(alloc: Global, record: &[u8], count: u32) -> Result<Vec<u8>, AllocError> {
    let mut capture = HEADER.to_vec(alloc)?;
    for _ in 0..count {
        capture.extend_from_slice(record)?;
    }
    Ok(capture)
}

#[test]
fn limits_are_told_by_their_lines(rt: HostRuntime) -> Result<(), Fail> {
    let alloc = rt.alloc();
    let mut long_record = [0; 16];
    long_record[8] = 1;
    long_record[10] = 4;
    let long_record = repeated(alloc, &long_record, 1)?;
    let too_many_frames = repeated(alloc, &[0; 16], 262_145)?;
    let too_many_findings = repeated(alloc, &HELLO, 65_537)?;
    for (capture, status, line) in [
        (long_record.as_slice(), 5, "bad capture: record at 24\n"),
        (too_many_frames.as_slice(), 6, "limit: frames\n"),
        (too_many_findings.as_slice(), 6, "limit: findings\n"),
    ] {
        let got = inspected(&rt, alloc, &COMMAND, GREET, capture, 0)?;
        assert_eq!(rt; got.status, status, "{line}");
        assert_eq!(rt; got.out.as_slice(), b"".as_slice(), "{line}");
        assert_eq!(rt; got.faults.as_slice(), line.as_bytes(), "{line}");
    }
    Ok(())
}

// An ARP frame, and one of IPv6.
const ARP: &[u8] = &[2, 0, 0, 0, 0, 2, 2, 0, 0, 0, 0, 1, 8, 6];

const IPV6: &[u8] = &[2, 0, 0, 0, 0, 2, 2, 0, 0, 0, 0, 1, 0x86, 0xdd];

// A datagram of TCP with a total length of 40.
const ACKNOWLEDGEMENT: &[u8] = &[
    2, 0, 0, 0, 0, 2, 2, 0, 0, 0, 0, 1, 8, 0, 0x45, 0, 0, 40, 0, 1, 0, 0, 64, 6, 0, 0, 10, 0, 0, 1,
    192, 0, 2, 1,
];

// A tag, and a datagram of UDP to port 9.
const TAGGED: &[u8] = &[
    2, 0, 0, 0, 0, 2, 2, 0, 0, 0, 0, 1, 0x81, 0, 0, 5, 8, 0, 0x45, 0, 0, 28, 0, 2, 0, 0, 64, 17, 0,
    0, 10, 0, 0, 1, 192, 0, 2, 1, 0x0f, 0xa0, 0, 9, 0, 8, 0, 0,
];

// A question for example.com over UDP to port 53. Its name begins 12 bytes behind the UDP header.
const QUESTION: &[u8] = &[
    2, 0, 0, 0, 0, 2, 2, 0, 0, 0, 0, 1, 8, 0, 0x45, 0, 0, 57, 0, 3, 0, 0, 64, 17, 0, 0, 10, 0, 0,
    1, 192, 0, 2, 1, 0x0f, 0xa0, 0, 53, 0, 37, 0, 0, 0, 1, 1, 0, 0, 1, 0, 0, 0, 0, 0, 0, 7, 101,
    120, 97, 109, 112, 108, 101, 3, 99, 111, 109, 0, 0, 1, 0, 1,
];

// The headers of an ICMP echo in fragments of 1,480, 1,480 and 1,048 bytes.
const ECHO_FRONT: &[u8] = &[
    2, 0, 0, 0, 0, 2, 2, 0, 0, 0, 0, 1, 8, 0, 0x45, 0, 0x05, 0xdc, 0, 4, 0x20, 0, 64, 1, 0, 0, 10,
    0, 0, 1, 192, 0, 2, 1,
];

const ECHO_MIDDLE: &[u8] = &[
    2, 0, 0, 0, 0, 2, 2, 0, 0, 0, 0, 1, 8, 0, 0x45, 0, 0x05, 0xdc, 0, 4, 0x20, 0xb9, 64, 1, 0, 0,
    10, 0, 0, 1, 192, 0, 2, 1,
];

const ECHO_END: &[u8] = &[
    2, 0, 0, 0, 0, 2, 2, 0, 0, 0, 0, 1, 8, 0, 0x45, 0, 0x04, 0x2c, 0, 4, 0x01, 0x72, 64, 1, 0, 0,
    10, 0, 0, 1, 192, 0, 2, 1,
];

// Adds the record of a frame of so many bytes, which begins with these and goes on with zeros.
fn add_frame(capture: &mut Vec<u8>, head: &[u8], length: u16) -> Result<(), AllocError> {
    let [high, low] = length.to_be_bytes();
    capture.extend_from_slice(&[0; 8])?;
    capture.extend_from_slice(&[low, high, 0, 0, low, high, 0, 0])?;
    capture.extend_from_slice(head)?;
    for _ in head.len()..usize::from(length) {
        capture.push(0)?;
    }
    Ok(())
}

#[test]
fn a_usual_capture_is_reported(rt: HostRuntime) -> Result<(), Fail> {
    let alloc = rt.alloc();
    let mut capture = HEADER.to_vec(alloc)?;
    for (head, length) in [
        (ARP, 60),
        (IPV6, 54),
        (ACKNOWLEDGEMENT, 60),
        (TAGGED, 46),
        (QUESTION, 71),
        (ECHO_FRONT, 1514),
        (ECHO_MIDDLE, 1514),
        (ECHO_END, 1082),
    ] {
        add_frame(&mut capture, head, length)?;
    }
    let rules = b"rule dns proto udp dport 53 has \"|07|example|03|com|00|\" from 20";
    let want = report(
        alloc,
        [8, 2, 0, 0, 3, 3, 0, 0, 4, 0, 1],
        "finding 4 dns 20\n",
    )?;
    for words in BY_WORKERS {
        let got = inspected(&rt, alloc, &words, rules, &capture, 0)?;
        assert_eq!(rt; got.status, 0);
        assert_eq!(rt; got.out.as_slice(), want.as_slice());
        assert_eq!(rt; got.faults.as_slice(), b"".as_slice());
    }
    Ok(())
}
