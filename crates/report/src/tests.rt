use crate::{CaptureFault, Fault, audit_text, report_text, summary_text, write_fault};
use byte_ends::{Failed, MemorySink};
use capture_terms::{Capture, Class, Frame, Group, Header, Plan};
use rule_matcher::rules;
use std::alloc::{AllocError, Global};
use std::test::Fail;

const FRAME: Frame = Frame {
    seconds: 0,
    fraction: 0,
    at: 40,
    length: 47,
    original: 47,
};

const GROUP: Group = Group {
    header: Header {
        source: 0x0a00_0001,
        destination: 0xc000_0201,
        protocol: 1,
    },
    id: 1,
    generation: 0,
};

const WORDS: [&str; 11] = [
    "frames",
    "other",
    "bad",
    "cut",
    "whole",
    "kept",
    "aside",
    "torn",
    "datagrams",
    "incomplete",
    "findings",
];

// What a report is made of, and what it says.
struct Case {
    rules: &'static [u8],
    classes: &'static [Class],
    torn: u64,
    groups: u32,
    incomplete: u32,
    findings: &'static [u64],
    counts: [u32; 11],
    lines: &'static str,
}

fn capture_of(alloc: Global, frames: usize, torn: u64) -> Result<Capture, AllocError> {
    let mut capture = Capture {
        nanos: false,
        link: 1,
        frames: Vec::new(alloc),
        torn,
    };
    for _ in 0..frames {
        capture.frames.push(FRAME)?;
    }
    Ok(capture)
}

fn plan_of(alloc: Global, classes: &[Class], groups: u32) -> Result<Plan, AllocError> {
    let mut plan = Plan {
        classes: classes.to_vec(alloc)?,
        tasks: Vec::new(alloc),
        groups: Vec::new(alloc),
    };
    for _ in 0..groups {
        plan.groups.push(GROUP)?;
    }
    Ok(plan)
}

fn text_of(alloc: Global, counts: &[u32; 11], lines: &str) -> Result<Vec<u8>, AllocError> {
    let mut text = Vec::new(alloc);
    for (word, count) in WORDS.iter().zip(counts) {
        let line = format!(in alloc; "{word} {count}\n")?;
        text.extend_from_slice(line.as_bytes())?;
    }
    text.extend_from_slice(lines.as_bytes())?;
    Ok(text)
}

const GREET: &[u8] = b"rule greet proto udp dport 53 has \"hello\"";

const SEAM: &[u8] = b"rule seam proto icmp has \"ghij\"";

const THREE: &[u8] =
    b"rule a proto any has \"h\"\nrule b proto udp has \"ll\"\nrule c proto udp has \"o\"";

const CASES: [Case; 9] = [
    Case {
        rules: GREET,
        classes: &[],
        torn: 0,
        groups: 0,
        incomplete: 0,
        findings: &[],
        counts: [0, 0, 0, 0, 0, 0, 0, 0, 0, 0, 0],
        lines: "",
    },
    Case {
        rules: GREET,
        classes: &[Class::Whole],
        torn: 0,
        groups: 0,
        incomplete: 0,
        findings: &[8],
        counts: [1, 0, 0, 0, 1, 0, 0, 0, 1, 0, 1],
        lines: "finding 0 greet 8\n",
    },
    Case {
        rules: SEAM,
        classes: &[Class::Kept, Class::Kept],
        torn: 0,
        groups: 1,
        incomplete: 0,
        findings: &[6],
        counts: [2, 0, 0, 0, 0, 2, 0, 0, 1, 0, 1],
        lines: "finding 0 seam 6\n",
    },
    Case {
        rules: SEAM,
        classes: &[Class::Kept, Class::Aside, Class::Kept],
        torn: 0,
        groups: 1,
        incomplete: 0,
        findings: &[6],
        counts: [3, 0, 0, 0, 0, 2, 1, 0, 1, 0, 1],
        lines: "finding 0 seam 6\n",
    },
    Case {
        rules: SEAM,
        classes: &[Class::Kept, Class::Bad],
        torn: 0,
        groups: 1,
        incomplete: 1,
        findings: &[],
        counts: [2, 0, 1, 0, 0, 1, 0, 0, 0, 1, 0],
        lines: "",
    },
    Case {
        rules: GREET,
        classes: &[Class::Whole],
        torn: 10,
        groups: 0,
        incomplete: 0,
        findings: &[8],
        counts: [1, 0, 0, 0, 1, 0, 0, 10, 1, 0, 1],
        lines: "finding 0 greet 8\n",
    },
    Case {
        rules: GREET,
        classes: &[Class::Cut],
        torn: 0,
        groups: 0,
        incomplete: 0,
        findings: &[],
        counts: [1, 0, 0, 1, 0, 0, 0, 0, 0, 0, 0],
        lines: "",
    },
    // Rule 1 is 0x0001_0000, and rule 2 twice as much.
    Case {
        rules: THREE,
        classes: &[Class::Whole],
        torn: 0,
        groups: 0,
        incomplete: 0,
        findings: &[8, 0x0001_000a, 0x0002_000c],
        counts: [1, 0, 0, 0, 1, 0, 0, 0, 1, 0, 3],
        lines: "finding 0 a 8\nfinding 0 b 10\nfinding 0 c 12\n",
    },
    // Frame 4 is 4 * 2^32.
    Case {
        rules: b"rule dns proto udp dport 53 has \"example\"",
        classes: &[
            Class::Other,
            Class::Other,
            Class::Whole,
            Class::Whole,
            Class::Whole,
            Class::Kept,
            Class::Kept,
            Class::Kept,
        ],
        torn: 0,
        groups: 1,
        incomplete: 0,
        findings: &[0x0004_0000_0014],
        counts: [8, 2, 0, 0, 3, 3, 0, 0, 4, 0, 1],
        lines: "finding 4 dns 20\n",
    },
];

#[test]
fn a_report_has_eleven_counts_and_a_line_for_each_finding(rt: HostRuntime) -> Result<(), Fail> {
    let alloc = rt.alloc();
    for (number, case) in CASES.iter().enumerate() {
        let capture = capture_of(alloc, case.classes.len(), case.torn)?;
        let plan = plan_of(alloc, case.classes, case.groups)?;
        let rules = rules(alloc, case.rules)?;
        assert!(rt; case.incomplete as usize <= plan.groups.len());
        let named = case
            .findings
            .iter()
            .all(|f| f / 65_536 % 65_536 < u64::from(rules.len()));
        assert!(rt; named);
        let text = report_text(
            alloc,
            &capture,
            &plan,
            &rules,
            case.incomplete,
            case.findings,
        )?;
        let want = text_of(alloc, &case.counts, case.lines)?;
        assert_eq!(rt; text.as_slice(), want.as_slice(), "case {number}");
    }
    Ok(())
}

#[test]
fn each_fault_is_told_by_its_line(rt: HostRuntime) -> Result<(), Fail> {
    let lines: [(Fault<'static>, &str); 18] = [
        (
            Fault::Usage,
            "usage: inspect|journal [--workers N] [--findings N] [--window N] RULES CAPTURE | make SEED FRAMES | trial [--workers N] SEED FRAMES | audit JOURNAL\n",
        ),
        (Fault::Read("r"), "read fault: r\n"),
        (Fault::Write, "write fault\n"),
        (Fault::Rules { line: 3 }, "bad rules: line 3\n"),
        (
            Fault::Capture(CaptureFault::Header { at: 23 }),
            "bad capture: header at 23\n",
        ),
        (
            Fault::Capture(CaptureFault::Version),
            "bad capture: version at 4\n",
        ),
        (
            Fault::Capture(CaptureFault::Link { number: 147 }),
            "bad capture: link 147 at 20\n",
        ),
        (
            Fault::Capture(CaptureFault::Record { at: 24 }),
            "bad capture: record at 24\n",
        ),
        (
            Fault::Capture(CaptureFault::Block { at: 48 }),
            "bad capture: block at 48\n",
        ),
        (
            Fault::Capture(CaptureFault::BlockVersion { at: 12 }),
            "bad capture: version at 12\n",
        ),
        (
            Fault::Capture(CaptureFault::BlockLink {
                number: 147,
                at: 36,
            }),
            "bad capture: link 147 at 36\n",
        ),
        (
            Fault::Capture(CaptureFault::MixedLink { at: 4_294_967_296 }),
            "bad capture: mixed link at 4294967296\n",
        ),
        (Fault::LimitFile("c"), "limit: file c\n"),
        (Fault::LimitFrames, "limit: frames\n"),
        (Fault::LimitRules, "limit: rules\n"),
        (Fault::LimitFindings, "limit: findings\n"),
        (Fault::Memory, "want of memory\n"),
        (Fault::NotLegal { line: 4 }, "not legal: line 4\n"),
    ];
    for (fault, line) in &lines {
        let mut sink = MemorySink::new(rt.alloc(), 200, Vec::new(rt.alloc()))?;
        assert_eq!(rt; write_fault(&mut sink, fault), Ok(()));
        assert_eq!(rt; sink.written(), line.as_bytes());
    }
    Ok(())
}

#[test]
fn a_prefix_is_left_where_writing_fails(rt: HostRuntime) -> Result<(), Fail> {
    let alloc = rt.alloc();
    // Room for so many bytes, the call that fails, and what was written.
    let cases: [(usize, u64, &str); 3] = [
        (20, 0, "bad rules: line 4294"),
        (100, 2, "bad rules: line "),
        (100, 1, ""),
    ];
    for (room, failing, want) in cases {
        let mut sink = MemorySink::new(alloc, room, [failing].to_vec(alloc)?)?;
        let fault = Fault::Rules {
            line: 4_294_967_295,
        };
        assert_eq!(rt; write_fault(&mut sink, &fault), Err(Failed));
        assert_eq!(rt; sink.written(), want.as_bytes());
    }
    Ok(())
}

#[test]
fn an_audit_tells_its_records_and_sights(rt: HostRuntime) -> Result<(), Fail> {
    for (records, sights, want) in [
        (7, 0, "yes 7 0\n"),
        (
            0,
            18_446_744_073_709_551_615,
            "yes 0 18446744073709551615\n",
        ),
    ] {
        let text = audit_text(rt.alloc(), records, sights)?;
        assert_eq!(rt; text.as_slice(), want.as_bytes());
    }
    Ok(())
}

#[test]
fn a_summary_has_its_trial_the_counts_and_the_sum(rt: HostRuntime) -> Result<(), Fail> {
    let alloc = rt.alloc();
    let cases: [(u64, &[Class], &[u64], [u32; 11], &str); 3] = [
        (5, &[], &[], [0; 11], "sum 0\n"),
        (
            2,
            &[Class::Other],
            &[],
            [1, 1, 0, 0, 0, 0, 0, 0, 0, 0, 0],
            "sum 0\n",
        ),
        (
            18_446_744_073_709_551_615,
            &[Class::Whole],
            &[18_446_744_073_709_551_615, 3],
            [1, 0, 0, 0, 1, 0, 0, 0, 1, 0, 2],
            "sum 2\n",
        ),
    ];
    for (seed, classes, findings, counts, sum) in &cases {
        let frames = classes.len();
        let capture = capture_of(alloc, frames, 0)?;
        let plan = plan_of(alloc, classes, 0)?;
        let text = summary_text(alloc, *seed, frames as u32, &capture, &plan, 0, findings)?;
        let first = format!(in alloc; "trial {seed} {frames}\n")?;
        let lines = text_of(alloc, counts, sum)?;
        let mut want = first.as_bytes().to_vec(alloc)?;
        want.extend_from_slice(&lines)?;
        assert_eq!(rt; text.as_slice(), want.as_slice());
    }
    Ok(())
}
