// Captures and rules that are made to hurt, and identifications that are used again.
use crate::tests::{
    COMMAND, Fragment, HEADER, SEAM, add_fragment, inspected, one_frame, piece, repeated, report,
};
use std::alloc::{AllocError, Global};
use std::test::Fail;
use std::thread::Threads;

// A fragment with the second and the fraction of its time.
type Sent = (u32, u32, Fragment);

fn capture_of(alloc: Global, sent: &[Sent]) -> Result<Vec<u8>, AllocError> {
    let mut capture = HEADER.to_vec(alloc)?;
    for (seconds, fraction, fragment) in sent {
        add_fragment(&mut capture, *seconds, *fraction, *fragment)?;
    }
    Ok(capture)
}

const FIRST: Fragment = Fragment {
    id: 1,
    at: 0,
    more: true,
    data: b"abcdefgh",
};

const LAST: Fragment = Fragment {
    id: 1,
    at: 8,
    more: false,
    data: b"ijkl",
};

// Whether an inspection of fragments that were sent so gives the report with these counts and finding
// lines.
fn gives<R: Threads + Sync>(
    rt: &R,
    alloc: Global,
    words: &[&str],
    sent: &[Sent],
    counts: [u32; 11],
    findings: &str,
) -> Result<bool, AllocError> {
    let got = inspected(rt, alloc, words, SEAM, &capture_of(alloc, sent)?, 0)?;
    Ok(got.status == 0 && got.out.as_slice() == report(alloc, counts, findings)?.as_slice())
}

#[test]
fn fragments_of_one_datagram_come_within_the_window(rt: HostRuntime) -> Result<(), Fail> {
    let alloc = rt.alloc();
    let one = [2, 0, 0, 0, 0, 2, 0, 0, 1, 0, 1];
    let found = "finding 0 seam 6\n";
    let in_time = [(0, 0, FIRST), (30, 0, LAST)];
    let within = gives(&rt, alloc, &COMMAND, &in_time, one, found)?;
    assert!(rt; within, "as late as the window allows");
    let late = [(0, 0, FIRST), (30, 1, LAST)];
    let parted = gives(
        &rt,
        alloc,
        &COMMAND,
        &late,
        [2, 0, 0, 0, 0, 2, 0, 0, 0, 2, 0],
        "",
    )?;
    assert!(rt; parted, "a microsecond later");
    let longer = ["inspect", "--window", "31", "r", "c"];
    let joined = gives(&rt, alloc, &longer, &late, one, found)?;
    assert!(rt; joined, "a longer window");
    let again = [(0, 0, FIRST), (40, 0, FIRST), (41, 0, LAST)];
    let second = gives(
        &rt,
        alloc,
        &COMMAND,
        &again,
        [3, 0, 0, 0, 0, 3, 0, 0, 1, 1, 1],
        "finding 1 seam 6\n",
    )?;
    assert!(rt; second, "an identification that is used again");
    Ok(())
}

const END: &[u8] = b"rule end proto any has \"Z\"";

#[test]
fn many_clashing_fragments_are_set_aside(rt: HostRuntime) -> Result<(), Fail> {
    let alloc = rt.alloc();
    let mut capture = HEADER.to_vec(alloc)?;
    for number in 0u32..262_144 {
        let at = (number % 8192) as u16 * 8;
        add_fragment(&mut capture, 0, 0, piece(1, at, true, b"aaaaaaaa"))?;
    }
    let got = inspected(&rt, alloc, &COMMAND, END, &capture, 0)?;
    let want = report(alloc, [262_144, 0, 96, 0, 0, 8189, 253_859, 0, 0, 1, 0], "")?;
    assert_eq!(rt; got.status, 0);
    assert_eq!(rt; got.out.as_slice(), want.as_slice());
    Ok(())
}

#[test]
fn the_longest_datagram_is_put_together(rt: HostRuntime) -> Result<(), Fail> {
    let alloc = rt.alloc();
    let mut capture = HEADER.to_vec(alloc)?;
    add_fragment(&mut capture, 0, 0, piece(1, 65_504, false, b"aaaaaaaZ"))?;
    for number in 0u16..8188 {
        add_fragment(&mut capture, 0, 0, piece(1, number * 8, true, b"aaaaaaaa"))?;
    }
    let got = inspected(&rt, alloc, &COMMAND, END, &capture, 0)?;
    let want = report(
        alloc,
        [8189, 0, 0, 0, 0, 8189, 0, 0, 1, 0, 1],
        "finding 0 end 65511\n",
    )?;
    assert_eq!(rt; got.status, 0);
    assert_eq!(rt; got.out.as_slice(), want.as_slice());
    Ok(())
}

// A datagram of 60 bytes whose header says that it is all of it, behind an Ethernet header.
const ALL_HEADER: &[u8] = &[
    2, 0, 0, 0, 0, 2, 2, 0, 0, 0, 0, 1, 8, 0, 0x4f, 0, 0, 60, 0, 1, 0, 0, 64, 1, 0, 0, 10, 0, 0, 1,
    192, 0, 2, 1,
];

#[test]
fn lengths_that_lie_are_told(rt: HostRuntime) -> Result<(), Fail> {
    let alloc = rt.alloc();
    let mut record = [0; 16];
    record[8] = 0xff;
    record[9] = 0xff;
    record[10] = 0xff;
    record[11] = 0xff;
    let got = inspected(&rt, alloc, &COMMAND, END, &repeated(alloc, &record, 1)?, 0)?;
    assert_eq!(rt; got.status, 5);
    assert_eq!(rt;
        got.faults.as_slice(),
        b"bad capture: record at 24\n".as_slice()
    );
    let cut = one_frame(alloc, 1, 40, 74, ALL_HEADER, &[0; 6])?;
    let got = inspected(&rt, alloc, &COMMAND, END, &cut, 0)?;
    let want = report(alloc, [1, 0, 0, 1, 0, 0, 0, 0, 0, 0, 0], "")?;
    assert_eq!(rt; got.status, 0);
    assert_eq!(rt; got.out.as_slice(), want.as_slice());
    Ok(())
}

#[test]
fn rules_past_the_limits_are_bad_lines(rt: HostRuntime) -> Result<(), Fail> {
    let alloc = rt.alloc();
    let lines: [&[u8]; 5] = [
        b"rule a proto any has \"\"",
        b"rule a proto any has \"|6|\"",
        b"rule a proto any has \"aaaaaaaaaaaaaaaaaaaaaaaaaaaaaaaaaaaaaaaaaaaaaaaaaaaaaaaaaaaaaaaaa\"",
        b"rule a proto any has \"a\" has \"b\" has \"c\" has \"d\" has \"e\" has \"f\" has \"g\" has \"h\" has \"i\"",
        b"rule a proto udp dport 65536 has \"a\"",
    ];
    for line in lines {
        let got = inspected(&rt, alloc, &COMMAND, line, &HEADER, 0)?;
        assert_eq!(rt; got.status, 4);
        assert_eq!(rt; got.faults.as_slice(), b"bad rules: line 1\n".as_slice());
    }
    Ok(())
}
