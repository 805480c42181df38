use crate::{RulesEnd, any_asks_for, findings_of, rules};
use capture_terms::Header;
use std::alloc::Global;
use std::process::Abort;
use std::test::Fail;

// A datagram over UDP from port 4000 to port 53, and then "hello".
const HELLO: &[u8] = b"\x0f\xa0\x00\x35\x00\x0d\x00\x00hello";

const UDP: u8 = 17;

fn header(protocol: u8) -> Header {
    Header {
        source: 0x0a00_0001,
        destination: 0xc000_0201,
        protocol,
    }
}

// How many rules the text has, or why it has none.
fn count_of(rt: &impl Abort, alloc: Global, text: &[u8]) -> Result<u32, RulesEnd> {
    assert!(rt; text.len() < 4_294_967_296);
    match rules(alloc, text) {
        Ok(rules) => Ok(rules.len()),
        Err(end) => Err(end),
    }
}

fn is_accepted(rt: &impl Abort, alloc: Global, texts: &[&[u8]]) {
    for (number, text) in texts.iter().enumerate() {
        let count = count_of(rt, alloc, text);
        assert_eq!(rt; count, Ok(1), "text {number}");
    }
}

fn is_bad(rt: &impl Abort, alloc: Global, texts: &[&[u8]]) {
    for (number, text) in texts.iter().enumerate() {
        let count = count_of(rt, alloc, text);
        assert_eq!(rt; count, Err(RulesEnd::Line { number: 1 }), "text {number}");
    }
}

#[test]
fn each_part_of_a_rule_is_read(rt: HostRuntime) {
    let texts: [&[u8]; 24] = [
        b"rule greet proto udp dport 53 has \"hello\"",
        b"rule greet proto udp dport 53 has \"hello\"\r\n",
        b" \trule\tgreet  proto udp has \"hello\"\t \n",
        b"rule A_b-c.9 proto tcp dport 0 has \" ~\"",
        b"rule nnnnnnnnnnnnnnnnnnnnnnnnnnnnnnnn proto any has \"h\"",
        b"rule a proto any has \"h\"",
        b"rule a proto icmp has \"h\"",
        b"rule a proto 0 has \"h\"",
        b"rule a proto 255 has \"h\"",
        b"rule a proto 6 sport 65535 has \"h\"",
        b"rule a proto udp sport 1 dport 2 has \"h\"",
        b"rule a proto any has \"h\" nocase",
        b"rule a proto any has \"h\" from 8",
        b"rule a proto any has \"h\" to 40",
        b"rule a proto any has \"h\" nocase from 8 to 40",
        b"rule a proto any has \"h\" from 40 to 8",
        b"rule a proto any has \"|07|example|03|com|00|\" from 20",
        b"rule a proto any has \"|6f|\"",
        b"rule a proto any has \"|6F6f|\"",
        b"rule a proto any has \"|  6f  6F |x| 22|\"",
        b"rule a proto any has \"a b\" has \"c\"  has \"d\" to 9 has \"e\"",
        b"rule a proto any has \"1\" has \"2\" has \"3\" has \"4\" has \"5\" has \"6\" has \"7\" has \"8\"",
        b"\n \t\n# rule a\n  # \xff\x00 b\r\nrule a proto any has \"h\"",
        b"#\nrule # proto any has \"h\"\n",
    ];
    is_accepted(&rt, rt.alloc(), &texts[..23]);
    assert_eq!(rt;
        count_of(&rt, rt.alloc(), texts[23]),
        Err(RulesEnd::Line { number: 2 })
    );
}

#[test]
fn what_is_no_rule_is_bad(rt: HostRuntime) {
    let texts: [&[u8]; 46] = [
        b"x",
        b"rules a proto any has \"h\"",
        b"rulea proto any has \"h\"",
        b"Rule a proto any has \"h\"",
        b"rule a proto any has \"h\"\r\r\n",
        b"rule a\rproto any has \"h\"",
        // Names.
        b"rule proto any has \"h\"",
        b"rule a/b proto any has \"h\"",
        b"rule nnnnnnnnnnnnnnnnnnnnnnnnnnnnnnnnn proto any has \"h\"",
        // Protocols.
        b"rule x proto udp",
        b"rule a proto TCP has \"h\"",
        b"rule a proto 256 has \"h\"",
        b"rule a proto 06 has \"h\"",
        b"rule a has \"h\"",
        // Ports.
        b"rule a proto udp dport 053 has \"h\"",
        b"rule a proto udp dport 65536 has \"h\"",
        b"rule a proto udp dport +53 has \"h\"",
        b"rule a proto udp dport has \"h\"",
        b"rule a proto udp dport 2 sport 1 has \"h\"",
        b"rule a proto udp sport 1 sport 1 has \"h\"",
        b"rule a proto udp dport 99999999999999999999 has \"h\"",
        // Patterns.
        b"rule a proto any has h",
        b"rule a proto any has \"\"",
        b"rule a proto any has \"a\"b\"",
        b"rule a proto any has \"a\"nocase",
        b"rule a proto any has \"a\x7f\"",
        b"rule a proto any has \"a\x09b\"",
        b"rule a proto any has \"a",
        b"rule a proto any \"a\"",
        b"rule a proto any has \"||\"",
        b"rule a proto any has \"| |\"",
        b"rule a proto any has \"|6|\"",
        b"rule a proto any has \"|6 f|\"",
        b"rule a proto any has \"|6g|\"",
        b"rule a proto any has \"|\x096f|\"",
        b"rule a proto any has \"|6f\"",
        b"rule a proto any has \"a|b\"",
        b"rule a proto any has \"ppppppppppppppppppppppppppppppppppppppppppppppppppppppppppppppppp\"",
        // Bounds and case.
        b"rule a proto any has \"h\" to 8 from 1",
        b"rule a proto any has \"h\" from 8 nocase",
        b"rule a proto any has \"h\" nocase nocase",
        b"rule a proto any has \"h\" from",
        b"rule a proto any has \"h\" from 65536",
        b"rule a proto any has \"h\" NOCASE",
        b"rule a proto any has \"h\" # why",
        b"rule a proto any has \"1\" has \"2\" has \"3\" has \"4\" has \"5\" has \"6\" has \"7\" has \"8\" has \"9\"",
    ];
    is_bad(&rt, rt.alloc(), &texts);
}

#[test]
fn lines_count_from_1_and_the_first_bad_one_is_told(rt: HostRuntime) {
    let cases: [(&[u8], Result<u32, RulesEnd>); 7] = [
        (b"", Ok(0)),
        (b"\n\n", Ok(0)),
        (
            b"# c\n\nrule x proto udp",
            Err(RulesEnd::Line { number: 3 }),
        ),
        (
            b"# c\r\n\r\nrule x proto udp\nx\n",
            Err(RulesEnd::Line { number: 3 }),
        ),
        (
            b"rule a proto any has \"h\"\nrule b proto any has \"h\"\nrule a proto udp has \"i\"",
            Err(RulesEnd::Line { number: 3 }),
        ),
        (
            b"rule one proto icmp has \"ijkl\"\nrule two proto icmp has \"XXXX\"",
            Ok(2),
        ),
        (
            b"rule a proto any has \"h\"\nrule A proto any has \"h\"\n",
            Ok(2),
        ),
    ];
    for (number, (text, want)) in cases.iter().enumerate() {
        assert_eq!(rt; count_of(&rt, rt.alloc(), text), *want, "text {number}");
    }
}

// The rules `r0`, `r1` and so on.
fn many_rules(alloc: Global, count: u32) -> Result<Vec<u8>, Fail> {
    let mut text = Vec::new(alloc);
    for number in 0..count {
        text.extend_from_slice(b"rule r")?;
        let digits = number.to_string(alloc)?;
        text.extend_from_slice(digits.as_bytes())?;
        text.extend_from_slice(b" proto any has \"x\"\n")?;
    }
    Ok(text)
}

#[test]
fn at_most_1024_rules(rt: HostRuntime) -> Result<(), Fail> {
    let alloc = rt.alloc();
    assert_eq!(rt; count_of(&rt, alloc, &many_rules(alloc, 1024)?), Ok(1024));
    assert_eq!(rt;
        count_of(&rt, alloc, &many_rules(alloc, 1025)?),
        Err(RulesEnd::TooMany)
    );
    // A line behind the 1,024th rule that is no rule, or one of a name that is taken, is bad.
    for line in [
        b"rule x proto udp".as_slice(),
        b"rule r7 proto any has \"x\"",
    ] {
        let mut text = many_rules(alloc, 1024)?;
        text.extend_from_slice(line)?;
        assert_eq!(rt;
            count_of(&rt, alloc, &text),
            Err(RulesEnd::Line { number: 1025 })
        );
    }
    Ok(())
}

#[test]
fn each_matching_rule_is_found_at_its_least_place(rt: HostRuntime) -> Result<(), Fail> {
    let alloc = rt.alloc();
    let cases: [(&[u8], u8, &[u8], &[(u16, u16)]); 22] = [
        (
            b"rule a proto any has \"h\"\nrule b proto udp has \"LL\" nocase\nrule c proto udp sport 4000 has \"|6f|\"",
            UDP,
            HELLO,
            &[(0, 8), (1, 10), (2, 12)],
        ),
        // The first of two places.
        (b"rule l proto udp has \"l\"", UDP, HELLO, &[(0, 10)]),
        // Protocols by name and by number.
        (b"rule a proto 17 has \"h\"", UDP, HELLO, &[(0, 8)]),
        (b"rule a proto tcp has \"h\"", UDP, HELLO, &[]),
        // Ports: another one, with its bytes exchanged, at ICMP, in a payload of 3 bytes.
        (b"rule a proto udp dport 54 has \"h\"", UDP, HELLO, &[]),
        (b"rule a proto udp sport 53 has \"h\"", UDP, HELLO, &[]),
        (b"rule a proto udp dport 13568 has \"h\"", UDP, HELLO, &[]),
        (b"rule a proto any dport 53 has \"h\"", 1, HELLO, &[]),
        (b"rule a proto any dport 53 has \"h\"", 6, HELLO, &[(0, 8)]),
        (
            b"rule a proto any sport 4000 has \"|a0|\"",
            UDP,
            b"\x0f\xa0\x00",
            &[],
        ),
        // Bounds: a pattern ends at `to` at the most, and begins at `from` at the least.
        (b"rule a proto any has \"lo\" to 13", 1, HELLO, &[(0, 11)]),
        (b"rule a proto any has \"lo\" to 12", 1, HELLO, &[]),
        (b"rule a proto any has \"l\" from 11", 1, HELLO, &[(0, 11)]),
        (b"rule a proto any has \"l\" from 12", 1, HELLO, &[]),
        (b"rule a proto any has \"l\" from 40", 1, HELLO, &[]),
        (
            b"rule a proto any has \"o\" from 5 to 65535",
            1,
            HELLO,
            &[(0, 12)],
        ),
        // Case: letters alone, also those written as pairs.
        (
            b"rule a proto any has \"|48|EL\" nocase",
            1,
            HELLO,
            &[(0, 8)],
        ),
        (b"rule a proto any has \"HEL\"", 1, HELLO, &[]),
        (
            b"rule a proto any has \"[`\" nocase",
            1,
            b"{`[`[@",
            &[(0, 2)],
        ),
        // Each pattern has to stand somewhere, in any order; the first one's place is told.
        (
            b"rule a proto any has \"lo\" has \"he\" has \"l\" from 11",
            1,
            HELLO,
            &[(0, 11)],
        ),
        (b"rule a proto any has \"lo\" has \"hex\"", 1, HELLO, &[]),
        // The last places of a payload, and a payload of no bytes.
        (
            b"rule a proto icmp has \"qrst\"\nrule b proto icmp has \"t\"\nrule c proto icmp has \"u\"",
            1,
            b"abcdefghijklmnopqrst",
            &[(0, 16), (1, 19)],
        ),
    ];
    for (number, (text, protocol, payload, want)) in cases.iter().enumerate() {
        assert!(rt; text.len() < 4_294_967_296 && payload.len() <= 65_535);
        let found = findings_of(alloc, &rules(alloc, text)?, &header(*protocol), payload)?;
        assert_eq!(rt; found.as_slice(), *want, "case {number}");
    }
    Ok(())
}

#[test]
fn many_rules_are_found_wherever_they_stand(rt: HostRuntime) -> Result<(), Fail> {
    let alloc = rt.alloc();
    let payload: [u8; 36] = *b"abcdefghijklmnopqrstuvwxyz0123456789";
    // Eight bytes from each place, up to the payload's last ones.
    let mut text = Vec::new(alloc);
    for start in 0..29usize {
        text.extend_from_slice(b"rule r")?;
        let digits = start.to_string(alloc)?;
        text.extend_from_slice(digits.as_bytes())?;
        text.extend_from_slice(b" proto any has \"")?;
        text.extend_from_slice(&payload[start..start + 8])?;
        text.extend_from_slice(b"\"\n")?;
    }
    text.extend_from_slice(
        b"rule no proto any has \"abcdefgz\"\nrule case proto any has \"QRSTUVWX\" nocase\nrule short proto any has \"9\"\n",
    )?;
    assert!(rt; text.len() < 4_294_967_296);
    let found = findings_of(alloc, &rules(alloc, &text)?, &header(1), &payload)?;
    assert_eq!(rt; found.len(), 31);
    for (number, finding) in found.iter().enumerate() {
        let want = match number {
            29 => (30, 16),
            30 => (31, 35),
            same => (same as u64, same as u64),
        };
        assert_eq!(rt; (u64::from(finding.0), u64::from(finding.1)), want);
    }
    Ok(())
}

#[test]
fn a_rule_has_its_name(rt: HostRuntime) -> Result<(), Fail> {
    let rules = rules(
        rt.alloc(),
        b"# two\nrule one proto icmp has \"ijkl\"\n\nrule two proto icmp has \"XXXX\"",
    )?;
    assert_eq!(rt; rules.len(), 2);
    assert_eq!(rt; rules.name(1), b"two".as_slice());
    Ok(())
}

#[test]
fn a_protocol_that_no_rule_asks_for_is_told(rt: HostRuntime) -> Result<(), Fail> {
    let alloc = rt.alloc();
    let some = rules(
        alloc,
        b"rule one proto icmp has \"ijkl\"\nrule two proto udp has \"XXXX\"",
    )?;
    let any = rules(alloc, b"rule one proto any has \"ijkl\"")?;
    let none = rules(alloc, b"")?;
    for (protocol, want) in [(1, [true, true]), (17, [true, true]), (6, [false, true])] {
        let header = header(protocol);
        assert_eq!(rt;
            [any_asks_for(&some, &header), any_asks_for(&any, &header)],
            want
        );
        assert!(rt; !any_asks_for(&none, &header));
    }
    Ok(())
}
