use crate::headers::{push_lengths, push_time, push_udp_header};
use crate::{Draws, generated, trial_rules};
use std::test::Fail;

#[test]
fn the_first_draw_of_seed_2_is_as_worked_by_hand(rt: HostRuntime) -> Result<(), Fail> {
    let mut draws = Draws { state: 2 };
    assert_eq!(rt; draws.draw(), 1_649_717_740);
    Ok(())
}

#[test]
fn the_rules_of_a_trial_are_three_lines(rt: HostRuntime) -> Result<(), Fail> {
    let text = b"rule a proto udp has \"ab\"
rule b proto udp dport 53 has \"abc\" nocase
rule c proto any has \"|61 62|\" from 8 to 40
";
    assert_eq!(rt; trial_rules(), text.as_slice());
    Ok(())
}

#[test]
fn the_record_header_of_an_only_packet_of_60_bytes_is_as_worked_by_hand(
    rt: HostRuntime,
) -> Result<(), Fail> {
    let mut bytes = Vec::new(rt.alloc());
    push_time(&mut bytes, 0)?;
    push_lengths(&mut bytes, 60)?;
    assert_eq!(rt;
        bytes.as_slice(),
        b"\0\0\0\0\0\0\0\0<\0\0\0<\0\0\0".as_slice()
    );
    Ok(())
}

#[test]
fn a_udp_header_has_the_port_of_its_datagram(rt: HostRuntime) -> Result<(), Fail> {
    let mut bytes = Vec::new(rt.alloc());
    push_udp_header(&mut bytes, 1, 40)?;
    assert_eq!(rt; bytes.as_slice(), [15, 160, 0, 9, 0, 48, 0, 0].as_slice());
    Ok(())
}

#[test]
fn a_capture_of_one_packet_of_seed_2_is_as_worked_by_hand(rt: HostRuntime) -> Result<(), Fail> {
    let bytes = generated(rt.alloc(), 2, 1)?;
    let mut want = Vec::new(rt.alloc());
    want.extend_from_slice(b"\xd4\xc3\xb2\xa1\x02\0\x04\0\0\0\0\0\0\0\0\0\0\0\x04\0\x01\0\0\0")?;
    want.extend_from_slice(b"\0\0\0\0\0\0\0\0\x3c\0\0\0\x3c\0\0\0")?;
    want.extend_from_slice(b"\x02\0\0\0\0\x02\x02\0\0\0\0\x01\x08\x06")?;
    want.extend_from_slice(&[0; 46])?;
    assert_eq!(rt; bytes.as_slice(), want.as_slice());
    Ok(())
}
