// The packets of a generated capture.
ghost use Rattle.std.specs.Prelude.{◌≡◌, ◌+◌, ◌<◌, ◌^◌, length, IfOk};
ghost use Rattle.capture_generator.specs.Draws.{state_after};
ghost use Rattle.capture_generator.specs.Packets.{arp_packet as the_arp_packet, payload_of, ipv4_packet as the_ipv4_packet};

use crate::draws::Draws;
use crate::headers::{push_ipv4_back, push_ipv4_front, push_udp_header};
use std::alloc::{AllocError, Global};

/// A packet of IPv4 with a datagram's payload, or with a fragment of it.
#[tactic(auto, unfolding(crate::specs::Packets::ipv4_packet))]
pub(crate) fn ipv4_packet(
    alloc: Global,
    datagram: u32,
    fragment: u16,
    payload: &[u8],
) -> Result<Vec<u8>, AllocError>
    requires number { datagram < 2 ^ 24 }
    requires short { length payload.now < 2 ^ 15 }
    ensures bytes { IfOk result (λ packet. packet.items ≡ the_ipv4_packet datagram fragment payload.now) }
    ensures count { IfOk result (λ packet. length packet.items ≡ 34 + length payload.now) }
{
    let mut packet = Vec::with_capacity(alloc, 34 + payload.len())?;
    packet.extend_from_slice(&[2, 0, 0, 0, 0, 2, 2, 0, 0, 0, 0, 1, 8, 0])?;
    push_ipv4_front(&mut packet, datagram, fragment, payload.len() as u16)?;
    push_ipv4_back(&mut packet, datagram)?;
    packet.extend_from_slice(payload)?;
    Ok(packet)
}

/// A packet that has no datagram: of ARP, and all 0.
#[tactic(auto, unfolding(crate::specs::Packets::arp_packet))]
pub(crate) fn arp_packet(alloc: Global) -> Result<Vec<u8>, AllocError>
    ensures bytes { IfOk result (λ packet. packet.items ≡ the_arp_packet) }
    ensures count { IfOk result (λ packet. length packet.items ≡ 60) }
{
    let mut packet = Vec::with_capacity(alloc, 60)?;
    packet.extend_from_slice(&[2, 0, 0, 0, 0, 2, 2, 0, 0, 0, 0, 1, 8, 6])?;
    packet.extend_from_slice(&[0; 46])?;
    Ok(packet)
}

/// The payload of a datagram: so many letters, which are drawn, behind their header.
#[tactic(auto, unfolding(crate::specs::Packets::payload_of))]
pub(crate) fn payload_drawn(
    alloc: Global,
    draws: &mut Draws,
    datagram: u32,
    letters: u8,
) -> Result<Vec<u8>, AllocError>
    ensures state { IfOk result (λ _. draws.new.state ≡ state_after draws.old.state letters) }
    ensures payload { IfOk result (λ payload. payload.items ≡ payload_of datagram draws.old.state letters) }
    ensures count { IfOk result (λ payload. length payload.items ≡ 8 + letters) }
{
    let mut payload = Vec::with_capacity(alloc, 8 + usize::from(letters))?;
    push_udp_header(&mut payload, datagram, letters)?;
    let drawn = draws.letters(alloc, u32::from(letters))?;
    payload.extend_from_slice(&drawn)?;
    Ok(payload)
}
