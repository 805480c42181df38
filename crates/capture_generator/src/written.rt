// A capture that is being written, packet by packet.
ghost use Rattle.std.specs.Prelude.{◌≡◌, ℕ, ◌<◌, ◌^◌, ◌++◌, List, [], ◌∷◌, length, IfOk};
ghost use Rattle.capture_generator.specs.Draws.{next_state, state_after};
ghost use Rattle.capture_generator.specs.Packets.{arp_packet as the_arp_packet, clash_line, fragment_line, fragments_of, ipv4_packet as the_ipv4_packet, letters_in_whole, packets_for, state_behind, whole_line};
ghost use Rattle.capture_generator.specs.Written.{Gains, Holds};

use crate::draws::Draws;
use crate::headers::{push_lengths, push_time};
use crate::packets::{arp_packet, ipv4_packet, payload_drawn};
use std::alloc::{AllocError, Global};

// The mark of a fragment behind which others come.
const MORE: u16 = 0x2000;

#[derive(Drop)]
pub(crate) struct Written {
    pub(crate) bytes: Vec<u8>,
    pub(crate) packets: u32,
    pub(crate) limit: u32,
}

impl Written {
    /// A capture without packets, for so many at most.
    pub(crate) fn new(alloc: Global, limit: u32) -> Result<Self, AllocError>
        ensures { IfOk result (λ written. Holds limit written []) }
    {
        let mut bytes = Vec::new(alloc);
        bytes.extend_from_slice(
            b"\xd4\xc3\xb2\xa1\x02\0\x04\0\0\0\0\0\0\0\0\0\0\0\x04\0\x01\0\0\0",
        )?;
        Ok(Self {
            bytes,
            packets: 0,
            limit,
        })
    }

    /// Appends a packet, where the limit leaves room for it.
    pub(crate) fn push(&mut self, packet: &[u8]) -> Result<(), AllocError>
        requires { length packet.now < 2 ^ 16 }
        ensures { IfOk result (λ _. Gains self.old self.new (packet.now ∷ [])) }
    {
        if self.packets < self.limit {
            push_time(&mut self.bytes, self.packets)?;
            push_lengths(&mut self.bytes, packet.len() as u32)?;
            self.bytes.extend_from_slice(packet)?;
            self.packets += 1;
        }
        Ok(())
    }

    // A packet of IPv4 with this payload.
    fn push_ipv4(
        &mut self,
        alloc: Global,
        datagram: u32,
        fragment: u16,
        payload: &[u8],
    ) -> Result<(), AllocError>
        requires number { datagram < 2 ^ 24 }
        requires short { length payload.now < 2 ^ 15 }
        ensures { IfOk result (λ _. Gains self.old self.new (the_ipv4_packet datagram fragment payload.now ∷ [])) }
    {
        let packet = ipv4_packet(alloc, datagram, fragment, payload)?;
        self.push(&packet)
    }

    // The three fragments of a datagram of 48 bytes, the last one first.
    fn push_fragments(
        &mut self,
        alloc: Global,
        datagram: u32,
        payload: &[u8],
    ) -> Result<(), AllocError>
        requires number { datagram < 2 ^ 24 }
        requires whole { length payload.now ≡ 48 }
        ensures { IfOk result (λ _. Gains self.old self.new (fragments_of datagram payload.now)) }
    {
        self.push_ipv4(alloc, datagram, 4, &payload[32..48])?;
        self.push_ipv4(alloc, datagram, MORE, &payload[..16])?;
        self.push_ipv4(alloc, datagram, MORE + 2, &payload[16..32])?;
        Ok(())
    }

    // A whole datagram with so many letters as are drawn.
    fn push_whole(
        &mut self,
        alloc: Global,
        draws: &mut Draws,
        datagram: u32,
    ) -> Result<(), AllocError>
        requires { datagram < 2 ^ 24 }
        ensures state { IfOk result (λ _. draws.new.state ≡ state_after (next_state draws.old.state) (letters_in_whole draws.old.state)) }
        ensures packets { IfOk result (λ _. Gains self.old self.new (whole_line datagram draws.old.state)) }
    {
        let letters = (draws.draw() % 64) as u8;
        let payload = payload_drawn(alloc, draws, datagram, letters)?;
        self.push_ipv4(alloc, datagram, 0, &payload)?;
        Ok(())
    }

    // A packet without a datagram.
    fn push_arp(&mut self, alloc: Global) -> Result<(), AllocError>
        ensures { IfOk result (λ _. Gains self.old self.new (the_arp_packet ∷ [])) }
    {
        let packet = arp_packet(alloc)?;
        self.push(&packet)
    }

    // A datagram in three fragments.
    fn push_parted(
        &mut self,
        alloc: Global,
        draws: &mut Draws,
        datagram: u32,
    ) -> Result<(), AllocError>
        requires { datagram < 2 ^ 24 }
        ensures state { IfOk result (λ _. draws.new.state ≡ state_after draws.old.state 40) }
        ensures packets { IfOk result (λ _. Gains self.old self.new (fragment_line datagram draws.old.state)) }
    {
        let payload = payload_drawn(alloc, draws, datagram, 40)?;
        self.push_fragments(alloc, datagram, &payload)?;
        Ok(())
    }

    // A datagram in three fragments, and a fourth that clashes with the third. All letters are
    // drawn before the first fragment is made.
    fn push_clashing(
        &mut self,
        alloc: Global,
        draws: &mut Draws,
        datagram: u32,
    ) -> Result<(), AllocError>
        requires { datagram < 2 ^ 24 }
        ensures state { IfOk result (λ _. draws.new.state ≡ state_after (state_after draws.old.state 40) 16) }
        ensures packets { IfOk result (λ _. Gains self.old self.new (clash_line datagram draws.old.state)) }
    {
        let payload = payload_drawn(alloc, draws, datagram, 40)?;
        let others = draws.letters(alloc, 16)?;
        self.push_fragments(alloc, datagram, &payload)?;
        self.push_ipv4(alloc, datagram, MORE + 2, &others)?;
        Ok(())
    }

    /// Appends the packets of a line of this kind, whose letters are drawn.
    #[tactic(auto, unfolding(crate::specs::Packets::packets_for, crate::specs::Packets::state_behind))]
    pub(crate) fn push_line(
        &mut self,
        alloc: Global,
        draws: &mut Draws,
        kind: u32,
        datagram: u32,
    ) -> Result<(), AllocError>
        requires { datagram < 2 ^ 24 }
        ensures state { IfOk result (λ _. draws.new.state ≡ state_behind kind draws.old.state) }
        ensures packets { IfOk result (λ _. Gains self.old self.new (packets_for kind datagram draws.old.state)) }
    {
        if kind < 4 {
            self.push_whole(alloc, draws, datagram)
        } else if kind == 4 {
            self.push_arp(alloc)
        } else if kind == 7 {
            self.push_clashing(alloc, draws, datagram)
        } else {
            self.push_parted(alloc, draws, datagram)
        }
    }
}
