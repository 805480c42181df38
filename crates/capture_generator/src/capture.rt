// The generated capture.
ghost use Rattle.std.specs.Prelude.{◌≡◌, ◌<◌, ◌≤◌, length, IfOk};
ghost use Rattle.capture_generator.specs.Packets.{generated_capture, packets_of};
ghost use Rattle.capture_generator.specs.Reading.{GeneratedIsRead};

use crate::draws::Draws;
use crate::written::Written;
use std::alloc::{AllocError, Global};

/// A capture with so many packets, at most 262,144, drawn from a seed: whole datagrams of UDP,
/// datagrams in three fragments, some with a fourth that clashes, and packets without a datagram.
/// Equal seeds give equal captures.
pub fn generated(alloc: Global, seed: u64, frames: u32) -> Result<Vec<u8>, AllocError>
    requires { frames ≤ 262144 }
    ensures bytes { IfOk result (λ bytes. bytes.items ≡ generated_capture seed frames) }
    ensures short { IfOk result (λ bytes. length bytes.items < 32000000) }
{
    let mut written = Written::new(alloc, frames)?;
    let mut draws = Draws { state: seed };
    let mut datagram = 0;
    // Each line has one packet at least, and those beyond the limit are dropped.
    for _ in 0..frames {
        let kind = draws.draw() % 8;
        written.push_line(alloc, &mut draws, kind, datagram)?;
        if kind != 4 {
            datagram += 1;
        }
    }
    Ok(written.bytes)
}

/// A generated capture has as many packets as were asked for.
pub fn packets_law(seed: u64, frames: u32)
    ensures { length (packets_of seed frames) ≡ frames }
{}

/// A generated capture of at most 262,144 packets is read as a capture whose frames are these packets,
/// with nothing torn at its end.
pub fn generated_is_read_law()
    ensures { GeneratedIsRead }
{}
