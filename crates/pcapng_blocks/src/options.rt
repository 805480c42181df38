ghost use Rattle.std.specs.Prelude.{◌≡◌, ◌+◌, ◌≤◌, true, false, length, IfNone, IfSome};
ghost use Rattle.pcapng_blocks.specs.Options as terms;

use capture_terms::Endianness;
use pcap_frames::u16_at;

const RESOLUTION: u16 = 9;

const MICROSECONDS_RESOLUTION: u8 = 6;

// Where the option at a place ends, if one stands there.
fn option_end(order: Endianness, bytes: &[u8], end: usize, at: usize) -> Option<usize>
    requires within { end ≤ length bytes.now }
    ensures none { IfNone result (terms.is_option order bytes.now end at ≡ false) }
    ensures there { IfSome result (λ _. terms.is_option order bytes.now end at ≡ true) }
    ensures next { IfSome result (λ next. next ≡ terms.option_end order bytes.now at) }
{
    if end < 4 || at > end - 4 || u16_at(order, bytes, at) == 0 {
        return None;
    }
    let next = at + 4 + (u16_at(order, bytes, at + 2) as usize + 3) / 4 * 4;
    if next <= end { Some(next) } else { None }
}

// Whether the option at a place is a resolution.
fn is_resolution(order: Endianness, bytes: &[u8], at: usize) -> bool
    requires { at + 4 ≤ length bytes.now }
    ensures { result ≡ terms.is_resolution order bytes.now at }
{
    u16_at(order, bytes, at) == RESOLUTION && u16_at(order, bytes, at + 2) == 1
}

/// The resolution of an interface's times, by the options from a place on: what the first option of this
/// code and of one byte says, or microseconds where there is none.
pub fn resolution(order: Endianness, bytes: &[u8], end: usize, from: usize) -> u8
    requires { end ≤ length bytes.now }
    ensures { result ≡ terms.resolution_in order bytes.now end from }
{
    let mut at = from;
    while let Some(next) = option_end(order, bytes, end, at) {
        if is_resolution(order, bytes, at) {
            return bytes[at + 4];
        }
        at = next;
    }
    MICROSECONDS_RESOLUTION
}
