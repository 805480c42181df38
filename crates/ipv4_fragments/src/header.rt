ghost use Rattle.std.specs.Prelude.{◌≡◌, ◌⊎◌, ℕ, ◌+◌, ◌*◌, ◌^◌, ◌<◌, ◌≤◌, List, length, drop, IfSome, IsTrue};
ghost use Rattle.std.specs.Bool.{OnFalse};
ghost use Rattle.capture_terms.specs.Capture.{frame_bytes, IsAcceptedLink, IsWithin};
ghost use Rattle.capture_terms.specs.Classes as classes;
ghost use Rattle.capture_terms.specs.Numbers.{number16, number32};
ghost use Rattle.capture_terms.specs.declared.capture.Endianness.TheVariants.{Big};
ghost use Rattle.ipv4_fragments.specs.Header.{HasHeader, HasPlaces, IsSound};

use byteorder::{BigEndian, ByteOrder};
use capture_terms::{Frame, Header, Kind, Link, Piece};

#[tactic(auto, unfolding(capture_terms::specs::Numbers::number16))]
fn u16_at(bytes: &[u8], at: usize) -> u16
    requires { at + 2 ≤ length bytes.now }
    ensures { result ≡ number16 Big bytes.now at }
{
    BigEndian::read_u16(&bytes[at..])
}

#[tactic(auto, unfolding(capture_terms::specs::Numbers::number32))]
fn u32_at(bytes: &[u8], at: usize) -> u32
    requires { at + 4 ≤ length bytes.now }
    ensures { result ≡ number32 Big bytes.now at }
{
    BigEndian::read_u32(&bytes[at..])
}

fn has_type(frame: &[u8], at: usize, kind: u16) -> bool
    requires { at < 2 ^ 32 }
    ensures { result ≡ classes.has_type frame.now at kind }
{
    at + 2 <= frame.len() && u16_at(frame, at) == kind
}

fn has_tag(frame: &[u8], at: usize) -> bool
    requires { at < 2 ^ 32 }
    ensures { result ≡ classes.has_tag frame.now at }
{
    has_type(frame, at, 0x8100) || has_type(frame, at, 0x88a8)
}

fn has_ipv4(frame: &[u8], at: usize) -> bool
    requires { at < 2 ^ 32 }
    ensures { result ≡ classes.has_ipv4 frame.now at }
{
    has_type(frame, at, 0x0800)
}

// Where the datagram of an Ethernet frame begins: behind its header and at most two tags.
#[tactic(auto, unfolding(capture_terms::specs::Classes::ethernet_start))]
fn ethernet_start(frame: &[u8]) -> Option<usize>
    ensures start { result ≡ classes.ethernet_start frame.now }
    ensures within { IfSome result (λ start. start ≤ length frame.now) }
{
    if has_ipv4(frame, 12) {
        Some(14)
    } else if has_tag(frame, 12) && has_ipv4(frame, 16) {
        Some(18)
    } else if has_tag(frame, 12) && has_tag(frame, 16) && has_ipv4(frame, 20) {
        Some(22)
    } else {
        None
    }
}

#[tactic(auto, unfolding(capture_terms::specs::Classes::raw_start))]
fn raw_start(frame: &[u8]) -> Option<usize>
    ensures start { result ≡ classes.raw_start frame.now }
    ensures within { IfSome result (λ start. start ≤ length frame.now) }
{
    if !frame.is_empty() && frame[0] / 16 == 4 {
        Some(0)
    } else {
        None
    }
}

// Where the datagram begins behind a Linux cooked header, at whose end the type stands.
#[tactic(auto, unfolding(capture_terms::specs::Classes::cooked_v1_start))]
fn cooked_v1_start(frame: &[u8]) -> Option<usize>
    ensures start { result ≡ classes.cooked_v1_start frame.now }
    ensures within { IfSome result (λ start. start ≤ length frame.now) }
{
    if has_ipv4(frame, 14) { Some(16) } else { None }
}

// The same behind one of version 2, at whose head the type stands.
#[tactic(auto, unfolding(capture_terms::specs::Classes::cooked_v2_start))]
fn cooked_v2_start(frame: &[u8]) -> Option<usize>
    ensures start { result ≡ classes.cooked_v2_start frame.now }
    ensures within { IfSome result (λ start. start ≤ length frame.now) }
{
    if has_ipv4(frame, 0) && frame.len() >= 20 {
        Some(20)
    } else {
        None
    }
}

fn datagram_start(link: Link, frame: &[u8]) -> Option<usize>
    ensures start { result ≡ classes.datagram_start link frame.now }
    ensures within { IfSome result (λ start. start ≤ length frame.now) }
{
    match link {
        Link::Ethernet => ethernet_start(frame),
        Link::Raw => raw_start(frame),
        Link::CookedV1 => cooked_v1_start(frame),
        Link::CookedV2 => cooked_v2_start(frame),
    }
}

#[tactic(auto, unfolding(capture_terms::specs::Classes::has_bad_header))]
fn has_bad_header(datagram: &[u8]) -> bool
    ensures bad { result ≡ classes.has_bad_header datagram.now }
    ensures good { OnFalse result (HasHeader datagram.now) }
{
    datagram.len() < 20
        || datagram[0] / 16 != 4
        || datagram[0] % 16 < 5
        || u16_at(datagram, 2) < u16::from(datagram[0] % 16) * 4
}

// Whether the flag is set that tells of more fragments behind this one.
fn has_more_fragments(datagram: &[u8]) -> bool
    requires { HasHeader datagram.now }
    ensures { result ≡ classes.has_more_fragments datagram.now }
{
    u16_at(datagram, 6) / 8192 % 2 == 1
}

fn data_start(datagram: &[u8]) -> u32
    requires { HasHeader datagram.now }
    ensures start { result ≡ classes.data_start datagram.now }
    ensures short { result < 65536 }
{
    u32::from(u16_at(datagram, 6) % 8192) * 8
}

fn header_length(datagram: &[u8]) -> u32
    requires { HasHeader datagram.now }
    ensures length { result ≡ classes.header_length datagram.now }
    ensures short { result ≤ 60 }
{
    u32::from(datagram[0] % 16) * 4
}

fn data_length(datagram: &[u8]) -> u32
    requires { HasHeader datagram.now }
    ensures length { result ≡ classes.data_length datagram.now }
    ensures short { result < 65536 }
{
    u32::from(u16_at(datagram, 2)) - header_length(datagram)
}

fn is_fragment(datagram: &[u8]) -> bool
    requires { HasHeader datagram.now }
    ensures { result ≡ classes.is_fragment datagram.now }
{
    u16_at(datagram, 6) % 8192 != 0 || has_more_fragments(datagram)
}

#[tactic(auto, unfolding(capture_terms::specs::Classes::has_bad_data))]
fn has_bad_data(datagram: &[u8]) -> bool
    requires { HasHeader datagram.now }
    ensures bad { result ≡ classes.has_bad_data datagram.now }
    ensures short { OnFalse result (classes.data_start datagram.now + classes.data_length datagram.now ≤ 65535) }
    ensures some { OnFalse result (IsTrue (classes.is_fragment datagram.now) → 0 < classes.data_length datagram.now) }
{
    let length = data_length(datagram);
    is_fragment(datagram) && length == 0
        || has_more_fragments(datagram) && length % 8 != 0
        || header_length(datagram) + data_start(datagram) + length > 65535
}

#[tactic(auto, unfolding(capture_terms::specs::Classes::piece_of))]
fn piece_of(at: u64, datagram: &[u8]) -> Piece
    requires header { HasHeader datagram.now }
    requires place { at < 2 ^ 63 }
    ensures { result ≡ classes.piece_of at datagram.now }
{
    Piece {
        header: Header {
            source: u32_at(datagram, 12),
            destination: u32_at(datagram, 16),
            protocol: datagram[9],
        },
        id: u16_at(datagram, 4),
        generation: 0,
        start: data_start(datagram),
        length: data_length(datagram),
        last: !has_more_fragments(datagram),
        from: at + u64::from(header_length(datagram)),
    }
}

#[tactic(auto, unfolding(capture_terms::specs::Classes::datagram_kind, capture_terms::specs::Classes::is_cut, capture_terms::specs::Classes::piece_of))]
fn datagram_kind(at: u64, datagram: &[u8]) -> Kind
    requires place { at < 2 ^ 63 }
    ensures kind { result ≡ classes.datagram_kind at datagram.now }
    ensures sound { IsSound (at + length datagram.now) result }
    ensures places { HasPlaces result }
{
    if has_bad_header(datagram) || has_bad_data(datagram) {
        Kind::Bad
    } else if datagram.len() < usize::from(u16_at(datagram, 2)) {
        Kind::Cut
    } else if is_fragment(datagram) {
        Kind::Fragment(piece_of(at, datagram))
    } else {
        Kind::Whole(piece_of(at, datagram))
    }
}

/// What a frame is by itself. Where the capture's link isn't one that is read, it carries no datagram.
#[tactic(auto, unfolding(capture_terms::specs::Classes::kind_of))]
pub fn kind_of(link: Option<Link>, bytes: &[u8], frame: &Frame) -> Kind
    requires { IsWithin bytes.now frame.now }
    ensures kind { result ≡ classes.kind_of link bytes.now frame.now }
    ensures sound { IsSound (length bytes.now) result }
    ensures places { HasPlaces result }
{
    let Some(link) = link else {
        return Kind::Other;
    };
    let at = frame.at as usize;
    let taken = &bytes[at..at + frame.length as usize];
    match datagram_start(link, taken) {
        None => Kind::Other,
        Some(start) => datagram_kind(frame.at + start as u64, &taken[start..]),
    }
}
