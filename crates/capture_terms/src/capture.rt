ghost use Rattle.std.specs.Prelude.{◌≡◌, ◌<◌, ◌^◌};
ghost use Rattle.capture_terms.specs.Capture.{link_numbered, time_of};

/// The order in which a file writes the bytes of its numbers.
#[derive(Clone, Copy, Debug, PartialEq, Eq)]
pub enum Endianness {
    /// The lowest byte first.
    Little,
    /// The highest byte first.
    Big,
}

/// What stands at the head of each frame of a capture. These are the link types that are read.
#[derive(Clone, Copy, Debug, PartialEq, Eq)]
pub enum Link {
    /// An Ethernet header. The link type's number is 1.
    Ethernet,
    /// An IP packet, with nothing before it. The link type's number is 101.
    Raw,
    /// The header of 16 bytes that Linux writes where a capture is of any device, with the type at its
    /// end. The link type's number is 113.
    CookedV1,
    /// The header of version 2 of these, of 20 bytes with the type at its head. The link type's number
    /// is 276.
    CookedV2,
}

impl Link {
    /// The link whose link type has this number, if it is one that is read.
    pub fn numbered(number: u16) -> Option<Link>
        ensures { result ≡ link_numbered number }
    {
        match number {
            1 => Some(Link::Ethernet),
            101 => Some(Link::Raw),
            113 => Some(Link::CookedV1),
            276 => Some(Link::CookedV2),
            _ => None,
        }
    }
}

/// A captured frame: the fields of its record in the file, and the place of its bytes.
#[derive(Clone, Copy, Debug, PartialEq, Eq)]
pub struct Frame {
    /// When it was captured, in whole seconds since 1970.
    pub seconds: u32,
    /// The rest of that time, in the capture's unit of time.
    pub fraction: u32,
    /// The place in the file of the first of its bytes.
    pub at: u64,
    /// How many of its bytes were captured.
    pub length: u32,
    /// How many bytes it had on the wire. Nothing here looks at it.
    pub original: u32,
}

impl Frame {
    /// When it was captured, in nanoseconds since 1970, where the fractions of the capture's times are
    /// nanoseconds, or else microseconds. A fraction above a second counts as it is.
    pub fn time(&self, nanos: bool) -> u64
        ensures time { result ≡ time_of nanos self.now }
        ensures early { result < 2 ^ 63 }
    {
        let unit = if nanos { 1 } else { 1000 };
        u64::from(self.seconds) * 1_000_000_000 + u64::from(self.fraction) * unit
    }
}

/// What a capture file says.
#[derive(Drop)]
pub struct Capture {
    /// Whether the fractions of its times are nanoseconds. Else they are microseconds.
    pub nanos: bool,
    /// The number of the link type of its frames, which `Link` reads.
    pub link: u16,
    /// The frames in the order of their records.
    pub frames: Vec<Frame>,
    /// How many bytes after the last whole record belong to no frame.
    pub torn: u64,
}

/// Where a capture file breaks its format. Places are counted in bytes from 0.
#[derive(Clone, Copy, Debug, PartialEq, Eq)]
pub enum CaptureFault {
    /// The file header is too short, or its magic number is none of those known.
    Header { at: u64 },
    /// The version isn't 2.4.
    Version,
    /// The link type is none of those accepted.
    Link { number: u16 },
    /// The record says that more than 262,144 bytes were captured.
    Record { at: u64 },
    /// In a pcapng file: what stands at this place is no block that may stand there.
    Block { at: u64 },
    /// In a pcapng file: the packet of the block at this place has another link type than the packets
    /// before it.
    MixedLink { at: u64 },
    /// In a pcapng file: the major version at this place isn't 1.
    BlockVersion { at: u64 },
    /// In a pcapng file: a packet's link type, which stands at this place, is none of those accepted.
    BlockLink { number: u16, at: u64 },
}
