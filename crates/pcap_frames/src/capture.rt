ghost use Rattle.std.specs.Prelude.{◌≡◌, ◌≤◌, ◌⊎◌, length, IfOk, IfSome, All};
ghost use Rattle.capture_terms.specs.Capture.{Answer, IsAnswer, IsAcceptedLink, IsCapture, IsWithin};
ghost use Rattle.pcap_frames.specs.Answer.{answer_of};
ghost use Rattle.pcap_frames.specs.declared.capture.CaptureEnd.TheVariants.{Memory};

use crate::record_reader::{FileHeader, Next, RECORD_HEADER, file_header, next_at};
use capture_terms::{Capture, frames_lie_within, one_answer};
use std::alloc::{AllocFailed, Global};

const FIRST_RECORD: usize = 24;

const MAX_FRAMES: usize = 262144;

/// Why bytes are not read as a capture.
#[derive(Clone, Copy, Debug, PartialEq, Eq)]
pub enum CaptureEnd {
    /// The file has fewer than 24 bytes, and `at` is their number; or it begins with no magic
    /// number that is known, and `at` is 0.
    Header { at: u64 },
    /// The version is another than 2.4.
    Version,
    /// The link type is none of those that are read.
    Link { number: u16 },
    /// The record whose header stands at this place says that it holds more than 262,144 bytes.
    Record { at: u64 },
    /// Another whole record stands behind 262,144 of them.
    TooMany,
    /// There was no memory for the frames. This says nothing of the file.
    Memory,
}

impl<T: Drop> From<AllocFailed<T>> for CaptureEnd {
    ghost from_gives = { λ _ e. e ≡ Memory };

    fn from(_e: AllocFailed<T>) -> CaptureEnd {
        CaptureEnd::Memory
    }
}

/// Goes from record to record.
fn read(alloc: Global, bytes: &[u8]) -> Result<Capture, CaptureEnd>
    ensures { IfSome (answer_of result) (IsAnswer bytes.now) }
{
    let FileHeader { order, nanos, link } = file_header(bytes)?;
    let most = (bytes.len() / RECORD_HEADER).min(MAX_FRAMES);
    let Ok(mut frames) = Vec::with_capacity(alloc, most) else {
        return Err(CaptureEnd::Memory);
    };
    let mut at = FIRST_RECORD;
    loop {
        match next_at(order, bytes, at) {
            Next::Record(frame) => {
                if frames.len() >= MAX_FRAMES {
                    return Err(CaptureEnd::TooMany);
                }
                frames.push(frame)?;
                at = at + 16 + frame.length as usize;
            }
            Next::TooLong => return Err(CaptureEnd::Record { at: at as u64 }),
            Next::Tail(torn) => {
                return Ok(Capture {
                    nanos,
                    link,
                    frames,
                    torn,
                });
            }
        }
    }
}

/// The capture that a file in the pcap format, version 2.4, holds: its unit of time, its link type, its
/// frames in the order of their records, and the number of bytes at its end that are no whole record.
///
/// The file's numbers may stand in either byte order, and the fractions of its times may be microseconds
/// or nanoseconds, as its magic number tells. The time zone correction, the significant figures, the snapshot length and the high 16 bits of the network
/// field are not looked at. The frames keep the places of their bytes, and no byte is copied.
///
/// A file that is no capture is refused for the first reason that holds: by `Header`, `Version` or
/// `Link` for its header, and then by `Record` or `TooMany` for the first record that is too long, or
/// one too many. `Memory` may come for any file.
pub fn frames(alloc: Global, bytes: &[u8]) -> Result<Capture, CaptureEnd>
    // The capture is the one that the file is; a refusal has its reason.
    ensures found { IfSome (answer_of result) (IsAnswer bytes.now) }

    // A file that is a capture gives it, and one to be refused is refused, unless memory runs out.
    ensures only { (answer : Answer) → IsAnswer bytes.now answer → IfSome (answer_of result) (λ given. given ≡ answer) }
    ensures capture { IfOk result (IsCapture bytes.now) }
    ensures within { IfOk result (λ capture. All (IsWithin bytes.now) capture.frames.items) }
    ensures few { IfOk result (λ capture. length capture.frames.items ≤ 262144) }
    ensures link { IfOk result (λ capture. IsAcceptedLink capture.link) }
{
    one_answer();
    frames_lie_within();
    read(alloc, bytes)
}
