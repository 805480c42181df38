// Whole files and whole texts, by as many calls as they take.
ghost use Rattle.std.specs.Prelude.{◌≡◌, ℕ, ◌+◌, ◌-◌, ◌^◌, ◌<◌, ◌≤◌, List, length, take, Option, IfOk, OnOk, OnErr, IsErr, IsErrOf, vec_len};
ghost use Rattle.byte_ends.specs.Told.{Rose, IfTold, Grows, GrowsByPrefix};

use crate::{Failed, Files, ReadFault, Sink};
use std::alloc::Global;

// The bytes that the first call asks for, which are all of most rule files, and those that a later one
// asks for.
const FIRST_PIECE: usize = 65_536;

const PIECE: usize = 2_097_152;

/// Why a file wasn't read whole.
#[derive(Clone, Copy, Debug, PartialEq, Eq)]
pub enum ReadEnd {
    /// A call on the files failed.
    Read,
    /// The file is longer than the limit.
    TooLong,
    /// Memory was wanted.
    Memory,
}

/// The whole file, of at most `limit` bytes, where `limit` is at most 2^30.
///
/// `Read` comes only where the files' count for this name rose in the call, and `TooLong` only where
/// the file is longer than `limit`. A longer file is never answered by its first bytes.
pub fn read_all<F: Files>(
    alloc: Global,
    files: &mut F,
    name: &str,
    limit: u64,
) -> Result<Vec<u8>, ReadEnd>
    requires near { limit ≤ 2 ^ 30 }
    ensures whole { IfOk result (λ v. IfTold (F.content files.old name.now) (λ file. v.items ≡ file)) }
    ensures length { IfOk result (λ v. vec_len v ≤ limit) }
    ensures read_cause { IsErrOf result ReadEnd.Read → Rose (F.faults files.old name.now) (F.faults files.new name.now) }
    ensures too_long { IsErrOf result ReadEnd.TooLong → IfTold (F.content files.old name.now) (λ file. limit < length file) }
    ensures too_long_back { IfTold (F.content files.old name.now) (λ file. limit < length file → IsErr result) }

    // The contents stay, and no count falls.
    ensures content { (file : List ℕ) → F.content files.new file ≡ F.content files.old file }
    ensures counts { (file : List ℕ) → F.faults files.old file ≤ F.faults files.new file }
{
    let mut content = Vec::new(alloc);
    let mut piece = Vec::new(alloc);
    let mut room = FIRST_PIECE;
    loop {
        if piece.resize(room, 0).is_err() {
            return Err(ReadEnd::Memory);
        }
        let at = content.len() as u64;
        let count = match files.read(name, at, &mut piece) {
            Ok(count) => count,
            Err(ReadFault::Failed) => return Err(ReadEnd::Read),
            Err(ReadFault::Memory) => return Err(ReadEnd::Memory),
        };
        if count == 0 {
            return Ok(content);
        }
        if count as u64 > limit - at {
            return Err(ReadEnd::TooLong);
        }
        if content.extend_from_slice(&piece[..count]).is_err() {
            return Err(ReadEnd::Memory);
        }
        room = PIECE;
    }
}

/// Appends all the bytes, by as many calls as it takes.
///
/// `Failed`: a call failed, so the sink's count rose, and a prefix of the bytes was appended.
pub fn write_all<O: Sink>(sink: &mut O, bytes: &[u8]) -> Result<(), Failed>
    ensures all { OnOk result (Grows (O.written sink.old) (O.written sink.new) bytes.now) }
    ensures prefix { OnErr result (GrowsByPrefix (O.written sink.old) (O.written sink.new) bytes.now) }
    ensures counts { O.faults sink.old ≤ O.faults sink.new }
    ensures cause { OnErr result (Rose (O.faults sink.old) (O.faults sink.new)) }
{
    let mut rest = bytes;
    while !rest.is_empty() {
        let count = sink.write(rest)?;
        rest = &rest[count..];
    }
    Ok(())
}
