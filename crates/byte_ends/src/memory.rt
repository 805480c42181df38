// Files and a sink in memory, whose calls fail where they are told to.
ghost use Rattle.std.specs.Prelude.{◌≡◌, ◌⊎◌, ◌↔◌, ℕ, ◌+◌, ◌-◌, ◌^◌, ◌<◌, ◌≤◌, List, [], ◌∷◌, ◌++◌, length, take, Option, Some, None, IfOk, OnOk, OnErr, IfErr, IsErr, IsErrOf, MatchOption, vec_len, vec_capacity, Contains, min, is_ok, if◌then◌else◌};
ghost use Rattle.byte_ends.specs.Told.{one_more, Rose, IfTold, IsPieceAt, Grows};
ghost use Rattle.byte_ends.specs.InMemory.{Entry, entries_of, bytes_of, NamesDiffer, FilesInMemory, SinkInMemory};

use crate::{Failed, Files, ReadFault, Sink};
use std::alloc::{AllocError, Global};
use std::marker::Model;

/// Files in memory. Contracts see their names and bytes, the numbers of the calls that are to fail,
/// the number of calls that were made, and the number of faults, which is that of every name.
#[derive(Drop)]
pub struct MemoryFiles {
    files: Vec<(String, Vec<u8>)>,
    failing: Vec<u64>,
    calls: u64,
    faults: u64,
}

impl Model for MemoryFiles {
    ghost Value = { FilesInMemory };

    ghost view = { λ m. record { entries = entries_of m.files.items; failing = m.failing.items; calls = m.calls; faults = m.faults } };
}

fn find<'a>(files: &'a [(String, Vec<u8>)], name: &str) -> Option<&'a [u8]>
    ensures { MatchOption result (bytes_of (entries_of files.now) name.now ≡ None) (λ file. bytes_of (entries_of files.now) name.now ≡ Some file.now) }
{
    for file in files {
        if file.0.as_str() == name {
            return Some(file.1.as_slice());
        }
    }
    None
}

// Copies as much of the file from a place on as there is and as has room.
fn copy_piece(file: &[u8], at: u64, into: &mut [u8]) -> usize
    ensures count { result ≡ min (length into.new) (length file.now - at) }
    ensures piece { IsPieceAt file.now at result into.new }
{
    let start = (at as usize).min(file.len());
    let count = into.len().min(file.len() - start);
    into[..count].copy_from_slice(&file[start..start + count]);
    count
}

impl MemoryFiles {
    /// Files with these names, which differ, and these bytes. The calls of the numbers in `failing`
    /// fail, where the first call of `read` has the number 1.
    pub fn new(files: Vec<(String, Vec<u8>)>, failing: Vec<u64>) -> MemoryFiles
        requires names { NamesDiffer (entries_of files.items) }
        ensures { result ≡ record { entries = entries_of files.items; failing = failing.items; calls = 0; faults = 0 } }
    {
        MemoryFiles {
            files,
            failing,
            calls: 0,
            faults: 0,
        }
    }

    fn fail(&mut self) -> ReadFault
        ensures fault { result ≡ ReadFault.Failed }
        ensures counted { self.new ≡ record self.old { faults = one_more self.old.faults } }
        ensures counts { self.old.faults ≤ self.new.faults }
    {
        self.faults = self.faults.saturating_add(1);
        ReadFault::Failed
    }
}

impl Files for MemoryFiles {
    ghost content = { λ m name. bytes_of m.entries name };

    ghost faults = { λ m _. m.faults };

    /// As `Files::read`, with as many bytes as there are and as have room.
    ///
    /// `Failed` comes exactly where this call was to fail or there is no file of this name. It takes
    /// no memory.
    fn read(&mut self, name: &str, at: u64, into: &mut [u8]) -> Result<usize, ReadFault>
        requires near { at ≤ 2 ^ 30 }
        ensures bound { IfOk result (λ n. n ≤ length into.new) }
        ensures bytes { IfOk result (λ n. IfTold (bytes_of self.old.entries name.now) (λ file. IsPieceAt file at n into.new)) }
        ensures end { IfOk result (λ n. IfTold (bytes_of self.old.entries name.now) (λ file. n ≡ 0 → 0 < length into.new → length file ≤ at)) }
        ensures content { (file : List ℕ) → bytes_of self.new.entries file ≡ bytes_of self.old.entries file }
        ensures counts { (file : List ℕ) → self.old.faults ≤ self.new.faults }
        ensures cause { IsErrOf result ReadFault.Failed → Rose self.old.faults self.new.faults }

        ensures exact { IfOk result (λ n. IfTold (bytes_of self.old.entries name.now) (λ file. n ≡ min (length into.new) (length file - at))) }
        ensures failed_exactly { IsErr result ↔ (Contains self.old.failing (one_more self.old.calls) ⊎ (bytes_of self.old.entries name.now ≡ None)) }
        ensures no_memory { IfErr result (λ fault. fault ≡ ReadFault.Failed) }
        ensures counted { self.new ≡ record self.old { calls = one_more self.old.calls; faults = (if is_ok result then self.old.faults else one_more self.old.faults) } }
    {
        self.calls = self.calls.saturating_add(1);
        if self.failing.contains(&self.calls) {
            return Err(self.fail());
        }
        match find(&self.files, name) {
            None => Err(self.fail()),
            Some(file) => Ok(copy_piece(file, at, into)),
        }
    }
}

/// A sink in memory with room for a stated number of bytes. Contracts see its bytes, that room, the
/// numbers of the calls that are to fail, the number of calls that were made, and that of faults.
#[derive(Drop)]
pub struct MemorySink {
    bytes: Vec<u8>,
    room: usize,
    failing: Vec<u64>,
    calls: u64,
    faults: u64,
}

impl Model for MemorySink {
    ghost Value = { SinkInMemory };

    ghost view = { λ s. record { bytes = s.bytes.items; room = s.room; failing = s.failing.items; calls = s.calls; faults = s.faults } };

    ghost invariant = { λ s. (vec_len s.bytes ≤ s.room) × (s.room ≤ vec_capacity s.bytes) };
}

impl MemorySink {
    /// An empty sink with room for so many bytes, which is reserved here. The calls of the numbers in
    /// `failing` fail, where the first call of `write` has the number 1.
    pub fn new(alloc: Global, room: usize, failing: Vec<u64>) -> Result<MemorySink, AllocError>
        ensures { IfOk result (λ sink. sink ≡ record { bytes = []; room = room; failing = failing.items; calls = 0; faults = 0 }) }
    {
        let bytes = Vec::with_capacity(alloc, room)?;
        Ok(MemorySink {
            bytes,
            room,
            failing,
            calls: 0,
            faults: 0,
        })
    }

    /// The bytes that were written.
    pub fn written(&self) -> &[u8]
        ensures { result.now ≡ self.now.bytes }
    {
        &self.bytes
    }

    fn fail(&mut self) -> Failed
        ensures counted { self.new ≡ record self.old { faults = one_more self.old.faults } }
        ensures counts { self.old.faults ≤ self.new.faults }
    {
        self.faults = self.faults.saturating_add(1);
        Failed
    }
}

impl Sink for MemorySink {
    ghost written = { λ s. Some s.bytes };

    ghost faults = { λ s. s.faults };

    /// As `Sink::write`, with as much of the piece as the room left allows.
    ///
    /// `Failed` comes exactly where this call was to fail or a non-empty piece found no room left. It
    /// takes no memory.
    fn write(&mut self, piece: &[u8]) -> Result<usize, Failed>
        ensures bound { IfOk result (λ n. n ≤ length piece.now) }
        ensures some { IfOk result (λ n. n ≡ 0 → length piece.now ≡ 0) }
        ensures appended { IfOk result (λ n. Grows (Some self.old.bytes) (Some self.new.bytes) (take n piece.now)) }
        ensures failed { OnErr result (Some self.new.bytes ≡ Some self.old.bytes) }
        ensures counts { self.old.faults ≤ self.new.faults }
        ensures cause { OnErr result (Rose self.old.faults self.new.faults) }

        ensures exact { IfOk result (λ n. n ≡ min (length piece.now) (self.old.room - length self.old.bytes)) }
        ensures failed_exactly { IsErr result ↔ (Contains self.old.failing (one_more self.old.calls) ⊎ ((0 < length piece.now) × (self.old.room ≤ length self.old.bytes))) }
        ensures counted { self.new ≡ record self.old { bytes = self.new.bytes; calls = one_more self.old.calls; faults = (if is_ok result then self.old.faults else one_more self.old.faults) } }
    {
        self.calls = self.calls.saturating_add(1);
        let count = piece.len().min(self.room - self.bytes.len());
        if self.failing.contains(&self.calls) || count == 0 && !piece.is_empty() {
            return Err(self.fail());
        }
        self.bytes.extend_from_slice(&piece[..count]).unwrap();
        Ok(count)
    }
}
