// What a caller may rely on of files and of sinks.
ghost use Rattle.std.specs.Prelude.{◌≡◌, ℕ, ◌^◌, ◌<◌, ◌≤◌, List, length, take, Option, IfOk, OnErr, IsErrOf};
ghost use Rattle.byte_ends.specs.Told.{Rose, IfTold, IsPieceAt, Grows};

/// The fault of a call on a sink. The sink's count of faults says how often.
#[derive(Clone, Copy, Debug, PartialEq, Eq)]
pub struct Failed;

/// Why a read gave no bytes.
#[derive(Clone, Copy, Debug, PartialEq, Eq)]
pub enum ReadFault {
    /// The call on the file failed. The object's count of faults for its name says how often.
    Failed,
    /// Memory was wanted, as for the file's name. This says nothing of the file.
    Memory,
}

/// Files by name, which are read a piece at a time.
pub trait Files {
    /// The bytes of the file of a name, or nothing where the object doesn't tell.
    ghost content: { Self → List ℕ → Option (List ℕ) };

    /// For each name, a number that never falls and rises at each failed call with that name.
    ghost faults: { Self → List ℕ → ℕ };

    /// Reads bytes of the file from the byte place `at` on, which is at most 2^30, into the front of
    /// `into`, and answers how many. It answers 0 for a non-empty `into` only at or past the end.
    ///
    /// `Failed`: the count for this name rose. A file that isn't there can't be read.
    fn read(&mut self, name: &str, at: u64, into: &mut [u8]) -> Result<usize, ReadFault>
        requires near { at ≤ 2 ^ 30 }
        ensures bound { IfOk result (λ n. n ≤ length into.new) }
        ensures bytes { IfOk result (λ n. IfTold (content self.old name.now) (λ file. IsPieceAt file at n into.new)) }
        ensures end { IfOk result (λ n. IfTold (content self.old name.now) (λ file. n ≡ 0 → 0 < length into.new → length file ≤ at)) }
        ensures content { (file : List ℕ) → content self.new file ≡ content self.old file }
        ensures counts { (file : List ℕ) → faults self.old file ≤ faults self.new file }
        ensures cause { IsErrOf result ReadFault.Failed → Rose (faults self.old name.now) (faults self.new name.now) };
}

/// A place that bytes are appended to.
pub trait Sink {
    /// The bytes so far, or nothing where the object doesn't tell.
    ghost written: { Self → Option (List ℕ) };

    /// A number that never falls and rises at each failed call.
    ghost faults: { Self → ℕ };

    /// Appends bytes from the front of the piece, and answers how many. It answers 0 for an empty
    /// piece alone.
    ///
    /// `Failed`: the count rose, and nothing was appended.
    fn write(&mut self, piece: &[u8]) -> Result<usize, Failed>
        ensures bound { IfOk result (λ n. n ≤ length piece.now) }
        ensures some { IfOk result (λ n. n ≡ 0 → length piece.now ≡ 0) }
        ensures appended { IfOk result (λ n. Grows (written self.old) (written self.new) (take n piece.now)) }
        ensures failed { OnErr result (written self.new ≡ written self.old) }
        ensures counts { faults self.old ≤ faults self.new }
        ensures cause { OnErr result (Rose (faults self.old) (faults self.new)) };
}
