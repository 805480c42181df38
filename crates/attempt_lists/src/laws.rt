//! What is true of every list of cells and words.
ghost use Rattle.std.specs.Prelude.{◌≡◌, ℕ, nat_eq, Some, if◌then◌else◌};
ghost use Rattle.attempt_lists.specs.Cells.{Entries, word_at, put};

/// After a put the cell has the word, and each other cell what it had.
pub fn put_law()
    ensures { (entries : Entries) (cell word q : ℕ) → word_at (put entries cell word) q ≡ (if nat_eq cell q then Some word else word_at entries q) }
{}
