ghost use Rattle.std.specs.Prelude.{◌≡◌};
ghost use Rattle.store_layout.specs.States.{head_in, length_in};

use cell_table::head_len;

/// A queue in the cells of a table: the cell `end` has the head times 2^32, plus the length, and the `capacity` cells behind
/// it are a ring of places for items.
///
/// The head is the place of the first item. Item k stands in place `(head + k) % capacity`, and its word is its value.
#[derive(Clone, Copy, Debug, PartialEq, Eq)]
pub struct QueuePart {
    /// The number under which additions to the queue wait.
    pub part: u32,
    /// The cell of its head and its length.
    pub end: u32,
    /// How many items it may have. One of capacity 0 never has any.
    pub capacity: u32,
}

// The head and the length in the word of an end.
pub(crate) fn head_and_length(end: u64) -> (u32, u32)
    ensures head { result.0 ≡ head_in end }
    ensures length { result.1 ≡ length_in end }
{
    head_len(end)
}
