//! Fields of words, and where the words of a cell are.
ghost use Rattle.std.specs.Prelude.{◌≡◌, ℕ, ◌+◌, ◌*◌, ◌/◌, ◌%◌, ◌^◌, ◌<◌, ◌≤◌, ◌≢◌, MatchOption};

// Behind the clock, at place 0, each cell has two words.
macro_rules! lock_place {
    ($cell:expr) => {
        2 * $cell as usize + 1
    };
}

macro_rules! value_place {
    ($cell:expr) => {
        2 * $cell as usize + 2
    };
}

pub(crate) use lock_place;
pub(crate) use value_place;

/// The version in a free lock word: half of an even word. None exactly for an odd one.
pub fn free_version(word: u64) -> Option<u64>
    ensures { MatchOption result (word % 2 ≡ 1) (λ version. (word % 2 ≡ 0) × (word ≡ 2 * version)) }
{
    if word % 2 == 0 { Some(word / 2) } else { None }
}

/// The caller in a held lock word: half of an odd word below 2^33. None exactly for every other word.
pub fn owner(word: u64) -> Option<u32>
    ensures { MatchOption result ((word % 2 ≡ 1) → (2 ^ 33 ≤ word)) (λ caller. (word ≡ 2 * caller + 1) × (word < 2 ^ 33)) }
{
    if word % 2 == 1 && word < 1 << 33 {
        Some((word / 2) as u32)
    } else {
        None
    }
}

/// The two halves of a word: a head and a length.
pub fn head_len(word: u64) -> (u32, u32)
    ensures { word ≡ result.0 * 2 ^ 32 + result.1 }
{
    ((word >> 32) as u32, (word & 0xffff_ffff) as u32)
}

/// The word of a head and a length.
pub fn pack_head_len(head: u32, len: u32) -> u64
    ensures { result ≡ head * 2 ^ 32 + len }
{
    ((head as u64) << 32) + len as u64
}
