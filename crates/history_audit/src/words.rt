// Words of a line, and what they say by themselves.
ghost use Rattle.std.specs.Prelude.{◌≡◌, ◌∷◌, ◌<◌, ◌^◌, ◌&&◌, ◌==◌, nat_lt, length, slice_index, Some, None, IfSome, if◌then◌else◌};
ghost use Rattle.std.specs.List.{list_all};
ghost use Rattle.std.specs.Option.{option_copied};
ghost use Rattle.journal_terms.specs.Reading.{cut_at};
ghost use Rattle.journal_terms.specs.Strict as read;

use memchr::memchr;
use serial_terms::Reply;

// What stands before the first separator, and what stands behind it, where there is one.
pub(crate) fn cut(separator: u8, bytes: &[u8]) -> (&[u8], Option<&[u8]>)
    ensures cut { cut_at separator bytes.now ≡ result.0.now ∷ read.pieces separator (option_copied result.1) }
    ensures shorter { IfSome result.1 (λ rest. length rest.now < length bytes.now) }
{
    match memchr(separator, bytes) {
        None => (bytes, None),
        Some(end) => (&bytes[..end], Some(&bytes[end + 1..])),
    }
}

fn are_digits(word: &[u8]) -> bool
    ensures { result ≡ list_all read.is_digit word.now }
{
    word.iter().all(|c| *c >= b'0' && *c <= b'9')
}

fn has_zero_in_front(word: &[u8]) -> bool
    ensures { result ≡ (nat_lt 1 (length word.now) && slice_index word.now 0 == 48) }
{
    word.len() > 1 && word[0] == b'0'
}

// Whether the word is digits, with no zero in front of others.
#[tactic(auto, unfolding(journal_terms::specs::Strict::is_number))]
fn is_number(word: &[u8]) -> bool
    ensures { result ≡ read.is_number word.now }
{
    !word.is_empty() && !has_zero_in_front(word) && are_digits(word)
}

// The number of these digits, where it is below 2^64.
fn digits_value(digits: &[u8]) -> Option<u64>
    ensures { result ≡ (if nat_lt (read.read_on 0 digits.now) (2 ^ 64) then Some (read.read_on 0 digits.now) else None) }
{
    let mut number = 0u64;
    for digit in digits {
        let next = 10 * u128::from(number) + u128::from(digit.saturating_sub(b'0'));
        if next > u128::from(u64::MAX) {
            return None;
        }
        number = next as u64;
    }
    Some(number)
}

// The number that the word is: digits, with no zero in front of others.
#[tactic(auto, unfolding(journal_terms::specs::Strict::number_below))]
pub(crate) fn number(word: &[u8]) -> Option<u64>
    ensures { result ≡ read.number word.now }
{
    if is_number(word) {
        digits_value(word)
    } else {
        None
    }
}

// The number of a structure or a caller.
#[tactic(auto, unfolding(journal_terms::specs::Strict::number_below))]
pub(crate) fn small(word: &[u8]) -> Option<u32>
    ensures { result ≡ read.small word.now }
{
    let number = number(word)?;
    if number <= u64::from(u32::MAX) {
        Some(number as u32)
    } else {
        None
    }
}

pub(crate) fn value(word: &[u8]) -> Option<Reply>
    ensures { result ≡ read.value word.now }
{
    let number = number(word)?;
    Some(Reply::Value(number))
}

pub(crate) fn value_or_absent(word: &[u8]) -> Option<Reply>
    ensures { result ≡ read.value_or_absent word.now }
{
    if word == b"-".as_slice() {
        Some(Reply::Absent)
    } else {
        value(word)
    }
}

pub(crate) fn flag(word: &[u8]) -> Option<Reply>
    ensures { result ≡ read.flag word.now }
{
    if word == b"yes".as_slice() {
        Some(Reply::Flag(true))
    } else if word == b"no".as_slice() {
        Some(Reply::Flag(false))
    } else {
        None
    }
}
