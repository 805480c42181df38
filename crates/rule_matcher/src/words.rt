// Words of a line, which end at blanks, and numbers.
ghost use Rattle.std.specs.Prelude.{◌≡◌};
ghost use Rattle.std.specs.Option.{option_map, option_copied};
ghost use Rattle.rule_terms.specs.Words as term;
ghost use Rattle.rule_terms.specs.Reader as reader;

use memchr::{memchr, memchr2};

pub(crate) fn is_blank(b: u8) -> bool
    ensures { result ≡ term.is_blank b }
{
    b == b' ' || b == b'\t'
}

pub(crate) fn are_blanks(bytes: &[u8]) -> bool
    ensures { result ≡ term.are_blanks bytes.now }
{
    bytes.iter().all(|b| is_blank(*b))
}

fn is_word_end(bytes: &[u8]) -> bool
    ensures { result ≡ term.is_word_end bytes.now }
{
    match bytes {
        [] => true,
        [b, ..] => is_blank(*b),
    }
}

#[tactic(auto, unfolding(rule_terms::specs::Reader::behind_blanks))]
pub(crate) fn behind_blanks(bytes: &[u8]) -> &[u8]
    ensures { result.now ≡ reader.behind_blanks bytes.now }
{
    for (i, b) in bytes.iter().enumerate() {
        if !is_blank(*b) {
            return &bytes[i..];
        }
    }
    &bytes[bytes.len()..]
}

// The first word and what is behind it; an empty word where there is none.
#[tactic(auto, unfolding(rule_terms::specs::Reader::first_word))]
pub(crate) fn first_word(bytes: &[u8]) -> (&[u8], &[u8])
    ensures { (result.0.now, result.1.now) ≡ reader.first_word bytes.now }
{
    until_blank(behind_blanks(bytes))
}

fn until_blank(bytes: &[u8]) -> (&[u8], &[u8])
    ensures { (result.0.now, result.1.now) ≡ reader.until_blank bytes.now }
{
    match memchr2(b' ', b'\t', bytes) {
        None => (bytes, &bytes[bytes.len()..]),
        Some(end) => (&bytes[..end], &bytes[end..]),
    }
}

// What is behind the first word, where that is this one.
#[tactic(auto, unfolding(rule_terms::specs::Reader::behind_word))]
pub(crate) fn behind_word<'a>(word: &[u8], bytes: &'a [u8]) -> Option<&'a [u8]>
    ensures { option_copied result ≡ reader.behind_word word.now bytes.now }
{
    let (first, rest) = first_word(bytes);
    if first == word { Some(rest) } else { None }
}

// Whether this word stands first, and what is behind it.
#[tactic(auto, unfolding(rule_terms::specs::Reader::read_flag))]
pub(crate) fn flag<'a>(word: &[u8], bytes: &'a [u8]) -> (bool, &'a [u8])
    ensures { (result.0, result.1.now) ≡ reader.read_flag word.now bytes.now }
{
    let (first, rest) = first_word(bytes);
    if first == word {
        (true, rest)
    } else {
        (false, bytes)
    }
}

#[tactic(auto, unfolding(rule_terms::specs::Reader::number_of))]
pub(crate) fn number(digits: &[u8]) -> Option<u16>
    ensures { result ≡ reader.number_of digits.now }
{
    if digits.is_empty() || digits.len() > 1 && digits[0] == b'0' {
        None
    } else {
        digits_value(digits)
    }
}

#[tactic(auto, unfolding(rule_terms::specs::Reader::digits_from))]
fn digits_value(digits: &[u8]) -> Option<u16>
    ensures { result ≡ reader.digits_from 0 digits.now }
{
    let mut number = 0u16;
    for digit in digits {
        if *digit < b'0' || *digit > b'9' {
            return None;
        }
        let next = 10 * u32::from(number) + u32::from(*digit - b'0');
        if next > 65_535 {
            return None;
        }
        number = next as u16;
    }
    Some(number)
}

// The number behind this word, where the word stands first, and what is behind it.
#[tactic(auto, unfolding(rule_terms::specs::Reader::read_number))]
pub(crate) fn number_behind<'a>(word: &[u8], bytes: &'a [u8]) -> Option<(Option<u16>, &'a [u8])>
    ensures { option_map (λ found. (found.0, found.1.now)) result ≡ reader.read_number word.now bytes.now }
{
    match behind_word(word, bytes) {
        None => Some((None, bytes)),
        Some(rest) => {
            let (digits, behind) = first_word(rest);
            let number = number(digits)?;
            Some((Some(number), behind))
        }
    }
}

fn until_quote(bytes: &[u8]) -> Option<(&[u8], &[u8])>
    ensures { option_map (λ found. (found.0.now, found.1.now)) result ≡ reader.until_quote bytes.now }
{
    match memchr(b'"', bytes) {
        None => None,
        Some(end) => Some((&bytes[..end], &bytes[end + 1..])),
    }
}

// The text between the quotation marks of the first word, and what is behind the word.
#[tactic(auto, unfolding(rule_terms::specs::Reader::read_quoted))]
pub(crate) fn quoted(bytes: &[u8]) -> Option<(&[u8], &[u8])>
    ensures { option_map (λ found. (found.0.now, found.1.now)) result ≡ reader.read_quoted bytes.now }
{
    let bytes = behind_blanks(bytes);
    if bytes.is_empty() || bytes[0] != b'"' {
        return None;
    }
    let (text, rest) = until_quote(&bytes[1..])?;
    if is_word_end(rest) {
        Some((text, rest))
    } else {
        None
    }
}
