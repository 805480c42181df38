// The text of a pattern, between its quotation marks.
ghost use Rattle.std.specs.Prelude.{◌≡◌, ◌<◌, ◌++◌, [], IfOk, OnOk, IfSome};
ghost use Rattle.std.specs.Option.{option_map};
ghost use Rattle.rule_terms.specs.PatternText as term;
ghost use Rattle.rule_terms.specs.Reader as reader;
ghost use Rattle.rule_matcher.specs.Spots.{IsSpot, spot_of, step_of, items_of};

use std::alloc::{AllocError, Global};

/// Where the reader of a pattern's text stands.
#[derive(Clone, Copy, Debug, PartialEq, Eq)]
pub(crate) enum Spot {
    Outside,
    /// Between bars, behind a pair of digits or before the first one.
    Between { paired: bool },
    /// Behind the first digit of a pair.
    Half { high: u8 },
}

#[tactic(auto, unfolding(rule_terms::specs::PatternText::is_plain))]
fn may_stand_for_itself(c: u8) -> bool
    ensures { result ≡ term.is_plain c }
{
    c >= b' ' && c <= b'~' && c != b'"' && c != b'|'
}

fn hex_value(c: u8) -> Option<u8>
    ensures value { result ≡ reader.hex_value c }
    ensures small { IfSome result (λ value. value < 16) }
{
    if c >= b'0' && c <= b'9' {
        Some(c - b'0')
    } else if c >= b'A' && c <= b'F' {
        Some(c - 55)
    } else if c >= b'a' && c <= b'f' {
        Some(c - 87)
    } else {
        None
    }
}

// Where the reader stands behind a further byte, and the byte that it gives, if it gives one.
fn spot_after(spot: Spot, c: u8) -> Option<(Spot, Option<u8>)>
    requires { IsSpot spot }
    ensures step { option_map step_of result ≡ reader.spot_after (spot_of spot) c }
    ensures fits { IfSome result (λ step. IsSpot step.0) }
{
    match spot {
        Spot::Outside => outside(c),
        Spot::Between { paired } => between(paired, c),
        Spot::Half { high } => {
            let low = hex_value(c)?;
            Some((Spot::Between { paired: true }, Some(16 * high + low)))
        }
    }
}

fn outside(c: u8) -> Option<(Spot, Option<u8>)>
    ensures step { option_map step_of result ≡ reader.spot_after reader.outside c }
    ensures fits { IfSome result (λ step. IsSpot step.0) }
{
    if c == b'|' {
        Some((Spot::Between { paired: false }, None))
    } else if may_stand_for_itself(c) {
        Some((Spot::Outside, Some(c)))
    } else {
        None
    }
}

fn between(paired: bool, c: u8) -> Option<(Spot, Option<u8>)>
    ensures step { option_map step_of result ≡ reader.spot_after (reader.between paired) c }
    ensures fits { IfSome result (λ step. IsSpot step.0) }
{
    if c == b'|' {
        if paired {
            Some((Spot::Outside, None))
        } else {
            None
        }
    } else if c == b' ' {
        Some((Spot::Between { paired }, None))
    } else {
        let high = hex_value(c)?;
        Some((Spot::Half { high }, None))
    }
}

#[tactic(auto, unfolding(rule_terms::specs::Reader::text_bytes))]
fn text_bytes(alloc: Global, text: &[u8]) -> Result<Option<Vec<u8>>, AllocError>
    ensures { IfOk result (λ found. option_map items_of found ≡ reader.text_bytes reader.outside text.now) }
{
    let mut bytes = Vec::new(alloc);
    let mut spot = Spot::Outside;
    for c in text {
        let Some((next, byte)) = spot_after(spot, *c) else {
            return Ok(None);
        };
        add_byte(&mut bytes, byte)?;
        spot = next;
    }
    if spot == Spot::Outside {
        Ok(Some(bytes))
    } else {
        Ok(None)
    }
}

fn add_byte(bytes: &mut Vec<u8>, byte: Option<u8>) -> Result<(), AllocError>
    ensures { OnOk result (bytes.new.items ≡ bytes.old.items ++ reader.onto_bytes byte []) }
{
    if let Some(byte) = byte {
        bytes.push(byte)?;
    }
    Ok(())
}

/// The 1 to 64 bytes that the text of a pattern gives, if it is such a text.
#[tactic(auto, unfolding(rule_terms::specs::Reader::pattern_bytes))]
pub(crate) fn pattern_bytes(alloc: Global, text: &[u8]) -> Result<Option<Vec<u8>>, AllocError>
    ensures { IfOk result (λ found. option_map items_of found ≡ reader.pattern_bytes text.now) }
{
    let Some(bytes) = text_bytes(alloc, text)? else {
        return Ok(None);
    };
    if bytes.is_empty() || bytes.len() > 64 {
        Ok(None)
    } else {
        Ok(Some(bytes))
    }
}
