// The patterns of a rule.
ghost use Rattle.std.specs.Prelude.{◌≡◌, IfOk};
ghost use Rattle.std.specs.Option.{option_map};
ghost use Rattle.rule_terms.specs.Reader as reader;
ghost use Rattle.rule_matcher.specs.Line.{found_of, patterns_of};

use crate::pattern_text::pattern_bytes;
use crate::rule_list::Pattern;
use crate::words::{are_blanks, behind_word, flag, number_behind, quoted};
use std::alloc::{AllocError, Global};

const MAX_FURTHER: usize = 7;

/// A pattern and what is behind it in its line.
#[derive(Drop)]
pub(crate) struct Found<'a> {
    pub(crate) pattern: Pattern,
    pub(crate) rest: &'a [u8],
}

/// The pattern that stands first, if one does.
#[tactic(auto, unfolding(rule_terms::specs::Reader::read_has))]
pub(crate) fn has(alloc: Global, bytes: &[u8]) -> Result<Option<Found<'_>>, AllocError>
    ensures { IfOk result (λ found. option_map found_of found ≡ reader.read_has bytes.now) }
{
    let Some(rest) = behind_word(b"has", bytes) else {
        return Ok(None);
    };
    let Some((text, rest)) = quoted(rest) else {
        return Ok(None);
    };
    let Some(found) = pattern_bytes(alloc, text)? else {
        return Ok(None);
    };
    let (nocase, rest) = flag(b"nocase", rest);
    let Some((from, rest)) = number_behind(b"from", rest) else {
        return Ok(None);
    };
    let Some((to, rest)) = number_behind(b"to", rest) else {
        return Ok(None);
    };
    let pattern = Pattern::new(alloc, found, nocase, from, to)?;
    Ok(Some(Found { pattern, rest }))
}

/// The patterns up to the line's end, if they are at most seven.
#[tactic(auto, unfolding(rule_terms::specs::Reader::read_others))]
pub(crate) fn others(alloc: Global, bytes: &[u8]) -> Result<Option<Vec<Pattern>>, AllocError>
    ensures { IfOk result (λ found. option_map patterns_of found ≡ reader.read_others 7 bytes.now) }
{
    let mut patterns = Vec::new(alloc);
    let mut rest = bytes;
    for _taken in 0..MAX_FURTHER {
        if are_blanks(rest) {
            return Ok(Some(patterns));
        }
        let Some(found) = has(alloc, rest)? else {
            return Ok(None);
        };
        patterns.push(found.pattern)?;
        rest = found.rest;
    }
    if are_blanks(rest) {
        Ok(Some(patterns))
    } else {
        Ok(None)
    }
}
