// A line of a rule text.
ghost use Rattle.std.specs.Prelude.{◌≡◌, IfOk};
ghost use Rattle.std.specs.List.{list_all};
ghost use Rattle.std.specs.Option.{option_map};
ghost use Rattle.rule_terms.specs.Grammar.{is_name, is_name_byte};
ghost use Rattle.rule_terms.specs.Reader as reader;
ghost use Rattle.rule_matcher.specs.Line.{front_of};

use crate::patterns::{has, others};
use crate::rule_list::Rule;
use crate::words::{behind_word, first_word, number, number_behind};
use std::alloc::{AllocError, Global};

/// What a line says before its patterns, within the line, and the rest of the line.
#[derive(Clone, Copy, Debug)]
pub(crate) struct Front<'a> {
    pub(crate) name: &'a [u8],
    pub(crate) protocol: Option<u8>,
    pub(crate) source_port: Option<u16>,
    pub(crate) destination_port: Option<u16>,
    pub(crate) rest: &'a [u8],
}

/// The front of the rule that the line is, if it has one.
#[tactic(auto, unfolding(rule_terms::specs::Reader::read_head, rule_terms::specs::Reader::read_ports))]
pub(crate) fn read_front(line: &[u8]) -> Option<Front<'_>>
    ensures { option_map front_of result ≡ reader.read_head line.now }
{
    let (name, rest) = first_word(behind_word(b"rule", line)?);
    let (word, rest) = first_word(behind_word(b"proto", rest)?);
    let protocol = protocol(word)?;
    let (source_port, rest) = number_behind(b"sport", rest)?;
    let (destination_port, rest) = number_behind(b"dport", rest)?;
    if is_rule_name(name) {
        Some(Front {
            name,
            protocol,
            source_port,
            destination_port,
            rest,
        })
    } else {
        None
    }
}

/// The rule with this front, if patterns stand behind it.
#[tactic(auto, unfolding(rule_terms::specs::Reader::read_patterns))]
pub(crate) fn rule_with(alloc: Global, front: Front<'_>) -> Result<Option<Rule>, AllocError>
    ensures { IfOk result (λ rule. rule ≡ reader.read_patterns (front_of front.entry)) }
{
    let Some(first) = has(alloc, front.rest)? else {
        return Ok(None);
    };
    let Some(others) = others(alloc, first.rest)? else {
        return Ok(None);
    };
    Ok(Some(Rule {
        name: front.name.to_vec(alloc)?,
        protocol: front.protocol,
        source_port: front.source_port,
        destination_port: front.destination_port,
        first: first.pattern,
        others,
    }))
}

#[tactic(auto, unfolding(rule_terms::specs::Reader::protocol_of))]
fn protocol(word: &[u8]) -> Option<Option<u8>>
    ensures { result ≡ reader.protocol_of word.now }
{
    if word == b"any".as_slice() {
        Some(None)
    } else if word == b"icmp".as_slice() {
        Some(Some(1))
    } else if word == b"tcp".as_slice() {
        Some(Some(6))
    } else if word == b"udp".as_slice() {
        Some(Some(17))
    } else {
        let number = number(word)?;
        if number <= 255 {
            Some(Some(number as u8))
        } else {
            None
        }
    }
}

#[tactic(auto, unfolding(rule_terms::specs::Grammar::is_name))]
fn is_rule_name(name: &[u8]) -> bool
    ensures { result ≡ is_name name.now }
{
    !name.is_empty() && name.len() <= 32 && are_name_bytes(name)
}

fn are_name_bytes(name: &[u8]) -> bool
    ensures { result ≡ list_all is_name_byte name.now }
{
    name.iter().all(|c| may_stand_in_name(*c))
}

fn may_stand_in_name(c: u8) -> bool
    ensures { result ≡ is_name_byte c }
{
    c >= b'a' && c <= b'z'
        || c >= b'A' && c <= b'Z'
        || c >= b'0' && c <= b'9'
        || c == b'_'
        || c == b'-'
        || c == b'.'
}
