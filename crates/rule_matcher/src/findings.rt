// What the rules find in a datagram.
ghost use Rattle.std.specs.Prelude.{◌≡◌, ℕ, ◌+◌, ◌<◌, ◌≤◌, ◌++◌, List, [], false, true, length, IfOk, OnOk, IfSome, IsTrue};
ghost use Rattle.std.specs.List.{list_any, list_all};
ghost use Rattle.rule_terms.specs.Match as term;
ghost use Rattle.rule_terms.specs.Rule as rule_term;
ghost use Rattle.rule_matcher.specs.Filter.{lowers, rule_lowers};
ghost use Rattle.rule_matcher.specs.Sights.{IsSightOf, IsSightFor, HasMarkAt, IsUnseen};

use crate::lowered::lowered_copy;
use crate::rule_list::{Pattern, Rule, Rules};
use byteorder::{BigEndian, ByteOrder};
use capture_terms::Header;
use rule_terms::places_are_least;
use std::alloc::{AllocError, Global};

const TCP: u8 = 6;

const UDP: u8 = 17;

const FEW: u32 = 8;

/// The mark of each rule, and which marks were seen in a payload.
#[derive(Clone, Copy, Debug)]
struct Sight<'a> {
    marks: &'a [u16],
    seen: &'a [bool],
}

/// The rules that match a datagram of this header and payload, by number from 0 and in ascending
/// order, each with the least place at which its first pattern stands in the payload. The payload has
/// at most 65,535 bytes, as the data of a datagram does. The one error is want of memory.
pub fn findings_of(
    alloc: Global,
    rules: &Rules,
    header: &Header,
    payload: &[u8],
) -> Result<Vec<(u16, u16)>, AllocError>
    requires { length payload.now ≤ 65535 }
    ensures findings { IfOk result (λ found. found.items ≡ term.findings_of rules.now header.now payload.now) }
{
    if rules.folds() {
        let lowered = lowered_copy(alloc, payload)?;
        found_in(alloc, rules, header, payload, &lowered)
    } else {
        found_in(alloc, rules, header, payload, payload)
    }
}

// Few rules are looked for one by one, since the filter costs as much as seven searches.
fn found_in(
    alloc: Global,
    rules: &Rules,
    header: &Header,
    payload: &[u8],
    lowered: &[u8],
) -> Result<Vec<(u16, u16)>, AllocError>
    requires short { length payload.now ≤ 65535 }
    requires lowered { list_any rule_lowers rules.now ≡ true → lowered.now ≡ term.compared true payload.now }
    ensures { IfOk result (λ found. found.items ≡ term.findings_of rules.now header.now payload.now) }
{
    if rules.len() < FEW {
        return found_by(alloc, rules.as_slice(), header, payload, lowered, None);
    }
    let (seen, marks) = rules.marks_seen(payload);
    let sight = Sight { marks, seen: &seen };
    found_by(
        alloc,
        rules.as_slice(),
        header,
        payload,
        lowered,
        Some(sight),
    )
}

/// Whether some rule looks into datagrams of this header, as far as its protocol tells. Where none
/// does, nothing is found in them, whatever their payload is.
pub fn any_asks_for(rules: &Rules, header: &Header) -> bool
    ensures asked { result ≡ list_any (λ (rule : rule_term.Rule). term.is_protocol rule.protocol header.now.protocol) rules.now }
    ensures nothing { result ≡ false → (payload : List ℕ) → term.findings_of rules.now header.now payload ≡ [] }
{
    any_has_protocol(rules.as_slice(), header.protocol)
}

fn any_has_protocol(rules: &[Rule], protocol: u8) -> bool
    ensures { result ≡ list_any (λ (rule : rule_term.Rule). term.is_protocol rule.protocol protocol) rules.now }
{
    rules
        .iter()
        .any(|rule| has_protocol(rule.protocol, protocol))
}

// The payload comes twice: as it is, and, where some pattern is compared so, with its letters in lower
// case.
fn found_by(
    alloc: Global,
    rules: &[Rule],
    header: &Header,
    payload: &[u8],
    lowered: &[u8],
    sight: Option<Sight<'_>>,
) -> Result<Vec<(u16, u16)>, AllocError>
    requires few { length rules.now ≤ 1024 }
    requires short { length payload.now ≤ 65535 }
    requires lowered { list_any rule_lowers rules.now ≡ true → lowered.now ≡ term.compared true payload.now }
    requires sight { IfSome sight (λ sight. IsSightOf sight rules.now payload.now) }
    ensures { IfOk result (λ found. found.items ≡ term.findings_of rules.now header.now payload.now) }
{
    let mut found = Vec::new(alloc);
    for (number, rule) in rules.iter().enumerate() {
        let place = place_in_sight(sight, number, rule, header, payload, lowered);
        add(&mut found, number as u16, place)?;
    }
    Ok(found)
}

// The place of the finding of the rule of this number. A rule that the sight rules out costs no search.
fn place_in_sight(
    sight: Option<Sight<'_>>,
    number: usize,
    rule: &Rule,
    header: &Header,
    payload: &[u8],
    lowered: &[u8],
) -> Option<u16>
    requires short { length payload.now ≤ 65535 }
    requires lowered { rule_lowers rule.now ≡ true → lowered.now ≡ term.compared true payload.now }
    requires sight { IfSome sight (λ sight. IsSightFor sight number rule.now payload.now) }
    ensures { result ≡ term.finding_of rule.now header.now payload.now }
{
    if let Some(sight) = sight {
        if is_ruled_out(sight, number) {
            return None;
        }
    }
    finding(rule, header, payload, lowered)
}

// Whether the rule of this number has a mark that wasn't seen.
fn is_ruled_out(sight: Sight<'_>, number: usize) -> bool
    requires { HasMarkAt sight number }
    ensures { IsTrue result → IsUnseen sight.entry number }
{
    let mark = sight.marks[number];
    mark != 0 && !sight.seen[usize::from(mark)]
}

fn add(found: &mut Vec<(u16, u16)>, number: u16, place: Option<u16>) -> Result<(), AllocError>
    ensures { OnOk result (found.new.items ≡ found.old.items ++ term.numbered number place) }
{
    if let Some(place) = place {
        found.push((number, place))?;
    }
    Ok(())
}

// The header is looked at first, so a rule that it rules out costs no search.
#[tactic(auto, unfolding(rule_terms::specs::Match::finding_of))]
fn finding(rule: &Rule, header: &Header, payload: &[u8], lowered: &[u8]) -> Option<u16>
    requires short { length payload.now ≤ 65535 }
    requires lowered { rule_lowers rule.now ≡ true → lowered.now ≡ term.compared true payload.now }
    ensures { result ≡ term.finding_of rule.now header.now payload.now }
{
    if looks_into(rule, header, payload) && are_there(&rule.others, payload, lowered) {
        match place(&rule.first, payload, lowered) {
            None => None,
            Some(place) => Some(place as u16),
        }
    } else {
        None
    }
}

#[tactic(auto, unfolding(rule_terms::specs::Match::is_for))]
fn looks_into(rule: &Rule, header: &Header, payload: &[u8]) -> bool
    ensures { result ≡ term.is_for rule.now header.now payload.now }
{
    has_protocol(rule.protocol, header.protocol)
        && has_port(rule.source_port, 0, header.protocol, payload)
        && has_port(rule.destination_port, 2, header.protocol, payload)
}

fn has_protocol(wanted: Option<u8>, protocol: u8) -> bool
    ensures { result ≡ term.is_protocol wanted protocol }
{
    match wanted {
        None => true,
        Some(wanted) => wanted == protocol,
    }
}

fn has_port(wanted: Option<u16>, at: usize, protocol: u8, payload: &[u8]) -> bool
    requires { at ≤ 2 }
    ensures { result ≡ term.is_port wanted at protocol payload.now }
{
    match wanted {
        None => true,
        Some(wanted) => {
            (protocol == TCP || protocol == UDP)
                && payload.len() >= 4
                && BigEndian::read_u16(&payload[at..]) == wanted
        }
    }
}

fn are_there(patterns: &[Pattern], payload: &[u8], lowered: &[u8]) -> bool
    requires { list_any lowers patterns.now ≡ true → lowered.now ≡ term.compared true payload.now }
    ensures { result ≡ list_all (term.is_there payload.now) patterns.now }
{
    for pattern in patterns {
        if place(pattern, payload, lowered).is_none() {
            return false;
        }
    }
    true
}

fn place(pattern: &Pattern, payload: &[u8], lowered: &[u8]) -> Option<usize>
    requires { pattern.now.nocase ≡ true → lowered.now ≡ term.compared true payload.now }
    ensures place { result ≡ term.place_of pattern.now payload.now }
    ensures within { IfSome result (λ place. place ≤ length payload.now) }
{
    if pattern.compares_lowered() {
        pattern.place_in(lowered)
    } else {
        pattern.place_in(payload)
    }
}
