// Rules as they are kept: each type is seen as what `rule_terms` calls by its name.
ghost use Rattle.std.specs.Prelude.{◌≡◌, ℕ, ◌<◌, ◌≤◌, List, IfOk, IfSome, length, slice_index, vec_len};
ghost use Rattle.rule_terms.specs.Match as match_term;
ghost use Rattle.rule_matcher.specs.Bounds.{low_of, high_of};
ghost use Rattle.rule_matcher.specs.Filter.{RulesOut, lowers, rule_lowers};
ghost use Rattle.std.specs.List.{list_any};
ghost use Rattle.rule_terms.specs.RuleText.{name_at};

use crate::filter::{MARKS, SLOTS, empty_table, mark_rules, marks_in};
use crate::lowered::compared;
use memchr::memmem::{Finder, FinderBuilder};
use rule_terms::places_are_least;
use std::alloc::{AllocError, Global};
use std::marker::Model;

/// What a rule looks for in a payload, with the finder of its bytes as they are compared.
#[derive(Drop)]
pub(crate) struct Pattern {
    bytes: Vec<u8>,
    nocase: bool,
    from: Option<u16>,
    to: Option<u16>,
    finder: Finder<'static>,
}

impl Model for Pattern {
    ghost use Rattle.std.specs.Prelude.{◌≡◌};
    ghost use Rattle.rule_terms.specs.Rule as term;
    ghost use Rattle.rule_terms.specs.Match.{compared};

    ghost Value = { term.Pattern };

    ghost view = { λ p. record { bytes = p.bytes.items; nocase = p.nocase; from = p.from; to = p.to } };

    ghost invariant = { λ p. p.finder ≡ compared p.nocase p.bytes.items };
}

impl Pattern {
    pub(crate) fn new(
        alloc: Global,
        bytes: Vec<u8>,
        nocase: bool,
        from: Option<u16>,
        to: Option<u16>,
    ) -> Result<Pattern, AllocError>
        ensures { IfOk result (λ p. p ≡ record { bytes = bytes.items; nocase = nocase; from = from; to = to }) }
    {
        let needle = compared(alloc, nocase, &bytes)?;
        let finder = FinderBuilder::new().build_forward_owned(needle);
        Ok(Pattern {
            bytes,
            nocase,
            from,
            to,
            finder,
        })
    }

    /// The bytes as they are written.
    pub(crate) fn bytes(&self) -> &[u8]
        ensures { result.now ≡ self.now.bytes }
    {
        &self.bytes
    }

    /// Whether upper case and lower case of a letter count as one.
    pub(crate) fn compares_lowered(&self) -> bool
        ensures { result ≡ self.now.nocase }
    {
        self.nocase
    }

    /// The least place at which the pattern stands in a payload, which is given as it is compared.
    pub(crate) fn place_in(&self, compared: &[u8]) -> Option<usize>
        ensures place { (payload : List ℕ) → compared.now ≡ match_term.compared self.now.nocase payload → result ≡ match_term.place_of self.now payload }
        ensures within { IfSome result (λ place. place ≤ length compared.now) }
    {
        places_are_least();
        let (low, high) = self.bounds(compared.len());
        if low > high {
            return None;
        }
        match self.finder.find(&compared[low..high]) {
            None => None,
            Some(place) => Some(low + place),
        }
    }

    // The part of a payload of this length within which the pattern has to stand.
    fn bounds(&self, len: usize) -> (usize, usize)
        ensures low { result.0 ≡ low_of self.now.from }
        ensures high { result.1 ≡ high_of self.now.to len }
    {
        let low = match self.from {
            None => 0,
            Some(from) => usize::from(from),
        };
        let high = match self.to {
            None => len,
            Some(to) => len.min(usize::from(to)),
        };
        (low, high)
    }
}

/// A rule of a text.
#[derive(Drop)]
pub(crate) struct Rule {
    pub(crate) name: Vec<u8>,
    pub(crate) protocol: Option<u8>,
    pub(crate) source_port: Option<u16>,
    pub(crate) destination_port: Option<u16>,
    pub(crate) first: Pattern,
    pub(crate) others: Vec<Pattern>,
}

impl Model for Rule {
    ghost use Rattle.rule_terms.specs.Rule as term;

    ghost Value = { term.Rule };

    ghost view = { λ r. record { name = r.name.items; protocol = r.protocol; source_port = r.source_port; destination_port = r.destination_port; first = r.first; others = r.others.items } };
}

/// The rules of a text, in order and numbered from 0. There are at most 1,024.
#[derive(Drop)]
pub struct Rules {
    rules: Vec<Rule>,
    // Which rules a payload rules out, as `filter` has it.
    table: Vec<u16>,
    marks: Vec<u16>,
    // Whether some pattern is looked for in the payload in lower case.
    folds: bool,
}

impl Model for Rules {
    ghost use Rattle.std.specs.Prelude.{List, ◌≤◌, vec_len};
    ghost use Rattle.rule_terms.specs.Rule as term;
    ghost use Rattle.rule_matcher.specs.Filter.{IsIndexed};

    ghost Value = { List term.Rule };

    ghost view = { λ r. r.rules.items };

    ghost invariant = { λ r. (vec_len r.rules ≤ 1024) × IsIndexed r.rules.items r.table.items r.marks.items r.folds };
}

/// Why a text gave no rules.
#[derive(Clone, Copy, Debug, PartialEq, Eq)]
pub enum RulesEnd {
    /// The first line that is neither skipped nor a rule of a new name, counted from 1. At most 1,024
    /// rules stand before it.
    Line { number: u32 },
    /// A further rule of a new name stands behind 1,024 rules.
    TooMany,
    /// Memory ran out.
    Memory,
}

impl Rules {
    pub(crate) fn new(alloc: Global, rules: Vec<Rule>) -> Result<Rules, AllocError>
        requires { vec_len rules ≤ 1024 }
        ensures { IfOk result (λ made. made ≡ rules.items) }
    {
        let mut table = empty_table(alloc, SLOTS)?;
        let marks = mark_rules(alloc, &mut table, &rules)?;
        let folds = any_lowers(&rules);
        Ok(Rules {
            rules,
            table,
            marks,
            folds,
        })
    }

    /// How many rules there are.
    pub fn len(&self) -> u32
        ensures len { result ≡ length self.now }
        ensures few { result ≤ 1024 }
    {
        self.rules.len() as u32
    }

    /// The name of the rule of this number.
    pub fn name(&self, rule: u16) -> &[u8]
        requires { rule < length self.now }
        ensures { result.now ≡ name_at self.now rule }
    {
        let found = &self.rules[rule as usize];
        &found.name
    }

    pub(crate) fn as_slice(&self) -> &[Rule]
        ensures rules { result.now ≡ self.now }
        ensures few { length result.now ≤ 1024 }
    {
        self.rules.as_slice()
    }

    /// Whether some pattern is looked for in the payload in lower case.
    pub(crate) fn folds(&self) -> bool
        ensures { result ≡ list_any rule_lowers self.now }
    {
        self.folds
    }

    /// The marks that were seen in a payload: a rule that has one, which isn't among them, finds nothing.
    pub(crate) fn marks_seen(&self, payload: &[u8]) -> ([bool; MARKS], &[u16])
        requires { length payload.now ≤ 65535 }
        ensures out { RulesOut result.1.now result.0 self.now payload.now }
        ensures count { length result.1.now ≡ length self.now }
        ensures small { (k : ℕ) → slice_index result.1.now k ≤ 1024 }
    {
        places_are_least();
        (marks_in(&self.table, payload), &self.marks)
    }
}

fn any_lowers(rules: &[Rule]) -> bool
    ensures { result ≡ list_any rule_lowers rules.now }
{
    rules.iter().any(|rule| rule_has_lowering(rule))
}

fn rule_has_lowering(rule: &Rule) -> bool
    ensures { result ≡ rule_lowers rule.now }
{
    rule.first.compares_lowered() || any_pattern_lowers(&rule.others)
}

fn any_pattern_lowers(patterns: &[Pattern]) -> bool
    ensures { result ≡ list_any lowers patterns.now }
{
    patterns.iter().any(|pattern| pattern.compares_lowered())
}
