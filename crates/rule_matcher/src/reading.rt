// A text of rules, line by line.
ghost use Rattle.std.specs.Prelude.{◌≡◌, ◌↔◌, ◌<◌, ◌≤◌, ◌^◌, List, [], ◌∷◌, ◌++◌, length, vec_len, IfOk, IfErr, OnOk, false};
ghost use Rattle.rule_terms.specs.Rule as term;
ghost use Rattle.rule_terms.specs.RuleText.{lines_of, without_return, IsRuleText, IsTaken};
ghost use Rattle.rule_terms.specs.RuleText as text_term;
ghost use Rattle.rule_matcher.specs.Ends.{IsCauseIn, IsReadBehind, IsCauseAt};
ghost use Rattle.rule_matcher.specs.Names.{AreNamesOf};
ghost use Rattle.rule_matcher.specs.declared.rule_list.RulesEnd.TheVariants as end;

use crate::line::{read_front, rule_with};
use crate::rule_list::{Rule, Rules, RulesEnd};
use crate::words::behind_blanks;
use memchr::memchr;
use rule_terms::lines_read_as_written;
use std::alloc::Global;
use std::collections::BTreeSet;

const MAX_RULES: usize = 1024;

/// Reads a text of rules of fewer than 2^32 bytes.
///
/// A text that isn't one has either a first line that is neither skipped nor a rule of a new name, which
/// `Line` names, or more than 1,024 rules before any such line; it is never both, as a law of
/// `rule_terms` says. `Memory` may come for any text.
pub fn rules(alloc: Global, text: &[u8]) -> Result<Rules, RulesEnd>
    requires size { length text.now < 2 ^ 32 }
    ensures rules { IfOk result (λ rules. IsRuleText text.now rules) }
    ensures cause { IfErr result (λ e. IsCauseIn text.now e) }
{
    let mut rules = Vec::new(alloc);
    let mut names = BTreeSet::new(alloc);
    let mut rest = text;
    let mut number = 0u32;
    while !rest.is_empty() {
        let (line, behind) = first_line(rest);
        number += 1;
        if let Err(end) = read_line(alloc, &mut rules, &mut names, line, number) {
            return Err(end);
        }
        rest = behind;
    }
    match Rules::new(alloc, rules) {
        Ok(rules) => Ok(rules),
        Err(_) => Err(RulesEnd::Memory),
    }
}

// Reads one line, of this number, behind others that gave these rules.
fn read_line<'a>(
    alloc: Global,
    rules: &mut Vec<Rule>,
    names: &mut BTreeSet<&'a [u8]>,
    line: &'a [u8],
    number: u32,
) -> Result<(), RulesEnd>
    requires few { vec_len rules.old ≤ 1024 }
    requires names { AreNamesOf names.old rules.old.items }
    ensures read { OnOk result (IsReadBehind line.now rules.old.items rules.new.items) }
    ensures names { OnOk result (AreNamesOf names.new rules.new.items) }
    ensures cause { IfErr result (λ e. IsCauseAt line.now number rules.old.items e) }
{
    lines_read_as_written();
    let cut = cut_return(line);
    if is_skipped(cut) {
        return Ok(());
    }
    let Some(front) = read_front(cut) else {
        return Err(RulesEnd::Line { number });
    };
    let Ok(found) = rule_with(alloc, front) else {
        return Err(RulesEnd::Memory);
    };
    let Some(found) = found else {
        return Err(RulesEnd::Line { number });
    };
    let is_new = add_name(names, front.name)?;
    if !is_new {
        return Err(RulesEnd::Line { number });
    }
    if rules.len() >= MAX_RULES {
        return Err(RulesEnd::TooMany);
    }
    if rules.push(found).is_err() {
        return Err(RulesEnd::Memory);
    }
    Ok(())
}

// The first line of a text that isn't empty, and what is behind it.
fn first_line(text: &[u8]) -> (&[u8], &[u8])
    requires { 0 < length text.now }
    ensures lines { lines_of text.now ≡ result.0.now ∷ lines_of result.1.now }
    ensures shorter { length result.1.now < length text.now }
{
    match memchr(b'\n', text) {
        None => (text, &text[text.len()..]),
        Some(end) => (&text[..end], &text[end + 1..]),
    }
}

#[tactic(auto, unfolding(rule_terms::specs::RuleText::without_return))]
fn cut_return(line: &[u8]) -> &[u8]
    ensures { result.now ≡ without_return line.now }
{
    if !line.is_empty() && line[line.len() - 1] == b'\r' {
        &line[..line.len() - 1]
    } else {
        line
    }
}

// A line of blanks alone, or one whose first byte that isn't a blank is `#`.
fn is_skipped(line: &[u8]) -> bool
    ensures { result ≡ text_term.is_skipped line.now }
{
    let rest = behind_blanks(line);
    rest.is_empty() || rest[0] == b'#'
}

// Adds the name of a further rule, and tells whether no rule before it has it.
fn add_name<'a>(names: &mut BTreeSet<&'a [u8]>, name: &'a [u8]) -> Result<bool, RulesEnd>
    ensures new { IfOk result (λ is_new. (rules : List term.Rule) → AreNamesOf names.old rules → (is_new ≡ false) ↔ IsTaken name.now rules) }
    ensures added { OnOk result ((rules : List term.Rule) (rule : term.Rule) → AreNamesOf names.old rules → rule.name ≡ name.now → AreNamesOf names.new (rules ++ rule ∷ [])) }
    ensures memory { IfErr result (λ e. e ≡ end.Memory) }
{
    match names.insert(name) {
        Ok(is_new) => Ok(is_new),
        Err(_) => Err(RulesEnd::Memory),
    }
}
