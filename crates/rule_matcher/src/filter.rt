// Which rules a payload rules out, by the four bytes at each of its places 0, 4, 8 and so on.
ghost use Rattle.std.specs.Prelude.{◌≡◌, ℕ, ◌+◌, ◌<◌, ◌≤◌, length, slice_index, IfOk, IsTrue};
ghost use Rattle.rule_matcher.specs.Filter as spec;
ghost use Rattle.rule_matcher.specs.Filter.{IsTable, IsMarked, AreMarked, KeepsMarks, AreSeen};

use crate::rule_list::Rule;
use std::alloc::{AllocError, Global};

/// How many slots a table has.
pub(crate) const SLOTS: usize = 262_144;

/// How many marks there are, with 0 for none.
pub(crate) const MARKS: usize = 1_025;

// The slot of the four bytes from this place on.
#[inline]
#[tactic(auto, unfolding(crate::specs::Filter::slot))]
fn slot_of(bytes: &[u8], at: usize) -> usize
    requires { at + 4 ≤ length bytes.now }
    ensures slot { result ≡ spec.slot_of bytes.now at }
    ensures small { result < 262144 }
{
    let a = usize::from(bytes[at] % 32);
    let b = usize::from(bytes[at + 1] % 32);
    let c = usize::from(bytes[at + 2] % 32);
    let d = usize::from(bytes[at + 3] % 32 % 8);
    a + 32 * b + 1024 * c + 32_768 * d
}

// Gives the slot this mark, if it has none or has it, and tells whether it has it now.
fn claim(table: &mut [u16], slot: usize, mark: u16) -> bool
    requires table { IsTable table.old }
    requires slot { slot < 262144 }
    requires mark { mark ≤ 1024 }
    ensures table { IsTable table.new }
    ensures kept { KeepsMarks table.old table.new }
    ensures claimed { IsTrue result → slice_index table.new slot ≡ mark }
{
    if table[slot] == 0 {
        table[slot] = mark;
        true
    } else {
        table[slot] == mark
    }
}

// The mark that one of the slots has, or this one, where none has any.
fn shared_mark(table: &[u16], slots: &[usize; 4], number: u16) -> u16
    requires table { IsTable table.now }
    requires slots { (k : ℕ) → slice_index slots.now k < 262144 }
    requires number { number ≤ 1024 }
    ensures { result ≤ 1024 }
{
    for slot in slots {
        let mark = table[*slot];
        if mark != 0 {
            return mark;
        }
    }
    number
}

// Gives a rule its mark, which is that of another rule where the two share slots, and 0 where no mark
// can be had.
fn mark_rule(table: &mut [u16], rule: &Rule, number: u16) -> u16
    requires table { IsTable table.old }
    requires number { number ≤ 1024 }
    ensures table { IsTable table.new }
    ensures kept { KeepsMarks table.old table.new }
    ensures marked { IsMarked table.new rule.now result }
    ensures small { result ≤ 1024 }
{
    let bytes = rule.first.bytes();
    if bytes.len() < 7 {
        return 0;
    }
    let first = slot_of(bytes, 0);
    let second = slot_of(bytes, 1);
    let third = slot_of(bytes, 2);
    let fourth = slot_of(bytes, 3);
    let mark = shared_mark(table, &[first, second, third, fourth], number);
    let one = claim(table, first, mark);
    let two = claim(table, second, mark);
    let three = claim(table, third, mark);
    let four = claim(table, fourth, mark);
    if one && two && three && four { mark } else { 0 }
}

/// Gives each rule its mark.
pub(crate) fn mark_rules(
    alloc: Global,
    table: &mut [u16],
    rules: &[Rule],
) -> Result<Vec<u16>, AllocError>
    requires table { IsTable table.old }
    requires few { length rules.now ≤ 1024 }
    ensures table { IsTable table.new }
    ensures marked { IfOk result (λ marks. AreMarked table.new marks.items rules.now) }
{
    let mut marks = Vec::new(alloc);
    for (number, rule) in rules.iter().enumerate() {
        let mark = mark_rule(table, rule, number as u16 + 1);
        marks.push(mark)?;
    }
    Ok(marks)
}

/// A table of so many slots, none of which has a mark.
pub(crate) fn empty_table(alloc: Global, slots: usize) -> Result<Vec<u16>, AllocError>
    ensures size { IfOk result (λ table. length table.items ≡ slots) }
    ensures none { IfOk result (λ table. (k : ℕ) → slice_index table.items k ≡ 0) }
{
    Vec::from_elem(alloc, 0, slots)
}

/// The marks of the payload's places 0, 4, 8 and so on.
pub(crate) fn marks_in(table: &[u16], payload: &[u8]) -> [bool; MARKS]
    requires table { IsTable table.now }
    requires short { length payload.now ≤ 65535 }
    ensures { AreSeen table.now payload.now result }
{
    let mut seen = [false; MARKS];
    see(table, payload, &mut seen);
    seen
}

fn see(table: &[u16], payload: &[u8], seen: &mut [bool])
    requires table { IsTable table.now }
    requires short { length payload.now ≤ 65535 }
    requires marks { length seen.old ≡ 1025 }
    ensures { AreSeen table.now payload.now seen.new }
{
    for window in 0..payload.len() / 4 {
        let slot = slot_of(payload, 4 * window);
        seen[usize::from(table[slot])] = true;
    }
}
