//! Rules, and what they find in the payload of a datagram.
//!
//! [`rules`] reads a text of rules, and [`findings_of`] gives the rules that match a datagram, each with
//! the least place at which its first pattern stands. What a rule text and a match are is defined in
//! `rule_terms`.
#![tactic(auto)]

mod filter;
mod findings;
mod line;
mod lowered;
mod pattern_text;
mod patterns;
mod reading;
mod rule_list;
mod words;

pub use findings::{any_asks_for, findings_of};
pub use reading::rules;
pub use rule_list::{Rules, RulesEnd};

#[cfg(test)]
mod tests;
