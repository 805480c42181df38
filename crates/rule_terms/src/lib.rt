//! What a rule text is, and what its rules find in a datagram, as definitions (in `specs/`) and laws.
//!
//! A text holds a rule on each line: `rule NAME proto PROTOCOL [sport N] [dport N] HAS [HAS ..]`, where
//! HAS is `has "PATTERN" [nocase] [from A] [to B]`; lines of blanks alone and lines whose first byte that
//! isn't a blank is `#` are skipped. Each function here does nothing when it runs: its contract is a law
//! about the definitions, for the proofs of a caller.
#![tactic(auto)]

ghost use Rattle.rule_terms.specs.Laws.{LinesReadAsWritten, TextHasOneReading, RuleTextIsOne, PlacesAreLeast, FindingsAscend, FindingsAreThere};

/// A line reads as a rule exactly where its words are the rule.
pub fn lines_read_as_written()
    ensures { LinesReadAsWritten }
{}

/// A text is a list of rules, or has a first bad line, or has too many rules, and only one of these.
pub fn text_has_one_reading()
    ensures { TextHasOneReading }
{}

/// A text of rules reads as one list of rules only.
pub fn rule_text_is_one()
    ensures { RuleTextIsOne }
{}

/// The place of a pattern is the least at which it stands.
pub fn places_are_least()
    ensures { PlacesAreLeast }
{}

/// The findings in a datagram are in order of their rules, and a rule has at most one.
pub fn findings_ascend()
    ensures { FindingsAscend }
{}

/// Each finding is of a rule that is there, at a place within the payload.
pub fn findings_are_there()
    ensures { FindingsAreThere }
{}
