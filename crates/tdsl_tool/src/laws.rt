// What holds of verdicts, whatever the files are. Each function does nothing when it runs: its
// contract is a law about definitions, for a caller's proof.
ghost use Rattle.tdsl_tool.specs.Verdict.{AnswerIsOne, RuleFileIsOne, SomeAnswerOf, VerdictIsOne};

use capture_terms::{one_answer, some_answer};
use pcapng_blocks::{one_answer_law, some_answer_law};
use rule_terms::text_has_one_reading;

/// A capture file and a rule file are one thing only, and two files come to one verdict only. So the
/// causes of different faults exclude each other.
pub fn one_verdict()
    ensures answer { AnswerIsOne }
    ensures rules { RuleFileIsOne }
    ensures files { VerdictIsOne }
{
    one_answer();
    one_answer_law();
    text_has_one_reading();
}

/// Each capture file has a right answer, in the format that it begins as.
pub fn some_answer_of()
    ensures { SomeAnswerOf }
{
    some_answer();
    some_answer_law();
}
