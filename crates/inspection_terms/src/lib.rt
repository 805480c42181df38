//! What rules find in a capture, as definitions (in `specs/`) and laws.
//!
//! Each function here does nothing when it runs: its contract is a law about the definitions, for the
//! proofs of a caller.
#![tactic(auto)]

ghost use Rattle.inspection_terms.specs.Laws.{CaptureFindingsAscend, SortedAreFindings};

use capture_terms::{group_law, task_law};
use rule_terms::{findings_are_there, findings_ascend};

/// The findings in a capture ascend: by the first frames of their datagrams, then by their rules.
pub fn capture_findings_ascend()
    ensures { CaptureFindingsAscend }
{
    group_law();
    task_law();
    findings_ascend();
    findings_are_there();
}

/// So whatever order they were found in, sorted they are the findings in the capture.
pub fn sorted_are_findings()
    ensures { SortedAreFindings }
{
    capture_findings_ascend();
}
