//! Laws of the work that a capture gives. Each function does nothing; what it ensures is the law.

ghost use Rattle.run_stages.specs.FromCapture.{TasksHaveFacts, PlansAreWork, PlansAreSmall, WholeIsDatagram, GroupIsDatagram, DatagramsAreListed, ValuesAreFindings, FinishedFindsCapture, LogIsPartOfFindings, IncompleteAreCounted, FinishedCountsIncomplete, FullLogMeansMore, FindingsFitLog, KeysAreIncomplete};

use crate::laws::{finished_fits_log_law, full_is_the_log_law, log_is_part_of_all_law};
use capture_terms::{group_law, member_law, task_law};

/// What a run has of each task is what the task has.
pub fn tasks_have_facts_law()
    ensures { TasksHaveFacts }
{}

/// The work of a capture's plan is sound.
pub fn plans_are_work_law()
    ensures { PlansAreWork }
{
    group_law();
}

/// A capture's plan has at most 262,144 tasks, and at most so many groups.
pub fn plans_are_small_law()
    ensures { PlansAreSmall }
{}

/// A whole datagram's task is asked for by its number, and has the values of the findings in it.
pub fn whole_is_datagram_law()
    ensures { WholeIsDatagram }
{}

/// A complete group's datagram is asked for by the numbers of the group's tasks, in any order, and the
/// group has the values of the findings in it.
pub fn group_is_datagram_law()
    ensures { GroupIsDatagram }
{
    member_law();
}

/// Some list has all datagrams of a run, and their values are the findings in order.
pub fn datagrams_are_listed_law()
    ensures { DatagramsAreListed }
{
    member_law();
}

/// The values of all datagrams of a run are the findings in the datagrams of the tasks, in some order.
pub fn values_are_findings_law()
    ensures { ValuesAreFindings }
{
    member_law();
}

/// So the log of a finished lawful state has exactly the findings of the rules in the capture, in some
/// order.
pub fn finished_finds_capture_law()
    ensures { FinishedFindsCapture }
{
    task_law();
    member_law();
}

/// The log of a lawful state never has more values than there are findings in the capture, and has room
/// among these for those of the queue's first item.
pub fn log_is_part_of_findings_law()
    ensures { LogIsPartOfFindings }
{
    log_is_part_of_all_law();
    task_law();
    member_law();
}

/// The incomplete groups of a run are those that are counted of a plan.
pub fn incomplete_are_counted_law()
    ensures { IncompleteAreCounted }
{
    member_law();
}

/// So map 0 of a finished lawful state has a word for as many groups as are counted, and for none that
/// isn't there.
pub fn finished_counts_incomplete_law()
    ensures { FinishedCountsIncomplete }
{
    group_law();
    member_law();
}

/// Where an allowed record does not fit, the findings in the capture are more than the log may have.
pub fn full_log_means_more_law()
    ensures { FullLogMeansMore }
{
    plans_are_work_law();
    full_is_the_log_law();
    task_law();
    member_law();
}

/// Where a run was finished, the findings in the capture are no more than the log may have.
pub fn findings_fit_log_law()
    ensures { FindingsFitLog }
{
    plans_are_work_law();
    finished_fits_log_law();
    task_law();
    member_law();
}

/// In contents that stand for a finished lawful state map 0 has as many keys as groups are incomplete.
pub fn keys_are_incomplete_law()
    ensures { KeysAreIncomplete }
{
    plans_are_work_law();
    member_law();
}
