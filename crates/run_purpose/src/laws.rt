//! Laws of the purpose. Each function does nothing; what it ensures is the law.
ghost use Rattle.run_stages.specs.Work.{Work};
ghost use Rattle.run_purpose.specs.Finished.{FinishedRunsFindAll};
ghost use Rattle.run_purpose.specs.Lawful.{RunOpensLawful};
ghost use Rattle.run_purpose.specs.Told.{RepliesTell};

use run_stages::from_capture::{
    findings_fit_log_law, finished_finds_capture_law, keys_are_incomplete_law, plans_are_small_law,
    plans_are_work_law, tasks_have_facts_law,
};
use run_stages::laws::{
    added_word_fits_law, allowed_keeps_lawful_law, fills_are_counted_law, opening_is_lawful_law,
    queued_is_datagram_law, runs_end_lawful_law, taken_is_task_law,
};

/// The work of a capture's plan is sound, the plan is small, and the store of its run opens in a lawful state.
pub fn run_opens_lawful_law()
    ensures { RunOpensLawful }
{
    plans_are_work_law();
    plans_are_small_law();
    tasks_have_facts_law();
    opening_is_lawful_law();
    allowed_keeps_lawful_law();
}

/// What the replies that a transaction got so far tell it of the tasks and groups that it works on.
pub fn replies_tell_law()
    ensures { (w : Work) → RepliesTell w }
{
    taken_is_task_law();
    added_word_fits_law();
    queued_is_datagram_law();
}

/// The log of a run that left nothing to do has the findings in the capture, and map 0 its incomplete groups.
pub fn finished_runs_find_all_law()
    ensures { FinishedRunsFindAll }
{
    tasks_have_facts_law();
    plans_are_work_law();
    fills_are_counted_law();
    runs_end_lawful_law();
    finished_finds_capture_law();
    findings_fit_log_law();
    keys_are_incomplete_law();
}
