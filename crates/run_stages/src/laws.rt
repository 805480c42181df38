//! Laws of the run. Each function does nothing; what it ensures is the law.

ghost use Rattle.std.specs.Prelude.{◌≡◌};
ghost use Rattle.serial_terms.specs.Serial.{State};
ghost use Rattle.run_stages.specs.Batches.{BatchesRun};
ghost use Rattle.run_stages.specs.Stages.{IsLawful};
ghost use Rattle.run_stages.specs.Work.{Work};
ghost use Rattle.run_stages.specs.Wrong.{WrongRecords, CountsAndLayouts};
ghost use Rattle.run_stages.specs.Told.{TakenIsTask, QueuedIsDatagram, AddedWordFits, WalkStaysInGroup, WalkFindsGroup, LogIsPartOfAll, OneCallerTakesLess, FillFits, NothingIsLeft, FullIsTheLog, FinishedFitsLog};
ghost use Rattle.run_stages.specs.Worked.{WorkedRuns};
ghost use Rattle.run_stages.specs.Laws.{OpeningIsLawful, AllowedKeepsLawful, RunsEndLawful, RunsAreBounded, FillsAreCounted, FinishedFindsAll, FinishedKeepsIncomplete};

use serial_terms::laws::{
    capacities_stay_law, last_reads_see_end_law, one_book_is_a_history_law, records_keep_sizes_law,
    records_run_in_parts_law, runs_in_parts_law, worked_histories_law,
};

/// The opening is a lawful state.
pub fn opening_is_lawful_law()
    ensures { OpeningIsLawful }
{}

/// A record that a worker may commit, and that runs from a lawful state, leaves a lawful state.
pub fn allowed_keeps_lawful_law()
    ensures { AllowedKeepsLawful }
{
    runs_in_parts_law();
}

/// A lawful state in which nothing is left to do has in its log the values of all datagrams' findings, in
/// some order.
pub fn finished_finds_all_law()
    ensures { FinishedFindsAll }
{}

/// A lawful state in which nothing is left to do has in its maps the incomplete groups alone.
pub fn finished_keeps_incomplete_law()
    ensures { FinishedKeepsIncomplete }
{}

/// A run of allowed records from the opening ends in a lawful state.
pub fn runs_end_lawful_law()
    ensures { RunsEndLawful }
{
    runs_in_parts_law();
    allowed_keeps_lawful_law();
}

/// Plain cell 0 is the number of fills; and where no more is to be filled, every task was given.
pub fn fills_are_counted_law()
    ensures { FillsAreCounted }
{
    runs_in_parts_law();
    allowed_keeps_lawful_law();
}

/// A run takes each task from the pool at most once, and no more items from the queue than tasks from the
/// pool. The items of pool and queue together are at most as many as the queue may have.
pub fn runs_are_bounded_law()
    ensures { RunsAreBounded }
{
    runs_in_parts_law();
    allowed_keeps_lawful_law();
}

/// In a lawful state an item of the pool is a task that was given, and the queue has room for one more
/// item.
pub fn taken_is_task_law()
    ensures { TakenIsTask }
{}

/// In a lawful state the first item of the queue is a whole task's, or a complete group's that has its
/// word in map 0.
pub fn queued_is_datagram_law()
    ensures { QueuedIsDatagram }
{}

/// In a lawful state the word of a group to which a task of the pool is added has its parts below 2^16,
/// and its old head is a task of the group.
pub fn added_word_fits_law()
    ensures { AddedWordFits }
{}

/// From a lawful state a walk goes through tasks of its group, each once.
pub fn walk_stays_in_group_law()
    ensures { WalkStaysInGroup }
{}

/// From a lawful state a walk that ends has gone through all tasks of its group, which is complete.
pub fn walk_finds_group_law()
    ensures { WalkFindsGroup }
{}

/// In a lawful state the log has no more values than all datagrams together, and the values of the queue's
/// first item are among those that it lacks.
pub fn log_is_part_of_all_law()
    ensures { LogIsPartOfAll }
{}

/// One caller's records take no more tasks and items than all records.
pub fn one_caller_takes_less_law()
    ensures { OneCallerTakesLess }
{}

/// In a lawful state with an empty pool each Give of a fill finds a free slot; with an empty queue, too, the
/// whole fill runs.
pub fn fill_fits_law()
    ensures { (w : Work) (s : State) → IsLawful w s → (s.pools 0).held ≡ 0 → FillFits w s }
{}

/// After records in which queue and pool gave nothing, and that no writer has a later place than, both are
/// empty.
pub fn nothing_is_left_law()
    ensures { NothingIsLeft }
{
    last_reads_see_end_law();
}

/// Where an allowed record does not fit, the log alone has too little room, and all findings are more than
/// it may have.
pub fn full_is_the_log_law()
    ensures { FullIsTheLog }
{
    allowed_keeps_lawful_law();
    log_is_part_of_all_law();
}

/// The findings of all datagrams of a finished run are no more than the log may have.
pub fn finished_fits_log_law()
    ensures { FinishedFitsLog }
{
    records_keep_sizes_law();
    capacities_stay_law();
    runs_end_lawful_law();
    finished_finds_all_law();
}

/// Records that are wrong in one point each are none that a worker may commit.
pub fn wrong_records_law()
    ensures { WrongRecords }
{}

/// What is counted of the worked runs' records, and the layouts of small works.
pub fn counts_and_layouts_law()
    ensures { CountsAndLayouts }
{}

/// The worked runs of one frame and of two fragments are legal histories of allowed records, from the
/// opening to a finished lawful state.
pub fn worked_runs_law()
    ensures { WorkedRuns }
{
    worked_histories_law();
    runs_end_lawful_law();
}

/// So is a run of 4,097 frames, and of up to 8,192, in which the pool is filled once more.
pub fn batches_run_law()
    ensures { BatchesRun }
{
    capacities_stay_law();
    records_run_in_parts_law();
    one_book_is_a_history_law();
    runs_end_lawful_law();
}
