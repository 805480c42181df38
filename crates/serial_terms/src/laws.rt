//! Laws of the serial structures and of histories. Each function does nothing; what it ensures is the law.

ghost use Rattle.serial_terms.specs.Worked.{WorkedHistories};
ghost use Rattle.serial_terms.specs.Wrong.{WrongHistories, WrongSights, CallsAndLayouts};
ghost use Rattle.serial_terms.specs.Laws.{RunsInParts, RunsToOneState, PartsCommute, ReadingLeavesState, RepliesHaveKinds, SizesStay, PoolsAreCounts, StatesAtPlaces, RenamingKeepsRuns, RenamingKeepsHistories, OwnNamesAreKeys, OrderIsUnique, SightOrderIsUnique, RecordsRunInParts, RecordsLeaveOneState, RecordsKeepSizes, CapacitiesStay, LastReadsSeeEnd, OneBookIsAHistory, OrderIsByPlace, MergedIsInOrder, MergedIsLegal, MergedIsSeen, HistoryKeepsBooks, BooksSumToHistory};
ghost use Rattle.std.specs.Prelude.{ℕ, Option};
ghost use Rattle.serial_terms.specs.Renaming.{IsOneToOne};

/// Calls one after another run as the first ones and then the others.
pub fn runs_in_parts_law()
    ensures { RunsInParts }
{}

/// A list of calls with their replies runs from a state to one state only.
pub fn runs_to_one_state_law()
    ensures { RunsToOneState }
{}

/// Calls about different parts of the structures don't see one another, and leave one state in either
/// order.
pub fn parts_commute_law()
    ensures { PartsCommute }
{}

/// Calls that change nothing leave the state.
pub fn reading_leaves_state_law()
    ensures { ReadingLeavesState }
{}

/// Each reply that the structures may give is of its call's kind.
pub fn replies_have_kinds_law()
    ensures { RepliesHaveKinds }
{}

/// No call changes a capacity or a number of slots.
pub fn sizes_stay_law()
    ensures { SizesStay }
{}

/// A take leaves the other items of a pool, in whichever slots they stand, and a give adds one.
pub fn pools_are_counts()
    ensures { PoolsAreCounts }
{}

/// The state at a place is what a beginning of the history runs to, and the rest runs on from it.
pub fn states_at_places_law()
    ensures { StatesAtPlaces }
{}

/// Map keys may be renamed one to one: the calls run as before.
pub fn renaming_keeps_runs_law()
    ensures { RenamingKeepsRuns }
{}

/// Where each key's name is the key itself, nothing is renamed.
pub fn own_names_are_keys_law()
    ensures { OwnNamesAreKeys }
{}

/// Two lists of records in the order of a history that have the same members are one.
pub fn order_is_unique_law()
    ensures { OrderIsUnique }
{}

/// Records merged place by place stand in the order of a history.
pub fn merged_is_in_order_law()
    ensures { MergedIsInOrder }
{}

/// Records merged place by place are a legal run where each record explains itself by the states at the
/// places.
pub fn merged_is_legal_law()
    ensures { MergedIsLegal }
{}

/// The state at an earlier place of records merged place by place is the one there, so calls that run from
/// it are consistent with them.
pub fn merged_is_seen_law()
    ensures { MergedIsSeen }
{}

/// A history of several callers' books has each caller's records as they stand in its book, and is the
/// only history of these books.
pub fn history_keeps_books_law()
    ensures { HistoryKeepsBooks }
{}

/// What is summed over the records of books is summed over their history.
pub fn books_sum_to_history_law()
    ensures { BooksSumToHistory }
{}

/// Histories, and what was seen of them, may be renamed with their keys.
pub fn renaming_keeps_histories_law()
    ensures { (name : ℕ → ℕ → Option ℕ) → IsOneToOne name → RenamingKeepsHistories name }
{}

/// Two lists in the order of sights that have the same sights of each caller are one.
pub fn sight_order_is_unique_law()
    ensures { SightOrderIsUnique }
{}

/// Records one after another run as the first ones and then the others.
pub fn records_run_in_parts_law()
    ensures { RecordsRunInParts }
{}

/// Records leave one state only.
pub fn records_leave_one_state_law()
    ensures { RecordsLeaveOneState }
{}

/// Records change no capacity and no number of slots, each of their replies is of its call's kind, and they
/// leave a state within its capacities.
pub fn records_keep_sizes_law()
    ensures { RecordsKeepSizes }
{}

/// Where a structure within its capacity is put, the state stays within its capacities.
pub fn capacities_stay_law()
    ensures { CapacitiesStay }
{}

/// A read-only record sees the end of a history that has no writer at a later place.
pub fn last_reads_see_end_law()
    ensures { LastReadsSeeEnd }
{}

/// The records of one caller one after another stand as a history does.
pub fn one_book_is_a_history_law()
    ensures { OneBookIsAHistory }
{}

/// The order of a history is that by place.
pub fn order_is_by_place_law()
    ensures { OrderIsByPlace }
{}

/// The worked histories of small stores are legal, end with the contents that are stated beside them, and
/// what attempts saw that were not committed is consistent with them.
pub fn worked_histories_law()
    ensures { WorkedHistories }
{}

/// Histories that are wrong in one point each are legal to no end.
pub fn wrong_histories_law()
    ensures { WrongHistories }
{}

/// Sights that are wrong in one point each are of no history.
pub fn wrong_sights_law()
    ensures { WrongSights }
{}

/// The calls of the worked runs are calls of their layouts, others are not; and the layouts are these.
pub fn calls_and_layouts_law()
    ensures { CallsAndLayouts }
{}
