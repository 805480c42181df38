//! Laws of stacks. Each function does nothing; what it ensures is the law.
ghost use Rattle.tx_stack.specs.Laws.{StacksOpenEmpty, RecordsAreReadInOneWay, CallsRunOnLists, RecordsRunOnLists, MovesMoveTheTop};

/// A store opens with empty stacks, where no two parts have a cell in common.
pub fn stacks_open_empty_law()
    ensures { StacksOpenEmpty }
{}

/// A record is read as calls on stacks in one way only.
pub fn records_are_read_in_one_way_law()
    ensures { RecordsAreReadInOneWay }
{}

/// Where calls run from cells that stand for stacks, the calls on stacks that they are read as run on the lists.
pub fn calls_run_on_lists_law()
    ensures { CallsRunOnLists }
{}

/// A legal run of allowed records, read as calls on stacks, is a legal run of the lists.
pub fn records_run_on_lists_law()
    ensures { RecordsRunOnLists }
{}

/// A move takes the top off one list and puts it on the other, and leaves all else.
pub fn moves_move_the_top_law()
    ensures { MovesMoveTheTop }
{}
