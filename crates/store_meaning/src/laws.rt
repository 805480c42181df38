//! What is true of every attempt on a store. Each function does nothing; what it ensures is the law.
ghost use Rattle.store_layout.specs.Shapes.{Shape};
ghost use Rattle.store_meaning.specs.Laws.{NothingWaitsBehind, ChangesStayInObject, AttemptsFollow};

use store_layout::laws::{changes_stay_in_part_law, words_are_cells_law};

/// Where nothing waits, the state that an attempt has is that of the cells.
pub fn nothing_waits_behind_law()
    ensures { NothingWaitsBehind }
{}

/// What changes in the cells of one structure and waits for it changes that structure alone.
pub fn changes_stay_in_object_law()
    ensures { ChangesStayInObject }
{
    changes_stay_in_part_law();
    words_are_cells_law();
}

/// What an attempt's calls have made of the state so far follows from its begin and each call, up to the record of its
/// commit.
pub fn attempts_follow_law()
    ensures { (s : Shape) → AttemptsFollow s }
{
    nothing_waits_behind_law();
    changes_stay_in_object_law();
}
