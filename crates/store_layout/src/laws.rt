//! Laws of layouts. Each function does nothing; what it ensures is the law.

ghost use Rattle.store_layout.specs.Worked.{WorkedState, WrongWords};
ghost use Rattle.store_layout.specs.Laws.{CellsHaveSpots, PartsAreApart, WordsAreCells, ChangesStayInPart, FormedIsWithinCapacity, OpeningStands};

/// Each cell has one spot, and each spot that is there has a cell.
pub fn cells_have_spots_law()
    ensures { CellsHaveSpots }
{}

/// Each cell is part of one structure, and of no other.
pub fn parts_are_apart_law()
    ensures { PartsAreApart }
{}

/// The words of a structure are those of its cells.
pub fn words_are_cells_law()
    ensures { WordsAreCells }
{}

/// What changes in the cells of one structure changes that structure alone.
pub fn changes_stay_in_part_law()
    ensures { ChangesStayInPart }
{}

/// The state that cells stand for is within its capacities.
pub fn formed_is_within_capacity_law()
    ensures { FormedIsWithinCapacity }
{}

/// The words of the opening stand for the opening state.
pub fn opening_stands_law()
    ensures { OpeningStands }
{}

/// Worked cells stand for the state that is stated beside them.
pub fn worked_state_law()
    ensures { WorkedState }
{}

/// Words that are wrong in one point each stand for no queue and no log.
pub fn wrong_words_law()
    ensures { WrongWords }
{}
