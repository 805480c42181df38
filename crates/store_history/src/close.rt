//! How the table of a store ends.

ghost use Rattle.cell_table.specs.Pass.{IsPassOf, IsSole};
ghost use Rattle.cell_table.specs.Settled.{Settled};
ghost use Rattle.cell_table.specs.Steps.{IsIdle};
ghost use Rattle.store_history.specs.Histories.{LastHistory};
ghost use Rattle.store_history.specs.Keyed.{KeyedHistory};

use crate::laws::{keyed_history_law, last_history_law};
use crate::meaning::StateMeaning;
use cell_table::{CellTable, Contents, Pass};

/// The end of the table, by the pass that has every caller number. The records of its books are one legal history, from the state of the opening to that
/// of the values that the cells are left with.
pub fn close_with_history<M: StateMeaning>(table: CellTable<M>, pass: Pass<M>) -> Contents
    requires of { IsPassOf table pass }
    requires sole { IsSole pass }
    requires idle { IsIdle pass.view }
    ensures settled { Settled M.lawful M.explains pass result }
    ensures names { LastHistory M.lawful M.named M.state_of M.lawful_state M.allowed table.meaning pass result.values }
    ensures keys { KeyedHistory M.lawful M.named M.state_of M.allowed table.meaning pass result.values }
{
    let meaning = table.meaning();
    last_history_law(&pass, meaning);
    keyed_history_law(&pass, meaning);
    table.close(pass)
}
