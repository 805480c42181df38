//! Laws of histories. Each function does nothing; what it ensures is the law.

ghost use Rattle.std.specs.Prelude.{◌≡◌, Some};
ghost use Rattle.cell_table.specs.IsPass.{IsPass};
ghost use Rattle.cell_table.specs.Moments.{Moments};
ghost use Rattle.cell_table.specs.Pass.{PassState, IsSole};
ghost use Rattle.cell_table.specs.Settled.{Settled, Words};
ghost use Rattle.serial_terms.specs.Entries.{AreBooks};
ghost use Rattle.serial_terms.specs.Renaming.{by_key};
ghost use Rattle.store_history.specs.Books.{books_of};
ghost use Rattle.store_history.specs.Histories.{OneHistory, WholeHistory, LastHistory};
ghost use Rattle.store_history.specs.Keyed.{books_with, KeyedHistory};

use crate::meaning::StateMeaning;
use cell_table::Pass;
use serial_terms::laws::{
    one_book_is_a_history_law, order_is_unique_law, renaming_keeps_histories_law,
};
use serial_terms::purpose::{
    lawful_runs_are_legal_law, merged_is_running_law, running_is_legal_law,
    running_stays_lawful_law,
};

/// What a pass of a table with this meaning knows at any moment: there is one legal history of allowed records with lawful states, of which
/// its books are a part and in which all is seen that it vouches for.
pub fn one_history_law<M: StateMeaning>(_pass: &Pass<M>, _meaning: &M)
    ensures { _pass.now.view.meaning ≡ Some _meaning.now → OneHistory M.lawful M.named M.state_of M.lawful_state M.allowed _meaning.now _pass.now }
{
    _pass.legal_law();
    _pass.moments_law();
    fitting_history_law(_meaning);
}

/// The same by what is known of the pass, for a caller that doesn't hold it, as where an attempt has it.
pub fn fitting_history_law<M: StateMeaning>(_meaning: &M)
    ensures { (p : PassState M M.Done) (fits : IsPass M.lawful M.explains p) → Moments M.lawful M.explains fits.legal.meaning p.view fits.legal.history
        → p.view.meaning ≡ Some _meaning.now → OneHistory M.lawful M.named M.state_of M.lawful_state M.allowed _meaning.now p }
{
    merged_is_running_law(_meaning);
    running_is_legal_law(_meaning);
    running_stays_lawful_law(_meaning);
}

/// What a pass with every caller number knows: the history has the records of its books and no others, and no later place than the pass has
/// seen.
pub fn whole_history_law<M: StateMeaning>(_pass: &Pass<M>, _meaning: &M)
    ensures { _pass.now.view.meaning ≡ Some _meaning.now → IsSole _pass.now → WholeHistory M.lawful M.named M.state_of M.lawful_state M.allowed _meaning.now _pass.now }
{
    _pass.legal_law();
    _pass.moments_law();
    fitting_whole_law(_meaning);
}

/// The same by what is known of the pass.
pub fn fitting_whole_law<M: StateMeaning>(_meaning: &M)
    ensures { (p : PassState M M.Done) (fits : IsPass M.lawful M.explains p) → Moments M.lawful M.explains fits.legal.meaning p.view fits.legal.history
        → p.view.meaning ≡ Some _meaning.now → IsSole p → WholeHistory M.lawful M.named M.state_of M.lawful_state M.allowed _meaning.now p }
{
    merged_is_running_law(_meaning);
    running_is_legal_law(_meaning);
    running_stays_lawful_law(_meaning);
}

/// What the books of a pass are, once the table is closed with it: one legal history, which ends in the state of the values that the cells
/// are left with.
pub(crate) fn last_history_law<M: StateMeaning>(_pass: &Pass<M>, _meaning: &M)
    ensures { (words : Words) → _pass.now.view.meaning ≡ Some _meaning.now → Settled M.lawful M.explains _pass.now words
        → LastHistory M.lawful M.named M.state_of M.lawful_state M.allowed _meaning.now _pass.now words.values }
{
    _pass.legal_law();
    merged_is_running_law(_meaning);
    running_is_legal_law(_meaning);
    running_stays_lawful_law(_meaning);
}

/// The same history by keys: the records of the books in order are it, whatever names the keys had.
pub(crate) fn keyed_history_law<M: StateMeaning>(_pass: &Pass<M>, _meaning: &M)
    ensures { (words : Words) → _pass.now.view.meaning ≡ Some _meaning.now → Settled M.lawful M.explains _pass.now words
        → KeyedHistory M.lawful M.named M.state_of M.allowed _meaning.now _pass.now words.values }
{
    last_history_law(_pass, _meaning);
    order_is_unique_law();
    renaming_keeps_histories_law();
    lawful_runs_are_legal_law(_meaning);
}

/// The books of a pass by key are books of records, so `merge_books` makes their history.
pub fn books_by_key_law<M: StateMeaning>(_pass: &Pass<M>)
    ensures { AreBooks (books_with by_key (books_of M.named _pass.now.books)) }
{
    _pass.legal_law();
    one_book_is_a_history_law();
}
