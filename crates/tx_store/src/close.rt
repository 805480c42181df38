//! How a store ends.
ghost use Rattle.std.specs.Prelude.{◌≡◌, IfOk, IfErr};
ghost use Rattle.cell_table.specs.Pass.{IsSole};
ghost use Rattle.cell_table.specs.Steps.{IsIdle};
ghost use Rattle.serial_terms.specs.Entries.{Each};
ghost use Rattle.serial_terms.specs.Histories.{entries_of};
ghost use Rattle.serial_terms.specs.Kinds.{HasKind};
ghost use Rattle.store_contents.specs.Closed.{IsClosed, books_by_key};
ghost use Rattle.tx_store.specs.Stores.{IsPassOfStore};

use crate::pass::StorePass;
use crate::store::Store;
use serial_terms::{Record, StoreState};
use std::alloc::{AllocError, Global};
use std::marker::Model;
use store_contents::{ClosingRoom, close_store};
use store_meaning::Purpose;

/// The history of a store that was closed. Only [`Store::close`] makes one.
///
/// Each reply in it is of its call's kind.
#[derive(Drop)]
pub struct History {
    records: Vec<Record>,
}

impl Model for History {
    ghost use Rattle.serial_terms.specs.Entries.{Each};
    ghost use Rattle.serial_terms.specs.Histories.{entries_of};
    ghost use Rattle.serial_terms.specs.Kinds.{HasKind};
    ghost use Rattle.tx_store.specs.Closed.{HistoryView};

    ghost Value = { HistoryView };

    ghost view = { λ h. record { records = h.records.items } };

    ghost invariant = { λ h. Each (λ e. Each HasKind e.dones) (entries_of h.records.items) };
}

impl History {
    /// All committed records, by place, at one place the writer first, then by caller, then by index.
    pub fn records(&self) -> &[Record]
        ensures records { result.now ≡ self.now.records }
        ensures kinds { Each (λ e. Each HasKind e.dones) (entries_of result.now) }
    {
        self.records.as_slice()
    }
}

impl<P: Purpose> Store<P> {
    /// The end of the store, by the pass that has every caller number: the one serial history of all committed records, which leads
    /// from the opening to the contents that it hands out, and in which all is seen that the pass vouches for.
    ///
    /// The memory is taken first. Where there is none, the store and the pass come back unchanged.
    pub fn close(
        self,
        alloc: Global,
        pass: StorePass<P>,
    ) -> Result<(History, StoreState), (Store<P>, StorePass<P>, AllocError)>
        requires of { IsPassOfStore self pass }
        requires sole { IsSole pass.pass }
        requires idle { IsIdle pass.pass.view }
        ensures closed { IfOk result (λ t. IsClosed P.lawful_state P.allowed self.table.meaning pass.pass pass.keys.claims (entries_of t.0.records) t.1) }
        ensures refused { IfErr result (λ back. (back.0 ≡ self) × (back.1 ≡ pass)) }
    {
        let Ok(room) = ClosingRoom::of(alloc, &self.table, &pass.pass) else {
            return Err((self, pass, AllocError));
        };
        Ok(close_in(self, pass, room))
    }
}

/// The end of the store, in room that was taken for it.
fn close_in<P: Purpose>(
    store: Store<P>,
    pass: StorePass<P>,
    room: ClosingRoom,
) -> (History, StoreState)
    requires of { IsPassOfStore store pass }
    requires sole { IsSole pass.pass }
    requires idle { IsIdle pass.pass.view }
    requires room { room ≡ record { shape = store.table.meaning.plan; books = books_by_key pass.pass } }
    ensures { IsClosed P.lawful_state P.allowed store.table.meaning pass.pass pass.keys.claims (entries_of result.0.records) result.1 }
{
    let Store { table, directory } = store;
    let StorePass { pass, keys } = pass;
    let (records, state) = close_store(table, pass, directory, keys, room);
    (History { records }, state)
}
