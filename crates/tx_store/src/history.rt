//! What a pass of a store knows of the store's history. Each function does nothing; what it ensures is the law.
ghost use Rattle.cell_table.specs.Pass.{IsSole};
ghost use Rattle.serial_terms.specs.Entries.{AreBooks};
ghost use Rattle.serial_terms.specs.Renaming.{NamedDone};
ghost use Rattle.serial_terms.specs.Sights.{Seen};
ghost use Rattle.store_contents.specs.Closed.{books_by_key};
ghost use Rattle.store_meaning.specs.declared.meaning.StoreMeaning.{StoreMeaning};
ghost use Rattle.tx_store.specs.Known.{KnowsHistory, KnowsWholeHistory, Vouches, Extends};
ghost use Rattle.tx_store.specs.Sees.{SeesState};
ghost use Rattle.tx_store.specs.Stores.{PassView, IsPassOfStore};

use crate::pass::StorePass;
use crate::store::Store;
use store_history::{books_by_key_law, one_history_law, whole_history_law};
use store_meaning::Purpose;

impl<P: Purpose> StorePass<P> {
    /// At any moment there is one legal history of allowed records, through lawful states, in which each caller number of the pass has the
    /// records of its book, in their order, and in which all is seen that the pass vouches for. Its map calls have a key's position in the
    /// place of the key.
    pub fn history_law(&self, store: &Store<P>)
        requires { IsPassOfStore store.now self.now }
        ensures { KnowsHistory P.lawful_state P.allowed store.now.table.meaning self.now.pass }
    {
        one_history_law(&self.pass, store.table.meaning());
    }

    /// Of a pass with every caller number: that history has the records of its books and no others, and no later place than it has seen.
    pub fn whole_history_law(&self, store: &Store<P>)
        requires of { IsPassOfStore store.now self.now }
        requires sole { IsSole self.now.pass }
        ensures { KnowsWholeHistory P.lawful_state P.allowed store.now.table.meaning self.now.pass }
    {
        whole_history_law(&self.pass, store.table.meaning());
    }

    /// What the pass vouches for was seen of one moment: of a lawful state, in which nothing has more than its capacity.
    pub fn sights_law(&self, _store: &Store<P>)
        requires { IsPassOfStore _store.now self.now }
        ensures { (seen : Seen NamedDone) → Vouches P.lawful_state _store.now.table.meaning self.now seen → SeesState P.lawful_state _store.now.table.meaning seen }
    {
        self.pass.one_moment_law();
    }

    /// The books of a pass are those of different callers, each with the records of its caller alone, in their order.
    pub fn books_law(&self)
        ensures { AreBooks (books_by_key self.now.pass) }
    {
        books_by_key_law(&self.pass);
    }
}

impl<P: Purpose> Store<P> {
    /// What a pass vouches for, each pass vouches for that knows what it knew and has its claims. So the sight of an aborted attempt is
    /// vouched for until the store is closed.
    pub fn vouching_stays_law(&self)
        ensures { (old new : PassView (StoreMeaning P P.Keys)) (seen : Seen NamedDone) → Extends old new → Vouches P.lawful_state self.now.table.meaning old seen
            → Vouches P.lawful_state self.now.table.meaning new seen }
    {}
}
