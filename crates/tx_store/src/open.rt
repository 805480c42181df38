//! What an open attempt knows. Each function does nothing; what it ensures is the law.
ghost use Rattle.std.specs.Prelude.{◌≡◌};
ghost use Rattle.tx_store.specs.Sees.{SeesHistory};

use crate::tx::StoreTx;
use store_history::fitting_history_law;
use store_meaning::Purpose;

impl<P: Purpose> StoreTx<'_, P> {
    /// Its pass of the directory is one of the store's, which has a region for each map, with as many positions as the map has keys.
    pub fn capacities_law(&self)
        ensures directory { self.now.keys.directory ≡ self.now.store.directory }
        ensures capacities { self.now.keys.directory.capacities ≡ self.now.store.table.meaning.plan.maps }
    {
        let store = self.store;
        store.capacities_law();
    }

    /// What an attempt sees before its commit, whatever becomes of it: there is one legal history of allowed records, through lawful
    /// states, of which the books of its pass are a part. The state at the attempt's version is lawful, and from it the calls made so
    /// far run, with these replies. Keys' positions stand in the place of the keys.
    pub fn seen_law(&self)
        ensures { SeesHistory P.lawful_state P.allowed self.now.store.table.meaning self.now.attempt }
    {
        self.tx.vouched_law();
        self.tx.pass_law();
        self.tx.legal_law();
        self.tx.moments_law();
        let store = self.store;
        fitting_history_law(store.table.meaning());
    }
}
