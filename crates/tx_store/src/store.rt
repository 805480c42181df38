//! A store, and how it opens.
ghost use Rattle.std.specs.Prelude.{◌≡◌, ℕ, ◌-◌, ◌^◌, ◌<◌, ◌≤◌, ◌↔◌, [], length, min, All, IfOk};
ghost use Rattle.cell_table.specs.Pass.{opened};
ghost use Rattle.serial_terms.specs.Stores.{opening_of};
ghost use Rattle.store_layout.specs.Shapes.{shape_of, cells_of, IsLayout, most_cells};
ghost use Rattle.store_layout.specs.States.{state_in};
ghost use Rattle.store_layout.specs.Opening.{opening_words};
ghost use Rattle.store_layout.specs.Plans.{IsTooLarge, IfTooLarge};

use crate::pass::StorePass;
use cell_table::CellTable;
use key_directory::Directory;
use serial_terms::Layout;
use std::alloc::Global;
use std::marker::Model;
use store_layout::laws::opening_stands_law;
use store_layout::{CellPlan, LayoutEnd, opening_words};
use store_meaning::{Purpose, StoreMeaning};

/// Structures in the cells of one table, and the positions of their maps' keys. Threads may share it.
#[derive(Drop)]
pub struct Store<P: Purpose> {
    pub(crate) table: CellTable<StoreMeaning<P>>,
    pub(crate) directory: Directory<P::Keys>,
}

impl<P: Purpose> Model for Store<P> {
    ghost use Rattle.store_meaning.specs.declared.meaning.StoreMeaning.{StoreMeaning as Means};
    ghost use Rattle.tx_store.specs.Stores.{StoreView, IsStore};

    ghost Value = { StoreView (Means P P.Keys) };

    ghost view = { λ s. record { table = s.table; directory = s.directory } };

    ghost invariant = { λ s. IsStore s.table.meaning.plan s.table s.directory };
}

impl<P: Purpose> Store<P> {
    ghost use Rattle.tx_store.specs.Stores.{IsPassOfStore};

    /// A store of the layout for a purpose, and the pass of all its callers, of which there are 1 to 4,096. Pools open with
    /// their items, all else is empty or 0, and that state is lawful.
    ///
    /// `TooLarge` comes exactly where the layout has more than 2^24 cells, before any memory is taken.
    pub fn open(
        alloc: Global,
        purpose: P,
        layout: &Layout,
        callers: u32,
    ) -> Result<(Store<P>, StorePass<P>), LayoutEnd>
        requires layout { IsLayout layout.now }
        requires some { 0 < cells_of (shape_of layout.now) }
        requires callers { (0 < callers) × (callers ≤ 4096) }
        requires lawful { P.lawful_state purpose (opening_of layout.now) }
        ensures too_large { IsTooLarge result ↔ (most_cells < cells_of (shape_of layout.now)) }
        ensures told { IfTooLarge result (λ n. n ≡ min (cells_of (shape_of layout.now)) (2 ^ 64 - 1)) }
        ensures store { IfOk result (λ t. (t.0.table.meaning ≡ record { purpose = purpose; plan = shape_of layout.now }) × (t.0.table.opening ≡ opening_words layout.now) × (t.0.table.callers ≡ callers)) }
        ensures opening { state_in (shape_of layout.now) (opening_words layout.now) ≡ opening_of layout.now }
        ensures of { IfOk result (λ t. IsPassOfStore t.0 t.1) }
        ensures pass { IfOk result (λ t. (t.1.pass ≡ opened t.0.table) × (t.1.keys ≡ record { directory = t.0.directory; callers = callers; room = callers; claims = []; trail = [] })) }
    {
        opening_stands_law();
        let plan = CellPlan::of(alloc, layout)?;
        let Ok(words) = opening_words(alloc, layout) else {
            return Err(LayoutEnd::Memory);
        };
        let Ok((directory, keys)) = Directory::open(alloc, layout.maps.as_slice(), callers) else {
            return Err(LayoutEnd::Memory);
        };
        let meaning = StoreMeaning { purpose, plan };
        let Ok((table, pass)) = CellTable::open(alloc, meaning, words.as_slice(), callers) else {
            return Err(LayoutEnd::Memory);
        };
        Ok((Store { table, directory }, StorePass { pass, keys }))
    }

    /// The directory has a region for each map, with as many positions as the map has keys. It does nothing; what it ensures is the law.
    pub fn capacities_law(&self)
        ensures { self.now.directory.capacities ≡ self.now.table.meaning.plan.maps }
    {
        let _ = &self.table;
    }

    /// Where the cells of its structures are.
    pub(crate) fn plan(&self) -> &CellPlan
        ensures plan { result.now ≡ self.now.table.meaning.plan }
        ensures sized { length self.now.table.opening ≡ cells_of result.now }
        ensures slots { All (λ n. 0 < n) result.now.pools }
        ensures regions { self.now.directory.capacities ≡ result.now.maps }
    {
        &self.table.meaning().plan
    }
}
