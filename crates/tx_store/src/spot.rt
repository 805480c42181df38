//! What a cell of a store is for.
ghost use Rattle.std.specs.Prelude.{◌≡◌, ◌<◌, length};
ghost use Rattle.store_layout.specs.Spots.{IsSpotOf, cell_of};

use crate::store::Store;
use store_layout::Spot;
use store_meaning::Purpose;

impl<P: Purpose> Store<P> {
    /// The structure that a cell belongs to, and the cell's place in it. A refused call tells of a cell by its number in the
    /// whole store: the maps' cells come first, then those of the queues, pools and logs, and the plain cells.
    pub fn spot_of(&self, cell: u32) -> Spot
        requires { cell < length self.now.table.opening }
        ensures there { IsSpotOf self.now.table.meaning.plan result }
        ensures cell { cell_of self.now.table.meaning.plan result ≡ cell }
    {
        self.plan().spot_of(cell)
    }
}
