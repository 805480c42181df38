//! What is true of every map in cells. Each function does nothing; what it ensures is the law.
ghost use Rattle.std.specs.Prelude.{◌≡◌, ◌↔◌, ℕ, ◌+◌, ◌<◌, List, slice_index, Option, Some, None};
ghost use Rattle.attempt_lists.specs.Cells.{Entries};
ghost use Rattle.cell_table.specs.Sorted.{Each};
ghost use Rattle.cell_table.specs.Cells.{after};
ghost use Rattle.serial_terms.specs.declared.call.Call.TheVariants.{MapGet, MapPut, MapRemove, MapPutIfAbsent};
ghost use Rattle.serial_terms.specs.declared.call.Reply.TheVariants.{Nothing};
ghost use Rattle.serial_terms.specs.Serial.{found};
ghost use Rattle.tx_map.specs.Map.{IsFormed, map_of, IsOutside, SameCells, Finds, Puts, Fills};
ghost use Rattle.tx_map.specs.Steps.{IsStep};

use crate::part::MapPart;

impl MapPart {
    /// The map of cells that are all 0 is empty.
    pub fn opens_empty_law(&self)
        ensures { (cells : List ℕ) → IsFormed self.now cells → ((position : ℕ) → position < self.now.capacity → slice_index cells (self.now.base + position) ≡ 0) → map_of self.now cells ≡ (λ position. None) }
    {}

    /// Where its cells have the same words, it is the same map.
    pub fn same_cells_law(&self)
        ensures formed { (a b : List ℕ) → SameCells self.now a b → (IsFormed self.now a ↔ IsFormed self.now b) }
        ensures same { (a b : List ℕ) → SameCells self.now a b → map_of self.now a ≡ map_of self.now b }
    {}

    /// Writes to other cells change nothing of the map.
    pub fn keeps_apart_law(&self)
        ensures formed { (cells : List ℕ) (writes : Entries) → IsFormed self.now cells → IsFormed self.now (after cells writes) }
        ensures same { (cells : List ℕ) (writes : Entries) → Each (λ w. IsOutside self.now w.0) writes → map_of self.now (after cells writes) ≡ map_of self.now cells }
    {}

    /// Each call is one of the serial structures, made with the key's position: its reply is one that they may give, and
    /// the map after it is theirs.
    pub fn serial_law(&self)
        ensures get { (map position : ℕ) (there : Option ℕ) (before after : List ℕ) → Finds self.now position there before after → IsStep self.now map (MapGet map position) (found there) before after }
        ensures put { (map position value : ℕ) (before after : List ℕ) → Puts self.now position (Some value) before after → IsStep self.now map (MapPut map position value) Nothing before after }
        ensures remove { (map position : ℕ) (before after : List ℕ) → Puts self.now position None before after → IsStep self.now map (MapRemove map position) Nothing before after }
        ensures put_if_absent { (map position value : ℕ) (there : Option ℕ) (before after : List ℕ) → Fills self.now position value there before after → IsStep self.now map (MapPutIfAbsent map position value) (found there) before after }
    {}
}
