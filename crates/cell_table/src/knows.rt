//! What follows from all that a pass knows. None of these calls makes a step.
ghost use Rattle.std.specs.Prelude.{◌≡◌, ℕ, ◌≤◌, ◌<◌, ◌^◌, List, length, slice_index, Some};

use crate::meaning::Meaning;
use crate::pass::Pass;
use crate::table::CellTable;

impl<M: Meaning> CellTable<M> {
    /// How many callers and cells a table has.
    pub fn limits_law(&self)
        ensures callers { (0 < self.now.callers) × (self.now.callers ≤ 4096) }
        ensures cells { (0 < length self.now.opening) × (length self.now.opening ≤ 2 ^ 24) }
    {
        let _ = &self.words;
    }
}

impl<M: Meaning> Pass<M> {
    ghost use Rattle.cell_table.specs.Steps.{Observes};
    ghost use Rattle.cell_table.specs.Legal.{LegalNow};
    ghost use Rattle.cell_table.specs.Moments.{Moments};
    ghost use Rattle.cell_table.specs.Pass.{IsSole};
    ghost use Rattle.cell_table.specs.Writers.{Alone};

    /// In each history that fits what the pass knows: every place has one lawful list of cells, each record is explained and read what stood just before its place, and all that the pass observes stands at its place.
    pub fn moments_law(&self)
        ensures { (legal : LegalNow M.lawful M.explains self.now.view) → Moments M.lawful M.explains legal.meaning self.now.view legal.history }
    {
        let _ = &self.seat;
    }

    /// Two observations of one cell at one place have one value.
    pub fn agrees_law(&self)
        ensures { (cell x y place : ℕ) → Observes self.now.view cell x place → Observes self.now.view cell y place → x ≡ y }
    {
        self.legal_law();
    }

    /// All that the pass observes at one place stands in one lawful list of cells: what it saw was the table at one moment.
    pub fn one_moment_law(&self)
        ensures { (m : M) → self.now.view.meaning ≡ Some m → (place : ℕ) → (cells : List ℕ) × M.lawful m cells × (length cells ≡ length self.now.view.opening) × ((cell x : ℕ) → cell < length self.now.view.opening → Observes self.now.view cell x place → slice_index cells cell ≡ x) }
    {
        self.legal_law();
    }

    /// The books of a pass with every caller number tell all that happened to the cells.
    pub fn alone_law(&self)
        ensures { IsSole self.now → Alone self.now }
    {
        self.legal_law();
    }
}
