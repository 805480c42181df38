//! What is true of every attempt at any moment. Each function does nothing; what it ensures is the law.
ghost use Rattle.std.specs.Prelude.{◌≡◌, ℕ, ◌<◌, ◌≤◌, ◌*◌, ◌^◌, ◌≢◌, ◌++◌, false, List, length, slice_index, slice_set, Some};
ghost use Rattle.std.specs.Option.{option_or};

use crate::tx::Tx;
use cell_table::Meaning;

impl<'a, M: Meaning> Tx<'a, M> {
    ghost use Rattle.cell_table.specs.Cells.{after, AllHold};
    ghost use Rattle.cell_table.specs.declared.view.Stage.TheVariants.{Open};
    ghost use Rattle.cell_table.specs.Steps.{Observes};
    ghost use Rattle.cell_table.specs.Writers.{Alone};
    ghost use Rattle.cell_table.specs.Pass.{IsPassOf, IsSole};
    ghost use Rattle.cell_table.specs.IsPass.{IsPass};
    ghost use Rattle.cell_table.specs.Legal.{LegalNow};
    ghost use Rattle.cell_table.specs.Moments.{Moments};
    ghost use Rattle.attempt_lists.specs.Cells.{Entries, word_at, word_of, cell_at, put, IsAscending};
    ghost use Rattle.attempt_lists.specs.Parts.{waiting_of, marked_of};
    ghost use Rattle.tx_core.specs.Additions.{HasSpare, HasTwoFor, HasTwoEach};
    ghost use Rattle.tx_core.specs.Parts.{Shows};

    /// Take any list of cells in which all holds that the attempt observed, and lay its writes over it. Then a cell that it
    /// wrote or observed has its own write, else what it observed. One more write sets its cell after the others.
    pub fn laid_over_law(&self)
        ensures ascending { IsAscending self.now.writes }
        ensures shows { (cell x : ℕ) → option_or (word_at self.now.writes cell) (word_at self.now.observations cell) ≡ Some x → Shows self.now cell x }
        ensures put { (cells : List ℕ) (cell x : ℕ) → after cells (put self.now.writes cell x) ≡ slice_set (after cells self.now.writes) cell x }
        ensures sized { (cells : List ℕ) → length (after cells self.now.writes) ≡ length cells }
        ensures earlier { (cells : List ℕ) (more : Entries) → AllHold cells (self.now.observations ++ more) → AllHold cells self.now.observations }
    {
        self.writes.ascending_law();
    }

    /// The table of an attempt has 1 to 2^24 cells.
    pub fn limits_law(&self)
        ensures { (0 < length self.now.table.opening) × (length self.now.table.opening ≤ 2 ^ 24) }
    {
        self.table.limits_law();
    }

    /// Each observation is of a cell of the table, and stands at the attempt's version in the view of its pass, but for
    /// those of newer versions, of which there are none before the commit.
    pub fn vouched_law(&self)
        ensures there { (i : ℕ) → i < length self.now.observations → cell_at self.now.observations i < length self.now.table.opening }
        ensures stands { (i : ℕ) → i < length self.now.observations → slice_index self.now.versions i ≤ self.now.version → Observes self.now.pass.view (cell_at self.now.observations i) (word_of self.now.observations i) self.now.version }
        ensures early { self.now.committing ≡ false → (i : ℕ) → i < length self.now.observations → slice_index self.now.versions i ≤ self.now.version }
        ensures sized { length self.now.versions ≡ length self.now.observations }
        ensures undrawn { self.now.committing ≡ false → self.now.pass.view.stage ≡ Open }
    {
        self.table.limits_law();
    }

    /// The pass of an attempt is one of its table, and knows the attempt's version.
    pub fn pass_law(&self)
        ensures of { IsPassOf self.now.table self.now.pass }
        ensures known { self.now.version ≤ self.now.pass.view.known }
    {
        self.table.limits_law();
    }

    /// There is one legal history that all fits which the pass of the attempt ever found.
    pub fn legal_law(&self)
        ensures { IsPass M.lawful M.explains self.now.pass }
    {
        self.pass.legal_law();
    }

    /// In each legal history of what its pass found there is at each place one lawful list of cells.
    pub fn moments_law(&self)
        ensures { (legal : LegalNow M.lawful M.explains self.now.pass.view) → Moments M.lawful M.explains legal.meaning self.now.pass.view legal.history }
    {
        self.pass.moments_law();
    }

    /// Before its commit all that the attempt observed stands in one lawful list of cells: it saw the table at one moment.
    pub fn one_moment_law(&self)
        ensures { self.now.committing ≡ false → (m : M) → self.now.pass.view.meaning ≡ Some m → (cells : List ℕ) × M.lawful m cells × (length cells ≡ length self.now.table.opening) × AllHold cells self.now.observations }
    {
        self.pass.one_moment_law();
    }

    /// Before its commit a cell that the attempt observed has that value at its version, and no cell has two values there.
    pub fn agreed_law(&self)
        requires before_commit { self.now.committing ≡ false }
        ensures seen { (c x : ℕ) → word_at self.now.observations c ≡ Some x → Observes self.now.pass.view c x self.now.version }
        ensures one { (c x y : ℕ) → Observes self.now.pass.view c x self.now.version → Observes self.now.pass.view c y self.now.version → x ≡ y }
    {
        self.pass.agrees_law();
    }

    /// The books of a pass with every caller number tell all that happened to the cells. An attempt begins at or after all
    /// that its pass has seen, so those books tell what it reads.
    pub fn alone_law(&self)
        ensures sole { IsSole self.now.pass → Alone self.now.pass }
        ensures begun { self.now.pass.seen ≤ self.now.version }
    {
        self.pass.alone_law();
    }

    /// Before its commit, for each addition that waits two places of each kind are kept. So they are for those that waited when
    /// a child was opened, which may come back.
    pub fn provided_law(&self)
        ensures twice { self.now.committing ≡ false → HasTwoEach self.now.spare self.now.additions }
        ensures marked { self.now.committing ≡ false → HasTwoFor self.now.spare (marked_of self.now.additions) }
        ensures each { self.now.committing ≡ false → (part : ℕ) → HasSpare self.now.spare (2 * length (waiting_of self.now.additions part)) }
        ensures few { (self.now.spare.locks < 2 ^ 32) × (self.now.spare.observations < 2 ^ 32) × (self.now.spare.writes < 2 ^ 32) }
    {
        self.table.limits_law();
    }
}
