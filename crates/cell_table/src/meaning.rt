ghost use Rattle.std.specs.Prelude.{ℕ, List};
ghost use Rattle.cell_table.specs.Cells.{after, AllHold};

/// What the cells of a table mean, as a value that may hold data such as a layout.
pub trait Meaning: Drop {
    /// One call with its reply.
    type Done: Copy;

    /// The lists of cells that may stand between two transactions.
    ghost lawful: { Self → List ℕ → Type 0 };

    /// What a transaction read and wrote, each a cell and a value, explains what it did.
    ghost explains: { Self → List (ℕ × ℕ) → List (ℕ × ℕ) → List Self.Done → Type 0 };

    /// Where the cells are lawful, what was read stands in them and the record is explained, the cells after the writes are lawful.
    ghost keeps_lawful: { (m : Self) (cells : List ℕ) (observations writes : List (ℕ × ℕ)) (dones : List Self.Done) → lawful m cells → AllHold cells observations → explains m observations writes dones → lawful m (after cells writes) };
}
