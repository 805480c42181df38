//! A filter over cells: 64 bits, one for each remainder of a cell. A cell whose bit is clear was never added.
ghost use Rattle.std.specs.Prelude.{◌≡◌, ℕ, IsTrue, ◌↔◌};
ghost use Rattle.attempt_lists.specs.Index.{Passes};

/// Whether the cell may have been added.
pub(crate) fn passes(filter: u64, cell: u32) -> bool
    ensures { IsTrue result ↔ Passes filter cell }
{
    (filter >> (cell % 64)) & 1 == 1
}

/// The filter with the cell added.
pub(crate) fn with_cell(filter: u64, cell: u32) -> u64
    ensures added { Passes result cell }
    ensures kept { (q : ℕ) → Passes filter q → Passes result q }
{
    filter | 1 << (cell % 64)
}
