//! Cells that mean nothing.
use cell_table::Meaning;

/// The meaning of cells of which any list of values is lawful, and any record is explained. A call is a number.
#[derive(Drop)]
pub struct Untold;

impl Meaning for Untold {
    type Done = u64;

    ghost lawful = { λ m cells. Unit {0} };

    ghost explains = { λ m observations writes dones. Unit {0} };

    ghost keeps_lawful = { λ m cells observations writes dones a b c. tt };
}
