/// A log in the cells of a table: the cell `end` has its length, and the `capacity` cells behind it have its entries.
///
/// An entry's word is its value plus 1, and 0 where the entry isn't there.
#[derive(Clone, Copy, Debug, PartialEq, Eq)]
pub struct LogPart {
    /// The number under which additions to the log wait.
    pub part: u32,
    /// The cell of its length.
    pub end: u32,
    /// How many entries it may have.
    pub capacity: u32,
}
