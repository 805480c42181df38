//! Where a stack stands.

/// A stack on plain cells: its length stands in cell `base`, and item k, from the bottom, in cell `base + 1 + k`.
#[derive(Clone, Copy, Debug, PartialEq, Eq)]
pub struct StackPart {
    pub base: u32,
    /// How many items it may have.
    pub capacity: u32,
}
