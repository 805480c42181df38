//! Where a structure's cells begin, and why a layout is refused.

/// Where the cells of a structure begin, and how many values it may have. The first cell of a queue or a log
/// is its end, and one cell for each value follows. A map and a pool have just one cell for each value.
#[derive(Clone, Copy, Debug, PartialEq, Eq)]
pub struct Place {
    pub first: u32,
    pub capacity: u32,
}

/// Why there is no plan for a layout.
#[derive(Clone, Copy, Debug, PartialEq, Eq)]
pub enum LayoutEnd {
    /// It has more than 2^24 cells. It has so many, or more where the number is 2^64 - 1.
    TooLarge { cells: u64 },
    /// There was no memory for the plan.
    Memory,
}
