//! The lists of an attempt, kept for the next one.
ghost use Rattle.attempt_lists.specs.Emptied.{IsEmptied};

use crate::additions::Additions;
use crate::cell_list::CellList;
use crate::read_set::ReadSet;
use crate::write_set::WriteSet;
use std::alloc::Global;

/// The lists of one attempt. They are handed in where it begins and handed back where it ends, so that the next attempt finds
/// their room and takes no memory of its own.
#[derive(Drop)]
pub struct KeptLists {
    /// What the attempt observed.
    pub reads: ReadSet,
    /// What it will write.
    pub writes: WriteSet,
    /// The cells that it holds, each with the version that it had.
    pub held: CellList,
    /// What it adds when it commits.
    pub additions: Additions,
}

impl KeptLists {
    /// Empty lists without room. Takes no memory.
    pub fn new(alloc: Global) -> Self
        ensures { IsEmptied result }
    {
        Self {
            reads: ReadSet::new(alloc),
            writes: WriteSet::new(alloc),
            held: CellList::new(alloc),
            additions: Additions::new(alloc),
        }
    }

    /// Empties the lists, and keeps their room for the next attempt. Takes no memory.
    pub fn clear(&mut self)
        ensures { IsEmptied self.new }
    {
        self.reads.clear();
        self.writes.clear();
        self.held.clear();
        self.additions.clear();
    }
}
