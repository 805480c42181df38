//! The keys of a directory that is closed.
ghost use Rattle.std.specs.Prelude.{◌≡◌};
ghost use Rattle.key_directory.specs.Words.{IsPosition};
ghost use Rattle.key_directory.specs.Directory.{key_held};

use crate::layout::Layout;
use atomic_table::Closed;
use std::alloc::Global;
use std::marker::Model;

/// What a directory's positions held when it was closed.
pub struct KeyList {
    pub(crate) closed: Closed<(), Global>,
    pub(crate) layout: Layout,
}

impl Model for KeyList {
    ghost use Rattle.std.specs.Mem.Slots.{slots_items, slots_len, IsFull};
    ghost use Rattle.key_directory.specs.Words.{capacities_of};
    ghost use Rattle.key_directory.specs.Directory.{KeyListView};
    ghost use Rattle.key_directory.specs.Layouts.{IsListed};

    ghost Value = { KeyListView };

    ghost view = { λ l. record { capacities = capacities_of l.layout.regions.items; words = slots_items l.closed.words } };

    ghost invariant = { λ l. IsListed (slots_len l.closed.words) (slots_len l.closed.slots) (IsFull l.closed.words) l.layout.regions.items };
}

impl Drop for KeyList {
    fn drop(self) {
        let Self { closed, layout: _ } = self;
        closed.free();
    }
}

impl KeyList {
    /// The key that holds the position of the region, or `None` where the position is free.
    pub fn key_at(&self, region: u32, position: u32) -> Option<u64>
        requires there { IsPosition self.now.capacities region position }
        ensures exactly { result ≡ key_held self.now region position }
    {
        let start = self.layout.regions[region as usize].start;
        let word = self.closed.word((start + position) as usize);
        word.checked_sub(1)
    }
}
