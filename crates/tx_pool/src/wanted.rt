//! What a walk looks for.
ghost use Rattle.tx_pool.specs.Walk.{Fits};

/// What a walk looks for in the slots.
#[derive(Clone, Copy)]
pub enum Wanted {
    /// A slot that has an item.
    Item,
    /// An empty slot.
    Room,
}

impl Wanted {
    /// Whether a slot with this word is one that is looked for.
    pub(crate) fn fits(self, word: u64) -> bool
        ensures { Fits self word result }
    {
        match self {
            Wanted::Item => word != 0,
            Wanted::Room => word == 0,
        }
    }
}
