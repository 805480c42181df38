//! Why the additions to a part aren't placed.
ghost use Rattle.std.specs.Prelude.{◌≡◌};

use crate::stop::Stop;

/// Why the additions that wait for a part weren't placed at the commit.
#[derive(Clone, Copy, Debug, PartialEq, Eq)]
pub enum ResolveEnd {
    /// A cell of the part couldn't be locked, or what was observed isn't so any more.
    Stop(Stop),
    /// With what is added the part would be longer than its capacity.
    Full {
        part: u32,
        /// How many it has.
        length: u64,
        /// How many wait to be added.
        adding: u64,
    },
}

impl From<Stop> for ResolveEnd {
    ghost use Rattle.tx_core.specs.declared.resolve_end.ResolveEnd.TheVariants as ends;

    ghost from_gives = { λ stop end. end ≡ ends.Stop stop };

    fn from(stop: Stop) -> ResolveEnd {
        ResolveEnd::Stop(stop)
    }
}
