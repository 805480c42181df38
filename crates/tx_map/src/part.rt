//! Which cells a map has, and why a call of it is refused.
use std::alloc::AllocError;
use tx_core::Stop;

/// A map in the `capacity` cells from `base` on. The key of the position p of the region has the cell `base + p`.
///
/// The cell has 0 where the key is absent, else its value plus 1.
#[derive(Clone, Copy, Debug, PartialEq, Eq)]
pub struct MapPart {
    /// The map's first cell.
    pub base: u32,
    /// The region of the directory that gives the map's keys their positions.
    pub region: u32,
    /// How many cells the map and how many positions the region has.
    pub capacity: u32,
}

/// Why a call of a map can't be answered.
#[derive(Clone, Copy, Debug, PartialEq, Eq)]
pub enum MapStop {
    /// The attempt is stopped.
    Stop(Stop),
    /// Each position of the map's region has another key. The attempt is as before.
    KeysFull { capacity: u32 },
}

impl From<Stop> for MapStop {
    ghost use Rattle.std.specs.Prelude.{◌≡◌};
    ghost use Rattle.tx_map.specs.declared.part.MapStop.TheVariants.{Stop};

    ghost from_gives = { λ stop e. e ≡ Stop stop };

    fn from(stop: Stop) -> MapStop {
        MapStop::Stop(stop)
    }
}

impl From<AllocError> for MapStop {
    ghost use Rattle.std.specs.Prelude.{◌≡◌};
    ghost use Rattle.tx_core.specs.declared.stop.Stop.TheVariants.{Memory};
    ghost use Rattle.tx_map.specs.declared.part.MapStop.TheVariants.{Stop};

    ghost from_gives = { λ _ e. e ≡ Stop Memory };

    fn from(_: AllocError) -> MapStop {
        MapStop::Stop(Stop::Memory)
    }
}
