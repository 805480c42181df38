//! Which keys a region may hold.

/// Says which keys a region of a given capacity may hold. It has no value at run time.
pub trait KeyTest {
    ghost use Rattle.std.specs.Prelude.{ℕ};

    // of the region's capacity and the key
    ghost passes: { ℕ → ℕ → Type 0 };
}

/// Each region may hold every key.
pub struct EveryKey;

impl KeyTest for EveryKey {
    ghost passes = { λ _ _. Unit {0} };
}

/// A region may hold the keys below its capacity, so that each of them has the position of its own number.
pub struct BelowCapacity;

impl KeyTest for BelowCapacity {
    ghost use Rattle.std.specs.Prelude.{◌<◌};

    ghost passes = { λ capacity key. key < capacity };
}
