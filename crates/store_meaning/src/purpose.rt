//! What a store is for.
ghost use Rattle.std.specs.Prelude.{List};
ghost use Rattle.serial_terms.specs.declared.call.Done.{Done};
ghost use Rattle.serial_terms.specs.Serial.{State};
ghost use Rattle.serial_terms.specs.Histories.{Runs};
ghost use Rattle.serial_terms.specs.Renaming.{SameButKeys};

use key_directory::{EveryKey, KeyTest};

/// What a store is for: which records it takes, and which of its states are lawful.
///
/// A user's invariant is a `lawful_state`. That records keep it is proved once, of single records of the serial structures;
/// the store then keeps it in every interleaving.
pub trait Purpose: Drop {
    /// Which keys a map may hold.
    type Keys: KeyTest;

    /// The states that it finds lawful.
    ghost lawful_state: { Self → State → Type 0 };

    /// The records that it allows, as lists of their calls.
    ghost allowed: { Self → List Done → Type 0 };

    /// An allowed record that runs from a lawful state ends in a lawful one.
    ghost ends_lawful: { (purpose : Self) (dones : List Done) (s t : State) → lawful_state purpose s → allowed purpose dones → Runs s dones t → lawful_state purpose t };

    /// Before a store is closed, a map's key is known by its position. With a record those are allowed that have positions in
    /// place of the keys. Where only keys below a map's capacity pass, these are the keys themselves.
    ghost renamed: { (purpose : Self) (dones others : List Done) → SameButKeys Self.Keys.passes dones others → allowed purpose dones → allowed purpose others };
}

/// Each record is allowed, and each state is lawful. A map may hold every key.
#[derive(Debug, Drop)]
pub struct Anything;

impl Purpose for Anything {
    type Keys = EveryKey;

    ghost lawful_state = { λ _ _. Unit {0} };

    ghost allowed = { λ _ _. Unit {0} };

    ghost ends_lawful = { λ _ _ _ _ _ _ _. tt };

    ghost renamed = { λ _ _ _ _ _. tt };
}
