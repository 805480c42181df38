//! What the cells of a store mean.

ghost use Rattle.std.specs.Prelude.{ℕ, List};
ghost use Rattle.cell_table.specs.Cells.{AllHold, after};
ghost use Rattle.serial_terms.specs.declared.call.Done.{Done};
ghost use Rattle.serial_terms.specs.Renaming.{NamedDone, by_key, by_name};
ghost use Rattle.serial_terms.specs.Serial.{State, IsWithinCapacity};
ghost use Rattle.store_history.specs.Meanings.{Explains, IsLawful};

use cell_table::Meaning;
use serial_terms::purpose::Lawful;

/// A meaning of cells by which they stand for the state of a store.
pub trait StateMeaning: Meaning + Lawful {
    /// Calls as the table keeps them, with their keys and the names of their keys.
    ghost named: { List Self.Done → List NamedDone };

    /// The lists of cells that stand for a state.
    ghost formed: { Self → List ℕ → Type 0 };

    /// The state that they stand for. Its keys are names.
    ghost state_of: { Self → List ℕ → State };

    /// Such a state is within its capacities.
    ghost within: { (m : Self) (cells : List ℕ) → formed m cells → IsWithinCapacity (state_of m cells) };

    /// Lawful cells stand for a lawful state.
    ghost lawful_means: { (m : Self) (cells : List ℕ) → Self.lawful m cells → IsLawful (formed m) (state_of m) (Self.lawful_state m) cells };

    /// A record that is explained is an allowed one, by its keys and by their names, and its calls run wherever its observations hold.
    ghost explains_means: { (m : Self) (observations writes : List (ℕ × ℕ)) (dones : List Self.Done) → Self.explains m observations writes dones
        → (Self.allowed m (by_key (named dones)) × Self.allowed m (by_name (named dones))) × Explains (formed m) (state_of m) observations writes (by_name (named dones)) };
}
