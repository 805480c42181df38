//! What a store of stacks is for.
ghost use Rattle.tx_stack.specs.Runs.{ends_lawful, renamed_allowed};
ghost use Rattle.tx_stack.specs.Stacks.{IsLawful, IsAllowed};

use crate::part::StackPart;
use key_directory::BelowCapacity;
use tx_store::Purpose;

/// Stacks on plain cells. Its states are those whose plain cells stand for stacks, and its records those that are made of calls on
/// them: no other call is allowed.
///
/// No two parts have a cell in common, and a store for them has the cells of each.
#[derive(Drop)]
pub struct Stacks {
    pub parts: Vec<StackPart>,
}

impl Purpose for Stacks {
    type Keys = BelowCapacity;

    ghost lawful_state = { λ p s. IsLawful p.parts.items s };

    ghost allowed = { λ p dones. IsAllowed p.parts.items dones };

    ghost ends_lawful = { λ p dones s t lawful allowed runs. ends_lawful p.parts.items dones s t lawful allowed runs };

    ghost renamed = { λ p dones others same allowed. renamed_allowed p.parts.items dones others same allowed };
}
