//! What the cells of a store mean.
ghost use Rattle.serial_terms.specs.Serial.{State};
ghost use Rattle.store_history.specs.Meanings.{IsLawful};
ghost use Rattle.store_layout.specs.States.{IsFormed, state_in};
ghost use Rattle.store_layout.specs.Within.{formed_is_within_capacity};
ghost use Rattle.store_meaning.specs.Meant.{IsExplained, keeps_lawful};

use crate::noted::Noted;
use crate::purpose::Purpose;
use cell_table::Meaning;
use serial_terms::purpose::Lawful;
use store_history::StateMeaning;
use store_layout::CellPlan;

/// The meaning of cells that are laid out by the plan, for a purpose.
///
/// They are lawful where they stand for a lawful state. A record is explained where its calls are allowed and lead, in any
/// cells that have what was observed, from the state before the writes to the state after them.
#[derive(Drop)]
pub struct StoreMeaning<P: Purpose> {
    pub purpose: P,
    pub plan: CellPlan,
}

impl<P: Purpose> Meaning for StoreMeaning<P> {
    type Done = Noted;

    ghost lawful = { λ m. IsLawful (IsFormed m.plan) (state_in m.plan) (P.lawful_state m.purpose) };

    ghost explains = { λ m observations writes notes. IsExplained (P.allowed m.purpose) m.plan observations writes notes };

    ghost keeps_lawful = { λ m cells observations writes notes lawful hold explained. keeps_lawful (P.lawful_state m.purpose) (P.allowed m.purpose) (P.ends_lawful m.purpose) m.plan cells observations writes notes lawful hold explained };
}

/// The laws of histories are said of the purpose.
impl<P: Purpose> Lawful for StoreMeaning<P> {
    ghost lawful_state = { λ m. P.lawful_state m.purpose };

    ghost allowed = { λ m. P.allowed m.purpose };
}

/// A key's name is its position until the store is closed.
impl<P: Purpose> StateMeaning for StoreMeaning<P> {
    ghost named = { λ notes. notes };

    ghost formed = { λ m. IsFormed m.plan };

    ghost state_of = { λ m. state_in m.plan };

    ghost within = { λ m. formed_is_within_capacity m.plan };

    ghost lawful_means = { λ m cells lawful. lawful };

    ghost explains_means = { λ m observations writes notes explained. ((explained.allowed, explained.placed), explained.leads) };
}
