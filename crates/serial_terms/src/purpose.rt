//! Laws of histories for any purpose and for any rule of keys. Each function does nothing; what it ensures
//! is the law.

ghost use Rattle.std.specs.Prelude.{ℕ, List};
ghost use Rattle.serial_terms.specs.declared.call.Done.{Done};
ghost use Rattle.serial_terms.specs.Serial.{State};
ghost use Rattle.serial_terms.specs.Purposes.{MergedIsRunning, RunningIsLegal, RunningStaysLawful, AllowedRunsLawfully, LawfulRunsAreLegal, RenamedStayAllowed};
ghost use Rattle.serial_terms.specs.Laws.{NamesChangeKeys};
ghost use Rattle.serial_terms.specs.Ranges.{BelowCapacity};

use std::marker::Brand;

/// A purpose as the laws of histories see it.
pub trait Lawful {
    /// The states that it finds lawful.
    ghost lawful_state: { Self → State → Type 0 };

    /// The records that it allows, as lists of their calls.
    ghost allowed: { Self → List Done → Type 0 };
}

/// Which keys a map of a capacity may hold.
pub trait KeyRule {
    ghost passes: { ℕ → ℕ → Type 0 };
}

/// A caller says which keys a map may hold where it asks for a law.
impl KeyRule for Brand {
    ghost passes = { BelowCapacity };
}

/// A purpose that finds each state lawful and allows each record.
#[derive(Drop)]
pub struct Free;

impl Lawful for Free {
    ghost lawful_state = { λ _ _. Unit {0} };

    ghost allowed = { λ _ _. Unit {0} };
}

/// Records merged place by place are a running history where the states at the places are lawful and each
/// record explains itself by them.
pub fn merged_is_running_law<P: Lawful>(_purpose: &P)
    ensures { MergedIsRunning (P.lawful_state _purpose.now) }
{}

/// A running history is a legal one, once its records are numbered, or where they have these numbers already.
pub fn running_is_legal_law<P: Lawful>(_purpose: &P)
    ensures { RunningIsLegal (P.lawful_state _purpose.now) }
{}

/// A running history from a lawful state passes through lawful ones.
pub fn running_stays_lawful_law<P: Lawful>(_purpose: &P)
    ensures { RunningStaysLawful (P.lawful_state _purpose.now) }
{}

/// A legal run of allowed records passes through lawful states alone, where each of them leads from a
/// lawful state to a lawful one.
pub fn allowed_runs_lawfully_law<P: Lawful>(_purpose: &P)
    ensures { AllowedRunsLawfully (P.lawful_state _purpose.now) (P.allowed _purpose.now) }
{}

/// A run through lawful states is legal.
pub fn lawful_runs_are_legal_law<P: Lawful>(_purpose: &P)
    ensures { LawfulRunsAreLegal (P.lawful_state _purpose.now) }
{}

/// Calls by name are those by key but for the keys, and they are the same calls where a map holds only the
/// keys below its capacity.
pub fn names_change_keys_law<K: KeyRule>()
    ensures { NamesChangeKeys K.passes }
{}

/// Allowed records stay allowed with the names of their keys, where with each record those are allowed that
/// are the same but for keys.
pub fn renamed_stay_allowed_law<P: Lawful, K: KeyRule>(_purpose: &P)
    ensures { RenamedStayAllowed (P.allowed _purpose.now) K.passes }
{}

/// The laws at a purpose that is free, and at maps that hold the keys below their capacities.
pub fn free_purpose_law()
    ensures merged { MergedIsRunning (λ s. Unit {0}) }
    ensures legal { RunningIsLegal (λ s. Unit {0}) }
    ensures lawful { RunningStaysLawful (λ s. Unit {0}) }
    ensures allowed { AllowedRunsLawfully (λ s. Unit {0}) (λ ds. Unit {0}) }
    ensures runs { LawfulRunsAreLegal (λ s. Unit {0}) }
    ensures keys { NamesChangeKeys BelowCapacity }
    ensures renamed { RenamedStayAllowed (λ ds. Unit {0}) BelowCapacity }
{
    let free = Free;
    merged_is_running_law(&free);
    running_is_legal_law(&free);
    running_stays_lawful_law(&free);
    allowed_runs_lawfully_law(&free);
    lawful_runs_are_legal_law(&free);
    names_change_keys_law::<Brand>();
    renamed_stay_allowed_law::<Free, Brand>(&free);
}
