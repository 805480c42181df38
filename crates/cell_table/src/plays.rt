//! What each kind of step tells the seat that makes it.
use crate::meaning::Meaning;
use crate::view::View;
use atomic_table::{Join, Play, Split};
use std::marker::{Brand, PhantomData};

pub(crate) struct ClockLoad;

impl<M: Meaning> Play<(), View<M, M::Done>> for ClockLoad {
    ghost use Rattle.cell_table.specs.Told.{clock_told};

    ghost then = { clock_told M.lawful M.explains };
}

pub(crate) struct LockLoad;

impl<M: Meaning> Play<(), View<M, M::Done>> for LockLoad {
    ghost use Rattle.cell_table.specs.Told.{lock_told};

    ghost then = { lock_told M.lawful M.explains };
}

pub(crate) struct ValueLoad;

impl<M: Meaning> Play<(), View<M, M::Done>> for ValueLoad {
    ghost use Rattle.cell_table.specs.Told.{value_told};

    ghost then = { value_told M.lawful M.explains };
}

pub(crate) struct LockExchange;

impl<M: Meaning> Play<(), View<M, M::Done>> for LockExchange {
    ghost use Rattle.cell_table.specs.Told.{take_told};

    ghost then = { take_told M.lawful M.explains };
}

pub(crate) struct ClockAdd;

impl<M: Meaning> Play<(), View<M, M::Done>> for ClockAdd {
    ghost use Rattle.cell_table.specs.Told.{draw_told};

    ghost then = { draw_told M.lawful M.explains };
}

pub(crate) struct LockStore;

impl<M: Meaning> Play<(), View<M, M::Done>> for LockStore {
    ghost use Rattle.cell_table.specs.Told.{give_told};

    ghost then = { give_told M.lawful M.explains };
}

/// The record that a store decides. Each call picks it.
pub(crate) trait PlannedRecord<D> {
    ghost use Rattle.cell_table.specs.declared.view.Record.{Record};

    ghost plan: { Record D };
}

impl<D> PlannedRecord<D> for Brand {
    ghost use Rattle.std.specs.Prelude.{[]};

    ghost plan = { record { observations = []; writes = []; dones = [] } };
}

pub(crate) struct FirstValueStore<N> {
    plan: PhantomData<N>,
}

impl<M: Meaning, N: PlannedRecord<M::Done>> Play<(), View<M, M::Done>> for FirstValueStore<N> {
    ghost use Rattle.cell_table.specs.Told.{first_told};

    ghost then = { first_told M.lawful M.explains N.plan };
}

pub(crate) struct NextValueStore;

impl<M: Meaning> Play<(), View<M, M::Done>> for NextValueStore {
    ghost use Rattle.cell_table.specs.Told.{next_told};

    ghost then = { next_told M.lawful M.explains };
}

/// How many callers stay and how many draws go. Each call picks it.
pub(crate) trait Share {
    ghost use Rattle.std.specs.Prelude.{ℕ};

    ghost callers: { ℕ };

    ghost draws: { ℕ };
}

impl Share for Brand {
    ghost callers = { 0 };

    ghost draws = { 0 };
}

pub(crate) struct SeatSplit<N> {
    share: PhantomData<N>,
}

impl<M: Meaning, N: Share> Split<View<M, M::Done>> for SeatSplit<N> {
    ghost use Rattle.cell_table.specs.Steps.{kept_part, new_part};

    ghost left = { kept_part N.callers N.draws };

    ghost right = { new_part N.callers N.draws };
}

pub(crate) struct SeatJoin;

impl<M: Meaning> Join<View<M, M::Done>> for SeatJoin {
    ghost use Rattle.cell_table.specs.Steps.{both_parts, spent_part};

    ghost both = { both_parts };

    ghost spent = { spent_part };
}
