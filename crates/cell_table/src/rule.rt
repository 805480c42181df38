//! The rule of a table, and what it was opened with.
use crate::meaning::Meaning;
use crate::view::View;
use atomic_table::TableRule;
use std::alloc::Global;
use std::marker::PhantomData;
use std::snapshot::Snapshot;

/// What a table is told once. The snapshots are for proofs alone and have no bytes.
#[derive(Drop)]
pub struct About<M> {
    pub meaning: Snapshot<M>,
    /// The words at the opening.
    pub words: Snapshot<Vec<u64, Global>>,
    pub callers: u32,
}

pub struct Ruled<M> {
    meaning: PhantomData<M>,
}

impl<M: Meaning> TableRule<(), View<M, M::Done>, About<M>> for Ruled<M> {
    ghost use Rattle.cell_table.specs.Rule.{Rule, first_view, values_in};

    ghost holds = { λ about. Rule M.lawful M.explains about.meaning.value (values_in about.words.value.items) about.callers };

    ghost first = { λ about. first_view about.meaning.value (values_in about.words.value.items) about.callers };
}
