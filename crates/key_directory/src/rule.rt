//! The rule that holds between any two steps.
use crate::key_test::KeyTest;
use crate::layout::Layout;
use crate::view::View;
use atomic_table::{Seat, Shared, TableRule};
use std::marker::PhantomData;

pub struct Ruled<K> {
    test: PhantomData<K>,
}

impl<K: KeyTest> TableRule<(), View, Layout> for Ruled<K> {
    ghost use Rattle.key_directory.specs.Words.{capacities_of};
    ghost use Rattle.key_directory.specs.Rule.{Rule, newcomer};

    ghost holds = { λ layout. Rule K.passes (capacities_of layout.regions.items) layout.callers };

    ghost first = { λ layout. newcomer (capacities_of layout.regions.items) layout.callers };
}

pub type Words<K> = Shared<(), View, Layout, Ruled<K>>;

pub type Place = Seat<(), View>;
