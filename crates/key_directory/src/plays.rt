//! What each step tells.
use crate::key_test::KeyTest;
use crate::view::View;
use atomic_table::{Join, Play, Split};
use std::marker::{Brand, PhantomData};

/// The claim that a step is about. Each call picks it.
pub trait Sought {
    ghost use Rattle.key_directory.specs.declared.view.Claim.{Claim};

    ghost claim: { Claim };
}

impl Sought for Brand {
    ghost claim = { record { region = 0; key = 0; position = 0 } };
}

pub struct TellLoad<K, N> {
    about: PhantomData<(K, N)>,
}

impl<K: KeyTest, N: Sought> Play<(), View> for TellLoad<K, N> {
    ghost use Rattle.key_directory.specs.Moves.{load_told};

    ghost then = { load_told K.passes N.claim };
}

pub struct TellExchange<K, N> {
    about: PhantomData<(K, N)>,
}

impl<K: KeyTest, N: Sought> Play<(), View> for TellExchange<K, N> {
    ghost use Rattle.key_directory.specs.Moves.{exchange_told};

    ghost then = { exchange_told K.passes N.claim };
}

pub struct TellMeeting<K> {
    test: PhantomData<K>,
}

impl<K: KeyTest> Play<(), View> for TellMeeting<K> {
    ghost use Rattle.key_directory.specs.Moves.{meeting_told};

    ghost then = { meeting_told K.passes };
}

/// How many callers go. Each call picks it.
pub trait Moved {
    ghost use Rattle.std.specs.Prelude.{ℕ};

    ghost callers: { ℕ };
}

impl Moved for Brand {
    ghost callers = { 0 };
}

pub struct CutBy<N> {
    callers: PhantomData<N>,
}

impl<N: Moved> Split<View> for CutBy<N> {
    ghost use Rattle.key_directory.specs.Moves.{kept_part, moved_part};

    ghost left = { kept_part N.callers };

    ghost right = { moved_part N.callers };
}

pub struct Rejoin;

impl Join<View> for Rejoin {
    ghost use Rattle.key_directory.specs.Moves.{both_parts, spent_part};

    ghost both = { both_parts };

    ghost spent = { spent_part };
}
