//! The right to claim.
ghost use Rattle.std.specs.Prelude.{◌≡◌, ℕ, ◌+◌, ◌-◌, ◌<◌, ◌≤◌, ◌↔◌, [], ◌∷◌, ◌++◌, Some, IsTrue, IsOk, IfOk};
ghost use Rattle.key_directory.specs.declared.view.Step.TheVariants.{Meeting};
ghost use Rattle.key_directory.specs.Directory.{AreOneToOne, Claimed, position_in};
ghost use Rattle.key_directory.specs.Layouts.{pass_view, IsPass};

use crate::directory::Directory;
use crate::key_test::KeyTest;
use crate::rule::Place;
use crate::seats::{rejoin, split_off};
use std::alloc::{AllocError, Global};
use std::marker::{Brand, Model, PhantomData};

/// A pass of one directory, for one or more of its callers. A thread claims with it.
/// A pass that's dropped takes its callers with it, so no other pass of that directory has all of them any more.
#[derive(Drop)]
pub struct KeyPass<K: KeyTest> {
    pub(crate) seat: Place,
    callers: u32,
    room: u32,
    test: PhantomData<K>,
}

impl<K: KeyTest> Model for KeyPass<K> {
    ghost use Rattle.key_directory.specs.Directory.{PassView};
    ghost use Rattle.key_directory.specs.Layouts.{pass_view, IsPass};

    ghost Value = { PassView };

    ghost view = { λ p. pass_view p.seat.table_id p.seat.me.0 p.room };

    ghost invariant = { λ p. IsPass K.passes p.seat.me p.callers };
}

impl<K: KeyTest> KeyPass<K> {
    pub(crate) fn new(seat: Place, callers: u32, room: u32) -> KeyPass<K>
        requires { IsPass K.passes seat.me callers }
        ensures { result ≡ pass_view seat.table_id seat.me.0 room }
    {
        KeyPass {
            seat,
            callers,
            room,
            test: PhantomData,
        }
    }

    pub(crate) fn into_seat(self) -> Place
        ensures seat { IsPass K.passes result.me self.callers }
        ensures view { pass_view result.table_id result.me.0 self.room ≡ self }
    {
        let KeyPass {
            seat,
            callers: _,
            room: _,
            test: _,
        } = self;
        seat
    }

    /// The number of callers that the pass stands for.
    pub fn callers_held(&self) -> u32
        ensures { result ≡ self.now.callers }
    {
        self.callers
    }

    /// The greatest number of callers that joins may bring the pass to.
    pub fn room(&self) -> u32
        ensures { result ≡ self.now.room }
    {
        self.room
    }

    /// Whether the pass stands for every caller of the directory.
    pub fn is_sole(&self, directory: &Directory<K>) -> bool
        requires { self.now.directory ≡ directory.now }
        ensures { IsTrue result ↔ (self.now.callers ≡ directory.now.callers) }
    {
        self.callers == directory.callers()
    }

    /// A new pass for n of the callers, which has made the same claims. It takes no memory as yet, so it always succeeds.
    pub fn split(
        &mut self,
        alloc: Global,
        directory: &Directory<K>,
        n: u32,
    ) -> Result<KeyPass<K>, AllocError>
        requires directory { self.old.directory ≡ directory.now }
        requires callers { (0 < n) × (n < self.old.callers) }
        ensures succeeds { IsOk result }
        ensures kept { self.new ≡ record self.old { callers = self.old.callers - n; trail = self.old.trail ++ Meeting ∷ [] } }
        ensures new_pass { IfOk result (λ pass. pass ≡ record self.old { callers = n; room = n; trail = self.old.trail ++ Meeting ∷ [] }) }
    {
        let _ = alloc;
        let seat = split_off::<K, Brand>(&directory.table.shared, &mut self.seat, n);
        self.callers -= n;
        Ok(KeyPass::new(seat, n, n))
    }

    /// Takes in the callers, claims and steps of another pass of the same directory. It loads word 0 twice.
    pub fn join(&mut self, directory: &Directory<K>, other: KeyPass<K>)
        requires directory { (self.old.directory ≡ directory.now) × (other.directory ≡ directory.now) }
        requires room { self.old.callers + other.callers ≤ self.old.room }
        ensures joined { self.new ≡ record self.old { callers = self.old.callers + other.callers; claims = self.old.claims ++ other.claims; trail = ((self.old.trail ++ other.trail) ++ Meeting ∷ []) ++ Meeting ∷ [] } }
    {
        let KeyPass {
            seat,
            callers,
            room: _,
            test: _,
        } = other;
        rejoin(&directory.table.shared, &mut self.seat, seat);
        self.callers += callers;
    }

    /// What the claims of a pass say together: in a region each key has one position, and each position one key.
    pub fn claims_stand_law(&self)
        ensures claims { AreOneToOne K.passes self.now.directory.capacities self.now.claims }
        ensures positions { (region key position : ℕ) → Claimed self.now.claims region key position ↔ (position_in self.now.claims region key ≡ Some position) }
        ensures callers { (0 < self.now.callers) × (self.now.callers ≤ self.now.directory.callers) }
    {
        let _ = &self.seat;
    }
}
