//! A pass of a store.
ghost use Rattle.std.specs.Prelude.{◌≡◌, ◌+◌, ◌<◌, ◌≤◌, ◌↔◌, [], length, slice_index_or, IsTrue, IfOk, OnOk, OnErr};

use crate::store::Store;
use cell_table::{Entry, Pass};
use key_directory::KeyPass;
use std::alloc::{AllocError, Global};
use std::marker::Model;
use store_meaning::{Noted, Purpose, StoreMeaning};

/// The caller numbers under which its owner transacts, with their books and the positions of keys that they claimed.
#[derive(Drop)]
pub struct StorePass<P: Purpose> {
    pub(crate) pass: Pass<StoreMeaning<P>>,
    pub(crate) keys: KeyPass<P::Keys>,
}

impl<P: Purpose> Model for StorePass<P> {
    ghost use Rattle.serial_terms.specs.Renaming.{NamedDone};
    ghost use Rattle.store_meaning.specs.declared.meaning.StoreMeaning.{StoreMeaning as Means};
    ghost use Rattle.tx_store.specs.Stores.{PassView};

    ghost Value = { PassView (Means P P.Keys) };

    ghost view = { λ p. record { pass = p.pass; keys = p.keys } };
}

impl<P: Purpose> StorePass<P> {
    ghost use Rattle.cell_table.specs.Pass.{IsSole, acting};
    ghost use Rattle.cell_table.specs.Seats.{noted_all};
    ghost use Rattle.cell_table.specs.Steps.{IsIdle};
    ghost use Rattle.tx_store.specs.Known.{KnowsHistory};
    ghost use Rattle.tx_store.specs.Parting.{IsKeptPart, IsNewPart, IsJoined};
    ghost use Rattle.tx_store.specs.Stores.{IsPassOfStore};

    /// The number of caller numbers that it holds.
    pub fn callers_held(&self) -> u32
        ensures count { result ≡ length self.now.pass.books }
        ensures some { 0 < result }
    {
        self.pass.callers_held()
    }

    /// The least number held, under which the pass acts.
    pub fn caller(&self) -> u32
        ensures { result ≡ acting self.now.pass }
    {
        self.pass.caller()
    }

    /// The greatest place that it has seen: no record of its books is above it.
    pub fn seen(&self) -> u64
        ensures { result ≡ self.now.pass.seen }
    {
        self.pass.seen()
    }

    /// How many versions it may still draw, one for each commit that writes.
    pub fn draws_left(&self) -> u64
        ensures { result ≡ self.now.pass.view.draws }
    {
        self.pass.draws_left()
    }

    /// How many callers it can hold.
    pub fn room(&self) -> u32
        ensures { result ≡ self.now.pass.room }
    {
        self.pass.room()
    }

    /// The records of the held-th of its caller numbers, in ascending order, the oldest record first. The acting one is the 0th.
    pub fn records(&self, held: u32) -> &[Entry<Noted>]
        requires { held < length self.now.pass.books }
        ensures { noted_all result.now ≡ (slice_index_or self.now.pass.books held (record { caller = 0; entries = [] })).entries }
    {
        self.pass.entries(held)
    }

    /// Whether it holds every caller number of the store.
    pub fn is_sole(&self, store: &Store<P>) -> bool
        requires { IsPassOfStore store.now self.now }
        ensures { IsTrue result ↔ IsSole self.now.pass }
    {
        self.pass.is_sole(&store.table)
    }

    /// A new pass with the n greatest of the caller numbers held, with their books and their share of the draws. It has seen the
    /// same place, knows and claimed what this one did, and has room for n callers.
    ///
    /// After want of memory the pass is unchanged.
    pub fn split(
        &mut self,
        alloc: Global,
        store: &Store<P>,
        n: u32,
    ) -> Result<StorePass<P>, AllocError>
        requires of { IsPassOfStore store.now self.old }
        requires n { (0 < n) × (n < length self.old.pass.books) }
        requires idle { IsIdle self.old.pass.view }
        ensures of { IsPassOfStore store.now self.new }
        ensures kept { OnOk result (IsKeptPart self.old self.new n) }
        ensures new { IfOk result (λ other. IsPassOfStore store.now other × IsNewPart self.old other n) }
        ensures knows { IfOk result (λ other. KnowsHistory P.lawful_state P.allowed store.now.table.meaning other.pass) }
        ensures unchanged { OnErr result (self.new ≡ self.old) }
    {
        let pass = self.pass.split(alloc, &store.table, n)?;
        let Ok(keys) = self.keys.split(alloc, &store.directory, n) else {
            unreachable!()
        };
        let other = StorePass { pass, keys };
        other.history_law(store);
        Ok(other)
    }

    /// Takes in the caller numbers of another pass of the store, with their books, draws and claims, and what it knows.
    ///
    /// It has seen the later of the two places. It takes no memory, and the opening pass always has the room.
    pub fn join(&mut self, store: &Store<P>, other: StorePass<P>)
        requires of { IsPassOfStore store.now self.old × IsPassOfStore store.now other }
        requires idle { IsIdle self.old.pass.view × IsIdle other.pass.view }
        requires room { length self.old.pass.books + length other.pass.books ≤ self.old.pass.room }
        ensures of { IsPassOfStore store.now self.new }
        ensures joined { IsJoined self.old other self.new }
        ensures knows { KnowsHistory P.lawful_state P.allowed store.now.table.meaning self.new.pass }
    {
        let StorePass { pass, keys } = other;
        self.pass.join(&store.table, pass);
        self.keys.join(&store.directory, keys);
        self.history_law(store);
    }
}
