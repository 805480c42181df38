//! What an attempt has observed.
ghost use Rattle.std.specs.Prelude.{◌≡◌, ℕ, ◌+◌, ◌<◌, ◌≤◌, [], ◌∷◌, ◌++◌, length, take, OnOk, OnErr, MatchOption};
ghost use Rattle.attempt_lists.specs.Cells.{word_at, NoCellTwice};

use crate::cell_list::CellList;
use std::alloc::{AllocError, Global};
use std::marker::Model;

/// One observation: the value of a cell at one of its versions.
#[derive(Clone, Copy, Debug, PartialEq, Eq)]
pub struct Observation {
    /// The cell.
    pub cell: u32,
    /// The value that the cell had.
    pub value: u64,
    /// The version that the cell had.
    pub version: u64,
}

/// The observations of an attempt in the order in which they were made, no cell twice.
///
/// A cell's observation is found in constant time. Places are reserved by number, and a call that fills one takes no
/// memory.
#[derive(Drop)]
pub struct ReadSet {
    observations: CellList,
    versions: Vec<u64>,
}

impl Model for ReadSet {
    ghost use Rattle.std.specs.Prelude.{◌≡◌, ◌+◌, ◌≤◌, length};
    ghost use Rattle.std.specs.Vec.{vec_len, vec_capacity};
    ghost use Rattle.attempt_lists.specs.Observed.{Observed};

    ghost Value = { Observed };

    ghost view = { λ a. record { observations = a.observations.entries; versions = a.versions.items; reserved = a.observations.reserved } };

    ghost invariant = { λ a. (vec_len a.versions ≡ length a.observations.entries) × (vec_len a.versions + a.observations.reserved ≤ vec_capacity a.versions) };
}

impl ReadSet {
    ghost use Rattle.attempt_lists.specs.Observed.{IsObservationAt};

    /// Nothing observed, and no place reserved. Takes no memory.
    pub fn new(alloc: Global) -> Self
        ensures observations { result.observations ≡ [] }
        ensures versions { result.versions ≡ [] }
        ensures reserved { result.reserved ≡ 0 }
    {
        Self {
            observations: CellList::new(alloc),
            versions: Vec::new(alloc),
        }
    }

    /// How many cells were observed.
    pub fn len(&self) -> usize
        ensures observations { result ≡ length self.now.observations }
        ensures versions { result ≡ length self.now.versions }
    {
        self.observations.len()
    }

    /// The observation of a cell, or `None` where the cell wasn't observed.
    pub fn get(&self, cell: u32) -> Option<Observation>
        ensures { MatchOption result (word_at self.now.observations cell ≡ None) (λ o. (o.cell ≡ cell) × (word_at self.now.observations cell ≡ Some o.value) × (i : ℕ) × IsObservationAt self.now i o) }
    {
        match self.observations.place(cell) {
            Some(place) => Some(self.at(place)),
            None => None,
        }
    }

    /// The observation at an index, in the order in which they were made.
    pub fn at(&self, index: usize) -> Observation
        requires { index < length self.now.observations }
        ensures { IsObservationAt self.now index result }
    {
        let (cell, value) = self.observations.as_slice()[index];
        let version = self.versions[index];
        Observation {
            cell,
            value,
            version,
        }
    }

    /// The cells with their values, in the order in which they were observed.
    pub fn as_slice(&self) -> &[(u32, u64)]
        ensures observations { result.now ≡ self.now.observations }
        ensures once { NoCellTwice self.now.observations }
    {
        self.observations.as_slice()
    }

    /// No cell is ever observed twice, and each observation has its version.
    pub fn once_law(&self)
        ensures once { NoCellTwice self.now.observations }
        ensures versions { length self.now.versions ≡ length self.now.observations }
    {
        self.as_slice();
        self.len();
    }

    /// Reserves places for `more` observations beside those reserved already.
    pub fn reserve(&mut self, more: usize) -> Result<(), AllocError>
        ensures observations { self.new.observations ≡ self.old.observations }
        ensures versions { self.new.versions ≡ self.old.versions }
        ensures ok { OnOk result (self.new.reserved ≡ self.old.reserved + more) }
        ensures err { OnErr result (self.new.reserved ≡ self.old.reserved) }
    {
        let Some(places) = self.observations.reserved().checked_add(more) else {
            return Err(AllocError);
        };
        self.versions.reserve(places)?;
        self.observations.reserve(more)
    }

    /// Adds the observation of a cell that wasn't observed. The reserved places stay reserved.
    pub fn push(&mut self, observation: Observation) -> Result<(), AllocError>
        requires absent { word_at self.old.observations observation.cell ≡ None }
        ensures ok { OnOk result (self.new ≡ record self.old { observations = self.old.observations ++ (observation.cell, observation.value) ∷ []; versions = self.old.versions ++ observation.version ∷ [] }) }
        ensures err { OnErr result (self.new ≡ self.old) }
    {
        self.reserve(1)?;
        self.push_reserved(observation);
        Ok(())
    }

    /// Adds the observation of a cell that wasn't observed, at a reserved place. Takes no memory.
    pub fn push_reserved(&mut self, observation: Observation)
        requires absent { word_at self.old.observations observation.cell ≡ None }
        requires room { 0 < self.old.reserved }
        ensures observations { self.new.observations ≡ self.old.observations ++ (observation.cell, observation.value) ∷ [] }
        ensures versions { self.new.versions ≡ self.old.versions ++ observation.version ∷ [] }
        ensures reserved { self.new.reserved + 1 ≡ self.old.reserved }
    {
        self.observations
            .push_reserved(observation.cell, observation.value);
        self.versions.push_reserved(observation.version);
    }

    /// Drops all observations but the first `len`. Takes no memory.
    pub fn truncate(&mut self, len: usize)
        ensures observations { self.new.observations ≡ take len self.old.observations }
        ensures versions { self.new.versions ≡ take len self.old.versions }
        ensures reserved { self.new.reserved ≡ self.old.reserved }
    {
        self.observations.truncate(len);
        self.versions.truncate(len);
    }

    /// Drops all observations and takes back what was reserved, and keeps the room for the next ones. Takes no memory.
    pub fn clear(&mut self)
        ensures observations { self.new.observations ≡ [] }
        ensures versions { self.new.versions ≡ [] }
        ensures reserved { self.new.reserved ≡ 0 }
    {
        self.observations.clear();
        self.versions.clear();
    }

    /// The cells with their values, in the order in which they were observed.
    pub fn into_observations(self) -> Vec<(u32, u64)>
        ensures observations { result.items ≡ self.observations }
        ensures once { NoCellTwice self.observations }
    {
        self.observations.into_entries()
    }
}
