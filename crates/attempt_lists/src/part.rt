//! The additions to one part that wait for the commit.
ghost use Rattle.std.specs.Prelude.{◌≡◌, ℕ, ◌+◌, ◌<◌, ◌≤◌, [], ◌∷◌, ◌++◌, length, slice_index, OnErr, OnOk, MatchOption};

use std::alloc::{AllocError, Global};
use std::marker::Model;

// The additions to one part. The first ones are consumed, and a mark remembers how many there were of both.
#[derive(Drop)]
pub(crate) struct Part {
    part: u32,
    values: Vec<u64>,
    consumed: usize,
    marked: usize,
    marked_consumed: usize,
}

impl Model for Part {
    ghost use Rattle.std.specs.Prelude.{◌≤◌, take, drop, length};
    ghost use Rattle.attempt_lists.specs.Parts.{Waiting};

    ghost Value = { Waiting };

    ghost view = { λ a. record { part = a.part; waiting = drop a.consumed a.values.items; marked = drop a.marked_consumed (take a.marked a.values.items) } };

    ghost invariant = { λ a. (a.consumed ≤ length a.values.items) × (a.marked ≤ length a.values.items) × (a.marked_consumed ≤ a.marked) };
}

impl Part {
    pub(crate) fn new(alloc: Global, part: u32) -> Self
        ensures part { result.part ≡ part }
        ensures waiting { result.waiting ≡ [] }
        ensures marked { result.marked ≡ [] }
    {
        Self {
            part,
            values: Vec::new(alloc),
            consumed: 0,
            marked: 0,
            marked_consumed: 0,
        }
    }

    pub(crate) fn part(&self) -> u32
        ensures { result ≡ self.now.part }
    {
        self.part
    }

    // How many additions wait.
    pub(crate) fn waiting(&self) -> usize
        ensures { result ≡ length self.now.waiting }
    {
        self.values.len() - self.consumed
    }

    pub(crate) fn at(&self, index: usize) -> u64
        requires { index < length self.now.waiting }
        ensures { result ≡ slice_index self.now.waiting index }
    {
        self.values[self.consumed + index]
    }

    pub(crate) fn push(&mut self, value: u64) -> Result<(), AllocError>
        ensures ok { OnOk result (self.new ≡ record self.old { waiting = self.old.waiting ++ value ∷ [] }) }
        ensures err { OnErr result (self.new ≡ self.old) }
    {
        self.values.push(value)?;
        Ok(())
    }

    pub(crate) fn consume(&mut self) -> Option<u64>
        ensures cases { MatchOption result ((self.old.waiting ≡ []) × (self.new ≡ self.old)) (λ value. self.old ≡ record self.new { waiting = value ∷ self.new.waiting }) }
    {
        if self.consumed == self.values.len() {
            return None;
        }
        let value = self.values[self.consumed];
        self.consumed += 1;
        Some(value)
    }

    pub(crate) fn mark(&mut self)
        ensures { self.new ≡ record self.old { marked = self.old.waiting } }
    {
        self.marked = self.values.len();
        self.marked_consumed = self.consumed;
    }

    pub(crate) fn back_to_mark(&mut self)
        ensures { self.new ≡ record self.old { waiting = self.old.marked } }
    {
        self.values.truncate(self.marked);
        self.consumed = self.marked_consumed;
    }

    // Nothing waits and nothing is marked.
    pub(crate) fn clear(&mut self)
        ensures { self.new ≡ record self.old { waiting = []; marked = [] } }
    {
        self.values.clear();
        self.consumed = 0;
        self.marked = 0;
        self.marked_consumed = 0;
    }
}
