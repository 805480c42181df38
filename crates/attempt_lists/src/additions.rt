//! What an attempt adds to parts of the structures when it commits.
ghost use Rattle.std.specs.Prelude.{◌≡◌, ℕ, ◌+◌, ◌<◌, ◌≤◌, [], ◌∷◌, ◌++◌, length, slice_index, map, position, nat_eq, IsTrue, ◌↔◌, OnOk, OnErr, MatchOption};
ghost use Rattle.attempt_lists.specs.Parts.{waiting_of, marked_of, ChangesOnly, marks, restores, clears};

use crate::part::Part;
use std::alloc::{AllocError, Global};
use std::marker::Model;

/// Additions that wait for the commit, by part, each part's in the order in which they came.
///
/// They are consumed from the front. A mark remembers what waits, and `back_to_mark` restores it, consumed additions
/// too. A part is found in a time that grows with the number of parts that were added to.
#[derive(Drop)]
pub struct Additions {
    parts: Vec<Part>,
}

impl Model for Additions {
    ghost use Rattle.std.specs.Prelude.{List};
    ghost use Rattle.attempt_lists.specs.Parts.{Waiting};

    ghost Value = { List Waiting };

    ghost view = { λ a. a.parts.items };
}

impl Additions {
    /// No additions, and none at the mark. Takes no memory.
    pub fn new(alloc: Global) -> Self
        ensures { result ≡ [] }
    {
        Self {
            parts: Vec::new(alloc),
        }
    }

    /// Adds a value to a part.
    pub fn later(&mut self, alloc: Global, part: u32, value: u64) -> Result<(), AllocError>
        ensures ok { OnOk result (ChangesOnly self.old self.new part (waiting_of self.old part ++ value ∷ [])) }
        ensures err { OnErr result (self.new ≡ self.old) }
    {
        match self.place(part) {
            Some(place) => {
                self.parts[place].push(value)?;
                Ok(())
            }
            None => {
                let mut added = Part::new(alloc, part);
                added.push(value)?;
                self.parts.push(added)?;
                Ok(())
            }
        }
    }

    /// How many additions to a part wait.
    pub fn pending(&self, part: u32) -> u64
        ensures { result ≡ length (waiting_of self.now part) }
    {
        match self.place(part) {
            Some(place) => self.parts[place].waiting() as u64,
            None => 0,
        }
    }

    /// Whether no addition waits.
    pub fn is_empty(&self) -> bool
        ensures { IsTrue result ↔ ((part : ℕ) → waiting_of self.now part ≡ []) }
    {
        for p in &self.parts {
            if self.pending(p.part()) > 0 {
                return false;
            }
        }
        true
    }

    /// The i-th addition to a part among those that wait.
    pub fn pending_at(&self, part: u32, i: u64) -> u64
        requires { i < length (waiting_of self.now part) }
        ensures { result ≡ slice_index (waiting_of self.now part) i }
    {
        let Some(place) = self.place(part) else {
            unreachable!()
        };
        self.parts[place].at(i as usize)
    }

    /// Consumes the first addition to a part that waits. `None` comes exactly where none waits.
    pub fn take_later(&mut self, part: u32) -> Option<u64>
        ensures { MatchOption result ((waiting_of self.old part ≡ []) × (self.new ≡ self.old)) (λ value. (waiting_of self.old part ≡ value ∷ waiting_of self.new part) × ChangesOnly self.old self.new part (waiting_of self.new part)) }
    {
        match self.place(part) {
            Some(place) => self.parts[place].consume(),
            None => None,
        }
    }

    /// Marks what waits. Takes no memory.
    pub fn mark(&mut self)
        ensures waiting { (part : ℕ) → waiting_of self.new part ≡ waiting_of self.old part }
        ensures marked { (part : ℕ) → marked_of self.new part ≡ waiting_of self.old part }
    {
        mark_all(&mut self.parts);
    }

    /// Lets what was marked wait, and nothing else. Takes no memory.
    pub fn back_to_mark(&mut self)
        ensures waiting { (part : ℕ) → waiting_of self.new part ≡ marked_of self.old part }
        ensures marked { (part : ℕ) → marked_of self.new part ≡ marked_of self.old part }
    {
        restore_all(&mut self.parts);
    }

    /// Lets nothing wait and nothing be marked, and keeps the room of each part. Takes no memory.
    pub fn clear(&mut self)
        ensures waiting { (part : ℕ) → waiting_of self.new part ≡ [] }
        ensures marked { (part : ℕ) → marked_of self.new part ≡ [] }
    {
        clear_all(&mut self.parts);
    }

    // Where the part is.
    fn place(&self, part: u32) -> Option<usize>
        ensures { result ≡ position (λ p. nat_eq p.part part) self.now }
    {
        self.parts.iter().position(|p| p.part() == part)
    }
}

fn mark_all(parts: &mut [Part])
    ensures { parts.new ≡ map marks parts.old }
{
    for part in parts.iter_mut() {
        part.mark();
    }
}

fn restore_all(parts: &mut [Part])
    ensures { parts.new ≡ map restores parts.old }
{
    for part in parts.iter_mut() {
        part.back_to_mark();
    }
}

fn clear_all(parts: &mut [Part])
    ensures { parts.new ≡ map clears parts.old }
{
    for part in parts.iter_mut() {
        part.clear();
    }
}
