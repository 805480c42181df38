//! What an attempt adds to parts of the structures when it commits.
ghost use Rattle.std.specs.Prelude.{◌≡◌, ℕ, ◌+◌, ◌*◌, ◌^◌, ◌<◌, [], ◌∷◌, ◌++◌, true, false, length, slice_index, Some, None, IfSome, OnOk, OnErr, MatchOption};

use crate::gives::reserve_more_locks;
use crate::spare::Spare;
use crate::tx::Tx;
use cell_table::Meaning;
use std::alloc::AllocError;

impl Spare {
    ghost use Rattle.tx_core.specs.Additions.{more_spare};

    // Two more places of each kind.
    fn two_more(self) -> Option<Spare>
        ensures more { IfSome result (λ spare. spare ≡ more_spare 2 self) }
        ensures few { IfSome result (λ spare. (spare.locks < 2 ^ 32) × (spare.observations < 2 ^ 32) × (spare.writes < 2 ^ 32)) }
    {
        Some(Spare {
            locks: self.locks.checked_add(2)?,
            observations: self.observations.checked_add(2)?,
            writes: self.writes.checked_add(2)?,
        })
    }
}

impl<'a, M: Meaning> Tx<'a, M> {
    ghost use Rattle.attempt_lists.specs.Parts.{waiting_of, ChangesOnly};
    ghost use Rattle.tx_core.specs.Calls.{IsOpen, MayCall, stopped_from, memory_in, StepsAt, LooksAt};
    ghost use Rattle.tx_core.specs.Additions.{more_spare};

    /// Adds a value to a part when the attempt commits. What placing it then needs is reserved now: two held cells, two
    /// observations and two writes.
    ///
    /// After want of memory the attempt is stopped, and nothing is added.
    pub fn later(&mut self, part: u32, value: u64) -> Result<(), AllocError>
        requires callable { MayCall self.old }
        ensures added { OnOk result (ChangesOnly self.old.additions self.new.additions part (waiting_of self.old.additions part ++ value ∷ [])) }
        ensures ok { OnOk result (self.new ≡ record self.old { pass = self.new.pass; additions = self.new.additions; spare = more_spare 2 self.old.spare }) }
        ensures stopped { OnErr result (self.new ≡ record self.old { pass = self.new.pass; state = stopped_from self.old.state }) }
        ensures pass { self.new.pass ≡ record self.old.pass { places = self.new.pass.places } }
        ensures looks { LooksAt (λ c. ⊥) 0 self.old self.new (memory_in result) }
    {
        match self.add_later(part, value) {
            Ok(()) => Ok(()),
            Err(memory) => {
                self.halt();
                Err(memory)
            }
        }
    }

    // Reserves the places of one more addition, and adds it. The state stays.
    fn add_later(&mut self, part: u32, value: u64) -> Result<(), AllocError>
        requires before_commit { self.old.committing ≡ false }
        ensures added { OnOk result (ChangesOnly self.old.additions self.new.additions part (waiting_of self.old.additions part ++ value ∷ [])) }
        ensures ok { OnOk result (self.new ≡ record self.old { pass = self.new.pass; additions = self.new.additions; spare = more_spare 2 self.old.spare }) }
        ensures refused { OnErr result (self.new ≡ record self.old { pass = self.new.pass }) }
        ensures pass { self.new.pass ≡ record self.old.pass { places = self.new.pass.places } }
    {
        let Some(spare) = self.spare.two_more() else {
            return Err(AllocError);
        };
        reserve_more_locks(&mut self.pass, &mut self.held, 2)?;
        self.reads.reserve(2)?;
        self.writes.reserve(2)?;
        let alloc = *self.notes.allocator();
        self.additions.later(alloc, part, value)?;
        self.spare = spare;
        Ok(())
    }

    /// How many additions to a part wait. Takes no memory.
    pub fn pending(&self, part: u32) -> u64
        ensures { result ≡ length (waiting_of self.now.additions part) }
    {
        self.additions.pending(part)
    }

    /// The i-th addition to a part among those that wait. Takes no memory.
    pub fn pending_at(&self, part: u32, i: u64) -> u64
        requires { i < length (waiting_of self.now.additions part) }
        ensures { result ≡ slice_index (waiting_of self.now.additions part) i }
    {
        self.additions.pending_at(part, i)
    }

    /// Consumes the first addition to a part that waits. `None` comes exactly where none waits. The places that are kept
    /// stay kept. Takes no memory.
    pub fn take_later(&mut self, part: u32) -> Option<u64>
        requires open_now { IsOpen self.old.state }
        ensures first { MatchOption result ((waiting_of self.old.additions part ≡ []) × (self.new ≡ self.old)) (λ value. (waiting_of self.old.additions part ≡ value ∷ waiting_of self.new.additions part) × ChangesOnly self.old.additions self.new.additions part (waiting_of self.new.additions part)) }
        ensures same { self.new ≡ record self.old { additions = self.new.additions } }
        ensures does { StepsAt (λ c. ⊥) 0 self.old self.new }
    {
        self.additions.take_later(part)
    }
}
