//! What a child needs of its attempt, and what it does.
ghost use Rattle.std.specs.Prelude.{◌≡◌, ℕ, ◌⊎◌, List, IsOk, IfOk, IfErr, OnOk, OnErr};
ghost use Rattle.tx_core.specs.declared.stop.Stop.TheVariants.{Memory};
ghost use Rattle.tx_core.specs.declared.stop.TxState.TheVariants.{Running, Child};
ghost use Rattle.tx_nest.specs.Attempts.{AttemptView, MayOpen, IsInChild, HasChild, IsSame, HasSame, IsOpened, IsDropped, IsRaised, IsRefused, StaysInChild, HasAdded, IsBodyStop};

use std::alloc::AllocError;
use tx_core::Stop;

/// An attempt that may open a child.
pub trait Attempt {
    type Call;

    type Over;

    ghost Fixed: { Type 0 };

    ghost Content: { Type 0 };

    ghost view: { Self → AttemptView Self.Over Fixed Content Self.Call };

    // It has a mark, which counts no more than it has.
    ghost has_mark: { Self → Type 0 };

    // It holds every caller number: no other caller stops it.
    ghost sole: { Self → Type 0 };

    // What was observed in this content stands at this place of the history.
    ghost vouches: { Self → Content → ℕ → Type 0 };

    // The second knows of the history what the first knew.
    ghost grows: { Self → Self → Type 0 };

    // It was refused memory for a child.
    ghost refused: { Self → Type 0 };

    /// Opens a child: what the attempt has now is marked. After want of memory the attempt is unchanged.
    fn child_begin(&mut self) -> Result<(), AllocError>
        requires running { MayOpen (view self.old) }
        ensures same { IsSame (view self.old) (view self.new) }
        ensures grows { grows self.old self.new }
        ensures opened { OnOk result (IsOpened (view self.old) (view self.new) × has_mark self.new) }
        ensures memory { OnErr result ((self.new ≡ self.old) × refused self.new) };

    /// Lets all that the child did belong to the attempt.
    fn child_commit(&mut self)
        requires child { IsInChild (view self.old) }
        ensures same { IsSame (view self.old) (view self.new) }
        ensures grows { grows self.old self.new }
        ensures merged { ((view self.new).state ≡ Running) × HasSame (view self.old) (view self.new) };

    /// Drops all that the child did, whether it was stopped or not, loads the clock and validates what the parent observed.
    ///
    /// Ok: the version is the word of that load. After a stop the attempt is stopped, and its version is as before.
    fn child_abort(&mut self) -> Result<(), Stop>
        requires child { HasChild (view self.old) }
        requires marked { has_mark self.old }
        ensures same { IsSame (view self.old) (view self.new) }
        ensures grows { grows self.old self.new }
        ensures dropped { IsDropped (view self.old) (view self.new) }
        ensures ok { OnOk result (IsRaised (view self.old) (view self.new)) }
        ensures err { IfErr result (IsRefused (view self.old) (view self.new)) }
        ensures sole { sole self.old → IsOk result }
        ensures sight { vouches self.new (view self.old).content (view self.old).version };

    /// The number under which it acts.
    fn caller_number(&self) -> u32;

    // What the content determines.
    ghost calls_of: { (a b : Self) → (view a).content ≡ (view b).content → (view a).calls ≡ (view b).calls };

    ghost pending_of: { (a b : Self) → (view a).content ≡ (view b).content → (view a).pending ≡ (view b).pending };

    // What no child changes determines whether it holds every caller number.
    ghost sole_of: { (a b : Self) → (view a).fixed ≡ (view b).fixed → sole b → sole a };

    // What is known is never forgotten, and what is vouched for stays so.
    ghost grows_all: { (a : Self) → grows a a };

    ghost grows_then: { (a b c : Self) → grows a b → grows b c → grows a c };

    ghost vouches_on: { (a b : Self) (c : Content) (place : ℕ) → grows a b → vouches a c place → vouches b c place };
}

/// What a child does. A body doesn't end the child itself, and what a run answers holds of the calls that it adds.
pub trait ChildBody<A: Attempt> {
    type Out;

    // When it may run: over this table or store, and after these calls and waiting values.
    ghost can_run: { Self → A.Over → List A.Call → (ℕ → List ℕ) → Type 0 };

    // The calls that a run adds, and what it answers.
    ghost runs: { Self → List A.Call → Self.Out → Type 0 };

    // Its last run answered want of memory.
    ghost ran_out: { Self → Type 0 };

    /// Runs in the open child. A Held or Newer that it answers was found by a call of this child; its Memory is free.
    fn body(&mut self, tx: &mut A) -> Result<Self::Out, Stop>
        requires child { IsInChild (A.view tx.old) }
        requires marked { A.has_mark tx.old }
        requires can_run { can_run self.old (A.view tx.old).over (A.view tx.old).calls (A.view tx.old).pending }
        ensures stays { StaysInChild (A.view tx.old) (A.view tx.new) × A.has_mark tx.new }
        ensures grows { A.grows tx.old tx.new }
        ensures ok { IfOk result (λ out. ((A.view tx.new).state ≡ Child) × HasAdded (λ added. runs self.old added out) (A.view tx.old) (A.view tx.new)) }
        ensures err { IfErr result (IsBodyStop (A.view tx.old) (A.view tx.new)) }
        ensures memory { IfErr result (λ stop. stop ≡ Memory → ran_out self.new) }
        ensures sole { IfErr result (λ stop. A.sole tx.old → stop ≡ Memory) }
        ensures again { can_run self.new (A.view tx.old).over (A.view tx.old).calls (A.view tx.old).pending }
        ensures same_relation { (added : List A.Call) (out : Self.Out) → runs self.new added out → runs self.old added out };
}
