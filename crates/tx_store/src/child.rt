//! An attempt on a store opens children.
ghost use Rattle.std.specs.Prelude.{◌≡◌, ℕ};

use crate::store::Store;
use crate::tx::StoreTx;
use std::alloc::AllocError;
use store_meaning::{Noted, Purpose};
use tx_core::Stop;
use tx_nest::Attempt;

/// What a child takes it takes of its attempt, so that no child is refused.
impl<'a, P: Purpose> Attempt for StoreTx<'a, P> {
    ghost use Rattle.cell_table.specs.Pass.{IsSole};
    ghost use Rattle.tx_store.specs.Children.{Content, Fixed, view_of, HasMark, GrowsOn};
    ghost use Rattle.tx_store.specs.ChildLaws.{calls_of, pending_of, sole_of, grows_all, grows_then};
    ghost use Rattle.tx_store.specs.Sights.{SawIn, saw_on};

    type Call = Noted;

    type Over = Store<P>;

    ghost Fixed = { Fixed };

    ghost Content = { Content };

    ghost view = { λ t. view_of t };

    ghost has_mark = { λ t. HasMark t };

    ghost sole = { λ t. IsSole t.attempt.pass };

    ghost vouches = { λ t c place. SawIn P.lawful_state t c place };

    ghost grows = { λ a b. GrowsOn a b };

    ghost refused = { λ t. ⊥ };

    fn child_begin(&mut self) -> Result<(), AllocError> {
        self.tx.vouched_law();
        self.tx.mark();
        Ok(())
    }

    fn child_commit(&mut self) {
        self.tx.unmark();
    }

    fn child_abort(&mut self) -> Result<(), Stop> {
        self.tx.vouched_law();
        self.tx.pass_law();
        self.tx.back_to_mark();
        self.tx.raise()
    }

    fn caller_number(&self) -> u32 {
        self.tx.caller()
    }

    ghost calls_of = { calls_of };

    ghost pending_of = { pending_of };

    ghost sole_of = { sole_of };

    ghost grows_all = { grows_all };

    ghost grows_then = { grows_then };

    ghost vouches_on = { λ a b c place grows saw. saw_on P.lawful_state a b c place grows saw };
}
