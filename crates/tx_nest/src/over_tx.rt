//! An attempt over cells opens children.
ghost use Rattle.std.specs.Prelude.{◌≡◌, ℕ, ◌≤◌, List};

use crate::attempt::Attempt;
use cell_table::{CellTable, Meaning};
use std::alloc::AllocError;
use tx_core::{Stop, Tx};

/// What a child takes it takes of its attempt, so that no child is refused.
impl<'a, M: Meaning> Attempt for Tx<'a, M> {
    ghost use Rattle.cell_table.specs.Pass.{IsSole};
    ghost use Rattle.cell_table.specs.Steps.{Grows};
    ghost use Rattle.tx_core.specs.Facts.{grows_trans};
    ghost use Rattle.tx_nest.specs.OverTx.{Content, Fixed, view_of, HasMark, Vouches};
    ghost use Rattle.tx_nest.specs.OverTxLaws.{notes_of, waits_of, sole_of, grows_all, vouches_on};

    type Call = M::Done;

    type Over = CellTable<M>;

    ghost Fixed = { Fixed M.Done };

    ghost Content = { Content M.Done };

    ghost view = { λ a. view_of a };

    ghost has_mark = { λ a. HasMark a };

    ghost sole = { λ a. IsSole a.pass };

    ghost vouches = { λ a c place. Vouches a c place };

    ghost grows = { λ a b. Grows a.pass.view b.pass.view };

    ghost refused = { λ a. ⊥ };

    fn child_begin(&mut self) -> Result<(), AllocError> {
        self.vouched_law();
        self.mark();
        Ok(())
    }

    fn child_commit(&mut self) {
        self.unmark();
    }

    fn child_abort(&mut self) -> Result<(), Stop> {
        self.vouched_law();
        self.back_to_mark();
        self.raise()
    }

    fn caller_number(&self) -> u32 {
        self.caller()
    }

    ghost calls_of = { notes_of };

    ghost pending_of = { waits_of };

    ghost sole_of = { sole_of };

    ghost grows_all = { λ a. grows_all a.pass.view };

    ghost grows_then = { λ a b c first second. grows_trans a.pass.view b.pass.view c.pass.view first second };

    ghost vouches_on = { vouches_on };
}
