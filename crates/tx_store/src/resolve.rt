//! The placing of an attempt's additions at its commit.
ghost use Rattle.std.specs.Prelude.{◌≡◌, ℕ, ◌+◌, ◌*◌, ◌<◌, length, All, IfErr, OnOk};
ghost use Rattle.cell_table.specs.declared.view.Stage.TheVariants.{Open};
ghost use Rattle.cell_table.specs.Pass.{IsSole};
ghost use Rattle.serial_terms.specs.Ranges.{IsKept};
ghost use Rattle.store_layout.specs.Shapes.{cells_of};
ghost use Rattle.store_meaning.specs.Follows.{Follows, part_of_log};
ghost use Rattle.store_parts.specs.Parts.{progress};
ghost use Rattle.tx_core.specs.declared.stop.TxState.TheVariants.{Running};
ghost use Rattle.tx_core.specs.Additions.{HasSpare, HasTwoEach};
ghost use Rattle.tx_core.specs.Calls.{HoldsWrites, waiting};
ghost use Rattle.tx_core.specs.Sequences.{IsFullEnd};
ghost use Rattle.tx_store.specs.Attempts.{AreWaiting};
ghost use Rattle.tx_store.specs.Resolves.{Resolves, IsResolved, IsRefusedIn, parts_of};

use crate::parts::{log_of, queue_of};
use store_layout::CellPlan;
use store_meaning::laws::attempts_follow_law;
use store_meaning::{Purpose, StoreMeaning};
use store_parts::laws::{log_calls_law, queue_calls_law};
use tx_core::{ResolveEnd, Tx};

// Places what waits for a queue.
fn resolve_queue<P: Purpose>(
    tx: &mut Tx<'_, StoreMeaning<P>>,
    plan: &CellPlan,
    queue: u32,
) -> Result<(), ResolveEnd>
    requires running { tx.old.state ≡ Running }
    requires undrawn { tx.old.pass.view.stage ≡ Open }
    requires sized { length tx.old.table.opening ≡ cells_of plan.now }
    requires queue { queue < length plan.now.queues }
    requires kept { All IsKept (waiting queue tx.old) }
    requires spare { HasSpare tx.old.spare (2 * length (waiting queue tx.old)) }
    ensures resolves { Resolves plan.now queue tx.old tx.new result }
    ensures sole { IsSole tx.old.pass → IfErr result IsFullEnd }
{
    let part = queue_of(plan, queue);
    queue_calls_law(&part);
    match part.resolve(tx) {
        Ok(()) => {
            tx.laid_over_law();
            Ok(())
        }
        Err(end) => Err(end),
    }
}

// Places what waits for a log.
fn resolve_log<P: Purpose>(
    tx: &mut Tx<'_, StoreMeaning<P>>,
    plan: &CellPlan,
    log: u32,
) -> Result<(), ResolveEnd>
    requires running { tx.old.state ≡ Running }
    requires undrawn { tx.old.pass.view.stage ≡ Open }
    requires sized { length tx.old.table.opening ≡ cells_of plan.now }
    requires log { log < length plan.now.logs }
    requires kept { All IsKept (waiting (part_of_log plan.now log) tx.old) }
    requires spare { HasSpare tx.old.spare (2 * length (waiting (part_of_log plan.now log) tx.old)) }
    ensures resolves { Resolves plan.now (part_of_log plan.now log) tx.old tx.new result }
    ensures sole { IsSole tx.old.pass → IfErr result IsFullEnd }
{
    let part = log_of(plan, log);
    log_calls_law(&part);
    match part.resolve(tx) {
        Ok(()) => Ok(()),
        Err(end) => Err(end),
    }
}

// Places what waits for one part.
fn resolve_part<P: Purpose>(
    tx: &mut Tx<'_, StoreMeaning<P>>,
    plan: &CellPlan,
    part: u32,
) -> Result<(), ResolveEnd>
    requires running { tx.old.state ≡ Running }
    requires undrawn { tx.old.pass.view.stage ≡ Open }
    requires sized { length tx.old.table.opening ≡ cells_of plan.now }
    requires part { part < parts_of plan.now }
    requires kept { All IsKept (waiting part tx.old) }
    requires spare { HasSpare tx.old.spare (2 * length (waiting part tx.old)) }
    ensures resolves { Resolves plan.now part tx.old tx.new result }
    ensures sole { IsSole tx.old.pass → IfErr result IsFullEnd }
{
    let queues = plan.queues();
    if part < queues {
        return resolve_queue(tx, plan, part);
    }
    resolve_log(tx, plan, part - queues)
}

/// Places all that waits, one part after another in the order of their numbers, which is that of their cells.
pub(crate) fn resolve_all<P: Purpose>(
    tx: &mut Tx<'_, StoreMeaning<P>>,
    plan: &CellPlan,
) -> Result<(), ResolveEnd>
    requires running { tx.old.state ≡ Running }
    requires undrawn { tx.old.pass.view.stage ≡ Open }
    requires sized { length tx.old.table.opening ≡ cells_of plan.now }
    requires waits { AreWaiting plan.now (λ p. waiting p tx.old) }
    requires follows { Follows plan.now (progress tx.old) tx.old.notes }
    requires held { HoldsWrites tx.old }
    requires spare { HasTwoEach tx.old.spare tx.old.additions }
    ensures resolved { OnOk result (IsResolved plan.now tx.old tx.new) }
    ensures refused { IfErr result (IsRefusedIn plan.now tx.old tx.new) }
    ensures sole { IsSole tx.old.pass → IfErr result IsFullEnd }
{
    attempts_follow_law();
    let _ = plan.cells();
    let mut part = 0;
    while tx.is_adding() {
        match resolve_part(tx, plan, part) {
            Ok(()) => part += 1,
            Err(end) => return Err(end),
        }
    }
    Ok(())
}
