//! How an attempt on a store is committed.
ghost use Rattle.std.specs.Prelude.{◌≡◌, ℕ, ◌<◌, [], true, false, length, Some, IfOk, IfErr};
ghost use Rattle.cell_table.specs.Pass.{IsPassOf};
ghost use Rattle.serial_terms.specs.Renaming.{by_key, by_name};
ghost use Rattle.store_layout.specs.Shapes.{cells_of};
ghost use Rattle.store_meaning.specs.Follows.{Follows};
ghost use Rattle.store_parts.specs.Parts.{progress};
ghost use Rattle.tx_core.specs.declared.stop.TxState.TheVariants.{Running};
ghost use Rattle.tx_core.specs.Calls.{NothingWaits, waiting};
ghost use Rattle.tx_core.specs.Causes.{IsFound};
ghost use Rattle.tx_store.specs.Attempts.{AreWaiting};
ghost use Rattle.tx_store.specs.Commits.{IsWriter, Returns, Commits, Refuses, IsReady, IsGivenUp, IsCommitted, IsRefused, IsFoundEnd, stop_end, resolve_end};

use crate::pass::StorePass;
use crate::resolve::resolve_all;
use crate::tx::StoreTx;
use cell_table::Pass;
use store_layout::CellPlan;
use store_meaning::laws::attempts_follow_law;
use store_meaning::{Purpose, StoreMeaning};
use tx_core::{ResolveEnd, Stop, Tx};

/// Where the record of an attempt stands.
#[derive(Clone, Copy, Debug, PartialEq, Eq)]
pub struct Receipt {
    /// The place in the history: the attempt's version where it only read, else a version that was drawn for it.
    pub place: u64,
    /// Whether a cell was written or a value added to a queue or a log.
    pub writer: bool,
}

/// Why an attempt wasn't committed.
#[derive(Clone, Copy, Debug, PartialEq, Eq)]
pub enum CommitEnd {
    /// Another caller holds the cell.
    Held { cell: u32, owner: u32 },
    /// The cell has a version above the attempt's, or above one that the attempt had found.
    Newer { cell: u32, found: u64 },
    /// The part has so many values, and with those that were to be added more than its capacity. The queues are the parts
    /// 0, 1 and so on, and behind them come the logs.
    Full { part: u32, length: u64, adding: u64 },
}

impl<'a, P: Purpose> StoreTx<'a, P> {
    /// Commits the attempt: its calls become one record in the acting caller's book, in one place of the store's history.
    ///
    /// An attempt that neither wrote nor added is never refused. A refused one is aborted: the books are as they were, and the
    /// pass holds nothing. `Full` comes where the calls leave a queue or a log longer than its capacity at a place that was
    /// loaded and validated in this call. Takes no memory.
    pub fn commit(self) -> Result<(StorePass<P>, Receipt), (StorePass<P>, CommitEnd)>
        requires running { self.attempt.state ≡ Running }
        requires allowed { P.allowed self.store.table.meaning.purpose (by_key self.attempt.notes) }
        ensures committed { IfOk result (λ t. IsCommitted self.entry t.0 t.1) }
        ensures refused { IfErr result (λ t. IsRefused P.lawful_state self.entry t.0 t.1) }
    {
        self.tells_law();
        let StoreTx { store, tx, keys } = self;
        tx.pass_law();
        tx.vouched_law();
        let plan = store.plan();
        match commit_attempt(tx, plan) {
            Ok((pass, receipt)) => Ok((StorePass { pass, keys }, receipt)),
            Err((pass, end)) => Err((StorePass { pass, keys }, end)),
        }
    }
}

// Commits an attempt on the cells of a store.
fn commit_attempt<P: Purpose>(
    tx: Tx<'_, StoreMeaning<P>>,
    plan: &CellPlan,
) -> Result<(Pass<StoreMeaning<P>>, Receipt), (Pass<StoreMeaning<P>>, CommitEnd)>
    requires running { tx.state ≡ Running }
    requires early { tx.committing ≡ false }
    requires left { 0 < tx.pass.view.draws }
    requires of { IsPassOf tx.table tx.pass }
    requires plan { plan.now ≡ tx.table.meaning.plan }
    requires sized { length tx.table.opening ≡ cells_of plan.now }
    requires waits { AreWaiting plan.now (λ p. waiting p tx) }
    requires follows { Follows plan.now (progress tx) tx.notes }
    requires allowed { P.allowed tx.table.meaning.purpose (by_key tx.notes) }
    requires placed { P.allowed tx.table.meaning.purpose (by_name tx.notes) }
    ensures committed { IfOk result (λ t. Returns tx.entry t.0 × Commits plan.now tx.entry t.0 t.1) }
    ensures refused { IfErr result (λ t. Returns tx.entry t.0 × Refuses plan.now tx.entry t.0 t.1) }
{
    if is_writer(&tx) {
        return commit_writes(tx, plan);
    }
    Ok(commit_reader(tx, plan))
}

// Whether a cell is written or an addition waits.
fn is_writer<P: Purpose>(tx: &Tx<'_, StoreMeaning<P>>) -> bool
    ensures writer { result ≡ true → IsWriter tx.now }
    ensures reader { result ≡ false → (tx.now.writes ≡ []) × NothingWaits tx.now }
{
    if tx.is_writing() {
        return true;
    }
    tx.is_adding()
}

// Commits an attempt that only read.
fn commit_reader<P: Purpose>(
    tx: Tx<'_, StoreMeaning<P>>,
    plan: &CellPlan,
) -> (Pass<StoreMeaning<P>>, Receipt)
    requires running { tx.state ≡ Running }
    requires early { tx.committing ≡ false }
    requires reader { (tx.writes ≡ []) × NothingWaits tx }
    requires of { IsPassOf tx.table tx.pass }
    requires plan { plan.now ≡ tx.table.meaning.plan }
    requires follows { Follows plan.now (progress tx) tx.notes }
    requires allowed { P.allowed tx.table.meaning.purpose (by_key tx.notes) }
    requires placed { P.allowed tx.table.meaning.purpose (by_name tx.notes) }
    ensures returns { Returns tx.entry result.0 }
    ensures commits { Commits plan.now tx.entry result.0 result.1 }
{
    attempts_follow_law();
    tx.alone_law();
    let receipt = Receipt {
        place: tx.version(),
        writer: false,
    };
    (tx.commit_reads(), receipt)
}

// Commits an attempt that writes a cell or adds a value.
fn commit_writes<P: Purpose>(
    mut tx: Tx<'_, StoreMeaning<P>>,
    plan: &CellPlan,
) -> Result<(Pass<StoreMeaning<P>>, Receipt), (Pass<StoreMeaning<P>>, CommitEnd)>
    requires running { tx.state ≡ Running }
    requires early { tx.committing ≡ false }
    requires left { 0 < tx.pass.view.draws }
    requires writer { IsWriter tx }
    requires of { IsPassOf tx.table tx.pass }
    requires plan { plan.now ≡ tx.table.meaning.plan }
    requires sized { length tx.table.opening ≡ cells_of plan.now }
    requires waits { AreWaiting plan.now (λ p. waiting p tx) }
    requires follows { Follows plan.now (progress tx) tx.notes }
    requires allowed { P.allowed tx.table.meaning.purpose (by_key tx.notes) }
    requires placed { P.allowed tx.table.meaning.purpose (by_name tx.notes) }
    ensures committed { IfOk result (λ t. Returns tx.entry t.0 × Commits plan.now tx.entry t.0 t.1) }
    ensures refused { IfErr result (λ t. Returns tx.entry t.0 × Refuses plan.now tx.entry t.0 t.1) }
{
    tx.alone_law();
    match place_and_check(&mut tx, plan) {
        Ok(place) => {
            tx.laid_over_law();
            let receipt = Receipt {
                place,
                writer: true,
            };
            Ok((tx.publish(), receipt))
        }
        Err(end) => Err((tx.abort(), end)),
    }
}

// Takes the locks of the written cells, places what waits, draws the version, and validates what was observed.
fn place_and_check<P: Purpose>(
    tx: &mut Tx<'_, StoreMeaning<P>>,
    plan: &CellPlan,
) -> Result<u64, CommitEnd>
    requires running { tx.old.state ≡ Running }
    requires early { tx.old.committing ≡ false }
    requires left { 0 < tx.old.pass.view.draws }
    requires writer { IsWriter tx.old }
    requires sized { length tx.old.table.opening ≡ cells_of plan.now }
    requires waits { AreWaiting plan.now (λ p. waiting p tx.old) }
    requires follows { Follows plan.now (progress tx.old) tx.old.notes }
    ensures ready { IfOk result (IsReady plan.now tx.old tx.new) }
    ensures given_up { IfErr result (IsGivenUp plan.now tx.old tx.new) }
{
    attempts_follow_law();
    tx.provided_law();
    tx.vouched_law();
    match tx.lock_writes() {
        Ok(()) => {}
        Err(stop) => return Err(end_of_stop(stop)),
    }
    match resolve_all(tx, plan) {
        Ok(()) => {}
        Err(end) => {
            tx.vouched_law();
            tx.pass_law();
            return Err(end_of(end));
        }
    }
    match tx.draw_and_check() {
        Ok(place) => Ok(place),
        Err(stop) => Err(end_of_stop(stop)),
    }
}

// The same cause as an end of the commit.
fn end_of_stop(stop: Stop) -> CommitEnd
    requires { IsFound stop }
    ensures { result ≡ stop_end stop }
{
    match stop {
        Stop::Held { cell, owner } => CommitEnd::Held { cell, owner },
        Stop::Newer { cell, found } => CommitEnd::Newer { cell, found },
        Stop::Memory => unreachable!(),
    }
}

// So with what was placed in vain.
fn end_of(end: ResolveEnd) -> CommitEnd
    requires { IsFoundEnd end }
    ensures { result ≡ resolve_end end }
{
    match end {
        ResolveEnd::Stop(stop) => end_of_stop(stop),
        ResolveEnd::Full {
            part,
            length,
            adding,
        } => CommitEnd::Full {
            part,
            length,
            adding,
        },
    }
}
