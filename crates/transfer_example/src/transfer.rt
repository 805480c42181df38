//! One transfer: two accounts are looked at and set, and a receipt is logged.
ghost use Rattle.std.specs.Prelude.{◌≡◌, ◌≢◌, ℕ, ◌+◌, ◌-◌, ◌^◌, ◌<◌, List, false, [], ◌∷◌, length, slice_index, Some, None, IfOk, IfSome, OnOk};
ghost use Rattle.cell_table.specs.Cells.{after, AllHold};
ghost use Rattle.cell_table.specs.Steps.{IsIdle};
ghost use Rattle.cell_table.specs.Pass.{IsPassOf};
ghost use Rattle.cell_table.specs.declared.view.Stage.TheVariants.{Open};
ghost use Rattle.serial_terms.specs.Counts.{with_at};
ghost use Rattle.tx_core.specs.Calls.{MayCommit, HoldsWrites, NothingWaits, waiting, IsDrawn};
ghost use Rattle.tx_core.specs.declared.stop.TxState.TheVariants.{Running};
ghost use Rattle.tx_map.specs.Map.{IsFormed, map_of};
ghost use Rattle.tx_map.specs.Calls.{MayAsk};
ghost use Rattle.transfer_example.specs.Bank.{Keeps};
ghost use Rattle.transfer_example.specs.Attempts.{GoesOn, Stays, KeepsKeys, OnlyReceiptsWait};

use crate::bank::{FixedTotal, Order, RECEIPTS, RECEIVERS, SENDERS};
use cell_table::{CellTable, Pass};
use key_directory::{BelowCapacity, Directory, KeyPass};
use std::alloc::{AllocError, Global};
use tx_core::{ResolveEnd, Stop, Tx};
use tx_map::{MapPart, MapStop};

type Accounts = Directory<BelowCapacity>;

type AccountPass = KeyPass<BelowCapacity>;

/// Why an order wasn't carried out.
#[derive(Clone, Copy, Debug, PartialEq, Eq)]
pub enum Refusal {
    /// The accounts don't allow it.
    Declined,
    /// Another caller was in the way: the order may be tried again.
    Again,
    /// Want of memory, or of room for receipts.
    Failed,
}

impl From<AllocError> for Refusal {
    ghost use Rattle.std.specs.Prelude.{◌≡◌};
    ghost use Rattle.transfer_example.specs.declared.transfer.Refusal.TheVariants.{Failed};

    ghost from_gives = { λ _ refusal. refusal ≡ Failed };

    fn from(_: AllocError) -> Refusal {
        Refusal::Failed
    }
}

impl From<Stop> for Refusal {
    ghost use Rattle.std.specs.Prelude.{◌≡◌};
    ghost use Rattle.transfer_example.specs.Attempts.{refusal_of};

    ghost from_gives = { λ stop refusal. refusal ≡ refusal_of stop };

    fn from(stop: Stop) -> Refusal {
        match stop {
            Stop::Memory => Refusal::Failed,
            Stop::Held { .. } | Stop::Newer { .. } => Refusal::Again,
        }
    }
}

impl From<MapStop> for Refusal {
    ghost use Rattle.std.specs.Prelude.{◌≡◌};
    ghost use Rattle.transfer_example.specs.Attempts.{refusal_of_map};

    ghost from_gives = { λ stop refusal. refusal ≡ refusal_of_map stop };

    fn from(stop: MapStop) -> Refusal {
        match stop {
            MapStop::Stop(stop) => stop.into(),
            MapStop::KeysFull { .. } => Refusal::Failed,
        }
    }
}

impl From<ResolveEnd> for Refusal {
    ghost use Rattle.std.specs.Prelude.{◌≡◌};
    ghost use Rattle.transfer_example.specs.Attempts.{refusal_of_log};

    ghost from_gives = { λ end refusal. refusal ≡ refusal_of_log end };

    fn from(end: ResolveEnd) -> Refusal {
        match end {
            ResolveEnd::Stop(stop) => stop.into(),
            ResolveEnd::Full { .. } => Refusal::Failed,
        }
    }
}

// What an account has.
fn balance(
    part: &MapPart,
    tx: &mut Tx<'_, FixedTotal>,
    accounts: &Accounts,
    keys: &mut AccountPass,
    account: u32,
) -> Result<Option<u64>, Refusal>
    requires callable { MayAsk part.now tx.old accounts.now keys.old }
    requires account { account < part.now.capacity }
    ensures found { IfOk result (λ found. (cells : List ℕ) → AllHold cells tx.new.observations → IsFormed part.now (after cells tx.old.writes) → found ≡ map_of part.now (after cells tx.old.writes) account) }
    ensures value { IfOk result (λ found. IfSome found (λ value. value < 2 ^ 64 - 1)) }
    ensures earlier { OnOk result ((cells : List ℕ) → AllHold cells tx.new.observations → AllHold cells tx.old.observations) }
    ensures goes_on { OnOk result (GoesOn tx.old tx.new × (tx.new.additions ≡ tx.old.additions) × (tx.new.writes ≡ tx.old.writes)) }
    ensures stays { Stays tx.old tx.new }
    ensures keys { KeepsKeys keys.old keys.new }
{
    tx.laid_over_law();
    let found = part.get(tx, accounts, keys, account.into())?;
    Ok(found)
}

// Sets an account.
fn set_balance(
    part: &MapPart,
    tx: &mut Tx<'_, FixedTotal>,
    accounts: &Accounts,
    keys: &mut AccountPass,
    account: u32,
    value: u64,
) -> Result<(), Refusal>
    requires callable { MayAsk part.now tx.old accounts.now keys.old }
    requires account { account < part.now.capacity }
    requires value { value < 2 ^ 64 - 1 }
    ensures set { OnOk result ((cells : List ℕ) → AllHold cells tx.new.observations → IsFormed part.now (after cells tx.old.writes) → map_of part.now (after cells tx.new.writes) ≡ with_at (map_of part.now (after cells tx.old.writes)) account (Some value)) }
    ensures others { OnOk result ((cells : List ℕ) (c : ℕ) → c ≢ part.now.base + account → slice_index (after cells tx.new.writes) c ≡ slice_index (after cells tx.old.writes) c) }
    ensures goes_on { OnOk result (GoesOn tx.old tx.new × (tx.new.additions ≡ tx.old.additions) × (tx.new.observations ≡ tx.old.observations)) }
    ensures stays { Stays tx.old tx.new }
    ensures keys { KeepsKeys keys.old keys.new }
{
    part.put(tx, accounts, keys, account.into(), value)?;
    Ok(())
}

// Looks at both accounts, sets both, and adds a receipt. The sum stays, wherever all holds that was observed.
fn transfer(
    tx: &mut Tx<'_, FixedTotal>,
    accounts: &Accounts,
    keys: &mut AccountPass,
    order: Order,
) -> Result<(), Refusal>
    requires senders { MayAsk SENDERS tx.old accounts.now keys.old }
    requires receivers { MayAsk RECEIVERS tx.old accounts.now keys.old }
    requires order { (order.sender < 4) × (order.receiver < 4) }
    requires fresh { NothingWaits tx.old × (tx.old.writes ≡ []) }
    ensures goes_on { OnOk result (GoesOn tx.old tx.new) }
    ensures stays { Stays tx.old tx.new }
    ensures receipt { OnOk result (OnlyReceiptsWait tx.new × (waiting 0 tx.new ≡ order.amount ∷ [])) }
    ensures keeps { OnOk result ((total : ℕ) → Keeps total (order.amount ∷ []) tx.new.observations tx.new.writes) }
    ensures keys { KeepsKeys keys.old keys.new }
{
    let amount = u64::from(order.amount);
    let sent_from = balance(&SENDERS, tx, accounts, keys, order.sender)?;
    let sent_to = balance(&RECEIVERS, tx, accounts, keys, order.receiver)?;
    let (Some(sender), Some(receiver)) = (sent_from, sent_to) else {
        return Err(Refusal::Declined);
    };
    if sender < amount || receiver >= u64::MAX - 1 - amount {
        return Err(Refusal::Declined);
    }
    SENDERS.same_cells_law();
    RECEIVERS.same_cells_law();
    RECEIPTS.same_cells_law();
    set_balance(&SENDERS, tx, accounts, keys, order.sender, sender - amount)?;
    set_balance(
        &RECEIVERS,
        tx,
        accounts,
        keys,
        order.receiver,
        receiver + amount,
    )?;
    RECEIPTS.append(tx, amount)?;
    Ok(())
}

// Locks what was written, places the receipt, and validates all at a place of its own.
fn prepare(tx: &mut Tx<'_, FixedTotal>, amount: u32) -> Result<(), Refusal>
    requires callable { MayCommit tx.old }
    requires cells { length tx.old.table.opening ≡ 41 }
    requires receipt { OnlyReceiptsWait tx.old × (waiting 0 tx.old ≡ amount ∷ []) }
    requires keeps { (total : ℕ) → Keeps total (amount ∷ []) tx.old.observations tx.old.writes }
    requires draw { 0 < tx.old.pass.view.draws }
    ensures running { OnOk result (tx.new.state ≡ Running) }
    ensures drawn { OnOk result ((d : ℕ) × IsDrawn tx.new d) }
    ensures held { OnOk result (HoldsWrites tx.new × (0 < length tx.new.writes)) }
    ensures resolved { OnOk result (NothingWaits tx.new) }
    ensures keeps { OnOk result ((total : ℕ) → Keeps total [] tx.new.observations tx.new.writes) }
    ensures stays { Stays tx.old tx.new }
{
    tx.provided_law();
    tx.vouched_law();
    tx.lock_writes()?;
    tx.laid_over_law();
    SENDERS.same_cells_law();
    RECEIVERS.same_cells_law();
    RECEIPTS.resolve(tx)?;
    tx.draw_and_check()?;
    Ok(())
}

/// Tries an order once, in one transaction: it takes effect whole or not at all.
pub fn try_once(
    alloc: Global,
    table: &CellTable<FixedTotal>,
    accounts: &Accounts,
    pass: Pass<FixedTotal>,
    keys: &mut AccountPass,
    order: Order,
) -> (Pass<FixedTotal>, Result<(), Refusal>)
    requires of { IsPassOf table.now pass }
    requires idle { IsIdle pass.view }
    requires cells { length table.now.opening ≡ 41 }
    requires accounts { (accounts.now.capacities ≡ 4 ∷ 4 ∷ []) × (keys.old.directory ≡ accounts.now) }
    requires order { (order.sender < 4) × (order.receiver < 4) }
    ensures of { IsPassOf table.now result.0 }
    ensures idle { IsIdle result.0.view }
    ensures same { (length result.0.books ≡ length pass.books) × (result.0.room ≡ pass.room) }
    ensures keys { KeepsKeys keys.old keys.new }
{
    if pass.draws_left() == 0 {
        return (pass, Err(Refusal::Failed));
    }
    let mut tx = match Tx::begin(alloc, table, pass) {
        Ok(tx) => tx,
        Err((pass, _)) => return (pass, Err(Refusal::Failed)),
    };
    if let Err(refusal) = transfer(&mut tx, accounts, keys, order) {
        return (tx.abort(), Err(refusal));
    }
    match prepare(&mut tx, order.amount) {
        Ok(()) => (tx.publish(), Ok(())),
        Err(refusal) => (tx.abort(), Err(refusal)),
    }
}
