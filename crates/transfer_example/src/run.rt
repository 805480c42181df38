//! The whole run: the accounts are opened, two threads carry out orders, and the table is closed.
ghost use Rattle.std.specs.Prelude.{◌≡◌, ℕ, ◌+◌, ◌^◌, ◌<◌, ◌≤◌, [], ◌∷◌, length, sum, IfOk};
ghost use Rattle.cell_table.specs.Steps.{IsIdle};
ghost use Rattle.cell_table.specs.Pass.{IsPassOf};
ghost use Rattle.tx_map.specs.Map.{map_of};
ghost use Rattle.tx_log.specs.Log.{IsLog, values_in};
ghost use Rattle.transfer_example.specs.Bank.{total};
ghost use Rattle.transfer_example.specs.Attempts.{KeepsKeys};

use crate::bank::{FixedTotal, OPENING, Order, RECEIPTS, RECEIVERS, SENDERS};
use crate::transfer::{Refusal, try_once};
use cell_table::{CellTable, Contents, Pass};
use key_directory::{BelowCapacity, Directory, KeyPass};
use std::alloc::{AllocError, Global};
use std::thread::{Threads, join};
use tx_map::MapPart;

/// How often an order is tried where another caller is in the way.
const TRIES: u32 = 1_000;

/// What the accounts have at the end, and what the receipts say.
#[derive(Clone, Copy)]
pub struct AtEnd {
    pub senders: u64,
    pub receivers: u64,
    /// The sum of the receipts.
    pub received: u64,
}

// Tries an order until it is carried out or declined, at most so often.
fn settle(
    alloc: Global,
    table: &CellTable<FixedTotal>,
    accounts: &Directory<BelowCapacity>,
    pass: Pass<FixedTotal>,
    keys: &mut KeyPass<BelowCapacity>,
    order: Order,
) -> Pass<FixedTotal>
    requires of { IsPassOf table.now pass }
    requires idle { IsIdle pass.view }
    requires cells { length table.now.opening ≡ 41 }
    requires accounts { (accounts.now.capacities ≡ 4 ∷ 4 ∷ []) × (keys.old.directory ≡ accounts.now) }
    requires order { (order.sender < 4) × (order.receiver < 4) }
    ensures of { IsPassOf table.now result }
    ensures idle { IsIdle result.view }
    ensures same { (length result.books ≡ length pass.books) × (result.room ≡ pass.room) }
    ensures keys { KeepsKeys keys.old keys.new }
{
    let mut pass = pass;
    for _ in 0..TRIES {
        let (next, answer) = try_once(alloc, table, accounts, pass, keys, order);
        pass = next;
        if answer != Err(Refusal::Again) {
            return pass;
        }
    }
    pass
}

// Ten orders, one after another.
fn work(
    alloc: Global,
    table: &CellTable<FixedTotal>,
    accounts: &Directory<BelowCapacity>,
    pass: Pass<FixedTotal>,
    keys: KeyPass<BelowCapacity>,
    first: u32,
) -> (Pass<FixedTotal>, KeyPass<BelowCapacity>)
    requires of { IsPassOf table.now pass }
    requires idle { IsIdle pass.view }
    requires cells { length table.now.opening ≡ 41 }
    requires accounts { (accounts.now.capacities ≡ 4 ∷ 4 ∷ []) × (keys.directory ≡ accounts.now) }
    requires first { first ≤ 1 }
    ensures of { IsPassOf table.now result.0 }
    ensures idle { IsIdle result.0.view }
    ensures same { (length result.0.books ≡ length pass.books) × (result.0.room ≡ pass.room) }
    ensures keys { KeepsKeys keys result.1 }
{
    let mut pass = pass;
    let mut keys = keys;
    for i in 0..10u32 {
        let order = Order {
            sender: (first + i) % 4,
            receiver: (3 * i) % 4,
            amount: 1 + i,
        };
        pass = settle(alloc, table, accounts, pass, &mut keys, order);
    }
    (pass, keys)
}

// What the four accounts of a map have together.
fn total_of(contents: &Contents, part: &MapPart) -> u64
    requires part { (part.now.base ≤ 4) × (part.now.capacity ≡ 4) }
    requires cells { 8 ≤ length contents.now.values }
    requires small { total (map_of part.now contents.now.values) 4 < 2 ^ 64 }
    ensures { result ≡ total (map_of part.now contents.now.values) 4 }
{
    let mut total = 0u64;
    for i in 0..4u32 {
        total = total.saturating_add(contents.value(part.base + i).saturating_sub(1));
    }
    total
}

// What the receipts add up to.
fn receipts_total(contents: &Contents) -> u64
    requires log { IsLog RECEIPTS contents.now.values }
    requires small { sum (values_in RECEIPTS contents.now.values) < 2 ^ 64 }
    ensures { result ≡ sum (values_in RECEIPTS contents.now.values) }
{
    let receipts = contents.value(RECEIPTS.end) as u32;
    let mut total = 0u64;
    for i in 0..receipts {
        let amount = contents.value(9 + i) - 1;
        total += amount;
    }
    total
}

/// Opens the accounts, lets two threads carry out their orders, and closes.
///
/// In every interleaving the accounts still sum to 800, and the receipts to what the receivers gained.
pub fn run<R: Threads + Sync>(rt: &R, alloc: Global) -> Result<AtEnd, AllocError>
    ensures total { IfOk result (λ end. end.senders + end.receivers ≡ 800) }
    ensures receipts { IfOk result (λ end. end.received + 400 ≡ end.receivers) }
{
    let (table, mut pass) = CellTable::open(alloc, FixedTotal { total: 800 }, &OPENING, 2)?;
    let (accounts, mut keys) = Directory::<BelowCapacity>::open(alloc, &[4, 4], 2)?;
    let other = pass.split(alloc, &table, 1)?;
    let other_keys = keys.split(alloc, &accounts, 1)?;
    let (table_seen, accounts_seen) = (&table, &accounts);
    let ((mut pass, mut keys), (other, other_keys)) = join(
        rt,
        || -> (Pass<FixedTotal>, KeyPass<BelowCapacity>)
            requires { IsPassOf table_seen.now pass × IsIdle pass.view × (length table_seen.now.opening ≡ 41) × (accounts_seen.now.capacities ≡ 4 ∷ 4 ∷ []) × (keys.directory ≡ accounts_seen.now) }
            ensures { IsPassOf table_seen.entry.now result.0 × IsIdle result.0.view × (length result.0.books ≡ length pass.books) × (result.0.room ≡ pass.room) × KeepsKeys keys result.1 }
        { work(alloc, table_seen, accounts_seen, pass, keys, 0) },
        || -> (Pass<FixedTotal>, KeyPass<BelowCapacity>)
            requires { IsPassOf table_seen.now other × IsIdle other.view × (length table_seen.now.opening ≡ 41) × (accounts_seen.now.capacities ≡ 4 ∷ 4 ∷ []) × (other_keys.directory ≡ accounts_seen.now) }
            ensures { IsPassOf table_seen.entry.now result.0 × IsIdle result.0.view × (length result.0.books ≡ length other.books) × (result.0.room ≡ other.room) × KeepsKeys other_keys result.1 }
        { work(alloc, table_seen, accounts_seen, other, other_keys, 1) },
    );
    pass.join(&table, other);
    keys.join(&accounts, other_keys);
    let _ = accounts.close(keys);
    let contents = table.close(pass);
    Ok(AtEnd {
        senders: total_of(&contents, &SENDERS),
        receivers: total_of(&contents, &RECEIVERS),
        received: receipts_total(&contents),
    })
}
