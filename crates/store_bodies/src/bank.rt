//! What is always true of a bank, and how its store is laid out.
ghost use Rattle.std.specs.Prelude.{◌≡◌, IfOk};
ghost use Rattle.serial_terms.specs.Stores.{opening_of};
ghost use Rattle.store_layout.specs.Shapes.{IsLayout, shape_of, cells_of, most_cells};
ghost use Rattle.store_bodies.specs.Bank.{OpensAsBank, the_layout};

use key_directory::BelowCapacity;
use serial_terms::{Layout, PlainList};
use std::alloc::{AllocError, Global};
use tx_store::Purpose;

/// The map of the accounts that amounts are taken from.
pub const SENDERS: u32 = 0;

/// The map of the accounts that amounts go to.
pub const RECEIVERS: u32 = 1;

/// The queue of the orders.
pub const ORDERS: u32 = 0;

/// The log of the receipts.
pub const RECEIPTS: u32 = 0;

/// Four accounts that amounts are taken from, and four that they go to. Each has 100 until it is first set.
///
/// Lawful are the states in which all accounts have 800 together, and the receipts are what the receivers gained. Allowed is
/// each record of calls that keeps that.
#[derive(Drop)]
pub struct Bank;

impl Purpose for Bank {
    type Keys = BelowCapacity;

    ghost use Rattle.store_bodies.specs.Bank.{IsBank, KeepsBank, renamed_keeps};

    ghost lawful_state = { λ _ s. IsBank s };

    ghost allowed = { λ _ dones. KeepsBank dones };

    ghost ends_lawful = { λ _ dones s t lawful allowed runs. allowed s t lawful runs };

    ghost renamed = { λ _ dones others same allowed. renamed_keeps dones others same allowed };
}

/// Two maps of four accounts, a queue of at most 64 orders and a log of at most 64 receipts. The one error is want of memory.
pub fn bank_layout(alloc: Global) -> Result<Layout, AllocError>
    ensures { IfOk result (λ layout. layout ≡ the_layout) }
{
    Ok(Layout {
        maps: PlainList::from_vec([4, 4].to_vec(alloc)?),
        queues: PlainList::from_vec([64].to_vec(alloc)?),
        pools: PlainList::from_vec(Vec::new(alloc)),
        logs: PlainList::from_vec([64].to_vec(alloc)?),
        cells: 0,
    })
}

/// A store can be laid out so, and opens as a bank: nothing was moved yet, and there is no receipt.
pub fn bank_opens_law()
    ensures { OpensAsBank }
{}
