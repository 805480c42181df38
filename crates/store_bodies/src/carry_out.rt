//! An order is carried out.
ghost use Rattle.std.specs.Prelude.{◌≡◌, ◌-◌, ◌^◌, ◌<◌, ◌≤◌, ◌++◌, [], ◌∷◌, IfOk};
ghost use Rattle.serial_terms.specs.declared.call.Call.TheVariants.{MapGet};
ghost use Rattle.serial_terms.specs.Renaming.{by_key};
ghost use Rattle.serial_terms.specs.Serial.{outside, found};
ghost use Rattle.tx_store.specs.Bodies.{NoMap, Acts};
ghost use Rattle.tx_store.specs.Runs.{IsFresh};
ghost use Rattle.store_bodies.specs.Attempts.{IsReady, IsBankStore};
ghost use Rattle.store_bodies.specs.Bank.{balance};
ghost use Rattle.store_bodies.specs.Moves.{calls_of, looks, moves, WasThere, amount_in, sender_in, receiver_in};

use crate::bank::{Bank, RECEIVERS, SENDERS};
use crate::calls::{add_receipt, bank_law, look, set, take_order};
use std::alloc::Global;
use tx_store::{Body, BodyStop, StoreTx};

/// What was asked for, and what the two accounts had: `None` where one was never set.
#[derive(Clone, Copy, Debug, PartialEq, Eq)]
pub struct Asked {
    /// The order: the sender's account by its rest by 4, then the receiver's, and then the amount.
    pub order: u64,
    pub sender: Option<u64>,
    pub receiver: Option<u64>,
}

/// What came of it.
#[derive(Clone, Copy, Debug, PartialEq, Eq)]
pub enum Progress {
    /// There was no order.
    NoOrder,
    /// The sender had less than the amount. The order is gone.
    Declined(Asked),
    /// The amount was moved.
    Done(Asked),
}

/// Takes the first order out of the queue, and moves its amount from the sender's account to the receiver's, with a receipt.
#[derive(Drop)]
pub struct CarryOut;

impl Body<Bank> for CarryOut {
    type Out = Progress;

    ghost can_run = { λ _ store. IsBankStore store };

    ghost runs = { λ _ calls progress. calls ≡ calls_of progress };

    ghost keys_full = { λ _. NoMap };

    fn body(&mut self, _: Global, tx: &mut StoreTx<'_, Bank>) -> Result<Progress, BodyStop> {
        carry_out(tx)
    }
}

fn carry_out(tx: &mut StoreTx<'_, Bank>) -> Result<Progress, BodyStop>
    requires ready { IsReady tx.old }
    requires fresh { IsFresh tx.old.attempt }
    ensures acts { Acts NoMap tx.old tx.new calls_of result }
    ensures there { IfOk result WasThere }
{
    let Some(order) = take_order(tx)? else {
        return Ok(Progress::NoOrder);
    };
    let (sender, receiver) = look_at_both(tx, order)?;
    let asked = Asked {
        order,
        sender,
        receiver,
    };
    bank_law(tx);
    if has(sender) < order / 16 {
        return Ok(Progress::Declined(asked));
    }
    move_amount(tx, asked)?;
    Ok(Progress::Done(asked))
}

// What an account has: 100 until it is first set.
fn has(account: Option<u64>) -> u64
    ensures { result ≡ balance account }
{
    match account {
        Some(amount) => amount,
        None => 100,
    }
}

// What the two accounts of an order have.
fn look_at_both(
    tx: &mut StoreTx<'_, Bank>,
    order: u64,
) -> Result<(Option<u64>, Option<u64>), BodyStop>
    requires ready { IsReady tx.old }
    ensures { Acts NoMap tx.old tx.new (λ both. outside (MapGet 0 (sender_in order)) (found both.0) ∷ outside (MapGet 1 (receiver_in order)) (found both.1) ∷ []) result }
{
    let sender = look(tx, SENDERS, order % 4)?;
    let receiver = look(tx, RECEIVERS, order / 4 % 4)?;
    Ok((sender, receiver))
}

// Sets the two accounts, and adds the receipt.
fn move_amount(tx: &mut StoreTx<'_, Bank>, asked: Asked) -> Result<(), BodyStop>
    requires ready { IsReady tx.old }
    requires there { (amount_in asked.order ≤ balance asked.sender) × (balance asked.sender ≤ 800) × (balance asked.receiver ≤ 800) }
    ensures { Acts NoMap tx.old tx.new (λ _. moves asked) result }
{
    let (order, amount) = (asked.order, asked.order / 16);
    let sender = has(asked.sender);
    let receiver = has(asked.receiver);
    set(tx, SENDERS, order % 4, sender - amount)?;
    set(tx, RECEIVERS, order / 4 % 4, receiver + amount)?;
    add_receipt(tx, amount)
}
