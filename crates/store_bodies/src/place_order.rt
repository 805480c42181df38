//! An order is placed.
ghost use Rattle.std.specs.Prelude.{◌≡◌, ◌+◌, ◌*◌, ◌-◌, ◌^◌, ◌<◌, [], ◌∷◌};
ghost use Rattle.serial_terms.specs.declared.call.Call.TheVariants.{Enqueue};
ghost use Rattle.serial_terms.specs.declared.call.Reply.TheVariants.{Nothing};
ghost use Rattle.serial_terms.specs.Serial.{outside};
ghost use Rattle.tx_store.specs.Bodies.{NoMap};
ghost use Rattle.store_bodies.specs.Attempts.{IsBankStore};

use crate::bank::Bank;
use crate::calls::add_order;
use std::alloc::Global;
use tx_store::{Body, BodyStop, StoreTx};

/// Puts an order last into the queue.
#[derive(Drop)]
pub struct PlaceOrder {
    /// The sender's account below 4, four times the receiver's below 4, and 16 times the amount.
    pub order: u64,
}

impl Body<Bank> for PlaceOrder {
    type Out = ();

    ghost can_run = { λ body store. IsBankStore store × (body.order < 2 ^ 64 - 1) };

    ghost runs = { λ body calls _. calls ≡ outside (Enqueue 0 body.order) Nothing ∷ [] };

    ghost keys_full = { λ _. NoMap };

    fn body(&mut self, _: Global, tx: &mut StoreTx<'_, Bank>) -> Result<(), BodyStop> {
        add_order(tx, self.order)
    }
}
