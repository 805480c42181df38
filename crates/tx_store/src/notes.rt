//! How a call is noted.
ghost use Rattle.std.specs.Prelude.{◌≡◌, [], ◌∷◌, ◌++◌, OnOk, OnErr};
ghost use Rattle.store_parts.specs.Parts.{noted};
ghost use Rattle.tx_core.specs.Calls.{MayCall, HoldsAt, stopped_from, memory_in};
ghost use Rattle.tx_store.specs.Calls.{in_child};

use serial_terms::{Call, Done, Reply};
use std::alloc::AllocError;
use store_meaning::{Noted, Purpose, StoreMeaning};
use tx_core::{Tx, TxState};

/// Notes a call with its reply and the position of its key, if it has one. Want of memory stops the attempt.
pub(crate) fn note_call<P: Purpose>(
    tx: &mut Tx<'_, StoreMeaning<P>>,
    call: Call,
    reply: Reply,
    position: u32,
) -> Result<(), AllocError>
    requires callable { MayCall tx.old }
    ensures ok { OnOk result (tx.new ≡ record tx.old { notes = tx.old.notes ++ noted call reply (in_child tx.old.state) position ∷ [] }) }
    ensures stopped { OnErr result (tx.new ≡ record tx.old { state = stopped_from tx.old.state }) }
    ensures holds { HoldsAt (λ c. ⊥) 0 tx.old tx.new (memory_in result) }
{
    let child = is_in_child(tx.state());
    let done = Done { call, reply, child };
    tx.note(Noted { done, position })
}

/// Whether a child is open.
fn is_in_child(state: TxState) -> bool
    ensures { result ≡ in_child state }
{
    match state {
        TxState::Child | TxState::ChildStopped => true,
        TxState::Running | TxState::Stopped => false,
    }
}
