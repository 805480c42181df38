//! A transaction of gets and puts.
ghost use Rattle.std.specs.Prelude.{◌≡◌, ◌-◌, ◌^◌, ◌<◌, ◌++◌, All};
ghost use Rattle.tx_store.specs.Bodies.{AnyMap};
ghost use Rattle.store_benchmark.specs.Asked.{asked, Asks, gets, puts};
ghost use Rattle.store_benchmark.specs.Opened.{IsOpened, IsReady};

use crate::calls::{get, put};
use std::alloc::Global;
use tx_store::{Anything, Body, BodyStop, StoreTx};

/// Gets these keys, and then puts the value for those.
#[derive(Drop)]
pub(crate) struct Touch<'k> {
    pub gets: &'k [u16],
    pub puts: &'k [u16],
    pub value: u64,
    /// How often it ran.
    pub runs: u32,
}

impl<'k> Body<Anything> for Touch<'k> {
    type Out = ();

    ghost can_run = { λ body store. IsOpened store × (body.value < 2 ^ 64 - 1) };

    ghost runs = { λ body calls _. asked calls ≡ gets body.gets.now ++ puts body.value body.puts.now };

    ghost keys_full = { λ _. AnyMap };

    fn body(&mut self, _: Global, tx: &mut StoreTx<'_, Anything>) -> Result<(), BodyStop> {
        self.runs = self.runs.saturating_add(1);
        get_and_put(tx, self.gets, self.puts, self.value)
    }
}

fn get_and_put(
    tx: &mut StoreTx<'_, Anything>,
    got: &[u16],
    put: &[u16],
    value: u64,
) -> Result<(), BodyStop>
    requires ready { IsReady tx.old }
    requires value { value < 2 ^ 64 - 1 }
    ensures { Asks tx.old tx.new (λ _. gets got.now ++ puts value put.now) result }
{
    get_all(tx, got)?;
    put_all(tx, put, value)
}

fn get_all(tx: &mut StoreTx<'_, Anything>, keys: &[u16]) -> Result<(), BodyStop>
    requires ready { IsReady tx.old }
    ensures { Asks tx.old tx.new (λ _. gets keys.now) result }
{
    for key in keys {
        get(tx, u64::from(*key))?;
    }
    Ok(())
}

fn put_all(tx: &mut StoreTx<'_, Anything>, keys: &[u16], value: u64) -> Result<(), BodyStop>
    requires ready { IsReady tx.old }
    requires value { value < 2 ^ 64 - 1 }
    ensures { Asks tx.old tx.new (λ _. puts value keys.now) result }
{
    for key in keys {
        put(tx, u64::from(*key), value)?;
    }
    Ok(())
}
