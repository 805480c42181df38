//! What a closed store has.
ghost use Rattle.std.specs.Prelude.{◌≡◌, ◌^◌, ◌<◌, ◌≤◌, [], get_or, sum};
ghost use Rattle.serial_terms.specs.Stores.{value_in};
ghost use Rattle.store_bodies.specs.Bank.{balance, total};

use serial_terms::StoreState;

/// What the four accounts of a map have together.
pub fn total_of(contents: &StoreState, map: u32) -> u64
    requires { total (value_in (get_or contents.now.maps map [])) ≤ 800 }
    ensures { result ≡ total (value_in (get_or contents.now.maps map [])) }
{
    let accounts = match contents.maps.as_slice().get(map as usize) {
        Some(accounts) => accounts.as_slice(),
        None => &[],
    };
    amount_in(accounts, 0)
        + amount_in(accounts, 1)
        + amount_in(accounts, 2)
        + amount_in(accounts, 3)
}

// What an account has: 100 where it was never set.
fn amount_in(accounts: &[(u64, u64)], account: u64) -> u64
    ensures { result ≡ balance (value_in accounts.now account) }
{
    for pair in accounts {
        if pair.0 == account {
            return pair.1;
        }
    }
    100
}

/// What the receipts of a log add up to.
pub fn receipts_total(contents: &StoreState, log: u32) -> u64
    requires { sum (get_or contents.now.logs log []) < 2 ^ 64 }
    ensures { result ≡ sum (get_or contents.now.logs log []) }
{
    match contents.logs.as_slice().get(log as usize) {
        Some(receipts) => sum_of(receipts.as_slice()),
        None => 0,
    }
}

fn sum_of(amounts: &[u64]) -> u64
    requires { sum amounts.now < 2 ^ 64 }
    ensures { result ≡ sum amounts.now }
{
    let mut sum = 0u64;
    for amount in amounts {
        sum += *amount;
    }
    sum
}
