//! The books of a pass at run time.
ghost use Rattle.std.specs.Prelude.{◌≡◌, ℕ, ◌+◌, ◌-◌, ◌<◌, ◌≤◌, vec_len, vec_capacity, length, OnOk, OnErr};
ghost use Rattle.cell_table.specs.Sorted.{merge_by, insert_by};
ghost use Rattle.cell_table.specs.Pass.{note};
ghost use Rattle.cell_table.specs.Seats.{noted_of, noted_books, reserved_in, ledger_key, IsGap};

use crate::entry::{Entry, Ledger};
use std::alloc::{AllocError, Global};

/// The entry goes behind the others of the first ledger.
pub(crate) fn add_entry<D: Copy>(ledgers: &mut Vec<Ledger<D>, Global>, entry: Entry<D>)
    requires { 0 < reserved_in ledgers.old.items }
    ensures books { noted_books ledgers.new.items ≡ note (noted_of entry).place (noted_of entry).writer (noted_of entry).content (noted_books ledgers.old.items) }
    ensures reserved { reserved_in ledgers.new.items ≡ reserved_in ledgers.old.items - 1 }
    ensures capacity { vec_capacity ledgers.new ≡ vec_capacity ledgers.old }
{
    let first = &mut ledgers[0];
    first.entries.push_reserved(entry);
}

/// Room for one more entry in the first ledger.
pub(crate) fn reserve_entry<D: Copy>(ledgers: &mut Vec<Ledger<D>, Global>) -> Result<(), AllocError>
    requires { 0 < vec_len ledgers.old }
    ensures books { noted_books ledgers.new.items ≡ noted_books ledgers.old.items }
    ensures more { reserved_in ledgers.old.items ≤ reserved_in ledgers.new.items }
    ensures ok { OnOk result (0 < reserved_in ledgers.new.items) }
    ensures err { OnErr result (reserved_in ledgers.new.items ≡ reserved_in ledgers.old.items) }
    ensures capacity { vec_capacity ledgers.new ≡ vec_capacity ledgers.old }
{
    let first = &mut ledgers[0];
    first.entries.reserve(1)
}

/// The index of the first ledger of a greater caller.
fn place_of<D: Copy>(ledgers: &[Ledger<D>], caller: u32) -> usize
    ensures { IsGap caller ledgers.now result }
{
    let mut at = 0;
    for ledger in ledgers {
        if caller < ledger.caller {
            return at;
        }
        at += 1;
    }
    at
}

/// The ledger goes before the first one of a greater caller.
fn add_ledger<D: Copy>(ledgers: &mut Vec<Ledger<D>, Global>, ledger: Ledger<D>)
    requires { vec_len ledgers.old < vec_capacity ledgers.old }
    ensures items { ledgers.new.items ≡ insert_by ledger_key ledger ledgers.old.items }
    ensures len { vec_len ledgers.new ≡ vec_len ledgers.old + 1 }
    ensures capacity { vec_capacity ledgers.new ≡ vec_capacity ledgers.old }
{
    let at = place_of(ledgers.as_slice(), ledger.caller);
    let Ok(()) = ledgers.insert(at, ledger) else {
        unreachable!()
    };
}

/// The ledgers of both, in order.
pub(crate) fn merge_ledgers<D: Copy>(
    ledgers: &mut Vec<Ledger<D>, Global>,
    mut other: Vec<Ledger<D>, Global>,
)
    requires { vec_len ledgers.old + vec_len other ≤ vec_capacity ledgers.old }
    ensures items { ledgers.new.items ≡ merge_by ledger_key other.items ledgers.old.items }
    ensures capacity { vec_capacity ledgers.new ≡ vec_capacity ledgers.old }
{
    while let Some(ledger) = other.pop() {
        add_ledger(ledgers, ledger);
    }
    other.destroy_empty();
}
