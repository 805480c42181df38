//! How a table begins.
ghost use Rattle.std.specs.Prelude.{◌≡◌, ℕ, ◌+◌, ◌*◌, ◌^◌, ◌<◌, ◌≤◌, length, [], IfOk, vec_capacity};
ghost use Rattle.cell_table.specs.Rule.{start_words};
ghost use Rattle.cell_table.specs.Seats.{AreFresh};

use crate::entry::Ledger;
use crate::meaning::Meaning;
use crate::pass::Pass;
use crate::rule::About;
use crate::table::CellTable;
use atomic_table::Table;
use std::alloc::{AllocError, Global};
use std::snapshot::Snapshot;

fn words_for(alloc: Global, opening: &[u64]) -> Result<Vec<u64, Global>, AllocError>
    ensures { IfOk result (λ v. v.items ≡ start_words opening.now) }
{
    let mut words = Vec::new(alloc);
    words.push(0)?;
    for value in opening {
        words.push(0)?;
        words.push(*value)?;
    }
    Ok(words)
}

fn ledgers_to<D: Copy>(alloc: Global, callers: u32) -> Result<Vec<Ledger<D>, Global>, AllocError>
    ensures { IfOk result (λ v. AreFresh 0 callers v.items × (callers ≤ vec_capacity v)) }
{
    let mut ledgers = Vec::with_capacity(alloc, callers as usize)?;
    for caller in 0..callers {
        let entries = Vec::new(alloc);
        ledgers.push(Ledger { caller, entries })?;
    }
    Ok(ledgers)
}

impl<M: Meaning> CellTable<M> {
    ghost use Rattle.cell_table.specs.Pass.{IsPassOf, opened};

    /// A table whose cells have the opening values at version 0, and the pass of all its callers.
    ///
    /// There are 1 to 4,096 callers and 1 to 2^24 cells, and the opening is lawful. The pass has 2^48 draws for each caller, and room for 8 locks.
    pub fn open(
        alloc: Global,
        meaning: M,
        opening: &[u64],
        callers: u32,
    ) -> Result<(CellTable<M>, Pass<M>), AllocError>
        requires callers { (0 < callers) × (callers ≤ 4096) }
        requires cells { (0 < length opening.now) × (length opening.now ≤ 2 ^ 24) }
        requires lawful { M.lawful meaning opening.now }
        ensures table { IfOk result (λ t. (t.0.meaning ≡ meaning) × (t.0.opening ≡ opening.now) × (t.0.callers ≡ callers)) }
        ensures of { IfOk result (λ t. IsPassOf t.0 t.1) }
        ensures pass { IfOk result (λ t. t.1 ≡ opened t.0) }
    {
        let words = words_for(alloc, opening)?;
        let ledgers = ledgers_to(alloc, callers)?;
        let held = Vec::with_capacity(alloc, 8)?;
        let about = About {
            meaning: Snapshot::of(&meaning),
            words: Snapshot::of(&words),
            callers,
        };
        let (words, seat) = Table::of_words(alloc, words.as_slice(), &about)?;
        let table = CellTable {
            words,
            meaning,
            callers,
        };
        let pass = Pass {
            seat,
            ledgers,
            held,
            drawn: 0,
            plan: None,
            seen: 0,
            draws: callers as u64 * (1 << 48),
            room: callers,
        };
        Ok((table, pass))
    }
}
