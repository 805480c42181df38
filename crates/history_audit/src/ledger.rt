// The records of a journal, judged one after another.
ghost use Rattle.std.specs.Prelude.{◌≡◌, ◌↔◌, ◌<◌, ◌≤◌, ◌^◌, ℕ, IsTrue, IfOk, List, []};
ghost use Rattle.std.specs.Option.{option_map};
ghost use Rattle.serial_terms.specs.declared.call.Done.{Done};
ghost use Rattle.serial_terms.specs.Entries.{Entry, Precedes};
ghost use Rattle.serial_terms.specs.Histories.{entry_of};
ghost use Rattle.serial_terms.specs.RunLayout.{layout_by};
ghost use Rattle.serial_terms.specs.Serial.{State};
ghost use Rattle.serial_terms.specs.Stores.{opening_of};
ghost use Rattle.journal_terms.specs.Growing.{IsBehind, place_of};
ghost use Rattle.history_audit.specs.Ledgers.{as_entry, HasRoom, IsAdmitted, IsLedgerOf};

use crate::counts::{CALLERS, Counts};
use crate::lines::{RecordHead, Sizes};
use crate::structures::Structures;
use serial_terms::Record;
use serial_terms::laws::pools_are_counts;
use std::alloc::{AllocError, Global};

/// Places are below this one.
pub(crate) const PLACES: u64 = 1152921504606846976;

/// What the records of a journal come to, as far as they have been read.
#[derive(Drop)]
pub(crate) struct Ledger {
    sizes: Sizes,
    structures: Structures,
    // How many records each caller has.
    counts: Counts,
    last: Option<RecordHead>,
    records: u64,
}

// Whether the record may stand behind this last one: the order of a history, no two writers at one place, and none at place 0.
fn may_stand_behind(last: Option<RecordHead>, record: &Record) -> bool
    ensures { IsTrue result ↔ (IsBehind (option_map as_entry last) (entry_of record.now) × (IsTrue record.now.writer → place_of (option_map as_entry last) < record.now.place)) }
{
    match last {
        None => is_placed(record),
        Some(last) => precedes(last, record),
    }
}

fn is_placed(record: &Record) -> bool
    ensures { IsTrue result ↔ (IsTrue record.now.writer → 0 < record.now.place) }
{
    if record.writer {
        record.place > 0
    } else {
        true
    }
}

fn precedes(last: RecordHead, record: &Record) -> bool
    ensures { IsTrue result ↔ (Precedes (as_entry last) (entry_of record.now) × (IsTrue record.now.writer → last.place < record.now.place)) }
{
    if last.place < record.place {
        return true;
    }
    if last.place > record.place || record.writer {
        return false;
    }
    if last.writer || last.caller < record.caller {
        return true;
    }
    last.caller == record.caller && last.index < record.index
}

impl Ledger {
    /// No record has been read.
    pub(crate) fn opened(alloc: Global, sizes: Sizes) -> Result<Ledger, AllocError>
        ensures sizes { IfOk result (λ l. l.sizes ≡ sizes) }
        ensures ledger { IfOk result (λ l. IsLedgerOf l [] (opening_of (layout_by sizes.tasks sizes.groups sizes.findings))) }
    {
        Ok(Ledger {
            sizes,
            structures: Structures::opened(alloc, sizes)?,
            counts: Counts::new(),
            last: None,
            records: 0,
        })
    }

    /// How many records have been read.
    pub(crate) fn records(&self) -> u64
        ensures { result ≡ self.now.records }
    {
        self.records
    }

    /// Whether the record may stand behind those that have been read. It is read then.
    pub(crate) fn admit(&mut self, alloc: Global, record: &Record) -> Result<bool, AllocError>
        requires { HasRoom self.old }
        ensures sizes { self.new.sizes ≡ self.old.sizes }
        ensures exactly { IfOk result (λ b. (es : List (Entry Done)) (end : State) → IsLedgerOf self.old es end → IsAdmitted b self.old.sizes es end (entry_of record.now) self.new) }
    {
        pools_are_counts();
        if record.caller >= CALLERS || record.place >= PLACES {
            return Ok(false);
        }
        let fit = self.sizes.has_calls(record.dones.as_slice());
        if !fit {
            return Ok(false);
        }
        let count = self.counts.get(record.caller);
        if record.index != count {
            return Ok(false);
        }
        let behind = may_stand_behind(self.last, record);
        if !behind {
            return Ok(false);
        }
        let committed = self.structures.commit(alloc, record)?;
        if !committed {
            return Ok(false);
        }
        self.counts.set(record.caller, count + 1);
        self.last = Some(RecordHead {
            place: record.place,
            writer: record.writer,
            caller: record.caller,
            index: record.index,
        });
        self.records += 1;
        Ok(true)
    }
}
