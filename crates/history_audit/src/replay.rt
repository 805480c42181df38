// The sights of a journal, judged one after another beside its records.
ghost use Rattle.std.specs.Prelude.{◌≡◌, ◌↔◌, ◌<◌, ◌≤◌, ◌^◌, ℕ, IsTrue, IfOk, List, length, take, [], ◌+◌};
ghost use Rattle.serial_terms.specs.declared.call.Done.{Done};
ghost use Rattle.serial_terms.specs.Entries.{Each, Entry, up_to};
ghost use Rattle.serial_terms.specs.Histories.{entry_of};
ghost use Rattle.serial_terms.specs.Sights.{Seen, seen_of};
ghost use Rattle.journal_terms.specs.Legal.{IsEndIn};
ghost use Rattle.journal_terms.specs.Naming.{IsNotBelow};
ghost use Rattle.history_audit.specs.Begun.{records_in};
ghost use Rattle.history_audit.specs.Ledgers.{layout_of};
ghost use Rattle.history_audit.specs.Replays.{AreRecordsOf, HasNextRun, breadth, waiting, IsReplayOf, IsOrderOf, IsWatched, KeepsOrder};
ghost use Rattle.history_audit.specs.Structures.{state_of, IsFirst, IsListed, IsOfTwoParts};
ghost use Rattle.history_audit.specs.Counts.{count_of};

use crate::counts::{CALLERS, Counts};
use crate::ledger::PLACES;
use crate::lines::{Sizes, read_record};
use crate::structures::Structures;
use crate::words::cut;
use serial_terms::laws::{
    pools_are_counts, records_leave_one_state_law, records_run_in_parts_law, runs_to_one_state_law,
};
use serial_terms::{Record, Sight, SightEnd};
use std::alloc::{AllocError, Global};

/// The state at the place of the last sight, and what the sights come to.
#[derive(Drop)]
pub(crate) struct Replay<'t> {
    sizes: Sizes,
    structures: Structures,
    // The record that is run next, and the lines behind its own.
    next: Option<Record>,
    left: &'t [u8],
    // How many records were run, and how many of these each caller has.
    done: usize,
    counts: Counts,
    // Place and caller of the last sight, and what each caller's sights say at most that it had committed.
    place: u64,
    caller: u32,
    afters: Counts,
}

fn is_end_in(end: SightEnd) -> bool
    ensures { IsTrue result ↔ IsOfTwoParts end }
{
    match end {
        SightEnd::Full { part, .. } => part < 2,
        _ => true,
    }
}

// The record of the first line, where it is one's, and the lines behind it.
fn first_record(alloc: Global, lines: &[u8]) -> Result<(Option<Record>, &[u8]), AllocError>
    ensures read { IfOk result (λ p. records_in lines.now ≡ waiting p.0 (records_in p.1.now)) }
    ensures fewer { IfOk result (λ p. breadth p.0 + length p.1.now ≤ length lines.now) }
{
    let (line, behind) = cut(b'\n', lines);
    let behind = match behind {
        None => return Ok((None, lines)),
        Some(behind) => behind,
    };
    let record = read_record(alloc, line)?;
    Ok((record, behind))
}

impl<'t> Replay<'t> {
    /// No record of these lines has been run, and no sight been read.
    pub(crate) fn opened(
        alloc: Global,
        sizes: Sizes,
        records: &'t [u8],
    ) -> Result<Replay<'t>, AllocError>
        ensures sizes { IfOk result (λ r. r.sizes ≡ sizes) }
        ensures order { IfOk result (λ r. IsOrderOf r []) }
        ensures replay { IfOk result (λ r. IsReplayOf r (records_in records.now)) }
    {
        let (next, left) = first_record(alloc, records)?;
        Ok(Replay {
            sizes,
            structures: Structures::opened(alloc, sizes)?,
            next,
            left,
            done: 0,
            counts: Counts::new(),
            place: 0,
            caller: 0,
            afters: Counts::new(),
        })
    }

    // Runs one record more.
    fn run_next(&mut self, alloc: Global, record: &Record) -> Result<(), AllocError>
        requires about { Each (λ d. IsFirst d.call) record.now.dones }
        requires listed { IsListed (state_of self.old.structures) }
        requires caller { record.now.caller < 16 }
        requires few { count_of self.old.counts record.now.caller < 2 ^ 63 }
        requires more { self.old.done < 2 ^ 63 }
        ensures { IfOk result (λ _. HasNextRun self.old (entry_of record.now) self.new) }
    {
        runs_to_one_state_law();
        let mut changes = Vec::new(alloc);
        self.structures.run(record.dones.as_slice(), &mut changes)?;
        let count = self.counts.get(record.caller);
        self.counts.set(record.caller, count + 1);
        self.done += 1;
        Ok(())
    }

    // Runs the records up to the place, which isn't below the last sight's.
    fn advance(&mut self, alloc: Global, place: u64) -> Result<(), AllocError>
        requires records { (es : List (Entry Done)) × AreRecordsOf self.old es }
        requires later { self.old.place ≤ place }
        ensures kept { IfOk result (λ _. KeepsOrder self.old self.new place) }
        ensures replay { IfOk result (λ _. (es : List (Entry Done)) → AreRecordsOf self.old es → IsReplayOf self.new es) }
        ensures reached { IfOk result (λ _. (es : List (Entry Done)) → AreRecordsOf self.old es → up_to place es ≡ take self.new.done es) }
    {
        pools_are_counts();
        records_leave_one_state_law();
        records_run_in_parts_law();
        self.place = place;
        'records: loop {
            let record = match self.next.take() {
                None => return Ok(()),
                Some(record) => record,
            };
            if record.place > place {
                self.next = Some(record);
                return Ok(());
            }
            self.run_next(alloc, &record)?;
            let (next, left) = first_record(alloc, self.left)?;
            self.next = next;
            self.left = left;
        }
    }

    // Whether the sight may stand behind the last one, by place and then by caller.
    fn is_behind(&self, sight: &Sight) -> bool
        ensures { IsTrue result ↔ IsNotBelow (self.now.place, self.now.caller) (seen_of sight.now) }
    {
        if self.place < sight.place {
            return true;
        }
        self.place == sight.place && self.caller <= sight.caller
    }

    /// Whether the sight may stand behind those that have been read, beside the records. It is read then.
    pub(crate) fn admit(&mut self, alloc: Global, sight: &Sight) -> Result<bool, AllocError>
        requires { (es : List (Entry Done)) × AreRecordsOf self.old es }
        ensures sizes { IfOk result (λ _. self.new.sizes ≡ self.old.sizes) }
        ensures exactly { IfOk result (λ b. (es : List (Entry Done)) (vs : List (Seen Done)) → AreRecordsOf self.old es → IsOrderOf self.old vs → IsWatched b self.old.sizes es vs (seen_of sight.now) self.new) }
    {
        pools_are_counts();
        records_leave_one_state_law();
        if sight.caller >= CALLERS || sight.place >= PLACES {
            return Ok(false);
        }
        let end = is_end_in(sight.end);
        if !end {
            return Ok(false);
        }
        let fit = self.sizes.has_calls(sight.dones.as_slice());
        if !fit {
            return Ok(false);
        }
        let most = self.afters.get(sight.caller);
        if sight.after < most {
            return Ok(false);
        }
        let behind = self.is_behind(sight);
        if !behind {
            return Ok(false);
        }
        self.advance(alloc, sight.place)?;
        let count = self.counts.get(sight.caller);
        if sight.after > count {
            return Ok(false);
        }
        let seen = self.structures.sees(alloc, sight)?;
        if !seen {
            return Ok(false);
        }
        self.caller = sight.caller;
        self.afters.set(sight.caller, sight.after);
        Ok(true)
    }
}
