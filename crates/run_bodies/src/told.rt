//! What an attempt on the store of a run knows. Each function does nothing; what it ensures is the law.
ghost use Rattle.serial_terms.specs.Renaming.{by_key};
ghost use Rattle.run_purpose.specs.Lawful.{IsSmall};
ghost use Rattle.run_purpose.specs.Told.{RepliesTell};
ghost use Rattle.run_bodies.specs.RunStores.{IsRunStore, HasParts, RunsFromLawful, work_of_run};

use run_purpose::{RunPurpose, replies_tell_law, run_opens_lawful_law};
use tx_store::StoreTx;

/// The calls that an attempt made so far run, with these replies, from a lawful state of the run, whatever becomes of the attempt. So the
/// replies tell it of the tasks and groups that it works on.
pub(crate) fn told_law<'b>(run: &RunPurpose<'b>, tx: &StoreTx<'_, RunPurpose<'b>>)
    requires store { IsRunStore run.now tx.now.store }
    ensures runs { RunsFromLawful (work_of_run run.now) (by_key tx.now.attempt.notes) }
    ensures tell { RepliesTell (work_of_run run.now) }
    ensures small { IsSmall run.now.plan.now }
    ensures parts { HasParts run.now tx.now.store.table.meaning.plan }
{
    tx.seen_law();
    tx.tells_law();
    run_opens_lawful_law();
    replies_tell_law();
}
