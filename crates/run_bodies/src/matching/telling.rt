//! What a walk through a group is told. Each function does nothing; what it ensures is the law.
ghost use Rattle.std.specs.Prelude.{◌≡◌, ℕ, List, ◌∷◌};
ghost use Rattle.serial_terms.specs.Renaming.{by_key};
ghost use Rattle.run_stages.specs.Work.{head_of};
ghost use Rattle.run_findings.specs.Datagrams.{AreAllTasks};
ghost use Rattle.run_bodies.specs.Matching.{AreSomeTasks, walking, walked_all};
ghost use Rattle.run_bodies.specs.RunStores.{IsRunStore, work_of_run};

use crate::told::told_law;
use run_purpose::RunPurpose;
use run_stages::laws::{walk_finds_group_law, walk_stays_in_group_law};
use tx_store::StoreTx;

/// A walk that has come so far went through tasks of the group, each once.
pub(crate) fn walk_tells_law<'b>(
    run: &RunPurpose<'b>,
    tx: &StoreTx<'_, RunPurpose<'b>>,
    group: u32,
    word: u64,
)
    requires { IsRunStore run.now tx.now.store }
    ensures { (before : List ℕ) → by_key tx.now.attempt.notes ≡ walking group word before → AreSomeTasks (work_of_run run.now) group (head_of word ∷ before) }
{
    told_law(run, tx);
    walk_stays_in_group_law();
}

/// One that has come to its end went through all tasks of the group, which is complete.
pub(crate) fn walk_ends_law<'b>(
    run: &RunPurpose<'b>,
    tx: &StoreTx<'_, RunPurpose<'b>>,
    group: u32,
    word: u64,
)
    requires { IsRunStore run.now tx.now.store }
    ensures { (before : List ℕ) → by_key tx.now.attempt.notes ≡ walked_all (work_of_run run.now) group word before → AreAllTasks (work_of_run run.now) group (head_of word ∷ before) }
{
    told_law(run, tx);
    walk_finds_group_law();
}
