//! An attempt on a store.
ghost use Rattle.std.specs.Prelude.{◌≡◌, ◌*◌, ◌-◌, ◌^◌, ◌<◌, ◌++◌, ◌≤◌, false, [], ◌∷◌, length, get_or, IfOk, IfErr};

use crate::cells::{get_cell, put_cell};
use crate::logs::{append_placed, append_value, length_of, value_at};
use crate::pass::StorePass;
use crate::pools::{give_item, take_item};
use crate::store::Store;
use key_directory::KeyPass;
use std::alloc::{AllocError, Global};
use std::marker::Model;
use store_meaning::laws::attempts_follow_law;
use store_meaning::{Purpose, StoreMeaning};
use tx_core::{Stop, Tx, TxState};

/// An attempt: calls on the structures of a store that become one transaction. It must be spent by a commit or by `abort`.
pub struct StoreTx<'a, P: Purpose> {
    pub(crate) store: &'a Store<P>,
    pub(crate) tx: Tx<'a, StoreMeaning<P>>,
    pub(crate) keys: KeyPass<P::Keys>,
}

impl<'a, P: Purpose> Model for StoreTx<'a, P> {
    ghost use Rattle.std.specs.Prelude.{◌≡◌};
    ghost use Rattle.store_meaning.specs.declared.meaning.StoreMeaning.{StoreMeaning as Means};
    ghost use Rattle.tx_store.specs.Stores.{TxView, IsPairedAttempt};
    ghost use Rattle.tx_store.specs.Attempts.{Tells};

    ghost Value = { TxView (Means P P.Keys) };

    ghost view = { λ t. record { store = t.store.now; attempt = t.tx; keys = t.keys } };

    ghost invariant = { λ t. (t.tx.table ≡ t.store.now.table) × (t.keys.directory ≡ t.store.now.directory) × Tells P.Keys.passes t.store.now.table.meaning.plan t.tx × IsPairedAttempt t.tx t.keys };
}

impl<'a, P: Purpose> StoreTx<'a, P> {
    ghost use Rattle.cell_table.specs.declared.view.Event.TheVariants.{ClockLoaded};
    ghost use Rattle.cell_table.specs.Steps.{IsIdle, Grows, clocked};
    ghost use Rattle.cell_table.specs.Pass.{trail_of};
    ghost use Rattle.serial_terms.specs.declared.sight.SightEnd.TheVariants.{Aborted};
    ghost use Rattle.tx_core.specs.Causes.{GrewBy};
    ghost use Rattle.tx_store.specs.Commits.{SeesCalls};
    ghost use Rattle.tx_core.specs.Calls.{MayCall, NothingWaits, stop_in, memory_in};
    ghost use Rattle.tx_core.specs.declared.stop.TxState.TheVariants.{Running};
    ghost use Rattle.serial_terms.specs.Serial.{found};
    ghost use Rattle.serial_terms.specs.declared.call.Call.TheVariants.{CellGet, CellPut, Take, Give, Append, AppendPlaced, LogRead, LogLen};
    ghost use Rattle.serial_terms.specs.declared.call.Reply.TheVariants.{Nothing, Value, Flag};
    ghost use Rattle.store_layout.specs.Shapes.{the_cell, the_pool, the_log};
    ghost use Rattle.store_parts.specs.Parts.{noted};
    ghost use Rattle.tx_store.specs.Attempts.{Tells};
    ghost use Rattle.tx_store.specs.Stores.{IsPassOfStore};
    ghost use Rattle.tx_store.specs.Calls.{in_child, done_in, IsCalled};

    /// Begins an attempt. Its version is the word of one load of the clock, the only step of the call.
    ///
    /// After want of memory the pass comes back unchanged.
    pub fn begin(
        alloc: Global,
        store: &'a Store<P>,
        pass: StorePass<P>,
    ) -> Result<StoreTx<'a, P>, (StorePass<P>, AllocError)>
        requires of { IsPassOfStore store.now pass }
        requires idle { IsIdle pass.pass.view }
        requires draw { 0 < pass.pass.view.draws }
        ensures store { IfOk result (λ t. (t.store ≡ store.now) × (t.keys ≡ pass.keys)) }
        ensures fresh { IfOk result (λ t. (t.attempt.state ≡ Running) × (t.attempt.observations ≡ []) × (t.attempt.writes ≡ []) × (t.attempt.notes ≡ []) × NothingWaits t.attempt × (t.attempt.committing ≡ false)) }
        ensures pass { IfOk result (λ t. t.attempt.pass ≡ record pass.pass { view = clocked pass.pass.view t.attempt.version; reserved = t.attempt.pass.reserved }) }
        ensures version { IfOk result (λ t. (trail_of t.attempt.pass ≡ trail_of pass.pass ++ ClockLoaded t.attempt.version ∷ []) × (pass.pass.seen ≤ t.attempt.version)) }
        ensures grows { IfOk result (λ t. Grows pass.pass.view t.attempt.pass.view) }
        ensures refused { IfErr result (λ back. back.0 ≡ pass) }
    {
        attempts_follow_law();
        let StorePass { pass, keys } = pass;
        match Tx::begin(alloc, &store.table, pass) {
            Ok(tx) => Ok(StoreTx { store, tx, keys }),
            Err((pass, memory)) => Err((StorePass { pass, keys }, memory)),
        }
    }

    /// How the attempt stands.
    pub fn state(&self) -> TxState
        ensures { result ≡ self.now.attempt.state }
    {
        self.tx.state()
    }

    /// The place at which all that it read stands.
    pub fn version(&self) -> u64
        ensures { result ≡ self.now.attempt.version }
    {
        self.tx.version()
    }

    /// What the notes of an attempt tell at any moment: its calls run, with these replies, from the state of any well-formed cells
    /// in which all holds that it observed. While it is open they run to the state that it has.
    pub fn tells_law(&self)
        ensures { Tells P.Keys.passes self.now.store.table.meaning.plan self.now.attempt }
    {
        self.tx.limits_law();
    }

    /// Ends the attempt without a record. The pass is idle, has the books that it had, and has seen the attempt's version.
    #[tactic(auto, using(crate::proofs::Pairing::paired_same))]
    pub fn abort(self) -> StorePass<P>
        ensures of { IsPassOfStore self.entry.store result }
        ensures idle { IsIdle result.pass.view }
        ensures seen { result.pass.seen ≡ self.entry.attempt.version }
        ensures books { result.pass.books ≡ self.entry.attempt.pass.books }
        ensures pass { (result.pass.room ≡ self.entry.attempt.pass.room) × (result.pass.view.draws ≡ self.entry.attempt.pass.view.draws) }
        ensures keys { result.keys ≡ self.entry.keys }
        ensures grows { Grows self.entry.attempt.pass.view result.pass.view }
        ensures steps { GrewBy (length self.entry.attempt.pass.view.held) (trail_of self.entry.attempt.pass) (trail_of result.pass) }

        // It vouches for it that the calls were seen at the attempt's version.
        ensures sees { SeesCalls P.lawful_state self.entry result self.entry.attempt.version Aborted }
    {
        self.tells_law();
        let StoreTx { store: _, tx, keys } = self;
        tx.vouched_law();
        tx.pass_law();
        StorePass {
            pass: tx.abort(),
            keys,
        }
    }

    /// The value of a plain cell, which is noted. After a stop nothing is noted, and the attempt is stopped.
    pub fn cell_get(&mut self, cell: u32) -> Result<u64, Stop>
        requires callable { MayCall self.old.attempt }
        requires cell { cell < self.old.store.table.meaning.plan.cells }
        ensures { IsCalled self.old.store.table.meaning.plan (the_cell cell) 3 self.old self.new (done_in (λ x. noted (CellGet cell) (Value x) (in_child self.old.attempt.state) 0) result) (stop_in result) }
    {
        let plan = self.store.plan();
        get_cell(&mut self.tx, plan, cell)
    }

    /// Gives a plain cell a value, which is noted. After want of memory nothing is noted, and the attempt is stopped.
    pub fn cell_put(&mut self, cell: u32, value: u64) -> Result<(), AllocError>
        requires callable { MayCall self.old.attempt }
        requires cell { cell < self.old.store.table.meaning.plan.cells }
        ensures { IsCalled self.old.store.table.meaning.plan (the_cell cell) 0 self.old self.new (done_in (λ _. noted (CellPut cell value) Nothing (in_child self.old.attempt.state) 0) result) (memory_in result) }
    {
        let plan = self.store.plan();
        put_cell(&mut self.tx, plan, cell, value)
    }

    /// Takes an item of a pool out, by a walk once round its slots from the slot `from mod slots`: `None` where every slot is
    /// empty. It is noted. After a stop nothing is noted, and the attempt is stopped.
    pub fn pool_take(&mut self, pool: u32, from: u32) -> Result<Option<u64>, Stop>
        requires callable { MayCall self.old.attempt }
        requires pool { pool < length self.old.store.table.meaning.plan.pools }
        ensures { IsCalled self.old.store.table.meaning.plan (the_pool pool) (6 * get_or self.old.store.table.meaning.plan.pools pool 0) self.old self.new (done_in (λ item. noted (Take pool) (found item) (in_child self.old.attempt.state) 0) result) (stop_in result) }
    {
        let plan = self.store.plan();
        take_item(&mut self.tx, plan, pool, from)
    }

    /// Puts an item below 2^64 - 1 into a pool, by such a walk: `false` where every slot has an item. It is noted. After a stop
    /// nothing is noted, and the attempt is stopped.
    pub fn pool_put(&mut self, pool: u32, value: u64, from: u32) -> Result<bool, Stop>
        requires callable { MayCall self.old.attempt }
        requires pool { pool < length self.old.store.table.meaning.plan.pools }
        requires value { value < 2 ^ 64 - 1 }
        ensures { IsCalled self.old.store.table.meaning.plan (the_pool pool) (6 * get_or self.old.store.table.meaning.plan.pools pool 0) self.old self.new (done_in (λ done. noted (Give pool value) (Flag done) (in_child self.old.attempt.state) 0) result) (stop_in result) }
    {
        let plan = self.store.plan();
        give_item(&mut self.tx, plan, pool, value, from)
    }

    /// Adds a value below 2^64 - 1 to the end of a log when the attempt commits. It looks at nothing, and is noted. After want of
    /// memory nothing is noted, and the attempt is stopped.
    pub fn log_append(&mut self, log: u32, value: u64) -> Result<(), AllocError>
        requires callable { MayCall self.old.attempt }
        requires log { log < length self.old.store.table.meaning.plan.logs }
        requires value { value < 2 ^ 64 - 1 }
        ensures { IsCalled self.old.store.table.meaning.plan (the_log log) 0 self.old self.new (done_in (λ _. noted (Append log value) Nothing (in_child self.old.attempt.state) 0) result) (memory_in result) }
    {
        let plan = self.store.plan();
        append_value(&mut self.tx, plan, log, value)
    }

    /// The value at place `i` of a log, or `None` where the log isn't that long, the attempt's own additions counted. It is
    /// noted. After a stop nothing is noted, and the attempt is stopped.
    pub fn log_read(&mut self, log: u32, i: u64) -> Result<Option<u64>, Stop>
        requires callable { MayCall self.old.attempt }
        requires log { log < length self.old.store.table.meaning.plan.logs }
        ensures { IsCalled self.old.store.table.meaning.plan (the_log log) 6 self.old self.new (done_in (λ x. noted (LogRead log i) (found x) (in_child self.old.attempt.state) 0) result) (stop_in result) }
    {
        let plan = self.store.plan();
        value_at(&mut self.tx, plan, log, i)
    }

    /// How many values a log has, the attempt's own additions counted. It is noted. After a stop nothing is noted, and the
    /// attempt is stopped.
    pub fn log_len(&mut self, log: u32) -> Result<u64, Stop>
        requires callable { MayCall self.old.attempt }
        requires log { log < length self.old.store.table.meaning.plan.logs }
        ensures { IsCalled self.old.store.table.meaning.plan (the_log log) 3 self.old self.new (done_in (λ n. noted (LogLen log) (Value n) (in_child self.old.attempt.state) 0) result) (stop_in result) }
    {
        let plan = self.store.plan();
        length_of(&mut self.tx, plan, log)
    }

    /// Adds a value below 2^64 - 1 to the end of a log when the attempt commits, and answers the place that it will have, for which
    /// the log's end is held from now on. It is noted. After a stop nothing is noted, and the attempt is stopped.
    pub fn log_append_placed(&mut self, log: u32, value: u64) -> Result<u64, Stop>
        requires callable { MayCall self.old.attempt }
        requires log { log < length self.old.store.table.meaning.plan.logs }
        requires value { value < 2 ^ 64 - 1 }
        ensures { IsCalled self.old.store.table.meaning.plan (the_log log) 3 self.old self.new (done_in (λ n. noted (AppendPlaced log value) (Value n) (in_child self.old.attempt.state) 0) result) (stop_in result) }
    {
        let plan = self.store.plan();
        append_placed(&mut self.tx, plan, log, value)
    }
}
