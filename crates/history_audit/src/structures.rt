// The serial structures of a run: two maps, a queue, a pool, a log and a plain cell.
ghost use Rattle.std.specs.Prelude.{◌≡◌, ◌↔◌, ◌<◌, ◌≤◌, ◌^◌, ℕ, List, true, false, IsTrue, IfOk, length, Some, None, nat_lt, slice_get};
ghost use Rattle.std.specs.Prelude.{◌∷◌, ◌++◌, []};
ghost use Rattle.serial_terms.specs.Serial.{Allows, IsTakenFrom, after, after_give, after_take, by_value, first, found, put_cell, put_log, put_map, put_queue, rest};
ghost use Rattle.std.specs.Prelude.{nat_eq, ◌+◌, map, min, max};
ghost use Rattle.serial_terms.specs.Histories.{entry_of};
ghost use Rattle.std.specs.Map.{count_at};
ghost use Rattle.std.specs.HashMap.{get};
ghost use Rattle.serial_terms.specs.Counts.{numbers_from, times};
ghost use Rattle.serial_terms.specs.Entries.{Each};
ghost use Rattle.serial_terms.specs.RunLayout.{layout_by};
ghost use Rattle.serial_terms.specs.Serial.{IsWithinCapacity};
ghost use Rattle.serial_terms.specs.Sights.{EndsAs, seen_of};
ghost use Rattle.serial_terms.specs.Stores.{opening_of};
ghost use Rattle.history_audit.specs.Structures.{state_of, back, put_item, but_last, undone, now_at, Has, IsAs, HasRun, HasCommitted, HasSeen, IsSameAgain, IsFirst, IsListed, IsOfTwoParts};

use crate::lines::Sizes;
use serial_terms::laws::{pools_are_counts, runs_to_one_state_law};
use serial_terms::{Call, Done, Record, Reply, Sight, SightEnd};
use std::alloc::{AllocError, Global};
use std::collections::{HashMap, VecDeque};

/// How many tasks a batch has at most, and with that how many items the pool and the queue hold.
const BATCH: u64 = 4096;

/// The structures of a run as calls have left them. The queue and the pool have room for so many values each, and the log for so many
/// findings.
#[derive(Drop)]
pub(crate) struct Structures {
    // The maps' values, by a map's number and a key.
    values: HashMap<(u32, u64), u64>,
    queue: VecDeque<u64>,
    room: u64,
    // How often each item is in the pool, and how many items it has.
    counts: HashMap<u64, u64>,
    held: u64,
    log: Vec<u64>,
    findings: u64,
    cell: u64,
}

/// What has to be known of a call's structure to take the call back.
#[derive(Clone, Copy, Debug)]
pub(crate) enum Change {
    /// Nothing was changed.
    Same,
    /// A map gave the key this value, or none.
    Key {
        map: u32,
        key: u64,
        value: Option<u64>,
    },
    /// A value was put last in the queue.
    Enqueued,
    /// This value was taken from the front of the queue.
    Dequeued(u64),
    /// The item was so often in the pool, and the pool had so many items.
    Item {
        item: u64,
        count: u64,
        held: u64,
    },
    /// A value was put last in the log.
    Appended,
    /// The plain cell had this value.
    Cell(u64),
}

fn reply_of(value: Option<u64>) -> Reply
    ensures { result ≡ found value }
{
    match value {
        Some(value) => Reply::Value(value),
        None => Reply::Absent,
    }
}

// What the structures have.
#[tactic(auto, using(crate::proofs::Stated::queue_at, crate::proofs::Stated::pool_at, crate::proofs::Stated::log_at, crate::proofs::Stated::cell_at), unfolding(crate::specs::Structures::state_of))]
impl Structures {
    fn value(&self, map: u32, key: u64) -> Option<u64>
        ensures { result ≡ (state_of self.now).maps map key }
    {
        self.values.get(&(map, key)).copied()
    }

    fn count(&self, item: u64) -> u64
        ensures { result ≡ ((state_of self.now).pools 0).count item }
    {
        self.counts.get(&item).copied().unwrap_or(0)
    }

    fn held(&self) -> u64
        ensures { result ≡ ((state_of self.now).pools 0).held }
    {
        self.held
    }

    fn slots(&self) -> u64
        ensures { result ≡ ((state_of self.now).pools 0).slots }
    {
        self.room
    }

    fn queue_len(&self) -> u64
        ensures { result ≡ length ((state_of self.now).queues 0).items }
    {
        self.queue.len() as u64
    }

    fn room(&self) -> u64
        ensures { result ≡ ((state_of self.now).queues 0).capacity }
    {
        self.room
    }

    fn log_len(&self) -> u64
        ensures { result ≡ length ((state_of self.now).logs 0).items }
    {
        self.log.len() as u64
    }

    fn log_room(&self) -> u64
        ensures { result ≡ ((state_of self.now).logs 0).capacity }
    {
        self.findings
    }

    fn cell(&self) -> u64
        ensures { result ≡ (state_of self.now).cells 0 }
    {
        self.cell
    }

    fn front(&self) -> Reply
        ensures { result ≡ first ((state_of self.now).queues 0).items }
    {
        reply_of(self.queue.front().copied())
    }

    fn entry(&self, i: u64) -> Reply
        ensures { result ≡ found (slice_get ((state_of self.now).logs 0).items i) }
    {
        reply_of(self.log.get(i as usize).copied())
    }

    // Whether the reply to a take is some item that is there, or that there is none.
    fn allows_take(&self, reply: Reply) -> bool
        ensures { IsTrue result ↔ IsTakenFrom ((state_of self.now).pools 0) reply }
    {
        match reply {
            Reply::Value(item) => self.count(item) > 0,
            Reply::Absent => self.held == 0,
            Reply::Nothing | Reply::Flag(_) => false,
        }
    }
}

impl Structures {
    /// Whether the structures may reply this to the call.
    #[tactic(auto, using(crate::proofs::Stated::queue_at, crate::proofs::Stated::pool_at, crate::proofs::Stated::log_at, crate::proofs::Stated::cell_at))]
    pub(crate) fn allows(&self, call: Call, reply: Reply) -> bool
        requires { IsFirst call }
        ensures { IsTrue result ↔ Allows (state_of self.now) call reply }
    {
        match call {
            Call::MapGet { map, key } => reply == reply_of(self.value(map, key)),
            Call::MapPutIfAbsent { map, key, .. } => reply == reply_of(self.value(map, key)),
            Call::Dequeue { .. } => reply == self.front(),
            Call::QueueLen { .. } => reply == Reply::Value(self.queue_len()),
            Call::Take { .. } => self.allows_take(reply),
            Call::Give { .. } => reply == Reply::Flag(self.held < self.room),
            Call::AppendPlaced { .. } => reply == Reply::Value(self.log_len()),
            Call::LogLen { .. } => reply == Reply::Value(self.log_len()),
            Call::LogRead { i, .. } => reply == self.entry(i),
            Call::CellGet { .. } => reply == Reply::Value(self.cell),
            Call::MapPut { .. } => reply == Reply::Nothing,
            Call::MapRemove { .. } => reply == Reply::Nothing,
            Call::Enqueue { .. } => reply == Reply::Nothing,
            Call::Append { .. } => reply == Reply::Nothing,
            Call::CellPut { .. } => reply == Reply::Nothing,
        }
    }
}

// One structure changed.
impl Structures {
    fn set_value(&mut self, map: u32, key: u64, value: Option<u64>) -> Result<(), AllocError>
        ensures { IfOk result (λ _. state_of self.new ≡ put_map (state_of self.old) map key value) }
    {
        match value {
            Some(value) => {
                self.values.insert((map, key), value)?;
            }
            None => {
                self.values.remove(&(map, key));
            }
        }
        Ok(())
    }

    // The item is so often in the pool, which has so many items.
    fn set_item(&mut self, item: u64, count: u64, held: u64) -> Result<(), AllocError>
        ensures { IfOk result (λ _. state_of self.new ≡ put_item (state_of self.old) item count held) }
    {
        self.counts.insert(item, count)?;
        self.held = held;
        Ok(())
    }

    fn set_cell(&mut self, value: u64)
        ensures { state_of self.new ≡ put_cell (state_of self.old) 0 value }
    {
        self.cell = value;
    }

    fn push_last(&mut self, value: u64) -> Result<(), AllocError>
        ensures { IfOk result (λ _. state_of self.new ≡ put_queue (state_of self.old) 0 (((state_of self.old).queues 0).items ++ value ∷ [])) }
    {
        self.queue.push_back(value)?;
        Ok(())
    }

    fn push_first(&mut self, value: u64) -> Result<(), AllocError>
        ensures { IfOk result (λ _. state_of self.new ≡ put_queue (state_of self.old) 0 (value ∷ ((state_of self.old).queues 0).items)) }
    {
        self.queue.push_front(value)?;
        Ok(())
    }

    fn drop_first(&mut self)
        ensures { state_of self.new ≡ put_queue (state_of self.old) 0 (rest ((state_of self.old).queues 0).items) }
    {
        self.queue.pop_front();
    }

    fn drop_last(&mut self)
        ensures { state_of self.new ≡ put_queue (state_of self.old) 0 (but_last ((state_of self.old).queues 0).items) }
    {
        self.queue.pop_back();
    }

    fn push_entry(&mut self, value: u64) -> Result<(), AllocError>
        ensures { IfOk result (λ _. state_of self.new ≡ put_log (state_of self.old) 0 (((state_of self.old).logs 0).items ++ value ∷ [])) }
    {
        self.log.push(value)?;
        Ok(())
    }

    fn drop_entry(&mut self)
        ensures { state_of self.new ≡ put_log (state_of self.old) 0 (but_last ((state_of self.old).logs 0).items) }
    {
        self.log.pop();
    }
}

// What calls do.
#[tactic(auto, using(crate::proofs::Backs::put_map_back, crate::proofs::Backs::put_queue_back, crate::proofs::Backs::put_log_back, crate::proofs::Backs::put_cell_back, crate::proofs::Backs::put_item_back))]
impl Structures {
    fn put(&mut self, map: u32, key: u64, value: Option<u64>) -> Result<Change, AllocError>
        ensures after { IfOk result (λ _. state_of self.new ≡ put_map (state_of self.old) map key value) }
        ensures back { IfOk result (λ c. back c (state_of self.new) ≡ state_of self.old) }
    {
        let before = self.value(map, key);
        self.set_value(map, key, value)?;
        Ok(Change::Key {
            map,
            key,
            value: before,
        })
    }

    fn put_if_absent(
        &mut self,
        map: u32,
        key: u64,
        value: u64,
        reply: Reply,
    ) -> Result<Change, AllocError>
        ensures after { IfOk result (λ _. state_of self.new ≡ by_value reply (state_of self.old) (put_map (state_of self.old) map key (Some value))) }
        ensures back { IfOk result (λ c. back c (state_of self.new) ≡ state_of self.old) }
    {
        match reply {
            Reply::Value(_) => Ok(Change::Same),
            _ => self.put(map, key, Some(value)),
        }
    }

    fn enqueue(&mut self, value: u64) -> Result<Change, AllocError>
        ensures after { IfOk result (λ _. state_of self.new ≡ put_queue (state_of self.old) 0 (((state_of self.old).queues 0).items ++ value ∷ [])) }
        ensures back { IfOk result (λ c. back c (state_of self.new) ≡ state_of self.old) }
    {
        self.push_last(value)?;
        Ok(Change::Enqueued)
    }

    fn dequeue(&mut self, reply: Reply) -> Change
        requires { reply ≡ first ((state_of self.old).queues 0).items }
        ensures after { state_of self.new ≡ by_value reply (put_queue (state_of self.old) 0 (rest ((state_of self.old).queues 0).items)) (state_of self.old) }
        ensures back { back result (state_of self.new) ≡ state_of self.old }
    {
        match reply {
            Reply::Value(value) => {
                self.drop_first();
                Change::Dequeued(value)
            }
            _ => Change::Same,
        }
    }

    fn append(&mut self, value: u64) -> Result<Change, AllocError>
        ensures after { IfOk result (λ _. state_of self.new ≡ put_log (state_of self.old) 0 (((state_of self.old).logs 0).items ++ value ∷ [])) }
        ensures back { IfOk result (λ c. back c (state_of self.new) ≡ state_of self.old) }
    {
        self.push_entry(value)?;
        Ok(Change::Appended)
    }

    fn put_cell(&mut self, value: u64) -> Change
        ensures after { state_of self.new ≡ put_cell (state_of self.old) 0 value }
        ensures back { back result (state_of self.new) ≡ state_of self.old }
    {
        let before = self.cell();
        self.set_cell(value);
        Change::Cell(before)
    }

    fn take(&mut self, reply: Reply) -> Result<Change, AllocError>
        requires allowed { IsTakenFrom ((state_of self.old).pools 0) reply }
        requires listed { IsListed (state_of self.old) }
        ensures after { IfOk result (λ _. state_of self.new ≡ after_take (state_of self.old) 0 reply) }
        ensures back { IfOk result (λ c. back c (state_of self.new) ≡ state_of self.old) }
    {
        match reply {
            Reply::Value(item) => {
                let count = self.count(item);
                let held = self.held();
                self.set_item(item, count - 1, held - 1)?;
                Ok(Change::Item { item, count, held })
            }
            _ => Ok(Change::Same),
        }
    }

    fn give(&mut self, item: u64) -> Result<Change, AllocError>
        requires { IsListed (state_of self.old) }
        ensures after { IfOk result (λ _. state_of self.new ≡ after_give (state_of self.old) 0 item (Reply.Flag (nat_lt ((state_of self.old).pools 0).held ((state_of self.old).pools 0).slots))) }
        ensures back { IfOk result (λ c. back c (state_of self.new) ≡ state_of self.old) }
    {
        let held = self.held();
        if held < self.slots() {
            let count = self.count(item);
            self.set_item(item, count + 1, held + 1)?;
            Ok(Change::Item { item, count, held })
        } else {
            Ok(Change::Same)
        }
    }

    /// The call with this reply; and how it is taken back.
    pub(crate) fn step(&mut self, call: Call, reply: Reply) -> Result<Change, AllocError>
        requires about { IsFirst call }
        requires allowed { Allows (state_of self.old) call reply }
        requires listed { IsListed (state_of self.old) }
        ensures after { IfOk result (λ _. state_of self.new ≡ after (state_of self.old) call reply) }
        ensures back { IfOk result (λ c. back c (state_of self.new) ≡ state_of self.old) }
    {
        match call {
            Call::MapPut { map, key, value } => self.put(map, key, Some(value)),
            Call::MapRemove { map, key } => self.put(map, key, None),
            Call::MapPutIfAbsent { map, key, value } => self.put_if_absent(map, key, value, reply),
            Call::Enqueue { value, .. } => self.enqueue(value),
            Call::Dequeue { .. } => Ok(self.dequeue(reply)),
            Call::Take { .. } => self.take(reply),
            Call::Give { value, .. } => self.give(value),
            Call::Append { value, .. } => self.append(value),
            Call::AppendPlaced { value, .. } => self.append(value),
            Call::CellPut { value, .. } => Ok(self.put_cell(value)),
            _ => Ok(Change::Same),
        }
    }

    /// The state before the change.
    pub(crate) fn take_back(&mut self, change: Change) -> Result<(), AllocError>
        ensures { IfOk result (λ _. state_of self.new ≡ back change (state_of self.old)) }
    {
        match change {
            Change::Same => {}
            Change::Key { map, key, value } => self.set_value(map, key, value)?,
            Change::Enqueued => self.drop_last(),
            Change::Dequeued(value) => self.push_first(value)?,
            Change::Item { item, count, held } => self.set_item(item, count, held)?,
            Change::Appended => self.drop_entry(),
            Change::Cell(value) => self.set_cell(value),
        }
        Ok(())
    }
}

// Runs of calls.
impl Structures {
    /// The structures as a run of these sizes opens them: the pool has the first batch of tasks, and nothing else has anything.
    pub(crate) fn opened(alloc: Global, sizes: Sizes) -> Result<Structures, AllocError>
        ensures { IfOk result (λ s. state_of s ≡ opening_of (layout_by sizes.tasks sizes.groups sizes.findings)) }
    {
        let given = first_batch(sizes.tasks);
        Ok(Structures {
            values: HashMap::new(alloc),
            queue: VecDeque::new(alloc),
            room: room_for(sizes.tasks),
            counts: first_items(alloc, given)?,
            held: given,
            log: Vec::new(alloc),
            findings: sizes.findings,
            cell: 0,
        })
    }

    /// Runs the calls one after another as long as the structures may reply what each was replied, and puts behind `changes` how these
    /// are taken back. Whether all of them ran.
    pub(crate) fn run(
        &mut self,
        dones: &[Done],
        changes: &mut Vec<Change>,
    ) -> Result<bool, AllocError>
        requires about { Each (λ d. IsFirst d.call) dones.now }
        requires listed { IsListed (state_of self.old) }
        ensures runs { IfOk result (λ b. HasRun b (state_of self.old) dones.now (state_of self.new)) }
        ensures back { IfOk result (λ b. undone changes.new.items (state_of self.new) ≡ undone changes.old.items (state_of self.old)) }
    {
        pools_are_counts();
        for done in dones {
            if !self.allows(done.call, done.reply) {
                return Ok(false);
            }
            let change = self.step(done.call, done.reply)?;
            changes.push(change)?;
        }
        Ok(true)
    }

    /// Takes the changes back, the last one first.
    pub(crate) fn undo(&mut self, mut changes: Vec<Change>) -> Result<(), AllocError>
        ensures { IfOk result (λ _. state_of self.new ≡ undone changes.items (state_of self.old)) }
    {
        while let Some(change) = changes.pop() {
            self.take_back(change)?;
        }
        Ok(())
    }

    #[tactic(auto, using(crate::proofs::Stated::items_of_queue))]
    fn queue_items(&self, alloc: Global) -> Result<Vec<u64>, AllocError>
        ensures { IfOk result (λ v. v.items ≡ ((state_of self.now).queues 0).items) }
    {
        let (head, tail) = self.queue.as_slices();
        let mut items = Vec::new(alloc);
        items.extend_from_slice(head)?;
        items.extend_from_slice(tail)?;
        Ok(items)
    }

    fn has_queue(&self, alloc: Global, items: &[u64]) -> Result<bool, AllocError>
        ensures { IfOk result (λ b. IsTrue b ↔ (((state_of self.now).queues 0).items ≡ items.now)) }
    {
        let here = self.queue_items(alloc)?;
        Ok(here.as_slice() == items)
    }

    // What the change's place has now. The queue and the log are looked at whole.
    fn now_at(&self, change: Change) -> Change
        ensures { result ≡ now_at (state_of self.now) change }
    {
        match change {
            Change::Key { map, key, .. } => Change::Key {
                map,
                key,
                value: self.value(map, key),
            },
            Change::Item { item, .. } => Change::Item {
                item,
                count: self.count(item),
                held: self.held(),
            },
            _ => Change::Same,
        }
    }

    // Whether the place has what it is said to have.
    fn has(&self, noted: Change) -> bool
        ensures { IsTrue result ↔ Has (state_of self.now) noted }
    {
        match noted {
            Change::Key { map, key, value } => self.value(map, key) == value,
            Change::Item { item, count, .. } => self.count(item) == count,
            _ => true,
        }
    }

    // What each change's place has now.
    fn noted(&self, alloc: Global, changes: &[Change]) -> Result<Vec<Change>, AllocError>
        ensures { IfOk result (λ v. v.items ≡ map (now_at (state_of self.now)) changes.now) }
    {
        let mut noted = Vec::new(alloc);
        for change in changes {
            noted.push(self.now_at(*change))?;
        }
        Ok(noted)
    }

    fn has_all(&self, noted: &[Change]) -> bool
        ensures { IsTrue result ↔ Each (Has (state_of self.now)) noted.now }
    {
        for place in noted {
            if !self.has(*place) {
                return false;
            }
        }
        true
    }

    // Whether these places, the queue, the log's length, the pool's number of items and the cell are these.
    fn is_as(
        &self,
        alloc: Global,
        noted: &[Change],
        queue: &[u64],
        log: u64,
        held: u64,
        cell: u64,
    ) -> Result<bool, AllocError>
        ensures { IfOk result (λ b. IsTrue b ↔ IsAs (state_of self.now) noted.now queue.now log held cell) }
    {
        let places = self.has_all(noted);
        if !places {
            return Ok(false);
        }
        let items = self.has_queue(alloc, queue)?;
        if !items {
            return Ok(false);
        }
        Ok(self.log_len() == log && self.held() == held && self.cell() == cell)
    }

    // Takes the changes back. Whether the state before them is the one after them.
    fn leaves_same(&mut self, alloc: Global, changes: Vec<Change>) -> Result<bool, AllocError>
        ensures { IfOk result (λ b. IsSameAgain b (undone changes.items (state_of self.old)) (state_of self.old) (state_of self.new)) }
    {
        let noted = self.noted(alloc, changes.as_slice())?;
        let queue = self.queue_items(alloc)?;
        let (log, held, cell) = (self.log_len(), self.held(), self.cell());
        self.undo(changes)?;
        let same = self.is_as(alloc, noted.as_slice(), queue.as_slice(), log, held, cell)?;
        Ok(same)
    }

    /// Whether the record runs from here, leaves a state within the capacities and, where it is no writer's, the state that was here.
    pub(crate) fn commit(&mut self, alloc: Global, record: &Record) -> Result<bool, AllocError>
        requires about { Each (λ d. IsFirst d.call) record.now.dones }
        requires listed { IsListed (state_of self.old) }
        ensures { IfOk result (λ b. HasCommitted b (state_of self.old) (entry_of record.now) (state_of self.new)) }
    {
        runs_to_one_state_law();
        let mut changes = Vec::new(alloc);
        let ran = self.run(record.dones.as_slice(), &mut changes)?;
        if !ran {
            return Ok(false);
        }
        let within = self.is_within();
        if !within {
            return Ok(false);
        }
        if record.writer {
            return Ok(true);
        }
        let same = self.leaves_same(alloc, changes)?;
        Ok(same)
    }

    /// Whether the calls of the sight run from here to a state in which it may end as it did. They are taken back then.
    pub(crate) fn sees(&mut self, alloc: Global, sight: &Sight) -> Result<bool, AllocError>
        requires about { Each (λ d. IsFirst d.call) sight.now.dones }
        requires listed { IsListed (state_of self.old) }
        requires end { IsOfTwoParts sight.now.end }
        ensures { IfOk result (λ b. HasSeen b (state_of self.old) (seen_of sight.now) (state_of self.new)) }
    {
        runs_to_one_state_law();
        let mut changes = Vec::new(alloc);
        let ran = self.run(sight.dones.as_slice(), &mut changes)?;
        if !ran {
            return Ok(false);
        }
        let ends = self.ends_as(sight.end);
        if !ends {
            return Ok(false);
        }
        self.undo(changes)?;
        Ok(true)
    }

    /// Whether neither the queue nor the log has more values than its capacity.
    pub(crate) fn is_within(&self) -> bool
        ensures { IsTrue result ↔ IsWithinCapacity (state_of self.now) }
    {
        let queue = self.queue_len() <= self.room();
        let log = self.log_len() <= self.log_room();
        queue && log
    }

    /// Whether a sight may end so here.
    #[tactic(auto, using(crate::proofs::Openings::first_part, crate::proofs::Openings::second_part))]
    pub(crate) fn ends_as(&self, end: SightEnd) -> bool
        requires { IsOfTwoParts end }
        ensures { IsTrue result ↔ EndsAs 1 (state_of self.now) end }
    {
        match end {
            SightEnd::Full {
                part,
                length,
                adding,
            } => {
                if part == 0 {
                    is_refused(self.queue_len(), self.room(), length, adding)
                } else {
                    is_refused(self.log_len(), self.log_room(), length, adding)
                }
            }
            _ => true,
        }
    }
}

// Whether a part of this length and capacity has so many values and those that were to be added, more than its capacity.
fn is_refused(len: u64, capacity: u64, values: u64, adding: u64) -> bool
    ensures { IsTrue result ↔ ((len ≡ values + adding) × (capacity < values + adding)) }
{
    let wanted = u128::from(values) + u128::from(adding);
    u128::from(len) == wanted && u128::from(capacity) < wanted
}

// How many tasks the first batch has.
fn first_batch(tasks: u64) -> u64
    ensures { result ≡ min tasks 4096 }
{
    if tasks < BATCH { tasks } else { BATCH }
}

fn room_for(tasks: u64) -> u64
    ensures { result ≡ min 4096 (max tasks 1) }
{
    if tasks == 0 { 1 } else { first_batch(tasks) }
}

// The pool's items at the opening: each number below `given` once.
fn first_items(alloc: Global, given: u64) -> Result<HashMap<u64, u64>, AllocError>
    ensures { IfOk result (λ counts. (x : ℕ) → count_at (get nat_eq counts) x ≡ times x (numbers_from 0 given)) }
{
    let mut counts = HashMap::new(alloc);
    for item in 0..given {
        counts.insert(item, 1)?;
    }
    Ok(counts)
}
