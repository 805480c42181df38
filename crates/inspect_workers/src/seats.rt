//! The workers in threads: each has a seat, which is given a pass for each batch.
ghost use Rattle.std.specs.Prelude.{◌≡◌, ℕ, ◌+◌, ◌*◌, ◌^◌, ◌<◌, ◌≤◌, map, take, length, vec_len, slice_index_or, All, IfOk, IfSome, None};
ghost use Rattle.run_bodies.specs.Records.{AreAhead};
ghost use Rattle.inspect_workers.specs.Noted.{fills_in};
ghost use Rattle.inspect_workers.specs.Opened.{IsOpened};
ghost use Rattle.inspect_workers.specs.Seats.{AreFree, IsWholeAtRest, IsAtRest, IsReady, AreSharedOut, HasRunAt, HasRoom, MayBegin};
ghost use Rattle.inspect_workers.specs.Seats.{over_seats, callers_held, draws_left, fills_made};

use crate::works::work_ahead;
use run_bodies::Gate;
use run_findings::Slot;
use run_purpose::RunPurpose;
use std::alloc::{AllocError, Global};
use std::thread;
use std::thread::Threads;
use tx_store::{Store, StorePass};

/// The place of a worker: its pass while a batch runs, and its gate.
#[derive(Drop)]
pub(crate) struct Seat<'b, G> {
    pub(crate) pass: Option<StorePass<RunPurpose<'b>>>,
    pub(crate) gate: G,
}

/// A seat without a pass for each of so many workers, the k-th with the k-th gate. Further gates are dropped. The one error is want of memory.
pub(crate) fn seated<'b, G: Gate + Drop>(
    alloc: Global,
    gates: Vec<G>,
    workers: u32,
) -> Result<Vec<Seat<'b, G>>, AllocError>
    requires gates { workers ≤ vec_len gates }
    ensures free { IfOk result (λ seats. AreFree workers seats.items) }
    ensures gates { IfOk result (λ seats. map (λ s. s.gate) seats.items ≡ take workers gates.items) }
{
    let mut gates = gates;
    let mut seats: Vec<Seat<'b, G>> = Vec::with_capacity(alloc, workers as usize)?;
    gates.truncate(workers as usize);
    for gate in gates {
        seats.push(Seat { pass: None, gate })?;
    }
    Ok(seats)
}

/// Shares the pass of all callers out among the seats, one caller each, lets all workers run until each ends, and joins their passes again.
///
/// Where memory is wanting to share it out, the first worker has the callers of those that have no pass.
pub(crate) fn batch<'b, R: Threads + Sync, G: Gate + Send + Drop>(
    rt: &R,
    alloc: Global,
    store: &Store<RunPurpose<'b>>,
    pass: StorePass<RunPurpose<'b>>,
    run: &RunPurpose<'b>,
    ahead: &[Slot],
    seats: &mut Vec<Seat<'b, G>>,
) -> StorePass<RunPurpose<'b>>
    requires store { IsOpened run.now store.now }
    requires ahead { AreAhead run.now ahead.now }
    requires pass { IsWholeAtRest store.now pass }
    requires draws { store.now.table.callers * 2 ^ 32 ≤ pass.pass.view.draws }
    requires seats { AreFree store.now.table.callers seats.old.items }
    ensures pass { IsWholeAtRest store.now result }
    ensures draws { pass.entry.pass.view.draws ≤ result.pass.view.draws + store.now.table.callers * 2 ^ 31 }
    ensures fills { fills_in result.pass.books ≡ fills_in pass.entry.pass.books }
    ensures seats { AreFree store.now.table.callers seats.new.items }
{
    share_out(alloc, store, pass, seats);
    work_seats(rt, alloc, store, run, ahead, seats);
    join_all(store, seats)
}

// Gives each worker a caller of the pass, the last worker the greatest. The first worker has what is left.
#[tactic(auto, using(crate::proofs::Sharing::all_shared))]
fn share_out<'b, G: Gate + Drop>(
    alloc: Global,
    store: &Store<RunPurpose<'b>>,
    pass: StorePass<RunPurpose<'b>>,
    seats: &mut Vec<Seat<'b, G>>,
)
    requires pass { IsWholeAtRest store.now pass }
    requires draws { store.now.table.callers * 2 ^ 32 ≤ pass.pass.view.draws }
    requires seats { AreFree store.now.table.callers seats.old.items }
    ensures count { (length seats.new.items ≡ store.now.table.callers) × (0 < store.now.table.callers) }
    ensures shared { AreSharedOut store.now pass.entry seats.new.items }
{
    let mut pass = pass;
    while pass.callers_held() > 1 {
        let Ok(own) = pass.split(alloc, store, 1) else {
            break;
        };
        seats[pass.callers_held() as usize].pass = Some(own);
    }
    seats[0].pass = Some(pass);
}

// What is done at each of many places.
trait Task<T> {
    ghost may_begin: { Self → T → Type 0 };

    ghost leaves: { Self → T → T → Type 0 };

    fn perform(&self, place: &mut T)
        requires { may_begin self.now place.old }
        ensures { leaves self.now place.old place.new };
}

// What the workers of a batch share.
#[derive(Drop)]
struct Shared<'s, 'b> {
    alloc: Global,
    store: &'s Store<RunPurpose<'b>>,
    run: &'s RunPurpose<'b>,
    ahead: &'s [Slot],
}

impl<'s, 'b, G: Gate> Task<Seat<'b, G>> for Shared<'s, 'b> {
    ghost may_begin = { MayBegin };

    ghost leaves = { λ shared old new. HasRunAt shared.store.now old.pass new.pass };

    // Runs the worker of a seat, if it has a pass.
    fn perform(&self, seat: &mut Seat<'b, G>) {
        if let Some(pass) = seat.pass.take() {
            let (pass, _) = work_ahead(
                self.alloc,
                self.store,
                pass,
                self.run,
                self.ahead,
                &mut seat.gate,
                64,
            );
            seat.pass = Some(pass);
        }
    }
}

// Performs a task at each place, each in a thread.
fn perform_all<R: Threads + Sync, T: Send, S: Task<T> + Sync>(rt: &R, task: &S, places: &mut [T])
    requires some { 0 < length places.old }
    requires begin { All (S.may_begin task.now) places.old }
    ensures count { length places.new ≡ length places.old }
    ensures each { (i : ℕ) (d : T) → i < length places.old → S.leaves task.now (slice_index_or places.old i d) (slice_index_or places.new i d) }
{
    let threads = places.len();
    thread::for_each_mut(rt, places, threads, &|_, place| task.perform(place));
}

// Runs the workers of all seats, each in a thread.
fn work_seats<'b, R: Threads + Sync, G: Gate + Send>(
    rt: &R,
    alloc: Global,
    store: &Store<RunPurpose<'b>>,
    run: &RunPurpose<'b>,
    ahead: &[Slot],
    seats: &mut Vec<Seat<'b, G>>,
)
    requires store { IsOpened run.now store.now }
    requires ahead { AreAhead run.now ahead.now }
    requires some { 0 < length seats.old.items }
    requires ready { All (λ s. IfSome s.pass (IsReady store.now)) seats.old.items }
    ensures count { length seats.new.items ≡ length seats.old.items }
    ensures ran { (i : ℕ) (d : _) → i < length seats.old.items → HasRunAt store.now (slice_index_or seats.old.items i d).pass (slice_index_or seats.new.items i d).pass }
{
    let shared = Shared {
        alloc,
        store,
        run,
        ahead,
    };
    perform_all(rt, &shared, seats.as_mut_slice());
}

// Joins the passes of all seats to that of the first.
fn join_all<'b, G: Gate + Drop>(
    store: &Store<RunPurpose<'b>>,
    seats: &mut Vec<Seat<'b, G>>,
) -> StorePass<RunPurpose<'b>>
    requires count { (length seats.old.items ≡ store.now.table.callers) × (0 < store.now.table.callers) }
    requires each { All (λ s. IfSome s.pass (IsAtRest store.now)) seats.old.items }
    requires room { (d : _) → HasRoom store.now.table.callers (slice_index_or seats.old.items 0 d).pass }
    requires callers { over_seats callers_held seats.old.items ≡ store.now.table.callers }
    ensures pass { IsWholeAtRest store.now result }
    ensures draws { result.pass.view.draws ≡ over_seats draws_left seats.old.items }
    ensures fills { fills_in result.pass.books ≡ over_seats fills_made seats.old.items }
    ensures seats { AreFree store.now.table.callers seats.new.items }
{
    let Some(pass) = seats[0].pass.take() else {
        unreachable!()
    };
    let mut pass = pass;
    for place in 1..seats.len() {
        if let Some(other) = seats[place].pass.take() {
            pass.join(store, other);
        }
    }
    pass
}
