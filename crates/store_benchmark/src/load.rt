//! The transactions of a thread, one after another.
ghost use Rattle.store_benchmark.specs.Opened.{IsOpened};
ghost use Rattle.store_benchmark.specs.Passes.{MayTransact, Transacts};

use crate::by_hand::ByHand;
use crate::keys::{OwnKeys, RandomKeys};
use crate::open::SLOTS;
use crate::pipeline::{Finish, Start};
use crate::touch::Touch;
use crate::transact::{Ended, transact};
use crate::workload::Workload;
use std::alloc::Global;
use tx_store::{Anything, Store, StorePass};

/// What a thread's transactions are, and how far they are.
#[derive(Drop)]
pub(crate) enum Load {
    OwnKeys(OwnKeys),
    RandomKeys(RandomKeys),
    /// So many transactions come before the next put.
    ManyGets(RandomKeys, u32),
    /// Where the next walk of the pool begins, and whether a slot was handed on that is to be taken over.
    Pipeline(u32, bool),
    CellsByHand,
}

impl Load {
    /// The transactions of the thread with this number, where they are drawn by this seed.
    pub(crate) fn of(workload: Workload, seed: u64, thread: u32) -> Load {
        match workload {
            Workload::OwnKeys => Load::OwnKeys(OwnKeys::of(thread)),
            Workload::RandomKeys => Load::RandomKeys(RandomKeys::of(seed, thread)),
            Workload::ManyGets => Load::ManyGets(RandomKeys::of(seed, thread), 9),
            Workload::Pipeline => Load::Pipeline(thread % 16 * 64, false),
            Workload::CellsByHand => Load::CellsByHand,
        }
    }

    /// Runs the next one, and answers how often its body ran.
    pub(crate) fn turn(
        &mut self,
        alloc: Global,
        store: &Store<Anything>,
        pass: StorePass<Anything>,
    ) -> Ended<Anything, u32>
        requires opened { IsOpened store.now }
        requires may { MayTransact store.now pass }
        ensures { Transacts store.now pass result }
    {
        match self {
            Load::OwnKeys(keys) => {
                let gets = keys.next_four();
                let puts = keys.next_two();
                get_and_put(alloc, store, pass, &gets, &puts)
            }
            Load::RandomKeys(keys) => {
                let gets = keys.next_four();
                let puts = keys.next_two();
                get_and_put(alloc, store, pass, &gets, &puts)
            }
            Load::ManyGets(keys, wait) => {
                let gets = keys.next_ten();
                if *wait > 0 {
                    *wait -= 1;
                    return get_and_put(alloc, store, pass, &gets, &[]);
                }
                *wait = 9;
                let puts = keys.next_two();
                get_and_put(alloc, store, pass, &gets, &[puts[0]])
            }
            Load::Pipeline(from, handed_on) => {
                *handed_on = !*handed_on;
                if !*handed_on {
                    return take_over(alloc, store, pass);
                }
                *from = (*from % SLOTS as u32 + 1) % SLOTS as u32;
                hand_on(alloc, store, pass, *from)
            }
            Load::CellsByHand => push_and_pop(alloc, store, pass),
        }
    }
}

fn get_and_put(
    alloc: Global,
    store: &Store<Anything>,
    pass: StorePass<Anything>,
    gets: &[u16],
    puts: &[u16],
) -> Ended<Anything, u32>
    requires opened { IsOpened store.now }
    requires may { MayTransact store.now pass }
    ensures { Transacts store.now pass result }
{
    let mut touch = Touch {
        gets,
        puts,
        value: 7,
        runs: 0,
    };
    match transact(alloc, store, pass, &mut touch) {
        Ok((back, ())) => Ok((back, touch.runs)),
        Err(refused) => Err(refused),
    }
}

fn hand_on(
    alloc: Global,
    store: &Store<Anything>,
    pass: StorePass<Anything>,
    from: u32,
) -> Ended<Anything, u32>
    requires opened { IsOpened store.now }
    requires may { MayTransact store.now pass }
    ensures { Transacts store.now pass result }
{
    let mut start = Start {
        from,
        value: 7,
        runs: 0,
    };
    match transact(alloc, store, pass, &mut start) {
        Ok((back, _)) => Ok((back, start.runs)),
        Err(refused) => Err(refused),
    }
}

fn take_over(
    alloc: Global,
    store: &Store<Anything>,
    pass: StorePass<Anything>,
) -> Ended<Anything, u32>
    requires opened { IsOpened store.now }
    requires may { MayTransact store.now pass }
    ensures { Transacts store.now pass result }
{
    let mut finish = Finish { runs: 0 };
    match transact(alloc, store, pass, &mut finish) {
        Ok((back, _)) => Ok((back, finish.runs)),
        Err(refused) => Err(refused),
    }
}

fn push_and_pop(
    alloc: Global,
    store: &Store<Anything>,
    pass: StorePass<Anything>,
) -> Ended<Anything, u32>
    requires opened { IsOpened store.now }
    requires may { MayTransact store.now pass }
    ensures { Transacts store.now pass result }
{
    let mut by_hand = ByHand { value: 7, runs: 0 };
    match transact(alloc, store, pass, &mut by_hand) {
        Ok((back, ())) => Ok((back, by_hand.runs)),
        Err(refused) => Err(refused),
    }
}
