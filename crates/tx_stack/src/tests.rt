//! Stacks on small stores.
ghost use Rattle.std.specs.Prelude.{◌≡◌, ◌≢◌, ◌<◌, ◌≤◌, IfOk};
ghost use Rattle.cell_table.specs.Steps.{IsIdle};
ghost use Rattle.serial_terms.specs.Entries.{OrderedBy};
ghost use Rattle.tx_store.specs.Stores.{IsPassOfStore};
ghost use Rattle.tx_stack.specs.Calls.{IsStackOf, IsAllowedSoFar, MayCallStack};
ghost use Rattle.tx_stack.specs.Stacks.{AreApart};

use crate::laws::stacks_open_empty_law;
use crate::{Moved, StackPart, Stacks, move_top};
use serial_terms::{Layout, PlainList, StoreState};
use std::alloc::{AllocError, Global};
use std::test::Fail;
use tx_core::{Stop, TxState};
use tx_store::{CommitEnd, Receipt, Store, StorePass, StoreTx};

// A store of stacks in so many plain cells, and the pass of all its callers.
fn opened(
    alloc: Global,
    parts: Vec<StackPart>,
    cells: u32,
    callers: u32,
) -> Result<(Store<Stacks>, StorePass<Stacks>), AllocError>
    requires apart { OrderedBy AreApart parts.items }
    requires cells { 0 < cells }
    requires callers { (0 < callers) × (callers ≤ 4096) }
    ensures pass { IfOk result (λ t. IsPassOfStore t.0 t.1 × IsIdle t.1.pass.view) }
    ensures parts { IfOk result (λ t. t.0.table.meaning.purpose.parts.items ≡ parts.items) }
    ensures cells { IfOk result (λ t. t.0.table.meaning.plan.cells ≡ cells) }
{
    stacks_open_empty_law();
    let layout = Layout {
        maps: PlainList::from_vec(Vec::new(alloc)),
        queues: PlainList::from_vec(Vec::new(alloc)),
        pools: PlainList::from_vec(Vec::new(alloc)),
        logs: PlainList::from_vec(Vec::new(alloc)),
        cells,
    };
    match Store::open(alloc, Stacks { parts }, &layout, callers) {
        Ok(opened) => Ok(opened),
        Err(_) => Err(AllocError),
    }
}

const FIRST: StackPart = StackPart {
    base: 0,
    capacity: 2,
};

const SECOND: StackPart = StackPart {
    base: 3,
    capacity: 2,
};

// The passes of two callers.
fn halves(
    alloc: Global,
    store: &Store<Stacks>,
    pass: StorePass<Stacks>,
) -> Result<(StorePass<Stacks>, StorePass<Stacks>), AllocError>
    requires { IsPassOfStore store.now pass × IsIdle pass.pass.view }
    ensures first { IfOk result (λ t. IsPassOfStore store.now t.0 × IsIdle t.0.pass.view) }
    ensures second { IfOk result (λ t. IsPassOfStore store.now t.1 × IsIdle t.1.pass.view) }
{
    let mut pass = pass;
    if pass.callers_held() < 2 {
        return Err(AllocError);
    }
    let other = pass.split(alloc, store, 1)?;
    Ok((pass, other))
}

// An attempt that has made no call.
fn begun<'a>(
    alloc: Global,
    store: &'a Store<Stacks>,
    pass: StorePass<Stacks>,
) -> Result<StoreTx<'a, Stacks>, AllocError>
    requires { IsPassOfStore store.now pass × IsIdle pass.pass.view }
    ensures ready { IfOk result MayCallStack }
    ensures store { IfOk result (λ t. t.store ≡ store.now) }
{
    if pass.draws_left() == 0 {
        return Err(AllocError);
    }
    match StoreTx::begin(alloc, store, pass) {
        Ok(tx) => Ok(tx),
        Err(_) => Err(AllocError),
    }
}

// The pass that a commit leaves, and how it ended.
fn committed(
    tx: StoreTx<'_, Stacks>,
) -> Result<(StorePass<Stacks>, Result<Receipt, CommitEnd>), AllocError>
    requires { IsAllowedSoFar tx }
    ensures { IfOk result (λ t. IsPassOfStore tx.entry.store t.0 × IsIdle t.0.pass.view) }
{
    if tx.state() != TxState::Running {
        tx.abort();
        return Err(AllocError);
    }
    match tx.commit() {
        Ok((pass, receipt)) => Ok((pass, Ok(receipt))),
        Err((pass, end)) => Ok((pass, Err(end))),
    }
}

// What the cells of the store hold at its end.
fn closed(
    alloc: Global,
    store: Store<Stacks>,
    pass: StorePass<Stacks>,
) -> Result<StoreState, AllocError>
    requires { IsPassOfStore store pass × IsIdle pass.pass.view }
{
    if !pass.is_sole(&store) {
        return Err(AllocError);
    }
    match store.close(alloc, pass) {
        Ok((_, state)) => Ok(state),
        Err(_) => Err(AllocError),
    }
}

// What the calls of a stack of two items answer: two pushes, one too many, the top, a pop, the length.
fn answers(
    tx: &mut StoreTx<'_, Stacks>,
    stack: &StackPart,
) -> Result<([bool; 3], [Option<u64>; 2], u64), Stop>
    requires ready { MayCallStack tx.old }
    requires stack { IsStackOf tx.old.store stack.now }
    ensures { IfOk result (λ _. MayCallStack tx.new × (tx.new.store ≡ tx.old.store)) }
{
    let five = stack.push(tx, 5)?;
    let six = stack.push(tx, 6)?;
    let seven = stack.push(tx, 7)?;
    let top = stack.top(tx)?;
    let popped = stack.pop(tx)?;
    let length = stack.len(tx)?;
    Ok(([five, six, seven], [top, popped], length))
}

// What such a stack answers, and what its cells are at the end.
fn one_stack(
    alloc: Global,
    store: Store<Stacks>,
    pass: StorePass<Stacks>,
    stack: &StackPart,
) -> Result<(([bool; 3], [Option<u64>; 2], u64), u64, StoreState), AllocError>
    requires pass { IsPassOfStore store pass × IsIdle pass.pass.view }
    requires stack { IsStackOf store stack.now }
{
    let mut tx = begun(alloc, &store, pass)?;
    let Ok(told) = answers(&mut tx, stack) else {
        tx.abort();
        return Err(AllocError);
    };
    let (pass, end) = committed(tx)?;
    let Ok(receipt) = end else {
        return Err(AllocError);
    };
    let state = closed(alloc, store, pass)?;
    Ok((told, receipt.place, state))
}

#[test]
fn a_stack_gives_back_what_was_put_last(rt: HostRuntime) -> Result<(), Fail> {
    let alloc = rt.alloc();
    let (store, pass) = opened(alloc, [FIRST].to_vec(alloc)?, 3, 1)?;
    let (told, place, state) = one_stack(alloc, store, pass, &FIRST)?;
    assert_eq!(rt; told, ([true, true, false], [Some(6), Some(6)], 1));
    assert_eq!(rt; place, 1);
    assert_eq!(rt; state.cells.as_slice(), [1, 5, 6].as_slice());
    Ok(())
}

// The attempt after a push that found room.
fn with_pushed<'a>(
    tx: StoreTx<'a, Stacks>,
    stack: &StackPart,
    value: u64,
) -> Result<StoreTx<'a, Stacks>, AllocError>
    requires ready { MayCallStack tx }
    requires stack { IsStackOf tx.store stack.now }
    ensures ready { IfOk result MayCallStack }
    ensures store { IfOk result (λ t. t.store ≡ tx.entry.store) }
{
    let mut tx = tx;
    let Ok(true) = stack.push(&mut tx, value) else {
        tx.abort();
        return Err(AllocError);
    };
    Ok(tx)
}

// The attempt after it found a stack empty.
fn with_empty<'a>(
    tx: StoreTx<'a, Stacks>,
    stack: &StackPart,
) -> Result<StoreTx<'a, Stacks>, AllocError>
    requires ready { MayCallStack tx }
    requires stack { IsStackOf tx.store stack.now }
    ensures ready { IfOk result MayCallStack }
    ensures store { IfOk result (λ t. t.store ≡ tx.entry.store) }
{
    let mut tx = tx;
    let Ok(0) = stack.len(&mut tx) else {
        tx.abort();
        return Err(AllocError);
    };
    Ok(tx)
}

// The attempt after a move, and what came of it.
fn with_moved<'a>(
    tx: StoreTx<'a, Stacks>,
    from: &StackPart,
    to: &StackPart,
    tries: u32,
) -> Result<(StoreTx<'a, Stacks>, Moved), AllocError>
    requires ready { MayCallStack tx }
    requires stacks { IsStackOf tx.store from.now × IsStackOf tx.store to.now }
    requires two { from.now.base ≢ to.now.base }
    requires tries { 0 < tries }
    ensures ready { IfOk result (λ t. MayCallStack t.0) }
    ensures store { IfOk result (λ t. t.0.store ≡ tx.entry.store) }
{
    let mut tx = tx;
    if tx.state() != TxState::Running {
        tx.abort();
        return Err(AllocError);
    }
    let Ok(moved) = move_top(&mut tx, from, to, tries) else {
        tx.abort();
        return Err(AllocError);
    };
    Ok((tx, moved))
}

// The place at which an item was pushed in a transaction of its own.
fn pushed_alone(
    alloc: Global,
    store: &Store<Stacks>,
    pass: StorePass<Stacks>,
    stack: &StackPart,
    value: u64,
) -> Result<u64, AllocError>
    requires pass { IsPassOfStore store.now pass × IsIdle pass.pass.view }
    requires stack { IsStackOf store.now stack.now }
{
    if pass.draws_left() == 0 {
        return Err(AllocError);
    }
    match stack.push_one(alloc, store, pass, value, 1) {
        Ok((pass, true)) => Ok(pass.seen()),
        Ok(_) | Err(_) => Err(AllocError),
    }
}

// What was popped in a transaction of its own.
fn popped_alone(
    alloc: Global,
    store: &Store<Stacks>,
    pass: StorePass<Stacks>,
    stack: &StackPart,
) -> Result<Option<u64>, AllocError>
    requires pass { IsPassOfStore store.now pass × IsIdle pass.pass.view }
    requires stack { IsStackOf store.now stack.now }
{
    if pass.draws_left() == 0 {
        return Err(AllocError);
    }
    match stack.pop_one(alloc, store, pass, 1) {
        Ok((_, item)) => Ok(item),
        Err(_) => Err(AllocError),
    }
}

// How an attempt ends whose push comes after another caller's, and what it finds then.
fn behind_another(
    alloc: Global,
    store: &Store<Stacks>,
    first: StorePass<Stacks>,
    second: StorePass<Stacks>,
    stack: &StackPart,
) -> Result<(u64, Result<Receipt, CommitEnd>, Option<u64>), AllocError>
    requires first { IsPassOfStore store.now first × IsIdle first.pass.view }
    requires second { IsPassOfStore store.now second × IsIdle second.pass.view }
    requires stack { IsStackOf store.now stack.now }
{
    let tx = begun(alloc, store, first)?;
    let tx = with_empty(tx, stack)?;
    let Ok(place) = pushed_alone(alloc, store, second, stack, 9) else {
        tx.abort();
        return Err(AllocError);
    };
    let tx = with_pushed(tx, stack, 4)?;
    let (first, end) = committed(tx)?;
    let item = popped_alone(alloc, store, first, stack)?;
    Ok((place, end, item))
}

#[test]
fn a_push_on_a_stack_that_another_pushed_on_is_refused(rt: HostRuntime) -> Result<(), Fail> {
    let alloc = rt.alloc();
    let (store, pass) = opened(alloc, [FIRST].to_vec(alloc)?, 3, 2)?;
    let (first, second) = halves(alloc, &store, pass)?;
    let (place, end, item) = behind_another(alloc, &store, first, second, &FIRST)?;
    assert_eq!(rt; place, 1);
    assert_eq!(rt; end, Err(CommitEnd::Newer { cell: 0, found: 1 }));
    assert_eq!(rt; item, Some(9));
    Ok(())
}

// The cells at the end, where two items are put on one stack and one between them on another.
fn side_by_side(
    alloc: Global,
    store: Store<Stacks>,
    pass: StorePass<Stacks>,
    first: &StackPart,
    second: &StackPart,
) -> Result<StoreState, AllocError>
    requires pass { IsPassOfStore store pass × IsIdle pass.pass.view }
    requires stacks { IsStackOf store first.now × IsStackOf store second.now }
{
    let tx = begun(alloc, &store, pass)?;
    let tx = with_pushed(tx, first, 5)?;
    let tx = with_pushed(tx, second, 6)?;
    let tx = with_pushed(tx, first, 7)?;
    let (pass, _) = committed(tx)?;
    closed(alloc, store, pass)
}

#[test]
fn stacks_side_by_side_keep_their_items(rt: HostRuntime) -> Result<(), Fail> {
    let alloc = rt.alloc();
    let (store, pass) = opened(alloc, [FIRST, SECOND].to_vec(alloc)?, 6, 1)?;
    let state = side_by_side(alloc, store, pass, &FIRST, &SECOND)?;
    assert_eq!(rt; state.cells.as_slice(), [2, 5, 7, 1, 6, 0].as_slice());
    Ok(())
}

// What two moves answer after a push on the first stack, and what the cells are at the end.
fn two_moves(
    alloc: Global,
    store: Store<Stacks>,
    pass: StorePass<Stacks>,
    from: &StackPart,
    to: &StackPart,
) -> Result<(Moved, Moved, StoreState), AllocError>
    requires pass { IsPassOfStore store pass × IsIdle pass.pass.view }
    requires stacks { IsStackOf store from.now × IsStackOf store to.now }
    requires two { from.now.base ≢ to.now.base }
{
    let tx = begun(alloc, &store, pass)?;
    let tx = with_pushed(tx, from, 1)?;
    let (tx, once) = with_moved(tx, from, to, 1)?;
    let (tx, again) = with_moved(tx, from, to, 1)?;
    let (pass, _) = committed(tx)?;
    let state = closed(alloc, store, pass)?;
    Ok((once, again, state))
}

#[test]
fn the_top_goes_to_the_stack_beside(rt: HostRuntime) -> Result<(), Fail> {
    let alloc = rt.alloc();
    let (store, pass) = opened(alloc, [FIRST, SECOND].to_vec(alloc)?, 6, 1)?;
    let (once, again, state) = two_moves(alloc, store, pass, &FIRST, &SECOND)?;
    assert_eq!(rt; once, Moved::Yes(1));
    assert_eq!(rt; again, Moved::Empty);
    assert_eq!(rt; state.cells.as_slice(), [0, 1, 0, 1, 1, 0].as_slice());
    Ok(())
}

// What a move answers whose first child meets a push of another caller, and the attempt's version after it.
fn move_behind_another(
    alloc: Global,
    store: &Store<Stacks>,
    first: StorePass<Stacks>,
    second: StorePass<Stacks>,
    from: &StackPart,
    to: &StackPart,
) -> Result<(Moved, u64), AllocError>
    requires first { IsPassOfStore store.now first × IsIdle first.pass.view }
    requires second { IsPassOfStore store.now second × IsIdle second.pass.view }
    requires stacks { IsStackOf store.now from.now × IsStackOf store.now to.now }
    requires two { from.now.base ≢ to.now.base }
{
    let tx = begun(alloc, store, first)?;
    let Ok(_) = pushed_alone(alloc, store, second, from, 9) else {
        tx.abort();
        return Err(AllocError);
    };
    let (tx, moved) = with_moved(tx, from, to, 2)?;
    let version = tx.version();
    tx.abort();
    Ok((moved, version))
}

#[test]
fn a_dropped_move_is_tried_again_at_a_later_version(rt: HostRuntime) -> Result<(), Fail> {
    let alloc = rt.alloc();
    let (store, pass) = opened(alloc, [FIRST, SECOND].to_vec(alloc)?, 6, 2)?;
    let (first, second) = halves(alloc, &store, pass)?;
    let told = move_behind_another(alloc, &store, first, second, &FIRST, &SECOND)?;
    assert_eq!(rt; told, (Moved::Yes(9), 1));
    Ok(())
}
