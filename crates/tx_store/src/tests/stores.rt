//! Small stores, what callers do on them, and what the stores hold at the end.
ghost use Rattle.std.specs.Prelude.{◌≡◌, ◌<◌, ◌≤◌, IfOk, All, sum, sum_by};
ghost use Rattle.cell_table.specs.Steps.{IsIdle};
ghost use Rattle.store_layout.specs.Shapes.{shape_of, cells_of, IsLayout, IsPool, with_end};
ghost use Rattle.serial_terms.specs.Stores.{slots_of};
ghost use Rattle.tx_store.specs.Stores.{IsPassOfStore};

use super::script::{Answer, Ask, Who};
use super::seats::{Wrong, alone, in_turn};
use crate::{Anything, OpenEnd, Store, StorePass};
use serial_terms::{Layout, PlainList, PoolLayout, StoreState};
use std::alloc::{AllocError, Global};

/// A store of at most one structure of a kind, which is left out where its size is 0. The pool opens with the item 9.
#[derive(Clone, Copy)]
pub(super) struct Parts {
    pub map: u32,
    pub queue: u32,
    pub pool: u32,
    pub log: u32,
    pub cells: u32,
}

pub(super) const NONE: Parts = Parts {
    map: 0,
    queue: 0,
    pool: 0,
    log: 0,
    cells: 0,
};

/// What became of the lines, and what the store holds at its end.
#[derive(Drop)]
pub(super) struct Played {
    pub wrong: Wrong,
    pub state: StoreState,
}

impl Played {
    /// The keys of the map, with their values.
    pub(super) fn keys(&self) -> &[(u64, u64)] {
        match self.state.maps.as_slice().first() {
            Some(map) => map.as_slice(),
            None => &[],
        }
    }
}

/// The lines of the one caller of a store.
pub(super) fn alone_on(
    alloc: Global,
    parts: Parts,
    lines: &[(Ask, Answer)],
) -> Result<Played, AllocError> {
    let (store, pass) = opened(alloc, parts, 1)?;
    let (pass, wrong) = alone(alloc, &store, pass, lines);
    let state = closed(alloc, store, pass)?;
    Ok(Played { wrong, state })
}

/// The lines of the two callers of a store.
pub(super) fn in_turn_on(
    alloc: Global,
    parts: Parts,
    lines: &[(Who, Ask, Answer)],
) -> Result<Played, AllocError> {
    let (store, mut pass) = opened(alloc, parts, 2)?;
    if pass.callers_held() < 2 {
        return Err(AllocError);
    }
    let second = pass.split(alloc, &store, 1)?;
    let (first, second, wrong) = in_turn(alloc, &store, pass, second, lines);
    let pass = joined(&store, first, second)?;
    let state = closed(alloc, store, pass)?;
    Ok(Played { wrong, state })
}

/// Why a store can't be opened, if it can't.
pub(super) fn open_end(alloc: Global, parts: Parts) -> Result<Option<OpenEnd>, AllocError> {
    let layout = layout_of(alloc, parts)?;
    match Store::open(alloc, Anything, &layout, 1) {
        Ok(_) => Ok(None),
        Err(end) => Ok(Some(end)),
    }
}

pub(super) fn opened(
    alloc: Global,
    parts: Parts,
    callers: u32,
) -> Result<(Store<Anything>, StorePass<Anything>), AllocError>
    requires callers { (0 < callers) × (callers ≤ 4096) }
    ensures { IfOk result (λ t. IsPassOfStore t.0 t.1 × IsIdle t.1.pass.view) }
{
    let layout = layout_of(alloc, parts)?;
    match Store::open(alloc, Anything, &layout, callers) {
        Ok(opened) => Ok(opened),
        Err(_) => Err(AllocError),
    }
}

pub(super) fn joined(
    store: &Store<Anything>,
    first: StorePass<Anything>,
    second: StorePass<Anything>,
) -> Result<StorePass<Anything>, AllocError>
    requires first { IsPassOfStore store.now first × IsIdle first.pass.view }
    requires second { IsPassOfStore store.now second × IsIdle second.pass.view }
    ensures { IfOk result (λ p. IsPassOfStore store.now p × IsIdle p.pass.view) }
{
    let mut first = first;
    if first.room().saturating_sub(first.callers_held()) < second.callers_held() {
        return Err(AllocError);
    }
    first.join(store, second);
    Ok(first)
}

// What the store holds at its end.
pub(super) fn closed(
    alloc: Global,
    store: Store<Anything>,
    pass: StorePass<Anything>,
) -> Result<StoreState, AllocError>
    requires { IsPassOfStore store pass × IsIdle pass.pass.view }
{
    pass.history_law(&store);
    if !pass.is_sole(&store) {
        return Err(AllocError);
    }
    pass.whole_history_law(&store);
    match store.close(alloc, pass) {
        Ok((_, state)) => Ok(state),
        Err(_) => Err(AllocError),
    }
}

fn layout_of(alloc: Global, parts: Parts) -> Result<Layout, AllocError>
    ensures layout { IfOk result (λ l. IsLayout l) }
    ensures some { IfOk result (λ l. 0 < cells_of (shape_of l)) }
{
    let Parts {
        map,
        queue,
        pool,
        log,
        cells,
    } = parts;
    if map == 0 && queue == 0 && pool == 0 && log == 0 && cells == 0 {
        return Err(AllocError);
    }
    Ok(Layout {
        maps: list_of(alloc, map)?,
        queues: list_of(alloc, queue)?,
        pools: pools_of(alloc, pool)?,
        logs: list_of(alloc, log)?,
        cells,
    })
}

// One structure of this size, or none.
fn list_of(alloc: Global, size: u32) -> Result<PlainList<u32>, AllocError>
    ensures each { IfOk result (λ l. All (λ n. 0 < n) l) }
    ensures some { IfOk result (λ l. 0 < size → (0 < sum l) × (0 < sum_by with_end l)) }
{
    if size == 0 {
        return Ok(PlainList::from_vec(Vec::new(alloc)));
    }
    Ok(PlainList::from_vec(vec![in alloc; size]?))
}

fn pools_of(alloc: Global, slots: u32) -> Result<PlainList<PoolLayout>, AllocError>
    ensures each { IfOk result (λ l. All IsPool l) }
    ensures some { IfOk result (λ l. 0 < slots → 0 < sum (slots_of l)) }
{
    if slots == 0 {
        return Ok(PlainList::from_vec(Vec::new(alloc)));
    }
    let pool = PoolLayout {
        slots,
        items: PlainList::from_vec([9].to_vec(alloc)?),
    };
    Ok(PlainList::from_vec(vec![in alloc; pool]?))
}

/// The values of the first structure of a kind.
pub(super) fn only(lists: &PlainList<PlainList<u64>>) -> &[u64] {
    match lists.as_slice().first() {
        Some(list) => list.as_slice(),
        None => &[],
    }
}
