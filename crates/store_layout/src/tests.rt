//! The layouts of the worked rows, cell by cell.
ghost use Rattle.std.specs.Prelude.{◌<◌, All, IsTrue, IsSome};
ghost use Rattle.serial_terms.specs.Ranges.{IsKept};
ghost use Rattle.store_layout.specs.Shapes.{IsLayout, IsPool};

use crate::{CellPlan, LayoutEnd, Spot, opening_words};
use serial_terms::{Layout, PlainList, PoolLayout};
use std::alloc::{AllocError, Global};
use std::process::Abort;
use std::test::Fail;

// One pool at most, with these slots and this item.
fn layout(
    alloc: Global,
    maps: &[u32],
    queues: &[u32],
    pool: Option<(u32, u64)>,
    logs: &[u32],
    cells: u32,
) -> Result<Layout, AllocError> {
    let mut pools = Vec::new(alloc);
    if let Some((slots, item)) = pool {
        pools.push(PoolLayout {
            slots,
            items: PlainList::from_vec([item].to_vec(alloc)?),
        })?;
    }
    Ok(Layout {
        maps: PlainList::from_vec(maps.to_vec(alloc)?),
        queues: PlainList::from_vec(queues.to_vec(alloc)?),
        pools: PlainList::from_vec(pools),
        logs: PlainList::from_vec(logs.to_vec(alloc)?),
        cells,
    })
}

fn are_counted(capacities: &[u32]) -> bool
    ensures { IsTrue result → All (λ c. 0 < c) capacities.now }
{
    for capacity in capacities {
        if *capacity == 0 {
            return false;
        }
    }
    true
}

fn are_kept(items: &[u64]) -> bool
    ensures { IsTrue result → All IsKept items.now }
{
    for item in items {
        if *item == u64::MAX {
            return false;
        }
    }
    true
}

fn is_pool(pool: &PoolLayout) -> bool
    ensures { IsTrue result → IsPool pool.now }
{
    let items = pool.items.as_slice();
    if pool.slots == 0 || items.len() as u64 > u64::from(pool.slots) {
        return false;
    }
    are_kept(items)
}

fn are_pools(pools: &[PoolLayout]) -> bool
    ensures { IsTrue result → All IsPool pools.now }
{
    for pool in pools {
        if !is_pool(pool) {
            return false;
        }
    }
    true
}

// Whether a store can be laid out so.
fn checked(layout: &Layout) -> Option<()>
    ensures { IsSome result → IsLayout layout.now }
{
    if !are_counted(layout.maps.as_slice()) {
        return None;
    }
    if !are_counted(layout.queues.as_slice()) {
        return None;
    }
    if !are_pools(layout.pools.as_slice()) {
        return None;
    }
    if !are_counted(layout.logs.as_slice()) {
        return None;
    }
    Some(())
}

fn spot_at(plan: &CellPlan, cell: u32) -> Option<Spot> {
    if cell >= plan.cells() {
        return None;
    }
    Some(plan.spot_of(cell))
}

// Expects these spots of the cells, each of which has its cell again, and these opening words.
fn expect_cells(
    rt: &impl Abort,
    alloc: Global,
    layout: &Layout,
    spots: &[Spot],
    words: &[u64],
) -> Result<(), AllocError> {
    checked(layout).expect(rt, "a store can be laid out so");
    let plan = CellPlan::of(alloc, layout).expect(rt, "there are few cells");
    let mut found = Vec::new(alloc);
    for cell in 0..plan.cells() {
        let spot = plan.spot_of(cell);
        assert_eq!(rt; plan.cell_of(spot), cell);
        found.push(spot)?;
    }
    assert_eq!(rt; found.as_slice(), spots);
    let opened = opening_words(alloc, layout)?;
    assert_eq!(rt; opened.as_slice(), words);
    Ok(())
}

#[test]
fn each_cell_of_every_kind_has_its_spot(rt: HostRuntime) -> Result<(), Fail> {
    let alloc = rt.alloc();
    let one_of_each = layout(alloc, &[4], &[2], Some((2, 9)), &[3], 1)?;
    let spots = [
        Spot::MapKey(0, 0),
        Spot::MapKey(0, 1),
        Spot::MapKey(0, 2),
        Spot::MapKey(0, 3),
        Spot::QueueEnd(0),
        Spot::QueueItem(0, 0),
        Spot::QueueItem(0, 1),
        Spot::PoolSlot(0, 0),
        Spot::PoolSlot(0, 1),
        Spot::LogEnd(0),
        Spot::LogEntry(0, 0),
        Spot::LogEntry(0, 1),
        Spot::LogEntry(0, 2),
        Spot::Plain(0),
    ];
    let words = [0, 0, 0, 0, 0, 0, 0, 10, 0, 0, 0, 0, 0, 0];
    expect_cells(&rt, alloc, &one_of_each, &spots, &words)?;
    Ok(())
}

#[test]
fn structures_of_one_kind_stand_in_order(rt: HostRuntime) -> Result<(), Fail> {
    let alloc = rt.alloc();
    let two_of_each = layout(alloc, &[1, 2], &[3, 1], None, &[2, 1], 2)?;
    let spots = [
        Spot::MapKey(0, 0),
        Spot::MapKey(1, 0),
        Spot::MapKey(1, 1),
        Spot::QueueEnd(0),
        Spot::QueueItem(0, 0),
        Spot::QueueItem(0, 1),
        Spot::QueueItem(0, 2),
        Spot::QueueEnd(1),
        Spot::QueueItem(1, 0),
        Spot::LogEnd(0),
        Spot::LogEntry(0, 0),
        Spot::LogEntry(0, 1),
        Spot::LogEnd(1),
        Spot::LogEntry(1, 0),
        Spot::Plain(0),
        Spot::Plain(1),
    ];
    expect_cells(&rt, alloc, &two_of_each, &spots, &[0; 16])?;
    Ok(())
}

#[test]
fn a_log_of_4_behind_a_map_of_16_ends_in_cell_16(rt: HostRuntime) -> Result<(), Fail> {
    let alloc = rt.alloc();
    let map_and_log = layout(alloc, &[16], &[], None, &[4], 0)?;
    checked(&map_and_log).expect(&rt, "a store can be laid out so");
    let plan = CellPlan::of(alloc, &map_and_log).expect(&rt, "there are few cells");
    assert_eq!(rt; plan.cells(), 21);
    assert_eq!(rt; spot_at(&plan, 7), Some(Spot::MapKey(0, 7)));
    assert_eq!(rt; spot_at(&plan, 16), Some(Spot::LogEnd(0)));
    assert_eq!(rt; spot_at(&plan, 17), Some(Spot::LogEntry(0, 0)));
    assert_eq!(rt; spot_at(&plan, 21), None);
    Ok(())
}

#[test]
fn more_than_2_to_the_24_cells_are_too_many(rt: HostRuntime) -> Result<(), Fail> {
    let alloc = rt.alloc();
    let most = layout(alloc, &[], &[], None, &[], 16_777_216)?;
    checked(&most).expect(&rt, "a store can be laid out so");
    let plan = CellPlan::of(alloc, &most).expect(&rt, "there are just few enough cells");
    assert_eq!(rt; plan.cells(), 16_777_216);
    let more = layout(alloc, &[], &[], None, &[], 16_777_217)?;
    checked(&more).expect(&rt, "a store can be laid out so");
    let refused = CellPlan::of(alloc, &more).err();
    assert_eq!(rt; refused, Some(LayoutEnd::TooLarge { cells: 16_777_217 }));
    Ok(())
}
