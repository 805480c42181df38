//! Room for what the structures of a store hold.
ghost use Rattle.std.specs.Prelude.{◌≡◌, ◌≤◌, [], length, reverse, vec_capacity, IfOk};

use serial_terms::PlainList;
use std::alloc::{AllocError, Global};
use std::marker::Model;
use store_layout::{CellPlan, Place};

/// Where a structure's cells begin, and room for as many values as it may have.
#[derive(Drop)]
pub(crate) struct Room<T> {
    place: Place,
    values: Vec<T>,
}

impl<T> Model for Room<T> {
    ghost use Rattle.std.specs.Prelude.{◌≡◌, ◌≤◌, [], vec_capacity};
    ghost use Rattle.store_layout.specs.declared.place.Place.{Place};

    ghost Value = { Place };

    ghost view = { λ r. r.place };

    ghost invariant = { λ r. (r.values.items ≡ []) × (r.place.capacity ≤ vec_capacity r.values) };
}

impl<T: Drop> Room<T> {
    fn take(alloc: Global, place: Place) -> Result<Room<T>, AllocError>
        ensures { IfOk result (λ room. room ≡ place) }
    {
        let values = Vec::with_capacity(alloc, place.capacity as usize)?;
        Ok(Room { place, values })
    }

    /// The place, and the room.
    pub(crate) fn open(self) -> (Place, Vec<T>)
        ensures place { result.0 ≡ self }
        ensures empty { result.1.items ≡ [] }
        ensures capacity { self.capacity ≤ vec_capacity result.1 }
    {
        let Room { place, values } = self;
        (place, values)
    }
}

/// Room for each structure of a kind, and for the list of them.
#[derive(Drop)]
pub(crate) struct Rooms<T> {
    rooms: Vec<Room<T>>,
    lists: Vec<PlainList<T>>,
}

impl<T> Model for Rooms<T> {
    ghost use Rattle.std.specs.Prelude.{◌≡◌, ◌≤◌, List, [], length, vec_capacity};
    ghost use Rattle.store_layout.specs.declared.place.Place.{Place};

    ghost Value = { List Place };

    ghost view = { λ r. r.rooms.items };

    ghost invariant = { λ r. (r.lists.items ≡ []) × (length r.rooms.items ≤ vec_capacity r.lists) };
}

impl<T: Drop> Rooms<T> {
    fn take(alloc: Global, places: &[Place]) -> Result<Rooms<T>, AllocError>
        ensures { IfOk result (λ rooms. rooms ≡ places.now) }
    {
        let mut rooms = Vec::with_capacity(alloc, places.len())?;
        for place in places {
            let room = Room::take(alloc, *place)?;
            rooms.push(room)?;
        }
        let lists = Vec::with_capacity(alloc, places.len())?;
        Ok(Rooms { rooms, lists })
    }

    /// The rooms, the last structure's first, and room for their lists.
    pub(crate) fn open(self) -> (Vec<Room<T>>, Vec<PlainList<T>>)
        ensures rooms { result.0.items ≡ reverse self }
        ensures empty { result.1.items ≡ [] }
        ensures capacity { length self ≤ vec_capacity result.1 }
    {
        let Rooms { mut rooms, lists } = self;
        rooms.reverse();
        (rooms, lists)
    }
}

/// Room for all that the structures of a plan may hold. Contracts see it as the shape of the plan.
#[derive(Drop)]
pub struct ContentsRoom {
    pub(crate) maps: Rooms<(u64, u64)>,
    pub(crate) queues: Rooms<u64>,
    pub(crate) pools: Rooms<u64>,
    pub(crate) logs: Rooms<u64>,
    pub(crate) cells: Room<u64>,
}

impl Model for ContentsRoom {
    ghost use Rattle.store_layout.specs.Shapes.{Shape};
    ghost use Rattle.store_layout.specs.Plans.{shape_by, IsPlan};

    ghost Value = { Shape };

    ghost view = { λ r. shape_by r.maps r.queues r.pools r.logs r.cells };

    ghost invariant = { λ r. IsPlan r.maps r.queues r.pools r.logs r.cells };
}

impl ContentsRoom {
    /// Room for all that the structures of the plan may hold.
    pub fn of(alloc: Global, plan: &CellPlan) -> Result<ContentsRoom, AllocError>
        ensures { IfOk result (λ room. room ≡ plan.now) }
    {
        Ok(ContentsRoom {
            maps: Rooms::take(alloc, plan.map_places())?,
            queues: Rooms::take(alloc, plan.queue_places())?,
            pools: Rooms::take(alloc, plan.pool_places())?,
            logs: Rooms::take(alloc, plan.log_places())?,
            cells: Room::take(alloc, plan.plain_place())?,
        })
    }
}
