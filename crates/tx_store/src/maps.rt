//! The calls of maps.
ghost use Rattle.std.specs.Prelude.{◌≡◌, ◌+◌, ◌-◌, ◌^◌, ◌<◌, length, get_or};
ghost use Rattle.serial_terms.specs.declared.call.Call.TheVariants.{MapGet, MapPut, MapRemove, MapPutIfAbsent};
ghost use Rattle.serial_terms.specs.declared.call.Reply.TheVariants.{Nothing};
ghost use Rattle.serial_terms.specs.Renaming.{MayName};
ghost use Rattle.serial_terms.specs.Serial.{found};
ghost use Rattle.store_layout.specs.Shapes.{the_map, first_of, cells_of};
ghost use Rattle.store_parts.specs.Parts.{noted};
ghost use Rattle.tx_core.specs.Calls.{MayCall, LooksAt, stop_in, memory_in};
ghost use Rattle.tx_store.specs.Calls.{in_child, done_in, Makes};
ghost use Rattle.tx_store.specs.MapCalls.{IsCalledWithKey, IfStopMemory};

use crate::notes::note_call;
use crate::parts::map_of;
use crate::pools::reply_of;
use crate::tx::StoreTx;
use serial_terms::{Call, Reply};
use std::alloc::AllocError;
use store_layout::CellPlan;
use store_meaning::laws::attempts_follow_law;
use store_meaning::{Purpose, StoreMeaning};
use store_parts::laws::map_calls_law;
use tx_core::{Stop, Tx};
use tx_map::MapStop;

impl<P: Purpose> StoreTx<'_, P> {
    /// The value of a key, or `None` where it is absent. The key has a position from now on. It is noted.
    ///
    /// After a stop nothing is noted, and the attempt is stopped. `KeysFull` comes exactly where each position of the map was found
    /// to have another key, and leaves the attempt as it was.
    pub fn map_get(&mut self, map: u32, key: u64) -> Result<Option<u64>, MapStop>
        requires callable { MayCall self.old.attempt }
        requires map { map < length self.old.store.table.meaning.plan.maps }
        requires key { (key < 2 ^ 64 - 1) × P.Keys.passes (get_or self.old.store.table.meaning.plan.maps map 0) key }
        ensures { IsCalledWithKey P.Keys.passes self.old.store.table.meaning.plan map key 3 self.old self.new (λ there. record { call = MapGet map key; reply = found there }) result }
    {
        let store = self.store;
        let plan = store.plan();
        let part = map_of(plan, map);
        let position = match part.position_of(&store.directory, &mut self.keys, key) {
            Ok(position) => position,
            Err(full) => return Err(full),
        };
        match get_key(&mut self.tx, plan, map, key, position) {
            Ok(there) => Ok(there),
            Err(stop) => Err(MapStop::Stop(stop)),
        }
    }

    /// Gives a key a value below 2^64 - 1, whether or not it has one. It looks at no cell, and is noted.
    ///
    /// The only stop is want of memory, after which nothing is noted, and the attempt is stopped. `KeysFull` as for `map_get`.
    pub fn map_put(&mut self, map: u32, key: u64, value: u64) -> Result<(), MapStop>
        requires callable { MayCall self.old.attempt }
        requires map { map < length self.old.store.table.meaning.plan.maps }
        requires key { (key < 2 ^ 64 - 1) × P.Keys.passes (get_or self.old.store.table.meaning.plan.maps map 0) key }
        requires value { value < 2 ^ 64 - 1 }
        ensures called { IsCalledWithKey P.Keys.passes self.old.store.table.meaning.plan map key 0 self.old self.new (λ _. record { call = MapPut map key value; reply = Nothing }) result }
        ensures blind { IfStopMemory result }
    {
        let store = self.store;
        let plan = store.plan();
        let part = map_of(plan, map);
        let position = match part.position_of(&store.directory, &mut self.keys, key) {
            Ok(position) => position,
            Err(full) => return Err(full),
        };
        match put_key(&mut self.tx, plan, map, key, position, value) {
            Ok(()) => Ok(()),
            Err(AllocError) => Err(MapStop::Stop(Stop::Memory)),
        }
    }

    /// Makes a key absent, whether or not it has a value. It looks at no cell, and is noted.
    ///
    /// The only stop is want of memory, after which nothing is noted, and the attempt is stopped. `KeysFull` as for `map_get`.
    pub fn map_remove(&mut self, map: u32, key: u64) -> Result<(), MapStop>
        requires callable { MayCall self.old.attempt }
        requires map { map < length self.old.store.table.meaning.plan.maps }
        requires key { (key < 2 ^ 64 - 1) × P.Keys.passes (get_or self.old.store.table.meaning.plan.maps map 0) key }
        ensures called { IsCalledWithKey P.Keys.passes self.old.store.table.meaning.plan map key 0 self.old self.new (λ _. record { call = MapRemove map key; reply = Nothing }) result }
        ensures blind { IfStopMemory result }
    {
        let store = self.store;
        let plan = store.plan();
        let part = map_of(plan, map);
        let position = match part.position_of(&store.directory, &mut self.keys, key) {
            Ok(position) => position,
            Err(full) => return Err(full),
        };
        match remove_key(&mut self.tx, plan, map, key, position) {
            Ok(()) => Ok(()),
            Err(AllocError) => Err(MapStop::Stop(Stop::Memory)),
        }
    }

    /// The value of a key, which stays; or `None` where it was absent, and then it has the new value, which is below 2^64 - 1. It is
    /// noted.
    ///
    /// After a stop nothing is noted, and the attempt is stopped. `KeysFull` as for `map_get`.
    pub fn map_put_if_absent(
        &mut self,
        map: u32,
        key: u64,
        value: u64,
    ) -> Result<Option<u64>, MapStop>
        requires callable { MayCall self.old.attempt }
        requires map { map < length self.old.store.table.meaning.plan.maps }
        requires key { (key < 2 ^ 64 - 1) × P.Keys.passes (get_or self.old.store.table.meaning.plan.maps map 0) key }
        requires value { value < 2 ^ 64 - 1 }
        ensures { IsCalledWithKey P.Keys.passes self.old.store.table.meaning.plan map key 3 self.old self.new (λ there. record { call = MapPutIfAbsent map key value; reply = found there }) result }
    {
        let store = self.store;
        let plan = store.plan();
        let part = map_of(plan, map);
        let position = match part.position_of(&store.directory, &mut self.keys, key) {
            Ok(position) => position,
            Err(full) => return Err(full),
        };
        match fill_key(&mut self.tx, plan, map, key, position, value) {
            Ok(there) => Ok(there),
            Err(stop) => Err(MapStop::Stop(stop)),
        }
    }
}

// Each of these calls is made with the position that the key has.

fn get_key<P: Purpose>(
    tx: &mut Tx<'_, StoreMeaning<P>>,
    plan: &CellPlan,
    map: u32,
    key: u64,
    position: u32,
) -> Result<Option<u64>, Stop>
    requires callable { MayCall tx.old }
    requires sized { length tx.old.table.opening ≡ cells_of plan.now }
    requires map { map < length plan.now.maps }
    requires position { position < get_or plan.now.maps map 0 }
    requires name { MayName P.Keys.passes position key }
    ensures made { Makes P.Keys.passes plan.now (the_map map) 3 tx.old tx.new (done_in (λ there. noted (MapGet map key) (found there) (in_child tx.old.state) position) result) (stop_in result) }
    ensures looks { LooksAt (λ c. c ≡ first_of plan.now (the_map map) + position) 3 tx.old tx.new (stop_in result) }
{
    attempts_follow_law();
    let part = map_of(plan, map);
    map_calls_law(&part);
    let there = match part.value_at(tx, position) {
        Ok(there) => there,
        Err(stop) => return Err(stop),
    };
    let call = Call::MapGet { map, key };
    match note_call(tx, call, reply_of(there), position) {
        Ok(()) => Ok(there),
        Err(AllocError) => Err(Stop::Memory),
    }
}

fn put_key<P: Purpose>(
    tx: &mut Tx<'_, StoreMeaning<P>>,
    plan: &CellPlan,
    map: u32,
    key: u64,
    position: u32,
    value: u64,
) -> Result<(), AllocError>
    requires callable { MayCall tx.old }
    requires sized { length tx.old.table.opening ≡ cells_of plan.now }
    requires map { map < length plan.now.maps }
    requires position { position < get_or plan.now.maps map 0 }
    requires name { MayName P.Keys.passes position key }
    requires value { value < 2 ^ 64 - 1 }
    ensures made { Makes P.Keys.passes plan.now (the_map map) 0 tx.old tx.new (done_in (λ _. noted (MapPut map key value) Nothing (in_child tx.old.state) position) result) (memory_in result) }
    ensures looks { LooksAt (λ c. c ≡ first_of plan.now (the_map map) + position) 0 tx.old tx.new (memory_in result) }
{
    attempts_follow_law();
    let part = map_of(plan, map);
    map_calls_law(&part);
    match part.put_at(tx, position, value) {
        Ok(()) => {}
        Err(memory) => return Err(memory),
    }
    let call = Call::MapPut { map, key, value };
    match note_call(tx, call, Reply::Nothing, position) {
        Ok(()) => Ok(()),
        Err(memory) => Err(memory),
    }
}

fn remove_key<P: Purpose>(
    tx: &mut Tx<'_, StoreMeaning<P>>,
    plan: &CellPlan,
    map: u32,
    key: u64,
    position: u32,
) -> Result<(), AllocError>
    requires callable { MayCall tx.old }
    requires sized { length tx.old.table.opening ≡ cells_of plan.now }
    requires map { map < length plan.now.maps }
    requires position { position < get_or plan.now.maps map 0 }
    requires name { MayName P.Keys.passes position key }
    ensures made { Makes P.Keys.passes plan.now (the_map map) 0 tx.old tx.new (done_in (λ _. noted (MapRemove map key) Nothing (in_child tx.old.state) position) result) (memory_in result) }
    ensures looks { LooksAt (λ c. c ≡ first_of plan.now (the_map map) + position) 0 tx.old tx.new (memory_in result) }
{
    attempts_follow_law();
    let part = map_of(plan, map);
    map_calls_law(&part);
    match part.remove_at(tx, position) {
        Ok(()) => {}
        Err(memory) => return Err(memory),
    }
    let call = Call::MapRemove { map, key };
    match note_call(tx, call, Reply::Nothing, position) {
        Ok(()) => Ok(()),
        Err(memory) => Err(memory),
    }
}

fn fill_key<P: Purpose>(
    tx: &mut Tx<'_, StoreMeaning<P>>,
    plan: &CellPlan,
    map: u32,
    key: u64,
    position: u32,
    value: u64,
) -> Result<Option<u64>, Stop>
    requires callable { MayCall tx.old }
    requires sized { length tx.old.table.opening ≡ cells_of plan.now }
    requires map { map < length plan.now.maps }
    requires position { position < get_or plan.now.maps map 0 }
    requires name { MayName P.Keys.passes position key }
    requires value { value < 2 ^ 64 - 1 }
    ensures made { Makes P.Keys.passes plan.now (the_map map) 3 tx.old tx.new (done_in (λ there. noted (MapPutIfAbsent map key value) (found there) (in_child tx.old.state) position) result) (stop_in result) }
    ensures looks { LooksAt (λ c. c ≡ first_of plan.now (the_map map) + position) 3 tx.old tx.new (stop_in result) }
{
    attempts_follow_law();
    let part = map_of(plan, map);
    map_calls_law(&part);
    let there = match part.put_if_absent_at(tx, position, value) {
        Ok(there) => there,
        Err(stop) => return Err(stop),
    };
    let call = Call::MapPutIfAbsent { map, key, value };
    match note_call(tx, call, reply_of(there), position) {
        Ok(()) => Ok(there),
        Err(AllocError) => Err(Stop::Memory),
    }
}
