//! Calls in an open child on the store of a run, each of which comes to its point of the gate.
ghost use Rattle.std.specs.Prelude.{◌≡◌, ◌-◌, ◌^◌, ◌<◌, [], ◌∷◌, length, get_or};
ghost use Rattle.serial_terms.specs.declared.call.Call.TheVariants.{MapGet, MapPut, Enqueue};
ghost use Rattle.serial_terms.specs.declared.call.Reply.TheVariants.{Nothing};
ghost use Rattle.serial_terms.specs.Serial.{in_child, found};
ghost use Rattle.tx_nest.specs.Attempts.{IsInChild};
ghost use Rattle.tx_store.specs.Children.{view_of, HasMark};
ghost use Rattle.run_bodies.specs.InChild.{ActsInChild, IsStop, stop_of};

use crate::gate::{Gate, Kind, Point};
use run_purpose::RunPurpose;
use std::alloc::AllocError;
use tx_core::Stop;
use tx_map::MapStop;
use tx_store::StoreTx;

/// The value of a key below the map's capacity.
pub(crate) fn get<'b, G: Gate>(
    gate: &mut G,
    tx: &mut StoreTx<'_, RunPurpose<'b>>,
    map: u32,
    key: u32,
) -> Result<Option<u64>, Stop>
    requires child { IsInChild (view_of tx.old) }
    requires marked { HasMark tx.old }
    requires map { map < length tx.old.store.table.meaning.plan.maps }
    requires key { key < get_or tx.old.store.table.meaning.plan.maps map 0 }
    ensures { ActsInChild tx.old tx.new (λ there. in_child (MapGet map key) (found there) ∷ []) result }
{
    match tx.map_get(map, u64::from(key)) {
        Ok(there) => {
            gate.at(Point::Called(Kind::MapGet));
            Ok(there)
        }
        Err(stop) => Err(stop_of(stop)),
    }
}

/// Gives a key below the map's capacity a value.
pub(crate) fn put<'b, G: Gate>(
    gate: &mut G,
    tx: &mut StoreTx<'_, RunPurpose<'b>>,
    map: u32,
    key: u32,
    value: u64,
) -> Result<(), Stop>
    requires child { IsInChild (view_of tx.old) }
    requires marked { HasMark tx.old }
    requires map { map < length tx.old.store.table.meaning.plan.maps }
    requires key { key < get_or tx.old.store.table.meaning.plan.maps map 0 }
    requires value { value < 2 ^ 64 - 1 }
    ensures { ActsInChild tx.old tx.new (λ _. in_child (MapPut map key value) Nothing ∷ []) result }
{
    match tx.map_put(map, u64::from(key), value) {
        Ok(()) => {
            gate.at(Point::Called(Kind::MapPut));
            Ok(())
        }
        Err(stop) => Err(stop_of(stop)),
    }
}

/// Puts a value into queue 0.
pub(crate) fn enqueue<'b, G: Gate>(
    gate: &mut G,
    tx: &mut StoreTx<'_, RunPurpose<'b>>,
    value: u64,
) -> Result<(), Stop>
    requires child { IsInChild (view_of tx.old) }
    requires marked { HasMark tx.old }
    requires queue { 0 < length tx.old.store.table.meaning.plan.queues }
    requires value { value < 2 ^ 64 - 1 }
    ensures { ActsInChild tx.old tx.new (λ _. in_child (Enqueue 0 value) Nothing ∷ []) result }
{
    match tx.queue_enqueue(0, value) {
        Ok(()) => {
            gate.at(Point::Called(Kind::Enqueue));
            Ok(())
        }
        Err(AllocError) => Err(Stop::Memory),
    }
}

// The stop of a call on a map that has a place for each key below its capacity.
fn stop_of(stop: MapStop) -> Stop
    requires { IsStop stop }
    ensures { result ≡ stop_of stop }
{
    match stop {
        MapStop::Stop(stop) => stop,
        MapStop::KeysFull { .. } => unreachable!(),
    }
}
