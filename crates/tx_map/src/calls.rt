//! The calls of a map.
ghost use Rattle.std.specs.Prelude.{◌≡◌, ℕ, ◌+◌, ◌-◌, ◌^◌, ◌<◌, Some, None, IfOk, IfErr, IfSome, OnOk, OnErr, is_ok, if◌then◌else◌};
ghost use Rattle.attempt_lists.specs.Cells.{put};
ghost use Rattle.tx_core.specs.Seen.{LooksOnly};
ghost use Rattle.tx_core.specs.Parts.{Explains};
ghost use Rattle.tx_core.specs.Calls.{MayCall, MayObserve, Stays, LooksAt, stop_in as stop_within, memory_in};
ghost use Rattle.tx_map.specs.Map.{IsFormed, value_in, Finds, Puts, Fills};
ghost use Rattle.tx_map.specs.Calls.{IsRegionOf, MayAsk, ClaimsKey, position_of, cell_of, stop_in, found_none, IsStopped, Writes, LooksThen, FilledBy, LooksBy, WritesBy, FillsBy};

use crate::part::{MapPart, MapStop};
use cell_table::Meaning;
use key_directory::{Directory, KeyPass, KeyTest};
use std::alloc::AllocError;
use tx_core::{Stop, Tx};

impl MapPart {
    /// The value of a key, or `None` where it is absent. It claims the key's position and reads its cell.
    ///
    /// After a stop the attempt is stopped. `KeysFull` leaves it as it was.
    pub fn get<M: Meaning, K: KeyTest>(
        &self,
        tx: &mut Tx<'_, M>,
        directory: &Directory<K>,
        keys: &mut KeyPass<K>,
        key: u64,
    ) -> Result<Option<u64>, MapStop>
        requires callable { MayAsk self.now tx.old directory.now keys.old }
        requires key { (key < 2 ^ 64 - 1) × K.passes self.now.capacity key }
        ensures keys { ClaimsKey self.now K.passes key keys.old keys.new result }

        // Wherever the observations hold, the reply is the map's, which stays as it is.
        ensures reply { IfOk result (λ found. Explains (IsFormed self.now) tx.old tx.new (Finds self.now (position_of self.now keys.new key) found)) }
        ensures value { IfOk result (λ found. IfSome found (λ value. value < 2 ^ 64 - 1)) }

        // It looks at the key's cell alone.
        ensures looks { LooksAt (λ c. c ≡ cell_of self.now keys.new key) 3 tx.old tx.new (stop_in result) }
        ensures pass { LooksOnly tx.old.pass tx.new.pass }
        ensures stays { Stays tx.old tx.new × (tx.new.writes ≡ tx.old.writes) }
        ensures exact { LooksBy (cell_of self.now keys.new key) tx.old tx.new result }
    {
        let position = self.position_of(directory, keys, key)?;
        let found = self.value_at(tx, position)?;
        Ok(found)
    }

    /// Gives a key a value, whether or not it has one. It claims the key's position and looks at nothing.
    ///
    /// The only stop is want of memory, after which the attempt is stopped. `KeysFull` leaves it as it was.
    pub fn put<M: Meaning, K: KeyTest>(
        &self,
        tx: &mut Tx<'_, M>,
        directory: &Directory<K>,
        keys: &mut KeyPass<K>,
        key: u64,
        value: u64,
    ) -> Result<(), MapStop>
        requires callable { MayAsk self.now tx.old directory.now keys.old }
        requires key { (key < 2 ^ 64 - 1) × K.passes self.now.capacity key }
        requires value { value < 2 ^ 64 - 1 }
        ensures keys { ClaimsKey self.now K.passes key keys.old keys.new result }

        // The map after the call has the value at the key.
        ensures map { OnOk result (Explains (IsFormed self.now) tx.old tx.new (Puts self.now (position_of self.now keys.new key) (Some value))) }

        // It touches the key's cell alone, and looks at nothing.
        ensures looks { LooksAt (λ c. c ≡ cell_of self.now keys.new key) 0 tx.old tx.new (stop_in result) }
        ensures blind { tx.new.pass ≡ record tx.old.pass { places = tx.new.pass.places } }
        ensures stays { Stays tx.old tx.new × (tx.new.writes ≡ (if is_ok result then put tx.old.writes (cell_of self.now keys.new key) (value + 1) else tx.old.writes)) }
        ensures exact { WritesBy (cell_of self.now keys.new key) (value + 1) tx.old tx.new result }
    {
        let position = self.position_of(directory, keys, key)?;
        self.put_at(tx, position, value)?;
        Ok(())
    }

    /// Makes a key absent, whether or not it has a value. It claims the key's position and looks at nothing.
    ///
    /// The only stop is want of memory, after which the attempt is stopped. `KeysFull` leaves it as it was.
    pub fn remove<M: Meaning, K: KeyTest>(
        &self,
        tx: &mut Tx<'_, M>,
        directory: &Directory<K>,
        keys: &mut KeyPass<K>,
        key: u64,
    ) -> Result<(), MapStop>
        requires callable { MayAsk self.now tx.old directory.now keys.old }
        requires key { (key < 2 ^ 64 - 1) × K.passes self.now.capacity key }
        ensures keys { ClaimsKey self.now K.passes key keys.old keys.new result }

        // The map after the call has no value at the key.
        ensures map { OnOk result (Explains (IsFormed self.now) tx.old tx.new (Puts self.now (position_of self.now keys.new key) None)) }

        // It touches the key's cell alone, and looks at nothing.
        ensures looks { LooksAt (λ c. c ≡ cell_of self.now keys.new key) 0 tx.old tx.new (stop_in result) }
        ensures blind { tx.new.pass ≡ record tx.old.pass { places = tx.new.pass.places } }
        ensures stays { Stays tx.old tx.new × (tx.new.writes ≡ (if is_ok result then put tx.old.writes (cell_of self.now keys.new key) 0 else tx.old.writes)) }
        ensures exact { WritesBy (cell_of self.now keys.new key) 0 tx.old tx.new result }
    {
        let position = self.position_of(directory, keys, key)?;
        self.remove_at(tx, position)?;
        Ok(())
    }

    /// The value of a key, which stays; or `None` where it was absent, and then the key has the new value. It claims the
    /// key's position and reads its cell.
    ///
    /// After a stop the attempt is stopped, and nothing is written. `KeysFull` leaves it as it was.
    pub fn put_if_absent<M: Meaning, K: KeyTest>(
        &self,
        tx: &mut Tx<'_, M>,
        directory: &Directory<K>,
        keys: &mut KeyPass<K>,
        key: u64,
        value: u64,
    ) -> Result<Option<u64>, MapStop>
        requires callable { MayAsk self.now tx.old directory.now keys.old }
        requires key { (key < 2 ^ 64 - 1) × K.passes self.now.capacity key }
        requires value { value < 2 ^ 64 - 1 }
        ensures keys { ClaimsKey self.now K.passes key keys.old keys.new result }

        // Wherever the observations hold, the reply is the map's, which then has the value that was there, else the new one.
        ensures reply { IfOk result (λ there. Explains (IsFormed self.now) tx.old tx.new (Fills self.now (position_of self.now keys.new key) value there)) }
        ensures value { IfOk result (λ there. IfSome there (λ value. value < 2 ^ 64 - 1)) }

        // It touches the key's cell alone, and writes it only where the key was absent.
        ensures looks { LooksAt (λ c. c ≡ cell_of self.now keys.new key) 3 tx.old tx.new (stop_in result) }
        ensures pass { LooksOnly tx.old.pass (record tx.new.pass { places = tx.old.pass.places }) }
        ensures stays { Stays tx.old tx.new × (tx.new.writes ≡ (if found_none result then put tx.old.writes (cell_of self.now keys.new key) (value + 1) else tx.old.writes)) }
        ensures exact { FillsBy (cell_of self.now keys.new key) (value + 1) tx.old tx.new result }
    {
        let position = self.position_of(directory, keys, key)?;
        let there = self.put_if_absent_at(tx, position, value)?;
        Ok(there)
    }

    /// The value of the key that has the position, which stays; or `None` where it was absent, and then it has the new value.
    ///
    /// After a stop the attempt is stopped, and nothing is written.
    pub fn put_if_absent_at<M: Meaning>(
        &self,
        tx: &mut Tx<'_, M>,
        position: u32,
        value: u64,
    ) -> Result<Option<u64>, Stop>
        requires callable { MayCall tx.old }
        requires cells { IsFormed self.now tx.old.table.opening }
        requires position { position < self.now.capacity }
        requires value { value < 2 ^ 64 - 1 }
        ensures reply { IfOk result (λ there. Explains (IsFormed self.now) tx.old tx.new (Fills self.now position value there)) }
        ensures value { IfOk result (λ there. IfSome there (λ value. value < 2 ^ 64 - 1)) }
        ensures looks { LooksAt (λ c. c ≡ self.now.base + position) 3 tx.old tx.new (stop_within result) }
        ensures pass { LooksOnly tx.old.pass (record tx.new.pass { places = tx.old.pass.places }) }
        ensures stays { Stays tx.old tx.new × (tx.new.writes ≡ (if found_none result then put tx.old.writes (self.now.base + position) (value + 1) else tx.old.writes)) }
        ensures filled { IfOk result (λ there. FilledBy (self.now.base + position) (value + 1) there tx.old tx.new) }
        ensures stopped { OnErr result (LooksThen (self.now.base + position) IsStopped tx.old tx.new) }
    {
        match self.value_at(tx, position) {
            Ok(Some(there)) => Ok(Some(there)),
            Ok(None) => match self.store(tx, position, value + 1) {
                Ok(()) => Ok(None),
                Err(AllocError) => Err(Stop::Memory),
            },
            Err(stop) => Err(stop),
        }
    }

    /// The value of the key that has the position, or `None` where it is absent, by a read of its cell.
    ///
    /// After a stop the attempt is stopped.
    pub fn value_at<M: Meaning>(
        &self,
        tx: &mut Tx<'_, M>,
        position: u32,
    ) -> Result<Option<u64>, Stop>
        requires callable { MayCall tx.old }
        requires cells { IsFormed self.now tx.old.table.opening }
        requires position { position < self.now.capacity }
        ensures reply { IfOk result (λ found. Explains (IsFormed self.now) tx.old tx.new (Finds self.now position found)) }
        ensures value { IfOk result (λ found. IfSome found (λ value. value < 2 ^ 64 - 1)) }
        ensures looks { LooksAt (λ c. c ≡ self.now.base + position) 3 tx.old tx.new (stop_within result) }
        ensures pass { LooksOnly tx.old.pass tx.new.pass }
        ensures stays { Stays tx.old tx.new × (tx.new.writes ≡ tx.old.writes) }
        ensures observes { OnOk result (MayObserve tx.old tx.new (self.now.base + position)) }
        ensures stopped { OnErr result (IsStopped tx.old tx.new) }
    {
        tx.limits_law();
        let word = tx.read(self.base + position)?;
        tx.laid_over_law();
        Ok(word.checked_sub(1))
    }

    /// Gives the key that has the position a value, whether or not it has one. It looks at nothing.
    ///
    /// After want of memory the attempt is stopped.
    pub fn put_at<M: Meaning>(
        &self,
        tx: &mut Tx<'_, M>,
        position: u32,
        value: u64,
    ) -> Result<(), AllocError>
        requires callable { MayCall tx.old }
        requires cells { IsFormed self.now tx.old.table.opening }
        requires position { position < self.now.capacity }
        requires value { value < 2 ^ 64 - 1 }
        ensures map { OnOk result (Explains (IsFormed self.now) tx.old tx.new (Puts self.now position (Some value))) }
        ensures looks { LooksAt (λ c. c ≡ self.now.base + position) 0 tx.old tx.new (memory_in result) }
        ensures blind { tx.new.pass ≡ record tx.old.pass { places = tx.new.pass.places } }
        ensures stays { Stays tx.old tx.new × (tx.new.writes ≡ (if is_ok result then put tx.old.writes (self.now.base + position) (value + 1) else tx.old.writes)) }
        ensures ok { OnOk result (Writes (self.now.base + position) (value + 1) tx.old tx.new) }
        ensures stopped { OnErr result (IsStopped tx.old tx.new) }
    {
        self.store(tx, position, value + 1)
    }

    /// Makes the key that has the position absent, whether or not it has a value. It looks at nothing.
    ///
    /// After want of memory the attempt is stopped.
    pub fn remove_at<M: Meaning>(&self, tx: &mut Tx<'_, M>, position: u32) -> Result<(), AllocError>
        requires callable { MayCall tx.old }
        requires cells { IsFormed self.now tx.old.table.opening }
        requires position { position < self.now.capacity }
        ensures map { OnOk result (Explains (IsFormed self.now) tx.old tx.new (Puts self.now position None)) }
        ensures looks { LooksAt (λ c. c ≡ self.now.base + position) 0 tx.old tx.new (memory_in result) }
        ensures blind { tx.new.pass ≡ record tx.old.pass { places = tx.new.pass.places } }
        ensures stays { Stays tx.old tx.new × (tx.new.writes ≡ (if is_ok result then put tx.old.writes (self.now.base + position) 0 else tx.old.writes)) }
        ensures ok { OnOk result (Writes (self.now.base + position) 0 tx.old tx.new) }
        ensures stopped { OnErr result (IsStopped tx.old tx.new) }
    {
        self.store(tx, position, 0)
    }

    // Writes the word of the key that has the position.
    fn store<M: Meaning>(
        &self,
        tx: &mut Tx<'_, M>,
        position: u32,
        word: u64,
    ) -> Result<(), AllocError>
        requires callable { MayCall tx.old }
        requires cells { IsFormed self.now tx.old.table.opening }
        requires position { position < self.now.capacity }
        ensures map { OnOk result (Explains (IsFormed self.now) tx.old tx.new (Puts self.now position (value_in word))) }
        ensures looks { LooksAt (λ c. c ≡ self.now.base + position) 0 tx.old tx.new (memory_in result) }
        ensures blind { tx.new.pass ≡ record tx.old.pass { places = tx.new.pass.places } }
        ensures stays { Stays tx.old tx.new × (tx.new.writes ≡ (if is_ok result then put tx.old.writes (self.now.base + position) word else tx.old.writes)) }
        ensures ok { OnOk result (Writes (self.now.base + position) word tx.old tx.new) }
        ensures stopped { OnErr result (IsStopped tx.old tx.new) }
    {
        tx.limits_law();
        tx.laid_over_law();
        tx.write(self.base + position, word)
    }

    /// The position of a key, which it has for good from now on. Another call may be made with it in place of the key.
    ///
    /// The only error is `KeysFull`, exactly where each position of the region was found to have another key.
    pub fn position_of<K: KeyTest>(
        &self,
        directory: &Directory<K>,
        keys: &mut KeyPass<K>,
        key: u64,
    ) -> Result<u32, MapStop>
        requires directory { keys.old.directory ≡ directory.now }
        requires region { IsRegionOf self.now directory.now }
        requires key { key < 2 ^ 64 - 1 }
        requires passes { K.passes self.now.capacity key }
        ensures keys { ClaimsKey self.now K.passes key keys.old keys.new result }
        ensures position { IfOk result (λ position. (position ≡ position_of self.now keys.new key) × (position < self.now.capacity)) }
        ensures never_stopped { stop_in result ≡ None }
    {
        keys.claims_stand_law();
        let claimed = directory.claim(keys, self.region, key);
        keys.claims_stand_law();
        match claimed {
            Ok(position) => Ok(position),
            Err(full) => Err(MapStop::KeysFull {
                capacity: full.capacity,
            }),
        }
    }
}
