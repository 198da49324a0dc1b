// A table over an ordered map in memory.
ghost use Rattle.std.specs.Prelude.{◌≡◌, ℕ, ◌^◌, ◌-◌, min, true, false, None, Ok, option_map};
ghost use Rattle.std.specs.Option.{option_copied};
ghost use Rattle.std.specs.FinMap as map;
ghost use Rattle.beldi_row.specs.Act.{drops, removes, change_reply};
ghost use Rattle.beldi_row.specs.Table.{room_of};
ghost use Rattle.beldi_table.specs.Opened.{Indexed};

use crate::open_keys::{binds, follow, forget_if, is_open, note_if, switches};
use beldi_row::{
    Act, ActReplyRef, Change, Opens, Row, RowKey, Table, TableErr, apply, drops, is_of_row, made,
    missing, removes, tell,
};
use beldi_value::or_drop;
use std::alloc::Global;
use std::collections::{BTreeMap, BTreeSet};
use std::mem;
use std::ops::Bound;

/// A table that never fails. It tells its rows, and counts no calls. It keeps the keys of its open intents beside them, so
/// that `opens` need not go from row to row.
#[derive(Drop)]
pub struct MapTable {
    alloc: Global,
    rows: BTreeMap<RowKey, Row>,
    open_keys: BTreeSet<RowKey>,
    room: u32,
    ghost indexed: { Indexed rows open_keys },
}

/// A number of rows as it is answered.
pub fn counted(n: usize) -> u32
    ensures { result ≡ min n (2 ^ 32 - 1) }
{
    if n < 0xffff_ffff { n as u32 } else { u32::MAX }
}

/// The one room of the list, or 0.
pub fn room_in(rooms: &[u32]) -> u32
    ensures { result ≡ room_of rooms.now }
{
    match rooms.first() {
        Some(room) => *room,
        None => 0,
    }
}

// What came of an act on the row with a key.
#[derive(Drop)]
enum Tried {
    // This was done.
    Done(Change),
    // No row is there, so the act is given back.
    Absent(Act),
}

impl MapTable {
    ghost use Rattle.beldi_table.specs.MapTable.{rows_of, ChangedOn, Tries, Put};

    /// A table without rows and without room for any.
    pub fn new(alloc: Global) -> MapTable
        ensures rows { rows_of result ≡ map.empty }
        ensures room { result.room ≡ 0 }
    {
        MapTable {
            alloc,
            rows: BTreeMap::new(alloc),
            open_keys: BTreeSet::new(alloc),
            room: 0,
        }
    }

    // Whether an act removes the row with this key, where there is one.
    fn is_removed(&self, key: &RowKey, act: &Act, now: u64) -> Option<bool>
        ensures { result ≡ option_map (removes act.now now) (map.get (rows_of self.now) key.now) }
    {
        match self.rows.get(key) {
            Some(row) => Some(removes(act, row, now)),
            None => None,
        }
    }

    // Takes the row with this key away.
    fn forget(&mut self, key: &RowKey)
        ensures rows { rows_of self.new ≡ map.remove (rows_of self.old) key.now }
        ensures room { self.new.room ≡ self.old.room }
    {
        drop(self.rows.remove(key));
        forget_if(&mut self.open_keys, key, true);
    }

    // An act that may remove the row with this key. What it says lends nothing.
    fn drop_row(&mut self, key: &RowKey, act: Act, now: u64) -> Change
        requires { drops act ≡ true }
        ensures rows { ChangedOn act now key.now self.old.room (rows_of self.old) (rows_of self.new) None (Ok result) }
        ensures room { self.new.room ≡ self.old.room }
    {
        let said = missing(&act);
        let found = self.is_removed(key, &act, now);
        drop(act);
        match found {
            None => said,
            Some(false) => Change::NotSo,
            Some(true) => {
                self.forget(key);
                Change::Did
            }
        }
    }

    // An act on the row with this key. A Look changes nothing, so it needs no row yet.
    fn change(&mut self, key: &RowKey, act: Act, now: u64) -> Result<Tried, TableErr>
        requires { drops act ≡ false }
        ensures tries { Tries act now key.now self.old self.new result }
        ensures room { self.new.room ≡ self.old.room }
    {
        if let Act::Look = act {
            // It owns nothing.
            mem::forget(act);
            return Ok(Tried::Done(Change::Row));
        }
        match self.rows.get_mut(key) {
            Some(row) => {
                let switched = switches(&act);
                if !note_if(&mut self.open_keys, self.alloc, key, binds(&act)) {
                    drop(act);
                    return Err(TableErr::OutOfMemory);
                }
                let change = apply(row, act, now);
                follow(&mut self.open_keys, key, row, switched);
                Ok(Tried::Done(change))
            }
            None => Ok(Tried::Absent(act)),
        }
    }

    // The row, where a change tells what lies in it.
    fn row_told(&self, key: &RowKey, change: Change) -> Option<&Row>
        ensures { change_reply change (option_copied result) ≡ change_reply change (map.get (rows_of self.now) key.now) }
    {
        if is_of_row(change) {
            self.rows.get(key)
        } else {
            None
        }
    }

    // An act where no row has this key. What it says lends nothing.
    fn add(&mut self, key: RowKey, act: Act, now: u64) -> Result<Change, TableErr>
        requires { map.get (rows_of self.old) key ≡ None }
        ensures rows { ChangedOn act now key self.old.room (rows_of self.old) (rows_of self.new) None result }
        ensures room { self.new.room ≡ self.old.room }
    {
        let said = missing(&act);
        match made(act, now) {
            None => {
                drop(key);
                Ok(said)
            }
            Some(row) => {
                let live = self.rows.len();
                if live >= self.room as usize {
                    drop(key);
                    drop(row);
                    return Err(TableErr::Full {
                        live: counted(live),
                        room: self.room,
                    });
                }
                match self.put(key, row) {
                    Ok(()) => Ok(said),
                    Err(why) => Err(why),
                }
            }
        }
    }

    // Adds a row. Out of memory, the rows are as before.
    fn put(&mut self, key: RowKey, row: Row) -> Result<(), TableErr>
        requires { map.get (rows_of self.old) key ≡ None }
        ensures rows { Put key row (rows_of self.old) (rows_of self.new) result }
        ensures room { self.new.room ≡ self.old.room }
    {
        let opens = is_open(key.kind(), &row);
        if !note_if(&mut self.open_keys, self.alloc, &key, opens) {
            drop(key);
            drop(row);
            return Err(TableErr::OutOfMemory);
        }
        match self.rows.insert(key, row) {
            Ok(replaced) => {
                drop(replaced);
                Ok(())
            }
            Err(failed) => {
                let (key, row) = failed.value;
                drop(row);
                forget_if(&mut self.open_keys, &key, true);
                drop(key);
                Err(TableErr::OutOfMemory)
            }
        }
    }
}

impl Table for MapTable {
    ghost use Rattle.beldi_row.specs.Table.{OpensTold};
    ghost use Rattle.beldi_table.specs.Opened.{IsOpenPast};
    ghost use Rattle.beldi_table.specs.MapTable.{rows_of, map_state};

    ghost state = { map_state };

    fn len(&self) -> u32 {
        counted(self.rows.len())
    }

    fn ready(&mut self, rooms: &[u32]) -> Result<(), TableErr> {
        self.room = room_in(rooms);
        Ok(())
    }

    fn act(&mut self, key: RowKey, act: Act, now: u64) -> Result<ActReplyRef<'_>, TableErr> {
        if drops(&act) {
            let change = self.drop_row(&key, act, now);
            drop(key);
            return Ok(tell(None, change));
        }
        match or_drop!(self.change(&key, act, now); key) {
            Tried::Done(change) => {
                let row = self.row_told(&key, change);
                drop(key);
                Ok(tell(row, change))
            }
            Tried::Absent(act) => {
                let added = self.add(key, act, now)?;
                Ok(tell(None, added))
            }
        }
    }

    fn next(&mut self, after: &RowKey) -> Result<Option<(&RowKey, &Row)>, TableErr> {
        Ok(
            self.rows
                .range((Bound::Excluded(after), Bound::Unbounded))
                .next(),
        )
    }

    fn opens(&self, after: &RowKey) -> Opens<'_>
        ensures told { OpensTold after.now result (map_state self.now).rows }
        ensures first { IsOpenPast after.now result (rows_of self.now) }
    {
        let past = (Bound::Excluded(after), Bound::Unbounded);
        match self.open_keys.range(past).next() {
            Some(key) => Opens::First(key),
            None => Opens::None,
        }
    }
}
