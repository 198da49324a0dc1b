// A table over a store of rows.
ghost use Rattle.std.specs.Prelude.{◌≡◌, ◌<◌, ◌+◌, ◌-◌, ◌^◌, min, if◌then◌else◌, not, ◌&&◌, Result, IfSome, IfOk, IsTrue, true, false, Some, None, Ok};
ghost use Rattle.std.specs.Option.{option_copied};
ghost use Rattle.std.proofs.Props.{props};
ghost use Rattle.std.specs.FinMap as map;
ghost use Rattle.beldi_row.specs.Act.{drops};
ghost use Rattle.beldi_row.specs.Table.{IsNotFull, entry_of};
ghost use Rattle.beldi_sqltable.specs.StoreCounts.{Keeps, Stood, Blames, leaves, links};
ghost use Rattle.beldi_sqltable.specs.Store.{Stepped, without, written, settled};

use crate::calls::{open_store, read_row, remove_row, row_after, write_row};
use crate::store::RowStore;
use crate::survey::{Survey, survey_rows};
use beldi_row::{
    Act, ActReplyRef, Change, Opens, Row, RowKey, Table, TableErr, apply, drops, made, missing,
    removes, tell,
};
use beldi_table::{forget_if, is_open, note_if, room_in};
use std::alloc::Global;
use std::collections::BTreeSet;
use std::mem::{forget, replace};
use std::ops::Bound;

/// A table whose rows lie in a store. It keeps beside them how many they are, and the keys of open intents, so that `len` and
/// `opens` need not go from row to row. It counts no calls.
#[derive(Drop)]
pub struct RowTable<R: RowStore> {
    alloc: Global,
    store: R,
    count: u64,
    open_keys: BTreeSet<RowKey>,
    room: u32,
    faults: u64,
    // what the last answer lends
    found: Option<(RowKey, Row)>,
    // whether the rows have been counted
    surveyed: bool,
    ghost kept: { IfSome (R.rows store) (Keeps count open_keys surveyed) } by { Prim.hlevel props },
}

// A number of rows as it is answered.
fn counted(n: u64) -> u32
    ensures { result ≡ min n (2 ^ 32 - 1) }
{
    if n < 0xffff_ffff { n as u32 } else { u32::MAX }
}

// Whether an act gives a row the next one: what it says does not show whether the row had that.
fn links(act: &Act) -> bool
    ensures { result ≡ links act.now }
{
    matches!(act, Act::LinkCell { .. })
}

// Whether a change leaves the row as it was, and is not of such an act.
fn leaves(change: Change, links: bool) -> bool
    ensures { result ≡ (not links && leaves change) }
{
    !links
        && !matches!(
            change,
            Change::Bound | Change::Did | Change::Tested(_) | Change::Died | Change::Marked(_)
        )
}

// Whether it is so now, and was not before.
fn begins(is_so: bool, was_so: bool) -> bool
    ensures { result ≡ is_so && not was_so }
{
    is_so && !was_so
}

// A number of rows, with one more where there is one.
fn with_more(count: u64, is_new: bool) -> u64
    requires { IsTrue is_new → count < 2 ^ 32 }
    ensures { result ≡ (if is_new then count + 1 else count) }
{
    if is_new { count + 1 } else { count }
}

impl<R: RowStore> RowTable<R> {
    ghost use Rattle.beldi_row.specs.declared.act.Act.TheVariants.{Look};
    ghost use Rattle.beldi_row.specs.declared.table.TableErr.{TableErr};
    ghost use Rattle.beldi_sqltable.specs.RowTable.{table_state, row_in, Carried};

    /// A table over a store that tells that it has no rows.
    pub fn new(alloc: Global, store: R) -> RowTable<R>
        requires { R.rows store ≡ Some map.empty }
        ensures store { result.store ≡ store }
        ensures state { table_state result ≡ record { rows = Some map.empty; faults = 0; room = 0; calls = None } }
    {
        RowTable {
            alloc,
            store,
            count: 0,
            open_keys: BTreeSet::new(alloc),
            room: 0,
            faults: 0,
            found: None,
            surveyed: true,
        }
    }

    /// A table over a store that does not tell its rows. The first `ready` goes over them once.
    pub fn over(alloc: Global, store: R) -> RowTable<R>
        requires { R.rows store ≡ None }
        ensures store { result.store ≡ store }
        ensures state { table_state result ≡ record { rows = None; faults = 0; room = 0; calls = None } }
    {
        RowTable {
            alloc,
            store,
            count: 0,
            open_keys: BTreeSet::new(alloc),
            room: 0,
            faults: 0,
            found: None,
            surveyed: false,
        }
    }

    /// Gives the store back.
    pub fn into_store(self) -> R
        ensures { result ≡ self.store }
    {
        let RowTable {
            store,
            open_keys,
            found,
            ..
        } = self;
        drop(open_keys);
        drop(found);
        store
    }

    // Writes a row, and keeps the number of rows and the keys of open intents. `was_open` and `is_new` say what stood at the
    // key. Where the row is not written, all is as before.
    fn put(&mut self, key: &RowKey, row: &Row, was_open: bool, is_new: bool) -> Result<(), TableErr>
        requires stood { IfSome (R.rows self.old.store) (Stood key.now was_open is_new) }
        requires few { IsTrue is_new → self.old.count < 2 ^ 32 }
        ensures rows { R.rows self.new.store ≡ written key.now row.now result (R.rows self.old.store) }
        ensures blames { Blames self.old.faults self.new.faults result }
        ensures fits { IsNotFull result }
        ensures room { self.new.room ≡ self.old.room }
    {
        let opens = is_open(key.kind(), row);
        let noted = begins(opens, was_open);
        if !note_if(&mut self.open_keys, self.alloc, key, noted) {
            return Err(TableErr::OutOfMemory);
        }
        match write_row(&mut self.store, &mut self.faults, key, row) {
            Ok(()) => {
                forget_if(&mut self.open_keys, key, begins(was_open, opens));
                self.count = with_more(self.count, is_new);
                Ok(())
            }
            Err(why) => {
                forget_if(&mut self.open_keys, key, noted);
                Err(why)
            }
        }
    }

    // The same, with the row kept, so that it can be lent.
    fn keep(&mut self, key: RowKey, row: Row, was_open: bool, is_new: bool) -> Result<(), TableErr>
        requires stood { IfSome (R.rows self.old.store) (Stood key was_open is_new) }
        requires few { IsTrue is_new → self.old.count < 2 ^ 32 }
        ensures rows { R.rows self.new.store ≡ written key row result (R.rows self.old.store) }
        ensures blames { Blames self.old.faults self.new.faults result }
        ensures fits { IsNotFull result }
        ensures room { self.new.room ≡ self.old.room }
        ensures found { IfOk result (λ _. self.new.found ≡ Some (key, row)) }
    {
        match self.put(&key, &row, was_open, is_new) {
            Ok(()) => {
                drop(replace(&mut self.found, Some((key, row))));
                Ok(())
            }
            Err(why) => {
                drop(key);
                drop(row);
                Err(why)
            }
        }
    }

    // The same for a row on which an act was done. Where the act left it as it was, nothing is written.
    fn settle(&mut self, key: RowKey, row: Row, was_open: bool, left: bool) -> Result<(), TableErr>
        requires { IfSome (R.rows self.old.store) (Stood key was_open false) }
        ensures rows { R.rows self.new.store ≡ settled left key row result (R.rows self.old.store) }
        ensures blames { Blames self.old.faults self.new.faults result }
        ensures fits { IsNotFull result }
        ensures room { self.new.room ≡ self.old.room }
        ensures found { IfOk result (λ _. self.new.found ≡ Some (key, row)) }
    {
        if left {
            drop(replace(&mut self.found, Some((key, row))));
            Ok(())
        } else {
            self.keep(key, row, was_open, false)
        }
    }

    // Removes the row that stands at the key, and keeps the number of rows and the keys of open intents. Where it is not removed,
    // all is as before.
    fn forget(&mut self, key: RowKey) -> Result<(), TableErr>
        requires { IfSome (R.rows self.old.store) (λ m. IsTrue (map.contains_key m key)) }
        ensures rows { R.rows self.new.store ≡ without key result (R.rows self.old.store) }
        ensures blames { Blames self.old.faults self.new.faults result }
        ensures fits { IsNotFull result }
        ensures room { self.new.room ≡ self.old.room }
    {
        match remove_row(&mut self.store, &mut self.faults, &key) {
            Ok(()) => {
                forget_if(&mut self.open_keys, &key, true);
                self.count = self.count.saturating_sub(1);
                drop(key);
                Ok(())
            }
            Err(why) => {
                drop(key);
                Err(why)
            }
        }
    }

    // An act that may remove the row that stands at the key.
    fn drop_row(&mut self, key: RowKey, row: Row, act: Act, now: u64) -> Result<Change, TableErr>
        requires may { drops act ≡ true }
        requires here { IfSome (R.rows self.old.store) (λ m. map.get m key ≡ Some row) }
        ensures { Carried act now key (table_state self.old) (table_state self.new) self.new.found result }
    {
        let is_removed = removes(&act, &row, now);
        drop(act);
        drop(row);
        if !is_removed {
            drop(key);
            return Ok(Change::NotSo);
        }
        match self.forget(key) {
            Ok(()) => Ok(Change::Did),
            Err(why) => Err(why),
        }
    }

    // An act that removes no row, on the row that stands at the key.
    fn change_row(
        &mut self,
        key: RowKey,
        mut row: Row,
        act: Act,
        now: u64,
    ) -> Result<Change, TableErr>
        requires keeps { drops act ≡ false }
        requires here { IfSome (R.rows self.old.store) (λ m. map.get m key ≡ Some row) }
        ensures { Carried act now key (table_state self.old) (table_state self.new) self.new.found result }
    {
        let was_open = is_open(key.kind(), &row);
        let links = links(&act);
        let change = apply(&mut row, act, now);
        let left = leaves(change, links);
        match self.settle(key, row, was_open, left) {
            Ok(()) => Ok(change),
            Err(why) => Err(why),
        }
    }

    // An act on the row that stands at the key.
    fn meet_row(&mut self, key: RowKey, row: Row, act: Act, now: u64) -> Result<Change, TableErr>
        requires { IfSome (R.rows self.old.store) (λ m. map.get m key ≡ Some row) }
        ensures { Carried act now key (table_state self.old) (table_state self.new) self.new.found result }
    {
        if drops(&act) {
            self.drop_row(key, row, act, now)
        } else {
            self.change_row(key, row, act, now)
        }
    }

    // An act where no row has the key.
    fn add_row(&mut self, key: RowKey, act: Act, now: u64) -> Result<Change, TableErr>
        requires { IfSome (R.rows self.old.store) (λ m. map.get m key ≡ None) }
        ensures { Carried act now key (table_state self.old) (table_state self.new) self.new.found result }
    {
        let said = missing(&act);
        match made(act, now) {
            None => {
                drop(key);
                Ok(said)
            }
            Some(row) => {
                if self.count >= u64::from(self.room) {
                    drop(key);
                    drop(row);
                    return Err(TableErr::Full {
                        live: counted(self.count),
                        room: self.room,
                    });
                }
                match self.keep(key, row, false, true) {
                    Ok(()) => Ok(said),
                    Err(why) => Err(why),
                }
            }
        }
    }

    // A look at the row with the key. It writes nothing.
    fn look(&mut self, key: RowKey, now: u64) -> Result<Change, TableErr>
        ensures { Carried Look now key (table_state self.old) (table_state self.new) self.new.found result }
    {
        match read_row(&mut self.store, &mut self.faults, &key) {
            Ok(Some(row)) => {
                drop(replace(&mut self.found, Some((key, row))));
                Ok(Change::Row)
            }
            Ok(None) => {
                drop(key);
                drop(replace(&mut self.found, None));
                Ok(Change::Row)
            }
            Err(why) => {
                drop(key);
                Err(why)
            }
        }
    }

    // Carries out an act. The row that it found or made is kept.
    fn carry_out(&mut self, key: RowKey, act: Act, now: u64) -> Result<Change, TableErr>
        ensures { Carried act now key (table_state self.old) (table_state self.new) self.new.found result }
    {
        if let Act::Look = act {
            // It owns nothing.
            forget(act);
            self.look(key, now)
        } else {
            self.read_and_act(key, act, now)
        }
    }

    // Reads the row with the key, and carries out an act on it.
    fn read_and_act(&mut self, key: RowKey, act: Act, now: u64) -> Result<Change, TableErr>
        ensures { Carried act now key (table_state self.old) (table_state self.new) self.new.found result }
    {
        match read_row(&mut self.store, &mut self.faults, &key) {
            Ok(Some(row)) => self.meet_row(key, row, act, now),
            Ok(None) => self.add_row(key, act, now),
            Err(why) => {
                drop(key);
                drop(act);
                Err(why)
            }
        }
    }

    // The row that was found last.
    fn found_row(&self) -> Option<&Row>
        ensures { option_copied result ≡ row_in self.now.found }
    {
        match &self.found {
            Some((_, row)) => Some(row),
            None => None,
        }
    }

    // The row that was found last, with its key.
    fn found_entry(&self) -> Option<(&RowKey, &Row)>
        ensures { entry_of result ≡ self.now.found }
    {
        match &self.found {
            Some((key, row)) => Some((key, row)),
            None => None,
        }
    }

    // Finds the first row past a key.
    fn step(&mut self, after: &RowKey) -> Result<(), TableErr>
        ensures kept { R.rows self.new.store ≡ R.rows self.old.store }
        ensures found { IfOk result (λ _. Stepped after.now (R.rows self.old.store) self.new.found) }
        ensures blames { Blames self.old.faults self.new.faults result }
        ensures fits { IsNotFull result }
        ensures room { self.new.room ≡ self.old.room }
    {
        match row_after(&mut self.store, &mut self.faults, after) {
            Ok(found) => {
                drop(replace(&mut self.found, found));
                Ok(())
            }
            Err(why) => Err(why),
        }
    }

    // Opens the store, and goes over its rows where they are not known yet.
    fn prepare(&mut self) -> Result<(), TableErr>
        ensures kept { R.rows self.new.store ≡ R.rows self.old.store }
        ensures blames { Blames self.old.faults self.new.faults result }
        ensures fits { IsNotFull result }
        ensures room { self.new.room ≡ self.old.room }
    {
        match open_store(&mut self.store, &mut self.faults) {
            Ok(()) => { if self.surveyed { Ok(()) } else { self.survey() } }
            Err(why) => Err(why),
        }
    }

    // Goes over the rows of a store that does not tell them.
    fn survey(&mut self) -> Result<(), TableErr>
        requires { R.rows self.old.store ≡ None }
        ensures kept { R.rows self.new.store ≡ R.rows self.old.store }
        ensures blames { Blames self.old.faults self.new.faults result }
        ensures fits { IsNotFull result }
        ensures room { self.new.room ≡ self.old.room }
    {
        match survey_rows(self.alloc, &mut self.store, &mut self.faults) {
            Ok(survey) => {
                let Survey { count, open_keys } = survey;
                self.count = count;
                self.surveyed = true;
                drop(replace(&mut self.open_keys, open_keys));
                Ok(())
            }
            Err(why) => Err(why),
        }
    }
}

impl<R: RowStore> Table for RowTable<R> {
    ghost use Rattle.beldi_row.specs.Table.{OpensTold};
    ghost use Rattle.beldi_table.specs.Opened.{IsOpenPast};
    ghost use Rattle.beldi_sqltable.specs.RowTable.{table_state};

    ghost state = { table_state };

    fn len(&self) -> u32 {
        counted(self.count)
    }

    fn ready(&mut self, rooms: &[u32]) -> Result<(), TableErr> {
        match self.prepare() {
            Ok(()) => {
                self.room = room_in(rooms);
                Ok(())
            }
            Err(why) => Err(why),
        }
    }

    fn act(&mut self, key: RowKey, act: Act, now: u64) -> Result<ActReplyRef<'_>, TableErr> {
        let change = self.carry_out(key, act, now)?;
        Ok(tell(self.found_row(), change))
    }

    fn next(&mut self, after: &RowKey) -> Result<Option<(&RowKey, &Row)>, TableErr> {
        self.step(after)?;
        Ok(self.found_entry())
    }

    fn opens(&self, after: &RowKey) -> Opens<'_>
        ensures told { OpensTold after.now result (table_state self.now).rows }
        ensures first { IfSome (table_state self.now).rows (IsOpenPast after.now result) }
    {
        if !self.surveyed {
            return Opens::Untold;
        }
        let past = (Bound::Excluded(after), Bound::Unbounded);
        match self.open_keys.range(past).next() {
            Some(key) => Opens::First(key),
            None => Opens::None,
        }
    }
}
