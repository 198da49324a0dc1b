// A table over a region.
ghost use Rattle.std.specs.Prelude.{◌≡◌, ◌<◌, ◌≤◌, ℕ, Option, [], length, insert, true, false, None, Ok, IfOk, IfErr, IfSome, IsErrOf, ⊤};
ghost use Rattle.std.specs.Borrow.{sem, follows_so};
ghost use Rattle.std.proofs.Props.{props};
ghost use mathlib.Core.Option.{none};
ghost use Rattle.std.specs.Option.{option_copied};
ghost use Rattle.std.specs.FinMap as map;
ghost use Rattle.std.specs.declared.cmp.Ordering.TheVariants.{Equal};
ghost use Rattle.beldi_row.specs.Act.{drops, off, removes, change_reply};
ghost use Rattle.beldi_row.specs.Log.{note_at};
ghost use Rattle.beldi_row.specs.declared.act.Act.TheVariants as acts;
ghost use Rattle.beldi_row.specs.declared.row.Row as row_data;
ghost use Rattle.beldi_row.specs.Table.{entry_of, next_row, Acted, LeadsOn, Went};
ghost use Rattle.beldi_row.specs.declared.table.TableErr.TheVariants.{OutOfMemory};
ghost use Rattle.beldi_table.specs.MapTable.{ChangedOn};
ghost use Rattle.beldi_region.specs.Region.{find, Released};
ghost use Rattle.beldi_region.specs.Ids.{ids_of, place_of, found};
ghost use Rattle.beldi_region.specs.Blocks.{IsSpot};
ghost use Rattle.beldi_region.specs.SlotOrder.{pairs, rows_in, side, Finds, IsGap, IsHeld, IsListed, IsPast};
ghost use Rattle.beldi_region.specs.Follows.{Follows};

use crate::blocks::Spot;
use crate::hints::Hints;
use crate::opened::follow;
use crate::order::{Entry, Order, side};
use crate::region::{Region, SlotId};
use beldi_row::{
    Act, ActReplyRef, Change, Log, Opens, Row, RowKey, Table, TableErr, apply, drops, is_of_row,
    made, missing, removes, tell,
};
use beldi_table::{is_open, room_in, switches};
use beldi_value::{Place, or_drop};
use std::alloc::{AllocError, Global};
use std::mem::{forget, replace};

/// A table in memory that never fails. It tells its rows, and counts no calls. The memory for its rows is taken by `ready`, so
/// no act and no step is out of memory. For each row of its room it takes some 310 bytes, 64 of
/// them for the orders of slots, and besides what a row holds apart.
#[derive(Drop)]
pub struct RegionTable {
    alloc: Global,
    region: Region<Entry>,
    index: Order,
    // The slots of open intents, so that `opens` need not go from row to row.
    opened: Order,
    hints: Hints,
    room: u32,
    ghost held: { IsHeld region (ids_of index) } by { Prim.hlevel props },
    ghost listed: { IsListed region (ids_of opened) } by { Prim.hlevel props },
    ghost wide: { region.room ≤ opened.room },
    ghost fits: { room ≤ region.room },
    ghost reserved: { region.room ≤ index.room },
}

// The number of the row that follows this one of an item, which has no entry of the place.
fn follows(row: &Row, place: Option<&Place>) -> Option<u32>
    ensures { IfSome result (Follows row.now (option_copied place.entry)) }
{
    let Row::Cell(cell) = row else {
        return None;
    };
    // A last row is not searched for the place.
    let Some(next) = cell.next else {
        return None;
    };
    match place {
        None => Some(next),
        Some(place) => {
            if lacks(&cell.log, place) {
                Some(next)
            } else {
                None
            }
        }
    }
}

// Whether a log is seen to have no entry of a place.
fn lacks(log: &Log, place: &Place) -> bool
    ensures { result ≡ true → note_at log.now place.now ≡ None }
{
    let entries = log.as_slice();
    for index in 0..entries.len() {
        let entry = &entries[index];
        // Most entries have another step, or another ticket where one step of a function is all that writes the item.
        if entry.place.step == place.step
            && entry.place.intent.ticket == place.intent.ticket
            && entry.place == *place
        {
            return false;
        }
    }
    true
}

// Whether an act is a look, which makes nothing.
fn is_look(act: &Act) -> bool
    ensures look { result ≡ true → act.now ≡ acts.Look }
    ensures none { (now : ℕ) → result ≡ true → (off act.now now).0 ≡ None }
{
    matches!(act, Act::Look)
}

// Takes the row out of a slot, if it has one.
fn vacate(region: &mut Region<Entry>, id: SlotId)
    ensures { IfSome (find region.old id) (λ e. Released region.old region.new id e) }
{
    match region.release(id) {
        Ok(entry) => drop(entry),
        Err(_) => {}
    }
}

impl RegionTable {
    ghost use Rattle.beldi_region.specs.RegionTable.{rows_of};

    /// A table without rows and without room for any. It takes no memory.
    pub fn new(alloc: Global) -> RegionTable
        ensures rows { rows_of result ≡ map.empty }
        ensures room { result.room ≡ 0 }
    {
        RegionTable {
            alloc,
            region: Region::new(alloc),
            index: Order::new(alloc),
            opened: Order::new(alloc),
            hints: Hints::new(alloc),
            room: 0,
        }
    }

    // The slot of the row with a key, which the hint may name, or else the place where it is to stand.
    #[inline(always)]
    fn find(&self, key: &RowKey, hint: usize) -> Result<SlotId, Spot>
        ensures spot { IfErr result (IsSpot self.now.index.blocks.lists) }
        ensures finds { Finds self.now.region (ids_of self.now.index) key.now (found self.now.index result) }
    {
        let id = self.hints.at(hint);
        if side(&self.region, id, key).is_eq() {
            return Ok(id);
        }
        let near = self.hints.spot(key);
        // A row that the hint does not name is searched for.
        if let Some((spot, false)) = self.index.past_near(&self.region, key, near) {
            return Err(spot);
        }
        self.index.find(&self.region, key)
    }

    // An act on the row with this key, which is in this slot.
    fn change(&mut self, id: SlotId, key: &RowKey, act: Act, now: u64) -> Change
        requires keeps { drops act ≡ false }
        requires found { side key.now (find self.old.region id) ≡ Equal }
        ensures rows { ChangedOn act now key.now self.old.room (rows_of self.old) (rows_of self.new) (map.get (rows_of self.new) key.now) (Ok result) }
        ensures room { self.new.room ≡ self.old.room }
        ensures there { side key.now (find self.new.region id) ≡ Equal }
    {
        let switched = switches(&act);
        let entry = self.region.value_mut(id);
        let change = apply(&mut entry.row, act, now);
        follow(&mut self.opened, &self.region, id, switched);
        change
    }

    // Whether an act removes the row in this slot.
    fn is_removed(&self, id: SlotId, act: &Act, now: u64) -> bool
        ensures { IfSome (find self.now.region id) (λ e. result ≡ removes act.now now e.row) }
    {
        match self.region.get(id) {
            Ok(entry) => removes(act, &entry.row, now),
            Err(_) => false,
        }
    }

    // Takes the row with this key away, which is in this slot.
    fn forget(&mut self, id: SlotId, key: &RowKey)
        requires { side key.now (find self.old.region id) ≡ Equal }
        ensures rows { rows_of self.new ≡ map.remove (rows_of self.old) key.now }
        ensures room { self.new.room ≡ self.old.room }
    {
        self.opened.forget(&self.region, key);
        self.index.forget(&self.region, key);
        vacate(&mut self.region, id);
    }

    // An act that may remove the row with this key, which is in this slot. What it says lends nothing.
    fn drop_row(&mut self, id: SlotId, key: &RowKey, act: Act, now: u64) -> Change
        requires may { drops act ≡ true }
        requires found { side key.now (find self.old.region id) ≡ Equal }
        ensures rows { ChangedOn act now key.now self.old.room (rows_of self.old) (rows_of self.new) None (Ok result) }
        ensures room { self.new.room ≡ self.old.room }
    {
        let is_removed = self.is_removed(id, &act, now);
        drop(act);
        if !is_removed {
            return Change::NotSo;
        }
        self.forget(id, key);
        Change::Did
    }

    // What a look at the row with this key comes to, which leaves it as it is.
    fn looked(&self, key: &RowKey, act: &Act, now: u64) -> Change
        requires { act.now ≡ acts.Look }
        ensures { ChangedOn act.now now key.now self.now.room (rows_of self.now) (rows_of self.now) (map.get (rows_of self.now) key.now) (Ok result) }
    {
        Change::Row
    }

    // The row in this slot, where a change tells what lies in it.
    fn row_told(&self, id: SlotId, key: &RowKey, change: Change) -> Option<&Row>
        requires { side key.now (find self.now.region id) ≡ Equal }
        ensures { change_reply change (option_copied result) ≡ change_reply change (map.get (rows_of self.now) key.now) }
    {
        if !is_of_row(change) {
            return None;
        }
        match self.region.get(id) {
            Ok(entry) => Some(&entry.row),
            Err(_) => None,
        }
    }

    // An act where no row has this key. What it says lends nothing.
    fn add(&mut self, key: RowKey, act: Act, now: u64, spot: Spot) -> Result<Change, TableErr>
        requires spot { IsSpot self.old.index.blocks.lists spot }
        requires gap { IsGap self.old.region (ids_of self.old.index) key (place_of self.old.index spot) }
        ensures rows { ChangedOn act now key self.old.room (rows_of self.old) (rows_of self.new) None result }
        ensures room { self.new.room ≡ self.old.room }
        ensures never { IsErrOf result OutOfMemory → ⊥ }
    {
        let said = missing(&act);
        // A look is not handed on: what it would make has a row's size. It owns nothing.
        if is_look(&act) {
            forget(act);
            drop(key);
            return Ok(said);
        }
        self.add_made(key, act, now, spot, said)
    }

    // .. which tells this, and may add a row.
    fn add_made(
        &mut self,
        key: RowKey,
        act: Act,
        now: u64,
        spot: Spot,
        said: Change,
    ) -> Result<Change, TableErr>
        requires spot { IsSpot self.old.index.blocks.lists spot }
        requires gap { IsGap self.old.region (ids_of self.old.index) key (place_of self.old.index spot) }
        requires said { (row : Option row_data.Row) → change_reply said row ≡ (off act now).1 }
        ensures rows { ChangedOn act now key self.old.room (rows_of self.old) (rows_of self.new) None result }
        ensures room { self.new.room ≡ self.old.room }
        ensures never { IsErrOf result OutOfMemory → ⊥ }
    {
        match made(act, now) {
            None => {
                drop(key);
                Ok(said)
            }
            Some(row) => {
                let live = self.index.len();
                if live >= self.room {
                    drop(key);
                    drop(row);
                    return Err(TableErr::Full {
                        live,
                        room: self.room,
                    });
                }
                self.put(key, row, spot);
                Ok(said)
            }
        }
    }

    // Puts a row where it is to stand. There is room for it.
    fn put(&mut self, key: RowKey, row: Row, spot: Spot)
        requires spot { IsSpot self.old.index.blocks.lists spot }
        requires gap { IsGap self.old.region (ids_of self.old.index) key (place_of self.old.index spot) }
        requires room { length (ids_of self.old.index) < self.old.room }
        ensures rows { rows_of self.new ≡ map.insert (rows_of self.old) key row }
        ensures pairs { pairs self.new.region (ids_of self.new.index) ≡ insert (pairs self.old.region (ids_of self.old.index)) (place_of self.old.index spot) (key, row) }
        ensures room { self.new.room ≡ self.old.room }
    {
        let hint = Hints::number(&key);
        let opens = is_open(key.kind(), &row);
        match self.region.put(Entry { key, row }) {
            Ok(id) => {
                self.index.insert(spot, id);
                self.hints.set(hint, id);
                follow(&mut self.opened, &self.region, id, opens);
            }
            Err(refused) => drop(refused),
        }
    }

    // A table without rows, with the memory for so many.
    fn with_room(alloc: Global, room: u32) -> Result<RegionTable, AllocError>
        ensures empty { IfOk result (λ t. ids_of t.index ≡ []) }
        ensures room { IfOk result (λ t. t.region.room ≡ room) }
    {
        let region = Region::open(alloc, room)?;
        let mut hints = Hints::new(alloc);
        or_drop!(hints.fill(); region, hints);
        let index = or_drop!(Order::with_room(alloc, room); region, hints);
        match Order::with_room(alloc, room) {
            Ok(opened) => Ok(RegionTable {
                alloc,
                region,
                index,
                opened,
                hints,
                room: 0,
            }),
            Err(error) => {
                drop(region);
                drop(hints);
                drop(index);
                Err(error)
            }
        }
    }

    // Puts all rows of another table here, where none are yet and there is room for them.
    fn take_rows(&mut self, old: RegionTable)
        requires empty { ids_of self.old.index ≡ [] }
        requires room { length (ids_of old.index) ≤ self.old.room }
        ensures rows { rows_of self.new ≡ rows_of old }
        ensures room { self.new.room ≡ self.old.room }
    {
        let index = old.index;
        let mut region = old.region;
        self.take_each(&index, &mut region);
    }

    // Takes the rows out of these slots of another region, and puts them here.
    fn take_each(&mut self, index: &Order, region: &mut Region<Entry>)
        requires held { IsHeld region.old (ids_of index.now) }
        requires empty { ids_of self.old.index ≡ [] }
        requires room { length (ids_of index.now) ≤ self.old.room }
        ensures rows { rows_of self.new ≡ rows_in region.old (ids_of index.now) }
        ensures room { self.new.room ≡ self.old.room }
    {
        let mut spot = index.start();
        while let Some((id, next)) = index.next(spot) {
            match region.take(id) {
                Ok(entry) => {
                    let end = self.index.end();
                    self.put(entry.key, entry.row, end);
                }
                Err(_) => unreachable!(),
            }
            spot = next;
        }
    }

    // The number of the row that follows the one with this key, where that is one of an item and has no entry of the place.
    fn leads_on(&self, key: &RowKey, place: Option<&Place>) -> Option<u32>
        ensures { IfSome result (λ next. LeadsOn (rows_of self.now) key.now (option_copied place.entry) next) }
    {
        let Ok(id) = self.find(key, Hints::number(key)) else {
            return None;
        };
        match self.region.get(id) {
            Ok(entry) => follows(&entry.row, place),
            Err(_) => None,
        }
    }

    // The place behind all rows whose keys are not greater than this one.
    fn past(&self, key: &RowKey) -> Spot
        ensures spot { IsSpot self.now.index.blocks.lists result }
        ensures past { IsPast self.now.region (ids_of self.now.index) key.now (place_of self.now.index result) }
    {
        let near = self.hints.spot(key);
        match self.index.past_near(&self.region, key, near) {
            Some((spot, _)) => spot,
            None => self.index.past(&self.region, key),
        }
    }

    // The row after a key, behind its place.
    fn row_past(&self, after: &RowKey, spot: Spot) -> Option<(&RowKey, &Row)>
        requires spot { IsSpot self.now.index.blocks.lists spot }
        requires past { IsPast self.now.region (ids_of self.now.index) after.now (place_of self.now.index spot) }
        ensures { entry_of result ≡ next_row (rows_of self.now) after.now }
    {
        let Some((id, _)) = self.index.next(spot) else {
            return None;
        };
        match self.region.get(id) {
            Ok(entry) => Some((&entry.key, &entry.row)),
            Err(_) => None,
        }
    }
}

impl Table for RegionTable {
    ghost use Rattle.beldi_region.specs.contracts.region_table.RegionTable.{the_row};
    ghost use Rattle.beldi_region.specs.RegionTable.{rows_of, region_state};

    ghost state = { region_state };

    fn len(&self) -> u32 {
        self.index.len()
    }

    fn ready(&mut self, rooms: &[u32]) -> Result<(), TableErr> {
        let room = room_in(rooms);
        if room > self.region.room() {
            let mut larger = RegionTable::with_room(self.alloc, room)?;
            larger.room = room;
            let old = replace(self, larger);
            self.take_rows(old);
        }
        self.room = room;
        Ok(())
    }

    fn act(&mut self, key: RowKey, act: Act, now: u64) -> Result<ActReplyRef<'_>, TableErr>
        ensures* acts { sem 𝓛 (follows_so the_row the_row self.entry.ghost_name none (λ _ _. ⊤) (λ after.
            Acted act now key (region_state self.entry.now) (region_state after) result)) }
        ensures never { IsErrOf result OutOfMemory → ⊥ }
    {
        let hint = Hints::number(&key);
        match self.find(&key, hint) {
            Ok(id) => {
                self.hints.set(hint, id);
                // A look is not handed on, as where no row is.
                if is_look(&act) {
                    let change = self.looked(&key, &act, now);
                    // It owns nothing.
                    forget(act);
                    let row = self.row_told(id, &key, change);
                    drop(key);
                    return Ok(tell(row, change));
                }
                if drops(&act) {
                    let change = self.drop_row(id, &key, act, now);
                    drop(key);
                    return Ok(tell(None, change));
                }
                let change = self.change(id, &key, act, now);
                let row = self.row_told(id, &key, change);
                drop(key);
                Ok(tell(row, change))
            }
            Err(spot) => {
                self.hints.set_spot(&key, spot);
                let added = self.add(key, act, now, spot)?;
                Ok(tell(None, added))
            }
        }
    }

    fn next(&mut self, after: &RowKey) -> Result<Option<(&RowKey, &Row)>, TableErr>
        ensures* went { sem 𝓛 (follows_so the_row the_row self.entry.ghost_name none (λ _ _. ⊤) (λ now.
            Went after.now (region_state self.entry.now) (region_state now) result)) }
        ensures never { IsErrOf result OutOfMemory → ⊥ }
    {
        let spot = self.past(after);
        self.hints.set_spot(after, spot);
        Ok(self.row_past(after, spot))
    }

    fn opens(&self, after: &RowKey) -> Opens<'_> {
        let spot = self.opened.past(&self.region, after);
        let Some((id, _)) = self.opened.next(spot) else {
            return Opens::None;
        };
        match self.region.get(id) {
            Ok(entry) => Opens::First(&entry.key),
            Err(_) => Opens::Untold,
        }
    }

    fn passes(&self, key: RowKey, place: Option<&Place>, most: u64) -> Option<(u64, u32)> {
        let mut key = key;
        let mut passed = 0;
        let mut last = None;
        while passed < most {
            let Some(next) = self.leads_on(&key, place) else {
                break;
            };
            key = key.at_row(next);
            last = Some(next);
            passed += 1;
        }
        drop(key);
        Some((passed, last?))
    }
}
