// Slots in the order of the keys of their rows.
ghost use Rattle.std.specs.Ordering.{is_lt};
ghost use Rattle.std.specs.Prelude.{◌≡◌, ◌+◌, ◌-◌, ◌*◌, ◌<◌, ◌≤◌, false, [], IfOk, IfErr, IfSome, length, insert, remove, slice_get, option_map};
ghost use Rattle.beldi_region.specs.Region.{find};
ghost use Rattle.beldi_region.specs.Blocks.{AreTight, tight_prop, flat, half_room, IsAt, IsSpot};
ghost use Rattle.beldi_region.specs.SlotOrder.{side, IsBehind, IsBlockPast, IsGap, IsOrdered, IsPast, IsWithout, Places, Finds};

use crate::blocks::{Blocks, Spot};
use crate::region::{Region, SlotId};
use beldi_row::{Row, RowKey};
use std::alloc::{AllocError, Global};
use std::cmp::Ordering;

// How many slots are compared behind a place that is tried.
const NEAR: u32 = 4;

/// A row of a table, with its key.
#[derive(Drop)]
pub struct Entry {
    pub(crate) key: RowKey,
    pub(crate) row: Row,
}

/// How a key compares with that of a slot's row; less, where the slot has none.
pub(crate) fn side(region: &Region<Entry>, id: SlotId, key: &RowKey) -> Ordering
    ensures { result ≡ side key.now (find region.now id) }
{
    match region.get(id) {
        Ok(entry) => key.cmp(&entry.key),
        Err(_) => Ordering::Less,
    }
}

/// The slots of a table, in the order of their keys. No slot occurs twice.
#[derive(Drop)]
pub struct Order {
    pub(crate) blocks: Blocks,
    len: u32,
    room: u32,
    ghost tight: { AreTight half_room blocks.lists } by { tight_prop half_room blocks.lists },
    ghost count: { len ≡ length (flat blocks.lists) },
    // There is a block for each 32 slots of the room, and two more: so one is spare wherever there is room for a slot.
    ghost wide: { room ≤ 32 * (length blocks.lists + blocks.spares - 2) },
}

impl Order {
    ghost use Rattle.beldi_region.specs.Ids.{ids_of, place_of, placed, found};

    /// No slots, and no room for any. It takes no memory.
    pub(crate) fn new(alloc: Global) -> Order
        ensures ids { ids_of result ≡ [] }
        ensures room { result.room ≡ 0 }
    {
        Order {
            blocks: Blocks::new(alloc),
            len: 0,
            room: 0,
        }
    }

    /// No slots, with room for so many.
    pub(crate) fn with_room(alloc: Global, room: u32) -> Result<Order, AllocError>
        ensures ids { IfOk result (λ o. ids_of o ≡ []) }
        ensures room { IfOk result (λ o. o.room ≡ room) }
    {
        // Two blocks side by side have more than 64 slots.
        Ok(Order {
            blocks: Blocks::with_spares(alloc, room as usize / 32 + 3)?,
            len: 0,
            room,
        })
    }

    /// How many slots there are.
    pub(crate) fn len(&self) -> u32
        ensures { result ≡ length (ids_of self.now) }
    {
        self.len
    }

    // The place behind all blocks that begin with a key that is not greater than this one.
    fn block_past(&self, region: &Region<Entry>, key: &RowKey) -> usize
        ensures { IsBlockPast region.now self.now.blocks.lists key.now result }
    {
        let mut low = 0;
        let mut high = self.blocks.len();
        while low < high {
            let middle = low + (high - low) / 2;
            if self.blocks.get(middle).begins_past(region, key) {
                high = middle;
            } else {
                low = middle + 1;
            }
        }
        low
    }

    /// The place behind all slots whose keys are not greater than this one.
    pub(crate) fn past(&self, region: &Region<Entry>, key: &RowKey) -> Spot
        ensures spot { IsSpot self.now.blocks.lists result }
        ensures first { result.at ≡ 0 → place_of self.now result ≡ 0 }
        ensures past { IsPast region.now (ids_of self.now) key.now (place_of self.now result) }
    {
        let behind = self.block_past(region, key);
        if behind == 0 {
            return Spot { block: 0, at: 0 };
        }
        let block = behind - 1;
        Spot {
            block,
            at: self.blocks.get(block).past(region, key),
        }
    }

    // How a key compares with that of the slot before a place in its block; less, where there is none.
    fn side_before(&self, region: &Region<Entry>, key: &RowKey, spot: Spot) -> Ordering
        ensures { is_lt result ≡ false → IsBehind region.now self.now.blocks.lists key.now result spot }
    {
        if spot.at == 0 {
            return Ordering::Less;
        }
        let last = Spot {
            block: spot.block,
            at: spot.at - 1,
        };
        match self.blocks.slot(last) {
            Some(id) => side(region, id, key),
            None => Ordering::Less,
        }
    }

    /// The place behind all slots whose keys are not greater than this one, where that is a given place or a few behind it, and
    /// whether the slot before it has this key. What is given may be no place at all.
    #[inline(always)]
    pub(crate) fn past_near(
        &self,
        region: &Region<Entry>,
        key: &RowKey,
        near: Spot,
    ) -> Option<(Spot, bool)>
        ensures spot { IfSome result (λ p. IsSpot self.now.blocks.lists p.0) }
        ensures past { IfSome result (λ p. IsPast region.now (ids_of self.now) key.now (place_of self.now p.0)) }
        ensures gap { IfSome result (λ p. p.1 ≡ false → IsGap region.now (ids_of self.now) key.now (place_of self.now p.0)) }
    {
        let mut before = self.side_before(region, key, near);
        if before.is_lt() {
            return None;
        }
        let mut spot = near;
        let mut left = NEAR;
        while left > 0 {
            let Some((id, next)) = self.next(spot) else {
                return Some((spot, before.is_eq()));
            };
            let behind = side(region, id, key);
            if behind.is_lt() {
                return Some((spot, before.is_eq()));
            }
            before = behind;
            spot = next;
            left -= 1;
        }
        None
    }

    /// The place of the slot with a key, or else the place where it is to stand.
    pub(crate) fn place_of(&self, region: &Region<Entry>, key: &RowKey) -> Result<Spot, Spot>
        ensures at { IfOk result (IsAt self.now.blocks.lists) }
        ensures spot { IfErr result (IsSpot self.now.blocks.lists) }
        ensures places { Places region.now (ids_of self.now) key.now (placed self.now result) }
    {
        let spot = self.past(region, key);
        if spot.at > 0 {
            let last = Spot {
                block: spot.block,
                at: spot.at - 1,
            };
            if let Some(id) = self.blocks.slot(last) {
                if side(region, id, key).is_eq() {
                    return Ok(last);
                }
            }
        }
        Err(spot)
    }

    /// The slot of the row with a key, or else the place where it is to stand.
    pub(crate) fn find(&self, region: &Region<Entry>, key: &RowKey) -> Result<SlotId, Spot>
        ensures spot { IfErr result (IsSpot self.now.blocks.lists) }
        ensures finds { Finds region.now (ids_of self.now) key.now (found self.now result) }
    {
        match self.place_of(region, key) {
            Ok(spot) => match self.blocks.slot(spot) {
                Some(id) => Ok(id),
                None => unreachable!(),
            },
            Err(spot) => Err(spot),
        }
    }

    /// The slot behind a place, and the place behind it.
    pub(crate) fn next(&self, spot: Spot) -> Option<(SlotId, Spot)>
        requires { IsSpot self.now.blocks.lists spot }
        ensures slot { option_map (λ n. n.0) result ≡ slice_get (ids_of self.now) (place_of self.now spot) }
        ensures spot { IfSome result (λ n. IsSpot self.now.blocks.lists n.1) }
        ensures place { IfSome result (λ n. place_of self.now n.1 ≡ place_of self.now spot + 1) }
    {
        self.blocks.next(spot)
    }

    /// The place before all slots.
    pub(crate) fn start(&self) -> Spot
        ensures spot { IsSpot self.now.blocks.lists result }
        ensures place { place_of self.now result ≡ 0 }
    {
        Spot { block: 0, at: 0 }
    }

    /// The place behind all slots.
    pub(crate) fn end(&self) -> Spot
        ensures spot { IsSpot self.now.blocks.lists result }
        ensures place { place_of self.now result ≡ length (ids_of self.now) }
    {
        let blocks = self.blocks.len();
        if blocks == 0 {
            return Spot { block: 0, at: 0 };
        }
        let block = blocks - 1;
        Spot {
            block,
            at: self.blocks.get(block).len(),
        }
    }

    /// Puts a slot at a place, for which there is room. It takes no memory.
    pub(crate) fn insert(&mut self, spot: Spot, id: SlotId)
        requires fits { IsSpot self.old.blocks.lists spot }
        requires room { length (ids_of self.old) < self.old.room }
        ensures ids { ids_of self.new ≡ insert (ids_of self.old) (place_of self.old spot) id }
        ensures room { self.new.room ≡ self.old.room }
    {
        let spot = self.blocks.make_room(spot);
        self.blocks.insert(spot, id);
        self.len += 1;
    }

    /// Takes the slot of the row with a key away, where it is there.
    pub(crate) fn forget(&mut self, region: &Region<Entry>, key: &RowKey)
        requires { IsOrdered region.now (ids_of self.old) }
        ensures less { IsWithout region.now key.now (ids_of self.old) (ids_of self.new) }
        ensures room { self.new.room ≡ self.old.room }
    {
        if let Ok(spot) = self.place_of(region, key) {
            self.remove(spot);
        }
    }

    /// Takes the slot behind a place away.
    pub(crate) fn remove(&mut self, spot: Spot)
        requires { IsAt self.old.blocks.lists spot }
        ensures ids { ids_of self.new ≡ remove (ids_of self.old) (place_of self.old spot) }
        ensures room { self.new.room ≡ self.old.room }
    {
        self.blocks.remove(spot);
        self.blocks.close_up(spot.block);
        self.len -= 1;
    }
}
