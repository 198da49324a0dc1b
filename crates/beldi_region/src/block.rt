// A few slots of an order, in a row.
ghost use Rattle.std.specs.Prelude.{◌≡◌, ◌+◌, ◌<◌, ◌≤◌, false, [], ◌++◌, ◌==◌, IfSome, length, take, drop, slice_get, insert, remove};
ghost use Rattle.beldi_region.specs.SlotOrder.{begins_past, IsPast};
ghost use Rattle.beldi_region.specs.Blocks.{block_room, half_room};

use crate::order::{Entry, side};
use crate::region::{Region, SlotId};
use arrayvec::ArrayVec;
use beldi_row::RowKey;
use std::marker::Model;

// How many slots stay in a block that is split.
pub(crate) const HALF: usize = 64;

/// Some slots of an order, and room for 128, in the block itself. Contracts see its slots.
#[derive(Drop)]
pub struct Block {
    ids: ArrayVec<SlotId, 128>,
}

impl Model for Block {
    ghost use Rattle.std.specs.Prelude.{List};
    ghost use Rattle.beldi_region.specs.declared.region.SlotId.{SlotId};

    ghost Value = { List SlotId };

    ghost view = { λ b. b.ids.items };
}

impl Block {
    /// No slots. It takes no memory.
    pub(crate) fn new() -> Block
        ensures { result ≡ [] }
    {
        Block {
            ids: ArrayVec::new(),
        }
    }

    /// How many slots it has.
    pub(crate) fn len(&self) -> usize
        ensures len { result ≡ length self.now }
        ensures fits { result ≤ block_room }
    {
        self.ids.len()
    }

    /// Whether it has no room for one more.
    pub(crate) fn is_full(&self) -> bool
        ensures full { result ≡ (length self.now == block_room) }
        ensures fits { length self.now ≤ block_room }
    {
        self.ids.is_full()
    }

    /// The slot at a place.
    pub(crate) fn get(&self, at: usize) -> Option<SlotId>
        ensures slot { result ≡ slice_get self.now at }
        ensures fits { IfSome result (λ _. at < block_room) }
    {
        self.ids.as_slice().get(at).copied()
    }

    /// Whether it begins with a slot whose key is greater than this one. One without slots does.
    pub(crate) fn begins_past(&self, region: &Region<Entry>, key: &RowKey) -> bool
        ensures { result ≡ begins_past region.now key.now self.now }
    {
        match self.ids.as_slice().get(0) {
            Some(id) => side(region, *id, key).is_lt(),
            None => true,
        }
    }

    /// The place behind all slots whose keys are not greater than this one. That of the first slot is not.
    pub(crate) fn past(&self, region: &Region<Entry>, key: &RowKey) -> usize
        requires { begins_past region.now key.now self.now ≡ false }
        ensures past { IsPast region.now self.now key.now result }
        ensures some { 0 < result }
    {
        let ids = self.ids.as_slice();
        let mut low = 1;
        let mut high = ids.len();
        while low < high {
            let middle = low + (high - low) / 2;
            if side(region, ids[middle], key).is_lt() {
                high = middle;
            } else {
                low = middle + 1;
            }
        }
        low
    }

    /// Puts a slot at a place, for which there is room. It takes no memory.
    pub(crate) fn insert(&mut self, at: usize, id: SlotId)
        requires fits { at ≤ length self.old }
        requires room { length self.old < block_room }
        ensures { self.new ≡ insert self.old at id }
    {
        self.ids.insert(at, id);
    }

    /// Takes the slot at a place away.
    pub(crate) fn remove(&mut self, at: usize)
        requires { at < length self.old }
        ensures { self.new ≡ remove self.old at }
    {
        let _ = self.ids.remove(at);
    }

    /// Takes the slots behind the first half away, which are then in a block of their own.
    pub(crate) fn split(&mut self) -> Block
        requires { half_room ≤ length self.old }
        ensures lower { self.new ≡ take half_room self.old }
        ensures upper { result ≡ drop half_room self.old }
    {
        let mut upper = Block::new();
        let (_, rest) = self.ids.as_slice().split_at(HALF);
        let _ = upper.ids.try_extend_from_slice(rest);
        self.ids.truncate(HALF);
        upper
    }

    /// Copies the slots of another block behind those of this one, where there is room.
    pub(crate) fn append(&mut self, upper: &Block)
        requires { length self.old + length upper.now ≤ block_room }
        ensures { self.new ≡ self.old ++ upper.now }
    {
        let _ = self.ids.try_extend_from_slice(upper.ids.as_slice());
    }
}
