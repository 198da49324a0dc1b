// A list of slots in blocks.
ghost use Rattle.std.specs.Prelude.{◌≡◌, ◌+◌, ◌<◌, ◌≤◌, [], IfOk, IfSome, length, insert, remove};
ghost use Rattle.beldi_region.specs.Blocks.{block_room, half_room, block_at, slot_at, next_in, is_small, split_spot, with_block, opened, split_at, joined, closed, roomy, closed_up, IsIn, IsAt};

use crate::block::{Block, HALF};
use crate::region::SlotId;
use std::alloc::{AllocError, Global};
use std::marker::Model;

/// A place in a list in blocks: behind so many slots of a block.
#[derive(Clone, Copy)]
pub struct Spot {
    pub(crate) block: usize,
    pub(crate) at: usize,
}

/// Blocks of slots, and room for more blocks. No call after `with_spares` takes memory, and a block is written as it is first used.
/// Contracts see the slots of each block, and how many blocks there is room for besides.
#[derive(Drop)]
pub struct Blocks {
    used: Vec<Block>,
}

impl Model for Blocks {
    ghost use Rattle.std.specs.Prelude.{◌-◌, length, vec_capacity};
    ghost use Rattle.beldi_region.specs.Blocks.{ViewedBlocks};

    ghost Value = { ViewedBlocks };

    ghost view = { λ b. record { lists = b.used.items; spares = vec_capacity b.used - length b.used.items } };
}

// The place that this one is at, once its block was split, with this one behind it.
fn split_spot(spot: Spot, upper: usize) -> Spot
    requires { upper ≡ spot.block + 1 }
    ensures { result ≡ split_spot spot }
{
    if spot.at <= HALF {
        return spot;
    }
    Spot {
        block: upper,
        at: spot.at - HALF,
    }
}

impl Blocks {
    /// No blocks, and room for none.
    pub(crate) fn new(alloc: Global) -> Blocks
        ensures { result ≡ record { lists = []; spares = 0 } }
    {
        Blocks {
            used: Vec::new(alloc),
        }
    }

    /// No blocks, and room for so many.
    pub(crate) fn with_spares(alloc: Global, count: usize) -> Result<Blocks, AllocError>
        ensures { IfOk result (λ b. b ≡ record { lists = []; spares = count }) }
    {
        Ok(Blocks {
            used: Vec::with_capacity(alloc, count)?,
        })
    }

    /// How many blocks there are.
    pub(crate) fn len(&self) -> usize
        ensures { result ≡ length self.now.lists }
    {
        self.used.len()
    }

    /// A block.
    pub(crate) fn get(&self, block: usize) -> &Block
        requires { block < length self.now.lists }
        ensures { result.now ≡ block_at self.now.lists block }
    {
        &self.used[block]
    }

    /// The slot behind a place in its block.
    pub(crate) fn slot(&self, spot: Spot) -> Option<SlotId>
        ensures slot { result ≡ slot_at self.now.lists spot }
        ensures fits { IfSome result (λ _. spot.at < block_room) }
    {
        match self.used.get(spot.block) {
            Some(block) => block.get(spot.at),
            None => None,
        }
    }

    /// The slot behind a place, which may be in the next block, and the place behind it.
    pub(crate) fn next(&self, spot: Spot) -> Option<(SlotId, Spot)>
        requires { spot.block ≤ length self.now.lists }
        ensures { result ≡ next_in self.now.lists spot }
    {
        let Spot { block, at } = spot;
        if let Some(id) = self.slot(spot) {
            return Some((id, Spot { block, at: at + 1 }));
        }
        if self.used.len() - block <= 1 {
            return None;
        }
        let block = block + 1;
        match self.slot(Spot { block, at: 0 }) {
            Some(id) => Some((id, Spot { block, at: 1 })),
            None => None,
        }
    }

    /// Puts a slot at a place in a block that has room.
    pub(crate) fn insert(&mut self, spot: Spot, id: SlotId)
        requires spot { IsIn self.old.lists spot }
        requires room { length (block_at self.old.lists spot.block) < block_room }
        ensures { self.new ≡ with_block self.old spot.block (insert (block_at self.old.lists spot.block) spot.at id) }
    {
        self.used[spot.block].insert(spot.at, id);
    }

    /// Takes the slot behind a place out of its block.
    pub(crate) fn remove(&mut self, spot: Spot)
        requires { IsAt self.old.lists spot }
        ensures { self.new ≡ with_block self.old spot.block (remove (block_at self.old.lists spot.block) spot.at) }
    {
        self.used[spot.block].remove(spot.at);
    }

    // Makes the first block, without slots.
    fn open(&mut self)
        requires none { self.old.lists ≡ [] }
        requires spare { 0 < self.old.spares }
        ensures { self.new ≡ opened self.old }
    {
        self.used.push_reserved(Block::new());
    }

    // Moves the slots behind the first half of a block into one of their own behind it, whose number it gives.
    fn split(&mut self, block: usize) -> usize
        requires block { block < length self.old.lists }
        requires half { half_room ≤ length (block_at self.old.lists block) }
        requires spare { 0 < self.old.spares }
        ensures blocks { self.new ≡ split_at self.old block }
        ensures upper { result ≡ block + 1 }
    {
        let upper = self.used[block].split();
        drop(self.used.insert(block + 1, upper));
        block + 1
    }

    // Moves the slots of the next block into this one, which has room for them.
    fn join(&mut self, block: usize)
        requires next { block + 1 < length self.old.lists }
        requires room { length (block_at self.old.lists block) + length (block_at self.old.lists (block + 1)) ≤ block_room }
        ensures { self.new ≡ joined self.old block }
    {
        let upper = self.used.remove(block + 1);
        self.used[block].append(&upper);
        drop(upper);
    }

    // Takes a block away.
    fn close(&mut self, block: usize)
        requires { block < length self.old.lists }
        ensures { self.new ≡ closed self.old block }
    {
        if self.used.len() - block == 1 {
            self.used.truncate(block);
        } else {
            drop(self.used.remove(block));
        }
    }

    /// The same place, in a block that has room for one more slot. Where there is none, there is a block more.
    pub(crate) fn make_room(&mut self, spot: Spot) -> Spot
        requires spare { 0 < self.old.spares }
        requires block { 0 < length self.old.lists → spot.block < length self.old.lists }
        ensures blocks { self.new ≡ (roomy self.old spot).0 }
        ensures spot { result ≡ (roomy self.old spot).1 }
        ensures fits { 0 < length self.old.lists → length (block_at self.old.lists spot.block) ≤ block_room }
    {
        if self.used.len() == 0 {
            self.open();
            return spot;
        }
        if self.used[spot.block].is_full() {
            let upper = self.split(spot.block);
            return split_spot(spot, upper);
        }
        spot
    }

    // Whether a block and the next one have together at most half of what a block has room for.
    fn is_small(&self, block: usize) -> bool
        requires { block < length self.now.lists }
        ensures { result ≡ is_small self.now.lists block }
    {
        self.used.len() - block > 1 && self.used[block].len() + self.used[block + 1].len() <= HALF
    }

    /// After a slot was taken out of a block: the block goes if it has no other, or is joined with one beside it, where both are small.
    pub(crate) fn close_up(&mut self, block: usize)
        requires { block < length self.old.lists }
        ensures { self.new ≡ closed_up self.old block }
    {
        if self.used[block].len() == 0 {
            self.close(block);
        } else if self.is_small(block) {
            self.join(block);
        } else if block > 0 && self.is_small(block - 1) {
            self.join(block - 1);
        }
    }
}
