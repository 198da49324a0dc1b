//! Slots with generations, and a table over them: `Region`, over the kit's `slab`, and `RegionTable`. Its definitions:
//! `specs/Region` (a region as contracts see it, and what its calls do), `specs/Lends` (what it ends as where a value is lent),
//! `specs/Slots` (how it lies in its slab), `specs/Blocks` (a list in blocks, and places in it), `specs/SlotOrder` (slots in the order
//! of their keys), `specs/Ids` (the slots of an order), `specs/Follows` (the row after one of an item), `specs/RegionTable` (the
//! rows of a table).
//!
//! Proved:
//! - An id has the value that was put under it until that is taken, and no call changes what another id has (`Frame`).
//! - A value is taken in exactly where there is space (`spaces`): a slot that was never used, or a free one below the last
//!   generation, or after a `release` of any. No call after `open` takes memory.
//! - A `take` raises the generation of its slot, so the id is stale from then on, and what is stale stays so (`IsStale`).
//! - A `release` leaves the generation, so the slot may always be used again, and the id be given again (`Released`).
//! - `RegionTable` keeps the contract of the trait, and no act and no step is out of memory (`never`): all memory for rows is
//!   taken by `ready`.
//! - Its slots are those that are taken, in the order of their keys, and no two have one key (`IsHeld`). So a row is the one of
//!   its key wherever a hint found it, and an act that adds a row puts its slot where the search ended, or at a place that was tried
//!   before and has a lesser key before it and a greater one behind it. The row after a key is looked for so too, where the key
//!   before the place may be this one. Where `ready` needs more memory, the rows go to another region.
//! - The slots of open intents are kept in order too (`IsListed`), so `opens` goes over no rows.
//! - An order is a list in blocks of at most 128 slots, of which no two neighbours have few (`AreTight`): so there are at most as
//!   many as were reserved, and a slot that is put or taken away moves those of a block or two alone.
//! - What an act tells, and the rows after it, are a function of the rows, the act, the moment and the room (`acts_are_alike`).
//!
//! Files:
//! - Code (`src/`): `region`; `block` a few slots, `blocks` a list of slots in blocks, `order` slots by their keys, `hints` where
//!   rows may be, `opened` which have open intents, `region_table`; `laws`.
//! - Lemmas (`proofs/`): `Counts` one slot that changes; `Viewed` what the calls do; `Free` the list of free slots; `Flat` lists in
//!   blocks, `RegionKept` blocks that are split and joined, `Spots` places in them, `Near` one that is tried; `RegionLists` one more in a list in
//!   order; `Past` the first one past a key; `Held` the slots of a table, `Gone` one of them that is taken away, `Listed` those of
//!   open intents, `Moved` those of its rows that go to another region; `Along` a chain of rows; `Alike` the law.
#![tactic(auto)]

mod block;
mod blocks;
mod hints;
mod laws;
mod opened;
mod order;
mod region;
mod region_table;

pub use laws::acts_are_alike;
pub use order::{Entry, Order};
pub use region::{Region, RegionErr, SlotId};
pub use region_table::RegionTable;
