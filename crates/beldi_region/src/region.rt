// Slots with generations.
ghost use Rattle.std.specs.Prelude.{◌≡◌, ◌≢◌, ◌<◌, ◌↔◌, ℕ, Some, None, IsOk, IfOk, IfErr, OnOk, OnErr, IsSome, IsErr, IsTrue, is_some, ◌+◌, if◌then◌else◌};
ghost use Rattle.std.specs.Borrow.{Lends, sem};
ghost use Rattle.beldi_region.specs.Region.{find, spaces, IsStale, PutAt, Taken, Released, Changed, with_value, value_of, lasts};
ghost use Rattle.beldi_region.specs.declared.region.RegionErr.TheVariants.{NoSlot, Stale};

use slab::Slab;
use std::alloc::{AllocError, Global};
use std::marker::Model;
use thiserror::Error;

/// The name of a value in a region: its slot, and the generation that the slot has while it holds this value.
#[derive(Clone, Copy, Debug, Default, PartialEq, Eq)]
pub struct SlotId {
    pub slot: u32,
    pub generation: u32,
}

/// Why a call of a region was not done. After each of these the region is as before.
#[derive(Clone, Copy, Debug, PartialEq, Eq, Error)]
pub enum RegionErr {
    /// All slots are taken, or only slots of the last generation, 4,294,967,295, are free. Only `put` answers so.
    #[error("no slot is free")]
    NoSlot,
    /// The id has no value: its slot was never used, or is free, or has another generation.
    #[error("slot {} has no value of generation {}", .0.slot, .0.generation)]
    Stale(SlotId),
}

// A slot that was used. Where it is free, its generation is that of the next value.
#[derive(Drop)]
struct Slot<V> {
    generation: u32,
    value: Option<V>,
    // The next free slot, where this one is free.
    next: Option<u32>,
}

impl<V: Drop> Slot<V> {
    ghost use Rattle.beldi_region.specs.contracts.region.Slot.{the_row};
    ghost use Rattle.beldi_region.specs.Slots.{viewed};

    // A slot as it is first used.
    fn first(value: V) -> Slot<V>
        ensures { result ≡ record { generation = 0; value = Some value; next = None } }
    {
        Slot {
            generation: 0,
            value: Some(value),
            next: None,
        }
    }

    // The value, where the id has this generation.
    fn get(&self, id: SlotId) -> Result<&V, RegionErr>
        ensures found { IfOk result (λ v. value_of (Some (viewed self.now)) id.generation ≡ Some v.now) }
        ensures none { OnErr result (value_of (Some (viewed self.now)) id.generation ≡ None) }
        ensures stale { IfErr result (λ e. e ≡ Stale id) }
    {
        if self.generation != id.generation {
            return Err(RegionErr::Stale(id));
        }
        match &self.value {
            Some(value) => Ok(value),
            None => Err(RegionErr::Stale(id)),
        }
    }

    // The value of a slot that has one, to change it.
    fn value_mut(&mut self) -> &mut V
        requires { IsSome self.old.value }
        ensures* writes_back { sem 𝓛 (Lends (the_row V.row) V.row self.entry result (λ w. record self.entry.now { value = Some w })) }
        ensures value { self.old.value ≡ Some result.now }
    {
        match &mut self.value {
            Some(value) => value,
            None => unreachable!(),
        }
    }

    // Takes the value out of this slot, which has one, and puts the slot before the free ones where it may be used again.
    fn empty(&mut self, slot: u32, free: &mut Option<u32>) -> V
        requires taken { IsSome self.old.value }
        requires lasts { IsTrue (lasts self.old.generation) }
        ensures value { self.old.value ≡ Some result }
        ensures emptied { self.new ≡ record { generation = self.old.generation + 1; value = None; next = free.old } }
        ensures listed { free.new ≡ (if lasts (self.old.generation + 1) then Some slot else free.old) }
    {
        self.generation += 1;
        self.next = *free;
        if self.generation < u32::MAX {
            *free = Some(slot);
        }
        match self.value.take() {
            Some(value) => value,
            None => unreachable!(),
        }
    }

    // Takes the value out of this slot, which has one and keeps its generation, and puts the slot before the free ones.
    fn vacate(&mut self, slot: u32, free: &mut Option<u32>) -> V
        requires { IsSome self.old.value }
        ensures value { self.old.value ≡ Some result }
        ensures emptied { self.new ≡ record { generation = self.old.generation; value = None; next = free.old } }
        ensures listed { free.new ≡ Some slot }
    {
        self.next = *free;
        *free = Some(slot);
        match self.value.take() {
            Some(value) => value,
            None => unreachable!(),
        }
    }
}

/// Values in slots, each under an id that is not given twice, but after `release`. The memory of all slots is taken when it is opened; a slot is
/// written as it is first used.
#[derive(Drop)]
pub struct Region<V> {
    slots: Slab<Slot<V>>,
    room: u32,
    // The first free slot that is used again.
    free: Option<u32>,
}

impl<V> Model for Region<V> {
    ghost use Rattle.std.specs.Prelude.{map};
    ghost use Rattle.beldi_region.specs.Region.{ViewedRegion, region_code};

    ghost Value = { ViewedRegion V };

    ghost coded = { region_code V.code };

    ghost use Rattle.beldi_region.specs.Slots.{viewed_of, IsSound};

    ghost view = { λ r. record { slots = map viewed_of r.slots.slots; room = r.room } };

    ghost invariant = { λ r. IsSound r.slots r.room r.free };
}

impl<V: Drop> Region<V> {
    ghost use Rattle.beldi_region.specs.Lends.{lends_found, lends_value};

    /// A region without slots, which takes no memory.
    pub fn new(alloc: Global) -> Region<V>
        ensures empty { (id : SlotId) → find result id ≡ None }
        ensures spaces { spaces result ≡ 0 }
        ensures room { result.room ≡ 0 }
    {
        Region {
            slots: Slab::new(alloc),
            room: 0,
            free: None,
        }
    }

    /// A region without values, with the memory for so many.
    pub fn open(alloc: Global, room: u32) -> Result<Region<V>, AllocError>
        ensures empty { IfOk result (λ r. (id : SlotId) → find r id ≡ None) }
        ensures spaces { IfOk result (λ r. spaces r ≡ room) }
        ensures room { IfOk result (λ r. r.room ≡ room) }
    {
        let slots = Slab::with_capacity(alloc, room as usize)?;
        // A slot's number is a key below the capacity, of which the slab promises no bound.
        if slots.capacity() > 0x1_0000_0000 {
            drop(slots);
            return Err(AllocError);
        }
        Ok(Region {
            slots,
            room,
            free: None,
        })
    }

    /// How many slots it was opened with.
    pub fn room(&self) -> u32
        ensures { result ≡ self.now.room }
    {
        self.room
    }

    /// Puts a value into a free slot, or gives it back.
    pub fn put(&mut self, value: V) -> Result<SlotId, (V, RegionErr)>
        ensures ok { IfOk result (λ id. PutAt self.old self.new id value) }
        ensures exact { IsOk result ↔ (0 < spaces self.old) }
        ensures no_slot { IfErr result (λ refused. refused ≡ (value, NoSlot)) }
        ensures kept { OnErr result (self.new ≡ self.old) }
    {
        if let Some(slot) = self.free {
            let place = &mut self.slots[slot as usize];
            let generation = place.generation;
            self.free = place.next;
            drop(place.value.replace(value));
            return Ok(SlotId { slot, generation });
        }
        if self.slots.len() < self.room as usize {
            let slot = self.slots.insert_reserved(Slot::first(value)) as u32;
            return Ok(SlotId {
                slot,
                generation: 0,
            });
        }
        Err((value, RegionErr::NoSlot))
    }

    /// The value of an id.
    pub fn get(&self, id: SlotId) -> Result<&V, RegionErr>
        ensures found { IfOk result (λ v. find self.now id ≡ Some v.now) }
        ensures none { OnErr result (find self.now id ≡ None) }
        ensures stale { IfErr result (λ e. e ≡ Stale id) }
        ensures for_good { IsStale self.now id → IsErr result }
    {
        match self.slots.get(id.slot as usize) {
            Some(slot) => slot.get(id),
            None => Err(RegionErr::Stale(id)),
        }
    }

    /// The value of an id, to change it where it lies.
    pub fn get_mut(&mut self, id: SlotId) -> Result<&mut V, RegionErr>
        ensures* writes_back { sem 𝓛 (lends_found V.row self.entry id result) }
        ensures found { IfOk result (λ v. find self.old id ≡ Some v.now) }
        ensures changes { OnOk result ((v : V) → Changed self.old (with_value self.old id v) id v) }
        ensures none { OnErr result (find self.old id ≡ None) }
        ensures stale { IfErr result (λ e. e ≡ Stale id) }
    {
        if !self.has(id) {
            return Err(RegionErr::Stale(id));
        }
        Ok(self.value_mut(id))
    }

    /// Takes the value of an id out. Its slot then has the next generation, so the id is stale for good.
    pub fn take(&mut self, id: SlotId) -> Result<V, RegionErr>
        ensures ok { IfOk result (λ v. Taken self.old self.new id v) }
        ensures none { OnErr result (find self.old id ≡ None) }
        ensures stale { IfErr result (λ e. e ≡ Stale id) }
        ensures kept { OnErr result (self.new ≡ self.old) }
    {
        if !self.has(id) {
            return Err(RegionErr::Stale(id));
        }
        Ok(self.slots[id.slot as usize].empty(id.slot, &mut self.free))
    }

    /// Takes the value of an id out. Its slot keeps the generation, so it may always be used again, and the id be given again.
    pub fn release(&mut self, id: SlotId) -> Result<V, RegionErr>
        ensures ok { IfOk result (λ v. Released self.old self.new id v) }
        ensures none { OnErr result (find self.old id ≡ None) }
        ensures stale { IfErr result (λ e. e ≡ Stale id) }
        ensures kept { OnErr result (self.new ≡ self.old) }
    {
        if !self.has(id) {
            return Err(RegionErr::Stale(id));
        }
        Ok(self.slots[id.slot as usize].vacate(id.slot, &mut self.free))
    }

    // Whether an id has a value.
    fn has(&self, id: SlotId) -> bool
        ensures { result ≡ is_some (find self.now id) }
    {
        match self.get(id) {
            Ok(_) => true,
            Err(_) => false,
        }
    }

    // The value of an id that has one, to change it.
    pub(crate) fn value_mut(&mut self, id: SlotId) -> &mut V
        requires { IsSome (find self.old id) }
        ensures* writes_back { sem 𝓛 (lends_value V.row self.entry id result) }
        ensures value { find self.old id ≡ Some result.now }
        ensures changes { (v : V) → Changed self.old (with_value self.old id v) id v }
    {
        self.slots[id.slot as usize].value_mut()
    }
}
