// Where rows may be.
use crate::blocks::Spot;
use crate::region::SlotId;
use beldi_row::{Kind, RowKey};
use beldi_value::Str;
use std::alloc::{AllocError, Global};

// How many hints there are.
const HINTS: usize = 65_536;

// The last slot, which is the last one to be used.
const LAST: u16 = u16::MAX;

// How many places there are: for each of 16 homes one for each kind of key that names an intent, and three spare; and as many for
// keys of items.
const SPOTS: usize = 256;

// A place that is not behind any slot.
const START: Spot = Spot { block: 0, at: 0 };

/// Where the row with a key may be, by a number that equal keys have alike. A hint may be wrong: whoever takes one compares the
/// key of the row that is there. So nothing is proved of hints. Nor is it of the place where a search for a key like it last ended,
/// one of the same home and kind, or of an item of the same table whose key begins alike: the next one mostly ends there or a little
/// behind, and the rows beside a place are compared.
#[derive(Drop)]
pub(crate) struct Hints {
    // All of the first generation, as a table keeps it. A slot whose number has more bits has no hint.
    slots: Vec<u16>,
    spots: Vec<Spot>,
}

impl Hints {
    /// No hints, which take no memory.
    pub(crate) fn new(alloc: Global) -> Hints {
        Hints {
            slots: Vec::new(alloc),
            spots: Vec::new(alloc),
        }
    }

    /// Takes the memory for all hints, where that was not done.
    pub(crate) fn fill(&mut self) -> Result<(), AllocError> {
        if self.slots.len() < HINTS {
            self.slots.resize(HINTS, LAST)?;
        }
        if self.spots.len() < SPOTS {
            return self.spots.resize(SPOTS, START);
        }
        Ok(())
    }

    /// The number of a key's hint.
    pub(crate) fn number(key: &RowKey) -> usize {
        (key.spread() >> 48) as usize
    }

    /// The slot that a hint names; where there is none, the last slot.
    pub(crate) fn at(&self, number: usize) -> SlotId {
        let slot = match self.slots.get(number) {
            Some(slot) => *slot,
            None => LAST,
        };
        SlotId {
            slot: u32::from(slot),
            generation: 0,
        }
    }

    /// Sets a hint, where there is one of this number.
    pub(crate) fn set(&mut self, number: usize, id: SlotId) {
        if let Some(slot) = self.slots.get_mut(number) {
            *slot = u16::try_from(id.slot).unwrap_or(LAST);
        }
    }

    /// Where a search for a key like this one last ended.
    pub(crate) fn spot(&self, key: &RowKey) -> Spot {
        match self.spots.get(spot_number(key)) {
            Some(spot) => *spot,
            None => START,
        }
    }

    /// A search for this key ended here.
    pub(crate) fn set_spot(&mut self, key: &RowKey, spot: Spot) {
        if let Some(last) = self.spots.get_mut(spot_number(key)) {
            *last = spot;
        }
    }
}

// The number of the place for keys like this one.
fn spot_number(key: &RowKey) -> usize {
    let home = usize::from(key.home());
    match key.kind() {
        Kind::Intent(_) => in_home(home, 0),
        Kind::ReadLog(_) => in_home(home, 1),
        Kind::Invoke(_) => in_home(home, 2),
        Kind::Shadow { .. } => in_home(home, 3),
        Kind::Lockset { .. } => in_home(home, 4),
        Kind::Data { table, key, .. } => of_item(home + usize::from(*table), key),
    }
}

fn in_home(home: usize, kind: usize) -> usize {
    (home & 15) << 3 | kind
}

// .. of an item whose table has this number, added to that of its home.
fn of_item(table: usize, key: &Str) -> usize {
    let first = match key.as_str().as_bytes().first() {
        Some(byte) => usize::from(*byte),
        None => 0,
    };
    128 | (table << 5 ^ first) & 127
}
