// The log of a cell.
ghost use Rattle.std.specs.Prelude.{◌≡◌, ◌∷◌, [], ◌++◌, ◌==◌, ◌≤◌, false, length, IfOk, slice_get};
ghost use Rattle.std.specs.Option.{option_copied};
ghost use Rattle.beldi_row.specs.Log.{blank, index_at, most_entries, note_of, NotedAt};

use beldi_value::{IdBuf, Place};
use std::alloc::{AllocError, Global};
use std::marker::Model;

/// What an act on a cell did, as its log keeps it.
#[derive(Drop)]
pub enum Note {
    /// The value was written.
    Wrote,
    /// The value was tested, with this answer, and written where it was true.
    Cond(bool),
    /// The lock was taken.
    Got,
    /// The lock was not taken, since the owner with this age was there.
    Died(IdBuf),
    /// The lock was given back.
    Freed,
}

impl Note {
    /// An equal note.
    pub fn copy(&self, alloc: Global) -> Result<Note, AllocError>
        ensures { IfOk result (λ n. n ≡ self.now) }
    {
        match self {
            Note::Wrote => Ok(Note::Wrote),
            Note::Cond(passed) => Ok(Note::Cond(*passed)),
            Note::Got => Ok(Note::Got),
            Note::Died(age) => Ok(Note::Died(age.copy(alloc)?)),
            Note::Freed => Ok(Note::Freed),
        }
    }
}

/// An entry: what was done, and for which place.
#[derive(Drop)]
pub struct Entry {
    pub place: Place,
    pub note: Note,
}

impl Model for Entry {
    ghost use Rattle.beldi_value.specs.declared.place.Place.{Place};
    ghost use Rattle.beldi_row.specs.declared.notes.Note.{Note};

    ghost Value = { Place × Note };

    ghost view = { λ a. (a.place, a.note) };
}

/// How many entries a cell has at most.
pub const MOST_ENTRIES: usize = 8;

/// Room for the entries of a cell, made before an act, so that the act takes no memory for it.
#[derive(Drop)]
pub struct Blank {
    entries: Vec<Entry>,
}

impl Model for Blank {
    ghost use Rattle.std.specs.Prelude.{◌≡◌, [], vec_capacity};
    ghost use Rattle.std.specs.Coded.{codes};
    ghost use Rattle.beldi_row.specs.Log.{LogRoom};

    ghost Value = { LogRoom };

    ghost coded = { Prim.hlevel codes };

    ghost view = { λ a. record { room = vec_capacity a.entries } };

    ghost invariant = { λ a. (a.entries.items ≡ []) × (vec_capacity a.entries ≡ 8) };
}

impl Blank {
    /// Room for `MOST_ENTRIES`.
    pub fn new(alloc: Global) -> Result<Blank, AllocError>
        ensures { IfOk result (λ b. b ≡ blank) }
    {
        Ok(Blank {
            entries: Vec::with_capacity(alloc, MOST_ENTRIES)?,
        })
    }

    /// A log without entries, in this room. It takes no memory.
    pub fn log(self) -> Log
        ensures { result ≡ [] }
    {
        Log {
            entries: self.entries,
        }
    }
}

/// What was done to a cell, each with the place that it was done for, the oldest first. It has room for all that it may have.
#[derive(Drop)]
pub struct Log {
    entries: Vec<Entry>,
}

impl Model for Log {
    ghost use Rattle.std.specs.Prelude.{◌≡◌, List, length, ◌≤◌, vec_capacity};
    ghost use Rattle.beldi_value.specs.declared.place.Place.{Place};
    ghost use Rattle.beldi_row.specs.declared.notes.Note.{Note};

    ghost Value = { List (Place × Note) };

    ghost view = { λ a. a.entries.items };

    ghost invariant = { λ a. (length a.entries.items ≤ 8) × (vec_capacity a.entries ≡ 8) };
}

impl Log {
    /// The index of the first entry of the place.
    pub fn find(&self, place: &Place) -> Option<usize>
        ensures is { result ≡ index_at self.now place.now }
        ensures note { NotedAt self.now place.now result }
    {
        self.index_of(place)
    }

    fn index_of(&self, place: &Place) -> Option<usize>
        ensures { result ≡ index_at self.now place.now }
    {
        let entries = self.entries.as_slice();
        for index in 0..entries.len() {
            let entry = &entries[index];
            // most entries have another step
            if entry.place.step == place.step && entry.place == *place {
                return Some(index);
            }
        }
        None
    }

    /// The note at an index.
    pub fn note(&self, index: usize) -> Option<&Note>
        ensures { option_copied result ≡ note_of (slice_get self.now index) }
    {
        match self.entries.as_slice().get(index) {
            Some(entry) => Some(&entry.note),
            None => None,
        }
    }

    /// The entries, the oldest first.
    pub fn as_slice(&self) -> &[Entry]
        ensures is { result.now ≡ self.now }
        ensures few { length self.now ≤ most_entries }
    {
        self.entries.as_slice()
    }

    /// Whether there is no room for an entry.
    pub fn is_full(&self) -> bool
        ensures { result ≡ (length self.now == most_entries) }
    {
        self.entries.len() == MOST_ENTRIES
    }

    /// Puts an entry at the end, where there is room for it. It takes no memory.
    pub fn push(&mut self, place: Place, note: Note)
        requires { (length self.old == most_entries) ≡ false }
        ensures { self.new ≡ self.old ++ (place, note) ∷ [] }
    {
        self.entries.push_reserved(Entry { place, note });
    }
}
