// The order in which the entries of a book took effect: the changes, and between them the reads by their places.
ghost use Rattle.std.specs.Prelude.{◌≡◌, ◌++◌, ◌∷◌, [], ◌<◌, OnOk, IfOk, length, option_to_list};
ghost use Rattle.beldi_book.specs.LinearOrder.{changes_of, linear};
ghost use Rattle.beldi_book.specs.ReadPlaces.{empty_places, put_in, woven};

use crate::entry::Entry;
use std::alloc::{AllocError, Global};
use std::marker::Model;

// The reads of one place, in book order.
#[derive(Drop)]
struct Reads {
    entries: Vec<Entry>,
}

impl Model for Reads {
    ghost use Rattle.std.specs.Prelude.{List};
    ghost use Rattle.std.specs.Coded.{codes};
    ghost use Rattle.beldi_book.specs.declared.entry.Entry.{Entry};
    ghost use Rattle.beldi_book.specs.contracts.entry.Entry as entry;

    ghost Value = { List Entry };

    ghost coded = { Prim.hlevel (codes, entry.the_row.coded) };

    ghost view = { λ a. a.entries.items };
}

impl Reads {
    fn new(alloc: Global) -> Reads
        ensures { result ≡ [] }
    {
        Reads {
            entries: Vec::new(alloc),
        }
    }

    fn push(&mut self, read: Entry) -> Result<(), AllocError>
        ensures { OnOk result (self.new ≡ self.old ++ read ∷ []) }
    {
        self.entries.push(read)?;
        Ok(())
    }

    // Moves them to the end of these entries.
    fn move_to(self, entries: &mut Vec<Entry>) -> Result<(), AllocError>
        ensures { OnOk result (entries.new.items ≡ entries.old.items ++ self) }
    {
        let mut reads = self.entries;
        entries.append(&mut reads)
    }
}

// Copies of the changes among the entries.
fn changes_of(alloc: Global, entries: &[Entry]) -> Result<Vec<Entry>, AllocError>
    ensures { IfOk result (λ v. v.items ≡ changes_of entries.now) }
{
    let mut changes = Vec::new(alloc);
    for entry in entries {
        if entry.is_change() {
            changes.push(entry.copy(alloc)?)?;
        }
    }
    Ok(changes)
}

// A place before each change, and one after all.
fn empty_places(alloc: Global, changes: &[Entry]) -> Result<Vec<Reads>, AllocError>
    ensures { IfOk result (λ v. v.items ≡ empty_places changes.now) }
{
    let mut places = Vec::new(alloc);
    places.push(Reads::new(alloc))?;
    for _change in changes {
        places.push(Reads::new(alloc))?;
    }
    Ok(places)
}

// Puts a copy of the entry at its place, if it is a read.
fn put_in(alloc: Global, places: &mut Vec<Reads>, entry: &Entry) -> Result<(), AllocError>
    requires { 0 < length places.old.items }
    ensures places { OnOk result (places.new.items ≡ put_in entry.now places.old.items) }
    ensures len { OnOk result (length places.new.items ≡ length places.old.items) }
{
    if let Entry::Read { version, .. } = entry {
        let last = places.len() - 1;
        let at = if *version < last as u64 {
            *version as usize
        } else {
            last
        };
        places[at].push(entry.copy(alloc)?)?;
    }
    Ok(())
}

fn push_next(entries: &mut Vec<Entry>, change: Option<Entry>) -> Result<(), AllocError>
    ensures { OnOk result (entries.new.items ≡ entries.old.items ++ option_to_list change) }
{
    if let Some(change) = change {
        entries.push(change)?;
    }
    Ok(())
}

// The reads of each place, and the change that follows.
fn woven(alloc: Global, changes: Vec<Entry>, places: Vec<Reads>) -> Result<Vec<Entry>, AllocError>
    ensures { IfOk result (λ v. v.items ≡ woven changes.items places.items) }
{
    let mut entries = Vec::new(alloc);
    let mut changes = changes.into_iter();
    for reads in places {
        reads.move_to(&mut entries)?;
        push_next(&mut entries, changes.next())?;
    }
    Ok(entries)
}

/// Copies of the entries, in the order in which they took effect: each read stands where it was made.
pub fn in_order(alloc: Global, entries: &[Entry]) -> Result<Vec<Entry>, AllocError>
    ensures { IfOk result (λ v. v.items ≡ linear entries.now) }
{
    let changes = changes_of(alloc, entries)?;
    let mut places = empty_places(alloc, changes.as_slice())?;
    for entry in entries {
        put_in(alloc, &mut places, entry)?;
    }
    woven(alloc, changes, places)
}
