// The acts on a cell. Each leaves one that has the place already, or that a row follows, as it is, and a full one but for the row
// that follows it.
ghost use Rattle.std.specs.Prelude.{◌≡◌, false, None, Some, Option, is_some};
ghost use Rattle.beldi_row.specs.Act.{ActReply, at_tail, way_or, unless_held, if_owned, if_room, is_full, link_to, change_reply, other_owner, owns, given_or, waits_for, Changes};
ghost use Rattle.beldi_row.specs.declared.row.Cell as cell_data;

use crate::act::{Act, Change};
use crate::notes::Note;
use crate::row::{Cell, Row};
use beldi_value::{IdBuf, Owner, Place, Rel, Value, older};

// Whether the owner, if any, is another than `who`.
fn is_held(owner: &Option<Owner>, who: &Owner) -> bool
    ensures { result ≡ is_some (other_owner who.now owner.now) }
{
    match owner {
        None => false,
        Some(owner) => owner != who,
    }
}

// Whether `who` is the owner.
fn is_owned(owner: &Option<Owner>, who: &Owner) -> bool
    ensures { result ≡ owns who.now owner.now }
{
    match owner {
        None => false,
        Some(owner) => owner == who,
    }
}

// The entry that the place has already, or else the row after this one.
fn in_the_way(cell: &Cell, place: &Place) -> Option<Change>
    ensures { (r : cell_data.Cell × ActReply) → at_tail place.now cell.now r ≡ way_or result cell.now r }
{
    match cell.log.find(place) {
        Some(index) => Some(Change::Noted(index)),
        None => match cell.next {
            Some(next) => Some(Change::Next(next)),
            None => None,
        },
    }
}

// What stands in the way of a write: what stands in the way of any act, another owner, or that there is no room for an entry.
fn in_the_way_of(cell: &Cell, place: &Place, who: &Owner) -> Option<Change>
    ensures way { (r : cell_data.Cell × ActReply) → at_tail place.now cell.now (unless_held who.now cell.now (if_room cell.now r)) ≡ way_or result cell.now r }
    ensures room { result ≡ None → is_full cell.now ≡ false }
{
    match in_the_way(cell, place) {
        None if is_held(&cell.owner, who) => Some(Change::Held),
        None if cell.log.is_full() => Some(Change::Packed),
        way => way,
    }
}

pub(crate) fn write(row: &mut Row, place: Place, who: Owner, value: Value) -> Change
    ensures { Changes (Act.WriteCell place who value) 0 row.old row.new result }
{
    match row {
        Row::Cell(cell) => write_cell(cell, place, who, value),
        _ => {
            drop(place);
            drop(who);
            drop(value);
            Change::NoRow
        }
    }
}

fn write_cell(cell: &mut Cell, place: Place, who: Owner, value: Value) -> Change
    ensures { Changes (Act.WriteCell place who value) 0 (Row.Cell cell.old) (Row.Cell cell.new) result }
{
    let way = in_the_way_of(cell, &place, &who);
    drop(who);
    if let Some(change) = way {
        drop(place);
        drop(value);
        return change;
    }
    cell.log.push(place, Note::Wrote);
    cell.value = value;
    Change::Did
}

pub(crate) fn write_where(
    row: &mut Row,
    place: Place,
    who: Owner,
    rel: Rel,
    operand: Value,
    value: Value,
) -> Change
    ensures { Changes (Act.CondCell place who rel operand value) 0 row.old row.new result }
{
    match row {
        Row::Cell(cell) => write_cell_where(cell, place, who, rel, operand, value),
        _ => {
            drop(place);
            drop(who);
            drop(operand);
            drop(value);
            Change::NoRow
        }
    }
}

fn write_cell_where(
    cell: &mut Cell,
    place: Place,
    who: Owner,
    rel: Rel,
    operand: Value,
    value: Value,
) -> Change
    ensures { Changes (Act.CondCell place who rel operand value) 0 (Row.Cell cell.old) (Row.Cell cell.new) result }
{
    let way = in_the_way_of(cell, &place, &who);
    drop(who);
    if let Some(change) = way {
        drop(place);
        drop(operand);
        drop(value);
        return change;
    }
    let passed = cell.value.passes(rel, &operand);
    drop(operand);
    cell.log.push(place, Note::Cond(passed));
    if passed {
        cell.value = value;
    } else {
        drop(value);
    }
    Change::Tested(passed)
}

// Whether who asks for the lock waits for this owner; where it does not, it dies.
fn waits(who: &Owner, owner: &Owner) -> bool
    ensures { result ≡ waits_for who.now owner.now }
{
    match who {
        Owner::Intent(_) => true,
        Owner::Tx(tx) => older(&tx.intent, owner.age()),
    }
}

pub(crate) fn lock(row: &mut Row, place: Place, who: Owner, spare: IdBuf) -> Change
    ensures { Changes (Act.LockCell place who spare) 0 row.old row.new result }
{
    match row {
        Row::Cell(cell) => lock_cell(cell, place, who, spare),
        _ => {
            drop(place);
            drop(who);
            drop(spare);
            Change::NoRow
        }
    }
}

fn lock_cell(cell: &mut Cell, place: Place, who: Owner, spare: IdBuf) -> Change
    ensures { Changes (Act.LockCell place who spare) 0 (Row.Cell cell.old) (Row.Cell cell.new) result }
{
    if let Some(change) = in_the_way(cell, &place) {
        drop(place);
        drop(who);
        drop(spare);
        return change;
    }
    match &cell.owner {
        Some(owner) if *owner != who => {
            let is_held = waits(&who, owner);
            drop(who);
            if is_held {
                drop(place);
                drop(spare);
                return Change::Held;
            }
            if cell.log.is_full() {
                drop(place);
                drop(spare);
                return Change::Packed;
            }
            let age = spare.hold(owner.age());
            cell.log.push(place, Note::Died(age));
            Change::Died
        }
        _ => {
            drop(spare);
            if cell.log.is_full() {
                drop(place);
                drop(who);
                return Change::Packed;
            }
            cell.log.push(place, Note::Got);
            cell.owner = Some(who);
            Change::Did
        }
    }
}

pub(crate) fn free(row: &mut Row, place: Place, who: Owner, value: Option<Value>) -> Change
    ensures { Changes (Act.FreeCell place who value) 0 row.old row.new result }
{
    match row {
        Row::Cell(cell) => free_cell(cell, place, who, value),
        _ => {
            drop(place);
            drop(who);
            drop(value);
            Change::NoRow
        }
    }
}

// What stands in the way of the owner's giving the item back: what stands in the way of any act, that it is not the owner, or
// that there is no room for an entry.
fn in_the_way_of_free(cell: &Cell, place: &Place, who: &Owner) -> Option<Change>
    ensures way { (r : cell_data.Cell × ActReply) → at_tail place.now cell.now (if_owned who.now cell.now (if_room cell.now r)) ≡ way_or result cell.now r }
    ensures room { result ≡ None → is_full cell.now ≡ false }
{
    match in_the_way(cell, place) {
        None if !is_owned(&cell.owner, who) => Some(Change::NotOwner),
        None if cell.log.is_full() => Some(Change::Packed),
        way => way,
    }
}

fn free_cell(cell: &mut Cell, place: Place, who: Owner, value: Option<Value>) -> Change
    ensures { Changes (Act.FreeCell place who value) 0 (Row.Cell cell.old) (Row.Cell cell.new) result }
{
    let way = in_the_way_of_free(cell, &place, &who);
    drop(who);
    if let Some(change) = way {
        drop(place);
        drop(value);
        return change;
    }
    cell.log.push(place, Note::Freed);
    cell.owner = None;
    set_given(&mut cell.value, value);
    Change::Did
}

// Sets the value, where one is given.
fn set_given(at: &mut Value, value: Option<Value>)
    ensures { at.new ≡ given_or value at.old }
{
    match value {
        Some(value) => *at = value,
        None => drop(value),
    }
}

pub(crate) fn link(row: &mut Row, next: u32) -> Change
    ensures { Changes (Act.LinkCell next) 0 row.old row.new result }
{
    match row {
        Row::Cell(cell) => link_cell(cell, next),
        _ => Change::NoRow,
    }
}

fn link_cell(cell: &mut Cell, next: u32) -> Change
    ensures { Changes (Act.LinkCell next) 0 (Row.Cell cell.old) (Row.Cell cell.new) result }
{
    if let Some(row) = cell.next {
        return Change::Next(row);
    }
    if !cell.log.is_full() {
        return Change::NotFull;
    }
    cell.next = Some(next);
    Change::Next(next)
}
