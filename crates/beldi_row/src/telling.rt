// What is said of a change.
ghost use Rattle.std.specs.Prelude.{◌≡◌, false, Option, slice_get};
ghost use Rattle.std.specs.Option.{option_copied};
ghost use Rattle.beldi_row.specs.Act.{act_reply_of, change_reply, ended_reply, other_reply, held_reply, died_reply, noted_reply, packed};
ghost use Rattle.beldi_row.specs.Log.{note_of};
ghost use Rattle.beldi_row.specs.declared.row.Row as row_data;

use crate::act::{ActReplyRef, Change};
use crate::row::{Cell, IntentRow, Row};

/// Whether a change tells what lies in the row. Of any other the same is said whatever row there is.
pub fn is_of_row(change: Change) -> bool
    ensures { result ≡ false → (a b : Option row_data.Row) → change_reply change a ≡ change_reply change b }
{
    match change {
        Change::Row | Change::Other | Change::Ended | Change::Kept => true,
        Change::Noted(_) | Change::Held | Change::Died | Change::Packed => true,
        _ => false,
    }
}

/// What a change says, with what lies in the row as the change left it.
pub fn tell(row: Option<&Row>, change: Change) -> ActReplyRef<'_>
    ensures { act_reply_of result ≡ change_reply change (option_copied row.entry) }
{
    match (change, row) {
        (Change::Row, Some(row)) => ActReplyRef::Row(row),
        (Change::Absent, _) | (Change::Row, None) => ActReplyRef::Absent,
        (Change::Added, _) => ActReplyRef::Added,
        (Change::Present, _) => ActReplyRef::Present,
        (Change::Other, Some(Row::Intent(intent))) => tell_other(intent),
        (Change::Ended, Some(Row::Intent(intent))) => tell_ended(intent),
        (Change::Other, _) | (Change::Ended, _) | (Change::Gone, _) => ActReplyRef::Gone,
        (Change::Bound, _) => ActReplyRef::Bound,
        (Change::Running, _) => ActReplyRef::Running,
        (Change::Already, _) => ActReplyRef::Already,
        (Change::Did, _) => ActReplyRef::Did,
        (Change::Kept, Some(Row::ReadLog(value))) => ActReplyRef::Kept(value),
        (Change::Noted(index), Some(Row::Cell(cell))) => tell_noted(cell, index),
        (Change::Held, Some(Row::Cell(cell))) => tell_held(cell),
        (Change::Died, Some(Row::Cell(cell))) => tell_died(cell),
        (Change::Packed, Some(Row::Cell(cell))) => tell_packed(cell),
        (Change::Kept, _) | (Change::Noted(_), _) | (Change::Held, _) => ActReplyRef::NoRow,
        (Change::Died, _) | (Change::Packed, _) | (Change::NoRow, _) => ActReplyRef::NoRow,
        (Change::Next(next), _) => ActReplyRef::Next(next),
        (Change::NotOwner, _) => ActReplyRef::NotOwner,
        (Change::Tested(passed), _) => ActReplyRef::Tested(passed),
        (Change::NotFull, _) => ActReplyRef::NotFull,
        (Change::NotSo, _) => ActReplyRef::NotSo,
        (Change::Marked(next), _) => ActReplyRef::Marked(next),
    }
}

fn tell_other(intent: &IntentRow) -> ActReplyRef<'_>
    ensures { act_reply_of result ≡ other_reply intent.now.body }
{
    match &intent.body {
        Some(body) => ActReplyRef::Other(body),
        None => ActReplyRef::Gone,
    }
}

fn tell_ended(intent: &IntentRow) -> ActReplyRef<'_>
    ensures { act_reply_of result ≡ ended_reply intent.now.outcome }
{
    match &intent.outcome {
        Some(outcome) => ActReplyRef::Ended(outcome),
        None => ActReplyRef::Gone,
    }
}

fn tell_noted(cell: &Cell, index: usize) -> ActReplyRef<'_>
    ensures { act_reply_of result ≡ noted_reply (note_of (slice_get cell.now.log index)) }
{
    match cell.log.note(index) {
        Some(note) => ActReplyRef::Noted(note),
        None => ActReplyRef::NoRow,
    }
}

fn tell_held(cell: &Cell) -> ActReplyRef<'_>
    ensures { act_reply_of result ≡ held_reply cell.now.owner }
{
    match &cell.owner {
        Some(owner) => ActReplyRef::Held(owner),
        None => ActReplyRef::NoRow,
    }
}

fn tell_died(cell: &Cell) -> ActReplyRef<'_>
    ensures { act_reply_of result ≡ died_reply cell.now.owner }
{
    match &cell.owner {
        Some(owner) => ActReplyRef::Died(owner.age()),
        None => ActReplyRef::NoRow,
    }
}

fn tell_packed(cell: &Cell) -> ActReplyRef<'_>
    ensures { act_reply_of result ≡ packed cell.now.value cell.now.owner }
{
    ActReplyRef::Packed(&cell.value, cell.owner.as_ref())
}
