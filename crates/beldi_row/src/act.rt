// The acts on one row.
ghost use Rattle.std.specs.Prelude.{◌≡◌, ◌&&◌, ◌==◌, ℕ, Some, Option};
ghost use Rattle.beldi_value.specs.Same.{same_value};
ghost use Rattle.beldi_row.specs.declared.row.Row as row_data;
ghost use Rattle.beldi_row.specs.Act.{bind_to, end_with, stamp_with, call_back_to, register_to, kept_reply, on_intent, on_invoke, gone, off, change_reply, drops, removes, removed_reply, is_past, is_old, is_old_row, is_left_row, is_adrift, Changes};

use crate::cell::{free, link, lock, write, write_where};
use crate::notes::{Blank, Note};
use crate::row::{Body, Cell, IntentRow, InvokeRow, Row};
use crate::unlink::{dangle, mark, skip};
use beldi_value::{IdBuf, IntentId, Outcome, Owner, Place, Rel, Value};

/// An act on one row. `Look` is for rows of any kind, `Issue`, `Bind`, `Register`, `End` and `Stamp` are for intents, `PutRead` for what
/// reads were given, `OpenInvoke`, `CallBack` and `NoteRegistered` for calls, `PutLockset` for what a transaction asked the lock
/// of. `DropIntent`, `DropRow` and `DropCell` remove a row, and `MarkCell`, `SkipCell` and `DangleCell` lead past a cell that is to go. The
/// others are for cells: a cell that has the place already, or that a row follows, is left as it is, and so is a full one but for the
/// row that follows it.
#[derive(Drop)]
pub enum Act {
    /// Reads the row.
    Look,
    /// Adds the row of a root intent that nothing is known of yet.
    Issue,
    /// Says what a root intent is to do, once.
    Bind {
        func: u16,
        args: Value,
    },
    /// Adds the row of an intent that was called, with what it is to do.
    Register {
        body: Body,
    },
    /// Sets the outcome, once, and with `stamp` also the moment of the finish.
    End {
        outcome: Outcome,
        stamp: bool,
    },
    /// Sets the moment of the finish, once.
    Stamp,
    /// Keeps what a read was given, once.
    PutRead {
        value: Value,
    },
    /// Adds the row of a call of this function.
    OpenInvoke {
        func: u16,
    },
    /// Sets what a call gave back, once.
    CallBack {
        outcome: Outcome,
    },
    /// Says, once, that the intent of an asynchronous call has its row.
    NoteRegistered,
    /// Adds the row of an item that a transaction asks the lock of.
    PutLockset,
    /// Adds a cell with this value and owner, and this room for its entries.
    MakeCell {
        value: Value,
        owner: Option<Owner>,
        blank: Blank,
    },
    /// Sets the value for the operation at this place, once, where no other than `who` owns the item.
    WriteCell {
        place: Place,
        who: Owner,
        value: Value,
    },
    /// Tests the value for the operation at this place, once, where no other than `who` owns the item, and sets it where it
    /// stands so to the operand.
    CondCell {
        place: Place,
        who: Owner,
        rel: Rel,
        operand: Value,
        value: Value,
    },
    /// Makes `who` the owner, once, where no other owns the item. An intent waits for another owner, and so does a transaction
    /// that is older than the owner; any other transaction dies there, once. The room of `spare` is for the age of the
    /// owner that it died of.
    LockCell {
        place: Place,
        who: Owner,
        spare: IdBuf,
    },
    /// Leaves the item without an owner, once, where `who` owns it, and sets the value where one is given.
    FreeCell {
        place: Place,
        who: Owner,
        value: Option<Value>,
    },
    /// Says which row follows a full cell, once.
    LinkCell {
        next: u32,
    },
    /// Removes the row of an intent that finished more than a life ago, in ticks, or was issued that long ago and was given
    /// nothing to do.
    DropIntent {
        life: u64,
    },
    /// Removes what an intent left beside its own row: what a read was given, a call, an item that the lock was asked of, or a
    /// cell of a shadow.
    DropRow,
    /// Marks a cell that a row follows: it is to go, and that row comes after it for good.
    MarkCell,
    /// Leads from a cell that is not marked to the row `to`, where it led to the row `from` below that.
    SkipCell {
        from: u32,
        to: u32,
    },
    /// Says of a marked cell, once, since when no row leads to it.
    DangleCell,
    /// Removes a cell that no row leads to for more than a life, in ticks.
    DropCell {
        life: u64,
    },
}

/// What an act says. It lends what lies in the row.
#[derive(Drop)]
pub enum ActReplyRef<'a> {
    /// No row is there.
    Absent,
    /// The row.
    Row(&'a Row),
    /// No row was there, and one was added.
    Added,
    /// A row was there, and none was added.
    Present,
    /// The intent is not there, so the act was not done.
    Gone,
    /// The intent had nothing to do, and now has.
    Bound,
    /// The intent has something else to do.
    Other(&'a Body),
    /// The intent has this to do, and ended so.
    Ended(&'a Outcome),
    /// The intent has this to do, and has not ended.
    Running,
    /// It was done before.
    Already,
    /// It was done now.
    Did,
    /// The read was given this value before.
    Kept(&'a Value),
    /// The cell is not there, so the act was not done.
    NoRow,
    /// The place has been here before, and this is what it did.
    Noted(&'a Note),
    /// Another row comes after this one.
    Next(u32),
    /// Another owner has the item.
    Held(&'a Owner),
    /// Who would give the item back does not own it.
    NotOwner,
    /// The value was tested now, with this answer.
    Tested(bool),
    /// Who asked died now, of the owner with this age.
    Died(&'a IntentId),
    /// The cell is full, so nothing was done: its value and its owner.
    Packed(&'a Value, Option<&'a Owner>),
    /// The cell is not full, so no row was linked to it.
    NotFull,
    /// The row is not one to remove, to mark or to lead past, so it stays as it is.
    NotSo,
    /// The cell is marked, and this row comes after it.
    Marked(u32),
}

/// What an act did: each says the same as the answer of `ActReplyRef` with its name, but for what lies in the row.
#[derive(Clone, Copy)]
pub enum Change {
    Absent,
    Row,
    Added,
    Present,
    Gone,
    Bound,
    Other,
    Ended,
    Running,
    Already,
    Did,
    Kept,
    NoRow,
    /// The index of the entry in the log.
    Noted(usize),
    Next(u32),
    Held,
    NotOwner,
    Tested(bool),
    Died,
    Packed,
    NotFull,
    NotSo,
    Marked(u32),
}

/// What an act makes where no row is, if anything. It takes no memory.
pub fn made(act: Act, now: u64) -> Option<Row>
    ensures { result ≡ (off act now).0 }
{
    match act {
        Act::Issue => Some(Row::Intent(IntentRow {
            issued: now,
            body: None,
            outcome: None,
            finish: None,
        })),
        Act::Register { body } => Some(Row::Intent(IntentRow {
            issued: now,
            body: Some(body),
            outcome: None,
            finish: None,
        })),
        Act::PutRead { value } => Some(Row::ReadLog(value)),
        Act::OpenInvoke { func } => Some(Row::Invoke(InvokeRow {
            func,
            result: None,
            registered: false,
        })),
        Act::PutLockset => Some(Row::Lockset),
        Act::MakeCell {
            value,
            owner,
            blank,
        } => Some(Row::Cell(Cell {
            value,
            owner,
            log: blank.log(),
            next: None,
            marked: false,
            dangled: None,
        })),
        other => {
            drop(other);
            None
        }
    }
}

/// What an act says where no row is.
pub fn missing(act: &Act) -> Change
    ensures { (now : ℕ) (row : Option row_data.Row) → change_reply result row ≡ (off act.now now).1 }
{
    match act {
        Act::Look => Change::Absent,
        Act::Issue | Act::Register { .. } | Act::PutRead { .. } => Change::Added,
        Act::OpenInvoke { .. } | Act::PutLockset | Act::MakeCell { .. } => Change::Added,
        Act::Bind { .. } | Act::End { .. } | Act::Stamp => Change::Gone,
        Act::CallBack { .. } | Act::NoteRegistered | Act::DropIntent { .. } => Change::Gone,
        Act::DropRow | Act::DropCell { .. } => Change::NotSo,
        Act::MarkCell | Act::SkipCell { .. } | Act::DangleCell => Change::NotSo,
        Act::WriteCell { .. } | Act::CondCell { .. } => Change::NoRow,
        Act::LockCell { .. } | Act::FreeCell { .. } | Act::LinkCell { .. } => Change::NoRow,
    }
}

/// An act on a row that is there. It takes no memory. A row that the act removes is left as it is (`removes`).
pub fn apply(row: &mut Row, act: Act, now: u64) -> Change
    ensures { Changes act now row.old row.new result }
{
    match act {
        Act::Look | Act::OpenInvoke { func: _ } => Change::Row,
        Act::Register { body } => {
            drop(body);
            Change::Row
        }
        Act::Issue | Act::PutLockset => Change::Present,
        Act::MakeCell {
            value,
            owner,
            blank,
        } => {
            drop(value);
            drop(owner);
            drop(blank);
            Change::Present
        }
        Act::PutRead { value } => {
            drop(value);
            kept(row)
        }
        Act::Bind { func, args } => bind(row, func, args),
        Act::End { outcome, stamp } => end(row, outcome, stamp, now),
        Act::Stamp => stamp(row, now),
        Act::CallBack { outcome } => call_back(row, outcome),
        Act::NoteRegistered => note_registered(row),
        Act::WriteCell { place, who, value } => write(row, place, who, value),
        Act::CondCell {
            place,
            who,
            rel,
            operand,
            value,
        } => write_where(row, place, who, rel, operand, value),
        Act::LockCell { place, who, spare } => lock(row, place, who, spare),
        Act::FreeCell { place, who, value } => free(row, place, who, value),
        Act::LinkCell { next } => link(row, next),
        Act::DropIntent { life } => removal(is_old_row(row, life, now)),
        Act::DropRow => removal(is_left_row(row)),
        Act::MarkCell => mark(row),
        Act::SkipCell { from, to } => skip(row, from, to),
        Act::DangleCell => dangle(row, now),
        Act::DropCell { life } => removal(is_adrift(row, life, now)),
    }
}

/// Whether an act may remove a row.
pub fn drops(act: &Act) -> bool
    ensures { result ≡ drops act.now }
{
    matches!(
        act,
        Act::DropIntent { .. } | Act::DropRow | Act::DropCell { .. }
    )
}

/// Whether an act removes this row. Who keeps the row then takes it away.
pub fn removes(act: &Act, row: &Row, now: u64) -> bool
    ensures { result ≡ removes act.now now row.now }
{
    match act {
        Act::DropIntent { life } => is_old_row(row, *life, now),
        Act::DropRow => is_left_row(row),
        Act::DropCell { life } => is_adrift(row, *life, now),
        _ => false,
    }
}

// What is said of a row that is to be removed, or is not.
fn removal(is_so: bool) -> Change
    ensures { (row : Option row_data.Row) → change_reply result row ≡ removed_reply is_so }
{
    if is_so { Change::Did } else { Change::NotSo }
}

/// Whether it is the row of an intent that is old: that finished more than a life before now, or was issued then and never bound. The
/// life and the moment are in ticks.
pub fn is_old_row(row: &Row, life: u64, now: u64) -> bool
    ensures { result ≡ is_old_row life now row.now }
{
    match row {
        Row::Intent(intent) => is_old(intent, life, now),
        _ => false,
    }
}

fn is_old(intent: &IntentRow, life: u64, now: u64) -> bool
    ensures { result ≡ is_old life now intent.now }
{
    (intent.body.is_none() && is_past(Some(intent.issued), life, now))
        || is_past(intent.finish, life, now)
}

/// Whether a moment, if there is one, lies more than a life before now. All three are in ticks.
pub fn is_past(moment: Option<u64>, life: u64, now: u64) -> bool
    ensures { result ≡ is_past life now moment }
{
    match moment {
        Some(moment) => moment < now && life < now - moment,
        None => false,
    }
}

// Whether it is a cell that no row leads to for more than a life.
fn is_adrift(row: &Row, life: u64, now: u64) -> bool
    ensures { result ≡ is_adrift life now row.now }
{
    match row {
        Row::Cell(cell) => is_past(cell.dangled, life, now),
        _ => false,
    }
}

// Whether it is a row that an intent left beside its own.
fn is_left_row(row: &Row) -> bool
    ensures { result ≡ is_left_row row.now }
{
    !matches!(row, Row::Intent(_))
}

fn kept(row: &Row) -> Change
    ensures { change_reply result (Some row.now) ≡ kept_reply (Some row.now) }
{
    match row {
        Row::ReadLog(_) => Change::Kept,
        _ => Change::NoRow,
    }
}

fn bind(row: &mut Row, func: u16, args: Value) -> Change
    ensures { (row.new, change_reply result (Some row.new)) ≡ on_intent (λ i. bind_to func args i i.body) gone row.old }
{
    match row {
        Row::Intent(intent) => bind_intent(intent, func, args),
        _ => {
            drop(args);
            Change::Gone
        }
    }
}

fn bind_intent(intent: &mut IntentRow, func: u16, args: Value) -> Change
    ensures { (intent.new, change_reply result (Some (Row.Intent intent.new))) ≡ bind_to func args intent.old intent.old.body }
{
    match &intent.body {
        None => {
            let body = Body {
                func,
                args,
                tx: None,
                parent: None,
            };
            drop(intent.body.replace(body));
            Change::Bound
        }
        Some(body) => {
            let is_same = is_call(body, func, &args);
            drop(args);
            if !is_same {
                Change::Other
            } else if intent.outcome.is_some() {
                Change::Ended
            } else {
                Change::Running
            }
        }
    }
}

// Whether it is a call of this function with these arguments.
fn is_call(body: &Body, func: u16, args: &Value) -> bool
    ensures { result ≡ (body.now.func == func) && same_value body.now.args args.now }
{
    body.func == func && body.args == *args
}

fn end(row: &mut Row, outcome: Outcome, stamp: bool, now: u64) -> Change
    ensures { (row.new, change_reply result (Some row.new)) ≡ on_intent (λ i. end_with outcome stamp now i i.outcome) gone row.old }
{
    match row {
        Row::Intent(intent) => end_intent(intent, outcome, stamp, now),
        _ => {
            drop(outcome);
            Change::Gone
        }
    }
}

fn end_intent(intent: &mut IntentRow, outcome: Outcome, stamp: bool, now: u64) -> Change
    ensures { (intent.new, change_reply result (Some (Row.Intent intent.new))) ≡ end_with outcome stamp now intent.old intent.old.outcome }
{
    if intent.outcome.is_some() {
        drop(outcome);
        return Change::Already;
    }
    drop(intent.outcome.replace(outcome));
    if stamp && intent.finish.is_none() {
        intent.finish = Some(now);
    }
    Change::Did
}

fn stamp(row: &mut Row, now: u64) -> Change
    ensures { (row.new, change_reply result (Some row.new)) ≡ on_intent (λ i. stamp_with now i i.finish) gone row.old }
{
    match row {
        Row::Intent(intent) => stamp_intent(intent, now),
        _ => Change::Gone,
    }
}

fn stamp_intent(intent: &mut IntentRow, now: u64) -> Change
    ensures { (intent.new, change_reply result (Some (Row.Intent intent.new))) ≡ stamp_with now intent.old intent.old.finish }
{
    if intent.finish.is_some() {
        return Change::Already;
    }
    intent.finish = Some(now);
    Change::Did
}

fn call_back(row: &mut Row, outcome: Outcome) -> Change
    ensures { (row.new, change_reply result (Some row.new)) ≡ on_invoke (λ i. call_back_to outcome i i.result) gone row.old }
{
    match row {
        Row::Invoke(call) => end_call(call, outcome),
        _ => {
            drop(outcome);
            Change::Gone
        }
    }
}

fn end_call(call: &mut InvokeRow, outcome: Outcome) -> Change
    ensures { (call.new, change_reply result (Some (Row.Invoke call.new))) ≡ call_back_to outcome call.old call.old.result }
{
    if call.result.is_some() {
        drop(outcome);
        return Change::Already;
    }
    call.result = Some(outcome);
    Change::Did
}

fn note_registered(row: &mut Row) -> Change
    ensures { (row.new, change_reply result (Some row.new)) ≡ on_invoke (λ i. register_to i i.registered) gone row.old }
{
    match row {
        Row::Invoke(call) => register(call),
        _ => Change::Gone,
    }
}

fn register(call: &mut InvokeRow) -> Change
    ensures { (call.new, change_reply result (Some (Row.Invoke call.new))) ≡ register_to call.old call.old.registered }
{
    if call.registered {
        return Change::Already;
    }
    call.registered = true;
    Change::Did
}
