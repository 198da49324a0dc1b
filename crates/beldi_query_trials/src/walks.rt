// Walks and calls over a table, each where memory is ample: that it is not, no contract rules out.
ghost use Rattle.std.specs.Prelude.{◌≡◌, []};

use beldi_call::{AsyncOutput, AsyncWalk, CallOutput, CallWalk};
use beldi_collect::{IcOutput, IntentCursor};
use beldi_daal::{CellOp, Item, ReadOutput, ReadWalk, WriteOutput, WriteWalk};
use beldi_intent::{Binding, Put, bind, end, issue, look, register, stamp};
use beldi_invokelog::{Back, Invoked, call_back, open_once, registered, result};
use beldi_lock::{LockOutput, LockWalk, lockset_next};
use beldi_query::Walk;
use beldi_readlog::{Kept, get, put_once};
use beldi_row::{Body, Note, Table};
use beldi_shadow::{ShadowOutput, ShadowRead, ShadowWrite};
use beldi_table::MapTable;
use beldi_value::{IntentId, Outcome, Owner, Place, Str, TxId, Value, or_drop};
use std::alloc::Global;
use std::test::Fail;

/// A table with room for a hundred rows.
pub fn roomy(alloc: Global) -> Result<MapTable, Fail> {
    let mut table = MapTable::new(alloc);
    or_drop!(table.ready(&[100]); table);
    Ok(table)
}

fn place() -> Place
    ensures { result.intent.hops ≡ [] }
{
    Place {
        intent: IntentId::root(1),
        step: 0,
    }
}

pub fn transaction(ticket: u32) -> TxId {
    TxId {
        intent: IntentId::root(ticket),
        begin: 0,
        func: 1,
    }
}

// Whether a value is of this form. The value is dropped.
macro_rules! is_so {
    ($value:expr, $form:pat) => {{
        let value = $value;
        let is_so = matches!(value, $form);
        drop(value);
        is_so
    }};
}

pub(crate) use is_so;

fn after<W: Walk>(
    alloc: Global,
    table: &mut MapTable,
    walk: &mut W,
    turns: u32,
) -> Result<W::Output, Fail>
where
    W::Output: Drop,
{
    for _ in 0..turns {
        drop(walk.turn(alloc, table, 5)?);
    }
    Ok(walk.turn(alloc, table, 5)?)
}

/// What a walk says in the turn after so many.
pub fn turn<W: Walk + Drop>(
    alloc: Global,
    table: &mut MapTable,
    mut walk: W,
    turns: u32,
) -> Result<W::Output, Fail>
where
    W::Output: Drop,
{
    after(alloc, table, &mut walk, turns)
}

/// An item of the first table of a function.
pub fn item(alloc: Global) -> Result<Item, Fail> {
    let key = Str::from_text(alloc, "k")?;
    Ok(Item::Plain { table: 0, key })
}

fn writes(alloc: Global, table: &mut MapTable) -> Result<bool, Fail> {
    let item = item(alloc)?;
    let who = Owner::Intent(IntentId::root(1));
    let op = CellOp::Write(Value::Int(7));
    let write = WriteWalk::new(1, item, place(), who, op);
    Ok(is_so!(
        turn(alloc, table, write, 2)?,
        WriteOutput::Done {
            first: true,
            note: _
        }
    ))
}

fn reads(alloc: Global, table: &mut MapTable) -> Result<bool, Fail> {
    let read = ReadWalk::new(1, item(alloc)?, None);
    Ok(is_so!(
        turn(alloc, table, read, 0)?,
        ReadOutput::Got(Some(Value::Int(7)))
    ))
}

#[test]
fn an_item_is_written_and_read(rt: HostRuntime) -> Result<(), Fail> {
    let alloc = rt.alloc();
    let mut table = roomy(alloc)?;
    assert!(rt; writes(alloc, &mut table)?);
    assert!(rt; reads(alloc, &mut table)?);
    Ok(())
}

// The walk of a write at a step, of the step's number.
fn write_of(alloc: Global, step: u32) -> Result<WriteWalk, Fail> {
    let item = item(alloc)?;
    let place = Place {
        intent: IntentId::root(1),
        step,
    };
    let who = Owner::Intent(IntentId::root(1));
    let op = CellOp::Write(Value::Int(i64::from(step)));
    Ok(WriteWalk::new(1, item, place, who, op))
}

// Whether it is done in the turn after so many.
fn writes_at(alloc: Global, table: &mut MapTable, step: u32, turns: u32) -> Result<bool, Fail> {
    let write = write_of(alloc, step)?;
    Ok(is_so!(
        turn(alloc, table, write, turns)?,
        WriteOutput::Done {
            first: true,
            note: _
        }
    ))
}

// Whether it is found to have been done, in the turn after so many.
fn wrote_at(alloc: Global, table: &mut MapTable, step: u32, turns: u32) -> Result<bool, Fail> {
    let write = write_of(alloc, step)?;
    Ok(is_so!(
        turn(alloc, table, write, turns)?,
        WriteOutput::Done {
            first: false,
            note: Note::Wrote
        }
    ))
}

// Whether the writes at eight steps, of which the first makes the row, are done.
fn fills(alloc: Global, table: &mut MapTable) -> Result<bool, Fail> {
    let mut done = writes_at(alloc, table, 0, 2)?;
    for step in 1..8 {
        done = writes_at(alloc, table, step, 0)? && done;
    }
    Ok(done && table.len() == 1)
}

// Whether the ninth finds the row full, makes the second one, links it, and is done there.
fn goes_past(alloc: Global, table: &mut MapTable) -> Result<bool, Fail> {
    Ok(writes_at(alloc, table, 8, 3)? && table.len() == 2)
}

// Whether a read goes on from the first row, and gives what the second one has.
fn reads_on(alloc: Global, table: &mut MapTable) -> Result<bool, Fail> {
    let read = ReadWalk::new(1, item(alloc)?, None);
    Ok(is_so!(
        turn(alloc, table, read, 1)?,
        ReadOutput::Got(Some(Value::Int(8)))
    ))
}

// Whether what was done is found in both rows.
fn finds_all(alloc: Global, table: &mut MapTable) -> Result<bool, Fail> {
    Ok(reads_on(alloc, table)? && wrote_at(alloc, table, 0, 0)? && wrote_at(alloc, table, 8, 1)?)
}

#[test]
fn a_full_row_is_followed(rt: HostRuntime) -> Result<(), Fail> {
    let alloc = rt.alloc();
    let mut table = roomy(alloc)?;
    assert!(rt; fills(alloc, &mut table)?);
    assert!(rt; goes_past(alloc, &mut table)?);
    assert!(rt; finds_all(alloc, &mut table)?);
    Ok(())
}

fn locks(alloc: Global, table: &mut MapTable) -> Result<bool, Fail> {
    let key = Str::from_text(alloc, "k")?;
    let who = Owner::Intent(IntentId::root(1));
    let lock = LockWalk::new(1, place(), who, 0, key);
    Ok(is_so!(
        turn(alloc, table, lock, 2)?,
        LockOutput::Got { first: true }
    ))
}

#[test]
fn a_lock_is_taken(rt: HostRuntime) -> Result<(), Fail> {
    let alloc = rt.alloc();
    let mut table = roomy(alloc)?;
    assert!(rt; locks(alloc, &mut table)?);
    Ok(())
}

// The walk of the lock that the transaction of a ticket asks for.
fn lock_of(alloc: Global, ticket: u32) -> Result<LockWalk, Fail> {
    let key = Str::from_text(alloc, "k")?;
    let place = Place {
        intent: IntentId::root(ticket),
        step: 1,
    };
    let who = Owner::Tx(transaction(ticket));
    Ok(LockWalk::new(1, place, who, 0, key))
}

// Whether its first turn puts the row that says that the lock is asked for.
fn asks(alloc: Global, table: &mut MapTable, ticket: u32) -> Result<bool, Fail> {
    let lock = lock_of(alloc, ticket)?;
    Ok(is_so!(turn(alloc, table, lock, 0)?, LockOutput::Going))
}

fn takes(alloc: Global, table: &mut MapTable, ticket: u32) -> Result<bool, Fail> {
    let lock = lock_of(alloc, ticket)?;
    Ok(is_so!(
        turn(alloc, table, lock, 3)?,
        LockOutput::Got { first: true }
    ))
}

// Whether it dies, and again where it is asked once more.
fn dies(alloc: Global, table: &mut MapTable, ticket: u32) -> Result<bool, Fail> {
    let lock = lock_of(alloc, ticket)?;
    Ok(is_so!(turn(alloc, table, lock, 2)?, LockOutput::Died(_)))
}

fn waits(alloc: Global, table: &mut MapTable, ticket: u32) -> Result<bool, Fail> {
    let lock = lock_of(alloc, ticket)?;
    Ok(is_so!(turn(alloc, table, lock, 1)?, LockOutput::Held(_)))
}

#[test]
fn a_younger_transaction_dies(rt: HostRuntime) -> Result<(), Fail> {
    let alloc = rt.alloc();
    let mut table = roomy(alloc)?;
    assert!(rt; takes(alloc, &mut table, 2)?);
    assert!(rt; dies(alloc, &mut table, 3)?);
    assert!(rt; waits(alloc, &mut table, 1)?);
    Ok(())
}

// Whether an item follows this one of those whose locks the transaction of ticket 1 asked for.
fn lists(alloc: Global, table: &mut MapTable, after: Option<(u16, &Str)>) -> Result<bool, Fail> {
    let id = IntentId::root(1);
    let found = or_drop!(lockset_next(alloc, table, 1, &id, 0, after); id);
    drop(id);
    Ok(is_so!(found, Some((0, _))))
}

fn lists_more(alloc: Global, table: &mut MapTable) -> Result<bool, Fail> {
    let key = Str::from_text(alloc, "k")?;
    let more = or_drop!(lists(alloc, table, Some((0, &key))); key);
    drop(key);
    Ok(more)
}

#[test]
fn locks_are_listed(rt: HostRuntime) -> Result<(), Fail> {
    let alloc = rt.alloc();
    let mut table = roomy(alloc)?;
    assert!(rt; asks(alloc, &mut table, 1)?);
    assert!(rt; asks(alloc, &mut table, 2)?);
    assert!(rt; lists(alloc, &mut table, None)?);
    assert!(rt; !lists_more(alloc, &mut table)?);
    Ok(())
}

fn writes_a_shadow(alloc: Global, table: &mut MapTable) -> Result<bool, Fail> {
    let key = Str::from_text(alloc, "k")?;
    let op = CellOp::Write(Value::Int(7));
    let write = ShadowWrite::new(alloc, 1, transaction(1), place(), 0, key, op)?;
    Ok(is_so!(
        turn(alloc, table, write, 2)?,
        ShadowOutput::Noted(Note::Wrote)
    ))
}

fn reads_a_shadow(alloc: Global, table: &mut MapTable) -> Result<bool, Fail> {
    let key = Str::from_text(alloc, "k")?;
    let read = ShadowRead::new(1, transaction(1), 0, key);
    Ok(is_so!(
        turn(alloc, table, read, 0)?,
        ShadowOutput::Got(Some(Value::Int(7)))
    ))
}

#[test]
fn a_shadow_is_written_and_read(rt: HostRuntime) -> Result<(), Fail> {
    let alloc = rt.alloc();
    let mut table = roomy(alloc)?;
    assert!(rt; writes_a_shadow(alloc, &mut table)?);
    assert!(rt; reads_a_shadow(alloc, &mut table)?);
    Ok(())
}

pub fn keeps_a_read(alloc: Global, table: &mut MapTable) -> Result<bool, Fail> {
    let at = place();
    let kept = or_drop!(put_once(alloc, table, 1, &at, Value::Int(7), 5); at);
    drop(at);
    Ok(is_so!(
        kept,
        Kept {
            added: true,
            value: Value::Int(7)
        }
    ))
}

fn gives_it(alloc: Global, table: &mut MapTable) -> Result<bool, Fail> {
    let at = place();
    let value = or_drop!(get(alloc, table, 1, &at, 5); at);
    drop(at);
    Ok(is_so!(value, Some(Value::Int(7))))
}

#[test]
fn a_read_is_kept(rt: HostRuntime) -> Result<(), Fail> {
    let alloc = rt.alloc();
    let mut table = roomy(alloc)?;
    assert!(rt; keeps_a_read(alloc, &mut table)?);
    assert!(rt; gives_it(alloc, &mut table)?);
    Ok(())
}

fn binds(alloc: Global, table: &mut MapTable) -> Result<bool, Fail> {
    Ok(is_so!(bind(alloc, table, 1, 1, Value::Null, 5)?, Binding::Bound))
}

// What the collector's walk says of the first row.
fn first_row(alloc: Global, table: &mut MapTable) -> Result<IcOutput, Fail> {
    let mut cursor = IntentCursor::new();
    let output = or_drop!(cursor.turn(alloc, table); cursor);
    drop(cursor);
    Ok(output)
}

// Whether no row follows the first one, which the collector's walk stops at and passes.
fn passes_it(alloc: Global, table: &mut MapTable) -> Result<bool, Fail> {
    let mut cursor = IntentCursor::new();
    let output = or_drop!(cursor.turn(alloc, table); cursor);
    let stops = is_so!(output, IcOutput::Unended { .. });
    if stops {
        cursor.pass();
    }
    let output = or_drop!(cursor.turn(alloc, table); cursor);
    drop(cursor);
    Ok(stops && is_so!(output, IcOutput::Round))
}

fn ends(table: &mut MapTable) -> Result<bool, Fail> {
    let outcome = Outcome::Value(Value::Null);
    let put = end(table, IntentId::root(1), 1, outcome, false, 5)?;
    Ok(put == Put::Did)
}

// Whether the finish, which the end left open, is set now, and no second time.
fn finishes(table: &mut MapTable) -> Result<bool, Fail> {
    let first = stamp(table, IntentId::root(1), 1, 6)?;
    let second = stamp(table, IntentId::root(1), 1, 7)?;
    Ok(first == Put::Did && second == Put::Already)
}

#[test]
fn an_intent_is_bound_and_ended(rt: HostRuntime) -> Result<(), Fail> {
    let alloc = rt.alloc();
    let mut table = roomy(alloc)?;
    assert!(rt; issue(&mut table, 1, 5)?);
    assert!(rt; binds(alloc, &mut table)?);
    assert!(rt; passes_it(alloc, &mut table)?);
    assert!(rt; ends(&mut table)?);
    assert!(rt; finishes(&mut table)?);
    assert!(rt; is_so!(first_row(alloc, &mut table)?, IcOutput::Passed));
    Ok(())
}

fn opens(alloc: Global, table: &mut MapTable, call: &mut CallWalk) -> Result<bool, Fail> {
    Ok(is_so!(
        call.turn(alloc, table, 5)?,
        CallOutput::Opened { first: true }
    ))
}

fn opens_again(alloc: Global, table: &mut MapTable) -> Result<bool, Fail> {
    let at = place();
    let call = or_drop!(open_once(alloc, table, 1, &at, 2, 5); at);
    drop(at);
    Ok(is_so!(call, Invoked { added: true, .. }))
}

fn calls_back(alloc: Global, table: &mut MapTable) -> Result<bool, Fail> {
    let at = place();
    let outcome = Outcome::Value(Value::Int(7));
    let back = or_drop!(call_back(alloc, table, 1, &at, outcome, 5); at);
    drop(at);
    Ok(back == Back::Set)
}

fn has_result(alloc: Global, table: &mut MapTable) -> Result<bool, Fail> {
    let at = place();
    let outcome = or_drop!(result(alloc, table, 1, &at, 5); at);
    drop(at);
    Ok(is_so!(outcome, Some(Outcome::Value(Value::Int(7)))))
}

fn is_over(alloc: Global, table: &mut MapTable, call: &mut CallWalk) -> Result<bool, Fail> {
    Ok(is_so!(
        call.turn(alloc, table, 5)?,
        CallOutput::Done(Outcome::Value(Value::Int(7)))
    ))
}

// Whether a walk opens a call, once, and then finds what was given back.
fn comes_back(alloc: Global, table: &mut MapTable, call: &mut CallWalk) -> Result<bool, Fail> {
    Ok(
        opens(alloc, table, call)?
            && !opens_again(alloc, table)?
            && calls_back(alloc, table)?
            && has_result(alloc, table)?
            && is_over(alloc, table, call)?,
    )
}

#[test]
fn a_call_is_kept(rt: HostRuntime) -> Result<(), Fail> {
    let alloc = rt.alloc();
    let mut table = roomy(alloc)?;
    let mut call = CallWalk::new(1, place(), 2);
    assert!(rt; comes_back(alloc, &mut table, &mut call)?);
    Ok(())
}

fn body() -> Body {
    Body {
        func: 2,
        args: Value::Null,
        tx: None,
        parent: None,
    }
}

fn callee(alloc: Global) -> Result<IntentId, Fail> {
    let root = IntentId::root(1);
    let callee = or_drop!(root.child(alloc, 0); root);
    drop(root);
    Ok(callee)
}

fn registers(alloc: Global, table: &mut MapTable) -> Result<bool, Fail> {
    let callee = callee(alloc)?;
    Ok(is_so!(register(alloc, table, callee, body(), 5)?, None))
}

// Whether the walk of a call that nobody waits for opens it, and goes on with its callee.
fn starts(alloc: Global, table: &mut MapTable) -> Result<bool, Fail> {
    let call = AsyncWalk::new(1, place(), body());
    Ok(turn(alloc, table, call, 1)? == AsyncOutput::Going)
}

fn is_marked(alloc: Global, table: &mut MapTable) -> Result<bool, Fail> {
    let at = place();
    let back = or_drop!(registered(alloc, table, 1, &at, 5); at);
    drop(at);
    Ok(back == Back::Set)
}

fn is_there(alloc: Global, table: &mut MapTable) -> Result<bool, Fail> {
    let callee = callee(alloc)?;
    Ok(is_so!(look(alloc, table, callee, 2, 5)?, Some(_)))
}

#[test]
fn a_callee_is_left_to_itself(rt: HostRuntime) -> Result<(), Fail> {
    let alloc = rt.alloc();
    let mut table = roomy(alloc)?;
    assert!(rt; registers(alloc, &mut table)?);
    assert!(rt; starts(alloc, &mut table)?);
    assert!(rt; is_marked(alloc, &mut table)?);
    assert!(rt; is_there(alloc, &mut table)?);
    Ok(())
}
