// Operations of transactions, and their end.
ghost use Rattle.std.specs.Prelude.{◌≡◌, ◌<◌, length, true, IfOk};
ghost use Rattle.beldi_value.specs.Id.{child_of, root_of};
ghost use Rattle.beldi_txn.specs.Tx.{is_operation};

use crate::walks::{is_so, roomy, transaction, turn};
use beldi_daal::{Item, ReadOutput, ReadWalk};
use beldi_intent::{look, register};
use beldi_invokelog::open_once;
use beldi_lang::Effect;
use beldi_query::Walk;
use beldi_row::{Body, IntentRow};
use beldi_table::MapTable;
use beldi_txn::{EndOutput, EndWalk, TxOutput, TxWalk};
use beldi_value::{Caller, IntentId, Place, Shared, Str, Value, or_drop};
use std::alloc::Global;
use std::test::Fail;

// A step of the root of a ticket.
fn step_of(ticket: u32, step: u32) -> Place
    ensures { result.intent ≡ root_of ticket }
{
    Place {
        intent: IntentId::root(ticket),
        step,
    }
}

// What the root of a ticket calls at the step 1.
fn callee(alloc: Global, ticket: u32) -> Result<IntentId, Fail>
    ensures { IfOk result (λ id. id ≡ child_of (root_of ticket) 1) }
{
    let root = IntentId::root(ticket);
    let id = or_drop!(root.child(alloc, 1); root);
    drop(root);
    Ok(id)
}

// .. and what that calls at its first step.
fn below(alloc: Global, ticket: u32) -> Result<IntentId, Fail> {
    let callee = callee(alloc, ticket)?;
    let id = or_drop!(callee.child(alloc, 0); callee);
    drop(callee);
    Ok(id)
}

fn first_of(intent: IntentId) -> Place
    ensures { result.intent ≡ intent }
{
    Place { intent, step: 0 }
}

// What an operation says at its end, of at most ten turns.
fn last(alloc: Global, table: &mut MapTable, walk: &mut TxWalk) -> Result<TxOutput, Fail> {
    for _ in 0..10 {
        match walk.turn(alloc, table, 5)? {
            TxOutput::Going => (),
            output => return Ok(output),
        }
    }
    Ok(TxOutput::Going)
}

// .. where it is one of the transaction of the place's ticket, on an item of a function.
fn answer(
    alloc: Global,
    table: &mut MapTable,
    func: u16,
    place: Place,
    effect: Effect,
) -> Result<TxOutput, Fail>
    requires { is_operation effect ≡ true }
{
    let tx = transaction(place.intent.ticket);
    let mut walk = TxWalk::new(func, place, tx, effect);
    let output = or_drop!(last(alloc, table, &mut walk); walk);
    drop(walk);
    Ok(output)
}

fn write(
    alloc: Global,
    table: &mut MapTable,
    func: u16,
    place: Place,
    key: &str,
    value: i64,
) -> Result<TxOutput, Fail> {
    let key = or_drop!(Str::from_text(alloc, key); place);
    let value = Value::Int(value);
    let effect = Effect::Write {
        table: 0,
        key,
        value,
    };
    answer(alloc, table, func, place, effect)
}

fn writes(
    alloc: Global,
    table: &mut MapTable,
    func: u16,
    place: Place,
    key: &str,
    value: i64,
) -> Result<bool, Fail> {
    Ok(is_so!(
        write(alloc, table, func, place, key, value)?,
        TxOutput::Done
    ))
}

fn read_dies(alloc: Global, table: &mut MapTable, place: Place, key: &str) -> Result<bool, Fail> {
    let key = or_drop!(Str::from_text(alloc, key); place);
    let read = Effect::Read { table: 0, key };
    Ok(is_so!(answer(alloc, table, 1, place, read)?, TxOutput::Died(_)))
}

fn turns_of(alloc: Global, table: &mut MapTable, walk: &mut EndWalk) -> Result<u32, Fail> {
    for turn in 1..40 {
        if is_so!(walk.turn(alloc, table, 7)?, EndOutput::Done) {
            return Ok(turn);
        }
    }
    Ok(40)
}

// How many turns the end of a transaction takes, of at most forty.
fn turns(
    alloc: Global,
    table: &mut MapTable,
    ticket: u32,
    end: u32,
    commit: bool,
) -> Result<u32, Fail> {
    let mut walk = EndWalk::new(alloc, transaction(ticket), end, commit);
    let turns = or_drop!(turns_of(alloc, table, &mut walk); walk);
    drop(walk);
    Ok(turns)
}

// Whether an item has this number.
fn holds(
    alloc: Global,
    table: &mut MapTable,
    func: u16,
    key: &str,
    wanted: i64,
) -> Result<bool, Fail> {
    let key = Str::from_text(alloc, key)?;
    let read = ReadWalk::new(func, Item::Plain { table: 0, key }, None);
    match turn(alloc, table, read, 0)? {
        ReadOutput::Got(Some(Value::Int(value))) => Ok(value == wanted),
        output => {
            drop(output);
            Ok(false)
        }
    }
}

#[test]
fn a_transaction_commits(rt: HostRuntime) -> Result<(), Fail> {
    let alloc = rt.alloc();
    let mut table = roomy(alloc)?;
    assert!(rt; writes(alloc, &mut table, 1, step_of(2, 2), "a", 7)?);
    assert!(rt; read_dies(alloc, &mut table, step_of(3, 1), "a")?);
    assert!(rt; turns(alloc, &mut table, 2, 9, true)? < 40);
    assert!(rt; holds(alloc, &mut table, 1, "a", 7)?);
    Ok(())
}

// Whether the function `home` calls another at a place, which was not called, in the transaction of the place's ticket.
fn calls(
    alloc: Global,
    table: &mut MapTable,
    home: u16,
    place: Place,
    func: u16,
) -> Result<bool, Fail>
    requires { length place.intent.hops < 63 }
{
    drop(or_drop!(open_once(alloc, table, home, &place, func, 5); place));
    let callee = or_drop!(place.intent.child(alloc, place.step); place);
    let tx = Shared::new(alloc, transaction(place.intent.ticket));
    let tx = or_drop!(tx; place, callee);
    let from = Caller {
        place,
        func: home,
        waits: true,
    };
    let from = or_drop!(Shared::new(alloc, from); callee, tx);
    let body = Body {
        func,
        args: Value::Null,
        tx: Some(tx),
        parent: Some(from),
    };
    Ok(is_so!(register(alloc, table, callee, body, 5)?, None))
}

fn is_finished(alloc: Global, table: &mut MapTable, id: IntentId, func: u16) -> Result<bool, Fail> {
    Ok(is_so!(
        look(alloc, table, id, func, 5)?,
        Some(IntentRow {
            finish: Some(7),
            ..
        })
    ))
}

// Whether the root of a ticket calls this function at its step 1, which then writes a 7.
fn takes_part(
    alloc: Global,
    table: &mut MapTable,
    ticket: u32,
    func: u16,
    key: &str,
) -> Result<bool, Fail> {
    Ok(
        calls(alloc, table, 1, step_of(ticket, 1), func)?
            && writes(alloc, table, func, first_of(callee(alloc, ticket)?), key, 7)?,
    )
}

// Whether the callee of a ticket is finished, and the item has its 7.
fn took_part(
    alloc: Global,
    table: &mut MapTable,
    ticket: u32,
    func: u16,
    key: &str,
) -> Result<bool, Fail> {
    Ok(
        is_finished(alloc, table, callee(alloc, ticket)?, func)?
            && holds(alloc, table, func, key, 7)?,
    )
}

#[test]
fn a_callee_takes_part(rt: HostRuntime) -> Result<(), Fail> {
    let alloc = rt.alloc();
    let mut table = roomy(alloc)?;
    assert!(rt; takes_part(alloc, &mut table, 2, 2, "a")?);
    assert!(rt; writes(alloc, &mut table, 1, step_of(2, 2), "b", 8)?);
    // decided; its call; the callee's: no call, its lock, copy, item, no lock, finish; no call; the owner's lock, copy, item, no lock
    assert!(rt; turns(alloc, &mut table, 2, 3, true)? == 13);
    assert!(rt; took_part(alloc, &mut table, 2, 2, "a")?);
    assert!(rt; holds(alloc, &mut table, 1, "b", 8)?);
    Ok(())
}

// Whether a callee of the callee of ticket 2 dies of a write of the item that the callee of ticket 1 has.
fn dies_below(alloc: Global, table: &mut MapTable) -> Result<bool, Fail> {
    let called = calls(alloc, table, 1, step_of(2, 1), 2)?
        && calls(alloc, table, 2, first_of(callee(alloc, 2)?), 3)?;
    let place = first_of(below(alloc, 2)?);
    Ok(called && is_so!(write(alloc, table, 3, place, "k", 8)?, TxOutput::Died(_)))
}

fn are_finished(alloc: Global, table: &mut MapTable) -> Result<bool, Fail> {
    Ok(
        is_finished(alloc, table, callee(alloc, 2)?, 2)?
            && is_finished(alloc, table, below(alloc, 2)?, 3)?,
    )
}

#[test]
fn a_death_is_two_calls_deep(rt: HostRuntime) -> Result<(), Fail> {
    let alloc = rt.alloc();
    let mut table = roomy(alloc)?;
    assert!(rt; takes_part(alloc, &mut table, 1, 3, "k")?);
    assert!(rt; dies_below(alloc, &mut table)?);
    // as the golden case of this name has it: fifteen turns, of which the first is the call's and the last the return's
    assert!(rt; turns(alloc, &mut table, 2, 2, false)? == 13);
    assert!(rt; are_finished(alloc, &mut table)?);
    assert!(rt; turns(alloc, &mut table, 1, 2, true)? == 10);
    assert!(rt; took_part(alloc, &mut table, 1, 3, "k")?);
    Ok(())
}
