// Writing the parts of rows.
ghost use Rattle.std.specs.Prelude.{◌≡◌, OnOk};
ghost use Rattle.beldi_bytes.specs.Coding.{Adds, option_bytes, IfThere};
ghost use Rattle.beldi_bytes.specs.KeyBytes.{id_bytes, IsId};
ghost use Rattle.beldi_bytes.specs.RowBytes.{code_of, cause_bytes, outcome_bytes, caller_bytes, owner_bytes, note_bytes, entry_bytes, log_bytes, IsCause, IsOutcome, IsCaller, IsOwner, IsNote, IsEntry, IsLog};

use crate::key_out::{put_age, put_id, put_place, put_tx};
use crate::number_out::{put_byte, put_count, put_truth, put_two};
use crate::value_out::put_value;
use beldi_row::{Entry, Log, Note};
use beldi_value::{Boxed, Caller, Cause, Code, IntentId, Outcome, Owner, Shared};
use std::alloc::AllocError;

fn code(code: Code) -> u8
    ensures { result ≡ code_of code }
{
    match code {
        Code::WrongType => 0,
        Code::Overflow => 1,
        Code::DivideByZero => 2,
        Code::Steps => 3,
        Code::LocksHeld => 4,
        Code::ValueTooLarge => 5,
        Code::NoTx => 6,
    }
}

fn put_holder(out: &mut Vec<u8>, holder: &Option<Boxed<IntentId>>) -> Result<(), AllocError>
    ensures { OnOk result (Adds out.old.items out.new.items (option_bytes id_bytes holder.now) × IfThere IsId holder.now) }
{
    match holder {
        None => put_byte(out, 0),
        Some(holder) => {
            put_byte(out, 1)?;
            put_id(out, holder.get())
        }
    }
}

fn put_cause(out: &mut Vec<u8>, cause: &Cause) -> Result<(), AllocError>
    ensures { OnOk result (Adds out.old.items out.new.items (cause_bytes cause.now) × IsCause cause.now) }
{
    put_place(out, cause.place.get())?;
    put_holder(out, &cause.holder)
}

fn put_outcome(out: &mut Vec<u8>, outcome: &Outcome) -> Result<(), AllocError>
    ensures { OnOk result (Adds out.old.items out.new.items (outcome_bytes outcome.now) × IsOutcome outcome.now) }
{
    match outcome {
        Outcome::Value(value) => {
            put_byte(out, 0)?;
            put_value(out, value)
        }
        Outcome::Fault(fault) => {
            put_byte(out, 1)?;
            put_byte(out, code(*fault))
        }
        Outcome::Aborted(cause) => {
            put_byte(out, 2)?;
            put_cause(out, cause)
        }
    }
}

pub(crate) fn put_outcome_if(out: &mut Vec<u8>, part: &Option<Outcome>) -> Result<(), AllocError>
    ensures { OnOk result (Adds out.old.items out.new.items (option_bytes outcome_bytes part.now) × IfThere IsOutcome part.now) }
{
    match part {
        None => put_byte(out, 0),
        Some(part) => {
            put_byte(out, 1)?;
            put_outcome(out, part)
        }
    }
}

fn put_caller(out: &mut Vec<u8>, caller: &Caller) -> Result<(), AllocError>
    ensures { OnOk result (Adds out.old.items out.new.items (caller_bytes caller.now) × IsCaller caller.now) }
{
    put_place(out, &caller.place)?;
    put_two(out, caller.func)?;
    put_truth(out, caller.waits)
}

pub(crate) fn put_caller_if(
    out: &mut Vec<u8>,
    part: &Option<Shared<Caller>>,
) -> Result<(), AllocError>
    ensures { OnOk result (Adds out.old.items out.new.items (option_bytes caller_bytes part.now) × IfThere IsCaller part.now) }
{
    match part {
        None => put_byte(out, 0),
        Some(part) => {
            put_byte(out, 1)?;
            put_caller(out, part.get())
        }
    }
}

fn put_owner(out: &mut Vec<u8>, owner: &Owner) -> Result<(), AllocError>
    ensures { OnOk result (Adds out.old.items out.new.items (owner_bytes owner.now) × IsOwner owner.now) }
{
    match owner {
        Owner::Intent(id) => {
            put_byte(out, 0)?;
            put_id(out, id)
        }
        Owner::Tx(tx) => {
            put_byte(out, 1)?;
            put_tx(out, tx)
        }
    }
}

pub(crate) fn put_owner_if(out: &mut Vec<u8>, part: &Option<Owner>) -> Result<(), AllocError>
    ensures { OnOk result (Adds out.old.items out.new.items (option_bytes owner_bytes part.now) × IfThere IsOwner part.now) }
{
    match part {
        None => put_byte(out, 0),
        Some(part) => {
            put_byte(out, 1)?;
            put_owner(out, part)
        }
    }
}

fn put_note(out: &mut Vec<u8>, note: &Note) -> Result<(), AllocError>
    ensures { OnOk result (Adds out.old.items out.new.items (note_bytes note.now) × IsNote note.now) }
{
    match note {
        Note::Wrote => put_byte(out, 0),
        Note::Cond(passed) => {
            put_byte(out, 1)?;
            put_truth(out, *passed)
        }
        Note::Got => put_byte(out, 2),
        Note::Died(age) => {
            put_byte(out, 3)?;
            put_age(out, age)
        }
        Note::Freed => put_byte(out, 4),
    }
}

fn put_entry(out: &mut Vec<u8>, entry: &Entry) -> Result<(), AllocError>
    ensures { OnOk result (Adds out.old.items out.new.items (entry_bytes entry.now) × IsEntry entry.now) }
{
    put_place(out, &entry.place)?;
    put_note(out, &entry.note)
}

pub(crate) fn put_log(out: &mut Vec<u8>, log: &Log) -> Result<(), AllocError>
    ensures { OnOk result (Adds out.old.items out.new.items (log_bytes log.now) × IsLog log.now) }
{
    let entries = log.as_slice();
    put_count(out, entries.len())?;
    for entry in entries {
        put_entry(out, entry)?;
    }
    Ok(())
}
