// Reading the parts of rows.
ghost use Rattle.std.specs.Prelude.{◌≡◌, ◌==◌, ◌∷◌, [], ◌++◌, false, length};
ghost use Rattle.beldi_row.specs.Log.{most_entries};
ghost use Rattle.beldi_bytes.specs.Coding.{Reads, Any, option_bytes, IfThere};
ghost use Rattle.beldi_bytes.specs.KeyBytes.{id_bytes, tx_bytes, IsId, IsTx};
ghost use Rattle.beldi_bytes.specs.RowBytes.{eight, value_bytes, code_bytes, cause_bytes, outcome_bytes, caller_bytes, owner_bytes, note_bytes, entry_bytes, log_bytes, IsValue, IsCause, IsOutcome, IsCaller, IsOwner, IsNote, IsEntry, IsLog, IsMoment};

use crate::cursor::{Cursor, ReadErr, given};
use crate::key_in::{read_id, read_place, read_tx};
use crate::value_in::read_value;
use beldi_row::{Blank, Entry, Log, MOST_ENTRIES, Note};
use beldi_value::{
    Boxed, Caller, Cause, Code, IdBuf, IntentId, Outcome, Owner, Shared, TxId, Value, or_drop,
};
use std::alloc::Global;

pub(crate) fn read_moment(from: &mut Cursor<'_>) -> Result<u64, ReadErr>
    ensures { Reads eight IsMoment from.old from.new result }
{
    let moment = given!(from.eight());
    if moment > 4_611_686_018_427_387_904 {
        return Err(ReadErr::Foreign);
    }
    Ok(moment)
}

pub(crate) fn read_moment_if(from: &mut Cursor<'_>) -> Result<Option<u64>, ReadErr>
    ensures { Reads (option_bytes eight) (IfThere IsMoment) from.old from.new result }
{
    if given!(from.truth()) {
        Ok(Some(given!(read_moment(from))))
    } else {
        Ok(None)
    }
}

// A value, as a part of a row.
pub(crate) fn read_part(alloc: Global, from: &mut Cursor<'_>) -> Result<Value, ReadErr>
    ensures { Reads value_bytes IsValue from.old from.new result }
{
    read_value(alloc, from)
}

fn read_code(from: &mut Cursor<'_>) -> Result<Code, ReadErr>
    ensures { Reads code_bytes Any from.old from.new result }
{
    match given!(from.byte()) {
        0 => Ok(Code::WrongType),
        1 => Ok(Code::Overflow),
        2 => Ok(Code::DivideByZero),
        3 => Ok(Code::Steps),
        4 => Ok(Code::LocksHeld),
        5 => Ok(Code::ValueTooLarge),
        6 => Ok(Code::NoTx),
        _ => Err(ReadErr::Foreign),
    }
}

fn read_apart(alloc: Global, from: &mut Cursor<'_>) -> Result<Boxed<IntentId>, ReadErr>
    ensures { Reads id_bytes IsId from.old from.new result }
{
    let id = given!(read_id(alloc, from));
    Ok(Boxed::new(alloc, id)?)
}

fn read_holder(alloc: Global, from: &mut Cursor<'_>) -> Result<Option<Boxed<IntentId>>, ReadErr>
    ensures { Reads (option_bytes id_bytes) (IfThere IsId) from.old from.new result }
{
    if given!(from.truth()) {
        Ok(Some(given!(read_apart(alloc, from))))
    } else {
        Ok(None)
    }
}

fn read_cause(alloc: Global, from: &mut Cursor<'_>) -> Result<Cause, ReadErr>
    ensures { Reads cause_bytes IsCause from.old from.new result }
{
    let place = given!(read_place(alloc, from));
    let holder = given!(read_holder(alloc, from); place);
    let place = or_drop!(Boxed::new(alloc, place); holder);
    Ok(Cause { place, holder })
}

fn read_outcome(alloc: Global, from: &mut Cursor<'_>) -> Result<Outcome, ReadErr>
    ensures { Reads outcome_bytes IsOutcome from.old from.new result }
{
    match given!(from.byte()) {
        0 => Ok(Outcome::Value(given!(read_part(alloc, from)))),
        1 => Ok(Outcome::Fault(given!(read_code(from)))),
        2 => Ok(Outcome::Aborted(given!(read_cause(alloc, from)))),
        _ => Err(ReadErr::Foreign),
    }
}

pub(crate) fn read_outcome_if(
    alloc: Global,
    from: &mut Cursor<'_>,
) -> Result<Option<Outcome>, ReadErr>
    ensures { Reads (option_bytes outcome_bytes) (IfThere IsOutcome) from.old from.new result }
{
    if given!(from.truth()) {
        Ok(Some(given!(read_outcome(alloc, from))))
    } else {
        Ok(None)
    }
}

fn read_caller(alloc: Global, from: &mut Cursor<'_>) -> Result<Shared<Caller>, ReadErr>
    ensures { Reads caller_bytes IsCaller from.old from.new result }
{
    let place = given!(read_place(alloc, from));
    let func = given!(from.two(); place);
    let waits = given!(from.truth(); place);
    let caller = Caller { place, func, waits };
    Ok(Shared::new(alloc, caller)?)
}

pub(crate) fn read_caller_if(
    alloc: Global,
    from: &mut Cursor<'_>,
) -> Result<Option<Shared<Caller>>, ReadErr>
    ensures { Reads (option_bytes caller_bytes) (IfThere IsCaller) from.old from.new result }
{
    if given!(from.truth()) {
        Ok(Some(given!(read_caller(alloc, from))))
    } else {
        Ok(None)
    }
}

fn read_shared_tx(alloc: Global, from: &mut Cursor<'_>) -> Result<Shared<TxId>, ReadErr>
    ensures { Reads tx_bytes IsTx from.old from.new result }
{
    let tx = given!(read_tx(alloc, from));
    Ok(Shared::new(alloc, tx)?)
}

pub(crate) fn read_tx_if(
    alloc: Global,
    from: &mut Cursor<'_>,
) -> Result<Option<Shared<TxId>>, ReadErr>
    ensures { Reads (option_bytes tx_bytes) (IfThere IsTx) from.old from.new result }
{
    if given!(from.truth()) {
        Ok(Some(given!(read_shared_tx(alloc, from))))
    } else {
        Ok(None)
    }
}

fn read_owner(alloc: Global, from: &mut Cursor<'_>) -> Result<Owner, ReadErr>
    ensures { Reads owner_bytes IsOwner from.old from.new result }
{
    if given!(from.truth()) {
        Ok(Owner::Tx(given!(read_tx(alloc, from))))
    } else {
        Ok(Owner::Intent(given!(read_id(alloc, from))))
    }
}

pub(crate) fn read_owner_if(alloc: Global, from: &mut Cursor<'_>) -> Result<Option<Owner>, ReadErr>
    ensures { Reads (option_bytes owner_bytes) (IfThere IsOwner) from.old from.new result }
{
    if given!(from.truth()) {
        Ok(Some(given!(read_owner(alloc, from))))
    } else {
        Ok(None)
    }
}

fn read_age(alloc: Global, from: &mut Cursor<'_>) -> Result<IdBuf, ReadErr>
    ensures { Reads id_bytes IsId from.old from.new result }
{
    let age = given!(read_id(alloc, from));
    Ok(IdBuf::of(alloc, &age)?)
}

fn read_note(alloc: Global, from: &mut Cursor<'_>) -> Result<Note, ReadErr>
    ensures { Reads note_bytes IsNote from.old from.new result }
{
    match given!(from.byte()) {
        0 => Ok(Note::Wrote),
        1 => Ok(Note::Cond(given!(from.truth()))),
        2 => Ok(Note::Got),
        3 => Ok(Note::Died(given!(read_age(alloc, from)))),
        4 => Ok(Note::Freed),
        _ => Err(ReadErr::Foreign),
    }
}

fn read_entry(alloc: Global, from: &mut Cursor<'_>) -> Result<Entry, ReadErr>
    ensures { Reads entry_bytes IsEntry from.old from.new result }
{
    let place = given!(read_place(alloc, from));
    let note = given!(read_note(alloc, from); place);
    Ok(Entry { place, note })
}

fn enter(log: &mut Log, entry: Entry)
    requires { (length log.old == most_entries) ≡ false }
    ensures { log.new ≡ log.old ++ entry ∷ [] }
{
    let Entry { place, note } = entry;
    log.push(place, note);
}

// No log has more than eight entries.
pub(crate) fn read_log(alloc: Global, from: &mut Cursor<'_>) -> Result<Log, ReadErr>
    ensures { Reads log_bytes IsLog from.old from.new result }
{
    let count = given!(from.four());
    if count as usize > MOST_ENTRIES {
        return Err(ReadErr::Foreign);
    }
    let mut log = Blank::new(alloc)?.log();
    for _turn in 0..count {
        let entry = given!(read_entry(alloc, from); log);
        enter(&mut log, entry);
    }
    Ok(log)
}
