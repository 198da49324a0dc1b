// Reading values.
ghost use Rattle.std.specs.Prelude.{IsTrue, ◌↔◌};
ghost use Rattle.beldi_value.specs.Datum.{IsRecord};
ghost use Rattle.beldi_bytes.specs.Coding.{Reads};
ghost use Rattle.beldi_bytes.specs.BytesReading.{ReadsValue, ReadsField, counted_items, counted_fields, AreItems, AreFields, IsNext};
ghost use Rattle.beldi_bytes.specs.RowBytes.{int_bytes, IsInt};

use crate::cursor::{Cursor, ReadErr, given};
use beldi_value::{Rec, Str, Value, Values, or_drop};
use std::alloc::Global;

fn read_int(from: &mut Cursor<'_>) -> Result<i64, ReadErr>
    ensures { Reads int_bytes IsInt from.old from.new result }
{
    let is_negative = given!(from.truth());
    let size = given!(from.eight());
    if size > 9_223_372_036_854_775_807 {
        return Err(ReadErr::Foreign);
    }
    let n = size as i64;
    Ok(if is_negative { -n - 1 } else { n })
}

#[cycle(read)]
pub(crate) fn read_value(alloc: Global, from: &mut Cursor<'_>) -> Result<Value, ReadErr>
    ensures { ReadsValue from.old from.new result }
{
    match given!(from.byte()) {
        0 => Ok(Value::Null),
        1 => Ok(Value::Bool(given!(from.truth()))),
        2 => Ok(Value::Int(given!(read_int(from)))),
        3 => Ok(Value::Text(given!(from.text(alloc)))),
        4 => Ok(Value::List(given!(read_list(alloc, from)))),
        5 => Ok(Value::Rec(given!(read_record(alloc, from)))),
        _ => Err(ReadErr::Foreign),
    }
}

#[cycle(read)]
fn read_list(alloc: Global, from: &mut Cursor<'_>) -> Result<Values, ReadErr>
    ensures { Reads counted_items AreItems from.old from.new result }
{
    let count = given!(from.four());
    let mut items = Values::new(alloc)?;
    for _turn in 0..count {
        let item = given!(read_value(alloc, from); items);
        or_drop!(items.push(alloc, item); items);
    }
    Ok(items)
}

#[cycle(read)]
fn read_record(alloc: Global, from: &mut Cursor<'_>) -> Result<Rec, ReadErr>
    ensures { Reads counted_fields AreFields from.old from.new result }
{
    let count = given!(from.four());
    let mut fields = Rec::new(alloc)?;
    for _turn in 0..count {
        given!(read_field(alloc, from, &mut fields); fields)
    }
    Ok(fields)
}

// A field, which is put behind those that were read.
#[cycle(read)]
fn read_field(alloc: Global, from: &mut Cursor<'_>, fields: &mut Rec) -> Result<(), ReadErr>
    requires { IsRecord fields.old }
    ensures { ReadsField fields.old fields.new from.old from.new result }
{
    let key = given!(from.text(alloc));
    if !is_next(fields, &key) {
        drop(key);
        return Err(ReadErr::Foreign);
    }
    let value = given!(read_value(alloc, from); key);
    Ok(fields.set(alloc, key, value)?)
}

// Whether a key is above those of the fields.
fn is_next(fields: &Rec, key: &Str) -> bool
    requires { IsRecord fields.now }
    ensures { IsTrue result ↔ IsNext fields.now key.now }
{
    match fields.as_slice().last() {
        None => true,
        Some(last) => last.0.cmp(key).is_lt(),
    }
}
