// Writing values.
ghost use Rattle.std.specs.Prelude.{OnOk, IsTrue};
ghost use Rattle.beldi_value.specs.Datum.{list, fields, items_of, fields_of, IsRecord};
ghost use Rattle.beldi_value.specs.Formed.{IsFormed};
ghost use Rattle.beldi_value.specs.Value.{fields_view};
ghost use Rattle.beldi_bytes.specs.Coding.{Adds};
ghost use Rattle.beldi_bytes.specs.RowBytes.{datum_bytes, value_bytes, IsValue};

use crate::number_out::{put_byte, put_count, put_int, put_str, put_truth};
use beldi_value::{Rec, Str, Value, Values};
use std::alloc::AllocError;

#[cycle(put)]
pub(crate) fn put_value(out: &mut Vec<u8>, value: &Value) -> Result<(), AllocError>
    ensures { OnOk result (Adds out.old.items out.new.items (value_bytes value.now) × IsValue value.now) }
{
    match value {
        Value::Null => put_byte(out, 0),
        Value::Bool(is) => {
            put_byte(out, 1)?;
            put_truth(out, *is)
        }
        Value::Int(n) => {
            put_byte(out, 2)?;
            put_int(out, *n)
        }
        Value::Text(text) => {
            put_byte(out, 3)?;
            put_str(out, text)
        }
        Value::List(list) => put_list(out, list),
        Value::Rec(rec) => put_record(out, rec),
    }
}

#[cycle(put)]
fn put_list(out: &mut Vec<u8>, values: &Values) -> Result<(), AllocError>
    ensures { OnOk result (Adds out.old.items out.new.items (datum_bytes (list (items_of values.now))) × IsFormed (list (items_of values.now))) }
{
    put_byte(out, 4)?;
    put_count(out, values.len())?;
    for value in values.as_slice() {
        put_value(out, value)?;
    }
    Ok(())
}

#[cycle(put)]
fn put_record(out: &mut Vec<u8>, rec: &Rec) -> Result<(), AllocError>
    ensures { OnOk result (Adds out.old.items out.new.items (datum_bytes (fields (fields_of rec.now))) × IsFormed (fields (fields_of rec.now))) }
{
    let all = rec.as_slice();
    if !rises(all) {
        return Err(AllocError);
    }
    put_byte(out, 5)?;
    put_count(out, rec.len())?;
    for field in all {
        put_str(out, &field.0)?;
        put_value(out, &field.1)?;
    }
    Ok(())
}

// Whether the keys of fields rise, as those of every record do.
fn rises(fields: &[(Str, Value)]) -> bool
    ensures { IsTrue result → IsRecord (fields_view fields.now) }
{
    for i in 1..fields.len() {
        if !fields[i - 1].0.cmp(&fields[i].0).is_lt() {
            return false;
        }
    }
    true
}
