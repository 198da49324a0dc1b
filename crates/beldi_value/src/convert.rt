// The value that JSON is.
ghost use Rattle.std.specs.Prelude.{◌≡◌, ◌≤◌};
ghost use Rattle.serde_json.specs.View.{view, items_view as json_items_view, members_view};
ghost use Rattle.serde_json.specs.Data.{depth, items_depth, members_depth};
ghost use Rattle.beldi_value.specs.Convert.{ConvertsValue, ConvertsItems, ConvertsMembers};

use crate::text::Str;
use crate::value::{Rec, Value, Values};
use serde_json::Value as Json;
use serde_json::value::Map;
use std::alloc::{AllocError, AllocFailed, Global};

// Why JSON was made no value.
#[derive(Clone, Copy, Debug, PartialEq, Eq)]
pub enum ConvertErr {
    // No more memory.
    OutOfMemory,
    // A number is no whole number of 64 bits.
    NotInt,
}

impl From<AllocError> for ConvertErr {
    ghost use Rattle.std.specs.Prelude.{◌≡◌};
    ghost use Rattle.beldi_value.specs.declared.convert.ConvertErr.TheVariants.{OutOfMemory};

    ghost from_gives = { λ _ e. e ≡ OutOfMemory };

    fn from(_: AllocError) -> Self {
        ConvertErr::OutOfMemory
    }
}

impl<T: Drop> From<AllocFailed<T>> for ConvertErr {
    ghost use Rattle.std.specs.Prelude.{◌≡◌};
    ghost use Rattle.beldi_value.specs.declared.convert.ConvertErr.TheVariants.{OutOfMemory};

    ghost from_gives = { λ _ e. e ≡ OutOfMemory };

    fn from(_: AllocFailed<T>) -> Self {
        ConvertErr::OutOfMemory
    }
}

// How deep lists and records nest.
#[cycle(depth)]
pub(crate) fn depth_of(json: &Json) -> usize
    requires { depth (view json.now) ≤ 127 }
    ensures { result ≡ depth (view json.now) }
{
    match json {
        Json::Array(list) => depth_of_items(list) + 1,
        Json::Object(members) => depth_of_members(members) + 1,
        _ => 0,
    }
}

#[cycle(depth)]
fn depth_of_items(list: &Vec<Json>) -> usize
    requires { items_depth (json_items_view list.now.items) ≤ 127 }
    ensures { result ≡ items_depth (json_items_view list.now.items) }
{
    let mut deepest = 0;
    for json in list {
        deepest = deepest.max(depth_of(json));
    }
    deepest
}

#[cycle(depth)]
fn depth_of_members(members: &Map<String, Json>) -> usize
    requires { members_depth (members_view members.now.entries) ≤ 127 }
    ensures { result ≡ members_depth (members_view members.now.entries) }
{
    let mut deepest = 0;
    for (_, json) in members.iter() {
        deepest = deepest.max(depth_of(json));
    }
    deepest
}

// The value that JSON is, where its numbers are whole numbers of 64 bits.
#[cycle(convert)]
pub(crate) fn value_from(alloc: Global, json: &Json) -> Result<Value, ConvertErr>
    ensures { ConvertsValue (view json.now) result }
{
    match json {
        Json::Null => Ok(Value::Null),
        Json::Bool(b) => Ok(Value::Bool(*b)),
        Json::Number(n) => match n.as_i64() {
            Some(n) => Ok(Value::Int(n)),
            None => Err(ConvertErr::NotInt),
        },
        Json::String(s) => Ok(Value::Text(Str::from_text(alloc, s.as_str())?)),
        Json::Array(list) => Ok(Value::List(values_from(alloc, list)?)),
        Json::Object(members) => Ok(Value::Rec(rec_from(alloc, members)?)),
    }
}

#[cycle(convert)]
fn values_from(alloc: Global, list: &Vec<Json>) -> Result<Values, ConvertErr>
    ensures { ConvertsItems (json_items_view list.now.items) result }
{
    let mut items = Vec::new(alloc);
    for json in list {
        match value_from(alloc, json) {
            Ok(value) => items.push(value)?,
            Err(why) => return Err(why),
        }
    }
    Ok(Values::from_vec(alloc, items)?)
}

#[cycle(convert)]
fn rec_from(alloc: Global, members: &Map<String, Json>) -> Result<Rec, ConvertErr>
    ensures { ConvertsMembers (members_view members.now.entries) result }
{
    let mut fields = Vec::new(alloc);
    for (key, json) in members.iter() {
        let name = Str::from_text(alloc, key.as_str())?;
        match value_from(alloc, json) {
            Ok(value) => fields.push((name, value))?,
            Err(why) => return Err(why),
        }
    }
    Ok(Rec::from_vec(alloc, fields)?)
}
