// Values that need no copy.
ghost use Rattle.std.specs.Prelude.{◌≡◌, Ok, IfOk, option_copied};
ghost use Rattle.beldi_tree.specs.Evaluate.{limited as limited_of, field_of, element_of, or_null, and_then};
ghost use Rattle.beldi_tree.specs.CowValue.{cow_value, Finds};

use crate::fault::EvalErr;
use beldi_value::{Code, Str, Value};
use std::alloc::{AllocError, Global};

/// The value of an expression.
#[derive(Drop)]
pub(crate) enum CowValue<'a> {
    /// It stands among the variables.
    Lent(&'a Value),
    Made(Value),
}

impl CowValue<'_> {
    pub(crate) fn value(&self) -> &Value
        ensures { result.now ≡ cow_value self.now }
    {
        match self {
            CowValue::Lent(value) => value,
            CowValue::Made(value) => value,
        }
    }

    pub(crate) fn into_value(self, alloc: Global) -> Result<Value, AllocError>
        ensures { IfOk result (λ v. v ≡ cow_value self.entry) }
    {
        match self {
            CowValue::Lent(value) => value.copy(alloc),
            CowValue::Made(value) => Ok(value),
        }
    }
}

// The value, within the limits of what is stored.
#[inline(always)]
fn limited(seen: CowValue<'_>) -> Result<CowValue<'_>, EvalErr>
    ensures { Finds (limited_of (cow_value seen.entry)) result }
{
    if seen.value().is_within() {
        Ok(seen)
    } else {
        drop(seen);
        Err(EvalErr::Fault(Code::ValueTooLarge))
    }
}

#[inline(always)]
pub(crate) fn made<'a>(value: Value) -> Result<CowValue<'a>, EvalErr>
    ensures { Finds (limited_of value) result }
{
    limited(CowValue::Made(value))
}

/// The value, or null where there is none.
#[inline(always)]
pub(crate) fn lent(found: Option<&Value>) -> Result<CowValue<'_>, EvalErr>
    ensures { Finds (limited_of (or_null (option_copied found.entry))) result }
{
    match found {
        Some(value) => limited(CowValue::Lent(value)),
        None => made(Value::Null),
    }
}

/// A field of a value that stands among the variables.
pub(crate) fn lent_field<'a>(whole: &'a Value, key: &Str) -> Result<CowValue<'a>, EvalErr>
    ensures { Finds (and_then (field_of key.now whole.entry.now) limited_of) result }
{
    match whole {
        Value::Rec(fields) => lent(fields.get(key)),
        _ => Err(EvalErr::Fault(Code::WrongType)),
    }
}

/// An element of a value that stands among the variables.
pub(crate) fn lent_element<'a>(whole: &'a Value, index: &Value) -> Result<CowValue<'a>, EvalErr>
    ensures { Finds (and_then (element_of whole.entry.now index.now) limited_of) result }
{
    match (whole, index) {
        (Value::List(items), Value::Int(index)) => lent(items.at(*index)),
        _ => Err(EvalErr::Fault(Code::WrongType)),
    }
}
