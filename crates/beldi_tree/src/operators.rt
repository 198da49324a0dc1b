// What the operators do with values.
ghost use Rattle.std.specs.Prelude.{◌≡◌, pos, ◌+ℤ◌, ◌-ℤ◌, ◌*ℤ◌, neg_ℤ, Ok, Err, IfOk, IfSome, MatchResult, option_copied};
ghost use Rattle.beldi_value.specs.Value.{datum_of};
ghost use Rattle.beldi_value.specs.Json.{text_of as text_of_datum};
ghost use Rattle.beldi_value.specs.declared.value.Value.TheVariants as kind;
ghost use Rattle.beldi_tree.specs.Evaluate.{truth as truth_of, settled as settled_of, int as int_of, text as text_of, items as items_of, fields as fields_of, limited as limited_of, whole, quotient as quotient_of, remainder as remainder_of, ints, joined as joined_of, compared as compared_of, operate as operate_of, opposite as opposite_of, negated as negated_of, field_of, element_of, length_of, pushed as pushed_of, with_field as with_field_of, or_null, key_of, Evaluates};

use crate::deployment::Op;
use crate::fault::EvalErr;
use beldi_value::{Code, Rec, Rel, Str, TextBuf, Value, Values, or_drop};
use std::alloc::{AllocError, Global};

const MOST_KEY: usize = 256;

// Values are within the limits of what is stored.
pub(crate) fn limited(value: Value) -> Result<Value, Code>
    ensures { result ≡ limited_of value }
{
    if value.is_within() {
        Ok(value)
    } else {
        drop(value);
        Err(Code::ValueTooLarge)
    }
}

// A value, or the fault that it is none.
pub(crate) fn or_fault(found: Result<Value, Code>) -> Result<Value, EvalErr>
    ensures { Evaluates found result }
{
    Ok(found?)
}

/// The truth that a value is; the fault `WrongType` where it is none.
pub fn truth(value: &Value) -> Result<bool, Code>
    ensures { result ≡ truth_of value.now }
{
    match value {
        Value::Bool(truth) => Ok(*truth),
        _ => Err(Code::WrongType),
    }
}

// A value that has to be a truth.
pub(crate) fn settled(value: &Value) -> Result<Value, Code>
    ensures { result ≡ settled_of value.now }
{
    Ok(Value::Bool(truth(value)?))
}

fn int(value: &Value) -> Result<i64, Code>
    ensures { result ≡ int_of value.now }
{
    match value {
        Value::Int(number) => Ok(*number),
        _ => Err(Code::WrongType),
    }
}

// The number that a value is, within the limits of what is stored.
pub(crate) fn number_within(value: &Value) -> Option<i64>
    ensures { IfSome result (λ z. limited_of value.now ≡ Ok (kind.Int z)) }
{
    match value {
        Value::Int(number) if value.is_within() => Some(*number),
        _ => None,
    }
}

fn text(value: &Value) -> Result<&Str, Code>
    ensures { MatchResult result (λ s. text_of value.entry.now ≡ Ok s.now) (λ c. text_of value.entry.now ≡ Err c) }
{
    match value {
        Value::Text(text) => Ok(text),
        _ => Err(Code::WrongType),
    }
}

// A copy of the text that a value is.
fn text_copy(alloc: Global, value: &Value) -> Result<Str, EvalErr>
    ensures { Evaluates (text_of value.now) result }
{
    Ok(text(value)?.copy(alloc)?)
}

fn items(value: Value) -> Result<Values, Code>
    ensures { result ≡ items_of value }
{
    match value {
        Value::List(items) => Ok(items),
        _ => Err(Code::WrongType),
    }
}

fn fields(value: Value) -> Result<Rec, Code>
    ensures { result ≡ fields_of value }
{
    match value {
        Value::Rec(fields) => Ok(fields),
        _ => Err(Code::WrongType),
    }
}

fn sum(m: i64, n: i64) -> Result<Value, Code>
    ensures { result ≡ whole (m +ℤ n) }
{
    match m.checked_add(n) {
        Some(number) => Ok(Value::Int(number)),
        None => Err(Code::Overflow),
    }
}

fn difference(m: i64, n: i64) -> Result<Value, Code>
    ensures { result ≡ whole (m -ℤ n) }
{
    match m.checked_sub(n) {
        Some(number) => Ok(Value::Int(number)),
        None => Err(Code::Overflow),
    }
}

fn product(m: i64, n: i64) -> Result<Value, Code>
    ensures { result ≡ whole (m *ℤ n) }
{
    match m.checked_mul(n) {
        Some(number) => Ok(Value::Int(number)),
        None => Err(Code::Overflow),
    }
}

// Cut towards zero.
fn quotient(m: i64, n: i64) -> Result<Value, Code>
    ensures { result ≡ quotient_of m n }
{
    if n == 0 {
        return Err(Code::DivideByZero);
    }
    match m.checked_div(n) {
        Some(number) => Ok(Value::Int(number)),
        None => Err(Code::Overflow),
    }
}

// With the sign of the left side.
fn remainder(m: i64, n: i64) -> Result<Value, Code>
    ensures { result ≡ remainder_of m n }
{
    if n == 0 {
        return Err(Code::DivideByZero);
    }
    match m.checked_rem(n) {
        Some(number) => Ok(Value::Int(number)),
        None => Err(Code::Overflow),
    }
}

fn joined(alloc: Global, left: &Value, right: &Value) -> Result<Value, EvalErr>
    ensures { Evaluates (joined_of left.now right.now) result }
{
    let front = text(left)?;
    let rest = text(right)?;
    let mut all = TextBuf::from_text(alloc, front.as_str())?;
    or_drop!(all.push_text(rest.as_str()); all);
    Ok(Value::Text(all.into_str()?))
}

// Whether the left side stands so to the right side.
pub(crate) fn compared(rel: Rel, left: &Value, right: &Value) -> Result<Value, Code>
    ensures { result ≡ compared_of rel left.now right.now }
{
    match rel {
        Rel::Eq => Ok(Value::Bool(*left == *right)),
        Rel::Ne => Ok(Value::Bool(!(*left == *right))),
        _ => match left.order(right) {
            Some(order) => Ok(Value::Bool(rel.meets(order))),
            None => Err(Code::WrongType),
        },
    }
}

// What an operator makes of two numbers.
pub(crate) fn number(op: Op, m: i64, n: i64) -> Result<Value, Code>
    ensures { result ≡ operate_of op (kind.Int m) (kind.Int n) }
{
    match op {
        Op::Add => sum(m, n),
        Op::Sub => difference(m, n),
        Op::Join => Err(Code::WrongType),
        Op::Mul => product(m, n),
        Op::Div => quotient(m, n),
        Op::Rem => remainder(m, n),
    }
}

// What an operator makes of the values of both sides.
pub(crate) fn operate(alloc: Global, op: Op, left: &Value, right: &Value) -> Result<Value, EvalErr>
    ensures { Evaluates (operate_of op left.now right.now) result }
{
    match op {
        Op::Join => joined(alloc, left, right),
        _ => or_fault(number(op, int(left)?, int(right)?)),
    }
}

pub(crate) fn opposite(value: &Value) -> Result<Value, Code>
    ensures { result ≡ opposite_of value.now }
{
    Ok(Value::Bool(!truth(value)?))
}

pub(crate) fn negated(value: &Value) -> Result<Value, Code>
    ensures { result ≡ negated_of value.now }
{
    match int(value)?.checked_neg() {
        Some(number) => Ok(Value::Int(number)),
        None => Err(Code::Overflow),
    }
}

// What is not there is null.
pub(crate) fn copy_or_null(alloc: Global, found: Option<&Value>) -> Result<Value, AllocError>
    ensures { IfOk result (λ v. v ≡ or_null (option_copied found.entry)) }
{
    match found {
        Some(value) => value.copy(alloc),
        None => Ok(Value::Null),
    }
}

pub(crate) fn field(alloc: Global, value: &Value, key: &Str) -> Result<Value, EvalErr>
    ensures { Evaluates (field_of key.now value.now) result }
{
    match value {
        Value::Rec(fields) => Ok(copy_or_null(alloc, fields.get(key))?),
        _ => Err(EvalErr::Fault(Code::WrongType)),
    }
}

pub(crate) fn element(alloc: Global, value: &Value, index: &Value) -> Result<Value, EvalErr>
    ensures { Evaluates (element_of value.now index.now) result }
{
    match (value, index) {
        (Value::List(items), Value::Int(index)) => Ok(copy_or_null(alloc, items.at(*index))?),
        _ => Err(EvalErr::Fault(Code::WrongType)),
    }
}

fn count(len: usize) -> Result<Value, Code>
    ensures { result ≡ whole (pos len) }
{
    match i64::try_from(len) {
        Ok(number) => Ok(Value::Int(number)),
        Err(_) => Err(Code::Overflow),
    }
}

// How many bytes a text has, or how many elements a list.
pub(crate) fn length(value: &Value) -> Result<Value, Code>
    ensures { result ≡ length_of value.now }
{
    match value {
        Value::Text(text) => count(text.len()),
        Value::List(items) => count(items.len()),
        _ => Err(Code::WrongType),
    }
}

// The canonical text.
pub(crate) fn canonical(alloc: Global, value: &Value) -> Result<Value, AllocError>
    ensures { IfOk result (λ v. v ≡ kind.Text (text_of_datum (datum_of value.now))) }
{
    let mut text = TextBuf::new(alloc);
    or_drop!(value.write_json(alloc, &mut text); text);
    Ok(Value::Text(text.into_str()?))
}

pub(crate) fn pushed(alloc: Global, list: Value, item: Value) -> Result<Value, EvalErr>
    ensures { Evaluates (pushed_of list item) result }
{
    let mut items = or_drop!(items(list); item);
    or_drop!(items.push(alloc, item); items);
    Ok(Value::List(items))
}

pub(crate) fn with_field(
    alloc: Global,
    whole: Value,
    key: &Value,
    value: Value,
) -> Result<Value, EvalErr>
    ensures { Evaluates (with_field_of whole key.now value) result }
{
    let mut fields = or_drop!(fields(whole); value);
    let key = or_drop!(text_copy(alloc, key); fields, value);
    or_drop!(fields.set(alloc, key, value); fields);
    Ok(Value::Rec(fields))
}

// A key is a text of at most 256 bytes.
pub(crate) fn key(alloc: Global, value: &Value) -> Result<Str, EvalErr>
    ensures { Evaluates (key_of value.now) result }
{
    text_key(alloc, text(value)?)
}

// The key that a text is.
pub(crate) fn text_key(alloc: Global, key: &Str) -> Result<Str, EvalErr>
    ensures { Evaluates (key_of (kind.Text key.now)) result }
{
    if key.len() <= MOST_KEY {
        Ok(key.copy(alloc)?)
    } else {
        Err(EvalErr::Fault(Code::ValueTooLarge))
    }
}
