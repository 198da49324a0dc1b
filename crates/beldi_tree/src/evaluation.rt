// The value of an expression.
ghost use Rattle.std.specs.Prelude.{◌≡◌, [], Ok, IfSome};
ghost use Rattle.beldi_value.specs.declared.value.Value.TheVariants as kind;
ghost use Rattle.beldi_tree.specs.Evaluate.{term_value, value_at, key_at as key_of_expr, items_value, fields_value, on_two, compared as compared_of, operate as operate_of, pushed as pushed_of, with_field as with_field_of, either as either_of, both as both_of, settled as settled_of, limited as limited_of, element_of, on_three, and_then, Evaluates};
ghost use Rattle.beldi_tree.specs.CowValue.{cow_value, Finds};
ghost use Rattle.beldi_tree.specs.OperatorSteps.{plain_step, stepped};
ghost use Rattle.beldi_tree.specs.Term.{items_of, members_of};

use crate::cow::{CowValue, lent, lent_element, lent_field, made};
use crate::deployment::{Expr, Op, Step};
use crate::fault::EvalErr;
use crate::operators::{
    canonical, compared, element, field, key, length, limited, negated, number, number_within,
    operate, opposite, or_fault, pushed, settled, text_key, truth, with_field,
};
use crate::parts::{Chain, Exprs, Members};
use crate::variables::Variables;
use beldi_value::{Rec, Rel, Str, Value, Values, or_drop};
use std::alloc::Global;

/// The value of an expression, with these variables.
#[cycle(evaluate)]
pub fn evaluate(alloc: Global, variables: &Variables, expr: &Expr) -> Result<Value, EvalErr>
    ensures { Evaluates (value_at variables.now expr.now) result }
{
    if let Expr::Chain(chain) = expr {
        if let Some((op, left, right)) = numbers(variables, chain) {
            return Ok(limited(number(op, left, right)?)?);
        }
    }
    Ok(evaluated(alloc, variables, expr)?.into_value(alloc)?)
}

// A number that is at hand: no value is made of it.
fn number_at(variables: &Variables, expr: &Expr) -> Option<i64>
    ensures { IfSome result (λ z. value_at variables.now expr.now ≡ Ok (kind.Int z)) }
{
    match expr {
        Expr::Int(number) => number_within(&Value::Int(*number)),
        Expr::Name(name) => match variables.get(name) {
            Some(value) => number_within(value),
            None => None,
        },
        _ => None,
    }
}

// Both sides of the only operator, where they are numbers at hand. So is most of what is set in a loop.
fn numbers(variables: &Variables, chain: &Chain) -> Option<(Op, i64, i64)>
    ensures { IfSome result (λ r. term_value variables.now chain.now ≡ and_then (operate_of r.0 (kind.Int r.1) (kind.Int r.2)) limited_of) }
{
    if !chain.more.is_empty() {
        return None;
    }
    match &*chain.next {
        Step::Binary(op, right) => {
            let left = number_at(variables, &chain.first)?;
            let right = number_at(variables, right)?;
            Some((*op, left, right))
        }
        _ => None,
    }
}

/// The key of a cell: a text of at most 256 bytes.
pub fn key_at(alloc: Global, variables: &Variables, expr: &Expr) -> Result<Str, EvalErr>
    ensures { Evaluates (key_of_expr variables.now expr.now) result }
{
    match expr {
        // Most keys stand in the body: no value is made of them.
        Expr::Text(text) => text_key(alloc, text),
        _ => key(alloc, evaluated(alloc, variables, expr)?.value()),
    }
}

// The value, which is not copied where it stands among the variables.
#[cycle(evaluate)]
fn evaluated<'a>(
    alloc: Global,
    variables: &'a Variables,
    expr: &Expr,
) -> Result<CowValue<'a>, EvalErr>
    ensures { Finds (value_at variables.now expr.now) result }
{
    match expr {
        Expr::Int(number) => made(Value::Int(*number)),
        Expr::Text(text) => made(Value::Text(text.copy(alloc)?)),
        Expr::Bool(truth) => made(Value::Bool(*truth)),
        Expr::Null => made(Value::Null),
        Expr::Name(name) => lent(variables.get(name)),
        Expr::List(items) => made(Value::List(list(alloc, variables, items)?)),
        Expr::Record(members) => made(Value::Rec(record(alloc, variables, members)?)),
        Expr::Chain(chain) => walk(alloc, variables, chain),
    }
}

// The value at the end of a chain.
#[cycle(evaluate)]
fn walk<'a>(alloc: Global, variables: &'a Variables, chain: &Chain) -> Result<CowValue<'a>, EvalErr>
    ensures { Finds (term_value variables.now chain.now) result }
{
    let first = evaluated(alloc, variables, &chain.first)?;
    let mut value = advance(alloc, variables, first, &chain.next)?;
    for step in &chain.more {
        value = match advance(alloc, variables, value, step) {
            Ok(value) => value,
            Err(why) => return Err(why),
        };
    }
    Ok(value)
}

// The value after one step. A part of what stands among the variables is not copied.
#[cycle(evaluate)]
fn advance<'a>(
    alloc: Global,
    variables: &'a Variables,
    value: CowValue<'a>,
    step: &Step,
) -> Result<CowValue<'a>, EvalErr>
    ensures { Finds (stepped variables.now (cow_value value.entry) step.now) result }
{
    // the most common step, before what the others need
    if let Step::Binary(op, right) = step {
        let result = binary(alloc, variables, *op, value.value(), right);
        drop(value);
        return made(result?);
    }
    match value {
        CowValue::Lent(whole) => of_lent(alloc, variables, whole, step),
        CowValue::Made(whole) => made(of_made(alloc, variables, whole, step)?),
    }
}

// The value after one step from what stands among the variables.
#[cycle(evaluate)]
fn of_lent<'a>(
    alloc: Global,
    variables: &'a Variables,
    whole: &'a Value,
    step: &Step,
) -> Result<CowValue<'a>, EvalErr>
    ensures { Finds (stepped variables.now whole.entry.now step.now) result }
{
    match step {
        Step::Field(key) => lent_field(whole, key),
        Step::Element(index) => lent_at(alloc, variables, whole, index),
        _ => made(apply(alloc, variables, whole, step)?),
    }
}

// What a step makes of a value that was made, before its size is looked at.
#[cycle(evaluate)]
fn of_made(
    alloc: Global,
    variables: &Variables,
    whole: Value,
    step: &Step,
) -> Result<Value, EvalErr>
    ensures { Evaluates (plain_step variables.now whole step.now) result }
{
    match step {
        Step::Push(item) => push(alloc, variables, whole, item),
        Step::With(key, field) => with(alloc, variables, whole, key, field),
        _ => {
            let result = apply(alloc, variables, &whole, step);
            drop(whole);
            result
        }
    }
}

// What a step makes of a value that is only read, before its size is looked at.
#[cycle(evaluate)]
fn apply(alloc: Global, variables: &Variables, value: &Value, step: &Step) -> Result<Value, EvalErr>
    ensures { Evaluates (plain_step variables.now value.now step.now) result }
{
    match step {
        Step::Or(right) => either(alloc, variables, value, right),
        Step::And(right) => both(alloc, variables, value, right),
        Step::Not => or_fault(opposite(value)),
        Step::Negate => or_fault(negated(value)),
        Step::Compare(rel, right) => comparison(alloc, variables, *rel, value, right),
        Step::Binary(op, right) => binary(alloc, variables, *op, value, right),
        Step::Field(key) => field(alloc, value, key),
        Step::Element(index) => at(alloc, variables, value, index),
        Step::Len => or_fault(length(value)),
        Step::TextOf => Ok(canonical(alloc, value)?),
        Step::Push(item) => push(alloc, variables, value.copy(alloc)?, item),
        Step::With(key, field) => with(alloc, variables, value.copy(alloc)?, key, field),
    }
}

// What an operator makes of both sides.
#[cycle(evaluate)]
fn binary(
    alloc: Global,
    variables: &Variables,
    op: Op,
    left: &Value,
    right: &Expr,
) -> Result<Value, EvalErr>
    ensures { Evaluates (on_two (operate_of op) (Ok left.now) (value_at variables.now right.now)) result }
{
    let right = evaluated(alloc, variables, right)?;
    let result = operate(alloc, op, left, right.value());
    drop(right);
    result
}

// The element of a list at the index that an expression is.
#[cycle(evaluate)]
fn at(alloc: Global, variables: &Variables, list: &Value, index: &Expr) -> Result<Value, EvalErr>
    ensures { Evaluates (on_two element_of (Ok list.now) (value_at variables.now index.now)) result }
{
    let index = evaluated(alloc, variables, index)?;
    let result = element(alloc, list, index.value());
    drop(index);
    result
}

// The same of a list that stands among the variables.
#[cycle(evaluate)]
fn lent_at<'a>(
    alloc: Global,
    variables: &Variables,
    list: &'a Value,
    index: &Expr,
) -> Result<CowValue<'a>, EvalErr>
    ensures { Finds (and_then (on_two element_of (Ok list.entry.now) (value_at variables.now index.now)) limited_of) result }
{
    let index = evaluated(alloc, variables, index)?;
    let result = lent_element(list, index.value());
    drop(index);
    result
}

// Whether both sides stand so to each other.
#[cycle(evaluate)]
fn comparison(
    alloc: Global,
    variables: &Variables,
    rel: Rel,
    left: &Value,
    right: &Expr,
) -> Result<Value, EvalErr>
    ensures { Evaluates (on_two (compared_of rel) (Ok left.now) (value_at variables.now right.now)) result }
{
    let right = evaluated(alloc, variables, right)?;
    let result = compared(rel, left, right.value());
    drop(right);
    or_fault(result)
}

// The value of an expression that has to be a truth.
#[cycle(evaluate)]
fn settled_at(alloc: Global, variables: &Variables, expr: &Expr) -> Result<Value, EvalErr>
    ensures { Evaluates (and_then (value_at variables.now expr.now) settled_of) result }
{
    let value = evaluated(alloc, variables, expr)?;
    let result = settled(value.value());
    drop(value);
    or_fault(result)
}

// The left side where it is true, and otherwise the right side.
#[cycle(evaluate)]
fn either(
    alloc: Global,
    variables: &Variables,
    left: &Value,
    right: &Expr,
) -> Result<Value, EvalErr>
    ensures { Evaluates (either_of (Ok left.now) (value_at variables.now right.now)) result }
{
    if truth(left)? {
        return Ok(Value::Bool(true));
    }
    settled_at(alloc, variables, right)
}

// The left side where it is false, and otherwise the right side.
#[cycle(evaluate)]
fn both(alloc: Global, variables: &Variables, left: &Value, right: &Expr) -> Result<Value, EvalErr>
    ensures { Evaluates (both_of (Ok left.now) (value_at variables.now right.now)) result }
{
    if !truth(left)? {
        return Ok(Value::Bool(false));
    }
    settled_at(alloc, variables, right)
}

// The list with the value of this item appended.
#[cycle(evaluate)]
fn push(alloc: Global, variables: &Variables, list: Value, item: &Expr) -> Result<Value, EvalErr>
    ensures { Evaluates (on_two pushed_of (Ok list) (value_at variables.now item.now)) result }
{
    let item = or_drop!(evaluate(alloc, variables, item); list);
    pushed(alloc, list, item)
}

// The record, where the field of this key has this value.
#[cycle(evaluate)]
fn with(
    alloc: Global,
    variables: &Variables,
    whole: Value,
    key: &Expr,
    value: &Expr,
) -> Result<Value, EvalErr>
    ensures { Evaluates (on_three with_field_of (Ok whole) (value_at variables.now key.now) (value_at variables.now value.now)) result }
{
    let key = or_drop!(evaluated(alloc, variables, key); whole);
    let value = or_drop!(evaluate(alloc, variables, value); whole, key);
    let result = with_field(alloc, whole, key.value(), value);
    drop(key);
    result
}

#[cycle(evaluate)]
fn list(alloc: Global, variables: &Variables, exprs: &Exprs) -> Result<Values, EvalErr>
    ensures { Evaluates (items_value variables.now (items_of exprs.now)) result }
{
    let mut items = Values::new(alloc)?;
    for expr in &exprs.items {
        let value = or_drop!(evaluate(alloc, variables, expr); items);
        or_drop!(items.push(alloc, value); items);
    }
    Ok(items)
}

#[cycle(evaluate)]
fn record(alloc: Global, variables: &Variables, members: &Members) -> Result<Rec, EvalErr>
    ensures { Evaluates (fields_value variables.now [] (members_of members.now)) result }
{
    let mut fields = Rec::new(alloc)?;
    for member in &members.items {
        let value = or_drop!(evaluate(alloc, variables, &member.1); fields);
        let key = or_drop!(member.0.copy(alloc); fields, value);
        or_drop!(fields.set(alloc, key, value); fields);
    }
    Ok(fields)
}
