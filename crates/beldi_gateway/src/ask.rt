// The question that a request leads to, and what the desk says.
ghost use Rattle.std.specs.Prelude.{◌≡◌, drop, option_map, IfOk};
ghost use Rattle.beldi_gateway.specs.Exchange.{args_at, question_of, ticket_at};
ghost use Rattle.beldi_gateway.specs.Route.{function_part, ticket_part};
ghost use Rattle.beldi_gateway.specs.Serve.{Asked};
ghost use Rattle.beldi_gateway.specs.declared.route.Endpoint.TheVariants.{Call};
ghost use Rattle.beldi_value.specs.Value.{datum_of};

use crate::desk::Desk;
use crate::response::{Refusal, Response};
use crate::route::Endpoint;
use beldi_value::{OutOfMemory, Value, ValueErr, cut_at, read_numeral};
use std::alloc::Global;

// A ticket that a part of a path is.
fn read_ticket(part: &[u8]) -> Option<u32>
    ensures { result ≡ ticket_at part.now }
{
    match read_numeral(part, u32::MAX as u64) {
        Some(number) => Some(number as u32),
        None => None,
    }
}

// What stands behind the first `count` bytes.
fn behind(path: &[u8], count: usize) -> &[u8]
    ensures { result.now ≡ drop count path.now }
{
    match path.get(count..) {
        Some(rest) => rest,
        None => &[],
    }
}

fn function_of(path: &[u8]) -> &[u8]
    ensures { result.now ≡ function_part path.now }
{
    cut_at(behind(path, 6), b'/').0
}

fn call_ticket(path: &[u8]) -> &[u8]
    ensures { result.now ≡ ticket_part Call path.now }
{
    match cut_at(behind(path, 6), b'/').1 {
        Some(rest) => rest,
        None => &[],
    }
}

// The value that a body is: null where there is none.
fn read_args(alloc: Global, body: &[u8]) -> Result<Option<Value>, OutOfMemory>
    ensures { IfOk result (λ v. option_map datum_of v ≡ args_at body.now) }
{
    if body.is_empty() {
        return Ok(Some(Value::Null));
    }
    match Value::read_json(alloc, body) {
        Ok(value) => Ok(Some(value)),
        Err(ValueErr::OutOfMemory) => Err(OutOfMemory),
        Err(_) => Ok(None),
    }
}

fn ask_call<D: Desk>(
    alloc: Global,
    desk: &mut D,
    path: &[u8],
    body: &[u8],
) -> Result<Response, OutOfMemory>
    ensures { Asked D.keeps (question_of (D.funcs desk.old) Call path.now body.now) desk.old result desk.new }
{
    let Some(ticket) = read_ticket(call_ticket(path)) else {
        return Ok(Response::Refused(Refusal::Ticket));
    };
    let Some(func) = desk.func(function_of(path)) else {
        return Ok(Response::Refused(Refusal::Function));
    };
    match read_args(alloc, body)? {
        Some(args) => Ok(Response::Call(desk.call(ticket, func, args))),
        None => Ok(Response::Refused(Refusal::Value)),
    }
}

/// What the desk says to the question of a request, or why none is asked.
pub fn ask<D: Desk>(
    alloc: Global,
    desk: &mut D,
    endpoint: Endpoint,
    path: &[u8],
    body: &[u8],
) -> Result<Response, OutOfMemory>
    ensures { Asked D.keeps (question_of (D.funcs desk.old) endpoint path.now body.now) desk.old result desk.new }
{
    match endpoint {
        Endpoint::Tickets => Ok(Response::Ticket(desk.ticket())),
        Endpoint::Call => ask_call(alloc, desk, path, body),
        Endpoint::Reply => match read_ticket(behind(path, 7)) {
            Some(ticket) => Ok(Response::Call(desk.reply(ticket))),
            None => Ok(Response::Refused(Refusal::Ticket)),
        },
    }
}
