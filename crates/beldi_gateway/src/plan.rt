// What a head asks for.
ghost use Rattle.std.specs.Prelude.{◌≡◌, ◌≤◌, length, bytes_eq, IfOk};
ghost use Rattle.beldi_gateway.specs.Exchange.{HeadAt, PlanAt, PlansHead, size_of, want_at, wanted};
ghost use Rattle.beldi_gateway.specs.Route.{method_of};

use crate::framing::{Framing, Length, framing_of};
use crate::response::Refusal;
use crate::route::{Endpoint, endpoint_of};
use crate::scan::Scan;
use beldi_value::{OutOfMemory, cut_at};
use http::Method;
use httparse::Status;
use httparse::spans::{EMPTY_HEADER_SPAN, Span, parse_request};
use std::alloc::Global;

/// Lines of a head that are not empty, at most.
const MAX_LINES: u64 = 65;
/// Bytes of a body, at most.
const MAX_BODY: u64 = 65_536;

/// Where the parts of a head are, and what it says of the body.
#[derive(Clone, Copy)]
pub struct Parts {
    pub method: Span,
    pub target: Span,
    pub framing: Framing,
}

/// What a request is for, and how long its body is.
#[derive(Clone, Copy)]
pub struct Want {
    pub endpoint: Endpoint,
    pub size: u64,
}

/// What a head wants, and where its target is.
#[derive(Clone, Copy)]
pub struct Plan {
    pub want: Want,
    pub target: Span,
}

// The parts of bytes that are, whole, a head with at most 64 fields.
fn head_of(head: &[u8]) -> Option<Parts>
    ensures { HeadAt head.now result }
{
    let mut spans = [EMPTY_HEADER_SPAN; 64];
    match parse_request(head, &mut spans) {
        Ok(Status::Complete(found)) => {
            if found.len != head.len() {
                return None;
            }
            Some(Parts {
                method: found.method,
                target: found.path,
                framing: framing_of(head, &spans[..found.headers]),
            })
        }
        _ => None,
    }
}

// How long the body is, where its length is known and not too large.
fn size_of(framing: Framing) -> Result<u64, Refusal>
    ensures { result ≡ size_of framing }
{
    if framing.coded {
        return Err(Refusal::Coding);
    }
    match framing.length {
        Length::Absent => Ok(0),
        Length::Bad => Err(Refusal::Length),
        Length::Given(size) => {
            if size > MAX_BODY {
                return Err(Refusal::Size);
            }
            Ok(size)
        }
    }
}

// The method of the endpoint, as `http` has it.
fn is_method(method: &[u8], endpoint: Endpoint) -> bool
    ensures { result ≡ bytes_eq method.now (method_of endpoint) }
{
    let wanted = match endpoint {
        Endpoint::Reply => Method::GET,
        _ => Method::POST,
    };
    method == wanted.as_str().as_bytes()
}

fn want_at(endpoint: Endpoint, method: &[u8], framing: Framing) -> Result<Want, Refusal>
    ensures { result ≡ want_at endpoint method.now framing }
{
    if !is_method(method, endpoint) {
        return Err(Refusal::Method(endpoint));
    }
    match size_of(framing) {
        Ok(size) => Ok(Want { endpoint, size }),
        Err(refusal) => Err(refusal),
    }
}

// What a request with these parts wants.
fn want_of(
    alloc: Global,
    method: &[u8],
    target: &[u8],
    framing: Framing,
) -> Result<Result<Want, Refusal>, OutOfMemory>
    ensures { IfOk result (λ w. w ≡ wanted method.now target.now framing) }
{
    match endpoint_of(alloc, cut_at(target, b'?').0)? {
        None => Ok(Err(Refusal::Path)),
        Some(endpoint) => Ok(want_at(endpoint, method, framing)),
    }
}

/// What these bytes, which end a head, want.
fn plan_head(alloc: Global, head: &[u8]) -> Result<Result<Plan, Refusal>, OutOfMemory>
    ensures { IfOk result (PlansHead head.now) }
{
    let Some(parts) = head_of(head) else {
        return Ok(Err(Refusal::Head));
    };
    let (method, target) = (parts.method.of(head), parts.target.of(head));
    match want_of(alloc, method, target, parts.framing)? {
        Ok(want) => Ok(Ok(Plan {
            want,
            target: parts.target,
        })),
        Err(refusal) => Ok(Err(refusal)),
    }
}

/// What the bytes that were gathered want: the head is over, or no more bytes of it are read.
pub fn plan_of(
    alloc: Global,
    scan: Scan,
    bytes: &[u8],
) -> Result<Result<Plan, Refusal>, OutOfMemory>
    requires within { scan.size ≤ length bytes.now }
    ensures { IfOk result (PlanAt scan bytes.now) }
{
    if !scan.over {
        return match bytes.len() {
            0..16_384 => Ok(Err(Refusal::Cut)),
            _ => Ok(Err(Refusal::HeadSize)),
        };
    }
    if scan.lines > MAX_LINES {
        return Ok(Err(Refusal::HeadSize));
    }
    plan_head(alloc, &bytes[..scan.size as usize])
}
