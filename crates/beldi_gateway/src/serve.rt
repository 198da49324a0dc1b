// One exchange over the open connection.
ghost use Rattle.std.specs.Prelude.{◌≡◌, ◌≤◌, length, Ok, Err};
ghost use Rattle.beldi_outside.specs.Outside.{Rose};
ghost use Rattle.beldi_gateway.specs.Serve.{AnswersTo, Asked, BodyComes, Exchanged, FillsPlan, Replies, Serves};
ghost use Rattle.beldi_gateway.specs.Exchange.{with_body};
ghost use Rattle.beldi_gateway.specs.Scan.{scan_on, start};
ghost use Rattle.beldi_gateway.specs.declared.gather.Stop.TheVariants.{Fault as LinkFault};
ghost use Rattle.beldi_gateway.specs.declared.serve.Served.TheVariants.{Fault};

use crate::ask::ask;
use crate::desk::Desk;
use crate::gather::{Stop, fill, gather};
use crate::plan::{Want, plan_of};
use crate::response::{Refusal, Response};
use crate::scan::Scan;
use crate::send::send;
use beldi_outside::Link;
use beldi_value::{OutOfMemory, cut_at};
use std::alloc::Global;

/// How an exchange ended.
#[derive(Clone, Copy, Debug, PartialEq, Eq)]
pub enum Served {
    /// A response with this status was written, whole.
    Status(u16),
    /// The connection ended before any byte.
    Silent,
    /// The link failed, and its count of faults has risen. A front of a response may have been written.
    Fault,
}

// The bytes of the body, behind those that came with the head.
fn take_body<N: Link>(
    alloc: Global,
    link: &mut N,
    rest: &[u8],
    size: usize,
) -> Result<Vec<u8>, Stop>
    ensures comes { BodyComes (λ v. v.items) (N.seen link.old) (N.seen link.new) rest.now size result }
    ensures later { N.faults link.old ≤ N.faults link.new }
    ensures refusals { N.refusals link.old ≤ N.refusals link.new }
    ensures cause { result ≡ Err LinkFault → Rose (N.faults link.old) (N.faults link.new) }
{
    let Ok(mut body) = Vec::from_slice(alloc, rest) else {
        return Err(Stop::OutOfMemory);
    };
    match fill(link, &mut body, size) {
        Ok(()) => Ok(body),
        Err(stop) => Err(stop),
    }
}

// The response to a request with these bytes behind its head.
fn ask_with<D: Desk>(
    alloc: Global,
    desk: &mut D,
    want: Want,
    path: &[u8],
    body: &[u8],
) -> Result<Response, OutOfMemory>
    ensures { Asked D.keeps (with_body (D.funcs desk.old) want path.now body.now) desk.old result desk.new }
{
    let size = want.size as usize;
    if body.len() < size {
        return Ok(Response::Refused(Refusal::Cut));
    }
    ask(alloc, desk, want.endpoint, path, &body[..size])
}

// The response to what a head wants, once its body came.
#[tactic(auto, using(crate::proofs::Comes::filled))]
fn answer_plan<D: Desk, N: Link>(
    alloc: Global,
    desk: &mut D,
    link: &mut N,
    want: Want,
    path: &[u8],
    rest: &[u8],
) -> Result<Response, Stop>
    ensures fills { FillsPlan (D.funcs desk.old) D.keeps want path.now rest.now desk.old desk.new (N.seen link.old) (N.seen link.new) result }
    ensures later { N.faults link.old ≤ N.faults link.new }
    ensures refusals { N.refusals link.old ≤ N.refusals link.new }
    ensures cause { result ≡ Err LinkFault → Rose (N.faults link.old) (N.faults link.new) }
{
    let body = match take_body(alloc, link, rest, want.size as usize) {
        Ok(body) => body,
        Err(stop) => return Err(stop),
    };
    match ask_with(alloc, desk, want, path, body.as_slice()) {
        Ok(response) => Ok(response),
        Err(_) => Err(Stop::OutOfMemory),
    }
}

// The response to the bytes that were gathered, and those of the body.
fn answer<D: Desk, N: Link>(
    alloc: Global,
    desk: &mut D,
    link: &mut N,
    scan: Scan,
    bytes: &[u8],
) -> Result<Response, Stop>
    requires scanned { scan ≡ scan_on start bytes.now }
    requires within { scan.size ≤ length bytes.now }
    requires short { length bytes.now ≤ 16384 }
    ensures answers { AnswersTo (D.funcs desk.old) D.keeps scan bytes.now desk.old desk.new (N.seen link.old) (N.seen link.new) result }
    ensures later { N.faults link.old ≤ N.faults link.new }
    ensures refusals { N.refusals link.old ≤ N.refusals link.new }
    ensures cause { result ≡ Err LinkFault → Rose (N.faults link.old) (N.faults link.new) }
{
    match plan_of(alloc, scan, bytes) {
        Err(_) => Err(Stop::OutOfMemory),
        Ok(Err(refusal)) => Ok(Response::Refused(refusal)),
        Ok(Ok(plan)) => {
            let (head, rest) = bytes.split_at(scan.size as usize);
            let path = cut_at(plan.target.of(head), b'?').0;
            answer_plan(alloc, desk, link, plan.want, path, rest)
        }
    }
}

// Writes a response, and tells its status.
fn reply<N: Link>(alloc: Global, link: &mut N, response: &Response) -> Result<u16, Stop>
    ensures replies { Replies response.now (N.seen link.old) (N.seen link.new) result }
    ensures later { N.faults link.old ≤ N.faults link.new }
    ensures refusals { N.refusals link.old ≤ N.refusals link.new }
    ensures cause { result ≡ Err LinkFault → Rose (N.faults link.old) (N.faults link.new) }
{
    let Ok(text) = response.text(alloc) else {
        return Err(Stop::OutOfMemory);
    };
    match send(link, text.as_bytes()) {
        Ok(()) => Ok(response.status()),
        Err(stop) => Err(stop),
    }
}

// One exchange: the status of the response that was written, or none where the connection ended before any byte.
fn exchange<D: Desk, N: Link>(
    alloc: Global,
    desk: &mut D,
    link: &mut N,
) -> Result<Option<u16>, Stop>
    ensures exchanges { Exchanged (D.funcs desk.old) D.keeps desk.old desk.new (N.seen link.old) (N.seen link.new) result }
    ensures later { N.faults link.old ≤ N.faults link.new }
    ensures refusals { N.refusals link.old ≤ N.refusals link.new }
    ensures cause { result ≡ Err LinkFault → Rose (N.faults link.old) (N.faults link.new) }
{
    let mut bytes = Vec::new(alloc);
    let scan = match gather(link, &mut bytes) {
        Ok(scan) => scan,
        Err(stop) => return Err(stop),
    };
    if bytes.is_empty() {
        return Ok(None);
    }
    let response = match answer(alloc, desk, link, scan, bytes.as_slice()) {
        Ok(response) => response,
        Err(stop) => return Err(stop),
    };
    let replied = reply(alloc, link, &response);
    drop(response);
    drop(bytes);
    match replied {
        Ok(status) => Ok(Some(status)),
        Err(stop) => Err(stop),
    }
}

/// Serves one request on the open connection: its response is written once the desk has answered, and the connection
/// stays open. `OutOfMemory`: a front of a response may have been written.
pub fn serve_one<D: Desk, N: Link>(
    alloc: Global,
    desk: &mut D,
    link: &mut N,
) -> Result<Served, OutOfMemory>
    ensures serves { Serves (D.funcs desk.old) D.keeps desk.old desk.new (N.seen link.old) (N.seen link.new) result }
    ensures later { N.faults link.old ≤ N.faults link.new }
    ensures refusals { N.refusals link.old ≤ N.refusals link.new }
    ensures cause { result ≡ Ok Fault → Rose (N.faults link.old) (N.faults link.new) }
{
    match exchange(alloc, desk, link) {
        Ok(Some(status)) => Ok(Served::Status(status)),
        Ok(None) => Ok(Served::Silent),
        Err(Stop::Fault) => Ok(Served::Fault),
        Err(Stop::OutOfMemory) => Err(OutOfMemory),
    }
}
