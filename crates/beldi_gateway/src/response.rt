// The responses, and their bytes.
ghost use Rattle.std.specs.Prelude.{◌≡◌, IfOk, string_bytes};
ghost use Rattle.beldi_gateway.specs.HttpResponse.{allow_text, body_of, rendered_call, composed, error_text, length_text, outcome_body, phrase_of, rendered_refusal, response_bytes, status_of, status_text, rendered_ticket};
ghost use Rattle.http.specs.StatusCode.{IsStatusCode};

use crate::desk::{CallReply, TicketReply};
use crate::route::Endpoint;
use beldi_value::{OutOfMemory, Outcome, TextBuf};
use http::StatusCode;
use std::alloc::Global;

/// Why a request is refused before the desk is asked.
#[derive(Clone, Copy, Debug, PartialEq, Eq)]
pub enum Refusal {
    /// The head is longer than 16,384 bytes, or has more than 65 lines that are not empty.
    HeadSize,
    /// The connection ended within the head or the body.
    Cut,
    /// What came is no request head with at most 64 fields.
    Head,
    /// No route has the path.
    Path,
    /// The route has another method.
    Method(Endpoint),
    /// There is a Transfer-Encoding field.
    Coding,
    /// There are two Content-Length fields, or one that is not 1 to 19 digits.
    Length,
    /// The body is longer than 65,536 bytes.
    Size,
    /// The ticket is no number that a ticket may be.
    Ticket,
    /// No function has the name.
    Function,
    /// The body is no value.
    Value,
}

/// What is answered to a request.
#[derive(Drop)]
pub enum Response {
    Refused(Refusal),
    Ticket(TicketReply),
    Call(CallReply),
}

impl Refusal {
    fn status(self) -> u16
        ensures { result ≡ (rendered_refusal self).status }
    {
        match self {
            Refusal::HeadSize => 431,
            Refusal::Path | Refusal::Ticket | Refusal::Function => 404,
            Refusal::Method(_) => 405,
            Refusal::Size => 413,
            _ => 400,
        }
    }

    fn name(self) -> &'static str
        ensures { error_text result.now ≡ (rendered_refusal self).body }
    {
        match self {
            Refusal::HeadSize => "head-size",
            Refusal::Cut => "cut",
            Refusal::Head => "head",
            Refusal::Path => "path",
            Refusal::Method(_) => "method",
            Refusal::Coding => "coding",
            Refusal::Length => "length",
            Refusal::Size => "size",
            Refusal::Ticket => "ticket",
            Refusal::Function => "function",
            Refusal::Value => "value",
        }
    }
}

impl TicketReply {
    fn status(self) -> u16
        ensures { result ≡ (rendered_ticket self).status }
    {
        match self {
            TicketReply::Issued(_) => 200,
            TicketReply::NoMemory => 500,
            _ => 503,
        }
    }

    fn body(self, alloc: Global) -> Result<String, OutOfMemory>
        ensures { IfOk result (λ s. string_bytes s ≡ (rendered_ticket self).body) }
    {
        match self {
            TicketReply::Issued(ticket) => format!(in alloc; "{{\"ticket\":{ticket}}}"),
            TicketReply::NoTicket => error_body(alloc, "tickets"),
            TicketReply::Full => error_body(alloc, "full"),
            TicketReply::Fault => error_body(alloc, "fault"),
            TicketReply::Spent => error_body(alloc, "spent"),
            TicketReply::NoMemory => error_body(alloc, "memory"),
        }
    }
}

fn error_body(alloc: Global, name: &str) -> Result<String, OutOfMemory>
    ensures { IfOk result (λ s. string_bytes s ≡ error_text name.now) }
{
    format!(in alloc; "{{\"error\":\"{name}\"}}")
}

fn outcome_body(alloc: Global, outcome: &Outcome) -> Result<String, OutOfMemory>
    ensures { IfOk result (λ s. string_bytes s ≡ outcome_body outcome.now) }
{
    match outcome {
        Outcome::Value(value) => {
            let mut text = TextBuf::new(alloc);
            value.write_json(alloc, &mut text)?;
            format!(in alloc; "{{\"value\":{}}}", text.as_str())
        }
        Outcome::Fault(code) => format!(in alloc; "{{\"fault\":\"{}\"}}", code.text()),
        Outcome::Aborted(_) => format!(in alloc; "{{\"fault\":\"aborted\"}}"),
    }
}

impl CallReply {
    fn status(&self) -> u16
        ensures { result ≡ (rendered_call self.now).status }
    {
        match self {
            CallReply::Reply(_) => 200,
            CallReply::Running => 202,
            CallReply::Other => 409,
            CallReply::Gone => 410,
            CallReply::Unknown => 404,
            CallReply::NoMemory => 500,
            CallReply::Fault | CallReply::Crowded | CallReply::Spent => 503,
        }
    }

    fn body(&self, alloc: Global) -> Result<String, OutOfMemory>
        ensures { IfOk result (λ s. string_bytes s ≡ (rendered_call self.now).body) }
    {
        match self {
            CallReply::Reply(outcome) => outcome_body(alloc, outcome),
            CallReply::Running => format!(in alloc; "{{\"running\":true}}"),
            CallReply::Other => error_body(alloc, "other"),
            CallReply::Gone => error_body(alloc, "gone"),
            CallReply::Unknown => error_body(alloc, "ticket"),
            CallReply::Fault => error_body(alloc, "fault"),
            CallReply::Crowded => error_body(alloc, "crowded"),
            CallReply::Spent => error_body(alloc, "spent"),
            CallReply::NoMemory => error_body(alloc, "memory"),
        }
    }
}

// The phrase of a status, which is empty where it has none.
fn phrase(status: u16) -> &'static str
    requires { IsStatusCode status }
    ensures { result.now ≡ phrase_of status }
{
    match StatusCode::from_u16(status) {
        Ok(code) => code.canonical_reason().unwrap_or(""),
        Err(_) => "",
    }
}

fn status_text(alloc: Global, status: u16) -> Result<String, OutOfMemory>
    ensures { IfOk result (λ s. string_bytes s ≡ status_text status) }
{
    format!(in alloc; "HTTP/1.1 {status} ")
}

fn length_text(alloc: Global, length: usize) -> Result<String, OutOfMemory>
    ensures { IfOk result (λ s. string_bytes s ≡ length_text length) }
{
    format!(in alloc; "Content-Length: {length}\r\nConnection: close\r\n\r\n")
}

// The bytes of a response with these parts.
fn compose(alloc: Global, status: u16, allow: &str, body: &str) -> Result<TextBuf, OutOfMemory>
    requires { IsStatusCode status }
    ensures { IfOk result (λ s. s ≡ composed status allow.now body.now) }
{
    let mut text = TextBuf::from_string(status_text(alloc, status)?);
    text.push_text(phrase(status))?;
    text.push_text("\r\nContent-Type: application/json\r\n")?;
    text.push_text(allow)?;
    let length = length_text(alloc, body.len())?;
    text.push_text(length.as_str())?;
    text.push_text(body)?;
    Ok(text)
}

impl Response {
    /// Its status.
    pub fn status(&self) -> u16
        ensures { result ≡ status_of self.now }
    {
        match self {
            Response::Refused(refusal) => refusal.status(),
            Response::Ticket(said) => said.status(),
            Response::Call(said) => said.status(),
        }
    }

    fn body(&self, alloc: Global) -> Result<String, OutOfMemory>
        ensures { IfOk result (λ s. string_bytes s ≡ body_of self.now) }
    {
        match self {
            Response::Refused(refusal) => error_body(alloc, refusal.name()),
            Response::Ticket(said) => said.body(alloc),
            Response::Call(said) => said.body(alloc),
        }
    }

    // The field that names the method of the route, where another was used.
    fn allow(&self, alloc: Global) -> Result<String, OutOfMemory>
        ensures { IfOk result (λ s. string_bytes s ≡ allow_text self.now) }
    {
        match self {
            Response::Refused(Refusal::Method(endpoint)) => {
                format!(in alloc; "Allow: {}\r\n", endpoint.method())
            }
            _ => Ok(String::new(alloc)),
        }
    }

    /// Its bytes.
    pub fn text(&self, alloc: Global) -> Result<TextBuf, OutOfMemory>
        ensures { IfOk result (λ s. s ≡ response_bytes self.now) }
    {
        let body = self.body(alloc)?;
        let allow = self.allow(alloc)?;
        compose(alloc, self.status(), allow.as_str(), body.as_str())
    }
}
