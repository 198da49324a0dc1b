//! One HTTP exchange over a link: a request is read, a desk is asked, its answer is written. It stands on `httparse` for
//! heads, `matchit` for paths and `http` for methods and phrases. Its definitions: `specs/Scan` (where a head ends),
//! `specs/Route` (which path is which route), `specs/Framing` (how long a body is), `specs/HttpResponse` (the bytes of a response),
//! `specs/Exchange` (what the bytes of a connection come to), `specs/Serve` (what is taken, asked and written).
//!
//! Proved:
//! - `serve_one` says of one exchange which bytes were taken and written and what the desk was asked (`Serves`): a whole response was
//!   written, of just what the bytes that were taken come to and what the desk said of it; or the connection ended before any byte,
//!   and the desk is as it was; or, after a fault of the link or where memory is short, a front of that response, or nothing asked.
//!   `cut` is told only where the connection ended. A fault comes only where the link's count rose (`cause`); neither of its counts falls
//!   (`later`, `refusals`).
//! - As laws: a path is for a call just where it is `/call/`, a function's name, a slash and a ticket (`paths_have_forms`); a request asks a
//!   question just where its path and body are of the question's text (`questions_are_written`); the same bytes come to one question
//!   (`bytes_come_to_one`), and lead a desk that stands alike to one answer (`an_exchange_has_one_answer`).
//! - Where the link tells nothing (`seen`), what is said of bytes is said of some bytes.
//!
//! Files:
//! - Code (`src/`): `desk` whom an exchange asks; `scan` where a head ends, `gather` taking bytes; `framing` fields, `route`
//!   paths, `plan` what a head wants; `ask` the question; `response`, `send`; `serve` one exchange; `laws`.
//! - Further definitions (`specs/`): `Taking` what is taken from the open connection and written on it; `GatewayLaws` the forms of paths
//!   and questions, and what it is to have one answer.
//! - Lemmas (`proofs/`): `Scans` a head read in parts; `Moves` one thing after another on a connection; `Paths`; `Comes` a
//!   body that came; `Answers` what was gathered, `Cuts` refusals where it ended, `Replies`, `Responses`, `WholeResponse` one
//!   exchange; `Seeks`, `Forms` and `Questions` a path by the routes; `One` the same bytes once more.
#![tactic(auto)]

mod ask;
mod desk;
mod framing;
mod gather;
mod laws;
mod plan;
mod response;
mod route;
mod scan;
mod send;
mod serve;

pub use desk::{CallReply, Desk, TicketReply};
pub use laws::{
    an_exchange_has_one_answer, bytes_come_to_one, paths_have_forms, questions_are_written,
};
pub use response::{Refusal, Response};
pub use route::Endpoint;
pub use serve::{Served, serve_one};
