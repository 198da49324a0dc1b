//! A service: the host behind HTTP. A desk asks a host for what the requests of clients want, and connections are served one after another,
//! each with one exchange and one line of text. It stands on the session (`beldi_session`), whose actions a question leads to, the host
//! (`beldi_host`), one HTTP exchange (`beldi_gateway`), the table that a host is over (`beldi_row`) and what is outside (`beldi_outside`).
//! Its definitions: `specs/Desk` (which actions a question leads to, and what is said by the host's last response) and `specs/ServedConnections` (a
//! connection from its opening to its end and what follows, connections one after another, and their lines).
//!
//! Proved:
//! - What a desk over a host says to a question is what the last of the host's responses says, and these are the responses to the actions of
//!   the question: a ticket; a request and, where that is answered `bound` or `running`, a settling of at most 10,000 turns and the reply; a
//!   reply. Or memory is short: then that is said, and some first of the actions were done (`keeps` of `HostDesk`: `Replies`, `Consults`).
//! - Up to a moment time passes by one event, where the moment is later than the host's, and at most to the last one of a host (`tick_to`).
//! - `serve` serves as many connections as it is told, and writes the line of each (`serves`: `ServesBy`): each is accepted, time passes up
//!   to what the clock tells, what is taken from it and written on it is one exchange with the desk (`Serves`), it is closed, and the first
//!   log collector has turns up to the end of its round, at most 256 (`pruning`), before the line is written (`Served`).
//!   Where it ends before, those that were served have their lines; out of memory the host may have made more responses; where the sink
//!   failed a front of the lines was written.
//! - The sink is at fault only where its count rose (`fault`), and the link refused only where its count of refusals rose (`refused`).
//! - This is said where the table tells its rows; where the link or the clock does not tell, of some connections and moments. Over any table
//!   the deployment and the room stay, and no count falls (`Passes`).
//!
//! Files:
//! - Code (`src/`): `desk` the desk over a host; `connections` one connection, and one after another.
//! - Lemmas (`proofs/`): `Leading` responses that lead on; `Coming` what a desk says, by the steps of its host; `Serving` an exchange, a
//!   connection, and one after another.
#![tactic(auto)]

mod connections;
mod desk;

pub use connections::{ServeErr, moment_of, serve};
pub use desk::{HostDesk, PATIENCE};
