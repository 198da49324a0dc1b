//! The program without its real streams: it reads a deployment and a script, hosts the deployment, and writes what the
//! script's events came to; or it tests them, and carries out nothing; or it serves the deployment over HTTP.
//! It stands on the session (`beldi_session`), the service (`beldi_serve`), the host (`beldi_host`), the reader of its words
//! (`beldi_command`), the table that a host is over (`beldi_row`) and what is outside (`beldi_outside`); its clauses speak of definitions of
//! the crates below them.
//! Its own definitions: `specs/PlainRun` (that a session is a run without crashes), `specs/Hosted` (how the host moved in it),
//! `specs/Service` (a service, its text, and that it is such a run), `specs/Headline` (how the program ends: by it the cause, and what is
//! left of source, sink, table and link), `specs/Serves` (what the parts of a service leave) and `specs/Balances` (what is told of the
//! accounts after generated work).
//! It has no error type: `top` answers a status, and `Ended` has one variant for each.
//!
//! Proved:
//! - `top` says by one definition how it ended (`session`: `Ends`): the text that was written is that of a session of the source, or of
//!   a service, by the status; where the sink or the source do not tell, of some text and of some bytes, and where the table tells, its
//!   rows are those of that session.
//! - With 0 all lines were carried out, and the last listings follow; with 5 the lines before the one that is refused,
//!   and the line of the refusal follows, with its number in the source and its cause, or the deployment was refused
//!   so; with 1 and 4 the first events and readings were carried out, at 1 perhaps the last one out of memory (`BrokeOff`), and the
//!   sink got a front of their text, with a front of the ending only where all were carried out; where the source was
//!   refused before its script, or the words were others, 4 leaves a front of that one line; with 3, 7 and 8 nothing
//!   was done or written; with 2 the words are not those of a command (`usage`).
//! - To serve, the source has a deployment and no line of a script (`ServeEnds`; else 5). With 0 as many connections were served as the
//!   words say, each has its line, and the listings follow; with 6 fewer were, or none, and their lines were written; with 1 and 4 a front of
//!   such a text. Each connection is accepted, time passes up to what the clock tells, and what is taken from it and written on it is one
//!   exchange, in which what is said is what the host's last response says (`ServedTo`, `Service`); where the link or the clock does not
//!   tell, of some connections and moments.
//! - A source that is tested leaves the table as it was handed in (`tested`); with 0 it has no fault, and the text tells how many
//!   functions and lines it has, with 5 it is its first refusal alone.
//! - Over a table without rows, that session is a run without crashes: after each response the book has the
//!   entries that were told, is legal, each outcome, reply, listing of the tables and of the book is that of its
//!   run then, and the rows stand for that run (`Moment`); at the end (`IsPlainRun`) it is legal, so each step of an
//!   instance acts once and in its order, each committed transaction in one piece, and each aborted one reads one state
//!   and leaves no item changed (`legal`), it starts exactly the requests that were answered `bound`, in order (`bound`),
//!   each outcome that was told is the root's in its run (`replies`), and the rows stand for that run (`tables`). So are the host's
//!   responses in all connections of a service, and in its listings (`plain` of `Service`). Over rows that sessions left it is so of their
//!   books, joined, and its own: the joined book starts what theirs start, and then the requests that were bound in this one (`joins`).
//! - A line `settle` has a response for each of its events, and for each time that it passes over rows (`WentOn`); all this is so after
//!   each. Each response is that of one step of the host, and its book and its rows are that step's (`Hosted`; of a service `LeadsTo`, and
//!   `Course` for its connections); over a table without rows the rows are listed as the run is (`listing`).
//! - 3, 4, 8 and 6 come only where the count of the source, the sink or the table, or that of the link's refusals, rose (`source_fault`,
//!   `sink_fault`, `open_fault`, `refusal`); 7 only where the source has more than 16,777,216 bytes, of which 16,777,217 were taken, and
//!   where, with the right words, it has more, only 7, 3 or 1 (`too_long`); with the right words, a source of at most 16,777,216 bytes
//!   that is not refused is carried out whole, where neither source nor sink fails, nor the link refuses, nor memory runs out, nor the
//!   table failed as it was opened (`complete`); 0 comes only where the source is not refused, and 5 only where it is, whatever sink and
//!   table tell (`refused`).
//! - With words that ask for no command neither source nor table is touched (`unread`); with 3 and 7 the table is the one
//!   handed in and the sink is not called, with 8 the rows are as before (`untouched`).
//! - Generated work that ends with 0 over a table without rows is told balanced: as many keys as there are accounts, and a sum of a
//!   hundred times as much, or that the table failed as it was listed (`balanced`).
//! - With words that do not serve neither the link nor the clock is asked for anything (`unasked`).
//!
//! Files:
//! - Code (`src/`): `program` the program, and `top` with its theorem.
//! - Lemmas (`proofs/`): `PlainRuns` what every step keeps, what is said at its moment, and what is so at the end; `Services` how a
//!   service ends; `Ends` the parts of the program, and what is read off an ending. Of generated work: `Asked` what is bound was asked for,
//!   and where the last listings stand; `Flat`, `Skipped` no line before them reads as their heading; `Listed` what they tell; `Balances`
//!   the sum.
#![tactic(auto)]

mod laws;
mod program;

pub use laws::sessions_are_plain_runs;
pub use program::top;
