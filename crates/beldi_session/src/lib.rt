//! A session: what a source says, the host's calls that the lines of its script make, one after another, and what is written of them;
//! or what is said of a source that is tested. It stands on the host (`beldi_host`), the readers of a source (`beldi_syntax`,
//! `beldi_script`), the checks of a deployment (`beldi_check`), the table that a host is over (`beldi_row`) and what is outside
//! (`beldi_outside`).
//! Its definitions: `specs/Source` (what a source says: its refusal, or a deployment and numbered lines), `specs/Refusal`
//! (the text of a refusal), `specs/Check` (what is said of a source that is tested), `specs/Script` (what a script has the program do, and
//! a client: its actions), `specs/Answer`, `specs/Settled` and `specs/HostResponse` (what is said of it, and the text), `specs/Session` (steps
//! one after another, and what was written), `specs/Settling` (the events of a settling, and its promises) and `specs/Sweeps` (the turns of a
//! sweep, and its promises).
//!
//! Proved:
//! - `read_source` gives the deployment and where its script begins, or the first refusal (`ReadsAs`), and `check_source` what is said of
//!   a source that is tested (`check_by`).
//! - `run_script` carries out what the lines say, line by line, up to the first that is refused or to where it stops (`Does`): the text
//!   that was written and waits is that of the steps that were done, and the host and its table are those that the last step left.
//! - An event that is out of memory is a response too, and leaves its action to do (`BrokeOff`): its step is that of the definition, in which
//!   the act may have been made.
//! - A turn of a log collector is a response of its own (`PruneAnswered`, or `PruneBroke` where memory was short). A line `gc` gives turns,
//!   and a line `sweep` as many as end a round, that turn counted, or else its budget, and tells which (`sweep_at`, `on_sweep_reply`); of a
//!   host with the invariant it keeps the promises of `beldi_tidy` (`promises`).
//! - A line `settle` is carried out as just the events of the machine of `beldi_schedule` (`Leaves`), each a step of the host as those of other
//!   lines, also where the host gives a run many turns at once; before a turn of the intent collector that is set past rows of no open
//!   intent alone, where the table tells them (`WentOn`). It
//!   comes to its end, since each event that it goes on after was taken; and it keeps the promises of `beldi_bound` (`promises`).
//! - A script is to be empty where a source is served: `find_line` gives the refusal of its first line that is not (`first_line`).
//! - `write_refusal` writes the line of a refusal, with its number in the source and its cause (`refusal_text`).
//!
//! Files:
//! - Code (`src/`): `source` what a source says, and one that is not refused; `refusal` why it is refused; `session` a
//!   script's lines, from a line to the host's calls; `settling` one line that is many events; `sweeping` turns of log collectors;
//!   `check` a source that is tested;
//!   `answer` the text of an answer; `output` text on its way.
//! - Lemmas (`proofs/`): `Went` actions that were done, `SessionCalls` calls one after another; `Responses` what the host answers;
//!   `SettleEvents` an event of a settling, `Strides` many turns at once, `Led` that they lead on, and its promises; `Sweeps` and
//!   `SweepTurns` a sweep, turn by turn, and its promises; `SessionLines`, `Refusals`.
#![tactic(auto)]

mod answer;
mod check;
mod output;
mod refusal;
mod session;
mod settling;
mod source;
mod sweeping;

pub use check::check_source;
pub use refusal::{Cause, Refusal, SourceErr, write_refusal};
pub use session::{Stop, Taker, run_script, write_listings};
pub use settling::settle;
pub use source::{Accepted, find_line, read_source, script_at};
pub use sweeping::{Swept, sweep};
