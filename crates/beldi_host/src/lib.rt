//! The host: it carries out events over a table, one at a time, and reads the table's rows. Each event is planned, asks the
//! table at most one thing, and is followed by what the table told (`beldi_core`); only `Host` touches the table.
//! It stands on `beldi_core`, on `beldi_invariant`, which says what every event keeps, and on `beldi_kept`, which says that of rows of which
//! log collectors removed some. Its
//! definitions: `specs/HostCore` (the host as the core that events speak of), `specs/Survey` (calls that read the rows), `specs/LastRow`
//! (what is read of a chain), `specs/Opening` (their errors), `specs/ReplyStatus` (that what is said of a reply is so), `specs/HostStride` (many
//! turns of a run at once) and `specs/HostInvariant` (what the calls keep, and what a host with the invariant has, or a whole one).
//!
//! Proved:
//! - `Host::event`, and `turn` for the event that is a turn, is one step of the definition, for every table that keeps the trait's contract; crashes, lost
//!   answers, restarts, faults, want of room and out of memory are cases of the step (`step`, `code`). An event that is
//!   answered at once makes no call of the table and leaves it as it was; any other but a halt makes at most one query, and one word
//!   of the table, or one refusal, says what followed. A halt reads all rows as `open` does (`find_newest`). A run that met an error is over, but for want of room. What that is
//!   over rows that are told, and over any table, laws of `beldi_step` and `beldi_invariant` say (`a_step_over_rows`,
//!   `a_step_over_any_table`, `a_dropped_answer_has_a_cause`).
//! - `reply` makes at most one call of the table's `act` and `next` (`calls`), and none for a ticket that was not issued,
//!   which leaves the table as it was (`untouched`).
//! - A run that is past its deadline makes no act: its event makes no call of the table, and the run is over (`in_time`).
//! - What the rows held at a step stays after an event, whether the host has the invariant or not (`answers_stay`).
//! - `Host::prune` gives a log collector its turn: it is the definition's (`prunes`, `code`), for every table that keeps the trait's contract.
//! - A host may be whole: no log collector changed a row, and all holds that every event keeps (`IsWhole`). It may have the invariant where rows of intents that are
//!   old are gone, and no log collector is about to remove another one (`HasInvariant`). Both are so of a host that was opened over no rows, and
//!   each is so after `event`, `turn`, `tables`, `reply`, `ic_reset`, `ic_skip` and `stride` where it was before, also out of memory (`right`). A turn
//!   of a log collector leaves a host its invariant (`right`), and a whole one whole where it changed no row (`whole`).
//! - Where the host is whole and its table tells its rows, no ticket is answered `gone` (`has_rows` of `event` and `turn`, `there` of `reply`).
//! - `Host::rows` tells how many rows the table has, as `len` does (`IsCount`).
//! - `Host::open`, at a moment of at most 2^62, finds the newest ticket, which is the greatest that any key names
//!   (`newest`), and changes no row (`ok`); where it refuses, it gives the table back (`err`).
//! - `Host::tables` and `Host::reply` say what the rows say, and change nothing (`reads`, `err`, `unknown`, `core`,
//!   `code`).
//! - A host with the invariant has a legal book (`the_invariant_implies_legal`, and `legal` of `book`). Where it is whole, its rows stand for the book's run
//!   (`whole_stands`), also in the table that `close` gives back (`stands`), and each step of an instance, also inside a transaction, has
//!   one answer, whichever of its runs asks: the one that the rows hold (`whole_has_one_answer`). Of a host with the invariant this is so of the rows
//!   that are left; but of a transaction whose decision is absent they tell only where its owner's row is there and was not old
//!   (`the_invariant_implies_stands_less`, `stands_less` of `close`), and so is an instance's own row, where its steps have one answer
//!   (`the_invariant_implies_one_answer_less`).
//! - Where the host has the invariant, the listing of `tables` is that of the run (`listing`), and what `reply` tells is the
//!   outcome that the root has in the run, or none, or that its row is gone (`plain`).
//! - `next_run` is the least live run past a number (`IsLeastPast`); `ic_reset` sets the intent collector before all rows, and `ic_skip` to
//!   a key, where it stood or past rows that are of no open intent, as far as the table's rows are told (`passes`). Both make no event,
//!   and leave the table as it was.
//! - `Host::stride` gives a run that walks along an item's rows many turns at once, where the table tells how far it goes: it is so many
//!   events, one after another, each with the same answer (`strides`), and it counts them (`taken`).
//!
//! Files:
//! - Code (`src/`): `host` the host over its table; `survey` reads the rows, `last_row` those of a chain; `laws` what a host with the invariant
//!   has.
//! - Lemmas (`proofs/`): `HostSteps` reading all rows, `Skips` all but the items', `HostLines` what is written of each; `Looks` at one row,
//!   `LastRows` at those of a chain; `HostNewest` the greatest ticket;
//!   `Openings` where the intent collector may go on; `HostInvariant` what follows from the laws; `Taken` that an event counts once; `Strides` many turns of a
//!   run that walks.
#![tactic(auto)]

mod high_water;
mod host;
mod last_row;
mod laws;
mod survey;

pub use beldi_core::{Declined, LAST_MOMENT, TurnReply};
pub use host::Host;
pub use laws::{
    the_invariant_implies_legal, the_invariant_implies_one_answer_less,
    the_invariant_implies_stands_less, whole_has_one_answer, whole_stands,
};
pub use survey::{OpenErr, ReplyStatus};
