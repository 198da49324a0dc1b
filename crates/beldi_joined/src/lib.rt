//! Sessions one after another over the same rows. It has no code.
//! A host that is opened over the rows of an earlier session knows nothing of that session's book: its own begins empty. Its definitions
//! (`specs/Joined`): the book that both sessions make together (`joined`), a core that has that book (`behind`), and one that was opened
//! with the book of the sessions before it (`reopened`). A read counts the changes that it has seen from the beginning of its own
//! session's book; behind a longer book it has seen those of that one too (`raised`).
//!
//! Proved (`specs/JoinedLaws`):
//! - Where the invariant holds of a host and its rows, a host of the same book that is opened over these rows has it, at any moment
//!   (`a_reopened_host_has_the_invariant`), and has what every event keeps beside (`a_reopened_host_is_upkept`). So has one that is opened over them
//!   with an empty book, behind the book of the first (`an_opened_host_is_upkept_behind`), and after every event
//!   (`a_host_stays_upkept_behind`).
//! - So it is over rows of which some are gone: the same ones are gone behind the first one's book, and no log collector of the new host has
//!   begun a row (`an_opened_host_is_safe_behind`).
//! - The first one's newest ticket is the greatest that a key of a row names (`the_newest_ticket_is_in_the_rows`).
//! - What an event does, it does behind a longer book as well (`a_step_over_a_longer_book`): the same becomes of the rows, and the answer
//!   differs at most in how many changes a read had seen. So does a turn of a log collector, with the same answer
//!   (`a_pruning_over_a_longer_book`).
//! - A settling of a host that has the invariant behind the book of earlier sessions keeps the promises of `beldi_bound`, of its own runs, its rows and
//!   the joined book (`settlings_after_sessions_are_as_promised`).
//!
//! Files:
//! - Code (`src/`): `laws` one function a law, with no body.
//! - Lemmas (`proofs/`): `Books` books of sessions one after another; `RaisedRuns` live runs behind a longer book, `RaisedTurns` their
//!   turns, `RaisedEvents` events, `RaisedPrunes` turns of log collectors; `Reopened` a host that was opened again; `After` what a host has
//!   that has the invariant behind the book of earlier sessions, and what an event leaves of it; `Settlings` its settlings.
#![tactic(auto)]

mod laws;

pub use laws::{
    a_host_stays_upkept_behind, a_pruning_over_a_longer_book, a_reopened_host_has_the_invariant,
    a_reopened_host_is_upkept, a_step_over_a_longer_book, an_opened_host_is_safe_behind,
    an_opened_host_is_upkept_behind, settlings_after_sessions_are_as_promised,
    the_newest_ticket_is_in_the_rows,
};
