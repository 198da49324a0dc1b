//! What reads were given, kept once a place, and the parts of it that runs share. It stands on `beldi_row` and `beldi_query`.
//! Its definitions: `specs/ReadLog` (what a place was given, by its row; what is asked, and what is answered by what was told).
//!
//! Proved:
//! - `given_told` and `kept_told` answer by what was told as the definition says (`given_of`, `kept_of`), and `log_key` is the
//!   key of a place.
//! - `get` and `put_once` each ask one thing, in at most one call of the table, and answer so by what was told (`Answered`).
//! - Laws: `get` gives the value that a read was given, none exactly where there is no row, and changes nothing
//!   (`what_was_given_is_given`); `put_once` keeps a value where none was, and gives the value that is kept, and at an
//!   error the rows are as before (`a_value_is_put_once`); whatever is asked of a table, but that a row is removed, what a read was given stays
//!   (`a_value_stays`).
//!
//! Files:
//! - Code (`src/`): `read_log` the values that reads were given, for calls and runs; `laws`.
//! - Lemmas (`proofs/`): `Once`.
#![tactic(auto)]

mod laws;
mod read_log;

pub use laws::{a_value_is_put_once, a_value_stays, what_was_given_is_given};
pub use read_log::{Kept, get, given_told, kept_told, log_key, put_once};
