//! One call of a table, and walks that never touch one. It stands on `beldi_row`.
//! Its definitions: `specs/Query` (what is asked of a table, what it tells, and what a query came to) and `specs/Walk` (one
//! turn of a walk, or of a call that makes one query, and what such a call promises of the rows). `proofs/Queries`,
//! `proofs/Promises`, `proofs/Lent` and `proofs/Looks` have lemmas that the crates above cite.
//!
//! Proved:
//! - `Walk::turn` asks a table what the walk asks, in at most one call, and moves the walk by what the table told; at an error the
//!   walk stands where it stood. The error is the table's, or out of memory: before the call, or for what was lent (`Turned`).
//! - Laws: an act that lends what lies in the row has left the row as it was, unless it tells a death
//!   (`what_is_lent_stands`), which only an act does that asks for a lock as a transaction (`only_transactions_die`). So
//!   after an error of a turn the rows are as before, for every walk, but for a death that the turn was out of memory to tell
//!   (`an_error_leaves_the_rows`).
//!
//! Files:
//! - Code (`src/`): `query` what is asked of a table, and what is heard; `walk` the trait of a machine that asks one thing a
//!   turn, and one turn of it over a table; `laws`.
//! - Lemmas (`proofs/`): `Queries` a call of a table as an answer to a query; `Promises` such a promise, by what the query
//!   does to rows; `Lent`, `Looks` what leaves the rows as they are.
#![tactic(auto)]

mod laws;
mod query;
mod walk;

pub use laws::{an_error_leaves_the_rows, only_transactions_die, what_is_lent_stands};
pub use query::{Query, QueryReplyRef};
pub use walk::Walk;
