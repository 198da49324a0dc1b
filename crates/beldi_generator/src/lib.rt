//! Generated work: a source with so many requests, drawn from a seed, and what is told of a session of it.
//! It stands on `beldi_value` (texts, numbers) and `beldi_script` (lines). Its definitions: `specs/Generated` (the text of the source)
//! and `specs/Summary` (what is told, by the text of a session).
//!
//! Proved:
//! - `generate` appends just that source (`generated`).
//! - `summarise` gives just what is told of a session's text (`summary_text`).
//!
//! Files:
//! - Code (`src/`): `generator` the source; `summary` what is told.
//! - Lemmas (`proofs/`): `Requests` requests one after another; `WorkWords` the last word of a line.
#![tactic(auto)]

mod generator;
mod summary;

pub use generator::generate;
pub use summary::summarise;
