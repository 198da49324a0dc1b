//! The lines that list the items of the bank (`beldi_bank`, `beldi_plain`), and what is counted and summed of them
//! (`beldi_generator`). It has no code. Its definitions: `specs/BankLines`.
//!
//! Proved: the listing of balanced items has a line for each, and however the book below it reads, the totals that are told are
//! how many lines there are and a hundred times as much, in 64 bits (`balanced_items_are_listed`).
//!
//! Lemmas (`proofs/`): `Unbroken` values' texts have no line feed; `ListedLines` the line of an item and the value in it; `Totals`
//! what is counted and summed of such lines.
#![tactic(auto)]

mod laws;

pub use laws::balanced_items_are_listed;
