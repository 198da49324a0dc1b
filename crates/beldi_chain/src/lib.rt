//! The rows of an item as a chain: row 0 and the rows that it leads to by their next. It has no code.
//! Its definitions: `specs/Content` (what one row holds, and what a chain does: value, owner and notes), `specs/Chain` (the keys of
//! an item's rows, its chain, last row and content, and rows of which only one item's changed), `specs/ChainLaws`.
//!
//! Proved:
//! - No act but one that may remove its row takes away a note of a chain (`notes_of_a_chain_stay`).
//!
//! Files: lemmas (`proofs/`), which the crates above cite too: `Heads` keys of rows, and chains that are as before; `OneRow`
//! chains of one row, and of none; `Grows` what an act leaves of a row, and so of a chain.
#![tactic(auto)]

mod laws;

pub use laws::notes_of_a_chain_stay;
