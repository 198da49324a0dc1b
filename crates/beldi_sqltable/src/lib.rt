//! A table over a store of rows: `RowTable`, over any `RowStore`. It stands on `beldi_row` and `beldi_table`. Its definitions:
//! `specs/Store` (what a store does), `specs/StoreCounts` (what the table keeps beside the rows, and how failures are counted),
//! `specs/RowTable` (the table as contracts see it, and what an act leaves).
//!
//! Proved:
//! - `RowTable` keeps the contract of the trait `Table`, over every store that keeps that of `RowStore`. Its rows are those of the
//!   store: told where the store tells them, and not told where it does not.
//! - Where rows are told, the table keeps how many they are and the keys of the open intents, those and no others (`Keeps`). So
//!   `len` and `opens` need not go from row to row, and `opens` always says whether there is an open intent (`first`). An act that
//!   adds a row is refused as full exactly where they are as many as the room or more.
//! - A failure of the store is counted once, and is told as `Failed`; for want of memory nothing is counted (`Blames`). After each
//!   error the rows are as before.
//! - A row is removed only where an act removes it (`drop_row`).
//! - A row is written only where an act makes or changes it (`leaves`, `told_left` of `proofs/Leaving`), or asks that another
//!   follow it (`links`).
//!
//! Where rows are not told, the first `ready` goes over all of them once (`survey`), to count them and to find the open intents;
//! of that nothing is claimed. Until then `opens` does not say.
//!
//! Files:
//! - Code (`src/`): `store` the trait; `calls` the calls of a store, with failures counted; `survey` all rows, once;
//!   `row_table` the table.
//! - Lemmas (`proofs/`): `Keeping` what is kept beside the rows; `Carrying` an act over rows that may be told; `Leaving` acts
//!   that change nothing; `Opening` the open intents past a key.
#![tactic(auto)]

mod calls;
mod row_table;
mod store;
mod survey;

pub use row_table::RowTable;
pub use store::{RowStore, StoreErr};
