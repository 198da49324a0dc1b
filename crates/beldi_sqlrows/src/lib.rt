//! Stores of rows over a map from bytes to bytes: `BlobRows`, over any `Blobs`, and `MemoryRows`, over a database in memory. It
//! stands on `beldi_sqltable`, `beldi_bytes` and `beldi_blobs`. Its definitions: `specs/Held` (the rows that the entries of a map
//! hold), `specs/LateFailure` (a store that is opened late).
//!
//! Proved:
//! - `BlobRows` keeps the contract of `RowStore`. Where its map tells its entries, it tells the rows that they hold: each row's
//!   bytes are at the bytes of its key, and these rows are the only ones (`Holds`, `same_rows`).
//! - `MemoryRows` keeps it too, and always tells its rows: none, before the database is opened.
//!
//! Not proved: that a row that was written can be read. One with a moment above 2^62 cannot: each call that comes to it fails. No host
//! writes one.
//!
//! Files:
//! - Code (`src/`): `blob_rows`, `memory_rows`.
//! - Lemmas (`proofs/`): `StoredRows` rows in bytes, through the calls of a map; `LateFailure` a store that is not open yet.
#![tactic(auto)]

mod blob_rows;
mod memory_rows;

pub use blob_rows::BlobRows;
pub use memory_rows::MemoryRows;
