//! Entries in a file of SQLite, which are there again after the program ends, however it ends; and a sink and a link that tell of nothing
//! before the file keeps it. It stands on `beldi_blobs` (an ordered map from bytes to bytes) and `beldi_outside`, and knows nothing of rows.
//!
//! What a file holds tells contracts nothing. Proved here is what needs no bytes: each call is safe and ends, and `KeptSink` and `KeptLink`
//! keep the contracts of a sink and a link that do not tell, whose failures are counted. That nothing is told that the file may lose is
//! read in `kept`, and tested (`tests/db`).
//!
//! - The first put or removal after a keep begins a transaction of SQLite, and the next keep commits it. `KeptSink` and `KeptLink` keep before each
//!   write. So many acts are one commit, and after a crash the file has what it had at a keep: the rows that stood after one of the acts,
//!   with all that anybody was told of.
//! - Where a commit fails, or a call that ends the transaction with others waiting in it, these are gone: each later call of the file
//!   fails, and so does each write, so nothing more is told.
//!
//! Files:
//! - Code (`src/`): `kept_file` the file, `shared` its entries for a table, `kept` the sink and the link.
#![tactic(auto)]

mod kept;
mod kept_file;
mod shared;

pub use kept::{KeptLink, KeptSink};
pub use kept_file::KeptFile;
pub use shared::SharedBlobs;
