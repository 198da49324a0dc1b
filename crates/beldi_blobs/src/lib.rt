//! An ordered map from bytes to bytes in one SQLite table, in memory or in a file: `Blobs`, a trait.
//! It stands on the kit's `sqlite`. Its definitions: `specs/BlobEntries` (what entries the rows of a database are), `BlobCalls` (what
//! a call leaves of the entries, and what it answers), `Texts` (the table and the five texts), `Queries` (what the texts
//! are compiled to).
//!
//! Proved:
//! - `MemoryBlobs` keeps the contract of the trait over its entries, and tells them always: contracts see it as the
//!   map of its entries. After an error the entries are as before.
//! - `FileBlobs` keeps the contract too, and tells no entries: it is safe, and each call returns.
//! - Each of the five calls of SQLite has a clause of its own in `calls`, over any store: where the store is still
//!   clean and the database has this table alone, the entries are changed, found and kept as the map's are. That says more of a
//!   file than the trait does.
//!
//! Files:
//! - Code (`src/`): `blobs` the trait; `calls` the calls of SQLite; `memory`, `file`; `entry`, `error`.
//! - Lemmas (`proofs/`): `Understood` what each text is compiled to; `Operators` how blobs and rowids compare; `BlobLists` rows and
//!   entries; `Matches` what a query over the table answers; `Finding`, `Changes`, `Putting`, `Removing`, `Making` what each statement
//!   does; `Leaves`, `Called` what is left where it is refused; `Answered` what was read of a row.
#![tactic(auto)]

mod blobs;
mod calls;
mod entry;
mod error;
mod file;
mod memory;

pub use blobs::Blobs;
pub use entry::Entry;
pub use error::BlobErr;
pub use file::FileBlobs;
pub use memory::MemoryBlobs;
