//! What the host meets outside: a source and a sink of bytes, a link to clients and a clock. Each counts its faults.
//! It stands on std, and on `mio` and `slab` for the link to many clients. Its definitions: `specs/Outside` (what each call does,
//! and what a count says), `specs/Memory` (the objects in memory, which tell their bytes and fail at given calls),
//! `specs/Connection` (what each call of a link does to its connections), `specs/MemoryLink` (the link in memory), `specs/Ready`
//! (what a read of a real connection moves).
//!
//! Proved:
//! - `write_all` writes all bytes, or a front of them and the sink's count has risen (`bytes`, `cause`).
//! - `read_all` and `read_up_to` give all bytes of the source, within their bound (`bytes`, `most`, `later`,
//!   `failed`).
//! - `StdSource` and `StdSink` hand on what the reader and writer below them do, and count each of their errors
//!   (`given`, `handed`, `counts`).
//! - The source and the sink in memory do exactly what their definitions say (`exact`); so does the link in memory;
//!   the closed link refuses or fails each call but `close`, and the clock in memory tells the next moment.
//! - `ReadyLink` and `WallClock` tell nothing of what is real: that an error comes only where its count rose is proved (`cause`), and
//!   that a read fits its buffer (`bound`). Which client is served when, and how long it is waited for, no clause says.
//!
//! Files:
//! - Code (`src/`): `traits`; `transfer` whole transfers; `real` readers and writers, `wall_clock` the system's clock; `ready_link`
//!   the link over TCP, and below it `watch` the port and the waits, `peers` the connections that are held, `peer` one of them,
//!   `progress` how far its request has come, `buffer` bytes that wait; `memory`, `memory_link`.
//! - Lemmas (`proofs/`): `Observed`, `Transfers`; `Taking` a connection that gives more.
#![tactic(auto)]

mod buffer;
mod memory;
mod memory_link;
mod peer;
mod peers;
mod progress;
mod ready_link;
mod real;
mod traits;
mod transfer;
mod wall_clock;
mod watch;

pub use memory::{ClosedLink, MemClock, MemSink, MemSource};
pub use memory_link::MemLink;
pub use ready_link::ReadyLink;
pub use real::{StdSink, StdSource};
pub use traits::{Clock, Failed, Link, Sink, Source};
pub use transfer::{MAX_SOURCE, ReadErr, read_all, read_up_to, write_all};
pub use wall_clock::WallClock;
