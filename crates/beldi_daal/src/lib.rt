//! The walks over the rows of an item, and their parts, which runs share. An item is a chain of rows with eight entries at most: a walk
//! goes along them to the last one; where a write finds that full, it makes a further row, with the value and the owner that the
//! full one told, and links it. It stands on `beldi_query`, `beldi_chain` and `beldi_links`.
//! Their definitions: `specs/Cell` (what is asked of the rows of an item, and what follows from what is told), `specs/WriteWalk`
//! (the walk of a write), `specs/ReadWalk` (the walk of a read) and `specs/Logged` (that turns leave the content of each chain as it
//! is, but for one effect a place).
//!
//! Proved:
//! - The parts say what the definitions say: what a write asks, and where a write and a read go after they were told
//!   (`write_asks`, `write_goes`, `read_goes`); after a call it is out of memory only where what lies in a row was lent. A write is
//!   `Worn` exactly where the last row is full and has the greatest number (`full_goes`).
//! - `WriteWalk::turn` and `ReadWalk::turn` ask what the definition asks, in at most one call of the table, and go and say by
//!   what was told, whatever the table tells; unless a walk goes on, it stands where it stood, and so does every walk
//!   at an error (`Turned`), which leaves the rows as before (`an_error_leaves_the_rows` of `beldi_query`).
//! - Laws: where an item's rows are linked, and a write's walk sees what it has to where it stands, a turn of it leaves that so, and
//!   lets the rows of every item only grow. It leaves the content of every item as it is, but for its own operation's effect, of which a place has one, however many walks there are for it. The
//!   operation sets the value, sets it where it passes a test, takes the lock, or gives it back; a transaction that asks for the
//!   lock dies of another owner that is not younger, and its death is kept. Where it is done the walk tells
//!   the note that is kept at the place, and whether this turn made it; where it is not, since another owns the item, or who
//!   gives the lock back does not, it tells that; `Worn` leaves the content as it is, and the place has no note
//!   (`a_chain_is_a_logged_cell`). A read's walk changes nothing, is never refused as `Full`, and says the content's value, or the
//!   owner that is in the way (`a_read_gives_the_content`).
//!
//! Files:
//! - Code (`src/`): `cell` the operations on an item, what they ask of its rows, and what follows, for walks and runs; `walk`
//!   the walk of an operation; `read_walk` that of a read; `laws`.
//! - Lemmas (`proofs/`): `Logged`; `Bars` the owner in the way.
#![tactic(auto)]

mod cell;
mod laws;
mod read_walk;
mod walk;

pub use cell::{
    CellOp, FullRow, ReadGoes, WriteAt, WriteGoes, cell_key, read_told, shadow_key, write_query,
    write_told,
};
pub use laws::{a_chain_is_a_logged_cell, a_read_gives_the_content};
pub use read_walk::{ReadOutput, ReadWalk};
pub use walk::{Item, WriteOutput, WriteWalk};
