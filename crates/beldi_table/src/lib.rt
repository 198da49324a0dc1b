//! Two tables: `MapTable`, over an ordered map in memory, and `FailingTable`, which fails the calls that it is told to.
//! It stands on `beldi_row`. Its definitions: `specs/MapTable` (what a change leaves of the rows), `specs/Opened` (the
//! keys of open intents), `specs/FailingTable` (which calls fail).
//!
//! Proved:
//! - `MapTable` and `FailingTable` keep the contract of the trait.
//! - `MapTable` keeps the keys of its open intents in order, those and no others (`Indexed`). So `opens` looks one up, and
//!   goes over no rows. Of acts, Bind, End and Stamp alone look at these keys, Register where it adds a row, and those that
//!   remove one; what takes memory is done before a row is changed.
//! - `FailingTable` fails a call of the numbers that it is given, counted from 0, and no other (`told` of `act` and
//!   `next`); each raises its number by one (`acts`, `went`), until that stands at its end. It does not say which intents
//!   are open.
//!
//! Files:
//! - Code (`src/`): `map_table`, `open_keys`, `failing_table`.
//! - Lemmas (`proofs/`): `Changes` one row; `Indexes` the keys of open intents; `Next` the row after.
#![tactic(auto)]

mod failing_table;
mod map_table;
mod open_keys;

pub use failing_table::FailingTable;
pub use map_table::{MapTable, counted, room_in};
pub use open_keys::{forget_if, is_open, note_if, switches};
