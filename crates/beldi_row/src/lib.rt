//! The rows of a table, their keys, the acts on one row, and the trait of a table. It stands on `beldi_value` alone.
//! Its definitions: `specs/Key` and `specs/KeyOrder` (the order of keys), `specs/Log` (the notes of a cell by place),
//! `specs/Act` (the act table: what each act does to a row, and what it says), `specs/Table` (rows as a map, and the
//! words of the trait's contract: what an act leaves, when it is refused, which row is the next). `proofs/TableRows`,
//! `proofs/Gets`, `proofs/Logs`, `proofs/Removed`, `proofs/Room`, `proofs/Tells` and `proofs/Unchanged` have lemmas that the crates above cite.
//!
//! Proved:
//! - `apply`, `made` and `missing` are the act table, and `tell` gives the answer that a change stands for (`Changes`,
//!   `off`, `change_reply`). `removes` tells whether an act removes a row, and `drops` whether it may: rows that it left go by `DropRow`,
//!   that of an intent by `DropIntent`, where it finished more than a life ago, or was issued then and never bound (`is_old`).
//! - So an intent that asks for a lock waits for another owner, and so does a transaction that is older than that owner; any
//!   other transaction dies there, and its death is kept with the owner's age (`wait_or_die` of `specs/Act`).
//! - `Log::find` finds the note of a place (`is`, `note`). A log has at most eight entries (`few`), and a full one takes
//!   none: the act says what the cell has (`if_room`), and a full cell gets one row that follows it (`link_to`).
//! - Keys compare by a total order.
//! - The row after a key is the least of a greater key (`next_row_is_least`).
//! - The trait `Table` says what a table owes. Contracts see one state of it (`TableState`): its rows, where it tells
//!   them, its failures, its room, and its calls, where it counts them.
//! - `len` tells the number of rows, 4,294,967,295 where there are more (`IsCount`), `ready` sets the room
//!   (`Readied`), `act` carries out an act (`acts`), `next` finds the row after and is never refused as full (`went`); `act`
//!   and `next` count one call, `ready` none. `opens` may tell where open intents lie (`OpensTold`), and `passes` how far a walk
//!   goes (`PassesTold`); neither needs to.
//!
//! Files:
//! - Code (`src/`): `key`, `row`, `notes` the log of a cell; `act` acts on one row, `cell` those on a cell, `unlink` those that lead
//!   past one, `telling` what is said of a change; `table` the trait; `laws`.
//! - Lemmas (`proofs/`): `Found`; `Least` the row after a key; `TableRows`, `Gets`, `Logs`, `Removed`, `Room`, `Tells`, `Unchanged`, also for the
//!   crates above; `Fronts` keys by their fronts.
#![tactic(auto)]

mod act;
mod cell;
mod key;
mod laws;
mod notes;
mod row;
mod table;
mod telling;
mod unlink;

pub use act::{
    Act, ActReplyRef, Change, apply, drops, is_old_row, is_past, made, missing, removes,
};
pub use beldi_value::Caller;
pub use key::{Kind, RowKey, copy_owner, copy_tx};
pub use laws::next_row_is_least;
pub use notes::{Blank, Entry, Log, MOST_ENTRIES, Note};
pub use row::{Body, Cell, IntentRow, InvokeRow, Row};
pub use table::{Opens, Table, TableErr};
pub use telling::{is_of_row, tell};
