//! What every event keeps of rows of items that were made, and are not linked yet: each has someone who will link it. It has no code. It
//! stands on what every event keeps beside (`beldi_upkeep`).
//!
//! A row that was made to follow the last one of an item, and is not linked yet, is a spare (`HasSpare` of `specs/Wanted`). While it is
//! there the last row is full, so no note is added to the item and its owner stays.
//! - The item lacks a note that somebody is to leave: an intent went on by answers that the rows hold to where it leaves one (`HasExpectedNote`). Or a
//!   transaction owns the item, and is to give it back (`IsLent`). So it is at first, and after every event (`begins_wanted`,
//!   `an_event_keeps_spares_wanted`). It is a fact of rows, and a line of runs: one that makes a row to give an item back was told that
//!   its transaction owns the item (`FreesAreOwned`).
//! - Who is to leave a note has no outcome, and the owner of a transaction that owns an item has no finish. So where each intent that was bound
//!   has its finish no item has a spare (`finished_rows_have_no_spare`, `finished_rows_end_at_the_last`), and one row of it has no next
//!   (`finished_rows_end_once`).
//!
//! Files: `src/laws` one function a law, with no body. Lemmas (`proofs/`): `Growing` what an act leaves of a row, `Spares` what the rows of
//! an item hold while a spare is there; `Makers` who makes a row, `Frees` what runs were told that give back; `WantedKept` every event; `ExpectedNotes`
//! that who is to leave a note has not got past it, `Bodies` what the row of an intent tells, `Finished` that nobody is to leave one then.
#![tactic(auto)]

mod laws;

pub use laws::{
    an_event_keeps_spares_wanted, begins_wanted, finished_rows_end_at_the_last,
    finished_rows_end_once, finished_rows_have_no_spare,
};
