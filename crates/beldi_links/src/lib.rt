//! Rows of an item that are linked, of which each has eight entries at most. It has no code, and no act is in it: it says what
//! chains of any number of rows are, and what they keep whatever is done to their rows. It stands on the chains of `beldi_chain`.
//! Its definitions: `specs/Links` (ways from row to row; `IsLinked`, when the rows of an item are sound; `RowsGrow`, what acts leave
//! of them; `SeesAt` and `ReadsAt`, what a walk for a place, and one that only reads, know of them where they stand), `specs/LinkLaws`.
//!
//! Proved:
//! - A chain holds what its last row does, behind the notes of the rows before it (`content_is_by_its_last_row`,
//!   `tail_is_the_last_row`, `notes_on_the_way_are_the_chains`, `places_without_notes_are_in_no_row`).
//! - An entry in the last row, a row that is made to follow it, and its link keep the rows linked (`entries_keep_links`,
//!   `making_keeps_links`, `linking_keeps_links`; each sets one row: `one_row_is_set`). The first changes what the chain holds as it
//!   changes the row (`last_row_is_what_the_chain_holds`); the others change nothing of that (`making_changes_nothing`,
//!   `linking_changes_nothing`). Linked is also a first row where there was none (`first_row_is_linked`).
//! - A walk stands at a row that leads to the last one (`walks_end`), also at the next of that (`meetings_go_on`), and at the last
//!   where there is no next (`last_is_last`); it passed all rows below (`passed_goes_on`). It sees what its stage has to see from
//!   the first row on (`walks_begin`, `next_is_seen`, `full_row_is_seen`, `spare_is_seen`, `linked_row_is_seen`; `reads_begin`,
//!   `next_is_read`), and what it makes behind a full row is to follow the last one (`spare_is_made`).
//! - It does so, and sees what it saw, after the acts of others (`ways_stay`, `meetings_stay`, `others_keep_what_is_seen`,
//!   `readers_keep_what_is_seen`): rows with a next stay, full ones keep what they have, none goes, and one is made past all
//!   others alone (`grown_rows_with_a_next_stay`, `one_row_grows`, `making_grows`, `items_grow_where_one_does`,
//!   `items_grow_beside_other_rows`).
//!
//! Files: `src/laws` one function a law, with no body; lemmas (`proofs/`), which the crates above cite too: `Ways` ways, and what
//! a chain holds by them; `Meets` where a walk stands and what it passed; `LinkKeeps` a row that is set, made or linked; `Last` the
//! last row; `Grows` what is seen after the acts of others.
#![tactic(auto)]

mod laws;

pub use laws::{
    content_is_by_its_last_row, entries_keep_links, first_row_is_linked, full_row_is_seen,
    grown_rows_with_a_next_stay, items_grow_beside_other_rows, items_grow_where_one_does,
    last_is_last, last_row_is_what_the_chain_holds, linked_row_is_seen, linking_changes_nothing,
    linking_keeps_links, making_changes_nothing, making_grows, making_keeps_links, meetings_go_on,
    meetings_stay, next_is_read, next_is_seen, notes_on_the_way_are_the_chains, one_row_grows,
    one_row_is_set, others_keep_what_is_seen, passed_goes_on, places_without_notes_are_in_no_row,
    readers_keep_what_is_seen, reads_begin, spare_is_made, spare_is_seen, tail_is_the_last_row,
    walks_begin, walks_end, ways_stay,
};
