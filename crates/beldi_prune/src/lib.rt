//! The log collector: it goes from row to row, and removes rows of intents that are old. It stands on `beldi_intent`. It removes rows
//! of intents, and what these left beside them: what reads were given, calls, shadows, and items that a lock was asked of. A row of
//! an item whose entries are all of intents that are gone or old it marks; then it leads the row before past it, says since when no row
//! leads to it, and removes it a life later. The first and the last row of an item stay.
//! Its definitions: `specs/Seat` (whose a row is), `specs/CellEntries` (the intents of a row of an item), `specs/Unlink` (what is to be done
//! with such a row, and where the rows before it lead), `specs/Prune` (what is asked, and where the collector stands then),
//! `specs/PruneLaws` (what turns promise, over rows alone) with `specs/Changed` (what a turn may have changed of an item's rows) and
//! `specs/Marks` (which rows of items are to be marked, led past and left adrift), and `specs/Collectors` (eight of them).
//!
//! Proved:
//! - `query` asks and `resume` moves the collector and says as the definitions do (`prune_asks`, `prune_next`, `prune_output`); after a
//!   call of the table it is out of memory only for what was lent. `turn` does both, in at most one call of the table; after an
//!   error the collector stands before the row that it had begun (`anew`). `Collectors` are eight of them, each moved by itself.
//! - Laws: over a table that tells its rows a turn goes so, an error leaves the rows, and it is never full
//!   (`a_turn_goes_so_over_tables`). What an intent left is to go only where the turn before looked at the intent's row and found
//!   none, or a finish more than a life ago (`only_recyclable_rows_are_to_go`). `Removed` says that a row went, and which; `Marked`,
//!   `Skipped` and `Dangled` which cell of an item was set to what; else all rows stay; `Round` says that no row follows
//!   (`a_turn_outputs_what_it_did`). The newest ticket's row stays (`the_newest_ticket_stays`). A row that was begun lies past the
//!   cursor, and the cursor is set to it once (`a_collector_keeps_its_invariant`, `rows_are_passed_in_order`).
//! - Laws of rows of items: one is to be marked only after a look at each intent of its entries found that gone or old
//!   (`only_proved_rows_are_to_be_marked`), the rows before are to lead past it only once it is marked
//!   (`only_marked_rows_are_led_past`), and it is left adrift only where a row below was seen or made to lead past it
//!   (`only_passed_rows_are_to_dangle`).
//!
//! Files:
//! - Code (`src/`): `found` what is to be done with a row; `entries` the intents of its entries, and `unlink` what is to be done
//!   with a row of an item; `asking` what is asked; `collector` the machine, and its turns; `collectors` eight of them; `laws`.
//! - Lemmas (`proofs/`): `CollectorInvariant` where turns lead, `Order` that each row is passed once, `Gone` what may go; `PruneOutput` what turns say
//!   and leave, `PruneNewest` that the newest ticket's row stays; `Judged` what is so of a row by what is to be done with it, `Named` of
//!   its intents, `Proved` what is marked, `Passed` what is led past; `Tables` turns over tables.
#![tactic(auto)]

mod asking;
mod collector;
mod collectors;
mod entries;
mod found;
mod laws;
mod unlink;

pub use collector::{CollectorAt, GcOutput, LogCollector};
pub use collectors::Collectors;
pub use entries::Intents;
pub use laws::{
    a_collector_keeps_its_invariant, a_turn_goes_so_over_tables, a_turn_outputs_what_it_did,
    only_marked_rows_are_led_past, only_passed_rows_are_to_dangle,
    only_proved_rows_are_to_be_marked, only_recyclable_rows_are_to_go, rows_are_passed_in_order,
    the_newest_ticket_stays,
};
