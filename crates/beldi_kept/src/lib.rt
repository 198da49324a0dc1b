//! Rows that were kept: the invariant over a table from which rows of intents that ended may go, where it begins, and what keeps it. It has
//! no code. It stands on what every event keeps (`beldi_upkeep`), which it leaves as it is.
//!
//! The invariant (`specs/KeptRows`: `HasKept`): there are rows for which all holds that every event keeps (`Upkeep`, and `Wanted` of
//! `beldi_wanted`), as if no row had ever gone; some intents are gone; at each key the table has the kept row, or none, and then the row is
//! of an intent that is gone (`specs/Less`). Who is gone has a finish that was old at some moment (`latest`), or is a root without body before
//! the newest ticket; no run that may act works for it; and the newest ticket has its row.
//!
//! Proved (`specs/KeptLaws`):
//! - It holds over no rows (`begins_kept`); and over rows that are all there it is what every event keeps: nobody is gone then
//!   (`rows_that_are_there_were_kept`, `rows_are_there_while_nobody_is_gone`).
//! - Where the table has no row of the intent of a kept row, or one whose finish is more than a life ago, the intent is gone or old
//!   (`looks_find_the_old`), and stays so (`the_old_stay_old`).
//! - A row of an intent that is gone or old may go, but that of the newest ticket (`rows_of_the_old_may_go`), and so may the row of a root
//!   without body (`unbound_roots_may_go`). So the acts that drop rows keep it, also where no row goes: the one that drops the row of an
//!   intent once it is old, of any but the root of the newest ticket (`an_intent_may_be_dropped`), and the one that drops another row, of
//!   an intent that is gone or old (`a_row_may_be_dropped`).
//! - Every event that there is keeps it, whatever it came to, and what was found of kept rows is so still (`an_event_keeps_it`): over the
//!   kept rows it is that event, or none; but for the turn of a run that visits who is gone, which may go on faster.
//! - No event adds a row under a key of which a row went (`no_row_comes_back`).
//! - The newest ticket is read off the table's keys (`the_newest_ticket_is_read`), and where the intent collector stands is nothing to it
//!   (`the_cursor_is_free`).
//!
//! Proved of the host's log collectors (`specs/Safe`: `IsSafe`, the invariant, and of each collector what it found of a row that it has
//! begun: that its intent is gone or old; or of an item's, that each entry is of such an intent, that it is marked and the row that is looked at
//! on the way to it, or that no row leads to it): it holds where none has begun a row (`idle_collectors_are_safe`); every event and every turn of a collector keeps it, also one
//! that the table failed (`an_event_keeps_the_collectors_safe`, `a_pruning_keeps_all_safe`), and so does moving the intent collector
//! (`the_cursor_is_nothing_to_collectors`). A row that a turn removed was old, an item's and long adrift, or of who is gone or old
//! (`only_old_rows_go`). A turn of a
//! collector leaves all of the host but the count of events and where the collectors stand (`a_pruning_moves_only_collectors`), and where
//! it said no change all rows are there that were (`a_pruning_without_a_change_keeps_all_rows`), also where it said no mark and no removal
//! (`a_pruning_without_a_mark_keeps_all_rows`). The owner of an item has its intent's
//! row in the table, so no collector takes it (`owners_have_their_rows`), and no event gives a row of an item an owner whose intent has
//! none (`owners_come_with_their_rows`).
//!
//! Proved of what the table's rows tell (`specs/StandsLess`): they stand for the run of the book, but that of a transaction whose decision is
//! absent, and of its shadows, they tell only where its owner's row is there, and its finish was not old at that moment
//! (`rows_that_are_left_stand`); they list it (`rows_that_are_left_list_the_run`); and an intent whose row is there so, with its owner's,
//! has one answer a step (`fresh_intents_have_one_answer`). By a later moment they tell no more (`rows_stand_by_later_moments`).
//!
//! Proved of what is told (`specs/KeptReplies`): over the kept rows an event is that event, with that answer, or the book stays, and neither an
//! outcome is told nor an entry (`an_answer_is_of_kept_rows`). So the book is legal, replies are outcomes, first outcomes are told, what
//! was made goes on and outcomes stay, as over all rows (`books_are_legal_still`, `replies_are_outcomes_still`,
//! `first_outcomes_are_told_still`, `instances_go_on_still`, `outcomes_stay_still`).
//!
//! Files:
//! - Code (`src/`): `laws`, `safe`, `stands`, `replies` one function a law, with no body.
//! - Lemmas (`proofs/`): `Less` one row set in both; `Gone` the home of who is gone; `Begins`, `Removals`, `Drops` the
//!   acts that may remove a row; `Step` what is to be so of the kept rows after an event; `Turn` a turn that is the same over both;
//!   `NextAlike`, `Between` what the next row tells, `VisitAlike` a visit that is the same, `Elsewhere` a run at another visit, `Visits`
//!   those of who is gone; `KeptNewest` the newest ticket; `Events` each event; `KeptKeeps` all of it; `Passing` what collectors found
//!   stays so, `Seated` whose entries rows have, `Declared` who is old is gone, `CellSets` a row of an item is marked, led past, left adrift or
//!   removed, `KeptTurns` a turn of a collector, `Looks` and `Finds` what it found by it, `Collecting` the host's collectors, `WholeTurns` those over
//!   rows that are all there; `Alive` whose rows the table has, `Owned` that owners are among them, `LeftRows` what these tell; `Telling`.
#![tactic(auto)]

mod laws;
mod replies;
mod safe;
mod stands;

pub use laws::{
    a_row_may_be_dropped, an_answer_is_of_kept_rows, an_event_keeps_it, an_intent_may_be_dropped,
    begins_kept, looks_find_the_old, no_row_comes_back, rows_are_there_while_nobody_is_gone,
    rows_of_the_old_may_go, rows_that_are_there_were_kept, the_cursor_is_free,
    the_newest_ticket_is_read, the_old_stay_old, unbound_roots_may_go,
};
pub use replies::{
    books_are_legal_still, first_outcomes_are_told_still, instances_go_on_still,
    outcomes_stay_still, replies_are_outcomes_still,
};
pub use safe::{
    a_pruning_keeps_all_safe, a_pruning_moves_only_collectors,
    a_pruning_without_a_change_keeps_all_rows, a_pruning_without_a_mark_keeps_all_rows,
    an_event_keeps_the_collectors_safe, idle_collectors_are_safe, only_old_rows_go,
    owners_come_with_their_rows, owners_have_their_rows, the_cursor_is_nothing_to_collectors,
};
pub use stands::{
    fresh_intents_have_one_answer, rows_stand_by_later_moments, rows_that_are_left_list_the_run,
    rows_that_are_left_stand,
};
