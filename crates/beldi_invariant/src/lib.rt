//! What every event of the host keeps: the book is legal, and the rows stand for its plain run. It has no code.
//! It stands on the step of the host, on the plain machine, and on what rows hold and are expected to (`beldi_histories`). Its
//! definitions: `specs/Invariant` (the invariant, with what a run knows at each stage), `specs/FoundInside` (what an operation inside a transaction has
//! found, and what an event keeps for the runs of others), `specs/OneAnswer` (what was answered to the steps of an instance), `specs/Deaths` (what a death says), `specs/InvariantLaws` (the laws).
//!
//! Proved:
//! - A host that nothing has happened to has the invariant, over no rows (`the_invariant_holds_at_the_start`).
//! - Every event keeps it, also out of memory (`an_event_keeps_the_invariant`).
//! - Where it has the invariant, the book is legal (`the_invariant_implies_legal`), the rows stand for the book's run (`the_invariant_implies_stands`), those of who
//!   was called in a transaction exactly where that has committed, and the listing of the rows is that of the run
//!   (`listing_is_plain`). The rows stand for it in their owners too: an intent owns an item exactly where its instance holds the
//!   lock in the run, and a transaction one only while it is open, or, once it is decided, until its owner ends.
//! - Also where it has the invariant, an outcome that an event tells is the root's in that run (`replies_are_outcomes`), and
//!   stays (`outcomes_stay`); one that a root gets by an event is told by it, unless the answer was lost (`a_first_outcome_is_told`); no ticket is answered as one without a row (`tickets_have_rows`); and each step of an
//!   instance that has a history beside the run of the book has one answer, which the rows hold, and each of its runs was
//!   given the first of them (`each_step_has_one_answer`). What was made goes on (`instances_go_on`), so runs that never live together are
//!   given the same.
//! - Whether it has the invariant or not, what rows hold at a step stays (`held_answers_stay`).
//! - The book starts the requests that were bound, in order, and none out of memory (`starts_are_bound`).
//! - An event changes at most one row, by one act, which removes no row, and an item that it is no row of keeps its content
//!   (`an_event_changes_one_row`), and the book gets at most one entry, the one that its answer tells where the answer
//!   was not lost (`an_event_writes_what_it_tells`).
//! - The rows never exceed the room, where they did not before (`an_event_keeps_the_room`).
//! - Whatever act there is on whatever row: a death is noted and told only by the lock of a transaction, of an item that another owns, whose age
//!   it has, and who asked is not older (`a_death_has_a_holder`).
//! - Over any table, an event is answered as dropped only where its answer was lost, or where the table's count of
//!   failures rose (`a_dropped_answer_has_a_cause`).
//!
//! Files:
//! - Code (`src/`): `laws` one function a law, with no body.
//! - Lemmas (`proofs/`): `Cases` cases of a value; `Outside` steps outside transactions, and what is known there; `Passing`
//!   what a run is in at a call or a return; `Committed` what stands for an instance; `Grown` that instances go on; `Shown`
//!   what rows show of a plain state; `KeptWellFormed` that what the histories have stays well formed; `Lives` live runs; `Moves` the host after an
//!   event; `Frames` what a row that is set leaves for others, `Others` that they keep what they found, `Keeping` both for
//!   turns outside; `Settling` what rows keep of transactions, where an instance is set; `OpenOf` what a run is in after
//!   answers, `Ended`, `Released` past an end nothing is owned; `StageTurns` what each output of a stage leaves; `ExpectedOutside` what
//!   the rows have of a step; `OperationTurns` the turn of an operation on an item, by the law that a chain is a logged cell,
//!   `Readings` that of a read; `Registered` the row of a callee, and `Beginnings`, `CallsHere`, `Callings`, `Asyncs`,
//!   `GivingBack`, `Endings` the turns at which a run begins, calls, returns (`Returns`) and ends; `InTx` a run at an
//!   operation inside, `Locking` its turns up to the lock, by the `Ages` of owners, `Working` those past it; `Deciding` the
//!   decision, by what has `Fallen`; `Visiting` the visits after it, of the `Members` that its calls lead to, by the `Widths`
//!   of ids, which are `Short`, `Visits` that they begin and stay so, `Closing` that who has its finish has given back all,
//!   `Askers` that one of them asked the lock of what is owned still; `Events` what an event keeps; `Owning` who owns an item;
//!   `NewestTicket` the tickets that keys name; `Standing`, `Starts`, `Listing` what follows; `OneAnswer` one answer, and that no act takes it away; `OneEvent` what one event changes, and
//!   what of it is told; `FirstOutcomes` that a first outcome is; `Deaths` who a death is of.
#![tactic(auto)]

mod laws;

pub use laws::{
    a_death_has_a_holder, a_dropped_answer_has_a_cause, a_first_outcome_is_told,
    an_event_changes_one_row, an_event_keeps_the_invariant, an_event_keeps_the_room,
    an_event_writes_what_it_tells, each_step_has_one_answer, held_answers_stay, instances_go_on,
    listing_is_plain, outcomes_stay, replies_are_outcomes, starts_are_bound,
    the_invariant_holds_at_the_start, the_invariant_implies_legal, the_invariant_implies_stands,
    tickets_have_rows,
};
