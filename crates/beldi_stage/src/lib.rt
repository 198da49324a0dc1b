//! The stages of an effect: what each asks of the table, and what it says of what it was told. Nothing here touches a table. It
//! stands on `beldi_step`, which says what a stage asks and says, and on the walks' parts.
//!
//! Proved:
//! - `stage_query` asks what the stage of a run asks (`stage_asks`), and `hear` says what it says (`stage_output`); out of memory, it tells
//!   the mark of the act. `first_stage` is where an effect begins, or none where it is not carried out.
//! - An operation inside a transaction asks as the transaction, and makes no entry (`tx_here_asks`, `tx_says`), and the entry is made with
//!   the decision of the end, as a commit, or as an abort with the cause of what was aborted (`end_mark`, `decided_output`). Then the end
//!   visits all who took part (`end_here_asks`, `visit_output`); where it comes to a full row that no row can follow, it waits, and the
//!   run is as it was (`left_of`). Inside, a run that comes to a lock, an unlock or a call that nobody waits for is over
//!   (`first_stage`).
//! - What is called in a transaction is in it throughout, and the call, the operations and the return make no entry (`callee_by`,
//!   `step_mark`, `back_output`). It is stamped by the owner's end, and not by its own (`close_asks`).
//! - `stage_walk` is the row that the walk of a stage looks at next (`stage_walking`), past the first row of its item, and `set_row` sets
//!   that walk to another row (`stage_to`).
//!
//! Files:
//! - Code (`src/`): `stage`, with `call_stage` for calls and `tx_stage` inside a transaction and at its end: what a stage
//!   asks and says; `stride` the walk that it makes.
//! - Lemmas (`proofs/`): `Ended` a visit leaves no mark.
#![tactic(auto)]

mod call_stage;
mod stage;
mod stride;
mod tx_stage;

pub use call_stage::callee_body;
pub use stage::{first_stage, hear, look, place_of, stage_query};
pub use stride::{may_walk, set_row, stage_walk};
pub use tx_stage::tx_at;
