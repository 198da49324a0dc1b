//! The step of the host as definitions: events, their answers, the runs of instances, and what one event does. Nothing here touches a
//! table. Its definitions: `specs/Run` (what a run asks in its next turn, and where it goes after what it was told),
//! `specs/HostStep` (the host without its table, what an event asks, what follows, and what one event does), `specs/StepLaws` (the same over rows
//! that are told, and over any table), `specs/RunDeadlines` (which deadlines runs are given), `specs/Shut` (halts), `specs/Prunes` (a turn of a log collector), `specs/CalledInside` (a run that was called in a transaction), `specs/RunStride` (a run that walks along rows), `specs/EventContent` (what an event and its
//! answer tell), `specs/Noted` (the answer that a note stands for) and `specs/Tables` (the listing of the rows). `beldi_stage` and `beldi_turn` carry out what a run does, and `beldi_core` what an event does.
//!
//! Proved:
//! - What one event does is defined here: it is answered at once, or makes one query, and one witness says what that came
//!   to. Over rows that are told it is a relation between the host and the rows before and after (`a_step_over_rows`).
//!   Over any table it makes at most one call, and none where it is answered at once: then the table is as it was
//!   (`a_step_over_any_table`). A halt alone reads the keys of all rows: its witness is the newest ticket, or what the reading met.
//! - An event whose query the table failed is answered as dropped, and makes nothing: a run that had it is over
//!   (`a_failure_makes_nothing`; its words are in `specs/Failures`).
//! - A turn of a log collector is no event of a run: it is a relation of its own, over rows that are told (`a_pruning_over_rows`) and over any
//!   table (`a_pruning_over_any_table`). An event leaves the collectors where they stand, and a halt sets them before all rows
//!   (`an_event_leaves_the_collectors`).
//! - After a halt no run is live (`a_halt_ends_the_runs`). Answered as halted it leaves what is first over these rows, but for moment, book
//!   and counts (`a_halted_host_is_as_opened`); where the table failed the host is shut (`a_failed_halt_shuts`), and answers so, and does
//!   nothing, until one is answered as halted (`a_shut_host_answers_shut`, `only_a_shut_host_answers_shut`, `a_shut_host_stays_shut`,
//!   `a_shut_host_has_no_runs`).
//! - What is called in a transaction stays in it (`a_run_stays_in_its_transaction`), begins each effect as an operation of it, a call
//!   or a return (`a_run_begins_inside`), and makes no entry (`a_run_inside_makes_no_entry`): the words of these laws are in
//!   `specs/CalledInside`.
//! - A walk along an item's rows goes on where a row has nothing for it: such a turn does no more than to set the run to the next row
//!   (`a_walk_goes_on`, in the words of `specs/RunStride`).
//! - No run acts past its deadline: an event of it is answered at once, and ends it (`a_run_expires_past_its_deadline`).
//! - A run that a call started has the deadline of its caller, and any other one a life from its start on
//!   (`a_called_run_has_its_callers_deadline`). It keeps that deadline (`a_run_keeps_its_deadline`), and none is more than a life
//!   ahead, whatever came and whatever the table holds (`an_event_keeps_deadlines_soon`, `no_live_run_is_past_a_life_from_now`): the
//!   words of these laws are in `specs/RunDeadlines`.
//!
//! Files:
//! - Code (`src/`): `event` events and answers; `run` the runs of instances, as data; `laws`.
//! - Lemmas (`proofs/`): `AnyStep` both; `Prunes` the same of a turn of a log collector; `Failures`; `Plans` which plans and answers speak of a halt, `Shut` what is said of it; `PastDeadline` no run acts past its deadline; `StepRuns` the live runs after an event,
//!   `Given` which deadlines they have; `CalledInside`; `Stride` and `Forward` a run that walks; `PutRun` a map of runs.
#![tactic(auto)]

mod event;
mod laws;
mod run;

pub use event::{Event, EventReply, Pruned};
pub use laws::{
    a_called_run_has_its_callers_deadline, a_failed_halt_shuts, a_failure_makes_nothing,
    a_halt_ends_the_runs, a_halted_host_is_as_opened, a_pruning_over_any_table,
    a_pruning_over_rows, a_run_begins_inside, a_run_expires_past_its_deadline,
    a_run_inside_makes_no_entry, a_run_keeps_its_deadline, a_run_stays_in_its_transaction,
    a_shut_host_answers_shut, a_shut_host_has_no_runs, a_shut_host_stays_shut,
    a_step_over_any_table, a_step_over_rows, a_walk_goes_on, an_event_keeps_deadlines_soon,
    an_event_leaves_the_collectors, no_live_run_is_past_a_life_from_now,
    only_a_shut_host_answers_shut,
};
pub use run::{
    Begun, Mark, OpenTx, Run, RunAt, RunTx, Stage, StageOutput, TurnOutput, Wait, Walking,
};
