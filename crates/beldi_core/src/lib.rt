//! The host without its table: it plans each event, and follows what the table told. It stands on `beldi_step`, which says what one
//! event does, and on `beldi_turn`, which carries out a run's turn. Its definitions: `specs/PlannedEvent` (what holds between an event's
//! question and its answer), `specs/LiveRuns` (the live runs by number) and `specs/Counts` (how many of them each intent has).
//!
//! Proved:
//! - `HostCore::plan` answers an event at once, asks one thing, or says of a halt that all rows are to be read; `resume`, `refused` and
//!   `halted` follow what was told, refused or read, as the definition of an event says (`PlannedOf`, `Asked`, `halt_next`); so do `plan_turn`,
//!   `turned` and `turn_refused` of a turn (`TurnPlanned`); crashes, lost answers, restarts, faults, want of room and out of memory are
//!   cases of it.
//! - `Runs::next_after` is the least live run past a number (`IsLeastPast`), the first one in their order (`first_past`).
//! - `HostCore::walking` is the row that a run's walk looks at next (`WalkTold`), and `stride` sets the run to another one, by so many turns
//!   (`strode`).
//!
//! Files:
//! - Code (`src/`): `host_core` the host without its table; `turns` what a turn asks, and what follows, `events` the same of all other events; `live` the live runs in the order of their
//!   numbers; `runs` what is kept of them; `counts` how many of them each intent has.
//! - Lemmas (`proofs/`): `Plans` a plan, followed, is one step; `Callees` a run of what is called, made after the turn; `RunMaps`; `CountMaps`, `Counting` what is counted of the
//!   runs; `Least` the least number past another; `Truths`.
#![tactic(auto)]

mod counts;
mod events;
mod host_core;
mod live;
mod runs;
mod turns;

pub use events::{Declined, Immediate, LAST_MOMENT, MOST_EVENTS, Pending, Planned, turn_in};
pub use host_core::HostCore;
pub use runs::{Callee, Copies, Runs};
pub use turns::{TurnPlan, TurnReply, told_in};
