//! One turn of a run: what it asks of the table, and where it goes by what it is told. Nothing here touches a table. It stands on
//! `beldi_step`, which says what a turn is, and on `beldi_stage`, which has the stages of an effect.
//!
//! Proved:
//! - `ask` asks what the definition of a run asks, and `resume` goes where it goes; out of memory, the error tells the mark of the act
//!   (`Turns`). `callee` is a run of what a run calls, with its deadline (`callee_of`).
//! - A run carries out the transactions that its function begins: a begin and an abort take no turn (`local_steps`).
//! - `walking` is the row that a run's walk looks at next, past the first one of its item, and `walk_to` sets the walk to another one
//!   (`walked`).
//!
//! Files:
//! - Code (`src/`): `turn` what a run asks in its next turn, and where it goes by what it is told; `begun` its machine and
//!   transaction, past an answer.
//! - Lemmas (`proofs/`): `RunTurns` a run that was told.
#![tactic(auto)]

mod begun;
mod turn;

pub use turn::{ask, callee, may_stride, resume, walk_to, walking};
