//! The executor of the plain machine. It stands on `beldi_check` and `beldi_plain`. Its definitions: `specs/Answers` (what a call
//! answers, and what bars an entry), `specs/Executor` (what contracts see of the executor, and which machines it keeps), `specs/TransactionInPlace`
//! and `specs/Undo` (a transaction under way, and what it has set in place) and `specs/ByTable` (the items table by table).
//!
//! Proved:
//! - `Plain::start` and `carry_out` succeed just where the entry is enabled, and else say what bars it and change
//!   nothing (`Did`); `step` makes the next step of an instance, whatever it is (`DidStep`).
//! - `Plain::commit_tx` and `abort_tx` carry out a transaction as one step, with all that it calls, up to its end with commit, or to the place
//!   where it aborts: by itself, by a fault, or as an older holder has the lock. One that aborts leaves the answers of its owner, and none
//!   of its writes and of those whom it called (`Did`).
//! - A call makes its callee, whose caller waits until it returns and is then answered by its outcome: a value, a fault or an
//!   abort (`step_by`, `answer_caller`). An instance that waits has no step (`is_waiting`).
//! - An asynchronous call makes its callee and is answered at once; the callee's return answers nobody. No callee is made twice.
//! - `Plain::run` runs a book in its linear order, or stops at the first entry that is not enabled (`Ran`).
//! - `reply`, `value` and `tables` read its state (`reply_of`, `value_at`; `ok`, `err`).
//!
//! Files:
//! - Code (`src/`): `plain` the executor; `state` the plain state; `instance`, `instances`; `cells`, `tables`, `items` the
//!   items, table by table; `machines` the machines that are kept, `next` what a step leaves for them; `kind` how the effect
//!   of an instance is entered; `transaction` a transaction as one step, `draft` one under way, `undo` what it has set.
//! - Further definitions (`specs/`): `Codes` plain states as data.
//! - Lemmas (`proofs/`): `Made` the state after a step, by its parts; `ExecutorKept` machines that are kept stand for their
//!   instances; `ByTable` items table by table; `Finite` maps; `ExecutorRuns` the first entries; `Bars` what bars an effect;
//!   `Drafts`, `CallStacks`, `Leads`, `ExecutorWhole` a transaction under way; in it `Entered` a call, `Returned` a return, `Touched` an
//!   operation, `ExecutorFalls` the end, `InPlace` what is set.
#![tactic(auto)]

mod cells;
mod draft;
mod instance;
mod instances;
mod items;
mod kind;
mod machines;
mod next;
mod plain;
mod state;
mod tables;
mod transaction;
mod undo;

pub use plain::{Bar, Plain, PlainErr};
