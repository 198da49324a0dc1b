//! What sweeps of a host's log collectors leave of its rows. It has no code.
//!
//! The rows of a host with the invariant (`HasKept` of `beldi_kept`) are such as `beldi_sweep` asks for: they are sound (`rows_are_sound`), and once all intents
//! are idle, what belongs to one is old (`idle_rows_are_old`), and no item has a row that was made and never linked
//! (`idle_items_end_once`). A sweep of the host is one over rows as long as nothing keeps a turn from
//! them (`specs/Sweeping`: `Sweeps`, `IsUntroubled`): the table failed in none, and the host was neither shut nor spent.
//!
//! Proved:
//! - Such a sweep of a host with the invariant keeps its promises (`sweeps_are_as_promised`): it ends with the turn after at most eleven for each row and one
//!   for each row of its item, with its collector before all rows. Once all intents are idle, one that began so leaves trimmed rows; and
//!   tidy ones, of trimmed rows of which each that is adrift is so for more than a life; and all intents stay idle.
//! - Three sweeps of one collector, wherever it stood, leave tidy rows, where the third begins more than a life after the second
//!   (`three_sweeps_tidy`): of an item at most two rows, its first and its last.
//!
//! Files:
//! - Code (`src/`): `laws` one function a law, with no body.
//! - Lemmas (`proofs/`): `Sound`, `Old` and `Ending` of the rows of a host with the invariant; `Sweeping` its sweeps, and three of them.
#![tactic(auto)]

mod laws;

pub use laws::{
    idle_items_end_once, idle_rows_are_old, rows_are_sound, sweeps_are_as_promised,
    three_sweeps_tidy,
};
