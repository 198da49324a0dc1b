//! What a sweep of a log collector leaves of a table's rows, once all work is past, and how many turns a round takes, whatever the rows are.
//! It has no code.
//!
//! A sweep gives a log collector (`beldi_prune`) turns up to the one that ends its round (`specs/Sweep`); nobody else acts meanwhile, and the
//! moment stands. `specs/SweptRows` says of which rows this is told: each intent is idle (`IsIdle`), so whatever belongs to one is old
//! (`AllIsOld`), and the rows of each item are sound (`AreSound`). Then rows are trimmed where no row is there that an intent left, no
//! intent's but that of the newest ticket, and of an item the first row, the last, and rows that are adrift; and tidy where none is adrift.
//!
//! Proved (`specs/SweepLaws`, `specs/Rounds`):
//! - A sweep that begins before all rows leaves trimmed rows (`a_sweep_trims`), and, of trimmed rows of which each that is adrift is so for
//!   more than a life, tidy ones (`a_sweep_tidies`).
//! - Wherever its collector stands, and whatever work goes on, a round takes for each row at most eleven turns and one for each row of its
//!   item, and the one that ends it; of a row that was begun it takes what is left (`a_round_ends`). For this rows are to be ordered: those of an
//!   item lead to later ones, and have at most eight entries. Sound rows are, and they stay so (`ordered_rows_stay_ordered`).
//! - What is old stays so, whatever turn a collector takes, and later on (`what_is_old_stays_old`).
//!
//! Files:
//! - Code (`src/`): `laws` one function a law, with no body.
//! - Lemmas (`proofs/`): `Going` turns one after another; `SweptPlaces` the rows past a cursor; `Old` what stays old
//!   or idle, and `Moments` since when rows are adrift; `Passing` a row that is passed or goes, `Logs` all rows but later ones of items, of
//!   these `CellsTurned` each turn, `CellsSound` that their chain stays sound, `CellsKept` what else stays, `Cells` all turns; `Loop` row after row
//!   to the end of the round. `Ordered` that rows stay ordered; `Sums` sums over keys, `Ahead` the rows on the way to one of an item, `Spending`
//!   what is left of a round, of which each turn takes one, `Ending` that it ends.
#![tactic(auto)]

mod laws;

pub use laws::{
    a_round_ends, a_sweep_tidies, a_sweep_trims, ordered_rows_stay_ordered, what_is_old_stays_old,
};
