//! The plain machine as definitions: a run of functions on plain maps, with no rows, runs, crashes or clock. It says what a book
//! means. It stands on `beldi_lang` and `beldi_book`; `beldi_executor` carries it out. Its definitions: `specs/Plain` (the plain state
//! and its step), `specs/Item` (an item and its order), `specs/Operation` and `specs/Holds` (an effect that is one operation on an
//! item, and who holds a lock), `specs/Transaction` and `specs/Moves` (a transaction as one step, and as a list of moves), `specs/PlainEntries`
//! (the state after an entry), `specs/Guard` and `specs/Legal` (entries that are guarded by locks, the legal book and its run),
//! `specs/Replies` (the roots that a book starts, and their outcomes), `specs/Listing` (the listing of a plain state).
//!
//! Files:
//! - Code (`src/`): `kind` how an effect is entered.
#![tactic(auto)]

mod kind;

pub use kind::Kind;
