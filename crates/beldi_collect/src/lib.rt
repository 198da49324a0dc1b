//! The intent collector: its walk, and the parts that the host shares. It stands on `beldi_intent`.
//! Its definitions: `specs/Collect` (what is asked, and what is found) and `specs/Cursor` (the walk).
//!
//! Proved:
//! - The parts ask and find as the definitions do (`collect_asks`, `collect_output`); after a call of the table they are out of
//!   memory only for what was lent.
//! - `IntentCursor::turn` asks for the row after the cursor, in at most one call of the table, and goes and says by what was told,
//!   whatever the table tells; at an error it stands where it stood (`Turned`). `pass` sets it after the row that was kept.
//! - Laws: `Unended` tells an intent that has not ended, and its body, and the cursor stays before it; any other row is passed,
//!   and `Round` says that no row follows (`the_next_intent_is_told`). Past a row no intent is left out (`no_intent_is_jumped`).
//!
//! Files:
//! - Code (`src/`): `cursor` what the intent collector asks and finds, as parts; `intent_cursor` its walk; `laws`.
//! - Lemmas (`proofs/`): `CollectTurns` what a turn tells; `Jumps` that no intent is left out.
#![tactic(auto)]

mod cursor;
mod intent_cursor;
mod laws;

pub use cursor::{Found, collect_query, collect_told};
pub use intent_cursor::{IcOutput, IntentCursor};
pub use laws::{no_intent_is_jumped, the_next_intent_is_told};
