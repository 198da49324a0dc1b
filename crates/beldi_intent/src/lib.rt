//! The rows of intents: the calls on them, and the parts that runs, walks and the host share. It stands on `beldi_row` and
//! `beldi_query`. Its definitions: `specs/Intent` (what is asked of the row of an intent, and what follows from what is told).
//!
//! Proved:
//! - The parts ask what the definitions ask (`issue_asks`, `bind_asks`, `register_asks`), of the row of an intent in its home
//!   (`intent_key`), and answer by what was told as the definitions say (`is_added`, `binding_of`, `is_did`); `open_body` is
//!   the body of an intent that has not ended.
//! - `issue`, `bind`, `register`, `look`, `end` and `stamp` make one act on the row of an intent, in at most one call of the table, and
//!   answer by what it told (`Answered`).
//! - Laws: a row is added where none was (`a_root_is_put_once`, `a_callee_is_put_once`); `look` tells the intent that is there
//!   (`an_intent_is_told`); a body, an outcome and a finish are set where the intent has none, and at every other answer and every
//!   error the rows are as before (`a_body_is_set_once`, `an_outcome_is_set_once`, `a_finish_is_set_once`); whatever is asked of a table, but
//!   that a row is removed, an intent that was put stays, with its body, its outcome and its finish (`an_intent_stays`).
//!
//! Files:
//! - Code (`src/`): `intent` calls on the rows of intents, and their parts; `laws`.
//! - Lemmas (`proofs/`): `Intents`.
#![tactic(auto)]

mod intent;
mod laws;

pub use intent::{
    Binding, Put, bind, bind_query, bind_told, end, end_told, intent_key, issue, issue_query,
    issue_told, look, open_body, register, register_query, root_key, stamp, stamp_query,
};
pub use laws::{
    a_body_is_set_once, a_callee_is_put_once, a_finish_is_set_once, a_root_is_put_once,
    an_intent_is_told, an_intent_stays, an_outcome_is_set_once,
};
