//! The calls that were made, kept once a place, and the parts of it that walks share. It stands on `beldi_row` and `beldi_query`.
//! Its definitions: `specs/InvokeLog` (the call of a place, by its row; what is asked, and what is answered by what was told).
//!
//! Proved:
//! - `open_query`, `result_query` and `registered_query` ask what the definitions ask of the row of a place (`invoke_key`), and
//!   `invoked_told`, `result_told` and `back_told` answer by what was told as the definitions say (`invoked_of`, `result_of`,
//!   `back_of`); it is out of memory there only where what lies in a row was lent.
//! - `open_once`, `result`, `call_back` and `registered` each ask one thing, in at most one call of the table, and answer so by
//!   what was told (`Answered`).
//! - Laws: a call is put where no row was, without a result, and one that was there is told (`a_call_is_put_once`); `result`
//!   tells the result that is kept, none exactly where none is (`a_result_is_told`); a result is set where the call has none, and a
//!   mark where it has none, and at `AlreadySet`, `Absent` and every error the rows are as before (`a_result_is_set_once`,
//!   `a_registration_is_set_once`); whatever is asked of a table, but that a row is removed, a call that was put stays, with its
//!   function, its result and its mark (`a_call_stays`). So a place has one callee.
//!
//! Files:
//! - Code (`src/`): `invoke_log` the calls that were made, for calls and walks; `laws`.
//! - Lemmas (`proofs/`): `InvokedCalls`.
#![tactic(auto)]

mod invoke_log;
mod laws;

pub use invoke_log::{
    Back, Invoked, back_told, call_back, invoke_key, invoked_told, open_once, open_query,
    registered, registered_query, result, result_query, result_told,
};
pub use laws::{
    a_call_is_put_once, a_call_stays, a_registration_is_set_once, a_result_is_set_once,
    a_result_is_told,
};
