//! The walks of calls, and their parts, which runs share. It stands on `beldi_invokelog` and `beldi_intent`.
//! Their definitions: `specs/Call` (a call that waits for its result) and `specs/Async` (a call that nobody waits for).
//!
//! Proved:
//! - The parts ask, say and go on as the definitions do (`call_asks`, `call_output`, `call_next`, `async_asks`, `async_output`,
//!   `async_next`); after a call of the table it is out of memory only where what lies in a row was lent.
//! - `CallWalk::turn` and `AsyncWalk::turn` ask what the definitions ask, in at most one call of the table, and go and say by
//!   what was told, whatever the table tells; at an error they stand where they stood (`Turned`), and the rows are as before
//!   (`an_error_leaves_the_rows` of `beldi_query`).
//! - Laws: a call is done exactly where a result is kept, and tells that one; `Opened` comes at the turn that opens the call, and
//!   `NotYet` at those that look at it (`a_call_tells_its_result`). An asynchronous call is done exactly where it is then registered,
//!   at the turns that open it and mark it and at no other; it is marked only once the row of its callee is there
//!   (`a_callee_is_enrolled`), which stays there (`an_enrolled_callee_stays`). A place has one callee, and a callee one place
//!   (`a_call_stays` of `beldi_invokelog`, `a_callee_has_one_place`).
//!
//! Files:
//! - Code (`src/`): `call` a call that waits for its result, `async_call` one that nobody waits for: parts and walks; `laws`.
//! - Lemmas (`proofs/`): `CallTurns`, `Callees`.
#![tactic(auto)]

mod async_call;
mod call;
mod laws;

pub use async_call::{
    AsyncAt, AsyncOutput, AsyncWalk, CallPlace, async_next, async_query, async_told,
};
pub use call::{CallAt, CallOutput, CallWalk, call_next, call_query, call_told};
pub use laws::{
    a_call_tells_its_result, a_callee_has_one_place, a_callee_is_enrolled, an_enrolled_callee_stays,
};
