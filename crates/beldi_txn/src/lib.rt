//! The walks of transactions, for calls, and their parts, for runs: an operation in a transaction, and the end of a transaction for
//! its owner. It stands on `beldi_lang`, whose effects it takes, and on `beldi_daal`, `beldi_lock`, `beldi_readlog`,
//! `beldi_invokelog` and `beldi_intent`.
//! Its definitions: `specs/Tx` (what an operation asks, and what follows from what it is told) and `specs/TxWalk`; `specs/TxTurn`
//! (what its turn leaves, and that what it answers is so of the rows); `specs/Invokes` (the calls of an intent, one after another) and
//! `specs/CallPath` (the calls that lead to a participant); `specs/End` (the end, and its walk) and `specs/Visited` (that it visits all who
//! took part), `specs/Closed` (that it may pass over who is closed). The transaction's own copy of an item is called its shadow there.
//!
//! The end keeps the decision, and then visits the owner. To visit an intent is to visit each of its callees, in the order of its
//! steps, by the rows of its calls (the owner's between the transaction's begin and its end); then to give back each item that it
//! asked the lock of, in the order of their keys, by the rows that say so; and then to give a participant's row its finish. An item
//! that is not the transaction's, or no longer, is passed over, and a finish that is there stays: so each is done once, however many
//! ends there are, and wherever one of them stops.
//!
//! Proved:
//! - The parts say what the definitions say: what an operation and an end ask, and where they go after they were told (`tx_asks`,
//!   `tx_goes`, `visit_asks`, `end_goes`); after a call they are out of memory only where what lies in a row was lent.
//! - `TxWalk::turn` and `EndWalk::turn` ask what the definition asks, in at most one call of the table, and go and say by what was
//!   told, whatever the table tells; at an error they stand where they stood (`Turned`), and the rows are as before, but for a death
//!   that it was out of memory to tell (`an_error_leaves_the_rows` of `beldi_query`).
//! - Laws of an operation: where the rows of the item and of the transaction's copy are linked, nobody owns the copy, and the
//!   operation sees what it has to where it stands, a turn leaves that so, and all rows but the one, or those of the one item, that it asks for. The item changes only by the lock. The copy changes
//!   only by this operation, where its place had no note, or by a first row with the value that was found in the item. What is
//!   found and what is kept is the copy's value, or without a copy the item's. What it answers is so of the rows: a read's value is
//!   kept for its place; a write or a condition is noted in the copy at its place; a death is noted in the item at its place, with
//!   the owner in the cause; who is waited for has the item. Past its lock the place has it (`an_operation_is_so`,
//!   `an_operation_begins`).
//! - Law of the calls: `invokes_query` finds the intent's call at the next step, and none exactly where there is no further one
//!   (`the_next_call_is_found`).
//! - Laws of an end: a turn leaves all rows but the one, or those of the one item, that it asks for. The decision is put once. An
//!   item that is the transaction's is given back, with the value of the transaction's copy exactly where it commits and has a copy;
//!   a participant gets its finish where it has none. When it is done, the decision is kept, the transaction owns none of the items
//!   that the owner and the participants asked the locks of, and each participant's row has its finish or is absent
//!   (`an_end_is_a_visit`). The participants are those that the rows of calls lead to. That stands whatever else changes in the rows,
//!   where that adds no call and no lock of those who take part, takes no finish away, and makes the transaction the owner of nothing
//!   (`a_visit_stands`): a turn of another walk of the same end is such a change (`another_walk_leaves_the_end`). And it is so from
//!   the start (`a_visit_begins`), and stays so where the end passes over rows of a participant that is closed (`the_closed_are_passed`),
//!   or over rows of an item that it is to give back, none of which has its place where the item is the transaction's
//!   (`a_free_stands_further`).
//!
//! Files:
//! - Code (`src/`): `tx` what an operation of a transaction asks, and what follows, for walks and runs; `tx_walk` its walk,
//!   for calls; `end` the end of a transaction, which visits the owner and all that took part, `end_walk` its walk, `call_path` the
//!   calls on the way to who is visited, `invokes` the calls of an intent; `laws`.
//! - Lemmas (`proofs/`): `TxTurn`; `Visited`, `Freeing`, `Levels`, `InvokedInside`, `LocksetRows`; `BesideRows` another walk of the same end; `Closed` who is passed over.
#![tactic(auto)]

mod call_path;
mod end;
mod end_walk;
mod invokes;
mod laws;
mod tx;
mod tx_walk;

pub use call_path::{CallPath, Called};
pub use end::{
    EndAt, EndGoes, EndOutput, EndState, decide_query, decide_told, end_query, end_told, free_place,
};
pub use end_walk::EndWalk;
pub use invokes::{invokes_query, invokes_told};
pub use laws::{
    a_free_stands_further, a_visit_begins, a_visit_stands, an_end_is_a_visit, an_operation_begins,
    an_operation_is_so, another_walk_leaves_the_end, the_closed_are_passed, the_next_call_is_found,
};
pub use tx::{TxAt, TxGoes, TxOutput, tx_query, tx_told};
pub use tx_walk::TxWalk;
