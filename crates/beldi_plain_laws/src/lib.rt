//! What every run of the plain machine keeps, and how a legal book grows: by a change at its end, or by a read that belongs
//! earlier. It has no code. It stands on the plain machine. Its definitions: `specs/PlainLaws`, `specs/WellFormedState` (instances that
//! went as their bodies want), `specs/Grown` (instances that go on), `specs/Txs` (the transactions of an
//! instance), `specs/TransactionMoves` (a transaction over its callees, as moves), and `specs/GuardLaws` (what the guard of a legal book says in
//! words, and that late reads leave it).
//!
//! Proved:
//! - In the linear order the changes stand in book order, and behind each number of changes the reads that belong
//!   there, in book order (`linear_is_in_order`).
//! - No item of the run of a legal book is kept as null: one that is null is absent (`null_is_absent`).
//! - A change that is enabled at its end is the last: the longer book is legal, and what came before stands where it
//!   stood (`changes_come_last`).
//! - A read that belongs earlier, whose instance has not moved since, can be added at any time: the longer book is
//!   legal, its state is that of the book with the read's answer, and so are the states from its place on
//!   (`late_reads_belong`).
//! - In the run of a legal book each instance went as its body wants: what was answered was an effect that is answered
//!   so, and an outcome is there only where the body returns it. What has an id of a callee was called there, and its
//!   outcome is what the call was answered; what was called in a transaction was called in one that committed
//!   (`legal_is_well_formed`), and has its outcome (`inside_is_over`).
//! - From the step of a legal book in which an instance locks an item to the one in which it unlocks it, no entry of another
//!   touches the item (`legal_is_guarded`).
//! - A transaction that commits, and an abort, are lists of moves: in each the one that waits for nobody is answered, calls or
//!   returns (`transactions_are_moves`). No bound bars one. Nobody stands at one place twice (`places_come_once`). They go by the
//!   items alone that they touch, and leave who is in no such call (`moves_read_their_items`); those items are what the entry touches
//!   (`transactions_touch_their_items`).
//! - An entry changes no item that it does not touch (`entries_touch_what_they_change`), and a transaction that runs goes on
//!   past an entry of another that leaves its items (`others_leave_transactions`).
//! - Entries that are guarded by locks stay so where a read that belongs earlier is answered before them
//!   (`late_reads_leave_guards`).
//!
//! Files:
//! - Code (`src/`): `laws` one function a law, with no body.
//! - Lemmas (`proofs/`): `EntryPlaces` where entries stand; `InOrder` what stands behind each number of changes; `EntryLaws` what
//!   every entry does and keeps; `LateReads` a read passes the entries that leave its instance; `Called` an instance and what it
//!   called; `Growth`; `Nulls` that no item is kept as null; `PlainOperations` plain items and locks; `Transactions` a transaction is
//!   its moves: `Moved` what one changes, `CallStack` who waits in it, `Rises` that no place comes again, `Touched`, `LeadsAlike` that
//!   it reads its own items alone, `Foreign` that others leave it; `Ends`, `Went` the transactions of an answer more; `Maps`;
//!   `WellFormed` that a state stays well formed, also with a transaction open (`GoingOn`, `WholeTransaction`, `Sound`); `Passes`, `Guard`, `LockHeld`;
//!   `Bound` the moves of a transaction are few.
#![tactic(auto)]

mod laws;

pub use laws::{
    changes_come_last, entries_touch_what_they_change, inside_is_over, late_reads_belong,
    late_reads_leave_guards, legal_is_guarded, legal_is_well_formed, linear_is_in_order,
    moves_read_their_items, null_is_absent, others_leave_transactions, places_come_once,
    transactions_are_moves, transactions_touch_their_items,
};
