//! The walk that takes the lock of an item, for calls, its parts, for runs, and the items that a transaction asked the locks of. It
//! stands on `beldi_daal`.
//! Its definitions: `specs/Lock` (what a lock asks, and what follows from what it is told), `specs/Locked` (that what its walk
//! says is so of the item) and `specs/Lockset` (the rows that say what locks were asked for, one after another).
//!
//! Proved:
//! - The parts say what the definitions say: what a lock asks, and where it goes after it was told (`asks_at`, `lock_goes`); after
//!   a call it is out of memory only where what lies in a row was lent.
//! - `LockWalk::turn` asks what the definition asks, in at most one call of the table, and goes and says by what was told,
//!   whatever the table tells; unless it goes on, it stands where it stood, and so it does at an error (`Turned`), which
//!   leaves the rows as before, but for a death that it was out of memory to tell (`an_error_leaves_the_rows` of `beldi_query`).
//! - Laws: a walk for a transaction first puts the row that says that the lock is asked for, and leaves all else. Where the item's rows
//!   are linked, and it sees what it has to where it stands, it leaves that so; `Got` says that the place has got the lock, in this turn or before, and `Died` that it died, of the owner with
//!   this age; `Held` names the other owner who has the item and for whom who asks waits, and then the place has no note. A
//!   lock that is taken is the owner's who asks, and no other had it. A transaction dies in this turn just where another owner has the
//!   item that it is not older than; an intent never does (`a_lock_is_by_the_row`). What a place came to first stands for
//!   every later walk (`what_came_stands`).
//! - `lockset_next` makes one call of the table, and tells the item of the row that it finds (`Answered`, by `lockset_asks` and
//!   `lockset_found`). Laws: it changes nothing, and is never refused as `Full`; after an item it finds the row after that of
//!   the item (`the_next_lockset_is_found`), and without one the first row from the least key of the transaction on
//!   (`the_first_lockset_is_found`), where no row of a lock has the table 65,535 and the intent's ticket is not 0.
//!
//! Files:
//! - Code (`src/`): `lock` what a lock asks, and what follows, for walks and runs; `lock_walk` its walk, for calls; `lockset`
//!   what a transaction asked the locks of, `before` the id directly before one; `laws`.
//! - Further definitions (`specs/`): `Last` a list that is taken apart at its last.
//! - Lemmas (`proofs/`): `Locked`; `IdBefore`; `Firsts` the first row of a transaction's locks; `Last` a list that is taken
//!   apart at its last.
#![tactic(auto)]

mod before;
mod laws;
mod lock;
mod lock_walk;
mod lockset;

pub use before::id_before;
pub use laws::{
    a_lock_is_by_the_row, the_first_lockset_is_found, the_next_lockset_is_found, what_came_stands,
};
pub use lock::{LockAt, LockGoes, lock_query, lock_told, lockset_key};
pub use lock_walk::{LockOutput, LockWalk};
pub use lockset::{lockset_next, lockset_query, lockset_told};
