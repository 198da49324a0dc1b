//! The history of each instance: the answers that the rows hold, inside transactions and outside. It has no code.
//! It stands on the plain machine, on the step of the host, and on chains of rows. Its definitions: `specs/Histories` (what an instance expects of
//! the rows, by its answers; `specs/Expected` its parts), `specs/Contents` (the chains of items and of shadows, and what they hold),
//! `specs/RowMatching`, `specs/Matches` (rows that match what the histories have, and that those of chains are linked),
//! `specs/WellFormedHistories` (instances that went as their bodies want), `specs/Extends` (what the histories have beside the plain state),
//! `specs/Shadows` (what shadows show of it), `specs/Listed` (the value that is listed),
//! `specs/Stands` (the answers that the rows hold, and that they stand for a plain state),
//! `specs/Acts` (the acts inside a transaction), `specs/OutsideOperations` (those outside), `specs/Frame` (an answer more), `specs/InsideLaws`
//! (what acts inside keep), `specs/Behind` (a run behind what the histories have, or at a pending operation).
//!
//! Proved, by lemmas of `proofs` that the laws of `beldi_invariant` go by:
//! - An answer more changes what its instance expects at its place alone (`moved_one`, `Frame`).
//! - Instances stay well formed with an answer (`well_formed_moved`), and runs stay at a prefix of their history (`run_on_prefix`, `RunsStay`).
//! - A run that is behind finds what it looks for, changes nothing, and is told the answer that is recorded (`Behind`).
//! - The acts of an operation inside keep the rows matched, whatever rows of the item or of the shadow they change: its lockset row, its
//!   lock or its death, its answer, and its shadow (`lock_did`, `Acts`; `InsideActs`), and so do the decision, and a release after it
//!   (`decided`, `Decides`; `released`, `InsideActs`). A row that is none of an item's leaves its chain, and so do all rows of another item
//!   (`content_apart`, `aside_apart`, `other_item`, `other_shadows`, `other_aside`, `Acts`).
//! - So do operations and reads outside, and answers to calls (`Outside`); calls that are opened, and that give back (`call_opened`,
//!   `given_back`, `CallRows`); roots that are made, and who ends that nobody waits for (`root_bound`, `intent_ended`, `Intents`).
//! - Transactions of a body do not nest, begin with no lock held, and go to their End after an abort (`Phases`: `inside_is`,
//!   `begin_is`, `begin_free`, `end_is`, `abort_ends`). Who was called in one returns an abort (`abort_returns`), and what takes no
//!   turn leaves an effect that does (`closed_local_steps`, `LocalSteps`).
//! - All that the histories have stays well formed, move by move (`WellFormed`). So the transaction of who can step has not ended, at its End nobody else is
//!   inside, and its owner holds no lock of its own (`now_open`, `ends_alone`, `owner_holds_none`, `Participants`); and who lets an
//!   operation inside die is older than its transaction (`death_is_older`, `Deaths`).
//! - A lock that is ahead is that of an instance at an operation inside, and of nobody else (`LocksAhead`). At the start all that holds
//!   (`Nothing`).
//! - The transaction of who can step inside is open (`opens_are_open`, `CallStacks`). Each act inside keeps what the shadows of open
//!   transactions show, and the histories still extend the plain state; so do callees that are made inside and give back (`Acting`). A
//!   decision to commit makes the entry of its commit, and lists what that leaves (`commits_are_entries`); one not to
//!   commit makes that of its abort, and leaves what is listed (`aborts_are_entries`), as a release does (`release_lists`, `Decided`).
//!
//! Files:
//! - Lemmas (`proofs/`): `Answers` lists of answers, `Cases` both ways of a test; `RowMaps` keys and maps of rows;
//!   `Frame`, `FrameAt` what is expected after an answer more; `Behind` a run that is behind; `AtPending`, `LockRows`, `Pending`,
//!   `Acts`, `InsideActs`, `Decides` the acts inside, `LockReplies` by what they tell; `Outside`, `ItemOperations`, `Owners` those outside; `Sets`,
//!   `Instances`, `CallRows`, `Intents` instances that are made and that end; `RunsStay` runs stay at a prefix of their history; `Flows`, `Begins` how
//!   bodies go on, whatever they are answered, and `Phases` what that says of their transactions; `LocalSteps` what takes no
//!   turn; `OwnTx`, `Callers` who called an instance, and what holds of all that were called in a transaction; `WellFormed`,
//!   `Participants`, `Deaths`, `LocksAhead`, `Nothing` instances stay well formed, and what follows of locks and ends; `Begun`, `HistoryLists`,
//!   `ReadLists` what is listed; `NoTx` steps in no transaction; `CallStacks` who is in an open one, `StackSteps` how it goes on,
//!   `Owns` what it owns, `AbortedInside` what is aborted in it; `Shadows`, `Acting` that each act inside keeps what its shadows
//!   show; `Members`, `Decided` its decision; `Outsides` an instance goes on in both; `Example` a body, computed; `Unaborted`
//!   who was called and told no abort.
#![tactic(auto)]
