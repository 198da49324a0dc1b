//! The bounds of settling: how many turns a settling counts, and what its ends say. It has no code. It stands on what every event keeps
//! (`beldi_upkeep`) and on the machine of settling (`beldi_schedule`).
//!
//! Proved of a host that keeps what every event keeps, of a deployment that passed the checks, whose book starts functions of it alone:
//! - A settling keeps its promises (`settlings_are_as_promised`, `specs/Ends`): its turns are at most the work; a budget is used up only
//!   by as many turns; it ends as shut only where the table failed at the last halt; it is settled only where nothing lives, no intent with a body is unended, and each instance of the book's run has
//!   its outcome; it is stuck, where no function takes a lock by a statement, only where a run waits for room in the table or among
//!   the runs, 1,024 runs live, or a late run waits for an owner and no live run of its intent was answered more; and where none of
//!   that is so, none was late at the start, and the table failed at nothing, it is settled with any budget above the work.
//! - Each intent has its cost: the answers that rows with the invariant hold for it are a list (`intents_are_asked`).
//!
//! The work is a sum over the live runs and the open intents, of what each costs (`specs/SettleWork`). An intent costs a turn and what its effects
//! cost, by the answers that the rows hold at the end (`specs/Cost`); the end of a transaction costs by the calls and locks that were made in
//! it (`specs/Visits`). What is left of an effect, by stage, is `specs/Left`.
//!
//! Lemmas (`proofs/`); `Promised` has all together, and `Facts` the statements that the parts hand one another:
//! - Answers: `AskedOnce`, `HistoryAsked` what is asked; `Standing` where a run stands along it.
//! - Turns lower what is left: `FirstStages`, `Puts`, `BoundInside`, `Stages` by stage; `BoundAhead`, `Sums`, `Visiting` at the end of a
//!   transaction; `Turning` all of them.
//! - The ledger, an amount for each live run and the keys for which one may be started: `Ledger`, `BoundLists`, `BoundEntries`, `Paying`,
//!   `Frames`; `Costs`, `BoundFalls`, `StageLeft` what amounts are worth; `BoundTurns`, `FirstTurns`, `Ending`, `GoingOn`, `Waited`, `Begun`,
//!   `Refusing`, `Rising`, `Closed`, `FirstsOpen`, `FirstHistories`, `Bodies`, `Outputs`, `Calling`, `OfHistories`, `Nexts`, `StaysFull`,
//!   `ResultsCome`, `Coming`, `Bringing` a turn, by case; `TurnsPay`, `TurnsPaid` each turn; `RoundsPay` each event of the collector;
//!   `Starting`, `Few` the whole.
//! - Ends: `Going` what events leave of rows; `Soundly` that the host stays so; `Numbers`, `Parked`, `Rounds`, `Machine` what is so at the end;
//!   `Used`, `Ended`; `Chain`, `Waits`, `NoLocks`, `Fronts`, `Causes` why all wait; `LogRows`, `Lates`, `BoundSteps`, `Followed` that a
//!   late run is followed.
#![tactic(auto)]

mod laws;

pub use laws::{intents_are_asked, settlings_are_as_promised};
