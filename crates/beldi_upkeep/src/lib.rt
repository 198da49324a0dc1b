//! What every event keeps beside `Invariant`, and what runs of a checked deployment never come to: facts by which what can end ends. It
//! has no code. It stands on the laws of the step (`beldi_invariant`) and on the rules of deployments (`beldi_check`).
//!
//! Proved of callees (`specs/Callees`):
//! - Each row belongs to an intent that has its row; who nobody waits for has its outcome only once its call says that it is registered,
//!   and a call that says so has its callee's row; the owner of a transaction has its finish only where all who took part have
//!   theirs, and owns nothing then; and the owner of an item has its intent's row (`begins_seated`, `an_event_keeps_seats`).
//! - So a registered call has its callee's row, with a body that names the call (`registered_calls_have_their_callee`); who has its
//!   outcome has told its caller (`ended_callees_have_told`); and the owner of a transaction that owns an item has not ended
//!   (`owners_are_open`).
//!
//! Proved of calls that are past (`specs/Passed`): a call that its intent is past, by the rows, or that a live run is past, is registered,
//! or has its result (`begins_past`, `an_event_keeps_past_calls`). So an instance that went on past a call that nobody waits for has
//! registered it, and its callee has its row (`asynchronous_calls_are_registered`; of what the histories have inside transactions
//! `recorded_asynchronous_calls_are_registered`).
//!
//! Proved of deadlines (`specs/Deadlines`): where the invariant holds of the host and its rows, each deadline is at most a life past the finish of
//! whom the run works for: its own intent, the owner of the transaction that it was called in, and the callee that it is to register
//! (`begins_near`, `an_event_keeps_deadlines`).
//!
//! Proved of whom runs work for (`specs/WorksFor`), what the deadlines stand on:
//! - After an event each live run works for whom a run of its deadline worked for before, or for who had no finish
//!   (`no_run_begins_to_work_for_the_finished`).
//! - Whom a run works for, and who called it, was bound (`whom_a_run_works_for_is_bound`).
//! - A row that a run asks for is an item's, or of whom it works for; or it is its own one before it has begun, its caller's call, or that
//!   of who is visited at an end (`runs_ask_for_rows_of_their_work`). A run that is to give its outcome to a caller that is finished
//!   finds it given (`finished_callers_were_given_back`).
//!
//! All that every event keeps is one record, `Upkeep` (`specs/Upkeep`: `begins_upkept`, `an_event_keeps_upkeep`).
//!
//! Proved of a deployment that passed the checks, whose requests are of its functions (`specs/Checked`):
//! - Each root is one that the book starts (`roots_are_started`), so it is of the deployment where the starts are
//!   (`started_roots_are_of_the_deployment`), and where the requests are (`roots_are_of_the_deployment`); and so is each instance
//!   that is known (`instances_are_of_the_deployment`).
//! - A run begins with the body that it finds (`found_bodies_are_recorded`, `no_first_turn_is_over`), goes on from any answer
//!   (`no_run_is_stranded`, `no_body_is_stranded`), and its turn is over only at the stage that closes its intent (`no_turn_is_over`).
//! - It waits or goes on, but for the visits at the end of a transaction, of which this is not said (`no_turn_stays`).
//! - What these stand on: nobody owns a shadow (`shadows_have_no_owner`); the notes and the decision that a run finds are its own
//!   (`notes_are_own`, `shadow_notes_are_own`, `decisions_are_own`); who frees a lock holds it (`who_frees_holds`, `specs/Freed`), and
//!   owns its item (`unlocks_are_owned`); who returns holds none (`who_returns_holds_none`); each call and each lock is that of a statement (`wants_are_written`, `specs/Written`);
//!   nothing is locked inside a transaction (`nothing_is_locked_inside`), ends are of one's own (`bounds_are_own`), and who calls has
//!   a short id (`callers_are_short`): so each effect is carried out (`effects_are_carried_out`).
//!
//! Files:
//! - Code (`src/`): `callees`, `deadlines`, `work`, `checked`, `upkeep` one function a law, with no body.
//! - Lemmas of callees (`proofs/`): `Shapes` what an event does to rows and runs; `CellActs`, `RowSets`, `SeatRows` what an act leaves;
//!   `StageOutputs`, `OutputOwes` what a run owes by its stage; `FirstTurns`, `TurnRows`, `EndRows`, `TurnKeeps` turns; `PastEnds`, `PastOwn`,
//!   `EndsLast` that an owner ends last; `RowNotes` that the notes of an item are those of its rows; `Leaving`, `FromInvariant`, `CallLaws`,
//!   `Upkept`; `Together` all of it.
//! - Of work and deadlines: `Finishes` which rows have a finish; `Quiet` stages that call nobody, `Workers` what a turn leaves; `NewWork`,
//!   `GivenBack`, `Asking`; `Nearness`.
//! - Of deployments: `UpkeepKept` what an event keeps at each key, `Asked` what a run asks of rows, `Roots`, `Started`;
//!   `Sites` and `Frees` by induction on the body; `Functions` the function of a name, `Edges` and `Chains` that calls lead to no
//!   function twice; `Open` and `Notes` what a run is in and finds; `Carried`, `Stranded` the next effect; `Firsts`, `Overs`, `Still` a turn.
#![tactic(auto)]

mod callees;
mod checked;
mod deadlines;
mod upkeep;
mod work;

pub use callees::{
    an_event_keeps_past_calls, an_event_keeps_seats, asynchronous_calls_are_registered,
    begins_past, begins_seated, ended_callees_have_told, owners_are_open,
    recorded_asynchronous_calls_are_registered, registered_calls_have_their_callee,
};
pub use checked::{
    bounds_are_own, callers_are_short, decisions_are_own, effects_are_carried_out,
    found_bodies_are_recorded, instances_are_of_the_deployment, no_body_is_stranded,
    no_first_turn_is_over, no_root_at_first, no_run_is_stranded, no_turn_is_over, no_turn_stays,
    notes_are_own, nothing_is_locked_inside, roots_are_of_the_deployment, roots_are_started,
    shadow_notes_are_own, shadows_have_no_owner, started_roots_are_of_the_deployment,
    unlocks_are_owned, wants_are_written, who_frees_holds, who_returns_holds_none,
};
pub use deadlines::{an_event_keeps_deadlines, begins_near};
pub use upkeep::{an_event_keeps_upkeep, begins_upkept};
pub use work::{
    finished_callers_were_given_back, no_run_begins_to_work_for_the_finished,
    runs_ask_for_rows_of_their_work, whom_a_run_works_for_is_bound,
};
