// What one step of the host says over rows that are told, over any table, of failures, of deadlines, and of halts; what runs say that were
// called in a transaction; and that a walk goes on from row to row.
ghost use Rattle.beldi_step.specs.RunDeadlines.{CalledRunsHaveTheirCallersDeadline, KeepsSoon, NoRunIsPastALife, RunsKeepTheirDeadline};
ghost use Rattle.beldi_step.specs.Failures.{FailuresMakeNothing};
ghost use Rattle.beldi_step.specs.CalledInside.{StaysInherited, BeginsInside, MakesNoEntry};
ghost use Rattle.beldi_step.specs.StepLaws.{StepsOverRows, StepsOverAnyTable, ExpiresPastDeadline};
ghost use Rattle.beldi_step.specs.Prunes.{CollectorsStay, PruningsOverAnyTable, PruningsOverRows};
ghost use Rattle.beldi_step.specs.Shut.{HaltsAsOpened, HaltsEndRuns, OnlyShutAnswersShut, ShutAnswersShut, ShutHasNoRuns, ShutsAtAFailedHalt, StaysShut};
ghost use Rattle.beldi_step.specs.RunStride.{WalksOn};

/// Over rows that are told, a step is a relation between the host and the rows before and after.
pub fn a_step_over_rows()
    ensures { StepsOverRows }
{}

/// Over any table, also one that tells no rows, a step makes at most one call, and none for an event that is answered at once:
/// that leaves the table as it was. A halt makes as many calls as it reads rows.
pub fn a_step_over_any_table()
    ensures { StepsOverAnyTable }
{}

/// An event whose query the table failed is answered as dropped, and makes nothing: no turn, no entry and no run; a run that had it is over.
pub fn a_failure_makes_nothing()
    ensures { FailuresMakeNothing }
{}

/// No run acts past its deadline: an event of a run that is past it makes no call of the table, and the run is over. A host that is
/// shut has no run.
pub fn a_run_expires_past_its_deadline()
    ensures { ExpiresPastDeadline }
{}

/// A run that a turn starts, for a call or for one that nobody waits for, has the deadline of the run whose turn it is. One that is
/// started otherwise, by a request, a restart or the intent collector, may act for a life from then on.
pub fn a_called_run_has_its_callers_deadline()
    ensures { CalledRunsHaveTheirCallersDeadline }
{}

/// A run that was live before an event has the deadline that it had.
pub fn a_run_keeps_its_deadline()
    ensures { RunsKeepTheirDeadline }
{}

/// No deadline comes to be more than a life ahead, whatever the table holds.
pub fn an_event_keeps_deadlines_soon()
    ensures { KeepsSoon }
{}

/// Of a host that began without runs, no live run is past a life from now, whatever came.
pub fn no_live_run_is_past_a_life_from_now()
    ensures { NoRunIsPastALife }
{}

/// What was called in a transaction is in it after each answer, but for that to a begin or an end, which no body wants that is called
/// in a transaction.
pub fn a_run_stays_in_its_transaction()
    ensures { StaysInherited }
{}

/// What was called in a transaction begins each effect as an operation of the transaction, as a call, or as a return.
pub fn a_run_begins_inside()
    ensures { BeginsInside }
{}

/// What was called in a transaction makes no entry of the book, and goes on as an operation of it, a call or a return.
pub fn a_run_inside_makes_no_entry()
    ensures { MakesNoEntry }
{}

/// A host that is shut answers so to all but a halt: it makes no call of the table, and counts the event.
pub fn a_shut_host_answers_shut()
    ensures { ShutAnswersShut }
{}

/// Only a host that is shut answers so, and then nothing has changed but the count of events.
pub fn only_a_shut_host_answers_shut()
    ensures { OnlyShutAnswersShut }
{}

/// A host comes to be shut only by a halt that is answered as dropped, where the table's count of failures rose.
pub fn a_failed_halt_shuts()
    ensures { ShutsAtAFailedHalt }
{}

/// A host that is shut is so until a halt is answered as halted.
pub fn a_shut_host_stays_shut()
    ensures { StaysShut }
{}

/// After a halt no run is live, also where it failed or was out of memory.
pub fn a_halt_ends_the_runs()
    ensures { HaltsEndRuns }
{}

/// No run is live while a host is shut that began without runs.
pub fn a_shut_host_has_no_runs()
    ensures { ShutHasNoRuns }
{}

/// A halt that is answered as halted leaves the rows as they were, and the host as it is first over them, but for the moment, the book, the
/// number of runs that were started and the count of events, which stay or count on.
pub fn a_halted_host_is_as_opened()
    ensures { HaltsAsOpened }
{}

/// A turn of a run that walks along an item's rows, at a row which another one follows and which has no entry of the place that is looked
/// for, if any is, leaves the rows and goes on to that one: it makes no entry, starts no run, and does not wait.
pub fn a_walk_goes_on()
    ensures { WalksOn }
{}

/// Over rows that are told, a turn of a log collector is a relation between the host and the rows before and after.
pub fn a_pruning_over_rows()
    ensures { PruningsOverRows }
{}

/// Over any table, also one that tells no rows, such a turn makes at most one call.
pub fn a_pruning_over_any_table()
    ensures { PruningsOverAnyTable }
{}

/// An event leaves the log collectors where they stand; after a halt they stand before all rows.
pub fn an_event_leaves_the_collectors()
    ensures { CollectorsStay }
{}
