// Whom live runs work for, and whose rows they ask for.
ghost use Rattle.beldi_upkeep.specs.WorksFor.{IsGivenToFinished, NewWorkIsUnfinished, RunsAskForWork, WorkIsBound};

/// After an event each live run works for whom a run of its deadline worked for before, or for who had no finish.
pub fn no_run_begins_to_work_for_the_finished()
    ensures { NewWorkIsUnfinished }
{}

/// Whom a live run works for, and who called it, was bound: its row, where that is there, has a body.
pub fn whom_a_run_works_for_is_bound()
    ensures { WorkIsBound }
{}

/// A run that is to give its outcome to a caller that is finished finds it given.
pub fn finished_callers_were_given_back()
    ensures { IsGivenToFinished }
{}

/// A row that a run asks for is an item's, or of whom it works for; or it is its own one before it has begun, its caller's call, or that of
/// who is visited at an end.
pub fn runs_ask_for_rows_of_their_work()
    ensures { RunsAskForWork }
{}
