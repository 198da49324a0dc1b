// The laws of the step.
ghost use Rattle.beldi_invariant.specs.Deaths.{DeathsHaveHolders};
ghost use Rattle.beldi_invariant.specs.InvariantLaws.{InvariantAtStart, KeepsInvariant, InvariantImpliesLegal, InvariantImpliesStands, RepliesAreOutcomes, FirstOutcomesAreTold, TicketsHaveRows, StartsAreBound, InstancesGoOn, OutcomesStay, ListingIsPlain, InvariantImpliesOneAnswer, HeldAnswersStay, ChangesOneRow, KeepsRoom, WritesWhatIsTold, DropsHaveCause};

/// A host that nothing has happened to has the invariant, over a table without rows.
pub fn the_invariant_holds_at_the_start()
    ensures { InvariantAtStart }
{}

/// Every event keeps the invariant of the host and its rows, also out of memory.
pub fn an_event_keeps_the_invariant()
    ensures { KeepsInvariant }
{}

/// Where the invariant holds of the host and its rows, the book is legal.
pub fn the_invariant_implies_legal()
    ensures { InvariantImpliesLegal }
{}

/// Where the invariant holds of the host and its rows, the rows stand for the run of the book.
pub fn the_invariant_implies_stands()
    ensures { InvariantImpliesStands }
{}

/// The outcome of a root that an event tells is the one that the root has in the run of the book.
pub fn replies_are_outcomes()
    ensures { RepliesAreOutcomes }
{}

/// An outcome that a root has in the run of the book after an event, and had not before, is told by that event, unless its answer was
/// lost.
pub fn a_first_outcome_is_told()
    ensures { FirstOutcomesAreTold }
{}

/// Where the invariant holds of the host and its rows, no event answers that the row of a ticket is absent.
pub fn tickets_have_rows()
    ensures { TicketsHaveRows }
{}

/// The roots that the book starts are the requests that were bound, in order; none out of memory.
pub fn starts_are_bound()
    ensures { StartsAreBound }
{}

/// What was made goes on: an instance keeps its function and its arguments, and its answers are the first of those that it has
/// later, whatever comes. Of answers inside a transaction that is not decided `held_answers_stay` speaks.
pub fn instances_go_on()
    ensures { InstancesGoOn }
{}

/// An outcome that a root has in the run of the book stays, whatever comes.
pub fn outcomes_stay()
    ensures { OutcomesStay }
{}

/// Where the invariant holds of the host and its rows, the listing of the rows is that of the run of the book.
pub fn listing_is_plain()
    ensures { ListingIsPlain }
{}

/// Where the invariant holds of the host and its rows, each step of an instance, also inside a transaction that is not decided yet, has one
/// answer, whichever run asks for it: the one that the rows hold. So runs that never live together are given the same.
pub fn each_step_has_one_answer()
    ensures { InvariantImpliesOneAnswer }
{}

/// An answer that the rows hold at a step stays, whatever comes.
pub fn held_answers_stay()
    ensures { HeldAnswersStay }
{}

/// An event changes at most one row, by one act, which removes no row, and an item that it is no row of keeps its content.
pub fn an_event_changes_one_row()
    ensures { ChangesOneRow }
{}

/// The rows never exceed the room, where they did not before, also out of memory.
pub fn an_event_keeps_the_room()
    ensures { KeepsRoom }
{}

/// The book gets at most one entry in an event: the one that the answer tells, unless the answer was lost, or it was out of
/// memory.
pub fn an_event_writes_what_it_tells()
    ensures { WritesWhatIsTold }
{}

/// An event is answered as dropped only where its answer was lost, or where the table's count of failures rose.
pub fn a_dropped_answer_has_a_cause()
    ensures { DropsHaveCause }
{}

/// A death is noted and told only by the lock of a transaction, of an item that another owns: it has that owner's age, and who asked is
/// not older.
pub fn a_death_has_a_holder()
    ensures { DeathsHaveHolders }
{}
