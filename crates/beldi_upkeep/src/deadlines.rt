// What is said of deadlines, by the finishes in the rows.
ghost use Rattle.beldi_upkeep.specs.Deadlines.{BeginsNear, KeepsNear};

/// A host without runs has no deadlines, over no rows.
pub fn begins_near()
    ensures { BeginsNear }
{}

/// Where the invariant holds of the host and its rows, an event keeps each deadline near: at most a life ahead, and at most a life past the finish
/// of whom the run works for.
pub fn an_event_keeps_deadlines()
    ensures { KeepsNear }
{}
