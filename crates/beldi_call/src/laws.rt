// The laws of calls.
ghost use Rattle.beldi_call.specs.Call.{CallsTellTheirResult};
ghost use Rattle.beldi_call.specs.Async.{CalleesAreEnrolled, CalleesHaveOnePlace, EnrolledStays};

/// A turn of a call's walk is done exactly where a result is kept, and tells that one. `Opened` comes at the turn that opens
/// the call and finds no result, and says whether this turn put it; `NotYet` comes at the later turns that find none.
pub fn a_call_tells_its_result()
    ensures { CallsTellTheirResult }
{}

/// A turn of an asynchronous call's walk is done exactly where the call is then registered, but for the turn that puts the
/// row of the callee. The call is marked as registered only once that row is there.
pub fn a_callee_is_enrolled()
    ensures { CalleesAreEnrolled }
{}

/// Once a walk has come so far that the row of its callee is there, it stays, whatever is asked of the table, but that a row is removed.
pub fn an_enrolled_callee_stays()
    ensures { EnrolledStays }
{}

/// What is called at two places is two callees.
pub fn a_callee_has_one_place()
    ensures { CalleesHaveOnePlace }
{}
