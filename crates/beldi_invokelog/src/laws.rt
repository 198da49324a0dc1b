// The laws of calls.
ghost use Rattle.beldi_invokelog.specs.InvokeLog.{CallsArePutOnce, CallsStay, RegistrationsAreSetOnce, ResultsAreSetOnce, ResultsAreTold};

/// `open_once` puts a call without a result where no row was, and tells the one that was there.
pub fn a_call_is_put_once()
    ensures { CallsArePutOnce }
{}

/// `result` tells what a call gave back, none exactly where there is no call or it has no result, and all rows stay.
pub fn a_result_is_told()
    ensures { ResultsAreTold }
{}

/// `call_back` sets the result of a call that has none. Where it answers `AlreadySet`, the call had one, and where it answers
/// `Absent`, there is none; then all rows stay.
pub fn a_result_is_set_once()
    ensures { ResultsAreSetOnce }
{}

/// `registered` marks a call that is not marked, and answers as `call_back` does.
pub fn a_registration_is_set_once()
    ensures { RegistrationsAreSetOnce }
{}

/// Whatever is asked of a table, but that a row is removed, a call that was put stays, with its function, its result and its mark.
pub fn a_call_stays()
    ensures { CallsStay }
{}
