// The laws of calls, callees and owners.
ghost use Rattle.beldi_upkeep.specs.Callees.{BeginsSeated, KeepsSeats, RegisteredHaveCallees, EndedHaveTold, OwnersAreOpen};
ghost use Rattle.beldi_upkeep.specs.Passed.{AsyncsAreRegistered, BeginsPast, KeepsPast, RecordedAsyncsAreRegistered};

/// Over a table without rows each row has its seat, and a host that nothing has happened to has no run that owes anything.
pub fn begins_seated()
    ensures { BeginsSeated }
{}

/// Every event keeps what the rows say of callees and owners, and what live runs have done for it, also out of memory.
pub fn an_event_keeps_seats()
    ensures { KeepsSeats }
{}

/// A call that says that it is registered has its callee's row, with a body that names the call.
pub fn registered_calls_have_their_callee()
    ensures { RegisteredHaveCallees }
{}

/// Who has its outcome has told its caller: that it is registered, or, where the caller waits, the outcome.
pub fn ended_callees_have_told()
    ensures { EndedHaveTold }
{}

/// Where a transaction owns an item, the row of its owner, if it is there, has neither outcome nor finish.
pub fn owners_are_open()
    ensures { OwnersAreOpen }
{}

/// Over a table without rows no call is past, and a host that nothing has happened to has no run that is past one.
pub fn begins_past()
    ensures { BeginsPast }
{}

/// Every event keeps that a call which its intent is past, by the rows, or which a live run is past, is registered or has its result, also
/// out of memory.
pub fn an_event_keeps_past_calls()
    ensures { KeepsPast }
{}

/// In the run of the book, an instance that went on past a call that nobody waits for, to a later answer that takes a turn, to a later
/// call or to its outcome, has registered it: the call's row says so, and the callee has its row.
pub fn asynchronous_calls_are_registered()
    ensures { AsyncsAreRegistered }
{}

/// So has an instance of which it is known that it went on, inside transactions as well.
pub fn recorded_asynchronous_calls_are_registered()
    ensures { RecordedAsyncsAreRegistered }
{}
