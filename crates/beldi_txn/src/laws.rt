// The laws of the walks, and of their queries.
ghost use Rattle.beldi_txn.specs.Closed.{ClosedArePassed};
ghost use Rattle.beldi_txn.specs.Invokes.{CallsFollow};
ghost use Rattle.beldi_txn.specs.TxTurn.{OperationsAreSo, OperationsBegin};
ghost use Rattle.beldi_txn.specs.Visited.{EndsAreVisits, FreesStandFurther, OtherWalksLeave, VisitsBegin, VisitsStand};

/// A turn of an operation of a transaction leaves all rows but the one, or those of the one item, that it asks for. The item changes
/// only by the lock, and the transaction's copy of it only by this operation, or by its first row; what is answered is so of the rows.
/// Past its lock the place has it.
pub fn an_operation_is_so()
    ensures { OperationsAreSo }
{}

/// An operation begins where the law of its turns (`an_operation_is_so`) lets it stand.
pub fn an_operation_begins()
    ensures { OperationsBegin }
{}

/// After the call at a step, or without one from the first step on, the row that `invokes_query` asks for is that of the intent's call
/// at the next step: `invokes_told` gives its step and function, and none exactly where the intent made no further call.
pub fn the_next_call_is_found()
    ensures { CallsFollow }
{}

/// A turn of the end of a transaction leaves all rows but the one, or those of the one item, that it asks for. It gives an item back
/// with the value of the transaction's own copy exactly where it commits and there is one, and gives a participant its finish where
/// that has none. When it is done the decision is kept, the transaction owns none of the items that the owner and the participants
/// asked the locks of, and each participant's row has its finish or is absent.
pub fn an_end_is_a_visit()
    ensures { EndsAreVisits }
{}

/// What the end of a transaction has done stands, whatever else changes in the rows, where that adds no call and no lock of those who
/// take part, takes no finish away, changes none of the transaction's copies, and makes it the owner of nothing.
pub fn a_visit_stands()
    ensures { VisitsStand }
{}

/// An end begins where the law of its turns (`an_end_is_a_visit`) lets it stand.
pub fn a_visit_begins()
    ensures { VisitsBegin }
{}

/// A turn of another walk of the same end is among what an end bears (`a_visit_stands`): so two walks may end one transaction side by side.
pub fn another_walk_leaves_the_end()
    ensures { OtherWalksLeave }
{}

/// A visit may pass over a participant that is closed: its calls, its locks and its stamp, as if none of these rows were there, and it
/// may go to any of them that is.
pub fn the_closed_are_passed()
    ensures { ClosedArePassed }
{}

/// A visit that is to give an item back may stand at any further row of the item that the rows lead to. Only where the item is the
/// transaction's, no row below may have the place at which it is given back.
pub fn a_free_stands_further()
    ensures { FreesStandFurther }
{}
