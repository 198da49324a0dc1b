// The laws of the linear order, and of legal books.
ghost use Rattle.beldi_plain_laws.specs.WellFormedState.{LegalIsWellFormed, InsideIsOver};
ghost use Rattle.beldi_plain_laws.specs.PlainLaws.{LinearIsInOrder, NullIsAbsent, ChangesComeLast, LateReadsBelong};
ghost use Rattle.beldi_plain_laws.specs.GuardLaws.{LateReadsLeaveGuards, LegalIsGuarded};
ghost use Rattle.beldi_plain_laws.specs.TransactionMoves.{TransactionsAreMoves, MovesReadTheirItems, TransactionsTouchTheirItems, EntriesTouchWhatTheyChange, OthersLeaveTransactions, PlacesComeOnce};

/// A transaction that commits, and an abort, are lists of moves: of any length, so the bound of the plain machine bars none.
pub fn transactions_are_moves()
    ensures { TransactionsAreMoves }
{}

/// The moves of a transaction go by the values alone of the items that they touch, and by the instances that are in it; and leave all items
/// that they do not write, and all others.
pub fn moves_read_their_items()
    ensures { MovesReadTheirItems }
{}

/// A transaction touches an item only by a move that was not aborted.
pub fn transactions_touch_their_items()
    ensures { TransactionsTouchTheirItems }
{}

/// In the run of a legal book each instance was answered as its effects are, and has an outcome only where its body returns it.
/// A callee was called at the step that its id names, and its outcome is what the call was answered; no root has a caller. What was
/// called in a transaction was called in one that committed; one that aborted has none.
pub fn legal_is_well_formed()
    ensures { LegalIsWellFormed }
{}

/// In a well formed state what was called in a transaction has its outcome.
pub fn inside_is_over()
    ensures { InsideIsOver }
{}

/// An entry changes no item that it does not touch.
pub fn entries_touch_what_they_change()
    ensures { EntriesTouchWhatTheyChange }
{}

/// A transaction that runs goes on, with the same moves, from the state after an entry of another instance, where that leaves the
/// values of the items that it has touched.
pub fn others_leave_transactions()
    ensures { OthersLeaveTransactions }
{}

/// In the linear order of a book the changes stand in book order, and behind each number of changes the reads that belong
/// there, in book order too.
pub fn linear_is_in_order()
    ensures { LinearIsInOrder }
{}

/// No item of the run of a legal book is kept as null: one that is null is absent.
pub fn null_is_absent()
    ensures { NullIsAbsent }
{}

/// A change that is enabled at the end of a legal book is the last of the longer book, which is legal.
pub fn changes_come_last()
    ensures { ChangesComeLast }
{}

/// A read whose instance has not moved since the place where it belongs can be added to a legal book at any time.
pub fn late_reads_belong()
    ensures { LateReadsBelong }
{}

/// Entries that are guarded by locks stay so where an instance that stands at a read, and still does after them, is answered
/// before them.
pub fn late_reads_leave_guards()
    ensures { LateReadsLeaveGuards }
{}

/// In the linear order of a legal book, from the step in which an instance locks an item to the one in which it unlocks it, no
/// entry of another instance touches the item. A read touches the item that it reads, at its place in that order.
pub fn legal_is_guarded()
    ensures { LegalIsGuarded }
{}

/// In a transaction nobody stands at one place twice.
pub fn places_come_once()
    ensures { PlacesComeOnce }
{}
