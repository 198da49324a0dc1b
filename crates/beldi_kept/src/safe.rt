// The laws of the log collectors beside the kept rows.
ghost use Rattle.beldi_kept.specs.Safe.{EventsKeepSafe, OnlyOldRowsGo, OwnersComeWithRows, OwnersHaveTheirRows, PruningsKeepSafe, PruningsKeepWhole, PruningsLeaveWhole, PruningsMoveCollectors, SafeAtCursor, SafeAtFirst};

use beldi_txn::the_closed_are_passed;

/// Where the rows that are there were kept, and no collector has begun a row, none is about to remove a row but one of who is gone or old, nor to
/// mark, lead past or leave adrift a row but one whose every entry is of these.
pub fn idle_collectors_are_safe()
    ensures { SafeAtFirst }
{}

/// Every event leaves it so, whatever it came to, and nobody more is gone.
pub fn an_event_keeps_the_collectors_safe()
    ensures { EventsKeepSafe }
{
    the_closed_are_passed();
}

/// Every turn of a log collector keeps all of it, also one that the table failed. Where it did not say that a row was changed, the rows are as
/// before; and where it did not say that one was marked or removed, nobody more is gone.
pub fn a_pruning_keeps_all_safe()
    ensures { PruningsKeepSafe }
{}

/// Where the intent collector stands is nothing to it.
pub fn the_cursor_is_nothing_to_collectors()
    ensures { SafeAtCursor }
{}

/// A turn of a log collector leaves all of the host, but the count of events and where the collectors stand.
pub fn a_pruning_moves_only_collectors()
    ensures { PruningsMoveCollectors }
{}

/// Where it did not say that a row was changed, all rows that were kept are there still.
pub fn a_pruning_without_a_change_keeps_all_rows()
    ensures { PruningsKeepWhole }
{}

/// Where no collector has begun a row that is not as the invariant has it, it is enough that it did not say that one was marked or removed: of
/// rows that are all there none is marked, so none is led past.
pub fn a_pruning_without_a_mark_keeps_all_rows()
    ensures { PruningsLeaveWhole }
{}

/// A row that a turn of a log collector removed was that of an intent, but of no root of the newest ticket, which had finished more than a
/// life ago, or was issued then and never bound; or a row of an item that was adrift for more than a life; or another row, of an intent that is
/// gone, or had finished so. Others may have acted in between.
pub fn only_old_rows_go()
    ensures { OnlyOldRowsGo }
{}

/// The owner of an item has its intent's row in the table: a transaction that of its owner, an intent its own. So no log collector removes the
/// row of an owner.
pub fn owners_have_their_rows()
    ensures { OwnersHaveTheirRows }
{}

/// No event gives a row of an item an owner whose intent has no row: after it the row has the owner that it had, or one that has its
/// intent's row.
pub fn owners_come_with_their_rows()
    ensures { OwnersComeWithRows }
{
    the_closed_are_passed();
}
