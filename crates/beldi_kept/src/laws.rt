// The laws of rows that were kept.
ghost use Rattle.beldi_kept.specs.KeptLaws.{AllAreKept, AnswersAreOfKept, BeginsKept, CursorIsFree, EventsKeep, IntentDropsKeep, LooksFindOld, NewestIsRead, NobodyGone, NoRowComesBack, OldStays, RemovalsKeep, RowDropsKeep, UnboundMayGo};

use beldi_txn::the_closed_are_passed;

/// A host that nothing has happened to keeps all of it, over a table without rows.
pub fn begins_kept()
    ensures { BeginsKept }
{}

/// Where all rows are there, and all holds that every event keeps, all of them were kept.
pub fn rows_that_are_there_were_kept()
    ensures { AllAreKept }
{}

/// Where nobody is gone, the kept rows are those that are there.
pub fn rows_are_there_while_nobody_is_gone()
    ensures { NobodyGone }
{}

/// Where the table has no row of the intent of a kept row, or one whose finish is old, that intent is gone or old.
pub fn looks_find_the_old()
    ensures { LooksFindOld }
{}

/// Who was found gone or old is so later.
pub fn the_old_stay_old()
    ensures { OldStays }
{}

/// A row of an intent that is gone or old may go, but that of the newest ticket.
pub fn rows_of_the_old_may_go()
    ensures { RemovalsKeep }
{}

/// The row of a root without body may go, where a later ticket was issued.
pub fn unbound_roots_may_go()
    ensures { UnboundMayGo }
{}

/// An act that drops the row of an intent once it is old, but not that of the newest ticket, keeps it, also where no row goes.
pub fn an_intent_may_be_dropped()
    ensures { IntentDropsKeep }
{}

/// An act that drops another row, of an intent that is gone or old, keeps it, also where no row goes.
pub fn a_row_may_be_dropped()
    ensures { RowDropsKeep }
{}

/// Every event that there is keeps it, whatever it came to, also out of memory.
pub fn an_event_keeps_it()
    ensures { EventsKeep }
{
    the_closed_are_passed();
}

/// Where the intent collector stands is nothing to it.
pub fn the_cursor_is_free()
    ensures { CursorIsFree }
{}

/// The newest ticket is the greatest that a key of the table's rows names.
pub fn the_newest_ticket_is_read()
    ensures { NewestIsRead }
{}

/// No event adds a row under a key of which a row went.
pub fn no_row_comes_back()
    ensures { NoRowComesBack }
{
    the_closed_are_passed();
}

/// Over the kept rows an event is that event, with that answer; or the book stays, and neither an outcome is told nor an entry.
pub fn an_answer_is_of_kept_rows()
    ensures { AnswersAreOfKept }
{
    the_closed_are_passed();
}
