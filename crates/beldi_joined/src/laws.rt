// The laws of sessions one after another.
ghost use Rattle.beldi_joined.specs.JoinedLaws.{NewestIsInTheRows, OpenedIsSafe, OpenedIsUpkept, PrunesOverLongerBook, ReopenedHasInvariant, ReopenedIsUpkept, SettlesAsPromisedAfter, StaysUpkeptBehind, StepsOverLongerBook};

use beldi_bound::settlings_are_as_promised;

/// Where the invariant holds of a host and its rows, so it does of a host of the same book that is opened over them, at any moment.
pub fn a_reopened_host_has_the_invariant()
    ensures { ReopenedHasInvariant }
{}

/// It also has what every event keeps beside.
pub fn a_reopened_host_is_upkept()
    ensures { ReopenedIsUpkept }
{}

/// A host that is opened over the rows of such a host has it behind that host's book.
pub fn an_opened_host_is_upkept_behind()
    ensures { OpenedIsUpkept }
{}

/// So has one that is opened over rows of which some are gone what is kept then; the same ones are gone, and its log collectors are about to
/// remove none.
pub fn an_opened_host_is_safe_behind()
    ensures { OpenedIsSafe }
{}

/// It has it so after every event.
pub fn a_host_stays_upkept_behind()
    ensures { StaysUpkeptBehind }
{}

/// Where the invariant holds of a host and its rows, its newest ticket is the greatest that a key of a row names, 0 where none names one.
pub fn the_newest_ticket_is_in_the_rows()
    ensures { NewestIsInTheRows }
{}

/// What an event does to a host and its rows, it does to that host behind a longer book, and to the same rows.
pub fn a_step_over_a_longer_book()
    ensures { StepsOverLongerBook }
{}

/// What a turn of a log collector does to a host and its rows, it does to that host behind a longer book, and to the same rows.
pub fn a_pruning_over_a_longer_book()
    ensures { PrunesOverLongerBook }
{}

/// A settling of a host that has the invariant behind the book of earlier sessions keeps its promises, by their book and its own.
pub fn settlings_after_sessions_are_as_promised()
    ensures { SettlesAsPromisedAfter }
{
    settlings_are_as_promised();
}
