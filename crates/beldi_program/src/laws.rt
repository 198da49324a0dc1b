// The law of sessions.
ghost use Rattle.beldi_program.specs.Hosted.{SessionsArePlainRuns};

use beldi_kept::{
    an_event_keeps_the_collectors_safe, outcomes_stay_still, replies_are_outcomes_still,
};

/// Whatever a session's events and turns of log collectors were, and whatever of them failed: over no rows it is a run without crashes of
/// its book, and over rows that sessions left it is one of their books and then its own; the listing of its rows is that of the run.
pub fn sessions_are_plain_runs()
    ensures { SessionsArePlainRuns }
{
    an_event_keeps_the_collectors_safe();
    replies_are_outcomes_still();
    outcomes_stay_still();
}
