// Events and turns of log collectors, and how they are answered.
use beldi_book::Entry;
use beldi_value::{Boxed, IntentId, Outcome, Owner, Value};

/// What may happen to a host.
#[derive(Drop)]
pub enum Event {
    /// A ticket is asked for.
    Ticket,
    /// The root of a ticket is to run a function with these arguments.
    Request { ticket: u32, func: u16, args: Value },
    /// The run of this number makes its next turn.
    Turn(u64),
    /// The run of this number makes the act of its next turn, and ends before it learns what the act told.
    Lost(u64),
    /// The run of this number ends between two turns.
    Crash(u64),
    /// Another run of an intent is started, as one of a function of this number.
    Restart { id: IntentId, func: u16 },
    /// So many ticks pass.
    Tick(u64),
    /// The intent collector goes to the next row.
    Ic,
    /// The process is stopped and started over the rows that it left.
    Halt,
}

/// The answers to events.
#[derive(Drop)]
pub enum EventReply {
    /// The ticket was issued.
    Issued(u32),
    /// The newest ticket is 4,294,967,295.
    NoTicket,
    /// The root was bound to the request, and a run of it was started.
    Bound {
        ticket: u32,
        run: u64,
    },
    /// The root was bound to the same before, and has no outcome.
    Running(u32),
    /// The root was bound to the same before, and has this outcome.
    Replied {
        ticket: u32,
        outcome: Outcome,
    },
    /// The root was bound to these before, which differ.
    Other {
        ticket: u32,
        func: u16,
        args: Value,
    },
    /// The ticket was issued, and its row is absent.
    Gone(u32),
    /// The ticket is 0 or above the newest.
    Unknown(u32),
    /// The turn was made: the entry that it made, the run that it started, whether its own run is over, and the ticket
    /// and outcome of the root that it ended first.
    Acted {
        entry: Option<Entry>,
        started: Option<u64>,
        over: bool,
        reply: Option<(u32, Boxed<Outcome>)>,
    },
    /// This owner has the lock of the item that the run is at: the run waits, and all is as before.
    Held(Boxed<Owner>),
    /// The call that the run is at has no result, and a run of its callee, which has this id, is live: the run waits, and
    /// all is as before.
    NotYet(Boxed<IntentId>),
    /// The table has no room for the row that the act would add: it has `live` rows, which are at least `room`.
    Full {
        live: u32,
        room: u32,
    },
    /// The last row of the item, or of a transaction's own copy of it, that the run is at is full, and has the greatest number of a
    /// row, 4,294,967,295, so that none can follow it: the run waits, and all is as before.
    Worn,
    /// 1,024 runs are live, and the event is a request or a restart, or has nothing to do but start a run: the turn of a run
    /// that waits for a callee without a live run, or the intent collector's at an intent that has none. All is as before.
    Crowded,
    /// The moment is past the run's deadline: no act was made, and the run is over.
    Expired,
    /// The number was never given to a run.
    NoRun,
    /// The run of the number is over.
    RunOver,
    /// The answer of the run's act was lost, or the table failed in this event; a run that had it is over.
    Dropped,
    /// The run is over.
    Crashed,
    /// A run of this number was started.
    Started(u64),
    /// The intent collector passed a row.
    Passed,
    /// The intent of the row has not ended and had no live run: the intent collector started this one.
    Launched {
        run: u64,
        id: IntentId,
    },
    /// No row followed: the intent collector begins anew.
    Round,
    /// It is this moment, in ticks.
    Now(u64),
    /// The moment would pass 2^62 ticks, and stays.
    ClockEnd,
    /// No run is live, the intent collector begins anew, and the newest ticket is the greatest that a key of a row names.
    Halted,
    /// The table failed when the rows were read for the last halt that was not out of memory, and this event is no halt: it did nothing.
    Shut,
    /// 2^62 events were taken before.
    Spent,
}

/// The answers to a turn of a log collector.
#[derive(Clone, Copy, Debug, PartialEq, Eq)]
pub enum Pruned {
    /// It goes on, and changed no row.
    Going,
    /// It marked a row of an item: every entry in it is of an intent that is over.
    Marked,
    /// It led the rows of an item past a marked one.
    Skipped,
    /// It left a marked row adrift: no row that is reached leads to it any more.
    Dangled,
    /// It removed a row.
    Removed,
    /// No row followed: it begins anew.
    Round,
    /// The table failed: a row that it had begun it begins anew.
    Dropped,
    /// The table failed when the rows were read for the last halt that was not out of memory: it did nothing.
    Shut,
    /// 2^62 events were taken before: it did nothing.
    Spent,
}
