// What a line of a script says, and why one is refused.
use beldi_value::{IntentId, Str, Value};
use std::alloc::AllocError;
use std::fmt;
use thiserror::Error;

/// What a line says. Functions are numbered from 1.
#[derive(Drop)]
pub enum Line {
    /// Spaces and tabs alone, or a comment, which begins with `#`.
    Blank,
    /// Hand out a ticket.
    Ticket,
    /// Run a function for a ticket.
    Request { ticket: u32, func: u16, args: Value },
    /// Give a run, by its number, so many turns: 1 to 1,000.
    Turn { run: u32, times: u32 },
    /// Let a run make the act of its next turn, and end before it learns what the act told.
    Lost { run: u32 },
    /// End a run.
    Crash { run: u32 },
    /// Start another run of an intent, as one of this function.
    Restart { id: IntentId, func: u16 },
    /// Give the intent collector so many turns: 1 to 1,000.
    Ic { times: u32 },
    /// Give a garbage collector, by its number from 0 to 7, so many turns: 1 to 1,000.
    Gc { k: u8, times: u32 },
    /// Give a garbage collector, by its number from 0 to 7, turns until it has gone round, at most the budget:
    /// 1 to 4,000,000,000.
    Sweep { k: u8, budget: u64 },
    /// Give turns to runs until none is left to wait for, at most the budget: 1 to 4,000,000,000.
    Settle { budget: u64 },
    /// Let so many ticks pass: 0 to 4,294,967,297.
    Tick { by: u64 },
    /// End the host.
    Halt,
    /// Tell what a ticket's run gave.
    Reply { ticket: u32 },
    /// Tell how many rows there are.
    Rows,
    /// List the tables.
    Tables,
    /// List the book.
    Book,
}

/// Why a line was not read. Where several causes hold, the one that stands first here is told.
#[derive(Drop, Error)]
pub enum ScriptErr {
    /// No more memory.
    #[error("out of memory")]
    OutOfMemory,
    /// The line has none of the forms.
    #[error("line")]
    BadLine,
    /// No function of the deployment has this name.
    #[error("unknown-function {name}", name = .0.as_str())]
    UnknownFunction(Str),
    /// The rest of the line is no value in JSON, or one past the limits of values.
    #[error("value")]
    BadValue,
}

impl fmt::Debug for ScriptErr {
    fn fmt<W: fmt::Write>(&self, f: &mut fmt::Formatter<W>) -> fmt::Result {
        write!(f, "ScriptErr({self})")
    }
}

impl From<AllocError> for ScriptErr {
    ghost use Rattle.std.specs.Prelude.{◌≡◌};
    ghost use Rattle.beldi_script.specs.declared.line.ScriptErr.TheVariants.{OutOfMemory};

    ghost from_gives = { λ _ e. e ≡ OutOfMemory };

    fn from(_error: AllocError) -> ScriptErr {
        ScriptErr::OutOfMemory
    }
}
