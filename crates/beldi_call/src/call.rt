// A call that waits for its result: what is asked of its row, and what follows; as parts, and as a walk.
ghost use Rattle.std.specs.Prelude.{◌≡◌, true, IfOk, OnErr};
ghost use Rattle.beldi_query.specs.Query.{query_reply_of, lends};
ghost use Rattle.beldi_call.specs.Call.{call_asks, call_output, call_next as next_of, first_call};

use beldi_invokelog::{invoked_told, open_query, result_query, result_told};
use beldi_query::{Query, QueryReplyRef, Walk};
use beldi_value::{Boxed, Outcome, Place};
use std::alloc::{AllocError, Global};

/// Where a call stands.
#[derive(Clone, Copy, Debug, PartialEq, Eq)]
pub enum CallAt {
    /// It is opened next.
    Open,
    /// It was opened, and is looked at next.
    Look,
}

/// What a turn of a call says.
#[derive(Drop)]
pub enum CallOutput {
    /// The call is there and has no result; `first` says that this act put it. A run of the callee may be started.
    Opened { first: bool },
    /// The call, which was opened before, has no result yet.
    NotYet,
    /// The callee gave this back.
    Done(Outcome),
}

/// What a call asks that the function `home` makes of `func` at a place.
pub fn call_query(
    alloc: Global,
    home: u16,
    place: Place,
    func: u16,
    at: CallAt,
) -> Result<Boxed<Query>, AllocError>
    ensures { IfOk result (λ q. q ≡ call_asks home place func at) }
{
    match at {
        CallAt::Open => open_query(alloc, home, place, func),
        CallAt::Look => result_query(alloc, home, place),
    }
}

/// What a call says of what it was told. Out of memory only for what was lent.
pub fn call_told(
    alloc: Global,
    func: u16,
    at: CallAt,
    heard: QueryReplyRef<'_>,
) -> Result<CallOutput, AllocError>
    ensures ok { IfOk result (λ s. s ≡ call_output func at (query_reply_of heard.entry)) }
    ensures err { OnErr result (lends (query_reply_of heard.entry) ≡ true) }
{
    match at {
        CallAt::Open => {
            let call = invoked_told(alloc, func, heard)?;
            match call.result {
                None => Ok(CallOutput::Opened { first: call.added }),
                Some(outcome) => Ok(CallOutput::Done(outcome)),
            }
        }
        CallAt::Look => match result_told(alloc, heard)? {
            None => Ok(CallOutput::NotYet),
            Some(outcome) => Ok(CallOutput::Done(outcome)),
        },
    }
}

/// Where a call stands after it said so.
pub fn call_next(at: CallAt, output: &CallOutput) -> CallAt
    ensures { result ≡ next_of at output.now }
{
    match output {
        CallOutput::Opened { .. } => CallAt::Look,
        CallOutput::NotYet | CallOutput::Done(_) => at,
    }
}

/// A walk to the result of a call: however many walks there are at a place, the call is put once, and so is its result. After
/// `NotYet` and `Done` it stands where it stood.
#[derive(Drop)]
pub struct CallWalk {
    home: u16,
    place: Place,
    func: u16,
    at: CallAt,
}

impl Walk for CallWalk {
    ghost use Rattle.beldi_call.specs.Call.{walk_asks, walk_next, walk_output};

    type Output = CallOutput;

    ghost asks = { walk_asks };

    ghost next = { walk_next };

    ghost output = { walk_output };

    fn ask(&self, alloc: Global) -> Result<Boxed<Query>, AllocError> {
        call_query(
            alloc,
            self.home,
            self.place.copy(alloc)?,
            self.func,
            self.at,
        )
    }

    fn resume(
        &mut self,
        alloc: Global,
        heard: QueryReplyRef<'_>,
    ) -> Result<CallOutput, AllocError> {
        let output = call_told(alloc, self.func, self.at, heard)?;
        self.at = call_next(self.at, &output);
        Ok(output)
    }
}

impl CallWalk {
    /// A walk of the call of `func` that the function `home` makes at a place.
    pub fn new(home: u16, place: Place, func: u16) -> CallWalk
        ensures { result ≡ first_call home place func }
    {
        CallWalk {
            home,
            place,
            func,
            at: CallAt::Open,
        }
    }
}
