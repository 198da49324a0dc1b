// A call that nobody waits for: what is asked, and what follows; as parts, and as a walk.
ghost use Rattle.std.specs.Prelude.{◌≡◌, ◌<◌, true, length, IfOk, OnErr};
ghost use Rattle.beldi_query.specs.Query.{query_reply_of, lends};
ghost use Rattle.beldi_call.specs.Async.{async_asks, async_output, async_next as next_of, callee_of, first_async};

use beldi_intent::register_query;
use beldi_invokelog::{Back, back_told, invoked_told, open_query, registered_query};
use beldi_query::{Query, QueryReplyRef, Walk};
use beldi_row::Body;
use beldi_value::{Boxed, IntentId, Place};
use std::alloc::{AllocError, Global};
use std::marker::Model;

/// A place that a call can be made at: its intent has fewer than 63 hops, so what it calls has an id.
#[derive(Drop)]
pub struct CallPlace {
    place: Place,
}

impl Model for CallPlace {
    ghost use Rattle.std.specs.Prelude.{length, ◌<◌};
    ghost use Rattle.beldi_value.specs.declared.place.Place.{Place};

    ghost Value = { Place };

    ghost view = { λ a. a.place };

    ghost invariant = { λ a. length a.place.intent.hops < 63 };
}

impl CallPlace {
    /// This place.
    pub fn new(place: Place) -> CallPlace
        requires { length place.intent.hops < 63 }
        ensures { result ≡ place }
    {
        CallPlace { place }
    }

    /// The place again.
    pub fn copy_place(&self, alloc: Global) -> Result<Place, AllocError>
        ensures { IfOk result (λ p. p ≡ self.now) }
    {
        self.place.copy(alloc)
    }

    /// The id of what is called there.
    pub fn callee(&self, alloc: Global) -> Result<IntentId, AllocError>
        ensures { IfOk result (λ id. id ≡ callee_of self.now) }
    {
        self.place.intent.child(alloc, self.place.step)
    }
}

/// Where an asynchronous call stands.
#[derive(Clone, Copy, Debug, PartialEq, Eq)]
pub enum AsyncAt {
    /// It is opened next.
    Open,
    /// The row of the callee is put next.
    Register,
    /// The row of the callee is there, and the call is marked as registered next.
    Note,
}

/// What a turn of an asynchronous call says.
#[derive(Clone, Copy, Debug, PartialEq, Eq)]
pub enum AsyncOutput {
    /// The call goes on.
    Going,
    /// The call is there and not registered; `first` says that this act put it.
    Opened { first: bool },
    /// The call is registered.
    Done,
}

/// What a call asks that the function `home` makes at a place; the callee has this to do.
pub fn async_query(
    alloc: Global,
    home: u16,
    place: &CallPlace,
    body: &Body,
    at: AsyncAt,
) -> Result<Boxed<Query>, AllocError>
    ensures { IfOk result (λ q. q ≡ async_asks home place.now body.now at) }
{
    match at {
        AsyncAt::Open => open_query(alloc, home, place.copy_place(alloc)?, body.func),
        AsyncAt::Register => {
            let callee = place.callee(alloc)?;
            register_query(alloc, callee, body.copy(alloc)?)
        }
        AsyncAt::Note => registered_query(alloc, home, place.copy_place(alloc)?),
    }
}

/// What a call of `func` says of what it was told. Out of memory only for what was lent.
pub fn async_told(
    alloc: Global,
    func: u16,
    at: AsyncAt,
    heard: QueryReplyRef<'_>,
) -> Result<AsyncOutput, AllocError>
    ensures ok { IfOk result (λ s. s ≡ async_output func at (query_reply_of heard.entry)) }
    ensures err { OnErr result (lends (query_reply_of heard.entry) ≡ true) }
{
    match at {
        AsyncAt::Open => {
            let call = invoked_told(alloc, func, heard)?;
            let output = if call.registered {
                AsyncOutput::Done
            } else {
                AsyncOutput::Opened { first: call.added }
            };
            drop(call);
            Ok(output)
        }
        AsyncAt::Register => Ok(AsyncOutput::Going),
        AsyncAt::Note => match back_told(heard) {
            Back::Set | Back::AlreadySet => Ok(AsyncOutput::Done),
            Back::Absent => Ok(AsyncOutput::Going),
        },
    }
}

/// Where a call stands after it said so.
pub fn async_next(at: AsyncAt, output: AsyncOutput) -> AsyncAt
    ensures { result ≡ next_of at output }
{
    match (at, output) {
        (AsyncAt::Open, AsyncOutput::Opened { .. }) => AsyncAt::Register,
        (AsyncAt::Open, _) => AsyncAt::Open,
        (AsyncAt::Register | AsyncAt::Note, _) => AsyncAt::Note,
    }
}

/// A walk that puts the row of a callee, once, and then marks the call as registered. After `Done` it stands where it stood. Where
/// the call's row is no longer there to be marked, it says `Going` and stands.
#[derive(Drop)]
pub struct AsyncWalk {
    home: u16,
    place: CallPlace,
    body: Body,
    at: AsyncAt,
}

impl Walk for AsyncWalk {
    ghost use Rattle.beldi_call.specs.Async.{walk_asks, walk_next, walk_output};

    type Output = AsyncOutput;

    ghost asks = { walk_asks };

    ghost next = { walk_next };

    ghost output = { walk_output };

    fn ask(&self, alloc: Global) -> Result<Boxed<Query>, AllocError> {
        async_query(alloc, self.home, &self.place, &self.body, self.at)
    }

    fn resume(
        &mut self,
        alloc: Global,
        heard: QueryReplyRef<'_>,
    ) -> Result<AsyncOutput, AllocError> {
        let output = async_told(alloc, self.body.func, self.at, heard)?;
        self.at = async_next(self.at, output);
        Ok(output)
    }
}

impl AsyncWalk {
    /// A walk of the call that the function `home` makes at a place, of a callee that has this to do. The intent of the place
    /// has fewer than 63 hops.
    pub fn new(home: u16, place: Place, body: Body) -> AsyncWalk
        requires { length place.intent.hops < 63 }
        ensures { result ≡ first_async home place body }
    {
        AsyncWalk {
            home,
            place: CallPlace::new(place),
            body,
            at: AsyncAt::Open,
        }
    }
}
