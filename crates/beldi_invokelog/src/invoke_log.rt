// The calls that were made, by their places. Each call here makes one act.
ghost use Rattle.std.specs.Prelude.{◌≡◌, true, false, IfOk, OnErr, Some, None};
ghost use Rattle.beldi_query.specs.Query.{query_reply_of, lends};
ghost use Rattle.beldi_query.specs.Walk.{Answered};
ghost use Rattle.beldi_invokelog.specs.InvokeLog.{invoke_key as key_of, call_in, invoked as invoked_by, open_asks, result_asks, back_asks, registered_asks, invoked_of, result_of, back_of};

use beldi_query::{Query, QueryReplyRef};
use beldi_row::{Act, ActReplyRef, InvokeRow, Kind, Row, RowKey, Table, TableErr};
use beldi_value::{Boxed, Outcome, Place};
use std::alloc::{AllocError, Global};

/// The call of a place, as it is once it was opened.
#[derive(Drop)]
pub struct Invoked {
    /// The function called.
    pub func: u16,
    /// What it gave back, if it has.
    pub result: Option<Outcome>,
    /// The callee of an asynchronous call has its row.
    pub registered: bool,
    /// This act put the call.
    pub added: bool,
}

/// What came of setting something of a call, once.
#[derive(Clone, Copy, Debug, PartialEq, Eq)]
pub enum Back {
    /// It was set by this act.
    Set,
    /// It was set before.
    AlreadySet,
    /// There is no call at the place.
    Absent,
}

/// The key of the call that the function `home` makes at a place.
pub fn invoke_key(home: u16, at: Place) -> RowKey
    ensures { result ≡ key_of home at }
{
    RowKey::new(home, Kind::Invoke(at))
}

/// Asks for the call of a function to be put at a place, once.
pub fn open_query(
    alloc: Global,
    home: u16,
    at: Place,
    func: u16,
) -> Result<Boxed<Query>, AllocError>
    ensures { IfOk result (λ q. q ≡ open_asks home at func) }
{
    Query::act(alloc, invoke_key(home, at), Act::OpenInvoke { func })
}

/// Asks for the call of a place.
pub fn result_query(alloc: Global, home: u16, at: Place) -> Result<Boxed<Query>, AllocError>
    ensures { IfOk result (λ q. q ≡ result_asks home at) }
{
    Query::look(alloc, invoke_key(home, at))
}

/// Asks for a call to be marked as registered, once.
pub fn registered_query(alloc: Global, home: u16, at: Place) -> Result<Boxed<Query>, AllocError>
    ensures { IfOk result (λ q. q ≡ registered_asks home at) }
{
    Query::act(alloc, invoke_key(home, at), Act::NoteRegistered)
}

// What a call gave back, again.
fn copy_result(alloc: Global, call: &InvokeRow) -> Result<Option<Outcome>, AllocError>
    ensures { IfOk result (λ o. o ≡ call.now.result) }
{
    match &call.result {
        None => Ok(None),
        Some(outcome) => Ok(Some(outcome.copy(alloc)?)),
    }
}

fn invoked_there(alloc: Global, row: &Row) -> Result<Invoked, AllocError>
    ensures { IfOk result (λ i. i ≡ invoked_by false (call_in (Some row.now))) }
{
    match row {
        Row::Invoke(call) => Ok(Invoked {
            func: call.func,
            result: copy_result(alloc, call)?,
            registered: call.registered,
            added: false,
        }),
        _ => Ok(unknown()),
    }
}

// A call of no function.
fn unknown() -> Invoked
    ensures { result ≡ invoked_by false None }
{
    Invoked {
        func: 0,
        result: None,
        registered: false,
        added: false,
    }
}

/// The call of a place after it was opened. A row of another kind, which no session writes there, reads as a call of function
/// 0, which is no function. Out of memory only for what was lent.
pub fn invoked_told(
    alloc: Global,
    func: u16,
    heard: QueryReplyRef<'_>,
) -> Result<Invoked, AllocError>
    ensures ok { IfOk result (λ i. i ≡ invoked_of func (query_reply_of heard.entry)) }
    ensures err { OnErr result (lends (query_reply_of heard.entry) ≡ true) }
{
    match heard {
        QueryReplyRef::Act(ActReplyRef::Added) => Ok(Invoked {
            func,
            result: None,
            registered: false,
            added: true,
        }),
        QueryReplyRef::Act(ActReplyRef::Row(row)) => invoked_there(alloc, row),
        _ => Ok(unknown()),
    }
}

/// What the call of a place gave back, after a Look. Out of memory only for what was lent.
pub fn result_told(alloc: Global, heard: QueryReplyRef<'_>) -> Result<Option<Outcome>, AllocError>
    ensures ok { IfOk result (λ o. o ≡ result_of (query_reply_of heard.entry)) }
    ensures err { OnErr result (lends (query_reply_of heard.entry) ≡ true) }
{
    match heard {
        QueryReplyRef::Act(ActReplyRef::Row(Row::Invoke(call))) => copy_result(alloc, call),
        _ => Ok(None),
    }
}

/// What came of setting something of a call.
pub fn back_told(heard: QueryReplyRef<'_>) -> Back
    ensures { result ≡ back_of (query_reply_of heard.entry) }
{
    match heard {
        QueryReplyRef::Act(ActReplyRef::Did) => Back::Set,
        QueryReplyRef::Act(ActReplyRef::Already) => Back::AlreadySet,
        _ => Back::Absent,
    }
}

fn key_at(alloc: Global, home: u16, at: &Place) -> Result<RowKey, AllocError>
    ensures { IfOk result (λ k. k ≡ key_of home at.now) }
{
    Ok(invoke_key(home, at.copy(alloc)?))
}

/// Puts the call of `func` that the function `home` makes at a place, once, and gives the call that the place then has. At an
/// `Err` the rows are as before: `Full` comes exactly where no row was there and the table has no room for one, and `Failed`
/// only where the table failed.
pub fn open_once<T: Table>(
    alloc: Global,
    table: &mut T,
    home: u16,
    at: &Place,
    func: u16,
    now: u64,
) -> Result<Invoked, TableErr>
    ensures { Answered (open_asks home at.now func) now (invoked_of func) (T.state table.old) (T.state table.new) result }
{
    let Ok(key) = key_at(alloc, home, at) else {
        return Err(TableErr::OutOfMemory);
    };
    match table.act(key, Act::OpenInvoke { func }, now) {
        Ok(said) => match invoked_told(alloc, func, QueryReplyRef::Act(said)) {
            Ok(invoked) => Ok(invoked),
            Err(_) => Err(TableErr::OutOfMemory),
        },
        Err(why) => Err(why),
    }
}

/// What the call of a place gave back, None exactly where there is no call or it has no result. The rows stay as they are, at
/// an `Err` too: `Failed` comes only where the table failed, and `Full` never.
pub fn result<T: Table>(
    alloc: Global,
    table: &mut T,
    home: u16,
    at: &Place,
    now: u64,
) -> Result<Option<Outcome>, TableErr>
    ensures { Answered (result_asks home at.now) now result_of (T.state table.old) (T.state table.new) result }
{
    let Ok(key) = key_at(alloc, home, at) else {
        return Err(TableErr::OutOfMemory);
    };
    match table.act(key, Act::Look, now) {
        Ok(said) => match result_told(alloc, QueryReplyRef::Act(said)) {
            Ok(outcome) => Ok(outcome),
            Err(_) => Err(TableErr::OutOfMemory),
        },
        Err(why) => Err(why),
    }
}

/// Sets the result of the call of a place, once. Where it answers otherwise than `Set`, and at an `Err`, the rows are as
/// before: `Failed` comes only where the table failed, and `Full` never.
pub fn call_back<T: Table>(
    alloc: Global,
    table: &mut T,
    home: u16,
    at: &Place,
    outcome: Outcome,
    now: u64,
) -> Result<Back, TableErr>
    ensures { Answered (back_asks home at.now outcome) now back_of (T.state table.old) (T.state table.new) result }
{
    let Ok(key) = key_at(alloc, home, at) else {
        drop(outcome);
        return Err(TableErr::OutOfMemory);
    };
    match table.act(key, Act::CallBack { outcome }, now) {
        Ok(said) => Ok(back_told(QueryReplyRef::Act(said))),
        Err(why) => Err(why),
    }
}

/// Marks the call of a place as registered, once. It answers and leaves the rows as `call_back` does.
pub fn registered<T: Table>(
    alloc: Global,
    table: &mut T,
    home: u16,
    at: &Place,
    now: u64,
) -> Result<Back, TableErr>
    ensures { Answered (registered_asks home at.now) now back_of (T.state table.old) (T.state table.new) result }
{
    let Ok(key) = key_at(alloc, home, at) else {
        return Err(TableErr::OutOfMemory);
    };
    match table.act(key, Act::NoteRegistered, now) {
        Ok(said) => Ok(back_told(QueryReplyRef::Act(said))),
        Err(why) => Err(why),
    }
}
