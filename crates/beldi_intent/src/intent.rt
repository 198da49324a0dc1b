// The rows of intents: what is asked of one, and what follows from what is told.
ghost use Rattle.std.specs.Prelude.{◌≡◌, true, Some, IfOk, OnErr, option_copied};
ghost use Rattle.beldi_query.specs.Query.{query_reply_of, lends};
ghost use Rattle.beldi_query.specs.Walk.{Answered};
ghost use Rattle.beldi_intent.specs.Intent.{intent_key as key_of, root_key as root_key_of, issue_asks, bind_asks, register_asks, look_asks, end_asks, stamp_asks, is_added, is_did, put_of, binding_of, intent_of, intent_in, read_as, open_body as open_body_of};

use beldi_query::{Query, QueryReplyRef};
use beldi_row::{Act, ActReplyRef, Body, IntentRow, Kind, Row, RowKey, Table, TableErr};
use beldi_value::{Boxed, IntentId, Outcome, Value};
use std::alloc::{AllocError, Global};

/// What binding a root to a function and arguments came to.
#[derive(Drop)]
pub enum Binding {
    /// It was bound to them now.
    Bound,
    /// It was bound to them before, and has no outcome.
    Running,
    /// It was bound to these before, which differ.
    Other { func: u16, args: Value },
    /// It was bound to them before, and has this outcome.
    Ended(Outcome),
    /// Its row is absent.
    Gone,
}

/// What came of setting something of an intent, once.
#[derive(Clone, Copy, Debug, PartialEq, Eq)]
pub enum Put {
    /// It was set by this act.
    Did,
    /// It was set before.
    Already,
    /// There is no intent.
    Gone,
}

/// The key of the row of an intent, whose function is this one.
pub fn intent_key(id: IntentId, func: u16) -> RowKey
    ensures { result ≡ key_of id func }
{
    RowKey::new(id.home(func), Kind::Intent(id))
}

/// The key of the row of a ticket's root.
pub fn root_key(ticket: u32) -> RowKey
    ensures { result ≡ root_key_of ticket }
{
    intent_key(IntentId::root(ticket), 0)
}

/// Asks for the row of a ticket's root to be added.
pub fn issue_query(alloc: Global, ticket: u32) -> Result<Boxed<Query>, AllocError>
    ensures { IfOk result (λ q. q ≡ issue_asks ticket) }
{
    Query::act(alloc, root_key(ticket), Act::Issue)
}

/// Whether it was added: a row that is there stays as it is.
pub fn issue_told(heard: QueryReplyRef<'_>) -> bool
    ensures { result ≡ is_added (query_reply_of heard.entry) }
{
    matches!(heard, QueryReplyRef::Act(ActReplyRef::Added))
}

/// Asks for the root of a ticket to be bound to a function and arguments, once.
pub fn bind_query(
    alloc: Global,
    ticket: u32,
    func: u16,
    args: Value,
) -> Result<Boxed<Query>, AllocError>
    ensures { IfOk result (λ q. q ≡ bind_asks ticket func args) }
{
    Query::act(alloc, root_key(ticket), Act::Bind { func, args })
}

/// What the bind came to. Out of memory only for what was lent.
pub fn bind_told(alloc: Global, heard: QueryReplyRef<'_>) -> Result<Binding, AllocError>
    ensures ok { IfOk result (λ b. b ≡ binding_of (query_reply_of heard.entry)) }
    ensures err { OnErr result (lends (query_reply_of heard.entry) ≡ true) }
{
    match heard {
        QueryReplyRef::Act(ActReplyRef::Bound) => Ok(Binding::Bound),
        QueryReplyRef::Act(ActReplyRef::Running) => Ok(Binding::Running),
        QueryReplyRef::Act(ActReplyRef::Other(body)) => Ok(Binding::Other {
            func: body.func,
            args: body.args.copy(alloc)?,
        }),
        QueryReplyRef::Act(ActReplyRef::Ended(outcome)) => Ok(Binding::Ended(outcome.copy(alloc)?)),
        _ => Ok(Binding::Gone),
    }
}

/// Whether an end was made by this act.
pub fn end_told(heard: &QueryReplyRef<'_>) -> bool
    ensures { result ≡ is_did (query_reply_of heard.entry.now) }
{
    matches!(heard, QueryReplyRef::Act(ActReplyRef::Did))
}

/// The body of an intent that has not ended.
pub fn open_body(intent: &IntentRow) -> Option<&Body>
    ensures { option_copied result ≡ open_body_of intent.now }
{
    if intent.outcome.is_some() || intent.finish.is_some() {
        return None;
    }
    intent.body.as_ref()
}

// What came of an end.
fn put_told(heard: QueryReplyRef<'_>) -> Put
    ensures { result ≡ put_of (query_reply_of heard.entry) }
{
    match heard {
        QueryReplyRef::Act(ActReplyRef::Did) => Put::Did,
        QueryReplyRef::Act(ActReplyRef::Already) => Put::Already,
        _ => Put::Gone,
    }
}

/// Asks for the row of a callee to be added, with what it is to do. It stands in the home of its function.
pub fn register_query(alloc: Global, id: IntentId, body: Body) -> Result<Boxed<Query>, AllocError>
    ensures { IfOk result (λ q. q ≡ register_asks id body) }
{
    Query::act(alloc, intent_key(id, body.func), Act::Register { body })
}

/// Asks for the finish of an intent to be set, once.
pub fn stamp_query(alloc: Global, id: IntentId, func: u16) -> Result<Boxed<Query>, AllocError>
    ensures { IfOk result (λ q. q ≡ stamp_asks id func) }
{
    Query::act(alloc, intent_key(id, func), Act::Stamp)
}

fn read(alloc: Global, row: &Row) -> Result<IntentRow, AllocError>
    ensures { IfOk result (λ i. i ≡ read_as (intent_in (Some row.now))) }
{
    match row {
        Row::Intent(intent) => intent.copy(alloc),
        _ => Ok(IntentRow {
            issued: 0,
            body: None,
            outcome: None,
            finish: None,
        }),
    }
}

// The intent that was told. Out of memory only for what was lent.
fn intent_told(alloc: Global, heard: QueryReplyRef<'_>) -> Result<Option<IntentRow>, AllocError>
    ensures ok { IfOk result (λ i. i ≡ intent_of (query_reply_of heard.entry)) }
    ensures err { OnErr result (lends (query_reply_of heard.entry) ≡ true) }
{
    match heard {
        QueryReplyRef::Act(ActReplyRef::Row(row)) => Ok(Some(read(alloc, row)?)),
        _ => Ok(None),
    }
}

/// Adds the row of the root of a ticket, and says whether it did: a row that is there stays as it is.
pub fn issue<T: Table>(table: &mut T, ticket: u32, now: u64) -> Result<bool, TableErr>
    ensures { Answered (issue_asks ticket) now is_added (T.state table.old) (T.state table.new) result }
{
    match table.act(root_key(ticket), Act::Issue, now) {
        Ok(said) => Ok(issue_told(QueryReplyRef::Act(said))),
        Err(why) => Err(why),
    }
}

/// Binds the root of a ticket to a function and arguments, once. Out of memory, nothing was bound.
pub fn bind<T: Table>(
    alloc: Global,
    table: &mut T,
    ticket: u32,
    func: u16,
    args: Value,
    now: u64,
) -> Result<Binding, TableErr>
    ensures { Answered (bind_asks ticket func args) now binding_of (T.state table.old) (T.state table.new) result }
{
    match table.act(root_key(ticket), Act::Bind { func, args }, now) {
        Ok(said) => match bind_told(alloc, QueryReplyRef::Act(said)) {
            Ok(binding) => Ok(binding),
            Err(_) => Err(TableErr::OutOfMemory),
        },
        Err(why) => Err(why),
    }
}

/// Adds the row of a callee with what it is to do, and gives None; or gives the row that is there, which stays as it is. A row
/// of another kind, which no session writes there, reads as one that was issued at 0 and has nothing to do. At an `Err` the
/// rows are as before: `Full` comes exactly where no row was there and the table has no room for one, and `Failed` only where
/// the table failed.
pub fn register<T: Table>(
    alloc: Global,
    table: &mut T,
    id: IntentId,
    body: Body,
    now: u64,
) -> Result<Option<IntentRow>, TableErr>
    ensures { Answered (register_asks id body) now intent_of (T.state table.old) (T.state table.new) result }
{
    match table.act(intent_key(id, body.func), Act::Register { body }, now) {
        Ok(said) => match intent_told(alloc, QueryReplyRef::Act(said)) {
            Ok(intent) => Ok(intent),
            Err(_) => Err(TableErr::OutOfMemory),
        },
        Err(why) => Err(why),
    }
}

/// The intent of a function, None exactly where no row is there; a row of another kind reads as for `register`. The rows stay
/// as they are, at an `Err` too: `Failed` comes only where the table failed, and `Full` never.
pub fn look<T: Table>(
    alloc: Global,
    table: &mut T,
    id: IntentId,
    func: u16,
    now: u64,
) -> Result<Option<IntentRow>, TableErr>
    ensures { Answered (look_asks id func) now intent_of (T.state table.old) (T.state table.new) result }
{
    match table.act(intent_key(id, func), Act::Look, now) {
        Ok(said) => match intent_told(alloc, QueryReplyRef::Act(said)) {
            Ok(intent) => Ok(intent),
            Err(_) => Err(TableErr::OutOfMemory),
        },
        Err(why) => Err(why),
    }
}

/// Ends an intent with an outcome, once, and with `stamp` sets also the moment of its finish where it has none. Where it
/// answers otherwise than `Did`, and at an `Err`, the rows are as before: `Failed` comes only where the table failed, and
/// `Full` never.
pub fn end<T: Table>(
    table: &mut T,
    id: IntentId,
    func: u16,
    outcome: Outcome,
    stamp: bool,
    now: u64,
) -> Result<Put, TableErr>
    ensures { Answered (end_asks id func outcome stamp) now put_of (T.state table.old) (T.state table.new) result }
{
    match table.act(intent_key(id, func), Act::End { outcome, stamp }, now) {
        Ok(said) => Ok(put_told(QueryReplyRef::Act(said))),
        Err(why) => Err(why),
    }
}

/// Sets the moment of an intent's finish, once: what was called in a transaction gets it from the owner's end. Where it answers
/// otherwise than `Did`, and at an `Err`, the rows are as before: `Failed` comes only where the table failed, and `Full` never.
pub fn stamp<T: Table>(table: &mut T, id: IntentId, func: u16, now: u64) -> Result<Put, TableErr>
    ensures { Answered (stamp_asks id func) now put_of (T.state table.old) (T.state table.new) result }
{
    match table.act(intent_key(id, func), Act::Stamp, now) {
        Ok(said) => Ok(put_told(QueryReplyRef::Act(said))),
        Err(why) => Err(why),
    }
}
