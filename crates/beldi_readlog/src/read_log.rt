// The value that a read was given, by its place. Each call makes one act.
ghost use Rattle.std.specs.Prelude.{◌≡◌, true, IfOk, OnErr};
ghost use Rattle.beldi_query.specs.Query.{query_reply_of, lends};
ghost use Rattle.beldi_query.specs.Walk.{Answered};
ghost use Rattle.beldi_readlog.specs.ReadLog.{log_key as key_of, given_asks, given_of, keep_asks, kept_of, kept_so};

use beldi_query::{Query, QueryReplyRef, Walk};
use beldi_row::{Act, ActReplyRef, Kind, Row, RowKey, Table, TableErr};
use beldi_value::{Boxed, Place, Value, or_drop};
use std::alloc::{AllocError, Global};

/// What a place has after a value was put there.
#[derive(Drop)]
pub struct Kept {
    /// The value that the place has.
    pub value: Value,
    /// This call put it.
    pub added: bool,
}

/// The key of what the read of the function `home` at a place was given.
pub fn log_key(home: u16, at: Place) -> RowKey
    ensures { result ≡ key_of home at }
{
    RowKey::new(home, Kind::ReadLog(at))
}

/// The value that was given, after a Look; None exactly where no row was there. A row of another kind, which no session
/// writes there, reads as null. Out of memory only for what was lent.
pub fn given_told(alloc: Global, heard: QueryReplyRef<'_>) -> Result<Option<Value>, AllocError>
    ensures ok { IfOk result (λ v. v ≡ given_of (query_reply_of heard.entry)) }
    ensures err { OnErr result (lends (query_reply_of heard.entry) ≡ true) }
{
    match heard {
        QueryReplyRef::Act(ActReplyRef::Row(Row::ReadLog(value))) => Ok(Some(value.copy(alloc)?)),
        QueryReplyRef::Act(ActReplyRef::Row(_)) => Ok(Some(Value::Null)),
        _ => Ok(None),
    }
}

/// What a place has after `value` was put there: a copy of it, or of the value that was there before.
pub fn kept_told(alloc: Global, value: &Value, heard: QueryReplyRef<'_>) -> Result<Kept, AllocError>
    ensures { IfOk result (λ k. k ≡ kept_of value.now (query_reply_of heard.entry)) }
{
    match heard {
        QueryReplyRef::Act(ActReplyRef::Added) => Ok(Kept {
            value: value.copy(alloc)?,
            added: true,
        }),
        QueryReplyRef::Act(ActReplyRef::Kept(there)) => Ok(Kept {
            value: there.copy(alloc)?,
            added: false,
        }),
        _ => Ok(Kept {
            value: Value::Null,
            added: false,
        }),
    }
}

// Looks for the value that a place was given.
#[derive(Drop)]
struct Given {
    home: u16,
    at: Place,
}

impl Walk for Given {
    ghost use Rattle.beldi_readlog.specs.ReadLog.{look_asks, look_next, look_output};

    type Output = Option<Value>;

    ghost asks = { look_asks };

    ghost next = { look_next };

    ghost output = { look_output };

    fn ask(&self, alloc: Global) -> Result<Boxed<Query>, AllocError> {
        Query::look(alloc, log_key(self.home, self.at.copy(alloc)?))
    }

    fn resume(
        &mut self,
        alloc: Global,
        heard: QueryReplyRef<'_>,
    ) -> Result<Option<Value>, AllocError> {
        given_told(alloc, heard)
    }
}

/// The value that the read of the function `home` at a place was given, None exactly where none was kept. A row of
/// another kind, which no session writes there, reads as null. The rows stay as they are, at an `Err` too: `Failed` comes
/// only where the table failed, and `Full` never.
pub fn get<T: Table>(
    alloc: Global,
    table: &mut T,
    home: u16,
    at: &Place,
    now: u64,
) -> Result<Option<Value>, TableErr>
    ensures { Answered (given_asks home at.now) now given_of (T.state table.old) (T.state table.new) result }
{
    let Ok(at) = at.copy(alloc) else {
        return Err(TableErr::OutOfMemory);
    };
    let mut look = Given { home, at };
    look.turn(alloc, table, now)
}

// Keeps a value at a place, once: it says the value that was there, None where this one was put.
#[derive(Drop)]
struct Keep {
    home: u16,
    at: Place,
    value: Value,
}

impl Walk for Keep {
    ghost use Rattle.beldi_readlog.specs.ReadLog.{put_asks, put_next, put_output};

    type Output = Option<Value>;

    ghost asks = { put_asks };

    ghost next = { put_next };

    ghost output = { put_output };

    fn ask(&self, alloc: Global) -> Result<Boxed<Query>, AllocError> {
        let key = log_key(self.home, self.at.copy(alloc)?);
        let value = or_drop!(self.value.copy(alloc); key);
        Query::act(alloc, key, Act::PutRead { value })
    }

    fn resume(
        &mut self,
        alloc: Global,
        heard: QueryReplyRef<'_>,
    ) -> Result<Option<Value>, AllocError> {
        match heard {
            QueryReplyRef::Act(ActReplyRef::Added) => Ok(None),
            QueryReplyRef::Act(ActReplyRef::Kept(there)) => Ok(Some(there.copy(alloc)?)),
            _ => Ok(Some(Value::Null)),
        }
    }
}

fn kept_now(value: Value, there: Option<Value>) -> Kept
    ensures { result ≡ kept_so value there }
{
    match there {
        None => Kept { value, added: true },
        Some(value) => Kept {
            value,
            added: false,
        },
    }
}

/// Keeps a value for the read of the function `home` at a place, once, and gives the value that the place then has. At
/// an `Err` the rows are as before: `Full` comes exactly where none was kept and the table has no room for a row, and
/// `Failed` only where the table failed.
pub fn put_once<T: Table>(
    alloc: Global,
    table: &mut T,
    home: u16,
    at: &Place,
    value: Value,
    now: u64,
) -> Result<Kept, TableErr>
    ensures { Answered (keep_asks home at.now value) now (kept_of value) (T.state table.old) (T.state table.new) result }
{
    let at = or_drop!(at.copy(alloc); value);
    let copy = or_drop!(value.copy(alloc); value, at);
    let mut keep = Keep { home, at, value };
    let turned = keep.turn(alloc, table, now);
    drop(keep);
    match turned {
        Ok(there) => Ok(kept_now(copy, there)),
        Err(why) => {
            drop(copy);
            Err(why)
        }
    }
}
