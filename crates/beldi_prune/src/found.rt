// What a log collector is to do with a row, and what a look at the row of an intent tells.
ghost use Rattle.std.specs.Prelude.{◌≡◌, IfOk};
ghost use Rattle.beldi_row.specs.declared.key.Kind.TheVariants as kinds;
ghost use Rattle.beldi_query.specs.Query.{query_reply_of};
ghost use Rattle.beldi_prune.specs.Seat.{seat as seat_of_row};
ghost use Rattle.beldi_prune.specs.Prune.{todo_of, is_newest as is_newest_of, is_past_row as is_past_row_of, is_recyclable as is_recyclable_of};

use crate::entries::Intents;
use crate::unlink::judge_row;
use beldi_intent::intent_key;
use beldi_query::QueryReplyRef;
use beldi_row::{ActReplyRef, Kind, Row, RowKey, is_old_row, is_past};
use beldi_value::IntentId;
use std::alloc::{AllocError, Global};

/// What is to be done with a row.
#[derive(Drop)]
pub enum Todo {
    /// It stays.
    Pass,
    /// It is the row of an intent, and is to go.
    DropIt,
    /// It is a row that an intent left, whose own row is to be looked at.
    LookAt,
    /// It is a row of an item that no row leads to for more than a life, and is to go.
    DropAdrift,
    /// It is a marked row of an item, past which its chain is to be led to the row of this number.
    LeadPast(u32),
    /// It is a row of an item which is to be marked once these intents were found gone or old.
    Prove(Intents),
}

/// What is to be done with this row.
pub(crate) fn judge(
    alloc: Global,
    key: &RowKey,
    row: &Row,
    newest: u32,
    life: u64,
    now: u64,
) -> Result<Todo, AllocError>
    ensures { IfOk result (λ t. t ≡ todo_of newest life now key.now.kind row.now) }
{
    match key.kind() {
        Kind::Intent(id) => Ok(judge_intent(id, row, newest, life, now)),
        Kind::Data { row: number, .. } => judge_row(alloc, *number, row, life, now),
        _ => Ok(Todo::LookAt),
    }
}

fn judge_intent(id: &IntentId, row: &Row, newest: u32, life: u64, now: u64) -> Todo
    ensures { result ≡ todo_of newest life now (kinds.Intent id.now) row.now }
{
    if !is_newest(id, newest) && is_old_row(row, life, now) {
        Todo::DropIt
    } else {
        Todo::Pass
    }
}

// Whether it is the root of the newest ticket, or of one that was not issued.
fn is_newest(id: &IntentId, newest: u32) -> bool
    ensures { result ≡ is_newest_of newest id.now }
{
    id.hops.is_empty() && !(id.ticket < newest)
}

/// The key of the row of the intent that a row belongs to.
pub(crate) fn seat(alloc: Global, key: &RowKey) -> Result<RowKey, AllocError>
    ensures { IfOk result (λ k. k ≡ seat_of_row key.now) }
{
    match key.kind() {
        Kind::Intent(id) | Kind::Lockset { intent: id, .. } => {
            Ok(intent_key(id.copy(alloc)?, key.home()))
        }
        Kind::ReadLog(place) | Kind::Invoke(place) => {
            Ok(intent_key(place.intent.copy(alloc)?, key.home()))
        }
        Kind::Shadow { tx, .. } => Ok(intent_key(tx.intent.copy(alloc)?, tx.func)),
        Kind::Data { .. } => key.copy(alloc),
    }
}

/// Whether the intent that was looked at is gone, or finished more than a life ago.
pub(crate) fn is_recyclable(heard: &QueryReplyRef<'_>, life: u64, now: u64) -> bool
    ensures { result ≡ is_recyclable_of life now (query_reply_of heard.entry.now) }
{
    match heard {
        QueryReplyRef::Act(ActReplyRef::Absent) => true,
        QueryReplyRef::Act(ActReplyRef::Row(row)) => is_past_row(row, life, now),
        _ => false,
    }
}

fn is_past_row(row: &Row, life: u64, now: u64) -> bool
    ensures { result ≡ is_past_row_of life now row.now }
{
    match row {
        Row::Intent(intent) => is_past(intent.finish, life, now),
        _ => false,
    }
}
