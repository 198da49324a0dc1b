// The intent collector: what is asked of a table, and what follows.
ghost use Rattle.std.specs.Prelude.{◌≡◌, true, IfOk, OnErr};
ghost use Rattle.beldi_query.specs.Query.{query_reply_of, lends};
ghost use Rattle.beldi_collect.specs.Collect.{collect_asks, collect_output, lent_intent, open_at, passing as passing_of};

use beldi_intent::open_body;
use beldi_query::{Query, QueryReplyRef};
use beldi_row::{Body, Kind, Row, RowKey};
use beldi_value::{Boxed, IntentId, or_drop};
use std::alloc::{AllocError, Global};

/// What the intent collector finds after its cursor.
#[derive(Drop)]
pub enum Found {
    /// The row is passed: the cursor is set to this key.
    Passed(RowKey),
    /// The row of this key is that of an intent which has a body, of this function, and has not ended.
    Unended {
        key: RowKey,
        id: IntentId,
        func: u16,
    },
    /// No row follows.
    Round,
}

/// Asks for the row after the cursor.
pub fn collect_query(alloc: Global, cursor: &RowKey) -> Result<Boxed<Query>, AllocError>
    ensures { IfOk result (λ q. q ≡ collect_asks cursor.now) }
{
    Query::after(alloc, cursor.copy(alloc)?)
}

/// What is found there. Out of memory only for what was lent.
pub fn collect_told(alloc: Global, heard: QueryReplyRef<'_>) -> Result<Found, AllocError>
    ensures ok { IfOk result (λ f. f ≡ collect_output (query_reply_of heard.entry)) }
    ensures err { OnErr result (lends (query_reply_of heard.entry) ≡ true) }
{
    let QueryReplyRef::Found(Some((key, row))) = heard else {
        return Ok(Found::Round);
    };
    match open_intent(key, row) {
        None => Ok(Found::Passed(passing(alloc, key)?)),
        Some((id, body)) => {
            let key = key.copy(alloc)?;
            let id = or_drop!(id.copy(alloc); key);
            Ok(Found::Unended {
                key,
                id,
                func: body.func,
            })
        }
    }
}

/// The intent of a row, if it has a body and has not ended.
pub(crate) fn open_intent<'a>(key: &'a RowKey, row: &'a Row) -> Option<(&'a IntentId, &'a Body)>
    ensures { lent_intent result ≡ open_at key.now.kind row.now }
{
    match (key.kind(), row) {
        (Kind::Intent(id), Row::Intent(intent)) => match open_body(intent) {
            None => None,
            Some(body) => Some((id, body)),
        },
        _ => None,
    }
}

/// Where the cursor stands after a row that it passed.
pub(crate) fn passing(alloc: Global, key: &RowKey) -> Result<RowKey, AllocError>
    ensures { IfOk result (λ k. k ≡ passing_of key.now key.now.kind) }
{
    match key.kind() {
        Kind::Intent(_) => key.copy(alloc),
        _ => {
            if key.home() < u16::MAX {
                let first = Kind::Intent(IntentId::root(0));
                Ok(RowKey::new(key.home() + 1, first))
            } else {
                key.copy(alloc)
            }
        }
    }
}
