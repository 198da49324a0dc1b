// The calls of an intent, one after another.
ghost use Rattle.std.specs.Prelude.{◌≡◌, IfOk};
ghost use Rattle.beldi_query.specs.Query.{query_reply_of};
ghost use Rattle.beldi_txn.specs.Invokes.{invokes_after, invokes_asks, invokes_found, call_of, func_called as called_by};

use crate::call_path::Called;
use beldi_invokelog::invoke_key;
use beldi_lock::id_before;
use beldi_query::{Query, QueryReplyRef};
use beldi_row::{Kind, Row, RowKey};
use beldi_value::{Boxed, IntentId, Place};
use std::alloc::{AllocError, Global};

// The key that the row asked for comes after.
fn after_key(
    alloc: Global,
    home: u16,
    id: IntentId,
    after: Option<u32>,
) -> Result<RowKey, AllocError>
    ensures { IfOk result (λ k. k ≡ invokes_after home id after) }
{
    let place = match after {
        Some(step) => Place { intent: id, step },
        None => Place {
            intent: id_before(alloc, &id)?,
            step: u32::MAX,
        },
    };
    Ok(invoke_key(home, place))
}

/// Asks for the row after that of the call at a step, or without one for the first row, of the calls of an intent of the function
/// `home`. No intent has the ticket 0.
pub fn invokes_query(
    alloc: Global,
    home: u16,
    id: IntentId,
    after: Option<u32>,
) -> Result<Boxed<Query>, AllocError>
    ensures { IfOk result (λ q. q ≡ invokes_asks home id after) }
{
    Query::after(alloc, after_key(alloc, home, id, after)?)
}

/// The call of the row that was found; None where no row was, or it is of no call of this intent.
pub fn invokes_told(home: u16, id: &IntentId, heard: QueryReplyRef<'_>) -> Option<Called>
    ensures { result ≡ invokes_found home id.now (query_reply_of heard.entry) }
{
    match heard {
        QueryReplyRef::Found(Some((key, row))) => call_in(home, id, key, row),
        _ => None,
    }
}

// The call of a row.
fn call_in(home: u16, id: &IntentId, key: &RowKey, row: &Row) -> Option<Called>
    ensures { result ≡ call_of home id.now key.now key.now.kind row.now }
{
    match key.kind() {
        Kind::Invoke(place) => {
            if &place.intent == id && key.home() == home {
                Some(Called {
                    step: place.step,
                    func: func_called(row),
                })
            } else {
                None
            }
        }
        _ => None,
    }
}

fn func_called(row: &Row) -> u16
    ensures { result ≡ called_by row.now }
{
    match row {
        Row::Invoke(call) => call.func,
        _ => 0,
    }
}
