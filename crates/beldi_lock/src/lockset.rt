// The items that a transaction asked the locks of, one after another.
ghost use Rattle.std.specs.Prelude.{◌≡◌, None, true, IfOk, OnErr};
ghost use Rattle.beldi_query.specs.Query.{query_reply_of, lends};
ghost use Rattle.beldi_query.specs.Walk.{Answered};
ghost use Rattle.beldi_query.specs.declared.query.Query.TheVariants.{After};
ghost use Rattle.beldi_lock.specs.Lockset.{lockset_after, lockset_asks, lockset_found, item_of, item_lent};

use crate::before::id_before;
use crate::lock::lockset_key;
use beldi_query::{Query, QueryReplyRef};
use beldi_row::{Kind, RowKey, Table, TableErr};
use beldi_value::{Boxed, IntentId, Str};
use std::alloc::{AllocError, Global};

// The key that the row asked for comes after.
fn after_key(
    alloc: Global,
    home: u16,
    id: &IntentId,
    begin: u32,
    after: Option<(u16, &Str)>,
) -> Result<RowKey, AllocError>
    ensures { IfOk result (λ k. k ≡ lockset_after home id.now begin (item_lent after.entry)) }
{
    match after {
        Some((table, key)) => Ok(lockset_key(
            home,
            id.copy(alloc)?,
            begin,
            table,
            key.copy(alloc)?,
        )),
        None => key_below(alloc, home, id, begin),
    }
}

// The key below the first item of a transaction.
fn key_below(alloc: Global, home: u16, id: &IntentId, begin: u32) -> Result<RowKey, AllocError>
    ensures { IfOk result (λ k. k ≡ lockset_after home id.now begin None) }
{
    let table = u16::MAX;
    let key = Str::from_text(alloc, "")?;
    if begin > 0 {
        return Ok(lockset_key(home, id.copy(alloc)?, begin - 1, table, key));
    }
    let before = id_before(alloc, id)?;
    Ok(lockset_key(home, before, u32::MAX, table, key))
}

/// Asks for the row after that of an item, or without one for the first row, of those that say that an intent asked for a lock in the
/// transaction begun at the step `begin`. No table has the number 65,535, and no intent the ticket 0.
pub fn lockset_query(
    alloc: Global,
    home: u16,
    id: &IntentId,
    begin: u32,
    after: Option<(u16, &Str)>,
) -> Result<Boxed<Query>, AllocError>
    ensures { IfOk result (λ q. q ≡ lockset_asks home id.now begin (item_lent after.entry)) }
{
    Query::after(alloc, after_key(alloc, home, id, begin, after)?)
}

/// The item of the row that was found; None where no row was, or it is of no lock that this intent asked for in this transaction.
/// Out of memory only for what was lent.
pub fn lockset_told(
    alloc: Global,
    home: u16,
    id: &IntentId,
    begin: u32,
    heard: QueryReplyRef<'_>,
) -> Result<Option<(u16, Str)>, AllocError>
    ensures ok { IfOk result (λ i. i ≡ lockset_found home id.now begin (query_reply_of heard.entry)) }
    ensures err { OnErr result (lends (query_reply_of heard.entry) ≡ true) }
{
    let QueryReplyRef::Found(Some((key, _))) = heard else {
        return Ok(None);
    };
    match item_in(home, id, begin, key) {
        Some((table, key)) => Ok(Some((table, key.copy(alloc)?))),
        None => Ok(None),
    }
}

// The item of a row's key.
fn item_in<'a>(home: u16, id: &IntentId, begin: u32, key: &'a RowKey) -> Option<(u16, &'a Str)>
    ensures { item_lent result ≡ item_of home id.now begin key.now key.now.kind }
{
    match key.kind() {
        Kind::Lockset {
            intent,
            begin: step,
            table,
            key: name,
        } => {
            if intent == id && *step == begin && key.home() == home {
                Some((*table, name))
            } else {
                None
            }
        }
        _ => None,
    }
}

// The item of the row after a key.
fn next_after<T: Table>(
    alloc: Global,
    table: &mut T,
    after: &RowKey,
    home: u16,
    id: &IntentId,
    begin: u32,
) -> Result<Option<(u16, Str)>, TableErr>
    ensures { Answered (After after.now) 0 (lockset_found home id.now begin) (T.state table.old) (T.state table.new) result }
{
    match table.next(after) {
        Ok(found) => match lockset_told(alloc, home, id, begin, QueryReplyRef::Found(found)) {
            Ok(item) => Ok(item),
            Err(_) => Err(TableErr::OutOfMemory),
        },
        Err(why) => Err(why),
    }
}

/// The item of the row after that of an item, or without one of the first row, of those that say that an intent asked for a lock
/// in the transaction begun at the step `begin`; None where the next row is no such row of this home. The rows stay as they are, at an
/// `Err` too: `Failed` comes only where the table failed, and `Full` never.
pub fn lockset_next<T: Table>(
    alloc: Global,
    table: &mut T,
    home: u16,
    id: &IntentId,
    begin: u32,
    after: Option<(u16, &Str)>,
) -> Result<Option<(u16, Str)>, TableErr>
    ensures { Answered (lockset_asks home id.now begin (item_lent after.entry)) 0 (lockset_found home id.now begin) (T.state table.old) (T.state table.new) result }
{
    match after_key(alloc, home, id, begin, after) {
        Ok(key) => {
            let item = next_after(alloc, table, &key, home, id, begin);
            drop(key);
            item
        }
        Err(_) => Err(TableErr::OutOfMemory),
    }
}
