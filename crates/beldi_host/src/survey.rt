// Calls that read the rows of a table and change none.
ghost use Rattle.std.specs.Prelude.{◌≡◌, ◌≢◌, ◌≤◌, ◌^◌, ◌++◌, IfOk, IfSome, OnOk};
ghost use Rattle.std.specs.FinMap as map;
ghost use Rattle.beldi_row.specs.Act.{act_reply_of};
ghost use Rattle.beldi_row.specs.Key.{rank_of};
ghost use Rattle.beldi_row.specs.Table.{next_row, AtMostOne};
ghost use Rattle.beldi_intent.specs.Intent.{root_key as root_key_of};
ghost use Rattle.beldi_chain.specs.Chain.{chain, tail};
ghost use Rattle.beldi_daal.specs.Cell.{shadow_key as shadow_key_of};
ghost use Rattle.beldi_step.specs.HostStep.{HaltCame};
ghost use Rattle.beldi_step.specs.Tables.{tables_text, decision_key as decision_key_of, is_committed as is_commit, value_in, owned_value as shown_value};
ghost use Rattle.beldi_host.specs.Survey.{PassesToldOpen, Reads, Prepared, IsHighWater, timely, timely_in, row_moment, next_mark_of, next_listed_of, next_line_of, held_listed, listed_of, key_line, last_line, line_after, owned_after, last_rank, Past, row_status, told_row};
ghost use Rattle.beldi_host.specs.declared.survey.ReplyStatus.TheVariants.{Unknown};

use crate::high_water::HighWater;
use crate::last_row::{last_row, row_after};
use beldi_book::write_item;
use beldi_core::LAST_MOMENT;
use beldi_daal::shadow_key;
use beldi_intent::root_key;
use beldi_lang::Deployment;
use beldi_readlog::log_key;
use beldi_row::{Act, ActReplyRef, Kind, Opens, Row, RowKey, Table, TableErr};
use beldi_value::{IntentId, Outcome, Owner, Place, Str, TextBuf, TxId, Value, or_drop};
use std::alloc::{AllocError, Global};

/// Why the rows could not be read. They are as before.
#[derive(Clone, Copy, Debug, PartialEq, Eq)]
pub enum OpenErr {
    OutOfMemory,
    /// The table failed: only where its count of failures rose in this call.
    Failed,
}

/// What the row of a root says of its reply.
#[derive(Drop)]
pub enum ReplyStatus {
    /// The ticket is 0 or above the newest.
    Unknown,
    /// The ticket was issued, and its row is absent.
    Gone,
    /// The root has no outcome.
    Waiting,
    Reply(Outcome),
}

impl From<TableErr> for OpenErr {
    ghost use Rattle.beldi_host.specs.Opening.{open_err};
    ghost use Rattle.std.specs.Prelude.{◌≡◌};

    ghost from_gives = { λ w e. e ≡ open_err w };

    // A reading is never refused as `Full`.
    fn from(why: TableErr) -> Self {
        match why {
            TableErr::Failed => OpenErr::Failed,
            TableErr::OutOfMemory | TableErr::Full { .. } => OpenErr::OutOfMemory,
        }
    }
}

impl From<AllocError> for OpenErr {
    ghost use Rattle.beldi_host.specs.declared.survey.OpenErr.TheVariants.{OutOfMemory};
    ghost use Rattle.std.specs.Prelude.{◌≡◌};

    ghost from_gives = { λ _ e. e ≡ OutOfMemory };

    fn from(_: AllocError) -> Self {
        OpenErr::OutOfMemory
    }
}

// A moment of a row, and 0 for one that is past the last moment of a host: it is no host's, and does not count.
fn timely(moment: u64) -> u64
    ensures is { result ≡ timely moment }
    ensures early { result ≤ 2 ^ 62 }
{
    if moment <= LAST_MOMENT { moment } else { 0 }
}

fn timely_in(moment: &Option<u64>) -> u64
    ensures is { result ≡ timely_in moment.now }
    ensures early { result ≤ 2 ^ 62 }
{
    match moment {
        None => 0,
        Some(moment) => timely(*moment),
    }
}

// The greatest moment of a row, or 0.
fn row_moment(row: &Row) -> u64
    ensures is { result ≡ row_moment row.now }
    ensures early { result ≤ 2 ^ 62 }
{
    match row {
        Row::Intent(intent) => timely(intent.issued).max(timely_in(&intent.finish)),
        Row::Cell(cell) => timely_in(&cell.dangled),
        Row::ReadLog(_) | Row::Invoke(_) | Row::Lockset => 0,
    }
}

// The key of the row after a key, and that row's greatest moment.
fn next_mark<T: Table>(
    alloc: Global,
    table: &mut T,
    after: RowKey,
) -> Result<Option<(RowKey, u64)>, OpenErr>
    ensures reads { Reads (λ m k. k ≡ next_mark_of (next_row m after)) (T.state table.old) (T.state table.new) result }
    ensures early { IfOk result (λ k. IfSome k (λ mark. mark.1 ≤ 2 ^ 62)) }
{
    let found = or_drop!(table.next(&after); after);
    drop(after);
    match found {
        None => Ok(None),
        Some((key, row)) => {
            let moment = row_moment(row);
            Ok(Some((key.copy(alloc)?, moment)))
        }
    }
}

// The high-water marks of the rows, of which each is read once.
fn find_high_water<T: Table>(alloc: Global, table: &mut T) -> Result<HighWater, OpenErr>
    ensures { Reads (λ m w. IsHighWater m w.ticket w.moment) (T.state table.old) (T.state table.new) result }
{
    let mut ticket = 0u32;
    let mut moment = 0u64;
    let mut at = RowKey::least();
    for _ in 0..u64::MAX {
        match next_mark(alloc, table, at) {
            Ok(None) => return Ok(HighWater { ticket, moment }),
            Ok(Some((key, later))) => {
                ticket = ticket.max(key.ticket());
                moment = moment.max(later);
                at = key;
            }
            Err(why) => return Err(why),
        }
    }
    drop(at);
    Err(OpenErr::OutOfMemory)
}

/// The greatest ticket that a key names, 0 where there is none.
pub fn find_newest<T: Table>(alloc: Global, table: &mut T) -> Result<u32, TableErr>
    ensures { HaltCame result (T.state table.old) (T.state table.new) }
{
    match find_high_water(alloc, table) {
        Ok(left) => Ok(left.ticket),
        Err(OpenErr::OutOfMemory) => Err(TableErr::OutOfMemory),
        Err(OpenErr::Failed) => Err(TableErr::Failed),
    }
}

/// A key from which the intent collector may go on where it stands at a cursor; none where the table does not tell, or no row
/// would be passed by it. Between it and the open intent that comes next lie rows of that ticket and the one before alone.
pub fn ahead<T: Table>(table: &T, cursor: &RowKey) -> Option<RowKey>
    ensures { IfSome result (λ k. PassesToldOpen (T.state table.now).rows cursor.now k) }
{
    match table.opens(cursor) {
        Opens::Untold => None,
        Opens::None => Some(root_in(u16::MAX, u32::MAX)),
        Opens::First(key) => {
            let before = root_in(key.home(), key.ticket().saturating_sub(1));
            if *cursor < before && before < *key {
                Some(before)
            } else {
                drop(before);
                None
            }
        }
    }
}

// The key of a ticket's root, in a home.
fn root_in(home: u16, ticket: u32) -> RowKey {
    RowKey::new(home, Kind::Intent(IntentId::root(ticket)))
}

/// Makes a table ready for a host: sets its room, and finds what earlier sessions left.
pub fn prepare<T: Table>(alloc: Global, room: u32, table: &mut T) -> Result<HighWater, OpenErr>
    ensures { Prepared room (T.state table.old) (T.state table.new) result }
{
    match table.ready(&[room]) {
        Ok(()) => find_high_water(alloc, table),
        Err(why) => Err(OpenErr::from(why)),
    }
}

// What the line of an item that a transaction owns wants: the keys of the transaction's decision and of its shadow of the item, and
// the item's own value.
#[derive(Drop)]
struct Owned {
    decision: RowKey,
    shadow: RowKey,
    value: Value,
}

// What a line wants that is not written at its first row.
#[derive(Drop)]
enum Wanted {
    // A transaction owns the item.
    Owned(Owned),
    // The item has more rows, and the last one has what is shown.
    LastRow,
}

// The key of a transaction's decision.
fn decision_key(alloc: Global, tx: &TxId) -> Result<RowKey, AllocError>
    ensures { IfOk result (λ k. k ≡ decision_key_of tx.now) }
{
    let place = Place {
        intent: tx.intent.copy(alloc)?,
        step: tx.begin,
    };
    Ok(log_key(tx.func, place))
}

// What the line of an item wants that this transaction owns.
fn owned_by(
    alloc: Global,
    home: u16,
    tx: &TxId,
    table: u16,
    item: &Str,
    value: &Value,
) -> Result<Owned, AllocError>
    ensures { IfOk result (λ o. o ≡ record { decision = decision_key_of tx.now; shadow = shadow_key_of home tx.now table item.now; value = value.now }) }
{
    let decision = decision_key(alloc, tx)?;
    let shadow = or_drop!(shadow_key(alloc, home, tx, table, item, 0); decision);
    let value = or_drop!(value.copy(alloc); decision, shadow);
    Ok(Owned {
        decision,
        shadow,
        value,
    })
}

// Appends the line of the item whose first row has this key, if it has one with this value.
fn write_value(
    alloc: Global,
    code: &Deployment,
    key: &RowKey,
    value: &Value,
    text: &mut TextBuf,
) -> Result<(), AllocError>
    ensures { OnOk result (text.new ≡ text.old ++ key_line code.now key.now.home key.now.kind value.now) }
{
    match key.kind() {
        Kind::Data {
            table,
            key: item,
            row: 0,
        } => match value {
            Value::Null => Ok(()),
            value => write_item(alloc, code, key.home(), *table, item, value, text),
        },
        _ => Ok(()),
    }
}

// Appends the line of an item by what its last row holds; for one that a transaction owns, it gives what the line wants instead.
fn write_held(
    alloc: Global,
    code: &Deployment,
    key: &RowKey,
    owner: &Option<Owner>,
    value: &Value,
    text: &mut TextBuf,
) -> Result<Option<Owned>, AllocError>
    ensures { IfOk result (λ o. (o, text.new) ≡ held_listed code.now text.old key.now.home key.now.kind owner.now value.now) }
{
    match key.kind() {
        Kind::Data {
            table,
            key: item,
            row: 0,
        } => match owner {
            Some(Owner::Tx(tx)) => Ok(Some(owned_by(alloc, key.home(), tx, *table, item, value)?)),
            _ => {
                write_value(alloc, code, key, value, text)?;
                Ok(None)
            }
        },
        _ => Ok(None),
    }
}

// Appends the line of a row, if it has one; for an item that a transaction owns, or that has more rows, it gives what its line
// wants instead.
fn write_row(
    alloc: Global,
    code: &Deployment,
    key: &RowKey,
    row: &Row,
    text: &mut TextBuf,
) -> Result<Option<Wanted>, AllocError>
    ensures { IfOk result (λ o. (o, text.new) ≡ listed_of code.now text.old (key.now, row.now)) }
{
    let Row::Cell(cell) = row else {
        return Ok(None);
    };
    let Kind::Data { row: 0, .. } = key.kind() else {
        return Ok(None);
    };
    match row_after(0, cell.next) {
        Some(_) => Ok(Some(Wanted::LastRow)),
        None => match write_held(alloc, code, key, &cell.owner, &cell.value, text)? {
            Some(owned) => Ok(Some(Wanted::Owned(owned))),
            None => Ok(None),
        },
    }
}

// The key of the row after a key; its line is appended, or what it wants is given.
fn next_listed<T: Table>(
    alloc: Global,
    code: &Deployment,
    table: &mut T,
    after: &RowKey,
    text: &mut TextBuf,
) -> Result<Option<(RowKey, Option<Wanted>)>, OpenErr>
    ensures { Reads (λ m s. (s, text.new) ≡ next_listed_of code.now text.old (next_row m after.now)) (T.state table.old) (T.state table.new) result }
{
    match table.next(after)? {
        None => Ok(None),
        Some((key, row)) => {
            let wanted = write_row(alloc, code, key, row, text)?;
            let key = or_drop!(key.copy(alloc); wanted);
            Ok(Some((key, wanted)))
        }
    }
}

fn says_commit(said: ActReplyRef<'_>) -> bool
    ensures { result ≡ is_commit (told_row (act_reply_of said.entry)) }
{
    match said {
        ActReplyRef::Row(Row::ReadLog(Value::Bool(commit))) => *commit,
        _ => false,
    }
}

// Whether a decision is a commit, by its row.
fn is_committed<T: Table>(table: &mut T, decision: RowKey, now: u64) -> Result<bool, OpenErr>
    ensures { Reads (λ m b. b ≡ is_commit (map.get m decision)) (T.state table.old) (T.state table.new) result }
{
    let said = table.act(decision, Act::Look, now)?;
    Ok(says_commit(said))
}

// The value of the last row of a shadow, or this one where there is none.
fn shadow_value<T: Table>(
    alloc: Global,
    table: &mut T,
    shadow: RowKey,
    value: Value,
    now: u64,
) -> Result<Value, OpenErr>
    ensures { Reads (λ m v. v ≡ value_in (tail (chain m shadow)) value) (T.state table.old) (T.state table.new) result }
{
    let last = last_row(alloc, table, &shadow, now);
    drop(shadow);
    match last {
        Ok(None) => Ok(value),
        Ok(Some(held)) => {
            drop(value);
            Ok(held.value)
        }
        Err(why) => {
            drop(value);
            Err(why)
        }
    }
}

// The value that is shown of an item that a transaction owns: the shadow's where it is committed and has one, else the item's own.
fn owned_value<T: Table>(
    alloc: Global,
    table: &mut T,
    owned: Owned,
    now: u64,
) -> Result<Value, OpenErr>
    ensures { Reads (λ m v. v ≡ shown_value m owned.decision owned.shadow owned.value) (T.state table.old) (T.state table.new) result }
{
    let Owned {
        decision,
        shadow,
        value,
    } = owned;
    match is_committed(table, decision, now) {
        Ok(true) => shadow_value(alloc, table, shadow, value, now),
        Ok(false) => {
            drop(shadow);
            Ok(value)
        }
        Err(why) => {
            drop(shadow);
            drop(value);
            Err(why)
        }
    }
}

// Appends the line of an item that a transaction owns, if there is one.
fn write_owned<T: Table>(
    alloc: Global,
    code: &Deployment,
    table: &mut T,
    key: &RowKey,
    owned: Option<Owned>,
    now: u64,
    text: &mut TextBuf,
) -> Result<(), OpenErr>
    ensures { Reads (λ m u. text.new ≡ owned_after code.now m key.now.home key.now.kind (owned, text.old)) (T.state table.old) (T.state table.new) result }
{
    let Some(owned) = owned else {
        return Ok(());
    };
    match owned_value(alloc, table, owned, now) {
        Ok(value) => {
            let written = write_value(alloc, code, key, &value, text);
            drop(value);
            match written {
                Ok(()) => Ok(()),
                Err(_) => Err(OpenErr::OutOfMemory),
            }
        }
        Err(why) => Err(why),
    }
}

// Appends the line of an item by its last row, if there is one.
fn write_last<T: Table>(
    alloc: Global,
    code: &Deployment,
    table: &mut T,
    key: &RowKey,
    now: u64,
    text: &mut TextBuf,
) -> Result<(), OpenErr>
    ensures { Reads (λ m u. text.new ≡ text.old ++ last_line code.now m key.now.home key.now.kind) (T.state table.old) (T.state table.new) result }
{
    match last_row(alloc, table, key, now) {
        Ok(None) => Ok(()),
        Ok(Some(held)) => {
            let seen = write_held(alloc, code, key, &held.owner, &held.value, text);
            drop(held);
            match seen {
                Ok(owned) => write_owned(alloc, code, table, key, owned, now, text),
                Err(_) => Err(OpenErr::OutOfMemory),
            }
        }
        Err(why) => Err(why),
    }
}

// Appends the line of a row that wants more than the row, if there is one.
fn write_wanted<T: Table>(
    alloc: Global,
    code: &Deployment,
    table: &mut T,
    key: &RowKey,
    wanted: Option<Wanted>,
    now: u64,
    text: &mut TextBuf,
) -> Result<(), OpenErr>
    ensures { Reads (λ m u. text.new ≡ line_after code.now m key.now.home key.now.kind (wanted, text.old)) (T.state table.old) (T.state table.new) result }
{
    match wanted {
        None => Ok(()),
        Some(Wanted::Owned(owned)) => {
            write_owned(alloc, code, table, key, Some(owned), now, text)
        }
        Some(Wanted::LastRow) => write_last(alloc, code, table, key, now, text),
    }
}

// The key of the row after a key; its line is appended.
fn next_line<T: Table>(
    alloc: Global,
    code: &Deployment,
    table: &mut T,
    after: RowKey,
    now: u64,
    text: &mut TextBuf,
) -> Result<Option<RowKey>, OpenErr>
    ensures { Reads (λ m k. (k, text.new) ≡ next_line_of code.now m text.old (next_row m after)) (T.state table.old) (T.state table.new) result }
{
    let seen = next_listed(alloc, code, table, &after, text);
    drop(after);
    match seen {
        Ok(None) => Ok(None),
        Ok(Some((key, wanted))) => match write_wanted(alloc, code, table, &key, wanted, now, text) {
            Ok(()) => Ok(Some(key)),
            Err(why) => {
                drop(key);
                Err(why)
            }
        },
        Err(why) => Err(why),
    }
}

// A kind that comes last among those before the items of a function, or among those past them: among its own. For an item's it is
// one of those before, so it is not gone on from.
fn last_kind(alloc: Global, kind: &Kind) -> Result<Kind, AllocError>
    ensures { IfOk result (λ k. rank_of k ≡ last_rank kind.now) }
{
    match kind {
        Kind::Intent(_) | Kind::ReadLog(_) | Kind::Invoke(_) | Kind::Data { .. } => {
            Ok(Kind::Invoke(Place {
                intent: IntentId::root(u32::MAX),
                step: u32::MAX,
            }))
        }
        Kind::Shadow { .. } | Kind::Lockset { .. } => {
            let key = Str::from_text(alloc, "")?;
            Ok(Kind::Lockset {
                intent: IntentId::root(u32::MAX),
                begin: u32::MAX,
                table: u16::MAX,
                key,
            })
        }
    }
}

// The key from which reading goes on: no row of an item stands between this key and that one.
fn past_others(alloc: Global, key: RowKey) -> Result<RowKey, AllocError>
    ensures { IfOk result (λ k. Past key k) }
{
    if let Kind::Data { .. } = key.kind() {
        return Ok(key);
    }
    let kind = or_drop!(last_kind(alloc, key.kind()); key);
    let last = RowKey::new(key.home(), kind);
    if last < key {
        drop(last);
        Ok(key)
    } else {
        drop(key);
        Ok(last)
    }
}

/// The listing of tables. Rows of other kinds than items' are skipped, kind by kind. Where an item has more rows than one, they are
/// looked at up to the last; where a transaction owns it, so are the row of its decision and those of its shadow, at the moment
/// `now`; a look changes nothing.
pub fn list_tables<T: Table>(
    alloc: Global,
    code: &Deployment,
    table: &mut T,
    now: u64,
) -> Result<TextBuf, OpenErr>
    ensures { Reads (λ m s. s ≡ tables_text code.now m) (T.state table.old) (T.state table.new) result }
{
    let mut text = TextBuf::new(alloc);
    let mut at = or_drop!(past_others(alloc, RowKey::least()); text);
    for _ in 0..u64::MAX {
        match next_line(alloc, code, table, at, now, &mut text) {
            Ok(None) => return Ok(text),
            Ok(Some(key)) => at = or_drop!(past_others(alloc, key); text),
            Err(why) => {
                drop(text);
                return Err(why);
            }
        }
    }
    drop(at);
    drop(text);
    Err(OpenErr::OutOfMemory)
}

/// The reply of a root, by its row: never `Unknown`.
pub fn read_reply<T: Table>(
    alloc: Global,
    table: &mut T,
    ticket: u32,
    now: u64,
) -> Result<ReplyStatus, OpenErr>
    ensures reads { Reads (λ m x. x ≡ row_status (map.get m (root_key_of ticket))) (T.state table.old) (T.state table.new) result }
    ensures known { IfOk result (λ x. x ≢ Unknown) }
    ensures calls { AtMostOne (T.state table.old).calls (T.state table.new).calls }
{
    let said = table.act(root_key(ticket), Act::Look, now)?;
    match says_reply(alloc, said) {
        Ok(reply) => Ok(reply),
        Err(_) => Err(OpenErr::OutOfMemory),
    }
}

fn says_reply(alloc: Global, said: ActReplyRef<'_>) -> Result<ReplyStatus, AllocError>
    ensures reply { IfOk result (λ x. x ≡ row_status (told_row (act_reply_of said.entry))) }
    ensures known { IfOk result (λ x. x ≢ Unknown) }
{
    match said {
        ActReplyRef::Row(Row::Intent(intent)) => match &intent.outcome {
            None => Ok(ReplyStatus::Waiting),
            Some(outcome) => Ok(ReplyStatus::Reply(outcome.copy(alloc)?)),
        },
        ActReplyRef::Row(_) => Ok(ReplyStatus::Waiting),
        _ => Ok(ReplyStatus::Gone),
    }
}
