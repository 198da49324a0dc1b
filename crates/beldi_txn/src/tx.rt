// What an operation of a transaction asks of the rows, and what follows from what is told.
ghost use Rattle.std.specs.Prelude.{◌≡◌, None, true, IfOk, OnErr};
ghost use Rattle.beldi_value.specs.declared.place.Owner.TheVariants as Owner;
ghost use Rattle.beldi_row.specs.declared.act.Act.TheVariants as Act;
ghost use Rattle.beldi_query.specs.declared.query.Query.TheVariants as Query;
ghost use Rattle.beldi_query.specs.Query.{query_reply_of, lends};
ghost use Rattle.beldi_row.specs.Key.{at_row};
ghost use Rattle.beldi_row.specs.Log.{blank};
ghost use Rattle.beldi_daal.specs.Cell.{write_asks, cell_key as cell_key_of, shadow_key as shadow_key_of};
ghost use Rattle.beldi_lock.specs.Lock.{lock_goes};
ghost use Rattle.beldi_lock.specs.Lockset.{item_lent};
ghost use Rattle.beldi_txn.specs.Tx.{tx_first, item_of as item_of_effect, op_of, done_of, tx_asks, item_asks, given_goes, locked_goes, lock_leads, shadow_read, seek_goes, item_leads, item_goes, keep_goes, head_made, note_goes, write_leads, died_goes, tx_goes};
ghost use Rattle.beldi_txn.specs.declared.tx.TxAt.TheVariants as TxAt;
ghost use Rattle.beldi_txn.specs.TxWalk.{gone, put_output, output_of};

use beldi_daal::{
    CellOp, ReadGoes, WriteAt, WriteGoes, cell_key, read_told, shadow_key, write_query, write_told,
};
use beldi_lang::Effect;
use beldi_lock::{LockAt, LockGoes, lock_query, lock_told};
use beldi_query::{Query, QueryReplyRef};
use beldi_readlog::{given_told, log_key};
use beldi_row::{Act, ActReplyRef, Blank, Note, RowKey, copy_tx};
use beldi_value::{Boxed, Cause, IdBuf, Owner, Place, Str, TxId, Value, or_drop};
use std::alloc::{AllocError, Global};
use std::mem::replace;

/// Where an operation of a transaction stands.
#[derive(Drop)]
pub enum TxAt {
    /// A read asks whether a value was kept for it.
    Log,
    /// The lock of the item stands here.
    Lock(LockAt),
    /// A condition looks next whether the transaction has its own copy of the item.
    Seek,
    /// A read looks at this row of the transaction's own copy of the item next.
    Shadow(u32),
    /// This row of the item itself is looked at next, as the transaction has no copy of it.
    Item(u32),
    /// A read keeps this value next.
    Keep(Value),
    /// The copy is made next, with this value.
    Head(Value),
    /// The write of the copy stands here.
    Write(WriteAt),
}

/// Where an operation of a transaction goes.
#[derive(Drop)]
pub enum TxGoes {
    /// It goes on from here.
    On(TxAt),
    /// It stays where it is.
    Stays,
    /// The value that was to be kept was kept, and is the answer.
    Put,
    /// The operation died at its item: the transaction is to be aborted.
    Died(Cause),
    /// This owner has the item, and the transaction waits for it.
    Held(Owner),
    /// No row can follow the last one of the item or of the transaction's copy, which is full.
    Worn,
    /// The operation has this answer.
    Value(Value),
    /// The operation was done.
    Done,
}

/// What a turn of an operation of a transaction says.
#[derive(Drop)]
pub enum TxOutput {
    /// The operation goes on.
    Going,
    /// The place died of the owner with the age in the cause, in this turn or before: the transaction is to be aborted.
    Died(Cause),
    /// This owner, another than the transaction, has the item, and the transaction waits for it.
    Held(Owner),
    /// No row can follow the last one of the item or of the transaction's copy, which is full.
    Worn,
    /// What a read found, or whether a conditional write wrote.
    Value(Value),
    /// The write was done.
    Done,
}

impl TxAt {
    /// Where an operation begins, in the transaction begun at this step: a read, with what was kept for it; another, with the row
    /// that says that the lock is asked for.
    pub fn first(begin: u32, effect: &Effect) -> TxAt
        ensures { result ≡ tx_first begin effect.now }
    {
        match effect {
            Effect::Read { .. } => TxAt::Log,
            _ => TxAt::Lock(LockAt::Lockset(begin)),
        }
    }

    /// Goes on so; it says what the turn did. What kept a value tells it, and looks for it next; unless it says `Going`, any other
    /// stands where it stood.
    pub fn go(&mut self, goes: TxGoes) -> TxOutput
        ensures now { self.new ≡ gone self.old goes }
        ensures output { result ≡ output_of self.old goes }
    {
        match goes {
            TxGoes::On(at) => {
                drop(replace(self, at));
                TxOutput::Going
            }
            TxGoes::Put => put(replace(self, TxAt::Log)),
            TxGoes::Stays => TxOutput::Going,
            TxGoes::Died(cause) => TxOutput::Died(cause),
            TxGoes::Held(owner) => TxOutput::Held(owner),
            TxGoes::Worn => TxOutput::Worn,
            TxGoes::Value(value) => TxOutput::Value(value),
            TxGoes::Done => TxOutput::Done,
        }
    }
}

// The value that was kept, as the answer.
fn put(at: TxAt) -> TxOutput
    ensures { result ≡ put_output at }
{
    match at {
        TxAt::Keep(value) => TxOutput::Value(value),
        _ => TxOutput::Going,
    }
}

// The item of an operation.
fn item_of(effect: &Effect) -> Option<(u16, &Str)>
    ensures { item_lent result ≡ item_of_effect effect.now }
{
    match effect {
        Effect::Read { table, key }
        | Effect::Write { table, key, .. }
        | Effect::CondWrite { table, key, .. } => Some((*table, key)),
        _ => None,
    }
}

// What an effect does to the transaction's own copy of its item.
fn operation(alloc: Global, effect: &Effect) -> Result<Option<CellOp>, AllocError>
    ensures { IfOk result (λ o. o ≡ op_of effect.now) }
{
    match effect {
        Effect::Write { value, .. } => Ok(Some(CellOp::Write(value.copy(alloc)?))),
        Effect::CondWrite {
            rel,
            operand,
            value,
            ..
        } => {
            let operand = operand.copy(alloc)?;
            let value = or_drop!(value.copy(alloc); operand);
            Ok(Some(CellOp::Cond {
                rel: *rel,
                operand,
                value,
            }))
        }
        _ => Ok(None),
    }
}

// The note that it leaves where its act says that it was done.
fn done_note(effect: &Effect) -> Note
    ensures { result ≡ done_of effect.now }
{
    match effect {
        Effect::CondWrite { .. } => Note::Cond(true),
        _ => Note::Wrote,
    }
}

/// What an operation of a transaction asks for, in the home of the function that has the item: `effect` is a read, a write or a
/// conditional write. For any other it looks for what the place was given.
pub fn tx_query(
    alloc: Global,
    home: u16,
    place: Place,
    tx: &TxId,
    effect: &Effect,
    at: &TxAt,
) -> Result<Boxed<Query>, AllocError>
    ensures { IfOk result (λ q. q ≡ tx_asks home place tx.now effect.now at.now) }
{
    match item_of(effect) {
        Some((table, key)) => item_query(alloc, home, place, tx, effect, at, table, key),
        None => Query::look(alloc, log_key(home, place)),
    }
}

fn item_query(
    alloc: Global,
    home: u16,
    place: Place,
    tx: &TxId,
    effect: &Effect,
    at: &TxAt,
    table: u16,
    key: &Str,
) -> Result<Boxed<Query>, AllocError>
    ensures { IfOk result (λ q. q ≡ item_asks home place tx.now effect.now table key.now at.now) }
{
    match at {
        TxAt::Log => Query::look(alloc, log_key(home, place)),
        TxAt::Lock(at) => {
            let who = Owner::Tx(or_drop!(copy_tx(tx, alloc); place));
            lock_query(alloc, home, table, key, place, who, at)
        }
        TxAt::Seek => {
            drop(place);
            look_aside(alloc, home, tx, table, key, 0)
        }
        TxAt::Shadow(row) => {
            drop(place);
            look_aside(alloc, home, tx, table, key, *row)
        }
        TxAt::Item(row) => {
            drop(place);
            look_at(alloc, home, table, key, *row)
        }
        TxAt::Keep(value) => {
            let value = or_drop!(value.copy(alloc); place);
            Query::act(alloc, log_key(home, place), Act::PutRead { value })
        }
        TxAt::Head(value) => {
            drop(place);
            head_query(alloc, home, tx, table, key, value)
        }
        TxAt::Write(at) => aside_query(alloc, home, place, tx, effect, table, key, at),
    }
}

// Asks for this row of the transaction's own copy.
fn look_aside(
    alloc: Global,
    home: u16,
    tx: &TxId,
    table: u16,
    key: &Str,
    row: u32,
) -> Result<Boxed<Query>, AllocError>
    ensures { IfOk result (λ q. q ≡ Query.Act (at_row (shadow_key_of home tx.now table key.now) row) Act.Look) }
{
    Query::look(alloc, shadow_key(alloc, home, tx, table, key, row)?)
}

// Asks for this row of the item.
fn look_at(
    alloc: Global,
    home: u16,
    table: u16,
    key: &Str,
    row: u32,
) -> Result<Boxed<Query>, AllocError>
    ensures { IfOk result (λ q. q ≡ Query.Act (at_row (cell_key_of home table key.now) row) Act.Look) }
{
    Query::look(alloc, cell_key(alloc, home, table, key, row)?)
}

// Asks that the transaction's own copy be made, with this value.
fn head_query(
    alloc: Global,
    home: u16,
    tx: &TxId,
    table: u16,
    key: &Str,
    value: &Value,
) -> Result<Boxed<Query>, AllocError>
    ensures { IfOk result (λ q. q ≡ Query.Act (shadow_key_of home tx.now table key.now) (Act.MakeCell value.now None blank)) }
{
    let row = shadow_key(alloc, home, tx, table, key, 0)?;
    let value = or_drop!(value.copy(alloc); row);
    let blank = or_drop!(Blank::new(alloc); row, value);
    let act = Act::MakeCell {
        value,
        owner: None,
        blank,
    };
    Query::act(alloc, row, act)
}

// What a write asks of the transaction's own copy.
fn aside_query(
    alloc: Global,
    home: u16,
    place: Place,
    tx: &TxId,
    effect: &Effect,
    table: u16,
    key: &Str,
    at: &WriteAt,
) -> Result<Boxed<Query>, AllocError>
    ensures { IfOk result (λ q. q ≡ item_asks home place tx.now effect.now table key.now (TxAt.Write at.now)) }
{
    let row = or_drop!(shadow_key(alloc, home, tx, table, key, 0); place);
    match or_drop!(operation(alloc, effect); place, row) {
        Some(op) => own_query(alloc, row, place, tx, op, at),
        None => {
            drop(row);
            Query::look(alloc, log_key(home, place))
        }
    }
}

// What the transaction asks, by the key of the first row, for an operation at this place.
#[inline(always)]
pub(crate) fn own_query(
    alloc: Global,
    row: RowKey,
    place: Place,
    tx: &TxId,
    op: CellOp,
    at: &WriteAt,
) -> Result<Boxed<Query>, AllocError>
    ensures { IfOk result (λ q. q ≡ write_asks row place (Owner.Tx tx.now) op at.now) }
{
    let who = Owner::Tx(or_drop!(copy_tx(tx, alloc); row, place, op));
    write_query(alloc, row, place, who, op, at)
}

/// Where an operation of a transaction, begun at the step `begin`, goes after it was told. Out of memory only for what was lent.
pub fn tx_told(
    alloc: Global,
    place: &Place,
    begin: u32,
    effect: &Effect,
    at: &TxAt,
    heard: QueryReplyRef<'_>,
) -> Result<TxGoes, AllocError>
    ensures ok { IfOk result (λ g. g ≡ tx_goes place.now begin effect.now at.now (query_reply_of heard.entry)) }
    ensures err { OnErr result (lends (query_reply_of heard.entry) ≡ true) }
{
    match at {
        TxAt::Log => Ok(given(begin, given_told(alloc, heard)?)),
        TxAt::Lock(at) => hear_lock(alloc, place, effect, at, heard),
        TxAt::Seek => Ok(seek_said(heard)),
        TxAt::Shadow(_) => Ok(shadow_said(read_told(alloc, &None, heard)?)),
        TxAt::Item(_) => Ok(item_said(effect, read_told(alloc, &None, heard)?)),
        TxAt::Keep(_) => hear_keep(alloc, heard),
        TxAt::Head(_) => Ok(hear_head(heard)),
        TxAt::Write(at) => Ok(written(effect, write_told(alloc, done_note(effect), at, heard)?)),
    }
}

// The value that was kept is the answer; without one the lock is asked for.
fn given(begin: u32, value: Option<Value>) -> TxGoes
    ensures { result ≡ given_goes begin value }
{
    match value {
        Some(value) => TxGoes::Value(value),
        None => TxGoes::On(TxAt::Lock(LockAt::Lockset(begin))),
    }
}

fn hear_lock(
    alloc: Global,
    place: &Place,
    effect: &Effect,
    at: &LockAt,
    heard: QueryReplyRef<'_>,
) -> Result<TxGoes, AllocError>
    ensures ok { IfOk result (λ g. g ≡ lock_leads place.now effect.now (lock_goes at.now (query_reply_of heard.entry))) }
    ensures err { OnErr result (lends (query_reply_of heard.entry) ≡ true) }
{
    match lock_told(alloc, at, heard)? {
        LockGoes::On(at) => Ok(TxGoes::On(TxAt::Lock(at))),
        LockGoes::Stays => Ok(TxGoes::Stays),
        LockGoes::Got { first: _ } => Ok(locked(effect)),
        LockGoes::Died(holder) => died(alloc, place, holder),
        LockGoes::Held(owner) => Ok(TxGoes::Held(owner)),
        LockGoes::Worn => Ok(TxGoes::Worn),
    }
}

// What comes once the place has the lock.
fn locked(effect: &Effect) -> TxGoes
    ensures { result ≡ locked_goes effect.now }
{
    match effect {
        Effect::Read { .. } => TxGoes::On(TxAt::Shadow(0)),
        Effect::Write { .. } => TxGoes::On(TxAt::Write(WriteAt::Try(0))),
        Effect::CondWrite { .. } => TxGoes::On(TxAt::Seek),
        _ => TxGoes::Stays,
    }
}

fn died(alloc: Global, place: &Place, holder: IdBuf) -> Result<TxGoes, AllocError>
    ensures { IfOk result (λ g. g ≡ died_goes place.now holder) }
{
    let id = or_drop!(holder.to_id(alloc); holder);
    drop(holder);
    let holder = Boxed::new(alloc, id)?;
    let place = or_drop!(place.copy(alloc); holder);
    let place = or_drop!(Boxed::new(alloc, place); holder);
    Ok(TxGoes::Died(Cause {
        place,
        holder: Some(holder),
    }))
}

// A read takes the value of the copy; without one, the item's.
fn shadow_said(said: ReadGoes) -> TxGoes
    ensures { result ≡ shadow_read said }
{
    match said {
        ReadGoes::On(row) => TxGoes::On(TxAt::Shadow(row)),
        ReadGoes::Got(Some(value)) => TxGoes::On(TxAt::Keep(value)),
        ReadGoes::Got(None) => TxGoes::On(TxAt::Item(0)),
        ReadGoes::Stays | ReadGoes::Held(_) => TxGoes::Stays,
    }
}

// A condition is tested on the copy, if there is one.
fn seek_said(heard: QueryReplyRef<'_>) -> TxGoes
    ensures { result ≡ seek_goes (query_reply_of heard.entry) }
{
    match heard {
        QueryReplyRef::Act(ActReplyRef::Absent) => TxGoes::On(TxAt::Item(0)),
        QueryReplyRef::Act(ActReplyRef::Row(_)) => TxGoes::On(TxAt::Write(WriteAt::Try(0))),
        _ => TxGoes::Stays,
    }
}

// The item's value is kept, or the copy made with it: null where the item has no row.
fn item_said(effect: &Effect, said: ReadGoes) -> TxGoes
    ensures { result ≡ item_goes effect.now said }
{
    match said {
        ReadGoes::On(row) => TxGoes::On(TxAt::Item(row)),
        ReadGoes::Got(Some(value)) => item_found(effect, value),
        ReadGoes::Got(None) => item_found(effect, Value::Null),
        ReadGoes::Stays | ReadGoes::Held(_) => TxGoes::Stays,
    }
}

fn item_found(effect: &Effect, value: Value) -> TxGoes
    ensures { result ≡ item_leads effect.now value }
{
    match effect {
        Effect::Read { .. } => TxGoes::On(TxAt::Keep(value)),
        Effect::CondWrite { .. } => TxGoes::On(TxAt::Head(value)),
        _ => TxGoes::Stays,
    }
}

// A value that is there is the answer in place of this one. A row of another kind, which no session writes there, reads as null.
fn hear_keep(alloc: Global, heard: QueryReplyRef<'_>) -> Result<TxGoes, AllocError>
    ensures ok { IfOk result (λ g. g ≡ keep_goes (query_reply_of heard.entry)) }
    ensures err { OnErr result (lends (query_reply_of heard.entry) ≡ true) }
{
    match heard {
        QueryReplyRef::Act(ActReplyRef::Added) => Ok(TxGoes::Put),
        QueryReplyRef::Act(ActReplyRef::Kept(value)) => Ok(TxGoes::Value(value.copy(alloc)?)),
        _ => Ok(TxGoes::Value(Value::Null)),
    }
}

// Once the copy is there, it is written.
fn hear_head(heard: QueryReplyRef<'_>) -> TxGoes
    ensures { result ≡ head_made (query_reply_of heard.entry) }
{
    match heard {
        QueryReplyRef::Act(ActReplyRef::Added) | QueryReplyRef::Act(ActReplyRef::Present) => {
            TxGoes::On(TxAt::Write(WriteAt::Try(0)))
        }
        _ => TxGoes::Stays,
    }
}

// Nobody owns a copy.
fn written(effect: &Effect, goes: WriteGoes) -> TxGoes
    ensures { result ≡ write_leads effect.now goes }
{
    match goes {
        WriteGoes::On(at) => TxGoes::On(TxAt::Write(at)),
        WriteGoes::Done { note, first: _ } => noted(effect, note),
        WriteGoes::Stays | WriteGoes::NotOwner | WriteGoes::Held(_) => TxGoes::Stays,
        WriteGoes::Worn => TxGoes::Worn,
    }
}

// The note of the place, read as the answer. The operation stays at a note of another kind, which no session leaves there.
fn noted(effect: &Effect, note: Note) -> TxGoes
    ensures { result ≡ note_goes effect.now note }
{
    match (effect, note) {
        (Effect::Write { .. }, Note::Wrote) => TxGoes::Done,
        (Effect::CondWrite { .. }, Note::Cond(passed)) => TxGoes::Value(Value::Bool(passed)),
        _ => TxGoes::Stays,
    }
}
