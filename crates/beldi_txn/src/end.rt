// What the end of a transaction asks of the rows, and what follows from what is told.
ghost use Rattle.std.specs.Prelude.{◌≡◌, ℕ, Some, None, true, IfOk, OnErr};
ghost use Rattle.beldi_value.specs.declared.value.Value.TheVariants as value;
ghost use Rattle.beldi_daal.specs.declared.cell.WriteAt.TheVariants as WriteAt;
ghost use Rattle.beldi_query.specs.Query.{query_reply_of, lends};
ghost use Rattle.beldi_lock.specs.Last.{split_last};
ghost use Rattle.beldi_lock.specs.Lockset.{item_lent};
ghost use Rattle.beldi_readlog.specs.ReadLog.{keep_asks};
ghost use Rattle.beldi_txn.specs.CallPath.{is_owner};
ghost use Rattle.beldi_txn.specs.declared.end.EndAt.TheVariants as EndAt;
ghost use Rattle.beldi_txn.specs.End.{begin_place, first_visit, visited_by, calls_after, counts as counts_by, free_place as freed_at, visit_asks, shadow_asks, free_asks, decided_by, decide_goes, calls_goes, last_goes, value_goes, freed_goes, end_goes, free_first, at_calls, back_from, end_after, output_of};

use crate::call_path::{CallPath, Called};
use crate::invokes::{invokes_query, invokes_told};
use crate::tx::own_query;
use beldi_daal::{
    CellOp, ReadGoes, WriteAt, WriteGoes, cell_key, read_told, shadow_key, write_told,
};
use beldi_intent::stamp_query;
use beldi_lock::{lockset_query, lockset_told};
use beldi_query::{Query, QueryReplyRef};
use beldi_readlog::log_key;
use beldi_row::{Act, ActReplyRef, Note};
use beldi_value::{Boxed, IntentId, Place, Str, TxId, Value, or_drop};
use std::alloc::{AllocError, Global};
use std::mem::replace;

/// Where the end of a transaction stands.
#[derive(Drop)]
pub enum EndAt {
    /// The decision is put next.
    Decide,
    /// The next call of who is visited is looked for.
    Callees,
    /// The next item is looked for, of those that who is visited asked the locks of.
    Next,
    /// This row of the transaction's own copy of the item is looked at next.
    Shadow(u32),
    /// The item is given back; its walk stands here.
    Free(WriteAt),
    /// The participant gets its finish next.
    Stamp,
}

/// The end of a transaction, on its way from callee to callee, and from item to item.
#[derive(Drop)]
pub struct EndState {
    /// The calls that lead to who is visited.
    pub path: CallPath,
    /// The step of the last of its calls whose callee was visited; None before the first.
    pub after: Option<u32>,
    /// The item that is to be given back, or the last one that was: its table and key. None before the first.
    pub item: Option<(u16, Str)>,
    /// The value that it is given back with; None where it keeps the one that it has.
    pub value: Option<Value>,
    pub at: EndAt,
}

/// Where the end of a transaction goes.
#[derive(Drop)]
pub enum EndGoes {
    /// It goes on from here, with the same item.
    On(EndAt),
    /// It stays where it stands.
    Stays,
    /// No row can follow the last one of the item, which is full: it stays where it stands.
    Worn,
    /// The decision is there; `first` says that this act put it.
    Decided { first: bool },
    /// The callee of the call at this step has no id, so it is passed over.
    Passed(u32),
    /// The callee that these calls lead to comes next.
    Callee(CallPath),
    /// The item with this table and key comes next.
    Item(u16, Str),
    /// The item is given back next, with this value.
    Value(Option<Value>),
    /// The participant was visited, and its caller goes on.
    Back,
    /// The owner was visited.
    Done,
}

/// What a turn of the end of a transaction says.
#[derive(Drop)]
pub enum EndOutput {
    /// The end goes on.
    Going,
    /// The decision is there; `first` says that this turn put it.
    Decided { first: bool },
    /// No row can follow the last one of an item, which is full.
    Worn,
    /// The owner was visited, and all who took part.
    Done,
}

impl EndState {
    /// An end that has not yet decided.
    pub fn first(alloc: Global) -> EndState
        ensures { result ≡ first_visit }
    {
        EndState {
            path: CallPath::new(alloc),
            after: None,
            item: None,
            value: None,
            at: EndAt::Decide,
        }
    }

    /// Goes on so, where the transaction is committed, or else aborted; it says what the turn did.
    pub fn go(&mut self, commit: bool, goes: EndGoes) -> EndOutput
        ensures now { self.new ≡ end_after commit self.old goes }
        ensures output { result ≡ output_of goes }
    {
        match goes {
            EndGoes::On(at) => {
                self.stand(at);
                EndOutput::Going
            }
            EndGoes::Stays => EndOutput::Going,
            EndGoes::Worn => EndOutput::Worn,
            EndGoes::Decided { first } => {
                self.stand(EndAt::Callees);
                EndOutput::Decided { first }
            }
            EndGoes::Passed(step) => {
                self.after = Some(step);
                EndOutput::Going
            }
            EndGoes::Callee(path) => {
                self.to_callee(path);
                EndOutput::Going
            }
            EndGoes::Item(table, key) => {
                self.to_item(table, key, at_first(commit));
                EndOutput::Going
            }
            EndGoes::Value(value) => {
                self.to_free(value);
                EndOutput::Going
            }
            EndGoes::Back => {
                self.back();
                EndOutput::Going
            }
            EndGoes::Done => EndOutput::Done,
        }
    }

    // It stands here from now on.
    fn stand(&mut self, at: EndAt)
        ensures { self.new ≡ record self.old { at = at } }
    {
        drop(replace(&mut self.at, at));
    }

    // To the callee that these calls lead to.
    fn to_callee(&mut self, path: CallPath)
        ensures { self.new ≡ at_calls path None }
    {
        self.path = path;
        self.to_calls(None);
    }

    // To an item, which is given back from there.
    fn to_item(&mut self, table: u16, key: Str, at: EndAt)
        ensures { self.new ≡ record self.old { item = Some (table, key); value = None; at = at } }
    {
        self.item = Some((table, key));
        self.value = None;
        self.stand(at);
    }

    // To the giving back of the item with this value.
    fn to_free(&mut self, value: Option<Value>)
        ensures { self.new ≡ record self.old { value = value; at = EndAt.Free (WriteAt.Try 0) } }
    {
        self.value = value;
        self.stand(EndAt::Free(WriteAt::Try(0)));
    }

    // To the calls of who is visited, after a step.
    fn to_calls(&mut self, after: Option<u32>)
        ensures { self.new ≡ at_calls self.old.path after }
    {
        self.after = after;
        self.item = None;
        self.value = None;
        self.stand(EndAt::Callees);
    }

    // From a participant to its caller.
    fn back(&mut self)
        ensures { self.new ≡ back_from self.old (split_last self.old.path) }
    {
        match self.path.pop() {
            Some(call) => self.to_calls(Some(call.step)),
            None => (),
        }
    }
}

// A commit gives an item back with the value of the transaction's own copy.
fn at_first(commit: bool) -> EndAt
    ensures { result ≡ free_first commit }
{
    if commit {
        EndAt::Shadow(0)
    } else {
        EndAt::Free(WriteAt::Try(0))
    }
}

fn lent(item: &Option<(u16, Str)>) -> Option<(u16, &Str)>
    ensures { item_lent result ≡ item.now }
{
    match item {
        Some((table, key)) => Some((*table, key)),
        None => None,
    }
}

// After which of its calls the next one of who is visited is looked for: of the owner's, those after its begin.
fn after_call(tx: &TxId, path: &CallPath, after: Option<u32>) -> Option<u32>
    ensures { result ≡ calls_after tx.now path.now after }
{
    if path.is_owner() && after.is_none() {
        Some(tx.begin)
    } else {
        after
    }
}

/// What the end of a transaction at the step `end` asks for: `commit` is its decision.
pub fn end_query(
    alloc: Global,
    tx: &TxId,
    end: u32,
    commit: bool,
    visit: &EndState,
) -> Result<Boxed<Query>, AllocError>
    ensures { IfOk result (λ q. q ≡ visit_asks tx.now end commit visit.now.path visit.now.after visit.now.item visit.now.value visit.now.at) }
{
    let path = &visit.path;
    match &visit.at {
        EndAt::Decide => decide_query(alloc, tx, commit),
        EndAt::Callees => calls_query(alloc, tx, path, visit.after),
        EndAt::Next => locks_query(alloc, tx, path, lent(&visit.item)),
        EndAt::Shadow(row) => look_query(alloc, tx, path, *row, lent(&visit.item)),
        EndAt::Free(at) => free_query(alloc, tx, end, path, lent(&visit.item), &visit.value, at),
        EndAt::Stamp => finish_query(alloc, tx, path),
    }
}

/// What the end of a transaction asks for first: that its decision is kept.
pub fn decide_query(alloc: Global, tx: &TxId, commit: bool) -> Result<Boxed<Query>, AllocError>
    ensures { IfOk result (λ q. q ≡ keep_asks tx.now.func (begin_place tx.now) (value.Bool commit)) }
{
    let place = Place {
        intent: tx.intent.copy(alloc)?,
        step: tx.begin,
    };
    let value = Value::Bool(commit);
    Query::act(alloc, log_key(tx.func, place), Act::PutRead { value })
}

fn calls_query(
    alloc: Global,
    tx: &TxId,
    path: &CallPath,
    after: Option<u32>,
) -> Result<Boxed<Query>, AllocError>
    ensures { IfOk result (λ q. q ≡ visit_asks tx.now 0 true path.now after None None EndAt.Callees) }
{
    let (id, func) = path.member(alloc, tx)?;
    invokes_query(alloc, func, id, after_call(tx, path, after))
}

fn locks_query(
    alloc: Global,
    tx: &TxId,
    path: &CallPath,
    item: Option<(u16, &Str)>,
) -> Result<Boxed<Query>, AllocError>
    ensures { IfOk result (λ q. q ≡ visit_asks tx.now 0 true path.now None (item_lent item.entry) None EndAt.Next) }
{
    let (id, func) = path.member(alloc, tx)?;
    lockset_query(alloc, func, &id, tx.begin, item)
}

fn look_query(
    alloc: Global,
    tx: &TxId,
    path: &CallPath,
    row: u32,
    item: Option<(u16, &Str)>,
) -> Result<Boxed<Query>, AllocError>
    ensures { IfOk result (λ q. q ≡ shadow_asks tx.now (visited_by tx.now path.now) row (item_lent item.entry)) }
{
    match item {
        Some((table, key)) => {
            Query::look(
                alloc,
                shadow_key(alloc, path.func(tx), tx, table, key, row)?,
            )
        }
        None => locks_query(alloc, tx, path, None),
    }
}

fn free_query(
    alloc: Global,
    tx: &TxId,
    end: u32,
    path: &CallPath,
    item: Option<(u16, &Str)>,
    value: &Option<Value>,
    at: &WriteAt,
) -> Result<Boxed<Query>, AllocError>
    ensures { IfOk result (λ q. q ≡ free_asks tx.now (visited_by tx.now path.now) (freed_at tx.now end path.now) value.now at.now (item_lent item.entry)) }
{
    match item {
        Some((table, key)) => {
            let row = cell_key(alloc, path.func(tx), table, key, 0)?;
            let place = or_drop!(free_place(alloc, tx, end, path); row);
            let op = CellOp::Free(or_drop!(copy_of(alloc, value); row, place));
            own_query(alloc, row, place, tx, op, at)
        }
        None => locks_query(alloc, tx, path, None),
    }
}

/// The place at which who is visited gives items back, where the transaction ends at the step `end`.
pub fn free_place(alloc: Global, tx: &TxId, end: u32, path: &CallPath) -> Result<Place, AllocError>
    ensures { IfOk result (λ p. p ≡ freed_at tx.now end path.now) }
{
    let (intent, _) = path.member(alloc, tx)?;
    let step = if path.is_owner() { end } else { u32::MAX };
    Ok(Place { intent, step })
}

fn finish_query(alloc: Global, tx: &TxId, path: &CallPath) -> Result<Boxed<Query>, AllocError>
    ensures { IfOk result (λ q. q ≡ visit_asks tx.now 0 true path.now None None None EndAt.Stamp) }
{
    let (id, func) = path.member(alloc, tx)?;
    stamp_query(alloc, id, func)
}

fn copy_of(alloc: Global, value: &Option<Value>) -> Result<Option<Value>, AllocError>
    ensures { IfOk result (λ v. v ≡ value.now) }
{
    match value {
        Some(value) => Ok(Some(value.copy(alloc)?)),
        None => Ok(None),
    }
}

/// Where the end of a transaction goes after it was told. Out of memory only for what was lent.
pub fn end_told(
    alloc: Global,
    tx: &TxId,
    end: u32,
    commit: bool,
    visit: &EndState,
    heard: QueryReplyRef<'_>,
) -> Result<EndGoes, AllocError>
    ensures ok { IfOk result (λ g. g ≡ end_goes tx.now end commit visit.now.path visit.now.at (query_reply_of heard.entry)) }
    ensures err { OnErr result (lends (query_reply_of heard.entry) ≡ true) }
{
    match &visit.at {
        EndAt::Decide => Ok(decide_told(commit, heard)),
        EndAt::Callees => hear_call(alloc, tx, end, &visit.path, heard),
        EndAt::Next => hear_next(alloc, tx, &visit.path, heard),
        EndAt::Shadow(_) => Ok(hear_value(read_told(alloc, &None, heard)?)),
        EndAt::Free(at) => Ok(hear_free(write_told(alloc, Note::Freed, at, heard)?)),
        EndAt::Stamp => Ok(EndGoes::Back),
    }
}

// A row is lent, whatever it is, so there may be no memory for who is visited.
fn hear_call(
    alloc: Global,
    tx: &TxId,
    end: u32,
    path: &CallPath,
    heard: QueryReplyRef<'_>,
) -> Result<EndGoes, AllocError>
    ensures ok { IfOk result (λ g. g ≡ end_goes tx.now end true path.now EndAt.Callees (query_reply_of heard.entry)) }
    ensures err { OnErr result (lends (query_reply_of heard.entry) ≡ true) }
{
    match heard {
        QueryReplyRef::Found(found) => {
            let (id, func) = path.member(alloc, tx)?;
            match invokes_told(func, &id, QueryReplyRef::Found(found)) {
                Some(call) => next_call(alloc, end, path, &id, call),
                None => Ok(EndGoes::On(EndAt::Next)),
            }
        }
        _ => Ok(EndGoes::On(EndAt::Next)),
    }
}

// The callee is visited, where it counts and has an id.
fn next_call(
    alloc: Global,
    end: u32,
    path: &CallPath,
    id: &IntentId,
    call: Called,
) -> Result<EndGoes, AllocError>
    ensures { (func : ℕ) → IfOk result (λ g. g ≡ calls_goes end (id.now, func) path.now (Some call)) }
{
    if !counts(end, path, call) {
        return Ok(EndGoes::On(EndAt::Next));
    }
    if id.has_callees() {
        Ok(EndGoes::Callee(path.with(alloc, call)?))
    } else {
        Ok(EndGoes::Passed(call.step))
    }
}

fn counts(end: u32, path: &CallPath, call: Called) -> bool
    ensures { result ≡ counts_by end path.now call }
{
    !path.is_owner() || call.step < end
}

fn hear_next(
    alloc: Global,
    tx: &TxId,
    path: &CallPath,
    heard: QueryReplyRef<'_>,
) -> Result<EndGoes, AllocError>
    ensures ok { IfOk result (λ g. g ≡ end_goes tx.now 0 true path.now EndAt.Next (query_reply_of heard.entry)) }
    ensures err { OnErr result (lends (query_reply_of heard.entry) ≡ true) }
{
    match heard {
        QueryReplyRef::Found(found) => {
            let (id, func) = path.member(alloc, tx)?;
            let item =
                or_drop!(lockset_told(alloc, func, &id, tx.begin, QueryReplyRef::Found(found)); id);
            drop(id);
            match item {
                Some((table, key)) => Ok(EndGoes::Item(table, key)),
                None => Ok(past_locks(path)),
            }
        }
        _ => Ok(past_locks(path)),
    }
}

// After the last lock the owner is done, and a participant gets its finish.
fn past_locks(path: &CallPath) -> EndGoes
    ensures { result ≡ last_goes (is_owner path.now) }
{
    if path.is_owner() {
        EndGoes::Done
    } else {
        EndGoes::On(EndAt::Stamp)
    }
}

/// Where the end goes from its decision. It stays at another decision than its own, which no session leaves there.
pub fn decide_told(commit: bool, heard: QueryReplyRef<'_>) -> EndGoes
    ensures { result ≡ decide_goes commit (query_reply_of heard.entry) }
{
    match heard {
        QueryReplyRef::Act(ActReplyRef::Added) => EndGoes::Decided { first: true },
        QueryReplyRef::Act(ActReplyRef::Kept(Value::Bool(kept))) => kept_decision(commit, *kept),
        _ => EndGoes::Stays,
    }
}

fn kept_decision(commit: bool, kept: bool) -> EndGoes
    ensures { result ≡ decided_by commit kept }
{
    match (commit, kept) {
        (true, true) | (false, false) => EndGoes::Decided { first: false },
        _ => EndGoes::Stays,
    }
}

// Nobody owns a copy.
fn hear_value(said: ReadGoes) -> EndGoes
    ensures { result ≡ value_goes said }
{
    match said {
        ReadGoes::On(row) => EndGoes::On(EndAt::Shadow(row)),
        ReadGoes::Got(value) => EndGoes::Value(value),
        ReadGoes::Stays | ReadGoes::Held(_) => EndGoes::Stays,
    }
}

// The next item comes once this one was given back, now or before, or is another's. A free waits for nobody.
fn hear_free(goes: WriteGoes) -> EndGoes
    ensures { result ≡ freed_goes goes }
{
    match goes {
        WriteGoes::On(at) => EndGoes::On(EndAt::Free(at)),
        WriteGoes::Done { .. } | WriteGoes::NotOwner => EndGoes::On(EndAt::Next),
        WriteGoes::Stays | WriteGoes::Held(_) => EndGoes::Stays,
        WriteGoes::Worn => EndGoes::Worn,
    }
}
