// What a stage of a run asks, and what it says of what it was told.
ghost use Rattle.std.specs.Prelude.{◌≡◌, ℕ, false, if◌then◌else◌, Some, None, IfOk, IfErr};
ghost use Rattle.beldi_value.specs.Id.{has_callees};
ghost use Rattle.beldi_value.specs.declared.value.Value.{Value};
ghost use Rattle.beldi_value.specs.declared.place.Owner.TheVariants as owners;
ghost use Rattle.beldi_query.specs.Query.{query_reply_of};
ghost use Rattle.beldi_row.specs.Key.{at_row};
ghost use Rattle.beldi_row.specs.declared.act.Act.TheVariants as acts;
ghost use Rattle.beldi_query.specs.declared.query.Query.TheVariants as queries;
ghost use Rattle.beldi_call.specs.Call.{call_asks};
ghost use Rattle.beldi_daal.specs.Cell.{read_goes, cell_key as cell_key_of};
ghost use Rattle.beldi_daal.specs.declared.cell.CellOp.TheVariants as ops;
ghost use Rattle.beldi_readlog.specs.ReadLog.{given_of, kept_of, log_key as log_key_of};
ghost use Rattle.beldi_intent.specs.Intent.{look_asks};
ghost use Rattle.beldi_step.specs.declared.run.Stage.TheVariants as stages;
ghost use Rattle.beldi_step.specs.declared.run.StageOutput.TheVariants as says;
ghost use Rattle.beldi_step.specs.declared.run.Wait.TheVariants as waits;
ghost use Rattle.beldi_call.specs.declared.call.CallAt.TheVariants as calls;
ghost use Rattle.beldi_call.specs.declared.async_call.AsyncAt.TheVariants as asyncs;
ghost use Rattle.beldi_step.specs.Run.{stage_asks, put_asks, stage_output, mark_of, at_stage, left_of, first_stage as first_stage_of, first_of as first_stage_in, first_outside, first_end as first_end_of, end_mark as end_mark_of, last_stage as last_stage_of, note_done as note_done_of, answer_noted as answer_noted_of, cell_op, done_output, mark_if as mark_if_of, ask_output, walk_output, keep_output, put_output, place_of as place_at};

use crate::call_stage::{
    async_here, back_query, close_query, hear_async, hear_back, hear_call, hear_close, notify_query,
};
use crate::tx_stage::{decide_here, end_here, hear_decide, hear_end, hear_tx, tx_here};
use beldi_call::{AsyncAt, CallAt, call_query};
use beldi_daal::{
    CellOp, ReadGoes, WriteAt, WriteGoes, cell_key, read_told, write_query, write_told,
};
use beldi_intent::intent_key;
use beldi_lang::{Answer, Effect};
use beldi_query::{Query, QueryReplyRef};
use beldi_readlog::{given_told, kept_told, log_key};
use beldi_row::{Act, ActReplyRef, Note};
use beldi_step::{Begun, Mark, RunTx, Stage, StageOutput, Wait};
use beldi_txn::TxAt;
use beldi_value::{Boxed, Caller, Cause, IntentId, Owner, Place, Rel, Shared, Str, Value, or_drop};
use std::alloc::{AllocError, Global};
use std::mem::replace;

/// The place of a step of an intent. `AllocError`: out of memory, as in all calls here that answer it.
pub fn place_of(alloc: Global, id: &IntentId, step: u32) -> Result<Place, AllocError>
    ensures { IfOk result (λ p. p ≡ place_at id.now step) }
{
    Ok(Place {
        intent: id.copy(alloc)?,
        step,
    })
}

/// Asks for a look at the row of an intent whose function has this number.
pub fn look(alloc: Global, id: &IntentId, func: u16) -> Result<Boxed<Query>, AllocError>
    ensures { IfOk result (λ q. q ≡ look_asks id.now func) }
{
    Query::look(alloc, intent_key(id.copy(alloc)?, func))
}

// The note that its act leaves where it says that it was done.
fn note_done(effect: &Effect) -> Option<Note>
    ensures { result ≡ note_done_of effect.now }
{
    match effect {
        Effect::Write { .. } => Some(Note::Wrote),
        Effect::CondWrite { .. } => Some(Note::Cond(true)),
        Effect::Lock { .. } => Some(Note::Got),
        Effect::Unlock { .. } => Some(Note::Freed),
        _ => None,
    }
}

// A note, read as the answer to an effect; none where it is of another kind than the effect's answers.
fn answer_noted(effect: &Effect, note: &Note) -> Option<Answer>
    ensures { result ≡ answer_noted_of effect.now note.now }
{
    match (effect, note) {
        (
            Effect::Write { .. } | Effect::Lock { .. } | Effect::Unlock { .. },
            Note::Wrote | Note::Got | Note::Freed,
        ) => Some(Answer::Done),
        (Effect::CondWrite { .. }, Note::Cond(passed)) => {
            Some(Answer::Value(Value::Bool(*passed)))
        }
        _ => None,
    }
}

fn test_and_write(
    alloc: Global,
    rel: Rel,
    operand: &Value,
    value: &Value,
) -> Result<CellOp, AllocError>
    ensures { IfOk result (λ o. o ≡ ops.Cond rel operand.now value.now) }
{
    let operand = operand.copy(alloc)?;
    let value = or_drop!(value.copy(alloc); operand);
    Ok(CellOp::Cond {
        rel,
        operand,
        value,
    })
}

// Asks for what an operation on an item comes to next, outside a transaction.
fn put_here(
    alloc: Global,
    id: &IntentId,
    func: u16,
    step: u32,
    effect: &Effect,
    at: &WriteAt,
) -> Result<Boxed<Query>, AllocError>
    ensures { IfOk result (λ q. q ≡ put_asks id.now func step at.now (cell_op effect.now)) }
{
    match effect {
        Effect::Write { table, key, value } => {
            let op = CellOp::Write(value.copy(alloc)?);
            put_query(alloc, id, func, step, *table, key, op, at)
        }
        Effect::CondWrite {
            table,
            key,
            rel,
            operand,
            value,
        } => {
            let op = test_and_write(alloc, *rel, operand, value)?;
            put_query(alloc, id, func, step, *table, key, op, at)
        }
        Effect::Lock { table, key } => {
            put_query(alloc, id, func, step, *table, key, CellOp::Lock, at)
        }
        Effect::Unlock { table, key } => {
            let op = CellOp::Free(None);
            put_query(alloc, id, func, step, *table, key, op, at)
        }
        _ => look(alloc, id, func),
    }
}

fn put_query(
    alloc: Global,
    id: &IntentId,
    func: u16,
    step: u32,
    table: u16,
    key: &Str,
    op: CellOp,
    at: &WriteAt,
) -> Result<Boxed<Query>, AllocError>
    ensures { IfOk result (λ q. q ≡ put_asks id.now func step at.now (Some (record { table = table; key = key.now; op = op }))) }
{
    let row = or_drop!(cell_key(alloc, func, table, key, 0); op);
    let place = or_drop!(place_of(alloc, id, step); row, op);
    let who = Owner::Intent(or_drop!(id.copy(alloc); place, row, op));
    write_query(alloc, row, place, who, op, at)
}

// A read asks for the value that was kept for it.
fn ask_query(alloc: Global, id: &IntentId, func: u16, step: u32) -> Result<Boxed<Query>, AllocError>
    ensures { IfOk result (λ q. q ≡ queries.Act (log_key_of func (place_at id.now step)) acts.Look) }
{
    Query::look(alloc, log_key(func, place_of(alloc, id, step)?))
}

// A read keeps this value.
fn keep_query(
    alloc: Global,
    id: &IntentId,
    func: u16,
    step: u32,
    value: &Value,
) -> Result<Boxed<Query>, AllocError>
    ensures { IfOk result (λ q. q ≡ queries.Act (log_key_of func (place_at id.now step)) (acts.PutRead value.now)) }
{
    let place = place_of(alloc, id, step)?;
    let value = or_drop!(value.copy(alloc); place);
    Query::act(alloc, log_key(func, place), Act::PutRead { value })
}

// A read looks at this row of its item.
fn item_query(
    alloc: Global,
    func: u16,
    table: u16,
    key: &Str,
    row: u32,
) -> Result<Boxed<Query>, AllocError>
    ensures { IfOk result (λ q. q ≡ queries.Act (at_row (cell_key_of func table key.now) row) acts.Look) }
{
    Query::look(alloc, cell_key(alloc, func, table, key, row)?)
}

fn call_here(
    alloc: Global,
    id: &IntentId,
    func: u16,
    step: u32,
    callee: u16,
    at: CallAt,
) -> Result<Boxed<Query>, AllocError>
    ensures { IfOk result (λ q. q ≡ call_asks func (place_at id.now step) callee at) }
{
    call_query(alloc, func, place_of(alloc, id, step)?, callee, at)
}

/// What the stage of a run asks. The table takes the key and the act, so what they have of the effect is copied; the machine keeps
/// it.
pub fn stage_query(
    alloc: Global,
    id: &IntentId,
    func: u16,
    begun: &Begun,
) -> Result<Boxed<Query>, AllocError>
    ensures { IfOk result (λ q. q ≡ stage_asks id.now func begun.now.caller begun.now.tx begun.now.machine.steps begun.now.machine.effect begun.now.stage) }
{
    let step = begun.machine.steps();
    match (&begun.stage, begun.machine.wants()) {
        (Stage::Ask, _) => ask_query(alloc, id, func, step),
        (Stage::Keep { value, version: _ }, _) => keep_query(alloc, id, func, step, value),
        (Stage::Walk(row), Effect::Read { table, key }) => {
            item_query(alloc, func, *table, key, *row)
        }
        (Stage::Write(at), effect) => put_here(alloc, id, func, step, effect, at),
        (Stage::Tx(at), effect) => tx_here(alloc, id, func, step, effect, at, &begun.tx),
        (Stage::Decide(_), effect) => decide_here(alloc, id, func, effect, &begun.tx),
        (Stage::End(visit), effect) => end_here(
            alloc,
            id,
            func,
            step,
            effect,
            visit.get(),
            &begun.tx,
        ),
        (Stage::Call(at), Effect::Call { func: callee, .. }) => {
            call_here(alloc, id, func, step, *callee, *at)
        }
        (Stage::Async(at), effect) => async_here(alloc, id, func, step, effect, *at),
        (Stage::Notify, _) => notify_query(alloc, id, func, &begun.caller),
        (Stage::Back, effect) => back_query(alloc, id, func, &begun.caller, effect),
        (Stage::Close, effect) => close_query(alloc, id, func, &begun.tx, effect),
        _ => look(alloc, id, func),
    }
}

pub(crate) fn mark_if(made: bool, mark: Mark) -> Option<Mark>
    ensures { result ≡ mark_if_of made mark }
{
    if made { Some(mark) } else { None }
}

fn write_done(effect: &Effect, note: &Note, first: bool) -> StageOutput
    ensures { result ≡ done_output first (answer_noted_of effect.now note.now) }
{
    match answer_noted(effect, note) {
        Some(answer) => StageOutput::Answers(answer, mark_if(first, Mark::Step)),
        None => StageOutput::Ends(None, None),
    }
}

/// What the stage of a run says of what it was told, when so many changes had been made. What the stage of an end has is moved where
/// the end goes on. Out of memory, the error is the mark of its act.
pub fn hear(
    alloc: Global,
    id: &IntentId,
    func: u16,
    begun: &mut Begun,
    changes: u64,
    heard: QueryReplyRef<'_>,
) -> Result<StageOutput, Option<Mark>>
    ensures ok { IfOk result (λ s. s ≡ stage_output id.now func begun.old.caller begun.old.tx changes begun.old.machine.steps begun.old.machine.effect begun.old.stage (query_reply_of heard.entry)) }
    ensures err { IfErr result (λ e. e ≡ mark_of (stage_output id.now func begun.old.caller begun.old.tx changes begun.old.machine.steps begun.old.machine.effect begun.old.stage (query_reply_of heard.entry))) }
    ensures left { begun.new ≡ at_stage begun.old (left_of begun.old.stage result) }
{
    let effect = begun.machine.wants();
    let step = begun.machine.steps();
    match &begun.stage {
        Stage::Ask => hear_ask(alloc, heard),
        Stage::Walk(_) => hear_walk(alloc, id, changes, heard),
        Stage::Keep { value, version } => hear_keep(alloc, value, *version, heard),
        Stage::Write(at) => hear_write(alloc, effect, at, heard),
        Stage::Tx(at) => hear_tx(alloc, id, step, effect, at, &begun.tx, heard),
        Stage::Decide(_) => {
            let stage = replace(&mut begun.stage, Stage::Close);
            let effect = begun.machine.wants();
            hear_decide(alloc, &begun.tx, effect, stage, heard)
        }
        Stage::End(_) => {
            let Begun {
                machine,
                tx,
                stage,
                ..
            } = begun;
            hear_end(alloc, id, func, step, tx, machine.wants(), stage, heard)
        }
        Stage::Call(at) => hear_call(alloc, id, &begun.tx, step, effect, *at, heard),
        Stage::Async(at) => hear_async(alloc, id, effect, *at, heard),
        Stage::Back => Ok(hear_back(&begun.tx, heard)),
        Stage::Notify => Ok(StageOutput::On(Stage::Close, None)),
        Stage::Close => hear_close(alloc, id, &begun.caller, effect, heard),
    }
}

fn hear_ask(alloc: Global, heard: QueryReplyRef<'_>) -> Result<StageOutput, Option<Mark>>
    ensures ok { IfOk result (λ s. s ≡ ask_output (given_of (query_reply_of heard.entry))) }
    ensures err { IfErr result (λ e. e ≡ None) }
{
    match given_told(alloc, heard) {
        Err(_) => Err(None),
        Ok(None) => Ok(StageOutput::On(Stage::Walk(0), None)),
        Ok(Some(value)) => Ok(StageOutput::Answers(Answer::Value(value), None)),
    }
}

fn hear_walk(
    alloc: Global,
    id: &IntentId,
    changes: u64,
    heard: QueryReplyRef<'_>,
) -> Result<StageOutput, Option<Mark>>
    ensures ok { IfOk result (λ s. s ≡ walk_output changes (read_goes (Some (owners.Intent id.now)) (query_reply_of heard.entry))) }
    ensures err { IfErr result (λ e. e ≡ None) }
{
    let who = match id.copy(alloc) {
        Ok(id) => Some(Owner::Intent(id)),
        Err(_) => return Err(None),
    };
    let told = read_told(alloc, &who, heard);
    drop(who);
    match told {
        Err(_) => Err(None),
        Ok(ReadGoes::On(row)) => Ok(StageOutput::On(Stage::Walk(row), None)),
        Ok(ReadGoes::Stays) => Ok(StageOutput::Stays),
        Ok(ReadGoes::Got(value)) => Ok(StageOutput::On(
            Stage::Keep {
                value: value.unwrap_or(Value::Null),
                version: changes,
            },
            None,
        )),
        Ok(ReadGoes::Held(owner)) => held(alloc, owner),
    }
}

fn hear_keep(
    alloc: Global,
    value: &Value,
    version: u64,
    heard: QueryReplyRef<'_>,
) -> Result<StageOutput, Option<Mark>>
    ensures ok { IfOk result (λ s. s ≡ keep_output version (kept_of value.now (query_reply_of heard.entry))) }
    ensures err { IfErr result (λ e. e ≡ mark_of (keep_output version (kept_of value.now (query_reply_of heard.entry)))) }
{
    let added = is_added(&heard);
    match kept_told(alloc, value, heard) {
        Err(_) => Err(mark_if(added, Mark::Read(version))),
        Ok(kept) => Ok(StageOutput::Answers(
            Answer::Value(kept.value),
            mark_if(kept.added, Mark::Read(version)),
        )),
    }
}

// The run waits for this owner.
fn held(alloc: Global, owner: Owner) -> Result<StageOutput, Option<Mark>>
    ensures ok { IfOk result (λ s. s ≡ says.Waits (waits.Held owner)) }
    ensures err { IfErr result (λ e. e ≡ None) }
{
    match Boxed::new(alloc, owner) {
        Ok(owner) => Ok(StageOutput::Waits(Wait::Held(owner))),
        Err(_) => Err(None),
    }
}

fn is_added(heard: &QueryReplyRef<'_>) -> bool
    ensures { (v : Value) → result ≡ (kept_of v (query_reply_of heard.entry.now)).added }
{
    matches!(heard, QueryReplyRef::Act(ActReplyRef::Added))
}

// An act that lends made nothing, so it is out of memory only where there is no mark.
fn hear_write(
    alloc: Global,
    effect: &Effect,
    at: &WriteAt,
    heard: QueryReplyRef<'_>,
) -> Result<StageOutput, Option<Mark>>
    ensures ok { IfOk result (λ s. s ≡ put_output effect.now at.now (note_done_of effect.now) (query_reply_of heard.entry)) }
    ensures err { IfErr result (λ e. e ≡ mark_of (put_output effect.now at.now (note_done_of effect.now) (query_reply_of heard.entry))) }
{
    let Some(done) = note_done(effect) else {
        return Ok(StageOutput::Ends(None, None));
    };
    match write_told(alloc, done, at, heard) {
        Err(_) => Err(None),
        Ok(WriteGoes::On(at)) => Ok(StageOutput::On(Stage::Write(at), None)),
        Ok(WriteGoes::Stays) => Ok(StageOutput::Stays),
        Ok(WriteGoes::Done { note, first }) => Ok(write_done(effect, &note, first)),
        Ok(WriteGoes::NotOwner) => Ok(StageOutput::Ends(None, None)),
        Ok(WriteGoes::Held(owner)) => held(alloc, owner),
        Ok(WriteGoes::Worn) => Ok(StageOutput::Waits(Wait::Worn)),
    }
}

// Where an operation on an item begins, outside a transaction or inside.
fn first_of(stage: Stage, effect: &Effect, tx: &Option<RunTx>) -> Stage
    ensures { result ≡ first_stage_in stage effect.now tx.now }
{
    match tx {
        None => stage,
        Some(tx) => {
            drop(stage);
            Stage::Tx(TxAt::first(tx.begin(), effect))
        }
    }
}

// Where a call begins: none where its callee has no id.
fn first_call(id: &IntentId) -> Option<Stage>
    ensures { result ≡ (if has_callees id.now then Some (stages.Call calls.Open) else None) }
{
    if id.has_callees() {
        Some(Stage::Call(CallAt::Open))
    } else {
        None
    }
}

// Where a call begins that nobody waits for, which no transaction has.
fn first_async(id: &IntentId, tx: &Option<RunTx>) -> Option<Stage>
    ensures { result ≡ first_outside (if has_callees id.now then Some (stages.Async asyncs.Open) else None) tx.now }
{
    if tx.is_none() && id.has_callees() {
        Some(Stage::Async(AsyncAt::Open))
    } else {
        None
    }
}

// The mark that the decision of a transaction is to leave.
fn end_mark(
    alloc: Global,
    id: &IntentId,
    step: u32,
    cause: &Option<Cause>,
    commit: bool,
) -> Result<Mark, AllocError>
    ensures { IfOk result (λ m. m ≡ end_mark_of id.now step cause.now commit) }
{
    if commit {
        return Ok(Mark::CommittedTx);
    }
    match cause {
        Some(cause) => {
            let Cause { place, holder } = cause.copy(alloc)?;
            Ok(Mark::AbortedTx { place, holder })
        }
        None => Ok(Mark::AbortedTx {
            place: Boxed::new(alloc, place_of(alloc, id, step)?)?,
            holder: None,
        }),
    }
}

fn first_end(
    alloc: Global,
    id: &IntentId,
    step: u32,
    commit: bool,
    tx: &Option<RunTx>,
) -> Result<Option<Stage>, AllocError>
    ensures { IfOk result (λ s. s ≡ first_end_of id.now step commit tx.now) }
{
    match tx {
        Some(RunTx::Own(tx)) => {
            Ok(Some(Stage::Decide(end_mark(alloc, id, step, &tx.cause, commit)?)))
        }
        Some(RunTx::Inherited(_)) | None => Ok(None),
    }
}

fn last_stage(caller: &Option<Shared<Caller>>) -> Stage
    ensures { result ≡ last_stage_of caller.now }
{
    let Some(caller) = caller else {
        return Stage::Close;
    };
    if caller.get().waits {
        return Stage::Back;
    }
    Stage::Notify
}

/// Where an effect begins; none where it is not carried out, and the run is over.
pub fn first_stage(
    alloc: Global,
    id: &IntentId,
    caller: &Option<Shared<Caller>>,
    tx: &Option<RunTx>,
    step: u32,
    effect: &Effect,
) -> Result<Option<Stage>, AllocError>
    ensures { IfOk result (λ s. s ≡ first_stage_of id.now caller.now tx.now step effect.now) }
{
    match effect {
        Effect::Read { .. } => Ok(Some(first_of(Stage::Ask, effect, tx))),
        Effect::Write { .. } | Effect::CondWrite { .. } => {
            Ok(Some(first_of(Stage::Write(WriteAt::Try(0)), effect, tx)))
        }
        Effect::Lock { .. } | Effect::Unlock { .. } => match tx {
            None => Ok(Some(Stage::Write(WriteAt::Try(0)))),
            Some(_) => Ok(None),
        },
        Effect::Call { .. } => Ok(first_call(id)),
        Effect::Async { .. } => Ok(first_async(id, tx)),
        Effect::End { commit } => first_end(alloc, id, step, *commit, tx),
        Effect::Return(_) => Ok(Some(last_stage(caller))),
        Effect::Begin | Effect::Abort => Ok(None),
    }
}
