// The stages of calls, and of the return of what was called: what they ask, and what they say of what they were told.
ghost use Rattle.std.specs.Prelude.{◌≡◌, true, IfOk, IfErr};
ghost use Rattle.beldi_value.specs.Id.{child_of, has_callees};
ghost use Rattle.beldi_query.specs.Query.{query_reply_of};
ghost use Rattle.beldi_invokelog.specs.InvokeLog.{back_of};
ghost use Rattle.beldi_intent.specs.Intent.{is_did as is_did_of};
ghost use Rattle.beldi_lang.specs.declared.effect.Effect.TheVariants as effects;
ghost use Rattle.beldi_step.specs.Run.{mark_of, is_waited as is_waited_of, is_inherited as is_inherited_of, step_mark as step_mark_of, close_asks, call_here_output, async_here_asks, async_here_output, notify_asks, back_to_asks, back_output, close_output, callee_body as callee_body_of};

use crate::stage::{look, mark_if, place_of};
use beldi_call::{
    AsyncAt, AsyncOutput, CallAt, CallOutput, CallPlace, async_query, async_told, call_told,
};
use beldi_intent::{end_told, intent_key};
use beldi_invokelog::{Back, back_told, invoke_key, registered_query};
use beldi_lang::{Answer, Effect};
use beldi_query::{Query, QueryReplyRef};
use beldi_row::{Act, Body};
use beldi_step::{Mark, RunTx, Stage, StageOutput, Wait};
use beldi_value::{Boxed, Caller, IntentId, Outcome, Shared, TxId, Value, or_drop};
use std::alloc::{AllocError, Global};

fn is_waited(caller: &Option<Shared<Caller>>) -> bool
    ensures { result ≡ is_waited_of caller.now }
{
    match caller {
        Some(caller) => caller.get().waits,
        None => false,
    }
}

// Whether an instance was called in the transaction that it is in.
fn is_inherited(tx: &Option<RunTx>) -> bool
    ensures { result ≡ is_inherited_of tx.now }
{
    matches!(tx, Some(RunTx::Inherited(_)))
}

// The mark of a step that was made now; inside a transaction it has none.
fn step_mark(tx: &Option<RunTx>, first: bool) -> Option<Mark>
    ensures { result ≡ step_mark_of tx.now first }
{
    match tx {
        None => mark_if(first, Mark::Step),
        Some(_) => None,
    }
}

/// The body of what is called at a step, in this transaction, if any. `home` is the function of the caller.
pub fn callee_body(
    alloc: Global,
    id: &IntentId,
    home: u16,
    step: u32,
    func: u16,
    args: &Value,
    tx: Option<Shared<TxId>>,
    waits: bool,
) -> Result<Body, AllocError>
    ensures { IfOk result (λ b. b ≡ callee_body_of id.now home step func args.now tx waits) }
{
    let place = or_drop!(place_of(alloc, id, step); tx);
    let args = or_drop!(args.copy(alloc); place, tx);
    let from = Caller {
        place,
        func: home,
        waits,
    };
    let from = or_drop!(Shared::new(alloc, from); args, tx);
    Ok(Body {
        func,
        args,
        tx,
        parent: Some(from),
    })
}

// Asks for what a call comes to next that nobody waits for.
pub(crate) fn async_here(
    alloc: Global,
    id: &IntentId,
    func: u16,
    step: u32,
    effect: &Effect,
    at: AsyncAt,
) -> Result<Boxed<Query>, AllocError>
    ensures { IfOk result (λ q. q ≡ async_here_asks id.now func step effect.now at) }
{
    match effect {
        Effect::Async { func: callee, args } => async_to(alloc, id, func, step, *callee, args, at),
        _ => look(alloc, id, func),
    }
}

// The same, where it goes to this function.
fn async_to(
    alloc: Global,
    id: &IntentId,
    func: u16,
    step: u32,
    callee: u16,
    args: &Value,
    at: AsyncAt,
) -> Result<Boxed<Query>, AllocError>
    ensures { IfOk result (λ q. q ≡ async_here_asks id.now func step (effects.Async callee args.now) at) }
{
    if !id.has_callees() {
        return look(alloc, id, func);
    }
    let place = CallPlace::new(place_of(alloc, id, step)?);
    let body = or_drop!(callee_body(alloc, id, func, step, callee, args, None, false); place);
    let asked = async_query(alloc, func, &place, &body, at);
    drop(body);
    drop(place);
    asked
}

// Asks for the call to be marked as registered.
pub(crate) fn notify_query(
    alloc: Global,
    id: &IntentId,
    func: u16,
    caller: &Option<Shared<Caller>>,
) -> Result<Boxed<Query>, AllocError>
    ensures { IfOk result (λ q. q ≡ notify_asks id.now func caller.now) }
{
    match caller {
        Some(caller) => {
            let caller = caller.get();
            registered_query(alloc, caller.func, caller.place.copy(alloc)?)
        }
        None => look(alloc, id, func),
    }
}

// Asks for the outcome to be given back to the caller.
pub(crate) fn back_query(
    alloc: Global,
    id: &IntentId,
    func: u16,
    caller: &Option<Shared<Caller>>,
    effect: &Effect,
) -> Result<Boxed<Query>, AllocError>
    ensures { IfOk result (λ q. q ≡ back_to_asks id.now func caller.now effect.now) }
{
    match (caller, effect) {
        (Some(caller), Effect::Return(outcome)) => {
            let caller = caller.get();
            let key = invoke_key(caller.func, caller.place.copy(alloc)?);
            let outcome = or_drop!(outcome.copy(alloc); key);
            Query::act(alloc, key, Act::CallBack { outcome })
        }
        _ => look(alloc, id, func),
    }
}

// Asks for the instance to be ended; the end of a transaction stamps what was called in it.
pub(crate) fn close_query(
    alloc: Global,
    id: &IntentId,
    func: u16,
    tx: &Option<RunTx>,
    effect: &Effect,
) -> Result<Boxed<Query>, AllocError>
    ensures { IfOk result (λ q. q ≡ close_asks id.now func tx.now effect.now) }
{
    let Effect::Return(outcome) = effect else {
        return look(alloc, id, func);
    };
    let key = intent_key(id.copy(alloc)?, func);
    let outcome = or_drop!(outcome.copy(alloc); key);
    let stamp = !is_inherited(tx);
    Query::act(alloc, key, Act::End { outcome, stamp })
}

// A call that is out of memory made nothing either.
fn callee_at(alloc: Global, id: &IntentId, step: u32) -> Result<Boxed<IntentId>, AllocError>
    requires { has_callees id.now ≡ true }
    ensures { IfOk result (λ i. i ≡ child_of id.now step) }
{
    Boxed::new(alloc, id.child(alloc, step)?)
}

pub(crate) fn hear_call(
    alloc: Global,
    id: &IntentId,
    tx: &Option<RunTx>,
    step: u32,
    effect: &Effect,
    at: CallAt,
    heard: QueryReplyRef<'_>,
) -> Result<StageOutput, Option<Mark>>
    ensures ok { IfOk result (λ s. s ≡ call_here_output id.now tx.now step effect.now at (query_reply_of heard.entry)) }
    ensures err { IfErr result (λ e. e ≡ mark_of (call_here_output id.now tx.now step effect.now at (query_reply_of heard.entry))) }
{
    let Effect::Call { func, args: _ } = effect else {
        return Ok(StageOutput::Ends(None, None));
    };
    if !id.has_callees() {
        return Ok(StageOutput::Ends(None, None));
    }
    match call_told(alloc, *func, at, heard) {
        Err(_) => Err(None),
        Ok(CallOutput::Opened { first }) => Ok(StageOutput::Opens(step_mark(tx, first))),
        Ok(CallOutput::NotYet) => match callee_at(alloc, id, step) {
            Ok(callee) => Ok(StageOutput::Waits(Wait::Result(callee))),
            Err(_) => Err(None),
        },
        Ok(CallOutput::Done(outcome)) => Ok(StageOutput::Answers(Answer::of_callee(outcome), None)),
    }
}

pub(crate) fn hear_async(
    alloc: Global,
    id: &IntentId,
    effect: &Effect,
    at: AsyncAt,
    heard: QueryReplyRef<'_>,
) -> Result<StageOutput, Option<Mark>>
    ensures ok { IfOk result (λ s. s ≡ async_here_output id.now effect.now at (query_reply_of heard.entry)) }
    ensures err { IfErr result (λ e. e ≡ mark_of (async_here_output id.now effect.now at (query_reply_of heard.entry))) }
{
    let Effect::Async { func, args: _ } = effect else {
        return Ok(StageOutput::Ends(None, None));
    };
    if !id.has_callees() {
        return Ok(StageOutput::Ends(None, None));
    }
    match async_told(alloc, *func, at, heard) {
        Err(_) => Err(None),
        Ok(AsyncOutput::Opened { first }) => Ok(StageOutput::On(
            Stage::Async(AsyncAt::Register),
            mark_if(first, Mark::Step),
        )),
        Ok(AsyncOutput::Going) => Ok(StageOutput::On(Stage::Async(AsyncAt::Note), None)),
        Ok(AsyncOutput::Done) => match at {
            AsyncAt::Note => Ok(StageOutput::Starts(Answer::Done)),
            AsyncAt::Open | AsyncAt::Register => Ok(StageOutput::Answers(Answer::Done, None)),
        },
    }
}

// The return of what was called in a transaction makes no entry.
pub(crate) fn hear_back(tx: &Option<RunTx>, heard: QueryReplyRef<'_>) -> StageOutput
    ensures { result ≡ back_output tx.now (back_of (query_reply_of heard.entry)) }
{
    match back_told(heard) {
        Back::Set => StageOutput::On(Stage::Close, mark_if(!is_inherited(tx), Mark::Step)),
        Back::AlreadySet | Back::Absent => StageOutput::On(Stage::Close, None),
    }
}

// The end of what its caller waits for makes no step.
fn reply_of(alloc: Global, outcome: &Outcome) -> Result<Boxed<Outcome>, AllocError>
    ensures { IfOk result (λ o. o ≡ outcome.now) }
{
    Boxed::new(alloc, outcome.copy(alloc)?)
}

pub(crate) fn hear_close(
    alloc: Global,
    id: &IntentId,
    caller: &Option<Shared<Caller>>,
    effect: &Effect,
    heard: QueryReplyRef<'_>,
) -> Result<StageOutput, Option<Mark>>
    ensures ok { IfOk result (λ s. s ≡ close_output id.now caller.now effect.now (is_did_of (query_reply_of heard.entry))) }
    ensures err { IfErr result (λ e. e ≡ mark_of (close_output id.now caller.now effect.now (is_did_of (query_reply_of heard.entry)))) }
{
    if !end_told(&heard) {
        return Ok(StageOutput::Ends(None, None));
    }
    match effect {
        Effect::Return(outcome) => {
            let mark = mark_if(!is_waited(caller), Mark::Step);
            if !id.is_root() {
                return Ok(StageOutput::Ends(mark, None));
            }
            match reply_of(alloc, outcome) {
                Ok(outcome) => Ok(StageOutput::Ends(mark, Some(outcome))),
                Err(_) => Err(mark),
            }
        }
        _ => Ok(StageOutput::Ends(None, None)),
    }
}
