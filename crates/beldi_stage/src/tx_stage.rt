// The stages of an operation inside a transaction, and of its end: what they ask, and what they say of what they were told.
ghost use Rattle.std.specs.Prelude.{◌≡◌, ℕ, None, Ok, IfOk, IfErr};
ghost use Rattle.beldi_query.specs.Query.{query_reply_of};
ghost use Rattle.beldi_txn.specs.Tx.{tx_asks, tx_goes};
ghost use Rattle.beldi_txn.specs.End.{end_goes, decide_goes, first_visit, end_after};
ghost use Rattle.beldi_value.specs.declared.id.IntentId.{IntentId};
ghost use Rattle.beldi_txn.specs.declared.end.EndGoes.TheVariants as ends;
ghost use Rattle.beldi_txn.specs.declared.end.EndState.{EndState};
ghost use Rattle.beldi_step.specs.declared.run.Mark.{Mark};
ghost use Rattle.beldi_step.specs.declared.run.Stage.TheVariants as stages;
ghost use Rattle.beldi_step.specs.declared.run.StageOutput.TheVariants as says;
ghost use Rattle.beldi_step.specs.Run.{mark_of, place_of as place_at, own_tx as own_tx_of, tx_at as tx_at_of, tx_here_asks, end_here_asks, put_answer as put_answer_of, tx_output as tx_output_of, tx_here_output, visit_output as visit_output_of, decided_output, decide_here_output, end_here_output, end_left};

use crate::stage::{look, mark_if, place_of};
use beldi_lang::{Answer, Effect};
use beldi_query::{Query, QueryReplyRef};
use beldi_step::{Mark, OpenTx, RunTx, Stage, StageOutput, Wait};
use beldi_txn::{
    EndGoes, EndState, TxAt, TxGoes, decide_query, decide_told, end_query, end_told, tx_query,
    tx_told,
};
use beldi_value::{Boxed, IntentId, Shared, TxId};
use std::alloc::{AllocError, Global};
use std::mem::replace;

// A run's own transaction, which is open.
#[inline(always)]
pub(crate) fn own_tx(
    alloc: Global,
    id: &IntentId,
    func: u16,
    tx: &OpenTx,
) -> Result<TxId, AllocError>
    ensures { IfOk result (λ x. x ≡ own_tx_of id.now func tx.now) }
{
    Ok(TxId {
        intent: id.copy(alloc)?,
        begin: tx.begin,
        func,
    })
}

/// The transaction that a run is in, as its rows name it; none outside.
pub fn tx_at(
    alloc: Global,
    id: &IntentId,
    func: u16,
    tx: &Option<RunTx>,
) -> Result<Option<Shared<TxId>>, AllocError>
    ensures { IfOk result (λ x. x ≡ tx_at_of id.now func tx.now) }
{
    match tx {
        None => Ok(None),
        Some(RunTx::Own(tx)) => Ok(Some(Shared::new(alloc, own_tx(alloc, id, func, tx)?)?)),
        Some(RunTx::Inherited(tx)) => Ok(Some(tx.copy()?)),
    }
}

// Asks for what an operation inside a transaction comes to next.
pub(crate) fn tx_here(
    alloc: Global,
    id: &IntentId,
    func: u16,
    step: u32,
    effect: &Effect,
    at: &TxAt,
    tx: &Option<RunTx>,
) -> Result<Boxed<Query>, AllocError>
    ensures { IfOk result (λ q. q ≡ tx_here_asks id.now func step effect.now at.now tx.now) }
{
    match tx {
        Some(RunTx::Own(tx)) => {
            let who = own_tx(alloc, id, func, tx)?;
            let asked = tx_ask(alloc, id, func, step, effect, at, &who);
            drop(who);
            asked
        }
        Some(RunTx::Inherited(tx)) => tx_ask(alloc, id, func, step, effect, at, tx.get()),
        None => look(alloc, id, func),
    }
}

// The same, as this transaction.
fn tx_ask(
    alloc: Global,
    id: &IntentId,
    func: u16,
    step: u32,
    effect: &Effect,
    at: &TxAt,
    who: &TxId,
) -> Result<Boxed<Query>, AllocError>
    ensures { IfOk result (λ q. q ≡ tx_asks func (place_at id.now step) who.now effect.now at.now) }
{
    let place = place_of(alloc, id, step)?;
    tx_query(alloc, func, place, who, effect, at)
}

// Asks that the decision of a transaction is kept.
pub(crate) fn decide_here(
    alloc: Global,
    id: &IntentId,
    func: u16,
    effect: &Effect,
    tx: &Option<RunTx>,
) -> Result<Boxed<Query>, AllocError>
    ensures { (step : ℕ) → IfOk result (λ q. q ≡ end_here_asks id.now func step effect.now first_visit tx.now) }
{
    match (effect, tx) {
        (Effect::End { commit }, Some(RunTx::Own(tx))) => {
            decide_query(alloc, &own_tx(alloc, id, func, tx)?, *commit)
        }
        _ => look(alloc, id, func),
    }
}

// Asks for what the end of a transaction comes to next.
pub(crate) fn end_here(
    alloc: Global,
    id: &IntentId,
    func: u16,
    step: u32,
    effect: &Effect,
    visit: &EndState,
    tx: &Option<RunTx>,
) -> Result<Boxed<Query>, AllocError>
    ensures { IfOk result (λ q. q ≡ end_here_asks id.now func step effect.now visit.now tx.now) }
{
    match (effect, tx) {
        (Effect::End { commit }, Some(RunTx::Own(tx))) => {
            let who = own_tx(alloc, id, func, tx)?;
            end_query(alloc, &who, step, *commit, visit)
        }
        _ => look(alloc, id, func),
    }
}

// What happens inside a transaction makes no entry.
pub(crate) fn hear_tx(
    alloc: Global,
    id: &IntentId,
    step: u32,
    effect: &Effect,
    at: &TxAt,
    tx: &Option<RunTx>,
    heard: QueryReplyRef<'_>,
) -> Result<StageOutput, Option<Mark>>
    ensures ok { IfOk result (λ s. s ≡ tx_here_output id.now step effect.now at.now tx.now (query_reply_of heard.entry)) }
    ensures err { IfErr result (λ e. e ≡ mark_of (tx_here_output id.now step effect.now at.now tx.now (query_reply_of heard.entry))) }
{
    let Some(tx) = tx else {
        return Ok(StageOutput::Ends(None, None));
    };
    match tx_turn(alloc, id, step, tx.begin(), effect, at, heard) {
        Ok(says) => Ok(says),
        Err(_) => Err(None),
    }
}

fn tx_turn(
    alloc: Global,
    id: &IntentId,
    step: u32,
    begin: u32,
    effect: &Effect,
    at: &TxAt,
    heard: QueryReplyRef<'_>,
) -> Result<StageOutput, AllocError>
    ensures { IfOk result (λ s. s ≡ tx_output_of at.now (tx_goes (place_at id.now step) begin effect.now at.now (query_reply_of heard.entry))) }
{
    let place = place_of(alloc, id, step)?;
    let goes = tx_told(alloc, &place, begin, effect, at, heard);
    drop(place);
    tx_says(alloc, at, goes?)
}

fn tx_says(alloc: Global, at: &TxAt, goes: TxGoes) -> Result<StageOutput, AllocError>
    ensures { IfOk result (λ s. s ≡ tx_output_of at.now goes) }
{
    match goes {
        TxGoes::On(at) => Ok(StageOutput::On(Stage::Tx(at), None)),
        TxGoes::Stays => Ok(StageOutput::Stays),
        TxGoes::Put => put_answer(alloc, at),
        TxGoes::Died(cause) => Ok(StageOutput::Answers(Answer::Aborted(cause), None)),
        TxGoes::Held(owner) => Ok(StageOutput::Waits(Wait::Held(Boxed::new(alloc, owner)?))),
        TxGoes::Worn => Ok(StageOutput::Waits(Wait::Worn)),
        TxGoes::Value(value) => Ok(StageOutput::Answers(Answer::Value(value), None)),
        TxGoes::Done => Ok(StageOutput::Answers(Answer::Done, None)),
    }
}

// The value that was kept, as the answer.
fn put_answer(alloc: Global, at: &TxAt) -> Result<StageOutput, AllocError>
    ensures { IfOk result (λ s. s ≡ put_answer_of at.now) }
{
    match at {
        TxAt::Keep(value) => Ok(StageOutput::Answers(Answer::Value(value.copy(alloc)?), None)),
        _ => Ok(StageOutput::Stays),
    }
}

// What the decision of a transaction says of what it was told. Out of memory, it tells the mark of its act.
pub(crate) fn hear_decide(
    alloc: Global,
    tx: &Option<RunTx>,
    effect: &Effect,
    stage: Stage,
    heard: QueryReplyRef<'_>,
) -> Result<StageOutput, Option<Mark>>
    ensures ok { (id : IntentId) (func step : ℕ) (m : Mark) → stage ≡ stages.Decide m → IfOk result (λ s. s ≡ decide_here_output id func step effect.now m tx.now (query_reply_of heard.entry)) }
    ensures err { (id : IntentId) (func step : ℕ) (m : Mark) → stage ≡ stages.Decide m → IfErr result (λ e. e ≡ mark_of (decide_here_output id func step effect.now m tx.now (query_reply_of heard.entry))) }
{
    match (effect, tx, stage) {
        (Effect::End { commit }, Some(RunTx::Own(_)), Stage::Decide(mark)) => {
            decide(alloc, *commit, mark, heard)
        }
        (_, _, stage) => {
            drop(stage);
            Ok(StageOutput::Ends(None, None))
        }
    }
}

fn decide(
    alloc: Global,
    commit: bool,
    mark: Mark,
    heard: QueryReplyRef<'_>,
) -> Result<StageOutput, Option<Mark>>
    ensures ok { IfOk result (λ s. s ≡ decided_output commit mark (decide_goes commit (query_reply_of heard.entry))) }
    ensures err { IfErr result (λ e. e ≡ mark_of (decided_output commit mark (decide_goes commit (query_reply_of heard.entry)))) }
{
    match decide_told(commit, heard) {
        EndGoes::Decided { first } => match decided(alloc, commit, first) {
            Ok(visit) => Ok(StageOutput::On(Stage::End(visit), mark_if(first, mark))),
            Err(_) => Err(mark_if(first, mark)),
        },
        goes => {
            drop(goes);
            Ok(StageOutput::On(Stage::Decide(mark), None))
        }
    }
}

// The visit that follows the decision.
fn decided(alloc: Global, commit: bool, first: bool) -> Result<Boxed<EndState>, AllocError>
    ensures { IfOk result (λ v. v ≡ end_after commit first_visit (ends.Decided first)) }
{
    let mut visit = EndState::first(alloc);
    drop(visit.go(commit, EndGoes::Decided { first }));
    Boxed::new(alloc, visit)
}

// What the visits of an end say of what they were told. Where it goes on, its visit is moved.
pub(crate) fn hear_end(
    alloc: Global,
    id: &IntentId,
    func: u16,
    step: u32,
    tx: &Option<RunTx>,
    effect: &Effect,
    stage: &mut Stage,
    heard: QueryReplyRef<'_>,
) -> Result<StageOutput, Option<Mark>>
    ensures ok { (v : EndState) → stage.old ≡ stages.End v → IfOk result (λ s. s ≡ end_here_output id.now func step effect.now v tx.now (query_reply_of heard.entry)) }
    ensures err { (v : EndState) → IfErr result (λ e. e ≡ mark_of (end_here_output id.now func step effect.now v tx.now (query_reply_of heard.entry))) }
    ensures left { (v : EndState) → stage.old ≡ stages.End v → stage.new ≡ end_left v result }
{
    let (Effect::End { commit }, Some(RunTx::Own(tx)), Stage::End(visit)) = (effect, tx, &*stage)
    else {
        return Ok(StageOutput::Ends(None, None));
    };
    match hear_visit(alloc, id, func, tx, step, *commit, visit.get(), heard) {
        Ok(goes) => Ok(visited(*commit, stage, goes)),
        Err(_) => Err(None),
    }
}

fn hear_visit(
    alloc: Global,
    id: &IntentId,
    func: u16,
    tx: &OpenTx,
    step: u32,
    commit: bool,
    visit: &EndState,
    heard: QueryReplyRef<'_>,
) -> Result<EndGoes, AllocError>
    ensures { IfOk result (λ g. g ≡ end_goes (own_tx_of id.now func tx.now) step commit visit.now.path visit.now.at (query_reply_of heard.entry)) }
{
    let who = own_tx(alloc, id, func, tx)?;
    let goes = end_told(alloc, &who, step, commit, visit, heard);
    drop(who);
    goes
}

fn visited(commit: bool, stage: &mut Stage, goes: EndGoes) -> StageOutput
    ensures output { (v : EndState) → stage.old ≡ stages.End v → result ≡ visit_output_of commit v goes }
    ensures left { (v : EndState) → stage.old ≡ stages.End v → stage.new ≡ end_left v (Ok result) }
{
    match goes {
        EndGoes::Done => StageOutput::Answers(Answer::Done, None),
        EndGoes::Worn => StageOutput::Waits(Wait::Worn),
        goes => go_on(commit, replace(stage, Stage::Close), goes),
    }
}

// The visit goes on.
fn go_on(commit: bool, stage: Stage, goes: EndGoes) -> StageOutput
    ensures { (v : EndState) → stage ≡ stages.End v → result ≡ says.On (stages.End (end_after commit v goes)) None }
{
    match stage {
        Stage::End(visit) => {
            let mut visit = visit;
            drop(visit.get_mut().go(commit, goes));
            StageOutput::On(Stage::End(visit), None)
        }
        stage => {
            drop(stage);
            drop(goes);
            StageOutput::Ends(None, None)
        }
    }
}
