// A run that has begun: its machine and the transaction that it is in, past an answer and past what takes no turn.
ghost use Rattle.std.specs.Prelude.{◌≡◌, Option, is_some, IfOk, OnOk};
ghost use Rattle.beldi_lang.specs.Machine.{begun as machine_begun};
ghost use Rattle.beldi_step.specs.Run.{followed, plain_output, goes_to, takes, at_state, local_steps as local_steps_of, local_step as local_step_of, open_after as open_after_of, with_cause, at_stage, inherited_tx as inherited_tx_of, local_answer as local_answer_of};
ghost use Rattle.beldi_step.specs.declared.run.Mark.{Mark};
ghost use Rattle.beldi_step.specs.declared.run.Run.{Run};
ghost use Rattle.beldi_step.specs.declared.run.RunAt.TheVariants as at;
ghost use Rattle.beldi_step.specs.declared.run.Stage.TheVariants as stages;

use beldi_lang::{Answer, Deployment, Effect, Machine};
use beldi_row::Body;
use beldi_stage::{first_stage, place_of};
use beldi_step::{Begun, OpenTx, RunAt, RunTx, Stage};
use beldi_value::{Boxed, Cause, IntentId, Shared, TxId, or_drop};
use std::alloc::{AllocError, Global};
use std::mem::replace;

// The answer that takes no turn: of a begin, and of an abort.
fn answer_at_once(
    alloc: Global,
    id: &IntentId,
    step: u32,
    effect: &Effect,
) -> Result<Option<Answer>, AllocError>
    ensures { IfOk result (λ a. a ≡ local_answer_of id.now step effect.now) }
{
    match effect {
        Effect::Begin => Ok(Some(Answer::Done)),
        Effect::Abort => Ok(Some(Answer::Aborted(Cause {
            place: Boxed::new(alloc, place_of(alloc, id, step)?)?,
            holder: None,
        }))),
        _ => Ok(None),
    }
}

// The transaction of a body.
fn inherited_tx(tx: Option<Shared<TxId>>) -> Option<RunTx>
    ensures { result ≡ inherited_tx_of tx }
{
    match tx {
        None => None,
        Some(tx) => Some(RunTx::Inherited(tx)),
    }
}

// The transaction that a run is in once the effect at a step has its answer.
fn open_after(
    alloc: Global,
    step: u32,
    effect: &Effect,
    answer: &Answer,
    tx: &mut Option<RunTx>,
) -> Result<(), AllocError>
    ensures { OnOk result (tx.new ≡ open_after_of step effect.now answer.now tx.old) }
{
    *tx = match effect {
        Effect::Begin => Some(RunTx::Own(OpenTx {
            begin: step,
            cause: None,
        })),
        Effect::End { .. } => None,
        _ => return keep_cause(alloc, answer, tx),
    };
    Ok(())
}

// The cause of what was aborted in its own one is kept.
fn keep_cause(alloc: Global, answer: &Answer, tx: &mut Option<RunTx>) -> Result<(), AllocError>
    ensures { OnOk result (tx.new ≡ with_cause answer.now tx.old) }
{
    if let (Answer::Aborted(cause), Some(RunTx::Own(tx))) = (answer, tx) {
        tx.cause = Some(cause.copy(alloc)?);
    }
    Ok(())
}

/// Sets where a run stands: it has this body, and stands nowhere in it yet. It is made where it stays, as it is large.
pub fn begin_with(
    alloc: Global,
    run_at: &mut RunAt,
    code: &Deployment,
    func: u16,
    body: Body,
) -> Result<(), AllocError>
    ensures { OnOk result (run_at.new ≡ at.Begins (record { machine = machine_begun code.now func body.args (is_some body.tx); caller = body.parent; tx = inherited_tx_of body.tx; stage = stages.Close })) }
{
    let Body {
        func: _,
        args,
        tx,
        parent: caller,
    } = body;
    let inherited = tx.is_some();
    match Machine::new(alloc, code, func, args, inherited) {
        Ok(machine) => {
            let begun = RunAt::Begins(Begun {
                machine,
                caller,
                tx: inherited_tx(tx),
                stage: Stage::Close,
            });
            drop(replace(run_at, begun));
            Ok(())
        }
        Err(error) => {
            drop(tx);
            drop(caller);
            Err(error)
        }
    }
}

/// The machine and the transaction that it is in, after an answer.
pub fn take(
    alloc: Global,
    begun: &mut Begun,
    code: &Deployment,
    answer: Answer,
) -> Result<(), AllocError>
    ensures { OnOk result (begun.new ≡ at_state begun.old (takes code.now begun.old.machine begun.old.tx answer)) }
{
    let step = begun.machine.steps();
    or_drop!(open_after(alloc, step, begun.machine.wants(), &answer, &mut begun.tx); answer);
    begun.machine.resume(alloc, code, answer)
}

fn once(
    alloc: Global,
    begun: &mut Begun,
    code: &Deployment,
    id: &IntentId,
) -> Result<(), AllocError>
    ensures { OnOk result (begun.new ≡ at_state begun.old (local_step_of code.now id.now (begun.old.machine, begun.old.tx))) }
{
    match answer_at_once(alloc, id, begun.machine.steps(), begun.machine.wants())? {
        Some(answer) => take(alloc, begun, code, answer),
        None => Ok(()),
    }
}

// What takes no turn: after a begin comes no begin, and after an abort neither.
fn local_steps(
    alloc: Global,
    begun: &mut Begun,
    code: &Deployment,
    id: &IntentId,
) -> Result<(), AllocError>
    ensures { OnOk result (begun.new ≡ at_state begun.old (local_steps_of code.now id.now (begun.old.machine, begun.old.tx))) }
{
    once(alloc, begun, code, id)?;
    once(alloc, begun, code, id)
}

/// Past what takes no turn, where its effect begins. It says whether the run is over, as the effect is not carried out.
pub fn go_to(
    alloc: Global,
    begun: &mut Begun,
    code: &Deployment,
    id: &IntentId,
) -> Result<bool, AllocError>
    ensures { IfOk result (λ over. (r : Run) (mark : Option Mark) → r.id ≡ id.now → followed (record r { at = at.Begins begun.new }) (plain_output mark over) ≡ goes_to code.now r (begun.old.machine, begun.old.tx) begun.old.caller mark) }
{
    local_steps(alloc, begun, code, id)?;
    let stage = first_stage(
        alloc,
        id,
        &begun.caller,
        &begun.tx,
        begun.machine.steps(),
        begun.machine.wants(),
    )?;
    match stage {
        None => Ok(true),
        Some(stage) => {
            stand(begun, stage);
            Ok(false)
        }
    }
}

/// It stands here from now on.
pub fn stand(begun: &mut Begun, stage: Stage)
    ensures { begun.new ≡ at_stage begun.old stage }
{
    begun.stage = stage;
}
