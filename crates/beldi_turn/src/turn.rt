// One turn of a run: what it asks, and where it goes by what it is told.
ghost use Rattle.std.specs.Prelude.{◌≡◌, true, false, Option, Some, None, IfOk, IfErr};
ghost use Rattle.beldi_tree.specs.Names.{func_at};
ghost use Rattle.beldi_query.specs.Query.{query_reply_of};
ghost use Rattle.beldi_intent.specs.Intent.{body_in, body_told, open_body as open_body_of, register_asks};
ghost use Rattle.beldi_step.specs.Run.{run_asks, run_told, followed, plain_output, begin_in, goes_to, takes, at_stage, body_found, body_added, turned_by, Turns, callee_by, callee_of, callee_run as callee_run_of};
ghost use Rattle.beldi_step.specs.RunStride.{walking as walking_of, past_first, walked};
ghost use Rattle.beldi_step.specs.declared.run.Begun.{Begun};
ghost use Rattle.beldi_step.specs.declared.run.Mark.{Mark};
ghost use Rattle.beldi_step.specs.declared.run.RunAt.{RunAt};
ghost use Rattle.beldi_step.specs.declared.run.RunAt.TheVariants as at;
ghost use Rattle.beldi_lang.specs.declared.effect.Effect.TheVariants as effects;

use crate::begun::{begin_with, go_to, stand, take};
use beldi_call::CallAt;
use beldi_intent::{open_body, register_query};
use beldi_lang::{Answer, Deployment, Effect};
use beldi_query::{Query, QueryReplyRef};
use beldi_row::{ActReplyRef, Body, IntentRow, Row};
use beldi_stage::{callee_body, hear, look, may_walk, set_row, stage_query, stage_walk, tx_at};
use beldi_step::{Begun, Mark, Run, RunAt, RunTx, Stage, StageOutput, TurnOutput, Walking};
use beldi_value::{Boxed, IntentId, Value, or_drop};
use std::alloc::{AllocError, Global};
use std::mem::replace;

fn plain(mark: Option<Mark>, over: bool) -> TurnOutput
    ensures { result ≡ plain_output mark over }
{
    TurnOutput {
        mark,
        over,
        starts: false,
        wait: None,
        reply: None,
    }
}

// The body of an intent that has not ended and is to run this function.
fn told_body(alloc: Global, func: u16, heard: QueryReplyRef<'_>) -> Result<Option<Body>, AllocError>
    ensures { IfOk result (λ b. b ≡ body_told func (query_reply_of heard.entry)) }
{
    match heard {
        QueryReplyRef::Act(ActReplyRef::Row(Row::Intent(intent))) => body_of(alloc, func, intent),
        _ => Ok(None),
    }
}

fn body_of(alloc: Global, func: u16, intent: &IntentRow) -> Result<Option<Body>, AllocError>
    ensures { IfOk result (λ b. b ≡ body_in func (open_body_of intent.now)) }
{
    match open_body(intent) {
        None => Ok(None),
        Some(body) => {
            if body.func == func {
                Ok(Some(body.copy(alloc)?))
            } else {
                Ok(None)
            }
        }
    }
}

fn own_body(func: u16, body: Body) -> Option<Body>
    ensures { result ≡ body_in func (Some body) }
{
    if body.func == func {
        return Some(body);
    }
    drop(body);
    None
}

// Asks for the row of an intent with this body.
fn register(alloc: Global, id: &IntentId, body: &Body) -> Result<Boxed<Query>, AllocError>
    ensures { IfOk result (λ q. q ≡ register_asks id.now body.now) }
{
    register_query(alloc, id.copy(alloc)?, body.copy(alloc)?)
}

// The body that a run registered.
fn registered(func: u16, at: RunAt) -> Option<Body>
    ensures { result ≡ body_added func at }
{
    match at {
        RunAt::Registers(body) => own_body(func, body),
        at => {
            drop(at);
            None
        }
    }
}

/// What the run asks in its next turn.
pub fn ask(alloc: Global, run: &Run) -> Result<Boxed<Query>, AllocError>
    ensures { IfOk result (λ q. q ≡ run_asks run.now) }
{
    match &run.at {
        RunAt::Looks => look(alloc, &run.id, run.func),
        RunAt::Registers(body) => register(alloc, &run.id, body),
        RunAt::Begins(begun) => stage_query(alloc, &run.id, run.func, begun),
    }
}

/// A run of what the run calls, if it stands at a call: it may act as long as the run. One that is waited for registers
/// its body, and is in the transaction that the run is in; the row of any other is there before a run of it may start.
#[inline(always)]
pub fn callee(alloc: Global, run: &Run) -> Result<Option<Boxed<Run>>, AllocError>
    ensures { IfOk result (λ r. r ≡ callee_of run.now) }
{
    let RunAt::Begins(begun) = &run.at else {
        return Ok(None);
    };
    let step = begun.machine.steps();
    match begun.machine.wants() {
        Effect::Call { func, args } => awaited_run(alloc, run, &begun.tx, step, *func, args),
        Effect::Async { func, args: _ } => left_run(alloc, run, step, *func),
        _ => Ok(None),
    }
}

// A run of what is called and waited for.
fn awaited_run(
    alloc: Global,
    run: &Run,
    tx: &Option<RunTx>,
    step: u32,
    func: u16,
    args: &Value,
) -> Result<Option<Boxed<Run>>, AllocError>
    ensures { IfOk result (λ r. r ≡ callee_by run.now tx.now step (effects.Call func args.now)) }
{
    let tx = tx_at(alloc, &run.id, run.func, tx)?;
    let body = callee_body(alloc, &run.id, run.func, step, func, args, tx, true)?;
    callee_run(alloc, run, step, func, RunAt::Registers(body))
}

// A run of what is called and left to itself.
fn left_run(
    alloc: Global,
    run: &Run,
    step: u32,
    func: u16,
) -> Result<Option<Boxed<Run>>, AllocError>
    ensures { IfOk result (λ r. r ≡ callee_run_of run.now step func at.Looks) }
{
    callee_run(alloc, run, step, func, RunAt::Looks)
}

fn callee_run(
    alloc: Global,
    run: &Run,
    step: u32,
    func: u16,
    at: RunAt,
) -> Result<Option<Boxed<Run>>, AllocError>
    ensures { IfOk result (λ r. r ≡ callee_run_of run.now step func at) }
{
    if !run.id.has_callees() {
        drop(at);
        return Ok(None);
    }
    let id = or_drop!(run.id.child(alloc, step); at);
    let run = Run {
        id,
        func,
        deadline: run.deadline,
        at,
    };
    Ok(Some(Boxed::new(alloc, run)?))
}

/// Where it goes after it was told, when so many changes had been made. Out of memory, it is to be dropped, and the
/// mark of its act is told.
pub fn resume(
    alloc: Global,
    run: &mut Run,
    code: &Deployment,
    changes: u64,
    heard: QueryReplyRef<'_>,
) -> Result<TurnOutput, Option<Mark>>
    ensures turns { Turns run.new result (run_told code.now changes run.old (query_reply_of heard.entry)) }
    ensures id { run.new.id ≡ run.old.id }
{
    match &mut run.at {
        RunAt::Begins(begun) => match hear(alloc, &run.id, run.func, begun, changes, heard) {
            Ok(output) => follow(alloc, run, code, output),
            Err(mark) => Err(mark),
        },
        _ => find_body(alloc, run, code, heard),
    }
}

// A turn before it has its body, which makes no entry.
fn find_body(
    alloc: Global,
    run: &mut Run,
    code: &Deployment,
    heard: QueryReplyRef<'_>,
) -> Result<TurnOutput, Option<Mark>>
    ensures begun { IfOk result (λ x. followed run.new x ≡ begin_in code.now run.old (func_at code.now run.old.func) (body_found run.old.func run.old.at (query_reply_of heard.entry))) }
    ensures none { IfErr result (λ m. m ≡ None) }
    ensures id { run.new.id ≡ run.old.id }
{
    match begin(alloc, run, code, heard) {
        Ok(output) => Ok(output),
        Err(_) => Err(None),
    }
}

fn begin(
    alloc: Global,
    run: &mut Run,
    code: &Deployment,
    heard: QueryReplyRef<'_>,
) -> Result<TurnOutput, AllocError>
    ensures begun { IfOk result (λ x. followed run.new x ≡ begin_in code.now run.old (func_at code.now run.old.func) (body_found run.old.func run.old.at (query_reply_of heard.entry))) }
    ensures id { run.new.id ≡ run.old.id }
{
    match find(alloc, run, heard)? {
        None => Ok(plain(None, true)),
        Some(body) => begin_body(alloc, run, code, body),
    }
}

// The body that it runs. One that was registered now is moved: where the run stands counts no more.
fn find(alloc: Global, run: &mut Run, heard: QueryReplyRef<'_>) -> Result<Option<Body>, AllocError>
    ensures found { IfOk result (λ b. (b ≡ body_found run.old.func run.old.at (query_reply_of heard.entry)) × (run.new ≡ record run.old { at = run.new.at })) }
    ensures id { run.new.id ≡ run.old.id }
{
    match heard {
        QueryReplyRef::Act(ActReplyRef::Added) => {
            Ok(registered(run.func, replace(&mut run.at, RunAt::Looks)))
        }
        heard => told_body(alloc, run.func, heard),
    }
}

fn begin_body(
    alloc: Global,
    run: &mut Run,
    code: &Deployment,
    body: Body,
) -> Result<TurnOutput, AllocError>
    ensures begun { IfOk result (λ x. (at : RunAt) → followed run.new x ≡ begin_in code.now (record run.old { at = at }) (func_at code.now run.old.func) (Some body)) }
    ensures id { run.new.id ≡ run.old.id }
{
    if code.func_at(run.func).is_none() {
        drop(body);
        return Ok(plain(None, true));
    }
    begin_with(alloc, &mut run.at, code, run.func, body)?;
    enter(alloc, run, code)
}

// The first effect of its body.
fn enter(alloc: Global, run: &mut Run, code: &Deployment) -> Result<TurnOutput, AllocError>
    ensures begun { (g : Begun) → run.old.at ≡ at.Begins g → IfOk result (λ x. (at : RunAt) → followed run.new x ≡ goes_to code.now (record run.old { at = at }) (g.machine, g.tx) g.caller None) }
    ensures id { run.new.id ≡ run.old.id }
{
    let RunAt::Begins(begun) = &mut run.at else {
        return Ok(plain(None, true));
    };
    match go_to(alloc, begun, code, &run.id) {
        Ok(over) => Ok(plain(None, over)),
        Err(error) => Err(error),
    }
}

fn follow(
    alloc: Global,
    run: &mut Run,
    code: &Deployment,
    output: StageOutput,
) -> Result<TurnOutput, Option<Mark>>
    ensures turns { (g : Begun) → run.old.at ≡ at.Begins g → Turns run.new result (turned_by code.now run.old g output) }
    ensures id { run.new.id ≡ run.old.id }
{
    match output {
        StageOutput::On(stage, mark) => {
            stand_at(run, stage);
            Ok(plain(mark, false))
        }
        StageOutput::Stays => Ok(plain(None, false)),
        StageOutput::Opens(mark) => {
            stand_at(run, Stage::Call(CallAt::Look));
            Ok(TurnOutput {
                mark,
                over: false,
                starts: true,
                wait: None,
                reply: None,
            })
        }
        StageOutput::Waits(wait) => Ok(TurnOutput {
            mark: None,
            over: false,
            starts: false,
            wait: Some(wait),
            reply: None,
        }),
        StageOutput::Starts(answer) => match go_on(alloc, run, code, answer) {
            Ok(over) => Ok(TurnOutput {
                starts: true,
                ..plain(None, over)
            }),
            Err(_) => Err(None),
        },
        StageOutput::Answers(answer, mark) => match go_on(alloc, run, code, answer) {
            Ok(over) => Ok(plain(mark, over)),
            Err(_) => Err(mark),
        },
        StageOutput::Ends(mark, reply) => Ok(TurnOutput {
            mark,
            over: true,
            starts: false,
            wait: None,
            reply,
        }),
    }
}

fn stand_at(run: &mut Run, stage: Stage)
    ensures stage { (g : Begun) → run.old.at ≡ at.Begins g → run.new ≡ record run.old { at = at.Begins (at_stage g stage) } }
    ensures id { run.new.id ≡ run.old.id }
{
    match &mut run.at {
        RunAt::Begins(begun) => stand(begun, stage),
        _ => drop(stage),
    }
}

fn go_on(
    alloc: Global,
    run: &mut Run,
    code: &Deployment,
    answer: Answer,
) -> Result<bool, AllocError>
    ensures goes { (g : Begun) → run.old.at ≡ at.Begins g → IfOk result (λ b. (mark : Option Mark) → followed run.new (plain_output mark b) ≡ goes_to code.now run.old (takes code.now g.machine g.tx answer) g.caller mark) }
    ensures id { run.new.id ≡ run.old.id }
{
    let RunAt::Begins(begun) = &mut run.at else {
        drop(answer);
        return Ok(true);
    };
    take(alloc, begun, code, answer)?;
    go_to(alloc, begun, code, &run.id)
}

/// The row that the run's walk looks at next, past the first row of its item, and the place whose entry it looks for there; None where it
/// makes no walk, or is at the first row.
pub fn walking(alloc: Global, run: &Run) -> Result<Option<Walking>, AllocError>
    ensures { IfOk result (λ w. w ≡ past_first (walking_of run.now)) }
{
    match &run.at {
        RunAt::Begins(begun) => stage_walk(alloc, &run.id, run.func, begun),
        _ => Ok(None),
    }
}

/// Whether the run's walk may be past the first row of an item: where it is not, `walking` is none.
pub fn may_stride(run: &Run) -> bool {
    match &run.at {
        RunAt::Begins(begun) => may_walk(&begun.stage),
        _ => false,
    }
}

/// Sets the run's walk to the row of this number, as turns along the rows before that one do.
pub fn walk_to(run: &mut Run, row: u32)
    ensures walked { run.new ≡ walked row run.old }
    ensures id { run.new.id ≡ run.old.id }
{
    if let RunAt::Begins(begun) = &mut run.at {
        set_row(&mut begun.stage, row);
    }
}
