// Settling: each live run is given turns until all that are left wait, and an intent that has no run is given one.
ghost use Rattle.std.specs.Prelude.{◌≡◌, ◌<◌, ◌≤◌, ◌+◌, ◌++◌, ◌∷◌, [], true, ℕ, List, Option, IfOk, IfSome, OnOk, flat_map};
ghost use Rattle.beldi_host.specs.HostCore.{core_of};
ghost use Rattle.beldi_host.specs.HostStride.{Strides};
ghost use Rattle.beldi_step.specs.HostStep.{most_events};
ghost use Rattle.beldi_host.specs.HostInvariant.{IsWhole};
ghost use Rattle.beldi_step.specs.declared.event.Event.TheVariants as event;
ghost use Rattle.beldi_schedule.specs.Settle.{HasTurns, WasTaken, first_at, go_on, next_of, restless, on_turn_reply, turns_in};
ghost use Rattle.beldi_schedule.specs.declared.machine.At.{At};
ghost use Rattle.beldi_schedule.specs.declared.machine.Next.TheVariants.{Turn, Collect};
ghost use Rattle.beldi_schedule.specs.declared.machine.Standing.TheVariants.{Working, Over};
ghost use Rattle.beldi_upkeep.specs.Checked.{StartsAreOfIt};
ghost use Rattle.beldi_book.specs.declared.entry.Entry.{Entry};
ghost use Rattle.beldi_joined.specs.Joined.{IsWholeAfter, joined};
ghost use Rattle.beldi_session.specs.Script.{Action, Settle};
ghost use Rattle.beldi_session.specs.Session.{Does, DoesTo, left_by, sight};
ghost use Rattle.beldi_session.specs.Settling.{Collected, WasAnswered, KeepsPromises, KeepsPromisesAfter, Led};
ghost use Rattle.beldi_session.specs.Settled.{settled_text, wait_text};

use crate::answer::{write_answer, write_numbered, write_reply_told};
use crate::session::{Stop, appended};
use beldi_bound::settlings_are_as_promised;
use beldi_check::Checked;
use beldi_host::{Host, TurnReply};
use beldi_joined::settlings_after_sessions_are_as_promised;
use beldi_row::Table;
use beldi_schedule::{
    At, Next, Settled, Standing, Waits, begun, first_at, go_on, on_ic_reply, on_turn_reply, strode,
    unparked,
};
use beldi_step::{Event, EventReply};
use beldi_value::TextBuf;
use std::alloc::{AllocError, Global};
use std::mem::forget;

// All live runs wait: they are given turns again where a turn was counted meanwhile.
fn restless<T: Table>(host: &Host<T>, at: At) -> Next
    ensures next { result ≡ restless (core_of host.now) at }
    ensures turns { turns_in result ≡ at.turns }
{
    if at.moved && !at.waiting.is_empty() {
        match host.next_run(0) {
            Some(run) => Next::Turn(unparked(at), run),
            None => Next::Reset(at),
        }
    } else {
        Next::Reset(at)
    }
}

fn next_of<T: Table>(host: &Host<T>, at: At) -> Next
    ensures next { result ≡ next_of (core_of host.now) at }
    ensures turns { turns_in result ≡ at.turns }
{
    match at.round {
        Some(_) => Next::Collect(at),
        None => match host.next_run(at.past) {
            Some(run) => Next::Turn(at, run),
            None => restless(host, at),
        },
    }
}

// ---- events
// Gives a run a turn, and appends the line of a reply.
fn give_turn<T: Table>(
    alloc: Global,
    host: &mut Host<T>,
    out: &mut TextBuf,
    budget: u64,
    at: At,
    run: u64,
) -> Result<Standing, Stop>
    requires { at.turns < budget }
    ensures does { (s : At) (held : Option (List ℕ)) (faults : ℕ) → next_of (core_of host.old) s ≡ Turn at run → DoesTo (Settle budget (Working s) ∷ []) (left_by budget result) (sight host.old out.old held faults) (sight host.new out.new held faults) result }
    ensures turns { IfOk result (λ next. HasTurns budget next) }
    ensures taken { IfOk result (λ next. WasTaken (core_of host.old) (core_of host.new) next) }
    ensures heard { IfOk result (λ next. WasAnswered host.old.code (event.Turn run) (λ c x. on_turn_reply budget at run x) (core_of host.old) (core_of host.new) (T.state host.old.table) (T.state host.new.table) next) }
{
    // It owns nothing, and is as it is where nothing is told apart.
    let mut told = EventReply::Shut;
    match host.turn(run, &mut told) {
        Ok(TurnReply::Made(_)) => {
            forget(told);
            Ok(strode(budget, at, 1))
        }
        Ok(said) => {
            let seen = said.into_reply(told);
            match write_reply_told(alloc, &seen, out) {
                Ok(()) => match on_turn_reply(budget, at, run, seen) {
                    Ok(next) => Ok(next),
                    Err(_) => Err(Stop::OutOfMemory),
                },
                Err(_) => {
                    drop(seen);
                    Err(Stop::OutOfMemory)
                }
            }
        }
        Err(_) => {
            drop(told);
            Err(Stop::OutOfMemory)
        }
    }
}

// Gives a run a turn, or, where its walk goes over many rows at once, as many.
fn give_turns<T: Table>(
    alloc: Global,
    host: &mut Host<T>,
    out: &mut TextBuf,
    budget: u64,
    at: At,
    run: u64,
    at_last: bool,
) -> Result<Standing, Stop>
    requires { at.turns < budget }
    ensures does { (s : At) (held : Option (List ℕ)) (faults : ℕ) → next_of (core_of host.old) s ≡ Turn at run → DoesTo (Settle budget (Working s) ∷ []) (left_by budget result) (sight host.old out.old held faults) (sight host.new out.new held faults) result }
    ensures turns { IfOk result (λ next. HasTurns budget next) }
    ensures taken { IfOk result (λ next. WasTaken (core_of host.old) (core_of host.new) next) }
    ensures led { (s : At) → next_of (core_of host.old) s ≡ Turn at run → IfOk result (λ next. Led host.old.code budget (Working s) next (core_of host.old) (core_of host.new) (T.state host.old.table) (T.state host.new.table)) }
{
    match stride(host, run, budget - at.turns, at_last) {
        0 => give_turn(alloc, host, out, budget, at, run),
        turns => Ok(strode(budget, at, turns)),
    }
}

// Sets a run that walks forward over many rows at once. Not where that was done just now: then it is at the last of them.
fn stride<T: Table>(host: &mut Host<T>, run: u64, most: u64, at_last: bool) -> u64
    ensures strides { 0 < result → IfSome (T.state host.old.table).rows (Strides host.old.code (T.state host.old.table).room (T.state host.old.table).faults run result (core_of host.old) (core_of host.new)) }
    ensures most { result ≤ most }
    ensures taken { (core_of host.new).taken ≡ (core_of host.old).taken + result }
    ensures few { 0 < result → (core_of host.new).taken ≤ most_events }
    ensures none { result ≡ 0 → host.new ≡ host.old }
    ensures table { host.new.table ≡ host.old.table }
    ensures code { host.new.code ≡ host.old.code }
{
    if at_last {
        return 0;
    }
    host.stride(run, most)
}

// Sets the intent collector past rows that are of no open intent, and gives it a turn.
fn collect<T: Table>(host: &mut Host<T>, budget: u64, at: At) -> Result<Standing, Stop>
    requires { at.turns < budget }
    ensures does { (s : At) (text : List ℕ) (held : Option (List ℕ)) (faults : ℕ) → next_of (core_of host.old) s ≡ Collect at → DoesTo (Settle budget (Working s) ∷ []) (left_by budget result) (sight host.old text held faults) (sight host.new text held faults) result }
    ensures turns { IfOk result (λ next. HasTurns budget next) }
    ensures taken { IfOk result (λ next. WasTaken (core_of host.old) (core_of host.new) next) }
    ensures collected { IfOk result (λ next. Collected host.old.code budget at (core_of host.old) (core_of host.new) (T.state host.old.table) (T.state host.new.table) next) }
{
    host.ic_skip();
    match host.event(Event::Ic) {
        Ok(seen) => {
            let next = on_ic_reply(budget, at, &seen, host.next_run(0));
            drop(seen);
            Ok(next)
        }
        Err(_) => Err(Stop::OutOfMemory),
    }
}

// One event, and what is done before it; `at_last` says that a run went over many rows at once just now.
fn advance<T: Table>(
    alloc: Global,
    host: &mut Host<T>,
    out: &mut TextBuf,
    budget: u64,
    at: At,
    at_last: bool,
) -> Result<Standing, Stop>
    requires { at.turns < budget }
    ensures does { (held : Option (List ℕ)) (faults : ℕ) → DoesTo (Settle budget (Working at) ∷ []) (left_by budget result) (sight host.old out.old held faults) (sight host.new out.new held faults) result }
    ensures turns { IfOk result (λ next. HasTurns budget next) }
    ensures taken { IfOk result (λ next. WasTaken (core_of host.old) (core_of host.new) next) }
    ensures led { IfOk result (λ next. Led host.old.code budget (Working at) next (core_of host.old) (core_of host.new) (T.state host.old.table) (T.state host.new.table)) }
{
    match next_of(host, at) {
        Next::Turn(at, run) => give_turns(alloc, host, out, budget, at, run, at_last),
        Next::Collect(at) => collect(host, budget, at),
        Next::Reset(at) => {
            host.ic_reset();
            collect(host, budget, begun(at))
        }
    }
}

// Whether a settling that had counted so many turns has counted more than one since, as where a run went over many rows at once.
fn counted_more(turns: u64, next: &Standing) -> bool {
    match next {
        Standing::Working(at) => at.turns.saturating_sub(turns) > 1,
        Standing::Over(_) => false,
    }
}

// Appends how a settling ended.
fn write_settled(
    alloc: Global,
    code: &Checked,
    settled: &Settled,
    out: &mut TextBuf,
) -> Result<(), AllocError>
    ensures { OnOk result (out.new ≡ out.old ++ settled_text code.now settled.now) }
{
    match settled {
        Settled::All(turns) => write_numbered("settled ", *turns, out),
        Settled::Unsettled(turns) => write_numbered("unsettled ", *turns, out),
        Settled::Spent(turns) => write_numbered("spent ", *turns, out),
        Settled::Shut(turns) => write_numbered("shut ", *turns, out),
        Settled::Stuck { turns, waiting } => {
            write_numbered("stuck ", *turns, out)?;
            write_waits(alloc, code, waiting, out)
        }
    }
}

fn write_waits(
    alloc: Global,
    code: &Checked,
    waiting: &Waits,
    out: &mut TextBuf,
) -> Result<(), AllocError>
    ensures { OnOk result (out.new ≡ out.old ++ flat_map (wait_text code.now) waiting.now) }
{
    for (run, seen) in waiting.as_slice().iter() {
        out.push_text("run ")?;
        out.push_number(*run)?;
        out.push_text(" ")?;
        write_answer(alloc, code, seen, out)?;
    }
    Ok(())
}

fn tell_settled<T: Table>(
    alloc: Global,
    host: &Host<T>,
    out: &mut TextBuf,
    budget: u64,
    settled: &Settled,
) -> Result<(), Stop>
    ensures { (held : Option (List ℕ)) (faults : ℕ) → Does (Settle budget (Over settled.now) ∷ []) (sight host.now out.old held faults) (sight host.now out.new held faults) result }
{
    appended(write_settled(alloc, host.code(), settled, out))
}

/// Gives turns until all live runs wait or are over, at most the budget, and appends the lines of replies and of how it ended. Of a host
/// with the invariant, of whose rows no log collector changed one and whose book starts functions of its deployment alone, it keeps its promises: its turns are at most
/// the work, it is settled only where all have ended, and stuck only with a cause, and with a budget above the work what can end ends. So it
/// does of one that has the invariant behind the book of sessions that left its rows, by their book and its own.
pub fn settle<T: Table>(
    alloc: Global,
    host: &mut Host<T>,
    out: &mut TextBuf,
    budget: u64,
) -> Result<Settled, Stop>
    ensures does { (held : Option (List ℕ)) (faults : ℕ) → Does (Settle budget (go_on budget first_at) ∷ []) (sight host.old out.old held faults) (sight host.new out.new held faults) result }
    ensures promises { IsWhole host.old → StartsAreOfIt host.old.code (core_of host.old).book → IfOk result (λ x. KeepsPromises host.old.code budget (core_of host.old) (core_of host.new) (T.state host.old.table) (T.state host.new.table) x) }
    ensures joins { (base : List Entry) → IsWholeAfter base host.old → StartsAreOfIt host.old.code (joined base (core_of host.old).book) → IfOk result (λ x. KeepsPromisesAfter base host.old.code budget (core_of host.old) (core_of host.new) (T.state host.old.table) (T.state host.new.table) x) }
{
    settlings_are_as_promised();
    settlings_after_sessions_are_as_promised();
    host.keeps_rules();
    let mut standing = go_on(budget, first_at(alloc));
    let mut at_last = false;
    loop {
        match standing {
            Standing::Working(at) => {
                let turns = at.turns;
                match advance(alloc, host, out, budget, at, at_last) {
                    Ok(next) => {
                        at_last = counted_more(turns, &next);
                        standing = next;
                    }
                    Err(stop) => return Err(stop),
                }
            }
            Standing::Over(settled) => {
                return match tell_settled(alloc, host, out, budget, &settled) {
                    Ok(()) => Ok(settled),
                    Err(stop) => {
                        drop(settled);
                        Err(stop)
                    }
                };
            }
        }
    }
}
