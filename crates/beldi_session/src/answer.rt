// The text of an answer. Out of memory, a part of what is appended may be there, as of all texts here.
ghost use Rattle.std.specs.Prelude.{◌≡◌, ◌++◌, None, OnOk, codes};
ghost use Rattle.std.specs.Fmt.{decimal};
ghost use Rattle.beldi_session.specs.Answer.{answer_text, numbered, bound_line, held_line, waits_line, launched_line, outcome_line, entry_part, run_part, reply_part, reply_told};
ghost use Rattle.beldi_session.specs.HostResponse.{reply_line};
ghost use Rattle.beldi_core.specs.PlannedEvent.{declined_reply};
ghost use Rattle.beldi_tree.specs.declared.deployment.Deployment.{Deployment};

use beldi_book::Entry;
use beldi_check::Checked;
use beldi_host::{Declined, ReplyStatus};
use beldi_step::EventReply;
use beldi_value::{Boxed, IntentId, Outcome, Owner, TextBuf, Value};
use std::alloc::{AllocError, Global};

/// Appends the line of an answer, and a line for the reply that it gives, if any.
pub fn write_answer(
    alloc: Global,
    code: &Checked,
    seen: &EventReply,
    out: &mut TextBuf,
) -> Result<(), AllocError>
    ensures { OnOk result (out.new ≡ out.old ++ answer_text code.now seen.now) }
{
    match seen {
        EventReply::Issued(ticket) => write_numbered("ticket ", u64::from(*ticket), out),
        EventReply::NoTicket => out.push_text("no-ticket\n"),
        EventReply::Bound { ticket, run } => write_bound(*ticket, *run, out),
        EventReply::Running(ticket) => write_numbered("running ", u64::from(*ticket), out),
        EventReply::Replied { ticket, outcome } => write_outcome(
            alloc, "ended ", *ticket, outcome, out,
        ),
        EventReply::Other { ticket, func, args } => write_other(
            alloc, code, *ticket, *func, args, out,
        ),
        EventReply::Gone(ticket) => write_numbered("gone ", u64::from(*ticket), out),
        EventReply::Unknown(ticket) => write_numbered("unknown ", u64::from(*ticket), out),
        EventReply::Acted {
            entry,
            started,
            over,
            reply,
        } => write_acted(alloc, code, entry, *started, *over, reply, out),
        EventReply::Held(owner) => write_held(owner.get(), out),
        EventReply::NotYet(id) => write_waits(id.get(), out),
        EventReply::Full { live, room } => write_full(*live, *room, out),
        EventReply::Worn => out.push_text("worn\n"),
        EventReply::Crowded => out.push_text("crowded 1024\n"),
        EventReply::Expired => out.push_text("expired\n"),
        EventReply::NoRun => out.push_text("no-run\n"),
        EventReply::RunOver => out.push_text("run-over\n"),
        EventReply::Dropped => out.push_text("dropped\n"),
        EventReply::Crashed => out.push_text("crashed\n"),
        EventReply::Started(run) => write_numbered("run ", *run, out),
        EventReply::Passed => out.push_text("passed\n"),
        EventReply::Launched { run, id } => write_launched(*run, id, out),
        EventReply::Round => out.push_text("round\n"),
        EventReply::Now(moment) => write_numbered("now ", *moment, out),
        EventReply::ClockEnd => out.push_text("clock-end\n"),
        EventReply::Halted => out.push_text("halted\n"),
        EventReply::Shut => out.push_text("shut\n"),
        EventReply::Spent => out.push_text("spent\n"),
    }
}

/// Appends the line of a turn that is not made.
pub fn write_declined(seen: Declined, out: &mut TextBuf) -> Result<(), AllocError>
    ensures { (d : Deployment) → OnOk result (out.new ≡ out.old ++ answer_text d (declined_reply seen)) }
{
    match seen {
        Declined::Spent => out.push_text("spent\n"),
        Declined::Expired => out.push_text("expired\n"),
        Declined::NoRun => out.push_text("no-run\n"),
        Declined::RunOver => out.push_text("run-over\n"),
        Declined::Shut => out.push_text("shut\n"),
    }
}

/// Appends the line of a turn that tells no more than whether its run is over.
pub fn write_plain(over: bool, out: &mut TextBuf) -> Result<(), AllocError>
    ensures { (d : Deployment) → OnOk result (out.new ≡ out.old ++ answer_text d (EventReply.Acted None None over None)) }
{
    out.push_text(if over { "acted over\n" } else { "acted\n" })
}

fn write_bound(ticket: u32, run: u64, out: &mut TextBuf) -> Result<(), AllocError>
    ensures { OnOk result (out.new ≡ out.old ++ bound_line ticket run) }
{
    out.push_text("bound ")?;
    out.push_number(u64::from(ticket))?;
    write_numbered(" run ", run, out)
}

/// Appends a word and a number, as a line.
pub fn write_numbered(word: &str, number: u64, out: &mut TextBuf) -> Result<(), AllocError>
    ensures { OnOk result (out.new ≡ out.old ++ numbered word.now number) }
{
    out.push_text(word)?;
    out.push_number(number)?;
    out.push_text("\n")
}

fn write_outcome(
    alloc: Global,
    word: &str,
    ticket: u32,
    outcome: &Outcome,
    out: &mut TextBuf,
) -> Result<(), AllocError>
    ensures { OnOk result (out.new ≡ out.old ++ outcome_line word.now ticket outcome.now) }
{
    out.push_text(word)?;
    out.push_number(u64::from(ticket))?;
    out.push_text(" ")?;
    outcome.write(alloc, out)?;
    out.push_text("\n")
}

// Appends the line of a ticket that was bound otherwise: its function and arguments.
fn write_other(
    alloc: Global,
    code: &Checked,
    ticket: u32,
    func: u16,
    args: &Value,
    out: &mut TextBuf,
) -> Result<(), AllocError>
    ensures { OnOk result (out.new ≡ out.old ++ answer_text code.now (EventReply.Other ticket func args.now)) }
{
    out.push_text("other ")?;
    out.push_number(u64::from(ticket))?;
    out.push_text(" ")?;
    code.code().write_func(func, out)?;
    out.push_text(" ")?;
    args.write_json(alloc, out)?;
    out.push_text("\n")
}

fn write_full(live: u32, room: u32, out: &mut TextBuf) -> Result<(), AllocError>
    ensures { OnOk result (out.new ≡ out.old ++ (codes "full " ++ (decimal live ++ (codes " " ++ (decimal room ++ codes "\n"))))) }
{
    out.push_text("full ")?;
    out.push_number(u64::from(live))?;
    write_numbered(" ", u64::from(room), out)
}

fn write_held(owner: &Owner, out: &mut TextBuf) -> Result<(), AllocError>
    ensures { OnOk result (out.new ≡ out.old ++ held_line owner.now) }
{
    out.push_text("held ")?;
    owner.write(out)?;
    out.push_text("\n")
}

fn write_waits(callee: &IntentId, out: &mut TextBuf) -> Result<(), AllocError>
    ensures { OnOk result (out.new ≡ out.old ++ waits_line callee.now) }
{
    out.push_text("waits ")?;
    callee.write(out)?;
    out.push_text("\n")
}

fn write_launched(run: u64, id: &IntentId, out: &mut TextBuf) -> Result<(), AllocError>
    ensures { OnOk result (out.new ≡ out.old ++ launched_line run id.now) }
{
    out.push_text("launched run ")?;
    out.push_number(run)?;
    out.push_text(" ")?;
    id.write(out)?;
    out.push_text("\n")
}

fn write_acted(
    alloc: Global,
    code: &Checked,
    entry: &Option<Entry>,
    started: Option<u64>,
    over: bool,
    reply: &Option<(u32, Boxed<Outcome>)>,
    out: &mut TextBuf,
) -> Result<(), AllocError>
    ensures { OnOk result (out.new ≡ out.old ++ answer_text code.now (EventReply.Acted entry.now started over reply.now)) }
{
    write_entry(alloc, code, entry, out)?;
    write_started(started, out)?;
    out.push_text(if over { " over\n" } else { "\n" })?;
    write_reply(alloc, reply, out)
}

// Appends that a turn was made, and its entry.
fn write_entry(
    alloc: Global,
    code: &Checked,
    entry: &Option<Entry>,
    out: &mut TextBuf,
) -> Result<(), AllocError>
    ensures { OnOk result (out.new ≡ out.old ++ (codes "acted" ++ entry_part code.now entry.now)) }
{
    match entry {
        None => out.push_text("acted"),
        Some(entry) => {
            out.push_text("acted ")?;
            entry.write(alloc, code.code(), out)
        }
    }
}

fn write_started(started: Option<u64>, out: &mut TextBuf) -> Result<(), AllocError>
    ensures { OnOk result (out.new ≡ out.old ++ run_part started) }
{
    match started {
        None => Ok(()),
        Some(run) => {
            out.push_text(" run ")?;
            out.push_number(run)
        }
    }
}

fn write_reply(
    alloc: Global,
    reply: &Option<(u32, Boxed<Outcome>)>,
    out: &mut TextBuf,
) -> Result<(), AllocError>
    ensures { OnOk result (out.new ≡ out.old ++ reply_part reply.now) }
{
    match reply {
        None => Ok(()),
        Some((ticket, outcome)) => write_outcome(alloc, "reply ", *ticket, outcome.get(), out),
    }
}

/// Appends the line of the reply that an answer gives, if any.
pub fn write_reply_told(
    alloc: Global,
    seen: &EventReply,
    out: &mut TextBuf,
) -> Result<(), AllocError>
    ensures { OnOk result (out.new ≡ out.old ++ reply_told seen.now) }
{
    match seen {
        EventReply::Acted { reply, .. } => write_reply(alloc, reply, out),
        _ => Ok(()),
    }
}

/// Appends the line of what a ticket's run gave.
pub fn write_reply_status(
    alloc: Global,
    ticket: u32,
    seen: &ReplyStatus,
    out: &mut TextBuf,
) -> Result<(), AllocError>
    ensures { OnOk result (out.new ≡ out.old ++ reply_line ticket seen.now) }
{
    match seen {
        ReplyStatus::Unknown => write_no_reply(ticket, " unknown\n", out),
        ReplyStatus::Gone => write_no_reply(ticket, " gone\n", out),
        ReplyStatus::Waiting => write_no_reply(ticket, " waiting\n", out),
        ReplyStatus::Reply(outcome) => write_outcome(alloc, "reply ", ticket, outcome, out),
    }
}

fn write_no_reply(ticket: u32, why: &str, out: &mut TextBuf) -> Result<(), AllocError>
    ensures { OnOk result (out.new ≡ out.old ++ (codes "reply " ++ (decimal ticket ++ why.now))) }
{
    out.push_text("reply ")?;
    out.push_number(u64::from(ticket))?;
    out.push_text(why)
}
