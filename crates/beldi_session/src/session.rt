// A session: the lines of a script, carried out one after another.
ghost use Rattle.std.specs.Prelude.{◌≡◌, ◌∷◌, ◌++◌, [], ℕ, List, Option, IfOk, OnOk, true};
ghost use Rattle.beldi_script.specs.LineCut.{lines_of};
ghost use Rattle.beldi_schedule.specs.Settle.{first_at, go_on};
ghost use Rattle.beldi_step.specs.declared.event.Event.TheVariants as events;
ghost use Rattle.beldi_session.specs.Script.{Carry, Settle, TellReply, CountRows, ListTables, ListBook, actions_of, actions_in, and_then, is_ok, is_whole, times, turn_of, sweep_at};
ghost use Rattle.beldi_book.specs.BookText.{book_text};
ghost use Rattle.beldi_session.specs.HostResponse.{BookIs, report_text};
ghost use Rattle.beldi_session.specs.Session.{Does, by_done, by_text, sight};
ghost use Rattle.beldi_session.specs.Source.{numbered, said_at};

use crate::answer::{
    write_answer, write_declined, write_numbered, write_plain, write_reply_status,
};
use crate::output::{flush, flush_if_long};
use crate::refusal::{SourceErr, write_refusal};
use crate::settling::settle;
use crate::source::read_said;
use crate::sweeping::{prune, sweep};
use beldi_book::Book;
use beldi_check::Checked;
use beldi_host::{Host, OpenErr, TurnReply};
use beldi_outside::Sink;
use beldi_row::Table;
use beldi_script::{Line, cut_line};
use beldi_step::{Event, EventReply};
use beldi_value::TextBuf;
use std::alloc::{AllocError, Global};
use std::mem::forget;

/// Why a session broke off.
#[derive(Clone, Copy, Debug, PartialEq, Eq)]
pub enum Stop {
    /// Out of memory. The event that wanted it may be done in part; its text is lost.
    OutOfMemory,
    /// The sink failed, and its count of faults has risen. The actions up to then are done.
    SinkFault,
}

/// Who is given turns.
#[derive(Clone, Copy)]
pub enum Taker {
    /// The run of this number.
    Run(u32),
    /// The intent collector.
    IntentCollector,
    /// The log collector of this number.
    LogCollector(u8),
}

// The text of a response was appended, or memory ran out.
pub(crate) fn appended(wrote: Result<(), AllocError>) -> Result<(), Stop>
    ensures { result ≡ by_text wrote }
{
    match wrote {
        Ok(()) => Ok(()),
        Err(_) => Err(Stop::OutOfMemory),
    }
}

// Where all was done, whether the script goes on.
fn done(whole: bool, ran: Result<(), Stop>) -> Result<bool, Stop>
    ensures { result ≡ by_done whole ran }
{
    match ran {
        Ok(()) => Ok(whole),
        Err(stop) => Err(stop),
    }
}

// Carries out an event, and appends the text of its answer.
fn answer<T: Table>(
    alloc: Global,
    host: &mut Host<T>,
    out: &mut TextBuf,
    event: Event,
) -> Result<(), Stop>
    ensures { (held : Option (List ℕ)) (faults : ℕ) → Does (Carry event ∷ []) (sight host.old out.old held faults) (sight host.new out.new held faults) result }
{
    match host.event(event) {
        Ok(seen) => {
            let told = appended(write_answer(alloc, host.code(), &seen, out));
            drop(seen);
            told
        }
        Err(_) => Err(Stop::OutOfMemory),
    }
}

// Gives a run a turn, and appends the text of its answer.
fn answer_turn<T: Table>(
    alloc: Global,
    host: &mut Host<T>,
    out: &mut TextBuf,
    run: u64,
) -> Result<(), Stop>
    ensures { (held : Option (List ℕ)) (faults : ℕ) → Does (Carry (events.Turn run) ∷ []) (sight host.old out.old held faults) (sight host.new out.new held faults) result }
{
    // It owns nothing, and is as it is where nothing is told apart.
    let mut told = EventReply::Shut;
    match host.turn(run, &mut told) {
        Ok(TurnReply::Made(over)) => {
            forget(told);
            appended(write_plain(over, out))
        }
        Ok(TurnReply::Declined(why)) => {
            forget(told);
            appended(write_declined(why, out))
        }
        Ok(TurnReply::Told) => {
            let wrote = appended(write_answer(alloc, host.code(), &told, out));
            drop(told);
            wrote
        }
        Err(_) => {
            drop(told);
            Err(Stop::OutOfMemory)
        }
    }
}

// Gives one turn, and appends the text of its answer.
fn give_turn<T: Table>(
    alloc: Global,
    host: &mut Host<T>,
    out: &mut TextBuf,
    taker: Taker,
) -> Result<(), Stop>
    ensures { (held : Option (List ℕ)) (faults : ℕ) → Does (turn_of taker ∷ []) (sight host.old out.old held faults) (sight host.new out.new held faults) result }
{
    match taker {
        Taker::Run(run) => answer_turn(alloc, host, out, u64::from(run)),
        Taker::IntentCollector => answer(alloc, host, out, Event::Ic),
        Taker::LogCollector(number) => prune(host, out, number),
    }
}

// Gives so many turns, and appends the text of the answers.
fn give_turns<T: Table>(
    alloc: Global,
    host: &mut Host<T>,
    out: &mut TextBuf,
    taker: Taker,
    count: u32,
) -> Result<(), Stop>
    ensures { (held : Option (List ℕ)) (faults : ℕ) → Does (times count (turn_of taker)) (sight host.old out.old held faults) (sight host.new out.new held faults) result }
{
    for turn in 0..count {
        match give_turn(alloc, host, out, taker) {
            Ok(()) => {}
            Err(stop) => return Err(stop),
        }
    }
    Ok(())
}

// Appends what a ticket's run gave; one line in its place where the table failed.
fn tell_reply<T: Table>(
    alloc: Global,
    host: &mut Host<T>,
    out: &mut TextBuf,
    ticket: u32,
) -> Result<(), Stop>
    ensures { (held : Option (List ℕ)) (faults : ℕ) → Does (TellReply ticket ∷ []) (sight host.old out.old held faults) (sight host.new out.new held faults) result }
{
    match host.reply(ticket) {
        Ok(seen) => {
            let told = appended(write_reply_status(alloc, ticket, &seen, out));
            drop(seen);
            told
        }
        Err(OpenErr::Failed) => appended(out.push_text("dropped\n")),
        Err(OpenErr::OutOfMemory) => Err(Stop::OutOfMemory),
    }
}

// Appends how many rows there are.
fn count_rows<T: Table>(host: &mut Host<T>, out: &mut TextBuf) -> Result<(), Stop>
    ensures { (held : Option (List ℕ)) (faults : ℕ) → Does (CountRows ∷ []) (sight host.old out.old held faults) (sight host.new out.new held faults) result }
{
    appended(write_numbered("rows ", u64::from(host.rows()), out))
}

// Appends the listing of the tables; one line in place of its lines where the table failed.
fn list_tables<T: Table>(host: &mut Host<T>, out: &mut TextBuf) -> Result<(), Stop>
    ensures { (held : Option (List ℕ)) (faults : ℕ) → Does (ListTables ∷ []) (sight host.old out.old held faults) (sight host.new out.new held faults) result }
{
    match out.push_text("== tables\n") {
        Ok(()) => match host.tables(out) {
            Ok(()) => Ok(()),
            Err(OpenErr::Failed) => appended(out.push_text("dropped\n")),
            Err(OpenErr::OutOfMemory) => Err(Stop::OutOfMemory),
        },
        Err(_) => Err(Stop::OutOfMemory),
    }
}

// Appends the listing of the book.
fn list_book<T: Table>(alloc: Global, host: &mut Host<T>, out: &mut TextBuf) -> Result<(), Stop>
    ensures { (held : Option (List ℕ)) (faults : ℕ) → Does (ListBook ∷ []) (sight host.old out.old held faults) (sight host.new out.new held faults) result }
{
    appended(write_book(alloc, host.book(), host.code(), out))
}

fn write_book(
    alloc: Global,
    book: &Book,
    code: &Checked,
    out: &mut TextBuf,
) -> Result<(), AllocError>
    ensures { OnOk result (out.new ≡ out.old ++ report_text code.now (BookIs (book_text code.now book.now.entries))) }
{
    out.push_text("== book\n")?;
    book.write(alloc, code.code(), out)
}

// Settles, and appends the text of it.
fn settle_all<T: Table>(
    alloc: Global,
    host: &mut Host<T>,
    out: &mut TextBuf,
    budget: u64,
) -> Result<(), Stop>
    ensures { (held : Option (List ℕ)) (faults : ℕ) → Does (Settle budget (go_on budget first_at) ∷ []) (sight host.old out.old held faults) (sight host.new out.new held faults) result }
{
    match settle(alloc, host, out, budget) {
        Ok(settled) => {
            drop(settled);
            Ok(())
        }
        Err(stop) => Err(stop),
    }
}

// Sweeps, and appends the text of it.
fn sweep_all<T: Table>(
    host: &mut Host<T>,
    out: &mut TextBuf,
    number: u8,
    budget: u64,
) -> Result<(), Stop>
    ensures { (held : Option (List ℕ)) (faults : ℕ) → Does (sweep_at number budget 0 ∷ []) (sight host.old out.old held faults) (sight host.new out.new held faults) result }
{
    match sweep(host, out, number, budget) {
        Ok(_) => Ok(()),
        Err(stop) => Err(stop),
    }
}

// Does what a line says, and appends the text of what is said of it.
fn say<T: Table>(
    alloc: Global,
    host: &mut Host<T>,
    out: &mut TextBuf,
    line: Line,
) -> Result<(), Stop>
    ensures { (held : Option (List ℕ)) (faults : ℕ) → Does (actions_of line) (sight host.old out.old held faults) (sight host.new out.new held faults) result }
{
    match line {
        Line::Ticket => answer(alloc, host, out, Event::Ticket),
        Line::Request { ticket, func, args } => {
            answer(alloc, host, out, Event::Request { ticket, func, args })
        }
        Line::Turn { run, times } => give_turns(alloc, host, out, Taker::Run(run), times),
        Line::Lost { run } => answer(alloc, host, out, Event::Lost(u64::from(run))),
        Line::Crash { run } => answer(alloc, host, out, Event::Crash(u64::from(run))),
        Line::Restart { id, func } => answer(alloc, host, out, Event::Restart { id, func }),
        Line::Ic { times } => give_turns(alloc, host, out, Taker::IntentCollector, times),
        Line::Tick { by } => answer(alloc, host, out, Event::Tick(by)),
        Line::Reply { ticket } => tell_reply(alloc, host, out, ticket),
        Line::Rows => count_rows(host, out),
        Line::Tables => list_tables(host, out),
        Line::Book => list_book(alloc, host, out),
        Line::Blank => Ok(()),
        Line::Gc { k, times } => give_turns(alloc, host, out, Taker::LogCollector(k), times),
        Line::Sweep { k, budget } => sweep_all(host, out, k, budget),
        Line::Settle { budget } => settle_all(alloc, host, out, budget),
        Line::Halt => answer(alloc, host, out, Event::Halt),
    }
}

// Carries out the line of this number, and writes the text that waits where it is long. `false`: the line is refused, and its
// refusal appended.
fn do_line<K: Sink, T: Table>(
    alloc: Global,
    host: &mut Host<T>,
    sink: &mut K,
    waiting: &mut TextBuf,
    number: u32,
    line: &[u8],
) -> Result<bool, Stop>
    ensures does { Does (and_then (said_at host.old.code (number, line.now)) []) (sight host.old waiting.old (K.held sink.old) (K.faults sink.old)) (sight host.new waiting.new (K.held sink.new) (K.faults sink.new)) result }
    ensures whole { IfOk result (λ whole. is_ok (said_at host.old.code (number, line.now)) ≡ whole) }
{
    match read_said(alloc, host.code(), number, line) {
        Ok(said) => match say(alloc, host, waiting, said) {
            Ok(()) => done(true, flush_if_long(sink, waiting)),
            Err(stop) => Err(stop),
        },
        Err(SourceErr::Refused(refusal)) => {
            let told = done(false, appended(write_refusal(alloc, &refusal, waiting)));
            drop(refusal);
            told
        }
        Err(SourceErr::OutOfMemory) => Err(Stop::OutOfMemory),
    }
}

// Carries out the lines of a script, the first of which has this number in the source, up to a refused line or to the end,
// where the last listings follow. `false`: a line is refused.
fn do_lines<K: Sink, T: Table>(
    alloc: Global,
    host: &mut Host<T>,
    sink: &mut K,
    waiting: &mut TextBuf,
    first: u32,
    script: &[u8],
) -> Result<bool, Stop>
    ensures does { Does (actions_in host.old.code (numbered first (lines_of script.now))) (sight host.old waiting.old (K.held sink.old) (K.faults sink.old)) (sight host.new waiting.new (K.held sink.new) (K.faults sink.new)) result }
    ensures whole { IfOk result (λ whole. is_whole host.old.code (numbered first (lines_of script.now)) ≡ whole) }
{
    let mut number = first;
    let mut rest = script;
    while !rest.is_empty() {
        let (line, more) = cut_line(rest);
        match do_line(alloc, host, sink, waiting, number, line) {
            Ok(true) => {}
            Ok(false) => return Ok(false),
            Err(stop) => return Err(stop),
        }
        number = number.saturating_add(1);
        rest = more;
    }
    do_listings(alloc, host, sink, waiting)
}

// Lists the tables, and then the book.
fn do_listings<K: Sink, T: Table>(
    alloc: Global,
    host: &mut Host<T>,
    sink: &mut K,
    waiting: &mut TextBuf,
) -> Result<bool, Stop>
    ensures does { Does (ListTables ∷ ListBook ∷ []) (sight host.old waiting.old (K.held sink.old) (K.faults sink.old)) (sight host.new waiting.new (K.held sink.new) (K.faults sink.new)) result }
    ensures whole { IfOk result (λ whole. whole ≡ true) }
{
    match list_tables(host, waiting) {
        Ok(()) => match flush_if_long(sink, waiting) {
            Ok(()) => done(true, list_book(alloc, host, waiting)),
            Err(stop) => Err(stop),
        },
        Err(stop) => Err(stop),
    }
}

/// Lists the tables and then the book, and writes all text.
pub fn write_listings<K: Sink, T: Table>(
    alloc: Global,
    host: &mut Host<T>,
    sink: &mut K,
    waiting: &mut TextBuf,
) -> Result<(), Stop>
    ensures does { Does (ListTables ∷ ListBook ∷ []) (sight host.old waiting.old (K.held sink.old) (K.faults sink.old)) (sight host.new waiting.new (K.held sink.new) (K.faults sink.new)) result }
    ensures empty { OnOk result (waiting.new ≡ []) }
{
    match do_listings(alloc, host, sink, waiting) {
        Ok(_) => flush(sink, waiting),
        Err(stop) => Err(stop),
    }
}

/// Carries out a script, the first line of which has this number in the source, and writes all text. `false`: a line is
/// refused; its refusal is written, and the lines after it are not read.
pub fn run_script<K: Sink, T: Table>(
    alloc: Global,
    host: &mut Host<T>,
    sink: &mut K,
    waiting: &mut TextBuf,
    first: u32,
    script: &[u8],
) -> Result<bool, Stop>
    ensures does { Does (actions_in host.old.code (numbered first (lines_of script.now))) (sight host.old waiting.old (K.held sink.old) (K.faults sink.old)) (sight host.new waiting.new (K.held sink.new) (K.faults sink.new)) result }
    ensures whole { IfOk result (λ whole. is_whole host.old.code (numbered first (lines_of script.now)) ≡ whole) }
    ensures empty { OnOk result (waiting.new ≡ []) }
{
    match do_lines(alloc, host, sink, waiting, first, script) {
        Ok(whole) => done(whole, flush(sink, waiting)),
        Err(stop) => Err(stop),
    }
}
