// The program, over a source, a sink, a table, a link and a clock.
ghost use Rattle.std.specs.Prelude.{◌≡◌, ◌≤◌, ◌⊎◌, ℕ, true, false, length, None, Some};
ghost use Rattle.std.specs.FinMap as map;
ghost use Rattle.beldi_outside.specs.Outside.{Observed, Rose, max_source};
ghost use Rattle.beldi_script.specs.LineCut.{lines_of};
ghost use Rattle.beldi_command.specs.CommandLine.{command_of};
ghost use Rattle.beldi_generator.specs.Summary.{summary_text};
ghost use Rattle.beldi_command.specs.declared.command.Command.TheVariants as commands;
ghost use Rattle.beldi_session.specs.Check.{check_at};
ghost use Rattle.beldi_session.specs.Refusal.{refusal_text};
ghost use Rattle.beldi_session.specs.Source.{numbered, source_at};
ghost use Rattle.beldi_program.specs.Balances.{ToldBalanced};
ghost use Rattle.beldi_program.specs.Service.{listed_end, served_end};
ghost use Rattle.beldi_program.specs.Serves.{Lists, ServesHost};
ghost use Rattle.beldi_program.specs.Headline.{ByStatus, CheckEnds, CommandEnds, DoneBy, Ends, GeneratedEnds, HasEnded, LongOn, ServeEnds, ServiceEnds, Serving, SessionEnds, SourceCommandEnds, SourceEnds, SummedUp, TextEnds, Untouched, WordsAsRead, end_of, is_whole_asked, reads, reads_source, serves, status_of, unread_by, usage};
ghost use Rattle.beldi_program.specs.declared.program.Ended.TheVariants as ended;

use crate::laws::sessions_are_plain_runs;
use beldi_check::Checked;
use beldi_command::{Command, read_command};
use beldi_generator::{generate, summarise};
use beldi_host::{Host, OpenErr};
use beldi_outside::{Clock, Link, MemSink, ReadErr, Sink, Source, read_all, write_all};
use beldi_row::Table;
use beldi_serve::{HostDesk, ServeErr, moment_of, serve};
use beldi_session::{
    Accepted, Refusal, SourceErr, Stop, check_source, find_line, read_source, run_script,
    script_at, write_listings, write_refusal,
};
use beldi_value::{Str, TextBuf};
use std::alloc::Global;

/// How the program ended.
#[derive(Clone, Copy, Debug, PartialEq, Eq)]
pub enum Ended {
    /// All lines were carried out, or all connections served, and the last listings written; or the source was tested, and has no fault.
    Done,
    /// Out of memory.
    OutOfMemory,
    /// The words are not those of a command.
    Usage,
    /// The source failed, and its count of faults has risen. Nothing was done or written.
    SourceFault,
    /// The sink failed, and its count of faults has risen.
    SinkFault,
    /// The deployment was refused, or a line of the script. A source that is tested is refused before anything is said.
    Refused,
    /// The link refused to listen, or gave no further connection, and its count of refusals has risen.
    LinkRefused,
    /// The source has more than 16,777,216 bytes. Nothing was done or written.
    TooLong,
    /// The table failed as the host was opened, and its count has risen. Nothing was done or written.
    TableFault,
}

/// Carries out what the words ask for, and answers the status. Gives back the table, whatever the status is.
pub fn top<S: Source, K: Sink, T: Table, N: Link, C: Clock>(
    alloc: Global,
    words: &[Str],
    source: &mut S,
    sink: &mut K,
    table: T,
    link: &mut N,
    clock: &mut C,
) -> (u8, T)
    // The status tells how the program ended: by it the cause, and what is left of source, sink and table. The text is that of
    // a session of the source. Over a table without rows this session is a run without crashes of exactly the requests that
    // were answered bound, and the replies, the tables and the rows are those of that run. A field of its own says how the host
    // moved to it (`Hosted`).
    ensures session { ByStatus result.0 (λ e. Ends S.left S.faults K.held K.faults T.state (Serving K.held K.faults T.state C.tells (N.seen link.old) (N.seen link.new) clock.old (Rose (N.refusals link.old) (N.refusals link.new))) (command_of words.now) source.old source.new sink.old sink.new table result.1 e) }
    // Only to serve the link and the clock are asked for something.
    ensures unasked { serves (command_of words.now) ≡ false → (link.new ≡ link.old) × (clock.new ≡ clock.old) }
    ensures refusal { result.0 ≡ 6 → Rose (N.refusals link.old) (N.refusals link.new) }
    ensures usage { (result.0 ≡ 2 → command_of words.now ≡ None) × (command_of words.now ≡ None → (result.0 ≡ 2) ⊎ (result.0 ≡ 4) ⊎ (result.0 ≡ 1)) }
    ensures source_fault { result.0 ≡ 3 → Rose (S.faults source.old) (S.faults source.new) }
    ensures sink_fault { result.0 ≡ 4 → Rose (K.faults sink.old) (K.faults sink.new) }
    ensures open_fault { result.0 ≡ 8 → Rose (T.state table).faults (T.state result.1).faults }
    ensures too_long { reads_source (command_of words.now) ≡ true → ByStatus result.0 (λ e. Observed (S.left source.old) (S.left source.new) (λ b c. LongOn b c e)) }
    // Only a source that is not refused is carried out whole, and only one that is refused is answered so.
    ensures refused { reads_source (command_of words.now) ≡ true → ByStatus result.0 (λ e. WordsAsRead (command_of words.now) (S.left source.old) e) }
    // Where the words are those of a command that reads the source, neither the source nor the sink fails, and the link refuses
    // nothing, a source that is not refused is carried out whole, or the table failed as the host was opened, or memory ran out.
    ensures complete { reads_source (command_of words.now) ≡ true → (Rose (S.faults source.old) (S.faults source.new) → ⊥) → (Rose (K.faults sink.old) (K.faults sink.new) → ⊥) → (Rose (N.refusals link.old) (N.refusals link.new) → ⊥) → Observed (S.left source.old) (S.left source.new) (λ b c. length b ≤ max_source → is_whole_asked (command_of words.now) b ≡ true → (result.0 ≡ 0) ⊎ (result.0 ≡ 1) ⊎ (result.0 ≡ 8)) }
    // Other words and generated work leave the source, and other words the table.
    ensures unread { (reads_source (command_of words.now) ≡ false → source.new ≡ source.old) × (command_of words.now ≡ None → result.1 ≡ table) }
    // To test a source leaves the table as it was handed in.
    ensures tested { command_of words.now ≡ Some commands.Check → result.1 ≡ table }
    // What is told of generated work that ends well over a table without rows ends with a sum of a hundred times the keys, or
    // with the word that the table failed as it was listed.
    ensures balanced { (seed requests : ℕ) → command_of words.now ≡ Some (commands.Gen seed requests) → result.0 ≡ 0 → (T.state table).rows ≡ Some map.empty → ToldBalanced requests (K.held sink.old) (K.held sink.new) }
    ensures untouched { ByStatus result.0 (λ e. Untouched e (result.1 ≡ table) (Observed (T.state table).rows (T.state result.1).rows (λ m n. n ≡ m)) (sink.new ≡ sink.old)) }
{
    let (ended, table) = carry_out(alloc, words, source, sink, table, link, clock);
    (status(ended), table)
}

fn carry_out<S: Source, K: Sink, T: Table, N: Link, C: Clock>(
    alloc: Global,
    words: &[Str],
    source: &mut S,
    sink: &mut K,
    table: T,
    link: &mut N,
    clock: &mut C,
) -> (Ended, T)
    ensures ends { HasEnded S.left S.faults K.held K.faults T.state (Serving K.held K.faults T.state C.tells (N.seen link.old) (N.seen link.new) clock.old (Rose (N.refusals link.old) (N.refusals link.new))) (command_of words.now) source.old source.new sink.old sink.new table result.1 result.0 }
    ensures unasked { serves (command_of words.now) ≡ false → (link.new ≡ link.old) × (clock.new ≡ clock.old) }
{
    match read_command(alloc, words) {
        Ok(Some(command)) => obey(alloc, command, source, sink, table, link, clock),
        Ok(None) => (refuse_words(sink), table),
        Err(_) => (Ended::OutOfMemory, table),
    }
}

fn status(ended: Ended) -> u8
    ensures { result ≡ status_of ended }
{
    match ended {
        Ended::Done => 0,
        Ended::OutOfMemory => 1,
        Ended::Usage => 2,
        Ended::SourceFault => 3,
        Ended::SinkFault => 4,
        Ended::Refused => 5,
        Ended::LinkRefused => 6,
        Ended::TooLong => 7,
        Ended::TableFault => 8,
    }
}

// The words are not those of a command.
fn refuse_words<K: Sink>(sink: &mut K) -> Ended
    ensures { TextEnds K.held K.faults usage ended.Usage sink.old sink.new result }
{
    match write_all(
        sink,
        b"usage: beldi [--db PATH] run | check | serve --port P --requests M | gen SEED N\n",
    ) {
        Ok(()) => Ended::Usage,
        Err(_) => Ended::SinkFault,
    }
}

// The source is refused, and nothing else said.
fn refuse_source<K: Sink>(alloc: Global, sink: &mut K, refusal: &Refusal) -> Ended
    ensures { TextEnds K.held K.faults (refusal_text refusal.now) ended.Refused sink.old sink.new result }
{
    let mut text = TextBuf::new(alloc);
    match write_refusal(alloc, refusal, &mut text) {
        Ok(()) => match write_all(sink, text.as_bytes()) {
            Ok(()) => Ended::Refused,
            Err(_) => Ended::SinkFault,
        },
        Err(_) => Ended::OutOfMemory,
    }
}

// Does what the command says.
fn obey<S: Source, K: Sink, T: Table, N: Link, C: Clock>(
    alloc: Global,
    command: Command,
    source: &mut S,
    sink: &mut K,
    table: T,
    link: &mut N,
    clock: &mut C,
) -> (Ended, T)
    ensures ends { CommandEnds S.left S.faults K.held K.faults T.state (Serving K.held K.faults T.state C.tells (N.seen link.old) (N.seen link.new) clock.old (Rose (N.refusals link.old) (N.refusals link.new))) command source.old source.new sink.old sink.new table result.1 result.0 }
    ensures unasked { serves (Some command) ≡ false → (link.new ≡ link.old) × (clock.new ≡ clock.old) }
{
    match command {
        Command::Gen { seed, requests } => host_generated(alloc, sink, table, seed, requests),
        Command::Run | Command::Check | Command::Serve { .. } => {
            read_and_do(alloc, command, source, sink, table, link, clock)
        }
    }
}

// Carries out generated work, and tells its summary.
fn host_generated<K: Sink, T: Table>(
    alloc: Global,
    sink: &mut K,
    table: T,
    seed: u32,
    requests: u32,
) -> (Ended, T)
    ensures { GeneratedEnds K.held K.faults T.state seed requests sink.old sink.new table result.1 result.0 }
{
    let mut source = TextBuf::new(alloc);
    match generate(seed, requests, &mut source) {
        Ok(()) => {
            let mut session = MemSink::new(alloc, Vec::new(alloc));
            let (ended, table) = run_source(alloc, &mut session, table, source.as_bytes());
            let told = sum_up(alloc, sink, requests, session.as_slice(), ended);
            drop(session);
            (told, table)
        }
        Err(_) => (Ended::OutOfMemory, table),
    }
}

// Tells what came of generated work, by how the session of its source ended and the text of that.
fn sum_up<K: Sink>(alloc: Global, sink: &mut K, requests: u32, text: &[u8], ended: Ended) -> Ended
    ensures { SummedUp K.held K.faults requests text.now ended sink.old sink.new result }
{
    match ended {
        Ended::Done => tell_summary(alloc, sink, requests, text),
        Ended::Refused => match write_all(sink, text) {
            Ok(()) => Ended::Refused,
            Err(_) => Ended::SinkFault,
        },
        // A sink in memory fails where memory is short.
        Ended::SinkFault => Ended::OutOfMemory,
        other => other,
    }
}

fn tell_summary<K: Sink>(alloc: Global, sink: &mut K, requests: u32, text: &[u8]) -> Ended
    ensures { TextEnds K.held K.faults (summary_text requests text.now) ended.Done sink.old sink.new result }
{
    match summarise(alloc, requests, text) {
        Ok(summary) => {
            let told = write_all(sink, summary.as_slice());
            drop(summary);
            match told {
                Ok(()) => Ended::Done,
                Err(_) => Ended::SinkFault,
            }
        }
        Err(_) => Ended::OutOfMemory,
    }
}

// How the program ends where its source was not read.
fn unread(why: ReadErr) -> Ended
    ensures { result ≡ unread_by why }
{
    match why {
        ReadErr::OutOfMemory => Ended::OutOfMemory,
        ReadErr::Failed => Ended::SourceFault,
        ReadErr::TooLong => Ended::TooLong,
    }
}

// Reads the source, and does with it what the command says.
fn read_and_do<S: Source, K: Sink, T: Table, N: Link, C: Clock>(
    alloc: Global,
    command: Command,
    source: &mut S,
    sink: &mut K,
    table: T,
    link: &mut N,
    clock: &mut C,
) -> (Ended, T)
    requires { reads command ≡ true }
    ensures ends { SourceCommandEnds S.left S.faults K.held K.faults T.state (Serving K.held K.faults T.state C.tells (N.seen link.old) (N.seen link.new) clock.old (Rose (N.refusals link.old) (N.refusals link.new))) command source.old source.new sink.old sink.new table result.1 result.0 }
    ensures unasked { serves (Some command) ≡ false → (link.new ≡ link.old) × (clock.new ≡ clock.old) }
{
    match read_all(alloc, source) {
        Ok(bytes) => do_with(alloc, command, sink, table, link, clock, bytes.as_slice()),
        Err(why) => (unread(why), table),
    }
}

fn do_with<K: Sink, T: Table, N: Link, C: Clock>(
    alloc: Global,
    command: Command,
    sink: &mut K,
    table: T,
    link: &mut N,
    clock: &mut C,
    bytes: &[u8],
) -> (Ended, T)
    requires few { length bytes.now ≤ max_source }
    requires reads { reads command ≡ true }
    ensures ends { DoneBy K.held K.faults T.state (Serving K.held K.faults T.state C.tells (N.seen link.old) (N.seen link.new) clock.old (Rose (N.refusals link.old) (N.refusals link.new))) command bytes.now sink.old sink.new table result.1 result.0 }
    ensures unasked { serves (Some command) ≡ false → (link.new ≡ link.old) × (clock.new ≡ clock.old) }
{
    match command {
        Command::Run => run_source(alloc, sink, table, bytes),
        Command::Check => (test_source(alloc, sink, bytes), table),
        Command::Serve { port, requests } => {
            serve_source(alloc, sink, table, link, clock, port, requests, bytes)
        }
        Command::Gen { .. } => unreachable!(),
    }
}

// Tests a source that was read.
fn test_source<K: Sink>(alloc: Global, sink: &mut K, bytes: &[u8]) -> Ended
    requires { length bytes.now ≤ max_source }
    ensures { CheckEnds K.held K.faults (check_at bytes.now) sink.old sink.new result }
{
    match check_source(alloc, bytes) {
        Ok(text) => {
            let ended = tell_tested(sink, &text);
            drop(text);
            ended
        }
        Err(SourceErr::Refused(refusal)) => {
            let ended = refuse_source(alloc, sink, &refusal);
            drop(refusal);
            ended
        }
        Err(SourceErr::OutOfMemory) => Ended::OutOfMemory,
    }
}

fn tell_tested<K: Sink>(sink: &mut K, text: &TextBuf) -> Ended
    ensures { TextEnds K.held K.faults text.now ended.Done sink.old sink.new result }
{
    match write_all(sink, text.as_bytes()) {
        Ok(()) => Ended::Done,
        Err(_) => Ended::SinkFault,
    }
}

// Carries out the script of a source that was read.
fn run_source<K: Sink, T: Table>(alloc: Global, sink: &mut K, table: T, bytes: &[u8]) -> (Ended, T)
    ensures { SourceEnds K.held K.faults T.state bytes.now (source_at bytes.now) sink.old sink.new table result.1 result.0 }
{
    match read_source(alloc, bytes) {
        Ok(Accepted { code, rest, line }) => {
            host(alloc, sink, table, code, line, script_at(bytes, rest))
        }
        Err(SourceErr::Refused(refusal)) => {
            let ended = refuse_source(alloc, sink, &refusal);
            drop(refusal);
            (ended, table)
        }
        Err(SourceErr::OutOfMemory) => (Ended::OutOfMemory, table),
    }
}

// Hosts a deployment, and carries out a script, the first line of which has this number in the source.
fn host<K: Sink, T: Table>(
    alloc: Global,
    sink: &mut K,
    table: T,
    code: Checked,
    first: u32,
    script: &[u8],
) -> (Ended, T)
    ensures { SessionEnds K.held K.faults T.state code (numbered first (lines_of script.now)) sink.old sink.new table result.1 result.0 }
{
    sessions_are_plain_runs();
    match Host::open(alloc, code, table, 0) {
        Ok(mut host) => {
            let mut waiting = TextBuf::new(alloc);
            let ran = run_script(alloc, &mut host, sink, &mut waiting, first, script);
            (end_of(ran), host.close())
        }
        Err((table, OpenErr::Failed)) => (Ended::TableFault, table),
        Err((table, OpenErr::OutOfMemory)) => (Ended::OutOfMemory, table),
    }
}

// Serves connections over the deployment of a source that was read.
fn serve_source<K: Sink, T: Table, N: Link, C: Clock>(
    alloc: Global,
    sink: &mut K,
    table: T,
    link: &mut N,
    clock: &mut C,
    port: u16,
    requests: u32,
    bytes: &[u8],
) -> (Ended, T)
    ensures { ServeEnds K.held K.faults T.state C.tells (N.seen link.old) (N.seen link.new) clock.old (Rose (N.refusals link.old) (N.refusals link.new)) bytes.now requests (source_at bytes.now) sink.old sink.new table result.1 result.0 }
{
    match read_source(alloc, bytes) {
        Ok(Accepted { code, rest, line }) => match find_line(line, script_at(bytes, rest)) {
            None => serve_code(alloc, sink, table, link, clock, code, port, requests),
            Some(refusal) => {
                drop(code);
                let ended = refuse_source(alloc, sink, &refusal);
                drop(refusal);
                (ended, table)
            }
        },
        Err(SourceErr::Refused(refusal)) => {
            let ended = refuse_source(alloc, sink, &refusal);
            drop(refusal);
            (ended, table)
        }
        Err(SourceErr::OutOfMemory) => (Ended::OutOfMemory, table),
    }
}

// Hosts a deployment at the clock's moment, and serves connections on the port.
fn serve_code<K: Sink, T: Table, N: Link, C: Clock>(
    alloc: Global,
    sink: &mut K,
    table: T,
    link: &mut N,
    clock: &mut C,
    code: Checked,
    port: u16,
    requests: u32,
) -> (Ended, T)
    ensures { ServiceEnds K.held K.faults T.state C.tells (N.seen link.old) (N.seen link.new) clock.old (Rose (N.refusals link.old) (N.refusals link.new)) code requests sink.old sink.new table result.1 result.0 }
{
    sessions_are_plain_runs();
    match Host::open(alloc, code, table, moment_of(clock.now())) {
        Ok(host) => serve_host(alloc, host, sink, link, clock, port, requests),
        Err((table, OpenErr::Failed)) => (Ended::TableFault, table),
        Err((table, OpenErr::OutOfMemory)) => (Ended::OutOfMemory, table),
    }
}

// Serves connections over a host, and lists the tables and the book after the last one.
fn serve_host<K: Sink, T: Table, N: Link, C: Clock>(
    alloc: Global,
    host: Host<T>,
    sink: &mut K,
    link: &mut N,
    clock: &mut C,
    port: u16,
    requests: u32,
) -> (Ended, T)
    ensures { ServesHost K.held K.faults C.tells host requests (N.seen link.old) (N.seen link.new) clock.old (Rose (N.refusals link.old) (N.refusals link.new)) sink.old sink.new result.1 result.0 }
{
    match link.listen(port) {
        Ok(()) => {
            let mut desk = HostDesk::new(alloc, host);
            match serve(alloc, &mut desk, sink, link, clock, requests) {
                Ok(()) => list_all(alloc, desk.into_host(), sink),
                Err(why) => (served_end(why), desk.into_host().close()),
            }
        }
        Err(_) => {
            if link.is_short() {
                (Ended::OutOfMemory, host.close())
            } else {
                (Ended::LinkRefused, host.close())
            }
        }
    }
}

// Lists the tables and the book, and gives the table back.
fn list_all<K: Sink, T: Table>(alloc: Global, mut host: Host<T>, sink: &mut K) -> (Ended, T)
    ensures { Lists K.held K.faults host sink.old sink.new result.1 result.0 }
{
    let mut waiting = TextBuf::new(alloc);
    let listed = write_listings(alloc, &mut host, sink, &mut waiting);
    drop(waiting);
    (listed_end(listed), host.close())
}

fn listed_end(listed: Result<(), Stop>) -> Ended
    ensures { result ≡ listed_end listed }
{
    match listed {
        Ok(()) => Ended::Done,
        Err(Stop::OutOfMemory) => Ended::OutOfMemory,
        Err(Stop::SinkFault) => Ended::SinkFault,
    }
}

fn served_end(why: ServeErr) -> Ended
    ensures { result ≡ served_end why }
{
    match why {
        ServeErr::OutOfMemory => Ended::OutOfMemory,
        ServeErr::SinkFault => Ended::SinkFault,
        ServeErr::LinkRefused => Ended::LinkRefused,
    }
}

fn end_of(ran: Result<bool, Stop>) -> Ended
    ensures { result ≡ end_of ran }
{
    match ran {
        Ok(true) => Ended::Done,
        Ok(false) => Ended::Refused,
        Err(Stop::OutOfMemory) => Ended::OutOfMemory,
        Err(Stop::SinkFault) => Ended::SinkFault,
    }
}
