use beldi_outside::{ClosedLink, Link, MemClock, MemLink, MemSink, MemSource};
use beldi_program::top;
use beldi_row::Table;
use beldi_sqlrows::MemoryRows;
use beldi_sqltable::RowTable;
use beldi_table::{FailingTable, MapTable};
use beldi_value::{Str, or_drop};
use std::alloc::Global;
use std::test::Fail;

const SOURCE: &[u8] =
    b"life 1000; function f(x) { table t; write t[\"k\"] = x; return x; } script\nticket\nrequest 1 f 7\nturn 1 5\n";

const WHOLE: &[u8] =
    b"ticket 1\nbound 1 run 1\nacted\nacted\nacted\nacted step 1\nacted step 1 over\nreply 1 value 7\n== tables\nf t \"k\" 7\n== book\nstart 1 f 7\nstep 1\nstep 1\n";

fn words_of(alloc: Global, texts: &[&str]) -> Result<Vec<Str>, Fail> {
    let mut words = Vec::new(alloc);
    for text in texts {
        let word = or_drop!(Str::from_text(alloc, text); words);
        or_drop!(words.push(word); words);
    }
    Ok(words)
}

// The status with which the program ends at these words, over this link and a table that fails these calls.
fn ends<N: Link>(
    alloc: Global,
    words: &[&str],
    source: &mut MemSource,
    sink: &mut MemSink,
    link: &mut N,
    calls: &[u32],
) -> Result<u8, Fail> {
    let words = words_of(alloc, words)?;
    let calls = or_drop!(Vec::from_slice(alloc, calls); words);
    let table = FailingTable::new(alloc, calls);
    let mut clock = MemClock::new(Vec::new(alloc));
    let (status, table) = top(
        alloc,
        words.as_slice(),
        source,
        sink,
        table,
        link,
        &mut clock,
    );
    drop(words);
    drop(clock);
    drop(table);
    Ok(status)
}

// The status with which `run` ends over this source and a table that fails these calls; what it writes is in the sink.
fn runs(
    alloc: Global,
    mut source: MemSource,
    sink: &mut MemSink,
    calls: &[u32],
) -> Result<u8, Fail> {
    let mut link = ClosedLink::new();
    let ended = ends(alloc, &["run"], &mut source, sink, &mut link, calls);
    drop(source);
    ended
}

// Whether `run` ends so over these streams, and has written this text.
fn is_end(
    alloc: Global,
    source: MemSource,
    mut sink: MemSink,
    calls: &[u32],
    wanted: (u8, &[u8]),
) -> Result<bool, Fail> {
    let status = or_drop!(runs(alloc, source, &mut sink, calls); sink);
    let is_written = sink.as_slice() == wanted.1;
    drop(sink);
    Ok(status == wanted.0 && is_written)
}

// Whether the smallest path ends so where these reads, writes and calls of the table fail.
fn path_ends(
    alloc: Global,
    fail: (&[u32], &[u32], &[u32]),
    wanted: u8,
    text: &[u8],
) -> Result<bool, Fail> {
    let bytes = Vec::from_slice(alloc, SOURCE)?;
    let reads = or_drop!(Vec::from_slice(alloc, fail.0); bytes);
    let source = MemSource::new(bytes, reads);
    let writes = or_drop!(Vec::from_slice(alloc, fail.1); source);
    let sink = MemSink::new(alloc, writes);
    is_end(alloc, source, sink, fail.2, (wanted, text))
}

#[test]
fn a_read_or_a_write_that_fails_ends_the_program(rt: HostRuntime) -> Result<(), Fail> {
    let alloc = rt.alloc();
    assert!(rt; path_ends(alloc, (&[], &[], &[]), 0, WHOLE)?);
    assert!(rt; path_ends(alloc, (&[0], &[], &[]), 3, b"")?);
    assert!(rt; path_ends(alloc, (&[1], &[], &[]), 3, b"")?);
    assert!(rt; path_ends(alloc, (&[2], &[], &[]), 0, WHOLE)?);
    assert!(rt; path_ends(alloc, (&[], &[0], &[]), 4, b"")?);
    assert!(rt; path_ends(alloc, (&[], &[1], &[]), 0, WHOLE)?);
    Ok(())
}

// What is written where this call of the table fails.
const DROPPED: [(u32, &[u8]); 4] = [
    (
        1,
        b"dropped\nunknown 1\nno-run\nno-run\nno-run\nno-run\nno-run\n== tables\n== book\n",
    ),
    (
        3,
        b"ticket 1\nbound 1 run 1\ndropped\nrun-over\nrun-over\nrun-over\nrun-over\n== tables\n== book\nstart 1 f 7\n",
    ),
    (
        7,
        b"ticket 1\nbound 1 run 1\nacted\nacted\nacted\nacted step 1\ndropped\n== tables\nf t \"k\" 7\n== book\nstart 1 f 7\nstep 1\n",
    ),
    (
        8,
        b"ticket 1\nbound 1 run 1\nacted\nacted\nacted\nacted step 1\nacted step 1 over\nreply 1 value 7\n== tables\ndropped\n== book\nstart 1 f 7\nstep 1\nstep 1\n",
    ),
];

#[test]
fn a_call_of_the_table_that_fails_is_answered(rt: HostRuntime) -> Result<(), Fail> {
    let alloc = rt.alloc();
    assert!(rt; path_ends(alloc, (&[], &[], &[0]), 8, b"")?);
    for (call, text) in &DROPPED {
        assert!(rt; path_ends(alloc, (&[], &[], &[*call]), 0, text)?);
    }
    assert!(rt; path_ends(alloc, (&[], &[], &[11]), 0, WHOLE)?);
    Ok(())
}

// What the scripts here are scripts of.
const WRITES: &[u8] =
    b"life 100;\nfunction f(x) { table t; write t[\"k\"] = x; return x; }\nscript\n";

// A source of this deployment.
fn source_of(alloc: Global, script: &[u8]) -> Result<MemSource, Fail> {
    let mut bytes = Vec::from_slice(alloc, WRITES)?;
    or_drop!(bytes.extend_from_slice(script); bytes);
    Ok(MemSource::new(bytes, Vec::new(alloc)))
}

// The call of the table that fails, a script, and what is written: where a row is to be added for a run's write, and at a halt, after which
// only a halt goes on.
const FAILED: [(u32, &[u8], &[u8]); 4] = [
    (
        5,
        b"ticket\nrequest 1 f 7\nturn 1 3\nrestart 1 f\nturn 2 5\n",
        b"ticket 1\nbound 1 run 1\nacted\nacted\ndropped\nrun 2\nacted\nacted\nacted\nacted step 1\nacted step 1 over\nreply 1 value 7\n== tables\nf t \"k\" 7\n== book\nstart 1 f 7\nstep 1\nstep 1\n",
    ),
    (
        3,
        b"ticket\nhalt\nticket\nhalt\nticket\n",
        b"ticket 1\ndropped\nshut\nhalted\nticket 2\n== tables\n== book\n",
    ),
    (
        3,
        b"ticket\nhalt\nsettle 10\n",
        b"ticket 1\ndropped\nshut 0\n== tables\n== book\n",
    ),
    (
        4,
        b"ticket\nrequest 1 f 7\nhalt\nturn 1\nic\ntick 1\nreply 1\nhalt\nturn 1\nsettle 100\ntick 1\n",
        b"ticket 1\nbound 1 run 1\ndropped\nshut\nshut\nshut\nreply 1 waiting\nhalted\nrun-over\nreply 1 value 7\nsettled 6\nnow 1\n== tables\nf t \"k\" 7\n== book\nstart 1 f 7\nstep 1\nstep 1\n",
    ),
];

// Whether this script ends with status 0, and has written this text.
fn script_ends(alloc: Global, script: &[u8], call: u32, text: &[u8]) -> Result<bool, Fail> {
    let source = source_of(alloc, script)?;
    let sink = MemSink::new(alloc, Vec::new(alloc));
    is_end(alloc, source, sink, &[call], (0, text))
}

#[test]
fn a_halt_goes_on_where_a_call_of_the_table_failed(rt: HostRuntime) -> Result<(), Fail> {
    let alloc = rt.alloc();
    for (call, script, text) in &FAILED {
        assert!(rt; script_ends(alloc, script, *call, text)?);
    }
    Ok(())
}

// A script that asks for a ticket, binds the request and settles twice, and halts between, so that whichever one call of the table fails,
// the request is made, and once.
const HALTING: &[u8] =
    b"ticket\nticket\nrequest 1 f 7\nturn 1 2\nhalt\nrequest 1 f 7\nturn 2 2\nhalt\nsettle 100\nhalt\nsettle 100\nreply 1\n";

// What is written at its end: the listings; and where the call is one of the listing of the tables.
const MADE: &[u8] = b"\n== tables\nf t \"k\" 7\n== book\nstart 1 f 7\nstep 1\nstep 1\n";

const UNREAD: &[u8] = b"\n== tables\ndropped\n== book\nstart 1 f 7\nstep 1\nstep 1\n";

// The first call of the listing, where none fails before it, and the first one that is not made.
const LISTING: u32 = 34;

const CALLS: u32 = 36;

// Whether its text ends so where this call fails.
fn halting_ends(alloc: Global, call: u32, end: &[u8]) -> Result<bool, Fail> {
    let source = source_of(alloc, HALTING)?;
    let mut sink = MemSink::new(alloc, Vec::new(alloc));
    let status = or_drop!(runs(alloc, source, &mut sink, &[call]); sink);
    let is_so = sink.as_slice().ends_with(end);
    drop(sink);
    Ok(status == 0 && is_so)
}

#[test]
fn a_request_is_made_once_whichever_call_fails(rt: HostRuntime) -> Result<(), Fail> {
    let alloc = rt.alloc();
    for call in 1..LISTING {
        assert!(rt; halting_ends(alloc, call, MADE)?);
    }
    for call in LISTING..CALLS {
        assert!(rt; halting_ends(alloc, call, UNREAD)?);
    }
    assert!(rt; halting_ends(alloc, CALLS, MADE)?);
    Ok(())
}

// Whether the smallest path, read and written a byte at a time, ends so where this write fails.
fn bytes_end(alloc: Global, write: u32, wanted: u8, text: &[u8]) -> Result<bool, Fail> {
    let bytes = Vec::from_slice(alloc, SOURCE)?;
    let source = MemSource::with_piece(bytes, Vec::new(alloc), 1);
    let writes = or_drop!([write].to_vec(alloc); source);
    let sink = MemSink::with_piece(alloc, writes, 1);
    is_end(alloc, source, sink, &[], (wanted, text))
}

#[test]
fn short_reads_and_writes_go_on(rt: HostRuntime) -> Result<(), Fail> {
    let alloc = rt.alloc();
    assert!(rt; bytes_end(alloc, 1_000, 0, WHOLE)?);
    assert!(rt; bytes_end(alloc, 9, 4, b"ticket 1\n")?);
    Ok(())
}

// A request, the line of its connection, and what is written on it.
type Case = (&'static [u8], &'static [u8], &'static [u8]);

fn connections_of(alloc: Global, cases: &[Case]) -> Result<Vec<Vec<u8>>, Fail> {
    let mut connections = Vec::new(alloc);
    for (request, _, _) in cases {
        let request = or_drop!(Vec::from_slice(alloc, request); connections);
        or_drop!(connections.push(request); connections);
    }
    Ok(connections)
}

// A link on which these requests come, and which fails these calls.
fn link_of(alloc: Global, cases: &[Case], fail: &[u32]) -> Result<MemLink, Fail> {
    let connections = connections_of(alloc, cases)?;
    let fail = or_drop!(Vec::from_slice(alloc, fail); connections);
    Ok(MemLink::new(alloc, connections, fail))
}

// The status with which `serve` ends that is to serve so many requests. The sink's writes and the table's calls of these numbers fail.
fn serves(
    alloc: Global,
    requests: &str,
    source: &[u8],
    sink: &mut MemSink,
    link: &mut MemLink,
    calls: &[u32],
) -> Result<u8, Fail> {
    let bytes = Vec::from_slice(alloc, source)?;
    let mut source = MemSource::new(bytes, Vec::new(alloc));
    let words = ["serve", "--port", "8080", "--requests", requests];
    let ended = ends(alloc, &words, &mut source, sink, link, calls);
    drop(source);
    ended
}

// Whether it ends so where these writes and calls of the table fail, and has written this text.
fn is_service(
    alloc: Global,
    requests: &str,
    source: &[u8],
    link: &mut MemLink,
    fail: (&[u32], &[u32]),
    wanted: (u8, &[u8]),
) -> Result<bool, Fail> {
    let writes = Vec::from_slice(alloc, fail.0)?;
    let mut sink = MemSink::new(alloc, writes);
    let status = or_drop!(serves(alloc, requests, source, &mut sink, link, fail.1); sink);
    let is_written = sink.as_slice() == wanted.1;
    drop(sink);
    Ok(status == wanted.0 && is_written)
}

fn write_lines(text: &mut Vec<u8>, cases: &[Case], rest: &[u8]) -> Result<(), Fail> {
    for (_, line, _) in cases {
        text.extend_from_slice(line)?;
    }
    Ok(text.extend_from_slice(rest)?)
}

// The lines of these connections, and this behind them.
fn text_of(alloc: Global, cases: &[Case], rest: &[u8]) -> Result<Vec<u8>, Fail> {
    let mut text = Vec::new(alloc);
    or_drop!(write_lines(&mut text, cases, rest); text);
    Ok(text)
}

// Whether so many requests are served, and these lines are written and the rest behind them.
fn is_served(
    alloc: Global,
    requests: &str,
    source: &[u8],
    link: &mut MemLink,
    cases: &[Case],
    rest: &[u8],
) -> Result<bool, Fail> {
    let text = text_of(alloc, cases, rest)?;
    let is_so = is_service(
        alloc,
        requests,
        source,
        link,
        (&[], &[]),
        (0, text.as_slice()),
    );
    drop(text);
    is_so
}

fn has_written(link: &MemLink, at: usize, text: &[u8]) -> bool {
    match link.written(at) {
        Some(bytes) => bytes == text,
        None => false,
    }
}

fn has_written_last(link: &MemLink, at: usize, text: &[u8]) -> bool {
    match link.written(at) {
        Some(bytes) => bytes.ends_with(text),
        None => false,
    }
}

// Whether these responses were written, each whole.
fn are_written(link: &MemLink, cases: &[Case]) -> bool {
    for (at, (_, _, response)) in cases.iter().enumerate() {
        if !has_written(link, at, response) {
            return false;
        }
    }
    true
}

// Whether these bodies were written, each at the end of its connection.
fn are_bodies(link: &MemLink, cases: &[Case]) -> bool {
    for (at, (_, _, body)) in cases.iter().enumerate() {
        if !has_written_last(link, at, body) {
            return false;
        }
    }
    true
}

// As in tests/serve.
const BOOKING: &[u8] = b"life 1000;
function hotel(x) { table rooms; read n = rooms[x]; if n == null { set n = 2; } if n < 1 { abort; }
  write rooms[x] = n - 1; return n - 1; }
function flight(x) { table seats; read n = seats[x]; if n == null { set n = 2; } if n < 1 { abort; }
  write seats[x] = n - 1; return n - 1; }
function notify(x) { table sent; write sent[x] = true; }
function reserve(x) { transaction { call h = hotel(x.hotel); call s = flight(x.flight); }
  aborted { return {\"ok\": false}; }
  async notify(x.user); return {\"ok\": true, \"rooms\": h, \"seats\": s}; }";

// A ticket, a call, the same again, ten bytes of its body, and a body that is no value.
const RESERVATION: [Case; 5] = [
    (
        b"POST /tickets HTTP/1.1\r\nHost: localhost\r\nContent-Length: 0\r\n\r\n",
        b"conn 1 200\n",
        b"HTTP/1.1 200 OK\r\nContent-Type: application/json\r\nContent-Length: 12\r\nConnection: close\r\n\r\n{\"ticket\":1}",
    ),
    (
        b"POST /call/reserve/1 HTTP/1.1\r\nHost: localhost\r\nContent-Length: 41\r\n\r\n{\"hotel\":\"h1\",\"flight\":\"f1\",\"user\":\"ann\"}",
        b"conn 2 200\n",
        b"HTTP/1.1 200 OK\r\nContent-Type: application/json\r\nContent-Length: 41\r\nConnection: close\r\n\r\n{\"value\":{\"ok\":true,\"rooms\":1,\"seats\":1}}",
    ),
    (
        b"POST /call/reserve/1 HTTP/1.1\r\nHost: localhost\r\nContent-Length: 41\r\n\r\n{\"hotel\":\"h1\",\"flight\":\"f1\",\"user\":\"ann\"}",
        b"conn 3 200\n",
        b"HTTP/1.1 200 OK\r\nContent-Type: application/json\r\nContent-Length: 41\r\nConnection: close\r\n\r\n{\"value\":{\"ok\":true,\"rooms\":1,\"seats\":1}}",
    ),
    (
        b"POST /call/reserve/1 HTTP/1.1\r\nHost: localhost\r\nContent-Length: 41\r\n\r\n{\"hotel\":\"",
        b"conn 4 400\n",
        b"HTTP/1.1 400 Bad Request\r\nContent-Type: application/json\r\nContent-Length: 15\r\nConnection: close\r\n\r\n{\"error\":\"cut\"}",
    ),
    (
        b"POST /call/reserve/1 HTTP/1.1\r\nHost: localhost\r\nContent-Length: 3\r\n\r\n1.5",
        b"conn 5 400\n",
        b"HTTP/1.1 400 Bad Request\r\nContent-Type: application/json\r\nContent-Length: 17\r\nConnection: close\r\n\r\n{\"error\":\"value\"}",
    ),
];

const BOOKED: &[u8] =
    b"== tables\nhotel rooms \"h1\" 1\nflight seats \"f1\" 1\nnotify sent \"ann\" true\n== book\nstart 1 reserve {\"flight\":\"f1\",\"hotel\":\"h1\",\"user\":\"ann\"}\ntx 1\nstep 1\nstep 1\nstep 1/4\nstep 1/4\n";

// The deployment of examples/booking.beldi.
const EXAMPLE: &[u8] = b"life 60000;
function notify(x) {
  table letters;
  write letters[x.user] = x.hotel ++ \" and \" ++ x.flight;
}
function flight(x) {
  table seats;
  read free = seats[x];
  if free == null { set free = 3; }
  if free == 0 { abort; }
  write seats[x] = free - 1;
  return free - 1;
}
function hotel(x) {
  table rooms;
  read free = rooms[x];
  if free == null { set free = 2; }
  if free == 0 { abort; }
  write rooms[x] = free - 1;
  return free - 1;
}
function reserve(x) {
  transaction {
    call rooms = hotel(x.hotel);
    call seats = flight(x.flight);
  } aborted {
    return \"not booked\";
  }
  async notify(x);
  return [rooms, seats];
}";

// A ticket, a call, its reply, ten bytes of its body, and a body that is no value.
const TRIP: [Case; 5] = [
    (
        b"POST /tickets HTTP/1.1\r\nHost: localhost\r\nContent-Length: 0\r\n\r\n",
        b"conn 1 200\n",
        b"HTTP/1.1 200 OK\r\nContent-Type: application/json\r\nContent-Length: 12\r\nConnection: close\r\n\r\n{\"ticket\":1}",
    ),
    (
        b"POST /call/reserve/1 HTTP/1.1\r\nHost: localhost\r\nContent-Length: 44\r\n\r\n{\"flight\":\"F1\",\"hotel\":\"Astor\",\"user\":\"ann\"}",
        b"conn 2 200\n",
        b"HTTP/1.1 200 OK\r\nContent-Type: application/json\r\nContent-Length: 15\r\nConnection: close\r\n\r\n{\"value\":[1,2]}",
    ),
    (
        b"GET /reply/1 HTTP/1.1\r\nHost: localhost\r\n\r\n",
        b"conn 3 200\n",
        b"HTTP/1.1 200 OK\r\nContent-Type: application/json\r\nContent-Length: 15\r\nConnection: close\r\n\r\n{\"value\":[1,2]}",
    ),
    (
        b"POST /call/reserve/1 HTTP/1.1\r\nHost: localhost\r\nContent-Length: 44\r\n\r\n{\"flight\":",
        b"conn 4 400\n",
        b"HTTP/1.1 400 Bad Request\r\nContent-Type: application/json\r\nContent-Length: 15\r\nConnection: close\r\n\r\n{\"error\":\"cut\"}",
    ),
    (
        b"POST /call/reserve/1 HTTP/1.1\r\nHost: localhost\r\nContent-Length: 3\r\n\r\n1.5",
        b"conn 5 400\n",
        b"HTTP/1.1 400 Bad Request\r\nContent-Type: application/json\r\nContent-Length: 17\r\nConnection: close\r\n\r\n{\"error\":\"value\"}",
    ),
];

const TRIP_BOOKED: &[u8] =
    b"== tables\nnotify letters \"ann\" \"Astor and F1\"\nflight seats \"F1\" 2\nhotel rooms \"Astor\" 1\n== book\nstart 1 reserve {\"flight\":\"F1\",\"hotel\":\"Astor\",\"user\":\"ann\"}\ntx 1\nstep 1\nstep 1\nstep 1/4\nstep 1/4\n";

// Whether these are served by this source, and answered so; behind the lines the rest is written.
fn is_answered(alloc: Global, source: &[u8], cases: &[Case], rest: &[u8]) -> Result<bool, Fail> {
    let mut link = link_of(alloc, cases, &[])?;
    let is_so = or_drop!(is_served(alloc, "5", source, &mut link, cases, rest); link);
    let is_whole = are_written(&link, cases);
    drop(link);
    Ok(is_so && is_whole)
}

#[test]
fn a_reservation_is_served(rt: HostRuntime) -> Result<(), Fail> {
    let alloc = rt.alloc();
    assert!(rt; is_answered(alloc, BOOKING, &RESERVATION, BOOKED)?);
    assert!(rt; is_answered(alloc, EXAMPLE, &TRIP, TRIP_BOOKED)?);
    Ok(())
}

const FUNC: &[u8] = b"life 1000; function f(x) { table t; write t[\"k\"] = x; return x; }";

// What the desk says, and then each row of the refusals but the long head; of each response the body.
const CASES: [Case; 19] = [
    (
        b"POST /tickets HTTP/1.1\r\n\r\n",
        b"conn 1 200\n",
        b"{\"ticket\":1}",
    ),
    (
        b"GET /reply/1 HTTP/1.1\r\n\r\n",
        b"conn 2 202\n",
        b"{\"running\":true}",
    ),
    (
        b"POST /call/f/1 HTTP/1.1\r\nContent-Length: 1\r\n\r\n7",
        b"conn 3 200\n",
        b"{\"value\":7}",
    ),
    (
        b"POST /call/f/1 HTTP/1.1\r\nContent-Length: 1\r\n\r\n7",
        b"conn 4 200\n",
        b"{\"value\":7}",
    ),
    (
        b"GET /reply/1 HTTP/1.1\r\n\r\n",
        b"conn 5 200\n",
        b"{\"value\":7}",
    ),
    (
        b"POST /call/f/1 HTTP/1.1\r\nContent-Length: 1\r\n\r\n8",
        b"conn 6 409\n",
        b"{\"error\":\"other\"}",
    ),
    (
        b"GET /reply/99 HTTP/1.1\r\n\r\n",
        b"conn 7 404\n",
        b"{\"error\":\"ticket\"}",
    ),
    (b"", b"conn 8 none\n", b""),
    (b"POST /tick", b"conn 9 400\n", b"{\"error\":\"cut\"}"),
    (
        b"GET() /tickets HTTP/1.1\r\n\r\n",
        b"conn 10 400\n",
        b"{\"error\":\"head\"}",
    ),
    (
        b"GET / HTTP/1.1\r\n\r\n",
        b"conn 11 404\n",
        b"{\"error\":\"path\"}",
    ),
    (
        b"GET /tickets HTTP/1.1\r\n\r\n",
        b"conn 12 405\n",
        b"{\"error\":\"method\"}",
    ),
    (
        b"POST /call/f/1 HTTP/1.1\r\nTransfer-Encoding: chunked\r\n\r\n1\r\n7\r\n0\r\n\r\n",
        b"conn 13 400\n",
        b"{\"error\":\"coding\"}",
    ),
    (
        b"POST /call/f/1 HTTP/1.1\r\nContent-Length: x\r\n\r\n7",
        b"conn 14 400\n",
        b"{\"error\":\"length\"}",
    ),
    (
        b"POST /call/f/1 HTTP/1.1\r\nContent-Length: 65537\r\n\r\n",
        b"conn 15 413\n",
        b"{\"error\":\"size\"}",
    ),
    (
        b"POST /call/f/1 HTTP/1.1\r\nContent-Length: 2\r\n\r\n7",
        b"conn 16 400\n",
        b"{\"error\":\"cut\"}",
    ),
    (
        b"POST /call/f/01 HTTP/1.1\r\nContent-Length: 1\r\n\r\n7",
        b"conn 17 404\n",
        b"{\"error\":\"ticket\"}",
    ),
    (
        b"POST /call/nobody/1 HTTP/1.1\r\nContent-Length: 1\r\n\r\n7",
        b"conn 18 404\n",
        b"{\"error\":\"function\"}",
    ),
    (
        b"POST /call/f/1 HTTP/1.1\r\nContent-Length: 3\r\n\r\n1.5",
        b"conn 19 400\n",
        b"{\"error\":\"value\"}",
    ),
];

const CASES_REST: &[u8] =
    b"conn 20 431\n== tables\nf t \"k\" 7\n== book\nstart 1 f 7\nstep 1\nstep 1\n";

// A link on which they come, and then 16,384 bytes without the end of a head.
fn cases_link(alloc: Global) -> Result<MemLink, Fail> {
    let mut connections = connections_of(alloc, &CASES)?;
    let long = or_drop!(b"a".repeat(alloc, 16_384); connections);
    or_drop!(connections.push(long); connections);
    Ok(MemLink::new(alloc, connections, Vec::new(alloc)))
}

fn cases_are_answered(alloc: Global) -> Result<bool, Fail> {
    let mut link = cases_link(alloc)?;
    let is_so = or_drop!(is_served(alloc, "20", FUNC, &mut link, &CASES, CASES_REST); link);
    let have_bodies = are_bodies(&link, &CASES)
        && has_written(&link, 7, b"")
        && has_written_last(&link, 19, b"{\"error\":\"head-size\"}");
    drop(link);
    Ok(is_so && have_bodies)
}

#[test]
fn each_answer_and_each_refusal_has_its_line(rt: HostRuntime) -> Result<(), Fail> {
    let alloc = rt.alloc();
    assert!(rt; cases_are_answered(alloc)?);
    Ok(())
}

const TICKET: Case = (
    b"POST /tickets HTTP/1.1\r\n\r\n",
    b"conn 1 200\n",
    b"{\"ticket\":1}",
);

// No call has this number.
const NONE: u32 = 1_000;

// How many requests are to be served; which call of the link, write and call of the table fails; the status, and what is written.
type Ending = (&'static str, [u32; 3], u8, &'static [u8]);

// The link is asked to listen, and then for each request to give a connection, to read and to write.
const ENDINGS: [Ending; 12] = [
    (
        "2",
        [NONE, NONE, NONE],
        0,
        b"conn 1 200\nconn 2 200\n== tables\n== book\n",
    ),
    ("3", [NONE, NONE, NONE], 6, b"conn 1 200\nconn 2 200\n"),
    ("2", [0, NONE, NONE], 6, b""),
    ("2", [1, NONE, NONE], 6, b""),
    ("2", [4, NONE, NONE], 6, b"conn 1 200\n"),
    (
        "2",
        [2, NONE, NONE],
        0,
        b"conn 1 fault\nconn 2 200\n== tables\n== book\n",
    ),
    (
        "2",
        [3, NONE, NONE],
        0,
        b"conn 1 fault\nconn 2 200\n== tables\n== book\n",
    ),
    (
        "2",
        [5, NONE, NONE],
        0,
        b"conn 1 200\nconn 2 fault\n== tables\n== book\n",
    ),
    ("2", [NONE, 0, NONE], 4, b""),
    ("2", [NONE, 1, NONE], 4, b"conn 1 200\n"),
    ("2", [NONE, NONE, 0], 8, b""),
    (
        "2",
        [NONE, NONE, 1],
        0,
        b"conn 1 503\nconn 2 200\n== tables\n== book\n",
    ),
];

// Whether two tickets are asked for and it ends so.
fn tickets_end(alloc: Global, ending: &Ending) -> Result<bool, Fail> {
    let (requests, fail, status, text) = *ending;
    let mut link = link_of(alloc, &[TICKET, TICKET], &fail[..1])?;
    let is_so = is_service(
        alloc,
        requests,
        FUNC,
        &mut link,
        (&fail[1..2], &fail[2..]),
        (status, text),
    );
    drop(link);
    is_so
}

#[test]
fn a_service_ends_so_where_a_call_fails(rt: HostRuntime) -> Result<(), Fail> {
    let alloc = rt.alloc();
    for ending in &ENDINGS {
        assert!(rt; tickets_end(alloc, ending)?);
    }
    Ok(())
}

// Whether a source with a line in its script is refused, and the connection is still to come.
fn script_is_refused(alloc: Global) -> Result<bool, Fail> {
    let mut link = link_of(alloc, &[TICKET], &[])?;
    let refused = (5, b"refused line 2: line\n".as_slice());
    let is_so = or_drop!(is_service(alloc, "1", SOURCE, &mut link, (&[], &[]), refused); link);
    let is_there = link.accept().is_ok();
    drop(link);
    Ok(is_so && is_there)
}

#[test]
fn a_script_is_not_served(rt: HostRuntime) -> Result<(), Fail> {
    let alloc = rt.alloc();
    assert!(rt; script_is_refused(alloc)?);
    Ok(())
}

// A session that ends before its request has returned, and one that is opened over its rows.
const BEGUN: (&[u8], &[u8]) = (
    b"life 100;\nfunction f(x) { table t; write t[\"k\"] = x; return x; }\nscript\nticket\nrequest 1 f 7\nturn 1 4\n",
    b"ticket 1\nbound 1 run 1\nacted\nacted\nacted\nacted step 1\n== tables\nf t \"k\" 7\n== book\nstart 1 f 7\nstep 1\n",
);

const ENDED: (&[u8], &[u8]) = (
    b"life 100;\nfunction f(x) { table t; write t[\"k\"] = x; return x; }\nscript\nsettle 100\n",
    b"reply 1 value 7\nsettled 4\n== tables\nf t \"k\" 7\n== book\nstep 1\n",
);

// A third one issues another ticket, and tells what the first two did.
const TOLD: (&[u8], &[u8]) = (
    b"life 100;\nfunction f(x) { table t; write t[\"k\"] = x; return x; }\nscript\nticket\nreply 1\nrequest 1 f 7\n",
    b"ticket 2\nreply 1 value 7\nended 1 value 7\n== tables\nf t \"k\" 7\n== book\n",
);

// One session over a table that is handed on, and whether it wrote what is wanted.
fn session<T: Table + Drop>(
    alloc: Global,
    table: T,
    wanted: (&[u8], &[u8]),
) -> Result<(bool, T), Fail> {
    let words = or_drop!(words_of(alloc, &["run"]); table);
    let bytes = or_drop!(Vec::from_slice(alloc, wanted.0); table, words);
    let mut source = MemSource::new(bytes, Vec::new(alloc));
    let mut sink = MemSink::new(alloc, Vec::new(alloc));
    let mut link = ClosedLink::new();
    let mut clock = MemClock::new(Vec::new(alloc));
    let (status, table) = top(
        alloc,
        words.as_slice(),
        &mut source,
        &mut sink,
        table,
        &mut link,
        &mut clock,
    );
    drop(words);
    drop(source);
    drop(clock);
    let is_wanted = status == 0 && sink.as_slice() == wanted.1;
    drop(sink);
    Ok((is_wanted, table))
}

// Whether three sessions over this table, one after another, write what they should.
fn goes_on<T: Table + Drop>(alloc: Global, table: T) -> Result<bool, Fail> {
    let (begun, table) = session(alloc, table, BEGUN)?;
    let (ended, table) = session(alloc, table, ENDED)?;
    let (told, table) = session(alloc, table, TOLD)?;
    drop(table);
    Ok(begun && ended && told)
}

#[test]
fn sessions_go_on_over_a_table_that_is_handed_on(rt: HostRuntime) -> Result<(), Fail> {
    let alloc = rt.alloc();
    assert!(rt; goes_on(alloc, MapTable::new(alloc))?);
    Ok(())
}

#[test]
fn sessions_go_on_over_a_database_in_memory(rt: HostRuntime) -> Result<(), Fail> {
    let alloc = rt.alloc();
    assert!(rt; goes_on(alloc, RowTable::new(alloc, MemoryRows::new(alloc)))?);
    Ok(())
}
