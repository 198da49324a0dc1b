// Requests as they come in, whole and a byte at a time, and what is written; the real link and the clock once.
use beldi_gateway::{CallReply, Desk, Served, TicketReply, serve_one};
use beldi_outside::{Link, MemLink, ReadyLink, WallClock};
use beldi_value::{Outcome, Value, or_drop};
use std::alloc::Global;
use std::io::{self, Read, Write};
use std::net::{Ipv4Addr, SocketAddr, TcpStream};
use std::test::Fail;

// A desk that has one function `f`, issues tickets in turn, and gives back what it is called with.
#[derive(Drop)]
struct EchoDesk {
    asked: u32,
}

impl Desk for EchoDesk {
    ghost use Rattle.std.specs.Prelude.{ℕ, List, Option, None, Some, codes, bytes_eq, if◌then◌else◌};

    ghost funcs = { λ d name. if bytes_eq name (codes "f") then Some 0 else None };

    ghost keeps = { λ d q x e. Unit {0} };

    fn func(&self, name: &[u8]) -> Option<u16> {
        if name == b"f".as_slice() {
            Some(0)
        } else {
            None
        }
    }

    fn ticket(&mut self) -> TicketReply {
        self.asked = self.asked.saturating_add(1);
        TicketReply::Issued(self.asked)
    }

    fn call(&mut self, _ticket: u32, _func: u16, args: Value) -> CallReply {
        self.asked = self.asked.saturating_add(1);
        CallReply::Reply(Outcome::Value(args))
    }

    fn reply(&mut self, ticket: u32) -> CallReply {
        self.asked = self.asked.saturating_add(1);
        match ticket {
            1 => CallReply::Running,
            2 => CallReply::Other,
            3 => CallReply::Gone,
            4 => CallReply::Fault,
            5 => CallReply::NoMemory,
            _ => CallReply::Unknown,
        }
    }
}

// The status of a response, the field `Allow`, and the body.
type Answer = (u16, &'static str, &'static str);

// A request, and the same of its response.
type Case = (&'static [u8], u16, &'static str, &'static str);

const CASES: [Case; 43] = [
    (b"POST /tickets HTTP/1.1\r\n\r\n", 200, "", "{\"ticket\":1}"),
    (
        b"\r\n\nPOST /tickets?a=/ HTTP/1.0\nA: b\n\nmore",
        200,
        "",
        "{\"ticket\":1}",
    ),
    (
        b"POST /call/f/7 HTTP/1.1\r\n\r\n",
        200,
        "",
        "{\"value\":null}",
    ),
    (
        b"POST /call/f/7 HTTP/1.1\r\ncontent-length: 5\r\n\r\n[1,2]x",
        200,
        "",
        "{\"value\":[1,2]}",
    ),
    (
        b"POST /call/f/7 HTTP/1.1\r\nContent-Length: 0000000000000000001\r\n\r\n3",
        200,
        "",
        "{\"value\":3}",
    ),
    (
        b"POST /call/f/7 HTTP/1.1\r\nExpect: 100-continue\r\nContent-Length: 1\r\n\r\n3",
        200,
        "",
        "{\"value\":3}",
    ),
    (
        b"GET /reply/1 HTTP/1.1\r\n\r\n",
        202,
        "",
        "{\"running\":true}",
    ),
    (
        b"GET /reply/2 HTTP/1.1\r\n\r\n",
        409,
        "",
        "{\"error\":\"other\"}",
    ),
    (
        b"GET /reply/3 HTTP/1.1\r\n\r\n",
        410,
        "",
        "{\"error\":\"gone\"}",
    ),
    (
        b"GET /reply/4 HTTP/1.1\r\n\r\n",
        503,
        "",
        "{\"error\":\"fault\"}",
    ),
    (
        b"GET /reply/5 HTTP/1.1\r\n\r\n",
        500,
        "",
        "{\"error\":\"memory\"}",
    ),
    (
        b"GET /reply/4294967295 HTTP/1.1\r\n\r\n",
        404,
        "",
        "{\"error\":\"ticket\"}",
    ),
    (
        b"GET /reply/9 HTTP/1.1\r\nContent-Length: 3\r\n\r\nabc",
        404,
        "",
        "{\"error\":\"ticket\"}",
    ),
    (b"\r", 400, "", "{\"error\":\"cut\"}"),
    (b"\r\n\r\n\r\n", 400, "", "{\"error\":\"cut\"}"),
    (
        b"POST /tickets HTTP/1.1\r\n",
        400,
        "",
        "{\"error\":\"cut\"}",
    ),
    (
        b"POST /tickets HTTP/1.1\r\nA: b\r\n\r",
        400,
        "",
        "{\"error\":\"cut\"}",
    ),
    (b"\x00\x01\n\n", 400, "", "{\"error\":\"head\"}"),
    (b"\r\r\n\n", 400, "", "{\"error\":\"head\"}"),
    (
        b"POST /tickets HTTP/2.0\r\n\r\n",
        400,
        "",
        "{\"error\":\"head\"}",
    ),
    (b"POST /tickets\r\n\r\n", 400, "", "{\"error\":\"head\"}"),
    (
        b"POST /tickets HTTP/1.1\r\nA b\r\n\r\n",
        400,
        "",
        "{\"error\":\"head\"}",
    ),
    (
        b"POST /tickets HTTP/1.1\r\nA: b\r\n c\r\n\r\n",
        400,
        "",
        "{\"error\":\"head\"}",
    ),
    (b"GET / HTTP/1.1\r\n\r\n", 404, "", "{\"error\":\"path\"}"),
    (
        b"GET /tickets/ HTTP/1.1\r\n\r\n",
        404,
        "",
        "{\"error\":\"path\"}",
    ),
    (
        b"POST /call/f HTTP/1.1\r\n\r\n",
        404,
        "",
        "{\"error\":\"path\"}",
    ),
    (
        b"POST /call//1 HTTP/1.1\r\n\r\n",
        404,
        "",
        "{\"error\":\"path\"}",
    ),
    (
        b"POST /call/f/1/2 HTTP/1.1\r\n\r\n",
        404,
        "",
        "{\"error\":\"path\"}",
    ),
    (
        b"GET /reply/?1 HTTP/1.1\r\n\r\n",
        404,
        "",
        "{\"error\":\"path\"}",
    ),
    (
        b"GET /tickets HTTP/1.1\r\nTransfer-Encoding: a\r\n\r\n",
        405,
        "Allow: POST\r\n",
        "{\"error\":\"method\"}",
    ),
    (
        b"get /reply/1 HTTP/1.1\r\n\r\n",
        405,
        "Allow: GET\r\n",
        "{\"error\":\"method\"}",
    ),
    (
        b"POST /call/f/1 HTTP/1.1\r\nTRANSFER-ENCODING: chunked\r\nContent-Length: x\r\n\r\n0\r\n\r\n",
        400,
        "",
        "{\"error\":\"coding\"}",
    ),
    (
        b"POST /call/f/1 HTTP/1.1\r\nContent-Length: 1\r\nContent-Length: 1\r\n\r\n1",
        400,
        "",
        "{\"error\":\"length\"}",
    ),
    (
        b"POST /call/f/1 HTTP/1.1\r\nContent-Length: +1\r\n\r\n1",
        400,
        "",
        "{\"error\":\"length\"}",
    ),
    (
        b"POST /call/f/1 HTTP/1.1\r\nContent-Length:\r\n\r\n1",
        400,
        "",
        "{\"error\":\"length\"}",
    ),
    (
        b"POST /call/f/1 HTTP/1.1\r\nContent-Length: 00000000000000000001\r\n\r\n1",
        400,
        "",
        "{\"error\":\"length\"}",
    ),
    (
        b"POST /call/f/1 HTTP/1.1\r\nContent-Length: 9999999999999999999\r\n\r\n1",
        413,
        "",
        "{\"error\":\"size\"}",
    ),
    (
        b"POST /call/f/1 HTTP/1.1\r\nContent-Length: 65537\r\n\r\n",
        413,
        "",
        "{\"error\":\"size\"}",
    ),
    (
        b"POST /call/f/x HTTP/1.1\r\nContent-Length: 65536\r\n\r\n1",
        400,
        "",
        "{\"error\":\"cut\"}",
    ),
    (
        b"POST /call/g/01 HTTP/1.1\r\n\r\n",
        404,
        "",
        "{\"error\":\"ticket\"}",
    ),
    (
        b"POST /call/g/4294967296 HTTP/1.1\r\n\r\n",
        404,
        "",
        "{\"error\":\"ticket\"}",
    ),
    (
        b"POST /call/\xc3\xa9/1 HTTP/1.1\r\nContent-Length: 1\r\n\r\nx",
        404,
        "",
        "{\"error\":\"function\"}",
    ),
    (
        b"POST /call/f/1 HTTP/1.1\r\nContent-Length: 3\r\n\r\n1.5",
        400,
        "",
        "{\"error\":\"value\"}",
    ),
];

// A link with one request, whose bytes come in pieces of this length.
fn link_of(alloc: Global, request: Vec<u8>, piece: usize) -> Result<MemLink, Fail> {
    let mut connections = Vec::new(alloc);
    or_drop!(connections.push(request); connections);
    Ok(MemLink::with_piece(alloc, connections, Vec::new(alloc), piece))
}

fn serve(alloc: Global, link: &mut MemLink) -> Result<Served, Fail> {
    let mut desk = EchoDesk { asked: 0 };
    if link.accept().is_err() {
        return Ok(Served::Fault);
    }
    let served = serve_one(alloc, &mut desk, link)?;
    link.close();
    Ok(served)
}

fn has_written(link: &MemLink, text: &[u8]) -> bool {
    match link.written(0) {
        Some(bytes) => bytes == text,
        None => false,
    }
}

fn phrase(status: u16) -> &'static str {
    match status {
        200 => "OK",
        202 => "Accepted",
        400 => "Bad Request",
        404 => "Not Found",
        405 => "Method Not Allowed",
        409 => "Conflict",
        410 => "Gone",
        413 => "Payload Too Large",
        431 => "Request Header Fields Too Large",
        500 => "Internal Server Error",
        _ => "Service Unavailable",
    }
}

// A response of this status, with this field and body.
fn response(alloc: Global, wanted: Answer) -> Result<String, Fail> {
    let (status, allow, body) = wanted;
    Ok(format!(in alloc;
        "HTTP/1.1 {status} {}\r\nContent-Type: application/json\r\n{allow}Content-Length: {}\r\nConnection: close\r\n\r\n{body}",
        phrase(status),
        body.len()
    )?)
}

// Whether a request is answered so.
fn is_answered(
    alloc: Global,
    request: Vec<u8>,
    piece: usize,
    wanted: Answer,
) -> Result<bool, Fail> {
    let mut link = link_of(alloc, request, piece)?;
    let served = or_drop!(serve(alloc, &mut link); link);
    let text = or_drop!(response(alloc, wanted); link);
    let is_written = has_written(&link, text.as_bytes());
    drop(link);
    drop(text);
    Ok(served == Served::Status(wanted.0) && is_written)
}

// Whether a connection without a byte is answered by none.
fn is_silent(alloc: Global) -> Result<bool, Fail> {
    let connections = Vec::from_array(alloc, [Vec::new(alloc)])?;
    let mut link = MemLink::new(alloc, connections, Vec::new(alloc));
    let served = or_drop!(serve(alloc, &mut link); link);
    let is_empty = has_written(&link, b"");
    drop(link);
    Ok(served == Served::Silent && is_empty)
}

// Whether a request is answered so where its bytes come in pieces of this length.
fn passes(alloc: Global, case: &Case, piece: usize) -> Result<bool, Fail> {
    let (request, status, allow, body) = *case;
    let request = Vec::from_slice(alloc, request)?;
    is_answered(alloc, request, piece, (status, allow, body))
}

#[test]
fn requests_are_answered(rt: HostRuntime) -> Result<(), Fail> {
    let alloc = rt.alloc();
    for case in &CASES {
        assert!(rt; passes(alloc, case, 1)? && passes(alloc, case, 4096)?);
    }
    assert!(rt; is_silent(alloc)?);
    Ok(())
}

fn repeat(bytes: &mut Vec<u8>, piece: &[u8], times: usize) -> Result<(), Fail> {
    for _ in 0..times {
        bytes.extend_from_slice(piece)?;
    }
    Ok(())
}

fn write_head(head: &mut Vec<u8>, fields: usize, slashes: usize) -> Result<(), Fail> {
    head.extend_from_slice(b"POST /")?;
    repeat(head, b"/", slashes)?;
    head.extend_from_slice(b"tickets HTTP/1.1\n")?;
    repeat(head, b"A:b\n", fields)?;
    Ok(head.push(b'\n')?)
}

// A request for a path that begins with so many slashes more than one. With one field its head has 28 bytes beside them.
fn long_head(alloc: Global, fields: usize, slashes: usize) -> Result<Vec<u8>, Fail> {
    let mut head = Vec::new(alloc);
    or_drop!(write_head(&mut head, fields, slashes); head);
    Ok(head)
}

// A call whose body has 65,536 bytes.
fn long_call(alloc: Global) -> Result<Vec<u8>, Fail> {
    let mut call = Vec::from_slice(alloc, b"POST /call/f/1 HTTP/1.1\nContent-Length: 65536\n\n")?;
    or_drop!(repeat(&mut call, b" ", 65_535); call);
    or_drop!(call.push(b'7'); call);
    Ok(call)
}

const TOO_LARGE: Answer = (431, "", "{\"error\":\"head-size\"}");

fn head_passes(alloc: Global, fields: usize, slashes: usize, wanted: Answer) -> Result<bool, Fail> {
    is_answered(alloc, long_head(alloc, fields, slashes)?, 100, wanted)
}

fn fields_are_counted(alloc: Global) -> Result<bool, Fail> {
    let ticket = (200, "", "{\"ticket\":1}");
    Ok(head_passes(alloc, 64, 0, ticket)? && head_passes(alloc, 65, 0, TOO_LARGE)?)
}

fn bytes_are_counted(alloc: Global) -> Result<bool, Fail> {
    let path = (404, "", "{\"error\":\"path\"}");
    Ok(head_passes(alloc, 1, 16_356, path)? && head_passes(alloc, 1, 16_357, TOO_LARGE)?)
}

fn long_call_passes(alloc: Global) -> Result<bool, Fail> {
    is_answered(alloc, long_call(alloc)?, 4096, (200, "", "{\"value\":7}"))
}

#[test]
fn limits_are_kept(rt: HostRuntime) -> Result<(), Fail> {
    let alloc = rt.alloc();
    assert!(rt; fields_are_counted(alloc)?);
    assert!(rt; bytes_are_counted(alloc)?);
    assert!(rt; long_call_passes(alloc)?);
    Ok(())
}

// Whether a client's request for a ticket is served, once it has come.
fn takes_and_sends<N: Link>(
    alloc: Global,
    link: &mut N,
    client: &mut TcpStream,
) -> Result<bool, Fail> {
    client.write_all(b"POST /tickets HTTP/1.1\r\n\r\n")?;
    let accepted = link.accept().is_ok();
    let mut desk = EchoDesk { asked: 0 };
    let served = serve_one(alloc, &mut desk, link)?;
    link.close();
    let mut piece = [0u8; 15];
    client.read_exact(&mut piece)?;
    Ok(accepted && served == Served::Status(200) && piece == *b"HTTP/1.1 200 OK")
}

// Whether a client is served beside one that came first and sends nothing.
fn serves_beside_another<N: Link>(rt: &HostRuntime, link: &mut N) -> Result<bool, Fail> {
    let server = SocketAddr::from((Ipv4Addr::LOCALHOST, 47_113));
    let idle = TcpStream::connect(rt, server)?;
    let mut client = or_drop!(TcpStream::connect(rt, server); idle);
    let passed = takes_and_sends(rt.alloc(), link, &mut client);
    drop(client);
    drop(idle);
    passed
}

#[test]
fn the_real_link_takes_and_sends(rt: HostRuntime) -> Result<(), Fail> {
    let mut link = ReadyLink::new(rt.alloc(), &rt, io::sink());
    assert!(rt; link.accept().is_err());
    assert!(rt; link.listen(47_113).is_ok());
    let passed = serves_beside_another(&rt, &mut link);
    link.finish();
    drop(link);
    assert!(rt; passed?);
    Ok(())
}

#[test]
fn the_wall_clock_goes_on(rt: HostRuntime) -> Result<(), Fail> {
    use beldi_outside::Clock;
    let mut clock = WallClock::new(&rt);
    let first = clock.now();
    assert!(rt; first <= clock.now());
    Ok(())
}
