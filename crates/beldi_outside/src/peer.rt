// One connection, from its first byte until it is dropped. No call waits.
ghost use Rattle.std.specs.Prelude.{ℕ, List};
ghost use Rattle.std.specs.Io.{ReadsAtMost};
ghost use Rattle.beldi_outside.specs.Ready.{MovesWithin};

use crate::buffer::Buffer;
use crate::progress::Progress;
use mio::net::TcpStream;
use mio::{Interest, Registry, Token};
use std::alloc::Global;
use std::io::{self, ErrorKind, Read, Write};
use std::net::Shutdown;

// How long a client may take for its request, and again for its response, in milliseconds.
const PATIENCE: u64 = 10_000;

// How long a client may take to end its side once it was answered, in milliseconds.
const LINGER: u64 = 500;

// The most bytes that are passed over after the answer.
const MAX_PASSED: usize = 65_536;

// The most bytes that are written on one connection.
const MAX_OUTPUT: usize = 1_048_576;

// The bytes of one read.
const PIECE: usize = 4096;

/// What one read or write came to.
#[derive(Clone, Copy, PartialEq, Eq)]
pub(crate) enum Moved {
    /// So many bytes. None is the end of the connection.
    Bytes(usize),
    /// It was interrupted.
    Again,
    /// Nothing, until the socket is ready.
    Later,
    /// The connection is broken.
    Failed,
}

/// What is to become of a connection.
#[derive(Clone, Copy, PartialEq, Eq)]
pub(crate) enum Next {
    /// It waits for its socket.
    Wait,
    /// It is ready to be opened.
    Open,
    /// It is dropped.
    Drop,
}

#[derive(Clone, Copy, PartialEq, Eq)]
enum PeerPhase {
    // Its request comes.
    Coming,
    // Its request is whole, or no more of it comes: it waits to be opened, or is open.
    Ready,
    // What was written is sent.
    Sending,
    // All was sent, and what still comes is passed over.
    Parting,
}

// Whether more may come.
#[derive(Clone, Copy, PartialEq, Eq)]
enum Side {
    Open,
    Closed,
    Broken,
}

/// A connection, and what waits on it.
#[derive(Drop)]
pub(crate) struct Peer {
    stream: TcpStream,
    stage: PeerPhase,
    side: Side,
    // The moment at which its stage is over.
    until: u64,
    progress: Progress,
    input: Buffer,
    output: Buffer,
    passed: usize,
}

impl Peer {
    /// A connection that was accepted now.
    pub(crate) fn new(alloc: Global, stream: TcpStream, now: u64) -> Peer {
        Peer {
            stream,
            stage: PeerPhase::Coming,
            side: Side::Open,
            until: now.saturating_add(PATIENCE),
            progress: Progress::new(),
            input: Buffer::new(alloc),
            output: Buffer::new(alloc),
            passed: 0,
        }
    }

    /// Does what its socket is ready for.
    pub(crate) fn go_on(&mut self, now: u64) -> Next {
        match self.stage {
            PeerPhase::Coming => self.gather(),
            PeerPhase::Ready => Next::Wait,
            PeerPhase::Sending => self.send(now),
            PeerPhase::Parting => self.pass_over(),
        }
    }

    /// Ends what took too long.
    pub(crate) fn run_out(&mut self, now: u64) -> Next {
        if !self.is_late(now) {
            return Next::Wait;
        }
        match self.stage {
            PeerPhase::Coming => match self.gather() {
                Next::Wait => self.be_ready(Side::Broken),
                next => next,
            },
            PeerPhase::Ready => Next::Wait,
            PeerPhase::Sending | PeerPhase::Parting => Next::Drop,
        }
    }

    /// Whether its time is over.
    pub(crate) fn is_late(&self, now: u64) -> bool {
        self.until <= now
    }

    /// Whether it was closed, and its end is on the way.
    pub(crate) fn is_parting(&self) -> bool {
        matches!(self.stage, PeerPhase::Sending | PeerPhase::Parting)
    }

    /// Gives the next bytes of its request.
    pub(crate) fn give(&mut self, into: &mut [u8]) -> Moved
        ensures bound { MovesWithin into.new result }
    {
        if into.is_empty() {
            return Moved::Bytes(0);
        }
        if self.input.rest().is_empty() {
            self.read_on();
        }
        let count = self.input.give(into);
        match self.side {
            Side::Open if count == 0 => Moved::Later,
            Side::Broken if count == 0 => Moved::Failed,
            _ => Moved::Bytes(count),
        }
    }

    /// Keeps bytes to be sent, and tells whether it could: there is room for 1,048,576, as far as memory goes.
    pub(crate) fn put(&mut self, bytes: &[u8]) -> bool {
        let room = MAX_OUTPUT.saturating_sub(self.output.rest().len());
        bytes.len() <= room && self.output.put(bytes).is_ok()
    }

    /// Begins to send what was written.
    pub(crate) fn part(&mut self, now: u64) -> Next {
        self.stage = PeerPhase::Sending;
        self.until = now.saturating_add(PATIENCE);
        self.send(now)
    }

    /// Has the poll report it when it can be written, too.
    pub(crate) fn watch_writing(&mut self, registry: &Registry, key: usize) -> io::Result<()> {
        let both = Interest::READABLE | Interest::WRITABLE;
        registry.reregister(&mut self.stream, Token(key), both)
    }

    // Reads until the request is whole.
    fn gather(&mut self) -> Next {
        let mut piece = [0u8; PIECE];
        for _ in 0..u64::MAX {
            match move_of(self.stream.read(&mut piece)) {
                Moved::Bytes(0) => return self.be_ready(Side::Closed),
                Moved::Bytes(count) => {
                    if self.keep(&piece[..count]) {
                        return self.be_ready(self.side);
                    }
                }
                Moved::Again => {}
                Moved::Later => return Next::Wait,
                Moved::Failed => return self.be_ready(Side::Broken),
            }
        }
        Next::Wait
    }

    // Keeps bytes of the request, and tells whether no more are waited for.
    fn keep(&mut self, bytes: &[u8]) -> bool {
        if self.input.put(bytes).is_err() {
            self.side = Side::Broken;
            return true;
        }
        self.progress.look(self.input.rest());
        self.progress.is_whole()
    }

    fn be_ready(&mut self, side: Side) -> Next {
        self.side = side;
        self.stage = PeerPhase::Ready;
        Next::Open
    }

    // Reads once more, for who asks for more than what is a whole request.
    fn read_on(&mut self) {
        if self.side != Side::Open {
            return;
        }
        self.input.clear();
        let mut piece = [0u8; PIECE];
        match move_of(self.stream.read(&mut piece)) {
            Moved::Bytes(0) => self.side = Side::Closed,
            Moved::Bytes(count) => {
                if self.input.put(&piece[..count]).is_err() {
                    self.side = Side::Broken;
                }
            }
            Moved::Again | Moved::Later => {}
            Moved::Failed => self.side = Side::Broken,
        }
    }

    // Writes until all is sent.
    fn send(&mut self, now: u64) -> Next {
        for _ in 0..u64::MAX {
            let rest = self.output.rest();
            if rest.is_empty() {
                return self.end_writing(now);
            }
            match move_of(self.stream.write(rest)) {
                Moved::Bytes(0) | Moved::Failed => return Next::Drop,
                Moved::Bytes(count) => self.output.pass(count),
                Moved::Again => {}
                Moved::Later => return Next::Wait,
            }
        }
        Next::Drop
    }

    // Ends the writing side. A drop while bytes are unread would reset the connection, and the answer might be lost.
    fn end_writing(&mut self, now: u64) -> Next {
        if self.side != Side::Open || self.stream.shutdown(Shutdown::Write).is_err() {
            return Next::Drop;
        }
        self.stage = PeerPhase::Parting;
        self.until = now.saturating_add(LINGER);
        self.pass_over()
    }

    // Reads what nobody asked for.
    fn pass_over(&mut self) -> Next {
        let mut piece = [0u8; PIECE];
        for _ in 0..u64::MAX {
            match move_of(self.stream.read(&mut piece)) {
                Moved::Bytes(0) | Moved::Failed => return Next::Drop,
                Moved::Bytes(count) => self.passed = self.passed.saturating_add(count),
                Moved::Again => {}
                Moved::Later => return Next::Wait,
            }
            if MAX_PASSED <= self.passed {
                return Next::Drop;
            }
        }
        Next::Drop
    }
}

// What a read or a write came to.
fn move_of(answer: io::Result<usize>) -> Moved
    ensures bound { (room : List ℕ) → ReadsAtMost answer room → MovesWithin room result }
{
    match answer {
        Ok(count) => Moved::Bytes(count),
        Err(error) => match error.kind() {
            ErrorKind::Interrupted => Moved::Again,
            ErrorKind::WouldBlock => Moved::Later,
            _ => Moved::Failed,
        },
    }
}
