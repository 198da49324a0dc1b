// Waits for the port and for all connections at once.
ghost use Rattle.std.specs.Prelude.{◌≤◌, length, IfSome};

use crate::peer::Moved;
use crate::peers::Peers;
use crate::traits::Clock;
use crate::wall_clock::WallClock;
use mio::net::TcpListener;
use mio::{Events, Interest, Poll, Registry, Token};
use std::alloc::Global;
use std::io::{self, ErrorKind};
use std::net::{Ipv4Addr, Net, SocketAddr};
use std::time::{self, Duration};

// The name of the port among the sockets that are ready. No connection has it.
const PORT: Token = Token(usize::MAX);

// The most sockets that one wait tells of.
const EVENTS: usize = 256;

// How often what took too long is looked for, in milliseconds.
const ROUND: u64 = 100;

/// A port that is listened on, and the connections that came.
#[derive(Drop)]
pub(crate) struct Watch<'a, C: time::Clock> {
    clock: WallClock<'a, C>,
    poll: Poll,
    events: Events,
    listener: Option<TcpListener>,
    // Whether connections may wait at the port.
    crowd: bool,
    peers: Peers,
    // The moment of the next look for what took too long.
    round: u64,
}

impl<'a, C: time::Clock> Watch<'a, C> {
    /// Listens on a port of 127.0.0.1, and on any that is free where 0 is asked for.
    pub(crate) fn open(alloc: Global, system: &'a C, port: u16) -> io::Result<Self>
    where
        C: Net,
    {
        let events = Events::with_capacity(alloc, EVENTS)?;
        match poll_port(system, port) {
            Ok((poll, listener)) => Ok(Watch {
                clock: WallClock::new(system),
                poll,
                events,
                listener: Some(listener),
                crowd: true,
                peers: Peers::new(alloc),
                round: 0,
            }),
            Err(error) => {
                drop(events);
                Err(error)
            }
        }
    }

    /// The port that is listened on, where the system tells it.
    pub(crate) fn port(&self) -> Option<u16> {
        let address = self.listener.as_ref()?.local_addr().ok()?;
        Some(address.port())
    }

    /// Waits for a connection whose request is whole, or of which no more comes, and gives its key. None: the system does
    /// not tell of sockets any more.
    pub(crate) fn next(&mut self) -> Option<usize> {
        for _ in 0..u64::MAX {
            if !self.turn(self.time_to_wait()) {
                return None;
            }
            if let Some(key) = self.peers.next_ready() {
                return Some(key);
            }
        }
        None
    }

    /// Gives the next bytes of a connection, for which it may wait. None: it broke, or its time is over.
    pub(crate) fn read(&mut self, key: usize, into: &mut [u8]) -> Option<usize>
        ensures bound { IfSome result (λ n. n ≤ length into.new) }
    {
        for _ in 0..u64::MAX {
            match self.peers.give(key, into) {
                Moved::Bytes(count) => return Some(count),
                Moved::Failed => return None,
                Moved::Again | Moved::Later => {}
            }
            if self.peers.is_late(key, self.clock.now()) || !self.turn(a_round()) {
                return None;
            }
        }
        None
    }

    /// Keeps bytes to be sent, and tells whether it could.
    pub(crate) fn write(&mut self, key: usize, bytes: &[u8]) -> bool {
        self.peers.put(key, bytes)
    }

    /// Begins to send what was written on a connection, after which it is dropped.
    pub(crate) fn part(&mut self, key: usize) {
        let now = self.clock.now();
        self.peers.part(self.poll.registry(), key, now);
    }

    /// Listens no more, and ends each connection once what was written on it is sent, or its time is over.
    pub(crate) fn finish(&mut self) {
        drop(self.listener.take());
        self.peers.keep_parting();
        for _ in 0..u64::MAX {
            if self.peers.is_empty() || !self.turn(a_round()) {
                return;
            }
        }
    }

    // Waits for sockets at most so long, and lets the connections go on. False: the system does not tell of sockets any
    // more.
    fn turn(&mut self, most: Option<Duration>) -> bool {
        if self.poll.poll(&mut self.events, most).is_err() {
            return false;
        }
        let now = self.clock.now();
        self.go_on(now);
        self.admit(now);
        if self.round <= now {
            self.round = now.saturating_add(ROUND);
            self.peers.run_out(now);
        }
        true
    }

    // How long a wait for a ready connection may be: for ever only where nothing can run out.
    fn time_to_wait(&self) -> Option<Duration> {
        if self.peers.has_ready() {
            Some(Duration::ZERO)
        } else if self.crowd || !self.peers.is_empty() {
            a_round()
        } else {
            None
        }
    }

    fn go_on(&mut self, now: u64) {
        for event in &self.events {
            let token = event.token();
            if token == PORT {
                self.crowd = true;
            } else {
                self.peers.go_on(token.0, now);
            }
        }
    }

    // Accepts what waits at the port, as long as there is room. Where the system refuses, it is tried again at the next
    // turn.
    fn admit(&mut self, now: u64) {
        let Some(listener) = &self.listener else {
            return;
        };
        for _ in 0..EVENTS {
            if !self.crowd || self.peers.is_full() {
                return;
            }
            match listener.accept() {
                Ok((stream, _)) => self.peers.admit(self.poll.registry(), stream, now),
                Err(error) => match error.kind() {
                    ErrorKind::Interrupted | ErrorKind::ConnectionAborted => {}
                    ErrorKind::WouldBlock => self.crowd = false,
                    _ => return,
                },
            }
        }
    }
}

// A poll that watches a port, and the port.
fn poll_port(system: &impl Net, port: u16) -> io::Result<(Poll, TcpListener)> {
    let poll = Poll::new(system)?;
    match listen(system, poll.registry(), port) {
        Ok(listener) => Ok((poll, listener)),
        Err(error) => {
            drop(poll);
            Err(error)
        }
    }
}

fn listen(system: &impl Net, registry: &Registry, port: u16) -> io::Result<TcpListener> {
    let address = SocketAddr::from((Ipv4Addr::LOCALHOST, port));
    let mut listener = TcpListener::bind(system, address)?;
    match registry.register(&mut listener, PORT, Interest::READABLE) {
        Ok(()) => Ok(listener),
        Err(error) => {
            drop(listener);
            Err(error)
        }
    }
}

fn a_round() -> Option<Duration> {
    Some(Duration::from_millis(ROUND))
}
