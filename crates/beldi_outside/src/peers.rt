// The connections that are held, by their keys, and the queue of those that are ready to be opened.
ghost use Rattle.beldi_outside.specs.Ready.{MovesWithin};

use crate::peer::{Moved, Next, Peer};
use mio::net::TcpStream;
use mio::{Interest, Registry, Token};
use slab::Slab;
use std::alloc::Global;
use std::collections::VecDeque;

// The most connections that are held: a process may mostly have 1,024 files open, and has others too.
const MAX_PEERS: usize = 960;

// A key that no connection has: it stands for one that was lost.
const LOST: usize = usize::MAX;

/// The connections that are held.
#[derive(Drop)]
pub(crate) struct Peers {
    alloc: Global,
    slots: Slab<Peer>,
    // Each key is here once at most.
    ready: VecDeque<usize>,
    // How many were dropped as memory was short, and are still to be opened: each of them breaks at once.
    lost: usize,
}

impl Peers {
    /// None is held.
    pub(crate) fn new(alloc: Global) -> Peers {
        Peers {
            alloc,
            slots: Slab::new(alloc),
            ready: VecDeque::new(alloc),
            lost: 0,
        }
    }

    pub(crate) fn is_empty(&self) -> bool {
        self.slots.is_empty()
    }

    pub(crate) fn is_full(&self) -> bool {
        MAX_PEERS <= self.slots.len()
    }

    /// Whether a connection is ready to be opened.
    pub(crate) fn has_ready(&self) -> bool {
        0 < self.lost || !self.ready.is_empty()
    }

    /// The key of the connection that has been ready longest, and after all of them of one that was lost. It is ready no more.
    pub(crate) fn next_ready(&mut self) -> Option<usize> {
        if self.ready.is_empty() && 0 < self.lost {
            self.lost -= 1;
            return Some(LOST);
        }
        self.ready.pop_front()
    }

    /// Takes up a connection that was accepted now. Where the system or memory is short of what it needs, it is lost.
    pub(crate) fn admit(&mut self, registry: &Registry, mut stream: TcpStream, now: u64) {
        let key = self.slots.vacant_key();
        let _ = stream.set_nodelay(true);
        let watched = registry.register(&mut stream, Token(key), Interest::READABLE);
        if watched.is_err() {
            drop(stream);
            self.lose();
            return;
        }
        match self.slots.insert(Peer::new(self.alloc, stream, now)) {
            Ok(_) => self.go_on(key, now),
            Err(refused) => {
                drop(refused);
                self.lose();
            }
        }
    }

    // Counts a connection that was dropped.
    fn lose(&mut self) {
        self.lost = self.lost.saturating_add(1);
    }

    /// Lets a connection do what its socket is ready for.
    pub(crate) fn go_on(&mut self, key: usize, now: u64) {
        if let Some(peer) = self.slots.get_mut(key) {
            let next = peer.go_on(now);
            self.follow(key, next);
        }
    }

    /// Ends what took too long.
    pub(crate) fn run_out(&mut self, now: u64) {
        for key in 0..MAX_PEERS {
            self.run_out_at(key, now);
        }
    }

    fn run_out_at(&mut self, key: usize, now: u64) {
        if let Some(peer) = self.slots.get_mut(key) {
            let next = peer.run_out(now);
            self.follow(key, next);
        }
    }

    /// Gives the next bytes of a connection.
    pub(crate) fn give(&mut self, key: usize, into: &mut [u8]) -> Moved
        ensures bound { MovesWithin into.new result }
    {
        match self.slots.get_mut(key) {
            Some(peer) => peer.give(into),
            None => Moved::Failed,
        }
    }

    /// Keeps bytes to be sent, and tells whether it could.
    pub(crate) fn put(&mut self, key: usize, bytes: &[u8]) -> bool {
        match self.slots.get_mut(key) {
            Some(peer) => peer.put(bytes),
            None => false,
        }
    }

    /// Whether the time of a connection is over.
    pub(crate) fn is_late(&self, key: usize, now: u64) -> bool {
        match self.slots.get(key) {
            Some(peer) => peer.is_late(now),
            None => true,
        }
    }

    /// Begins to send what was written on a connection, after which it is dropped.
    pub(crate) fn part(&mut self, registry: &Registry, key: usize, now: u64) {
        let Some(peer) = self.slots.get_mut(key) else {
            return;
        };
        let mut next = peer.part(now);
        if next == Next::Wait && peer.watch_writing(registry, key).is_err() {
            next = Next::Drop;
        }
        self.follow(key, next);
    }

    /// Drops each connection that was not closed.
    pub(crate) fn keep_parting(&mut self) {
        self.ready.clear();
        self.slots.retain(|_, peer| peer.is_parting());
    }

    fn follow(&mut self, key: usize, next: Next) {
        match next {
            Next::Wait => {}
            Next::Open => {
                if self.ready.push_back(key).is_err() {
                    drop(self.slots.try_remove(key));
                    self.lose();
                }
            }
            Next::Drop => drop(self.slots.try_remove(key)),
        }
    }
}
