// A link in memory, for tests: it tells what came and went on each connection, and fails at the calls that it was given.
ghost use Rattle.std.specs.Prelude.{◌≡◌, ◌≤◌, ◌<◌, ◌+◌, ◌^◌, ◌-◌, min, max, map, take, length, vec_len, vec_capacity, option_copied, option_map, slice_get, Some, OnOk, OnErr, IsSome};
ghost use Rattle.beldi_outside.specs.Connection.{AcceptOn, LinkRead, LinkWrote, closed, closing, failed_once, fresh, took, wrote};
ghost use Rattle.beldi_outside.specs.MemoryLink.{Accepted, Listened, Took, Wrote, fail_open, new_link, refused_once, with_open};
ghost use Rattle.beldi_outside.specs.Memory.{failed};
ghost use Rattle.beldi_outside.specs.Outside.{HasCause, IsWithin, ZeroIsFault};

use crate::memory::FaultPlan;
use crate::traits::{Failed, Link};
use std::alloc::{AllocError, Global};
use std::collections::VecDeque;
use std::marker::Model;

// A connection in memory: what comes on it, how much of that was taken, and what was written.
#[derive(Drop)]
struct MemConnection {
    bytes: Vec<u8>,
    given: usize,
    output: Vec<u8>,
    faults: u64,
}

impl Model for MemConnection {
    ghost use Rattle.std.specs.Prelude.{◌≤◌, take, drop, length};
    ghost use Rattle.beldi_outside.specs.Connection.{Connection};

    ghost Value = { Connection };

    ghost view = { λ a. record { taken = take a.given a.bytes.items; left = drop a.given a.bytes.items; written = a.output.items; faults = a.faults } };

    ghost invariant = { λ a. a.given ≤ length a.bytes.items };
}

impl MemConnection {
    fn new(alloc: Global, bytes: Vec<u8>) -> MemConnection
        ensures { result ≡ fresh bytes.items }
    {
        MemConnection {
            bytes,
            given: 0,
            output: Vec::new(alloc),
            faults: 0,
        }
    }

    // Gives the next bytes, at most `most`.
    fn give(&mut self, buf: &mut [u8], most: usize) -> usize
        ensures count { result ≡ min (min (length buf.old) most) (length self.old.left) }
        ensures gives { self.new ≡ took result self.old }
        ensures bytes { take result buf.new ≡ take result self.old.left }
        ensures room { length buf.new ≡ length buf.old }
    {
        let rest = &self.bytes[self.given..];
        let count = buf.len().min(most).min(rest.len());
        buf[..count].copy_from_slice(&rest[..count]);
        self.given += count;
        count
    }

    // Keeps a front of the bytes, which is not empty unless they are.
    fn keep(&mut self, bytes: &[u8], count: usize) -> Result<(), AllocError>
        requires within { count ≤ length bytes.now }
        requires some { count ≡ 0 → length bytes.now ≡ 0 }
        ensures ok { OnOk result (self.new ≡ wrote bytes.now count self.old) }
        ensures err { OnErr result (self.new ≡ self.old) }
    {
        self.output.extend_from_slice(&bytes[..count])
    }

    fn fail(&mut self)
        ensures { self.new ≡ failed_once self.old }
    {
        self.faults = self.faults.saturating_add(1);
    }
}

// Adds the connection that is open, if one is, to the closed ones.
fn put_away(past: &mut Vec<MemConnection>, current: Option<MemConnection>)
    requires room { IsSome current → vec_len past.old < vec_capacity past.old }
    ensures items { past.new.items ≡ closing current past.old.items }
    ensures capacity { vec_capacity past.new ≡ vec_capacity past.old }
    ensures len { vec_len past.new ≤ vec_len past.old + 1 }
{
    if let Some(connection) = current {
        past.push_reserved(connection);
    }
}

/// A link on which given connections come, in turn, and whose calls fail where they are told to. The calls of `listen`,
/// `accept`, `read` and `write` are numbered together from 0, and those after number 4,294,967,295 have that number too.
#[derive(Drop)]
pub struct MemLink {
    alloc: Global,
    waiting: VecDeque<Vec<u8>>,
    current: Option<MemConnection>,
    past: Vec<MemConnection>,
    piece: usize,
    plan: FaultPlan,
    refusals: u64,
}

impl Model for MemLink {
    ghost use Rattle.std.specs.Prelude.{◌<◌, map, vec_len, vec_capacity, IsSome};
    ghost use Rattle.beldi_outside.specs.MemoryLink.{LinkState};

    ghost Value = { LinkState };

    ghost view = { λ a. record { seen = record { current = a.current; past = a.past.items }; coming = map (λ v. v.items) a.waiting.items; piece = a.piece; plan = a.plan; refusals = a.refusals } };

    ghost invariant = { λ a. (0 < a.piece) × (IsSome a.current → vec_len a.past < vec_capacity a.past) };
}

impl MemLink {
    /// A link on which these connections come, and whose calls fail just at the numbers of `fail`, and where memory is
    /// short. A read and a write move as many bytes as they may.
    pub fn new(alloc: Global, connections: Vec<Vec<u8>>, fail: Vec<u32>) -> MemLink
        ensures made { result ≡ new_link (map (λ v. v.items) connections.items) fail.items (2 ^ 64 - 1) }
    {
        MemLink::with_piece(alloc, connections, fail, usize::MAX)
    }

    /// The same, whose reads and writes move at most `piece` bytes, and at most one where `piece` is 0.
    pub fn with_piece(
        alloc: Global,
        connections: Vec<Vec<u8>>,
        fail: Vec<u32>,
        piece: usize,
    ) -> MemLink
        ensures made { result ≡ new_link (map (λ v. v.items) connections.items) fail.items (max piece 1) }
    {
        MemLink {
            alloc,
            waiting: VecDeque::from(connections),
            current: None,
            past: Vec::new(alloc),
            piece: piece.max(1),
            plan: FaultPlan::new(fail),
            refusals: 0,
        }
    }

    fn refuse(&mut self) -> Failed
        ensures one { self.new ≡ refused_once self.old }
        ensures later { self.old.refusals ≤ self.new.refusals }
    {
        self.plan.pass();
        self.refusals = self.refusals.saturating_add(1);
        Failed
    }

    fn fault(&mut self) -> Failed
        ensures one { self.new ≡ with_open self.old (fail_open self.old.seen.current) (failed self.old.plan) }
        ensures later { self.old.plan.faults ≤ self.new.plan.faults }
    {
        if let Some(connection) = &mut self.current {
            connection.fail();
        }
        self.plan.fault()
    }

    /// What was written on a closed connection; they are numbered from 0, the first one first.
    pub fn written(&self, at: usize) -> Option<&[u8]>
        ensures held { option_copied result ≡ option_map (λ c. c.written) (slice_get self.now.seen.past at) }
    {
        match self.past.get(at) {
            Some(connection) => Some(connection.output.as_slice()),
            None => None,
        }
    }
}

impl Link for MemLink {
    ghost seen = { λ l. Some l.seen };

    ghost refusals = { λ l. l.refusals };

    ghost faults = { λ l. l.plan.faults };

    fn listen(&mut self, _port: u16) -> Result<(), Failed>
        ensures exact { Listened self.old result self.new }
        ensures bytes { self.new.seen ≡ self.old.seen }
        ensures cause { HasCause self.old.refusals self.new.refusals result }
        ensures later { self.new.plan.faults ≡ self.old.plan.faults }
    {
        if self.plan.fails_now() {
            return Err(self.refuse());
        }
        self.plan.pass();
        Ok(())
    }

    /// Opens the next connection. `Failed`: the call's number is one that fails, none is to come, or memory is short.
    fn accept(&mut self) -> Result<(), Failed>
        ensures exact { Accepted self.old result self.new }
        ensures bytes { AcceptOn result self.old.seen self.new.seen }
        ensures cause { HasCause self.old.refusals self.new.refusals result }
        ensures later { self.new.plan.faults ≡ self.old.plan.faults }
    {
        if self.plan.fails_now() {
            return Err(self.refuse());
        }
        let Ok(()) = self.past.reserve(2) else {
            return Err(self.refuse());
        };
        match self.waiting.pop_front() {
            None => Err(self.refuse()),
            Some(bytes) => {
                put_away(&mut self.past, self.current.take());
                self.current = Some(MemConnection::new(self.alloc, bytes));
                self.plan.pass();
                Ok(())
            }
        }
    }

    fn read(&mut self, buf: &mut [u8]) -> Result<usize, Failed>
        ensures exact { Took (length buf.old) self.old result self.new }
        ensures bound { IsWithin buf.new result }
        ensures bytes { LinkRead buf.new result self.old.seen self.new.seen }
        ensures cause { HasCause self.old.plan.faults self.new.plan.faults result }
        ensures later { self.new.refusals ≡ self.old.refusals }
    {
        if self.plan.fails_now() {
            return Err(self.fault());
        }
        match &mut self.current {
            None => Err(self.fault()),
            Some(connection) => {
                let count = connection.give(buf, self.piece);
                self.plan.pass();
                Ok(count)
            }
        }
    }

    /// Takes all that it may. `Failed`: the call's number is one that fails, no connection is open, or memory is short.
    fn write(&mut self, bytes: &[u8]) -> Result<usize, Failed>
        ensures exact { Wrote bytes.now self.old result self.new }
        ensures bound { IsWithin bytes.now result }
        ensures bytes { LinkWrote bytes.now result self.old.seen self.new.seen }
        ensures cause { HasCause self.old.plan.faults self.new.plan.faults result }
        ensures zero { ZeroIsFault bytes.now result self.old.plan.faults self.new.plan.faults }
        ensures later { self.new.refusals ≡ self.old.refusals }
    {
        if self.plan.fails_now() {
            return Err(self.fault());
        }
        let count = bytes.len().min(self.piece);
        let kept = match &mut self.current {
            None => false,
            Some(connection) => connection.keep(bytes, count).is_ok(),
        };
        if !kept {
            return Err(self.fault());
        }
        self.plan.pass();
        Ok(count)
    }

    fn close(&mut self)
        ensures exact { self.new ≡ record self.old { seen = closed self.old.seen } }
    {
        put_away(&mut self.past, self.current.take());
    }
}
