// Objects in memory, for tests: they tell their bytes, and fail at the calls that they were given.
ghost use Rattle.std.specs.Prelude.{◌≡◌, ◌≤◌, ◌^◌, ◌-◌, max, drop, length, [], None, Some, IsErr};
ghost use Rattle.beldi_outside.specs.Outside.{HasCause, IsWithin, Reads, Writes, ZeroIsFault};
ghost use Rattle.beldi_outside.specs.Memory.{ClockState, SinkWrote, SourceRead, failed, fails_now, faulted, new_sink, new_source, passed, refused, told_next};

use crate::traits::{Clock, Failed, Link, Sink, Source};
use std::alloc::Global;
use std::marker::Model;

// The calls that are to fail, by their numbers, and the count of those that did.
#[derive(Drop)]
pub(crate) struct FaultPlan {
    fail: Vec<u32>,
    call: u32,
    faults: u64,
}

impl Model for FaultPlan {
    ghost use Rattle.beldi_outside.specs.Memory.{Plan};

    ghost Value = { Plan };

    ghost view = { λ a. record { fail = a.fail.items; call = a.call; faults = a.faults } };
}

impl FaultPlan {
    pub(crate) fn new(fail: Vec<u32>) -> FaultPlan
        ensures { result ≡ record { fail = fail.items; call = 0; faults = 0 } }
    {
        FaultPlan {
            fail,
            call: 0,
            faults: 0,
        }
    }

    pub(crate) fn fails_now(&self) -> bool
        ensures { result ≡ fails_now self.now }
    {
        self.fail.contains(&self.call)
    }

    pub(crate) fn pass(&mut self)
        ensures { self.new ≡ passed self.old }
    {
        self.call = self.call.saturating_add(1);
    }

    pub(crate) fn fault(&mut self) -> Failed
        ensures one { self.new ≡ failed self.old }
        ensures later { self.old.faults ≤ self.new.faults }
    {
        self.call = self.call.saturating_add(1);
        self.faults = self.faults.saturating_add(1);
        Failed
    }
}

/// A source of given bytes, whose reads fail where they are told to. Reads are numbered from 0, and those after number
/// 4,294,967,295 have that number too.
#[derive(Drop)]
pub struct MemSource {
    bytes: Vec<u8>,
    taken: usize,
    piece: usize,
    plan: FaultPlan,
}

impl Model for MemSource {
    ghost use Rattle.std.specs.Prelude.{◌≤◌, ◌<◌, drop, length};
    ghost use Rattle.beldi_outside.specs.Memory.{SourceState};

    ghost Value = { SourceState };

    ghost view = { λ a. record { bytes = drop a.taken a.bytes.items; piece = a.piece; plan = a.plan } };

    ghost invariant = { λ a. (a.taken ≤ length a.bytes.items) × (0 < a.piece) };
}

impl MemSource {
    /// A source whose reads give as many bytes as the buffer takes, and fail just at the numbers of `fail`.
    pub fn new(bytes: Vec<u8>, fail: Vec<u32>) -> MemSource
        ensures made { result ≡ new_source bytes.items fail.items (2 ^ 64 - 1) }
    {
        MemSource::with_piece(bytes, fail, usize::MAX)
    }

    /// The same, whose reads give at most `piece` bytes, and at most one where `piece` is 0.
    pub fn with_piece(bytes: Vec<u8>, fail: Vec<u32>, piece: usize) -> MemSource
        ensures made { result ≡ new_source bytes.items fail.items (max piece 1) }
    {
        MemSource {
            bytes,
            taken: 0,
            piece: piece.max(1),
            plan: FaultPlan::new(fail),
        }
    }
}

impl Source for MemSource {
    ghost left = { λ s. Some s.bytes };

    ghost faults = { λ s. s.plan.faults };

    fn read(&mut self, buf: &mut [u8]) -> Result<usize, Failed>
        ensures exact { SourceRead (length buf.old) self.old result self.new }
        ensures bound { IsWithin buf.new result }
        ensures bytes { Reads (Some self.old.bytes) (Some self.new.bytes) buf.new result }
        ensures cause { HasCause self.old.plan.faults self.new.plan.faults result }
    {
        if self.plan.fails_now() {
            return Err(self.plan.fault());
        }
        self.plan.pass();
        let rest = &self.bytes[self.taken..];
        let count = buf.len().min(self.piece).min(rest.len());
        buf[..count].copy_from_slice(&rest[..count]);
        self.taken += count;
        Ok(count)
    }
}

/// A sink that keeps its bytes, whose writes fail where they are told to. Writes are numbered from 0, and those after
/// number 4,294,967,295 have that number too.
#[derive(Drop)]
pub struct MemSink {
    bytes: Vec<u8>,
    piece: usize,
    plan: FaultPlan,
}

impl Model for MemSink {
    ghost use Rattle.std.specs.Prelude.{◌<◌};
    ghost use Rattle.beldi_outside.specs.Memory.{SinkState};

    ghost Value = { SinkState };

    ghost view = { λ a. record { bytes = a.bytes.items; piece = a.piece; plan = a.plan } };

    ghost invariant = { λ a. 0 < a.piece };
}

impl MemSink {
    /// A sink whose writes take all that they are given, and fail at the numbers of `fail`, and where memory is short.
    pub fn new(alloc: Global, fail: Vec<u32>) -> MemSink
        ensures made { result ≡ new_sink fail.items (2 ^ 64 - 1) }
    {
        MemSink::with_piece(alloc, fail, usize::MAX)
    }

    /// The same, whose writes take at most `piece` bytes, and at most one where `piece` is 0.
    pub fn with_piece(alloc: Global, fail: Vec<u32>, piece: usize) -> MemSink
        ensures made { result ≡ new_sink fail.items (max piece 1) }
    {
        MemSink {
            bytes: Vec::new(alloc),
            piece: piece.max(1),
            plan: FaultPlan::new(fail),
        }
    }

    /// The bytes that it got.
    pub fn as_slice(&self) -> &[u8]
        ensures held { result.now ≡ self.now.bytes }
    {
        self.bytes.as_slice()
    }
}

impl Sink for MemSink {
    ghost held = { λ s. Some s.bytes };

    ghost faults = { λ s. s.plan.faults };

    /// Takes all that it may. `Failed`: the write's number is one that fails, or memory is short.
    fn write(&mut self, bytes: &[u8]) -> Result<usize, Failed>
        ensures exact { SinkWrote bytes.now self.old result self.new }
        ensures bound { IsWithin bytes.now result }
        ensures bytes { Writes (Some self.old.bytes) (Some self.new.bytes) bytes.now result }
        ensures cause { HasCause self.old.plan.faults self.new.plan.faults result }
        ensures zero { ZeroIsFault bytes.now result self.old.plan.faults self.new.plan.faults }
    {
        if self.plan.fails_now() {
            return Err(self.plan.fault());
        }
        let count = bytes.len().min(self.piece);
        match self.bytes.extend_from_slice(&bytes[..count]) {
            Ok(()) => {
                self.plan.pass();
                Ok(count)
            }
            Err(_) => Err(self.plan.fault()),
        }
    }
}

/// A link with no port to listen on: it refuses each `listen` and `accept`, and each `read` and `write` fails.
#[derive(Clone, Copy, Debug, PartialEq, Eq)]
pub struct ClosedLink {
    /// Calls of `listen` and `accept`.
    pub refusals: u64,
    /// Calls of `read` and `write`.
    pub faults: u64,
}

impl ClosedLink {
    /// A link that was not called yet.
    pub fn new() -> ClosedLink
        ensures made { result ≡ record { refusals = 0; faults = 0 } }
    {
        ClosedLink {
            refusals: 0,
            faults: 0,
        }
    }

    fn refuse(&mut self) -> Failed
        ensures one { self.new ≡ refused self.old }
        ensures later { self.old.refusals ≤ self.new.refusals }
    {
        self.refusals = self.refusals.saturating_add(1);
        Failed
    }

    fn fault(&mut self) -> Failed
        ensures one { self.new ≡ faulted self.old }
        ensures later { self.old.faults ≤ self.new.faults }
    {
        self.faults = self.faults.saturating_add(1);
        Failed
    }
}

impl Link for ClosedLink {
    ghost seen = { λ l. Some (record { current = None; past = [] }) };

    ghost refusals = { λ l. l.refusals };

    ghost faults = { λ l. l.faults };

    fn listen(&mut self, _port: u16) -> Result<(), Failed>
        ensures refuses { IsErr result }
        ensures counts { self.new ≡ refused self.old }
        ensures cause { HasCause self.old.refusals self.new.refusals result }
    {
        Err(self.refuse())
    }

    fn accept(&mut self) -> Result<(), Failed>
        ensures refuses { IsErr result }
        ensures counts { self.new ≡ refused self.old }
        ensures cause { HasCause self.old.refusals self.new.refusals result }
    {
        Err(self.refuse())
    }

    fn read(&mut self, _buf: &mut [u8]) -> Result<usize, Failed>
        ensures fails { IsErr result }
        ensures counts { self.new ≡ faulted self.old }
        ensures cause { HasCause self.old.faults self.new.faults result }
    {
        Err(self.fault())
    }

    fn write(&mut self, _bytes: &[u8]) -> Result<usize, Failed>
        ensures fails { IsErr result }
        ensures counts { self.new ≡ faulted self.old }
        ensures cause { HasCause self.old.faults self.new.faults result }
    {
        Err(self.fault())
    }

    fn close(&mut self)
        ensures same { self.new ≡ self.old }
    {}
}

/// A clock that tells given moments in turn, then the last one again, and 0 where it has none.
#[derive(Drop)]
pub struct MemClock {
    moments: Vec<u64>,
    next: usize,
    last: u64,
}

impl Model for MemClock {
    ghost use Rattle.std.specs.Prelude.{drop};
    ghost use Rattle.beldi_outside.specs.Memory.{ClockState};

    ghost Value = { ClockState };

    ghost view = { λ a. record { last = a.last; coming = drop a.next a.moments.items } };
}

impl MemClock {
    /// A clock whose first answer is the first of the moments.
    pub fn new(moments: Vec<u64>) -> MemClock
        ensures made { result ≡ record { last = 0; coming = moments.items } }
    {
        MemClock {
            moments,
            next: 0,
            last: 0,
        }
    }
}

impl Clock for MemClock {
    ghost tells = { λ c m d. (d ≡ told_next c) × (m ≡ d.last) };

    fn now(&mut self) -> u64 {
        if let Some(moment) = self.moments.get(self.next) {
            self.last = *moment;
            self.next += 1;
        }
        self.last
    }
}
