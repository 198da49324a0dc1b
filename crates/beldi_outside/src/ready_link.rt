// A link that reads from many connections at once, and opens those whose request is whole.
ghost use Rattle.std.specs.Prelude.{◌≡◌, ◌≤◌, None};
ghost use Rattle.beldi_outside.specs.Outside.{counted};

use crate::traits::{Failed, Link};
use crate::watch::Watch;
use std::alloc::Global;
use std::io::{ErrorKind, Write};
use std::net::Net;
use std::time;

/// A link over TCP on 127.0.0.1 that holds up to 960 connections and reads from all of them, so that none waits for a
/// client that is slow. `accept` opens the connection that has been ready longest: its request is whole, as far as its
/// bytes tell, or the client sends no more. A client has ten seconds for its request, else its connection is opened and
/// breaks behind the bytes that came; and ten seconds to take its response, else it is dropped. One for which memory is
/// short is dropped as it comes, and opened all the same, after those that are ready: it breaks at once.
#[derive(Drop)]
pub struct ReadyLink<'a, R: Net + time::Clock, W: Write + Drop> {
    alloc: Global,
    system: &'a R,
    notes: W,
    watch: Option<Watch<'a, R>>,
    // The key of the open connection.
    open: Option<usize>,
    // Whether memory was short when it last refused to listen.
    short: bool,
    refusals: u64,
    faults: u64,
}

impl<'a, R: Net + time::Clock, W: Write + Drop> ReadyLink<'a, R, W> {
    /// A link that does not listen yet. Once it does, it writes a line to `notes` that says where.
    pub fn new(alloc: Global, system: &'a R, notes: W) -> Self
        ensures refusals { result.refusals ≡ 0 }
        ensures faults { result.faults ≡ 0 }
    {
        ReadyLink {
            alloc,
            system,
            notes,
            watch: None,
            open: None,
            short: false,
            refusals: 0,
            faults: 0,
        }
    }

    /// Sends what was written and is not sent yet, for which clients have ten seconds, and drops all connections. The
    /// link listens no more. A program calls it before it ends, or its last responses may be lost.
    pub fn finish(&mut self)
        ensures refusals { self.new.refusals ≡ self.old.refusals }
        ensures faults { self.new.faults ≡ self.old.faults }
    {
        self.part();
        if let Some(mut watch) = self.watch.take() {
            watch.finish();
            drop(watch);
        }
    }

    // Takes connections from a port, and says so.
    fn begin(&mut self, watch: Watch<'a, R>, port: u16)
        ensures refusals { self.new.refusals ≡ self.old.refusals }
        ensures faults { self.new.faults ≡ self.old.faults }
    {
        let port = watch.port().unwrap_or(port);
        self.open = None;
        drop(self.watch.replace(watch));
        tell(&mut self.notes, port);
    }

    // Ends the open connection.
    fn part(&mut self)
        ensures refusals { self.new.refusals ≡ self.old.refusals }
        ensures faults { self.new.faults ≡ self.old.faults }
    {
        if let (Some(watch), Some(key)) = (&mut self.watch, self.open) {
            watch.part(key);
        }
        self.open = None;
    }

    fn refuse(&mut self) -> Failed
        ensures one { self.new.refusals ≡ counted self.old.refusals }
        ensures rises { self.old.refusals ≤ self.new.refusals }
        ensures later { self.new.faults ≡ self.old.faults }
    {
        self.refusals = self.refusals.saturating_add(1);
        Failed
    }

    fn fault(&mut self) -> Failed
        ensures one { self.new.faults ≡ counted self.old.faults }
        ensures rises { self.old.faults ≤ self.new.faults }
        ensures later { self.new.refusals ≡ self.old.refusals }
    {
        self.faults = self.faults.saturating_add(1);
        Failed
    }
}

impl<R: Net + time::Clock, W: Write + Drop> Link for ReadyLink<'_, R, W> {
    ghost seen = { λ l. None };

    ghost refusals = { λ l. l.refusals };

    ghost faults = { λ l. l.faults };

    fn listen(&mut self, port: u16) -> Result<(), Failed> {
        match Watch::open(self.alloc, self.system, port) {
            Ok(watch) => {
                self.begin(watch, port);
                Ok(())
            }
            Err(error) => {
                self.short = error.kind() == ErrorKind::OutOfMemory;
                drop(error);
                Err(self.refuse())
            }
        }
    }

    fn is_short(&self) -> bool {
        self.short
    }

    fn accept(&mut self) -> Result<(), Failed> {
        self.part();
        let Some(watch) = &mut self.watch else {
            return Err(self.refuse());
        };
        self.open = watch.next();
        if self.open.is_some() {
            Ok(())
        } else {
            Err(self.refuse())
        }
    }

    fn read(&mut self, buf: &mut [u8]) -> Result<usize, Failed> {
        let (Some(watch), Some(key)) = (&mut self.watch, self.open) else {
            return Err(self.fault());
        };
        match watch.read(key, buf) {
            Some(count) => Ok(count),
            None => Err(self.fault()),
        }
    }

    /// Keeps all of `bytes`, at most 1,048,576 on one connection; they are sent once it is closed.
    fn write(&mut self, bytes: &[u8]) -> Result<usize, Failed> {
        let (Some(watch), Some(key)) = (&mut self.watch, self.open) else {
            return Err(self.fault());
        };
        if watch.write(key, bytes) {
            Ok(bytes.len())
        } else {
            Err(self.fault())
        }
    }

    fn close(&mut self) {
        self.part();
    }
}

// Says where the link listens. That nobody can be told is passed over.
fn tell<W: Write>(notes: &mut W, port: u16) {
    let _ = writeln!(notes, "listening on 127.0.0.1:{port}");
}
