// What stands outside, and what each call promises.
ghost use Rattle.std.specs.Prelude.{◌≡◌, ◌≤◌, ℕ, Option, List};
ghost use Rattle.beldi_outside.specs.Connection.{AcceptOn, Connections, LinkRead, LinkWrote, closed};
ghost use Rattle.beldi_outside.specs.Outside.{HasCause, IsWithin, Reads, Observed, Writes, ZeroIsFault};

/// A call to the outside failed. The count of the object that was called has risen, or stands at its type's end.
#[derive(Clone, Copy, Debug, PartialEq, Eq)]
pub struct Failed;

/// Gives bytes in order, up to an end: a file, a standard input, a text in memory.
pub trait Source {
    /// The bytes that are left, where it tells them.
    ghost left: { Self → Option (List ℕ) };

    /// How often it has failed.
    ghost faults: { Self → ℕ };

    /// Fills a front of `buf` with the next bytes, and answers how many. Zero for a buffer that is not empty comes only
    /// at the end. `Failed`: the read failed, and no byte is lost; it may be tried again.
    fn read(&mut self, buf: &mut [u8]) -> Result<usize, Failed>
        ensures bound { IsWithin buf.new result }
        ensures bytes { Reads (left self.old) (left self.new) buf.new result }
        ensures cause { HasCause (faults self.old) (faults self.new) result };
}

/// Takes bytes in order: a file, a standard output, a text in memory.
pub trait Sink {
    /// The bytes that it got, where it tells them.
    ghost held: { Self → Option (List ℕ) };

    /// How often it has failed, or took nothing of a piece that is not empty.
    ghost faults: { Self → ℕ };

    /// Takes a front of `bytes`, and answers how many it took. `Failed`: the write failed, and none was taken; it may be
    /// tried again.
    fn write(&mut self, bytes: &[u8]) -> Result<usize, Failed>
        ensures bound { IsWithin bytes.now result }
        ensures bytes { Writes (held self.old) (held self.new) bytes.now result }
        ensures cause { HasCause (faults self.old) (faults self.new) result }
        ensures zero { ZeroIsFault bytes.now result (faults self.old) (faults self.new) };
}

/// Listens on a port and serves one connection at a time.
pub trait Link {
    /// The open connection and the closed ones, where it tells them.
    ghost seen: { Self → Option Connections };

    /// How often `listen` and `accept` have failed.
    ghost refusals: { Self → ℕ };

    /// How often `read` and `write` have failed, or a `write` took nothing of a piece that is not empty.
    ghost faults: { Self → ℕ };

    /// Begins to listen on the TCP port. `Failed`: the port cannot be had; `refusals` has risen.
    fn listen(&mut self, port: u16) -> Result<(), Failed>
        ensures bytes { Observed (seen self.old) (seen self.new) (λ s t. t ≡ s) }
        ensures cause { HasCause (refusals self.old) (refusals self.new) result }
        ensures later { faults self.old ≤ faults self.new };

    /// Whether memory was short when it last refused to listen. A link need not tell.
    fn is_short(&self) -> bool {
        false
    }

    /// Opens the next connection, for which it may wait; one that is open is closed first. `Failed`: there is none, or
    /// the link does not listen; `refusals` has risen.
    fn accept(&mut self) -> Result<(), Failed>
        ensures bytes { Observed (seen self.old) (seen self.new) (AcceptOn result) }
        ensures cause { HasCause (refusals self.old) (refusals self.new) result }
        ensures later { faults self.old ≤ faults self.new };

    /// Fills a front of `buf` with the next bytes of the open connection, for which it may wait, and answers how many.
    /// Zero for a buffer that is not empty is the end of the connection. `Failed`: no connection is open, or it broke;
    /// `faults` has risen.
    fn read(&mut self, buf: &mut [u8]) -> Result<usize, Failed>
        ensures bound { IsWithin buf.new result }
        ensures bytes { Observed (seen self.old) (seen self.new) (LinkRead buf.new result) }
        ensures cause { HasCause (faults self.old) (faults self.new) result }
        ensures later { refusals self.old ≤ refusals self.new };

    /// Sends a front of `bytes` on the open connection, and answers how many. `Failed`: no connection is open, or it
    /// broke; `faults` has risen.
    fn write(&mut self, bytes: &[u8]) -> Result<usize, Failed>
        ensures bound { IsWithin bytes.now result }
        ensures bytes { Observed (seen self.old) (seen self.new) (LinkWrote bytes.now result) }
        ensures cause { HasCause (faults self.old) (faults self.new) result }
        ensures zero { ZeroIsFault bytes.now result (faults self.old) (faults self.new) }
        ensures later { refusals self.old ≤ refusals self.new };

    /// Ends the open connection. It cannot fail.
    fn close(&mut self)
        ensures bytes { Observed (seen self.old) (seen self.new) (λ s t. t ≡ closed s) }
        ensures later_refusals { refusals self.old ≤ refusals self.new }
        ensures later_faults { faults self.old ≤ faults self.new };
}

/// Tells moments.
pub trait Clock {
    /// What it may tell: the clock before, the moment, and the clock after.
    ghost tells: { Self → ℕ → Self → Type 0 };

    /// The moment of this call, in milliseconds. It cannot fail. It may lie before an earlier answer.
    fn now(&mut self) -> u64
        ensures { tells self.old result self.new };
}
