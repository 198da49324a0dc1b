// A source and a sink over any reader and writer. They tell no bytes, and count each error.
ghost use Rattle.std.specs.Prelude.{◌≡◌, None};
ghost use Rattle.std.specs.Io.KnownBytes.{ReadConsumes, WriteAppends};
ghost use Rattle.beldi_outside.specs.Outside.{CountsReadErrors, CountsWriteErrors, HasCause, IsWithin, Reads, Writes, ZeroIsFault};

use crate::traits::{Failed, Sink, Source};
use std::io::{Read, Write};

/// A source over a reader, such as the standard input. Each error of the reader is a fault, an interrupted read too.
#[derive(Drop)]
pub struct StdSource<R: Read + Drop> {
    inner: R,
    faults: u64,
}

impl<R: Read + Drop> StdSource<R> {
    /// A source that gives what the reader gives.
    pub fn new(inner: R) -> Self
        ensures made { result ≡ record { inner = inner; faults = 0 } }
    {
        StdSource { inner, faults: 0 }
    }
}

impl<R: Read + Drop> Source for StdSource<R> {
    ghost left = { λ s. None };

    ghost faults = { λ s. s.faults };

    fn read(&mut self, buf: &mut [u8]) -> Result<usize, Failed>
        ensures given { ReadConsumes (R.remaining self.old.inner) (R.remaining self.new.inner) result buf.new }
        ensures counts { CountsReadErrors self.old.faults self.new.faults result }
        ensures bound { IsWithin buf.new result }
        ensures bytes { Reads None None buf.new result }
        ensures cause { HasCause self.old.faults self.new.faults result }
    {
        match self.inner.read(buf) {
            Ok(count) => Ok(count),
            Err(_) => {
                self.faults = self.faults.saturating_add(1);
                Err(Failed)
            }
        }
    }
}

/// A sink over a writer, such as the standard output. Each error of the writer is a fault, an interrupted write too, and
/// so is a write that takes nothing of a piece that is not empty.
#[derive(Drop)]
pub struct StdSink<W: Write + Drop> {
    inner: W,
    faults: u64,
}

impl<W: Write + Drop> StdSink<W> {
    /// A sink that hands its bytes to the writer.
    pub fn new(inner: W) -> Self
        ensures made { result ≡ record { inner = inner; faults = 0 } }
    {
        StdSink { inner, faults: 0 }
    }
}

impl<W: Write + Drop> Sink for StdSink<W> {
    ghost held = { λ s. None };

    ghost faults = { λ s. s.faults };

    fn write(&mut self, bytes: &[u8]) -> Result<usize, Failed>
        ensures handed { WriteAppends (W.contents self.old.inner) (W.contents self.new.inner) result bytes.now }
        ensures counts { CountsWriteErrors bytes.now self.old.faults self.new.faults result }
        ensures bound { IsWithin bytes.now result }
        ensures bytes { Writes None None bytes.now result }
        ensures cause { HasCause self.old.faults self.new.faults result }
        ensures zero { ZeroIsFault bytes.now result self.old.faults self.new.faults }
    {
        match self.inner.write(bytes) {
            Ok(count) => {
                if count == 0 && !bytes.is_empty() {
                    self.faults = self.faults.saturating_add(1);
                }
                Ok(count)
            }
            Err(_) => {
                self.faults = self.faults.saturating_add(1);
                Err(Failed)
            }
        }
    }
}
