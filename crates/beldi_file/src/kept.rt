// A sink and a link that keep a file before each write.
ghost use Rattle.std.specs.Prelude.{None};

use crate::kept_file::KeptFile;
use beldi_outside::{Failed, Link, Sink};
use sqlite::Alter;
use std::cell::RefCell;

// Keeps what is done in the file; false where it cannot be.
fn keeps<S: Alter + Drop>(file: &RefCell<KeptFile<S>>) -> bool {
    match file.try_borrow_mut() {
        Ok(mut file) => file.keep().is_ok(),
        Err(_) => false,
    }
}

/// A sink over another one, which keeps a file before each write: what is written tells of nothing that the file may lose. Where the
/// file cannot keep it, the write fails.
#[derive(Drop)]
pub struct KeptSink<'a, K: Sink + Drop, S: Alter + Drop> {
    sink: K,
    file: &'a RefCell<KeptFile<S>>,
    faults: u64,
}

impl<'a, K: Sink + Drop, S: Alter + Drop> KeptSink<'a, K, S> {
    /// A sink over this one, for this file.
    pub fn new(sink: K, file: &'a RefCell<KeptFile<S>>) -> Self {
        KeptSink {
            sink,
            file,
            faults: 0,
        }
    }
}

impl<K: Sink + Drop, S: Alter + Drop> Sink for KeptSink<'_, K, S> {
    ghost held = { λ s. None };

    ghost faults = { λ s. s.faults };

    fn write(&mut self, bytes: &[u8]) -> Result<usize, Failed> {
        if keeps(self.file) {
            if let Ok(count) = self.sink.write(bytes) {
                if count == 0 && !bytes.is_empty() {
                    self.faults = self.faults.saturating_add(1);
                }
                return Ok(count);
            }
        }
        self.faults = self.faults.saturating_add(1);
        Err(Failed)
    }
}

/// A link over another one, which keeps a file before each write, as `KeptSink` does.
#[derive(Drop)]
pub struct KeptLink<'a, N: Link, S: Alter + Drop> {
    link: &'a mut N,
    file: &'a RefCell<KeptFile<S>>,
    refusals: u64,
    faults: u64,
}

impl<'a, N: Link, S: Alter + Drop> KeptLink<'a, N, S> {
    /// A link over this one, for this file.
    pub fn new(link: &'a mut N, file: &'a RefCell<KeptFile<S>>) -> Self {
        KeptLink {
            link,
            file,
            refusals: 0,
            faults: 0,
        }
    }
}

impl<N: Link, S: Alter + Drop> Link for KeptLink<'_, N, S> {
    ghost seen = { λ s. None };

    ghost refusals = { λ s. s.refusals };

    ghost faults = { λ s. s.faults };

    fn listen(&mut self, port: u16) -> Result<(), Failed> {
        match self.link.listen(port) {
            Ok(()) => Ok(()),
            Err(_) => {
                self.refusals = self.refusals.saturating_add(1);
                Err(Failed)
            }
        }
    }

    fn accept(&mut self) -> Result<(), Failed> {
        match self.link.accept() {
            Ok(()) => Ok(()),
            Err(_) => {
                self.refusals = self.refusals.saturating_add(1);
                Err(Failed)
            }
        }
    }

    fn read(&mut self, buf: &mut [u8]) -> Result<usize, Failed> {
        match self.link.read(buf) {
            Ok(count) => Ok(count),
            Err(_) => {
                self.faults = self.faults.saturating_add(1);
                Err(Failed)
            }
        }
    }

    fn write(&mut self, bytes: &[u8]) -> Result<usize, Failed> {
        if !keeps(self.file) {
            self.faults = self.faults.saturating_add(1);
            return Err(Failed);
        }
        match self.link.write(bytes) {
            Ok(count) => {
                if count == 0 && !bytes.is_empty() {
                    self.faults = self.faults.saturating_add(1);
                }
                Ok(count)
            }
            Err(_) => {
                self.faults = self.faults.saturating_add(1);
                Err(Failed)
            }
        }
    }

    fn close(&mut self) {
        self.link.close();
    }
}
