// A file of entries, and when it has them.
use beldi_blobs::{BlobErr, Blobs, Entry, FileBlobs};
use sqlite::{Alter, File, FileStore};
use std::alloc::AllocError;

/// A database file, or one that could not be opened: then each call fails. The first put or removal after a keep begins a
/// transaction, and the next keep commits it.
#[derive(Drop)]
pub struct KeptFile<S: Alter + Drop> {
    blobs: Option<FileBlobs<S>>,
    // the puts and removals since the last keep, all in one transaction
    waiting: u64,
    // changes that waited are gone: from then on each call fails
    lost: bool,
}

impl KeptFile<FileStore<File>> {
    /// Opens the file at this path, and makes it where there is none. Where it cannot be had, or is no database of entries, each call
    /// of it fails; an `Err` is want of memory alone.
    pub fn open(rt: &HostRuntime, path: &str) -> Result<Self, AllocError> {
        let blobs = match FileBlobs::open(rt, path) {
            Ok(blobs) => Some(blobs),
            Err(BlobErr::OutOfMemory) => return Err(AllocError),
            Err(BlobErr::Failed) => None,
        };
        Ok(KeptFile {
            blobs,
            waiting: 0,
            lost: false,
        })
    }

    /// Closes the file: what was kept is copied into it from the log beside it, and what was not is gone. After an `Err` the log stays
    /// there, and is read where the file is opened again.
    pub fn close(self) -> Result<(), BlobErr> {
        let KeptFile { blobs, .. } = self;
        match blobs {
            None => Ok(()),
            Some(blobs) => blobs.close(),
        }
    }
}

impl<S: Alter + Drop> KeptFile<S> {
    // The database, where it may be used.
    fn usable(&mut self) -> Result<&mut FileBlobs<S>, BlobErr> {
        match &mut self.blobs {
            Some(blobs) if !self.lost => Ok(blobs),
            _ => Err(BlobErr::Failed),
        }
    }

    // After a call that failed: where that ended the transaction, all that waited in it is gone.
    fn look_after(&mut self) {
        if let Some(blobs) = &self.blobs {
            if self.waiting > 0 && blobs.is_autocommit() {
                self.lost = true;
            }
        }
    }

    /// The value at a key.
    pub fn get(&mut self, key: &[u8]) -> Result<Option<Vec<u8>>, BlobErr> {
        let found = self.usable()?.get(key);
        if found.is_err() {
            self.look_after();
        }
        found
    }

    /// The first entry whose key is greater.
    pub fn next(&mut self, key: &[u8]) -> Result<Option<Entry>, BlobErr> {
        let found = self.usable()?.next(key);
        if found.is_err() {
            self.look_after();
        }
        found
    }

    // Begins a transaction, where nothing waits.
    fn begin(&mut self) -> Result<(), BlobErr> {
        if self.waiting == 0 {
            self.usable()?.begin()
        } else {
            Ok(())
        }
    }

    // After a change, which waits from now on where it was made.
    fn note(&mut self, is_made: bool) {
        if is_made {
            self.waiting = self.waiting.saturating_add(1);
        } else {
            self.look_after();
        }
    }

    /// Sets the value at a key; the next keep keeps it.
    pub fn put(&mut self, key: &[u8], value: &[u8]) -> Result<(), BlobErr> {
        self.begin()?;
        let put = self.usable()?.put(key, value);
        self.note(put.is_ok());
        put
    }

    /// Removes the entry at a key, where there is one; the next keep keeps that.
    pub fn remove(&mut self, key: &[u8]) -> Result<(), BlobErr> {
        self.begin()?;
        let removed = self.usable()?.remove(key);
        self.note(removed.is_ok());
        removed
    }

    /// Keeps all that was put and removed: the file has it, whatever ends the program. Where it refuses, that is lost, and each later call fails.
    pub fn keep(&mut self) -> Result<(), BlobErr> {
        if self.waiting == 0 && !self.lost {
            return Ok(());
        }
        let kept = self.usable()?.commit();
        match kept {
            Ok(()) => self.waiting = 0,
            Err(_) => self.lost = true,
        }
        kept
    }
}
