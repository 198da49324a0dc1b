// The map over a database file.
ghost use Rattle.std.specs.Prelude.{None};

use crate::blobs::Blobs;
use crate::calls;
use crate::entry::Entry;
use crate::error::{BlobErr, refusal};
use sqlite::{Alter, Connection, File, FileStore};
use sqlite_disk::Disk;
use std::rt::HostRuntime;

/// A map in a database file, or over any other store. It tells nothing of its entries. Each `put` and each `remove` outside a transaction is a commit of
/// its own. Where it is dropped, what was not committed is gone, and what was stays in the file and the log beside it.
pub struct FileBlobs<S: Alter> {
    conn: Connection<S>,
}

// It is written out, so that a caller does not prove again how the connection is dropped.
impl<S: Alter + Drop> Drop for FileBlobs<S> {
    fn drop(self) {
        let FileBlobs { conn: _ } = self;
    }
}

impl FileBlobs<FileStore<File>> {
    /// Opens the file, or makes it. No other program can open it meanwhile.
    pub fn open(rt: &HostRuntime, path: &str) -> Result<FileBlobs<FileStore<File>>, BlobErr> {
        match Connection::open(rt, path) {
            Ok(conn) => FileBlobs::over(conn),
            Err(error) => Err(refusal(error)),
        }
    }
}

impl<S: Alter + Drop> FileBlobs<S> {
    /// The map in the database, whose table is made where it is not there.
    pub fn over(mut conn: Connection<S>) -> Result<FileBlobs<S>, BlobErr> {
        match calls::make(&mut conn) {
            Ok(()) => Ok(FileBlobs { conn }),
            Err(why) => {
                drop(conn);
                Err(why)
            }
        }
    }
}

impl<D: Disk + Drop> FileBlobs<FileStore<D>> {
    /// Copies the log into the file, and closes both. What was not committed is gone.
    pub fn close(self) -> Result<(), BlobErr> {
        let FileBlobs { conn } = self;
        match conn.close() {
            Ok(()) => Ok(()),
            Err(error) => Err(refusal(error)),
        }
    }
}

impl<S: Alter> FileBlobs<S> {
    /// Whether each change is a commit of its own.
    pub fn is_autocommit(&self) -> bool {
        self.conn.is_autocommit()
    }

    /// Begins a transaction, where none is open. A failure of memory, of the disk or of size inside it ends it, and what was
    /// changed since is gone.
    pub fn begin(&mut self) -> Result<(), BlobErr> {
        calls::hold(&mut self.conn)
    }

    /// Commits the open transaction.
    pub fn commit(&mut self) -> Result<(), BlobErr> {
        calls::keep(&mut self.conn)
    }
}

impl<S: Alter> Blobs for FileBlobs<S> {
    ghost entries = { λ _. None };

    fn get(&mut self, key: &[u8]) -> Result<Option<Vec<u8>>, BlobErr> {
        calls::get(&mut self.conn, key)
    }

    fn put(&mut self, key: &[u8], value: &[u8]) -> Result<(), BlobErr> {
        calls::put(&mut self.conn, key, value)
    }

    fn remove(&mut self, key: &[u8]) -> Result<(), BlobErr> {
        calls::remove(&mut self.conn, key)
    }

    fn next(&mut self, key: &[u8]) -> Result<Option<Entry>, BlobErr> {
        calls::next(&mut self.conn, key)
    }
}
