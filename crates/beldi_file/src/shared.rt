// A file that several hold.
ghost use Rattle.std.specs.Prelude.{None};

use crate::kept_file::KeptFile;
use beldi_blobs::{BlobErr, Blobs, Entry};
use sqlite::Alter;
use std::cell::RefCell;

/// The entries of a file that a sink and a link keep. It tells nothing of them.
#[derive(Drop)]
pub struct SharedBlobs<'a, S: Alter + Drop> {
    file: &'a RefCell<KeptFile<S>>,
}

impl<'a, S: Alter + Drop> SharedBlobs<'a, S> {
    /// The entries of this file.
    pub fn new(file: &'a RefCell<KeptFile<S>>) -> Self {
        SharedBlobs { file }
    }
}

impl<S: Alter + Drop> Blobs for SharedBlobs<'_, S> {
    ghost entries = { λ _. None };

    fn get(&mut self, key: &[u8]) -> Result<Option<Vec<u8>>, BlobErr> {
        match self.file.try_borrow_mut() {
            Ok(mut file) => file.get(key),
            Err(_) => Err(BlobErr::Failed),
        }
    }

    fn put(&mut self, key: &[u8], value: &[u8]) -> Result<(), BlobErr> {
        match self.file.try_borrow_mut() {
            Ok(mut file) => file.put(key, value),
            Err(_) => Err(BlobErr::Failed),
        }
    }

    fn remove(&mut self, key: &[u8]) -> Result<(), BlobErr> {
        match self.file.try_borrow_mut() {
            Ok(mut file) => file.remove(key),
            Err(_) => Err(BlobErr::Failed),
        }
    }

    fn next(&mut self, key: &[u8]) -> Result<Option<Entry>, BlobErr> {
        match self.file.try_borrow_mut() {
            Ok(mut file) => file.next(key),
            Err(_) => Err(BlobErr::Failed),
        }
    }
}
