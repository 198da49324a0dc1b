// The map over a database in memory.
ghost use Rattle.std.specs.Prelude.{◌≡◌, IfOk, Some};
ghost use Rattle.std.specs.FinMap as map;

use crate::blobs::Blobs;
use crate::calls;
use crate::entry::Entry;
use crate::error::BlobErr;
use sqlite::{Connection, MemStore};
use std::alloc::Global;
use std::marker::Model;

/// A map in memory. It tells its entries: contracts see it as them.
pub struct MemoryBlobs {
    conn: Connection<MemStore>,
}

// It is written out, so that a caller does not prove again how the connection is dropped.
impl Drop for MemoryBlobs {
    fn drop(self) {
        let MemoryBlobs { conn: _ } = self;
    }
}

impl Model for MemoryBlobs {
    ghost use Rattle.std.specs.Coded.{coded_ℕ, coded_list};
    ghost use Rattle.std.specs.FinMap as map;
    ghost use Rattle.sqlite.specs.Held.{state};
    ghost use Rattle.sqlite.specs.Steps.{over_memory};
    ghost use Rattle.beldi_blobs.specs.BlobEntries.{Entries, IsTable, entries_in};

    ghost Value = { Entries };

    ghost coded = { map.code (coded_list coded_ℕ) (coded_list coded_ℕ) };

    ghost view = { λ b. entries_in (state over_memory b.conn) };

    ghost invariant = { λ b. IsTable (state over_memory b.conn) };
}

impl MemoryBlobs {
    /// A map without entries.
    pub fn new(alloc: Global) -> Result<MemoryBlobs, BlobErr>
        ensures { IfOk result (λ b. b ≡ map.empty) }
    {
        let mut conn = Connection::open_in_memory(alloc)?;
        match calls::make(&mut conn) {
            Ok(()) => Ok(MemoryBlobs { conn }),
            Err(why) => {
                drop(conn);
                Err(why)
            }
        }
    }
}

impl Blobs for MemoryBlobs {
    ghost entries = { λ m. Some m };

    fn get(&mut self, key: &[u8]) -> Result<Option<Vec<u8>>, BlobErr> {
        calls::get(&mut self.conn, key)
    }

    fn put(&mut self, key: &[u8], value: &[u8]) -> Result<(), BlobErr> {
        calls::put(&mut self.conn, key, value)
    }

    fn remove(&mut self, key: &[u8]) -> Result<(), BlobErr> {
        calls::remove(&mut self.conn, key)
    }

    fn next(&mut self, key: &[u8]) -> Result<Option<Entry>, BlobErr> {
        calls::next(&mut self.conn, key)
    }
}
