// A store of rows over a map from bytes to bytes.
ghost use Rattle.std.specs.Prelude.{◌≡◌, IfOk, Some, None, option_map};
ghost use Rattle.std.specs.FinMap as map;
ghost use Rattle.beldi_bytes.specs.KeyBytes.{key_bytes};
ghost use Rattle.beldi_bytes.specs.RowBytes.{row_bytes};
ghost use Rattle.beldi_blobs.specs.BlobCalls.{pair_of};
ghost use Rattle.beldi_sqlrows.specs.Held.{Held, held_prop, rows_told, bytes_of};

use beldi_blobs::{BlobErr, Blobs, Entry};
use beldi_bytes::{read_key, read_row, write_key, write_row};
use beldi_row::{Row, RowKey};
use beldi_sqltable::{RowStore, StoreErr};
use std::alloc::Global;

/// The rows that a map from bytes to bytes holds. It tells them where the map tells its entries. A row with a moment above 2^62 is written
/// as any other, but each call that would read it then fails: whoever writes keeps below, as a host does.
#[derive(Drop)]
pub struct BlobRows<B: Blobs> {
    alloc: Global,
    blobs: B,
    ghost held: { Held (B.entries blobs) } by { held_prop (B.entries blobs) },
}

// What is told of an error of the map.
pub(crate) fn refusal(why: BlobErr) -> StoreErr {
    match why {
        BlobErr::OutOfMemory => StoreErr::OutOfMemory,
        BlobErr::Failed => StoreErr::Failed,
    }
}

// The key that has these bytes. Where none has, the store is not one of rows.
fn key_of(alloc: Global, bytes: &[u8]) -> Result<RowKey, StoreErr>
    ensures { IfOk result (λ k. key_bytes k ≡ bytes.now) }
{
    match read_key(alloc, bytes) {
        Ok(Some(key)) => Ok(key),
        Ok(None) => Err(StoreErr::Failed),
        Err(_) => Err(StoreErr::OutOfMemory),
    }
}

// The row that has these bytes.
fn row_of(alloc: Global, bytes: &[u8]) -> Result<Row, StoreErr>
    ensures { IfOk result (λ r. row_bytes r ≡ bytes.now) }
{
    match read_row(alloc, bytes) {
        Ok(Some(row)) => Ok(row),
        Ok(None) => Err(StoreErr::Failed),
        Err(_) => Err(StoreErr::OutOfMemory),
    }
}

// The row of a value that was found.
fn row_found(alloc: Global, value: Option<Vec<u8>>) -> Result<Option<Row>, StoreErr>
    ensures { IfOk result (λ r. option_map row_bytes r ≡ option_map (λ v. v.items) value) }
{
    match value {
        None => Ok(None),
        Some(bytes) => {
            let row = row_of(alloc, bytes.as_slice());
            drop(bytes);
            match row {
                Ok(row) => Ok(Some(row)),
                Err(why) => Err(why),
            }
        }
    }
}

// The key and the row of an entry.
fn entry_of(alloc: Global, entry: &Entry) -> Result<(RowKey, Row), StoreErr>
    ensures { IfOk result (λ e. bytes_of e ≡ pair_of entry.now) }
{
    let key = match key_of(alloc, entry.key.as_slice()) {
        Ok(key) => key,
        Err(why) => return Err(why),
    };
    match row_of(alloc, entry.value.as_slice()) {
        Ok(row) => Ok((key, row)),
        Err(why) => {
            drop(key);
            Err(why)
        }
    }
}

// The key and the row of an entry that was found.
fn entry_found(alloc: Global, entry: Option<Entry>) -> Result<Option<(RowKey, Row)>, StoreErr>
    ensures { IfOk result (λ o. option_map bytes_of o ≡ option_map pair_of entry) }
{
    match entry {
        None => Ok(None),
        Some(entry) => {
            let read = entry_of(alloc, &entry);
            drop(entry);
            match read {
                Ok(read) => Ok(Some(read)),
                Err(why) => Err(why),
            }
        }
    }
}

impl<B: Blobs> BlobRows<B> {
    /// The rows of a map without entries.
    pub fn new(alloc: Global, blobs: B) -> BlobRows<B>
        requires { B.entries blobs ≡ Some map.empty }
        ensures blobs { result.blobs ≡ blobs }
        ensures rows { rows_told (B.entries result.blobs) result.held ≡ Some map.empty }
    {
        BlobRows { alloc, blobs }
    }

    /// The rows of a map that does not tell its entries.
    pub fn over(alloc: Global, blobs: B) -> BlobRows<B>
        requires { B.entries blobs ≡ None }
        ensures blobs { result.blobs ≡ blobs }
        ensures rows { rows_told (B.entries result.blobs) result.held ≡ None }
    {
        BlobRows { alloc, blobs }
    }

    /// Gives the map back.
    pub fn into_blobs(self) -> B
        ensures { result ≡ self.blobs }
    {
        let BlobRows { blobs, .. } = self;
        blobs
    }
}

impl<B: Blobs> RowStore for BlobRows<B> {
    ghost rows = { λ s. rows_told (B.entries s.blobs) s.held };

    fn open(&mut self) -> Result<(), StoreErr> {
        Ok(())
    }

    fn read(&mut self, key: &RowKey) -> Result<Option<Row>, StoreErr> {
        let Ok(bytes) = write_key(self.alloc, key) else {
            return Err(StoreErr::OutOfMemory);
        };
        let found = self.blobs.get(bytes.as_slice());
        drop(bytes);
        match found {
            Ok(value) => row_found(self.alloc, value),
            Err(why) => Err(refusal(why)),
        }
    }

    fn write(&mut self, key: &RowKey, row: &Row) -> Result<(), StoreErr> {
        let Ok(bytes) = write_key(self.alloc, key) else {
            return Err(StoreErr::OutOfMemory);
        };
        let Ok(value) = write_row(self.alloc, row) else {
            drop(bytes);
            return Err(StoreErr::OutOfMemory);
        };
        let put = self.blobs.put(bytes.as_slice(), value.as_slice());
        drop(bytes);
        drop(value);
        match put {
            Ok(()) => Ok(()),
            Err(why) => Err(refusal(why)),
        }
    }

    fn remove(&mut self, key: &RowKey) -> Result<(), StoreErr> {
        let Ok(bytes) = write_key(self.alloc, key) else {
            return Err(StoreErr::OutOfMemory);
        };
        let removed = self.blobs.remove(bytes.as_slice());
        drop(bytes);
        match removed {
            Ok(()) => Ok(()),
            Err(why) => Err(refusal(why)),
        }
    }

    fn after(&mut self, key: &RowKey) -> Result<Option<(RowKey, Row)>, StoreErr> {
        let Ok(bytes) = write_key(self.alloc, key) else {
            return Err(StoreErr::OutOfMemory);
        };
        let found = self.blobs.next(bytes.as_slice());
        drop(bytes);
        match found {
            Ok(entry) => entry_found(self.alloc, entry),
            Err(why) => Err(refusal(why)),
        }
    }
}
