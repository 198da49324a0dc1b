// The rows of a database in memory.
ghost use Rattle.std.specs.Prelude.{◌≡◌, None, Some, IfOk};
ghost use Rattle.std.specs.FinMap as map;
ghost use Rattle.beldi_sqlrows.specs.LateFailure.{late_rows};

use crate::blob_rows::{BlobRows, refusal};
use beldi_blobs::MemoryBlobs;
use beldi_row::{Row, RowKey};
use beldi_sqltable::{RowStore, StoreErr};
use std::alloc::Global;

/// The rows of a database in memory, which is opened where it is first needed. It tells them.
#[derive(Drop)]
pub struct MemoryRows {
    alloc: Global,
    rows: Option<BlobRows<MemoryBlobs>>,
}

// An empty database in memory.
fn opened(alloc: Global) -> Result<BlobRows<MemoryBlobs>, StoreErr>
    ensures { IfOk result (λ r. ⟦<BlobRows<MemoryBlobs> as RowStore>⟧.rows r ≡ Some map.empty) }
{
    match MemoryBlobs::new(alloc) {
        Ok(blobs) => Ok(BlobRows::new(alloc, blobs)),
        Err(why) => Err(refusal(why)),
    }
}

impl MemoryRows {
    /// No rows, and no database yet.
    pub fn new(alloc: Global) -> MemoryRows
        ensures { result.rows ≡ None }
    {
        MemoryRows { alloc, rows: None }
    }
}

impl RowStore for MemoryRows {
    ghost rows = { λ s. late_rows ⟦<BlobRows<MemoryBlobs> as RowStore>⟧.rows s.rows };

    fn open(&mut self) -> Result<(), StoreErr> {
        match self.rows {
            Some(_) => Ok(()),
            None => match opened(self.alloc) {
                Ok(rows) => {
                    self.rows = Some(rows);
                    Ok(())
                }
                Err(why) => Err(why),
            },
        }
    }

    fn read(&mut self, key: &RowKey) -> Result<Option<Row>, StoreErr> {
        match &mut self.rows {
            Some(rows) => rows.read(key),
            None => Ok(None),
        }
    }

    fn write(&mut self, key: &RowKey, row: &Row) -> Result<(), StoreErr> {
        match self.open() {
            Ok(()) => match &mut self.rows {
                Some(rows) => rows.write(key, row),
                None => Err(StoreErr::Failed),
            },
            Err(why) => Err(why),
        }
    }

    fn remove(&mut self, key: &RowKey) -> Result<(), StoreErr> {
        match &mut self.rows {
            Some(rows) => rows.remove(key),
            None => Ok(()),
        }
    }

    fn after(&mut self, key: &RowKey) -> Result<Option<(RowKey, Row)>, StoreErr> {
        match &mut self.rows {
            Some(rows) => rows.after(key),
            None => Ok(None),
        }
    }
}
