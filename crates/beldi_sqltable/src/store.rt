// The trait of a store of rows.
ghost use Rattle.std.specs.Prelude.{◌≡◌, Option};
ghost use Rattle.beldi_row.specs.Table.{Rows};
ghost use Rattle.beldi_sqltable.specs.Store.{Reads, Steps, without, written};

use beldi_row::{Row, RowKey};
use thiserror::Error;

/// Why a call of a store was not done. After each of these the rows are as before.
#[derive(Debug, Drop, Error)]
pub enum StoreErr {
    /// Out of memory.
    #[error("out of memory")]
    OutOfMemory,
    /// The store failed.
    #[error("the store failed")]
    Failed,
}

/// A store of rows by their keys, in the order of keys.
pub trait RowStore {
    /// Its rows, where it tells them.
    ghost rows: { Self → Option Rows };

    /// Opens it, where it is not open yet.
    fn open(&mut self) -> Result<(), StoreErr>
        ensures { rows self.new ≡ rows self.old };

    /// The row with the key, and None exactly where there is none.
    fn read(&mut self, key: &RowKey) -> Result<Option<Row>, StoreErr>
        ensures kept { rows self.new ≡ rows self.old }
        ensures reads { Reads key.now (rows self.old) result };

    /// Puts the row at the key, in place of the one that is there.
    fn write(&mut self, key: &RowKey, row: &Row) -> Result<(), StoreErr>
        ensures { rows self.new ≡ written key.now row.now result (rows self.old) };

    /// Removes the row with the key, where there is one.
    fn remove(&mut self, key: &RowKey) -> Result<(), StoreErr>
        ensures { rows self.new ≡ without key.now result (rows self.old) };

    /// The first row whose key is greater, and None exactly where there is none.
    fn after(&mut self, key: &RowKey) -> Result<Option<(RowKey, Row)>, StoreErr>
        ensures kept { rows self.new ≡ rows self.old }
        ensures steps { Steps key.now (rows self.old) result };
}
