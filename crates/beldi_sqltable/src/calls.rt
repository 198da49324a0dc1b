// The calls of a store, whose failures are counted.
ghost use Rattle.std.specs.Prelude.{◌≡◌, ◌≤◌};
ghost use Rattle.beldi_row.specs.Table.{IsNotFull};
ghost use Rattle.beldi_sqltable.specs.StoreCounts.{Blames, told_as, faults_of};
ghost use Rattle.beldi_sqltable.specs.Store.{Reads, Steps, without, written};

use crate::store::{RowStore, StoreErr};
use beldi_row::{Row, RowKey, TableErr};

// What is told of an error of the store. A failure is counted.
fn refusal(faults: &mut u64, why: StoreErr) -> TableErr
    ensures told { result ≡ told_as why }
    ensures later { faults.old ≤ faults.new }
    ensures counts { faults.new ≡ faults_of result faults.old }
{
    match why {
        StoreErr::OutOfMemory => TableErr::OutOfMemory,
        StoreErr::Failed => {
            *faults = faults.saturating_add(1);
            TableErr::Failed
        }
    }
}

pub(crate) fn open_store<R: RowStore>(store: &mut R, faults: &mut u64) -> Result<(), TableErr>
    ensures kept { R.rows store.new ≡ R.rows store.old }
    ensures blames { Blames faults.old faults.new result }
    ensures fits { IsNotFull result }
{
    match store.open() {
        Ok(()) => Ok(()),
        Err(why) => Err(refusal(faults, why)),
    }
}

pub(crate) fn read_row<R: RowStore>(
    store: &mut R,
    faults: &mut u64,
    key: &RowKey,
) -> Result<Option<Row>, TableErr>
    ensures kept { R.rows store.new ≡ R.rows store.old }
    ensures reads { Reads key.now (R.rows store.old) result }
    ensures blames { Blames faults.old faults.new result }
    ensures fits { IsNotFull result }
{
    match store.read(key) {
        Ok(row) => Ok(row),
        Err(why) => Err(refusal(faults, why)),
    }
}

pub(crate) fn write_row<R: RowStore>(
    store: &mut R,
    faults: &mut u64,
    key: &RowKey,
    row: &Row,
) -> Result<(), TableErr>
    ensures rows { R.rows store.new ≡ written key.now row.now result (R.rows store.old) }
    ensures blames { Blames faults.old faults.new result }
    ensures fits { IsNotFull result }
{
    match store.write(key, row) {
        Ok(()) => Ok(()),
        Err(why) => Err(refusal(faults, why)),
    }
}

pub(crate) fn remove_row<R: RowStore>(
    store: &mut R,
    faults: &mut u64,
    key: &RowKey,
) -> Result<(), TableErr>
    ensures rows { R.rows store.new ≡ without key.now result (R.rows store.old) }
    ensures blames { Blames faults.old faults.new result }
    ensures fits { IsNotFull result }
{
    match store.remove(key) {
        Ok(()) => Ok(()),
        Err(why) => Err(refusal(faults, why)),
    }
}

pub(crate) fn row_after<R: RowStore>(
    store: &mut R,
    faults: &mut u64,
    key: &RowKey,
) -> Result<Option<(RowKey, Row)>, TableErr>
    ensures kept { R.rows store.new ≡ R.rows store.old }
    ensures steps { Steps key.now (R.rows store.old) result }
    ensures blames { Blames faults.old faults.new result }
    ensures fits { IsNotFull result }
{
    match store.after(key) {
        Ok(found) => Ok(found),
        Err(why) => Err(refusal(faults, why)),
    }
}
