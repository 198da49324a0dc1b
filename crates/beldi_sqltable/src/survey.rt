// All rows of a store, gone over once.
ghost use Rattle.std.specs.Prelude.{◌≡◌};
ghost use Rattle.beldi_row.specs.Table.{IsNotFull};
ghost use Rattle.beldi_sqltable.specs.StoreCounts.{Blames};

use crate::calls::row_after;
use crate::store::RowStore;
use beldi_row::{Row, RowKey, TableErr};
use beldi_table::{is_open, note_if};
use std::alloc::Global;
use std::collections::BTreeSet;

// How many rows were seen, and the keys of the open intents among them.
#[derive(Drop)]
pub(crate) struct Survey {
    pub(crate) count: u64,
    pub(crate) open_keys: BTreeSet<RowKey>,
}

impl Survey {
    // Takes a row in, and tells whether there was the memory.
    fn note(&mut self, alloc: Global, key: &RowKey, row: &Row) -> bool {
        self.count = self.count.saturating_add(1);
        note_if(&mut self.open_keys, alloc, key, is_open(key.kind(), row))
    }
}

// Takes in the first row past a key, and gives its key.
fn survey_next<R: RowStore>(
    alloc: Global,
    store: &mut R,
    faults: &mut u64,
    at: RowKey,
    survey: &mut Survey,
) -> Result<Option<RowKey>, TableErr>
    ensures kept { R.rows store.new ≡ R.rows store.old }
    ensures blames { Blames faults.old faults.new result }
    ensures fits { IsNotFull result }
{
    let found = row_after(store, faults, &at);
    drop(at);
    match found {
        Ok(Some((key, row))) => {
            let noted = survey.note(alloc, &key, &row);
            drop(row);
            if noted {
                Ok(Some(key))
            } else {
                drop(key);
                Err(TableErr::OutOfMemory)
            }
        }
        Ok(None) => Ok(None),
        Err(why) => Err(why),
    }
}

// Goes over all rows, from the least key on.
pub(crate) fn survey_rows<R: RowStore>(
    alloc: Global,
    store: &mut R,
    faults: &mut u64,
) -> Result<Survey, TableErr>
    ensures kept { R.rows store.new ≡ R.rows store.old }
    ensures blames { Blames faults.old faults.new result }
    ensures fits { IsNotFull result }
{
    let mut survey = Survey {
        count: 0,
        open_keys: BTreeSet::new(alloc),
    };
    let mut at = RowKey::least();
    for _ in 0..u64::MAX {
        match survey_next(alloc, store, faults, at, &mut survey) {
            Ok(Some(key)) => at = key,
            Ok(None) => return Ok(survey),
            Err(why) => {
                drop(survey);
                return Err(why);
            }
        }
    }
    drop(at);
    Ok(survey)
}
