// The values of one table that are not null, by key.
ghost use Rattle.std.specs.Prelude.{◌≡◌, ◌++◌, None, OnOk, OnErr, IfOk, option_copied};
ghost use Rattle.std.specs.FinMap as map;
ghost use Rattle.beldi_executor.specs.ByTable.{cells_at};
ghost use Rattle.beldi_plain.specs.Listing.{items_text};

use crate::tables::TableId;
use beldi_book::write_item;
use beldi_lang::Deployment;
use beldi_value::{Str, TextBuf, Value};
use std::alloc::{AllocError, Global};
use std::collections::BTreeMap;
use std::marker::Model;

#[derive(Drop)]
pub struct Cells {
    entries: BTreeMap<Str, Value>,
}

impl Model for Cells {
    ghost use Rattle.std.specs.FinMap as map;
    ghost use Rattle.std.specs.Coded.{coded_ℕ, coded_list};
    ghost use Rattle.std.specs.Ordering.{nat_cmp};
    ghost use Rattle.std.specs.Cmp.Lexicographic.{slice_cmp};
    ghost use Rattle.beldi_value.specs.declared.value.Value as value;
    ghost use Rattle.beldi_value.specs.Injective.{coded_value};

    ghost Value = { map.FinMap (slice_cmp nat_cmp) value.Value };

    ghost coded = { map.code (coded_list coded_ℕ) coded_value };

    ghost view = { λ a. map.from_entries a.entries.entries };
}

impl Cells {
    pub fn new(alloc: Global) -> Cells
        ensures { result ≡ map.empty }
    {
        Cells {
            entries: BTreeMap::new(alloc),
        }
    }

    pub fn get(&self, key: &Str) -> Option<&Value>
        ensures { option_copied result ≡ map.get self.now key.now }
    {
        self.entries.get(key)
    }

    /// Sets a value, also to null, and gives the one before. Only a new key can fail.
    pub fn put(&mut self, key: Str, value: Value) -> Result<Option<Value>, AllocError>
        ensures ok { IfOk result (λ old. (old ≡ map.get self.old key) × (self.new ≡ map.insert self.old key value)) }
        ensures err { OnErr result ((self.new ≡ self.old) × (map.get self.old key ≡ None)) }
    {
        let old = match self.entries.insert(key, value) {
            Ok(old) => old,
            Err(failed) => {
                drop(failed);
                return Err(AllocError);
            }
        };
        Ok(old)
    }

    pub fn unset(&mut self, key: &Str)
        ensures { self.new ≡ map.remove self.old key.now }
    {
        drop(self.entries.remove(key));
    }

    // Appends a line for each item of this table, in the order of their keys.
    pub fn write(
        &self,
        alloc: Global,
        code: &Deployment,
        table: TableId,
        out: &mut TextBuf,
    ) -> Result<(), AllocError>
        ensures { OnOk result (out.new ≡ out.old ++ items_text code.now (cells_at table (map.entries self.now))) }
    {
        for (key, value) in self.entries.iter() {
            write_item(alloc, code, table.func, table.table, key, value, out)?;
        }
        Ok(())
    }
}
