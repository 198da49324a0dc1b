// The values of all tables, table by table.
ghost use Rattle.std.specs.Prelude.{◌≡◌, ◌++◌, None, OnOk, OnErr, IfOk, option_copied};
ghost use Rattle.std.specs.FinMap as map;
ghost use Rattle.beldi_executor.specs.ByTable.{put_cell, unset_cell, at_key, items_of};
ghost use Rattle.beldi_plain.specs.Listing.{items_text};

use crate::cells::Cells;
use beldi_lang::Deployment;
use beldi_value::{Str, TextBuf, Value, or_drop};
use std::alloc::{AllocError, Global};
use std::collections::BTreeMap;
use std::marker::Model;

/// A table of a function.
#[derive(Clone, Copy, PartialEq, Eq, PartialOrd, Ord)]
pub struct TableId {
    pub func: u16,
    pub table: u16,
}

#[derive(Drop)]
pub struct Tables {
    entries: BTreeMap<TableId, Cells>,
}

impl Model for Tables {
    ghost use Rattle.std.specs.FinMap as map;
    ghost use Rattle.std.specs.Coded.{coded_ℕ, coded_list};
    ghost use Rattle.beldi_value.specs.Injective.{coded_value};
    ghost use Rattle.beldi_executor.specs.ByTable as by;

    ghost Value = { by.Tables };

    ghost coded = { map.code by.coded_table (map.code (coded_list coded_ℕ) coded_value) };

    ghost view = { λ a. map.from_entries a.entries.entries };
}

impl Tables {
    pub fn new(alloc: Global) -> Tables
        ensures { result ≡ map.empty }
    {
        Tables {
            entries: BTreeMap::new(alloc),
        }
    }

    pub fn get(&self, table: TableId) -> Option<&Cells>
        ensures { option_copied result ≡ map.get self.now table }
    {
        self.entries.get(&table)
    }

    /// Sets a value, also to null, and gives the one before. Only a new key can fail.
    pub fn put(
        &mut self,
        alloc: Global,
        table: TableId,
        key: Str,
        value: Value,
    ) -> Result<Option<Value>, AllocError>
        ensures ok { IfOk result (λ old. (old ≡ at_key key (map.get self.old table)) × (self.new ≡ put_cell self.old table key value)) }
        ensures err { OnErr result ((self.new ≡ self.old) × (at_key key (map.get self.old table) ≡ None)) }
    {
        if !self.entries.contains_key(&table) {
            return self.put_first(alloc, table, key, value);
        }
        let Some(cells) = self.entries.get_mut(&table) else {
            unreachable!()
        };
        cells.put(key, value)
    }

    // Sets a value of a table that has none.
    fn put_first(
        &mut self,
        alloc: Global,
        table: TableId,
        key: Str,
        value: Value,
    ) -> Result<Option<Value>, AllocError>
        requires { map.get self.old table ≡ None }
        ensures ok { IfOk result (λ old. (old ≡ at_key key (map.get self.old table)) × (self.new ≡ put_cell self.old table key value)) }
        ensures err { OnErr result ((self.new ≡ self.old) × (at_key key (map.get self.old table) ≡ None)) }
    {
        let mut cells = Cells::new(alloc);
        match cells.put(key, value) {
            Ok(none) => drop(none),
            Err(error) => {
                drop(cells);
                return Err(error);
            }
        }
        match self.entries.insert(table, cells) {
            Ok(old) => drop(old),
            Err(failed) => {
                drop(failed);
                return Err(AllocError);
            }
        }
        Ok(None)
    }

    pub fn unset(&mut self, table: TableId, key: &Str)
        ensures { self.new ≡ unset_cell self.old table key.now (map.get self.old table) }
    {
        let Some(cells) = self.entries.get_mut(&table) else {
            return;
        };
        cells.unset(key);
    }

    // Appends a line for each item, in their order.
    pub fn write(
        &self,
        alloc: Global,
        code: &Deployment,
        out: &mut TextBuf,
    ) -> Result<(), AllocError>
        ensures { OnOk result (out.new ≡ out.old ++ items_text code.now (map.entries (items_of self.now))) }
    {
        for (table, cells) in self.entries.iter() {
            cells.write(alloc, code, *table, out)?;
        }
        Ok(())
    }
}
