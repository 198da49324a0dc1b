// The items that are not null.
ghost use Rattle.std.specs.Prelude.{◌≡◌, ◌++◌, None, OnOk, OnErr, IfOk, option_copied};
ghost use Rattle.std.specs.FinMap as map;
ghost use Rattle.beldi_tree.specs.Bindings.{or_null};
ghost use Rattle.beldi_value.specs.Passes.{passes};
ghost use Rattle.beldi_plain.specs.Operation.{set_item};
ghost use Rattle.beldi_plain.specs.Listing.{items_text};

use crate::tables::{TableId, Tables};
use beldi_lang::Deployment;
use beldi_value::{Rel, Str, TextBuf, Value};
use std::alloc::{AllocError, Global};
use std::marker::Model;

#[derive(Drop)]
pub struct Items {
    alloc: Global,
    tables: Tables,
}

impl Model for Items {
    ghost use Rattle.std.specs.FinMap as map;
    ghost use Rattle.beldi_value.specs.declared.value.Value as value;
    ghost use Rattle.beldi_value.specs.Injective.{coded_value};
    ghost use Rattle.beldi_plain.specs.Item.{item_cmp, coded_item};
    ghost use Rattle.beldi_executor.specs.ByTable.{items_of};

    ghost Value = { map.FinMap item_cmp value.Value };

    ghost coded = { map.code coded_item coded_value };

    ghost view = { λ a. items_of a.tables };
}

impl Items {
    pub fn new(alloc: Global) -> Items
        ensures { result ≡ map.empty }
    {
        Items {
            alloc,
            tables: Tables::new(alloc),
        }
    }

    pub fn get(&self, func: u16, table: u16, key: &Str) -> Option<&Value>
        ensures { option_copied result ≡ map.get self.now (record { func = func; table = table; key = key.now }) }
    {
        match self.tables.get(TableId { func, table }) {
            Some(cells) => cells.get(key),
            None => None,
        }
    }

    /// A copy of the value of an item, null where it was never set.
    pub fn copy_of(
        &self,
        alloc: Global,
        func: u16,
        table: u16,
        key: &Str,
    ) -> Result<Value, AllocError>
        ensures { IfOk result (λ v. v ≡ or_null (map.get self.now (record { func = func; table = table; key = key.now }))) }
    {
        match self.get(func, table, key) {
            Some(value) => value.copy(alloc),
            None => Ok(Value::Null),
        }
    }

    /// Whether the value of an item, null where it was never set, stands so to the operand.
    pub fn passes(&self, func: u16, table: u16, key: &Str, rel: Rel, operand: &Value) -> bool
        ensures { result ≡ passes (or_null (map.get self.now (record { func = func; table = table; key = key.now }))) rel operand.now }
    {
        match self.get(func, table, key) {
            Some(value) => value.passes(rel, operand),
            None => Value::Null.passes(rel, operand),
        }
    }

    pub fn set(&mut self, func: u16, table: u16, key: Str, value: Value) -> Result<(), AllocError>
        ensures ok { OnOk result (self.new ≡ set_item self.old (record { func = func; table = table; key = key }) value) }
        ensures err { OnErr result (self.new ≡ self.old) }
    {
        if let Value::Null = value {
            self.unset(func, table, &key);
            drop(key);
            drop(value);
            return Ok(());
        }
        drop(self.put(func, table, key, value)?);
        Ok(())
    }

    /// Sets an item, also to null, and gives the value before. Only one that has none can fail.
    pub fn put(
        &mut self,
        func: u16,
        table: u16,
        key: Str,
        value: Value,
    ) -> Result<Option<Value>, AllocError>
        ensures ok { IfOk result (λ old. (old ≡ map.get self.old (record { func = func; table = table; key = key })) × (self.new ≡ map.insert self.old (record { func = func; table = table; key = key }) value)) }
        ensures err { OnErr result ((self.new ≡ self.old) × (map.get self.old (record { func = func; table = table; key = key }) ≡ None)) }
    {
        self.tables
            .put(self.alloc, TableId { func, table }, key, value)
    }

    pub fn unset(&mut self, func: u16, table: u16, key: &Str)
        ensures { self.new ≡ map.remove self.old (record { func = func; table = table; key = key.now }) }
    {
        self.tables.unset(TableId { func, table }, key);
    }

    // Appends a line for each item, in their order.
    pub fn write(
        &self,
        alloc: Global,
        code: &Deployment,
        out: &mut TextBuf,
    ) -> Result<(), AllocError>
        ensures ok { OnOk result (out.new ≡ out.old ++ items_text code.now (map.entries self.now)) }
        ensures err { OnErr result (out.new ≡ out.old) }
    {
        let mut text = TextBuf::new(alloc);
        self.tables.write(alloc, code, &mut text)?;
        out.push_text(text.as_str())
    }
}
