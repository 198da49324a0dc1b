// Names with their values, in their order: it takes a search of few steps where there are many.
ghost use Rattle.std.specs.Prelude.{◌≡◌, option_copied, OnOk, OnErr, IfOk};
ghost use Rattle.std.specs.FinMap as map;
ghost use Rattle.beldi_tree.specs.Bindings.{no_variables};

use beldi_value::{Str, Value, or_drop};
use std::alloc::{AllocError, Global};
use std::collections::BTreeMap;
use std::marker::Model;

/// Names with their values.
#[derive(Drop)]
pub(crate) struct Many {
    entries: BTreeMap<Str, Value>,
}

impl Model for Many {
    ghost use Rattle.std.specs.FinMap as map;
    ghost use Rattle.std.specs.Coded.{coded_list, coded_ℕ};
    ghost use Rattle.beldi_value.specs.Injective.{coded_value};
    ghost use Rattle.beldi_tree.specs.Bindings.{Bindings};

    ghost Value = { Bindings };

    ghost coded = { map.code (coded_list coded_ℕ) coded_value };

    ghost view = { λ a. map.from_entries a.entries.entries };
}

impl Many {
    pub(crate) fn new(alloc: Global) -> Many
        ensures { result ≡ no_variables }
    {
        Many {
            entries: BTreeMap::new(alloc),
        }
    }

    /// Equal variables.
    pub(crate) fn copy(&self, alloc: Global) -> Result<Many, AllocError>
        ensures { IfOk result (λ v. v ≡ self.now) }
    {
        let mut copy = Many::new(alloc);
        for (name, value) in self.entries.iter() {
            let value = or_drop!(value.copy(alloc); copy);
            or_drop!(copy.set(alloc, name, value); copy);
        }
        Ok(copy)
    }

    /// The value of a name, where it has one.
    pub(crate) fn get(&self, name: &Str) -> Option<&Value>
        ensures { option_copied result ≡ map.get self.now name.now }
    {
        self.entries.get(name)
    }

    /// Gives a name this value. The name is copied only where it had none.
    pub(crate) fn set(&mut self, alloc: Global, name: &Str, value: Value) -> Result<(), AllocError>
        ensures ok { OnOk result (self.new ≡ map.insert self.old name.now value) }
        ensures err { OnErr result (self.new ≡ self.old) }
    {
        match self.entries.get_mut(name) {
            Some(old) => {
                *old = value;
                Ok(())
            }
            None => {
                let name = or_drop!(name.copy(alloc); value);
                self.add(name, value)
            }
        }
    }

    // The same, where the name is given as a whole.
    fn add(&mut self, name: Str, value: Value) -> Result<(), AllocError>
        ensures ok { OnOk result (self.new ≡ map.insert self.old name value) }
        ensures err { OnErr result (self.new ≡ self.old) }
    {
        match self.entries.insert(name, value) {
            Ok(old) => drop(old),
            Err(failed) => {
                drop(failed);
                return Err(AllocError);
            }
        }
        Ok(())
    }
}
