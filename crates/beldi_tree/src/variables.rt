// The variables of a body.
ghost use Rattle.std.specs.Prelude.{◌≡◌, None, option_copied, OnOk, OnErr, IfOk};
ghost use Rattle.std.specs.FinMap as map;
ghost use Rattle.beldi_tree.specs.Bindings.{no_variables, with_all, IsFirst};

use crate::many::Many;
use beldi_value::{Str, Value, or_drop};
use std::alloc::{AllocError, Global};
use std::marker::Model;

// So many are searched one by one.
const MOST_FEW: usize = 16;

/// Names with their values.
#[derive(Drop)]
pub struct Variables {
    /// The first ones that were set, in that order.
    few: Vec<(Str, Value)>,
    /// All others.
    many: Many,
}

impl Model for Variables {
    ghost use Rattle.std.specs.FinMap as map;
    ghost use Rattle.std.specs.Coded.{coded_list, coded_ℕ};
    ghost use Rattle.beldi_value.specs.Injective.{coded_value};
    ghost use Rattle.beldi_tree.specs.Bindings.{Bindings, with_all};

    ghost Value = { Bindings };

    ghost coded = { map.code (coded_list coded_ℕ) coded_value };

    ghost view = { λ a. with_all a.few.items a.many };
}

// Where this name stands.
#[inline(always)]
fn place_of(entries: &[(Str, Value)], name: &Str) -> Option<usize>
    ensures { IsFirst entries.now name.now result }
{
    let name = name.as_bytes();
    for (i, entry) in entries.iter().enumerate() {
        if name == entry.0.as_bytes() {
            return Some(i);
        }
    }
    None
}

fn copied(alloc: Global, entries: &[(Str, Value)]) -> Result<Vec<(Str, Value)>, AllocError>
    ensures { IfOk result (λ v. v.items ≡ entries.now) }
{
    let mut copies = Vec::new(alloc);
    for entry in entries {
        let name = or_drop!(entry.0.copy(alloc); copies);
        let value = or_drop!(entry.1.copy(alloc); copies, name);
        or_drop!(copies.push((name, value)); copies);
    }
    Ok(copies)
}

// Gives this value to a name that is not among the first ones.
fn add(
    alloc: Global,
    few: &mut Vec<(Str, Value)>,
    many: &mut Many,
    name: &Str,
    value: Value,
) -> Result<(), AllocError>
    ensures ok { OnOk result (IsFirst few.old.items name.now None → with_all few.new.items many.new ≡ map.insert (with_all few.old.items many.old) name.now value) }
    ensures err { OnErr result ((few.new.items ≡ few.old.items) × (many.new ≡ many.old)) }
{
    if few.len() == MOST_FEW {
        many.set(alloc, name, value)?;
        return Ok(());
    }
    let name = or_drop!(name.copy(alloc); value);
    few.push((name, value))?;
    Ok(())
}

impl Variables {
    pub fn new(alloc: Global) -> Variables
        ensures { result ≡ no_variables }
    {
        Variables {
            few: Vec::new(alloc),
            many: Many::new(alloc),
        }
    }

    /// Equal variables.
    pub fn copy(&self, alloc: Global) -> Result<Variables, AllocError>
        ensures { IfOk result (λ v. v ≡ self.now) }
    {
        let few = copied(alloc, self.few.as_slice())?;
        let many = or_drop!(self.many.copy(alloc); few);
        Ok(Variables { few, many })
    }

    /// The value of a name, where it has one.
    pub fn get(&self, name: &Str) -> Option<&Value>
        ensures { option_copied result ≡ map.get self.now name.now }
    {
        match place_of(self.few.as_slice(), name) {
            Some(place) => Some(&self.few[place].1),
            None => self.many.get(name),
        }
    }

    /// Gives a name this value. The name is copied only where it had none.
    pub fn set(&mut self, alloc: Global, name: &Str, value: Value) -> Result<(), AllocError>
        ensures ok { OnOk result (self.new ≡ map.insert self.old name.now value) }
        ensures err { OnErr result (self.new ≡ self.old) }
    {
        match place_of(self.few.as_slice(), name) {
            Some(place) => {
                self.few[place].1 = value;
                Ok(())
            }
            None => add(alloc, &mut self.few, &mut self.many, name, value),
        }
    }
}
