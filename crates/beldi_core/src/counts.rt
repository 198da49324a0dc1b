// How many live runs each intent has, at least one: which intents have any is asked without a look at the runs.
ghost use Rattle.std.specs.Prelude.{◌≡◌, ◌-◌, ◌^◌, ◌<◌, is_some, OnOk, OnErr};
ghost use Rattle.std.specs.FinMap as map;
ghost use Rattle.beldi_core.specs.Counts.{count_at, more, less, RaisedAt, LoweredAt};

use beldi_value::IntentId;
use std::alloc::{AllocError, Global};
use std::collections::BTreeMap;
use std::marker::Model;

#[derive(Drop)]
pub struct Counts {
    entries: BTreeMap<IntentId, u64>,
}

impl Model for Counts {
    ghost use Rattle.std.specs.Coded.{coded_ℕ};
    ghost use Rattle.std.specs.FinMap as map;
    ghost use Rattle.beldi_value.specs.Id.{id_cmp, coded_id};
    ghost use Rattle.beldi_core.specs.Counts.{CountMap};

    ghost Value = { CountMap };

    ghost coded = { map.code {R = id_cmp} coded_id coded_ℕ };

    ghost view = { λ a. map.from_entries a.entries.entries };
}

impl Counts {
    pub fn new(alloc: Global) -> Counts
        ensures { result ≡ map.empty }
    {
        Counts {
            entries: BTreeMap::new(alloc),
        }
    }

    pub fn has(&self, id: &IntentId) -> bool
        ensures { result ≡ is_some (map.get self.now id.now) }
    {
        self.entries.contains_key(id)
    }

    /// One more. The id is copied where it is the first.
    pub fn add(&mut self, alloc: Global, id: &IntentId) -> Result<(), AllocError>
        requires { count_at self.old id.now < 2 ^ 64 - 1 }
        ensures ok { OnOk result (self.new ≡ more self.old id.now) }
        ensures err { OnErr result (self.new ≡ self.old) }
    {
        if self.raise(id) {
            return Ok(());
        }
        self.begin(id.copy(alloc)?)
    }

    fn begin(&mut self, id: IntentId) -> Result<(), AllocError>
        ensures ok { OnOk result (self.new ≡ map.insert self.old id 1) }
        ensures err { OnErr result (self.new ≡ self.old) }
    {
        self.entries.insert(id, 1)?;
        Ok(())
    }

    fn raise(&mut self, id: &IntentId) -> bool
        requires { count_at self.old id.now < 2 ^ 64 - 1 }
        ensures { RaisedAt self.old self.new id.now (map.get self.old id.now) result }
    {
        let Some(count) = self.entries.get_mut(id) else {
            return false;
        };
        *count += 1;
        true
    }

    /// One less.
    pub fn take(&mut self, id: &IntentId)
        ensures { self.new ≡ less self.old id.now (map.get self.old id.now) }
    {
        if !self.lower(id) {
            self.end(id);
        }
    }

    fn end(&mut self, id: &IntentId)
        ensures { self.new ≡ map.remove self.old id.now }
    {
        let _ = self.entries.remove(id);
    }

    // Whether more than one is left.
    fn lower(&mut self, id: &IntentId) -> bool
        ensures { LoweredAt self.old self.new id.now (map.get self.old id.now) result }
    {
        let Some(count) = self.entries.get_mut(id) else {
            return false;
        };
        if *count < 2 {
            return false;
        }
        *count -= 1;
        true
    }
}
