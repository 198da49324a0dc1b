// Eight log collectors.
ghost use Rattle.std.specs.Prelude.{◌≡◌, length};
ghost use Rattle.beldi_query.specs.Walk.{Turned};
ghost use Rattle.beldi_prune.specs.Collectors.{first_collectors, collector_at, set_collector};
ghost use Rattle.beldi_prune.specs.Prune.{anew as anew_of, prune_asks, prune_next, prune_output};

use crate::collector::{GcOutput, LogCollector};
use beldi_row::{Table, TableErr};
use std::alloc::Global;
use std::marker::Model;

/// Eight log collectors, each of which stands by itself. They are numbered round: 8 is again the first.
#[derive(Drop)]
pub struct Collectors {
    all: [LogCollector; 8],
}

impl Model for Collectors {
    ghost use Rattle.std.specs.Prelude.{◌≡◌, List, length};
    ghost use Rattle.beldi_prune.specs.declared.collector.LogCollector as one;

    ghost Value = { List one.LogCollector };

    ghost view = { λ a. a.all };

    ghost invariant = { λ a. length a.all ≡ 8 };
}

impl Collectors {
    /// Eight that stand before all rows.
    pub fn new(alloc: Global) -> Collectors
        ensures { result ≡ first_collectors }
    {
        Collectors {
            all: [
                LogCollector::new(alloc),
                LogCollector::new(alloc),
                LogCollector::new(alloc),
                LogCollector::new(alloc),
                LogCollector::new(alloc),
                LogCollector::new(alloc),
                LogCollector::new(alloc),
                LogCollector::new(alloc),
            ],
        }
    }

    /// What holds of them: there are eight.
    pub fn are_eight(&self)
        ensures { length self.now ≡ 8 }
    {
        let _all = &self.all;
    }

    /// One turn of the collector of this number, as `LogCollector::turn` makes it.
    pub fn turn<T: Table>(
        &mut self,
        number: u8,
        alloc: Global,
        table: &mut T,
        newest: u32,
        life: u64,
        now: u64,
    ) -> Result<GcOutput, TableErr>
        ensures others { self.new ≡ set_collector self.old number (collector_at self.new number) }
        ensures turned { Turned (prune_asks life (collector_at self.old number)) now (prune_next newest life now (collector_at self.old number)) (prune_output (collector_at self.old number)) (anew_of (collector_at self.old number)) (collector_at self.new number) (T.state table.old) (T.state table.new) result }
    {
        self.all[usize::from(number % 8)].turn(alloc, table, newest, life, now)
    }
}
