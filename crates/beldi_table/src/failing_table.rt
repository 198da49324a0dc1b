// A table that fails the calls that it is told to.
ghost use Rattle.std.specs.Prelude.{◌≡◌, ◌≤◌, ◌↔◌, ⊤, IsErrOf, IsTrue};
ghost use Rattle.std.specs.Borrow.{sem, follows_so};
ghost use mathlib.Core.Option.{none};
ghost use Rattle.beldi_row.specs.Table.{Acted, Went, Readied};
ghost use Rattle.beldi_row.specs.declared.table.TableErr.TheVariants.{Failed};
ghost use Rattle.beldi_table.specs.contracts.failing_table.FailingTable.{the_row};
ghost use Rattle.std.specs.FinMap as map;
ghost use Rattle.beldi_table.specs.MapTable.{rows_of};
ghost use Rattle.beldi_table.specs.FailingTable.{failing_state, stands_in, Counts, CountsNone};

use crate::map_table::MapTable;
use beldi_row::{Act, ActReplyRef, Row, RowKey, Table, TableErr};
use std::alloc::Global;

/// A table over an ordered map that fails some of its calls of `act` and `next`. A call that fails changes no row. It
/// tells its rows, and counts those calls.
#[derive(Drop)]
pub struct FailingTable {
    table: MapTable,
    fail: Vec<u32>,
    calls: u64,
    faults: u64,
}

fn is_in(numbers: &[u32], number: u64) -> bool
    ensures { result ≡ stands_in numbers.now number }
{
    for other in numbers {
        if u64::from(*other) == number {
            return true;
        }
    }
    false
}

impl FailingTable {
    /// A table without rows and without room for any. Its calls of `act` and `next` are numbered from 0 on, and those
    /// whose numbers stand in `fail` fail.
    pub fn new(alloc: Global, fail: Vec<u32>) -> FailingTable
        ensures rows { rows_of result.table ≡ map.empty }
        ensures room { result.table.room ≡ 0 }
        ensures fail { result.fail ≡ fail }
        ensures calls { result.calls ≡ 0 }
        ensures faults { result.faults ≡ 0 }
    {
        FailingTable {
            table: MapTable::new(alloc),
            fail,
            calls: 0,
            faults: 0,
        }
    }

    // Counts a call, and tells whether it is to fail.
    fn fails(&mut self) -> bool
        ensures told { result ≡ stands_in self.old.fail.items self.old.calls }
        ensures counts { Counts self.old self.new }
        ensures later { self.old.faults ≤ self.new.faults }
        ensures table { self.new.table ≡ self.old.table }
    {
        let fails = is_in(self.fail.as_slice(), self.calls);
        self.calls = self.calls.saturating_add(1);
        if fails {
            self.faults = self.faults.saturating_add(1);
        }
        fails
    }
}

impl Table for FailingTable {
    ghost state = { failing_state };

    fn len(&self) -> u32 {
        self.table.len()
    }

    fn ready(&mut self, rooms: &[u32]) -> Result<(), TableErr>
        ensures set { Readied rooms.now (failing_state self.old) (failing_state self.new) result }
        ensures counts { CountsNone self.old self.new }
    {
        self.table.ready(rooms)
    }

    fn act(&mut self, key: RowKey, act: Act, now: u64) -> Result<ActReplyRef<'_>, TableErr>
        ensures* acts { sem 𝓛 (follows_so the_row the_row self.entry.ghost_name none (λ _ _. ⊤) (λ after.
            Acted act now key (failing_state self.entry.now) (failing_state after) result)) }
        ensures told { IsErrOf result Failed ↔ IsTrue (stands_in self.entry.now.fail.items self.entry.now.calls) }
    {
        if self.fails() {
            drop(key);
            drop(act);
            return Err(TableErr::Failed);
        }
        self.table.act(key, act, now)
    }

    fn next(&mut self, after: &RowKey) -> Result<Option<(&RowKey, &Row)>, TableErr>
        ensures* went { sem 𝓛 (follows_so the_row the_row self.entry.ghost_name none (λ _ _. ⊤) (λ now.
            Went after.now (failing_state self.entry.now) (failing_state now) result)) }
        ensures told { IsErrOf result Failed ↔ IsTrue (stands_in self.entry.now.fail.items self.entry.now.calls) }
    {
        if self.fails() {
            return Err(TableErr::Failed);
        }
        self.table.next(after)
    }
}
