// The host without its deployment and its table.
ghost use Rattle.std.specs.Prelude.{◌≤◌, ◌^◌};

use crate::runs::Runs;
use beldi_book::Book;
use beldi_prune::Collectors;
use beldi_row::RowKey;
use std::alloc::Global;

/// What a host knows beside its deployment and its table: the newest ticket, the live runs, the book of what was done, the
/// moment in ticks, where the intent collector stands, how many events it took, whether the reading of the last halt failed, and where
/// the log collectors stand; each event gives at most one number to a run.
#[derive(Drop)]
pub struct HostCore {
    pub alloc: Global,
    pub newest: u32,
    pub runs: Runs,
    pub book: Book,
    pub now: u64,
    pub cursor: RowKey,
    pub taken: u64,
    pub shut: bool,
    pub collectors: Collectors,
    ghost few: { runs.given ≤ taken },
    ghost events: { taken ≤ 2 ^ 62 },
    ghost early: { now ≤ 2 ^ 62 },
}
