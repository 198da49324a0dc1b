// The trait of a table.
ghost use Rattle.std.specs.Prelude.{⊤};
ghost use Rattle.std.specs.Borrow.{sem, follows_so};
ghost use mathlib.Core.Option.{none};
ghost use Rattle.std.specs.Option.{option_copied};
ghost use Rattle.beldi_row.specs.Table.{TableState, Acted, Went, Readied, IsCount, OpensTold, PassesTold};
ghost use Rattle.beldi_row.specs.declared.table.Opens.TheVariants.{Untold};

use crate::act::{Act, ActReplyRef};
use crate::key::RowKey;
use crate::row::Row;
use beldi_value::Place;
use std::alloc::AllocError;
use thiserror::Error;

/// Why a call of a table was not done. After each of these the rows are as before.
#[derive(Debug, Drop, Error)]
pub enum TableErr {
    /// Out of memory.
    #[error("out of memory")]
    OutOfMemory,
    /// The table failed: only where its count of failures rose in this call.
    #[error("the table failed")]
    Failed,
    /// The act would add a row, and the table has `live` rows (at most 4,294,967,295 are told), which are at least
    /// `room`. Only `act` answers so.
    #[error("the table is full: {live} rows, and room for {room}")]
    Full { live: u32, room: u32 },
}

impl From<AllocError> for TableErr {
    ghost use Rattle.std.specs.Prelude.{◌≡◌};
    ghost use Rattle.beldi_row.specs.declared.table.TableErr.TheVariants.{OutOfMemory};

    ghost from_gives = { λ _ e. e ≡ OutOfMemory };

    fn from(_: AllocError) -> Self {
        TableErr::OutOfMemory
    }
}

/// What a table says of open intents: those that have something to do, and neither an outcome nor a finish.
#[derive(Drop)]
pub enum Opens<'a> {
    /// It does not say.
    Untold,
    /// None has a key past the one that was asked for.
    None,
    /// None has a key past that one and before this one.
    First(&'a RowKey),
}

/// A table of rows, ordered by their keys.
pub trait Table {
    /// What contracts see of it: its rows, its failures, its room, and how many calls of `act` and `next` it has had.
    ghost state: { Self → TableState };

    /// How many rows it has; 4,294,967,295 where it has more.
    fn len(&self) -> u32
        ensures { IsCount (state self.now).rows result };

    /// Sets the room to the one number of the list, to 0 where the list is empty, and keeps the rows. It counts no call.
    fn ready(&mut self, rooms: &[u32]) -> Result<(), TableErr>
        ensures { Readied rooms.now (state self.old) (state self.new) result };

    /// Carries out an act on the row with the key, at the moment `now`, in ticks. An act that adds a row is refused as
    /// `Full` exactly where the table has as many rows as its room or more. An act that does not fit the kind of the
    /// row changes nothing. It counts one call.
    fn act(&mut self, key: RowKey, act: Act, now: u64) -> Result<ActReplyRef<'_>, TableErr>
        ensures* acts { sem 𝓛 (follows_so Self.row Self.row self.entry.ghost_name none (λ _ _. ⊤) (λ after.
            Acted act now key (state self.entry.now) (state after) result)) };

    /// The first row whose key is greater than `after`, and None exactly where there is none. It is never refused as `Full`,
    /// and counts one call.
    fn next(&mut self, after: &RowKey) -> Result<Option<(&RowKey, &Row)>, TableErr>
        ensures* went { sem 𝓛 (follows_so Self.row Self.row self.entry.ghost_name none (λ _ _. ⊤) (λ now.
            Went after.now (state self.entry.now) (state now) result)) };

    /// The open intents past a key, where the table keeps them in order beside its rows: then whoever looks for one need not
    /// go from row to row. It counts no call.
    fn opens(&self, _after: &RowKey) -> Opens<'_>
        ensures { OpensTold _after.now result (state self.entry.now).rows }
    {
        Opens::Untold
    }

    /// How far a walk along an item's rows goes from the row with this key on, where the table looks ahead: over rows that another
    /// one follows and that have no entry of the place, if one is given; over at most so many. It tells how many these are, and the
    /// number of the row that the last of them leads to. It counts no call.
    fn passes(&self, _key: RowKey, _place: Option<&Place>, _most: u64) -> Option<(u64, u32)>
        ensures { PassesTold _key (option_copied _place.entry) _most result (state self.entry.now).rows }
    {
        None
    }
}
