// The walk of a write, as a call of its own: one act a turn.
ghost use Rattle.std.specs.Prelude.{◌≡◌, IfOk};
ghost use Rattle.beldi_daal.specs.WriteWalk.{first_walk, first_key};

use crate::cell::{CellOp, WriteAt, WriteGoes, cell_key, shadow_key, write_query, write_told};
use beldi_query::{Query, QueryReplyRef, Walk};
use beldi_row::{Note, RowKey, copy_owner};
use beldi_value::{Boxed, Owner, Place, Str, TxId, or_drop};
use std::alloc::{AllocError, Global};
use std::mem::replace;

/// What a walk is on.
#[derive(Drop)]
pub enum Item {
    /// An item of a function's own table.
    Plain { table: u16, key: Str },
    /// A transaction's own copy of an item.
    Shadow { tx: TxId, table: u16, key: Str },
}

impl Item {
    // The key of its first row, where this function has the item.
    pub(crate) fn first_key(&self, alloc: Global, home: u16) -> Result<RowKey, AllocError>
        ensures { IfOk result (λ k. k ≡ first_key home self.now) }
    {
        match self {
            Item::Plain { table, key } => cell_key(alloc, home, *table, key, 0),
            Item::Shadow { tx, table, key } => shadow_key(alloc, home, tx, *table, key, 0),
        }
    }
}

/// What a turn of a walk of a write says.
#[derive(Drop)]
pub enum WriteOutput {
    /// The walk goes on.
    Going,
    /// The place has this note; `first` says that this act made it.
    Done { note: Note, first: bool },
    /// The item was to be given back, and who asks does not own it.
    NotOwner,
    /// This owner, another than the one who asks, has the item.
    Held(Owner),
    /// The item's last row is full and has the greatest number of a row, 4,294,967,295, so no row can follow it.
    Worn,
}

/// A walk that makes one entry at a place, however many walks there are for it. Unless it says `Going` it stands where it stood.
#[derive(Drop)]
pub struct WriteWalk {
    home: u16,
    item: Item,
    place: Place,
    who: Owner,
    op: CellOp,
    at: WriteAt,
}

impl Walk for WriteWalk {
    ghost use Rattle.beldi_daal.specs.WriteWalk.{walk_asks, walk_next, walk_output};

    type Output = WriteOutput;

    ghost asks = { walk_asks };

    ghost next = { walk_next };

    ghost output = { walk_output };

    fn ask(&self, alloc: Global) -> Result<Boxed<Query>, AllocError> {
        let key = self.item.first_key(alloc, self.home)?;
        let place = or_drop!(self.place.copy(alloc); key);
        let who = or_drop!(copy_owner(&self.who, alloc); key, place);
        let op = or_drop!(self.op.copy(alloc); key, place, who);
        write_query(alloc, key, place, who, op, &self.at)
    }

    fn resume(
        &mut self,
        alloc: Global,
        heard: QueryReplyRef<'_>,
    ) -> Result<WriteOutput, AllocError> {
        match write_told(alloc, self.op.done_note(), &self.at, heard)? {
            WriteGoes::On(at) => {
                self.stand(at);
                Ok(WriteOutput::Going)
            }
            WriteGoes::Stays => Ok(WriteOutput::Going),
            WriteGoes::Done { note, first } => Ok(WriteOutput::Done { note, first }),
            WriteGoes::NotOwner => Ok(WriteOutput::NotOwner),
            WriteGoes::Held(owner) => Ok(WriteOutput::Held(owner)),
            WriteGoes::Worn => Ok(WriteOutput::Worn),
        }
    }
}

impl WriteWalk {
    /// A walk for an operation that `who` asks for at `place`, on an item of the function `home`.
    pub fn new(home: u16, item: Item, place: Place, who: Owner, op: CellOp) -> WriteWalk
        ensures { result ≡ first_walk home item place who op }
    {
        WriteWalk {
            home,
            item,
            place,
            who,
            op,
            at: WriteAt::Try(0),
        }
    }

    // It stands here from now on.
    fn stand(&mut self, at: WriteAt)
        ensures { self.new ≡ record self.old { at = at } }
    {
        drop(replace(&mut self.at, at));
    }
}
