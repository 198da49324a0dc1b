// The walk of a read, as a call of its own: one Look a turn.
ghost use Rattle.std.specs.Prelude.{◌≡◌};
ghost use Rattle.beldi_daal.specs.ReadWalk.{first_read};

use crate::cell::{ReadGoes, read_told};
use crate::walk::Item;
use beldi_query::{Query, QueryReplyRef, Walk};
use beldi_value::{Boxed, Owner, Value};
use std::alloc::{AllocError, Global};

/// What a turn of a walk of a read says.
#[derive(Drop)]
pub enum ReadOutput {
    /// The walk goes on.
    Going,
    /// The item has this value; none where it has no row.
    Got(Option<Value>),
    /// This owner has the item, and the walk is for another.
    Held(Owner),
}

/// A walk to the value of an item. It makes one Look a turn, and leaves the rows as they are. Unless it says `Going` it stands where it
/// stood.
#[derive(Drop)]
pub struct ReadWalk {
    home: u16,
    item: Item,
    who: Option<Owner>,
    row: u32,
}

impl Walk for ReadWalk {
    ghost use Rattle.beldi_daal.specs.ReadWalk.{read_asks, read_next, read_output};

    type Output = ReadOutput;

    ghost asks = { read_asks };

    ghost next = { read_next };

    ghost output = { read_output };

    fn ask(&self, alloc: Global) -> Result<Boxed<Query>, AllocError> {
        Query::look(
            alloc,
            self.item.first_key(alloc, self.home)?.at_row(self.row),
        )
    }

    fn resume(
        &mut self,
        alloc: Global,
        heard: QueryReplyRef<'_>,
    ) -> Result<ReadOutput, AllocError> {
        match read_told(alloc, &self.who, heard)? {
            ReadGoes::On(row) => {
                self.row = row;
                Ok(ReadOutput::Going)
            }
            ReadGoes::Stays => Ok(ReadOutput::Going),
            ReadGoes::Got(value) => Ok(ReadOutput::Got(value)),
            ReadGoes::Held(owner) => Ok(ReadOutput::Held(owner)),
        }
    }
}

impl ReadWalk {
    /// A walk on an item of the function `home`. Without `who` it gives the value whoever has the item.
    pub fn new(home: u16, item: Item, who: Option<Owner>) -> ReadWalk
        ensures { result ≡ first_read home item who }
    {
        ReadWalk {
            home,
            item,
            who,
            row: 0,
        }
    }
}
