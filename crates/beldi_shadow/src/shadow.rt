// The walks over a transaction's own copies of items: those of a read and of a write.
ghost use Rattle.std.specs.Prelude.{◌≡◌, IfOk};
ghost use Rattle.beldi_shadow.specs.Shadow.{first_read, first_write, read_so as read_so_of, write_so as write_so_of};

use beldi_daal::{CellOp, Item, ReadOutput, ReadWalk, WriteOutput, WriteWalk};
use beldi_query::{Query, QueryReplyRef, Walk};
use beldi_row::{Note, copy_tx};
use beldi_value::{Boxed, Owner, Place, Str, TxId, Value, or_drop};
use std::alloc::{AllocError, Global};

/// What a turn of a walk over a shadow says.
#[derive(Drop)]
pub enum ShadowOutput {
    /// The walk goes on.
    Going,
    /// The shadow has this value; none where the transaction has no shadow of the item.
    Got(Option<Value>),
    /// The place has this note.
    Noted(Note),
    /// The shadow's last row is full and has the greatest number of a row, so no row can follow it.
    Worn,
}

/// A walk to the value of a transaction's own copy of an item. It makes one Look a turn, and leaves the rows as they are. Unless it says
/// `Going` it stands where it stood.
#[derive(Drop)]
pub struct ShadowRead {
    walk: ReadWalk,
}

impl ShadowRead {
    /// A walk on the copy that the transaction has of an item of the function `home`.
    pub fn new(home: u16, tx: TxId, table: u16, key: Str) -> ShadowRead
        ensures { result ≡ first_read home tx table key }
    {
        ShadowRead {
            walk: ReadWalk::new(home, Item::Shadow { tx, table, key }, None),
        }
    }
}

impl Walk for ShadowRead {
    ghost use Rattle.beldi_shadow.specs.Shadow.{read_asks, read_next, read_output};

    type Output = ShadowOutput;

    ghost asks = { read_asks };

    ghost next = { read_next };

    ghost output = { read_output };

    fn ask(&self, alloc: Global) -> Result<Boxed<Query>, AllocError> {
        self.walk.ask(alloc)
    }

    fn resume(
        &mut self,
        alloc: Global,
        heard: QueryReplyRef<'_>,
    ) -> Result<ShadowOutput, AllocError> {
        Ok(read_so(self.walk.resume(alloc, heard)?))
    }
}

// Nobody owns a shadow.
fn read_so(output: ReadOutput) -> ShadowOutput
    ensures { result ≡ read_so_of output }
{
    match output {
        ReadOutput::Got(value) => ShadowOutput::Got(value),
        ReadOutput::Going | ReadOutput::Held(_) => ShadowOutput::Going,
    }
}

/// A walk that makes one entry at a place of a transaction's own copy of an item, however many walks there are for it. Unless it
/// says `Going` it stands where it stood.
#[derive(Drop)]
pub struct ShadowWrite {
    walk: WriteWalk,
}

impl ShadowWrite {
    /// A walk for an operation of the transaction at `place`, a write or a condition, on its copy of an item of the function
    /// `home`.
    pub fn new(
        alloc: Global,
        home: u16,
        tx: TxId,
        place: Place,
        table: u16,
        key: Str,
        op: CellOp,
    ) -> Result<ShadowWrite, AllocError>
        ensures { IfOk result (λ w. w ≡ first_write home tx place table key op) }
    {
        let who = Owner::Tx(or_drop!(copy_tx(&tx, alloc); tx, place, key, op));
        Ok(ShadowWrite {
            walk: WriteWalk::new(home, Item::Shadow { tx, table, key }, place, who, op),
        })
    }
}

impl Walk for ShadowWrite {
    ghost use Rattle.beldi_shadow.specs.Shadow.{write_asks, write_next, write_output};

    type Output = ShadowOutput;

    ghost asks = { write_asks };

    ghost next = { write_next };

    ghost output = { write_output };

    fn ask(&self, alloc: Global) -> Result<Boxed<Query>, AllocError> {
        self.walk.ask(alloc)
    }

    fn resume(
        &mut self,
        alloc: Global,
        heard: QueryReplyRef<'_>,
    ) -> Result<ShadowOutput, AllocError> {
        Ok(write_so(self.walk.resume(alloc, heard)?))
    }
}

fn write_so(output: WriteOutput) -> ShadowOutput
    ensures { result ≡ write_so_of output }
{
    match output {
        WriteOutput::Done { note, first: _ } => ShadowOutput::Noted(note),
        WriteOutput::Going | WriteOutput::NotOwner | WriteOutput::Held(_) => ShadowOutput::Going,
        WriteOutput::Worn => ShadowOutput::Worn,
    }
}
