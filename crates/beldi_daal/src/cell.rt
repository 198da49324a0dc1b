// What is asked of the rows of an item, and what follows from what is told.
ghost use Rattle.std.specs.Prelude.{◌≡◌, ◌<◌, ◌+◌, ◌-◌, ◌^◌, None, true, IfOk, OnErr};
ghost use Rattle.std.specs.Option.{option_copied};
ghost use Rattle.beldi_query.specs.Query.{query_reply_of, lends};
ghost use Rattle.beldi_value.specs.declared.value.Value.TheVariants.{Null};
ghost use Rattle.beldi_row.specs.Key.{at_row};
ghost use Rattle.beldi_row.specs.Log.{blank};
ghost use Rattle.beldi_row.specs.declared.act.Act.TheVariants as acts;
ghost use Rattle.beldi_query.specs.declared.query.Query.TheVariants as queries;
ghost use Rattle.beldi_daal.specs.declared.cell.WriteAt.TheVariants as stages;
ghost use Rattle.beldi_daal.specs.declared.cell.WriteGoes.TheVariants as goes;
ghost use Rattle.beldi_daal.specs.Cell.{cell_key as key_of, shadow_key as shadow_key_of, op_act, done_note as done_note_of, write_asks, full_goes, made_goes, write_goes, read_goes, cell_goes, in_the_way};

use beldi_query::{Query, QueryReplyRef};
use beldi_row::{Act, ActReplyRef, Blank, Cell, Kind, Note, Row, RowKey, copy_owner, copy_tx};
use beldi_value::{Boxed, IdBuf, Owner, Place, Rel, Str, TxId, Value, or_drop};
use std::alloc::{AllocError, Global};

/// What is done to an item.
#[derive(Drop)]
pub enum CellOp {
    /// Sets the value.
    Write(Value),
    /// Sets the value where the one that is there stands so to the operand.
    Cond {
        rel: Rel,
        operand: Value,
        value: Value,
    },
    /// Takes the lock: who asks is then the owner. A transaction that is not older than another owner dies in place of it.
    Lock,
    /// Gives the lock back, and sets the value where one is given. Who asks must be the owner, so the item has a row.
    Free(Option<Value>),
}

impl CellOp {
    /// An equal operation.
    pub fn copy(&self, alloc: Global) -> Result<CellOp, AllocError>
        ensures { IfOk result (λ o. o ≡ self.now) }
    {
        match self {
            CellOp::Write(value) => Ok(CellOp::Write(value.copy(alloc)?)),
            CellOp::Cond {
                rel,
                operand,
                value,
            } => {
                let operand = operand.copy(alloc)?;
                let value = or_drop!(value.copy(alloc); operand);
                Ok(CellOp::Cond {
                    rel: *rel,
                    operand,
                    value,
                })
            }
            CellOp::Lock => Ok(CellOp::Lock),
            CellOp::Free(None) => Ok(CellOp::Free(None)),
            CellOp::Free(Some(value)) => Ok(CellOp::Free(Some(value.copy(alloc)?))),
        }
    }

    /// The note that it leaves where its act says `Did`. The act of a condition says `Tested`, and leaves the answer; that of
    /// a lock may say `Died`, and leaves the death.
    pub fn done_note(&self) -> Note
        ensures { result ≡ done_note_of self.now }
    {
        match self {
            CellOp::Write(_) => Note::Wrote,
            CellOp::Cond { .. } => Note::Cond(true),
            CellOp::Lock => Note::Got,
            CellOp::Free(_) => Note::Freed,
        }
    }

    // Its act, for a place and an owner.
    #[inline(always)]
    fn act(self, alloc: Global, place: Place, who: Owner) -> Result<Act, AllocError>
        ensures { IfOk result (λ a. a ≡ op_act place who self) }
    {
        Ok(match self {
            CellOp::Write(value) => Act::WriteCell { place, who, value },
            CellOp::Cond {
                rel,
                operand,
                value,
            } => Act::CondCell {
                place,
                who,
                rel,
                operand,
                value,
            },
            CellOp::Lock => {
                let spare = or_drop!(IdBuf::new(alloc); place, who);
                Act::LockCell { place, who, spare }
            }
            CellOp::Free(value) => Act::FreeCell { place, who, value },
        })
    }
}

/// What a full row told.
#[derive(Drop)]
pub struct FullRow {
    pub value: Value,
    pub owner: Option<Owner>,
}

/// Where the walk of a write stands, by the numbers of rows.
#[derive(Drop)]
pub enum WriteAt {
    /// The operation is tried next, at this row.
    Try(u32),
    /// The item's first row is made next.
    Make,
    /// The row of this number is made next, which is to follow the one before it, a full one that told this.
    Append(u32, Boxed<FullRow>),
    /// The row of this number is linked next, to the one before it.
    Link(u32),
}

/// Where a write goes.
#[derive(Drop)]
pub enum WriteGoes {
    /// The walk goes on from here.
    On(WriteAt),
    /// The walk stays where it stands.
    Stays,
    /// The place has this note; `first` says that this act made it.
    Done { note: Note, first: bool },
    /// The item was to be given back, and who asks does not own it.
    NotOwner,
    /// This owner, another than the one who asks, has the item.
    Held(Owner),
    /// The item's last row is full, and has the greatest number: none can follow it.
    Worn,
}

/// Where a read goes.
#[derive(Drop)]
pub enum ReadGoes {
    /// The walk goes on from this row.
    On(u32),
    /// The walk stays where it stands.
    Stays,
    /// The item has this value; none where it has no row.
    Got(Option<Value>),
    /// This owner has the item, and the read is for another.
    Held(Owner),
}

/// The key of the row with this number of an item of the function `home`.
pub fn cell_key(
    alloc: Global,
    home: u16,
    table: u16,
    key: &Str,
    row: u32,
) -> Result<RowKey, AllocError>
    ensures { IfOk result (λ k. k ≡ at_row (key_of home table key.now) row) }
{
    let kind = Kind::Data {
        table,
        key: key.copy(alloc)?,
        row,
    };
    Ok(RowKey::new(home, kind))
}

/// The key of the row with this number of a transaction's own copy of an item of the function `home`.
pub fn shadow_key(
    alloc: Global,
    home: u16,
    tx: &TxId,
    table: u16,
    key: &Str,
    row: u32,
) -> Result<RowKey, AllocError>
    ensures { IfOk result (λ k. k ≡ at_row (shadow_key_of home tx.now table key.now) row) }
{
    let tx = copy_tx(tx, alloc)?;
    let key = or_drop!(key.copy(alloc); tx);
    let kind = Kind::Shadow {
        tx,
        table,
        key,
        row,
    };
    Ok(RowKey::new(home, kind))
}

/// What a write asks, by the key of its item's first row: the operation, for a place and an owner; that a row be made; or that it
/// be linked.
#[inline(always)]
pub fn write_query(
    alloc: Global,
    key: RowKey,
    place: Place,
    who: Owner,
    op: CellOp,
    at: &WriteAt,
) -> Result<Boxed<Query>, AllocError>
    ensures { IfOk result (λ q. q ≡ write_asks key place who op at.now) }
{
    if let WriteAt::Try(row) = at {
        let act = or_drop!(op.act(alloc, place, who); key);
        return Query::act(alloc, key.at_row(*row), act);
    }
    drop(place);
    drop(who);
    drop(op);
    match at {
        WriteAt::Append(row, told) => append_query(alloc, key.at_row(*row), told.get()),
        WriteAt::Link(row) => link_query(alloc, key, *row),
        WriteAt::Try(_) | WriteAt::Make => make_query(alloc, key),
    }
}

// Asks that an item's first row be made.
fn make_query(alloc: Global, key: RowKey) -> Result<Boxed<Query>, AllocError>
    ensures { IfOk result (λ q. q ≡ queries.Act key (acts.MakeCell Null None blank)) }
{
    let blank = or_drop!(Blank::new(alloc); key);
    let act = Act::MakeCell {
        value: Value::Null,
        owner: None,
        blank,
    };
    Query::act(alloc, key, act)
}

// Asks that a row be made with the value and the owner of a full one.
fn append_query(alloc: Global, key: RowKey, told: &FullRow) -> Result<Boxed<Query>, AllocError>
    ensures { IfOk result (λ q. q ≡ queries.Act key (acts.MakeCell told.now.value told.now.owner blank)) }
{
    let value = or_drop!(told.value.copy(alloc); key);
    let owner = or_drop!(owner_of(alloc, told.owner.as_ref()); key, value);
    let blank = or_drop!(Blank::new(alloc); key, value, owner);
    let act = Act::MakeCell {
        value,
        owner,
        blank,
    };
    Query::act(alloc, key, act)
}

// Asks that the row of this number be linked to the one before it.
fn link_query(alloc: Global, key: RowKey, row: u32) -> Result<Boxed<Query>, AllocError>
    ensures { IfOk result (λ q. q ≡ queries.Act (at_row key (row - 1)) (acts.LinkCell row)) }
{
    Query::act(
        alloc,
        key.at_row(row.saturating_sub(1)),
        Act::LinkCell { next: row },
    )
}

// An equal owner, if there is one.
fn owner_of(alloc: Global, owner: Option<&Owner>) -> Result<Option<Owner>, AllocError>
    ensures { IfOk result (λ o. o ≡ option_copied owner.entry) }
{
    match owner {
        Some(owner) => Ok(Some(copy_owner(owner, alloc)?)),
        None => Ok(None),
    }
}

/// Where a write goes after it was told, by where it stood; `done` is the note that its operation leaves where the act says `Did`. Out
/// of memory only for what was lent.
pub fn write_told(
    alloc: Global,
    done: Note,
    at: &WriteAt,
    heard: QueryReplyRef<'_>,
) -> Result<WriteGoes, AllocError>
    ensures ok { IfOk result (λ s. s ≡ write_goes done at.now (query_reply_of heard.entry)) }
    ensures err { OnErr result (lends (query_reply_of heard.entry) ≡ true) }
{
    if let QueryReplyRef::Act(ActReplyRef::Did) = heard {
        return Ok(WriteGoes::Done {
            note: done,
            first: true,
        });
    }
    drop(done);
    let QueryReplyRef::Act(said) = heard else {
        return Ok(WriteGoes::Stays);
    };
    match said {
        ActReplyRef::NoRow => Ok(WriteGoes::On(WriteAt::Make)),
        ActReplyRef::Added | ActReplyRef::Present => Ok(made(at)),
        ActReplyRef::Tested(passed) => Ok(WriteGoes::Done {
            note: Note::Cond(passed),
            first: true,
        }),
        ActReplyRef::Died(age) => Ok(WriteGoes::Done {
            note: Note::Died(IdBuf::of(alloc, age)?),
            first: true,
        }),
        ActReplyRef::Noted(note) => Ok(WriteGoes::Done {
            note: note.copy(alloc)?,
            first: false,
        }),
        ActReplyRef::Next(row) => Ok(WriteGoes::On(WriteAt::Try(row))),
        ActReplyRef::Held(owner) => Ok(WriteGoes::Held(copy_owner(owner, alloc)?)),
        ActReplyRef::NotOwner => Ok(WriteGoes::NotOwner),
        ActReplyRef::Packed(value, owner) => packed(alloc, at, value, owner),
        _ => Ok(WriteGoes::Stays),
    }
}

// Once the row is there: a first row is tried, and any other is linked.
fn made(at: &WriteAt) -> WriteGoes
    ensures { result ≡ made_goes at.now }
{
    match at {
        WriteAt::Make => WriteGoes::On(WriteAt::Try(0)),
        WriteAt::Append(row, _) => WriteGoes::On(WriteAt::Link(*row)),
        WriteAt::Try(_) | WriteAt::Link(_) => WriteGoes::Stays,
    }
}

// From a full row the next one is made, with what that told.
fn packed(
    alloc: Global,
    at: &WriteAt,
    value: &Value,
    owner: Option<&Owner>,
) -> Result<WriteGoes, AllocError>
    ensures { IfOk result (λ s. s ≡ full_goes (record { value = value.now; owner = option_copied owner.entry }) at.now) }
{
    match at {
        WriteAt::Try(u32::MAX) => Ok(WriteGoes::Worn),
        WriteAt::Try(row) => append(alloc, *row, value, owner),
        _ => Ok(WriteGoes::Stays),
    }
}

fn append(
    alloc: Global,
    row: u32,
    value: &Value,
    owner: Option<&Owner>,
) -> Result<WriteGoes, AllocError>
    requires { row < 2 ^ 32 - 1 }
    ensures { IfOk result (λ s. s ≡ goes.On (stages.Append (row + 1) (record { value = value.now; owner = option_copied owner.entry }))) }
{
    let value = value.copy(alloc)?;
    let owner = or_drop!(owner_of(alloc, owner); value);
    let told = Boxed::new(alloc, FullRow { value, owner })?;
    Ok(WriteGoes::On(WriteAt::Append(row + 1, told)))
}

/// Where a read goes after its Look; without `who` it gives the value whoever has the item.
pub fn read_told(
    alloc: Global,
    who: &Option<Owner>,
    heard: QueryReplyRef<'_>,
) -> Result<ReadGoes, AllocError>
    ensures ok { IfOk result (λ s. s ≡ read_goes who.now (query_reply_of heard.entry)) }
    ensures err { OnErr result (lends (query_reply_of heard.entry) ≡ true) }
{
    let QueryReplyRef::Act(said) = heard else {
        return Ok(ReadGoes::Stays);
    };
    match said {
        ActReplyRef::Absent => Ok(ReadGoes::Got(None)),
        ActReplyRef::Row(Row::Cell(cell)) => read_cell(alloc, who, cell),
        _ => Ok(ReadGoes::Stays),
    }
}

fn read_cell(alloc: Global, who: &Option<Owner>, cell: &Cell) -> Result<ReadGoes, AllocError>
    ensures { IfOk result (λ s. s ≡ cell_goes who.now cell.now cell.now.next) }
{
    if let Some(next) = cell.next {
        return Ok(ReadGoes::On(next));
    }
    match in_the_way_of(who, &cell.owner) {
        Some(owner) => Ok(ReadGoes::Held(copy_owner(owner, alloc)?)),
        None => Ok(ReadGoes::Got(Some(cell.value.copy(alloc)?))),
    }
}

// The owner, where it is another than the one who reads.
fn in_the_way_of<'a>(who: &Option<Owner>, owner: &'a Option<Owner>) -> Option<&'a Owner>
    ensures { option_copied result ≡ in_the_way who.now owner.now }
{
    match (who, owner) {
        (Some(who), Some(owner)) if owner != who => Some(owner),
        _ => None,
    }
}
