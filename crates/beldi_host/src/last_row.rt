// The last row of a chain, by a look at each row on the way.
ghost use Rattle.std.specs.Prelude.{◌≡◌, IfOk};
ghost use Rattle.std.specs.FinMap as map;
ghost use Rattle.beldi_row.specs.Act.{act_reply_of};
ghost use Rattle.beldi_row.specs.Key.{at_row as row_at};
ghost use Rattle.beldi_chain.specs.Chain.{above, chain};
ghost use Rattle.beldi_host.specs.LastRow.{IsLast, row_step};
ghost use Rattle.beldi_host.specs.Survey.{Reads, told_row};

use crate::survey::OpenErr;
use beldi_row::{Act, ActReplyRef, Cell, Kind, Row, RowKey, Table, copy_owner, copy_tx};
use beldi_value::{Owner, Value, or_drop};
use std::alloc::{AllocError, Global};

/// What the last row of a chain holds.
#[derive(Drop)]
pub struct Held {
    pub owner: Option<Owner>,
    pub value: Value,
}

// What a row on the way tells.
#[derive(Drop)]
enum RowStep {
    // The number of the row after it.
    Next(u32),
    // None comes after it: what it holds, if it is a cell.
    Last(Option<Held>),
}

/// The number of the row after a row: its next, where that is greater.
pub fn row_after(row: u32, next: Option<u32>) -> Option<u32>
    ensures { result ≡ above row next }
{
    match next {
        Some(next) => { if row < next { Some(next) } else { None } }
        None => None,
    }
}

fn held_of(alloc: Global, cell: &Cell) -> Result<Held, AllocError>
    ensures { IfOk result (λ h. h ≡ record { owner = cell.now.owner; value = cell.now.value }) }
{
    let owner = match &cell.owner {
        None => None,
        Some(owner) => Some(copy_owner(owner, alloc)?),
    };
    let value = or_drop!(cell.value.copy(alloc); owner);
    Ok(Held { owner, value })
}

fn says_row(alloc: Global, said: ActReplyRef<'_>, row: u32) -> Result<RowStep, AllocError>
    ensures { IfOk result (λ t. t ≡ row_step row (told_row (act_reply_of said.entry))) }
{
    match said {
        ActReplyRef::Row(Row::Cell(cell)) => match row_after(row, cell.next) {
            Some(next) => Ok(RowStep::Next(next)),
            None => Ok(RowStep::Last(Some(held_of(alloc, cell)?))),
        },
        _ => Ok(RowStep::Last(None)),
    }
}

// The key of the row with this number, of the item with this first row.
fn at_row(alloc: Global, head: &RowKey, row: u32) -> Result<RowKey, AllocError>
    ensures { IfOk result (λ k. k ≡ row_at head.now row) }
{
    match head.kind() {
        Kind::Data { table, key, .. } => {
            let kind = Kind::Data {
                table: *table,
                key: key.copy(alloc)?,
                row,
            };
            Ok(RowKey::new(head.home(), kind))
        }
        Kind::Shadow { tx, table, key, .. } => {
            let tx = copy_tx(tx, alloc)?;
            let key = or_drop!(key.copy(alloc); tx);
            let kind = Kind::Shadow {
                tx,
                table: *table,
                key,
                row,
            };
            Ok(RowKey::new(head.home(), kind))
        }
        _ => head.copy(alloc),
    }
}

fn look<T: Table>(
    alloc: Global,
    table: &mut T,
    head: &RowKey,
    row: u32,
    now: u64,
) -> Result<RowStep, OpenErr>
    ensures { Reads (λ m t. t ≡ row_step row (map.get m (row_at head.now row))) (T.state table.old) (T.state table.new) result }
{
    let key = at_row(alloc, head, row)?;
    let said = table.act(key, Act::Look, now)?;
    match says_row(alloc, said, row) {
        Ok(told) => Ok(told),
        Err(_) => Err(OpenErr::OutOfMemory),
    }
}

/// What the last row of the chain with this first row holds, if it is a cell. It looks at each row on the way, at the moment
/// `now`; a look changes nothing.
pub fn last_row<T: Table>(
    alloc: Global,
    table: &mut T,
    head: &RowKey,
    now: u64,
) -> Result<Option<Held>, OpenErr>
    ensures { Reads (λ m h. IsLast (chain m head.now) h) (T.state table.old) (T.state table.new) result }
{
    let mut row = 0u32;
    for _ in 0..u64::MAX {
        match look(alloc, table, head, row, now) {
            Ok(RowStep::Next(next)) => row = next,
            Ok(RowStep::Last(held)) => return Ok(held),
            Err(why) => return Err(why),
        }
    }
    Err(OpenErr::OutOfMemory)
}
