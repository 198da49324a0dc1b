// The walk along an item's rows that a stage makes.
ghost use Rattle.std.specs.Prelude.{◌≡◌, None, Some, IfOk};
ghost use Rattle.beldi_daal.specs.Cell.{cell_key as cell_key_of};
ghost use Rattle.beldi_txn.specs.Tx.{item_of};
ghost use Rattle.beldi_txn.specs.End.{free_place as freed_at, visited_by};
ghost use Rattle.beldi_step.specs.Run.{cell_op, place_of as place_at, own_tx as own_tx_of};
ghost use Rattle.beldi_step.specs.RunStride.{along, past_first, read_walking, put_walking, item_walking, tx_walking, end_walking, stage_walking, write_to, tx_to, end_to, stage_to};

use crate::stage::place_of;
use crate::tx_stage::own_tx;
use beldi_daal::{WriteAt, cell_key};
use beldi_lang::Effect;
use beldi_lock::LockAt;
use beldi_step::{Begun, OpenTx, RunTx, Stage, Walking};
use beldi_txn::{CallPath, EndAt, EndState, TxAt, free_place};
use beldi_value::{IntentId, Str, TxId, or_drop};
use std::alloc::{AllocError, Global};

/// The row that the walk of a stage looks at next, past the first row of its item, and the place whose entry it looks for there.
pub fn stage_walk(
    alloc: Global,
    id: &IntentId,
    func: u16,
    begun: &Begun,
) -> Result<Option<Walking>, AllocError>
    ensures { IfOk result (λ w. w ≡ past_first (stage_walking id.now func begun.now.tx begun.now.machine.steps begun.now.machine.effect begun.now.stage)) }
{
    let step = begun.machine.steps();
    let effect = begun.machine.wants();
    match &begun.stage {
        Stage::Walk(row) => read_walk(alloc, func, *row, effect),
        Stage::Write(at) => write_walk(alloc, id, func, step, effect, at),
        Stage::Tx(at) => tx_walk(alloc, id, func, step, effect, at, &begun.tx),
        Stage::End(visit) => end_walk(alloc, id, func, step, effect, visit.get(), &begun.tx),
        _ => Ok(None),
    }
}

// Whether an operation is past the first row of its item.
fn is_past(at: &WriteAt) -> bool {
    match at {
        WriteAt::Try(row) => *row > 0,
        _ => false,
    }
}

/// Whether a stage may be past the first row of an item: where it is not, it makes no walk that `stage_walk` tells. It is asked first, as it
/// hands on nothing.
pub fn may_walk(stage: &Stage) -> bool {
    match stage {
        Stage::Walk(row) | Stage::Tx(TxAt::Item(row)) => *row > 0,
        Stage::Write(at) | Stage::Tx(TxAt::Lock(LockAt::Item(at))) => is_past(at),
        Stage::End(visit) => match &visit.get().at {
            EndAt::Free(at) => is_past(at),
            _ => false,
        },
        _ => false,
    }
}

// A read at this row of an item.
fn read_at(
    alloc: Global,
    func: u16,
    table: u16,
    key: &Str,
    row: u32,
) -> Result<Option<Walking>, AllocError>
    ensures { IfOk result (λ w. w ≡ past_first (along (cell_key_of func table key.now) row None)) }
{
    if row == 0 {
        return Ok(None);
    }
    let key = cell_key(alloc, func, table, key, row)?;
    Ok(Some(Walking { key, place: None }))
}

// An operation at this row of an item.
fn write_at(
    alloc: Global,
    id: &IntentId,
    func: u16,
    step: u32,
    table: u16,
    key: &Str,
    row: u32,
) -> Result<Option<Walking>, AllocError>
    ensures { IfOk result (λ w. w ≡ past_first (along (cell_key_of func table key.now) row (Some (place_at id.now step)))) }
{
    if row == 0 {
        return Ok(None);
    }
    let key = cell_key(alloc, func, table, key, row)?;
    let place = Some(or_drop!(place_of(alloc, id, step); key));
    Ok(Some(Walking { key, place }))
}

fn read_walk(
    alloc: Global,
    func: u16,
    row: u32,
    effect: &Effect,
) -> Result<Option<Walking>, AllocError>
    ensures { IfOk result (λ w. w ≡ past_first (read_walking func row effect.now)) }
{
    match effect {
        Effect::Read { table, key } => read_at(alloc, func, *table, key, row),
        _ => Ok(None),
    }
}

fn write_walk(
    alloc: Global,
    id: &IntentId,
    func: u16,
    step: u32,
    effect: &Effect,
    at: &WriteAt,
) -> Result<Option<Walking>, AllocError>
    ensures { IfOk result (λ w. w ≡ past_first (put_walking (place_at id.now step) func at.now (cell_op effect.now))) }
{
    let WriteAt::Try(row) = at else {
        return Ok(None);
    };
    match effect {
        Effect::Write { table, key, .. }
        | Effect::CondWrite { table, key, .. }
        | Effect::Lock { table, key }
        | Effect::Unlock { table, key } => write_at(alloc, id, func, step, *table, key, *row),
        _ => Ok(None),
    }
}

// Inside a transaction.
fn tx_walk(
    alloc: Global,
    id: &IntentId,
    func: u16,
    step: u32,
    effect: &Effect,
    at: &TxAt,
    tx: &Option<RunTx>,
) -> Result<Option<Walking>, AllocError>
    ensures { IfOk result (λ w. w ≡ past_first (tx_walking func (place_at id.now step) at.now tx.now (item_of effect.now))) }
{
    if tx.is_none() {
        return Ok(None);
    }
    match effect {
        Effect::Read { table, key }
        | Effect::Write { table, key, .. }
        | Effect::CondWrite { table, key, .. } => {
            item_walk(alloc, id, func, step, *table, key, at)
        }
        _ => Ok(None),
    }
}

fn item_walk(
    alloc: Global,
    id: &IntentId,
    func: u16,
    step: u32,
    table: u16,
    key: &Str,
    at: &TxAt,
) -> Result<Option<Walking>, AllocError>
    ensures { IfOk result (λ w. w ≡ past_first (item_walking func (place_at id.now step) (table, key.now) at.now)) }
{
    match at {
        TxAt::Lock(LockAt::Item(WriteAt::Try(row))) => {
            write_at(alloc, id, func, step, table, key, *row)
        }
        TxAt::Item(row) => read_at(alloc, func, table, key, *row),
        _ => Ok(None),
    }
}

// At the end of a transaction.
fn end_walk(
    alloc: Global,
    id: &IntentId,
    func: u16,
    step: u32,
    effect: &Effect,
    visit: &EndState,
    tx: &Option<RunTx>,
) -> Result<Option<Walking>, AllocError>
    ensures { IfOk result (λ w. w ≡ past_first (end_walking id.now func step effect.now visit.now tx.now)) }
{
    match (effect, tx, &visit.at, &visit.item) {
        (
            Effect::End { .. },
            Some(RunTx::Own(tx)),
            EndAt::Free(WriteAt::Try(row)),
            Some((table, key)),
        ) => free_walk(alloc, id, func, step, tx, visit, *table, key, *row),
        _ => Ok(None),
    }
}

// An item is given back, at this row.
fn free_walk(
    alloc: Global,
    id: &IntentId,
    func: u16,
    step: u32,
    tx: &OpenTx,
    visit: &EndState,
    table: u16,
    key: &Str,
    row: u32,
) -> Result<Option<Walking>, AllocError>
    ensures { IfOk result (λ w. w ≡ past_first (along (cell_key_of (visited_by (own_tx_of id.now func tx.now) visit.now.path).1 table key.now) row (Some (freed_at (own_tx_of id.now func tx.now) step visit.now.path)))) }
{
    if row == 0 {
        return Ok(None);
    }
    let who = own_tx(alloc, id, func, tx)?;
    let walk = give_at(alloc, &who, step, &visit.path, table, key, row);
    drop(who);
    walk
}

// At this row of an item a transaction gives it back, of whom it visits.
fn give_at(
    alloc: Global,
    tx: &TxId,
    end: u32,
    path: &CallPath,
    table: u16,
    key: &Str,
    row: u32,
) -> Result<Option<Walking>, AllocError>
    ensures { IfOk result (λ w. w ≡ along (cell_key_of (visited_by tx.now path.now).1 table key.now) row (Some (freed_at tx.now end path.now))) }
{
    let key = cell_key(alloc, path.func(tx), table, key, row)?;
    let place = Some(or_drop!(free_place(alloc, tx, end, path); key));
    Ok(Some(Walking { key, place }))
}

/// Sets the walk of a stage to the row of this number.
pub fn set_row(stage: &mut Stage, row: u32)
    ensures { stage.new ≡ stage_to row stage.old }
{
    match stage {
        Stage::Walk(at) => *at = row,
        Stage::Write(at) => set_write(at, row),
        Stage::Tx(at) => set_tx(at, row),
        Stage::End(visit) => set_end(&mut visit.get_mut().at, row),
        _ => (),
    }
}

fn set_write(at: &mut WriteAt, row: u32)
    ensures { at.new ≡ write_to row at.old }
{
    if let WriteAt::Try(at) = at {
        *at = row;
    }
}

fn set_tx(at: &mut TxAt, row: u32)
    ensures { at.new ≡ tx_to row at.old }
{
    match at {
        TxAt::Lock(LockAt::Item(at)) => set_write(at, row),
        TxAt::Item(at) => *at = row,
        _ => (),
    }
}

fn set_end(at: &mut EndAt, row: u32)
    ensures { at.new ≡ end_to row at.old }
{
    if let EndAt::Free(at) = at {
        set_write(at, row);
    }
}
