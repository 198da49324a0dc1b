// Writing rows.
ghost use Rattle.std.specs.Prelude.{◌≡◌, OnOk, IfOk};
ghost use Rattle.beldi_bytes.specs.Coding.{Adds, option_bytes, IfThere};
ghost use Rattle.beldi_bytes.specs.KeyBytes.{tx_bytes, IsTx};
ghost use Rattle.beldi_bytes.specs.RowBytes.{body_bytes, intent_bytes, invoke_bytes, cell_bytes, row_then, row_bytes, IsBody, IsIntent, IsInvoke, IsCell, IsRow};

use crate::key_out::put_tx;
use crate::number_out::{put_byte, put_eight, put_eight_if, put_four_if, put_truth, put_two};
use crate::part_out::{put_caller_if, put_log, put_outcome_if, put_owner_if};
use crate::value_out::put_value;
use beldi_row::{Body, Cell, IntentRow, InvokeRow, Row};
use beldi_value::{Shared, TxId, or_drop};
use std::alloc::{AllocError, Global};

fn put_tx_if(out: &mut Vec<u8>, part: &Option<Shared<TxId>>) -> Result<(), AllocError>
    ensures { OnOk result (Adds out.old.items out.new.items (option_bytes tx_bytes part.now) × IfThere IsTx part.now) }
{
    match part {
        None => put_byte(out, 0),
        Some(part) => {
            put_byte(out, 1)?;
            put_tx(out, part.get())
        }
    }
}

fn put_body(out: &mut Vec<u8>, body: &Body) -> Result<(), AllocError>
    ensures { OnOk result (Adds out.old.items out.new.items (body_bytes body.now) × IsBody body.now) }
{
    put_two(out, body.func)?;
    put_value(out, &body.args)?;
    put_tx_if(out, &body.tx)?;
    put_caller_if(out, &body.parent)
}

fn put_body_if(out: &mut Vec<u8>, part: &Option<Body>) -> Result<(), AllocError>
    ensures { OnOk result (Adds out.old.items out.new.items (option_bytes body_bytes part.now) × IfThere IsBody part.now) }
{
    match part {
        None => put_byte(out, 0),
        Some(part) => {
            put_byte(out, 1)?;
            put_body(out, part)
        }
    }
}

fn put_intent(out: &mut Vec<u8>, intent: &IntentRow) -> Result<(), AllocError>
    ensures { OnOk result (Adds out.old.items out.new.items (intent_bytes intent.now) × IsIntent intent.now) }
{
    put_eight(out, intent.issued)?;
    put_body_if(out, &intent.body)?;
    put_outcome_if(out, &intent.outcome)?;
    put_eight_if(out, intent.finish)
}

fn put_invoke(out: &mut Vec<u8>, invoke: &InvokeRow) -> Result<(), AllocError>
    ensures { OnOk result (Adds out.old.items out.new.items (invoke_bytes invoke.now) × IsInvoke invoke.now) }
{
    put_two(out, invoke.func)?;
    put_outcome_if(out, &invoke.result)?;
    put_truth(out, invoke.registered)
}

fn put_cell(out: &mut Vec<u8>, cell: &Cell) -> Result<(), AllocError>
    ensures { OnOk result (Adds out.old.items out.new.items (cell_bytes cell.now) × IsCell cell.now) }
{
    put_value(out, &cell.value)?;
    put_owner_if(out, &cell.owner)?;
    put_log(out, &cell.log)?;
    put_four_if(out, cell.next)?;
    put_truth(out, cell.marked)?;
    put_eight_if(out, cell.dangled)
}

fn put_row(out: &mut Vec<u8>, row: &Row) -> Result<(), AllocError>
    ensures { OnOk result (Adds out.old.items out.new.items (row_then row.now) × IsRow row.now) }
{
    match row {
        Row::Intent(intent) => {
            put_byte(out, 0)?;
            put_intent(out, intent)
        }
        Row::ReadLog(value) => {
            put_byte(out, 1)?;
            put_value(out, value)
        }
        Row::Invoke(invoke) => {
            put_byte(out, 2)?;
            put_invoke(out, invoke)
        }
        Row::Cell(cell) => {
            put_byte(out, 3)?;
            put_cell(out, cell)
        }
        Row::Lockset => put_byte(out, 4),
    }
}

/// The bytes of a row. A text or a list of 2^32 parts or more is refused as out of memory. A row with a moment above 2^62 has bytes
/// too, which `read_row` does not read: no host has one.
pub fn write_row(alloc: Global, row: &Row) -> Result<Vec<u8>, AllocError>
    ensures bytes { IfOk result (λ b. b.items ≡ row_bytes row.now) }
    ensures real { IfOk result (λ b. IsRow row.now) }
{
    let mut out = Vec::new(alloc);
    or_drop!(put_row(&mut out, row); out);
    Ok(out)
}
