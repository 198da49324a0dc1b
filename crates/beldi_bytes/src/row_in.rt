// Reading rows.
ghost use Rattle.std.specs.Prelude.{IfOk};
ghost use Rattle.beldi_bytes.specs.Coding.{Reads, option_bytes, IfThere};
ghost use Rattle.beldi_bytes.specs.BytesReading.{links_bytes, AreLinks, IsIntentInTime, IsCellInTime, IsRowInTime};
ghost use Rattle.beldi_bytes.specs.RowBytes.{body_bytes, intent_bytes, invoke_bytes, cell_bytes, row_then, IsBody, IsInvoke, ReadsRow};

use crate::cursor::{Cursor, ReadErr, given};
use crate::key_in::read_four_if;
use crate::part_in::{
    read_caller_if, read_log, read_moment, read_moment_if, read_outcome_if, read_owner_if,
    read_part, read_tx_if,
};
use beldi_row::{Body, Cell, IntentRow, InvokeRow, Row};
use std::alloc::{AllocError, Global};

fn read_body(alloc: Global, from: &mut Cursor<'_>) -> Result<Body, ReadErr>
    ensures { Reads body_bytes IsBody from.old from.new result }
{
    let func = given!(from.two());
    let args = given!(read_part(alloc, from));
    let tx = given!(read_tx_if(alloc, from); args);
    let caller = given!(read_caller_if(alloc, from); args, tx);
    Ok(Body {
        func,
        args,
        tx,
        parent: caller,
    })
}

fn read_body_if(alloc: Global, from: &mut Cursor<'_>) -> Result<Option<Body>, ReadErr>
    ensures { Reads (option_bytes body_bytes) (IfThere IsBody) from.old from.new result }
{
    if given!(from.truth()) {
        Ok(Some(given!(read_body(alloc, from))))
    } else {
        Ok(None)
    }
}

fn read_intent(alloc: Global, from: &mut Cursor<'_>) -> Result<IntentRow, ReadErr>
    ensures { Reads intent_bytes IsIntentInTime from.old from.new result }
{
    let issued = given!(read_moment(from));
    let body = given!(read_body_if(alloc, from));
    let outcome = given!(read_outcome_if(alloc, from); body);
    let finish = given!(read_moment_if(from); body, outcome);
    Ok(IntentRow {
        issued,
        body,
        outcome,
        finish,
    })
}

fn read_invoke(alloc: Global, from: &mut Cursor<'_>) -> Result<InvokeRow, ReadErr>
    ensures { Reads invoke_bytes IsInvoke from.old from.new result }
{
    let func = given!(from.two());
    let outcome = given!(read_outcome_if(alloc, from));
    let registered = given!(from.truth(); outcome);
    Ok(InvokeRow {
        func,
        result: outcome,
        registered,
    })
}

// The end of a cell: the row after it, whether it is marked, and since when no row leads to it.
fn read_links(from: &mut Cursor<'_>) -> Result<(Option<u32>, bool, Option<u64>), ReadErr>
    ensures { Reads links_bytes AreLinks from.old from.new result }
{
    let next = given!(read_four_if(from));
    let marked = given!(from.truth());
    let dangled = given!(read_moment_if(from));
    Ok((next, marked, dangled))
}

fn read_cell(alloc: Global, from: &mut Cursor<'_>) -> Result<Cell, ReadErr>
    ensures { Reads cell_bytes IsCellInTime from.old from.new result }
{
    let value = given!(read_part(alloc, from));
    let owner = given!(read_owner_if(alloc, from); value);
    let log = given!(read_log(alloc, from); value, owner);
    let links = given!(read_links(from); value, owner, log);
    Ok(Cell {
        value,
        owner,
        log,
        next: links.0,
        marked: links.1,
        dangled: links.2,
    })
}

fn read_front(alloc: Global, from: &mut Cursor<'_>) -> Result<Row, ReadErr>
    ensures { Reads row_then IsRowInTime from.old from.new result }
{
    match given!(from.byte()) {
        0 => Ok(Row::Intent(given!(read_intent(alloc, from)))),
        1 => Ok(Row::ReadLog(given!(read_part(alloc, from)))),
        2 => Ok(Row::Invoke(given!(read_invoke(alloc, from)))),
        3 => Ok(Row::Cell(given!(read_cell(alloc, from)))),
        4 => Ok(Row::Lockset),
        _ => Err(ReadErr::Foreign),
    }
}

/// The row that has these bytes, where one has whose moments are at most 2^62.
pub fn read_row(alloc: Global, bytes: &[u8]) -> Result<Option<Row>, AllocError>
    ensures { IfOk result (λ o. ReadsRow bytes.now o) }
{
    let mut from = Cursor::new(bytes);
    match read_front(alloc, &mut from) {
        Ok(row) if from.len() == 0 => Ok(Some(row)),
        Ok(row) => {
            drop(row);
            Ok(None)
        }
        Err(ReadErr::OutOfMemory) => Err(AllocError),
        Err(ReadErr::Foreign) => Ok(None),
    }
}
