// A row of an item: what is to be done with it, and how the rows before it come to lead past it.
ghost use Rattle.std.specs.Prelude.{◌≡◌, IfOk};
ghost use Rattle.beldi_row.specs.Key.{row_of as row_in};
ghost use Rattle.beldi_query.specs.Query.{query_reply_of};
ghost use Rattle.beldi_prune.specs.Unlink.{row_todo, item_todo, cell_todo, adrift_todo, is_did as is_did_of, told_marked as told_marked_of, told_next as told_next_of, lead_to};

use crate::collector::CollectorAt;
use crate::entries::Intents;
use crate::found::Todo;
use beldi_query::QueryReplyRef;
use beldi_row::{ActReplyRef, Cell, Kind, Row, RowKey, is_past};
use std::alloc::{AllocError, Global};

/// What is to be done with the row of an item that has this number. The first row stays.
pub(crate) fn judge_row(
    alloc: Global,
    number: u32,
    row: &Row,
    life: u64,
    now: u64,
) -> Result<Todo, AllocError>
    ensures { IfOk result (λ t. t ≡ row_todo number life now row.now) }
{
    if 0 < number {
        judge_item(alloc, row, life, now)
    } else {
        Ok(Todo::Pass)
    }
}

fn judge_item(alloc: Global, row: &Row, life: u64, now: u64) -> Result<Todo, AllocError>
    ensures { IfOk result (λ t. t ≡ item_todo life now row.now) }
{
    match row {
        Row::Cell(cell) => judge_cell(alloc, cell, life, now),
        _ => Ok(Todo::Pass),
    }
}

// The last row stays. One that is adrift goes once it is so for more than a life, and past one that is marked its chain is led. Of
// any other the intents of its entries are looked at.
fn judge_cell(alloc: Global, cell: &Cell, life: u64, now: u64) -> Result<Todo, AllocError>
    ensures { IfOk result (λ t. t ≡ cell_todo life now cell.now cell.now.next) }
{
    let Some(to) = cell.next else {
        return Ok(Todo::Pass);
    };
    if cell.dangled.is_some() {
        return Ok(judge_adrift(is_past(cell.dangled, life, now)));
    }
    if cell.marked {
        return Ok(Todo::LeadPast(to));
    }
    Ok(Todo::Prove(Intents::of(alloc, &cell.log)?))
}

fn judge_adrift(is_past: bool) -> Todo
    ensures { result ≡ adrift_todo is_past }
{
    if is_past {
        Todo::DropAdrift
    } else {
        Todo::Pass
    }
}

/// Whether an act said that it did what it was asked for.
pub(crate) fn is_did(heard: &QueryReplyRef<'_>) -> bool
    ensures { result ≡ is_did_of (query_reply_of heard.entry.now) }
{
    matches!(heard, QueryReplyRef::Act(ActReplyRef::Did))
}

/// The number of the row after one that is marked.
pub(crate) fn told_marked(heard: &QueryReplyRef<'_>) -> Option<u32>
    ensures { result ≡ told_marked_of (query_reply_of heard.entry.now) }
{
    match heard {
        QueryReplyRef::Act(ActReplyRef::Marked(to)) => Some(*to),
        _ => None,
    }
}

/// The number of the row after the one that was looked at, if that is there.
pub(crate) fn told_next(heard: &QueryReplyRef<'_>) -> Option<Option<u32>>
    ensures { result ≡ told_next_of (query_reply_of heard.entry.now) }
{
    match heard {
        QueryReplyRef::Act(ActReplyRef::Row(Row::Cell(cell))) => Some(cell.next),
        _ => None,
    }
}

/// The number of the row of an item, or 0.
pub(crate) fn row_of(key: &RowKey) -> u32
    ensures { result ≡ row_in key.now.kind }
{
    match key.kind() {
        Kind::Data { row, .. } | Kind::Shadow { row, .. } => *row,
        _ => 0,
    }
}

/// What it is at once it looked at the row `at`, which leads on so, on the way to the row of this key, that `to` comes after.
pub(crate) fn lead(key: RowKey, to: u32, at: u32, next: Option<u32>) -> CollectorAt
    ensures { result ≡ lead_to key to at next }
{
    let row = row_of(&key);
    match next {
        Some(next) if next == row => CollectorAt::ToSkip { key, to, at },
        Some(next) if next < row => CollectorAt::ToLead { key, to, at: next },
        _ => CollectorAt::ToDangle(key),
    }
}
