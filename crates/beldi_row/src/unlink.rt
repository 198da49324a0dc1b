// The acts that lead past a cell: it is marked, the one before leads past it, and then it is adrift.
ghost use Rattle.std.specs.Prelude.{◌≡◌};
ghost use Rattle.beldi_row.specs.Act.{leads_from, Changes};

use crate::act::{Act, Change};
use crate::row::{Cell, Row};

pub(crate) fn mark(row: &mut Row) -> Change
    ensures { Changes Act.MarkCell 0 row.old row.new result }
{
    match row {
        Row::Cell(cell) => mark_cell(cell),
        _ => Change::NotSo,
    }
}

fn mark_cell(cell: &mut Cell) -> Change
    ensures { Changes Act.MarkCell 0 (Row.Cell cell.old) (Row.Cell cell.new) result }
{
    match cell.next {
        Some(next) => {
            cell.marked = true;
            Change::Marked(next)
        }
        None => Change::NotSo,
    }
}

pub(crate) fn skip(row: &mut Row, from: u32, to: u32) -> Change
    ensures { Changes (Act.SkipCell from to) 0 row.old row.new result }
{
    match row {
        Row::Cell(cell) => skip_cell(cell, from, to),
        _ => Change::NotSo,
    }
}

fn skip_cell(cell: &mut Cell, from: u32, to: u32) -> Change
    ensures { Changes (Act.SkipCell from to) 0 (Row.Cell cell.old) (Row.Cell cell.new) result }
{
    if cell.marked || !leads_to(cell.next, from) || from >= to {
        return Change::NotSo;
    }
    cell.next = Some(to);
    Change::Did
}

// Whether the row of this number is next.
fn leads_to(next: Option<u32>, row: u32) -> bool
    ensures { result ≡ leads_from row next }
{
    match next {
        Some(next) => next == row,
        None => false,
    }
}

pub(crate) fn dangle(row: &mut Row, now: u64) -> Change
    ensures { Changes Act.DangleCell now row.old row.new result }
{
    match row {
        Row::Cell(cell) => dangle_cell(cell, now),
        _ => Change::NotSo,
    }
}

fn dangle_cell(cell: &mut Cell, now: u64) -> Change
    ensures { Changes Act.DangleCell now (Row.Cell cell.old) (Row.Cell cell.new) result }
{
    if !cell.marked || cell.dangled.is_some() {
        return Change::NotSo;
    }
    cell.dangled = Some(now);
    Change::Did
}
