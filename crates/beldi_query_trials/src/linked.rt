// A log collector at the rows of an item, which three rows follow one another in, where memory is ample.
use crate::prunes::{finishes, goes};
use crate::walks::{is_so, item, roomy, turn};
use beldi_daal::{CellOp, ReadOutput, ReadWalk, WriteOutput, WriteWalk};
use beldi_intent::issue;
use beldi_prune::LogCollector;
use beldi_row::Table;
use beldi_table::MapTable;
use beldi_value::{IntentId, Owner, Place, Value, or_drop};
use std::alloc::Global;
use std::test::Fail;

// The walk of a write of a ticket's root at a step, of the step's number.
fn write_of(alloc: Global, ticket: u32, step: u32) -> Result<WriteWalk, Fail> {
    let item = item(alloc)?;
    let place = Place {
        intent: IntentId::root(ticket),
        step,
    };
    let who = Owner::Intent(IntentId::root(ticket));
    let op = CellOp::Write(Value::Int(i64::from(step)));
    Ok(WriteWalk::new(1, item, place, who, op))
}

// Whether it is done in the turn after so many.
fn writes(
    alloc: Global,
    table: &mut MapTable,
    ticket: u32,
    step: u32,
    turns: u32,
) -> Result<bool, Fail> {
    let write = write_of(alloc, ticket, step)?;
    Ok(is_so!(
        turn(alloc, table, write, turns)?,
        WriteOutput::Done {
            first: true,
            note: _
        }
    ))
}

// Whether the writes of ticket 1 at these steps are done, each in the turn after so many.
fn fills(
    alloc: Global,
    table: &mut MapTable,
    from: u32,
    to: u32,
    turns: u32,
) -> Result<bool, Fail> {
    let mut done = true;
    for step in from..to {
        done = writes(alloc, table, 1, step, turns)? && done;
    }
    Ok(done)
}

// Whether three rows are made, of which the last entry of the second one is of this ticket.
fn makes(alloc: Global, table: &mut MapTable, ticket: u32) -> Result<bool, Fail> {
    let first = writes(alloc, table, 1, 0, 2)? && fills(alloc, table, 1, 8, 0)?;
    let second = writes(alloc, table, 1, 8, 3)? && fills(alloc, table, 9, 15, 1)?;
    let last = writes(alloc, table, ticket, 15, 1)? && writes(alloc, table, 1, 16, 4)?;
    Ok(first && second && last)
}

// Whether ticket 1 did its writes and finished, and ticket 2 is there, maybe with one write.
fn stands(alloc: Global, table: &mut MapTable, ticket: u32) -> Result<bool, Fail> {
    let issued = issue(table, 1, 5)? && issue(table, 2, 5)?;
    Ok(issued && makes(alloc, table, ticket)? && finishes(alloc, table)?)
}

// Whether a read, in its second turn, gives what the last row has.
fn reads_past(alloc: Global, table: &mut MapTable) -> Result<bool, Fail> {
    let read = ReadWalk::new(1, item(alloc)?, None);
    Ok(is_so!(
        turn(alloc, table, read, 1)?,
        ReadOutput::Got(Some(Value::Int(16)))
    ))
}

// The row is marked, led past and left adrift; it stays for a life, and then goes.
fn rounds(alloc: Global, table: &mut MapTable) -> Result<bool, Fail> {
    let mut collector = LogCollector::new(alloc);
    let adrift =
        or_drop!(goes(alloc, table, &mut collector, 9, &[0, 1, 0, 0, 0, 0, 3, 0, 4, 5, 0, 2]); collector);
    let stays = or_drop!(goes(alloc, table, &mut collector, 12, &[0, 0, 0, 0, 2]); collector);
    let gone = or_drop!(goes(alloc, table, &mut collector, 13, &[0, 0, 0, 1, 0, 2]); collector);
    drop(collector);
    Ok(adrift && stays && gone)
}

#[test]
fn a_row_of_old_entries_is_led_past_and_goes(rt: HostRuntime) -> Result<(), Fail> {
    let alloc = rt.alloc();
    let mut table = roomy(alloc)?;
    assert!(rt; stands(alloc, &mut table, 1)?);
    assert!(rt; !reads_past(alloc, &mut table)?);
    assert!(rt; table.len() == 5);
    assert!(rt; rounds(alloc, &mut table)?);
    assert!(rt; table.len() == 3);
    assert!(rt; reads_past(alloc, &mut table)?);
    Ok(())
}

// Both intents of the row are looked at, of which the second one is there.
fn leaves(alloc: Global, table: &mut MapTable) -> Result<bool, Fail> {
    let mut collector = LogCollector::new(alloc);
    let so =
        or_drop!(goes(alloc, table, &mut collector, 9, &[0, 1, 0, 0, 0, 0, 0, 0, 2]); collector);
    drop(collector);
    Ok(so)
}

#[test]
fn a_row_with_another_entry_stays(rt: HostRuntime) -> Result<(), Fail> {
    let alloc = rt.alloc();
    let mut table = roomy(alloc)?;
    assert!(rt; stands(alloc, &mut table, 2)?);
    assert!(rt; leaves(alloc, &mut table)?);
    assert!(rt; table.len() == 4);
    assert!(rt; !reads_past(alloc, &mut table)?);
    Ok(())
}

// Both mark the row; one leads the first row past it, and the other one finds that done, and is done with the row.
fn one_leads(
    alloc: Global,
    table: &mut MapTable,
    a: &mut LogCollector,
    b: &mut LogCollector,
) -> Result<bool, Fail> {
    let first = goes(alloc, table, a, 9, &[0, 1, 0, 0, 0, 0])?;
    let second = goes(alloc, table, b, 9, &[0, 0, 0, 0])?;
    let marked = goes(alloc, table, a, 9, &[3, 0])? && goes(alloc, table, b, 9, &[3, 0])?;
    let led = goes(alloc, table, a, 9, &[4])? && goes(alloc, table, b, 9, &[0])?;
    let dangled = goes(alloc, table, a, 9, &[5, 0, 2])? && goes(alloc, table, b, 9, &[0, 2])?;
    Ok(first && second && marked && led && dangled)
}

fn two(alloc: Global, table: &mut MapTable) -> Result<bool, Fail> {
    let mut a = LogCollector::new(alloc);
    let mut b = LogCollector::new(alloc);
    let so = or_drop!(one_leads(alloc, table, &mut a, &mut b); a, b);
    drop(a);
    drop(b);
    Ok(so)
}

#[test]
fn one_of_two_collectors_leads_past(rt: HostRuntime) -> Result<(), Fail> {
    let alloc = rt.alloc();
    let mut table = roomy(alloc)?;
    assert!(rt; stands(alloc, &mut table, 1)?);
    assert!(rt; two(alloc, &mut table)?);
    assert!(rt; table.len() == 4);
    assert!(rt; reads_past(alloc, &mut table)?);
    Ok(())
}
