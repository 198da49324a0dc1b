// A log collector over a table, where memory is ample: what it says, turn after turn, and what is left.
use crate::walks::{keeps_a_read, roomy};
use beldi_intent::{Put, bind, end, issue};
use beldi_prune::{GcOutput, LogCollector};
use beldi_row::Table;
use beldi_table::MapTable;
use beldi_value::{IntentId, Outcome, Value, or_drop};
use std::alloc::Global;
use std::test::Fail;

/// Ends the root of ticket 1, with its finish, at the moment 5.
pub fn finishes(alloc: Global, table: &mut MapTable) -> Result<bool, Fail> {
    drop(bind(alloc, table, 1, 1, Value::Null, 5)?);
    let outcome = Outcome::Value(Value::Int(7));
    let put = end(table, IntentId::root(1), 1, outcome, true, 5)?;
    Ok(put == Put::Did)
}

// What it says in its next turn, at this moment, where the newest ticket is 2 and the life is 3.
fn output(
    alloc: Global,
    table: &mut MapTable,
    collector: &mut LogCollector,
    now: u64,
) -> Result<u8, Fail> {
    Ok(match collector.turn(alloc, table, 2, 3, now)? {
        GcOutput::Going => 0,
        GcOutput::Removed => 1,
        GcOutput::Round => 2,
        GcOutput::Marked => 3,
        GcOutput::Skipped => 4,
        GcOutput::Dangled => 5,
    })
}

/// Whether it says this in its next turns, one after another: 0 going, 1 removed, 2 round, 3 marked, 4 skipped, 5 dangled.
pub fn goes(
    alloc: Global,
    table: &mut MapTable,
    collector: &mut LogCollector,
    now: u64,
    said: &[u8],
) -> Result<bool, Fail> {
    let mut so = true;
    for one in said {
        so = so && output(alloc, table, collector, now)? == *one;
    }
    Ok(so)
}

// Two rounds: in the first the intent is not old yet, in the second it is.
fn rounds(alloc: Global, table: &mut MapTable) -> Result<bool, Fail> {
    let mut collector = LogCollector::new(alloc);
    let stays = or_drop!(goes(alloc, table, &mut collector, 8, &[0, 0, 0, 0, 2]); collector);
    let gone = or_drop!(goes(alloc, table, &mut collector, 9, &[0, 1, 0, 0, 0, 1, 2]); collector);
    drop(collector);
    Ok(stays && gone)
}

// An intent that finished and its read, beside the newest ticket.
fn keeps_old_rows(alloc: Global, table: &mut MapTable) -> Result<bool, Fail> {
    let issued = issue(table, 1, 5)? && issue(table, 2, 5)?;
    Ok(issued && keeps_a_read(alloc, table)? && finishes(alloc, table)?)
}

#[test]
fn rows_of_an_old_intent_go(rt: HostRuntime) -> Result<(), Fail> {
    let alloc = rt.alloc();
    let mut table = roomy(alloc)?;
    assert!(rt; keeps_old_rows(alloc, &mut table)?);
    assert!(rt; rounds(alloc, &mut table)?);
    assert!(rt; table.len() == 1);
    Ok(())
}

// Whether one of two, which are to drop the same row, removes it, and the other one does not say so.
fn one_removes(
    alloc: Global,
    table: &mut MapTable,
    a: &mut LogCollector,
    b: &mut LogCollector,
) -> Result<bool, Fail> {
    let first = goes(alloc, table, a, 9, &[0, 1, 0, 0, 0])?;
    let second = goes(alloc, table, b, 9, &[0, 0, 0])?;
    let removes = goes(alloc, table, a, 9, &[1])?;
    Ok(first && second && removes && goes(alloc, table, b, 9, &[0, 2])?)
}

fn two(alloc: Global, table: &mut MapTable) -> Result<bool, Fail> {
    let mut a = LogCollector::new(alloc);
    let mut b = LogCollector::new(alloc);
    let so = or_drop!(one_removes(alloc, table, &mut a, &mut b); a, b);
    drop(a);
    drop(b);
    Ok(so)
}

#[test]
fn one_of_two_collectors_removes(rt: HostRuntime) -> Result<(), Fail> {
    let alloc = rt.alloc();
    let mut table = roomy(alloc)?;
    assert!(rt; keeps_old_rows(alloc, &mut table)?);
    assert!(rt; two(alloc, &mut table)?);
    assert!(rt; table.len() == 1);
    Ok(())
}
