// A table over a region: what is there when it is full, and made ready once more.
use beldi_region::RegionTable;
use beldi_row::{Act, ActReplyRef, Blank, Kind, Opens, RowKey, Table};
use beldi_value::{IntentId, Outcome, Owner, Place, Str, Value, or_drop};
use std::alloc::Global;
use std::test::Fail;

fn root(ticket: u32) -> RowKey {
    RowKey::new(0, Kind::Intent(IntentId::root(ticket)))
}

// Whether the act adds a row. A table that is full says that it does not.
fn adds(table: &mut RegionTable, key: RowKey, act: Act) -> bool {
    match table.act(key, act, 5) {
        Ok(said) => {
            let added = matches!(said, ActReplyRef::Added);
            drop(said);
            added
        }
        Err(why) => {
            drop(why);
            false
        }
    }
}

fn issues(table: &mut RegionTable, ticket: u32) -> bool {
    adds(table, root(ticket), Act::Issue)
}

// The ticket of the row after a ticket's; 0 where there is none.
fn after(table: &mut RegionTable, ticket: u32) -> Result<u32, Fail> {
    let key = root(ticket);
    let next = match or_drop!(table.next(&key); key) {
        Some((next, _)) => next.ticket(),
        None => 0,
    };
    drop(key);
    Ok(next)
}

#[test]
fn a_table_takes_rows_up_to_its_room(rt: HostRuntime) -> Result<(), Fail> {
    let alloc = rt.alloc();
    let mut table = RegionTable::new(alloc);
    assert!(rt; !issues(&mut table, 5));
    table.ready(&[3])?;
    assert!(rt; issues(&mut table, 5));
    assert!(rt; issues(&mut table, 1));
    assert!(rt; issues(&mut table, 3));
    assert!(rt; !issues(&mut table, 3));
    assert!(rt; !issues(&mut table, 4));
    assert_eq!(rt; after(&mut table, 1)?, 3);
    assert_eq!(rt; after(&mut table, 4)?, 5);
    assert_eq!(rt; after(&mut table, 5)?, 0);
    Ok(())
}

#[test]
fn a_table_is_made_ready_with_its_rows(rt: HostRuntime) -> Result<(), Fail> {
    let alloc = rt.alloc();
    let mut table = RegionTable::new(alloc);
    table.ready(&[2])?;
    assert!(rt; issues(&mut table, 2));
    assert!(rt; issues(&mut table, 1));
    table.ready(&[1])?;
    assert!(rt; !issues(&mut table, 3));
    assert_eq!(rt; table.len(), 2);
    table.ready(&[3])?;
    assert!(rt; issues(&mut table, 3));
    assert_eq!(rt; after(&mut table, 1)?, 2);
    assert_eq!(rt; after(&mut table, 2)?, 3);
    Ok(())
}

fn row(alloc: Global, number: u32) -> Result<RowKey, Fail> {
    let key = Str::from_text(alloc, "k")?;
    Ok(RowKey::new(
        1,
        Kind::Data {
            table: 0,
            key,
            row: number,
        },
    ))
}

fn makes(alloc: Global, table: &mut RegionTable, number: u32) -> Result<bool, Fail> {
    let key = row(alloc, number)?;
    let blank = or_drop!(Blank::new(alloc); key);
    let act = Act::MakeCell {
        value: Value::Int(0),
        owner: None,
        blank,
    };
    Ok(adds(table, key, act))
}

fn place(step: u32) -> Place {
    Place {
        intent: IntentId::root(1),
        step,
    }
}

fn writes(alloc: Global, table: &mut RegionTable, number: u32, step: u32) -> Result<bool, Fail> {
    let key = row(alloc, number)?;
    let act = Act::WriteCell {
        place: place(step),
        who: Owner::Intent(IntentId::root(1)),
        value: Value::Int(1),
    };
    let said = table.act(key, act, 5)?;
    let did = matches!(said, ActReplyRef::Did);
    drop(said);
    Ok(did)
}

fn links(alloc: Global, table: &mut RegionTable, number: u32, next: u32) -> Result<bool, Fail> {
    let key = row(alloc, number)?;
    let said = table.act(key, Act::LinkCell { next }, 5)?;
    let linked = matches!(said, ActReplyRef::Next(_));
    drop(said);
    Ok(linked)
}

// Fills a row, beginning with a step of the writer, and makes the next one, which follows it.
fn fills(alloc: Global, table: &mut RegionTable, number: u32, first: u32) -> Result<bool, Fail> {
    for step in 0..8u32 {
        if !writes(alloc, table, number, first.saturating_add(step))? {
            return Ok(false);
        }
    }
    let next = number.saturating_add(1);
    Ok(makes(alloc, table, next)? && links(alloc, table, number, next)?)
}

// How many rows a walk passes that looks for the place of a step.
fn passed(alloc: Global, table: &RegionTable, step: u32, most: u64) -> Result<u64, Fail> {
    let key = row(alloc, 0)?;
    let place = place(step);
    let passed = match table.passes(key, Some(&place), most) {
        Some((passed, _)) => passed,
        None => 0,
    };
    drop(place);
    Ok(passed)
}

#[test]
fn a_chain_of_rows_is_passed(rt: HostRuntime) -> Result<(), Fail> {
    let alloc = rt.alloc();
    let mut table = RegionTable::new(alloc);
    table.ready(&[9])?;
    assert!(rt; makes(alloc, &mut table, 0)?);
    assert!(rt; fills(alloc, &mut table, 0, 0)?);
    assert!(rt; fills(alloc, &mut table, 1, 8)?);
    assert_eq!(rt; passed(alloc, &table, 20, 9)?, 2);
    assert_eq!(rt; passed(alloc, &table, 20, 1)?, 1);
    assert_eq!(rt; passed(alloc, &table, 9, 9)?, 1);
    assert_eq!(rt; passed(alloc, &table, 3, 9)?, 0);
    Ok(())
}

// Whether the root of a ticket is given something to do.
fn binds(table: &mut RegionTable, ticket: u32) -> Result<bool, Fail> {
    let args = Value::Null;
    let said = table.act(root(ticket), Act::Bind { func: 1, args }, 5)?;
    let bound = matches!(said, ActReplyRef::Bound);
    drop(said);
    Ok(bound)
}

// Whether it ends.
fn ends(table: &mut RegionTable, ticket: u32) -> Result<bool, Fail> {
    let act = Act::End {
        outcome: Outcome::Value(Value::Null),
        stamp: true,
    };
    let said = table.act(root(ticket), act, 5)?;
    let ended = matches!(said, ActReplyRef::Did);
    drop(said);
    Ok(ended)
}

// The ticket of the first open intent past one; 0 where there is none.
fn open_past(table: &RegionTable, ticket: u32) -> u32 {
    let key = root(ticket);
    let open = match table.opens(&key) {
        Opens::First(first) => first.ticket(),
        Opens::None => 0,
        Opens::Untold => u32::MAX,
    };
    drop(key);
    open
}

#[test]
fn open_intents_are_told(rt: HostRuntime) -> Result<(), Fail> {
    let alloc = rt.alloc();
    let mut table = RegionTable::new(alloc);
    table.ready(&[3])?;
    assert!(rt; issues(&mut table, 2));
    assert!(rt; issues(&mut table, 1));
    assert_eq!(rt; open_past(&table, 0), 0);
    assert!(rt; binds(&mut table, 2)?);
    assert_eq!(rt; open_past(&table, 0), 2);
    assert!(rt; binds(&mut table, 1)?);
    assert_eq!(rt; open_past(&table, 0), 1);
    assert_eq!(rt; open_past(&table, 1), 2);
    assert!(rt; ends(&mut table, 1)?);
    assert_eq!(rt; open_past(&table, 0), 2);
    assert!(rt; ends(&mut table, 2)?);
    assert_eq!(rt; open_past(&table, 0), 0);
    Ok(())
}

// The ticket of a turn. In 601 turns each ticket up to 601 comes once.
fn ticket_at(turn: u32) -> u32 {
    turn.wrapping_mul(389) % 601 + 1
}

// How many rows there are, or as far as they stand in the order of their tickets.
fn in_order(table: &mut RegionTable) -> Result<u32, Fail> {
    let mut last = 0;
    for rows in 0..1_000u32 {
        let next = after(table, last)?;
        if next <= last {
            return Ok(rows);
        }
        last = next;
    }
    Ok(1_000)
}

// The same of the open intents.
fn open_in_order(table: &RegionTable) -> u32 {
    let mut last = 0;
    for rows in 0..1_000u32 {
        let next = open_past(table, last);
        if next <= last {
            return rows;
        }
        last = next;
    }
    1_000
}

#[test]
fn many_rows_stand_in_order(rt: HostRuntime) -> Result<(), Fail> {
    let alloc = rt.alloc();
    let mut table = RegionTable::new(alloc);
    table.ready(&[601])?;
    for turn in 0..601u32 {
        assert!(rt; issues(&mut table, ticket_at(turn)));
        assert!(rt; binds(&mut table, ticket_at(turn))?);
    }
    assert_eq!(rt; in_order(&mut table)?, 601);
    assert_eq!(rt; open_in_order(&table), 601);
    for turn in 0..500u32 {
        assert!(rt; ends(&mut table, ticket_at(turn))?);
    }
    assert_eq!(rt; open_in_order(&table), 101);
    table.ready(&[700])?;
    assert_eq!(rt; in_order(&mut table)?, 601);
    assert_eq!(rt; open_in_order(&table), 101);
    for turn in 500..601u32 {
        assert!(rt; ends(&mut table, ticket_at(turn))?);
    }
    assert_eq!(rt; open_in_order(&table), 0);
    Ok(())
}
