// Transactions of the plain machine, each as one step.
use crate::calls::{deployment, is_text};
use beldi_check::Checked;
use beldi_executor::{Bar, Plain, PlainErr};
use beldi_value::{IntentId, Place, TextBuf, Value, or_drop};
use std::alloc::Global;
use std::test::Fail;

// It opens two accounts, or else pays from the first one to the second.
const BANK: &[u8] = b"life 9;
function pay(x) {
  table accounts;
  transaction {
    read a = accounts[\"a\"];
    if a == null {
      write accounts[\"a\"] = 10;
    } else {
      write accounts[\"b\"] = null;
      write accounts[\"a\"] = a - x;
      if a < x { abort; }
      write accounts[\"b\"] = x;
    }
  } aborted {
    return \"too little\";
  }
  return \"paid\";
}";

// The accounts are opened by the ticket of this id, and a payment of ticket 2 stands at the begin of its transaction.
fn open(plain: &mut Plain<'_>, id: &IntentId) -> Result<(), Fail> {
    plain.start(1, 1, Value::Null)?;
    plain.commit_tx(id)?;
    plain.step(id)?;
    plain.start(2, 1, Value::Int(3))?;
    Ok(())
}

// Whether these are the lines of all items.
fn holds(alloc: Global, plain: &Plain<'_>, lines: &str) -> Result<bool, Fail> {
    let mut text = TextBuf::new(alloc);
    or_drop!(plain.tables(&mut text); text);
    Ok(is_text(text, lines))
}

fn commits(alloc: Global, plain: &mut Plain<'_>) -> Result<bool, Fail> {
    let (opener, id) = (IntentId::root(1), IntentId::root(2));
    or_drop!(open(plain, &opener); opener, id);
    or_drop!(plain.commit_tx(&id); opener, id);
    drop(opener);
    drop(id);
    holds(alloc, plain, "pay accounts \"a\" 7\npay accounts \"b\" 3\n")
}

fn pays(alloc: Global, code: &Checked) -> Result<bool, Fail> {
    let mut plain = Plain::new(alloc, code);
    let passed = or_drop!(commits(alloc, &mut plain); plain);
    drop(plain);
    Ok(passed)
}

#[test]
fn a_payment_commits(rt: HostRuntime) -> Result<(), Fail> {
    let alloc = rt.alloc();
    let code = deployment(alloc, BANK)?;
    assert!(rt; pays(alloc, &code)?);
    Ok(())
}

fn dies(alloc: Global, plain: &mut Plain<'_>) -> Result<bool, Fail> {
    let older = IntentId::root(1);
    let place = Place {
        intent: IntentId::root(2),
        step: 3,
    };
    or_drop!(open(plain, &older); older, place);
    or_drop!(plain.abort_tx(&place.intent, &place, Some(&older)); older, place);
    drop(older);
    drop(place);
    holds(alloc, plain, "pay accounts \"a\" 10\n")
}

fn pays_nothing(alloc: Global, code: &Checked) -> Result<bool, Fail> {
    let mut plain = Plain::new(alloc, code);
    let passed = or_drop!(dies(alloc, &mut plain); plain);
    drop(plain);
    Ok(passed)
}

#[test]
fn a_payment_dies(rt: HostRuntime) -> Result<(), Fail> {
    let alloc = rt.alloc();
    let code = deployment(alloc, BANK)?;
    assert!(rt; pays_nothing(alloc, &code)?);
    Ok(())
}

// A deal calls `hand`, which calls `put` twice: two calls deep. The deal aborts at a 3.
const DEAL: &[u8] = b"life 9;
function put(x) {
  table boxes;
  write boxes[\"b\"] = x;
  read y = boxes[\"b\"];
  return y;
}
function hand(x) {
  table purses;
  write purses[\"p\"] = x;
  call first = put(x);
  write purses[\"p\"] = first + 1;
  call second = put(x);
  return first + second;
}
function deal(x) {
  table sums;
  transaction {
    write sums[\"s\"] = x;
    call got = hand(x);
    write sums[\"s\"] = got;
    if x == 3 { abort; }
  } aborted {
    return \"none\";
  }
  return \"dealt\";
}";

// Whether a step of the instance with this id is barred so.
fn is_barred(alloc: Global, plain: &mut Plain<'_>, id: &[u8], bar: Bar) -> Result<bool, Fail> {
    let id = IntentId::read(alloc, id)?;
    let step = plain.step(&id);
    drop(id);
    Ok(step == Err(PlainErr::NotEnabled(bar)))
}

const DEALT: &str = "put boxes \"b\" 7\nhand purses \"p\" 8\ndeal sums \"s\" 14\n";

// Whether a deal is made whole, and the second `put` is over.
fn is_dealt(alloc: Global, plain: &mut Plain<'_>) -> Result<bool, Fail> {
    plain.start(2, 3, Value::Int(7))?;
    let id = IntentId::root(2);
    or_drop!(plain.commit_tx(&id); id);
    drop(id);
    Ok(is_barred(alloc, plain, b"2/2/3", Bar::Over)? && holds(alloc, plain, DEALT)?)
}

fn deals(alloc: Global, code: &Checked) -> Result<bool, Fail> {
    let mut plain = Plain::new(alloc, code);
    let passed = or_drop!(is_dealt(alloc, &mut plain); plain);
    drop(plain);
    Ok(passed)
}

#[test]
fn a_deal_commits_with_its_callees(rt: HostRuntime) -> Result<(), Fail> {
    let alloc = rt.alloc();
    let code = deployment(alloc, DEAL)?;
    assert!(rt; deals(alloc, &code)?);
    Ok(())
}

// Whether a deal that aborts leaves neither items nor `hand`.
fn leaves_nothing(alloc: Global, plain: &mut Plain<'_>) -> Result<bool, Fail> {
    plain.start(2, 3, Value::Int(3))?;
    let place = Place {
        intent: IntentId::root(2),
        step: 4,
    };
    or_drop!(plain.abort_tx(&place.intent, &place, None); place);
    drop(place);
    Ok(is_barred(alloc, plain, b"2/2", Bar::NotStarted)? && holds(alloc, plain, "")?)
}

fn falls(alloc: Global, code: &Checked) -> Result<bool, Fail> {
    let mut plain = Plain::new(alloc, code);
    let passed = or_drop!(leaves_nothing(alloc, &mut plain); plain);
    drop(plain);
    Ok(passed)
}

#[test]
fn a_deal_aborts_after_its_callees(rt: HostRuntime) -> Result<(), Fail> {
    let alloc = rt.alloc();
    let code = deployment(alloc, DEAL)?;
    assert!(rt; falls(alloc, &code)?);
    Ok(())
}
