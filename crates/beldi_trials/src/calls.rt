// Calls that the program does not make, each where memory is ample: that it is not, no contract rules out.
use beldi_book::{Book, Entry};
use beldi_check::{Checked, check};
use beldi_executor::{Bar, Plain, PlainErr};
use beldi_host::Host;
use beldi_lang::Machine;
use beldi_outside::{Clock, ClosedLink, Failed, Link, MemClock, MemSource, read_up_to};
use beldi_script::{read_line, write_line};
use beldi_step::Event;
use beldi_syntax::read_deployment;
use beldi_table::MapTable;
use beldi_value::{
    IntentId, Items, Outcome, Owner, Rel, Str, TextBuf, Value, Values, older, or_drop, read_int,
};
use std::alloc::Global;
use std::test::Fail;

const CODE: &[u8] =
    b"life 9; function f(x) { table t; read v = t[\"k\"]; write t[\"k\"] = x; return v; }";

/// The deployment of this text.
pub fn deployment(alloc: Global, text: &[u8]) -> Result<Checked, Fail> {
    Ok(check(alloc, read_deployment(alloc, text)?.code)?)
}

fn is_older(alloc: Global) -> Result<bool, Fail> {
    let root = IntentId::root(7);
    let child = or_drop!(root.child(alloc, 3); root);
    let is_older = older(&root, &child) && !older(&child, &root);
    drop(root);
    drop(child);
    Ok(is_older)
}

// The age of an owner, and then the owner.
fn write_owner(owner: &Owner, text: &mut TextBuf) -> Result<(), Fail> {
    owner.age().write(text)?;
    owner.write(text)?;
    Ok(())
}

fn owner_is_written(alloc: Global) -> Result<bool, Fail> {
    let owner = Owner::Intent(IntentId::read(alloc, b"7/3")?);
    let mut text = TextBuf::new(alloc);
    or_drop!(write_owner(&owner, &mut text); owner, text);
    drop(owner);
    Ok(is_text(text, "7/3intent 7/3"))
}

/// Whether a text is this one.
pub fn is_text(text: TextBuf, wanted: &str) -> bool {
    let is_text = text.as_str() == wanted;
    drop(text);
    is_text
}

fn lists_are_made(alloc: Global) -> Result<bool, Fail> {
    let values = Values::from_vec(alloc, Vec::from_array(alloc, [Value::Int(7)])?)?;
    let has_value = matches!(values.at(0), Some(Value::Int(7)));
    drop(values);
    let items = Items::from_vec(Vec::from_array(alloc, [7])?);
    let has_item = items.as_slice() == [7].as_slice();
    drop(items);
    Ok(has_value && has_item)
}

#[test]
fn ids_and_values(rt: HostRuntime) -> Result<(), Fail> {
    let alloc = rt.alloc();
    assert!(rt; is_older(alloc)?);
    assert!(rt; owner_is_written(alloc)?);
    assert!(rt; lists_are_made(alloc)?);
    assert_eq!(rt; read_int(b"-5"), Some(-5));
    assert!(rt; Value::Int(1).passes(Rel::Lt, &Value::Int(2)));
    Ok(())
}

fn line_is_written(alloc: Global, code: &Checked) -> Result<bool, Fail> {
    let line = read_line(alloc, code, b"request 1 f {\"a\": 2}")?;
    let mut text = TextBuf::new(alloc);
    or_drop!(write_line(alloc, code, &line, &mut text); line, text);
    drop(line);
    Ok(is_text(text, "request 1 f {\"a\":2}"))
}

fn is_taken_out(alloc: Global) -> Result<bool, Fail> {
    let code = deployment(alloc, CODE)?.into_code();
    let has_function = code.func_at(1).is_some();
    drop(code);
    Ok(has_function)
}

fn begins_inside(alloc: Global, code: &Checked) -> Result<bool, Fail> {
    let machine = Machine::new(alloc, code.code(), 1, Value::Null, true)?;
    let is_inside = machine.is_inside();
    drop(machine);
    Ok(is_inside)
}

#[test]
fn a_line_is_written_and_a_body_begins(rt: HostRuntime) -> Result<(), Fail> {
    let alloc = rt.alloc();
    let code = deployment(alloc, CODE)?;
    assert!(rt; line_is_written(alloc, &code)?);
    assert!(rt; begins_inside(alloc, &code)?);
    assert!(rt; is_taken_out(alloc)?);
    Ok(())
}

fn add(book: &mut Book, entry: Entry) -> Result<(), Fail> {
    or_drop!(book.reserve(); entry);
    book.push(entry);
    Ok(())
}

// A start of the function f by a ticket, and two steps and a read of it. The read had seen so many changes.
fn add_request(book: &mut Book, ticket: u32, args: Value, version: u64) -> Result<(), Fail> {
    let func = 1;
    add(book, Entry::Start { ticket, func, args })?;
    for _ in 0..2 {
        let id = IntentId::root(ticket);
        add(book, Entry::Step { id })?;
    }
    let id = IntentId::root(ticket);
    add(book, Entry::Read { id, version })
}

// Two requests of the function f, each with its read kept last.
fn two_requests(alloc: Global) -> Result<Book, Fail> {
    let mut book = Book::new(alloc);
    or_drop!(add_request(&mut book, 1, Value::Int(5), 1); book);
    or_drop!(add_request(&mut book, 2, Value::Int(6), 4); book);
    Ok(book)
}

// .. and in the order of time.
fn in_time(alloc: Global) -> Result<Book, Fail> {
    let book = two_requests(alloc)?;
    let ordered = or_drop!(book.linear(alloc); book);
    drop(book);
    Ok(ordered)
}

const WANTED: &str =
    "start 1 f 5\nread 1 1\nstep 1\nstep 1\nstart 2 f 6\nread 2 4\nstep 2\nstep 2\n";

// Whether a book is that of two requests in the order of time.
fn is_ordered(alloc: Global, code: &Checked, book: &Book) -> Result<bool, Fail> {
    let mut text = TextBuf::new(alloc);
    or_drop!(book.write(alloc, code.code(), &mut text); text);
    let is_written = is_text(text, WANTED);
    let has_read = matches!(book.get(5), Some(Entry::Read { version: 4, .. }));
    Ok(is_written && has_read && book.len() == 8)
}

fn orders(alloc: Global, code: &Checked) -> Result<bool, Fail> {
    let book = in_time(alloc)?;
    let is_ordered = or_drop!(is_ordered(alloc, code, &book); book);
    drop(book);
    Ok(is_ordered)
}

fn reads_again(alloc: Global, code: &Checked) -> Result<bool, Fail> {
    let book = Book::read(alloc, WANTED.as_bytes(), code.code())?;
    let is_ordered = or_drop!(is_ordered(alloc, code, &book); book);
    drop(book);
    Ok(is_ordered)
}

#[test]
fn a_book_is_ordered_in_time_and_read_again(rt: HostRuntime) -> Result<(), Fail> {
    let alloc = rt.alloc();
    let code = deployment(alloc, CODE)?;
    assert!(rt; orders(alloc, &code)?);
    assert!(rt; reads_again(alloc, &code)?);
    Ok(())
}

fn runs(alloc: Global, plain: &mut Plain<'_>) -> Result<bool, Fail> {
    let book = two_requests(alloc)?;
    or_drop!(plain.run(&book); book);
    drop(book);
    Ok(matches!(plain.reply(2), Some(Outcome::Value(Value::Int(5)))))
}

fn has_written(alloc: Global, plain: &Plain<'_>) -> Result<bool, Fail> {
    let key = Str::from_text(alloc, "k")?;
    let has_written = matches!(plain.value(1, 0, &key), Value::Int(6));
    drop(key);
    Ok(has_written)
}

// Whether an entry that starts ticket 3 starts it.
fn carries_out(plain: &mut Plain<'_>) -> Result<bool, Fail> {
    let (ticket, func) = (3, 1);
    let args = Value::Null;
    let start = Entry::Start { ticket, func, args };
    or_drop!(plain.carry_out(&start); start);
    drop(start);
    let again = plain.start(ticket, func, Value::Null);
    Ok(again == Err(PlainErr::NotEnabled(Bar::AlreadyStarted)))
}

fn goes_on(alloc: Global, plain: &mut Plain<'_>) -> Result<bool, Fail> {
    Ok(runs(alloc, plain)? && has_written(alloc, plain)? && carries_out(plain)?)
}

fn is_run(alloc: Global, code: &Checked) -> Result<bool, Fail> {
    let mut plain = Plain::new(alloc, code);
    let is_run = or_drop!(goes_on(alloc, &mut plain); plain);
    drop(plain);
    Ok(is_run)
}

#[test]
fn a_book_is_run(rt: HostRuntime) -> Result<(), Fail> {
    let alloc = rt.alloc();
    let code = deployment(alloc, CODE)?;
    assert!(rt; is_run(alloc, &code)?);
    Ok(())
}

// Whether a host tells its run and its moment, once a request was bound.
fn tells(host: &mut Host<MapTable>) -> Result<bool, Fail> {
    let request = Event::Request {
        ticket: 1,
        func: 1,
        args: Value::Null,
    };
    drop(or_drop!(host.event(Event::Ticket); request));
    drop(host.event(request)?);
    Ok(host.next_run(0) == Some(1) && host.now() == 3)
}

fn are_told(alloc: Global, code: Checked) -> Result<bool, Fail> {
    match Host::open(alloc, code, MapTable::new(alloc), 3) {
        Ok(mut host) => {
            let told = or_drop!(tells(&mut host); host);
            drop(host);
            Ok(told)
        }
        Err(refused) => {
            drop(refused);
            Ok(false)
        }
    }
}

#[test]
fn a_host_tells_its_runs(rt: HostRuntime) -> Result<(), Fail> {
    let alloc = rt.alloc();
    assert!(rt; are_told(alloc, deployment(alloc, CODE)?)?);
    Ok(())
}

fn reads_up_to(alloc: Global) -> Result<bool, Fail> {
    let bytes = b"0123".to_vec(alloc)?;
    let mut source = MemSource::new(bytes, Vec::new(alloc));
    let read = or_drop!(read_up_to(alloc, &mut source, 4); source);
    drop(source);
    let has_read = read.as_slice() == b"0123".as_slice();
    drop(read);
    Ok(has_read)
}

fn tells_moment(alloc: Global) -> Result<bool, Fail> {
    let mut clock = MemClock::new([5].to_vec(alloc)?);
    let is_told = clock.now() == 5;
    drop(clock);
    Ok(is_told)
}

fn is_closed(link: &mut ClosedLink) -> bool {
    link.listen(8080) == Err(Failed)
        && link.accept() == Err(Failed)
        && link.read(&mut [0; 4]) == Err(Failed)
        && link.write(b"a") == Err(Failed)
}

#[test]
fn what_is_outside(rt: HostRuntime) -> Result<(), Fail> {
    let alloc = rt.alloc();
    assert!(rt; reads_up_to(alloc)?);
    assert!(rt; tells_moment(alloc)?);
    let mut link = ClosedLink::new();
    assert!(rt; is_closed(&mut link));
    link.close();
    assert_eq!(rt; (link.refusals, link.faults), (2, 2));
    Ok(())
}
