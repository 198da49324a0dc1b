// The entry whose text a line is.
ghost use Rattle.std.specs.Prelude.{◌≡◌, IfOk, option_copied, option_and_then, option_map};
ghost use Rattle.beldi_value.specs.IdAt.{id_at};
ghost use Rattle.beldi_tree.specs.Bindings.{is_name};
ghost use Rattle.beldi_book.specs.EntryLine.{IsArgs, Follows, Names, IsNamed, IsNumbered, IsCall, IsStart, IsEntryOf};
ghost use Rattle.beldi_book.specs.declared.entry.Entry.TheVariants.{AbortedTx};
ghost use Rattle.beldi_book.specs.EntryWords.{small_at, place_at, holder_at, read_at, abort_at, other_at};

use crate::entry::Entry;
use beldi_tree::Deployment;
use beldi_value::{
    Boxed, IdErr, IntentId, Place, TextBuf, Value, ValueErr, cut_at, or_drop, read_numeral,
};
use std::alloc::{AllocError, Global};

fn is_word(word: &[u8], name: &str) -> bool
    ensures { result ≡ is_name word.now name.now }
{
    word == name.as_bytes()
}

fn read_small(word: &[u8]) -> Option<u32>
    ensures { result ≡ small_at word.now }
{
    match read_numeral(word, 0xffff_ffff) {
        Some(number) => Some(number as u32),
        None => None,
    }
}

fn read_id(alloc: Global, word: &[u8]) -> Result<Option<IntentId>, AllocError>
    ensures { IfOk result (λ o. o ≡ id_at word.now) }
{
    match IntentId::read(alloc, word) {
        Ok(id) => Ok(Some(id)),
        Err(IdErr::OutOfMemory) => Err(AllocError),
        Err(IdErr::BadId) => Ok(None),
    }
}

fn read_place(alloc: Global, word: &[u8]) -> Result<Option<Place>, AllocError>
    ensures { IfOk result (λ o. o ≡ place_at word.now) }
{
    let (id, step) = cut_at(word, b':');
    let Some(step) = step else { return Ok(None) };
    let Some(intent) = read_id(alloc, id)? else {
        return Ok(None)
    };
    let Some(step) = read_small(step) else {
        return Ok(None)
    };
    Ok(Some(Place { intent, step }))
}

fn read_holder(alloc: Global, word: &[u8]) -> Result<Option<Option<Boxed<IntentId>>>, AllocError>
    ensures { IfOk result (λ o. o ≡ holder_at word.now) }
{
    if is_word(word, "-") {
        return Ok(Some(None));
    }
    match read_id(alloc, word)? {
        Some(id) => Ok(Some(Some(Boxed::new(alloc, id)?))),
        None => Ok(None),
    }
}

// What follows the word `read`.
fn read_read(alloc: Global, words: &[u8]) -> Result<Option<Entry>, AllocError>
    ensures { IfOk result (λ o. o ≡ read_at words.now) }
{
    let (id, version) = cut_at(words, b' ');
    let Some(version) = version else {
        return Ok(None)
    };
    let Some(id) = read_id(alloc, id)? else {
        return Ok(None)
    };
    let Some(version) = read_numeral(version, u64::MAX) else {
        return Ok(None)
    };
    Ok(Some(Entry::Read { id, version }))
}

// What follows the word `try`.
fn read_abort(alloc: Global, words: &[u8]) -> Result<Option<Entry>, AllocError>
    ensures { IfOk result (λ o. o ≡ abort_at words.now) }
{
    let (id, rest) = cut_at(words, b' ');
    let Some(rest) = rest else { return Ok(None) };
    let (place, holder) = cut_at(rest, b' ');
    let Some(holder) = holder else {
        return Ok(None)
    };
    let Some(id) = read_id(alloc, id)? else {
        return Ok(None)
    };
    read_abort_of(alloc, id, place, holder)
}

// What follows `try` and this id.
fn read_abort_of(
    alloc: Global,
    id: IntentId,
    place: &[u8],
    holder: &[u8],
) -> Result<Option<Entry>, AllocError>
    ensures { IfOk result (λ o. o ≡ option_and_then (λ p. option_map (λ h. AbortedTx id p h) (holder_at holder.now)) (place_at place.now)) }
{
    let Some(place) = or_drop!(read_place(alloc, place); id) else {
        drop(id);
        return Ok(None)
    };
    let Some(holder) = or_drop!(read_holder(alloc, holder); id, place) else {
        drop(id);
        drop(place);
        return Ok(None)
    };
    let place = or_drop!(Boxed::new(alloc, place); id, holder);
    Ok(Some(Entry::AbortedTx { id, place, holder }))
}

// An entry that is no start, by its first word and what follows that.
fn read_other(alloc: Global, word: &[u8], words: &[u8]) -> Result<Option<Entry>, AllocError>
    ensures { IfOk result (λ o. o ≡ other_at word.now words.now) }
{
    if is_word(word, "read") {
        return read_read(alloc, words);
    }
    if is_word(word, "try") {
        return read_abort(alloc, words);
    }
    let is_step = is_word(word, "step");
    if !is_step && !is_word(word, "tx") {
        return Ok(None);
    }
    match read_id(alloc, words)? {
        Some(id) if is_step => Ok(Some(Entry::Step { id })),
        Some(id) => Ok(Some(Entry::CommittedTx { id })),
        None => Ok(None),
    }
}

// The value whose canonical text this is, within the limits of values.
fn read_args(alloc: Global, json: &[u8]) -> Result<Option<Value>, AllocError>
    ensures { IfOk result (λ o. IsArgs json.now o) }
{
    let args = match Value::read_json(alloc, json) {
        Ok(args) => args,
        Err(ValueErr::OutOfMemory) => return Err(AllocError),
        Err(_) => return Ok(None),
    };
    let mut text = TextBuf::new(alloc);
    or_drop!(args.write_json(alloc, &mut text); text, args);
    let is_canonical = text.as_bytes() == json;
    drop(text);
    if is_canonical {
        Ok(Some(args))
    } else {
        drop(args);
        Ok(None)
    }
}

// What follows a name and a space.
fn after_name<'a>(words: &'a [u8], name: &[u8]) -> Option<&'a [u8]>
    ensures { Names name.now words.now (option_copied result) }
{
    match words.strip_prefix(name) {
        Some(rest) => match rest.strip_prefix(b" ") {
            Some(json) => Some(json),
            None => None,
        },
        None => None,
    }
}

// The arguments that follow a name.
fn read_after(alloc: Global, words: &[u8], name: &[u8]) -> Result<Option<Value>, AllocError>
    ensures { IfOk result (λ o. Follows name.now words.now o) }
{
    match after_name(words, name) {
        Some(json) => read_args(alloc, json),
        None => Ok(None),
    }
}

// The first function with whose name the words begin, and the arguments that follow.
fn read_named(
    alloc: Global,
    code: &Deployment,
    words: &[u8],
) -> Result<Option<(u16, Value)>, AllocError>
    ensures { IfOk result (λ o. IsNamed code.now words.now o) }
{
    let mut number = 0u16;
    for func in code.funcs.as_slice() {
        if number == u16::MAX {
            return Ok(None);
        }
        number += 1;
        if let Some(args) = read_after(alloc, words, func.name.as_bytes())? {
            return Ok(Some((number, args)));
        }
    }
    Ok(None)
}

// The number of a function that the deployment lacks, and the arguments that follow.
fn read_numbered(
    alloc: Global,
    code: &Deployment,
    words: &[u8],
) -> Result<Option<(u16, Value)>, AllocError>
    ensures { IfOk result (λ o. IsNumbered code.now words.now o) }
{
    let (number, json) = cut_at(words, b' ');
    let Some(json) = json else { return Ok(None) };
    let Some(number) = read_numeral(number, 0xffff) else {
        return Ok(None)
    };
    let number = number as u16;
    if code.func_at(number).is_some() {
        return Ok(None);
    }
    match read_args(alloc, json)? {
        Some(args) => Ok(Some((number, args))),
        None => Ok(None),
    }
}

// A function and arguments.
fn read_call(
    alloc: Global,
    code: &Deployment,
    words: &[u8],
) -> Result<Option<(u16, Value)>, AllocError>
    ensures { IfOk result (λ o. IsCall code.now words.now o) }
{
    match read_named(alloc, code, words)? {
        Some(call) => Ok(Some(call)),
        None => read_numbered(alloc, code, words),
    }
}

// What follows the word `start`.
fn read_start(alloc: Global, code: &Deployment, words: &[u8]) -> Result<Option<Entry>, AllocError>
    ensures { IfOk result (λ o. IsStart code.now words.now o) }
{
    let (ticket, call) = cut_at(words, b' ');
    let Some(call) = call else { return Ok(None) };
    let Some(ticket) = read_small(ticket) else {
        return Ok(None)
    };
    match read_call(alloc, code, call)? {
        Some((func, args)) => Ok(Some(Entry::Start { ticket, func, args })),
        None => Ok(None),
    }
}

/// The entry whose text the line is, if there is one. A function is read by its name where its name stands there, and by
/// its number only where the deployment has no function of that number.
pub fn read_entry(
    alloc: Global,
    code: &Deployment,
    line: &[u8],
) -> Result<Option<Entry>, AllocError>
    ensures { IfOk result (λ o. IsEntryOf code.now line.now o) }
{
    let (word, words) = cut_at(line, b' ');
    let Some(words) = words else { return Ok(None) };
    if is_word(word, "start") {
        read_start(alloc, code, words)
    } else {
        read_other(alloc, word, words)
    }
}
