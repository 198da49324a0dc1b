// Reading keys.
ghost use Rattle.std.specs.Prelude.{◌∷◌, IfOk, IsUtf8};
ghost use Rattle.beldi_bytes.specs.Coding.{Reads, Any, option_bytes};
ghost use Rattle.beldi_bytes.specs.KeyBytes.{four, hops_bytes, id_bytes, place_bytes, tx_bytes, char_bytes, text_bytes, kind_bytes, key_then, AreFew, IsId, IsPlace, IsTx, IsKind, IsKey, ReadsKey};

use crate::cursor::{Cursor, ReadErr, given};
use beldi_row::{Kind, RowKey};
use beldi_value::{ByteList, Hops, IntentId, Place, Str, TxId, or_drop};
use std::alloc::{AllocError, Global};

// A number in four bytes, where one is there; of hops the last is not.
pub(crate) fn read_four_if(from: &mut Cursor<'_>) -> Result<Option<u32>, ReadErr>
    ensures { Reads (option_bytes four) Any from.old from.new result }
{
    if given!(from.truth()) {
        Ok(Some(given!(from.four())))
    } else {
        Ok(None)
    }
}

fn read_hops(alloc: Global, from: &mut Cursor<'_>) -> Result<Hops, ReadErr>
    ensures { Reads hops_bytes AreFew from.old from.new result }
{
    let mut steps = Vec::new(alloc);
    loop {
        match given!(read_four_if(from); steps) {
            None => return Ok(Hops::from_vec(steps)?),
            Some(step) => {
                if steps.len() == 63 {
                    drop(steps);
                    return Err(ReadErr::Foreign);
                }
                match steps.push(step) {
                    Ok(()) => {}
                    Err(_) => {
                        drop(steps);
                        return Err(ReadErr::OutOfMemory);
                    }
                }
            }
        }
    }
}

// A byte of a text, or the end of the text.
fn read_char(from: &mut Cursor<'_>) -> Result<Option<u8>, ReadErr>
    ensures { Reads char_bytes Any from.old from.new result }
{
    let byte = given!(from.byte());
    if byte != 0 {
        return Ok(Some(byte));
    }
    match given!(from.byte()) {
        0 => Ok(None),
        255 => Ok(Some(0)),
        _ => Err(ReadErr::Foreign),
    }
}

fn read_chars(alloc: Global, from: &mut Cursor<'_>) -> Result<ByteList, ReadErr>
    ensures { Reads text_bytes Any from.old from.new result }
{
    let mut text = ByteList::new(alloc);
    loop {
        match given!(read_char(from); text) {
            None => return Ok(text),
            Some(byte) => or_drop!(text.push(byte); text),
        }
    }
}

fn read_text(alloc: Global, from: &mut Cursor<'_>) -> Result<Str, ReadErr>
    ensures { Reads text_bytes IsUtf8 from.old from.new result }
{
    let bytes = given!(read_chars(alloc, from)).into_vec();
    match String::from_utf8(bytes) {
        Ok(text) => Ok(Str::from_string(text)?),
        Err(error) => {
            drop(error);
            Err(ReadErr::Foreign)
        }
    }
}

pub(crate) fn read_id(alloc: Global, from: &mut Cursor<'_>) -> Result<IntentId, ReadErr>
    ensures { Reads id_bytes IsId from.old from.new result }
{
    let ticket = given!(from.four());
    let hops = given!(read_hops(alloc, from));
    Ok(IntentId { ticket, hops })
}

pub(crate) fn read_place(alloc: Global, from: &mut Cursor<'_>) -> Result<Place, ReadErr>
    ensures { Reads place_bytes IsPlace from.old from.new result }
{
    let intent = given!(read_id(alloc, from));
    let step = given!(from.four(); intent);
    Ok(Place { intent, step })
}

pub(crate) fn read_tx(alloc: Global, from: &mut Cursor<'_>) -> Result<TxId, ReadErr>
    ensures { Reads tx_bytes IsTx from.old from.new result }
{
    let intent = given!(read_id(alloc, from));
    let begin = given!(from.four(); intent);
    let func = given!(from.two(); intent);
    Ok(TxId {
        intent,
        begin,
        func,
    })
}

// A row of an item, behind the number of its kind.
fn read_data(alloc: Global, from: &mut Cursor<'_>) -> Result<Kind, ReadErr>
    ensures { Reads kind_bytes IsKind (3 ∷ from.old) from.new result }
{
    let table = given!(from.two());
    let key = given!(read_text(alloc, from));
    let row = given!(from.four(); key);
    Ok(Kind::Data { table, key, row })
}

// A row of a transaction's own copy of an item, behind the number of its kind.
fn read_shadow(alloc: Global, from: &mut Cursor<'_>) -> Result<Kind, ReadErr>
    ensures { Reads kind_bytes IsKind (4 ∷ from.old) from.new result }
{
    let tx = given!(read_tx(alloc, from));
    let table = given!(from.two(); tx);
    let key = given!(read_text(alloc, from); tx);
    let row = given!(from.four(); tx, key);
    Ok(Kind::Shadow {
        tx,
        table,
        key,
        row,
    })
}

// An item that a transaction asked the lock of, behind the number of its kind.
fn read_lockset(alloc: Global, from: &mut Cursor<'_>) -> Result<Kind, ReadErr>
    ensures { Reads kind_bytes IsKind (5 ∷ from.old) from.new result }
{
    let intent = given!(read_id(alloc, from));
    let begin = given!(from.four(); intent);
    let table = given!(from.two(); intent);
    let key = given!(read_text(alloc, from); intent);
    Ok(Kind::Lockset {
        intent,
        begin,
        table,
        key,
    })
}

fn read_kind(alloc: Global, from: &mut Cursor<'_>) -> Result<Kind, ReadErr>
    ensures { Reads kind_bytes IsKind from.old from.new result }
{
    match given!(from.byte()) {
        0 => Ok(Kind::Intent(given!(read_id(alloc, from)))),
        1 => Ok(Kind::ReadLog(given!(read_place(alloc, from)))),
        2 => Ok(Kind::Invoke(given!(read_place(alloc, from)))),
        3 => read_data(alloc, from),
        4 => read_shadow(alloc, from),
        5 => read_lockset(alloc, from),
        _ => Err(ReadErr::Foreign),
    }
}

fn read_front(alloc: Global, from: &mut Cursor<'_>) -> Result<RowKey, ReadErr>
    ensures { Reads key_then IsKey from.old from.new result }
{
    let home = given!(from.two());
    let kind = given!(read_kind(alloc, from));
    Ok(RowKey::new(home, kind))
}

/// The key that has these bytes, where one has.
pub fn read_key(alloc: Global, bytes: &[u8]) -> Result<Option<RowKey>, AllocError>
    ensures { IfOk result (λ o. ReadsKey bytes.now o) }
{
    let mut from = Cursor::new(bytes);
    match read_front(alloc, &mut from) {
        Ok(key) if from.len() == 0 => Ok(Some(key)),
        Ok(key) => {
            drop(key);
            Ok(None)
        }
        Err(ReadErr::OutOfMemory) => Err(AllocError),
        Err(ReadErr::Foreign) => Ok(None),
    }
}
