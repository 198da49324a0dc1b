// Writing keys.
ghost use Rattle.std.specs.Prelude.{◌≡◌, OnOk, IfOk, IsUtf8, Some};
ghost use Rattle.beldi_bytes.specs.Coding.{Adds};
ghost use Rattle.beldi_row.specs.declared.key.Kind.TheVariants.{Data, Shadow, Lockset};
ghost use Rattle.beldi_bytes.specs.KeyBytes.{hops_bytes, id_bytes, place_bytes, tx_bytes, char_bytes, text_bytes, kind_bytes, key_bytes, IsId, IsPlace, IsTx, IsKind, IsKey};

use crate::number_out::{put_byte, put_four, put_two};
use beldi_row::{Kind, RowKey};
use beldi_value::{IdBuf, IntentId, Place, Str, TxId, or_drop};
use std::alloc::{AllocError, Global};

fn put_hops(out: &mut Vec<u8>, hops: &[u32]) -> Result<(), AllocError>
    ensures { OnOk result (Adds out.old.items out.new.items (hops_bytes hops.now)) }
{
    for hop in hops {
        put_byte(out, 1)?;
        put_four(out, *hop)?;
    }
    put_byte(out, 0)?;
    Ok(())
}

pub(crate) fn put_id(out: &mut Vec<u8>, id: &IntentId) -> Result<(), AllocError>
    ensures { OnOk result (Adds out.old.items out.new.items (id_bytes id.now) × IsId id.now) }
{
    put_four(out, id.ticket)?;
    put_hops(out, id.hops.as_slice())
}

// .. that lies in room for any.
pub(crate) fn put_age(out: &mut Vec<u8>, age: &IdBuf) -> Result<(), AllocError>
    ensures { OnOk result (Adds out.old.items out.new.items (id_bytes age.now) × IsId age.now) }
{
    put_four(out, age.ticket())?;
    put_hops(out, age.hops())
}

pub(crate) fn put_place(out: &mut Vec<u8>, place: &Place) -> Result<(), AllocError>
    ensures { OnOk result (Adds out.old.items out.new.items (place_bytes place.now) × IsPlace place.now) }
{
    put_id(out, &place.intent)?;
    put_four(out, place.step)
}

pub(crate) fn put_tx(out: &mut Vec<u8>, tx: &TxId) -> Result<(), AllocError>
    ensures { OnOk result (Adds out.old.items out.new.items (tx_bytes tx.now) × IsTx tx.now) }
{
    put_id(out, &tx.intent)?;
    put_four(out, tx.begin)?;
    put_two(out, tx.func)
}

fn put_char(out: &mut Vec<u8>, byte: u8) -> Result<(), AllocError>
    ensures { OnOk result (Adds out.old.items out.new.items (char_bytes (Some byte))) }
{
    put_byte(out, byte)?;
    if byte == 0 {
        put_byte(out, 255)
    } else {
        Ok(())
    }
}

fn put_chars(out: &mut Vec<u8>, text: &str) -> Result<(), AllocError>
    ensures { OnOk result (Adds out.old.items out.new.items (text_bytes text.now) × IsUtf8 text.now) }
{
    for byte in text.as_bytes() {
        put_char(out, *byte)?;
    }
    put_byte(out, 0)?;
    put_byte(out, 0)?;
    Ok(())
}

fn put_text(out: &mut Vec<u8>, text: &Str) -> Result<(), AllocError>
    ensures { OnOk result (Adds out.old.items out.new.items (text_bytes text.now) × IsUtf8 text.now) }
{
    put_chars(out, text.as_str())
}

fn put_data(out: &mut Vec<u8>, table: u16, key: &Str, row: u32) -> Result<(), AllocError>
    ensures { OnOk result (Adds out.old.items out.new.items (kind_bytes (Data table key.now row)) × IsKind (Data table key.now row)) }
{
    put_byte(out, 3)?;
    put_two(out, table)?;
    put_text(out, key)?;
    put_four(out, row)
}

fn put_shadow(
    out: &mut Vec<u8>,
    tx: &TxId,
    table: u16,
    key: &Str,
    row: u32,
) -> Result<(), AllocError>
    ensures { OnOk result (Adds out.old.items out.new.items (kind_bytes (Shadow tx.now table key.now row)) × IsKind (Shadow tx.now table key.now row)) }
{
    put_byte(out, 4)?;
    put_tx(out, tx)?;
    put_two(out, table)?;
    put_text(out, key)?;
    put_four(out, row)
}

fn put_lockset(
    out: &mut Vec<u8>,
    intent: &IntentId,
    begin: u32,
    table: u16,
    key: &Str,
) -> Result<(), AllocError>
    ensures { OnOk result (Adds out.old.items out.new.items (kind_bytes (Lockset intent.now begin table key.now)) × IsKind (Lockset intent.now begin table key.now)) }
{
    put_byte(out, 5)?;
    put_id(out, intent)?;
    put_four(out, begin)?;
    put_two(out, table)?;
    put_text(out, key)
}

fn put_kind(out: &mut Vec<u8>, kind: &Kind) -> Result<(), AllocError>
    ensures { OnOk result (Adds out.old.items out.new.items (kind_bytes kind.now) × IsKind kind.now) }
{
    match kind {
        Kind::Intent(id) => {
            put_byte(out, 0)?;
            put_id(out, id)
        }
        Kind::ReadLog(place) => {
            put_byte(out, 1)?;
            put_place(out, place)
        }
        Kind::Invoke(place) => {
            put_byte(out, 2)?;
            put_place(out, place)
        }
        Kind::Data { table, key, row } => put_data(out, *table, key, *row),
        Kind::Shadow {
            tx,
            table,
            key,
            row,
        } => put_shadow(out, tx, *table, key, *row),
        Kind::Lockset {
            intent,
            begin,
            table,
            key,
        } => put_lockset(out, intent, *begin, *table, key),
    }
}

/// The bytes of a key.
pub fn write_key(alloc: Global, key: &RowKey) -> Result<Vec<u8>, AllocError>
    ensures bytes { IfOk result (λ b. b.items ≡ key_bytes key.now) }
    ensures real { IfOk result (λ b. IsKey key.now) }
{
    let mut out = Vec::new(alloc);
    or_drop!(put_two(&mut out, key.home()); out);
    or_drop!(put_kind(&mut out, key.kind()); out);
    Ok(out)
}
