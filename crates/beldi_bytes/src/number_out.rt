// Writing numbers, truths and texts.
ghost use Rattle.std.specs.Prelude.{◌≡◌, OnOk, IsUtf8};
ghost use lib.Signed.{mag};
ghost use Rattle.beldi_bytes.specs.Coding.{Adds, one, truth_bytes, option_bytes};
ghost use Rattle.beldi_bytes.specs.KeyBytes.{four, two};
ghost use Rattle.beldi_bytes.specs.RowBytes.{eight, int_bytes, str_bytes, IsInt};

use beldi_value::Str;
use std::alloc::AllocError;

pub(crate) fn put_byte(out: &mut Vec<u8>, n: u8) -> Result<(), AllocError>
    ensures { OnOk result (Adds out.old.items out.new.items (one n)) }
{
    out.push(n)?;
    Ok(())
}

pub(crate) fn put_two(out: &mut Vec<u8>, n: u16) -> Result<(), AllocError>
    ensures { OnOk result (Adds out.old.items out.new.items (two n)) }
{
    put_byte(out, (n / 256) as u8)?;
    put_byte(out, (n % 256) as u8)
}

pub(crate) fn put_four(out: &mut Vec<u8>, n: u32) -> Result<(), AllocError>
    ensures { OnOk result (Adds out.old.items out.new.items (four n)) }
{
    put_two(out, (n / 65536) as u16)?;
    put_two(out, (n % 65536) as u16)
}

pub(crate) fn put_eight(out: &mut Vec<u8>, n: u64) -> Result<(), AllocError>
    ensures { OnOk result (Adds out.old.items out.new.items (eight n)) }
{
    put_four(out, (n / 4_294_967_296) as u32)?;
    put_four(out, (n % 4_294_967_296) as u32)
}

pub(crate) fn put_truth(out: &mut Vec<u8>, is: bool) -> Result<(), AllocError>
    ensures { OnOk result (Adds out.old.items out.new.items (truth_bytes is)) }
{
    put_byte(out, if is { 1 } else { 0 })
}

pub(crate) fn put_four_if(out: &mut Vec<u8>, n: Option<u32>) -> Result<(), AllocError>
    ensures { OnOk result (Adds out.old.items out.new.items (option_bytes four n)) }
{
    match n {
        None => put_byte(out, 0),
        Some(n) => {
            put_byte(out, 1)?;
            put_four(out, n)
        }
    }
}

pub(crate) fn put_eight_if(out: &mut Vec<u8>, n: Option<u64>) -> Result<(), AllocError>
    ensures { OnOk result (Adds out.old.items out.new.items (option_bytes eight n)) }
{
    match n {
        None => put_byte(out, 0),
        Some(n) => {
            put_byte(out, 1)?;
            put_eight(out, n)
        }
    }
}

// n for n, and for -(n + 1).
fn size_of(n: i64) -> u64
    ensures { result ≡ mag n }
{
    if n < 0 { (-(n + 1)) as u64 } else { n as u64 }
}

pub(crate) fn put_int(out: &mut Vec<u8>, n: i64) -> Result<(), AllocError>
    ensures { OnOk result (Adds out.old.items out.new.items (int_bytes n) × IsInt n) }
{
    let size = size_of(n);
    if n < 0 {
        put_byte(out, 1)?;
    } else {
        put_byte(out, 0)?;
    }
    put_eight(out, size)?;
    Ok(())
}

/// A number of parts. There is no memory for more than four bytes tell.
pub(crate) fn put_count(out: &mut Vec<u8>, count: usize) -> Result<(), AllocError>
    ensures { OnOk result (Adds out.old.items out.new.items (four count)) }
{
    if count > 0xffff_ffff {
        return Err(AllocError);
    }
    put_four(out, count as u32)
}

fn put_bytes(out: &mut Vec<u8>, text: &str) -> Result<(), AllocError>
    ensures { OnOk result (Adds out.old.items out.new.items (str_bytes text.now) × IsUtf8 text.now) }
{
    put_count(out, text.len())?;
    out.extend_from_slice(text.as_bytes())?;
    Ok(())
}

pub(crate) fn put_str(out: &mut Vec<u8>, text: &Str) -> Result<(), AllocError>
    ensures { OnOk result (Adds out.old.items out.new.items (str_bytes text.now) × IsUtf8 text.now) }
{
    put_bytes(out, text.as_str())
}
