// The line of an item in a listing.
ghost use Rattle.std.specs.Prelude.{◌≡◌, ◌++◌, OnOk, OnErr, codes};
ghost use Rattle.beldi_tree.specs.Names.{func_text};
ghost use Rattle.beldi_value.specs.Json.{text_of};
ghost use Rattle.beldi_value.specs.Value.{datum_of};
ghost use Rattle.beldi_book.specs.BookText.{table_text, item_text, quoted_key};

use beldi_tree::Deployment;
use beldi_value::{Str, TextBuf, Value, or_drop};
use std::alloc::{AllocError, Global};

/// Appends the line of an item: function, table, key and value, with its end of line.
pub fn write_item(
    alloc: Global,
    code: &Deployment,
    func: u16,
    table: u16,
    key: &Str,
    value: &Value,
    out: &mut TextBuf,
) -> Result<(), AllocError>
    ensures ok { OnOk result (out.new ≡ out.old ++ item_text code.now func table key.now value.now) }
    ensures err { OnErr result (out.new ≡ out.old) }
{
    let mut text = TextBuf::new(alloc);
    or_drop!(write_owner(code, func, table, &mut text); text);
    or_drop!(write_cell(alloc, key, value, &mut text); text);
    out.push_text(text.as_str())
}

// Appends the function and the table. Out of memory, a part of it may be there, as of what follows.
fn write_owner(
    code: &Deployment,
    func: u16,
    table: u16,
    out: &mut TextBuf,
) -> Result<(), AllocError>
    ensures { OnOk result (out.new ≡ out.old ++ func_text code.now func ++ (codes " " ++ (table_text code.now func table ++ codes " "))) }
{
    code.write_func(func, out)?;
    out.push_text(" ")?;
    write_table(code, func, table, out)?;
    out.push_text(" ")
}

// Appends the key and the value, with the end of line.
fn write_cell(alloc: Global, key: &Str, value: &Value, out: &mut TextBuf) -> Result<(), AllocError>
    ensures { OnOk result (out.new ≡ out.old ++ quoted_key key.now ++ (codes " " ++ (text_of (datum_of value.now) ++ codes "\n"))) }
{
    write_key(alloc, key, out)?;
    out.push_text(" ")?;
    value.write_json(alloc, out)?;
    out.push_text("\n")
}

// Appends the name of a table of a function; its number, where the deployment has none of it.
fn write_table(
    code: &Deployment,
    func: u16,
    table: u16,
    out: &mut TextBuf,
) -> Result<(), AllocError>
    ensures { OnOk result (out.new ≡ out.old ++ table_text code.now func table) }
{
    let head = match code.func_at(func) {
        Some(found) => found.tables.as_slice().get(table as usize),
        None => None,
    };
    match head {
        Some(found) => out.push_text(found.name.as_str()),
        None => out.push_number(u64::from(table)),
    }
}

fn write_key(alloc: Global, key: &Str, out: &mut TextBuf) -> Result<(), AllocError>
    ensures { OnOk result (out.new ≡ out.old ++ quoted_key key.now) }
{
    key.write_json(alloc, out)
}
