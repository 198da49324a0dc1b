// What a line of a script says.
ghost use Rattle.std.specs.Prelude.{◌≡◌};
ghost use Rattle.beldi_value.specs.IdAt.{id_at};
ghost use Rattle.beldi_script.specs.ScriptLine.{formed, func_named, value_at, request_at, restart_at, called, said, line_at, Reads};
ghost use Rattle.beldi_script.specs.ScriptWords.{alone};

use crate::line::{Line, ScriptErr};
use crate::words::{is_blank, is_word, read_alone, read_counted, read_name, read_small};
use beldi_check::Checked;
use beldi_value::{IdErr, IntentId, Str, Value, ValueErr, cut_at};
use std::alloc::Global;

// The number of the function of this name, from 1.
fn func_named(alloc: Global, code: &Checked, name: &str) -> Result<u16, ScriptErr>
    ensures { Reads (func_named code.now.funcs name.now) result }
{
    match code.func(name.as_bytes()) {
        Some(func) => Ok(func),
        None => Err(ScriptErr::UnknownFunction(Str::from_text(alloc, name)?)),
    }
}

fn read_id(alloc: Global, word: &[u8]) -> Result<IntentId, ScriptErr>
    ensures { Reads (formed (id_at word.now)) result }
{
    match IntentId::read(alloc, word) {
        Ok(id) => Ok(id),
        Err(IdErr::OutOfMemory) => Err(ScriptErr::OutOfMemory),
        Err(IdErr::BadId) => Err(ScriptErr::BadLine),
    }
}

fn read_args(alloc: Global, json: &[u8]) -> Result<Value, ScriptErr>
    ensures { Reads (value_at json.now) result }
{
    match Value::read_json(alloc, json) {
        Ok(args) => Ok(args),
        Err(ValueErr::OutOfMemory) => Err(ScriptErr::OutOfMemory),
        Err(_) => Err(ScriptErr::BadValue),
    }
}

fn read_request(alloc: Global, code: &Checked, words: &[u8]) -> Result<Line, ScriptErr>
    ensures { Reads (request_at code.now words.now) result }
{
    let (ticket, rest) = cut_at(words, b' ');
    let Some(rest) = rest else {
        return Err(ScriptErr::BadLine)
    };
    let (name, json) = cut_at(rest, b' ');
    let Some(json) = json else {
        return Err(ScriptErr::BadLine)
    };
    let Some(ticket) = read_small(ticket) else {
        return Err(ScriptErr::BadLine)
    };
    let Some(name) = read_name(name) else {
        return Err(ScriptErr::BadLine)
    };
    let func = func_named(alloc, code, name)?;
    let args = read_args(alloc, json)?;
    Ok(Line::Request { ticket, func, args })
}

fn read_restart(alloc: Global, code: &Checked, words: &[u8]) -> Result<Line, ScriptErr>
    ensures { Reads (restart_at code.now words.now) result }
{
    let (id, name) = cut_at(words, b' ');
    let Some(name) = name else {
        return Err(ScriptErr::BadLine)
    };
    let Some(name) = read_name(name) else {
        return Err(ScriptErr::BadLine)
    };
    Ok(Line::Restart {
        id: read_id(alloc, id)?,
        func: func_named(alloc, code, name)?,
    })
}

fn or_bad(said: Option<Line>) -> Result<Line, ScriptErr>
    ensures { result ≡ formed said }
{
    said.ok_or(ScriptErr::BadLine)
}

// A line of a word and more.
fn read_called(alloc: Global, code: &Checked, word: &[u8], words: &[u8]) -> Result<Line, ScriptErr>
    ensures { Reads (called code.now word.now words.now) result }
{
    if is_word(word, "request") {
        read_request(alloc, code, words)
    } else if is_word(word, "restart") {
        read_restart(alloc, code, words)
    } else {
        or_bad(read_counted(word, words))
    }
}

/// Reads a line, without its end. A word is set apart from the next by one space. The functions' names alone are asked
/// of the deployment. Of the refusals the first that holds is told: `BadLine` where the line has none of the forms,
/// `UnknownFunction` where no function has the name that stands in its place, and `BadValue` where the rest of a line of
/// `request` is no value; there spaces, tabs and carriage returns around the value are its own. Beside these it refuses
/// out of memory alone.
pub fn read_line(alloc: Global, code: &Checked, line: &[u8]) -> Result<Line, ScriptErr>
    ensures { Reads (line_at code.now line.now) result }
{
    if is_blank(line) {
        return Ok(Line::Blank);
    }
    let (word, words) = cut_at(line, b' ');
    match words {
        None => or_bad(read_alone(word)),
        Some(words) => read_called(alloc, code, word, words),
    }
}
