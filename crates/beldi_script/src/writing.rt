// The text of a line.
ghost use Rattle.std.specs.Prelude.{◌≡◌, ◌++◌, OnOk, OnErr, IfOk, codes, decimal, string_bytes};
ghost use Rattle.beldi_value.specs.Json.{text_of};
ghost use Rattle.beldi_value.specs.ValueText.{id_text};
ghost use Rattle.beldi_value.specs.Value.{datum_of};
ghost use Rattle.beldi_script.specs.ScriptText.{line_text};
ghost use Rattle.beldi_tree.specs.Names.{func_text};

use crate::line::Line;
use beldi_check::Checked;
use beldi_value::{IntentId, OutOfMemory, TextBuf, Value};
use std::alloc::{AllocError, Global};

fn request_text(
    alloc: Global,
    code: &Checked,
    ticket: u32,
    func: u16,
    args: &Value,
) -> Result<String, AllocError>
    ensures { IfOk result (λ t. string_bytes t ≡ codes "request " ++ (decimal ticket ++ (codes " " ++ (func_text code.now func ++ (codes " " ++ text_of (datum_of args.now)))))) }
{
    let mut text = TextBuf::from_string(format!(in alloc; "request {ticket} ")?);
    code.code().write_func(func, &mut text)?;
    text.push_text(" ")?;
    args.write_json(alloc, &mut text)?;
    Ok(text.into_string())
}

fn restart_text(
    alloc: Global,
    code: &Checked,
    id: &IntentId,
    func: u16,
) -> Result<String, AllocError>
    ensures { IfOk result (λ t. string_bytes t ≡ codes "restart " ++ (id_text id.now ++ (codes " " ++ func_text code.now func))) }
{
    let mut text = TextBuf::from_text(alloc, "restart ")?;
    id.write(&mut text)?;
    text.push_text(" ")?;
    code.code().write_func(func, &mut text)?;
    Ok(text.into_string())
}

fn line_text(alloc: Global, code: &Checked, line: &Line) -> Result<String, AllocError>
    ensures { IfOk result (λ t. string_bytes t ≡ line_text code.now line.now) }
{
    match line {
        Line::Blank => Ok(String::new(alloc)),
        Line::Ticket => String::from_str(alloc, "ticket"),
        Line::Request { ticket, func, args } => request_text(alloc, code, *ticket, *func, args),
        Line::Turn { run, times } => format!(in alloc; "turn {run} {times}"),
        Line::Lost { run } => format!(in alloc; "lost {run}"),
        Line::Crash { run } => format!(in alloc; "crash {run}"),
        Line::Restart { id, func } => restart_text(alloc, code, id, *func),
        Line::Ic { times } => format!(in alloc; "ic {times}"),
        Line::Gc { k, times } => format!(in alloc; "gc {k} {times}"),
        Line::Sweep { k, budget } => format!(in alloc; "sweep {k} {budget}"),
        Line::Settle { budget } => format!(in alloc; "settle {budget}"),
        Line::Tick { by } => format!(in alloc; "tick {by}"),
        Line::Halt => String::from_str(alloc, "halt"),
        Line::Reply { ticket } => format!(in alloc; "reply {ticket}"),
        Line::Rows => String::from_str(alloc, "rows"),
        Line::Tables => String::from_str(alloc, "tables"),
        Line::Book => String::from_str(alloc, "book"),
    }
}

/// Appends a line, without its end: a blank one is empty. `read_line` reads it as that line again, where what it says is
/// within the limits of its form and it names a function of the deployment; a function that the deployment lacks is
/// written by its number. Without memory the text stays as it was.
pub fn write_line(
    alloc: Global,
    code: &Checked,
    line: &Line,
    out: &mut TextBuf,
) -> Result<(), OutOfMemory>
    ensures ok { OnOk result (out.new ≡ out.old ++ line_text code.now line.now) }
    ensures err { OnErr result (out.new ≡ out.old) }
{
    let text = line_text(alloc, code, line)?;
    out.push_text(text.as_str())
}
