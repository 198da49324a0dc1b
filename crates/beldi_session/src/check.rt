// The command `check`: a source is tested to its end, and nothing of it is carried out.
ghost use Rattle.std.specs.Prelude.{◌≡◌, ◌≤◌, length, Ok, IfOk};
ghost use Rattle.beldi_outside.specs.Outside.{max_source};
ghost use Rattle.beldi_script.specs.LineCut.{lines_of};
ghost use Rattle.beldi_session.specs.Check.{check_at, check_by, counted, tested_text, with_line};
ghost use Rattle.beldi_session.specs.Source.{ReadsAs, numbered};

use crate::refusal::SourceErr;
use crate::source::{Accepted, read_said, read_source, script_at};
use beldi_check::Checked;
use beldi_script::{Line, cut_line};
use beldi_value::TextBuf;
use std::alloc::{AllocError, Global};

// The count with this line, where it says something.
fn with_line(count: usize, line: &Line) -> usize
    requires { count ≤ max_source }
    ensures { result ≡ with_line count line.now }
{
    match line {
        Line::Blank => count,
        _ => count + 1,
    }
}

// How many lines of a script say something; the first line has this number in the source.
fn count_lines(alloc: Global, code: &Checked, first: u32, script: &[u8]) -> Result<usize, SourceErr>
    requires { length script.now ≤ max_source }
    ensures { ReadsAs (counted code.now 0 (numbered first (lines_of script.now))) result }
{
    let mut number = first;
    let mut rest = script;
    let mut count = 0;
    while !rest.is_empty() {
        let (line, more) = cut_line(rest);
        match read_said(alloc, code, number, line) {
            Ok(said) => {
                count = with_line(count, &said);
                drop(said);
            }
            Err(why) => return Err(why),
        }
        number = number.saturating_add(1);
        rest = more;
    }
    Ok(count)
}

// What is said of a deployment and a script that were tested.
fn write_tested(alloc: Global, functions: usize, lines: usize) -> Result<TextBuf, AllocError>
    ensures { IfOk result (λ t. t ≡ tested_text functions lines) }
{
    Ok(TextBuf::from_string(format!(in alloc; "ok {functions} functions {lines} lines\n")?))
}

// Tests the script of a deployment that was read.
fn check_script(alloc: Global, accepted: &Accepted, bytes: &[u8]) -> Result<TextBuf, SourceErr>
    requires { length bytes.now ≤ max_source }
    ensures { ReadsAs (check_by bytes.now (Ok accepted.now)) result }
{
    let script = script_at(bytes, accepted.rest);
    let functions = accepted.code.code().funcs.as_slice().len();
    match count_lines(alloc, &accepted.code, accepted.line, script) {
        Ok(lines) => match write_tested(alloc, functions, lines) {
            Ok(text) => Ok(text),
            Err(_) => Err(SourceErr::OutOfMemory),
        },
        Err(why) => Err(why),
    }
}

/// Tests a source, its deployment and then each line of its script, and gives the text that says how many functions and
/// lines it has. Blank lines and comments do not count. Refused, it tells the first fault.
pub fn check_source(alloc: Global, bytes: &[u8]) -> Result<TextBuf, SourceErr>
    requires { length bytes.now ≤ max_source }
    ensures { ReadsAs (check_at bytes.now) result }
{
    match read_source(alloc, bytes) {
        Ok(accepted) => check_script(alloc, &accepted, bytes),
        Err(why) => Err(why),
    }
}
