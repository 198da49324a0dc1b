// What a source says: a deployment and the lines of a script, or why it is refused.
ghost use Rattle.std.specs.Prelude.{◌≡◌, drop};
ghost use Rattle.std.specs.List.{list_all};
ghost use Rattle.beldi_script.specs.LineCut.{lines_of};
ghost use Rattle.beldi_script.specs.ScriptWords.{is_space};
ghost use Rattle.beldi_session.specs.Source.{ReadsAs, accepted, accepted_of, first_line, numbered, refusal_at, refusal_in, said_at, source_at};
ghost use Rattle.beldi_session.specs.declared.refusal.SourceErr.TheVariants.{Refused};

use crate::refusal::{Cause, Refusal, SourceErr};
use beldi_check::{CheckErr, Checked, check};
use beldi_script::{Line, ScriptErr, cut_line, read_line};
use beldi_syntax::{Parsed, SyntaxErr, read_deployment};
use std::alloc::Global;

/// What a source says before its script.
#[derive(Drop)]
pub struct Accepted {
    /// The deployment.
    pub code: Checked,
    /// Where the script begins.
    pub rest: usize,
    /// The number of its first line.
    pub line: u32,
}

fn refused(line: u32, cause: Cause) -> SourceErr
    ensures { result ≡ Refused (refusal_at cause line) }
{
    SourceErr::Refused(Refusal { line, cause })
}

// Tests that the deployment keeps every rule.
fn accept(alloc: Global, parsed: Parsed) -> Result<Accepted, SourceErr>
    ensures { ReadsAs (accepted (accepted_of parsed) (refusal_in parsed.code)) result }
{
    let Parsed { code, rest, line } = parsed;
    match check(alloc, code) {
        Ok(code) => Ok(Accepted { code, rest, line }),
        Err(CheckErr::Refused { line, why }) => Err(refused(line, Cause::Rule(why))),
        Err(CheckErr::OutOfMemory) => Err(SourceErr::OutOfMemory),
    }
}

/// Reads the deployment of a source and finds the script, which it does not read. A refusal tells the first fault of the
/// text; where there is none, the first rule that is broken. Every other deployment is carried out.
pub fn read_source(alloc: Global, bytes: &[u8]) -> Result<Accepted, SourceErr>
    ensures { ReadsAs (source_at bytes.now) result }
{
    match read_deployment(alloc, bytes) {
        Ok(parsed) => accept(alloc, parsed),
        Err(SyntaxErr::Refused { line, what }) => Err(refused(line, Cause::Syntax(what))),
        Err(SyntaxErr::OutOfMemory) => Err(SourceErr::OutOfMemory),
    }
}

/// The script of a source, which begins there.
pub fn script_at(bytes: &[u8], rest: usize) -> &[u8]
    ensures { result.now ≡ drop rest bytes.now }
{
    match bytes.get(rest..) {
        Some(script) => script,
        None => &[],
    }
}

/// Reads the line of the script that has this number in the source.
pub fn read_said(alloc: Global, code: &Checked, number: u32, line: &[u8]) -> Result<Line, SourceErr>
    ensures { ReadsAs (said_at code.now (number, line.now)) result }
{
    match read_line(alloc, code, line) {
        Ok(said) => Ok(said),
        Err(ScriptErr::OutOfMemory) => Err(SourceErr::OutOfMemory),
        Err(ScriptErr::BadLine) => Err(refused(number, Cause::BadLine)),
        Err(ScriptErr::UnknownFunction(name)) => {
            Err(refused(number, Cause::UnknownFunction(name)))
        }
        Err(ScriptErr::BadValue) => Err(refused(number, Cause::BadValue)),
    }
}

// The line has nothing but spaces and tabs.
fn is_empty(line: &[u8]) -> bool
    ensures { result ≡ list_all is_space line.now }
{
    line.iter().all(|byte| *byte == b' ' || *byte == b'\t')
}

/// The refusal of a script that is to be empty, whose first line has this number: at its first line that is not.
pub fn find_line(first: u32, script: &[u8]) -> Option<Refusal>
    ensures { result ≡ first_line (numbered first (lines_of script.now)) }
{
    let mut number = first;
    let mut rest = script;
    while !rest.is_empty() {
        let (line, more) = cut_line(rest);
        if !is_empty(line) {
            return Some(Refusal {
                line: number,
                cause: Cause::BadLine,
            });
        }
        number = number.saturating_add(1);
        rest = more;
    }
    None
}
