// Reading a text.
ghost use Rattle.std.specs.Prelude.{◌≡◌, ◌==◌, ◌+◌, ◌-◌, ◌^◌, min, count_by, length, option_map, ◌≤◌, IfNone};
ghost use Rattle.std.specs.List.{take_while};
ghost use Rattle.beldi_syntax.specs.Deployments.{line_past, is_space, line_end, script_at, utf8_fault, size_fault, code_at, parts_at, parsed_at, ReadsText};

use crate::lexer::{front_of, tokens_of};
use crate::refusal::{SyntaxErr, What};
use beldi_tree::Deployment;
use std::alloc::Global;

/// The most bytes that a deployment has.
const MOST_BYTES: usize = 65_536;

/// What a text holds.
#[derive(Drop)]
pub struct Parsed {
    /// What is to be run.
    pub code: Deployment,
    /// Where the script begins: the number of bytes before it.
    pub rest: usize,
    /// The number of the script's first line.
    pub line: u32,
}

// The line of what follows these bytes.
fn line_past(bytes: &[u8]) -> u32
    ensures { result ≡ line_past bytes.now }
{
    let count = bytes.iter().filter(|byte| **byte == b'\n').count();
    match u32::try_from(count) {
        Ok(count) => count.saturating_add(1),
        Err(_) => u32::MAX,
    }
}

fn is_space(byte: u8) -> bool
    ensures { result ≡ is_space byte }
{
    byte == b' ' || byte == b'\t' || byte == b'\r'
}

fn space_len(bytes: &[u8]) -> usize
    ensures { result ≡ length (take_while is_space bytes.now) }
{
    bytes.iter().take_while(|byte| is_space(**byte)).count()
}

// What follows the end of a line, and how many lines end before it.
fn line_end(bytes: &[u8]) -> Option<(&[u8], u32)>
    ensures { option_map (λ p. (p.0.now, p.1)) result ≡ line_end bytes.now }
{
    match bytes {
        [] => Some((bytes, 0)),
        [b'\n', rest @ ..] => Some((rest, 1)),
        _ => None,
    }
}

// The script, which follows the rest of the line of the word `script`, and how many lines end before it.
fn script_of(bytes: &[u8]) -> Option<(&[u8], u32)>
    ensures { option_map (λ p. (p.0.now, p.1)) result ≡ script_at bytes.now }
{
    line_end(bytes.split_at(space_len(bytes)).1)
}

// The line of the first bytes that are not UTF-8.
fn utf8_fault(text: &[u8]) -> Option<u32>
    ensures { result ≡ utf8_fault text.now }
{
    match str::from_utf8(text) {
        Ok(_) => None,
        Err(error) => {
            let (valid, _) = text.split_at(error.valid_up_to());
            Some(line_past(valid))
        }
    }
}

// The line of the first byte past the most that a deployment has.
fn size_fault(text: &[u8]) -> Option<u32>
    ensures line { result ≡ size_fault text.now }
    ensures small { IfNone result (length text.now ≤ 65536) }
{
    if text.len() > MOST_BYTES {
        let (front, _) = text.split_at(MOST_BYTES);
        Some(line_past(front))
    } else {
        None
    }
}

// The deployment that these bytes are.
fn read_code(alloc: Global, text: &[u8]) -> Result<Deployment, SyntaxErr>
    ensures { ReadsText (code_at text.now) result }
{
    match utf8_fault(text) {
        Some(line) => {
            return Err(SyntaxErr::Refused {
                line,
                what: What::Utf8,
            });
        }
        None => (),
    }
    match size_fault(text) {
        Some(line) => {
            return Err(SyntaxErr::Refused {
                line,
                what: What::TooLarge,
            });
        }
        None => (),
    }
    let mut tokens = tokens_of(alloc, text)?;
    tokens.deployment(alloc)
}

// What a text holds, by the deployment's own bytes and those after them.
fn read_parts(alloc: Global, bytes: &[u8], text: &[u8], after: &[u8]) -> Result<Parsed, SyntaxErr>
    ensures { ReadsText (parts_at bytes.now text.now after.now) result }
{
    let code = read_code(alloc, text)?;
    match script_of(after) {
        Some((script, lines)) => Ok(Parsed {
            code,
            rest: bytes.len().saturating_sub(script.len()),
            line: line_past(text).saturating_add(lines),
        }),
        None => Err(SyntaxErr::Refused {
            line: line_past(text),
            what: What::Syntax,
        }),
    }
}

/// Reads a deployment, and finds the script that follows it. The deployment's own bytes are those up to the end of the
/// first token `script`; all of the text where there is none, or where bytes that begin no token come before it.
/// A refusal tells the first cause in the text, and its line. The time it takes grows with the length of the deployment.
pub fn read_deployment(alloc: Global, bytes: &[u8]) -> Result<Parsed, SyntaxErr>
    ensures { ReadsText (parsed_at bytes.now) result }
{
    let count = front_of(alloc, bytes)?;
    let (text, after) = bytes.split_at(count);
    read_parts(alloc, bytes, text, after)
}
