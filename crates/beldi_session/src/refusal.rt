// Where and why a source is refused, and the text that says so.
ghost use Rattle.std.specs.Prelude.{◌≡◌, ◌++◌, OnOk};
ghost use Rattle.beldi_session.specs.Refusal.{cause_text, place_text, refusal_text, rule_text, syntax_text};

use beldi_check::Why;
use beldi_syntax::What;
use beldi_value::{Str, TextBuf};
use std::alloc::{AllocError, Global};

/// Why a source is refused at a line.
#[derive(Drop)]
pub enum Cause {
    /// The text is no deployment.
    Syntax(What),
    /// The deployment breaks this rule.
    Rule(Why),
    /// The line of the script has none of the forms.
    BadLine,
    /// No function of the deployment has the name in this line of the script.
    UnknownFunction(Str),
    /// In this line of the script the rest is no value in JSON, or one past the limits of values.
    BadValue,
}

/// Where a source is refused, and why.
#[derive(Drop)]
pub struct Refusal {
    /// The number of the line in the whole source, from 1.
    pub line: u32,
    /// Why it is refused there.
    pub cause: Cause,
}

/// Why a source, or a line of it, was not read.
#[derive(Drop)]
pub enum SourceErr {
    /// Out of memory.
    OutOfMemory,
    /// It is refused.
    Refused(Refusal),
}

fn push_named(word: &str, name: &Str, out: &mut TextBuf) -> Result<(), AllocError>
    ensures { OnOk result (out.new ≡ out.old ++ (word.now ++ name.now)) }
{
    out.push_text(word)?;
    out.push_text(name.as_str())
}

fn syntax_text(what: What) -> &'static str
    ensures { result.now ≡ syntax_text what }
{
    match what {
        What::Utf8 => "utf8",
        What::Syntax => "syntax",
        What::Number => "number",
        What::TooDeep => "too-deep",
        What::TooLarge => "too-large",
    }
}

fn write_rule(why: &Why, out: &mut TextBuf) -> Result<(), AllocError>
    ensures { OnOk result (out.new ≡ out.old ++ rule_text why.now) }
{
    match why {
        Why::UnknownFunction(name) => push_named("unknown-function ", name, out),
        Why::UnknownTable(name) => push_named("unknown-table ", name, out),
        Why::Duplicate(name) => push_named("duplicate ", name, out),
        Why::TooMany => out.push_text("too-many"),
        Why::BreakOutside(name) => push_named("break-outside ", name, out),
        Why::NestedTx(name) => push_named("nested-tx ", name, out),
        Why::LeavesTx(name) => push_named("leaves-tx ", name, out),
        Why::CallCycle(name) => push_named("call-cycle ", name, out),
        Why::AsyncInTx(name) => push_named("async-in-tx ", name, out),
        Why::LockInTx(name) => push_named("lock-in-tx ", name, out),
    }
}

fn write_cause(cause: &Cause, out: &mut TextBuf) -> Result<(), AllocError>
    ensures { OnOk result (out.new ≡ out.old ++ cause_text cause.now) }
{
    match cause {
        Cause::Syntax(what) => out.push_text(syntax_text(*what)),
        Cause::Rule(why) => write_rule(why, out),
        Cause::BadLine => out.push_text("line"),
        Cause::UnknownFunction(name) => push_named("unknown-function ", name, out),
        Cause::BadValue => out.push_text("value"),
    }
}

fn write_place(alloc: Global, line: u32, out: &mut TextBuf) -> Result<(), AllocError>
    ensures { OnOk result (out.new ≡ out.old ++ place_text line) }
{
    let text = format!(in alloc; "refused line {line}: ")?;
    out.push_text(text.as_str())
}

/// Appends the line of a refusal. After an `Err` the text has more or less of it.
pub fn write_refusal(alloc: Global, refusal: &Refusal, out: &mut TextBuf) -> Result<(), AllocError>
    ensures { OnOk result (out.new ≡ out.old ++ refusal_text refusal.now) }
{
    write_place(alloc, refusal.line, out)?;
    write_cause(&refusal.cause, out)?;
    out.push_text("\n")
}
