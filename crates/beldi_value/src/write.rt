// The texts of ids, places, owners and outcomes.
ghost use Rattle.std.specs.Prelude.{◌≡◌, ◌<◌, ◌^◌, ◌++◌, Some, OnOk};
ghost use Rattle.std.specs.List.{AllByRecursion};
ghost use Rattle.beldi_value.specs.IdAt.{id_at};
ghost use Rattle.beldi_value.specs.ValueText.{hops_text, id_text, place_text, owner_text, code_text, outcome_text};

use crate::id::IntentId;
use crate::outcome::{Code, Outcome};
use crate::place::{Owner, Place};
use crate::text_buf::TextBuf;
use std::alloc::{AllocError, Global};

impl IntentId {
    /// Appends the ticket, and `/` and a step for each hop. Of a ticket from 1 it is read as that id again. Out of memory, a
    /// part of it may be there, as of all texts here.
    pub fn write(&self, out: &mut TextBuf) -> Result<(), AllocError>
        ensures text { OnOk result (out.new ≡ out.old ++ id_text self.now) }
        ensures again { OnOk result (0 < self.now.ticket → id_at (id_text self.now) ≡ Some self.now) }
    {
        out.push_number(u64::from(self.ticket))?;
        write_hops(self.hops.as_slice(), out)?;
        Ok(())
    }
}

fn write_hops(steps: &[u32], out: &mut TextBuf) -> Result<(), AllocError>
    ensures text { OnOk result (out.new ≡ out.old ++ hops_text steps.now) }
    ensures small { AllByRecursion (λ h. h < 2 ^ 32) steps.now }
{
    for step in steps {
        out.push_text("/")?;
        out.push_number(u64::from(*step))?;
    }
    Ok(())
}

impl Place {
    /// Appends the id, `:` and the step.
    pub fn write(&self, out: &mut TextBuf) -> Result<(), AllocError>
        ensures { OnOk result (out.new ≡ out.old ++ place_text self.now) }
    {
        self.intent.write(out)?;
        out.push_text(":")?;
        out.push_number(u64::from(self.step))
    }
}

impl Owner {
    /// Appends `intent` and the id, or `tx` and the id, `:` and the step of its begin.
    pub fn write(&self, out: &mut TextBuf) -> Result<(), AllocError>
        ensures { OnOk result (out.new ≡ out.old ++ owner_text self.now) }
    {
        match self {
            Owner::Intent(id) => {
                out.push_text("intent ")?;
                id.write(out)
            }
            Owner::Tx(tx) => {
                out.push_text("tx ")?;
                tx.intent.write(out)?;
                out.push_text(":")?;
                out.push_number(u64::from(tx.begin))
            }
        }
    }
}

impl Code {
    /// The name that the code has in texts.
    pub fn text(&self) -> &'static str
        ensures { result.now ≡ code_text self.now }
    {
        match self {
            Code::WrongType => "type",
            Code::Overflow => "overflow",
            Code::DivideByZero => "divide-by-zero",
            Code::Steps => "steps",
            Code::LocksHeld => "locks-held",
            Code::ValueTooLarge => "value-too-large",
            Code::NoTx => "no-tx",
        }
    }
}

impl Outcome {
    /// Appends `value` and the value's canonical text, or `fault` and the code. `Aborted`, which no root ever has,
    /// has the text `aborted`.
    pub fn write(&self, alloc: Global, out: &mut TextBuf) -> Result<(), AllocError>
        ensures { OnOk result (out.new ≡ out.old ++ outcome_text self.now) }
    {
        match self {
            Outcome::Value(value) => {
                out.push_text("value ")?;
                value.write_json(alloc, out)
            }
            Outcome::Fault(code) => {
                out.push_text("fault ")?;
                out.push_text(code.text())
            }
            Outcome::Aborted(_) => out.push_text("aborted"),
        }
    }
}
