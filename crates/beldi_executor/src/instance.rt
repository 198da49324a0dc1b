// An instance of a function.
ghost use Rattle.std.specs.Prelude.{◌≡◌, option_copied, OnOk, OnErr, IfOk};
ghost use Rattle.beldi_lang.specs.Wants.{wants, wants_answer};
ghost use Rattle.beldi_lang.specs.Machine.{IsAt, resumed};
ghost use Rattle.beldi_lang.specs.declared.effect.Effect.TheVariants as effect;
ghost use Rattle.beldi_lang.specs.declared.effect.Answer.TheVariants as answer;
ghost use Rattle.beldi_value.specs.declared.value.Value.TheVariants as value;
ghost use Rattle.beldi_executor.specs.Executor.{StandsFor, StandsAfter, Acted, waiter, cut_to};
ghost use Rattle.beldi_plain.specs.Operation.{set_item};
ghost use Rattle.beldi_plain.specs.Plain.{answered, ended, new_instance};
ghost use Rattle.beldi_plain.specs.Transaction.{new_member};

use crate::items::Items;
use beldi_lang::{Answer, Deployment, Effect, Machine};
use beldi_value::{Caller, IntentId, Outcome, Str, TxId, Value, or_drop};
use std::alloc::{AllocError, Global};
use std::marker::Model;

/// What it was called with, who called it, the transaction that it was called in, what its effects were answered, and how it ended.
#[derive(Drop)]
pub struct Instance {
    func: u16,
    args: Value,
    parent: Option<Caller>,
    enclosing: Option<TxId>,
    answers: Vec<Answer>,
    outcome: Option<Outcome>,
}

impl Model for Instance {
    ghost use Rattle.beldi_plain.specs.Plain.{Instance};
    ghost use Rattle.beldi_executor.specs.Codes.{coded_instance};

    ghost Value = { Instance };

    ghost coded = { coded_instance };

    ghost view = { λ a. record { func = a.func; args = a.args; parent = a.parent; enclosing = a.enclosing; answers = a.answers.items; outcome = a.outcome } };
}

impl Instance {
    /// An instance that has made no step.
    pub fn new(alloc: Global, func: u16, args: Value, parent: Option<Caller>) -> Instance
        ensures { result ≡ new_instance func args parent }
    {
        Instance {
            func,
            args,
            parent,
            enclosing: None,
            answers: Vec::new(alloc),
            outcome: None,
        }
    }

    /// One that is called inside a transaction.
    pub fn member(
        alloc: Global,
        func: u16,
        args: Value,
        parent: Caller,
        enclosing: TxId,
    ) -> Instance
        ensures { result ≡ new_member enclosing func args parent }
    {
        Instance {
            func,
            args,
            parent: Some(parent),
            enclosing: Some(enclosing),
            answers: Vec::new(alloc),
            outcome: None,
        }
    }

    pub fn func(&self) -> u16
        ensures { result ≡ self.now.func }
    {
        self.func
    }

    pub fn outcome(&self) -> Option<&Outcome>
        ensures { option_copied result ≡ self.now.outcome }
    {
        match &self.outcome {
            Some(outcome) => Some(outcome),
            None => None,
        }
    }

    /// The id of who waits for it.
    pub fn waiter(&self, alloc: Global) -> Result<Option<IntentId>, AllocError>
        ensures { IfOk result (λ o. o ≡ waiter self.now.parent) }
    {
        match &self.parent {
            Some(caller) if caller.waits => Ok(Some(caller.place.intent.copy(alloc)?)),
            _ => Ok(None),
        }
    }

    /// It is answered.
    pub fn answer(&mut self, answer: Answer) -> Result<(), AllocError>
        ensures ok { OnOk result (self.new ≡ answered self.old answer) }
        ensures err { OnErr result (self.new ≡ self.old) }
    {
        self.answers.push(answer)?;
        Ok(())
    }

    /// It has these first answers alone.
    pub fn cut(&mut self, answers: u32)
        ensures { self.new ≡ cut_to answers self.old }
    {
        self.answers.truncate(answers as usize);
    }

    /// It ends.
    pub fn end(&mut self, outcome: Outcome)
        ensures { self.new ≡ ended self.old outcome }
    {
        self.outcome = Some(outcome);
    }

    /// A machine that stands where its answers led. Its body is run from its start.
    pub fn machine(&self, alloc: Global, code: &Deployment) -> Result<Machine, AllocError>
        ensures { IfOk result (λ m. StandsFor code.now self.now m) }
    {
        machine_after(
            alloc,
            code,
            self.func,
            &self.args,
            self.enclosing.is_some(),
            self.answers.as_slice(),
        )
    }

    /// Makes a read or an operation on an item, and gives the answer to it. Another effect changes nothing.
    pub fn make(
        &mut self,
        alloc: Global,
        items: &mut Items,
        effect: &Effect,
    ) -> Result<Option<Answer>, AllocError>
        ensures { Acted items.old items.new self.old self.new effect.now result }
    {
        match effect {
            Effect::Read { table, key } => self.read(alloc, items, *table, key),
            Effect::Write { table, key, value } => {
                self.set(alloc, items, *table, key, value, Answer::Done)?;
                Ok(Some(Answer::Done))
            }
            Effect::CondWrite {
                table,
                key,
                rel,
                operand,
                value,
            } => {
                let passes = items.passes(self.func, *table, key, *rel, operand);
                if passes {
                    self.set(alloc, items, *table, key, value, tested(true))?;
                } else {
                    self.answer(tested(false))?;
                }
                Ok(Some(tested(passes)))
            }
            Effect::Lock { .. } | Effect::Unlock { .. } => {
                self.answer(Answer::Done)?;
                Ok(Some(Answer::Done))
            }
            Effect::Call { .. }
            | Effect::Async { .. }
            | Effect::Begin
            | Effect::End { .. }
            | Effect::Abort
            | Effect::Return(_) => Ok(None),
        }
    }

    // Reads an item.
    fn read(
        &mut self,
        alloc: Global,
        items: &Items,
        table: u16,
        key: &Str,
    ) -> Result<Option<Answer>, AllocError>
        ensures { Acted items.now items.now self.old self.new (effect.Read table key.now) result }
    {
        let value = items.copy_of(alloc, self.func, table, key)?;
        let kept = or_drop!(value.copy(alloc); value);
        or_drop!(self.answer(Answer::Value(kept)); value);
        Ok(Some(Answer::Value(value)))
    }

    // Sets an item, and is answered so.
    fn set(
        &mut self,
        alloc: Global,
        items: &mut Items,
        table: u16,
        key: &Str,
        value: &Value,
        answer: Answer,
    ) -> Result<(), AllocError>
        ensures ok { OnOk result ((items.new ≡ set_item items.old (record { func = self.old.func; table = table; key = key.now }) value.now) × (self.new ≡ answered self.old answer)) }
        ensures err { OnErr result ((items.new ≡ items.old) × (self.new ≡ self.old)) }
    {
        or_drop!(self.answers.reserve(1); answer);
        let key = or_drop!(key.copy(alloc); answer);
        let value = or_drop!(value.copy(alloc); answer, key);
        or_drop!(items.set(self.func, table, key, value); answer);
        self.answers.push_reserved(answer);
        Ok(())
    }
}

// The answer to a test.
pub(crate) fn tested(passes: bool) -> Answer
    ensures { result ≡ answer.Value (value.Bool passes) }
{
    Answer::Value(Value::Bool(passes))
}

pub(crate) fn copy_answer(alloc: Global, answer: &Answer) -> Result<Answer, AllocError>
    ensures { IfOk result (λ a. a ≡ answer.now) }
{
    match answer {
        Answer::Done => Ok(Answer::Done),
        Answer::Value(value) => Ok(Answer::Value(value.copy(alloc)?)),
        Answer::Fault(code) => Ok(Answer::Fault(*code)),
        Answer::Aborted(cause) => Ok(Answer::Aborted(cause.copy(alloc)?)),
    }
}

/// Whether the effect is answered.
pub fn is_answered(effect: &Effect) -> bool
    ensures { result ≡ wants_answer effect.now }
{
    !matches!(effect, Effect::Return(_))
}

// The machine of a function's body after these answers, run from its start; called in a transaction or not.
fn machine_after(
    alloc: Global,
    code: &Deployment,
    func: u16,
    args: &Value,
    inherited: bool,
    answers: &[Answer],
) -> Result<Machine, AllocError>
    ensures { IfOk result (λ m. StandsAfter code.now func args.now inherited answers.now m) }
{
    let mut machine = Machine::new(alloc, code, func, args.copy(alloc)?, inherited)?;
    for answer in answers {
        if !is_answered(machine.wants()) {
            return Ok(machine);
        }
        or_drop!(go_on(alloc, code, &mut machine, answer); machine);
    }
    Ok(machine)
}

// The machine goes on from a copy of this answer.
fn go_on(
    alloc: Global,
    code: &Deployment,
    machine: &mut Machine,
    answer: &Answer,
) -> Result<(), AllocError>
    ensures { OnOk result (machine.new ≡ resumed code.now machine.old answer.now) }
{
    let answer = copy_answer(alloc, answer)?;
    machine.resume(alloc, code, answer)
}
