// The plain state on ordered maps in memory.
ghost use Rattle.std.specs.Prelude.{◌≡◌, ◌++◌, ◌<◌, ◌≤◌, length, Some, true, false, is_none, is_some, OnOk, OnErr, IfOk, option_copied};
ghost use Rattle.std.specs.FinMap as map;
ghost use Rattle.beldi_lang.specs.declared.effect.Effect.TheVariants as effect;
ghost use Rattle.beldi_value.specs.Id.{child_of};
ghost use Rattle.beldi_plain.specs.Plain.{Instance, nothing, value_at, with_instance, with_callee, kind_of, waits_at};
ghost use Rattle.beldi_executor.specs.Executor.{Made, IsActed, IsNumber};
ghost use Rattle.beldi_executor.specs.Answers.{bar_made};
ghost use Rattle.beldi_plain.specs.Listing.{listing_of};

use crate::instance::Instance;
use crate::instances::Instances;
use crate::items::Items;
use crate::next::Next;
use beldi_lang::{Answer, Deployment, Effect};
use beldi_value::{Caller, IntentId, Outcome, Place, Str, TextBuf, Value, or_drop};
use std::alloc::{AllocError, Global};
use std::marker::Model;

#[derive(Drop)]
pub struct State {
    pub(crate) items: Items,
    pub(crate) made: Instances,
    null: Value,
}

impl Model for State {
    ghost use Rattle.std.specs.Prelude.{◌≡◌};
    ghost use Rattle.beldi_value.specs.declared.value.Value.TheVariants as value;
    ghost use Rattle.beldi_plain.specs.Plain.{PlainState};
    ghost use Rattle.beldi_executor.specs.Codes.{coded_state};

    ghost Value = { PlainState };

    ghost coded = { coded_state };

    ghost view = { λ a. record { items = a.items; made = a.made } };

    ghost invariant = { λ a. a.null ≡ value.Null };
}

impl State {
    /// Neither items nor instances.
    pub fn new(alloc: Global) -> State
        ensures { result ≡ nothing }
    {
        State {
            items: Items::new(alloc),
            made: Instances::new(alloc),
            null: Value::Null,
        }
    }

    pub fn instance(&self, id: &IntentId) -> Option<&Instance>
        ensures { option_copied result ≡ map.get self.now.made id.now }
    {
        self.made.get(id)
    }

    pub fn set_instance(&mut self, id: IntentId, instance: Instance) -> Result<(), AllocError>
        requires { length id.hops ≤ 63 }
        ensures ok { OnOk result (self.new ≡ with_instance self.old id instance) }
        ensures err { OnErr result (self.new ≡ self.old) }
    {
        self.made.set(id, instance)
    }

    /// Whether an instance waits at this effect, its step of this number, for a callee that was made.
    pub fn waits(
        &self,
        alloc: Global,
        id: &IntentId,
        step: u32,
        effect: &Effect,
    ) -> Result<bool, AllocError>
        ensures { IfOk result (λ b. (q : Instance) → IsNumber step q effect.now → b ≡ waits_at self.now.made id.now q effect.now) }
    {
        match effect {
            Effect::Call { .. } | Effect::Async { .. } => self.made.has_callee(alloc, id, step),
            _ => Ok(false),
        }
    }

    /// An instance that was made, and does not wait, makes this effect, its step of this number.
    pub fn make(
        &mut self,
        alloc: Global,
        id: &IntentId,
        step: u32,
        effect: &Effect,
    ) -> Result<Next, AllocError>
        requires { is_none (bar_made (kind_of id.now effect.now)) ≡ true }
        ensures { (q : Instance) → map.get self.old.made id.now ≡ Some q → IsNumber step q effect.now → waits_at self.old.made id.now q effect.now ≡ false → Made self.old self.new id.now q effect.now result }
    {
        match effect {
            Effect::Call { func, args } => self.call(alloc, id, step, *func, args),
            Effect::Async { func, args } => self.send(alloc, id, step, *func, args),
            Effect::Return(outcome) => self.end(alloc, id, outcome),
            _ => self.act(alloc, id, effect),
        }
    }

    // An instance makes a read or an operation on an item.
    fn act(&mut self, alloc: Global, id: &IntentId, effect: &Effect) -> Result<Next, AllocError>
        ensures { (q : Instance) → map.get self.old.made id.now ≡ Some q → IsActed self.old self.new id.now q effect.now result }
    {
        match self.made.make(alloc, id, &mut self.items, effect)? {
            Some(answer) => Ok(Next::Answered(answer)),
            None => Ok(Next::Stays),
        }
    }

    // An instance makes a callee that it waits for.
    fn call(
        &mut self,
        alloc: Global,
        id: &IntentId,
        step: u32,
        func: u16,
        args: &Value,
    ) -> Result<Next, AllocError>
        requires { length id.now.hops < 63 }
        ensures { (q : Instance) → map.get self.old.made id.now ≡ Some q → step ≡ length q.answers → Made self.old self.new id.now q (effect.Call func args.now) result }
    {
        self.make_callee(alloc, id, step, func, args, true)?;
        Ok(Next::Stays)
    }

    // An instance makes a callee that it does not wait for, and is answered. Where there is no memory for the answer, the callee
    // is taken away again.
    fn send(
        &mut self,
        alloc: Global,
        id: &IntentId,
        step: u32,
        func: u16,
        args: &Value,
    ) -> Result<Next, AllocError>
        requires { length id.now.hops < 63 }
        ensures { (q : Instance) → map.get self.old.made id.now ≡ Some q → step ≡ length q.answers → is_some (map.get self.old.made (child_of id.now step)) ≡ false → Made self.old self.new id.now q (effect.Async func args.now) result }
    {
        let callee = id.child(alloc, step)?;
        match self.make_callee(alloc, id, step, func, args, false) {
            Ok(()) => (),
            Err(error) => {
                drop(callee);
                return Err(error);
            }
        }
        match self.made.answer(id, Answer::Done) {
            Ok(()) => Ok(Next::Answered(Answer::Done)),
            Err(error) => {
                self.made.forget(&callee);
                Err(error)
            }
        }
    }

    // The callee of an instance is made.
    fn make_callee(
        &mut self,
        alloc: Global,
        id: &IntentId,
        step: u32,
        func: u16,
        args: &Value,
        waits: bool,
    ) -> Result<(), AllocError>
        requires { length id.now.hops < 63 }
        ensures ok { (q : Instance) → map.get self.old.made id.now ≡ Some q → step ≡ length q.answers → OnOk result (self.new ≡ with_callee self.old id.now q func args.now waits) }
        ensures err { OnErr result (self.new ≡ self.old) }
    {
        let Some(found) = self.made.get(id) else {
            return Ok(());
        };
        let caller = Caller {
            place: Place {
                intent: id.copy(alloc)?,
                step,
            },
            func: found.func(),
            waits,
        };
        let args = or_drop!(args.copy(alloc); caller);
        let callee = Instance::new(alloc, func, args, Some(caller));
        let id = or_drop!(id.child(alloc, step); callee);
        self.made.set(id, callee)
    }

    // An instance ends, and who waits for it is answered.
    fn end(&mut self, alloc: Global, id: &IntentId, outcome: &Outcome) -> Result<Next, AllocError>
        ensures { (q : Instance) → map.get self.old.made id.now ≡ Some q → Made self.old self.new id.now q (effect.Return outcome.now) result }
    {
        let Some(found) = self.made.get(id) else {
            return Ok(Next::Ended);
        };
        let ended = outcome.copy(alloc)?;
        match found.waiter(alloc) {
            Ok(None) => {
                self.made.end(id, ended);
                Ok(Next::Ended)
            }
            Ok(Some(waiter)) => match self.made.tell(alloc, &waiter, outcome) {
                Ok(answer) => {
                    self.made.end(id, ended);
                    Ok(Next::Tells(waiter, answer))
                }
                Err(error) => {
                    drop(ended);
                    drop(waiter);
                    Err(error)
                }
            },
            Err(error) => {
                drop(ended);
                Err(error)
            }
        }
    }

    /// The value of an item, null where it was never set.
    pub fn value(&self, func: u16, table: u16, key: &Str) -> &Value
        ensures { result.now ≡ value_at self.now (record { func = func; table = table; key = key.now }) }
    {
        match self.items.get(func, table, key) {
            Some(value) => value,
            None => &self.null,
        }
    }

    /// Appends a line for each item that is not null.
    pub fn write(
        &self,
        alloc: Global,
        code: &Deployment,
        out: &mut TextBuf,
    ) -> Result<(), AllocError>
        ensures ok { OnOk result (out.new ≡ out.old ++ listing_of code.now self.now) }
        ensures err { OnErr result (out.new ≡ out.old) }
    {
        self.items.write(alloc, code, out)
    }
}
