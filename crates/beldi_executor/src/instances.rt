// The instances that were made.
ghost use Rattle.std.specs.Prelude.{◌≡◌, ◌≤◌, length, Some, is_some, OnOk, OnErr, IfOk, option_copied};
ghost use Rattle.std.specs.FinMap as map;
ghost use Rattle.beldi_value.specs.Id.{child_of};
ghost use Rattle.beldi_lang.specs.Callee.{answer_of};
ghost use Rattle.beldi_plain.specs.Plain.{Instance, answered, ended};
ghost use Rattle.beldi_executor.specs.Executor.{ActedAt, at_one, cut_to};

use crate::instance::{Instance, copy_answer};
use crate::items::Items;
use beldi_lang::{Answer, Effect};
use beldi_value::{IntentId, Outcome, or_drop};
use std::alloc::{AllocError, Global};
use std::collections::BTreeMap;
use std::marker::Model;

#[derive(Drop)]
pub struct Instances {
    entries: BTreeMap<IntentId, Instance>,
}

impl Model for Instances {
    ghost use Rattle.std.specs.FinMap as map;
    ghost use Rattle.beldi_value.specs.Id.{id_cmp, coded_id};
    ghost use Rattle.beldi_plain.specs.Plain as plain;
    ghost use Rattle.beldi_executor.specs.Codes.{coded_instance};
    ghost use Rattle.beldi_plain.specs.Plain.{AllShort};

    ghost Value = { map.FinMap id_cmp plain.Instance };

    ghost coded = { map.code coded_id coded_instance };

    ghost view = { λ a. map.from_entries a.entries.entries };

    ghost invariant = { λ a. AllShort (map.from_entries a.entries.entries) };
}

impl Instances {
    pub fn new(alloc: Global) -> Instances
        ensures { result ≡ map.empty }
    {
        Instances {
            entries: BTreeMap::new(alloc),
        }
    }

    pub fn get(&self, id: &IntentId) -> Option<&Instance>
        ensures { option_copied result ≡ map.get self.now id.now }
    {
        self.entries.get(id)
    }

    /// Whether what this intent calls at this step was made.
    pub fn has_callee(&self, alloc: Global, id: &IntentId, step: u32) -> Result<bool, AllocError>
        ensures { IfOk result (λ b. b ≡ is_some (map.get self.now (child_of id.now step))) }
    {
        // That the ids in the map are short is known of a map that is looked at.
        let _ = &self.entries;
        if !id.has_callees() {
            return Ok(false);
        }
        let callee = id.child(alloc, step)?;
        Ok(self.get(&callee).is_some())
    }

    pub fn set(&mut self, id: IntentId, instance: Instance) -> Result<(), AllocError>
        requires { length id.hops ≤ 63 }
        ensures ok { OnOk result (self.new ≡ map.insert self.old id instance) }
        ensures err { OnErr result (self.new ≡ self.old) }
    {
        let old = match self.entries.insert(id, instance) {
            Ok(old) => old,
            Err(failed) => {
                drop(failed);
                return Err(AllocError);
            }
        };
        drop(old);
        Ok(())
    }

    /// There is no instance of this id.
    pub fn forget(&mut self, id: &IntentId)
        ensures { self.new ≡ map.remove self.old id.now }
    {
        drop(self.entries.remove(id));
    }

    /// The instance of this id is answered, if it is there.
    pub fn answer(&mut self, id: &IntentId, answer: Answer) -> Result<(), AllocError>
        ensures ok { OnOk result (self.new ≡ at_one self.old id.now (λ q. answered q answer) (map.get self.old id.now)) }
        ensures err { OnErr result (self.new ≡ self.old) }
    {
        let Some(instance) = self.entries.get_mut(id) else {
            drop(answer);
            return Ok(());
        };
        instance.answer(answer)
    }

    /// The instance of this id is answered with a copy of this answer, if it is there.
    pub fn answer_with(
        &mut self,
        alloc: Global,
        id: &IntentId,
        answer: &Answer,
    ) -> Result<(), AllocError>
        ensures ok { OnOk result (self.new ≡ at_one self.old id.now (λ q. answered q answer.now) (map.get self.old id.now)) }
        ensures err { OnErr result (self.new ≡ self.old) }
    {
        let kept = copy_answer(alloc, answer)?;
        self.answer(id, kept)
    }

    /// The instance of this id is answered by the outcome of what it called, if it is there.
    pub fn tell(
        &mut self,
        alloc: Global,
        id: &IntentId,
        outcome: &Outcome,
    ) -> Result<Answer, AllocError>
        ensures ok { IfOk result (λ a. (a ≡ answer_of outcome.now) × (self.new ≡ at_one self.old id.now (λ q. answered q a) (map.get self.old id.now))) }
        ensures err { OnErr result (self.new ≡ self.old) }
    {
        let answer = Answer::of_callee(outcome.copy(alloc)?);
        or_drop!(self.answer_with(alloc, id, &answer); answer);
        Ok(answer)
    }

    /// The instance of this id has these first answers alone, if it is there.
    pub fn cut(&mut self, id: &IntentId, answers: u32)
        ensures { self.new ≡ at_one self.old id.now (cut_to answers) (map.get self.old id.now) }
    {
        let Some(instance) = self.entries.get_mut(id) else {
            return;
        };
        instance.cut(answers);
    }

    /// The instance of this id ends, if it is there.
    pub fn end(&mut self, id: &IntentId, outcome: Outcome)
        ensures { self.new ≡ at_one self.old id.now (λ q. ended q outcome) (map.get self.old id.now) }
    {
        let Some(instance) = self.entries.get_mut(id) else {
            drop(outcome);
            return;
        };
        instance.end(outcome);
    }

    /// The instance of this id makes a read or an operation, and is answered. Where there is none, nothing is made.
    pub fn make(
        &mut self,
        alloc: Global,
        id: &IntentId,
        items: &mut Items,
        effect: &Effect,
    ) -> Result<Option<Answer>, AllocError>
        ensures { (q : Instance) → map.get self.old id.now ≡ Some q → ActedAt items.old items.new self.old self.new id.now q effect.now result }
    {
        let Some(instance) = self.entries.get_mut(id) else {
            return Ok(None);
        };
        instance.make(alloc, items, effect)
    }
}
