// The machines of instances that have not returned, as far as they are kept.
ghost use Rattle.std.specs.Prelude.{◌≡◌};
ghost use Rattle.std.specs.FinMap as map;
ghost use Rattle.beldi_lang.specs.Machine.{resumed};
ghost use Rattle.beldi_executor.specs.Executor.{IsKept, Passes, Follows};

use crate::instance::is_answered;
use crate::next::Next;
use beldi_lang::{Answer, Deployment, Machine};
use beldi_value::IntentId;
use std::alloc::Global;
use std::collections::BTreeMap;
use std::marker::Model;

#[derive(Drop)]
pub struct Machines {
    entries: BTreeMap<IntentId, Machine>,
}

impl Model for Machines {
    ghost use Rattle.std.specs.FinMap as map;
    ghost use Rattle.beldi_value.specs.Id.{id_cmp, coded_id};
    ghost use Rattle.beldi_lang.specs.declared.machine.Machine.{Machine};
    ghost use Rattle.beldi_lang.specs.contracts.machine.Machine as machine;

    ghost Value = { map.FinMap id_cmp Machine };

    ghost coded = { map.code coded_id machine.the_row.coded };

    ghost view = { λ a. map.from_entries a.entries.entries };
}

impl Machines {
    pub fn new(alloc: Global) -> Machines
        ensures { result ≡ map.empty }
    {
        Machines {
            entries: BTreeMap::new(alloc),
        }
    }

    // Takes the machine of this id out.
    pub fn take(&mut self, id: &IntentId) -> Option<Machine>
        ensures machine { result ≡ map.get self.old id.now }
        ensures rest { self.new ≡ map.remove self.old id.now }
    {
        self.entries.remove(id)
    }

    // Keeps a machine, where there is memory.
    pub fn keep(&mut self, id: IntentId, machine: Machine)
        ensures { IsKept self.old self.new id machine }
    {
        match self.entries.insert(id, machine) {
            Ok(old) => drop(old),
            Err(failed) => drop(failed),
        }
    }

    // No machine of this id is kept.
    fn forget(&mut self, id: &IntentId)
        ensures { self.new ≡ map.remove self.old id.now }
    {
        drop(self.take(id));
    }

    // The machine of an instance that ended is not kept.
    fn end(&mut self, id: IntentId, machine: Machine)
        ensures { self.new ≡ map.remove self.old id }
    {
        drop(machine);
        self.forget(&id);
    }

    // The machine goes on from this answer, and is kept where there is memory.
    fn go_on(
        &mut self,
        alloc: Global,
        code: &Deployment,
        id: IntentId,
        machine: Machine,
        answer: Answer,
    )
        ensures { IsKept self.old self.new id (resumed code.now machine answer) }
    {
        let mut machine = machine;
        match machine.resume(alloc, code, answer) {
            Ok(()) => self.keep(id, machine),
            Err(_) => self.end(id, machine),
        }
    }

    // The machine that is kept for who is answered goes on.
    fn answer(&mut self, alloc: Global, code: &Deployment, id: IntentId, answer: Answer)
        ensures { Passes code.now self.old self.new id answer }
    {
        let Some(machine) = self.take(&id) else {
            drop(id);
            drop(answer);
            return;
        };
        if is_answered(machine.wants()) {
            self.go_on(alloc, code, id, machine, answer);
        } else {
            drop(id);
            drop(machine);
            drop(answer);
        }
    }

    // Follows a step of the machine that stood for this instance.
    pub fn follow(
        &mut self,
        alloc: Global,
        code: &Deployment,
        id: IntentId,
        machine: Machine,
        next: Next,
    )
        ensures { Follows code.now self.old self.new id machine next }
    {
        match next {
            Next::Answered(answer) => self.go_on(alloc, code, id, machine, answer),
            Next::Stays => self.keep(id, machine),
            Next::Ended => self.end(id, machine),
            Next::Tells(waiter, answer) => {
                self.end(id, machine);
                self.answer(alloc, code, waiter, answer);
            }
        }
    }
}
