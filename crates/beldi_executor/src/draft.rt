// A transaction under way: who goes on in it, who waits, and what it has set and made.
ghost use Rattle.std.specs.Prelude.{◌≡◌, ◌∷◌, ◌++◌, [], IfOk, OnOk, OnErr, length, ◌≤◌};
ghost use Rattle.std.specs.FinMap as map;
ghost use Rattle.beldi_lang.specs.Machine.{resumed};
ghost use Rattle.beldi_executor.specs.TransactionInPlace.{all_gone, Popped};

use crate::instance::Instance;
use crate::instances::Instances;
use crate::undo::Undo;
use beldi_lang::{Answer, Deployment, Machine};
use beldi_value::{IntentId, TxId, or_drop};
use std::alloc::{AllocError, Global};
use std::marker::Model;

/// An instance that has not returned, and its machine.
#[derive(Drop)]
pub struct Actor {
    pub id: IntentId,
    pub func: u16,
    pub machine: Machine,
}

impl Actor {
    /// Its machine goes on from this answer.
    pub fn resume(
        self,
        alloc: Global,
        code: &Deployment,
        answer: Answer,
    ) -> Result<Actor, AllocError>
        ensures { IfOk result (λ a. a ≡ record self { machine = resumed code.now self.machine answer }) }
    {
        let mut actor = self;
        or_drop!(actor.machine.resume(alloc, code, answer); actor);
        Ok(actor)
    }
}

/// What a transaction has set and made since its begin, and who waits in it.
#[derive(Drop)]
pub struct Draft {
    pub tx: TxId,
    pub undo: Undo,
    pub members: Members,
    pub waiting: Waiting,
}

impl Draft {
    /// Of the transaction that an instance stands at the begin of.
    pub fn new(alloc: Global, owner: &Actor) -> Result<Draft, AllocError>
        ensures { IfOk result (λ h. h ≡ record { tx = record { intent = owner.now.id; begin = owner.now.machine.steps; func = owner.now.func }; undo = []; members = []; waiting = [] }) }
    {
        Ok(Draft {
            tx: TxId {
                intent: owner.id.copy(alloc)?,
                begin: owner.machine.steps(),
                func: owner.func,
            },
            undo: Undo::new(alloc),
            members: Members::new(alloc),
            waiting: Waiting::new(alloc),
        })
    }
}

/// The instances that were made since.
#[derive(Drop)]
pub struct Members {
    ids: Vec<IntentId>,
}

impl Model for Members {
    ghost use Rattle.std.specs.Prelude.{List};
    ghost use Rattle.std.specs.Coded.{coded_list};
    ghost use Rattle.beldi_value.specs.Id.{coded_id};
    ghost use Rattle.beldi_value.specs.declared.id.IntentId.{IntentId};

    ghost Value = { List IntentId };

    ghost coded = { coded_list coded_id };

    ghost view = { λ a. a.ids.items };
}

impl Members {
    pub fn new(alloc: Global) -> Members
        ensures { result ≡ [] }
    {
        Members {
            ids: Vec::new(alloc),
        }
    }

    /// An instance is made.
    pub fn make(
        &mut self,
        alloc: Global,
        made: &mut Instances,
        id: &IntentId,
        instance: Instance,
    ) -> Result<(), AllocError>
        requires { length id.now.hops ≤ 63 }
        ensures ok { OnOk result ((made.new ≡ map.insert made.old id.now instance) × (self.new ≡ self.old ++ id.now ∷ [])) }
        ensures err { OnErr result ((made.new ≡ made.old) × (self.new ≡ self.old)) }
    {
        or_drop!(self.ids.reserve(1); instance);
        let kept = or_drop!(id.copy(alloc); instance);
        let id = or_drop!(id.copy(alloc); instance, kept);
        or_drop!(made.set(id, instance); kept);
        self.ids.push_reserved(kept);
        Ok(())
    }

    /// There are none of them.
    pub fn forget(self, made: &mut Instances)
        ensures { made.new ≡ all_gone made.old self }
    {
        let mut ids = self.ids;
        while let Some(id) = ids.pop() {
            made.forget(&id);
            drop(id);
        }
    }
}

/// Who waits, each for the one before it: the one that was called last is first.
#[derive(Drop)]
pub struct Waiting {
    actors: Vec<Actor>,
}

impl Model for Waiting {
    ghost use Rattle.std.specs.Prelude.{List, reverse};
    ghost use Rattle.std.specs.Coded.{coded_list};
    ghost use Rattle.beldi_executor.specs.declared.draft.Actor.{Actor};
    ghost use Rattle.beldi_executor.specs.contracts.draft.Actor as actor;

    ghost Value = { List Actor };

    ghost coded = { coded_list actor.the_row.coded };

    ghost view = { λ a. reverse a.actors.items };
}

impl Waiting {
    pub fn new(alloc: Global) -> Waiting
        ensures { result ≡ [] }
    {
        Waiting {
            actors: Vec::new(alloc),
        }
    }

    pub fn push(&mut self, actor: Actor) -> Result<(), AllocError>
        ensures ok { OnOk result (self.new ≡ actor ∷ self.old) }
        ensures err { OnErr result (self.new ≡ self.old) }
    {
        self.actors.push(actor)?;
        Ok(())
    }

    pub fn pop(&mut self) -> Option<Actor>
        ensures { Popped self.old self.new result }
    {
        self.actors.pop()
    }
}
