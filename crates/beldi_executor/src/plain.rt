// The executor of the plain machine.
ghost use Rattle.std.specs.Prelude.{◌≡◌, ◌++◌, Some, OnOk, OnErr, IfSome, option_copied};
ghost use Rattle.std.specs.FinMap as map;
ghost use Rattle.beldi_book.specs.declared.entry.Entry.TheVariants.{Start, CommittedTx, AbortedTx};
ghost use Rattle.beldi_book.specs.LinearOrder.{linear};
ghost use Rattle.beldi_plain.specs.Plain.{Instance, nothing, value_at, reply_of, step_by};
ghost use Rattle.beldi_executor.specs.Answers.{Did, DidStep, Entered, Ran, IsReady, Makes, StandsAt, StandsFree};
ghost use Rattle.beldi_executor.specs.declared.plain.PlainErr.TheVariants.{OutOfMemory};
ghost use Rattle.beldi_executor.specs.TransactionInPlace.{StandsAtBegin};
ghost use Rattle.beldi_plain.specs.Listing.{listing_of};

use crate::instance::Instance;
use crate::kind::{is_entered, is_made, kind_of};
use crate::machines::Machines;
use crate::state::State;
use beldi_book::{Book, Entry};
use beldi_check::Checked;
use beldi_lang::{Effect, Machine};
use beldi_value::{Boxed, IntentId, Outcome, Place, Str, TextBuf, Value, or_drop};
use std::alloc::{AllocError, Global};
use std::marker::Model;
use thiserror::Error;

/// Why a call was refused.
#[derive(Clone, Copy, Debug, Error, PartialEq, Eq)]
pub enum PlainErr {
    #[error("out of memory")]
    OutOfMemory,
    #[error("the entry is not enabled")]
    NotEnabled(Bar),
}

impl From<AllocError> for PlainErr {
    ghost from_gives = { λ _ e. e ≡ OutOfMemory };

    fn from(_error: AllocError) -> PlainErr {
        PlainErr::OutOfMemory
    }
}

/// Why an entry is not enabled.
#[derive(Clone, Copy, Debug, PartialEq, Eq)]
pub enum Bar {
    /// The root was made, or the ticket is 0.
    AlreadyStarted,
    /// There is no such instance.
    NotStarted,
    /// The instance has returned.
    Over,
    /// The instance waits for a callee, which has not returned; or it stands at an asynchronous call whose callee is there.
    Waiting,
    /// The entry is a read, and the instance does not stand at one; or it is a step, and it stands at a read, at the begin of a
    /// transaction or in one, or at a call whose callee would have no id; or it is a transaction, and the instance does not stand at its begin.
    OtherEffect,
    /// The transaction does not reach an end with commit.
    NoEnd,
    /// The transaction does not reach the place where it aborted, or nothing is aborted there.
    NoPlace,
    /// The holder that the transaction died of was not made, or is not older than its instance.
    NotOlder,
}

/// The plain state, and the machines of its instances as far as there was memory to keep them.
#[derive(Drop)]
pub struct Plain<'a> {
    alloc: Global,
    code: &'a Checked,
    state: State,
    machines: Machines,
}

impl<'a> Model for Plain<'a> {
    ghost use Rattle.beldi_executor.specs.Executor.{Executor, AllStand};
    ghost use Rattle.beldi_executor.specs.Codes.{coded_executor};

    ghost Value = { Executor };

    ghost coded = { coded_executor };

    ghost view = { λ a. record { code = a.code.now; state = a.state } };

    ghost invariant = { λ a. AllStand a.code.now a.state.made a.machines };
}

impl<'a> Plain<'a> {
    /// Neither items nor instances. It runs the bodies of this deployment.
    pub fn new(alloc: Global, code: &'a Checked) -> Plain<'a>
        ensures { result ≡ record { code = code.now; state = nothing } }
    {
        Plain {
            alloc,
            code,
            state: State::new(alloc),
            machines: Machines::new(alloc),
        }
    }

    /// Starts the root of a ticket. Tickets begin at 1.
    pub fn start(&mut self, ticket: u32, func: u16, args: Value) -> Result<(), PlainErr>
        ensures code { self.new.code ≡ self.old.code }
        ensures did { Did self.old.code (Start ticket func args) self.old.state self.new.state result }
    {
        let id = IntentId::root(ticket);
        if ticket == 0 || self.state.instance(&id).is_some() {
            drop(id);
            drop(args);
            return Err(PlainErr::NotEnabled(Bar::AlreadyStarted));
        }
        self.state
            .set_instance(id, Instance::new(self.alloc, func, args, None))?;
        Ok(())
    }

    /// Makes the next step of an instance, whatever it is, but for effects of transactions, which are carried out whole, and for a call
    /// whose callee would have no id.
    pub fn step(&mut self, id: &IntentId) -> Result<(), PlainErr>
        ensures code { self.new.code ≡ self.old.code }
        ensures did { DidStep self.old.code id.now self.old.state self.new.state result }
    {
        let id = id.copy(self.alloc)?;
        let machine = match self.machine(&id) {
            Ok(machine) => machine,
            Err(why) => {
                drop(id);
                return Err(why);
            }
        };
        if !is_made(kind_of(&id, machine.wants())) {
            self.keep(id, machine);
            return Err(PlainErr::NotEnabled(Bar::OtherEffect));
        }
        self.make(id, machine)?;
        Ok(())
    }

    // Makes the next step of an instance, where it is a read or else where it is a change, as `reads` says.
    fn enter(&mut self, id: &IntentId, reads: bool) -> Result<(), PlainErr>
        ensures code { self.new.code ≡ self.old.code }
        ensures did { Entered self.old.code id.now reads self.old.state self.new.state result }
    {
        let id = id.copy(self.alloc)?;
        let machine = match self.machine(&id) {
            Ok(machine) => machine,
            Err(why) => {
                drop(id);
                return Err(why);
            }
        };
        if !is_entered(kind_of(&id, machine.wants()), reads) {
            self.keep(id, machine);
            return Err(PlainErr::NotEnabled(Bar::OtherEffect));
        }
        self.make(id, machine)?;
        Ok(())
    }

    // The machine of an instance that has not returned, and does not wait.
    fn machine(&mut self, id: &IntentId) -> Result<Machine, PlainErr>
        ensures same { self.new ≡ self.old }
        ensures stands { StandsFree self.old.code self.old.state id.now result }
    {
        let machine = self.open(id)?;
        let waits = match self
            .state
            .waits(self.alloc, id, machine.steps(), machine.wants())
        {
            Ok(waits) => waits,
            Err(error) => {
                drop(machine);
                return Err(error.into());
            }
        };
        if waits {
            let id = or_drop!(id.copy(self.alloc); machine);
            self.keep(id, machine);
            return Err(PlainErr::NotEnabled(Bar::Waiting));
        }
        Ok(machine)
    }

    // The machine of an instance that has not returned: the one that is kept, or else one that its answers lead anew.
    fn open(&mut self, id: &IntentId) -> Result<Machine, PlainErr>
        ensures same { self.new ≡ self.old }
        ensures stands { StandsAt self.old.code self.old.state id.now result }
    {
        match self.take(id) {
            Some(machine) => Ok(machine),
            None => self.lead(id),
        }
    }

    // Takes the machine out that is kept for an instance.
    fn take(&mut self, id: &IntentId) -> Option<Machine>
        ensures same { self.new ≡ self.old }
        ensures stands { IfSome result (λ m. IsReady self.old.code self.old.state id.now m) }
    {
        self.machines.take(id)
    }

    // Runs the body of an instance that has not returned from its start.
    fn lead(&self, id: &IntentId) -> Result<Machine, PlainErr>
        ensures { StandsAt self.now.code self.now.state id.now result }
    {
        let found = match self.state.instance(id) {
            Some(found) => found,
            None => return Err(PlainErr::NotEnabled(Bar::NotStarted)),
        };
        if found.outcome().is_some() {
            return Err(PlainErr::NotEnabled(Bar::Over));
        }
        Ok(found.machine(self.alloc, self.code.code())?)
    }

    // Keeps the machine of an instance, where there is memory.
    fn keep(&mut self, id: IntentId, machine: Machine)
        requires { IsReady self.old.code self.old.state id machine }
        ensures { self.new ≡ self.old }
    {
        self.machines.keep(id, machine);
    }

    // The effect that the machine wants is made, and the machines go on.
    fn make(&mut self, id: IntentId, machine: Machine) -> Result<(), AllocError>
        requires { Makes self.old.code self.old.state id machine }
        ensures code { self.new.code ≡ self.old.code }
        ensures ok { (q : Instance) → map.get self.old.state.made id ≡ Some q → OnOk result (self.new.state ≡ step_by self.old.state id q machine.effect) }
        ensures err { OnErr result (self.new.state ≡ self.old.state) }
    {
        let made = self
            .state
            .make(self.alloc, &id, machine.steps(), machine.wants());
        let next = match made {
            Ok(next) => next,
            Err(error) => {
                drop(id);
                drop(machine);
                return Err(error);
            }
        };
        self.machines
            .follow(self.alloc, self.code.code(), id, machine, next);
        Ok(())
    }

    /// Carries out an entry of a book.
    pub fn carry_out(&mut self, entry: &Entry) -> Result<(), PlainErr>
        ensures code { self.new.code ≡ self.old.code }
        ensures did { Did self.old.code entry.now self.old.state self.new.state result }
    {
        match entry {
            Entry::Start { ticket, func, args } => {
                self.start(*ticket, *func, args.copy(self.alloc)?)
            }
            Entry::Read { id, .. } => self.enter(id, true),
            Entry::Step { id } => self.enter(id, false),
            Entry::CommittedTx { id } => self.commit_tx(id),
            Entry::AbortedTx { id, place, holder } => self.abort_tx(id, place.get(), lent(holder)),
        }
    }

    /// Carries out the transaction of an instance that stands at its begin, as one step up to its end with commit.
    pub fn commit_tx(&mut self, id: &IntentId) -> Result<(), PlainErr>
        ensures code { self.new.code ≡ self.old.code }
        ensures did { Did self.old.code (CommittedTx id.now) self.old.state self.new.state result }
    {
        let id = id.copy(self.alloc)?;
        let machine = match self.begin(&id) {
            Ok(machine) => machine,
            Err(why) => {
                drop(id);
                return Err(why);
            }
        };
        let owner = self
            .state
            .commit_tx(self.alloc, self.code.code(), id, machine)?;
        self.machines.keep(owner.id, owner.machine);
        Ok(())
    }

    /// Carries out the transaction of an instance that stands at its begin, as one step up to this place, where it aborts: by itself
    /// or by a fault, or as this holder has the lock. Nothing that it wrote is left.
    pub fn abort_tx(
        &mut self,
        id: &IntentId,
        place: &Place,
        holder: Option<&IntentId>,
    ) -> Result<(), PlainErr>
        ensures code { self.new.code ≡ self.old.code }
        ensures did { Did self.old.code (AbortedTx id.now place.now (option_copied holder.entry)) self.old.state self.new.state result }
    {
        let id = id.copy(self.alloc)?;
        let machine = match self.begin(&id) {
            Ok(machine) => machine,
            Err(why) => {
                drop(id);
                return Err(why);
            }
        };
        let owner = self
            .state
            .abort_tx(self.alloc, self.code.code(), id, machine, place, holder)?;
        self.machines.keep(owner.id, owner.machine);
        Ok(())
    }

    // The machine of an instance that stands at the begin of a transaction.
    fn begin(&mut self, id: &IntentId) -> Result<Machine, PlainErr>
        ensures same { self.new ≡ self.old }
        ensures stands { StandsAtBegin self.old.code self.old.state id.now result }
    {
        let machine = match self.machine(id) {
            Ok(machine) => machine,
            Err(why) => return Err(why),
        };
        if !matches!(machine.wants(), Effect::Begin) {
            drop(machine);
            return Err(PlainErr::NotEnabled(Bar::OtherEffect));
        }
        Ok(machine)
    }

    /// Carries out the entries of a book in the order in which they took effect, up to the first that is not enabled.
    pub fn run(&mut self, book: &Book) -> Result<(), PlainErr>
        ensures code { self.new.code ≡ self.old.code }
        ensures ran { Ran self.old.code (linear book.now.entries) self.old.state self.new.state result }
    {
        let order = book.linear(self.alloc)?;
        self.run_in_order(&order)
    }

    // Carries out these entries as they stand.
    fn run_in_order(&mut self, order: &Book) -> Result<(), PlainErr>
        ensures code { self.new.code ≡ self.old.code }
        ensures ran { Ran self.old.code order.now.entries self.old.state self.new.state result }
    {
        for at in 0..order.len() {
            match order.get(at) {
                Some(entry) => match self.carry_out(entry) {
                    Ok(()) => (),
                    Err(why) => return Err(why),
                },
                None => unreachable!(),
            }
        }
        Ok(())
    }

    /// The outcome of a ticket's root, where it has one.
    pub fn reply(&self, ticket: u32) -> Option<&Outcome>
        ensures { option_copied result ≡ reply_of self.now.state ticket }
    {
        match self.state.instance(&IntentId::root(ticket)) {
            Some(instance) => instance.outcome(),
            None => None,
        }
    }

    /// Appends a line for each item that is not null.
    pub fn tables(&self, out: &mut TextBuf) -> Result<(), AllocError>
        ensures ok { OnOk result (out.new ≡ out.old ++ listing_of self.now.code self.now.state) }
        ensures err { OnErr result (out.new ≡ out.old) }
    {
        self.state.write(self.alloc, self.code.code(), out)
    }

    /// The value of an item, null where it was never set.
    pub fn value(&self, func: u16, table: u16, key: &Str) -> &Value
        ensures { result.now ≡ value_at self.now.state (record { func = func; table = table; key = key.now }) }
    {
        self.state.value(func, table, key)
    }
}

fn lent(holder: &Option<Boxed<IntentId>>) -> Option<&IntentId>
    ensures { option_copied result ≡ holder.now }
{
    match holder {
        Some(holder) => Some(holder.get()),
        None => None,
    }
}
