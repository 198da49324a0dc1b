// What an event that is no turn asks of the table, and what follows of what the table told. Nothing here touches a table.
ghost use Rattle.std.specs.Prelude.{◌≡◌, ◌-◌, ◌≤◌, ◌<◌, ◌^◌, Ok, None, IfOk, OnOk, OnErr};
ghost use Rattle.std.specs.FinMap as map;
ghost use Rattle.beldi_query.specs.Query.{query_reply_of};
ghost use Rattle.beldi_intent.specs.Intent.{bind_asks};
ghost use Rattle.beldi_step.specs.declared.event.Event.TheVariants as events;
ghost use Rattle.beldi_tree.specs.declared.deployment.Deployment.{Deployment};
ghost use Rattle.beldi_step.specs.HostStep.{collected as collected_of, launched, passed, Core, Followed, immediate, asks, crash_plan, tick_plan, new_run as new_run_of, no_run as no_run_of, refused, refused_by, ticket_next, unbound, is_halt, halt_next};
ghost use Rattle.beldi_core.specs.declared.events.Planned.TheVariants as planned;
ghost use Rattle.beldi_core.specs.PlannedEvent.{as_reply, core_in, declined_reply, Planned as IsPlanned, PlannedBy, PlannedOf, Ready, HasPlace, event_of, base, BoundBy, turn_in};

use crate::host_core::HostCore;
use crate::runs::Copies;
use crate::turns::TurnPlan;
use beldi_book::Entry;
use beldi_collect::{Found, collect_query, collect_told};
use beldi_intent::{Binding, bind_query, bind_told, issue_query, issue_told};
use beldi_lang::Deployment;
use beldi_prune::Collectors;
use beldi_query::{Query, QueryReplyRef};
use beldi_row::{RowKey, TableErr};
use beldi_step::{Event, EventReply, Run, RunAt};
use beldi_value::{Boxed, IntentId, Value, or_drop};
use std::alloc::AllocError;
use std::mem::replace;

/// How many events a host takes.
pub const MOST_EVENTS: u64 = 1 << 62;

pub(crate) const MOST_RUNS: usize = 1024;

/// The last moment of a host, in ticks.
pub const LAST_MOMENT: u64 = 1 << 62;

/// An event that asked something of the table, and what it needs for the answer.
#[derive(Drop)]
pub enum Pending {
    Ticket,
    Request { ticket: u32, func: u16, args: Value },
    Lost(u64, Copies),
    Ic,
}

/// Why a turn is not made.
#[derive(Clone, Copy)]
pub enum Declined {
    Spent,
    Expired,
    NoRun,
    RunOver,
    Shut,
}

impl Declined {
    /// The same answer, as all events are answered.
    pub fn into_reply(self) -> EventReply
        ensures { result ≡ declined_reply self }
    {
        match self {
            Declined::Spent => EventReply::Spent,
            Declined::Expired => EventReply::Expired,
            Declined::NoRun => EventReply::NoRun,
            Declined::RunOver => EventReply::RunOver,
            Declined::Shut => EventReply::Shut,
        }
    }
}

/// The answer to an event that asks nothing: one of those of `EventReply` that have no long parts.
#[derive(Drop)]
pub enum Immediate {
    NoTicket,
    Unknown(u32),
    Crowded,
    Declined(Declined),
    Crashed,
    Started(u64),
    Now(u64),
    ClockEnd,
}

impl Immediate {
    /// The same answer, as all events are answered.
    pub fn into_reply(self) -> EventReply
        ensures { result ≡ as_reply self }
    {
        match self {
            Immediate::NoTicket => EventReply::NoTicket,
            Immediate::Unknown(ticket) => EventReply::Unknown(ticket),
            Immediate::Crowded => EventReply::Crowded,
            Immediate::Declined(why) => why.into_reply(),
            Immediate::Crashed => EventReply::Crashed,
            Immediate::Started(run) => EventReply::Started(run),
            Immediate::Now(moment) => EventReply::Now(moment),
            Immediate::ClockEnd => EventReply::ClockEnd,
        }
    }
}

/// What comes of an event before the table is asked.
#[derive(Drop)]
pub enum Planned {
    /// It is answered.
    Now(Immediate),
    /// It asks this.
    Asks(Boxed<Query>, Pending),
    /// It is a halt, which reads the keys of all rows.
    ReadsAll,
}

/// The run that is given a turn, if the event is one.
pub fn turn_in(event: &Event) -> Option<u64>
    ensures { result ≡ turn_in event.now }
{
    match event {
        Event::Turn(run) => Some(*run),
        _ => None,
    }
}

fn is_halt(event: &Event) -> bool
    ensures { result ≡ is_halt event.now }
{
    matches!(event, Event::Halt)
}

// An error of the table, as an event is answered.
pub(crate) fn refuse(why: TableErr) -> Result<EventReply, AllocError>
    ensures { result ≡ refused_by why }
{
    match why {
        TableErr::OutOfMemory => Err(AllocError),
        TableErr::Failed => Ok(EventReply::Dropped),
        TableErr::Full { live, room } => Ok(EventReply::Full { live, room }),
    }
}

// What is said of a number that no live run has, where so many were given.
pub(crate) fn no_run(run: u64, given: u64) -> Declined
    ensures { (c : Core) → c.last_run ≡ given → declined_reply result ≡ no_run_of c run }
{
    if run == 0 || run > given {
        Declined::NoRun
    } else {
        Declined::RunOver
    }
}

fn not_bound(ticket: u32, binding: Binding) -> EventReply
    ensures { result ≡ unbound ticket binding }
{
    match binding {
        Binding::Running => EventReply::Running(ticket),
        Binding::Other { func, args } => EventReply::Other { ticket, func, args },
        Binding::Ended(outcome) => EventReply::Replied { ticket, outcome },
        Binding::Bound | Binding::Gone => EventReply::Gone(ticket),
    }
}

impl HostCore {
    /// What an event that is no turn asks of a table, or its answer. It makes the places that the answer will need; what the definition
    /// sees is as it was, but that the event was counted. Out of memory, a run that had the event is over.
    pub fn plan(&mut self, code: &Deployment, event: Event) -> Result<Planned, AllocError>
        requires { turn_in event ≡ None }
        ensures { IsPlanned code.now event (core_in self.old) (core_in self.new) self.new.book.spare result }
    {
        if self.taken >= MOST_EVENTS {
            return Ok(Planned::Now(Immediate::Declined(Declined::Spent)));
        }
        self.taken += 1;
        if self.shut && !is_halt(&event) {
            drop(event);
            return Ok(Planned::Now(Immediate::Declined(Declined::Shut)));
        }
        self.plan_counted(code, event)
    }

    // What an event asks that was counted.
    fn plan_counted(&mut self, code: &Deployment, event: Event) -> Result<Planned, AllocError>
        requires no_turn { turn_in event ≡ None }
        requires given { self.old.runs.given < self.old.taken }
        ensures { PlannedOf code.now event (core_in self.old) (core_in self.new) self.new.book.spare result }
    {
        match event {
            Event::Ticket => return self.plan_ticket(),
            Event::Request { ticket, func, args } => {
                return self.plan_request(code, ticket, func, args);
            }
            Event::Turn(_) => unreachable!(),
            Event::Lost(run) => return self.plan_lost(run),
            Event::Crash(run) => return Ok(Planned::Now(self.crash(run))),
            Event::Restart { id, func } => return self.restart(code, id, func),
            Event::Tick(ticks) => return Ok(Planned::Now(self.tick(ticks))),
            Event::Ic => return self.plan_ic(),
            Event::Halt => return Ok(Planned::ReadsAll),
        }
    }

    fn plan_ticket(&mut self) -> Result<Planned, AllocError>
        ensures { (d : Deployment) → PlannedOf d events.Ticket (core_in self.old) (core_in self.new) self.new.book.spare result }
    {
        if self.newest == u32::MAX {
            return Ok(Planned::Now(Immediate::NoTicket));
        }
        let query = issue_query(self.alloc, self.newest + 1)?;
        Ok(Planned::Asks(query, Pending::Ticket))
    }

    // A turn whose answer is lost.
    fn plan_lost(&mut self, run: u64) -> Result<Planned, AllocError>
        requires given { self.old.runs.given < self.old.taken }
        ensures { (d : Deployment) → PlannedOf d (events.Lost run) (core_in self.old) (core_in self.new) self.new.book.spare result }
    {
        match self.ask_run(run) {
            Ok(TurnPlan::Declined(why)) => Ok(Planned::Now(Immediate::Declined(why))),
            Ok(TurnPlan::Asks(query, copies)) => {
                Ok(Planned::Asks(query, Pending::Lost(run, copies)))
            }
            Err(why) => Err(why),
        }
    }

    fn plan_ic(&mut self) -> Result<Planned, AllocError>
        requires given { self.old.runs.given < self.old.taken }
        ensures { (d : Deployment) → PlannedOf d events.Ic (core_in self.old) (core_in self.new) self.new.book.spare result }
    {
        let query = collect_query(self.alloc, &self.cursor)?;
        Ok(Planned::Asks(query, Pending::Ic))
    }

    fn plan_request(
        &mut self,
        code: &Deployment,
        ticket: u32,
        func: u16,
        args: Value,
    ) -> Result<Planned, AllocError>
        requires given { self.old.runs.given < self.old.taken }
        ensures { PlannedOf code.now (events.Request ticket func args) (core_in self.old) (core_in self.new) self.new.book.spare result }
    {
        if ticket == 0 || ticket > self.newest {
            drop(args);
            return Ok(Planned::Now(Immediate::Unknown(ticket)));
        }
        if self.runs.len() >= MOST_RUNS {
            drop(args);
            return Ok(Planned::Now(Immediate::Crowded));
        }
        self.ask_request(code, ticket, func, args)
    }

    // A request has its run's place while it waits for its answer.
    fn ask_request(
        &mut self,
        code: &Deployment,
        ticket: u32,
        func: u16,
        args: Value,
    ) -> Result<Planned, AllocError>
        requires given { self.old.runs.given < self.old.taken }
        ensures { PlannedBy code.now (events.Request ticket func args) (core_in self.old) (core_in self.new) self.new.book.spare (asks (bind_asks ticket func args)) result }
    {
        let query = or_drop!(self.request_query(ticket, func, &args); args);
        let run = or_drop!(self.new_run(code, IntentId::root(ticket), func); args, query);
        or_drop!(self.runs.start(self.alloc, run); args, query);
        Ok(Planned::Asks(query, Pending::Request { ticket, func, args }))
    }

    // What a request asks. A place in the book is taken for its entry.
    fn request_query(
        &mut self,
        ticket: u32,
        func: u16,
        args: &Value,
    ) -> Result<Boxed<Query>, AllocError>
        ensures query { IfOk result (λ q. q ≡ bind_asks ticket func args.now) }
        ensures room { OnOk result (1 ≤ self.new.book.spare) }
        ensures core { core_in self.new ≡ core_in self.old }
    {
        self.book.reserve()?;
        bind_query(self.alloc, ticket, func, args.copy(self.alloc)?)
    }

    // A run of an intent, which may act for the deployment's life from now on.
    fn new_run(&self, code: &Deployment, id: IntentId, func: u16) -> Result<Boxed<Run>, AllocError>
        ensures { IfOk result (λ r. r ≡ new_run_of code.now (core_in self.entry.now) id func) }
    {
        let run = Run {
            id,
            func,
            deadline: self.now.saturating_add(code.life),
            at: RunAt::Looks,
        };
        Boxed::new(self.alloc, run)
    }

    // Ends a run between two turns.
    fn crash(&mut self, run: u64) -> Immediate
        ensures { immediate (core_in self.new) (as_reply result) ≡ crash_plan (core_in self.old) run (map.get self.old.runs.runs run) }
    {
        let Some(found) = self.runs.get(run) else {
            return Immediate::Declined(no_run(run, self.runs.given()));
        };
        let late = self.now > found.deadline;
        self.runs.remove(run);
        if late {
            Immediate::Declined(Declined::Expired)
        } else {
            Immediate::Crashed
        }
    }

    // So many ticks pass, if the moment stays at most the last one.
    fn tick(&mut self, ticks: u64) -> Immediate
        ensures { immediate (core_in self.new) (as_reply result) ≡ tick_plan (core_in self.old) ticks }
    {
        if ticks > LAST_MOMENT - self.now {
            return Immediate::ClockEnd;
        }
        self.now += ticks;
        Immediate::Now(self.now)
    }

    // Starts another run of an intent.
    fn restart(&mut self, code: &Deployment, id: IntentId, func: u16) -> Result<Planned, AllocError>
        requires given { self.old.runs.given < self.old.taken }
        ensures { PlannedOf code.now (events.Restart id func) (core_in self.old) (core_in self.new) self.new.book.spare result }
    {
        if self.runs.len() >= MOST_RUNS {
            return Ok(Planned::Now(Immediate::Crowded));
        }
        let run = self.new_run(code, id, func)?;
        Ok(Planned::Now(Immediate::Started(self.runs.start(self.alloc, run)?)))
    }

    /// What follows of an event where the table told.
    pub fn resume(
        &mut self,
        code: &Deployment,
        pending: Pending,
        heard: QueryReplyRef<'_>,
    ) -> Result<EventReply, AllocError>
        requires { Ready code.now pending (core_in self.old) self.old.book.spare }
        ensures { Followed code.now (event_of pending) (base (event_of pending) (core_in self.old)) (Ok (query_reply_of heard.entry)) (core_in self.new) result }
    {
        // An answer that is returned is written once, and as the value of an arm twice.
        match pending {
            Pending::Ticket => return Ok(self.issued(issue_told(heard))),
            Pending::Request { ticket, func, args } => return self.bound(ticket, func, args, heard),
            Pending::Lost(run, copies) => return Ok(self.unheard(code, run, copies, heard)),
            Pending::Ic => return self.collected(code, heard),
        }
    }

    /// What follows of an event where the table refused.
    pub fn refused(&mut self, pending: Pending, why: TableErr) -> Result<EventReply, AllocError>
        requires { HasPlace pending (core_in self.old) }
        ensures { (core_in self.new, result) ≡ refused (event_of pending) (base (event_of pending) (core_in self.old)) why }
    {
        match pending {
            Pending::Ticket | Pending::Ic => refuse(why),
            Pending::Request {
                ticket: _,
                func: _,
                args,
            } => {
                drop(args);
                self.runs.withdraw();
                refuse(why)
            }
            Pending::Lost(run, copies) => {
                drop(copies);
                self.runs.remove(run);
                match why {
                    TableErr::OutOfMemory => Err(AllocError),
                    _ => Ok(EventReply::Dropped),
                }
            }
        }
    }

    /// What follows of a halt, by the newest ticket that was read, or by what the reading met.
    pub fn halted(&mut self, read: Result<u32, TableErr>) -> Result<EventReply, AllocError>
        ensures { (core_in self.new, result) ≡ halt_next (core_in self.old) read }
    {
        self.runs.clear(self.alloc);
        drop(replace(&mut self.cursor, RowKey::least()));
        drop(replace(&mut self.collectors, Collectors::new(self.alloc)));
        match read {
            Ok(newest) => {
                self.newest = newest;
                self.shut = false;
                Ok(EventReply::Halted)
            }
            Err(TableErr::OutOfMemory) => Err(AllocError),
            Err(_) => {
                self.shut = true;
                Ok(EventReply::Dropped)
            }
        }
    }

    fn issued(&mut self, added: bool) -> EventReply
        requires { self.old.newest < 2 ^ 32 - 1 }
        ensures { (core_in self.new, result) ≡ ticket_next (core_in self.old) added }
    {
        let ticket = self.newest + 1;
        if added {
            self.newest = ticket;
            EventReply::Issued(ticket)
        } else {
            EventReply::Gone(ticket)
        }
    }

    // The run was started, and stays where the root was bound now.
    fn bound(
        &mut self,
        ticket: u32,
        func: u16,
        args: Value,
        heard: QueryReplyRef<'_>,
    ) -> Result<EventReply, AllocError>
        requires spare { 1 ≤ self.old.book.spare }
        requires given { 1 ≤ self.old.runs.given }
        ensures { BoundBy (core_in self.old) ticket func args (query_reply_of heard.entry) (core_in self.new) result }
    {
        match bind_told(self.alloc, heard) {
            Ok(Binding::Bound) => {
                self.book.push(Entry::Start { ticket, func, args });
                Ok(EventReply::Bound {
                    ticket,
                    run: self.runs.given(),
                })
            }
            Ok(binding) => {
                drop(args);
                self.runs.withdraw();
                Ok(not_bound(ticket, binding))
            }
            Err(why) => {
                drop(args);
                self.runs.withdraw();
                Err(why)
            }
        }
    }

    // What follows of what the intent collector found.
    fn collected(
        &mut self,
        code: &Deployment,
        heard: QueryReplyRef<'_>,
    ) -> Result<EventReply, AllocError>
        requires given { self.old.runs.given < self.old.taken }
        ensures { Followed code.now events.Ic (core_in self.old) (Ok (query_reply_of heard.entry)) (core_in self.new) result }
    {
        match collect_told(self.alloc, heard)? {
            Found::Round => {
                self.go_to(RowKey::least());
                Ok(EventReply::Round)
            }
            Found::Passed(key) => Ok(self.pass(key)),
            Found::Unended { key, id, func } => self.launch(code, key, id, func),
        }
    }

    // The intent collector stands at this key.
    fn go_to(&mut self, key: RowKey)
        ensures { core_in self.new ≡ record (core_in self.old) { cursor = key } }
    {
        self.cursor = key;
    }

    fn pass(&mut self, key: RowKey) -> EventReply
        ensures { (core_in self.new, result) ≡ passed (core_in self.old) key }
    {
        self.go_to(key);
        EventReply::Passed
    }

    // Launches a run of an intent that has not ended, where it has none and there is a place for one.
    fn launch(
        &mut self,
        code: &Deployment,
        key: RowKey,
        id: IntentId,
        func: u16,
    ) -> Result<EventReply, AllocError>
        requires given { self.old.runs.given < self.old.taken }
        ensures ok { IfOk result (λ x. (core_in self.new, x) ≡ collected_of code.now (core_in self.old) key id func) }
        ensures err { OnErr result (core_in self.new ≡ core_in self.old) }
    {
        if self.runs.has_run(&id) {
            drop(id);
            return Ok(self.pass(key));
        }
        if self.runs.len() >= MOST_RUNS {
            drop(id);
            drop(key);
            return Ok(EventReply::Crowded);
        }
        let seen = or_drop!(self.launch_new(code, id, func); key);
        self.go_to(key);
        Ok(seen)
    }

    // Launches a run of an intent.
    fn launch_new(
        &mut self,
        code: &Deployment,
        id: IntentId,
        func: u16,
    ) -> Result<EventReply, AllocError>
        requires given { self.old.runs.given < self.old.taken }
        ensures ok { IfOk result (λ x. (core_in self.new, x) ≡ launched code.now (core_in self.old) id func) }
        ensures err { OnErr result (core_in self.new ≡ core_in self.old) }
    {
        let name = or_drop!(id.copy(self.alloc); id);
        let run = or_drop!(self.new_run(code, id, func); name);
        let number = or_drop!(self.runs.start(self.alloc, run); name);
        Ok(EventReply::Launched {
            run: number,
            id: name,
        })
    }
}
