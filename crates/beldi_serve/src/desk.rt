// The desk over a host.
ghost use Rattle.std.specs.Prelude.{◌≡◌, ◌∷◌, [], true, false, Some};
ghost use Rattle.beldi_schedule.specs.Settle.{first_at, go_on};
ghost use Rattle.beldi_session.specs.HostResponse.{after_request, goes_on as goes_on_after, patience};
ghost use Rattle.beldi_step.specs.declared.event.Event.TheVariants as event;
ghost use Rattle.beldi_host.specs.HostCore.{core_of};
ghost use Rattle.beldi_session.specs.Script.{Carry, Settle, TellReply};
ghost use Rattle.beldi_gateway.specs.declared.response.Response.TheVariants.{Call as Called};
ghost use Rattle.beldi_serve.specs.Desk.{AnswersTo, Comes, Passed, is_replied, reply_said, request_said, ticket_said};
ghost use Rattle.beldi_serve.specs.ServedConnections.{pruning};

use beldi_gateway::{CallReply, Desk, TicketReply};
use beldi_host::{Host, OpenErr, ReplyStatus};
use beldi_row::Table;
use beldi_session::{settle, sweep};
use beldi_step::{Event, EventReply};
use beldi_value::{TextBuf, Value};
use std::alloc::{AllocError, Global};

/// The turns that one call is given at most.
pub const PATIENCE: u64 = 10_000;

// The most turns of the log collector that follow a connection.
const PRUNING: u64 = 256;

/// Answers the questions of requests by the events of a host. What a settling or a log collector tells is written down and dropped.
#[derive(Drop)]
pub struct HostDesk<T: Table> {
    alloc: Global,
    host: Host<T>,
    told: TextBuf,
}

// What is said of a ticket that was asked for.
fn ticket_said(seen: &EventReply) -> TicketReply
    ensures { result ≡ ticket_said seen.now }
{
    match seen {
        EventReply::Issued(ticket) => TicketReply::Issued(*ticket),
        EventReply::NoTicket => TicketReply::NoTicket,
        EventReply::Full { .. } => TicketReply::Full,
        EventReply::Spent | EventReply::Shut => TicketReply::Spent,
        _ => TicketReply::Fault,
    }
}

// What is said of a request that goes on no further.
fn request_said(seen: EventReply) -> CallReply
    ensures { result ≡ request_said seen }
{
    match seen {
        EventReply::Replied { ticket: _, outcome } => CallReply::Reply(outcome),
        other => {
            let said = refusal_said(&other);
            drop(other);
            said
        }
    }
}

// What is said of a request that was not answered with an outcome.
fn refusal_said(seen: &EventReply) -> CallReply
    ensures { is_replied seen.now ≡ false → result ≡ request_said seen.now }
{
    match seen {
        EventReply::Other { .. } => CallReply::Other,
        EventReply::Gone(_) => CallReply::Gone,
        EventReply::Unknown(_) => CallReply::Unknown,
        EventReply::Crowded => CallReply::Crowded,
        EventReply::Spent | EventReply::Shut => CallReply::Spent,
        _ => CallReply::Fault,
    }
}

// What is said of a reply as it stands.
fn reply_said(seen: ReplyStatus) -> CallReply
    ensures { result ≡ reply_said (Some seen) }
{
    match seen {
        ReplyStatus::Unknown => CallReply::Unknown,
        ReplyStatus::Gone => CallReply::Gone,
        ReplyStatus::Waiting => CallReply::Running,
        ReplyStatus::Reply(outcome) => CallReply::Reply(outcome),
    }
}

// The host goes on with what was requested.
fn goes_on(seen: &EventReply) -> bool
    ensures { result ≡ goes_on_after seen.now }
{
    match seen {
        EventReply::Bound { .. } | EventReply::Running(_) => true,
        _ => false,
    }
}

// The reply of a ticket as its row has it.
fn look<T: Table>(host: &mut Host<T>, ticket: u32) -> CallReply
    ensures { Comes (AnswersTo (TellReply ticket ∷ []) (Called result)) host.old host.new }
{
    match host.reply(ticket) {
        Ok(seen) => reply_said(seen),
        Err(OpenErr::Failed) => CallReply::Fault,
        Err(OpenErr::OutOfMemory) => CallReply::NoMemory,
    }
}

impl<T: Table> HostDesk<T> {
    /// A desk over this host.
    pub fn new(alloc: Global, host: Host<T>) -> HostDesk<T>
        ensures { result.host ≡ host }
    {
        HostDesk {
            alloc,
            host,
            told: TextBuf::new(alloc),
        }
    }

    /// Gives the host back.
    pub fn into_host(self) -> Host<T>
        ensures { result ≡ self.host }
    {
        let HostDesk {
            alloc: _,
            host,
            told,
        } = self;
        drop(told);
        host
    }

    /// The moment of its host, in ticks.
    pub fn now(&self) -> u64
        ensures { result ≡ (core_of self.entry.now.host).now }
    {
        self.host.now()
    }

    /// So many ticks pass.
    pub fn pass(&mut self, by: u64) -> Result<(), AllocError>
        ensures { Comes (Passed (Carry (event.Tick by) ∷ []) result) self.old.host self.new.host }
    {
        match self.host.event(Event::Tick(by)) {
            Ok(seen) => {
                drop(seen);
                Ok(())
            }
            Err(why) => Err(why),
        }
    }

    /// The first log collector of its host has turns up to the end of its round, at most those that may follow a connection.
    pub fn prune(&mut self) -> Result<(), AllocError>
        ensures { Comes (Passed pruning result) self.old.host self.new.host }
    {
        let given = sweep(&mut self.host, &mut self.told, 0, PRUNING);
        self.told.clear();
        match given {
            Ok(_) => Ok(()),
            Err(_) => Err(AllocError),
        }
    }

    // The host goes on as far as it may, and then the ticket's reply is looked at.
    fn go_on(&mut self, ticket: u32) -> CallReply
        ensures { Comes (AnswersTo (Settle patience (go_on patience first_at) ∷ TellReply ticket ∷ []) (Called result)) self.old.host self.new.host }
    {
        let settled = settle(self.alloc, &mut self.host, &mut self.told, PATIENCE);
        self.told.clear();
        match settled {
            Ok(settled) => {
                drop(settled);
                look(&mut self.host, ticket)
            }
            Err(_) => CallReply::NoMemory,
        }
    }

    // What follows a request that was answered so.
    fn follow(&mut self, ticket: u32, seen: EventReply) -> CallReply
        ensures goes { goes_on_after seen ≡ true → Comes (AnswersTo (after_request ticket seen) (Called result)) self.old.host self.new.host }
        ensures ends { goes_on_after seen ≡ false → (self.new.host ≡ self.old.host) × (result ≡ request_said seen) }
    {
        if goes_on(&seen) {
            drop(seen);
            self.go_on(ticket)
        } else {
            request_said(seen)
        }
    }
}

impl<T: Table> Desk for HostDesk<T> {
    ghost use Rattle.beldi_check.specs.Rules.{number_of};
    ghost use Rattle.beldi_serve.specs.Desk.{Replies};

    ghost funcs = { λ d name. number_of d.host.code.funcs name };

    ghost keeps = { λ d q x e. Comes (Replies q x) d.host e.host };

    fn func(&self, name: &[u8]) -> Option<u16> {
        self.host.code().func(name)
    }

    fn ticket(&mut self) -> TicketReply {
        match self.host.event(Event::Ticket) {
            Ok(seen) => {
                let said = ticket_said(&seen);
                drop(seen);
                said
            }
            Err(_) => TicketReply::NoMemory,
        }
    }

    fn call(&mut self, ticket: u32, func: u16, args: Value) -> CallReply {
        match self.host.event(Event::Request { ticket, func, args }) {
            Ok(seen) => self.follow(ticket, seen),
            Err(_) => CallReply::NoMemory,
        }
    }

    fn reply(&mut self, ticket: u32) -> CallReply {
        look(&mut self.host, ticket)
    }
}
