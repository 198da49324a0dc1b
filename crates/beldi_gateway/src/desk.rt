// Whom an exchange asks.
ghost use Rattle.std.specs.Prelude.{◌≡◌, ℕ, List, Option};
ghost use Rattle.beldi_gateway.specs.Exchange.{Question, ask_call, ask_reply, ask_ticket};
ghost use Rattle.beldi_gateway.specs.declared.response.Response.{Response};
ghost use Rattle.beldi_gateway.specs.declared.response.Response.TheVariants.{Call, Ticket};
ghost use Rattle.beldi_value.specs.Value.{datum_of};

use beldi_value::{Outcome, Value};

/// What a desk says of a call, or of the reply to a ticket.
#[derive(Drop)]
pub enum CallReply {
    /// The function came to this.
    Reply(Outcome),
    /// It is not over yet.
    Running,
    /// The ticket was used for another call.
    Other,
    /// The reply is no longer kept.
    Gone,
    /// The ticket was never issued, or nothing was called with it.
    Unknown,
    /// The table failed.
    Fault,
    /// There are as many runs as there may be.
    Crowded,
    /// The host makes no more steps.
    Spent,
    /// Memory is short.
    NoMemory,
}

/// What a desk says where it is asked for a ticket.
#[derive(Clone, Copy, Debug, PartialEq, Eq)]
pub enum TicketReply {
    /// This one is new.
    Issued(u32),
    /// All were issued.
    NoTicket,
    /// The table is full.
    Full,
    /// The table failed.
    Fault,
    /// The host makes no more steps.
    Spent,
    /// Memory is short.
    NoMemory,
}

/// Answers the questions that requests lead to.
pub trait Desk {
    /// The number of the function of each name that it has.
    ghost funcs: { Self → List ℕ → Option ℕ };

    /// What each question may come to: the desk before, the question, what it says, and the desk after.
    ghost keeps: { Self → Question → Response → Self → Type 0 };

    /// The number of the function of this name.
    fn func(&self, name: &[u8]) -> Option<u16>
        ensures { result ≡ funcs self.now name.now };

    /// A new ticket.
    fn ticket(&mut self) -> TicketReply
        ensures { keeps self.old ask_ticket (Ticket result) self.new };

    /// Calls the function with the ticket, once for each ticket, and tells what came of it.
    fn call(&mut self, ticket: u32, func: u16, args: Value) -> CallReply
        ensures { keeps self.old (ask_call ticket func (datum_of args)) (Call result) self.new };

    /// What came of the call with the ticket.
    fn reply(&mut self, ticket: u32) -> CallReply
        ensures { keeps self.old (ask_reply ticket) (Call result) self.new };
}
