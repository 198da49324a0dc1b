// An id in room that was made before.
ghost use Rattle.std.specs.Prelude.{◌≡◌, ◌≤◌, IfOk, length};
ghost use Rattle.beldi_value.specs.Id.{root_of};
ghost use Rattle.beldi_value.specs.declared.id.IntentId as ids;

use crate::hops::Hops;
use crate::id::IntentId;
use arrayvec::ArrayVec;
use std::alloc::{AllocError, Global};
use std::marker::Model;

// A ticket, and room for the hops of any id.
#[derive(Drop)]
struct Parts {
    ticket: u32,
    hops: ArrayVec<u32, 63>,
}

/// An id that lies apart, in room for any. So an act that is to keep an id takes no memory where it is given the room.
#[derive(Drop)]
pub struct IdBuf {
    parts: Box<Parts>,
}

impl Model for IdBuf {
    ghost use Rattle.beldi_value.specs.declared.id.IntentId.{IntentId};

    ghost Value = { IntentId };

    ghost view = { λ a. record { ticket = a.parts.value.ticket; hops = a.parts.value.hops.items } };
}

impl IdBuf {
    /// The room, with the id of the root of ticket 0.
    pub fn new(alloc: Global) -> Result<IdBuf, AllocError>
        ensures { IfOk result (λ b. b ≡ root_of 0) }
    {
        let parts = Parts {
            ticket: 0,
            hops: ArrayVec::new(),
        };
        Ok(IdBuf {
            parts: Box::new(alloc, parts)?,
        })
    }

    /// This id, in room of its own.
    pub fn of(alloc: Global, id: &IntentId) -> Result<IdBuf, AllocError>
        ensures { IfOk result (λ b. b ≡ id.now) }
    {
        Ok(IdBuf::new(alloc)?.hold(id))
    }

    /// This id, in the room. It takes no memory.
    pub fn hold(self, id: &IntentId) -> IdBuf
        ensures { result ≡ id.now }
    {
        self.with(id.ticket, id.hops.as_slice())
    }

    // The id of a ticket and hops, in the room.
    fn with(self, ticket: u32, hops: &[u32]) -> IdBuf
        requires { length hops.now ≤ 63 }
        ensures { result ≡ record { ticket = ticket; hops = hops.now } }
    {
        let mut parts = self.parts;
        let room = parts.as_mut();
        room.ticket = ticket;
        fill(&mut room.hops, hops);
        IdBuf { parts }
    }

    /// The ticket of the id.
    pub fn ticket(&self) -> u32
        ensures { result ≡ self.now.ticket }
    {
        self.parts.ticket
    }

    /// The hops of the id.
    pub fn hops(&self) -> &[u32]
        ensures items { result.now ≡ self.now.hops }
        ensures few { length self.now.hops ≤ 63 }
    {
        self.parts.hops.as_slice()
    }

    /// The id.
    pub fn to_id(&self, alloc: Global) -> Result<IntentId, AllocError>
        ensures { IfOk result (λ id. id ≡ self.now) }
    {
        Ok(IntentId {
            ticket: self.ticket(),
            hops: Hops::from_vec(Vec::from_slice(alloc, self.hops())?)?,
        })
    }

    /// An equal id, in room of its own.
    pub fn copy(&self, alloc: Global) -> Result<IdBuf, AllocError>
        ensures { IfOk result (λ b. b ≡ self.now) }
    {
        Ok(IdBuf::new(alloc)?.with(self.ticket(), self.hops()))
    }
}

// Makes these steps all that the room has.
fn fill(room: &mut ArrayVec<u32, 63>, steps: &[u32])
    requires { length steps.now ≤ 63 }
    ensures { room.new.items ≡ steps.now }
{
    room.clear();
    for step in steps {
        room.push(*step);
    }
}
