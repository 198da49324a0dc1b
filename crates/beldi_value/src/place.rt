// Places of operations, transactions and owners of items.
ghost use Rattle.std.specs.Prelude.{◌≡◌, IfOk};

use crate::id::IntentId;
use std::alloc::{AllocError, Global};

/// The place of an operation: an intent, and the number of the operation's step, from 0.
#[derive(Drop, PartialEq, Eq)]
pub struct Place {
    pub intent: IntentId,
    pub step: u32,
}

impl Place {
    /// An equal place.
    pub fn copy(&self, alloc: Global) -> Result<Place, AllocError>
        ensures { IfOk result (λ p. p ≡ self.now) }
    {
        Ok(Place {
            intent: self.intent.copy(alloc)?,
            step: self.step,
        })
    }
}

/// Who called an instance: the place of the call, the caller's function, and whether the caller waits for the answer.
#[derive(Drop)]
pub struct Caller {
    pub place: Place,
    pub func: u16,
    pub waits: bool,
}

impl Caller {
    /// An equal caller.
    pub fn copy(&self, alloc: Global) -> Result<Caller, AllocError>
        ensures { IfOk result (λ c. c ≡ self.now) }
    {
        Ok(Caller {
            place: self.place.copy(alloc)?,
            func: self.func,
            waits: self.waits,
        })
    }
}

/// A transaction: the intent that began it, the step of its begin, and the function of that intent.
#[derive(Drop, PartialEq, Eq)]
pub struct TxId {
    pub intent: IntentId,
    pub begin: u32,
    pub func: u16,
}

/// Who owns an item, or asks for it.
#[derive(Drop, PartialEq, Eq)]
pub enum Owner {
    Intent(IntentId),
    Tx(TxId),
}

impl Owner {
    ghost use Rattle.beldi_value.specs.Id.{age_of};

    /// The intent whose id is the owner's age.
    pub fn age(&self) -> &IntentId
        ensures { result.now ≡ age_of self.now }
    {
        match self {
            Owner::Intent(id) => id,
            Owner::Tx(tx) => &tx.intent,
        }
    }
}
