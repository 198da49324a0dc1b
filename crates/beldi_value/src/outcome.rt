// How an instance of a function ends.
ghost use Rattle.std.specs.Prelude.{◌≡◌, IfOk};

use crate::boxed::Boxed;
use crate::id::IntentId;
use crate::place::Place;
use crate::value::Value;
use std::alloc::{AllocError, Global};

/// Why a function stopped before its return.
#[derive(Clone, Copy, Debug, PartialEq, Eq)]
pub enum Code {
    WrongType,
    Overflow,
    DivideByZero,
    Steps,
    LocksHeld,
    ValueTooLarge,
    NoTx,
}

/// Why a transaction was aborted: the place, and the older owner that stood in the way, if any.
#[derive(Drop)]
pub struct Cause {
    pub place: Boxed<Place>,
    pub holder: Option<Boxed<IntentId>>,
}

impl Cause {
    /// An equal cause.
    pub fn copy(&self, alloc: Global) -> Result<Cause, AllocError>
        ensures { IfOk result (λ c. c ≡ self.now) }
    {
        Ok(Cause {
            place: Boxed::new(alloc, self.place.get().copy(alloc)?)?,
            holder: copy_holder(alloc, &self.holder)?,
        })
    }
}

/// An equal holder.
pub fn copy_holder(
    alloc: Global,
    holder: &Option<Boxed<IntentId>>,
) -> Result<Option<Boxed<IntentId>>, AllocError>
    ensures { IfOk result (λ h. h ≡ holder.now) }
{
    match holder {
        None => Ok(None),
        Some(holder) => Ok(Some(Boxed::new(alloc, holder.get().copy(alloc)?)?)),
    }
}

/// What an instance gives back. The outcome of a root is never `Aborted`.
#[derive(Drop)]
pub enum Outcome {
    Value(Value),
    Fault(Code),
    Aborted(Cause),
}

impl Outcome {
    /// An equal outcome.
    pub fn copy(&self, alloc: Global) -> Result<Outcome, AllocError>
        ensures { IfOk result (λ o. o ≡ self.now) }
    {
        match self {
            Outcome::Value(value) => Ok(Outcome::Value(value.copy(alloc)?)),
            Outcome::Fault(code) => Ok(Outcome::Fault(*code)),
            Outcome::Aborted(cause) => Ok(Outcome::Aborted(cause.copy(alloc)?)),
        }
    }
}
