// Why a deployment is refused.
ghost use Rattle.std.specs.Prelude.{◌≡◌};

use beldi_value::Str;
use std::alloc::AllocError;
use std::fmt::{self, Write};
use thiserror::Error;

/// The rule that a deployment breaks.
#[derive(Drop)]
pub enum Why {
    /// A function of this name is called, and there is none.
    UnknownFunction(Str),
    /// A table of this name is used, and the function does not own one.
    UnknownTable(Str),
    /// An earlier function, or an earlier table of the same function, has this name.
    Duplicate(Str),
    /// There are more than 64 functions, or more than 64 tables of one function.
    TooMany,
    /// A `break` stands in no `repeat`, in the function of this name.
    BreakOutside(Str),
    /// A `transaction` stands in the first block of another one, in the function of this name.
    NestedTx(Str),
    /// A `return`, or a `break` of a loop outside, stands in the first block of a transaction, in the function of this name.
    LeavesTx(Str),
    /// The function of this name reaches itself by `call` and `async`.
    CallCycle(Str),
    /// An `async` that may run in a transaction, in the function of this name.
    AsyncInTx(Str),
    /// A `lock` or an `unlock` that may run in a transaction, in the function of this name.
    LockInTx(Str),
}

/// Why a deployment is not accepted.
#[derive(Debug, Drop, Error)]
pub enum CheckErr {
    #[error("out of memory")]
    OutOfMemory,
    /// The first line that breaks the first rule that is broken.
    #[error("line {line}: {why:?}")]
    Refused { line: u32, why: Why },
}

impl fmt::Debug for Why {
    fn fmt<W: Write>(&self, f: &mut fmt::Formatter<W>) -> fmt::Result {
        match self {
            Why::UnknownFunction(name) => named(f, "unknown-function", name),
            Why::UnknownTable(name) => named(f, "unknown-table", name),
            Why::Duplicate(name) => named(f, "duplicate", name),
            Why::TooMany => write!(f, "too-many"),
            Why::BreakOutside(name) => named(f, "break-outside", name),
            Why::NestedTx(name) => named(f, "nested-tx", name),
            Why::LeavesTx(name) => named(f, "leaves-tx", name),
            Why::CallCycle(name) => named(f, "call-cycle", name),
            Why::AsyncInTx(name) => named(f, "async-in-tx", name),
            Why::LockInTx(name) => named(f, "lock-in-tx", name),
        }
    }
}

// The rule, and the name that it gives.
fn named<W: Write>(f: &mut fmt::Formatter<W>, rule: &str, name: &Str) -> fmt::Result {
    write!(f, "{} {}", rule, name.as_str())
}

impl From<AllocError> for CheckErr {
    ghost use Rattle.std.specs.Prelude.{◌≡◌};
    ghost use Rattle.beldi_check.specs.declared.why.CheckErr.TheVariants.{OutOfMemory};

    ghost from_gives = { λ _ e. e ≡ OutOfMemory };

    fn from(_: AllocError) -> Self {
        CheckErr::OutOfMemory
    }
}
