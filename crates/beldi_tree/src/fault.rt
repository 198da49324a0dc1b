// Why an expression has no value.
use beldi_value::Code;
use std::alloc::AllocError;

/// Why an expression has no value.
#[derive(Clone, Copy, Debug, PartialEq, Eq)]
pub enum EvalErr {
    OutOfMemory,
    /// A fault ends the body.
    Fault(Code),
}

impl From<AllocError> for EvalErr {
    ghost use Rattle.std.specs.Prelude.{◌≡◌};
    ghost use Rattle.beldi_tree.specs.declared.fault.EvalErr.TheVariants.{OutOfMemory};

    ghost from_gives = { λ _ e. e ≡ OutOfMemory };

    fn from(_error: AllocError) -> EvalErr {
        EvalErr::OutOfMemory
    }
}

impl From<Code> for EvalErr {
    ghost use Rattle.std.specs.Prelude.{◌≡◌};
    ghost use Rattle.beldi_tree.specs.declared.fault.EvalErr.TheVariants.{Fault};

    ghost from_gives = { λ c e. e ≡ Fault c };

    fn from(code: Code) -> EvalErr {
        EvalErr::Fault(code)
    }
}
