// Why a text is no deployment.
use std::alloc::AllocError;
use thiserror::Error;

/// Why a text was not read.
#[derive(Clone, Copy, Debug, PartialEq, Eq, Error)]
pub enum SyntaxErr {
    #[error("out of memory")]
    OutOfMemory,
    /// The text is no deployment. The line is that of the first place, in the order of the text, that has a cause.
    #[error("line {line}: {what}")]
    Refused { line: u32, what: What },
}

/// What is wrong at a place of the text. Of two causes at one place the one that stands first here is told.
#[derive(Clone, Copy, Debug, PartialEq, Eq, Error)]
pub enum What {
    /// Bytes that are not UTF-8. They are looked for before all else.
    #[error("utf8")]
    Utf8,
    /// A token that no deployment goes on with, or bytes that begin no token.
    #[error("syntax")]
    Syntax,
    /// A number that is too large, or outside the limits of its place.
    #[error("number")]
    Number,
    /// Blocks and expressions that are nested more than 64 deep.
    #[error("too-deep")]
    TooDeep,
    /// A text of more than 4,096 bytes. A deployment of more than 65,536 bytes, which is looked for before `Syntax`.
    #[error("too-large")]
    TooLarge,
}

impl From<AllocError> for SyntaxErr {
    ghost use Rattle.std.specs.Prelude.{◌≡◌};
    ghost use Rattle.beldi_syntax.specs.declared.refusal.SyntaxErr.TheVariants.{OutOfMemory};

    ghost from_gives = { λ _ e. e ≡ OutOfMemory };

    fn from(_error: AllocError) -> SyntaxErr {
        SyntaxErr::OutOfMemory
    }
}
