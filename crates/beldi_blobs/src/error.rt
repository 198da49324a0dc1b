use sqlite::{Error, ErrorCode};
use std::alloc::AllocError;
use thiserror::Error as ThisError;

/// Why a call was refused. After each of these the entries are as before.
#[derive(Clone, Copy, Debug, PartialEq, Eq, ThisError)]
pub enum BlobErr {
    #[error("out of memory")]
    OutOfMemory,
    /// The database refused for another cause than memory.
    #[error("the database failed")]
    Failed,
}

impl From<AllocError> for BlobErr {
    ghost use Rattle.std.specs.Prelude.{◌≡◌};
    ghost use Rattle.beldi_blobs.specs.declared.error.BlobErr.TheVariants.{OutOfMemory};

    ghost from_gives = { λ _ e. e ≡ OutOfMemory };

    fn from(_: AllocError) -> BlobErr {
        BlobErr::OutOfMemory
    }
}

pub(crate) fn refusal(error: Error) -> BlobErr {
    match error {
        Error::SqliteFailure(ErrorCode::OutOfMemory) => BlobErr::OutOfMemory,
        _ => BlobErr::Failed,
    }
}
