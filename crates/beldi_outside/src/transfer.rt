// Whole transfers: all the bytes into a sink, all the bytes of a source.
ghost use Rattle.std.specs.Prelude.{◌≡◌, ◌≤◌, ℕ, List, length, IfOk, IsErrOf};
ghost use Rattle.beldi_outside.specs.Outside.{HasCause, ReadAllOn, Rose, Observed, WritesAll, max_source};

use crate::traits::{Failed, Sink, Source};
use std::alloc::{AllocError, Global};

/// The most bytes that a source of the program may have: 16 MiB.
pub const MAX_SOURCE: u32 = 16_777_216;

// Bytes that one read asks for at most.
const PIECE: usize = 4096;

/// Writes all the bytes, in as many writes as the sink needs. `Failed`: a write failed, or took nothing of what was left;
/// a front of the bytes was written, and not all. No write is tried again.
pub fn write_all<K: Sink>(sink: &mut K, bytes: &[u8]) -> Result<(), Failed>
    ensures bytes { WritesAll (K.held sink.old) (K.held sink.new) bytes.now result }
    ensures cause { HasCause (K.faults sink.old) (K.faults sink.new) result }
{
    let mut rest = bytes;
    while !rest.is_empty() {
        match sink.write(rest)? {
            0 => return Err(Failed),
            count => rest = &rest[count..],
        }
    }
    Ok(())
}

/// Why a source was not read to its end. What was taken from it is lost.
#[derive(Clone, Copy, Debug, PartialEq, Eq)]
pub enum ReadErr {
    /// Memory is short.
    OutOfMemory,
    /// A read failed, and the source's count of faults has risen. No read is tried again.
    Failed,
    /// The source had more bytes than were allowed. Just one more than those was taken.
    TooLong,
}

impl From<Failed> for ReadErr {
    ghost use Rattle.std.specs.Prelude.{◌≡◌};
    ghost use Rattle.beldi_outside.specs.declared.transfer.ReadErr.TheVariants.{Failed as SourceFailed};

    ghost from_gives = { λ _ e. e ≡ SourceFailed };

    fn from(_: Failed) -> Self {
        ReadErr::Failed
    }
}

impl From<AllocError> for ReadErr {
    ghost use Rattle.std.specs.Prelude.{◌≡◌};
    ghost use Rattle.beldi_outside.specs.declared.transfer.ReadErr.TheVariants.{OutOfMemory};

    ghost from_gives = { λ _ e. e ≡ OutOfMemory };

    fn from(_: AllocError) -> Self {
        ReadErr::OutOfMemory
    }
}

/// All the bytes that a source has, which may be `MAX_SOURCE` bytes. `ReadErr` says when each error comes.
pub fn read_all<S: Source>(alloc: Global, source: &mut S) -> Result<Vec<u8>, ReadErr>
    ensures bytes { Observed (S.left source.old) (S.left source.new) (ReadAllOn max_source result) }
    ensures most { IfOk result (λ v. length v.items ≤ max_source) }
    ensures later { S.faults source.old ≤ S.faults source.new }
    ensures failed { IsErrOf result ReadErr.Failed → Rose (S.faults source.old) (S.faults source.new) }
{
    read_up_to(alloc, source, MAX_SOURCE)
}

/// All the bytes that a source has, which may be `most` bytes. `ReadErr` says when each error comes.
pub fn read_up_to<S: Source>(alloc: Global, source: &mut S, most: u32) -> Result<Vec<u8>, ReadErr>
    ensures bytes { Observed (S.left source.old) (S.left source.new) (ReadAllOn most result) }
    ensures most { IfOk result (λ v. length v.items ≤ most) }
    ensures later { S.faults source.old ≤ S.faults source.new }
    ensures failed { IsErrOf result ReadErr.Failed → Rose (S.faults source.old) (S.faults source.new) }
{
    let limit = most as usize + 1;
    let mut bytes = Vec::new(alloc);
    let mut piece = [0u8; PIECE];
    while bytes.len() < limit {
        let room = PIECE.min(limit - bytes.len());
        let count = source.read(&mut piece[..room])?;
        if count == 0 {
            return Ok(bytes);
        }
        bytes.extend_from_slice(&piece[..count])?;
    }
    Err(ReadErr::TooLong)
}
