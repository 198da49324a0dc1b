// Ids from their texts.
ghost use Rattle.std.specs.Prelude.{◌≡◌, option_copied};
ghost use Rattle.beldi_value.specs.IdAt.{rest_parts, step_at, ticket_at, hops_at, id_at, ReadsId};

use crate::cut::cut_at;
use crate::hops::Hops;
use crate::id::IntentId;
use crate::number::read_numeral;
use std::alloc::{AllocError, AllocFailed, Global};
use thiserror::Error;

/// Why a text was read as no id.
#[derive(Clone, Copy, Debug, PartialEq, Eq, Error)]
pub enum IdErr {
    /// No more memory.
    #[error("out of memory")]
    OutOfMemory,
    /// The text is no id: a ticket from 1, and `/` and a step from 0 for each of at most 63 hops, each below 2^32 and in
    /// decimal without leading zeros.
    #[error("the text is no id")]
    BadId,
}

impl From<AllocError> for IdErr {
    ghost use Rattle.std.specs.Prelude.{◌≡◌};
    ghost use Rattle.beldi_value.specs.declared.read_id.IdErr.TheVariants.{OutOfMemory};

    ghost from_gives = { λ _ e. e ≡ OutOfMemory };

    fn from(_: AllocError) -> Self {
        IdErr::OutOfMemory
    }
}

impl<T: Drop> From<AllocFailed<T>> for IdErr {
    ghost use Rattle.std.specs.Prelude.{◌≡◌};
    ghost use Rattle.beldi_value.specs.declared.read_id.IdErr.TheVariants.{OutOfMemory};

    ghost from_gives = { λ _ e. e ≡ OutOfMemory };

    fn from(_: AllocFailed<T>) -> Self {
        IdErr::OutOfMemory
    }
}

fn read_step(part: &[u8]) -> Option<u32>
    ensures { result ≡ step_at part.now }
{
    match read_numeral(part, 0xffff_ffff) {
        Some(number) => Some(number as u32),
        None => None,
    }
}

fn read_ticket(part: &[u8]) -> Option<u32>
    ensures { result ≡ ticket_at part.now }
{
    match read_step(part) {
        Some(0) | None => None,
        Some(number) => Some(number),
    }
}

// The steps of the hops in what follows the ticket.
fn read_hops(alloc: Global, rest: Option<&[u8]>) -> Result<Hops, IdErr>
    ensures { ReadsId (hops_at (rest_parts (option_copied rest.entry))) result }
{
    let mut steps = Vec::new(alloc);
    let mut left = rest;
    while let Some(bytes) = left {
        if steps.len() == 63 {
            return Err(IdErr::BadId);
        }
        let (part, after) = cut_at(bytes, b'/');
        match read_step(part) {
            Some(step) => steps.push(step)?,
            None => return Err(IdErr::BadId),
        }
        left = after;
    }
    Ok(Hops::from_vec(steps)?)
}

impl IntentId {
    /// The id whose text this is.
    pub fn read(alloc: Global, text: &[u8]) -> Result<IntentId, IdErr>
        ensures { ReadsId (id_at text.now) result }
    {
        let (part, rest) = cut_at(text, b'/');
        match read_ticket(part) {
            Some(ticket) => match read_hops(alloc, rest) {
                Ok(hops) => Ok(IntentId { ticket, hops }),
                Err(why) => Err(why),
            },
            None => Err(IdErr::BadId),
        }
    }
}
