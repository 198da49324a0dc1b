// Taking bytes from the open connection.
ghost use Rattle.std.specs.Prelude.{◌≡◌, ◌≤◌, ◌<◌, [], length, Err};
ghost use Rattle.beldi_outside.specs.Outside.{Rose};
ghost use Rattle.beldi_gateway.specs.Taking.{Fills, HeadGathers, TakesSome};
ghost use Rattle.beldi_gateway.specs.declared.gather.Stop.TheVariants.{Fault};

use crate::scan::Scan;
use beldi_outside::{Failed, Link};
use beldi_value::OutOfMemory;

/// Why an exchange stops before its response is written.
#[derive(Clone, Copy)]
pub enum Stop {
    /// The link failed.
    Fault,
    OutOfMemory,
}

impl From<Failed> for Stop {
    ghost use Rattle.std.specs.Prelude.{◌≡◌};
    ghost use Rattle.beldi_gateway.specs.declared.gather.Stop.TheVariants.{Fault};

    ghost from_gives = { λ _ e. e ≡ Fault };

    fn from(_: Failed) -> Self {
        Stop::Fault
    }
}

impl From<OutOfMemory> for Stop {
    ghost use Rattle.std.specs.Prelude.{◌≡◌};
    ghost use Rattle.beldi_gateway.specs.declared.gather.Stop.TheVariants.{OutOfMemory as NoMemory};

    ghost from_gives = { λ _ e. e ≡ NoMemory };

    fn from(_: OutOfMemory) -> Self {
        Stop::OutOfMemory
    }
}

/// The most bytes of a head.
pub const MAX_HEAD: usize = 16_384;

// Bytes that one read asks for at most.
const PIECE: usize = 4096;

// Takes the next bytes, at most `most`, and answers how many; none only at the end of the connection.
fn take_some<N: Link>(link: &mut N, into: &mut Vec<u8>, most: usize) -> Result<usize, Stop>
    requires some { 0 < most }
    ensures takes { TakesSome (N.seen link.old) (N.seen link.new) into.old.items into.new.items most result }
    ensures later { N.faults link.old ≤ N.faults link.new }
    ensures refusals { N.refusals link.old ≤ N.refusals link.new }
    ensures cause { result ≡ Err Fault → Rose (N.faults link.old) (N.faults link.new) }
{
    let mut piece = [0u8; PIECE];
    let room = PIECE.min(most);
    let count = link.read(&mut piece[..room])?;
    match into.extend_from_slice(&piece[..count]) {
        Ok(()) => Ok(count),
        Err(_) => Err(Stop::OutOfMemory),
    }
}

/// Takes bytes until the head is over, or as many came as a head may have, or the connection ended.
pub fn gather<N: Link>(link: &mut N, bytes: &mut Vec<u8>) -> Result<Scan, Stop>
    requires empty { bytes.old.items ≡ [] }
    ensures takes { HeadGathers (N.seen link.old) (N.seen link.new) bytes.new.items result }
    ensures later { N.faults link.old ≤ N.faults link.new }
    ensures refusals { N.refusals link.old ≤ N.refusals link.new }
    ensures cause { result ≡ Err Fault → Rose (N.faults link.old) (N.faults link.new) }
{
    let mut scan = Scan::new();
    while !scan.over && bytes.len() < MAX_HEAD {
        let from = bytes.len();
        match take_some(link, bytes, MAX_HEAD - from) {
            Err(stop) => return Err(stop),
            Ok(0) => return Ok(scan),
            Ok(_) => scan = scan.pass_all(&bytes[from..]),
        }
    }
    Ok(scan)
}

/// Takes bytes until there are `size`, or the connection ended.
pub fn fill<N: Link>(link: &mut N, body: &mut Vec<u8>, size: usize) -> Result<(), Stop>
    ensures takes { Fills (N.seen link.old) (N.seen link.new) body.old.items body.new.items size result }
    ensures later { N.faults link.old ≤ N.faults link.new }
    ensures refusals { N.refusals link.old ≤ N.refusals link.new }
    ensures cause { result ≡ Err Fault → Rose (N.faults link.old) (N.faults link.new) }
{
    while body.len() < size {
        let most = size - body.len();
        match take_some(link, body, most) {
            Err(stop) => return Err(stop),
            Ok(0) => return Ok(()),
            Ok(_) => {}
        }
    }
    Ok(())
}
