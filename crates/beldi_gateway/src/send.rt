// Writing on the open connection.
ghost use Rattle.std.specs.Prelude.{◌≡◌, ◌≤◌, Err};
ghost use Rattle.beldi_outside.specs.Outside.{Rose};
ghost use Rattle.beldi_gateway.specs.Taking.{Sends};
ghost use Rattle.beldi_gateway.specs.declared.gather.Stop.TheVariants.{Fault};

use crate::gather::Stop;
use beldi_outside::Link;

/// Writes all the bytes. `Fault`: a write failed, or took nothing; a front of the bytes was written. None is tried again.
pub fn send<N: Link>(link: &mut N, bytes: &[u8]) -> Result<(), Stop>
    ensures sends { Sends (N.seen link.old) (N.seen link.new) bytes.now result }
    ensures later { N.faults link.old ≤ N.faults link.new }
    ensures refusals { N.refusals link.old ≤ N.refusals link.new }
    ensures cause { result ≡ Err Fault → Rose (N.faults link.old) (N.faults link.new) }
{
    let mut at = 0;
    while at < bytes.len() {
        match link.write(&bytes[at..]) {
            Err(_) => return Err(Stop::Fault),
            Ok(0) => return Err(Stop::Fault),
            Ok(count) => at += count,
        }
    }
    Ok(())
}
