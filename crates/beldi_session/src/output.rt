// Text on its way to the sink.
ghost use Rattle.std.specs.Prelude.{◌≡◌, ◌≤◌, [], length, nat_lt, if◌then◌else◌, IfErr, OnOk, OnErr};
ghost use Rattle.beldi_outside.specs.Outside.{Rose};
ghost use Rattle.beldi_session.specs.Session.{Flushes};
ghost use Rattle.beldi_session.specs.declared.session.Stop.TheVariants.{SinkFault};

use crate::session::Stop;
use beldi_outside::{Sink, write_all};
use beldi_value::TextBuf;

/// Text waits until it has so many bytes: 64 KiB.
const PIECE: usize = 65_536;

/// Writes all that waits. `SinkFault`: the sink failed; a front of the text was written, and the text waits as before.
pub fn flush<K: Sink>(sink: &mut K, waiting: &mut TextBuf) -> Result<(), Stop>
    ensures text { Flushes (K.held sink.old) (K.held sink.new) waiting.old waiting.new result }
    ensures later { K.faults sink.old ≤ K.faults sink.new }
    ensures fault { OnErr result (Rose (K.faults sink.old) (K.faults sink.new)) }
    ensures cause { IfErr result (λ e. e ≡ SinkFault) }
    ensures empty { OnOk result (waiting.new ≡ []) }
    ensures same { OnErr result (waiting.new ≡ waiting.old) }
{
    match write_all(sink, waiting.as_bytes()) {
        Ok(()) => {
            waiting.clear();
            Ok(())
        }
        Err(_) => Err(Stop::SinkFault),
    }
}

/// Writes all that waits, where it is long. `SinkFault`: as of `flush`.
pub fn flush_if_long<K: Sink>(sink: &mut K, waiting: &mut TextBuf) -> Result<(), Stop>
    ensures text { Flushes (K.held sink.old) (K.held sink.new) waiting.old waiting.new result }
    ensures later { K.faults sink.old ≤ K.faults sink.new }
    ensures fault { OnErr result (Rose (K.faults sink.old) (K.faults sink.new)) }
    ensures cause { IfErr result (λ e. e ≡ SinkFault) }
    ensures short { OnOk result (waiting.new ≡ (if nat_lt (length waiting.old) 65536 then waiting.old else [])) }
    ensures long { OnErr result (65536 ≤ length waiting.old) }
    ensures same { OnErr result (waiting.new ≡ waiting.old) }
{
    if waiting.len() < PIECE {
        Ok(())
    } else {
        flush(sink, waiting)
    }
}
