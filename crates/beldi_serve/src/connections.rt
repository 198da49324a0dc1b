// Connections, one after another.
ghost use Rattle.std.specs.Prelude.{◌≡◌, ◌≤◌, ◌++◌, OnOk, Err};
ghost use Rattle.beldi_outside.specs.Outside.{Rose};
ghost use Rattle.beldi_serve.specs.Desk.{Comes};
ghost use Rattle.beldi_serve.specs.ServedConnections.{ConnectsBy, Passes, Serving, Ticks, WroteLine, line_of, moment_of, sight};
ghost use Rattle.beldi_serve.specs.declared.connections.ServeErr.TheVariants.{SinkFault, LinkRefused};

use crate::desk::HostDesk;
use beldi_gateway::{Served, serve_one};
use beldi_host::LAST_MOMENT;
use beldi_outside::{Clock, Link, Sink, write_all};
use beldi_row::Table;
use beldi_value::TextBuf;
use std::alloc::{AllocError, Global};

/// Why a service ended before all connections were served.
#[derive(Clone, Copy, Debug, PartialEq, Eq)]
pub enum ServeErr {
    /// Out of memory. The exchange that wanted it may be done in part.
    OutOfMemory,
    /// The sink failed, and its count of faults has risen.
    SinkFault,
    /// The link gives no further connection, and its count of refusals has risen.
    LinkRefused,
}

/// A clock's moment as a host counts it.
pub fn moment_of(moment: u64) -> u64
    ensures { result ≡ moment_of moment }
{
    moment.min(LAST_MOMENT)
}

// Lets time pass up to this moment, where it is later.
fn tick<T: Table>(desk: &mut HostDesk<T>, moment: u64) -> Result<(), AllocError>
    ensures { Comes (Ticks moment result) desk.old.host desk.new.host }
{
    let now = desk.now();
    let moment = moment_of(moment);
    if now < moment {
        desk.pass(moment - now)
    } else {
        Ok(())
    }
}

// One connection, from its opening to its end, and what follows.
fn connect<T: Table, N: Link, C: Clock>(
    alloc: Global,
    desk: &mut HostDesk<T>,
    link: &mut N,
    clock: &mut C,
) -> Result<Served, ServeErr>
    ensures passes { Passes (λ d room v w. ConnectsBy C.tells d room v w result) (sight desk.old.host (N.seen link.old) clock.old) (sight desk.new.host (N.seen link.new) clock.new) }
    ensures later { N.refusals link.old ≤ N.refusals link.new }
    ensures refused { result ≡ Err LinkRefused → Rose (N.refusals link.old) (N.refusals link.new) }
    ensures no_sink { result ≡ Err SinkFault → ⊥ }
{
    match link.accept() {
        Ok(()) => {}
        Err(_) => return Err(ServeErr::LinkRefused),
    }
    match tick(desk, clock.now()) {
        Ok(()) => {}
        Err(_) => return Err(ServeErr::OutOfMemory),
    }
    match serve_one(alloc, desk, link) {
        Ok(served) => {
            link.close();
            match desk.prune() {
                Ok(()) => Ok(served),
                Err(_) => Err(ServeErr::OutOfMemory),
            }
        }
        Err(_) => Err(ServeErr::OutOfMemory),
    }
}

// The line of a connection.
fn write_line(number: u32, served: Served, line: &mut TextBuf) -> Result<(), AllocError>
    ensures { OnOk result (line.new ≡ line.old ++ line_of number served) }
{
    line.push_text("conn ")?;
    line.push_number(u64::from(number))?;
    line.push_text(" ")?;
    match served {
        Served::Status(status) => line.push_number(u64::from(status))?,
        Served::Silent => line.push_text("none")?,
        Served::Fault => line.push_text("fault")?,
    }
    line.push_text("\n")
}

// Writes the line of a connection.
fn tell_line<K: Sink>(
    alloc: Global,
    sink: &mut K,
    number: u32,
    served: Served,
) -> Result<(), ServeErr>
    ensures { WroteLine (K.held sink.old) (K.held sink.new) (K.faults sink.old) (K.faults sink.new) (line_of number served) result }
{
    let mut line = TextBuf::new(alloc);
    match write_line(number, served, &mut line) {
        Ok(()) => {
            let told = write_all(sink, line.as_bytes());
            drop(line);
            match told {
                Ok(()) => Ok(()),
                Err(_) => Err(ServeErr::SinkFault),
            }
        }
        Err(_) => Err(ServeErr::OutOfMemory),
    }
}

/// Serves so many connections, and writes the line of each. Where it ends before, those that were served have their lines.
pub fn serve<K: Sink, T: Table, N: Link, C: Clock>(
    alloc: Global,
    desk: &mut HostDesk<T>,
    sink: &mut K,
    link: &mut N,
    clock: &mut C,
    requests: u32,
) -> Result<(), ServeErr>
    ensures serves { Serving C.tells requests (sight desk.old.host (N.seen link.old) clock.old) (sight desk.new.host (N.seen link.new) clock.new) (K.held sink.old) (K.held sink.new) result }
    ensures later { K.faults sink.old ≤ K.faults sink.new }
    ensures fault { result ≡ Err SinkFault → Rose (K.faults sink.old) (K.faults sink.new) }
    ensures refused { result ≡ Err LinkRefused → Rose (N.refusals link.old) (N.refusals link.new) }
{
    for number in 0..requests {
        match connect(alloc, desk, link, clock) {
            Ok(served) => match tell_line(alloc, sink, number + 1, served) {
                Ok(()) => {}
                Err(why) => return Err(why),
            },
            Err(why) => return Err(why),
        }
    }
    Ok(())
}
