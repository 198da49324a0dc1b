// The entries of a book, and their text.
ghost use Rattle.std.specs.Prelude.{◌≡◌, ◌++◌, OnOk, IfOk, is_none, codes};
ghost use Rattle.beldi_value.specs.ValueText.{id_text, place_text};
ghost use Rattle.beldi_book.specs.BookText.{entry_text, holder_text};
ghost use Rattle.beldi_book.specs.LinearOrder.{version_of};
ghost use Rattle.beldi_book.specs.declared.entry.Entry.TheVariants.{Start, AbortedTx};

use beldi_tree::Deployment;
use beldi_value::{Boxed, IntentId, Place, TextBuf, Value, copy_holder, or_drop};
use std::alloc::{AllocError, Global};

/// What a step of the run was.
#[derive(Drop)]
pub enum Entry {
    /// A root was started.
    Start {
        ticket: u32,
        func: u16,
        args: Value,
    },
    /// An instance made its next step, which was a read. `version` changes had been made when it read.
    Read {
        id: IntentId,
        version: u64,
    },
    /// An instance made its next step, which was no read.
    Step {
        id: IntentId,
    },
    /// A transaction of an instance committed: all of its steps, in one piece.
    CommittedTx {
        id: IntentId,
    },
    /// A transaction of an instance was aborted at this place: by its body, or where it met an item of the holder.
    AbortedTx {
        id: IntentId,
        place: Boxed<Place>,
        holder: Option<Boxed<IntentId>>,
    },
}

impl Entry {
    /// An equal entry.
    pub fn copy(&self, alloc: Global) -> Result<Entry, AllocError>
        ensures { IfOk result (λ e. e ≡ self.now) }
    {
        match self {
            Entry::Start { ticket, func, args } => Ok(Entry::Start {
                ticket: *ticket,
                func: *func,
                args: args.copy(alloc)?,
            }),
            Entry::Read { id, version } => Ok(Entry::Read {
                id: id.copy(alloc)?,
                version: *version,
            }),
            Entry::Step { id } => Ok(Entry::Step {
                id: id.copy(alloc)?,
            }),
            Entry::CommittedTx { id } => Ok(Entry::CommittedTx {
                id: id.copy(alloc)?,
            }),
            Entry::AbortedTx { id, place, holder } => copy_abort(alloc, id, place, holder),
        }
    }

    /// Whether it is a change: any entry but a read.
    pub fn is_change(&self) -> bool
        ensures { result ≡ is_none (version_of self.now) }
    {
        !matches!(self, Entry::Read { .. })
    }

    /// Appends the text of the entry, without an end of line. Out of memory, a part of it may be there.
    pub fn write(
        &self,
        alloc: Global,
        code: &Deployment,
        out: &mut TextBuf,
    ) -> Result<(), AllocError>
        ensures { OnOk result (out.new ≡ out.old ++ entry_text code.now self.now) }
    {
        match self {
            Entry::Start { ticket, func, args } => {
                write_start(alloc, code, *ticket, *func, args, out)
            }
            Entry::Read { id, version } => {
                write_id("read ", id, out)?;
                out.push_text(" ")?;
                out.push_number(*version)
            }
            Entry::Step { id } => write_id("step ", id, out),
            Entry::CommittedTx { id } => write_id("tx ", id, out),
            Entry::AbortedTx { id, place, holder } => write_abort(id, place, holder, out),
        }
    }
}

fn copy_abort(
    alloc: Global,
    id: &IntentId,
    place: &Boxed<Place>,
    holder: &Option<Boxed<IntentId>>,
) -> Result<Entry, AllocError>
    ensures { IfOk result (λ e. e ≡ AbortedTx id.now place.now holder.now) }
{
    let id = id.copy(alloc)?;
    let place = or_drop!(place.get().copy(alloc); id);
    let place = or_drop!(Boxed::new(alloc, place); id);
    let holder = or_drop!(copy_holder(alloc, holder); id, place);
    Ok(Entry::AbortedTx { id, place, holder })
}

fn write_start(
    alloc: Global,
    code: &Deployment,
    ticket: u32,
    func: u16,
    args: &Value,
    out: &mut TextBuf,
) -> Result<(), AllocError>
    ensures { OnOk result (out.new ≡ out.old ++ entry_text code.now (Start ticket func args.now)) }
{
    out.push_text("start ")?;
    out.push_number(u64::from(ticket))?;
    out.push_text(" ")?;
    code.write_func(func, out)?;
    out.push_text(" ")?;
    args.write_json(alloc, out)
}

fn write_abort(
    id: &IntentId,
    place: &Boxed<Place>,
    holder: &Option<Boxed<IntentId>>,
    out: &mut TextBuf,
) -> Result<(), AllocError>
    ensures { OnOk result (out.new ≡ out.old ++ (codes "try " ++ (id_text id.now ++ (codes " " ++ (place_text place.now ++ (codes " " ++ holder_text holder.now)))))) }
{
    write_id("try ", id, out)?;
    out.push_text(" ")?;
    place.get().write(out)?;
    out.push_text(" ")?;
    write_holder(holder, out)
}

// Appends a word and an id.
fn write_id(word: &str, id: &IntentId, out: &mut TextBuf) -> Result<(), AllocError>
    ensures { OnOk result (out.new ≡ out.old ++ word.now ++ id_text id.now) }
{
    out.push_text(word)?;
    id.write(out)
}

// Appends the holder's id, or `-`.
fn write_holder(holder: &Option<Boxed<IntentId>>, out: &mut TextBuf) -> Result<(), AllocError>
    ensures { OnOk result (out.new ≡ out.old ++ holder_text holder.now) }
{
    match holder {
        Some(id) => id.get().write(out),
        None => out.push_text("-"),
    }
}
