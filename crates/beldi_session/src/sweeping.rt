// Turns of a log collector, alone and in a sweep, which gives turns up to the end of a round.
ghost use Rattle.std.specs.Prelude.{◌≡◌, ◌++◌, ◌∷◌, [], ℕ, List, Option, IfOk, OnOk};
ghost use Rattle.beldi_host.specs.HostCore.{core_of};
ghost use Rattle.beldi_host.specs.HostInvariant.{HasInvariant};
ghost use Rattle.beldi_tidy.specs.Sweeping.{ends_round};
ghost use Rattle.beldi_session.specs.Answer.{pruned_text};
ghost use Rattle.beldi_session.specs.Script.{Prune, Sweep, TellSwept, sweep_at};
ghost use Rattle.beldi_session.specs.Session.{Does, DoesTo, left_of_sweep, sight};
ghost use Rattle.beldi_session.specs.Settled.{swept_text};
ghost use Rattle.beldi_session.specs.Sweeps.{Given, KeepsSweepPromises};

use crate::answer::write_numbered;
use crate::session::{Stop, appended};
use beldi_host::Host;
use beldi_row::Table;
use beldi_step::Pruned;
use beldi_tidy::sweeps_are_as_promised;
use beldi_value::TextBuf;
use std::alloc::AllocError;

/// How a sweep ended.
#[derive(Clone, Copy, Debug, PartialEq, Eq)]
pub enum Swept {
    /// The log collector ended its round in so many turns, of which the last one said so.
    All(u64),
    /// It did not within this budget of turns.
    Unswept(u64),
}

fn pruned_text(pruned: Pruned) -> &'static str
    ensures { result.now ≡ pruned_text pruned }
{
    match pruned {
        Pruned::Going => "going\n",
        Pruned::Marked => "marked\n",
        Pruned::Skipped => "skipped\n",
        Pruned::Dangled => "dangled\n",
        Pruned::Removed => "removed\n",
        Pruned::Round => "round\n",
        Pruned::Dropped => "dropped\n",
        Pruned::Shut => "shut\n",
        Pruned::Spent => "spent\n",
    }
}

/// Gives a log collector a turn, and appends its answer.
pub fn prune<T: Table>(host: &mut Host<T>, out: &mut TextBuf, number: u8) -> Result<(), Stop>
    ensures { (held : Option (List ℕ)) (faults : ℕ) → Does (Prune number ∷ []) (sight host.old out.old held faults) (sight host.new out.new held faults) result }
{
    match host.prune(number) {
        Ok(pruned) => appended(out.push_text(pruned_text(pruned))),
        Err(_) => Err(Stop::OutOfMemory),
    }
}

// It was the last turn of a round.
fn ends_round(pruned: Pruned) -> bool
    ensures { result ≡ ends_round pruned }
{
    match pruned {
        Pruned::Round => true,
        _ => false,
    }
}

// The next turn of a sweep after so many, which tells nothing. `true`: it ended the round.
fn sweep_on<T: Table>(host: &mut Host<T>, number: u8, turns: u64) -> Result<bool, Stop>
    ensures does { (budget : ℕ) (text : List ℕ) (held : Option (List ℕ)) (faults : ℕ) → DoesTo (Sweep number budget turns ∷ []) (left_of_sweep number budget turns result) (sight host.old text held faults) (sight host.new text held faults) result }
    ensures given { IfOk result (λ over. Given host.old.code number (core_of host.old) (core_of host.new) (T.state host.old.table) (T.state host.new.table) over) }
{
    match host.prune(number) {
        Ok(pruned) => Ok(ends_round(pruned)),
        Err(_) => Err(Stop::OutOfMemory),
    }
}

fn write_swept(swept: Swept, out: &mut TextBuf) -> Result<(), AllocError>
    ensures { OnOk result (out.new ≡ out.old ++ swept_text swept) }
{
    match swept {
        Swept::All(turns) => write_numbered("swept ", turns, out),
        Swept::Unswept(budget) => write_numbered("unswept ", budget, out),
    }
}

// Appends how a sweep ended.
fn tell_swept<T: Table>(host: &Host<T>, out: &mut TextBuf, swept: Swept) -> Result<(), Stop>
    ensures { (held : Option (List ℕ)) (faults : ℕ) → Does (TellSwept swept ∷ []) (sight host.now out.old held faults) (sight host.now out.new held faults) result }
{
    appended(write_swept(swept, out))
}

// .. with which the sweep ends.
fn end<T: Table>(host: &Host<T>, out: &mut TextBuf, swept: Swept) -> Result<Swept, Stop>
    ensures does { (held : Option (List ℕ)) (faults : ℕ) → Does (TellSwept swept ∷ []) (sight host.now out.old held faults) (sight host.now out.new held faults) result }
    ensures so { IfOk result (λ x. x ≡ swept) }
{
    match tell_swept(host, out, swept) {
        Ok(()) => Ok(swept),
        Err(stop) => Err(stop),
    }
}

/// Gives a log collector turns up to the end of its round, at most the budget, and appends how it ended. Of a host with the invariant it keeps its
/// promises, where nothing keeps a turn from the rows: it ends with the turn after at most eleven for each row and one for each row of its
/// item, and what is left of a row that its collector has begun. Once all intents are idle, one that begins before all rows leaves
/// trimmed rows; and of trimmed ones, of which each that is adrift is so for more than a life, tidy ones.
pub fn sweep<T: Table>(
    host: &mut Host<T>,
    out: &mut TextBuf,
    number: u8,
    budget: u64,
) -> Result<Swept, Stop>
    ensures does { (held : Option (List ℕ)) (faults : ℕ) → Does (sweep_at number budget 0 ∷ []) (sight host.old out.old held faults) (sight host.new out.new held faults) result }
    ensures promises { HasInvariant host.old → IfOk result (λ x. KeepsSweepPromises host.old.code number (core_of host.old) (core_of host.new) (T.state host.old.table) (T.state host.new.table) x) }
{
    sweeps_are_as_promised();
    host.keeps_rules();
    let mut turns = 0;
    while turns < budget {
        match sweep_on(host, number, turns) {
            Ok(true) => return end(host, out, Swept::All(turns + 1)),
            Ok(false) => {}
            Err(stop) => return Err(stop),
        }
        turns += 1;
    }
    end(host, out, Swept::Unswept(budget))
}
