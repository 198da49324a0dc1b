// The id directly before another.
ghost use Rattle.std.specs.Prelude.{◌≡◌, ◌≤◌, length, IfOk, OnOk};
ghost use Rattle.beldi_lock.specs.Lockset.{filled, id_before as before};

use beldi_value::{Hops, IntentId};
use std::alloc::{AllocError, Global};

// Puts the greatest steps behind these, up to 63.
#[tactic(auto, using(crate::proofs::IdBefore::filled_more, crate::proofs::IdBefore::filled_whole))]
fn fill(steps: &mut Vec<u32>) -> Result<(), AllocError>
    requires { length steps.old.items ≤ 63 }
    ensures ok { OnOk result (steps.new.items ≡ filled 63 steps.old.items) }
    ensures few { OnOk result (length steps.new.items ≤ 63) }
{
    for _ in steps.len()..63 {
        steps.push(u32::MAX)?;
    }
    Ok(())
}

/// The id directly before this one, of ids with at most 63 hops. Before the root of ticket 0 there is none.
pub fn id_before(alloc: Global, id: &IntentId) -> Result<IntentId, AllocError>
    ensures { IfOk result (λ a. a ≡ before id.now) }
{
    let mut steps = Vec::from_slice(alloc, id.hops.as_slice())?;
    match steps.pop() {
        Some(0) => with_steps(id.ticket, steps),
        Some(last) => {
            steps.push(last - 1)?;
            fill(&mut steps)?;
            with_steps(id.ticket, steps)
        }
        None => {
            fill(&mut steps)?;
            with_steps(id.ticket.saturating_sub(1), steps)
        }
    }
}

fn with_steps(ticket: u32, steps: Vec<u32>) -> Result<IntentId, AllocError>
    requires { length steps.items ≤ 63 }
    ensures { IfOk result (λ a. a ≡ record { ticket = ticket; hops = steps.items }) }
{
    Ok(IntentId {
        ticket,
        hops: Hops::from_vec(steps)?,
    })
}
