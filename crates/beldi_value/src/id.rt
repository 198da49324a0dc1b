// An intent's id: a ticket, and a step for each call on the way from it.
ghost use Rattle.std.specs.Prelude.{◌≡◌, ℕ, List, [], ◌∷◌, ◌++◌, ◌<◌, ◌≤◌, length, IfOk, IsTrue, ◌↔◌};
ghost use Rattle.std.specs.Cmp.{partial_order_from_own_ties};
ghost use Rattle.std.specs.Cmp.Lexicographic.{slice_cmp};
ghost use Rattle.std.specs.Ordering.{nat_cmp, as_partial_cmp};
ghost use Rattle.std.specs.Bool.{◌==◌};
ghost use lib.Pointwise.{pointwise};
ghost use Rattle.std.proofs.Common.{rules};
ghost use Rattle.std.specs.Cmp.Rules.{comparing};

use crate::hops::Hops;
use std::alloc::{AllocError, Global};
use std::cmp::Ordering;

/// Ordered by ticket, and then by hops in dictionary order.
#[derive(Drop, PartialEq, Eq, PartialOrd, Ord)]
pub struct IntentId {
    pub ticket: u32,
    pub hops: Hops,
}

impl IntentId {
    ghost use Rattle.beldi_value.specs.Id.{root_of, child_of, has_callees, has_no_hops, home_of};

    /// The id of the root of a ticket.
    pub fn root(ticket: u32) -> IntentId
        ensures { result ≡ root_of ticket }
    {
        IntentId {
            ticket,
            hops: Hops::new(),
        }
    }

    /// The id of what this intent calls at a step.
    pub fn child(&self, alloc: Global, step: u32) -> Result<IntentId, AllocError>
        requires { length self.now.hops < 63 }
        ensures { IfOk result (λ id. id ≡ child_of self.now step) }
    {
        Ok(IntentId {
            ticket: self.ticket,
            hops: self.hops.with(alloc, step)?,
        })
    }

    /// Whether what this intent calls has an id: it has fewer than 63 hops.
    pub fn has_callees(&self) -> bool
        ensures { result ≡ has_callees self.now }
    {
        self.hops.len() < 63
    }

    /// Whether no call leads to the intent.
    pub fn is_root(&self) -> bool
        ensures { result ≡ has_no_hops self.now.hops }
    {
        self.hops.is_empty()
    }

    /// The home of the intent's rows, where `func` is its function.
    pub fn home(&self, func: u16) -> u16
        ensures { result ≡ home_of self.now func }
    {
        if self.is_root() { 0 } else { func }
    }

    /// An equal id.
    #[inline(always)]
    pub fn copy(&self, alloc: Global) -> Result<IntentId, AllocError>
        ensures { IfOk result (λ id. id ≡ self.now) }
    {
        Ok(IntentId {
            ticket: self.ticket,
            hops: self.hops.copy(alloc)?,
        })
    }
}

ghost use Rattle.beldi_value.specs.Id.{is_older};

/// Whether the intent of `a` is older than that of `b`.
pub fn older(a: &IntentId, b: &IntentId) -> bool
    ensures { result ≡ is_older a.now b.now }
{
    a < b
}
