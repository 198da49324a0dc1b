// The hops of an intent's id. Copies share their memory, as ids are copied in each turn.
ghost use Rattle.std.specs.Prelude.{◌≡◌, ℕ, List, [], ◌∷◌, ◌++◌, ◌<◌, ◌≤◌, length, IfOk};
ghost use Rattle.std.specs.Cmp.{partial_order_from_own_ties};
ghost use Rattle.std.specs.Cmp.Lexicographic.{slice_cmp};
ghost use Rattle.std.specs.Ordering.{nat_cmp, as_partial_cmp};
ghost use Rattle.std.specs.Bool.{◌==◌};
ghost use lib.Pointwise.{pointwise};
ghost use Rattle.std.proofs.Common.{rules};
ghost use Rattle.std.specs.Cmp.Rules.{comparing};

use std::alloc::{AllocError, Global};
use std::cmp::Ordering;
use std::marker::Model;
use std::rc::RcSlice;

/// The steps of the calls that lead from a root to an intent: at most 63.
#[derive(Drop)]
pub struct Hops {
    // None where there are no steps, which take no memory so.
    steps: Option<RcSlice<u32>>,
}

impl Model for Hops {
    ghost use Rattle.std.specs.Prelude.{ℕ, List, length, ◌≤◌};
    ghost use Rattle.beldi_value.specs.Hops.{steps_in};

    ghost Value = { List ℕ };

    ghost view = { λ a. steps_in a.steps };

    ghost invariant = { λ a. length (steps_in a.steps) ≤ 63 };
}

impl Hops {
    ghost use Rattle.beldi_value.specs.Id.{has_no_hops};

    /// No steps.
    pub fn new() -> Hops
        ensures { result ≡ [] }
    {
        Hops { steps: None }
    }

    /// These steps.
    pub fn from_vec(steps: Vec<u32>) -> Result<Hops, AllocError>
        requires { length steps.items ≤ 63 }
        ensures { IfOk result (λ h. h ≡ steps.items) }
    {
        if steps.is_empty() {
            return Ok(Hops::new());
        }
        Ok(Hops {
            steps: Some(RcSlice::from_vec(steps)?),
        })
    }

    /// How many there are.
    pub fn len(&self) -> usize
        ensures len { result ≡ length self.now }
        ensures few { length self.now ≤ 63 }
    {
        self.as_slice().len()
    }

    /// Whether there are none.
    pub fn is_empty(&self) -> bool
        ensures { result ≡ has_no_hops self.now }
    {
        self.as_slice().is_empty()
    }

    /// The steps.
    pub fn as_slice(&self) -> &[u32]
        ensures items { result.now ≡ self.now }
        ensures few { length self.now ≤ 63 }
    {
        match &self.steps {
            None => &[],
            Some(steps) => steps.as_slice(),
        }
    }

    /// Equal steps.
    #[inline(always)]
    pub fn copy(&self, alloc: Global) -> Result<Hops, AllocError>
        ensures { IfOk result (λ h. h ≡ self.now) }
    {
        match &self.steps {
            None => Ok(Hops::new()),
            Some(steps) => Ok(Hops {
                steps: Some(steps.clone()?),
            }),
        }
    }

    /// These steps and one more.
    pub fn with(&self, alloc: Global, step: u32) -> Result<Hops, AllocError>
        requires { length self.now < 63 }
        ensures { IfOk result (λ h. h ≡ self.now ++ step ∷ []) }
    {
        let mut steps = Vec::with_capacity(alloc, self.len() + 1)?;
        steps.extend_from_slice(self.as_slice())?;
        steps.push(step)?;
        Hops::from_vec(steps)
    }
}

impl PartialEq for Hops {
    ghost eq = { pointwise ◌==◌ };

    ghost laws = { Prim.search (comparing, rules) };

    fn eq(&self, other: &Hops) -> bool {
        self.as_slice() == other.as_slice()
    }
}

impl Eq for Hops {
    ghost laws = { Prim.search (comparing, rules) };
}

impl Ord for Hops {
    ghost cmp = { slice_cmp nat_cmp };

    ghost total = { Prim.search (comparing, rules) };

    ghost matches_partial_cmp = { Prim.search (comparing, rules) };

    ghost matches_eq = { Prim.search (comparing, rules) };

    fn cmp(&self, other: &Hops) -> Ordering {
        self.as_slice().cmp(other.as_slice())
    }
}

impl PartialOrd for Hops {
    ghost partial_cmp = { as_partial_cmp (slice_cmp nat_cmp) };

    ghost laws = { partial_order_from_own_ties (Prim.search (comparing, rules)) (Prim.search (comparing, rules)) };

    fn partial_cmp(&self, other: &Hops) -> Option<Ordering> {
        Some(self.cmp(other))
    }
}
