// The checks of a deployment, and one that passed them.
ghost use Rattle.std.specs.Prelude.{◌≡◌, MatchResult};
ghost use Rattle.beldi_check.specs.Rules.{Refuses, first_offence, IsChecked, number_of};

use crate::calls::{Link, reach};
use crate::listed::{Listed, list_all};
use crate::rules::{Rule, all_kept, no_cycle, no_double_name, within_most};
use crate::why::CheckErr;
use beldi_tree::{Deployment, Func};
use beldi_value::or_drop;
use std::alloc::Global;
use std::marker::Model;

// The rules before that of cycles.
const PLACE_RULES: [Rule; 5] = [
    Rule::UnknownFunction,
    Rule::UnknownTable,
    Rule::BreakOutside,
    Rule::NestedTx,
    Rule::LeavesTx,
];

// The rules after it.
const TRANSACTION_RULES: [Rule; 2] = [Rule::AsyncInTx, Rule::LockInTx];

/// A deployment that keeps every rule.
#[derive(Drop)]
pub struct Checked {
    code: Deployment,
}

impl Model for Checked {
    ghost use Rattle.beldi_tree.specs.declared.deployment.Deployment.{Deployment};
    ghost use Rattle.beldi_tree.specs.contracts.deployment.Deployment as deployment;
    ghost use Rattle.beldi_check.specs.Rules.{IsChecked};

    ghost Value = { Deployment };

    ghost coded = { deployment.the_row.coded };

    ghost view = { λ a. a.code };

    ghost invariant = { λ a. IsChecked a.code };
}

impl Checked {
    /// The deployment.
    pub fn code(&self) -> &Deployment
        ensures same { result.now ≡ self.now }
        ensures checked { IsChecked self.now }
    {
        &self.code
    }

    /// The deployment, taken out.
    pub fn into_code(self) -> Deployment
        ensures same { result ≡ self }
        ensures checked { IsChecked self }
    {
        self.code
    }

    /// The number of the function of this name, from 1 in the order of the text. None where no function has it.
    pub fn func(&self, name: &[u8]) -> Option<u16>
        ensures { result ≡ number_of self.now.funcs name.now }
    {
        let place = self.code.funcs.place(name)?;
        Some(place as u16 + 1)
    }
}

// No function breaks a rule.
fn all_rules(alloc: Global, funcs: &[Func]) -> Result<(), CheckErr>
    ensures { MatchResult result (λ _. first_offence funcs.now ≡ None) (λ e. Refuses (first_offence funcs.now) e) }
{
    let all = list_all(alloc, funcs)?;
    let result = listed_rules(alloc, all.as_slice());
    drop(all);
    result
}

// The same of functions whose statements are listed.
fn listed_rules(alloc: Global, all: &[Listed]) -> Result<(), CheckErr>
    ensures { MatchResult result (λ _. first_offence all.now ≡ None) (λ e. Refuses (first_offence all.now) e) }
{
    no_double_name(alloc, all)?;
    within_most(all)?;
    let inside = reach(alloc, Link::Call, all)?;
    or_drop!(all_kept(alloc, &PLACE_RULES, all, &inside); inside);
    or_drop!(no_cycle(alloc, all); inside);
    let result = all_kept(alloc, &TRANSACTION_RULES, all, &inside);
    drop(inside);
    result
}

/// Accepts a deployment that keeps every rule. The rules are tried in the order `Duplicate`, `TooMany`, `UnknownFunction`,
/// `UnknownTable`, `BreakOutside`, `NestedTx`, `LeavesTx`, `CallCycle`, `AsyncInTx`, `LockInTx`: `Refused` names the first
/// place in the text that breaks the first rule that is broken. `OutOfMemory` comes where memory is short. The names in the
/// statements of what is accepted are found.
pub fn check(alloc: Global, code: Deployment) -> Result<Checked, CheckErr>
    ensures { MatchResult result (λ c. (c ≡ code) × (first_offence code.funcs ≡ None)) (λ e. Refuses (first_offence code.funcs) e) }
{
    or_drop!(all_rules(alloc, code.funcs.as_slice()); code);
    let mut code = code;
    code.funcs.find_names(alloc);
    Ok(Checked { code })
}
