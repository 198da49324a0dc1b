// The live runs in the order of their numbers.
ghost use Rattle.std.specs.Prelude.{◌≡◌, ◌≤◌, ℕ, None, Some, IfSome, IfErr, IsSome, OnOk, option_copied};
ghost use Rattle.std.specs.FinMap as map;
ghost use Rattle.std.specs.Borrow.{Lends, sem};
ghost use Rattle.beldi_core.specs.Live.{IsFirst, begins_past, begins_with, map_of, with_first};
ghost use Rattle.beldi_core.specs.LiveRuns.{IsLeastPast};
ghost use Rattle.beldi_core.specs.contracts.live.Live.{the_row};
ghost use Rattle.beldi_step.specs.contracts.run.Run as run;
ghost use Rattle.beldi_core.specs.contracts.live.First as first_row;

use beldi_step::Run;
use beldi_value::Boxed;
use std::alloc::Global;
use std::collections::BTreeMap;
use std::marker::Model;
use std::mem::replace;
use std::ops::Bound;

// A run with its number, or none.
#[derive(Drop)]
struct First {
    number: u64,
    run: Option<Boxed<Run>>,
}

/// The live runs by number. The first of all lies apart, where no search goes: most turns are given to it.
#[derive(Drop)]
pub struct Live {
    first: First,
    /// All others: none where there is no first one.
    rest: BTreeMap<u64, Boxed<Run>>,
}

impl Model for Live {
    ghost use Rattle.std.specs.Coded.{coded_ℕ};
    ghost use Rattle.std.specs.FinMap as map;
    ghost use Rattle.std.specs.Ordering.{nat_cmp};
    ghost use Rattle.beldi_step.specs.contracts.run.Run as run;
    ghost use Rattle.beldi_core.specs.LiveRuns.{RunMap};
    ghost use Rattle.beldi_core.specs.Live.{IsFirst, map_of, with_first};

    ghost Value = { RunMap };

    ghost coded = { map.code {R = nat_cmp} coded_ℕ run.the_row.coded };

    ghost view = { λ a. with_first a.first (map_of a.rest) };

    ghost invariant = { λ a. IsFirst a.first (map_of a.rest) };
}

// That there is none.
fn no_first() -> First
    ensures { result.run ≡ None }
{
    First {
        number: 0,
        run: None,
    }
}

// Whether the first run has this number.
fn begins_with(first: &First, number: u64) -> bool
    ensures { result ≡ begins_with number first.now }
{
    first.number == number && first.run.is_some()
}

// Whether it has a greater number.
fn begins_past(first: &First, number: u64) -> bool
    ensures { result ≡ begins_past number first.now }
{
    first.number > number && first.run.is_some()
}

fn first_run(first: &First) -> Option<&Run>
    ensures { option_copied result ≡ first.now.run }
{
    match &first.run {
        Some(run) => Some(run.get()),
        None => None,
    }
}

// The first run, which is there, to change it.
fn first_mut(first: &mut First) -> &mut Run
    requires { IsSome first.old.run }
    ensures* writes_back { sem 𝓛 (Lends first_row.the_row run.the_row first.entry result (λ r. record first.entry.now { run = Some r })) }
    ensures value { first.old.run ≡ Some result.now }
{
    match &mut first.run {
        Some(run) => run.get_mut(),
        None => unreachable!(),
    }
}

// Takes the first run of all, if there is one.
fn take_first(rest: &mut BTreeMap<u64, Boxed<Run>>) -> First
    ensures all { with_first result (map_of rest.new) ≡ map_of rest.old }
    ensures first { IsFirst result (map_of rest.new) }
{
    match rest.pop_first() {
        Some((number, run)) => First {
            number,
            run: Some(run),
        },
        None => no_first(),
    }
}

// The least number past this one.
fn next_in(rest: &BTreeMap<u64, Boxed<Run>>, number: u64) -> Option<u64>
    ensures { IsLeastPast number (map_of rest.now) result }
{
    let past = (Bound::Excluded(&number), Bound::Unbounded);
    match rest.range(past).next() {
        Some((next, _)) => Some(*next),
        None => None,
    }
}

impl Live {
    /// No runs.
    pub fn new(alloc: Global) -> Live
        ensures { result ≡ map.empty }
    {
        Live {
            first: no_first(),
            rest: BTreeMap::new(alloc),
        }
    }

    /// How many there are.
    pub fn len(&self) -> usize
        ensures { result ≡ map.len self.now }
    {
        self.rest.len() + usize::from(self.first.run.is_some())
    }

    /// The run of this number.
    pub fn get(&self, number: u64) -> Option<&Run>
        ensures { option_copied result ≡ map.get self.now number }
    {
        if begins_with(&self.first, number) {
            return first_run(&self.first);
        }
        match self.rest.get(&number) {
            Some(run) => Some(run.get()),
            None => None,
        }
    }

    /// The run of this number, which is live, to change it.
    pub fn get_mut(&mut self, number: u64) -> &mut Run
        requires { IsSome (map.get self.old number) }
        ensures* writes_back { sem 𝓛 (Lends the_row run.the_row self.entry result (λ r. map.insert self.entry.now number r)) }
        ensures value { Some result.now ≡ map.get self.old number }
    {
        if begins_with(&self.first, number) {
            let first = &mut self.first;
            return first_mut(first);
        }
        let rest = &mut self.rest;
        match rest.get_mut(&number) {
            Some(run) => run.get_mut(),
            None => unreachable!(),
        }
    }

    /// The least number past this one.
    pub fn next_after(&self, number: u64) -> Option<u64>
        ensures { IsLeastPast number self.now result }
    {
        if begins_past(&self.first, number) {
            return Some(self.first.number);
        }
        next_in(&self.rest, number)
    }

    /// Appends a run, whose number is greater than all. Out of memory, it is given back.
    pub fn push(&mut self, number: u64, run: Boxed<Run>) -> Result<(), Boxed<Run>>
        requires { (i : ℕ) → number ≤ i → map.get self.old i ≡ None }
        ensures ok { OnOk result (self.new ≡ map.insert self.old number run) }
        ensures err { IfErr result (λ r. (r ≡ run) × (self.new ≡ self.old)) }
    {
        if self.first.run.is_none() {
            self.first = First {
                number,
                run: Some(run),
            };
            return Ok(());
        }
        match self.rest.insert(number, run) {
            Ok(_) => Ok(()),
            Err(failed) => Err(failed.value.1),
        }
    }

    /// Takes the run of this number.
    pub fn take(&mut self, number: u64) -> Option<Boxed<Run>>
        ensures run { result ≡ map.get self.old number }
        ensures rest { self.new ≡ map.remove self.old number }
    {
        if !begins_with(&self.first, number) {
            return self.rest.remove(&number);
        }
        replace(&mut self.first, take_first(&mut self.rest)).run
    }
}
