// The live runs of a host, by number.
ghost use Rattle.std.specs.Prelude.{◌≡◌, ℕ, ◌+◌, ◌-◌, ◌^◌, ◌<◌, ◌≤◌, Some, None, IsSome, IfOk, IfErr, IfSome, OnOk, OnErr, option_copied};
ghost use Rattle.std.specs.FinMap as map;
ghost use Rattle.beldi_query.specs.Query.{query_reply_of};
ghost use Rattle.beldi_core.specs.LiveRuns.{IsLeastPast, started, withdrawn, ends_run, settled, uncounted, settled_counts, AllKept, asked_of, RunTold, is_at_call, made_after, made_before, walked_in};
ghost use Rattle.beldi_step.specs.Next.{first_past};
ghost use Rattle.beldi_core.specs.Counts.{CountMap, count_at, more, kept_as};
ghost use Rattle.beldi_step.specs.HostStep.{has_run};
ghost use Rattle.beldi_step.specs.Run.{run_asks};

use crate::counts::Counts;
use crate::live::Live;
use beldi_book::Book;
use beldi_lang::Deployment;
use beldi_query::{Query, QueryReplyRef};
use beldi_step::{Mark, Run, RunAt, Stage, TurnOutput};
use beldi_turn::{ask, callee, resume, walk_to};
use beldi_value::{Boxed, IntentId, or_drop};
use std::alloc::{AllocError, Global};
use std::marker::Model;

/// The live runs. Numbers rise from 1, and none is given twice.
#[derive(Drop)]
pub struct Runs {
    live: Live,
    counts: Counts,
    given: u64,
}

impl Model for Runs {
    ghost use Rattle.std.specs.Coded.{codes, coded_ℕ};
    ghost use Rattle.std.specs.FinMap as map;
    ghost use Rattle.std.specs.Ordering.{nat_cmp};
    ghost use Rattle.beldi_step.specs.contracts.run.Run as run;
    ghost use Rattle.beldi_core.specs.LiveRuns.{Numbered, AllKept};

    ghost Value = { Numbered };

    ghost coded = { Prim.hlevel (codes, map.code {R = nat_cmp} coded_ℕ run.the_row.coded) };

    ghost view = { λ a. record { runs = a.live; given = a.given } };

    ghost invariant = { λ a. AllKept a.given a.live a.counts };
}

// Out of memory, a count that was raised is lowered again.
fn begin(
    live: &mut Live,
    counts: &mut Counts,
    alloc: Global,
    number: u64,
    run: Boxed<Run>,
) -> Result<(), AllocError>
    requires few { count_at counts.old run.id < 2 ^ 64 - 1 }
    requires greatest { (i : ℕ) → number ≤ i → map.get live.old i ≡ None }
    ensures ok { OnOk result (live.new ≡ map.insert live.old number run) }
    ensures counted { OnOk result (counts.new ≡ more counts.old run.id) }
    ensures err { OnErr result (live.new ≡ live.old) }
    ensures kept { (k : ℕ) → map.get counts.old run.id ≡ kept_as k → OnErr result (counts.new ≡ counts.old) }
{
    counts.add(alloc, &run.get().id)?;
    match live.push(number, run) {
        Ok(()) => Ok(()),
        Err(run) => {
            counts.take(&run.get().id);
            drop(run);
            Err(AllocError)
        }
    }
}

// Ends the run of this number, if it is live.
fn end(live: &mut Live, counts: &mut Counts, number: u64)
    ensures rest { live.new ≡ map.remove live.old number }
    ensures counts { counts.new ≡ uncounted counts.old (map.get live.old number) }
{
    if let Some(run) = live.take(number) {
        counts.take(&run.get().id);
    }
}

// Whether a run is gone after this.
fn ends(turn: &Result<TurnOutput, Option<Mark>>) -> bool
    ensures { result ≡ ends_run turn.now }
{
    match turn {
        Ok(output) => output.over,
        Err(_) => true,
    }
}

fn settle(live: &mut Live, counts: &mut Counts, number: u64, over: bool)
    ensures rest { live.new ≡ settled over live.old number }
    ensures counts { counts.new ≡ settled_counts over counts.old (map.get live.old number) }
{
    if over {
        end(live, counts, number);
    }
}

// The run of this number, which is live, is told.
#[inline(always)]
fn tell(
    live: &mut Live,
    counts: &mut Counts,
    number: u64,
    alloc: Global,
    code: &Deployment,
    changes: u64,
    heard: QueryReplyRef<'_>,
) -> Result<TurnOutput, Option<Mark>>
    requires { IsSome (map.get live.old number) }
    ensures resume { RunTold code.now changes live.old live.new number (map.get live.old number) (query_reply_of heard.entry) result }
    ensures kept { (g : ℕ) → AllKept g live.old counts.old → AllKept g live.new counts.new }
{
    let result = resume(alloc, live.get_mut(number), code, changes, heard);
    settle(live, counts, number, ends(&result));
    result
}

// The walk of the run of this number, if it is live, is set to another row.
fn set_forward(live: &mut Live, number: u64, row: u32)
    ensures walked { live.new ≡ walked_in live.old number row (map.get live.old number) }
    ensures kept { (g : ℕ) (n : CountMap) → AllKept g live.old n → AllKept g live.new n }
{
    if live.get(number).is_some() {
        walk_to(live.get_mut(number), row);
    }
}

/// A run of what a run calls.
#[derive(Drop)]
pub enum Callee {
    /// It was made before the turn, if anything is called.
    Made(Option<Boxed<Run>>),
    /// The run stands at a call, and still does after a turn that may start one: it is made then.
    Later,
}

/// What the answer to a run's turn needs: the id of the instance, and a run of what it calls.
#[derive(Drop)]
pub struct Copies {
    pub id: IntentId,
    pub callee: Callee,
}

// A run of what a run calls, before its turn.
fn callee_before(alloc: Global, run: &Run) -> Result<Callee, AllocError>
    ensures { IfOk result (λ c. c ≡ made_before run.now) }
{
    if is_at_call(&run.at) {
        return Ok(Callee::Later);
    }
    Ok(Callee::Made(callee(alloc, run)?))
}

fn is_at_call(at: &RunAt) -> bool
    ensures { result ≡ is_at_call at.now }
{
    match at {
        RunAt::Begins(begun) => matches!(begun.stage, Stage::Call(_)),
        _ => false,
    }
}

/// What a run asks, and its copies. A place in the book is taken for the entry of its act.
pub fn asked(
    run: &Run,
    book: &mut Book,
    alloc: Global,
) -> Result<(Boxed<Query>, Copies), AllocError>
    ensures ok { IfOk result (λ x. x ≡ asked_of run.now) }
    ensures room { OnOk result (1 ≤ book.new.spare) }
    ensures entries { book.new.entries ≡ book.old.entries }
{
    book.reserve()?;
    let id = run.id.copy(alloc)?;
    let callee = or_drop!(callee_before(alloc, run); id);
    let query = or_drop!(ask(alloc, run); id, callee);
    Ok((query, Copies { id, callee }))
}

impl Runs {
    /// No runs; no number was given.
    pub fn new(alloc: Global) -> Runs
        ensures { result ≡ record { runs = map.empty; given = 0 } }
    {
        Runs {
            live: Live::new(alloc),
            counts: Counts::new(alloc),
            given: 0,
        }
    }

    /// How many runs are live.
    pub fn len(&self) -> usize
        ensures { result ≡ map.len self.now.runs }
    {
        self.live.len()
    }

    /// How many numbers were given.
    pub fn given(&self) -> u64
        ensures { result ≡ self.now.given }
    {
        self.given
    }

    /// The run of this number, if it is live.
    pub fn get(&self, number: u64) -> Option<&Run>
        ensures { option_copied result ≡ map.get self.now.runs number }
    {
        self.live.get(number)
    }

    /// A run of what the run of this number calls, if it is live and stands at a call.
    pub fn callee(&self, alloc: Global, number: u64) -> Result<Option<Boxed<Run>>, AllocError>
        ensures { IfOk result (λ r. r ≡ made_after (map.get self.now.runs number)) }
    {
        match self.live.get(number) {
            Some(run) => callee(alloc, run),
            None => Ok(None),
        }
    }

    /// Whether a run of this intent is live.
    pub fn has_run(&self, id: &IntentId) -> bool
        ensures { result ≡ has_run self.now.runs id.now }
    {
        self.counts.has(id)
    }

    /// The least number of a live run past this one.
    pub fn next_after(&self, number: u64) -> Option<u64>
        ensures least { IsLeastPast number self.now.runs result }
        ensures first { result ≡ first_past number (map.entries self.now.runs) }
    {
        self.live.next_after(number)
    }

    /// Gives a run the next number, which is the answer.
    pub fn start(&mut self, alloc: Global, run: Boxed<Run>) -> Result<u64, AllocError>
        requires { self.old.given < 2 ^ 64 - 1 }
        ensures number { IfOk result (λ n. n ≡ self.old.given + 1) }
        ensures ok { OnOk result (self.new ≡ started self.old run) }
        ensures back { OnOk result (withdrawn self.new ≡ self.old) }
        ensures err { OnErr result (self.new ≡ self.old) }
    {
        let number = self.given + 1;
        begin(&mut self.live, &mut self.counts, alloc, number, run)?;
        self.given = number;
        Ok(number)
    }

    /// Takes the last number back, with its run.
    pub fn withdraw(&mut self)
        requires { 1 ≤ self.old.given }
        ensures { self.new ≡ withdrawn self.old }
    {
        end(&mut self.live, &mut self.counts, self.given);
        self.given -= 1;
    }

    /// Ends the run of this number, if it is live.
    pub fn remove(&mut self, number: u64)
        ensures { self.new ≡ record { runs = map.remove self.old.runs number; given = self.old.given } }
    {
        end(&mut self.live, &mut self.counts, number);
    }

    /// Ends all runs.
    pub fn clear(&mut self, alloc: Global)
        ensures { self.new ≡ record { runs = map.empty; given = self.old.given } }
    {
        self.live = Live::new(alloc);
        self.counts = Counts::new(alloc);
    }

    /// The run of this number, which is live, is told, when so many changes had been made. A run that is over is gone
    /// afterwards, and so is one that was out of memory.
    #[inline(always)]
    pub fn resume(
        &mut self,
        number: u64,
        alloc: Global,
        code: &Deployment,
        changes: u64,
        heard: QueryReplyRef<'_>,
    ) -> Result<TurnOutput, Option<Mark>>
        requires { IsSome (map.get self.old.runs number) }
        ensures resume { RunTold code.now changes self.old.runs self.new.runs number (map.get self.old.runs number) (query_reply_of heard.entry) result }
        ensures given { self.new.given ≡ self.old.given }
    {
        tell(
            &mut self.live,
            &mut self.counts,
            number,
            alloc,
            code,
            changes,
            heard,
        )
    }

    /// Sets the walk of the run of this number, if it is live, to another row.
    pub fn stride(&mut self, number: u64, row: u32)
        ensures { self.new ≡ record { runs = walked_in self.old.runs number row (map.get self.old.runs number); given = self.old.given } }
    {
        set_forward(&mut self.live, number, row);
    }
}
