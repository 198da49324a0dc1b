// A turn of a run: what it asks of the table, and what follows of what the table told. Nothing here touches a table.
ghost use Rattle.std.specs.Prelude.{◌≡◌, ◌++◌, ◌+◌, ◌≤◌, ◌<◌, ◌^◌, if◌then◌else◌, Ok, Some, None, IfOk, IfSome, OnErr, IsSome, option_to_list};
ghost use Rattle.std.specs.Option.{option_map};
ghost use Rattle.std.specs.FinMap as map;
ghost use Rattle.beldi_query.specs.Query.{query_reply_of};
ghost use Rattle.beldi_step.specs.declared.event.Event.TheVariants as events;
ghost use Rattle.beldi_step.specs.declared.run.Wait.TheVariants as waits;
ghost use Rattle.beldi_tree.specs.declared.deployment.Deployment.{Deployment};
ghost use Rattle.beldi_step.specs.Run.{plain_output};
ghost use Rattle.beldi_step.specs.HostStep.{Followed, acted as acted_by, after_turn as after_turn_of, counted, entry_of as entry_by, may_start as may_start_of, plan, refused, run_plan, started};
ghost use Rattle.beldi_core.specs.LiveRuns.{callee_for, may_follow};
ghost use Rattle.beldi_core.specs.PlannedEvent.{Copied, TellsTurn, TurnPlanned, WalkTold, acted_unless, core_in, KeepsApart, mark_told, reply_in, reply_of, strode};

use crate::events::{Declined, MOST_EVENTS, MOST_RUNS, no_run, refuse};
use crate::host_core::HostCore;
use crate::runs::{Callee, Copies, Runs, asked};
use beldi_book::{Book, Entry};
use beldi_lang::Deployment;
use beldi_query::{Query, QueryReplyRef};
use beldi_row::TableErr;
use beldi_step::{EventReply, Mark, Run, TurnOutput, Wait, Walking};
use beldi_turn::{may_stride, walking};
use beldi_value::{Boxed, IntentId};
use std::alloc::{AllocError, Global};
use std::mem::{forget, replace};

/// What comes of a turn before the table is asked.
#[derive(Drop)]
pub enum TurnPlan {
    /// It is not made.
    Declined(Declined),
    /// It asks this.
    Asks(Boxed<Query>, Copies),
}

/// The answer to a turn. What there is to tell of it lies apart, as most turns say no more than whether their run is over.
#[derive(Drop)]
pub enum TurnReply {
    /// The turn was made, and says no more than whether its run is over.
    Made(bool),
    /// It was not made.
    Declined(Declined),
    /// It is what lies apart.
    Told,
}

impl TurnReply {
    /// The same answer, as all events are answered, with what lies apart.
    #[inline(always)]
    pub fn into_reply(self, told: EventReply) -> EventReply
        ensures { result ≡ reply_of told self }
    {
        match self {
            TurnReply::Made(over) => {
                drop(told);
                EventReply::Acted {
                    entry: None,
                    started: None,
                    over,
                    reply: None,
                }
            }
            TurnReply::Declined(why) => {
                drop(told);
                why.into_reply()
            }
            TurnReply::Told => told,
        }
    }
}

/// The answer to a turn that was asked, written where what there is to tell lies apart.
pub fn told_in(
    told: &mut EventReply,
    answer: Result<EventReply, AllocError>,
) -> Result<TurnReply, AllocError>
    ensures answer { reply_in told.new result ≡ answer }
    ensures apart { KeepsApart told.old told.new result }
{
    match answer {
        Ok(answer) => {
            drop(replace(told, answer));
            Ok(TurnReply::Told)
        }
        Err(why) => Err(why),
    }
}

fn entry_of(id: IntentId, mark: Mark) -> Entry
    ensures { result ≡ entry_by id mark }
{
    match mark {
        Mark::Read(seen) => Entry::Read { id, version: seen },
        Mark::Step => Entry::Step { id },
        Mark::CommittedTx => Entry::CommittedTx { id },
        Mark::AbortedTx { place, holder } => Entry::AbortedTx { id, place, holder },
    }
}

fn entry_if(id: IntentId, mark: Option<Mark>) -> Option<Entry>
    ensures { result ≡ option_map (entry_by id) mark }
{
    match mark {
        Some(mark) => Some(entry_of(id, mark)),
        None => None,
    }
}

// Appends the entry of an act, if it made one.
fn write(book: &mut Book, entry: Option<Entry>)
    requires { 1 ≤ book.old.spare }
    ensures { book.new.entries ≡ book.old.entries ++ option_to_list entry }
{
    if let Some(entry) = entry {
        book.push(entry);
    }
}

// The answer to a turn that was made, which started this run.
fn acted(id: IntentId, output: TurnOutput, started: Option<u64>) -> EventReply
    ensures { result ≡ acted_by id output.mark output.over output.reply started }
{
    let TurnOutput {
        mark,
        over,
        starts: _,
        wait,
        reply,
    } = output;
    drop(wait);
    let reply = match reply {
        Some(outcome) => Some((id.ticket, outcome)),
        None => None,
    };
    EventReply::Acted {
        entry: entry_if(id, mark),
        started,
        over,
        reply,
    }
}

// .. unless there was no memory for that run.
#[inline(always)]
fn acted_if(
    id: IntentId,
    output: TurnOutput,
    started: Result<Option<u64>, AllocError>,
) -> Result<EventReply, AllocError>
    ensures { result ≡ acted_unless id output.mark output.over output.reply started }
{
    match started {
        Ok(started) => return Ok(acted(id, output, started)),
        Err(why) => {
            drop(id);
            drop(output);
            return Err(why);
        }
    }
}

// .. made of copies: the entry of an act is told too.
fn copy_entry(
    alloc: Global,
    id: &IntentId,
    mark: &Option<Mark>,
) -> Result<Option<Entry>, AllocError>
    ensures { IfOk result (λ e. e ≡ option_map (entry_by id.now) mark.now) }
{
    match mark {
        Some(mark) => Ok(Some(entry_of(id.copy(alloc)?, mark.copy(alloc)?))),
        None => Ok(None),
    }
}

// Whether a run is over, where its turn says no more than that.
fn plainly(output: &TurnOutput) -> Option<bool>
    ensures { IfSome result (λ over. output.now ≡ plain_output None over) }
{
    match output {
        TurnOutput {
            mark: None,
            over,
            starts: false,
            wait: None,
            reply: None,
        } => Some(*over),
        _ => None,
    }
}

// Whether a run of what is called may be started after a turn: not where it waits for a live one.
fn may_follow(runs: &Runs, output: &TurnOutput) -> bool
    ensures { result ≡ may_follow runs.now.runs output.now.starts output.now.wait }
{
    match &output.wait {
        None => output.starts,
        Some(Wait::Result(awaited)) => !runs.has_run(awaited.get()),
        _ => false,
    }
}

// The mark of a run's act, whatever followed.
fn told_mark(turn: Result<TurnOutput, Option<Mark>>) -> Option<Mark>
    ensures { result ≡ mark_told turn }
{
    match turn {
        Ok(output) => output.mark,
        Err(mark) => mark,
    }
}

impl HostCore {
    /// What a turn of the run of this number asks of a table, or its answer. It makes the places that the answer will need; what the
    /// definition sees is as it was, but that the turn was counted. Out of memory, the run is over.
    pub fn plan_turn(&mut self, run: u64) -> Result<TurnPlan, AllocError>
        ensures { (d : Deployment) → TurnPlanned run (counted (core_in self.old)) (core_in self.new) self.new.book.spare (plan d (events.Turn run) (core_in self.old)) result }
    {
        if self.taken >= MOST_EVENTS {
            return Ok(TurnPlan::Declined(Declined::Spent));
        }
        self.taken += 1;
        if self.shut {
            return Ok(TurnPlan::Declined(Declined::Shut));
        }
        self.ask_run(run)
    }

    // What the run of this number asks, or its answer. A place in the book is taken for the entry of its act. A run that is past its
    // deadline is over; and so is one that is out of memory.
    pub(crate) fn ask_run(&mut self, run: u64) -> Result<TurnPlan, AllocError>
        requires given { self.old.runs.given < self.old.taken }
        ensures { TurnPlanned run (core_in self.old) (core_in self.new) self.new.book.spare (run_plan (core_in self.old) run (map.get self.old.runs.runs run)) result }
    {
        let Some(found) = self.runs.get(run) else {
            return Ok(TurnPlan::Declined(no_run(run, self.runs.given())));
        };
        if self.now > found.deadline {
            self.runs.remove(run);
            return Ok(TurnPlan::Declined(Declined::Expired));
        }
        match asked(found, &mut self.book, self.alloc) {
            Ok((query, copies)) => Ok(TurnPlan::Asks(query, copies)),
            Err(why) => {
                self.runs.remove(run);
                Err(why)
            }
        }
    }

    /// The row that the walk of this run looks at next, past the first row of its item, and the place whose entry it looks for there, if
    /// any. None where it makes no walk, is over or past its deadline, where the host is shut, and where there is no memory for the key or
    /// the place.
    pub fn walking(&self, run: u64) -> Option<Walking>
        ensures { WalkTold (core_in self.entry.now) run result }
    {
        let Some(found) = self.runs.get(run) else {
            return None;
        };
        if self.shut || self.now > found.deadline {
            return None;
        }
        match walking(self.alloc, found) {
            Ok(walk) => walk,
            Err(_) => None,
        }
    }

    /// Whether `walking` may tell a row for the run of this number. It is asked first, as it hands on nothing.
    pub fn may_walk(&self, run: u64) -> bool {
        match self.runs.get(run) {
            Some(found) => may_stride(found),
            None => false,
        }
    }

    /// Counts so many turns of this run, which is live, and sets its walk to the row that the last of them leads to.
    pub fn stride(&mut self, run: u64, turns: u64, row: u32)
        requires { (core_in self.old).taken + turns ≤ 2 ^ 62 }
        ensures { core_in self.new ≡ strode (core_in self.old) run turns row }
    {
        self.taken += turns;
        self.runs.stride(run, row);
    }

    /// What follows of a turn where the table told. Where there is more to tell than whether the run is over, it is in `told`.
    pub fn turned(
        &mut self,
        code: &Deployment,
        run: u64,
        copies: Copies,
        heard: QueryReplyRef<'_>,
        told: &mut EventReply,
    ) -> Result<TurnReply, AllocError>
        requires spare { 1 ≤ self.old.book.spare }
        requires live { IsSome (map.get self.old.runs.runs run) }
        requires copies { Copied copies (map.get self.old.runs.runs run) }
        requires given { self.old.runs.given < self.old.taken }
        ensures follows { Followed code.now (events.Turn run) (core_in self.old) (Ok (query_reply_of heard.entry)) (core_in self.new) (reply_in told.new result) }
        ensures apart { KeepsApart told.old told.new result }
    {
        let changes = self.book.changes();
        match self.runs.resume(run, self.alloc, code, changes, heard) {
            Ok(output) => self.tell(run, copies, output, told),
            Err(mark) => {
                write(&mut self.book, entry_if(copies.id, mark));
                Err(AllocError)
            }
        }
    }

    // A turn was made.
    fn tell(
        &mut self,
        run: u64,
        copies: Copies,
        output: TurnOutput,
        told: &mut EventReply,
    ) -> Result<TurnReply, AllocError>
        requires spare { 1 ≤ self.old.book.spare }
        requires given { self.old.runs.given < self.old.taken }
        ensures tells { TellsTurn (core_in self.old) run copies output (core_in self.new) (reply_in told.new result) }
        ensures apart { KeepsApart told.old told.new result }
    {
        if let Some(over) = plainly(&output) {
            drop(copies);
            // It owns nothing.
            forget(output);
            return Ok(TurnReply::Made(over));
        }
        let answer = self.tell_all(run, copies, output);
        told_in(told, answer)
    }

    // A turn was made: its entry is in the book, also where there is no memory to tell of it. Then the run is over.
    fn tell_all(
        &mut self,
        run: u64,
        copies: Copies,
        output: TurnOutput,
    ) -> Result<EventReply, AllocError>
        requires spare { 1 ≤ self.old.book.spare }
        requires given { self.old.runs.given < self.old.taken }
        ensures { TellsTurn (core_in self.old) run copies output (core_in self.new) result }
    {
        let Copies { id, callee } = copies;
        match copy_entry(self.alloc, &id, &output.mark) {
            Ok(entry) => {
                write(&mut self.book, entry);
                let seen = self.follow(run, callee, id, output);
                if seen.is_err() {
                    self.runs.remove(run);
                }
                return seen;
            }
            Err(why) => {
                drop(callee);
                self.runs.remove(run);
                write(&mut self.book, entry_if(id, told_mark(Ok(output))));
                return Err(why);
            }
        }
    }

    // What follows of a turn, with a run of what is called, where one may be started.
    fn follow(
        &mut self,
        run: u64,
        callee: Callee,
        id: IntentId,
        output: TurnOutput,
    ) -> Result<EventReply, AllocError>
        requires given { self.old.runs.given < self.old.taken }
        ensures ok { IfOk result (λ x. (core_in self.new, x) ≡ after_turn_of (core_in self.old) (callee_for callee (map.get self.old.runs.runs run)) id output output.wait) }
        ensures err { OnErr result (core_in self.new ≡ core_in self.old) }
    {
        if !may_follow(&self.runs, &output) {
            drop(callee);
            return self.after_turn(None, id, output);
        }
        match self.callee_for(run, callee) {
            Ok(callee) => return self.after_turn(callee, id, output),
            Err(why) => {
                drop(id);
                drop(output);
                return Err(why);
            }
        }
    }

    fn callee_for(&self, run: u64, callee: Callee) -> Result<Option<Boxed<Run>>, AllocError>
        ensures { IfOk result (λ r. r ≡ callee_for callee (map.get self.entry.now.runs.runs run)) }
    {
        match callee {
            Callee::Made(callee) => Ok(callee),
            Callee::Later => self.runs.callee(self.alloc, run),
        }
    }

    // What follows of a turn: it was made, or the run waits. A run of what it calls may be started; where there is no memory
    // for it, nothing is done.
    fn after_turn(
        &mut self,
        callee: Option<Boxed<Run>>,
        id: IntentId,
        mut output: TurnOutput,
    ) -> Result<EventReply, AllocError>
        requires given { self.old.runs.given < self.old.taken }
        ensures ok { IfOk result (λ x. (core_in self.new, x) ≡ after_turn_of (core_in self.old) callee id output output.wait) }
        ensures err { OnErr result (core_in self.new ≡ core_in self.old) }
    {
        match output.wait.take() {
            None => {
                let started = self.may_start(output.starts, callee);
                return acted_if(id, output, started);
            }
            Some(Wait::Held(owner)) => {
                drop(callee);
                drop(id);
                drop(output);
                return Ok(EventReply::Held(owner));
            }
            Some(Wait::Worn) => {
                drop(callee);
                drop(id);
                drop(output);
                return Ok(EventReply::Worn);
            }
            Some(Wait::Result(awaited)) => return self.after_call(awaited, callee, id, output),
        }
    }

    // .. where the run waits for what it calls.
    fn after_call(
        &mut self,
        awaited: Boxed<IntentId>,
        callee: Option<Boxed<Run>>,
        id: IntentId,
        output: TurnOutput,
    ) -> Result<EventReply, AllocError>
        requires given { self.old.runs.given < self.old.taken }
        ensures ok { IfOk result (λ x. (core_in self.new, x) ≡ after_turn_of (core_in self.old) callee id output (Some (waits.Result awaited))) }
        ensures err { OnErr result (core_in self.new ≡ core_in self.old) }
    {
        let seen = if self.runs.has_run(awaited.get()) {
            EventReply::NotYet(awaited)
        } else if self.runs.len() >= MOST_RUNS {
            drop(awaited);
            EventReply::Crowded
        } else {
            drop(awaited);
            let started = self.start(callee);
            return acted_if(id, output, started);
        };
        drop(callee);
        drop(id);
        drop(output);
        Ok(seen)
    }

    // Starts a run of what was called, if one may start, where that has no live run and there is a place for one.
    fn may_start(
        &mut self,
        starts: bool,
        callee: Option<Boxed<Run>>,
    ) -> Result<Option<u64>, AllocError>
        requires given { self.old.runs.given < self.old.taken }
        ensures ok { IfOk result (λ n. (core_in self.new, n) ≡ (if starts then may_start_of (core_in self.old) callee else (core_in self.old, None))) }
        ensures err { OnErr result (core_in self.new ≡ core_in self.old) }
    {
        let Some(callee) = callee else {
            return Ok(None);
        };
        if !starts || self.runs.has_run(&callee.get().id) || self.runs.len() >= MOST_RUNS {
            drop(callee);
            return Ok(None);
        }
        Ok(Some(self.runs.start(self.alloc, callee)?))
    }

    // Starts a run of what is called.
    fn start(&mut self, callee: Option<Boxed<Run>>) -> Result<Option<u64>, AllocError>
        requires given { self.old.runs.given < self.old.taken }
        ensures ok { IfOk result (λ n. (core_in self.new, n) ≡ started (core_in self.old) callee) }
        ensures err { OnErr result (core_in self.new ≡ core_in self.old) }
    {
        match callee {
            Some(callee) => Ok(Some(self.runs.start(self.alloc, callee)?)),
            None => Ok(None),
        }
    }

    /// What follows of a turn where the table refused: the run is over, unless there was no room for its act.
    pub fn turn_refused(&mut self, run: u64, why: TableErr) -> Result<EventReply, AllocError>
        ensures { (core_in self.new, result) ≡ refused (events.Turn run) (core_in self.old) why }
    {
        match why {
            TableErr::Full { live, room } => Ok(EventReply::Full { live, room }),
            why => {
                self.runs.remove(run);
                refuse(why)
            }
        }
    }

    // The answer is lost: the run is over, and the book has the entry of its act, if any.
    pub(crate) fn unheard(
        &mut self,
        code: &Deployment,
        run: u64,
        copies: Copies,
        heard: QueryReplyRef<'_>,
    ) -> EventReply
        requires spare { 1 ≤ self.old.book.spare }
        requires live { IsSome (map.get self.old.runs.runs run) }
        requires copies { Copied copies (map.get self.old.runs.runs run) }
        ensures { Followed code.now (events.Lost run) (core_in self.old) (Ok (query_reply_of heard.entry)) (core_in self.new) (Ok result) }
    {
        let changes = self.book.changes();
        let mark = told_mark(self.runs.resume(run, self.alloc, code, changes, heard));
        self.runs.remove(run);
        write(&mut self.book, entry_if(copies.id, mark));
        EventReply::Dropped
    }
}
