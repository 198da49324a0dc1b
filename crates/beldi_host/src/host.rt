// The host: the one place where an event touches the table.
ghost use Rattle.std.specs.Prelude.{◌≡◌, ◌+◌, ◌++◌, ◌≤◌, ◌^◌, ◌↔◌, IsTrue, true, false, Ok, IfOk, IfErr, IfSome, OnOk, OnErr, length};
ghost use Rattle.beldi_step.specs.Prunes.{pruned_by};
ghost use Rattle.beldi_core.specs.PlannedEvent.{reply_in};

use crate::survey::{OpenErr, ReplyStatus, ahead, find_newest, list_tables, prepare, read_reply};
use beldi_book::Book;
use beldi_check::Checked;
use beldi_core::{
    Copies, HostCore, MOST_EVENTS, Pending, Planned, Runs, TurnPlan, TurnReply, told_in, turn_in,
};
use beldi_kept::an_event_keeps_the_collectors_safe;
use beldi_prune::{Collectors, GcOutput};
use beldi_query::{Query, QueryReplyRef};
use beldi_row::{Act, RowKey, Table, TableErr};
use beldi_step::{Event, EventReply, Pruned, Walking};
use beldi_value::{Boxed, TextBuf, or_drop};
use std::alloc::{AllocError, Global};
use std::mem::replace;

/// A host: a deployment over a table, with what it knows beside them.
#[derive(Drop)]
pub struct Host<T: Table> {
    code: Checked,
    core: HostCore,
    table: T,
    ghost few: { core.runs.given ≤ core.taken },
}

impl<T: Table> Host<T> {
    ghost use Rattle.beldi_row.specs.Table.{IsCount, AtMostOne};
    ghost use Rattle.beldi_check.specs.Keeps.{KeepsRules};
    ghost use Rattle.beldi_step.specs.HostStep.{StepBy, Stepped, last_moment, most_events, reads_all};
    ghost use Rattle.beldi_step.specs.declared.event.Event.TheVariants as events;
    ghost use Rattle.beldi_kept.specs.Safe.{changes};
    ghost use Rattle.beldi_step.specs.Prunes.{Prunes};
    ghost use Rattle.beldi_step.specs.Tables.{tables_text};
    ghost use Rattle.beldi_host.specs.Survey.{Opened, PassesToldOpen, Refused, NewestAt, Reads, reply_status, is_unknown};
    ghost use Rattle.beldi_host.specs.declared.survey.ReplyStatus.TheVariants.{Gone, Unknown};
    ghost use Rattle.beldi_core.specs.LiveRuns.{IsLeastPast};
    ghost use Rattle.beldi_query.specs.declared.query.Query.TheVariants as queries;
    ghost use Rattle.beldi_host.specs.HostCore.{core_of};
    ghost use Rattle.beldi_host.specs.HostStride.{Passes, Strides};
    ghost use Rattle.beldi_step.specs.Next.{at_key, next_run, reset};
    ghost use Rattle.beldi_core.specs.PlannedEvent.{core_in, event_of, Ready, RunReady, Asked, KeepsApart, reply_in, turn_in};
    ghost use Rattle.beldi_invariant.specs.InvariantLaws.{is_gone};
    ghost use Rattle.beldi_host.specs.HostInvariant.{EndsLate, HasInvariant, IsWhole, KeepsInvariant, HasLegalBook, AnswersAreKept, HasRows, ListsRun, TellsRun, HasNoRows, RowsStandFor, RowsStandLess};

    /// Opens a host over a table whose rows it keeps: sets the table's room, and reads all rows to find the newest ticket and
    /// the greatest moment, so that it goes on where an earlier session ended. Its moment, in ticks, is that one, or `now` where
    /// this is later. Where it refuses, it gives the table back.
    pub fn open(
        alloc: Global,
        code: Checked,
        mut table: T,
        now: u64,
    ) -> Result<Host<T>, (T, OpenErr)>
        requires { now ≤ 2 ^ 62 }
        ensures ok { IfOk result (λ h. Opened code h.code now (T.state table) (T.state h.table) (core_of h)) }
        ensures err { IfErr result (λ e. Refused (T.state table) (T.state e.0) e.1) }
        ensures newest { IfOk result (λ h. NewestAt (T.state table).rows h.core.newest) }
        ensures right { IfOk result (λ h. HasNoRows (T.state table).rows → HasInvariant h × IsWhole h) }
    {
        match prepare(alloc, code.code().room, &mut table) {
            Ok(left) => Ok(Host {
                code,
                core: HostCore {
                    alloc,
                    newest: left.ticket,
                    runs: Runs::new(alloc),
                    book: Book::new(alloc),
                    now: now.max(left.moment),
                    cursor: RowKey::least(),
                    taken: 0,
                    shut: false,
                    collectors: Collectors::new(alloc),
                },
                table,
            }),
            Err(why) => Err((table, why)),
        }
    }

    /// Gives the table back.
    pub fn close(self) -> T
        ensures table { result ≡ self.table }
        ensures stands { IsWhole self → RowsStandFor self.code (core_of self).book (T.state result).rows }
        ensures stands_less { HasInvariant self → RowsStandLess self.code (core_of self).book (T.state result).rows }
    {
        let Host { code, core, table } = self;
        drop(code);
        drop(core);
        table
    }

    /// The deployment.
    pub fn code(&self) -> &Checked
        ensures { result.now ≡ self.entry.now.code }
    {
        &self.code
    }

    /// What holds of every host: its deployment keeps every rule, its moment is at most the last one, and it has eight log collectors.
    pub fn keeps_rules(&self)
        ensures rules { KeepsRules self.now.code.funcs }
        ensures early { self.entry.now.core.now ≤ last_moment }
        ensures eight { length self.now.core.collectors ≡ 8 }
    {
        let _code = self.code.code();
        self.core.collectors.are_eight();
    }

    /// The book. That of a host with the invariant is legal: each of its transactions is one entry, `CommittedTx` whole, `AbortedTx` without a trace in the items.
    pub fn book(&self) -> &Book
        ensures book { result.now ≡ self.entry.now.core.book }
        ensures legal { HasInvariant self.entry.now → HasLegalBook self.entry.now }
    {
        &self.core.book
    }

    /// The moment, in ticks.
    pub fn now(&self) -> u64
        ensures { result ≡ self.entry.now.core.now }
    {
        self.core.now
    }

    /// How many rows its table has; 4,294,967,295 where it has more.
    pub fn rows(&self) -> u32
        ensures { IsCount (T.state self.entry.now.table).rows result }
    {
        self.table.len()
    }

    /// The least live run past this number.
    pub fn next_run(&self, after: u64) -> Option<u64>
        ensures least { IsLeastPast after self.entry.now.core.runs.runs result }
        ensures first { result ≡ next_run (core_of self.entry.now) after }
    {
        self.core.runs.next_after(after)
    }

    /// Sets the intent collector before all rows.
    pub fn ic_reset(&mut self)
        ensures core { core_of self.new ≡ reset (core_of self.old) }
        ensures table { self.new.table ≡ self.old.table }
        ensures code { self.new.code ≡ self.old.code }
        ensures right { KeepsInvariant self.old self.new }
    {
        let least = RowKey::least();
        drop(replace(&mut self.core.cursor, least));
    }

    /// Sets the intent collector forward over rows that are of no open intent, where the table tells them.
    pub fn ic_skip(&mut self)
        ensures core { core_of self.new ≡ at_key (core_of self.new).cursor (core_of self.old) }
        ensures passes { PassesToldOpen (T.state self.old.table).rows (core_of self.old).cursor (core_of self.new).cursor }
        ensures table { self.new.table ≡ self.old.table }
        ensures code { self.new.code ≡ self.old.code }
        ensures right { KeepsInvariant self.old self.new }
    {
        if let Some(key) = ahead(&self.table, &self.core.cursor) {
            drop(replace(&mut self.core.cursor, key));
        }
    }

    /// Appends the listing of tables. After an `Err` the text is as before.
    pub fn tables(&mut self, out: &mut TextBuf) -> Result<(), OpenErr>
        ensures reads { Reads (λ m u. out.new ≡ out.old ++ tables_text self.old.code m) (T.state self.old.table) (T.state self.new.table) result }
        ensures err { OnErr result (out.new ≡ out.old) }
        ensures core { core_of self.new ≡ core_of self.old }
        ensures code { self.new.code ≡ self.old.code }
        ensures right { KeepsInvariant self.old self.new }
        ensures listing { HasInvariant self.old → OnOk result (ListsRun self.old out.old out.new) }
    {
        self.list(out)
    }

    // The listing, by the rows alone.
    fn list(&mut self, out: &mut TextBuf) -> Result<(), OpenErr>
        ensures reads { Reads (λ m u. out.new ≡ out.old ++ tables_text self.old.code m) (T.state self.old.table) (T.state self.new.table) result }
        ensures err { OnErr result (out.new ≡ out.old) }
        ensures core { core_of self.new ≡ core_of self.old }
        ensures code { self.new.code ≡ self.old.code }
    {
        let text = list_tables(
            self.core.alloc,
            self.code.code(),
            &mut self.table,
            self.core.now,
        )?;
        or_drop!(out.push_text(text.as_str()); text);
        Ok(())
    }

    /// The reply of a ticket's root, as its row has it. A ticket that was not issued is unknown without a call of the table;
    /// for any other its row is looked at once.
    pub fn reply(&mut self, ticket: u32) -> Result<ReplyStatus, OpenErr>
        ensures reads { Reads (λ m x. x ≡ reply_status self.old.core.newest ticket m) (T.state self.old.table) (T.state self.new.table) result }
        ensures unknown { IfOk result (λ x. (x ≡ Unknown) ↔ IsTrue (is_unknown self.old.core.newest ticket)) }
        ensures issued { IfErr result (λ e. is_unknown self.old.core.newest ticket ≡ false) }
        ensures calls { AtMostOne (T.state self.old.table).calls (T.state self.new.table).calls }
        ensures untouched { is_unknown self.old.core.newest ticket ≡ true → T.state self.new.table ≡ T.state self.old.table }
        ensures core { core_of self.new ≡ core_of self.old }
        ensures code { self.new.code ≡ self.old.code }
        ensures right { KeepsInvariant self.old self.new }
        ensures plain { HasInvariant self.old → IfOk result (λ x. TellsRun self.old ticket x) }
        ensures there { HasRows self.old → IsWhole self.old → IfOk result (λ x. x ≡ Gone → ⊥) }
    {
        self.look(ticket)
    }

    // The reply, by its row alone.
    fn look(&mut self, ticket: u32) -> Result<ReplyStatus, OpenErr>
        ensures reads { Reads (λ m x. x ≡ reply_status self.old.core.newest ticket m) (T.state self.old.table) (T.state self.new.table) result }
        ensures unknown { IfOk result (λ x. (x ≡ Unknown) ↔ IsTrue (is_unknown self.old.core.newest ticket)) }
        ensures issued { IfErr result (λ e. is_unknown self.old.core.newest ticket ≡ false) }
        ensures calls { AtMostOne (T.state self.old.table).calls (T.state self.new.table).calls }
        ensures untouched { is_unknown self.old.core.newest ticket ≡ true → T.state self.new.table ≡ T.state self.old.table }
        ensures core { core_of self.new ≡ core_of self.old }
        ensures code { self.new.code ≡ self.old.code }
    {
        if ticket == 0 || ticket > self.core.newest {
            return Ok(ReplyStatus::Unknown);
        }
        read_reply(self.core.alloc, &mut self.table, ticket, self.core.now)
    }

    /// Sets a run that walks along an item's rows forward over rows that hold nothing for it, where the table looks ahead: it is as so
    /// many turns of the run, each answered `Acted` with no more. It tells how many, at most `most`.
    pub fn stride(&mut self, run: u64, most: u64) -> u64
        ensures strides { IfSome (T.state self.old.table).rows (Strides self.old.code (T.state self.old.table).room (T.state self.old.table).faults run result (core_of self.old) (core_of self.new)) }
        ensures most { result ≤ most }
        ensures taken { (core_of self.new).taken ≡ (core_of self.old).taken + result }
        ensures few { (core_of self.new).taken ≤ most_events }
        ensures none { result ≡ 0 → self.new ≡ self.old }
        ensures table { self.new.table ≡ self.old.table }
        ensures code { self.new.code ≡ self.old.code }
        ensures right { KeepsInvariant self.old self.new }
    {
        an_event_keeps_the_collectors_safe();
        let most = most.min(MOST_EVENTS - self.core.taken);
        match self.passes(run, most) {
            Some((turns, row)) => {
                if turns == 0 || turns > most {
                    return 0;
                }
                self.core.stride(run, turns, row);
                turns
            }
            None => 0,
        }
    }

    // Over how many rows the walk of a run goes, at most so many, and to which one, as the table tells.
    fn passes(&self, run: u64, most: u64) -> Option<(u64, u32)>
        ensures { IfSome result (λ x. Passes (core_of self.entry.now) run most x (T.state self.entry.now.table).rows) }
    {
        if !self.core.may_walk(run) {
            return None;
        }
        self.walked(run, most)
    }

    // .. where it may make a walk.
    fn walked(&self, run: u64, most: u64) -> Option<(u64, u32)>
        ensures { IfSome result (λ x. Passes (core_of self.entry.now) run most x (T.state self.entry.now.table).rows) }
    {
        match self.core.walking(run) {
            Some(Walking { key, place }) => {
                let passes = self.table.passes(key, place.as_ref(), most);
                drop(place);
                passes
            }
            None => None,
        }
    }

    /// Carries out one event, with at most one call of the table's `act` or `next`; an event that is answered at once makes
    /// none. A halt reads all rows instead, a call for each and one more; after it no run is live, also where the table failed, and it is
    /// then shut: all but a halt is answered so. Out of memory, nothing was done, but that the event counts as taken, and that a run that had it is over; the act
    /// of a turn may then have been made, and the book has its entry. A crash and a tick take no memory, and of the events that
    /// make no act only a restart may be out of it. A run that is past its deadline makes no act. The entry of a transaction comes with the
    /// act that keeps its decision; what is read and written inside makes none. Over rows that are told it is the relation that `a_step_over_rows` of `beldi_step`
    /// gives.
    pub fn event(&mut self, event: Event) -> Result<EventReply, AllocError>
        ensures step { Stepped self.old.code event (core_of self.old) (core_of self.new) (T.state self.old.table) (T.state self.new.table) result }
        ensures code { self.new.code ≡ self.old.code }
        ensures right { KeepsInvariant self.old self.new }
        ensures answers_stay { AnswersAreKept self.old self.new }
        ensures has_rows { HasRows self.old → IsWhole self.old → IfOk result (λ x. is_gone x ≡ false) }
        ensures in_time { EndsLate event (core_of self.old) (core_of self.new) (T.state self.old.table) (T.state self.new.table) result }
    {
        an_event_keeps_the_collectors_safe();
        self.carry_out(event)
    }

    /// Gives the run of this number a turn, as `event` does. Where there is more to tell than whether the run is over, it is in `told`, which
    /// else is as it was. It is for who gives many turns, as most say no more.
    pub fn turn(&mut self, run: u64, told: &mut EventReply) -> Result<TurnReply, AllocError>
        ensures step { Stepped self.old.code (events.Turn run) (core_of self.old) (core_of self.new) (T.state self.old.table) (T.state self.new.table) (reply_in told.new result) }
        ensures code { self.new.code ≡ self.old.code }
        ensures apart { KeepsApart told.old told.new result }
        ensures right { KeepsInvariant self.old self.new }
        ensures answers_stay { AnswersAreKept self.old self.new }
        ensures has_rows { HasRows self.old → IsWhole self.old → IfOk (reply_in told.new result) (λ x. is_gone x ≡ false) }
        ensures in_time { EndsLate (events.Turn run) (core_of self.old) (core_of self.new) (T.state self.old.table) (T.state self.new.table) (reply_in told.new result) }
    {
        an_event_keeps_the_collectors_safe();
        self.take_turn(run, told)
    }

    /// Gives the log collector of this number a turn, with at most one call of the table. The turn counts as an event. Out of memory,
    /// or where the table failed, the rows are as before, and a row that the collector had begun it begins anew.
    pub fn prune(&mut self, number: u8) -> Result<Pruned, AllocError>
        ensures prunes { Prunes self.old.code number (core_of self.old) (core_of self.new) (T.state self.old.table) (T.state self.new.table) result }
        ensures code { self.new.code ≡ self.old.code }
        ensures right { HasInvariant self.old → HasInvariant self.new }
        ensures whole { IsWhole self.old → IfOk result (λ y. changes y ≡ false) → IsWhole self.new }
    {
        self.collect(number)
    }

    // One turn of the definition.
    fn collect(&mut self, number: u8) -> Result<Pruned, AllocError>
        ensures prunes { Prunes self.old.code number (core_of self.old) (core_of self.new) (T.state self.old.table) (T.state self.new.table) result }
        ensures code { self.new.code ≡ self.old.code }
    {
        if self.core.taken >= MOST_EVENTS {
            return Ok(Pruned::Spent);
        }
        self.core.taken += 1;
        if self.core.shut {
            return Ok(Pruned::Shut);
        }
        let life = self.code.code().life;
        let core = &mut self.core;
        let table = &mut self.table;
        let said = core
            .collectors
            .turn(number, core.alloc, table, core.newest, life, core.now);
        pruned(said)
    }

    // One step of the definition.
    fn carry_out(&mut self, event: Event) -> Result<EventReply, AllocError>
        ensures step { Stepped self.old.code event (core_of self.old) (core_of self.new) (T.state self.old.table) (T.state self.new.table) result }
        ensures code { self.new.code ≡ self.old.code }
    {
        match turn_in(&event) {
            Some(run) => {
                drop(event);
                self.whole_turn(run)
            }
            None => self.step(event),
        }
    }

    // A turn, answered as all events are.
    fn whole_turn(&mut self, run: u64) -> Result<EventReply, AllocError>
        ensures step { Stepped self.old.code (events.Turn run) (core_of self.old) (core_of self.new) (T.state self.old.table) (T.state self.new.table) result }
        ensures code { self.new.code ≡ self.old.code }
    {
        let mut told = EventReply::Shut;
        let said = self.take_turn(run, &mut told);
        whole(told, said)
    }

    // .. told apart.
    fn take_turn(&mut self, run: u64, told: &mut EventReply) -> Result<TurnReply, AllocError>
        ensures step { Stepped self.old.code (events.Turn run) (core_of self.old) (core_of self.new) (T.state self.old.table) (T.state self.new.table) (reply_in told.new result) }
        ensures code { self.new.code ≡ self.old.code }
        ensures apart { KeepsApart told.old told.new result }
    {
        match self.core.plan_turn(run) {
            Ok(TurnPlan::Declined(why)) => Ok(TurnReply::Declined(why)),
            Ok(TurnPlan::Asks(query, copies)) => self.ask_turn(query, run, copies, told),
            Err(why) => Err(why),
        }
    }

    // The one query of a turn, and what follows.
    fn ask_turn(
        &mut self,
        query: Boxed<Query>,
        run: u64,
        copies: Copies,
        told: &mut EventReply,
    ) -> Result<TurnReply, AllocError>
        requires { RunReady (core_of self.old) run copies self.old.core.book.spare }
        ensures asked { Asked self.old.code (events.Turn run) (core_of self.old) (core_of self.new) query (T.state self.old.table) (T.state self.new.table) (reply_in told.new result) }
        ensures code { self.new.code ≡ self.old.code }
        ensures apart { KeepsApart told.old told.new result }
    {
        match query.into_inner() {
            Query::Act(key, act) => self.turn_act(key, act, run, copies, told),
            Query::After(key) => {
                let said = self.turn_after(&key, run, copies, told);
                drop(key);
                said
            }
        }
    }

    fn turn_act(
        &mut self,
        key: RowKey,
        act: Act,
        run: u64,
        copies: Copies,
        told: &mut EventReply,
    ) -> Result<TurnReply, AllocError>
        requires { RunReady (core_of self.old) run copies self.old.core.book.spare }
        ensures asked { Asked self.old.code (events.Turn run) (core_of self.old) (core_of self.new) (queries.Act key act) (T.state self.old.table) (T.state self.new.table) (reply_in told.new result) }
        ensures code { self.new.code ≡ self.old.code }
        ensures apart { KeepsApart told.old told.new result }
    {
        match self.table.act(key, act, self.core.now) {
            Ok(said) => {
                let heard = QueryReplyRef::Act(said);
                self.core.turned(self.code.code(), run, copies, heard, told)
            }
            Err(why) => {
                drop(copies);
                let answer = self.core.turn_refused(run, why);
                told_in(told, answer)
            }
        }
    }

    fn turn_after(
        &mut self,
        key: &RowKey,
        run: u64,
        copies: Copies,
        told: &mut EventReply,
    ) -> Result<TurnReply, AllocError>
        requires { RunReady (core_of self.old) run copies self.old.core.book.spare }
        ensures asked { Asked self.old.code (events.Turn run) (core_of self.old) (core_of self.new) (queries.After key.now) (T.state self.old.table) (T.state self.new.table) (reply_in told.new result) }
        ensures code { self.new.code ≡ self.old.code }
        ensures apart { KeepsApart told.old told.new result }
    {
        match self.table.next(key) {
            Ok(found) => {
                let heard = QueryReplyRef::Found(found);
                self.core.turned(self.code.code(), run, copies, heard, told)
            }
            Err(why) => {
                drop(copies);
                let answer = self.core.turn_refused(run, why);
                told_in(told, answer)
            }
        }
    }

    // An event that is no turn is one step of the definition.
    fn step(&mut self, event: Event) -> Result<EventReply, AllocError>
        requires { turn_in event ≡ None }
        ensures step { Stepped self.old.code event (core_of self.old) (core_of self.new) (T.state self.old.table) (T.state self.new.table) result }
        ensures code { self.new.code ≡ self.old.code }
    {
        match self.core.plan(self.code.code(), event) {
            Ok(Planned::Now(answer)) => return Ok(answer.into_reply()),
            Ok(Planned::Asks(query, pending)) => return self.ask(query.into_inner(), pending),
            Ok(Planned::ReadsAll) => return self.halt(),
            Err(why) => return Err(why),
        }
    }

    // A halt: the keys of all rows are read.
    fn halt(&mut self) -> Result<EventReply, AllocError>
        ensures step { StepBy self.old.code events.Halt (core_of self.old) reads_all (core_of self.new) (T.state self.old.table) (T.state self.new.table) result }
        ensures code { self.new.code ≡ self.old.code }
    {
        let read = find_newest(self.core.alloc, &mut self.table);
        self.core.halted(read)
    }

    // The one query of an event, and what follows.
    fn ask(&mut self, query: Query, pending: Pending) -> Result<EventReply, AllocError>
        requires { Ready self.old.code pending (core_of self.old) self.old.core.book.spare }
        ensures asked { Asked self.old.code (event_of pending) (core_of self.old) (core_of self.new) query (T.state self.old.table) (T.state self.new.table) result }
        ensures code { self.new.code ≡ self.old.code }
    {
        match query {
            Query::Act(key, act) => return self.act(key, act, pending),
            Query::After(key) => {
                let seen = self.look_after(&key, pending);
                drop(key);
                return seen;
            }
        }
    }

    fn act(&mut self, key: RowKey, act: Act, pending: Pending) -> Result<EventReply, AllocError>
        requires { Ready self.old.code pending (core_of self.old) self.old.core.book.spare }
        ensures asked { Asked self.old.code (event_of pending) (core_of self.old) (core_of self.new) (queries.Act key act) (T.state self.old.table) (T.state self.new.table) result }
        ensures code { self.new.code ≡ self.old.code }
    {
        match self.table.act(key, act, self.core.now) {
            Ok(said) => return self
                .core
                .resume(self.code.code(), pending, QueryReplyRef::Act(said)),
            Err(why) => return self.core.refused(pending, why),
        }
    }

    fn look_after(&mut self, key: &RowKey, pending: Pending) -> Result<EventReply, AllocError>
        requires { Ready self.old.code pending (core_of self.old) self.old.core.book.spare }
        ensures asked { Asked self.old.code (event_of pending) (core_of self.old) (core_of self.new) (queries.After key.now) (T.state self.old.table) (T.state self.new.table) result }
        ensures code { self.new.code ≡ self.old.code }
    {
        match self.table.next(key) {
            Ok(found) => self
                .core
                .resume(self.code.code(), pending, QueryReplyRef::Found(found)),
            Err(why) => self.core.refused(pending, why),
        }
    }
}

// The answer to a turn.
fn whole(told: EventReply, said: Result<TurnReply, AllocError>) -> Result<EventReply, AllocError>
    ensures { result ≡ reply_in told said }
{
    match said {
        Ok(said) => return Ok(said.into_reply(told)),
        Err(why) => {
            drop(told);
            Err(why)
        }
    }
}

// How a turn of a log collector is answered.
fn pruned(said: Result<GcOutput, TableErr>) -> Result<Pruned, AllocError>
    ensures { result ≡ pruned_by said }
{
    match said {
        Ok(GcOutput::Going) => Ok(Pruned::Going),
        Ok(GcOutput::Marked) => Ok(Pruned::Marked),
        Ok(GcOutput::Skipped) => Ok(Pruned::Skipped),
        Ok(GcOutput::Dangled) => Ok(Pruned::Dangled),
        Ok(GcOutput::Removed) => Ok(Pruned::Removed),
        Ok(GcOutput::Round) => Ok(Pruned::Round),
        Err(TableErr::OutOfMemory) => Err(AllocError),
        Err(_) => Ok(Pruned::Dropped),
    }
}
