// The log collector: what is asked of a table, and what follows.
ghost use Rattle.std.specs.Prelude.{◌≡◌, ℕ, true, false, IfOk, OnErr};
ghost use Rattle.beldi_query.specs.Query.{query_reply_of, lends};
ghost use Rattle.beldi_query.specs.Walk.{Turned};
ghost use Rattle.beldi_prune.specs.declared.collector.CollectorAt.TheVariants as at;
ghost use Rattle.beldi_prune.specs.declared.collector.GcOutput.TheVariants as says;
ghost use Rattle.beldi_prune.specs.Prune.{first_collector, past, is_before, anew as anew_of, prune_asks, prune_next, prune_output, before_next, before_output, begins, to_prove as to_prove_of, stand_if, marked_next, led_next, output_if as output_if_of, mark_output as mark_output_of};

use crate::asking::{ask, ask_at, ask_intent, ask_skip};
use crate::entries::Intents;
use crate::found::{Todo, is_recyclable, judge, seat};
use crate::unlink::{is_did, lead, told_marked, told_next};
use beldi_query::{Query, QueryReplyRef};
use beldi_row::{Act, RowKey, Table, TableErr};
use beldi_value::{Boxed, IntentId, or_drop};
use std::alloc::{AllocError, Global};
use std::mem::replace;

/// What a turn of a log collector says.
#[derive(Drop)]
pub enum GcOutput {
    /// It goes on, and left all rows as they are.
    Going,
    /// It marked a row of an item in this turn: that is to go.
    Marked,
    /// A row of an item leads past a marked one since this turn.
    Skipped,
    /// A marked row, which no row leads to, has the moment of this turn.
    Dangled,
    /// It removed a row in this turn.
    Removed,
    /// No row follows the cursor. It goes back to the least key.
    Round,
}

/// What a log collector is at.
#[derive(Drop)]
pub enum CollectorAt {
    /// The row after the cursor, which it has not begun.
    Before,
    /// The row of an intent, which is to go.
    ToDropIntent(RowKey),
    /// A row that an intent left, whose own row is to be looked at.
    ToLook(RowKey),
    /// A row that an intent left which is gone or old: it is to go.
    ToDrop(RowKey),
    /// A row of an item, of whose entries this intent and then the rest are still to be looked at.
    ToProve {
        key: RowKey,
        intent: IntentId,
        rest: Intents,
    },
    /// A row of an item whose entries are of intents that are gone or old: it is to be marked.
    ToMark(RowKey),
    /// A marked row of an item, which the row of the number `to` comes after. The row `at` of that item is to be looked at.
    ToLead {
        key: RowKey,
        to: u32,
        at: u32,
    },
    /// A marked row of an item, which the row `at` leads to, and is to lead past, to the row `to`.
    ToSkip {
        key: RowKey,
        to: u32,
        at: u32,
    },
    /// A marked row of an item, which no row leads to: it is to have the moment of that.
    ToDangle(RowKey),
    /// A row of an item which no row leads to for more than a life: it is to go.
    ToDropCell(RowKey),
}

/// A log collector. It goes from row to row, in the order of keys, and round again. A row that it has begun lies past its cursor,
/// and the cursor is set to it once it is done.
#[derive(Drop)]
pub struct LogCollector {
    cursor: RowKey,
    at: CollectorAt,
}

impl LogCollector {
    /// A collector that stands before all rows.
    pub fn new(alloc: Global) -> LogCollector
        ensures { result ≡ first_collector }
    {
        LogCollector {
            cursor: RowKey::least(),
            at: CollectorAt::Before,
        }
    }

    // What it asks in its next turn.
    fn query(&self, alloc: Global, life: u64) -> Result<Boxed<Query>, AllocError>
        ensures { IfOk result (λ q. q ≡ prune_asks life self.now) }
    {
        match &self.at {
            CollectorAt::Before => Query::after(alloc, self.cursor.copy(alloc)?),
            CollectorAt::ToDropIntent(key) => ask(alloc, key, Act::DropIntent { life }),
            CollectorAt::ToLook(key) => Query::look(alloc, seat(alloc, key)?),
            CollectorAt::ToDrop(key) => ask(alloc, key, Act::DropRow),
            CollectorAt::ToProve { key, intent, .. } => ask_intent(alloc, intent, key.home()),
            CollectorAt::ToMark(key) => ask(alloc, key, Act::MarkCell),
            CollectorAt::ToLead { key, at, .. } => ask_at(alloc, key, *at, Act::Look),
            CollectorAt::ToSkip { key, to, at } => ask_skip(alloc, key, *to, *at),
            CollectorAt::ToDangle(key) => ask(alloc, key, Act::DangleCell),
            CollectorAt::ToDropCell(key) => ask(alloc, key, Act::DropCell { life }),
        }
    }

    // Moves it, by the newest ticket, the life in ticks, and the moment. Out of memory only for what was lent, and then it stands
    // where it stood.
    fn resume(
        &mut self,
        alloc: Global,
        newest: u32,
        life: u64,
        now: u64,
        heard: QueryReplyRef<'_>,
    ) -> Result<GcOutput, AllocError>
        ensures ok { IfOk result (λ s. (self.new ≡ prune_next newest life now self.old (query_reply_of heard.entry)) × (s ≡ prune_output self.old (query_reply_of heard.entry))) }
        ensures err { OnErr result ((self.new ≡ self.old) × (lends (query_reply_of heard.entry) ≡ true)) }
    {
        match &self.at {
            CollectorAt::Before => self.found(alloc, newest, life, now, heard),
            _ => Ok(self.moved(&heard, life, now)),
        }
    }

    // .. where it has begun a row.
    fn moved(&mut self, heard: &QueryReplyRef<'_>, life: u64, now: u64) -> GcOutput
        requires { is_before self.old.at ≡ false }
        ensures moved { (newest : ℕ) → self.new ≡ prune_next newest life now self.old (query_reply_of heard.entry.now) }
        ensures says { result ≡ prune_output self.old (query_reply_of heard.entry.now) }
    {
        match replace(&mut self.at, CollectorAt::Before) {
            CollectorAt::Before => GcOutput::Going,
            CollectorAt::ToLook(key) => self.looked(key, is_recyclable(heard, life, now)),
            CollectorAt::ToProve { key, intent, rest } => {
                drop(intent);
                self.proved(key, rest, is_recyclable(heard, life, now))
            }
            CollectorAt::ToMark(key) => self.marked(key, told_marked(heard)),
            CollectorAt::ToLead { key, to, at } => self.led(key, to, at, told_next(heard)),
            CollectorAt::ToSkip { key, .. } => self.skipped(key, is_did(heard)),
            CollectorAt::ToDangle(key) => self.done(key, GcOutput::Dangled, is_did(heard)),
            CollectorAt::ToDropIntent(key)
            | CollectorAt::ToDrop(key)
            | CollectorAt::ToDropCell(key) => self.done(key, GcOutput::Removed, is_did(heard)),
        }
    }

    /// One turn, at the moment `now`, by the newest ticket and the life in ticks. It makes one call of the table, or none where it is
    /// out of memory before. After an `Err` the rows are as before, and a row that it has begun it begins anew. `Failed` comes
    /// only where the table failed, and `Full` from no table that tells its rows.
    pub fn turn<T: Table>(
        &mut self,
        alloc: Global,
        table: &mut T,
        newest: u32,
        life: u64,
        now: u64,
    ) -> Result<GcOutput, TableErr>
        ensures { Turned (prune_asks life self.old) now (prune_next newest life now self.old) (prune_output self.old) (anew_of self.old) self.new (T.state table.old) (T.state table.new) result }
    {
        match self.make_turn(alloc, table, newest, life, now) {
            Ok(says) => Ok(says),
            Err(why) => {
                self.anew();
                Err(why)
            }
        }
    }

    // .. after an `Err` it stands where it stood.
    fn make_turn<T: Table>(
        &mut self,
        alloc: Global,
        table: &mut T,
        newest: u32,
        life: u64,
        now: u64,
    ) -> Result<GcOutput, TableErr>
        ensures { Turned (prune_asks life self.old) now (prune_next newest life now self.old) (prune_output self.old) self.old self.new (T.state table.old) (T.state table.new) result }
    {
        let query = match self.query(alloc, life) {
            Ok(query) => query,
            Err(_) => return Err(TableErr::OutOfMemory),
        };
        match query.into_inner() {
            Query::Act(key, act) => match table.act(key, act, now) {
                Ok(said) => match self.resume(alloc, newest, life, now, QueryReplyRef::Act(said)) {
                    Ok(says) => Ok(says),
                    Err(_) => Err(TableErr::OutOfMemory),
                },
                Err(why) => Err(why),
            },
            Query::After(key) => {
                let next = table.next(&key);
                drop(key);
                match next {
                    Ok(found) => match self.resume(
                        alloc,
                        newest,
                        life,
                        now,
                        QueryReplyRef::Found(found),
                    ) {
                        Ok(says) => Ok(says),
                        Err(_) => Err(TableErr::OutOfMemory),
                    },
                    Err(why) => Err(why),
                }
            }
        }
    }

    // What is found after the cursor.
    fn found(
        &mut self,
        alloc: Global,
        newest: u32,
        life: u64,
        now: u64,
        heard: QueryReplyRef<'_>,
    ) -> Result<GcOutput, AllocError>
        requires { self.old.at ≡ at.Before }
        ensures ok { IfOk result (λ s. (self.new ≡ before_next newest life now self.old.cursor (query_reply_of heard.entry)) × (s ≡ before_output (query_reply_of heard.entry))) }
        ensures err { OnErr result ((self.new ≡ self.old) × (lends (query_reply_of heard.entry) ≡ true)) }
    {
        let QueryReplyRef::Found(Some((key, row))) = heard else {
            self.go_to(RowKey::least());
            return Ok(GcOutput::Round);
        };
        let begun = key.copy(alloc)?;
        let todo = or_drop!(judge(alloc, key, row, newest, life, now); begun);
        self.begin_row(begun, todo);
        Ok(GcOutput::Going)
    }

    // Begins a row, or goes past it.
    fn begin_row(&mut self, key: RowKey, todo: Todo)
        requires { self.old.at ≡ at.Before }
        ensures { self.new ≡ begins self.old.cursor key todo }
    {
        match todo {
            Todo::Pass => self.go_to(key),
            Todo::DropIt => self.begin(CollectorAt::ToDropIntent(key)),
            Todo::LookAt => self.begin(CollectorAt::ToLook(key)),
            Todo::DropAdrift => self.begin(CollectorAt::ToDropCell(key)),
            Todo::LeadPast(to) => self.begin(CollectorAt::ToLead { key, to, at: 0 }),
            Todo::Prove(intents) => self.begin(to_prove(key, intents)),
        }
    }

    // The intent of a row that it left was looked at.
    fn looked(&mut self, key: RowKey, is_so: bool) -> GcOutput
        ensures moved { self.new ≡ stand_if self.old.cursor key (at.ToDrop key) is_so }
        ensures says { result ≡ says.Going }
    {
        if is_so {
            self.begin(CollectorAt::ToDrop(key));
        } else {
            self.go_to(key);
        }
        GcOutput::Going
    }

    // The intent of some entries of a row was looked at, before the rest.
    fn proved(&mut self, key: RowKey, rest: Intents, is_so: bool) -> GcOutput
        ensures moved { self.new ≡ stand_if self.old.cursor key (to_prove_of key rest) is_so }
        ensures says { result ≡ says.Going }
    {
        if is_so {
            self.begin(to_prove(key, rest));
        } else {
            drop(rest);
            self.go_to(key);
        }
        GcOutput::Going
    }

    // A row was marked, and this one comes after it; or it was not.
    fn marked(&mut self, key: RowKey, next: Option<u32>) -> GcOutput
        ensures moved { self.new ≡ marked_next self.old.cursor key next }
        ensures says { result ≡ mark_output_of next }
    {
        match next {
            Some(to) => {
                self.begin(CollectorAt::ToLead { key, to, at: 0 });
                GcOutput::Marked
            }
            None => {
                self.go_to(key);
                GcOutput::Going
            }
        }
    }

    // The row `at` was looked at, on the way to that of the key.
    fn led(&mut self, key: RowKey, to: u32, at: u32, next: Option<Option<u32>>) -> GcOutput
        ensures moved { self.new ≡ led_next self.old.cursor key to at next }
        ensures says { result ≡ says.Going }
    {
        match next {
            Some(next) => self.begin(lead(key, to, at, next)),
            None => self.go_to(key),
        }
        GcOutput::Going
    }

    // A row leads past that of the key, or it was not led so.
    fn skipped(&mut self, key: RowKey, is_so: bool) -> GcOutput
        ensures moved { self.new ≡ stand_if self.old.cursor key (at.ToDangle key) is_so }
        ensures says { result ≡ output_if_of says.Skipped is_so }
    {
        if is_so {
            self.begin(CollectorAt::ToDangle(key));
            GcOutput::Skipped
        } else {
            self.go_to(key);
            GcOutput::Going
        }
    }

    // It is done with a row. It says this, where the act did what it was asked for.
    fn done(&mut self, key: RowKey, says: GcOutput, is_so: bool) -> GcOutput
        ensures moved { self.new ≡ past key }
        ensures says { result ≡ output_if_of says is_so }
    {
        self.go_to(key);
        if is_so { says } else { GcOutput::Going }
    }

    // Sets it past this key.
    fn go_to(&mut self, key: RowKey)
        ensures { self.new ≡ past key }
    {
        let at = CollectorAt::Before;
        drop(replace(self, LogCollector { cursor: key, at }));
    }

    // Sets what it is at.
    fn begin(&mut self, at: CollectorAt)
        ensures { self.new ≡ record self.old { at = at } }
    {
        drop(replace(&mut self.at, at));
    }

    // Leaves the row that it has begun, if any, and stands before it: so it is begun anew.
    fn anew(&mut self)
        ensures { self.new ≡ anew_of self.old }
    {
        self.begin(CollectorAt::Before);
    }
}

// The first of these intents is to be looked at; where there is none, the row is to be marked.
fn to_prove(key: RowKey, intents: Intents) -> CollectorAt
    ensures { result ≡ to_prove_of key intents }
{
    let mut rest = intents;
    match rest.take() {
        Some(intent) => CollectorAt::ToProve { key, intent, rest },
        None => {
            drop(rest);
            CollectorAt::ToMark(key)
        }
    }
}
