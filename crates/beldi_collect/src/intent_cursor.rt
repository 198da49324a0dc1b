// The intent collector as a walk of its own.
ghost use Rattle.std.specs.Prelude.{◌≡◌, Some, None, IsSome, IfOk, OnErr};
ghost use Rattle.beldi_row.specs.Key.{RowKey};
ghost use Rattle.beldi_query.specs.Walk.{Turned};
ghost use Rattle.beldi_collect.specs.declared.intent_cursor.IcOutput.TheVariants as IcOutput;
ghost use Rattle.beldi_collect.specs.Cursor.{first_cursor, cursor_asks, cursor_next, cursor_output};

use crate::cursor::{collect_query, open_intent, passing};
use beldi_query::{Query, QueryReplyRef, Walk};
use beldi_row::{Body, RowKey, Table, TableErr};
use beldi_value::{Boxed, IntentId, or_drop};
use std::alloc::{AllocError, Global};
use std::mem::replace;

/// What a turn of the intent collector says.
#[derive(Drop)]
pub enum IcOutput {
    /// A row was passed.
    Passed,
    /// The next row is that of an intent which has this body and has not ended. The cursor stands before it.
    Unended { id: IntentId, body: Body },
    /// No row follows the cursor. It goes back to the least key.
    Round,
}

/// A walk from row to row, in the order of keys, and round again, which stops at each intent that has not ended.
#[derive(Drop)]
pub struct IntentCursor {
    at: RowKey,
    // the key of the row that the last turn stopped at
    kept: Option<RowKey>,
}

impl Walk for IntentCursor {
    ghost use Rattle.beldi_collect.specs.Cursor.{cursor_asks, cursor_next, cursor_output};

    type Output = IcOutput;

    ghost asks = { cursor_asks };

    ghost next = { cursor_next };

    ghost output = { cursor_output };

    fn ask(&self, alloc: Global) -> Result<Boxed<Query>, AllocError> {
        collect_query(alloc, &self.at)
    }

    fn resume(&mut self, alloc: Global, heard: QueryReplyRef<'_>) -> Result<IcOutput, AllocError> {
        let QueryReplyRef::Found(Some((key, row))) = heard else {
            self.go_to(RowKey::least());
            return Ok(IcOutput::Round);
        };
        match open_intent(key, row) {
            None => {
                self.go_to(passing(alloc, key)?);
                Ok(IcOutput::Passed)
            }
            Some((id, body)) => self.stop_at(alloc, key, id, body),
        }
    }
}

impl IntentCursor {
    /// A walk that stands before all rows.
    pub fn new() -> IntentCursor
        ensures { result ≡ first_cursor }
    {
        IntentCursor {
            at: RowKey::least(),
            kept: None,
        }
    }

    // Sets the walk after this key.
    fn go_to(&mut self, at: RowKey)
        ensures { self.new ≡ record { at = at; kept = None } }
    {
        drop(replace(self, IntentCursor { at, kept: None }));
    }

    // Stops at an intent that has not ended, and keeps its key.
    fn stop_at(
        &mut self,
        alloc: Global,
        key: &RowKey,
        id: &IntentId,
        body: &Body,
    ) -> Result<IcOutput, AllocError>
        ensures ok { IfOk result (λ s. (self.new ≡ record self.old { kept = Some key.now }) × (s ≡ IcOutput.Unended id.now body.now)) }
        ensures err { OnErr result (self.new ≡ self.old) }
    {
        let id = id.copy(alloc)?;
        let body = or_drop!(body.copy(alloc); id);
        let key = or_drop!(key.copy(alloc); id, body);
        drop(self.kept.replace(key));
        Ok(IcOutput::Unended { id, body })
    }

    /// One step to the next row; the rows are as before. After `Unended` the walk still stands before that row, and after an
    /// `Err` it stands where it stood. `Failed` comes only where the table failed, and `Full` never.
    pub fn turn<T: Table>(&mut self, alloc: Global, table: &mut T) -> Result<IcOutput, TableErr>
        ensures { Turned (cursor_asks self.old) 0 (cursor_next self.old) (cursor_output self.old) self.old self.new (T.state table.old) (T.state table.new) result }
    {
        Walk::turn(self, alloc, table, 0)
    }

    /// Sets the walk after the row that its last turn stopped at: it answered `Unended`.
    pub fn pass(&mut self)
        requires { IsSome self.old.kept }
        ensures { (k : RowKey) → self.old.kept ≡ Some k → self.new ≡ record { at = k; kept = None } }
    {
        match self.kept.take() {
            Some(key) => self.go_to(key),
            None => (),
        }
    }
}
