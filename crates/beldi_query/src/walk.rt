// A walk asks one thing a turn, and is told what it came to; a turn of it is made over any table.
ghost use Rattle.std.specs.Prelude.{◌≡◌, true, IfOk, OnErr};
ghost use Rattle.beldi_query.specs.Query.{QueryReply, query_reply_of, lends};
ghost use Rattle.beldi_query.specs.Walk.{Turned};
ghost use Rattle.beldi_query.specs.declared.query.Query as query_data;

use crate::query::{Query, QueryReplyRef};
use beldi_row::{Table, TableErr};
use beldi_value::Boxed;
use std::alloc::{AllocError, Global};

/// A machine that asks one thing a turn. It touches no table but in `turn`, which is the same for all.
pub trait Walk {
    /// What it says of a turn.
    type Output;

    /// What it asks in its next turn.
    ghost asks: { Self → query_data.Query };

    /// Where it stands after it was told.
    ghost next: { Self → QueryReply → Self };

    /// What it says then.
    ghost output: { Self → QueryReply → Self.Output };

    /// What it asks in its next turn.
    fn ask(&self, alloc: Global) -> Result<Boxed<Query>, AllocError>
        ensures { IfOk result (λ q. q ≡ asks self.now) };

    /// Moves it. Out of memory only where what lies in a row was lent.
    fn resume(
        &mut self,
        alloc: Global,
        heard: QueryReplyRef<'_>,
    ) -> Result<Self::Output, AllocError>
        ensures ok { IfOk result (λ s. (self.new ≡ next self.old (query_reply_of heard.entry)) × (s ≡ output self.old (query_reply_of heard.entry))) }
        ensures err { OnErr result ((self.new ≡ self.old) × (lends (query_reply_of heard.entry) ≡ true)) };

    /// One turn, at the moment `now`, in ticks. It makes one call of the table, or none where it is out of memory before. After an
    /// `Err` the walk stands where it stood, and the rows are as before, since what is lent was left as it was
    /// (`what_is_lent_stands`); out of memory, a death that was told in this turn may stand. `Failed` comes only where the table
    /// failed, and `Full` exactly where the query adds a row and the table has no room for it.
    fn turn<T: Table>(
        &mut self,
        alloc: Global,
        table: &mut T,
        now: u64,
    ) -> Result<Self::Output, TableErr>
        ensures { Turned (asks self.old) now (next self.old) (output self.old) self.old self.new (T.state table.old) (T.state table.new) result }
    {
        let query = match self.ask(alloc) {
            Ok(query) => query,
            Err(_) => return Err(TableErr::OutOfMemory),
        };
        match query.into_inner() {
            Query::Act(key, act) => match table.act(key, act, now) {
                Ok(said) => match self.resume(alloc, QueryReplyRef::Act(said)) {
                    Ok(output) => Ok(output),
                    Err(_) => Err(TableErr::OutOfMemory),
                },
                Err(why) => Err(why),
            },
            Query::After(key) => {
                let next = table.next(&key);
                drop(key);
                match next {
                    Ok(found) => match self.resume(alloc, QueryReplyRef::Found(found)) {
                        Ok(output) => Ok(output),
                        Err(_) => Err(TableErr::OutOfMemory),
                    },
                    Err(why) => Err(why),
                }
            }
        }
    }
}
