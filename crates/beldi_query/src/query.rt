// What is asked of a table, and what is heard of it.
ghost use Rattle.std.specs.Prelude.{◌≡◌, IfOk};
ghost use Rattle.beldi_row.specs.declared.act.Act.TheVariants as acts;
ghost use Rattle.beldi_query.specs.declared.query.Query.TheVariants as queries;

use beldi_row::{Act, ActReplyRef, Row, RowKey};
use beldi_value::Boxed;
use std::alloc::{AllocError, Global};

/// What is asked of a table.
#[derive(Drop)]
pub enum Query {
    /// An act on the row with the key.
    Act(RowKey, Act),
    /// The first row whose key is greater.
    After(RowKey),
}

impl Query {
    /// Asks for an act on the row with the key. What is asked lies apart, as it is large and is handed on often.
    #[inline(always)]
    pub fn act(alloc: Global, key: RowKey, act: Act) -> Result<Boxed<Query>, AllocError>
        ensures { IfOk result (λ q. q ≡ queries.Act key act) }
    {
        Boxed::new(alloc, Query::Act(key, act))
    }

    /// Asks for the row with the key.
    #[inline(always)]
    pub fn look(alloc: Global, key: RowKey) -> Result<Boxed<Query>, AllocError>
        ensures { IfOk result (λ q. q ≡ queries.Act key acts.Look) }
    {
        Query::act(alloc, key, Act::Look)
    }

    /// Asks for the first row whose key is greater.
    #[inline(always)]
    pub fn after(alloc: Global, key: RowKey) -> Result<Boxed<Query>, AllocError>
        ensures { IfOk result (λ q. q ≡ queries.After key) }
    {
        Boxed::new(alloc, Query::After(key))
    }
}

/// What a table told. It lends what lies in the rows.
#[derive(Drop)]
pub enum QueryReplyRef<'a> {
    /// An act was made, and told this.
    Act(ActReplyRef<'a>),
    /// This row is the next, if there is one.
    Found(Option<(&'a RowKey, &'a Row)>),
}
