// The walk of the end of a transaction: one act a turn.
ghost use Rattle.std.specs.Prelude.{◌≡◌};
ghost use Rattle.beldi_txn.specs.End.{first_end};

use crate::end::{EndOutput, EndState, end_query, end_told};
use beldi_query::{Query, QueryReplyRef, Walk};
use beldi_value::{Boxed, TxId};
use std::alloc::{AllocError, Global};

/// A walk that ends a transaction for its owner: it keeps the decision, and then visits the owner and all whom it led to call, each
/// after those that it called. It gives back every item that they asked the locks of, with the value of the transaction's own copy
/// where it commits, and each participant gets its finish. Once it says `Done` it stands, and looks for a further item.
#[derive(Drop)]
pub struct EndWalk {
    tx: TxId,
    end: u32,
    commit: bool,
    visit: EndState,
}

impl Walk for EndWalk {
    ghost use Rattle.beldi_txn.specs.End.{walk_asks, walk_next, walk_output};

    type Output = EndOutput;

    ghost asks = { walk_asks };

    ghost next = { walk_next };

    ghost output = { walk_output };

    fn ask(&self, alloc: Global) -> Result<Boxed<Query>, AllocError> {
        end_query(alloc, &self.tx, self.end, self.commit, &self.visit)
    }

    fn resume(&mut self, alloc: Global, heard: QueryReplyRef<'_>) -> Result<EndOutput, AllocError> {
        let goes = end_told(alloc, &self.tx, self.end, self.commit, &self.visit, heard)?;
        Ok(self.visit.go(self.commit, goes))
    }
}

impl EndWalk {
    /// A walk that ends a transaction at the owner's step `end`, with its effects or without.
    pub fn new(alloc: Global, tx: TxId, end: u32, commit: bool) -> EndWalk
        ensures { result ≡ first_end tx end commit }
    {
        EndWalk {
            tx,
            end,
            commit,
            visit: EndState::first(alloc),
        }
    }
}
