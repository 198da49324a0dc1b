// The walk of an operation of a transaction: one act a turn.
ghost use Rattle.std.specs.Prelude.{◌≡◌, true};
ghost use Rattle.beldi_txn.specs.Tx.{is_operation};
ghost use Rattle.beldi_txn.specs.TxWalk.{first_tx};

use crate::tx::{TxAt, TxOutput, tx_query, tx_told};
use beldi_lang::Effect;
use beldi_query::{Query, QueryReplyRef, Walk};
use beldi_value::{Boxed, Place, TxId};
use std::alloc::{AllocError, Global};

/// A walk for an operation of a transaction on an item: a read, a write or a conditional write. It takes the item's lock, and then works
/// on the transaction's own copy of the item. However many walks there are for a place, each answers what the rows keep for it. A
/// walk that kept a value looks for it next; unless it says `Going`, any other stands where it stood.
#[derive(Drop)]
pub struct TxWalk {
    home: u16,
    place: Place,
    tx: TxId,
    effect: Effect,
    at: TxAt,
}

impl Walk for TxWalk {
    ghost use Rattle.beldi_txn.specs.TxWalk.{walk_asks, walk_next, walk_output};

    type Output = TxOutput;

    ghost asks = { walk_asks };

    ghost next = { walk_next };

    ghost output = { walk_output };

    fn ask(&self, alloc: Global) -> Result<Boxed<Query>, AllocError> {
        let place = self.place.copy(alloc)?;
        tx_query(alloc, self.home, place, &self.tx, &self.effect, &self.at)
    }

    fn resume(&mut self, alloc: Global, heard: QueryReplyRef<'_>) -> Result<TxOutput, AllocError> {
        let goes = tx_told(
            alloc,
            &self.place,
            self.tx.begin,
            &self.effect,
            &self.at,
            heard,
        )?;
        Ok(self.at.go(goes))
    }
}

impl TxWalk {
    /// A walk for an operation at `place`, in the transaction `tx`, on an item of the function `home`.
    pub fn new(home: u16, place: Place, tx: TxId, effect: Effect) -> TxWalk
        requires { is_operation effect ≡ true }
        ensures { result ≡ first_tx home place tx effect }
    {
        let at = TxAt::first(tx.begin, &effect);
        TxWalk {
            home,
            place,
            tx,
            effect,
            at,
        }
    }
}
