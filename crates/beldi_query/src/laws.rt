// The laws of turns.
ghost use Rattle.beldi_query.specs.Query.{LentStands, OnlyTransactionsDie};
ghost use Rattle.beldi_query.specs.Walk.{ErrorsLeaveRows};

use crate::walk::Walk;

/// An act that lends what lies in the row has left the row as it was, unless it tells a death.
pub fn what_is_lent_stands()
    ensures { LentStands }
{}

/// Only an act that asks for a lock as a transaction tells a death.
pub fn only_transactions_die()
    ensures { OnlyTransactionsDie }
{}

/// After an error of a turn the rows are as before, for every walk and every table. Only where a transaction asked for a lock and
/// its turn was out of memory, a death that was told in this turn may stand in its row.
pub fn an_error_leaves_the_rows<W: Walk>()
    ensures { ErrorsLeaveRows W.asks W.next W.output }
{}
