// What a log collector asks of a row.
ghost use Rattle.std.specs.Prelude.{◌≡◌, IfOk};
ghost use Rattle.beldi_row.specs.Key.{at_row, row_of as row_in};
ghost use Rattle.beldi_row.specs.declared.act.Act.TheVariants as acts;
ghost use Rattle.beldi_query.specs.declared.query.Query.TheVariants as queries;
ghost use Rattle.beldi_intent.specs.Intent.{intent_key as intent_key_of};

use crate::unlink::row_of;
use beldi_intent::intent_key;
use beldi_query::Query;
use beldi_row::{Act, RowKey};
use beldi_value::{Boxed, IntentId, or_drop};
use std::alloc::{AllocError, Global};

/// Asks for an act on the row with this key.
pub(crate) fn ask(alloc: Global, key: &RowKey, act: Act) -> Result<Boxed<Query>, AllocError>
    ensures { IfOk result (λ q. q ≡ queries.Act key.now act) }
{
    let key = or_drop!(key.copy(alloc); act);
    Query::act(alloc, key, act)
}

/// .. on the row of the same item with this number.
pub(crate) fn ask_at(
    alloc: Global,
    key: &RowKey,
    at: u32,
    act: Act,
) -> Result<Boxed<Query>, AllocError>
    ensures { IfOk result (λ q. q ≡ queries.Act (at_row key.now at) act) }
{
    let key = or_drop!(key.copy(alloc); act);
    Query::act(alloc, key.at_row(at), act)
}

/// Asks for the row `at` to lead to the row `to`, past that of the key.
pub(crate) fn ask_skip(
    alloc: Global,
    key: &RowKey,
    to: u32,
    at: u32,
) -> Result<Boxed<Query>, AllocError>
    ensures { IfOk result (λ q. q ≡ queries.Act (at_row key.now at) (acts.SkipCell (row_in key.now.kind) to)) }
{
    let from = row_of(key);
    ask_at(alloc, key, at, Act::SkipCell { from, to })
}

/// Asks for the row of an intent, whose function is this one.
pub(crate) fn ask_intent(
    alloc: Global,
    intent: &IntentId,
    func: u16,
) -> Result<Boxed<Query>, AllocError>
    ensures { IfOk result (λ q. q ≡ queries.Act (intent_key_of intent.now func) acts.Look) }
{
    Query::look(alloc, intent_key(intent.copy(alloc)?, func))
}
