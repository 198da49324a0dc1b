// The keys of open intents, in their order.
ghost use Rattle.std.specs.Prelude.{◌≡◌, true, not, ◌&&◌, ◌||◌};
ghost use Rattle.beldi_row.specs.Table.{is_open};
ghost use Rattle.beldi_table.specs.Opened.{binds, switches, Noted, Sets};

use beldi_row::{Act, Kind, Row, RowKey};
use std::alloc::Global;
use std::collections::BTreeSet;

// Whether the act may open an intent whose row is there.
pub(crate) fn binds(act: &Act) -> bool
    ensures { result ≡ binds act.now }
{
    matches!(act, Act::Bind { .. })
}

/// Whether the act may open or close an intent whose row is there.
pub fn switches(act: &Act) -> bool
    ensures { result ≡ switches act.now }
{
    matches!(act, Act::Bind { .. } | Act::End { .. } | Act::Stamp)
}

/// Whether a row of this kind is that of an open intent.
pub fn is_open(kind: &Kind, row: &Row) -> bool
    ensures { result ≡ is_open kind.now row.now }
{
    match (kind, row) {
        (Kind::Intent(_), Row::Intent(intent)) => {
            intent.body.is_some() && !(intent.outcome.is_some() || intent.finish.is_some())
        }
        _ => false,
    }
}

/// Puts a copy of the key there, where it is wanted, and tells whether there was the memory; else all is as before.
#[inline(always)]
pub fn note_if(keys: &mut BTreeSet<RowKey>, alloc: Global, key: &RowKey, wanted: bool) -> bool
    ensures { Noted wanted key.now keys.old keys.new result }
{
    !wanted || note(keys, alloc, key)
}

fn note(keys: &mut BTreeSet<RowKey>, alloc: Global, key: &RowKey) -> bool
    ensures { Noted true key.now keys.old keys.new result }
{
    let Ok(copy) = key.copy(alloc) else {
        return false;
    };
    match keys.insert(copy) {
        Ok(_) => true,
        Err(failed) => {
            drop(failed);
            false
        }
    }
}

/// Takes the key away, where it is not wanted.
pub fn forget_if(keys: &mut BTreeSet<RowKey>, key: &RowKey, unwanted: bool)
    ensures { Sets key.now (λ b. not unwanted && b) keys.old keys.new }
{
    if unwanted {
        keys.remove(key);
    }
}

// After an act on the row with the key, which may have opened or closed an intent: takes the key away, where it is not open.
#[inline(always)]
pub(crate) fn follow(keys: &mut BTreeSet<RowKey>, key: &RowKey, row: &Row, switched: bool)
    ensures { Sets key.now (λ b. (not switched || is_open key.now.kind row.now) && b) keys.old keys.new }
{
    if switched {
        forget_if(keys, key, !is_open(key.kind(), row));
    }
}
