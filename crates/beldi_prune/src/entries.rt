// The intents of the entries of a row.
ghost use Rattle.std.specs.Prelude.{◌≡◌, [], ◌∷◌, ◌++◌, IfOk, OnOk, MatchOption};
ghost use Rattle.std.specs.Option.{option_copied, option_to_list};
ghost use Rattle.beldi_prune.specs.CellEntries.{intents_of, is_other as is_other_of};

use beldi_row::Log;
use beldi_value::IntentId;
use std::alloc::{AllocError, Global};
use std::collections::VecDeque;
use std::marker::Model;

/// The intents of some entries of a row, which are still to be looked at, one after another.
#[derive(Drop)]
pub struct Intents {
    ids: VecDeque<IntentId>,
}

impl Model for Intents {
    ghost use Rattle.std.specs.Prelude.{List};
    ghost use Rattle.beldi_value.specs.declared.id.IntentId.{IntentId};

    ghost Value = { List IntentId };

    ghost view = { λ a. a.ids.items };
}

impl Intents {
    /// The intent of each entry that has another one than the entry before it, the oldest first.
    pub(crate) fn of(alloc: Global, log: &Log) -> Result<Intents, AllocError>
        ensures { IfOk result (λ is. is ≡ intents_of log.now) }
    {
        let mut ids = VecDeque::new(alloc);
        let mut before = None;
        for entry in log.as_slice() {
            let intent = &entry.place.intent;
            if is_other(before, intent) {
                add(alloc, &mut ids, intent)?;
            }
            before = Some(intent);
        }
        Ok(Intents { ids })
    }

    /// Takes the first of them out, if there is one. It takes no memory.
    pub(crate) fn take(&mut self) -> Option<IntentId>
        ensures all { self.old ≡ option_to_list result ++ self.new }
        ensures none { MatchOption result (self.new ≡ []) (λ _. Unit {0}) }
    {
        self.ids.pop_front()
    }
}

// Whether it is another than the one before, if there is one.
fn is_other(before: Option<&IntentId>, intent: &IntentId) -> bool
    ensures { result ≡ is_other_of (option_copied before.entry) intent.now }
{
    match before {
        Some(before) => *before != *intent,
        None => true,
    }
}

// Puts a copy at the end.
fn add(alloc: Global, ids: &mut VecDeque<IntentId>, intent: &IntentId) -> Result<(), AllocError>
    ensures { OnOk result (ids.new.items ≡ ids.old.items ++ intent.now ∷ []) }
{
    let copy = intent.copy(alloc)?;
    ids.push_back(copy)?;
    Ok(())
}
