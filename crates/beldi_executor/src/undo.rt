// What a transaction sets in place, and what was there before.
ghost use Rattle.std.specs.Prelude.{◌≡◌, ◌++◌, ◌∷◌, [], OnOk, OnErr};
ghost use Rattle.std.specs.FinMap as map;
ghost use Rattle.beldi_plain.specs.Plain.{Instance};
ghost use Rattle.beldi_executor.specs.Undo.{MadeIn, HasRoom, AllHaveRoom, all_back, all_swept, back, swept, item_was};

use crate::instance::tested;
use crate::items::Items;
use beldi_lang::{Answer, Effect};
use beldi_value::{Str, Value, or_drop};
use std::alloc::{AllocError, Global};
use std::marker::Model;

/// What an item was.
#[derive(Drop)]
pub struct Was {
    pub func: u16,
    pub table: u16,
    pub key: Str,
    pub value: Option<Value>,
}

#[derive(Drop)]
pub struct Undo {
    entries: Vec<Was>,
}

impl Model for Undo {
    ghost use Rattle.std.specs.Prelude.{List};
    ghost use Rattle.std.specs.Coded.{coded_list};
    ghost use Rattle.beldi_executor.specs.declared.undo.Was.{Was};
    ghost use Rattle.beldi_executor.specs.contracts.undo.Was as was;

    ghost Value = { List Was };

    ghost coded = { coded_list was.the_row.coded };

    ghost view = { λ a. a.entries.items };
}

impl Undo {
    pub fn new(alloc: Global) -> Undo
        ensures { result ≡ [] }
    {
        Undo {
            entries: Vec::new(alloc),
        }
    }

    /// Makes a read or an operation on an item, as inside a transaction, and gives the answer to it. Another effect changes nothing.
    pub fn make(
        &mut self,
        alloc: Global,
        items: &mut Items,
        func: u16,
        effect: &Effect,
    ) -> Result<Option<Answer>, AllocError>
        ensures { (q : Instance) → func ≡ q.func → MadeIn items.old items.new self.old self.new q effect.now result }
    {
        match effect {
            Effect::Read { table, key } => {
                let value = items.copy_of(alloc, func, *table, key)?;
                Ok(Some(Answer::Value(value)))
            }
            Effect::Write { table, key, value } => {
                self.put(alloc, items, func, *table, key, value)?;
                Ok(Some(Answer::Done))
            }
            Effect::CondWrite {
                table,
                key,
                rel,
                operand,
                value,
            } => {
                let passes = items.passes(func, *table, key, *rel, operand);
                if passes {
                    self.put(alloc, items, func, *table, key, value)?;
                }
                Ok(Some(tested(passes)))
            }
            _ => Ok(None),
        }
    }

    // Sets an item, also to null, and keeps what it was.
    fn put(
        &mut self,
        alloc: Global,
        items: &mut Items,
        func: u16,
        table: u16,
        key: &Str,
        value: &Value,
    ) -> Result<(), AllocError>
        ensures ok { OnOk result ((items.new ≡ map.insert items.old (record { func = func; table = table; key = key.now }) value.now) × (self.new ≡ self.old ++ record { func = func; table = table; key = key.now; value = map.get items.old (record { func = func; table = table; key = key.now }) } ∷ [])) }
        ensures err { OnErr result ((items.new ≡ items.old) × (self.new ≡ self.old)) }
    {
        self.entries.reserve(1)?;
        let kept = key.copy(alloc)?;
        let key = or_drop!(key.copy(alloc); kept);
        let value = or_drop!(value.copy(alloc); kept, key);
        let before = or_drop!(items.put(func, table, key, value); kept);
        self.entries.push_reserved(Was {
            func,
            table,
            key: kept,
            value: before,
        });
        Ok(())
    }

    /// Puts all items back.
    pub fn restore(self, items: &mut Items)
        requires { AllHaveRoom items.old self }
        ensures { items.new ≡ all_back items.old self }
    {
        let mut entries = self.entries;
        while let Some(was) = entries.pop() {
            put_back(items, was);
        }
    }

    /// Leaves the items as they are, and null as absent.
    pub fn keep(self, items: &mut Items)
        ensures { items.new ≡ all_swept items.old self }
    {
        let mut entries = self.entries;
        while let Some(was) = entries.pop() {
            sweep(items, was);
        }
    }
}

// An item is as it was.
fn put_back(items: &mut Items, was: Was)
    requires { HasRoom items.old (item_was was) was.value }
    ensures { items.new ≡ back items.old (item_was was) was.value }
{
    let Was {
        func,
        table,
        key,
        value,
    } = was;
    let Some(value) = value else {
        items.unset(func, table, &key);
        return;
    };
    match items.put(func, table, key, value) {
        Ok(old) => drop(old),
        Err(_) => unreachable!(),
    }
}

// An item that is null is absent.
fn sweep(items: &mut Items, was: Was)
    ensures { items.new ≡ swept items.old (item_was was) }
{
    let is_null = matches!(items.get(was.func, was.table, &was.key), Some(Value::Null));
    if is_null {
        items.unset(was.func, was.table, &was.key);
    }
    drop(was);
}
