// The parts of records and lists.
ghost use Rattle.std.specs.Prelude.{◌≡◌, [], ◌∷◌, ◌++◌, IfOk, OnOk, OnErr, option_map, option_copied, slice_get};
ghost use Rattle.beldi_value.specs.Injective.{value_of};
ghost use Rattle.beldi_value.specs.Datum.{IsRecord};
ghost use Rattle.beldi_value.specs.Value.{datum_of, fields_view, items_view};
ghost use Rattle.beldi_value.specs.RecordParts.{field_at, set_field, place_at as place_at_index, item_at, IsPlace};

use crate::or_drop;
use crate::text::Str;
use crate::value::{Rec, Value, Values};
use std::alloc::{AllocError, Global};
use std::cmp::Ordering;
use std::rc::Rc;

impl Values {
    /// The item at this index, from 0. None is before the first, nor after the last.
    pub fn at(&self, index: i64) -> Option<&Value>
        ensures { option_copied result ≡ option_map value_of (item_at index self.now) }
    {
        match place_at(index) {
            Some(place) => self.item(place),
            None => None,
        }
    }

    fn item(&self, place: usize) -> Option<&Value>
        ensures { option_copied result ≡ option_map value_of (slice_get self.now place) }
    {
        value_at(self.as_slice(), place)
    }

    /// Appends an item. Where copies share the items, they are copied first.
    pub fn push(&mut self, alloc: Global, item: Value) -> Result<(), AllocError>
        ensures ok { OnOk result (self.new ≡ self.old ++ datum_of item ∷ []) }
        ensures err { OnErr result (self.new ≡ self.old) }
    {
        if let Some(items) = Rc::get_mut(&mut self.items) {
            items.push(item)?;
            return Ok(());
        }
        let mut items = or_drop!(items_of(alloc, self.as_slice()); item);
        or_drop!(items.push(item); items);
        *self = Values::from_vec(alloc, items)?;
        Ok(())
    }
}

impl Rec {
    /// The field of this key.
    pub fn get(&self, key: &Str) -> Option<&Value>
        ensures { option_copied result ≡ option_map value_of (field_at key.now self.now) }
    {
        for field in self.fields.as_ref() {
            if key.cmp(&field.0).is_eq() {
                return Some(&field.1);
            }
        }
        None
    }

    /// Sets the field of this key. Where copies share the fields, they are copied first.
    pub fn set(&mut self, alloc: Global, key: Str, value: Value) -> Result<(), AllocError>
        ensures ok { OnOk result (self.new ≡ set_field self.old key (datum_of value)) }
        ensures err { OnErr result (self.new ≡ self.old) }
    {
        if let Some(fields) = Rc::get_mut(&mut self.fields) {
            return set_in(fields, key, value);
        }
        let mut fields = or_drop!(fields_of(alloc, self.as_slice()); key, value);
        or_drop!(set_in(&mut fields, key, value); fields);
        *self = Rec::from_vec(alloc, fields)?;
        Ok(())
    }
}

// Equal items.
fn items_of(alloc: Global, items: &[Value]) -> Result<Vec<Value>, AllocError>
    ensures { IfOk result (λ v. v.items ≡ items.now) }
{
    let mut copies = Vec::with_capacity(alloc, items.len() + 1)?;
    for item in items {
        copies.push(item.copy(alloc)?)?;
    }
    Ok(copies)
}

// Equal fields.
fn fields_of(alloc: Global, fields: &[(Str, Value)]) -> Result<Vec<(Str, Value)>, AllocError>
    ensures { IfOk result (λ v. v.items ≡ fields.now) }
{
    let mut copies = Vec::with_capacity(alloc, fields.len() + 1)?;
    for field in fields {
        copies.push((field.0.copy(alloc)?, field.1.copy(alloc)?))?;
    }
    Ok(copies)
}

// Sets the field of this key.
fn set_in(fields: &mut Vec<(Str, Value)>, key: Str, value: Value) -> Result<(), AllocError>
    requires { IsRecord (fields_view fields.old.items) }
    ensures ok { OnOk result (fields_view fields.new.items ≡ set_field (fields_view fields.old.items) key (datum_of value)) }
    ensures err { OnErr result (fields.new.items ≡ fields.old.items) }
    ensures record { IsRecord (fields_view fields.new.items) }
{
    match place_of(fields.as_slice(), &key) {
        Ok(place) => {
            fields[place] = (key, value);
            Ok(())
        }
        Err(place) => {
            fields.insert(place, (key, value))?;
            Ok(())
        }
    }
}

fn place_at(index: i64) -> Option<usize>
    ensures { result ≡ place_at_index index }
{
    if index < 0 {
        None
    } else {
        Some(index as usize)
    }
}

fn value_at(items: &[Value], place: usize) -> Option<&Value>
    ensures { option_copied result ≡ slice_get items.now place }
{
    items.get(place)
}

// Where the field of this key stands, or else where it belongs.
fn place_of(fields: &[(Str, Value)], key: &Str) -> Result<usize, usize>
    ensures { IsPlace (fields_view fields.now) key.now result }
{
    for (i, field) in fields.iter().enumerate() {
        match key.cmp(&field.0) {
            Ordering::Less => return Err(i),
            Ordering::Equal => return Ok(i),
            Ordering::Greater => {}
        }
    }
    Err(fields.len())
}
