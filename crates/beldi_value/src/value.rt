// A value: null, a truth, a whole number, a text, a list or a record.
ghost use Rattle.std.specs.Prelude.{◌≡◌, ℕ, List, [], ◌∷◌, ◌++◌, OnOk, OnErr, IfOk, IsTrue, ◌↔◌, length};
ghost use Rattle.beldi_value.specs.Value.{datum_of};

use crate::text::Str;
use std::alloc::{AllocError, Global};
use std::marker::Model;
use std::rc::Rc;

/// What items, arguments and outcomes hold.
#[cycle(value)]
#[derive(Drop)]
pub enum Value {
    Null,
    Bool(bool),
    Int(i64),
    Text(Str),
    List(Values),
    Rec(Rec),
}

/// The items of a list. Copies share them, until one of the copies is changed.
#[cycle(value)]
#[derive(Drop)]
pub struct Values {
    pub(crate) items: Rc<Vec<Value>>,
}

/// The fields of a record: in the order of their keys, each key once. Copies share them, until one of the copies is changed.
#[cycle(value)]
#[derive(Drop)]
pub struct Rec {
    pub(crate) fields: Rc<Vec<(Str, Value)>>,
}

impl Model for Values {
    ghost use Rattle.std.specs.Prelude.{List};
    ghost use Rattle.beldi_value.specs.Datum.{Datum, coded_datums, datums_size};

    ghost Value = { List Datum };

    ghost coded = { coded_datums };

    ghost use Rattle.beldi_value.specs.Value.{items_view};

    ghost view = { λ a. items_view a.items.value.items };

    ghost size = { datums_size };

    ghost use Rattle.std.proofs.Common.{arith};
    ghost use Rattle.beldi_value.specs.ValueFalls.{most_items};

    ghost size_decreases = { λ a h. omega (arith, most_items a.items.value.items) };
}

impl Model for Rec {
    ghost use Rattle.std.specs.Prelude.{List, ℕ};
    ghost use Rattle.beldi_value.specs.Datum.{Datum, coded_fields, fields_size, IsRecord};

    ghost Value = { List (List ℕ × Datum) };

    ghost coded = { coded_fields };

    ghost use Rattle.beldi_value.specs.Value.{fields_view};

    ghost view = { λ a. fields_view a.fields.value.items };

    ghost invariant = { λ a. IsRecord (fields_view a.fields.value.items) };

    ghost size = { fields_size };

    ghost use Rattle.beldi_value.specs.ValueFalls.{most_fields};

    ghost size_decreases = { λ a h. most_fields a.fields.value.items };
}

impl Values {
    ghost use Rattle.beldi_value.specs.Value.{items_view};

    /// No items.
    pub fn new(alloc: Global) -> Result<Values, AllocError>
        ensures { IfOk result (λ v. v ≡ []) }
    {
        Values::from_vec(alloc, Vec::new(alloc))
    }

    /// The list of these items.
    pub fn from_vec(alloc: Global, items: Vec<Value>) -> Result<Values, AllocError>
        ensures { IfOk result (λ v. v ≡ items_view items.items) }
    {
        Ok(Values {
            items: Rc::new(alloc, items)?,
        })
    }

    /// How many items there are.
    pub fn len(&self) -> usize
        ensures { result ≡ length self.now }
    {
        self.items.as_ref().len()
    }
}

impl Rec {
    ghost use Rattle.beldi_value.specs.Datum.{IsRecord};
    ghost use Rattle.beldi_value.specs.Value.{fields_view};

    /// No fields.
    pub fn new(alloc: Global) -> Result<Rec, AllocError>
        ensures { IfOk result (λ v. v ≡ []) }
    {
        Rec::from_vec(alloc, Vec::new(alloc))
    }

    // The record of these fields.
    pub(crate) fn from_vec(alloc: Global, fields: Vec<(Str, Value)>) -> Result<Rec, AllocError>
        requires { IsRecord (fields_view fields.items) }
        ensures { IfOk result (λ v. v ≡ fields_view fields.items) }
    {
        Ok(Rec {
            fields: Rc::new(alloc, fields)?,
        })
    }

    /// How many fields there are.
    pub fn len(&self) -> usize
        ensures { result ≡ length self.now }
    {
        self.fields.as_ref().len()
    }
}

impl Value {
    /// An equal value.
    pub fn copy(&self, alloc: Global) -> Result<Value, AllocError>
        ensures { IfOk result (λ v. v ≡ self.now) }
    {
        match self {
            Value::Null => Ok(Value::Null),
            Value::Bool(b) => Ok(Value::Bool(*b)),
            Value::Int(n) => Ok(Value::Int(*n)),
            Value::Text(s) => Ok(Value::Text(s.copy(alloc)?)),
            Value::List(list) => Ok(Value::List(list.copy(alloc)?)),
            Value::Rec(rec) => Ok(Value::Rec(rec.copy(alloc)?)),
        }
    }

    /// Whether two values are equal.
    #[cycle(same)]
    pub fn is_same(&self, other: &Value) -> bool
        ensures { IsTrue result ↔ (self.now ≡ other.now) }
    {
        match (self, other) {
            (Value::Null, Value::Null) => true,
            (Value::Bool(a), Value::Bool(b)) => *a == *b,
            (Value::Int(m), Value::Int(n)) => *m == *n,
            (Value::Text(s), Value::Text(t)) => s == t,
            (Value::List(a), Value::List(b)) => a.is_same(b),
            (Value::Rec(a), Value::Rec(b)) => a.is_same(b),
            _ => false,
        }
    }
}

impl Values {
    ghost use Rattle.beldi_value.specs.Value.{items_view};

    /// The items.
    pub fn as_slice(&self) -> &[Value]
        ensures { items_view result.now ≡ self.now }
    {
        self.items.as_ref().as_slice()
    }

    /// An equal list, in the same memory.
    pub fn copy(&self, alloc: Global) -> Result<Values, AllocError>
        ensures { IfOk result (λ v. v ≡ self.now) }
    {
        Ok(Values {
            items: self.items.clone()?,
        })
    }

    /// Whether two lists are equal.
    #[cycle(same)]
    pub fn is_same(&self, other: &Values) -> bool
        ensures { IsTrue result ↔ (self.now ≡ other.now) }
    {
        let own = self.items.as_ref();
        let items = other.items.as_ref();
        if own.len() != items.len() {
            return false;
        }
        for (i, v) in own.iter().enumerate() {
            if !v.is_same(&items[i]) {
                return false;
            }
        }
        true
    }
}

impl Rec {
    ghost use Rattle.beldi_value.specs.Value.{fields_view};

    /// The fields, in the order of their keys.
    pub fn as_slice(&self) -> &[(Str, Value)]
        ensures { fields_view result.now ≡ self.now }
    {
        self.fields.as_ref().as_slice()
    }

    /// An equal record, in the same memory.
    pub fn copy(&self, alloc: Global) -> Result<Rec, AllocError>
        ensures { IfOk result (λ v. v ≡ self.now) }
    {
        Ok(Rec {
            fields: self.fields.clone()?,
        })
    }

    /// Whether two records are equal.
    #[cycle(same)]
    pub fn is_same(&self, other: &Rec) -> bool
        ensures { IsTrue result ↔ (self.now ≡ other.now) }
    {
        let own = self.fields.as_ref();
        let fields = other.fields.as_ref();
        if own.len() != fields.len() {
            return false;
        }
        for (i, field) in own.iter().enumerate() {
            if !is_same_field(field, &fields[i]) {
                return false;
            }
        }
        true
    }
}

#[cycle(same)]
fn is_same_field(a: &(Str, Value), b: &(Str, Value)) -> bool
    ensures { IsTrue result ↔ (a.now ≡ b.now) }
{
    a.0 == b.0 && a.1.is_same(&b.1)
}

impl PartialEq for Value {
    ghost use Rattle.std.specs.Cmp.{decided, partial_equiv_from_equiv};
    ghost use Rattle.beldi_value.specs.Same.{same_value, value_decides};

    ghost eq = { same_value };

    ghost laws = { partial_equiv_from_equiv (decided same_value value_decides) };

    fn eq(&self, other: &Value) -> bool {
        self.is_same(other)
    }
}
