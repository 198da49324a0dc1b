// The limits of values, tested without memory.
ghost use Rattle.std.specs.Prelude.{◌≡◌, ◌≤◌, ◌+◌, ◌-◌, ◌∷◌, ℕ, length, nat_le, SomeIff, decimal, false};
ghost use Rattle.std.specs.Fmt.{signed_decimal};
ghost use Rattle.serde_json.specs.Written.{comma_if, items_text, members_text};
ghost use Rattle.json.specs.Print.{escape_byte, escape, quoted};
ghost use Rattle.beldi_value.specs.Value.{datum_of};
ghost use Rattle.beldi_value.specs.Datum.{int, items_of, fields_of};
ghost use Rattle.beldi_value.specs.Json.{json_items, json_fields};
ghost use Rattle.beldi_value.specs.Limits.{depth_of, items_depth, fields_depth, text_size, item_size, field_size, is_within};

use crate::text::Str;
use crate::value::{Rec, Value, Values};

const MOST_DEPTH: u32 = 32;

const MOST_BYTES: usize = 4096;

impl Value {
    /// Whether the value is within the limits of what is stored: 32 levels, and 4,096 bytes of canonical text.
    pub fn is_within(&self) -> bool
        ensures { result ≡ is_within (datum_of self.now) }
    {
        match self {
            Value::Null | Value::Bool(_) => true,
            Value::Int(number) => int_is_within(*number),
            _ => self.nests_within(MOST_DEPTH) && self.text_left(MOST_BYTES).is_some(),
        }
    }

    /// Whether lists and records nest so many levels deep at most.
    #[cycle(nests)]
    pub fn nests_within(&self, levels: u32) -> bool
        ensures { result ≡ nat_le (depth_of (datum_of self.now)) levels }
    {
        match self {
            Value::List(list) => levels > 0 && list.nest_within(levels - 1),
            Value::Rec(rec) => levels > 0 && rec.nest_within(levels - 1),
            _ => true,
        }
    }

    /// How much of a budget of bytes the canonical text leaves, where it fits.
    #[cycle(text_left)]
    pub fn text_left(&self, budget: usize) -> Option<usize>
        ensures { SomeIff result (text_size (datum_of self.now) ≤ budget) (budget - text_size (datum_of self.now)) }
    {
        match self {
            Value::Null => budget.checked_sub(4),
            Value::Bool(true) => budget.checked_sub(4),
            Value::Bool(false) => budget.checked_sub(5),
            Value::Int(number) => budget.checked_sub(int_len(*number)),
            Value::Text(text) => quoted_left(text, budget),
            Value::List(list) => list.text_left(budget),
            Value::Rec(rec) => rec.text_left(budget),
        }
    }
}

impl Value {
    // What a budget has left after an item and the comma before it.
    #[cycle(text_left)]
    fn item_left(&self, budget: usize, later: bool) -> Option<usize>
        ensures { SomeIff result (item_size (datum_of self.now) later ≤ budget) (budget - item_size (datum_of self.now) later) }
    {
        self.text_left(after_comma(budget, later)?)
    }
}

// How many digits a number has.
fn digits(number: u64) -> usize
    ensures len { result ≡ length (decimal number) }
    ensures few { result ≤ 20 }
{
    if number < 10 {
        1
    } else {
        digits(number / 10) + 1
    }
}

fn int_len(number: i64) -> usize
    ensures { result ≡ length (signed_decimal number) }
{
    let digits = digits(number.unsigned_abs());
    if number < 0 { digits + 1 } else { digits }
}

// A number has 20 bytes at most.
fn int_is_within(number: i64) -> bool
    ensures { result ≡ is_within (int number) }
{
    true
}

// How many bytes stand for a byte of a text.
#[tactic(auto, unfolding(json::specs::Print::escape_byte))]
fn escaped_len(byte: u8) -> usize
    ensures { result ≡ length (escape_byte byte) }
{
    match byte {
        b'"' | b'\\' | 8 | 9 | 10 | 12 | 13 => 2,
        0..=31 => 6,
        _ => 1,
    }
}

// What a budget has left after a text in its quotes, where that fits.
fn quoted_left(text: &Str, budget: usize) -> Option<usize>
    ensures { SomeIff result (length (quoted text.now) ≤ budget) (budget - length (quoted text.now)) }
{
    let mut left = budget.checked_sub(2)?;
    for byte in text.as_bytes() {
        left = left.checked_sub(escaped_len(*byte))?;
    }
    Some(left)
}

// What a budget has left after a comma, where something stands before.
fn after_comma(budget: usize, later: bool) -> Option<usize>
    ensures { SomeIff result (length (comma_if later) ≤ budget) (budget - length (comma_if later)) }
{
    budget.checked_sub(usize::from(later))
}

impl Values {
    #[cycle(nests)]
    pub(crate) fn nest_within(&self, levels: u32) -> bool
        ensures { result ≡ nat_le (items_depth (items_of self.now)) levels }
    {
        for v in self.items.as_ref() {
            if !v.nests_within(levels) {
                return false;
            }
        }
        true
    }

    #[cycle(text_left)]
    pub(crate) fn text_left(&self, budget: usize) -> Option<usize>
        ensures { SomeIff result (length (91 ∷ items_text false (json_items (items_of self.now))) ≤ budget) (budget - length (91 ∷ items_text false (json_items (items_of self.now)))) }
    {
        let mut left = budget.checked_sub(1)?;
        let mut later = false;
        for v in self.items.as_ref() {
            match v.item_left(left, later) {
                Some(rest) => left = rest,
                None => return None,
            }
            later = true;
        }
        left.checked_sub(1)
    }
}

impl Rec {
    #[cycle(nests)]
    pub(crate) fn nest_within(&self, levels: u32) -> bool
        ensures { result ≡ nat_le (fields_depth (fields_of self.now)) levels }
    {
        for field in self.fields.as_ref() {
            if !field.1.nests_within(levels) {
                return false;
            }
        }
        true
    }

    #[cycle(text_left)]
    pub(crate) fn text_left(&self, budget: usize) -> Option<usize>
        ensures { SomeIff result (length (123 ∷ members_text false (json_fields (fields_of self.now))) ≤ budget) (budget - length (123 ∷ members_text false (json_fields (fields_of self.now)))) }
    {
        let mut left = budget.checked_sub(1)?;
        let mut later = false;
        for field in self.fields.as_ref() {
            match Rec::field_left(field, left, later) {
                Some(rest) => left = rest,
                None => return None,
            }
            later = true;
        }
        left.checked_sub(1)
    }

    // What a budget has left after a field and the comma before it.
    #[cycle(text_left)]
    fn field_left(field: &(Str, Value), budget: usize, later: bool) -> Option<usize>
        ensures { SomeIff result (field_size field.now later ≤ budget) (budget - field_size field.now later) }
    {
        let left = quoted_left(&field.0, after_comma(budget, later)?)?;
        field.1.text_left(left.checked_sub(1)?)
    }
}
