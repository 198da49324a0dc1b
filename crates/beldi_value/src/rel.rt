// Comparing a value with an operand.
ghost use Rattle.std.specs.Prelude.{◌≡◌};
ghost use Rattle.beldi_value.specs.Passes.{order_of, meets, passes};

use crate::value::Value;
use std::cmp::Ordering;

/// How a value is to stand to an operand.
#[derive(Clone, Copy, Debug, PartialEq, Eq)]
pub enum Rel {
    Eq,
    Ne,
    Lt,
    Le,
    Gt,
    Ge,
}

impl Rel {
    /// Whether this order is one that the relation asks for.
    pub fn meets(self, order: Ordering) -> bool
        ensures { result ≡ meets self order }
    {
        match self {
            Rel::Eq => order.is_eq(),
            Rel::Ne => order.is_ne(),
            Rel::Lt => order.is_lt(),
            Rel::Le => order.is_le(),
            Rel::Gt => order.is_gt(),
            Rel::Ge => order.is_ge(),
        }
    }
}

impl Value {
    /// How two whole numbers are ordered, or two texts by their bytes. Other values have no order.
    pub fn order(&self, operand: &Value) -> Option<Ordering>
        ensures { result ≡ order_of self.now operand.now }
    {
        match (self, operand) {
            (Value::Int(m), Value::Int(n)) => Some(m.cmp(n)),
            (Value::Text(s), Value::Text(t)) => Some(s.cmp(t)),
            _ => None,
        }
    }

    /// Whether the value stands so to the operand. `Eq` and `Ne` ask whether the two are equal. The other four hold only
    /// of two values that have an order.
    pub fn passes(&self, rel: Rel, operand: &Value) -> bool
        ensures { result ≡ passes self.now rel operand.now }
    {
        match rel {
            Rel::Eq => self == operand,
            Rel::Ne => self != operand,
            _ => match self.order(operand) {
                Some(order) => rel.meets(order),
                None => false,
            },
        }
    }
}
