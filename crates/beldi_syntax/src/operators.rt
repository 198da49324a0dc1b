// Operators with two sides.
ghost use Rattle.std.specs.Prelude.{◌≡◌, length};
ghost use Rattle.beldi_tree.specs.Expr.{term_of, applied};
ghost use Rattle.beldi_tree.specs.Term.{Term};
ghost use Rattle.beldi_syntax.specs.Operators.{relation_at, sum_at, product_at, operator_at, joined, turns};

use crate::tokens::Tokens;
use beldi_tree::{Expr, Op, Step};
use beldi_value::Rel;

/// What binds expressions to each other, the loosest first.
#[derive(Clone, Copy)]
pub(crate) enum Level {
    Disjunction,
    Conjunction,
    Relation,
    Sum,
    Product,
}

#[derive(Clone, Copy)]
pub(crate) enum Operator {
    Or,
    And,
    Compare(Rel),
    Binary(Op),
}

impl Tokens {
    /// The relation that comes next.
    pub(crate) fn relation(&self) -> Option<Rel>
        ensures { result ≡ relation_at self.now }
    {
        if self.next_is("==") {
            Some(Rel::Eq)
        } else if self.next_is("!=") {
            Some(Rel::Ne)
        } else if self.next_is("<") {
            Some(Rel::Lt)
        } else if self.next_is("<=") {
            Some(Rel::Le)
        } else if self.next_is(">") {
            Some(Rel::Gt)
        } else if self.next_is(">=") {
            Some(Rel::Ge)
        } else {
            None
        }
    }

    fn sum_operator(&self) -> Option<Op>
        ensures { result ≡ sum_at self.now }
    {
        if self.next_is("+") {
            Some(Op::Add)
        } else if self.next_is("-") {
            Some(Op::Sub)
        } else if self.next_is("++") {
            Some(Op::Join)
        } else {
            None
        }
    }

    fn product_operator(&self) -> Option<Op>
        ensures { result ≡ product_at self.now }
    {
        if self.next_is("*") {
            Some(Op::Mul)
        } else if self.next_is("/") {
            Some(Op::Div)
        } else if self.next_is("%") {
            Some(Op::Rem)
        } else {
            None
        }
    }

    /// The operator of this level that comes next.
    pub(crate) fn operator(&self, level: Level) -> Option<Operator>
        ensures { result ≡ operator_at level self.now }
    {
        match level {
            Level::Disjunction if self.next_is("or") => Some(Operator::Or),
            Level::Conjunction if self.next_is("and") => Some(Operator::And),
            Level::Relation => self.relation().map(Operator::Compare),
            Level::Sum => self.sum_operator().map(Operator::Binary),
            Level::Product => self.product_operator().map(Operator::Binary),
            _ => None,
        }
    }

    /// How many operators of this level can follow one another. Each takes a token.
    pub(crate) fn turns(&self, level: Level) -> usize
        ensures { result ≡ turns level (length self.now) }
    {
        match level {
            Level::Relation => 1,
            _ => self.len(),
        }
    }
}

/// The operator and its right side, as a step from the left one on.
pub(crate) fn step(operator: Operator, right: Expr) -> Step
    ensures { (left : Term) → applied left result ≡ joined operator left (term_of right) }
{
    match operator {
        Operator::Or => Step::Or(right),
        Operator::And => Step::And(right),
        Operator::Compare(rel) => Step::Compare(rel, right),
        Operator::Binary(op) => Step::Binary(op, right),
    }
}
