// The parts of expressions.
ghost use Rattle.std.specs.Prelude.{◌≡◌, [], ◌∷◌, ◌++◌, OnOk, OnErr, IfOk};
ghost use Rattle.beldi_tree.specs.Expr.{term_of, applied, chained, members_view};

use crate::deployment::{Expr, Step};
use beldi_value::{Str, or_drop};
use std::alloc::{AllocError, Global};
use std::marker::Model;

/// The items of a list.
#[cycle(expr)]
#[derive(Drop)]
pub struct Exprs {
    pub(crate) items: Vec<Expr>,
}

/// The fields of a record, in the order of the text. A key may stand twice.
#[cycle(expr)]
#[derive(Drop)]
pub struct Members {
    pub(crate) items: Vec<(Str, Expr)>,
}

/// An expression, and what is made of its value, step by step.
#[cycle(expr)]
#[derive(Drop)]
pub struct Chain {
    pub(crate) first: Box<Expr>,
    pub(crate) next: Box<Step>,
    pub(crate) more: Vec<Step>,
}

impl Model for Exprs {
    ghost use Rattle.std.specs.Prelude.{List};
    ghost use Rattle.beldi_tree.specs.Term.{Term, coded_terms, terms_size};

    ghost Value = { List Term };

    ghost coded = { coded_terms };

    ghost use Rattle.beldi_tree.specs.Expr.{items_view};

    ghost view = { λ a. items_view a.items.items };

    ghost size = { terms_size };

    ghost use Rattle.std.proofs.Common.{arith};
    ghost use Rattle.beldi_tree.specs.TreeFalls.{most_items};

    ghost size_decreases = { λ a h. omega (arith, most_items a.items.items) };
}

impl Model for Members {
    ghost use Rattle.std.specs.Prelude.{List, ℕ};
    ghost use Rattle.beldi_tree.specs.Term.{Term, coded_members, members_size};

    ghost Value = { List (List ℕ × Term) };

    ghost coded = { coded_members };

    ghost use Rattle.beldi_tree.specs.Expr.{members_view};

    ghost view = { λ a. members_view a.items.items };

    ghost size = { members_size };

    ghost use Rattle.beldi_tree.specs.TreeFalls.{most_members};

    ghost size_decreases = { λ a h. most_members a.items.items };
}

impl Model for Chain {
    ghost use Rattle.beldi_tree.specs.Term.{Term, coded_term, term_size};

    ghost Value = { Term };

    ghost coded = { coded_term };

    ghost use Rattle.beldi_tree.specs.Expr.{term_of, applied, chained};

    ghost view = { λ a. chained (applied (term_of a.first.value) a.next.value) a.more.items };

    ghost size = { term_size };

    ghost use Rattle.beldi_tree.specs.TreeFalls.{chain_falls};

    ghost size_decreases = { λ a h. chain_falls a.first.value a.next.value a.more.items };
}

impl Exprs {
    ghost use Rattle.beldi_tree.specs.Expr.{items_view};

    /// No items.
    pub fn new(alloc: Global) -> Exprs
        ensures { result ≡ [] }
    {
        Exprs {
            items: Vec::new(alloc),
        }
    }

    /// Appends an item.
    pub fn push(&mut self, item: Expr) -> Result<(), AllocError>
        ensures ok { OnOk result (self.new ≡ self.old ++ term_of item ∷ []) }
        ensures err { OnErr result (self.new ≡ self.old) }
    {
        self.items.push(item)?;
        Ok(())
    }

    /// The items.
    pub fn as_slice(&self) -> &[Expr]
        ensures { items_view result.now ≡ self.now }
    {
        self.items.as_slice()
    }
}

impl Members {
    /// No fields.
    pub fn new(alloc: Global) -> Members
        ensures { result ≡ [] }
    {
        Members {
            items: Vec::new(alloc),
        }
    }

    /// Appends a field.
    pub fn push(&mut self, key: Str, value: Expr) -> Result<(), AllocError>
        ensures ok { OnOk result (self.new ≡ self.old ++ (key, term_of value) ∷ []) }
        ensures err { OnErr result (self.new ≡ self.old) }
    {
        self.items.push((key, value))?;
        Ok(())
    }

    /// The fields.
    pub fn as_slice(&self) -> &[(Str, Expr)]
        ensures { members_view result.now ≡ self.now }
    {
        self.items.as_slice()
    }
}

impl Chain {
    /// The expression, and one step.
    pub fn new(alloc: Global, first: Expr, next: Step) -> Result<Chain, AllocError>
        ensures { IfOk result (λ c. c ≡ applied (term_of first) next) }
    {
        let first = or_drop!(Box::new(alloc, first); next);
        let next = or_drop!(Box::new(alloc, next); first);
        Ok(Chain {
            first,
            next,
            more: Vec::new(alloc),
        })
    }

    /// Appends a step.
    pub fn push(&mut self, step: Step) -> Result<(), AllocError>
        ensures ok { OnOk result (self.new ≡ applied self.old step) }
        ensures err { OnErr result (self.new ≡ self.old) }
    {
        self.more.push(step)?;
        Ok(())
    }
}

impl Expr {
    /// The expression, and this step from its value on.
    pub fn then(self, alloc: Global, step: Step) -> Result<Expr, AllocError>
        ensures { IfOk result (λ e. term_of e ≡ applied (term_of self) step) }
    {
        match self {
            Expr::Chain(chain) => {
                let mut chain = chain;
                or_drop!(chain.push(step); chain);
                Ok(Expr::Chain(chain))
            }
            first => Ok(Expr::Chain(Chain::new(alloc, first, step)?)),
        }
    }
}
