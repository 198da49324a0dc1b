// The grammar of expressions. `depth` is how many levels of nesting an expression in the phrase may open.
ghost use Rattle.std.specs.Prelude.{◌≡◌, ◌^◌, ◌-◌, ◌||◌, codes, length, IfOk, map};
ghost use Rattle.beldi_tree.specs.Term.{items_of, members_of, len, text_of, list, fields, negate, not};
ghost use Rattle.beldi_tree.specs.Expr.{term_of};
ghost use Rattle.beldi_syntax.specs.Phrase.{Reads, ReadsAs, times};
ghost use Rattle.beldi_syntax.specs.Expressions.{literal, begins_expr, no_expr, expr_at, chain, side, negation, unary, post, suffix, more, atom, bracketed, call, listed, member, argument, part, push_of, with_of, field_of};

use crate::operators::{Level, step};
use crate::refusal::{SyntaxErr, What};
use crate::tokens::Tokens;
use beldi_tree::{Expr, Exprs, Members, Step};
use beldi_value::{Str, or_drop};
use std::alloc::{AllocError, Global};

impl Tokens {
    // A name, a text or a number.
    fn literal(&mut self) -> Result<Expr, SyntaxErr>
        ensures { ReadsAs term_of (literal self.old) result self.new }
    {
        if self.is_name() {
            Ok(Expr::Name(self.name()?))
        } else if self.is_text() {
            Ok(Expr::Text(self.text()?))
        } else {
            Ok(Expr::Int(self.number(0, i64::MAX as u64)? as i64))
        }
    }

    fn begins_expr(&self) -> bool
        ensures { result ≡ begins_expr self.now }
    {
        self.is_name()
            || self.is_number()
            || self.is_text()
            || self.next_is_of(&[
                "not", "-", "(", "[", "{", "true", "false", "null", "len", "text", "push", "with",
            ])
    }

    // The refusal where no level is left for an expression.
    fn no_expr(&self) -> Result<Expr, SyntaxErr>
        ensures { ReadsAs term_of (no_expr self.now) result self.now }
    {
        if self.is_past_numbers() {
            Err(self.refusal(What::Number))
        } else if self.begins_expr() {
            Err(self.refusal(What::TooDeep))
        } else {
            Err(self.refusal(What::Syntax))
        }
    }

    /// An expression.
    #[cycle(grammar)]
    pub(crate) fn expr(&mut self, alloc: Global, depth: u32) -> Result<Expr, SyntaxErr>
        ensures { ReadsAs term_of (expr_at depth self.old) result self.new }
    {
        match depth.checked_sub(1) {
            Some(depth) => self.chain(alloc, depth, Level::Disjunction),
            None => self.no_expr(),
        }
    }

    /// Sides of this level with operators between them.
    #[cycle(grammar)]
    pub(crate) fn chain(
        &mut self,
        alloc: Global,
        depth: u32,
        level: Level,
    ) -> Result<Expr, SyntaxErr>
        ensures { ReadsAs term_of (chain level (side level (expr_at depth)) self.old) result self.new }
    {
        let mut left = self.side(alloc, depth, level)?;
        for _turn in 0..self.turns(level) {
            let Some(operator) = self.operator(level) else {
                return Ok(left)
            };
            self.pass();
            let right = match self.side(alloc, depth, level) {
                Ok(right) => right,
                Err(why) => {
                    drop(left);
                    return Err(why);
                }
            };
            left = match left.then(alloc, step(operator, right)) {
                Ok(expr) => expr,
                Err(_) => return Err(SyntaxErr::OutOfMemory),
            };
        }
        Ok(left)
    }

    // What stands beside the operators of this level.
    #[cycle(grammar)]
    fn side(&mut self, alloc: Global, depth: u32, level: Level) -> Result<Expr, SyntaxErr>
        ensures { ReadsAs term_of (side level (expr_at depth) self.old) result self.new }
    {
        match level {
            Level::Disjunction => self.chain(alloc, depth, Level::Conjunction),
            Level::Conjunction => self.negation(alloc, depth),
            Level::Relation => self.chain(alloc, depth, Level::Sum),
            Level::Sum => self.chain(alloc, depth, Level::Product),
            Level::Product => self.unary(alloc, depth),
        }
    }

    // Any number of `not`, and what they stand before.
    #[cycle(grammar)]
    fn negation(&mut self, alloc: Global, depth: u32) -> Result<Expr, SyntaxErr>
        ensures { ReadsAs term_of (negation (expr_at depth) self.old) result self.new }
    {
        let count = self.pass_all("not");
        let expr = self.chain(alloc, depth, Level::Relation)?;
        Ok(negated(alloc, count, expr)?)
    }

    // Any number of `-`, and what they stand before.
    #[cycle(grammar)]
    fn unary(&mut self, alloc: Global, depth: u32) -> Result<Expr, SyntaxErr>
        ensures { ReadsAs term_of (unary (expr_at depth) self.old) result self.new }
    {
        let count = self.pass_all("-");
        let expr = self.post(alloc, depth)?;
        Ok(negative(alloc, count, expr)?)
    }

    #[cycle(grammar)]
    fn post(&mut self, alloc: Global, depth: u32) -> Result<Expr, SyntaxErr>
        ensures { ReadsAs term_of (post (expr_at depth) self.old) result self.new }
    {
        let mut expr = self.atom(alloc, depth)?;
        for _turn in 0..self.len() {
            if !self.next_is_of(&[".", "["]) {
                return Ok(expr);
            }
            expr = match self.suffix(alloc, depth, expr) {
                Ok(expr) => expr,
                Err(why) => return Err(why),
            };
        }
        Ok(expr)
    }

    #[cycle(grammar)]
    fn atom(&mut self, alloc: Global, depth: u32) -> Result<Expr, SyntaxErr>
        ensures { ReadsAs term_of (atom (expr_at depth) self.old) result self.new }
    {
        if self.next_is("true") {
            self.pass();
            Ok(Expr::Bool(true))
        } else if self.next_is("false") {
            self.pass();
            Ok(Expr::Bool(false))
        } else if self.next_is("null") {
            self.pass();
            Ok(Expr::Null)
        } else {
            self.bracketed(alloc, depth)
        }
    }

    #[cycle(grammar)]
    fn bracketed(&mut self, alloc: Global, depth: u32) -> Result<Expr, SyntaxErr>
        ensures { ReadsAs term_of (bracketed (expr_at depth) self.old) result self.new }
    {
        if self.next_is("(") {
            self.argument(alloc, depth)
        } else if self.next_is("[") {
            self.pass();
            Ok(Expr::List(self.items(alloc, depth)?))
        } else if self.next_is("{") {
            self.pass();
            Ok(Expr::Record(self.members(alloc, depth)?))
        } else {
            self.call(alloc, depth)
        }
    }

    /// `(expr)`
    #[cycle(grammar)]
    pub(crate) fn argument(&mut self, alloc: Global, depth: u32) -> Result<Expr, SyntaxErr>
        ensures { ReadsAs term_of (argument (expr_at depth) self.old) result self.new }
    {
        self.take("(")?;
        let expr = self.expr(alloc, depth)?;
        or_drop!(self.take(")"); expr);
        Ok(expr)
    }

    // What follows `[` in a list.
    #[cycle(grammar)]
    fn items(&mut self, alloc: Global, depth: u32) -> Result<Exprs, SyntaxErr>
        ensures { Reads (listed (codes "]") (expr_at depth) self.old) result self.new }
    {
        let mut items = Exprs::new(alloc);
        if self.next_is("]") {
            self.pass();
            return Ok(items);
        }
        let item = or_drop!(self.expr(alloc, depth); items);
        or_drop!(items.push(item); items);
        let items = self.more_items(alloc, depth, items)?;
        or_drop!(self.take("]"); items);
        Ok(items)
    }

    // Items after these, each after a `,`.
    #[cycle(grammar)]
    fn more_items(&mut self, alloc: Global, depth: u32, items: Exprs) -> Result<Exprs, SyntaxErr>
        ensures { Reads (more (expr_at depth) items self.old) result self.new }
    {
        let mut all = items;
        for _turn in 0..self.len() {
            if !self.next_is(",") {
                return Ok(all);
            }
            self.pass();
            match self.expr(alloc, depth) {
                Ok(item) => match all.push(item) {
                    Ok(()) => (),
                    Err(_) => {
                        drop(all);
                        return Err(SyntaxErr::OutOfMemory);
                    }
                },
                Err(why) => {
                    drop(all);
                    return Err(why);
                }
            }
        }
        Ok(all)
    }

    // What follows `{` in a record.
    #[cycle(grammar)]
    fn members(&mut self, alloc: Global, depth: u32) -> Result<Members, SyntaxErr>
        ensures { Reads (listed (codes "}") (member (expr_at depth)) self.old) result self.new }
    {
        let mut members = Members::new(alloc);
        if self.next_is("}") {
            self.pass();
            return Ok(members);
        }
        let (key, value) = or_drop!(self.member(alloc, depth); members);
        or_drop!(members.push(key, value); members);
        let members = self.more_members(alloc, depth, members)?;
        or_drop!(self.take("}"); members);
        Ok(members)
    }

    // Fields after these, each after a `,`.
    #[cycle(grammar)]
    fn more_members(
        &mut self,
        alloc: Global,
        depth: u32,
        members: Members,
    ) -> Result<Members, SyntaxErr>
        ensures { Reads (more (member (expr_at depth)) members self.old) result self.new }
    {
        let mut all = members;
        for _turn in 0..self.len() {
            if !self.next_is(",") {
                return Ok(all);
            }
            self.pass();
            match self.member(alloc, depth) {
                Ok((key, value)) => match all.push(key, value) {
                    Ok(()) => (),
                    Err(_) => {
                        drop(all);
                        return Err(SyntaxErr::OutOfMemory);
                    }
                },
                Err(why) => {
                    drop(all);
                    return Err(why);
                }
            }
        }
        Ok(all)
    }

    // `"KEY": expr`
    #[cycle(grammar)]
    fn member(&mut self, alloc: Global, depth: u32) -> Result<(Str, Expr), SyntaxErr>
        ensures { ReadsAs (λ m. (m.0, term_of m.1)) (member (expr_at depth) self.old) result self.new }
    {
        let key = self.text()?;
        or_drop!(self.take(":"); key);
        let value = or_drop!(self.expr(alloc, depth); key);
        Ok((key, value))
    }

    // A word with expressions after it, or a literal.
    #[cycle(grammar)]
    fn call(&mut self, alloc: Global, depth: u32) -> Result<Expr, SyntaxErr>
        ensures { ReadsAs term_of (call (expr_at depth) self.old) result self.new }
    {
        if self.next_is("len") {
            self.pass();
            let part = self.argument(alloc, depth)?;
            Ok(part.then(alloc, Step::Len)?)
        } else if self.next_is("text") {
            self.pass();
            let part = self.argument(alloc, depth)?;
            Ok(part.then(alloc, Step::TextOf)?)
        } else if self.next_is("push") {
            self.pass();
            self.push_of(alloc, depth)
        } else if self.next_is("with") {
            self.pass();
            self.with_of(alloc, depth)
        } else {
            self.literal()
        }
    }

    // This sign and an expression.
    #[cycle(grammar)]
    fn part(&mut self, alloc: Global, depth: u32, sign: &str) -> Result<Expr, SyntaxErr>
        ensures { ReadsAs term_of (part (expr_at depth) sign.now self.old) result self.new }
    {
        self.take(sign)?;
        self.expr(alloc, depth)
    }

    // `(expr, expr)`, which follows `push`.
    #[cycle(grammar)]
    fn push_of(&mut self, alloc: Global, depth: u32) -> Result<Expr, SyntaxErr>
        ensures { ReadsAs term_of (push_of (expr_at depth) self.old) result self.new }
    {
        let list = self.part(alloc, depth, "(")?;
        let item = or_drop!(self.part(alloc, depth, ","); list);
        or_drop!(self.take(")"); list, item);
        Ok(list.then(alloc, Step::Push(item))?)
    }

    // `(expr, expr, expr)`, which follows `with`.
    #[cycle(grammar)]
    fn with_of(&mut self, alloc: Global, depth: u32) -> Result<Expr, SyntaxErr>
        ensures { ReadsAs term_of (with_of (expr_at depth) self.old) result self.new }
    {
        let fields = self.part(alloc, depth, "(")?;
        let key = or_drop!(self.part(alloc, depth, ","); fields);
        let value = or_drop!(self.part(alloc, depth, ","); fields, key);
        or_drop!(self.take(")"); fields, key, value);
        Ok(fields.then(alloc, Step::With(key, value))?)
    }

    // `.NAME` or `[expr]`, which follows this expression.
    #[cycle(grammar)]
    fn suffix(&mut self, alloc: Global, depth: u32, part: Expr) -> Result<Expr, SyntaxErr>
        ensures { ReadsAs term_of (suffix (expr_at depth) (term_of part) self.old) result self.new }
    {
        if self.next_is(".") {
            self.pass();
            self.field(alloc, part)
        } else {
            let index = or_drop!(self.part(alloc, depth, "["); part);
            or_drop!(self.take("]"); part, index);
            Ok(part.then(alloc, Step::Element(index))?)
        }
    }

    // The name of a field of this expression.
    fn field(&mut self, alloc: Global, whole: Expr) -> Result<Expr, SyntaxErr>
        ensures { ReadsAs term_of (field_of (term_of whole) self.old) result self.new }
    {
        let key = or_drop!(self.name(); whole);
        Ok(whole.then(alloc, Step::Field(key))?)
    }
}

// The expression with so many `not` before it.
fn negated(alloc: Global, count: usize, expr: Expr) -> Result<Expr, AllocError>
    ensures { IfOk result (λ e. term_of e ≡ times count not (term_of expr)) }
{
    let mut whole = expr;
    for _turn in 0..count {
        whole = match whole.then(alloc, Step::Not) {
            Ok(expr) => expr,
            Err(why) => return Err(why),
        };
    }
    Ok(whole)
}

// The expression with so many `-` before it.
fn negative(alloc: Global, count: usize, expr: Expr) -> Result<Expr, AllocError>
    ensures { IfOk result (λ e. term_of e ≡ times count negate (term_of expr)) }
{
    let mut whole = expr;
    for _turn in 0..count {
        whole = match whole.then(alloc, Step::Negate) {
            Ok(expr) => expr,
            Err(why) => return Err(why),
        };
    }
    Ok(whole)
}
