// A deployment: its functions, the tables that each owns, and their bodies.
ghost use Rattle.std.specs.Prelude.{◌≡◌, ◌++◌, ◌∷◌, [], ◌-◌, ◌<◌, ◌≤◌, length, slice_get, option_copied, OnOk, OnErr, IfOk, IfSome};
ghost use Rattle.beldi_tree.specs.Names.{func_place as func_place_of, table_place as table_place_of};

use crate::block::Block;
use crate::find::{find_all, func_place_by, funcs_apart, table_place_by, tables_apart};
use crate::name::Name;
use crate::parts::{Chain, Exprs, Members};
use beldi_value::{Rel, Str, TextBuf};
use std::alloc::{AllocError, Global};
use std::marker::Model;

/// What a host runs. Functions are numbered from 1 in the order of the text.
#[derive(Drop)]
pub struct Deployment {
    /// How long a run may act, in ticks: 1 to 4,294,967,296.
    pub life: u64,
    /// How many rows the table may have: 1 to 65,536.
    pub room: u32,
    pub funcs: Funcs,
}

impl Deployment {
    ghost use Rattle.beldi_tree.specs.Names.{func_at, func_text};

    /// The function of this number, from 1.
    pub fn func_at(&self, number: u16) -> Option<&Func>
        ensures { option_copied result ≡ func_at self.now number }
    {
        if number == 0 {
            return None;
        }
        self.funcs.as_slice().get(number as usize - 1)
    }

    /// Appends the name of a function; its number, where there is none of it.
    pub fn write_func(&self, number: u16, out: &mut TextBuf) -> Result<(), AllocError>
        ensures ok { OnOk result (out.new ≡ out.old ++ func_text self.now number) }
        ensures err { OnErr result (out.new ≡ out.old) }
    {
        match self.func_at(number) {
            Some(found) => out.push_text(found.name.as_str()),
            None => out.push_number(u64::from(number)),
        }
    }
}

/// A function. Its tables are numbered from 0 in the order of the text.
#[derive(Drop)]
pub struct Func {
    pub name: Str,
    pub param: Str,
    pub tables: TableHeads,
    pub body: Block,
    /// The line of its first token.
    pub line: u32,
}

#[derive(Drop)]
pub struct TableHead {
    pub name: Str,
    /// The line of its first token.
    pub line: u32,
}

#[cycle(stmt)]
#[derive(Drop)]
pub struct Stmt {
    /// The line of its first token.
    pub line: u32,
    pub form: Form,
}

/// The forms of statements. A table is the function's own.
#[cycle(stmt)]
#[derive(Drop)]
pub enum Form {
    /// Sets a variable.
    Set {
        name: Str,
        value: Expr,
    },
    /// Sets a variable to the value of an item.
    Read {
        name: Str,
        table: Name,
        key: Expr,
    },
    /// Sets an item.
    Write {
        table: Name,
        key: Expr,
        value: Expr,
    },
    /// Sets an item where its value stands so to the operand, and a variable to whether it did.
    CondWrite {
        name: Str,
        table: Name,
        key: Expr,
        rel: Rel,
        operand: Expr,
        value: Expr,
    },
    /// Calls a function and sets a variable to what it returns.
    Call {
        name: Str,
        func: Name,
        args: Expr,
    },
    /// Has a function run, and does not wait for it.
    Async {
        func: Name,
        args: Expr,
    },
    Lock {
        table: Name,
        key: Expr,
    },
    Unlock {
        table: Name,
        key: Expr,
    },
    /// A block that takes effect as a whole or not at all, and one that runs where it was aborted.
    Transaction {
        block: Block,
        aborted: Block,
    },
    /// Aborts the transaction.
    Abort,
    /// Leaves the innermost loop.
    Break,
    /// Without `else` the second block is empty.
    If {
        test: Expr,
        block: Block,
        otherwise: Block,
    },
    Repeat {
        times: u32,
        block: Block,
    },
    Return(Expr),
}

/// The forms of expressions.
#[cycle(expr)]
#[derive(Drop)]
pub enum Expr {
    Int(i64),
    Text(Str),
    Bool(bool),
    Null,
    /// A variable: null where it was never set.
    Name(Str),
    List(Exprs),
    Record(Members),
    /// Operators, one after another. So a long row of them is no deep tree.
    Chain(Chain),
}

/// What is made of a value, the left side of an operator.
#[cycle(expr)]
#[derive(Drop)]
pub enum Step {
    Or(Expr),
    And(Expr),
    Not,
    /// The number with the other sign.
    Negate,
    Compare(Rel, Expr),
    Binary(Op, Expr),
    /// A field of the record, by its key.
    Field(Str),
    /// An element of the list, by its index from 0.
    Element(Expr),
    /// How many bytes the text has, or how many elements the list.
    Len,
    /// The canonical text.
    TextOf,
    /// The list with this appended.
    Push(Expr),
    /// The record, where the field of this key has this value.
    With(Expr, Expr),
}

/// The operators that take the values of both sides, beside the relations.
#[derive(Clone, Copy)]
pub enum Op {
    Add,
    Sub,
    /// One text after another.
    Join,
    Mul,
    Div,
    Rem,
}

pub(crate) fn func_place(funcs: &[Func], name: &[u8]) -> Option<usize>
    ensures found { result ≡ func_place_of funcs.now name.now }
    ensures within { IfSome result (λ i. i < length funcs.now) }
{
    funcs.iter().position(|func| func.name.as_bytes() == name)
}

pub(crate) fn table_place(tables: &[TableHead], name: &[u8]) -> Option<usize>
    ensures { result ≡ table_place_of tables.now name.now }
{
    tables
        .iter()
        .position(|table| table.name.as_bytes() == name)
}

/// The functions of a deployment.
#[derive(Drop)]
pub struct Funcs {
    items: Vec<Func>,
    /// Whether it was seen that no two have one name.
    apart: bool,
}

impl Model for Funcs {
    ghost use Rattle.std.specs.Prelude.{List};
    ghost use Rattle.std.specs.Coded.{codes};
    ghost use Rattle.beldi_tree.specs.declared.deployment.Func.{Func};
    ghost use Rattle.beldi_tree.specs.contracts.deployment.Func as func;

    ghost Value = { List Func };

    ghost coded = { Prim.hlevel (codes, func.the_row.coded) };

    ghost view = { λ a. a.items.items };

    ghost use Rattle.std.specs.Prelude.{IsTrue};
    ghost use Rattle.beldi_tree.specs.DistinctNames.{AreApart};

    ghost invariant = { λ a. IsTrue a.apart → AreApart (λ f. f.name) a.items.items };
}

impl Funcs {
    pub fn new(alloc: Global) -> Funcs
        ensures { result ≡ [] }
    {
        Funcs {
            items: Vec::new(alloc),
            apart: false,
        }
    }

    pub fn push(&mut self, item: Func) -> Result<(), AllocError>
        ensures ok { OnOk result (self.new ≡ self.old ++ item ∷ []) }
        ensures err { OnErr result (self.new ≡ self.old) }
    {
        self.apart = false;
        self.items.push(item)?;
        Ok(())
    }

    pub fn as_slice(&self) -> &[Func]
        ensures { result.now ≡ self.now }
    {
        self.items.as_slice()
    }

    /// Where the first function of this name stands, from 0. None where no function has it.
    pub fn place(&self, name: &[u8]) -> Option<usize>
        ensures found { result ≡ func_place_of self.now name.now }
        ensures within { IfSome result (λ i. i < length self.now) }
    {
        func_place(self.as_slice(), name)
    }

    /// The same for a name in a statement, which is not searched where it was found before.
    pub fn place_of(&self, name: &Name) -> Option<usize>
        ensures { result ≡ func_place_of self.now name.now }
    {
        func_place_by(self.items.as_slice(), self.apart, name)
    }

    /// Finds each name in each statement, among all functions and the tables of its own.
    pub fn find_names(&mut self, alloc: Global)
        ensures { self.new ≡ self.old }
    {
        find_all(alloc, &mut self.items);
        self.apart = funcs_apart(self.items.as_slice());
    }
}

/// The tables that a function owns.
#[derive(Drop)]
pub struct TableHeads {
    items: Vec<TableHead>,
    /// Whether it was seen that no two have one name.
    apart: bool,
}

impl Model for TableHeads {
    ghost use Rattle.std.specs.Prelude.{List};
    ghost use Rattle.beldi_tree.specs.declared.deployment.TableHead.{TableHead};

    ghost Value = { List TableHead };

    ghost view = { λ a. a.items.items };

    ghost use Rattle.std.specs.Prelude.{IsTrue};
    ghost use Rattle.beldi_tree.specs.DistinctNames.{AreApart};

    ghost invariant = { λ a. IsTrue a.apart → AreApart (λ t. t.name) a.items.items };
}

impl TableHeads {
    pub fn new(alloc: Global) -> TableHeads
        ensures { result ≡ [] }
    {
        TableHeads {
            items: Vec::new(alloc),
            apart: false,
        }
    }

    pub fn push(&mut self, item: TableHead) -> Result<(), AllocError>
        ensures ok { OnOk result (self.new ≡ self.old ++ item ∷ []) }
        ensures err { OnErr result (self.new ≡ self.old) }
    {
        self.apart = false;
        self.items.push(item)?;
        Ok(())
    }

    pub fn as_slice(&self) -> &[TableHead]
        ensures { result.now ≡ self.now }
    {
        self.items.as_slice()
    }

    /// Where the first table of this name stands, from 0. None where no table has it.
    pub fn place(&self, name: &[u8]) -> Option<usize>
        ensures { result ≡ table_place_of self.now name.now }
    {
        table_place(self.as_slice(), name)
    }

    /// The same for a name in a statement, which is not searched where it was found before.
    pub fn place_of(&self, name: &Name) -> Option<usize>
        ensures { result ≡ table_place_of self.now name.now }
    {
        table_place_by(self.items.as_slice(), self.apart, name)
    }

    pub(crate) fn see_apart(&mut self)
        ensures { self.new ≡ self.old }
    {
        self.apart = tables_apart(self.items.as_slice());
    }
}
