// Finds the names in statements, once, so that none is searched when its statement runs.
ghost use Rattle.std.specs.Prelude.{◌≡◌, ◌<◌, IsTrue, length};
ghost use Rattle.beldi_tree.specs.DistinctNames.{AreApart};
ghost use Rattle.beldi_tree.specs.Names.{func_place as func_place_of, table_place as table_place_of};
ghost use Rattle.beldi_tree.specs.Statement.{command_of};

use crate::block::Block;
use crate::deployment::{Form, Func, Stmt, TableHead, func_place, table_place};
use crate::name::Name;
use std::alloc::Global;
use std::mem::replace;

// No two functions have one name.
pub fn funcs_apart(funcs: &[Func]) -> bool
    ensures { IsTrue result → AreApart (λ f. f.name) funcs.now }
{
    for (i, func) in funcs.iter().enumerate() {
        if func_place(funcs, func.name.as_bytes()) != Some(i) {
            return false;
        }
    }
    true
}

// No two tables have one name.
pub fn tables_apart(tables: &[TableHead]) -> bool
    ensures { IsTrue result → AreApart (λ t. t.name) tables.now }
{
    for (i, table) in tables.iter().enumerate() {
        if table_place(tables, table.name.as_bytes()) != Some(i) {
            return false;
        }
    }
    true
}

// The function of this name, at the place where it was found or else where it is.
pub fn func_place_by(funcs: &[Func], apart: bool, name: &Name) -> Option<usize>
    requires { IsTrue apart → AreApart (λ f. f.name) funcs.now }
    ensures { result ≡ func_place_of funcs.now name.now }
{
    let place = name.place;
    if apart && place < funcs.len() && funcs[place].name == *name.text() {
        Some(place)
    } else {
        func_place(funcs, name.text().as_bytes())
    }
}

pub fn table_place_by(tables: &[TableHead], apart: bool, name: &Name) -> Option<usize>
    requires { IsTrue apart → AreApart (λ t. t.name) tables.now }
    ensures { result ≡ table_place_of tables.now name.now }
{
    let place = name.place;
    if apart && place < tables.len() && tables[place].name == *name.text() {
        Some(place)
    } else {
        table_place(tables, name.text().as_bytes())
    }
}

fn find_table(name: &mut Name, tables: &[TableHead])
    ensures { name.new ≡ name.old }
{
    name.place = table_place(tables, name.text().as_bytes()).unwrap_or(0);
}

fn find_func(name: &mut Name, funcs: &[Func])
    ensures { name.new ≡ name.old }
{
    name.place = func_place(funcs, name.text().as_bytes()).unwrap_or(0);
}

impl Block {
    #[cycle(find)]
    fn find_names(&mut self, tables: &[TableHead], funcs: &[Func])
        ensures { self.new ≡ self.old }
    {
        for stmt in self.items.iter_mut() {
            stmt.find_names(tables, funcs);
        }
    }
}

impl Stmt {
    #[cycle(find)]
    fn find_names(&mut self, tables: &[TableHead], funcs: &[Func])
        ensures { command_of self.new ≡ command_of self.old }
    {
        match &mut self.form {
            Form::Read { table, .. } => find_table(table, tables),
            Form::Write { table, .. } => find_table(table, tables),
            Form::CondWrite { table, .. } => find_table(table, tables),
            Form::Lock { table, .. } => find_table(table, tables),
            Form::Unlock { table, .. } => find_table(table, tables),
            Form::Call { func, .. } => find_func(func, funcs),
            Form::Async { func, .. } => find_func(func, funcs),
            Form::Transaction { block, aborted } => {
                block.find_names(tables, funcs);
                aborted.find_names(tables, funcs);
            }
            Form::If {
                block,
                otherwise,
                ..
            } => {
                block.find_names(tables, funcs);
                otherwise.find_names(tables, funcs);
            }
            Form::Repeat { block, .. } => block.find_names(tables, funcs),
            _ => {}
        }
    }
}

// Finds the names in the body of one function, among its tables and all functions.
fn find_in(alloc: Global, funcs: &mut Vec<Func>, place: usize)
    requires { place < length funcs.old.items }
    ensures { funcs.new.items ≡ funcs.old.items }
{
    let func = &mut funcs[place];
    func.tables.see_apart();
    let mut body = replace(&mut func.body, Block::new(alloc));
    body.find_names(funcs[place].tables.as_slice(), funcs.as_slice());
    funcs[place].body = body;
}

pub fn find_all(alloc: Global, funcs: &mut Vec<Func>)
    ensures { funcs.new.items ≡ funcs.old.items }
{
    for place in 0..funcs.len() {
        find_in(alloc, funcs, place);
    }
}
