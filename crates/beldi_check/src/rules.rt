// The rules that a deployment keeps.
ghost use Rattle.std.specs.Prelude.{◌≡◌, ◌+◌, [], not, length, slice_get, MatchResult, option_copied, option_and_then};
ghost use Rattle.std.specs.List.{list_any};
ghost use Rattle.beldi_tree.specs.Bindings.{is_name};
ghost use Rattle.beldi_tree.specs.Statement.{command_of};
ghost use Rattle.beldi_check.specs.CallGraph.{reaches, IsGrid};
ghost use Rattle.beldi_check.specs.Rules.{Refuses, has_function, has_table, double_table, double_name, past_most, some_if, func_in, table_in, is_break, is_return, is_transaction, is_async, is_lock, named, why_of, offence_at, first_site, first_statement, first_cycle, first_broken};
ghost use Rattle.beldi_check.specs.Site.{site_of, sites_of};
ghost use Rattle.beldi_check.specs.declared.calls.Link.TheVariants.{Call, Start};

use crate::calls::{Link, Row, cell, reach};
use crate::listed::Listed;
use crate::site::Site;
use crate::why::{CheckErr, Why};
use beldi_tree::{Form, Stmt, TableHead};
use beldi_value::Str;
use std::alloc::Global;

/// The rules on statements.
#[derive(Clone, Copy)]
pub enum Rule {
    UnknownFunction,
    UnknownTable,
    BreakOutside,
    NestedTx,
    LeavesTx,
    AsyncInTx,
    LockInTx,
}

/// At most so many functions, and so many tables of a function.
const MOST: usize = 64;

fn has_function(all: &[Listed], name: &Str) -> bool
    ensures { result ≡ has_function all.now name.now }
{
    all.iter().any(|one| one.func().name == *name)
}

fn has_table(tables: &[TableHead], name: &Str) -> bool
    ensures { result ≡ has_table tables.now name.now }
{
    tables.iter().any(|table| table.name == *name)
}

fn no_double_table(alloc: Global, tables: &[TableHead]) -> Result<(), CheckErr>
    ensures { MatchResult result (λ _. double_table [] tables.now ≡ None) (λ e. Refuses (double_table [] tables.now) e) }
{
    for (i, table) in tables.iter().enumerate() {
        if has_table(&tables[..i], &table.name) {
            return Err(CheckErr::Refused {
                line: table.line,
                why: Why::Duplicate(table.name.copy(alloc)?),
            });
        }
    }
    Ok(())
}

/// No two functions have one name, nor two tables of a function.
pub fn no_double_name(alloc: Global, all: &[Listed]) -> Result<(), CheckErr>
    ensures { MatchResult result (λ _. double_name [] all.now ≡ None) (λ e. Refuses (double_name [] all.now) e) }
{
    for (i, one) in all.iter().enumerate() {
        let func = one.func();
        if has_function(&all[..i], &func.name) {
            return Err(CheckErr::Refused {
                line: func.line,
                why: Why::Duplicate(func.name.copy(alloc)?),
            });
        }
        no_double_table(alloc, func.tables.as_slice())?;
    }
    Ok(())
}

// The table that 64 others stand before.
fn table_past_most(tables: &[TableHead]) -> Option<&TableHead>
    ensures { option_copied result ≡ slice_get tables.now 64 }
{
    tables.get(MOST)
}

/// There are at most 64 functions, and at most 64 tables of each.
pub fn within_most(all: &[Listed]) -> Result<(), CheckErr>
    ensures { MatchResult result (λ _. past_most 0 all.now ≡ None) (λ e. Refuses (past_most 0 all.now) e) }
{
    for (i, one) in all.iter().enumerate() {
        let func = one.func();
        if i >= MOST {
            return Err(CheckErr::Refused {
                line: func.line,
                why: Why::TooMany,
            });
        }
        match table_past_most(func.tables.as_slice()) {
            Some(table) => {
                return Err(CheckErr::Refused {
                    line: table.line,
                    why: Why::TooMany,
                });
            }
            None => {}
        }
    }
    Ok(())
}

// The function that a statement names.
fn func_in(stmt: &Stmt) -> Option<&Str>
    ensures { option_copied result ≡ func_in (command_of stmt.now) }
{
    match &stmt.form {
        Form::Call { func, .. } | Form::Async { func, .. } => Some(func.text()),
        _ => None,
    }
}

// The table that it names.
fn table_in(stmt: &Stmt) -> Option<&Str>
    ensures { option_copied result ≡ table_in (command_of stmt.now) }
{
    match &stmt.form {
        Form::Read { table, .. }
        | Form::Write { table, .. }
        | Form::CondWrite { table, .. }
        | Form::Lock { table, .. }
        | Form::Unlock { table, .. } => Some(table.text()),
        _ => None,
    }
}

fn some_if(holds: bool, name: &Str) -> Option<&Str>
    ensures { option_copied result ≡ some_if holds name.now }
{
    if holds { Some(name) } else { None }
}

// The function that a statement names, where there is none.
fn unknown_function<'a>(all: &[Listed], stmt: &'a Stmt) -> Option<&'a Str>
    ensures { option_copied result ≡ option_and_then (λ n. some_if (not (has_function all.now n)) n) (func_in (command_of stmt.now)) }
{
    match func_in(stmt) {
        Some(name) => some_if(!has_function(all, name), name),
        None => None,
    }
}

// The table that it names, where its function has none.
fn unknown_table<'a>(tables: &[TableHead], stmt: &'a Stmt) -> Option<&'a Str>
    ensures { option_copied result ≡ option_and_then (λ n. some_if (not (has_table tables.now n)) n) (table_in (command_of stmt.now)) }
{
    match table_in(stmt) {
        Some(name) => some_if(!has_table(tables, name), name),
        None => None,
    }
}

// The name that a refusal gives, where the statement breaks the rule.
fn named<'a>(
    rule: Rule,
    all: &[Listed],
    one: &Listed<'a>,
    within: bool,
    site: &Site<'a>,
) -> Option<&'a Str>
    ensures { option_copied result ≡ named rule all.now one.now within (site_of site.now) }
{
    let func = one.func();
    let form = &site.stmt.form;
    let place = site.place;
    match rule {
        Rule::UnknownFunction => unknown_function(all, site.stmt),
        Rule::UnknownTable => unknown_table(func.tables.as_slice(), site.stmt),
        Rule::BreakOutside => some_if(matches!(form, Form::Break) && !place.in_repeat, &func.name),
        Rule::NestedTx => some_if(
            matches!(form, Form::Transaction { .. }) && place.in_transaction,
            &func.name,
        ),
        Rule::LeavesTx => some_if(
            matches!(form, Form::Return(_)) && place.in_transaction
                || matches!(form, Form::Break) && place.leaves,
            &func.name,
        ),
        Rule::AsyncInTx => some_if(
            matches!(form, Form::Async { .. }) && (place.in_transaction || within),
            &func.name,
        ),
        Rule::LockInTx => some_if(
            matches!(form, Form::Lock { .. } | Form::Unlock { .. })
                && (place.in_transaction || within),
            &func.name,
        ),
    }
}

fn why(rule: Rule, name: Str) -> Why
    ensures { result ≡ why_of rule name }
{
    match rule {
        Rule::UnknownFunction => Why::UnknownFunction(name),
        Rule::UnknownTable => Why::UnknownTable(name),
        Rule::BreakOutside => Why::BreakOutside(name),
        Rule::NestedTx => Why::NestedTx(name),
        Rule::LeavesTx => Why::LeavesTx(name),
        Rule::AsyncInTx => Why::AsyncInTx(name),
        Rule::LockInTx => Why::LockInTx(name),
    }
}

// This statement keeps the rule.
fn kept_at(
    alloc: Global,
    rule: Rule,
    all: &[Listed],
    one: &Listed,
    within: bool,
    site: &Site,
) -> Result<(), CheckErr>
    ensures { MatchResult result (λ _. offence_at rule all.now one.now within (site_of site.now) ≡ None) (λ e. Refuses (offence_at rule all.now one.now within (site_of site.now)) e) }
{
    match named(rule, all, one, within, site) {
        Some(name) => Err(CheckErr::Refused {
            line: site.line(),
            why: why(rule, name.copy(alloc)?),
        }),
        None => Ok(()),
    }
}

// Each statement of this function keeps it.
fn kept_in(
    alloc: Global,
    rule: Rule,
    all: &[Listed],
    one: &Listed,
    within: bool,
) -> Result<(), CheckErr>
    ensures { MatchResult result (λ _. first_site rule all.now one.now within (sites_of one.now.body) ≡ None) (λ e. Refuses (first_site rule all.now one.now within (sites_of one.now.body)) e) }
{
    for site in one.sites() {
        kept_at(alloc, rule, all, one, within, site)?;
    }
    Ok(())
}

// Each statement keeps it; `inside` says which function leads to which by calls.
fn kept(alloc: Global, rule: Rule, all: &[Listed], inside: &[Row]) -> Result<(), CheckErr>
    requires { IsGrid (length all.now + 1) (length all.now) (reaches Call all.now) inside.now }
    ensures { MatchResult result (λ _. first_statement rule all.now ≡ None) (λ e. Refuses (first_statement rule all.now) e) }
{
    for (i, one) in all.iter().enumerate() {
        kept_in(alloc, rule, all, one, cell(inside, all.len(), i))?;
    }
    Ok(())
}

/// No statement breaks one of these rules.
pub fn all_kept(
    alloc: Global,
    rules: &[Rule],
    all: &[Listed],
    inside: &[Row],
) -> Result<(), CheckErr>
    requires { IsGrid (length all.now + 1) (length all.now) (reaches Call all.now) inside.now }
    ensures { MatchResult result (λ _. first_broken all.now rules.now ≡ None) (λ e. Refuses (first_broken all.now rules.now) e) }
{
    for rule in rules {
        kept(alloc, *rule, all, inside)?;
    }
    Ok(())
}

/// No function reaches itself by `call` and `async`.
pub fn no_cycle(alloc: Global, all: &[Listed]) -> Result<(), CheckErr>
    ensures { MatchResult result (λ _. first_cycle all.now 0 all.now ≡ None) (λ e. Refuses (first_cycle all.now 0 all.now) e) }
{
    let reached = reach(alloc, Link::Start, all)?;
    for (i, one) in all.iter().enumerate() {
        if cell(&reached, i, i) {
            drop(reached);
            let func = one.func();
            return Err(CheckErr::Refused {
                line: func.line,
                why: Why::CallCycle(func.name.copy(alloc)?),
            });
        }
    }
    drop(reached);
    Ok(())
}
