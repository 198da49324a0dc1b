// Which function leads to which.
ghost use Rattle.std.specs.Prelude.{◌≡◌, ◌+◌, ◌<◌, ◌&&◌, ◌||◌, ℕ, Bool, length, IfOk, option_copied, slice_get};
ghost use Rattle.std.specs.List.{list_any};
ghost use Rattle.beldi_tree.specs.Statement.{command_of};
ghost use Rattle.beldi_check.specs.CallGraph.{leads, leads_to, leads_within, edge, edge_to, over, reaches, IsRow, IsGrid, row_at, at, cell};
ghost use Rattle.beldi_check.specs.Site.{site_of, sites_of};

use crate::listed::Listed;
use crate::site::Site;
use beldi_tree::{Form, Stmt};
use beldi_value::{Items, Str};
use std::alloc::{AllocError, Global};

/// What leads from a function to another one.
#[derive(Clone, Copy)]
pub enum Link {
    /// `call` alone.
    Call,
    /// `call` and `async`.
    Start,
}

/// Which functions something leads to, by their places.
pub type Row = Items<bool>;

fn leads(link: Link, name: &Str, stmt: &Stmt) -> bool
    ensures { result ≡ leads link name.now (command_of stmt.now) }
{
    match (link, &stmt.form) {
        (_, Form::Call { func, .. }) => func.text() == name,
        (Link::Start, Form::Async { func, .. }) => func.text() == name,
        _ => false,
    }
}

fn any_leads(link: Link, name: &Str, sites: &[Site]) -> bool
    ensures { result ≡ list_any (λ s. leads link name.now (command_of s.stmt.now)) sites.now }
{
    sites.iter().any(|site| leads(link, name, site.stmt))
}

fn any_leads_within(link: Link, name: &Str, sites: &[Site]) -> bool
    ensures { result ≡ list_any (λ s. s.place.in_transaction && leads link name.now (command_of s.stmt.now)) sites.now }
{
    sites.iter().any(|site| site.place.in_transaction && leads(link, name, site.stmt))
}

fn has_lead(link: Link, name: &Str, from: &Listed) -> bool
    ensures { result ≡ list_any (λ s. leads link name.now s.1) (sites_of from.now.body) }
{
    any_leads(link, name, from.sites())
}

fn has_lead_within(link: Link, name: &Str, from: &Listed) -> bool
    ensures { result ≡ list_any (λ s. s.0.in_transaction && leads link name.now s.1) (sites_of from.now.body) }
{
    any_leads_within(link, name, from.sites())
}

fn leads_within(link: Link, all: &[Listed], to: &Listed) -> bool
    ensures { result ≡ leads_within link all.now to.now }
{
    let name = &to.func().name;
    all.iter().any(|from| has_lead_within(link, name, from))
}

fn leads_to(link: Link, from: Option<&Listed>, to: &Listed) -> bool
    ensures { result ≡ leads_to link (option_copied from.entry) to.now }
{
    match from {
        Some(from) => has_lead(link, &to.func().name, from),
        None => false,
    }
}

fn edge_to(link: Link, all: &[Listed], i: usize, to: Option<&Listed>) -> bool
    ensures { result ≡ edge_to link all.now i (option_copied to.entry) }
{
    match to {
        Some(to) => {
            if i == all.len() {
                leads_within(link, all, to)
            } else {
                leads_to(link, all.get(i), to)
            }
        }
        None => false,
    }
}

// What i leads to in one step.
fn edges_from(alloc: Global, link: Link, all: &[Listed], i: usize) -> Result<Row, AllocError>
    ensures { IfOk result (λ row. IsRow (length all.now) (edge link all.now i) row) }
{
    let mut row = Row::new(alloc);
    for j in 0..all.len() {
        row.push(edge_to(link, all, i, all.get(j)))?;
    }
    Ok(row)
}

// Which leads to which in one step.
fn edges(alloc: Global, link: Link, all: &[Listed]) -> Result<Vec<Row>, AllocError>
    ensures { IfOk result (λ v. IsGrid (length all.now + 1) (length all.now) (edge link all.now) v.items) }
{
    let mut rows = Vec::new(alloc);
    for i in 0..all.len() + 1 {
        rows.push(edges_from(alloc, link, all, i)?)?;
    }
    Ok(rows)
}

/// Whether i leads to j, by these rows.
pub fn cell(rows: &[Row], i: usize, j: usize) -> bool
    requires row { i < length rows.now }
    requires column { j < length (row_at rows.now i) }
    ensures { result ≡ cell rows.now i j }
{
    rows[i].as_slice()[j]
}

// The row once a step over a function counts as well, which leads to these.
fn widened_row(alloc: Global, row: &[bool], by: usize, led: &[bool]) -> Result<Row, AllocError>
    requires by { by < length row.now }
    requires led { length led.now ≡ length row.now }
    ensures { IfOk result (λ wider. IsRow (length row.now) (λ j. at row.now j || (at row.now by && at led.now j)) wider) }
{
    let mut wider = Row::new(alloc);
    for j in 0..row.len() {
        wider.push(row[j] || (row[by] && led[j]))?;
    }
    Ok(wider)
}

// The rows, which are as long, once steps over this function count as well.
fn widened(alloc: Global, rows: &[Row], by: usize) -> Result<Vec<Row>, AllocError>
    requires row { by < length rows.now }
    requires column { by < length (row_at rows.now by) }
    requires grid { IsGrid (length rows.now) (length (row_at rows.now by)) (cell rows.now) rows.now }
    ensures { IfOk result (λ v. IsGrid (length rows.now) (length (row_at rows.now by)) (over (cell rows.now) by) v.items) }
{
    let mut wider = Vec::new(alloc);
    for i in 0..rows.len() {
        wider.push(widened_row(alloc, rows[i].as_slice(), by, rows[by].as_slice())?)?;
    }
    Ok(wider)
}

/// Which leads to which in some steps: a row for each function, and one for the first blocks of all transactions.
pub fn reach(alloc: Global, link: Link, all: &[Listed]) -> Result<Vec<Row>, AllocError>
    ensures { IfOk result (λ v. IsGrid (length all.now + 1) (length all.now) (reaches link all.now) v.items) }
{
    let mut rows = edges(alloc, link, all)?;
    for by in 0..all.len() {
        rows = widened(alloc, &rows, by)?;
    }
    Ok(rows)
}
