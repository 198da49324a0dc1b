// The statements of a body, and where each stands.
ghost use Rattle.std.specs.Prelude.{◌≡◌, ◌++◌, map, IfOk, OnOk};
ghost use Rattle.beldi_tree.specs.StatementCommand.{commands_of};
ghost use Rattle.beldi_check.specs.Site.{outside, repeated, transacted, sites, inside, sites_of, site_of, line_at};
ghost use Rattle.beldi_tree.specs.Statement.{command_of};

use beldi_tree::{Block, Form, Stmt};
use std::alloc::{AllocError, Global};

/// Where a statement stands in its function.
#[derive(Clone, Copy)]
pub struct Place {
    /// In a `repeat`.
    pub in_repeat: bool,
    /// In the first block of a transaction.
    pub in_transaction: bool,
    /// A `break` here ends a `repeat` that stands around the transaction.
    pub leaves: bool,
}

/// A statement and where it stands.
#[derive(Drop)]
pub struct Site<'a> {
    pub place: Place,
    pub stmt: &'a Stmt,
}

impl Place {
    fn outside() -> Place
        ensures { result ≡ outside }
    {
        Place {
            in_repeat: false,
            in_transaction: false,
            leaves: false,
        }
    }

    fn repeated(self) -> Place
        ensures { result ≡ repeated self }
    {
        Place {
            in_repeat: true,
            in_transaction: self.in_transaction,
            leaves: false,
        }
    }

    fn transacted(self) -> Place
        ensures { result ≡ transacted self }
    {
        Place {
            in_repeat: self.in_repeat,
            in_transaction: true,
            leaves: self.in_repeat,
        }
    }
}

impl<'a> Site<'a> {
    /// The line of the statement.
    pub fn line(&self) -> u32
        ensures { result ≡ line_at (site_of self.now).1 }
    {
        self.stmt.line
    }
}

/// The statements of a body in the order of the text, each before those in its blocks.
pub fn sites_of(alloc: Global, body: &Block) -> Result<Vec<Site>, AllocError>
    ensures { IfOk result (λ v. map site_of v.items ≡ sites_of body.now) }
{
    let mut found = Vec::new(alloc);
    list_block(&mut found, Place::outside(), body)?;
    Ok(found)
}

#[cycle(walk)]
fn list_block<'a>(
    found: &mut Vec<Site<'a>>,
    place: Place,
    block: &'a Block,
) -> Result<(), AllocError>
    ensures { OnOk result (map site_of found.new.items ≡ map site_of found.old.items ++ sites place (commands_of block.now)) }
{
    for stmt in block.as_slice() {
        found.push(Site { place, stmt })?;
        list_inside(found, place, stmt)?;
    }
    Ok(())
}

#[cycle(walk)]
fn list_inside<'a>(
    found: &mut Vec<Site<'a>>,
    place: Place,
    stmt: &'a Stmt,
) -> Result<(), AllocError>
    ensures { OnOk result (map site_of found.new.items ≡ map site_of found.old.items ++ inside place (command_of stmt.now)) }
{
    match &stmt.form {
        Form::Transaction { block, aborted } => {
            list_block(found, place.transacted(), block)?;
            list_block(found, place, aborted)
        }
        Form::If {
            block,
            otherwise,
            ..
        } => {
            list_block(found, place, block)?;
            list_block(found, place, otherwise)
        }
        Form::Repeat { block, .. } => list_block(found, place.repeated(), block),
        _ => Ok(()),
    }
}
