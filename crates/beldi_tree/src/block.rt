// Statements one after another.
ghost use Rattle.std.specs.Prelude.{◌≡◌, [], ◌∷◌, ◌++◌, OnOk, OnErr};
ghost use Rattle.beldi_tree.specs.Statement.{command_of, statements_view};

use crate::deployment::Stmt;
use std::alloc::{AllocError, Global};
use std::marker::Model;

/// The statements of a body, or of a part of one.
#[cycle(stmt)]
#[derive(Drop)]
pub struct Block {
    pub(crate) items: Vec<Stmt>,
}

impl Model for Block {
    ghost use Rattle.std.specs.Prelude.{List};
    ghost use Rattle.beldi_tree.specs.StatementCommand.{Command, coded_block, block_size};

    ghost Value = { List Command };

    ghost coded = { coded_block };

    ghost use Rattle.beldi_tree.specs.Statement.{statements_view};

    ghost view = { λ a. statements_view a.items.items };

    ghost size = { block_size };

    ghost use Rattle.std.proofs.Common.{arith};
    ghost use Rattle.beldi_tree.specs.TreeFalls.{most_statements};

    ghost size_decreases = { λ a h. omega (arith, most_statements a.items.items) };
}

impl Block {
    /// No statements.
    pub fn new(alloc: Global) -> Block
        ensures { result ≡ [] }
    {
        Block {
            items: Vec::new(alloc),
        }
    }

    /// Appends a statement.
    pub fn push(&mut self, item: Stmt) -> Result<(), AllocError>
        ensures ok { OnOk result (self.new ≡ self.old ++ command_of item ∷ []) }
        ensures err { OnErr result (self.new ≡ self.old) }
    {
        self.items.push(item)?;
        Ok(())
    }

    /// The statements.
    pub fn as_slice(&self) -> &[Stmt]
        ensures { statements_view result.now ≡ self.now }
    {
        self.items.as_slice()
    }
}
