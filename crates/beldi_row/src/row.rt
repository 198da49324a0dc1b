// What rows hold.
ghost use Rattle.std.specs.Prelude.{◌≡◌, IfOk};

use crate::notes::Log;
use beldi_value::{Caller, Outcome, Owner, Shared, TxId, Value, or_drop};
use std::alloc::{AllocError, Global};

/// What an instance is to do: a function, its arguments, the transaction that it is called in, and its caller. A root
/// has neither of the last two.
#[derive(Drop)]
pub struct Body {
    pub func: u16,
    pub args: Value,
    pub tx: Option<Shared<TxId>>,
    pub parent: Option<Shared<Caller>>,
}

impl Body {
    /// An equal body.
    pub fn copy(&self, alloc: Global) -> Result<Body, AllocError>
        ensures { IfOk result (λ b. b ≡ self.now) }
    {
        let args = self.args.copy(alloc)?;
        let tx = match &self.tx {
            None => None,
            Some(tx) => Some(or_drop!(tx.copy(); args)),
        };
        let parent = match &self.parent {
            None => None,
            Some(parent) => Some(or_drop!(parent.copy(); args, tx)),
        };
        Ok(Body {
            func: self.func,
            args,
            tx,
            parent,
        })
    }
}

/// The row of an intent. Moments are in ticks: `issued` is when the row was made, `finish` is when all of its work was
/// done.
#[derive(Drop)]
pub struct IntentRow {
    pub issued: u64,
    pub body: Option<Body>,
    pub outcome: Option<Outcome>,
    pub finish: Option<u64>,
}

impl IntentRow {
    /// An equal intent.
    pub fn copy(&self, alloc: Global) -> Result<IntentRow, AllocError>
        ensures { IfOk result (λ i. i ≡ self.now) }
    {
        let body = match &self.body {
            None => None,
            Some(body) => Some(body.copy(alloc)?),
        };
        let outcome = match &self.outcome {
            None => None,
            Some(outcome) => Some(or_drop!(outcome.copy(alloc); body)),
        };
        Ok(IntentRow {
            issued: self.issued,
            body,
            outcome,
            finish: self.finish,
        })
    }
}

/// The row of a call: the function called, what it gave back, and whether an asynchronous call has been registered.
#[derive(Drop)]
pub struct InvokeRow {
    pub func: u16,
    pub result: Option<Outcome>,
    pub registered: bool,
}

/// A row of an item: its value, who owns it, the acts that it has seen, the number of the row after it, and, for rows
/// that are to be removed, whether it is marked and the tick since when no row leads to it.
#[derive(Drop)]
pub struct Cell {
    pub value: Value,
    pub owner: Option<Owner>,
    pub log: Log,
    pub next: Option<u32>,
    pub marked: bool,
    pub dangled: Option<u64>,
}

/// What a row holds. Rows of items and of their shadows are cells.
#[derive(Drop)]
pub enum Row {
    /// An intent.
    Intent(IntentRow),
    /// The value that a read was given.
    ReadLog(Value),
    /// A call that was made.
    Invoke(InvokeRow),
    /// A row of an item, or of a transaction's own copy of one.
    Cell(Cell),
    /// That a transaction asked for the lock of an item.
    Lockset,
}
