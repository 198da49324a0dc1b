// The calls on the way from the owner of a transaction to a participant.
ghost use Rattle.std.specs.Prelude.{◌≡◌, List, [], ◌∷◌, ◌++◌, IfOk, option_copied};
ghost use Rattle.beldi_lock.specs.Last.{split_last};
ghost use Rattle.beldi_txn.specs.CallPath.{callee_id, member_at, front_of, last_of, is_owner};

use beldi_value::{IntentId, TxId};
use std::alloc::{AllocError, Global};
use std::marker::Model;

/// A call that an intent made: its step, and the function called.
#[derive(Clone, Copy, Debug, PartialEq, Eq)]
pub struct Called {
    pub step: u32,
    pub func: u16,
}

/// The calls on the way from the owner of a transaction to a participant; none lead to the owner.
#[derive(Drop)]
pub struct CallPath {
    calls: Vec<Called>,
}

impl Model for CallPath {
    ghost use Rattle.std.specs.Prelude.{List};
    ghost use Rattle.beldi_txn.specs.declared.call_path.Called as called;

    ghost Value = { List called.Called };

    ghost view = { λ w. w.calls.items };
}

impl CallPath {
    /// The way to the owner.
    pub fn new(alloc: Global) -> CallPath
        ensures { result ≡ [] }
    {
        CallPath {
            calls: Vec::new(alloc),
        }
    }

    /// Whether it leads to the owner.
    pub fn is_owner(&self) -> bool
        ensures { result ≡ is_owner self.now }
    {
        self.calls.is_empty()
    }

    /// These calls and one more.
    pub fn with(&self, alloc: Global, call: Called) -> Result<CallPath, AllocError>
        ensures { IfOk result (λ w. w ≡ self.now ++ call ∷ []) }
    {
        let mut calls = Vec::from_slice(alloc, self.calls.as_slice())?;
        calls.push(call)?;
        Ok(CallPath { calls })
    }

    /// Takes the last call off.
    pub fn pop(&mut self) -> Option<Called>
        ensures left { self.new ≡ front_of (split_last self.old) }
        ensures last { result ≡ last_of (split_last self.old) }
    {
        self.calls.pop()
    }

    /// The function of who they lead to.
    pub fn func(&self, tx: &TxId) -> u16
        ensures { result ≡ (member_at (tx.now.intent, tx.now.func) self.now).1 }
    {
        match self.last() {
            Some(call) => call.func,
            None => tx.func,
        }
    }

    // The last call.
    fn last(&self) -> Option<&Called>
        ensures { option_copied result ≡ last_of (split_last self.now) }
    {
        self.calls.as_slice().last()
    }

    /// The intent that the calls lead to from the owner, and its function.
    pub fn member(&self, alloc: Global, tx: &TxId) -> Result<(IntentId, u16), AllocError>
        ensures { IfOk result (λ p. p ≡ member_at (tx.now.intent, tx.now.func) self.now) }
    {
        let mut id = tx.intent.copy(alloc)?;
        let mut func = tx.func;
        for call in self.calls.as_slice() {
            id = callee(alloc, &id, call.step)?;
            func = call.func;
        }
        Ok((id, func))
    }
}

// The callee of an intent at a step. One whose callees have no id stands for them.
fn callee(alloc: Global, id: &IntentId, step: u32) -> Result<IntentId, AllocError>
    ensures { IfOk result (λ a. a ≡ callee_id id.now step) }
{
    if id.has_callees() {
        id.child(alloc, step)
    } else {
        id.copy(alloc)
    }
}
