// Runs: executions of instances of functions.
ghost use Rattle.std.specs.Prelude.{◌≡◌, IfOk};
ghost use Rattle.beldi_step.specs.Run.{begin_of};

use beldi_call::{AsyncAt, CallAt};
use beldi_daal::WriteAt;
use beldi_lang::{Answer, Machine};
use beldi_row::{Body, RowKey};
use beldi_txn::{EndState, TxAt};
use beldi_value::{
    Boxed, Caller, Cause, IntentId, Outcome, Owner, Place, Shared, TxId, Value, copy_holder,
    or_drop,
};
use std::alloc::{AllocError, Global};

/// An execution of an instance, which may act while the moment is at most its deadline, in ticks.
#[derive(Drop)]
pub struct Run {
    pub id: IntentId,
    pub func: u16,
    pub deadline: u64,
    pub at: RunAt,
}

/// Where a run stands. Before its first turn nothing is known but whose it is, and what a call wants of it.
#[derive(Drop)]
pub enum RunAt {
    /// It looks for its body.
    Looks,
    /// It registers the body that its call gave it, if its intent has no row.
    Registers(Body),
    /// It has found its body.
    Begins(Begun),
}

/// A run that has found its body: its machine, who called it, the transaction that it is in, if any, and where it stands in
/// the machine's effect.
#[derive(Drop)]
pub struct Begun {
    pub machine: Machine,
    pub caller: Option<Shared<Caller>>,
    pub tx: Option<RunTx>,
    pub stage: Stage,
}

/// The transaction that a run is in.
#[derive(Drop)]
pub enum RunTx {
    /// Its instance began it, and has not ended it.
    Own(OpenTx),
    /// Its instance was called in it.
    Inherited(Shared<TxId>),
}

impl RunTx {
    /// The step of its begin.
    pub fn begin(&self) -> u32
        ensures { result ≡ begin_of self.now }
    {
        match self {
            RunTx::Own(tx) => tx.begin,
            RunTx::Inherited(tx) => tx.get().begin,
        }
    }
}

/// A transaction that is open: the step of its begin, and the cause of what was aborted in it.
#[derive(Drop)]
pub struct OpenTx {
    pub begin: u32,
    pub cause: Option<Cause>,
}

/// Where a run stands in an effect. What the effect is, the machine has.
#[derive(Drop)]
pub enum Stage {
    /// A read asks whether a value was kept for it.
    Ask,
    /// A read looks at this row of its item.
    Walk(u32),
    /// A read keeps the value that was found when `version` changes had been made.
    Keep { value: Value, version: u64 },
    /// An operation on an item stands here.
    Write(WriteAt),
    /// An operation inside a transaction stands here.
    Tx(TxAt),
    /// The end of a transaction is to be decided, which leaves this mark.
    Decide(Mark),
    /// The end of a transaction that was decided stands here.
    End(Boxed<EndState>),
    /// A call stands here.
    Call(CallAt),
    /// A call that nobody waits for stands here.
    Async(AsyncAt),
    /// The outcome is to be given back to the caller that waits for it.
    Back,
    /// The caller, which does not wait, is to be told that its callee is registered.
    Notify,
    /// The instance is to be ended with its outcome.
    Close,
}

/// What an act of a run puts into the book.
#[derive(Drop)]
pub enum Mark {
    /// The value of a read was kept that was found when so many changes had been made.
    Read(u64),
    /// A step was made.
    Step,
    /// A transaction was committed.
    CommittedTx,
    /// A transaction was aborted: at this place, by its body, by a fault, or where it met an item of the holder.
    AbortedTx {
        place: Boxed<Place>,
        holder: Option<Boxed<IntentId>>,
    },
}

impl Mark {
    /// An equal mark.
    pub fn copy(&self, alloc: Global) -> Result<Mark, AllocError>
        ensures { IfOk result (λ m. m ≡ self.now) }
    {
        match self {
            Mark::Read(version) => Ok(Mark::Read(*version)),
            Mark::Step => Ok(Mark::Step),
            Mark::CommittedTx => Ok(Mark::CommittedTx),
            Mark::AbortedTx { place, holder } => {
                let place = Boxed::new(alloc, place.get().copy(alloc)?)?;
                let holder = or_drop!(copy_holder(alloc, holder); place);
                Ok(Mark::AbortedTx { place, holder })
            }
        }
    }
}

/// Why a run stands.
#[derive(Drop)]
pub enum Wait {
    /// Another owner has the item.
    Held(Boxed<Owner>),
    /// The call has no result yet; its callee has this id.
    Result(Boxed<IntentId>),
    /// No row can follow the last one of an item, which is full.
    Worn,
}

/// What a stage says of what it was told.
#[derive(Drop)]
pub enum StageOutput {
    /// The effect goes on from here.
    On(Stage, Option<Mark>),
    /// The effect goes on from where it stands.
    Stays,
    /// The call was opened, and its callee has not ended: a run of it may start.
    Opens(Option<Mark>),
    /// The effect has this answer, and a run of its callee may start.
    Starts(Answer),
    /// The run stands where it stood.
    Waits(Wait),
    /// The effect has this answer.
    Answers(Answer, Option<Mark>),
    /// The run is over; its act ended the root with this outcome, if any.
    Ends(Option<Mark>, Option<Boxed<Outcome>>),
}

/// What a turn did: the mark of its act, whether the run is over, whether a run of what it calls may start, why it
/// stands, and the outcome of the root that it ended first.
#[derive(Drop)]
pub struct TurnOutput {
    pub mark: Option<Mark>,
    pub over: bool,
    pub starts: bool,
    pub wait: Option<Wait>,
    pub reply: Option<Boxed<Outcome>>,
}

/// The row of an item that a run's walk looks at next, and the place whose entry it looks for there; None where it reads.
#[derive(Drop)]
pub struct Walking {
    pub key: RowKey,
    pub place: Option<Place>,
}
