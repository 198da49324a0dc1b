//! Bodies: what a body wants, and the machine that runs one.
//! It stands on `beldi_tree`, whose deployments it takes and passes on. Its definitions: `specs/Wants` (what a body wants
//! after these answers, by recursion on its statements), `specs/BodyRuns` (how the machine runs a body, and goes on from a place),
//! `specs/Machine` (the machine after these answers, and one answer further) and `specs/HeldLocks`.
//!
//! Proved:
//! - What a body wants after these answers is a definition by recursion on its statements alone, from the first one each
//!   time, over the whole language: transactions, also inherited ones, aborts, loops, locks that are released before the
//!   return, the count of 10,000 (`specs/Wants`). It knows no place where a machine stands.
//! - A machine that stands where the answers so far lead wants what the body wants (`wants` of `Machine::wants`), its steps
//!   are the number of these answers (`number` of `Machine::steps`), and it is inside a transaction just where the body is
//!   (`Machine::is_inside`).
//! - `Machine::new` stands where no answers lead (`begun`), and `Machine::resume`, at an effect that wants an answer, where
//!   one more leads (`resumed`, `stands`).
//!
//! Files:
//! - Code (`src/`): `effect` effects and answers; `state` where a body stands; `scope` what its statements are run in;
//!   `request` what a statement without blocks does first, and after its answer; `run` statements up to the next effect, from
//!   their start, `resume` from where an answer was waited for; `machine` runs a body.
//! - Further definitions (`specs/`): `Bounds` a body that was called in a transaction wants neither a begin nor an end of
//!   one; `Callee` how a callee ended, as the answer to its call; `AnswersLeft` what the code tells of a statement: it has one
//!   answer at most, so none remains where it leaves.
//! - Lemmas (`proofs/`): `SameWants` the machine wants what the body wants; `Blocks` a block from one of its statements on;
//!   `OneByOne`, `Resumes` one answer more; `Spends` how many answers a body takes; `Occurs` which effects a body may want;
//!   `Bounds`.
#![tactic(auto)]

mod effect;
mod machine;
mod request;
mod resume;
mod run;
mod scope;
mod state;

pub use beldi_tree::{
    Block, Chain, Deployment, EvalErr, Expr, Exprs, Form, Func, Funcs, Members, Op, Step, Stmt,
    TableHead, TableHeads, Variables, evaluate, key_at,
};
pub use effect::{Answer, Effect};
pub use machine::Machine;
